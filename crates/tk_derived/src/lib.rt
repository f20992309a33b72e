//! Calls of one record, each by its row of the reply table.
#![tactic(auto)]

mod appender;
mod counter;
mod exchanger;
mod getter;
mod remover;
mod reply;
mod setter;

pub use appender::append;
pub use counter::increment;
pub use exchanger::{ValueList, compare_exchange};
pub use getter::get;
pub use remover::remove;
pub use setter::set;
