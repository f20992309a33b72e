//! The running table: locks, one history and stores, for many threads.
#![tactic(auto)]

mod calls;
mod ends;
mod home;
mod lists;
mod pass;
mod rule;
mod steps;
mod table;
mod view;

pub use home::{Dissolved, Home, StoreList};
pub use pass::Pass;
pub use rule::Call;
pub use table::{LockTable, Origin};
pub use view::Seen;
