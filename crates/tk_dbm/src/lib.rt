//! Calls of a database that many threads share.
#![tactic(auto)]

mod all_stripes;
mod answer;
mod change;
mod close;
mod dbm;
mod ending;
mod make;
mod pass;
mod passes;
mod picked;
mod process;
mod read;
mod visit;

pub use answer::Answer;
pub use close::Closed;
pub use dbm::Dbm;
pub use pass::Pass;
pub use tk_locks::StoreList;
