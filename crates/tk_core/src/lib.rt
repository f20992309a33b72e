//! The pure core of one history under rising locks.
#![tactic(auto)]

mod commit;
mod covers;
mod frame;
mod law;
mod locking;
mod machine;
mod moves;
mod run;
mod steps;

pub use frame::Frame;
pub use law::{
    all_reached_meet_the_rule, callers_know, commits_keep_the_rule, covers_are_enough,
    halves_keep_the_rule, locks_keep_the_rule, no_ring, stores_keep_the_rule,
};
pub use machine::Core;
pub use moves::{Move, MoveList};

#[cfg(test)]
mod cover_tests;
#[cfg(test)]
mod run_tests;
#[cfg(test)]
mod tests;
