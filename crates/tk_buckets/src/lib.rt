//! The buckets of a file of blocks, as linked lists.
#![tactic(auto)]

mod frame;
mod linking;
mod lookup;
mod places;
mod read;

pub use frame::writes_leave_chains;
pub use linking::{insert, unlink};
pub use lookup::{FoundBlock, fill_value, find_block};
pub use places::{PlaceList, chain};
pub use read::{number_at, read_bytes};

#[cfg(test)]
mod tests;
