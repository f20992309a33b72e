//! Updating files: what changes make of their blocks, and what a crash leaves.
#![tactic(auto)]

mod block;
mod law;
mod plain;
mod restore;

pub use block::{BlockList, PlainBlock};
pub use law::{blocks_are_records, images_keep_keys, pasts_stay_fair, writes_make_blocks};
pub use plain::PlainBlocks;
pub use restore::restore_records;

#[cfg(test)]
mod tests;
