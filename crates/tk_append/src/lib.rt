//! Files of blocks on a disk.
#![tactic(auto)]

mod ahead;
mod blocks;
mod chains;
mod check;
mod extent;
mod fresh;
mod heads;
mod keys;
mod law;
mod log;
mod open;
mod pieces;
mod read;
mod restore;
mod scan;
mod walker;
mod window;

pub use check::length_of;
pub use extent::extent_of_change;
pub use fresh::{write_fresh, write_or_empty};
pub use law::{closed_files_open, fair_pasts_restore, files_are_read_back, fresh_files_are_whole};
pub use log::GroupLog;
pub use open::{check_all, open_log};
pub use read::{CountedLog, read_counted};
pub use restore::{change_of, restore_groups};
pub use walker::{OpenGroup, is_in_turn};
pub use window::{Window, read_piece};

#[cfg(test)]
mod crash_tests;
#[cfg(test)]
mod tests;
