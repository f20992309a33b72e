//! Files that a crash left, restored.
#![tactic(auto)]

mod changes;
mod law;
mod reading;
mod records;
mod restore;
mod rising;
mod scan;
#[cfg(test)]
mod tests;

pub use law::restored_files_open;
pub use restore::{Restoration, read_restoration, restore_appending, write_restoration};
pub use scan::read_header;
