//! Disks and folders: what a database is written to.
#![tactic(auto)]

mod buffer;
mod dir_folder;
mod disk;
mod file;
mod folder;
mod mem_folder;
mod memory;
mod open;
mod places;
mod tape;

pub use buffer::zeros;
pub use dir_folder::DirFolder;
pub use disk::{Disk, DiskError};
pub use file::FileDisk;
pub use folder::Folder;
pub use mem_folder::MemFolder;
pub use memory::MemDisk;

#[cfg(test)]
mod tests;
