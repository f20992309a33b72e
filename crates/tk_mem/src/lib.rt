//! Stores that keep their records in memory.
#![tactic(auto)]

mod change;
mod load;
mod tiny_map;
mod tiny_records;
mod tiny_store;
mod write;

pub use tiny_records::TinyRecords;
pub use tiny_store::TinyStore;

#[cfg(test)]
mod file_tests;
#[cfg(test)]
mod tests;
