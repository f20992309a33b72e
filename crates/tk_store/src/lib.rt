//! Stores for one caller.
#![tactic(auto)]

mod error;
mod hashed;
mod hashed_pair;
mod limit;
mod memory;
mod parting;
mod records;
mod run;
mod store;

pub use error::StoreError;
pub use hashed::{HashedRecords, PairsLeft, end_bucket, first_bucket, number_of_buckets};
pub use limit::is_over;
pub use run::run_on;
pub use store::SeqStore;
pub use tk_model::{OpenError, ShardOf, Unopened};

#[cfg(test)]
mod tests;
