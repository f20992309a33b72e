//! Sets of files, of any kind.
#![tactic(auto)]

mod any_store;

pub use any_store::AnyStore;

#[cfg(test)]
mod tests;
