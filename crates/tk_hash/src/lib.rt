//! Hash files as stores.
#![tactic(auto)]

mod counts;
mod found;
mod links;
mod open;
mod plan;
mod reading;
mod seek;
mod shelf;
mod store;

pub use store::HashStore;

#[cfg(test)]
mod cost_tests;
#[cfg(test)]
mod crash_tests;
#[cfg(test)]
mod tests;
