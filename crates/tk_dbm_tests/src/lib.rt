//! What tests and measurements of the database share.
#![tactic(auto)]

pub mod fixture;
mod meeting;
mod tagger;

pub use meeting::Meeting;
pub use tagger::Tagger;

#[cfg(test)]
mod closing_tests;
#[cfg(test)]
mod file_tests;
#[cfg(test)]
mod refusal_tests;
#[cfg(test)]
mod stores;
#[cfg(test)]
mod thread_tests;
