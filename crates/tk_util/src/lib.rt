//! The commands that one caller runs.
#![tactic(auto)]

mod call;
mod end;
mod file;
mod key;
mod restore;
mod run;
mod set;
mod words;

pub use run::run_util;

#[cfg(test)]
mod tests;
#[cfg(test)]
mod word_tests;
