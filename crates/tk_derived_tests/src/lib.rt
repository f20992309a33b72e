//! Tests of the calls of one record, as rows: each call with what it is to answer and tell.
#![tactic(auto)]

#[cfg(test)]
mod gate_tests;
pub mod row;
#[cfg(test)]
mod row_tests;
