//! Two texts of a list of records: flat text, and lines of two fields with a TAB between them.
#![tactic(auto)]

mod error;
mod field;
mod flat;
mod search;
mod tsv;

pub use error::TextError;
pub use field::{escape, unescape};
pub use flat::{flat_record, read_flat, write_flat};
pub use search::cut;
pub use tsv::{first_line_past_limits, next_line, read_tsv, write_line, write_tsv};

#[cfg(test)]
mod tests;
