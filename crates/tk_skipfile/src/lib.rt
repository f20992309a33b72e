//! A file of sorted records with links to records further behind.
#![tactic(auto)]

mod header;
mod here;
mod levels;
mod links;
mod pieces;
mod places;
mod record;
mod walker;
mod write;

pub use header::write_header;
pub use places::fits_skip;
pub use write::write_skip;

#[cfg(test)]
mod tests;
