//! An ordered tree of pages, as plain data: what its pages hold, what updates make of them, and their file.
#![tactic(auto)]

mod law;
mod split;

pub use law::{numbers_are_given, one_path_decides, pages_are_the_tree, updates_stand};
pub use split::{LeafPart, LeafPartList, split_leaf};

#[cfg(test)]
mod tests;
