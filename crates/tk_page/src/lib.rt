//! The text of the pages of an ordered tree.
#![tactic(auto)]

mod meta;
mod page;
mod read;
mod search;
mod view;
mod write;

pub use meta::{Meta, read_meta, write_meta};
pub use page::{Child, ChildList, Page};
pub use read::read_page;
pub use search::{children_rise, find_child, find_value, records_rise};
pub use view::{ChildHere, ChildHereList, PageHere, RecordHereList, page_here};
pub use write::write_page;

#[cfg(test)]
mod tests;
