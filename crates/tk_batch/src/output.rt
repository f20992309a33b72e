//! The text of a script's output.
mod print;
mod write;

pub use print::print_outs;
pub use write::write_out;
