//! The text of a script.
mod arguments;
mod iterate;
mod number;
mod read;
mod several;
mod write;

pub use read::read_script;
pub use write::write_script_line;
