//! Scripts of calls, and their output: read exactly, written, and printed.
#![tactic(auto)]

mod law;
mod line;
mod output;
mod script;

pub use law::{facts_tell, lines_are_read_back};
pub use line::{Line, LineList, Out, OutList, ScriptRules};
pub use output::{print_outs, write_out};
pub use script::{read_script, write_script_line};

#[cfg(test)]
mod tests;
