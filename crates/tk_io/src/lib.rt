//! Sources and sinks of bytes: in memory, and over the standard library's readers and writers.
#![tactic(auto)]

mod memory;
mod schedule;
mod standard;
mod stream;

pub use memory::{MemSink, MemSource};
pub use standard::{StdSink, StdSource};
pub use stream::{IoError, Sink, Source};

#[cfg(test)]
mod tests;
