//! Record processors: what is to become of a record, by the value that it has.
#![tactic(auto)]

mod append;
mod count;
mod exchange;
mod gates;
mod law;
mod list;
mod processor;
mod ready;

pub use append::Appender;
pub use count::Counter;
pub use exchange::{Desired, Exchanger, Expected};
pub use gates::{At, Gate, Gated, OpenGate};
pub use law::{numbers_are_read_back, runs_are_legal, values_are_met_alone};
pub use list::ProcList;
pub use processor::{RecordProcessor, ask};
pub use ready::{Adder, Getter, Remover, Setter};

#[cfg(test)]
mod tests;
