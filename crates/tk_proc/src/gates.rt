use crate::RecordProcessor;
use tk_model::{Action, NoMemory};

/// What a line of a script passes at each record that its call touches.
pub trait Gate: Sync {
    /// A worker's line comes to a record.
    fn pass(&self, worker: u32, line: u64);
}

/// A gate, with the line of a script that passes it.
#[derive(Debug)]
#[derive_where(Clone, Copy)]
pub struct At<'a, G> {
    pub gate: &'a G,
    pub worker: u32,
    pub line: u64,
}

/// A gate that holds up nobody.
#[derive(Clone, Copy, Debug)]
pub struct OpenGate;

impl Gate for OpenGate {
    fn pass(&self, _: u32, _: u64) {}
}

/// A processor whose calls pass a gate before they answer.
#[derive(Debug, Drop)]
pub struct Gated<'a, P, G> {
    pub processor: P,
    pub at: At<'a, G>,
}

impl<P: RecordProcessor, G: Gate> RecordProcessor for Gated<'_, P, G> {
    ghost acts = { λ g k was. P.acts g.processor k was };

    ghost turns = { λ g k was. record g { processor = P.turns g.processor k was } };

    fn process_full(&mut self, key: &[u8], value: &[u8]) -> Result<Action, NoMemory> {
        self.at.gate.pass(self.at.worker, self.at.line);
        self.processor.process_full(key, value)
    }

    fn process_empty(&mut self, key: &[u8]) -> Result<Action, NoMemory> {
        self.at.gate.pass(self.at.worker, self.at.line);
        self.processor.process_empty(key)
    }
}
