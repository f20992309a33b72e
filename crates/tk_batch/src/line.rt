ghost use Rattle.std.specs.Prelude.{◌≡◌};

use tk_calls::{Call, FieldList};
use tk_model::ListOf;
use tk_status::Status;

/// What a script may hold.
#[derive(Clone, Copy, Debug)]
pub struct ScriptRules {
    /// A line's worker is below this.
    pub workers: u32,
    /// Calls of the iterator are taken.
    pub iterators: bool,
    pub bytes: u64,
    pub lines: u64,
}

impl ScriptRules {
    /// The rules of the command: at most 268,435,456 bytes and 1,000,000 lines.
    pub fn new(workers: u32, iterators: bool) -> ScriptRules
        ensures { result ≡ record {
          workers = workers;
          iterators = iterators;
          bytes = 268435456;
          lines = 1000000;
        } }
    {
        ScriptRules {
            workers,
            iterators,
            bytes: 268_435_456,
            lines: 1_000_000,
        }
    }
}

/// A line of a script: its worker, and the call that it makes.
#[derive(Drop)]
pub struct Line {
    pub worker: u32,
    pub call: Call,
}

pub type LineList = ListOf<Line>;

/// What is printed for a line, beside its worker and its place.
#[derive(Drop)]
pub struct Out {
    pub number: Option<u64>,
    pub status: Status,
    pub fields: FieldList,
}

pub type OutList = ListOf<Out>;
