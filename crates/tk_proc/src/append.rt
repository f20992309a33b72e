ghost use Rattle.std.specs.Prelude.{◌≡◌, ℕ, List, Option};
ghost use Rattle.tk_proc.specs.Replies.{append_reply};

use crate::RecordProcessor;
use std::alloc::Global;
use std::marker::Model;
use tk_model::{Action, Bytes, NoMemory};
use tk_status::Status;

/// Stores a value behind the one that is there, with a delimiter between the two.
#[derive(Debug, Drop)]
pub struct Appender {
    alloc: Global,
    value: Bytes,
    delimiter: Bytes,
}

impl Model for Appender {
    ghost use Rattle.tk_proc.specs.Replies.{Appending};

    ghost Value = { Appending };

    ghost view = { λ a. record { value = a.value; delimiter = a.delimiter } };
}

impl Appender {
    /// An appender of this value, and of this delimiter in front of it where there is a value.
    pub fn new(alloc: Global, value: Bytes, delim: Bytes) -> Appender
        ensures { result ≡ record { value = value; delimiter = delim } }
    {
        Appender {
            alloc,
            value,
            delimiter: delim,
        }
    }

    /// The answer of the last call.
    pub fn status(&self) -> Status
        ensures { (was : Option (List ℕ))
            → result ≡ (append_reply self.now.value self.now.delimiter was).status }
    {
        Status::Success
    }
}

impl RecordProcessor for Appender {
    ghost acts = { λ a k was. (append_reply a.value a.delimiter was).action };

    ghost turns = { λ a k was. a };

    fn process_full(&mut self, _: &[u8], value: &[u8]) -> Result<Action, NoMemory> {
        let behind = self.delimiter.len().saturating_add(self.value.len());
        let mut longer = Bytes::with_capacity(self.alloc, value.len().saturating_add(behind))?;
        longer.extend(value)?;
        longer.extend(self.delimiter.as_slice())?;
        longer.extend(self.value.as_slice())?;
        Ok(Action::Put(longer))
    }

    fn process_empty(&mut self, _: &[u8]) -> Result<Action, NoMemory> {
        Ok(Action::Put(self.value.clone()?))
    }
}
