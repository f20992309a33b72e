ghost use Rattle.std.specs.Prelude.{◌≡◌, None, IfOk, OnOk, OnErr};
ghost use Rattle.tk_proc.specs.Increments.{increment_at, increment_reply, counting_after};

use crate::RecordProcessor;
use std::alloc::Global;
use std::marker::Model;
use tk_model::{Action, Bytes, NoMemory};
use tk_status::Status;

/// Adds to a number of eight bytes, or reads it.
#[derive(Debug, Drop)]
pub struct Counter {
    alloc: Global,
    by: i64,
    initial: i64,
    status: Status,
    number: Option<i64>,
}

impl Model for Counter {
    ghost use Rattle.tk_proc.specs.Increments.{Counting};

    ghost Value = { Counting };

    ghost view = { λ c.
        record { by = c.by; initial = c.initial; status = c.status; number = c.number } };
}

impl Counter {
    /// A counter that adds `n`, or reads where it is -2^63; an absent record counts as `initial`.
    pub fn new(alloc: Global, n: i64, initial: i64) -> Counter
        ensures { result
            ≡ record { by = n; initial = initial; status = Status.Success; number = None } }
    {
        Counter {
            alloc,
            by: n,
            initial,
            status: Status::Success,
            number: None,
        }
    }

    /// The answer of the last call.
    pub fn status(&self) -> Status
        ensures { result ≡ self.now.status }
    {
        self.status
    }

    /// The number that the last call read or stored.
    pub fn number(&self) -> Option<i64>
        ensures { result ≡ self.now.number }
    {
        self.number
    }

    /// The call at a record of this number.
    #[tactic(auto, unfolding(crate::specs::Increments::number_bytes))]
    fn count_from(&mut self, number: i64) -> Result<Action, NoMemory>
        ensures action { IfOk result (λ a. a ≡ (increment_at self.old.by number).action) }
        ensures turned { OnOk result (self.new ≡ counting_after self.old (increment_at self.old.by
            number)) }
        ensures err { OnErr result (self.new ≡ self.old) }
    {
        if self.by == i64::MIN {
            self.status = Status::Success;
            self.number = Some(number);
            return Ok(Action::Keep);
        }
        let Some(sum) = number.checked_add(self.by) else {
            self.status = Status::Infeasible;
            self.number = None;
            return Ok(Action::Keep);
        };
        let bytes = Bytes::from_slice(self.alloc, &sum.to_be_bytes())?;
        self.status = Status::Success;
        self.number = Some(sum);
        Ok(Action::Put(bytes))
    }
}

impl RecordProcessor for Counter {
    ghost acts = { λ c k was. (increment_reply c.by c.initial was).action };

    ghost turns = { λ c k was. counting_after c (increment_reply c.by c.initial was) };

    #[tactic(auto, unfolding(crate::specs::Increments::number_in))]
    fn process_full(&mut self, _: &[u8], value: &[u8]) -> Result<Action, NoMemory> {
        match <[u8; 8]>::try_from(value) {
            Ok(bytes) => self.count_from(i64::from_be_bytes(bytes)),
            Err(_) => {
                self.status = Status::InvalidArgument;
                self.number = None;
                Ok(Action::Keep)
            }
        }
    }

    fn process_empty(&mut self, _: &[u8]) -> Result<Action, NoMemory> {
        self.count_from(self.initial)
    }
}
