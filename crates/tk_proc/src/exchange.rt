ghost use Rattle.std.specs.Prelude.{◌≡◌, None, IfOk};
ghost use Rattle.std.specs.Option.{option_copied};
ghost use Rattle.tk_proc.specs.Replies.{is_met, desired_action, exchange_reply};

use crate::RecordProcessor;
use std::alloc::Global;
use std::marker::Model;
use tk_model::{Action, Bytes, NoMemory, is_same};
use tk_status::Status;

/// What a record is expected to be.
#[derive(Clone, Debug, Drop)]
pub enum Expected {
    /// Met where there is no record.
    Absent,
    /// Met by a record of any value.
    Any,
    /// Met by a record of this value alone.
    Value(Bytes),
}

/// What is to become of a record that is as expected.
#[derive(Clone, Debug, Drop)]
pub enum Desired {
    /// There is to be no record.
    Remove,
    /// The record stays as it is.
    Leave,
    /// The record is to have this value.
    Value(Bytes),
}

impl Expected {
    /// A record of this value, or an absent one, is as expected.
    pub fn is_met(&self, value: Option<&[u8]>) -> bool
        ensures { result ≡ is_met self.now (option_copied value.entry) }
    {
        match self {
            Expected::Absent => value.is_none(),
            Expected::Any => value.is_some(),
            Expected::Value(expected) => match value {
                Some(value) => is_same(expected.as_slice(), value),
                None => false,
            },
        }
    }
}

impl Desired {
    /// The action at a record that is as expected.
    pub fn action(&self) -> Result<Action, NoMemory>
        ensures { IfOk result (λ a. a ≡ desired_action self.now) }
    {
        match self {
            Desired::Remove => Ok(Action::Drop),
            Desired::Leave => Ok(Action::Keep),
            Desired::Value(value) => Ok(Action::Put(value.clone()?)),
        }
    }
}

/// Changes a record that is as expected, and tells what it was.
#[derive(Debug, Drop)]
pub struct Exchanger {
    alloc: Global,
    expected: Expected,
    desired: Desired,
    found: Option<Bytes>,
}

impl Model for Exchanger {
    ghost use Rattle.tk_proc.specs.Replies.{Exchanging};

    ghost Value = { Exchanging };

    ghost view = { λ e. record { expected = e.expected; desired = e.desired; found = e.found } };
}

impl Exchanger {
    /// An exchanger that has found no record.
    pub fn new(alloc: Global, expected: Expected, desired: Desired) -> Exchanger
        ensures { result ≡ record { expected = expected; desired = desired; found = None } }
    {
        Exchanger {
            alloc,
            expected,
            desired,
            found: None,
        }
    }

    /// The answer of the last call.
    pub fn status(&self) -> Status
        ensures { let reply = exchange_reply self.now.expected self.now.desired self.now.found in
            result ≡ reply.status }
    {
        if self.expected.is_met(self.value()) {
            Status::Success
        } else {
            Status::Infeasible
        }
    }

    /// The value that the last call found.
    pub fn value(&self) -> Option<&[u8]>
        ensures { let reply = exchange_reply self.now.expected self.now.desired self.now.found in
            option_copied result ≡ reply.value }
    {
        match &self.found {
            Some(value) => Some(value.as_slice()),
            None => None,
        }
    }

    /// The value that the last call found, given away.
    pub fn into_value(self) -> Option<Bytes>
        ensures { result ≡ (exchange_reply self.expected self.desired self.found).value }
    {
        let Exchanger { found, .. } = self;
        found
    }

    /// What becomes of a record of this value.
    fn action_at(&self, value: Option<&[u8]>) -> Result<Action, NoMemory>
        ensures { IfOk result (λ a. a ≡ (exchange_reply self.now.expected self.now.desired
            (option_copied value.entry)).action) }
    {
        if self.expected.is_met(value) {
            self.desired.action()
        } else {
            Ok(Action::Keep)
        }
    }
}

impl RecordProcessor for Exchanger {
    ghost acts = { λ e k was. (exchange_reply e.expected e.desired was).action };

    ghost turns = { λ e k was.
        record { expected = e.expected; desired = e.desired; found = was } };

    fn process_full(&mut self, _: &[u8], value: &[u8]) -> Result<Action, NoMemory> {
        let action = self.action_at(Some(value))?;
        self.found = Some(Bytes::from_slice(self.alloc, value)?);
        Ok(action)
    }

    fn process_empty(&mut self, _: &[u8]) -> Result<Action, NoMemory> {
        let action = self.action_at(None)?;
        self.found = None;
        Ok(action)
    }
}
