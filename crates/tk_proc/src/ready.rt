//! The processors of the calls at one record.
ghost use Rattle.std.specs.Prelude.{◌≡◌, ℕ, List, Option, Some, None, true, false, is_some};
ghost use Rattle.std.specs.Option.{option_copied};
ghost use Rattle.tk_proc.specs.Replies.{get_reply, set_reply, remove_reply};
ghost use Rattle.tk_model.specs.declared.record.Action.TheVariants.{Keep};

use crate::RecordProcessor;
use std::alloc::Global;
use std::marker::Model;
use tk_model::{Action, Bytes, NoMemory};
use tk_status::Status;

/// Reads a record.
#[derive(Debug, Drop)]
pub struct Getter {
    alloc: Global,
    found: Option<Bytes>,
}

impl Model for Getter {
    ghost use Rattle.std.specs.Prelude.{List, ℕ, Option};

    ghost Value = { Option (List ℕ) };

    ghost view = { λ g. g.found };
}

impl Getter {
    /// A getter that has read nothing.
    pub fn new(alloc: Global) -> Getter
        ensures { result ≡ None }
    {
        Getter { alloc, found: None }
    }

    /// The answer of the last call.
    pub fn status(&self) -> Status
        ensures { result ≡ (get_reply self.now).status }
    {
        match self.found {
            Some(_) => Status::Success,
            None => Status::NotFound,
        }
    }

    /// The value that the last call read.
    pub fn value(&self) -> Option<&[u8]>
        ensures { option_copied result ≡ (get_reply self.now).value }
    {
        match &self.found {
            Some(value) => Some(value.as_slice()),
            None => None,
        }
    }

    /// The value that the last call read, given away.
    pub fn into_value(self) -> Option<Bytes>
        ensures { result ≡ (get_reply self).value }
    {
        let Getter { found, .. } = self;
        found
    }
}

impl RecordProcessor for Getter {
    ghost acts = { λ g k was. (get_reply was).action };

    ghost turns = { λ g k was. was };

    fn process_full(&mut self, _: &[u8], value: &[u8]) -> Result<Action, NoMemory> {
        self.found = Some(Bytes::from_slice(self.alloc, value)?);
        Ok(Action::Keep)
    }

    fn process_empty(&mut self, _: &[u8]) -> Result<Action, NoMemory> {
        self.found = None;
        Ok(Action::Keep)
    }
}

/// Stores a value, whatever is there.
#[derive(Debug, Drop)]
pub struct Setter {
    value: Bytes,
}

impl Model for Setter {
    ghost use Rattle.std.specs.Prelude.{List, ℕ};

    ghost Value = { List ℕ };

    ghost view = { λ s. s.value };
}

impl Setter {
    /// A setter of this value.
    pub fn new(value: Bytes) -> Setter
        ensures { result ≡ value }
    {
        Setter { value }
    }

    /// The answer of the last call.
    pub fn status(&self) -> Status
        ensures { (was : Option (List ℕ)) → result ≡ (set_reply self.now true was).status }
    {
        Status::Success
    }
}

impl RecordProcessor for Setter {
    ghost acts = { λ s k was. (set_reply s true was).action };

    ghost turns = { λ s k was. s };

    fn process_full(&mut self, _: &[u8], _: &[u8]) -> Result<Action, NoMemory> {
        Ok(Action::Put(self.value.clone()?))
    }

    fn process_empty(&mut self, _: &[u8]) -> Result<Action, NoMemory> {
        Ok(Action::Put(self.value.clone()?))
    }
}

/// Stores a value where there is none.
#[derive(Debug, Drop)]
pub struct Adder {
    value: Bytes,
    there: bool,
}

impl Model for Adder {
    ghost use Rattle.tk_proc.specs.Replies.{Adding};

    ghost Value = { Adding };

    ghost view = { λ a. record { value = a.value; found = a.there } };
}

impl Adder {
    /// An adder of this value that has found nothing.
    pub fn new(value: Bytes) -> Adder
        ensures value { result.value ≡ value }
        ensures found { result.found ≡ false }
    {
        Adder {
            value,
            there: false,
        }
    }

    /// The answer of the last call.
    pub fn status(&self) -> Status
        ensures { (was : Option (List ℕ)) → is_some was ≡ self.now.found
            → result ≡ (set_reply self.now.value false was).status }
    {
        if self.there {
            Status::Duplication
        } else {
            Status::Success
        }
    }
}

impl RecordProcessor for Adder {
    ghost acts = { λ a k was. (set_reply a.value false was).action };

    ghost turns = { λ a k was. record { value = a.value; found = is_some was } };

    fn process_full(&mut self, _: &[u8], _: &[u8]) -> Result<Action, NoMemory> {
        self.there = true;
        Ok(Action::Keep)
    }

    fn process_empty(&mut self, _: &[u8]) -> Result<Action, NoMemory> {
        let value = self.value.clone()?;
        self.there = false;
        Ok(Action::Put(value))
    }
}

/// Takes a record away.
#[derive(Debug, Drop)]
pub struct Remover {
    found: bool,
}

impl Model for Remover {
    ghost use Rattle.std.specs.Prelude.{Bool};

    ghost Value = { Bool };

    ghost view = { λ r. r.found };
}

impl Remover {
    /// A remover that has found nothing.
    pub fn new() -> Remover
        ensures { result ≡ false }
    {
        Remover { found: false }
    }

    /// The answer of the last call.
    pub fn status(&self) -> Status
        ensures { (was : Option (List ℕ)) → is_some was ≡ self.now
            → result ≡ (remove_reply was).status }
    {
        if self.found {
            Status::Success
        } else {
            Status::NotFound
        }
    }
}

impl RecordProcessor for Remover {
    ghost acts = { λ r k was. (remove_reply was).action };

    ghost turns = { λ r k was. is_some was };

    fn process_full(&mut self, _: &[u8], _: &[u8]) -> Result<Action, NoMemory> {
        self.found = true;
        Ok(Action::Drop)
    }

    fn process_empty(&mut self, _: &[u8]) -> Result<Action, NoMemory> {
        self.found = false;
        Ok(Action::Keep)
    }
}
