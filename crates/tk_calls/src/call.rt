ghost use Rattle.std.specs.Prelude.{◌≡◌};
ghost use Rattle.tk_calls.specs.Calls.{is_of_iterator, writes};

use tk_model::{Action, Bytes, BytesList, Entry, ListOf};
use tk_proc::{Desired, Expected};
use tk_status::Status;

/// A key with what its record is expected to be.
#[derive(Drop)]
pub struct ExpectedPair {
    pub key: Bytes,
    pub form: Expected,
}

pub type ExpectedList = ListOf<ExpectedPair>;

/// A key with what is to become of its record.
#[derive(Drop)]
pub struct DesiredPair {
    pub key: Bytes,
    pub form: Desired,
}

pub type DesiredList = ListOf<DesiredPair>;

/// What one step of `multi` does at its key.
#[derive(Drop)]
pub enum Op {
    Get,
    Set(Bytes),
    Add(Bytes),
    /// Without a delimiter.
    Append(Bytes),
    Remove,
}

/// One step of `multi`.
#[derive(Drop)]
pub struct MultiStep {
    pub op: Op,
    pub key: Bytes,
}

pub type MultiStepList = ListOf<MultiStep>;

/// A call of a script.
#[derive(Drop)]
pub enum Call {
    Get(Bytes),
    GetMulti(BytesList),
    Set {
        key: Bytes,
        value: Bytes,
    },
    Add {
        key: Bytes,
        value: Bytes,
    },
    Remove(Bytes),
    Append {
        key: Bytes,
        value: Bytes,
        delimiter: Bytes,
    },
    CompareExchange {
        key: Bytes,
        expected: Expected,
        desired: Desired,
    },
    CompareExchangeMulti {
        expected: ExpectedList,
        desired: DesiredList,
    },
    Increment {
        key: Bytes,
        n: i64,
        initial: i64,
    },
    Rekey {
        from: Bytes,
        to: Bytes,
        overwrite: bool,
        copying: bool,
    },
    /// Takes the first record.
    Pop,
    Multi(MultiStepList),
    /// Puts these bytes behind every value.
    Each(Bytes),
    Count,
    Clear,
    /// Hard or soft.
    Sync(bool),
    First,
    Last,
    Next,
    Previous,
    IterRemove,
    Jump(Bytes),
    /// To the last record at or below the key.
    Lower {
        key: Bytes,
        inclusive: bool,
    },
    /// To the first record at or above the key.
    Upper {
        key: Bytes,
        inclusive: bool,
    },
    IterGet,
    IterSet(Bytes),
}

/// Where an iterator stands.
#[derive(Drop)]
pub enum Position {
    Nowhere,
    /// At this key's record, or where it would be.
    At(Bytes),
    /// Behind this key, whose record the iterator removed.
    After(Bytes),
}

/// What is to become of a record, by the value that it has then.
#[derive(Drop)]
pub enum Step {
    Get,
    Set(Bytes),
    Add(Bytes),
    Remove,
    Append {
        value: Bytes,
        delimiter: Bytes,
    },
    Exchange {
        expected: Expected,
        desired: Desired,
    },
    Increment {
        n: i64,
        initial: i64,
    },
    /// Stores the value where there is one already.
    Replace(Bytes),
    /// Does this whatever is there.
    Always(Action),
}

/// A key, and what is to become of its record.
#[derive(Drop)]
pub struct Plan {
    pub key: Bytes,
    pub step: Step,
}

pub type PlanList = ListOf<Plan>;

/// A field of an output line: a value, or none.
pub type Field = Option<Bytes>;

pub type FieldList = ListOf<Field>;

/// What a call replies: what is printed of it, what it is in the history, and where its worker's iterator stands then.
#[derive(Drop)]
pub struct LineReply {
    pub status: Status,
    pub fields: FieldList,
    pub entry: Entry,
    pub position: Position,
}

impl Call {
    /// A database that is only read refuses it.
    pub fn writes(&self) -> bool
        ensures { result ≡ writes self.now }
    {
        !matches!(
            self,
            Call::Get(_)
                | Call::GetMulti(_)
                | Call::Count
                | Call::Sync(_)
                | Call::First
                | Call::Last
                | Call::Next
                | Call::Previous
                | Call::Jump(_)
                | Call::Lower { .. }
                | Call::Upper { .. }
                | Call::IterGet
        )
    }

    /// It is a call of its worker's iterator.
    pub fn is_of_iterator(&self) -> bool
        ensures { result ≡ is_of_iterator self.now }
    {
        matches!(
            self,
            Call::First
                | Call::Last
                | Call::Next
                | Call::Previous
                | Call::IterRemove
                | Call::Jump(_)
                | Call::Lower { .. }
                | Call::Upper { .. }
                | Call::IterGet
                | Call::IterSet(_)
        )
    }
}
