//! What single values bring.
ghost use Rattle.std.specs.Prelude.{◌≡◌, ◌++◌, IfOk, true, false, is_some, if◌then◌else◌};
ghost use Rattle.tk_model.specs.Records.{find};
ghost use Rattle.std.specs.Option.{option_copied};
ghost use Rattle.tk_proc.specs.Replies.{get_reply, set_reply, remove_reply, append_reply, is_met};
ghost use Rattle.tk_calls.specs.Planned.{step_action, replaced};
ghost use Rattle.tk_calls.specs.Iterators.{found_or_not};

use crate::{Field, Step};
use std::alloc::Global;
use tk_model::{Action, Bytes, NoMemory, PairList, value_at};
use tk_proc::{
    Adder, Appender, Counter, Desired, Exchanger, Expected, Getter, Remover, Setter, ask,
};
use tk_status::Status;

pub(crate) fn found_or_not(found: bool) -> Status
    ensures { result ≡ found_or_not found }
{
    if found {
        Status::Success
    } else {
        Status::NotFound
    }
}

pub(crate) fn met_or_not(met: bool) -> Status
    ensures { result ≡ (if met then Status.Success else Status.Infeasible) }
{
    if met {
        Status::Success
    } else {
        Status::Infeasible
    }
}

pub(crate) fn copy_value(value: Option<&Bytes>) -> Result<Field, NoMemory>
    ensures { IfOk result (λ copy. copy ≡ option_copied value.entry) }
{
    match value {
        Some(value) => Ok(Some(value.clone()?)),
        None => Ok(None),
    }
}

pub(crate) fn get_status(was: Option<&Bytes>) -> Status
    ensures { result ≡ (get_reply (option_copied was.entry)).status }
{
    found_or_not(was.is_some())
}

pub(crate) fn get_value(was: Option<&Bytes>) -> Result<Field, NoMemory>
    ensures { IfOk result (λ v. v ≡ (get_reply (option_copied was.entry)).value) }
{
    match was {
        Some(value) => Ok(Some(value.clone()?)),
        None => Ok(None),
    }
}

pub(crate) fn set_status(was: Option<&Bytes>, value: &Bytes) -> Status
    ensures { result ≡ (set_reply value.now true (option_copied was.entry)).status }
{
    let _ = value;
    match was {
        Some(_) => Status::Success,
        None => Status::Success,
    }
}

pub(crate) fn append_status(was: Option<&Bytes>, value: &Bytes, delimiter: &Bytes) -> Status
    ensures { result ≡ (append_reply value.now delimiter.now (option_copied was.entry)).status }
{
    let _ = value;
    let _ = delimiter;
    match was {
        Some(_) => Status::Success,
        None => Status::Success,
    }
}

pub(crate) fn is_met(expected: &Expected, was: Option<&Bytes>) -> bool
    ensures { result ≡ is_met expected.now (option_copied was.entry) }
{
    match was {
        Some(value) => expected.is_met(Some(value.as_slice())),
        None => expected.is_met(None),
    }
}

pub(crate) fn add_status(was: Option<&Bytes>, value: &Bytes) -> Status
    ensures { result ≡ (set_reply value.now false (option_copied was.entry)).status }
{
    let _ = value;
    match was {
        Some(_) => Status::Duplication,
        None => Status::Success,
    }
}

pub(crate) fn remove_status(was: Option<&Bytes>) -> Status
    ensures { result ≡ (remove_reply (option_copied was.entry)).status }
{
    found_or_not(was.is_some())
}

pub(crate) fn copy_action(action: &Action) -> Result<Action, NoMemory>
    ensures { IfOk result (λ copy. copy ≡ action.now) }
{
    match action {
        Action::Keep => Ok(Action::Keep),
        Action::Put(value) => Ok(Action::Put(value.clone()?)),
        Action::Drop => Ok(Action::Drop),
    }
}

pub(crate) fn copy_expected(expected: &Expected) -> Result<Expected, NoMemory>
    ensures { IfOk result (λ copy. copy ≡ expected.now) }
{
    match expected {
        Expected::Absent => Ok(Expected::Absent),
        Expected::Any => Ok(Expected::Any),
        Expected::Value(value) => Ok(Expected::Value(value.clone()?)),
    }
}

pub(crate) fn copy_desired(desired: &Desired) -> Result<Desired, NoMemory>
    ensures { IfOk result (λ copy. copy ≡ desired.now) }
{
    match desired {
        Desired::Remove => Ok(Desired::Remove),
        Desired::Leave => Ok(Desired::Leave),
        Desired::Value(value) => Ok(Desired::Value(value.clone()?)),
    }
}

/// A record stands at the key.
pub(crate) fn is_there(records: &PairList, key: &Bytes) -> bool
    ensures { result ≡ is_some (find key.now records.now) }
{
    value_at(records.as_slice(), key.as_slice()).is_some()
}

pub(crate) fn joined(front: &Bytes, end: &Bytes) -> Result<Bytes, NoMemory>
    ensures { IfOk result (λ all. all ≡ front.now ++ end.now) }
{
    let mut all = front.clone()?;
    all.extend(end.as_slice())?;
    Ok(all)
}

fn replaced(value: &Bytes, was: Option<&[u8]>) -> Result<Action, NoMemory>
    ensures { IfOk result (λ a. a ≡ replaced value.now (option_copied was.entry)) }
{
    match was {
        Some(_) => Ok(Action::Put(value.clone()?)),
        None => Ok(Action::Keep),
    }
}

/// What becomes of a record of this value.
pub(crate) fn step_action(
    alloc: Global,
    step: &Step,
    key: &[u8],
    was: Option<&[u8]>,
) -> Result<Action, NoMemory>
    ensures { IfOk result (λ a. a ≡ step_action step.now (option_copied was.entry)) }
{
    match step {
        Step::Get => ask(&mut Getter::new(alloc), key, was),
        Step::Set(value) => ask(&mut Setter::new(value.clone()?), key, was),
        Step::Add(value) => ask(&mut Adder::new(value.clone()?), key, was),
        Step::Remove => ask(&mut Remover::new(), key, was),
        Step::Append { value, delimiter } => {
            let mut appender = Appender::new(alloc, value.clone()?, delimiter.clone()?);
            ask(&mut appender, key, was)
        }
        Step::Exchange { expected, desired } => {
            let mut exchanger = Exchanger::new(
                alloc,
                copy_expected(expected)?,
                copy_desired(desired)?,
            );
            ask(&mut exchanger, key, was)
        }
        Step::Increment { n, initial } => ask(&mut Counter::new(alloc, *n, *initial), key, was),
        Step::Replace(value) => replaced(value, was),
        Step::Always(action) => copy_action(action),
    }
}
