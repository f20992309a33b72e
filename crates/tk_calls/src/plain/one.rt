//! The replies of the calls at one record.
ghost use Rattle.std.specs.Prelude.{◌≡◌, ◌∷◌, [], IfOk};
ghost use Rattle.std.specs.Option.{option_copied};
ghost use Rattle.tk_proc.specs.Increments.{increment_reply};
ghost use Rattle.tk_calls.specs.declared.call.Call.TheVariants as calls;
ghost use Rattle.tk_calls.specs.Replies.{number_field, reply_of};

use crate::plain::planned::key_reply;
use crate::plain::values::{
    add_status, append_status, copy_desired, copy_expected, copy_value, get_status, get_value,
    is_met, met_or_not, remove_status, set_status,
};
use crate::{Field, FieldList, LineReply, Position, Step};
use std::alloc::Global;
use tk_model::{Bytes, NoMemory, Order, PairList, value_at};
use tk_proc::{Counter, Desired, Expected, ask};
use tk_status::Status;

#[tactic(auto, unfolding(crate::specs::Replies::reply_of))]
pub(crate) fn get(
    alloc: Global,
    order: &Order,
    position: Position,
    key: &Bytes,
    records: &PairList,
) -> Result<LineReply, NoMemory>
    ensures { IfOk result (λ r. r ≡ reply_of order.now (calls.Get key.now) position records.now) }
{
    let was = value_at(records.as_slice(), key.as_slice());
    let status = get_status(was);
    let mut fields = FieldList::new(alloc);
    fields.push(get_value(was)?)?;
    key_reply(
        alloc,
        order,
        position,
        status,
        fields,
        key,
        Step::Get,
        records,
    )
}

#[tactic(auto, unfolding(crate::specs::Replies::reply_of))]
pub(crate) fn set(
    alloc: Global,
    order: &Order,
    position: Position,
    key: &Bytes,
    value: &Bytes,
    records: &PairList,
) -> Result<LineReply, NoMemory>
    ensures { IfOk result (λ r. r ≡ reply_of order.now (calls.Set key.now value.now) position
        records.now) }
{
    let status = set_status(value_at(records.as_slice(), key.as_slice()), value);
    let fields = FieldList::new(alloc);
    let step = Step::Set(value.clone()?);
    key_reply(alloc, order, position, status, fields, key, step, records)
}

#[tactic(auto, unfolding(crate::specs::Replies::reply_of))]
pub(crate) fn add(
    alloc: Global,
    order: &Order,
    position: Position,
    key: &Bytes,
    value: &Bytes,
    records: &PairList,
) -> Result<LineReply, NoMemory>
    ensures { IfOk result (λ r. r ≡ reply_of order.now (calls.Add key.now value.now) position
        records.now) }
{
    let status = add_status(value_at(records.as_slice(), key.as_slice()), value);
    let fields = FieldList::new(alloc);
    let step = Step::Add(value.clone()?);
    key_reply(alloc, order, position, status, fields, key, step, records)
}

#[tactic(auto, unfolding(crate::specs::Replies::reply_of))]
pub(crate) fn remove(
    alloc: Global,
    order: &Order,
    position: Position,
    key: &Bytes,
    records: &PairList,
) -> Result<LineReply, NoMemory>
    ensures { IfOk result (λ r. r ≡ reply_of order.now (calls.Remove key.now) position
        records.now) }
{
    let status = remove_status(value_at(records.as_slice(), key.as_slice()));
    let fields = FieldList::new(alloc);
    key_reply(
        alloc,
        order,
        position,
        status,
        fields,
        key,
        Step::Remove,
        records,
    )
}

#[tactic(auto, unfolding(crate::specs::Replies::reply_of))]
pub(crate) fn append(
    alloc: Global,
    order: &Order,
    position: Position,
    key: &Bytes,
    value: &Bytes,
    delimiter: &Bytes,
    records: &PairList,
) -> Result<LineReply, NoMemory>
    ensures { IfOk result (λ r. r ≡ reply_of order.now
        (calls.Append key.now value.now delimiter.now) position records.now) }
{
    let was = value_at(records.as_slice(), key.as_slice());
    let status = append_status(was, value, delimiter);
    let fields = FieldList::new(alloc);
    let value = value.clone()?;
    let delimiter = delimiter.clone()?;
    let step = Step::Append { value, delimiter };
    key_reply(alloc, order, position, status, fields, key, step, records)
}

#[tactic(auto, unfolding(crate::specs::Replies::reply_of))]
pub(crate) fn exchange(
    alloc: Global,
    order: &Order,
    position: Position,
    key: &Bytes,
    expected: &Expected,
    desired: &Desired,
    records: &PairList,
) -> Result<LineReply, NoMemory>
    ensures { IfOk result (λ r. r ≡ reply_of order.now
        (calls.CompareExchange key.now expected.now desired.now) position records.now) }
{
    let was = value_at(records.as_slice(), key.as_slice());
    let status = met_or_not(is_met(expected, was));
    let mut fields = FieldList::new(alloc);
    fields.push(copy_value(was)?)?;
    let expected = copy_expected(expected)?;
    let desired = copy_desired(desired)?;
    let step = Step::Exchange { expected, desired };
    key_reply(alloc, order, position, status, fields, key, step, records)
}

#[tactic(auto, unfolding(crate::specs::Replies::reply_of))]
pub(crate) fn increment(
    alloc: Global,
    order: &Order,
    position: Position,
    key: &Bytes,
    n: i64,
    initial: i64,
    records: &PairList,
) -> Result<LineReply, NoMemory>
    ensures { IfOk result (λ r. r ≡ reply_of order.now (calls.Increment key.now n initial) position
        records.now) }
{
    let was = value_at(records.as_slice(), key.as_slice());
    let (status, number) = counted(alloc, key, n, initial, was)?;
    let mut fields = FieldList::new(alloc);
    fields.push(number_field(alloc, number)?)?;
    let step = Step::Increment { n, initial };
    key_reply(alloc, order, position, status, fields, key, step, records)
}

/// What an increment answers at this value.
fn counted(
    alloc: Global,
    key: &Bytes,
    n: i64,
    initial: i64,
    was: Option<&Bytes>,
) -> Result<(Status, Option<i64>), NoMemory>
    ensures status { IfOk result (λ r. r.0 ≡ (increment_reply n initial
        (option_copied was.entry)).status) }
    ensures number { IfOk result (λ r. r.1 ≡ (increment_reply n initial
        (option_copied was.entry)).number) }
{
    let mut counter = Counter::new(alloc, n, initial);
    match was {
        Some(value) => ask(&mut counter, key.as_slice(), Some(value.as_slice()))?,
        None => ask(&mut counter, key.as_slice(), None)?,
    };
    Ok((counter.status(), counter.number()))
}

fn number_field(alloc: Global, number: Option<i64>) -> Result<Field, NoMemory>
    ensures { IfOk result (λ f. f ≡ number_field number) }
{
    match number {
        None => Ok(None),
        Some(number) => {
            let digits = format!(in alloc; "{number}")?;
            Ok(Some(Bytes::from_slice(alloc, digits.as_bytes())?))
        }
    }
}
