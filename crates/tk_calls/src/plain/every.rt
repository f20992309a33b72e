//! The reply of every call.
ghost use Rattle.std.specs.Prelude.{◌≡◌, ◌∷◌, [], IfOk, Some, length, decimal, true, false};
ghost use Rattle.tk_model.specs.declared.record.Entry.TheVariants as entries;
ghost use Rattle.tk_calls.specs.Calls.{is_of_iterator};
ghost use Rattle.tk_calls.specs.Replies.{plain_reply, reply_of};

use crate::plain::iterate::{
    bound_of, iter_get, iter_remove, iter_set, jump, next, pop, previous, search,
};
use crate::plain::moves::{each, exchange_multi, get_multi, multi, number_field, rekey};
use crate::plain::one::{add, append, exchange, get, increment, remove, set};
use crate::{Call, FieldList, LineReply, Position};
use std::alloc::Global;
use tk_model::{Bound, Entry, NoMemory, Order, PairList, Way};
use tk_status::Status;

fn copy_position(position: &Position) -> Result<Position, NoMemory>
    ensures { IfOk result (λ copy. copy ≡ position.now) }
{
    match position {
        Position::Nowhere => Ok(Position::Nowhere),
        Position::At(key) => Ok(Position::At(key.clone()?)),
        Position::After(key) => Ok(Position::After(key.clone()?)),
    }
}

/// Success with no field.
fn plain(alloc: Global, position: Position, entry: Entry) -> LineReply
    ensures { result ≡ plain_reply position [] entry }
{
    LineReply {
        status: Status::Success,
        fields: FieldList::new(alloc),
        entry,
        position,
    }
}

fn count(alloc: Global, position: Position, records: &PairList) -> Result<LineReply, NoMemory>
    ensures { IfOk result (λ r. r ≡ plain_reply position (Some (decimal (length records.now)) ∷ [])
        (entries.Count (length records.now))) }
{
    let count = records.len() as u64;
    Ok(LineReply {
        status: Status::Success,
        fields: number_field(alloc, count)?,
        entry: Entry::Count(count),
        position,
    })
}

/// The reply of a call of the iterator on these records.
#[tactic(auto, unfolding(crate::specs::Replies::reply_of))]
fn iterator_reply(
    alloc: Global,
    order: &Order,
    call: &Call,
    position: &Position,
    records: &PairList,
) -> Result<LineReply, NoMemory>
    requires { is_of_iterator call.now ≡ true }
    ensures { IfOk result (λ r. r ≡ reply_of order.now call.now position.now records.now) }
{
    match call {
        Call::First => search(alloc, order, Way::Up, Bound::Edge, records),
        Call::Last => search(alloc, order, Way::Down, Bound::Edge, records),
        Call::Next => next(alloc, order, position, records),
        Call::Previous => previous(alloc, order, position, records),
        Call::IterRemove => iter_remove(alloc, order, position, records),
        Call::Jump(key) => jump(alloc, order, key, records),
        Call::Lower { key, inclusive } => {
            search(alloc, order, Way::Down, bound_of(*inclusive, key)?, records)
        }
        Call::Upper { key, inclusive } => {
            search(alloc, order, Way::Up, bound_of(*inclusive, key)?, records)
        }
        Call::IterGet => iter_get(alloc, order, position, records),
        Call::IterSet(value) => iter_set(alloc, order, value, position, records),
        _ => unreachable!(),
    }
}

/// The reply of a call that is none of the iterator's.
#[tactic(auto, unfolding(crate::specs::Replies::reply_of))]
fn key_call_reply(
    alloc: Global,
    order: &Order,
    call: &Call,
    p: Position,
    records: &PairList,
) -> Result<LineReply, NoMemory>
    requires { is_of_iterator call.now ≡ false }
    ensures { IfOk result (λ r. r ≡ reply_of order.now call.now p records.now) }
{
    match call {
        Call::Get(key) => get(alloc, order, p, key, records),
        Call::GetMulti(keys) => get_multi(alloc, order, p, keys.as_slice(), records),
        Call::Set { key, value } => set(alloc, order, p, key, value, records),
        Call::Add { key, value } => add(alloc, order, p, key, value, records),
        Call::Remove(key) => remove(alloc, order, p, key, records),
        Call::Append {
            key,
            value,
            delimiter,
        } => append(alloc, order, p, key, value, delimiter, records),
        Call::CompareExchange {
            key,
            expected,
            desired,
        } => exchange(alloc, order, p, key, expected, desired, records),
        Call::CompareExchangeMulti { expected, desired } => {
            exchange_multi(
                alloc,
                order,
                p,
                expected.as_slice(),
                desired.as_slice(),
                records,
            )
        }
        Call::Increment { key, n, initial } => {
            increment(alloc, order, p, key, *n, *initial, records)
        }
        Call::Rekey {
            from,
            to,
            overwrite,
            copying,
        } => rekey(alloc, order, p, from, to, *overwrite, *copying, records),
        Call::Pop => pop(alloc, order, p, records),
        Call::Multi(steps) => multi(alloc, order, p, steps.as_slice(), records),
        Call::Each(value) => each(alloc, p, value, records),
        Call::Count => count(alloc, p, records),
        Call::Clear => Ok(plain(alloc, p, Entry::Clear)),
        Call::Sync(hard) => Ok(plain(alloc, p, Entry::Sync(*hard))),
        _ => unreachable!(),
    }
}

/// The reply of a call on these records, where its worker's iterator stands here.
pub fn reply(
    alloc: Global,
    order: &Order,
    call: &Call,
    position: &Position,
    records: &PairList,
) -> Result<LineReply, NoMemory>
    ensures { IfOk result (λ r. r ≡ reply_of order.now call.now position.now records.now) }
{
    if call.is_of_iterator() {
        iterator_reply(alloc, order, call, position, records)
    } else {
        key_call_reply(alloc, order, call, copy_position(position)?, records)
    }
}
