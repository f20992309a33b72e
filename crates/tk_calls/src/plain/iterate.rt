//! The replies of the calls of an iterator.
ghost use Rattle.std.specs.Prelude.{◌≡◌, IfOk};
ghost use Rattle.std.specs.Option.{option_copied};
ghost use Rattle.tk_model.specs.declared.record.Way.TheVariants.{Up};
ghost use Rattle.tk_model.specs.declared.record.Bound.TheVariants.{Edge};
ghost use Rattle.tk_model.specs.Records.{named};
ghost use Rattle.tk_calls.specs.declared.call.Position.TheVariants.{At};
ghost use Rattle.tk_calls.specs.Replies.{pop_reply};
ghost use Rattle.tk_calls.specs.Iterators.{place_at, place_behind, place_by, pair_fields, fields_if, value_fields, search_reply, behind_reply, next_reply, previous_reply, iter_get_reply, iter_set_reply, iter_remove_reply, removed_place, there_place, jump_reply, bound_of, found_action, found_status};

use crate::early::is_unordered;
use crate::plain::planned::key_reply;
use crate::plain::values::{copy_action, found_or_not, get_status, is_there, remove_status};
use crate::{FieldList, LineReply, Position, Step};
use std::alloc::Global;
use tk_model::{
    Action, Bound, Bytes, Entry, NoMemory, Order, Pair, PairList, Way, copy_pair, named_pair,
    value_at,
};
use tk_status::Status;

const VALUE_LIMIT: usize = 16_777_215;

fn copy_found(found: Option<&Pair>) -> Result<Option<Pair>, NoMemory>
    ensures { IfOk result (λ copy. copy ≡ option_copied found.entry) }
{
    match found {
        Some(pair) => Ok(Some(copy_pair(pair)?)),
        None => Ok(None),
    }
}

fn place_at(found: &Option<Pair>) -> Result<Position, NoMemory>
    ensures { IfOk result (λ place. place ≡ place_at found.now) }
{
    match found {
        Some(pair) => Ok(Position::At(pair.key.clone()?)),
        None => Ok(Position::Nowhere),
    }
}

fn place_behind(found: &Option<Pair>) -> Result<Position, NoMemory>
    ensures { IfOk result (λ place. place ≡ place_behind found.now) }
{
    match found {
        Some(pair) => Ok(Position::After(pair.key.clone()?)),
        None => Ok(Position::Nowhere),
    }
}

pub(crate) fn pair_fields(alloc: Global, found: &Option<Pair>) -> Result<FieldList, NoMemory>
    ensures { IfOk result (λ fields. fields ≡ pair_fields found.now) }
{
    let mut fields = FieldList::new(alloc);
    match found {
        Some(pair) => {
            fields.push(Some(pair.key.clone()?))?;
            fields.push(Some(pair.value.clone()?))?;
        }
        None => {
            fields.push(None)?;
            fields.push(None)?;
        }
    }
    Ok(fields)
}

fn value_fields(alloc: Global, key: &Bytes, value: Option<&Bytes>) -> Result<FieldList, NoMemory>
    ensures { IfOk result (λ fields. fields ≡ value_fields key.now (option_copied value.entry)) }
{
    let mut fields = FieldList::new(alloc);
    match value {
        Some(value) => {
            fields.push(Some(key.clone()?))?;
            fields.push(Some(value.clone()?))?;
        }
        None => {
            fields.push(None)?;
            fields.push(None)?;
        }
    }
    Ok(fields)
}

/// A search, after which the iterator stands at what was found.
pub(crate) fn search(
    alloc: Global,
    order: &Order,
    way: Way,
    bound: Bound,
    records: &PairList,
) -> Result<LineReply, NoMemory>
    ensures { IfOk result (λ r. r ≡ search_reply order.now way bound records.now) }
{
    let found = copy_found(named_pair(records.as_slice(), order, way, &bound))?;
    let position = place_at(&found)?;
    let action = Action::Keep;
    Ok(LineReply {
        status: Status::Success,
        fields: FieldList::new(alloc),
        entry: Entry::Next {
            way,
            bound,
            found,
            action,
        },
        position,
    })
}

fn found_action(found: &Option<Pair>, action: &Action) -> Result<Action, NoMemory>
    ensures { IfOk result (λ a. a ≡ found_action found.now action.now) }
{
    match (found, action) {
        (None, _) => Ok(Action::Keep),
        (Some(_), Action::Put(value)) if value.len() > VALUE_LIMIT => Ok(Action::Keep),
        (Some(_), action) => copy_action(action),
    }
}

fn found_status(found: &Option<Pair>, action: &Action) -> Status
    ensures { result ≡ found_status found.now action.now }
{
    match (found, action) {
        (None, _) => Status::NotFound,
        (Some(_), Action::Put(value)) if value.len() > VALUE_LIMIT => Status::TooLong {
            length: value.len() as u64,
        },
        (Some(_), _) => Status::Success,
    }
}

fn fields_if(alloc: Global, shown: bool, found: &Option<Pair>) -> Result<FieldList, NoMemory>
    ensures { IfOk result (λ fields. fields ≡ fields_if shown found.now) }
{
    if shown {
        pair_fields(alloc, found)
    } else {
        Ok(FieldList::new(alloc))
    }
}

fn place_by(behind: bool, found: &Option<Pair>) -> Result<Position, NoMemory>
    ensures { IfOk result (λ place. place ≡ place_by behind found.now) }
{
    if behind {
        place_behind(found)
    } else {
        place_at(found)
    }
}

/// The next record behind a removed key.
fn behind(
    alloc: Global,
    order: &Order,
    key: &Bytes,
    shown: bool,
    behind: bool,
    action: &Action,
    records: &PairList,
) -> Result<LineReply, NoMemory>
    ensures { IfOk result (λ r. r ≡ behind_reply order.now key.now shown behind action.now
        records.now) }
{
    let way = Way::Up;
    let bound = Bound::Over(key.clone()?);
    let found = copy_found(named_pair(records.as_slice(), order, way, &bound))?;
    let position = place_by(behind, &found)?;
    let fields = fields_if(alloc, shown, &found)?;
    let status = found_status(&found, action);
    let action = found_action(&found, action)?;
    let entry = Entry::Next {
        way,
        bound,
        found,
        action,
    };
    Ok(LineReply {
        status,
        fields,
        entry,
        position,
    })
}

/// Calls that go from an iterator at no place are not asked; the definitions give them this.
fn from_edge(
    alloc: Global,
    order: &Order,
    way: Way,
    records: &PairList,
) -> Result<LineReply, NoMemory>
    ensures { IfOk result (λ r. r ≡ search_reply order.now way Edge records.now) }
{
    search(alloc, order, way, Bound::Edge, records)
}

pub(crate) fn next(
    alloc: Global,
    order: &Order,
    position: &Position,
    records: &PairList,
) -> Result<LineReply, NoMemory>
    ensures { IfOk result (λ r. r ≡ next_reply order.now position.now records.now) }
{
    match position {
        Position::Nowhere => from_edge(alloc, order, Way::Up, records),
        Position::At(key) => search(alloc, order, Way::Up, Bound::Over(key.clone()?), records),
        Position::After(key) => behind(alloc, order, key, false, true, &Action::Keep, records),
    }
}

pub(crate) fn previous(
    alloc: Global,
    order: &Order,
    position: &Position,
    records: &PairList,
) -> Result<LineReply, NoMemory>
    ensures { IfOk result (λ r. r ≡ previous_reply order.now position.now records.now) }
{
    match position {
        Position::Nowhere => from_edge(alloc, order, Way::Down, records),
        Position::At(key) => search(alloc, order, Way::Down, Bound::Over(key.clone()?), records),
        Position::After(key) => search(alloc, order, Way::Down, Bound::From(key.clone()?), records),
    }
}

fn get_at(
    alloc: Global,
    order: &Order,
    key: &Bytes,
    records: &PairList,
) -> Result<LineReply, NoMemory>
    ensures { IfOk result (λ r. r ≡ iter_get_reply order.now (At key.now) records.now) }
{
    let value = value_at(records.as_slice(), key.as_slice());
    let status = get_status(value);
    let fields = value_fields(alloc, key, value)?;
    let position = Position::At(key.clone()?);
    key_reply(
        alloc,
        order,
        position,
        status,
        fields,
        key,
        Step::Get,
        records,
    )
}

pub(crate) fn iter_get(
    alloc: Global,
    order: &Order,
    position: &Position,
    records: &PairList,
) -> Result<LineReply, NoMemory>
    ensures { IfOk result (λ r. r ≡ iter_get_reply order.now position.now records.now) }
{
    match position {
        Position::Nowhere => from_edge(alloc, order, Way::Up, records),
        Position::At(key) => get_at(alloc, order, key, records),
        Position::After(key) => behind(alloc, order, key, true, false, &Action::Keep, records),
    }
}

fn set_at(
    alloc: Global,
    order: &Order,
    value: &Bytes,
    key: &Bytes,
    records: &PairList,
) -> Result<LineReply, NoMemory>
    ensures { IfOk result (λ r. r ≡ iter_set_reply order.now value.now (At key.now) records.now) }
{
    let status = found_or_not(is_there(records, key));
    let fields = FieldList::new(alloc);
    let position = Position::At(key.clone()?);
    let step = Step::Replace(value.clone()?);
    key_reply(alloc, order, position, status, fields, key, step, records)
}

pub(crate) fn iter_set(
    alloc: Global,
    order: &Order,
    value: &Bytes,
    position: &Position,
    records: &PairList,
) -> Result<LineReply, NoMemory>
    ensures { IfOk result (λ r. r ≡ iter_set_reply order.now value.now position.now records.now) }
{
    match position {
        Position::Nowhere => from_edge(alloc, order, Way::Up, records),
        Position::At(key) => set_at(alloc, order, value, key, records),
        Position::After(key) => {
            let put = Action::Put(value.clone()?);
            behind(alloc, order, key, false, false, &put, records)
        }
    }
}

fn removed_place(key: &Bytes, value: Option<&Bytes>) -> Result<Position, NoMemory>
    ensures { IfOk result (λ p. p ≡ removed_place key.now (option_copied value.entry)) }
{
    match value {
        Some(_) => Ok(Position::After(key.clone()?)),
        None => Ok(Position::At(key.clone()?)),
    }
}

fn there_place(key: &Bytes, value: Option<&Bytes>) -> Result<Position, NoMemory>
    ensures { IfOk result (λ p. p ≡ there_place key.now (option_copied value.entry)) }
{
    match value {
        Some(_) => Ok(Position::At(key.clone()?)),
        None => Ok(Position::Nowhere),
    }
}

fn remove_at(
    alloc: Global,
    order: &Order,
    key: &Bytes,
    records: &PairList,
) -> Result<LineReply, NoMemory>
    ensures { IfOk result (λ r. r ≡ iter_remove_reply order.now (At key.now) records.now) }
{
    let value = value_at(records.as_slice(), key.as_slice());
    let status = remove_status(value);
    let fields = FieldList::new(alloc);
    let position = removed_place(key, value)?;
    key_reply(
        alloc,
        order,
        position,
        status,
        fields,
        key,
        Step::Remove,
        records,
    )
}

pub(crate) fn iter_remove(
    alloc: Global,
    order: &Order,
    position: &Position,
    records: &PairList,
) -> Result<LineReply, NoMemory>
    ensures { IfOk result (λ r. r ≡ iter_remove_reply order.now position.now records.now) }
{
    match position {
        Position::Nowhere => from_edge(alloc, order, Way::Up, records),
        Position::At(key) => remove_at(alloc, order, key, records),
        Position::After(key) => behind(alloc, order, key, false, true, &Action::Drop, records),
    }
}

pub(crate) fn jump(
    alloc: Global,
    order: &Order,
    key: &Bytes,
    records: &PairList,
) -> Result<LineReply, NoMemory>
    ensures { IfOk result (λ r. r ≡ jump_reply order.now key.now records.now) }
{
    if !is_unordered(order) {
        return search(alloc, order, Way::Up, Bound::From(key.clone()?), records);
    }
    let value = value_at(records.as_slice(), key.as_slice());
    let status = get_status(value);
    let fields = FieldList::new(alloc);
    let position = there_place(key, value)?;
    key_reply(
        alloc,
        order,
        position,
        status,
        fields,
        key,
        Step::Get,
        records,
    )
}

pub(crate) fn bound_of(inclusive: bool, key: &Bytes) -> Result<Bound, NoMemory>
    ensures { IfOk result (λ bound. bound ≡ bound_of inclusive key.now) }
{
    let key = key.clone()?;
    if inclusive {
        Ok(Bound::From(key))
    } else {
        Ok(Bound::Over(key))
    }
}

pub(crate) fn pop(
    alloc: Global,
    order: &Order,
    position: Position,
    records: &PairList,
) -> Result<LineReply, NoMemory>
    ensures { IfOk result (λ r. r ≡ pop_reply position (named order.now Up Edge records.now)) }
{
    let way = Way::Up;
    let bound = Bound::Edge;
    let found = copy_found(named_pair(records.as_slice(), order, way, &bound))?;
    let status = found_or_not(found.is_some());
    let fields = pair_fields(alloc, &found)?;
    let action = found_action(&found, &Action::Drop)?;
    let entry = Entry::Next {
        way,
        bound,
        found,
        action,
    };
    Ok(LineReply {
        status,
        fields,
        entry,
        position,
    })
}
