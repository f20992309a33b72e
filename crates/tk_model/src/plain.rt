//! The plain machine: calls one after the other, on a sorted list.
ghost use Rattle.std.specs.Prelude.{◌≡◌, ◌&&◌, length, nat_le, unwrap_or, [], IfOk, OnOk, OnErr, Some, None, if◌then◌else◌};
ghost use Rattle.std.specs.Option.{option_copied};
ghost use Rattle.std.specs.List.{list_all};
ghost use Rattle.tk_model.specs.Records.{find, named, after_one, Rising};
ghost use Rattle.tk_model.specs.declared.record.Entry.TheVariants.{Next};
ghost use Rattle.tk_model.specs.Entries.{touched, all_touched, same_value, same_record, all_were, are_all, is_keep, stored, fits, is_legal, after_entry, step};

use crate::order::is_same;
use crate::place::{copy_pair, drop_in, named_pair, put_in, value_at};
use crate::{
    Action, Bound, Bytes, Change, Entry, ListOf, NoMemory, Order, Pair, PairList, Touch, Way,
};
use std::alloc::Global;
use std::marker::Model;

/// The longest key.
const KEY_LIMIT: usize = 65_535;

/// The longest value of a record in a file.
const VALUE_LIMIT: usize = 33_554_431;

/// Records in order, and calls made on them one after the other.
#[derive(Debug, Drop)]
pub struct PlainMap {
    order: Order,
    pairs: PairList,
}

impl Model for PlainMap {
    ghost use Rattle.tk_model.specs.OrderedRecords.{OrderedRecords};
    ghost use Rattle.tk_model.specs.Records.{Rising};

    ghost Value = { OrderedRecords };

    ghost view = { λ m. record { order = m.order; pairs = m.pairs } };

    ghost invariant = { λ m. Rising m.order m.pairs };
}

fn is_value(was: &Option<Bytes>, there: Option<&Bytes>) -> bool
    ensures { result ≡ same_value was.now (option_copied there.entry) }
{
    match (was, there) {
        (None, None) => true,
        (Some(was), Some(there)) => is_same(was.as_slice(), there.as_slice()),
        (None, Some(_)) | (Some(_), None) => false,
    }
}

fn is_record(found: &Option<Pair>, there: Option<&Pair>) -> bool
    ensures { result ≡ same_record found.now (option_copied there.entry) }
{
    match (found, there) {
        (None, None) => true,
        (Some(found), Some(there)) => {
            is_same(found.key.as_slice(), there.key.as_slice())
                && is_same(found.value.as_slice(), there.value.as_slice())
        }
        (None, Some(_)) | (Some(_), None) => false,
    }
}

/// A file can hold the key and what the action stores there.
fn does_fit(key: &Bytes, action: &Action) -> bool
    ensures { result ≡ (nat_le (length key.now) 65535 && nat_le (stored action.now) 33554431) }
{
    let stored = match action {
        Action::Put(value) => value.len(),
        Action::Keep | Action::Drop => 0,
    };
    key.len() <= KEY_LIMIT && stored <= VALUE_LIMIT
}

fn keeps(action: &Action) -> bool
    ensures { result ≡ is_keep action.now }
{
    match action {
        Action::Keep => true,
        Action::Put(_) | Action::Drop => false,
    }
}

fn act_in(pairs: &mut PairList, order: &Order, key: &Bytes, action: &Action) -> Result<(), NoMemory>
    ensures ok { OnOk result (pairs.new ≡ touched order.now key.now action.now pairs.old) }
    ensures err { OnErr result (pairs.new ≡ pairs.old) }
{
    match action {
        Action::Keep => {}
        Action::Put(value) => {
            let new = Pair {
                key: key.clone()?,
                value: value.clone()?,
            };
            put_in(pairs, order, new)?;
        }
        Action::Drop => drop_in(pairs, key.as_slice()),
    }
    Ok(())
}

fn was_there(pairs: &PairList, touch: &Touch) -> bool
    ensures { result ≡ same_value touch.now.was (find touch.now.key pairs.now) }
{
    is_value(&touch.was, value_at(pairs.as_slice(), touch.key.as_slice()))
}

/// The touches are at all records in order, tell their values, and fit.
fn is_each(touches: &[Touch], pairs: &[Pair]) -> bool
    ensures { result ≡ (are_all touches.now pairs.now && list_all fits touches.now) }
{
    if touches.len() != pairs.len() {
        return false;
    }
    for i in 0..touches.len() {
        let touch = &touches[i];
        let pair = &pairs[i];
        if !is_same(touch.key.as_slice(), pair.key.as_slice())
            || !is_value(&touch.was, Some(&pair.value))
            || !does_fit(&touch.key, &touch.action)
        {
            return false;
        }
    }
    true
}

/// The records after the touches in turn, or none where one doesn't tell the value so far or doesn't fit.
fn after_proc(
    pairs: &PairList,
    order: &Order,
    touches: &[Touch],
) -> Result<Option<PairList>, NoMemory>
    ensures { IfOk result (λ after. after ≡ (if all_were order.now touches.now pairs.now && list_all
        fits touches.now then Some (all_touched order.now touches.now pairs.now) else None)) }
{
    let mut after = pairs.clone()?;
    for touch in touches {
        if !was_there(&after, touch) || !does_fit(&touch.key, &touch.action) {
            return Ok(None);
        }
        act_in(&mut after, order, &touch.key, &touch.action)?;
    }
    Ok(Some(after))
}

/// The records after the actions in turn.
fn after_each(pairs: &PairList, order: &Order, touches: &[Touch]) -> Result<PairList, NoMemory>
    ensures { IfOk result (λ after. after ≡ all_touched order.now touches.now pairs.now) }
{
    let mut after = pairs.clone()?;
    for touch in touches {
        act_in(&mut after, order, &touch.key, &touch.action)?;
    }
    Ok(after)
}

impl PlainMap {
    pub fn new(alloc: Global, order: Order) -> PlainMap
        ensures order { result.order ≡ order }
        ensures pairs { result.pairs ≡ [] }
    {
        PlainMap {
            order,
            pairs: ListOf::new(alloc),
        }
    }

    /// The records, in the order of their keys.
    pub fn pairs(&self) -> &PairList
        ensures pairs { result.now ≡ self.now.pairs }
        ensures rising { Rising self.now.order self.now.pairs }
    {
        &self.pairs
    }

    /// Makes one change.
    pub fn apply(&mut self, change: &Change) -> Result<(), NoMemory>
        ensures after { OnOk result (self.new.pairs ≡ after_one self.old.order change.now
            self.old.pairs) }
        ensures order { self.new.order ≡ self.old.order }
        ensures err { OnErr result (self.new ≡ self.old) }
    {
        match change {
            Change::Put(pair) => put_in(&mut self.pairs, &self.order, copy_pair(pair)?)?,
            Change::Drop(key) => drop_in(&mut self.pairs, key.as_slice()),
            Change::Clear => self.pairs.clear(),
        }
        Ok(())
    }

    /// Makes one call, and answers whether it is legal on these records. One that isn't changes nothing.
    pub fn run(&mut self, entry: &Entry) -> Result<bool, NoMemory>
        ensures legal { IfOk result (λ done. done ≡ is_legal self.old.order self.old.pairs
            entry.now) }
        ensures after { OnOk result (self.new.pairs ≡ unwrap_or (step self.old.order self.old.pairs entry.now)
            self.old.pairs) }
        ensures order { self.new.order ≡ self.old.order }
        ensures err { OnErr result (self.new ≡ self.old) }
    {
        match entry {
            Entry::Proc(touches) => self.run_proc(touches.as_slice()),
            Entry::Next {
                way,
                bound,
                found,
                action,
            } => self.run_next(*way, bound, found, action),
            Entry::Each(touches) => self.run_each(touches.as_slice()),
            Entry::Count(count) => Ok(*count == self.pairs.len() as u64),
            Entry::Clear => {
                self.pairs.clear();
                Ok(true)
            }
            Entry::Sync(_) => Ok(true),
        }
    }

    fn run_proc(&mut self, touches: &[Touch]) -> Result<bool, NoMemory>
        ensures legal { IfOk result (λ done. done ≡ (all_were self.old.order touches.now self.old.pairs &&
            list_all fits touches.now)) }
        ensures after { IfOk result (λ done. self.new.pairs ≡ (if done then all_touched self.old.order
            touches.now self.old.pairs else self.old.pairs)) }
        ensures order { self.new.order ≡ self.old.order }
        ensures err { OnErr result (self.new ≡ self.old) }
    {
        if let [touch] = touches {
            return self.run_touch(touch);
        }
        match after_proc(&self.pairs, &self.order, touches)? {
            Some(after) => {
                self.pairs = after;
                Ok(true)
            }
            None => Ok(false),
        }
    }

    /// A call at one key, which copies no other record.
    fn run_touch(&mut self, touch: &Touch) -> Result<bool, NoMemory>
        ensures legal { IfOk result
            (λ done. done ≡ (same_value touch.now.was (find touch.now.key self.old.pairs) && fits
            touch.now)) }
        ensures after { IfOk result (λ done. self.new.pairs ≡ (if done then touched self.old.order
            touch.now.key touch.now.action self.old.pairs else self.old.pairs)) }
        ensures order { self.new.order ≡ self.old.order }
        ensures err { OnErr result (self.new ≡ self.old) }
    {
        if !was_there(&self.pairs, touch) || !does_fit(&touch.key, &touch.action) {
            return Ok(false);
        }
        act_in(&mut self.pairs, &self.order, &touch.key, &touch.action)?;
        Ok(true)
    }

    fn run_next(
        &mut self,
        way: Way,
        bound: &Bound,
        found: &Option<Pair>,
        action: &Action,
    ) -> Result<bool, NoMemory>
        ensures legal { IfOk result (λ done. done ≡ is_legal self.old.order self.old.pairs
            (Next way bound.now found.now action.now)) }
        ensures after { IfOk result (λ done. self.new.pairs ≡ (if done then after_entry self.old.order
            (Next way bound.now found.now action.now) self.old.pairs else self.old.pairs)) }
        ensures order { self.new.order ≡ self.old.order }
        ensures err { OnErr result (self.new ≡ self.old) }
    {
        let there = named_pair(self.pairs.as_slice(), &self.order, way, bound);
        if !is_record(found, there) {
            return Ok(false);
        }
        match found {
            None => Ok(keeps(action)),
            Some(pair) => {
                if !does_fit(&pair.key, action) {
                    return Ok(false);
                }
                act_in(&mut self.pairs, &self.order, &pair.key, action)?;
                Ok(true)
            }
        }
    }

    fn run_each(&mut self, touches: &[Touch]) -> Result<bool, NoMemory>
        ensures legal { IfOk result (λ done. done ≡ (are_all touches.now self.old.pairs && list_all fits
            touches.now)) }
        ensures after { IfOk result (λ done. self.new.pairs ≡ (if done then all_touched self.old.order
            touches.now self.old.pairs else self.old.pairs)) }
        ensures order { self.new.order ≡ self.old.order }
        ensures err { OnErr result (self.new ≡ self.old) }
    {
        if !is_each(touches, self.pairs.as_slice()) {
            return Ok(false);
        }
        self.pairs = after_each(&self.pairs, &self.order, touches)?;
        Ok(true)
    }
}
