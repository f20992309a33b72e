//! Where keys stand in a list of records.
ghost use Rattle.std.specs.Prelude.{◌≡◌, ◌↔◌, IsTrue, IfOk, OnOk, OnErr, IfSome, MatchOption, MatchResult};
ghost use Rattle.std.specs.Option.{option_copied};
ghost use Rattle.tk_model.specs.Places.{StandsAt, StandsNowhere, GoesAt, GoesBefore};
ghost use Rattle.tk_model.specs.Records.{find, put, without, reaches, first_within, last_within, named};

use crate::order::is_same;
use crate::{Bound, Bytes, NoMemory, Order, Pair, PairList, Way, compare_keys};
use std::cmp::Ordering;

/// The place of a key's record.
pub fn place_of(pairs: &[Pair], key: &[u8]) -> Option<usize>
    ensures { MatchOption result (StandsNowhere key.now pairs.now) (StandsAt key.now pairs.now) }
{
    for i in 0..pairs.len() {
        if is_same(key, pairs[i].key.as_slice()) {
            return Some(i);
        }
    }
    None
}

/// The place of a key's record, or else the place where it belongs.
pub fn place_to_put(pairs: &[Pair], order: &Order, key: &[u8]) -> Result<usize, usize>
    ensures { MatchResult result (GoesAt order.now key.now pairs.now)
        (GoesBefore order.now key.now pairs.now) }
{
    for i in 0..pairs.len() {
        match compare_keys(order, key, pairs[i].key.as_slice()) {
            Ordering::Less => return Err(i),
            Ordering::Equal => return Ok(i),
            Ordering::Greater => {}
        }
    }
    Err(pairs.len())
}

pub fn value_at<'a>(pairs: &'a [Pair], key: &[u8]) -> Option<&'a Bytes>
    ensures { option_copied result ≡ find key.now pairs.now }
{
    match place_of(pairs, key) {
        Some(i) => Some(&pairs[i].value),
        None => None,
    }
}

/// A copy of a record.
pub fn copy_pair(pair: &Pair) -> Result<Pair, NoMemory>
    ensures { IfOk result (λ copy. copy ≡ pair.now) }
{
    let key = pair.key.clone()?;
    let value = pair.value.clone()?;
    Ok(Pair { key, value })
}

pub fn put_in(pairs: &mut PairList, order: &Order, new: Pair) -> Result<(), NoMemory>
    ensures ok { OnOk result (pairs.new ≡ put order.now new pairs.old) }
    ensures err { OnErr result (pairs.new ≡ pairs.old) }
{
    match place_to_put(pairs.as_slice(), order, new.key.as_slice()) {
        Ok(i) => {
            pairs.set(i, new);
            Ok(())
        }
        Err(i) => pairs.insert(i, new),
    }
}

pub fn drop_in(pairs: &mut PairList, key: &[u8])
    ensures { pairs.new ≡ without key.now pairs.old }
{
    if let Some(i) = place_of(pairs.as_slice(), key) {
        pairs.remove(i);
    }
}

/// The key is within the bound, in the way's direction.
pub fn is_within(order: &Order, way: Way, bound: &Bound, key: &[u8]) -> bool
    ensures { result ≡ reaches order.now way bound.now key.now }
{
    match bound {
        Bound::Edge => true,
        Bound::Over(from) => {
            let found = compare_keys(order, from.as_slice(), key);
            match way {
                Way::Up => found.is_lt(),
                Way::Down => found.is_gt(),
            }
        }
        Bound::From(from) => {
            let found = compare_keys(order, from.as_slice(), key);
            match way {
                Way::Up => found.is_le(),
                Way::Down => found.is_ge(),
            }
        }
    }
}

pub fn first_pair<'a>(pairs: &'a [Pair], order: &Order, bound: &Bound) -> Option<&'a Pair>
    ensures { option_copied result ≡ first_within order.now bound.now pairs.now }
{
    for i in 0..pairs.len() {
        let pair = &pairs[i];
        if is_within(order, Way::Up, bound, pair.key.as_slice()) {
            return Some(pair);
        }
    }
    None
}

pub fn last_pair<'a>(pairs: &'a [Pair], order: &Order, bound: &Bound) -> Option<&'a Pair>
    ensures { option_copied result ≡ last_within order.now bound.now pairs.now }
{
    for i in (0..pairs.len()).rev() {
        let pair = &pairs[i];
        if is_within(order, Way::Down, bound, pair.key.as_slice()) {
            return Some(pair);
        }
    }
    None
}

/// The record that a bound names.
pub fn named_pair<'a>(pairs: &'a [Pair], order: &Order, way: Way, bound: &Bound) -> Option<&'a Pair>
    ensures { option_copied result ≡ named order.now way bound.now pairs.now }
{
    match way {
        Way::Up => first_pair(pairs, order, bound),
        Way::Down => last_pair(pairs, order, bound),
    }
}
