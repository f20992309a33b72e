//! Records in hash order, for changes that come mostly in that order.
ghost use Rattle.std.specs.Prelude.{◌≡◌, ◌<◌, [], IfOk, OnOk, MatchResult};
ghost use Rattle.tk_model.specs.declared.record.Order.TheVariants.{Hash};
ghost use Rattle.tk_model.specs.Hashes.{mix_of};
ghost use Rattle.tk_model.specs.Places.{GoesAt, GoesBefore};
ghost use Rattle.tk_model.specs.Records.{put, without, Rising};
ghost use Rattle.tk_restore.specs.Rising.{Stands, is_past};

use std::alloc::Global;
use std::cmp::Ordering;
use std::marker::Model;
use tk_model::{NoMemory, Order, Pair, PairList, compare_keys};

/// The place of a key's record, or else the place where it belongs, looked for from the end.
fn place_from_end(pairs: &[Pair], key: &[u8]) -> Result<usize, usize>
    requires { Rising Hash pairs.now }
    ensures goes { MatchResult result (GoesAt Hash key.now pairs.now)
        (GoesBefore Hash key.now pairs.now) }
    ensures stands { Stands key.now pairs.now result }
{
    for i in (0..pairs.len()).rev() {
        match compare_keys(&Order::Hash, key, pairs[i].key.as_slice()) {
            Ordering::Less => {}
            Ordering::Equal => return Ok(i),
            Ordering::Greater => return Err(i + 1),
        }
    }
    Err(0)
}

/// A hash is past the greatest so far.
fn is_past(last: Option<u64>, hash: u64) -> bool
    ensures { result ≡ is_past last hash }
{
    match last {
        Some(last) => last < hash,
        None => true,
    }
}

/// Records in hash order.
#[derive(Drop)]
pub(crate) struct RisingPairs {
    pairs: PairList,
    /// No key's hash is greater.
    last: Option<u64>,
}

impl Model for RisingPairs {
    ghost use Rattle.std.specs.Prelude.{List};
    ghost use Rattle.tk_model.specs.declared.record.Order.TheVariants.{Hash};
    ghost use Rattle.tk_model.specs.declared.record.Pair.{Pair};
    ghost use Rattle.tk_model.specs.Records.{Rising};
    ghost use Rattle.tk_restore.specs.Rising.{IsUpto};

    ghost Value = { List Pair };

    ghost view = { λ r. r.pairs };

    ghost invariant = { λ r. Rising Hash r.pairs × IsUpto r.last r.pairs };
}

impl RisingPairs {
    /// No records, and room for so many.
    pub fn with_capacity(alloc: Global, capacity: usize) -> Result<RisingPairs, NoMemory>
        ensures { IfOk result (λ r. r ≡ []) }
    {
        Ok(RisingPairs {
            pairs: PairList::with_capacity(alloc, capacity)?,
            last: None,
        })
    }

    /// Sets a record by its key's hash, at once where that is past all so far.
    pub fn put(&mut self, hash: u64, pair: Pair) -> Result<(), NoMemory>
        requires { hash ≡ mix_of pair.key }
        ensures { OnOk result (self.new ≡ put Hash pair self.old) }
    {
        if is_past(self.last, hash) {
            self.last = Some(hash);
            self.pairs.push(pair)?;
            return Ok(());
        }
        match place_from_end(self.pairs.as_slice(), pair.key.as_slice()) {
            Ok(i) => self.pairs.set(i, pair),
            Err(i) => self.pairs.insert(i, pair)?,
        }
        Ok(())
    }

    /// Removes a key's record, where there is one.
    pub fn remove(&mut self, hash: u64, key: &[u8])
        requires { hash ≡ mix_of key.now }
        ensures { self.new ≡ without key.now self.old }
    {
        if is_past(self.last, hash) {
            return;
        }
        if let Ok(i) = place_from_end(self.pairs.as_slice(), key) {
            self.pairs.remove(i);
        }
    }

    pub fn into_list(self) -> PairList
        ensures { result ≡ self }
    {
        let RisingPairs { pairs, .. } = self;
        pairs
    }
}
