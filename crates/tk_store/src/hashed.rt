//! Records in hash order, kept by bucket.
ghost use Rattle.std.specs.Prelude.{◌≡◌, [], ◌∷◌, ◌++◌, ◌≤◌, ◌<◌, ◌^◌, ◌+◌, ◌↔◌, length, replicate, take, drop, IsTrue, IfOk, IfNone, IfSome, OnOk, OnErr, MatchOption, MatchResult};
ghost use Rattle.std.specs.Option.{option_copied};
ghost use Rattle.tk_model.specs.Hashes.{mix_of, bucket_of};
ghost use Rattle.tk_model.specs.Places.{StandsAt, StandsNowhere, GoesAt, GoesBefore};
ghost use Rattle.tk_model.specs.Records.{find, put, without, after_one, first_within, last_within, Rising};
ghost use Rattle.tk_model.specs.declared.record.Order.TheVariants.{Hash};
ghost use Rattle.tk_store.specs.Hashed.{joined, start_of, end_of};
ghost use Rattle.tk_store.specs.PairsLeft.{pairs_left};

use crate::hashed_pair::HashedPair;
use crate::parting::Parting;
use std::alloc::{AllocError, Global};
use std::cmp::Ordering;
use std::marker::Model;
use std::mem;
use tk_model::{
    Bound, Bytes, Change, ListOf, NoMemory, Order, Pair, PairList, Way, bucket, copy_pair,
    is_within, mix,
};

/// The records of a bucket.
type Bucket = ListOf<HashedPair>;

/// Records in hash order, kept in `2^p` buckets.
#[derive(Debug, Drop)]
pub struct HashedRecords {
    parting: Parting,
    buckets: Vec<Bucket>,
    count: usize,
}

impl Model for HashedRecords {
    ghost use Rattle.std.specs.Prelude.{List};
    ghost use Rattle.tk_model.specs.declared.record.Pair.{Pair};
    ghost use Rattle.tk_store.specs.Hashed.{joined, AreBuckets};

    ghost Value = { List Pair };

    ghost view = { λ h. joined h.buckets.items };

    ghost invariant = { λ h. AreBuckets h.parting h.buckets.items h.count };
}

impl Clone for HashedRecords {
    ghost is_clone = { λ old new. new ≡ old };

    fn clone(&self) -> Result<HashedRecords, AllocError> {
        let buckets = copy_of_all(&self.buckets)?;
        Ok(HashedRecords {
            parting: self.parting,
            buckets,
            count: self.count,
        })
    }
}

fn copy_of(pairs: &Bucket) -> Result<Bucket, AllocError>
    ensures { IfOk result (λ copy. copy ≡ pairs.now) }
{
    pairs.clone()
}

fn copy_of_all(buckets: &Vec<Bucket>) -> Result<Vec<Bucket>, AllocError>
    ensures { IfOk result (λ copies. copies.items ≡ buckets.now.items) }
{
    let mut copies = Vec::with_capacity(*buckets.allocator(), buckets.len())?;
    for bucket in buckets {
        copies.push(copy_of(bucket)?)?;
    }
    Ok(copies)
}

/// The number of buckets.
pub fn number_of_buckets(p: u8) -> u64
    requires { p ≤ 24 }
    ensures { result ≡ 2 ^ p }
{
    1 << p
}

fn empty_buckets(alloc: Global, number: usize) -> Result<Vec<Bucket>, NoMemory>
    ensures { IfOk result (λ buckets. buckets.items ≡ replicate number []) }
{
    let mut buckets = Vec::with_capacity(alloc, number)?;
    for _i in 0..number {
        buckets.push(ListOf::new(alloc))?;
    }
    Ok(buckets)
}

fn place_of(pairs: &[HashedPair], hash: u64, key: &[u8]) -> Option<usize>
    requires { hash ≡ mix_of key.now }
    ensures { MatchOption result (StandsNowhere key.now pairs.now) (StandsAt key.now pairs.now) }
{
    for i in 0..pairs.len() {
        if pairs[i].has_key(hash, key) {
            return Some(i);
        }
    }
    None
}

/// The place of a key's record, or else the place where it belongs.
fn place_to_put(pairs: &[HashedPair], hash: u64, key: &[u8]) -> Result<usize, usize>
    requires { hash ≡ mix_of key.now }
    ensures { MatchResult result (GoesAt Hash key.now pairs.now)
        (GoesBefore Hash key.now pairs.now) }
{
    for i in 0..pairs.len() {
        match pairs[i].compare(hash, key) {
            Ordering::Less => return Err(i),
            Ordering::Equal => return Ok(i),
            Ordering::Greater => {}
        }
    }
    Err(pairs.len())
}

/// Puts a record in, and answers how many there are then, with those of the other buckets.
fn put_in(pairs: &mut Bucket, hash: u64, new: Pair, count: usize) -> Result<usize, NoMemory>
    requires { hash ≡ mix_of new.key }
    ensures ok { OnOk result (pairs.new ≡ put Hash new pairs.old) }
    ensures counted { IfOk result (λ after. after + length pairs.old ≡ count + length pairs.new) }
    ensures err { OnErr result (pairs.new ≡ pairs.old) }
{
    match place_to_put(pairs.as_slice(), hash, new.key.as_slice()) {
        Ok(i) => {
            pairs.set(i, HashedPair::new(hash, new));
            Ok(count)
        }
        Err(i) => {
            let Some(after) = count.checked_add(1) else {
                return Err(NoMemory);
            };
            pairs.insert(i, HashedPair::new(hash, new))?;
            Ok(after)
        }
    }
}

/// Takes a key's record out, and answers how many are left, with those of the other buckets.
fn drop_in(pairs: &mut Bucket, hash: u64, key: &[u8], count: usize) -> usize
    requires hash { hash ≡ mix_of key.now }
    requires count { length pairs.old ≤ count }
    ensures rest { pairs.new ≡ without key.now pairs.old }
    ensures counted { result + length pairs.old ≡ count + length pairs.new }
{
    let Some(i) = place_of(pairs.as_slice(), hash, key) else {
        return count;
    };
    pairs.remove(i);
    count - 1
}

fn value_in<'a>(pairs: &'a [HashedPair], hash: u64, key: &[u8]) -> Option<&'a Bytes>
    requires { hash ≡ mix_of key.now }
    ensures { option_copied result ≡ find key.now pairs.now }
{
    match place_of(pairs, hash, key) {
        Some(i) => Some(&pairs[i].pair().value),
        None => None,
    }
}

fn clear_all(buckets: &mut Vec<Bucket>)
    ensures { buckets.new.items ≡ replicate (length buckets.old.items) [] }
{
    for i in 0..buckets.len() {
        buckets[i].clear();
    }
}

/// Puts the records of a bucket behind others.
fn add_bucket(all: &mut Vec<Pair>, bucket: Bucket) -> Result<(), NoMemory>
    ensures { OnOk result (all.new.items ≡ all.old.items ++ bucket) }
{
    for record in bucket.into_vec() {
        all.push(record.into_pair())?;
    }
    Ok(())
}

/// All records, bucket by bucket.
fn all_of(buckets: Vec<Bucket>, count: usize) -> Result<PairList, NoMemory>
    ensures { IfOk result (λ pairs. pairs ≡ joined buckets.items) }
{
    let mut all = Vec::with_capacity(*buckets.allocator(), count)?;
    for bucket in buckets {
        add_bucket(&mut all, bucket)?;
    }
    Ok(ListOf::from_vec(all))
}

/// Puts in records that stand in hash order.
fn fill(records: &mut HashedRecords, pairs: PairList) -> Result<(), NoMemory>
    requires empty { records.old ≡ [] }
    requires rising { Rising Hash pairs }
    ensures { OnOk result (records.new ≡ pairs) }
{
    for pair in pairs.into_vec() {
        records.put(pair)?;
    }
    Ok(())
}

fn first_in<'a>(pairs: &'a [HashedPair], bound: &Bound) -> Option<&'a Pair>
    ensures { option_copied result ≡ first_within Hash bound.now pairs.now }
{
    for i in 0..pairs.len() {
        let pair = pairs[i].pair();
        if is_within(&Order::Hash, Way::Up, bound, pair.key.as_slice()) {
            return Some(pair);
        }
    }
    None
}

fn last_in<'a>(pairs: &'a [HashedPair], bound: &Bound) -> Option<&'a Pair>
    ensures { option_copied result ≡ last_within Hash bound.now pairs.now }
{
    for i in (0..pairs.len()).rev() {
        let pair = pairs[i].pair();
        if is_within(&Order::Hash, Way::Down, bound, pair.key.as_slice()) {
            return Some(pair);
        }
    }
    None
}

/// The first bucket that can have a record within a bound, on the way up.
pub fn first_bucket(bound: &Bound, p: u8) -> u64
    requires { p ≤ 24 }
    ensures value { result ≡ start_of p bound.now }
    ensures below { result ≤ 2 ^ p }
{
    match bound {
        Bound::Edge => 0,
        Bound::Over(key) | Bound::From(key) => bucket(mix(key.as_slice()), p),
    }
}

/// The bucket behind the last that can have a record within a bound, on the way down.
pub fn end_bucket(bound: &Bound, p: u8) -> u64
    requires { p ≤ 24 }
    ensures value { result ≡ end_of p bound.now }
    ensures below { result ≤ 2 ^ p }
{
    match bound {
        Bound::Edge => number_of_buckets(p),
        Bound::Over(key) | Bound::From(key) => bucket(mix(key.as_slice()), p) + 1,
    }
}

fn first_from<'a>(buckets: &'a [Bucket], start: usize, bound: &Bound) -> Option<&'a Pair>
    requires { start ≤ length buckets.now }
    ensures { option_copied result ≡ first_within Hash bound.now (joined (drop start buckets.now)) }
{
    for i in start..buckets.len() {
        if let Some(pair) = first_in(buckets[i].as_slice(), bound) {
            return Some(pair);
        }
    }
    None
}

fn last_before<'a>(buckets: &'a [Bucket], end: usize, bound: &Bound) -> Option<&'a Pair>
    requires { end ≤ length buckets.now }
    ensures { option_copied result ≡ last_within Hash bound.now (joined (take end buckets.now)) }
{
    for i in (0..end).rev() {
        if let Some(pair) = last_in(buckets[i].as_slice(), bound) {
            return Some(pair);
        }
    }
    None
}

/// Records in hash order that are not passed yet.
#[derive(Clone, Copy, Debug)]
pub struct PairsLeft<'a> {
    bucket: &'a [HashedPair],
    behind: &'a [Bucket],
}

impl<'a> PairsLeft<'a> {
    /// The first record, and those behind it.
    pub fn split_first(self) -> Option<(&'a Pair, PairsLeft<'a>)>
        ensures none { IfNone result (pairs_left self.entry ≡ []) }
        ensures some { IfSome result (λ r. pairs_left self.entry ≡ r.0.now ∷ pairs_left r.1) }
    {
        let PairsLeft {
            mut bucket,
            mut behind,
        } = self;
        loop {
            if let Some((first, rest)) = bucket.split_first() {
                let left = PairsLeft {
                    bucket: rest,
                    behind,
                };
                return Some((first.pair(), left));
            }
            let Some((next, rest)) = behind.split_first() else {
                return None;
            };
            bucket = next.as_slice();
            behind = rest;
        }
    }
}

/// Puts in copies of records that stand in hash order.
fn copy_all(left: PairsLeft<'_>, records: &mut HashedRecords) -> Result<(), NoMemory>
    requires empty { records.old ≡ [] }
    requires rising { Rising Hash (pairs_left left) }
    ensures { OnOk result (records.new ≡ pairs_left left.entry) }
{
    let mut rest = left;
    while let Some((pair, behind)) = rest.split_first() {
        records.put(copy_pair(pair)?)?;
        rest = behind;
    }
    Ok(())
}

impl HashedRecords {
    /// No records, and `2^p` empty buckets.
    pub fn new(alloc: Global, p: u8) -> Result<HashedRecords, NoMemory>
        requires { p ≤ 24 }
        ensures { IfOk result (λ r. r ≡ []) }
    {
        HashedRecords::under(alloc, 0, 0, p)
    }

    /// No records, and `2^p` empty buckets for keys of one bucket of so many bits: the bits that these keys share tell
    /// nothing. Any other key may be put too.
    pub fn under(alloc: Global, shared: u8, number: u64, p: u8) -> Result<HashedRecords, NoMemory>
        requires shared { shared ≤ 24 }
        requires p { p ≤ 24 }
        ensures { IfOk result (λ r. r ≡ []) }
    {
        let buckets = empty_buckets(alloc, number_of_buckets(p) as usize)?;
        let start = number.saturating_mul(1 << p);
        let parting = Parting {
            depth: shared + p,
            start,
            p,
        };
        Ok(HashedRecords {
            parting,
            buckets,
            count: 0,
        })
    }

    pub fn len(&self) -> usize
        ensures { result ≡ length self.now }
    {
        self.count
    }

    pub fn is_empty(&self) -> bool
        ensures { IsTrue result ↔ (self.now ≡ []) }
    {
        self.count == 0
    }

    pub fn get(&self, key: &[u8]) -> Option<&Bytes>
        ensures { option_copied result ≡ find key.now self.now }
    {
        let hash = mix(key);
        value_in(
            self.buckets[self.parting.bucket_at(hash)].as_slice(),
            hash,
            key,
        )
    }

    /// Looks at the bucket of the key alone.
    pub fn put(&mut self, new: Pair) -> Result<(), NoMemory>
        ensures ok { OnOk result (self.new ≡ put Hash new self.old) }
        ensures err { OnErr result (self.new ≡ self.old) }
    {
        let hash = mix(new.key.as_slice());
        let at = self.parting.bucket_at(hash);
        self.count = put_in(&mut self.buckets[at], hash, new, self.count)?;
        Ok(())
    }

    pub fn remove(&mut self, key: &[u8])
        ensures { self.new ≡ without key.now self.old }
    {
        let hash = mix(key);
        let at = self.parting.bucket_at(hash);
        self.count = drop_in(&mut self.buckets[at], hash, key, self.count);
    }

    pub fn clear(&mut self)
        ensures { self.new ≡ [] }
    {
        clear_all(&mut self.buckets);
        self.count = 0;
    }

    /// Makes one change, whose key and value are moved.
    pub fn apply(&mut self, change: Change) -> Result<(), NoMemory>
        ensures ok { OnOk result (self.new ≡ after_one Hash change self.old) }
        ensures err { OnErr result (self.new ≡ self.old) }
    {
        match change {
            Change::Put(new) => self.put(new)?,
            Change::Drop(key) => self.remove(key.as_slice()),
            Change::Clear => self.clear(),
        }
        Ok(())
    }

    /// The records as one list.
    pub fn into_pairs(self) -> Result<PairList, NoMemory>
        ensures { IfOk result (λ pairs. pairs ≡ self) }
    {
        let HashedRecords { buckets, count, .. } = self;
        all_of(buckets, count)
    }

    /// Takes eight times as many buckets where there are four records to each.
    pub fn widen(&mut self) -> Result<(), NoMemory>
        ensures { OnOk result (self.new ≡ self.old) }
    {
        let Parting { depth, start, p } = self.parting;
        if p > 21 || self.count >> p < 4 {
            return Ok(());
        }
        let alloc = *self.buckets.allocator();
        let shared = depth.saturating_sub(p).min(24);
        let wider = HashedRecords::under(alloc, shared, start >> p, p + 3)?;
        let narrow = mem::replace(self, wider);
        narrow.in_hash_order();
        fill(self, narrow.into_pairs()?)
    }

    /// All records, in hash order.
    pub fn pairs(&self) -> PairsLeft<'_>
        ensures { pairs_left result ≡ self.now }
    {
        PairsLeft {
            bucket: &[],
            behind: self.buckets.as_slice(),
        }
    }

    /// Goes to eight times as many buckets where there are four records to each. Want of memory leaves the buckets that
    /// there are.
    pub fn spread(&mut self) -> Result<(), NoMemory>
        ensures { self.new ≡ self.old }
    {
        let p = self.parting.p;
        if p > 21 || self.count >> p < 4 {
            return Ok(());
        }
        let mut wider = HashedRecords::new(*self.buckets.allocator(), p + 3)?;
        self.in_hash_order();
        copy_all(self.pairs(), &mut wider)?;
        *self = wider;
        Ok(())
    }

    /// The first record within a bound on the way up.
    pub fn first_within(&self, bound: &Bound) -> Option<&Pair>
        ensures { option_copied result ≡ first_within Hash bound.now self.now }
    {
        let start = self.parting.first_bucket(bound);
        first_from(self.buckets.as_slice(), start, bound)
    }

    /// The first record within a bound on the way down.
    pub fn last_within(&self, bound: &Bound) -> Option<&Pair>
        ensures { option_copied result ≡ last_within Hash bound.now self.now }
    {
        let end = self.parting.end_bucket(bound);
        last_before(self.buckets.as_slice(), end, bound)
    }

    /// The records stand in hash order.
    pub fn in_hash_order(&self)
        ensures { Rising Hash self.now }
    {
        let _ = &self.parting;
    }
}

#[cfg(test)]
mod tests {
    use super::*;
    use tk_model::is_same;

    fn bytes(alloc: Global, text: &[u8]) -> Result<Bytes, NoMemory>
        ensures { IfOk result (λ b. b ≡ text.now) }
    {
        Bytes::from_slice(alloc, text)
    }

    fn pair(alloc: Global, key: &[u8], value: &[u8]) -> Result<Pair, NoMemory>
        ensures { IfOk result (λ p. (p.key ≡ key.now) × (p.value ≡ value.now)) }
    {
        Ok(Pair {
            key: bytes(alloc, key)?,
            value: bytes(alloc, value)?,
        })
    }

    fn copied(records: &HashedRecords) -> Result<HashedRecords, NoMemory>
        ensures { IfOk result (λ copy. copy ≡ records.now) }
    {
        Ok(records.clone()?)
    }

    #[test]
    fn a_copy_is_alike(rt: HostRuntime) {
        let mut records = HashedRecords::new(rt.alloc(), 3).expect(&rt, "memory");
        let new = pair(rt.alloc(), b"a", b"1").expect(&rt, "memory");
        records.put(new).expect(&rt, "memory");
        let copy = copied(&records).expect(&rt, "memory");
        records.clear();
        assert!(rt; records.is_empty());
        assert!(rt; copy.len() == 1);
    }

    #[test]
    fn keys_stand_by_their_hash(rt: HostRuntime) {
        // The mixed hash of b is 0x6e67.., that of a 0x82a2..
        for (shared, number) in [(0, 0), (1, 0), (1, 1)] {
            let mut records = HashedRecords::under(rt.alloc(), shared, number, 4).expect(
                &rt, "memory",
            );
            for text in [b"a", b"b"] {
                let new = pair(rt.alloc(), text, b"1").expect(&rt, "memory");
                records.apply(Change::Put(new)).expect(&rt, "memory");
            }
            let first = records.first_within(&Bound::Edge).expect(&rt, "a record");
            let last = records.last_within(&Bound::Edge).expect(&rt, "a record");
            assert!(rt; is_same(first.key.as_slice(), b"b"));
            assert!(rt; is_same(last.key.as_slice(), b"a"));
        }
    }

    #[test]
    fn a_dropped_key_is_gone(rt: HostRuntime) {
        let mut records = HashedRecords::new(rt.alloc(), 0).expect(&rt, "memory");
        let new = pair(rt.alloc(), b"a", b"1").expect(&rt, "memory");
        records.put(new).expect(&rt, "memory");
        let key = bytes(rt.alloc(), b"a").expect(&rt, "memory");
        records.apply(Change::Drop(key)).expect(&rt, "memory");
        assert!(rt; records.get(b"a").is_none());
    }
}
