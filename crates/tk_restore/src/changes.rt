//! Sets and removes of records in one buffer, as they are read.
ghost use Rattle.std.specs.Prelude.{◌≡◌, ◌<◌, ◌≤◌, ◌^◌, ℕ, [], ◌∷◌, ◌++◌, List, length, take, drop, map, IfOk, OnOk, OnErr};
ghost use Rattle.tk_model.specs.declared.record.Change.TheVariants as kinds;
ghost use Rattle.tk_model.specs.declared.record.Order.TheVariants.{Hash};
ghost use Rattle.tk_model.specs.declared.record.Pair.{Pair as Record};
ghost use Rattle.tk_model.specs.Records.{after, Rising};
ghost use Rattle.tk_restore.specs.Changes.{change_by, changes_in, key_in, value_in, IsEntry, AllEntries};
ghost use Rattle.tk_block.specs.Blocks.{IsSmall};
ghost use Rattle.tk_append.specs.Fresh.{AllPairsSmall};

use crate::rising::RisingPairs;
use std::alloc::Global;
use std::marker::Model;
use tk_model::{Bytes, NoMemory, Pair, PairList, mix};

/// About so many bytes a record takes beside its key and value, here and in the list that it goes to.
const OVERHEAD: usize = 96;

/// Where the key of a change stands in the buffer, its value behind it, and the key's hash.
#[derive(Clone, Copy)]
pub(crate) struct Entry {
    hash: u64,
    start: usize,
    value_length: u32,
    key_length: u16,
    /// The record is set, and not removed.
    sets: bool,
}

/// Brings entries into the order of their hashes. Those of one key stay in theirs.
fn sort(entries: &mut Vec<Entry>) -> Result<(), NoMemory>
    ensures entries { (bytes : List ℕ) → AllEntries bytes entries.old.items
        → OnOk result (AllEntries bytes entries.new.items) }
    ensures same { (bytes : List ℕ) → AllEntries bytes entries.old.items
        → OnOk result (after Hash (changes_in bytes entries.new.items) []
        ≡ after Hash (changes_in bytes entries.old.items) []) }
{
    entries.sort_by_key(|entry| entry.hash)?;
    Ok(())
}

/// Changes that contracts see as their list. The keys and values of all stand in one buffer.
#[derive(Drop)]
pub(crate) struct Changes {
    bytes: Vec<u8>,
    entries: Vec<Entry>,
}

impl Model for Changes {
    ghost use Rattle.std.specs.Prelude.{List};
    ghost use Rattle.tk_model.specs.declared.record.Change.{Change};
    ghost use Rattle.tk_restore.specs.Changes.{changes_in, AllEntries};

    ghost Value = { List Change };

    ghost view = { λ c. changes_in c.bytes.items c.entries.items };

    ghost invariant = { λ c. AllEntries c.bytes.items c.entries.items };
}

impl Changes {
    /// No changes, and no memory taken.
    pub fn new(alloc: Global) -> Changes
        ensures { result ≡ [] }
    {
        Changes {
            bytes: Vec::new(alloc),
            entries: Vec::new(alloc),
        }
    }

    pub fn allocator(&self) -> Global {
        *self.entries.allocator()
    }

    pub fn len(&self) -> usize
        ensures { result ≡ length self.now }
    {
        self.entries.len()
    }

    /// About so many bytes the changes take, as records too.
    pub fn held(&self) -> usize {
        let records = self.entries.len().saturating_mul(OVERHEAD);
        self.bytes.len().saturating_add(records)
    }

    /// One change more: the record of the key is set, or is removed.
    pub fn push(&mut self, key: &[u8], value: &[u8], sets: bool) -> Result<(), NoMemory>
        requires { IsSmall key.now value.now }
        ensures ok { OnOk result (self.new ≡ self.old ++ change_by sets key.now value.now ∷ []) }
        ensures err { OnErr result (self.new ≡ self.old) }
    {
        let start = self.bytes.len();
        self.bytes.extend_from_slice(key)?;
        self.bytes.extend_from_slice(value)?;
        self.entries.push(Entry {
            hash: mix(key),
            start,
            value_length: value.len() as u32,
            key_length: key.len() as u16,
            sets,
        })?;
        Ok(())
    }

    pub fn clear(&mut self)
        ensures { self.new ≡ [] }
    {
        self.entries.clear();
        self.bytes.clear();
    }

    /// Keeps so many, the first.
    pub fn truncate(&mut self, count: usize)
        ensures { self.new ≡ take count self.old }
    {
        self.entries.truncate(count);
    }

    /// The records that the changes leave, in hash order.
    pub fn into_pairs(self) -> Result<PairList, NoMemory>
        ensures records { IfOk result (λ pairs. pairs ≡ after Hash self []) }
        ensures small { IfOk result AllPairsSmall }
    {
        let Changes { bytes, mut entries } = self;
        sort(&mut entries)?;
        pairs_of(*entries.allocator(), &bytes, &entries)
    }
}

/// The key and the value of an entry.
fn parts<'a>(bytes: &'a [u8], entry: &Entry) -> (&'a [u8], &'a [u8])
    requires { IsEntry bytes.now entry.now }
    ensures key { result.0.now ≡ key_in bytes.now entry.now }
    ensures value { result.1.now ≡ value_in bytes.now entry.now }
{
    let middle = entry.start + entry.key_length as usize;
    let end = middle + entry.value_length as usize;
    (&bytes[entry.start..middle], &bytes[middle..end])
}

/// The records that the changes of these entries leave.
fn pairs_of(alloc: Global, bytes: &[u8], entries: &[Entry]) -> Result<PairList, NoMemory>
    requires { AllEntries bytes.now entries.now }
    ensures { IfOk result (λ pairs. pairs ≡ after Hash (changes_in bytes.now entries.now) []) }
{
    let mut pairs = RisingPairs::with_capacity(alloc, entries.len())?;
    for entry in entries {
        let (key, value) = parts(bytes, entry);
        if !entry.sets {
            pairs.remove(entry.hash, key);
            continue;
        }
        let key = Bytes::from_slice(alloc, key)?;
        let value = Bytes::from_slice(alloc, value)?;
        pairs.put(entry.hash, Pair { key, value })?;
    }
    Ok(pairs.into_list())
}

/// The changes that set records, in their order.
pub(crate) fn sets_of(alloc: Global, pairs: &[Pair]) -> Result<Changes, NoMemory>
    requires { AllPairsSmall pairs.now }
    ensures { IfOk result (λ changes. changes ≡ map kinds.Put pairs.now) }
{
    let mut changes = Changes::new(alloc);
    for pair in pairs {
        changes.push(pair.key.as_slice(), pair.value.as_slice(), true)?;
    }
    Ok(changes)
}
