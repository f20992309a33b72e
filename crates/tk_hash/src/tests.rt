ghost use Rattle.std.specs.Prelude.{◌≡◌, ◌≤◌, ◌<◌, ◌+◌, ◌^◌, ◌++◌, ◌∷◌, [], length, true, false, IfOk, OnOk};
ghost use Rattle.tk_model.specs.declared.record.Change.TheVariants.{Put};
ghost use Rattle.tk_model.specs.Records.{IsClearAlone};
ghost use Rattle.tk_disk.specs.MemDisk.{mem_bytes, mem_image, mem_past, MemMayLeave};
ghost use Rattle.tk_store.specs.Store.{IsWhole, AllFitWithin};
ghost use Rattle.tk_hash.specs.Hash.{hash_constants, hash_view, HashStands};

use super::*;
use std::alloc::{AllocError, Global};
use std::test::Fail;
use tk_append::write_fresh;
use tk_block::StaticHead;
use tk_disk::{Disk, MemDisk};
use tk_model::{
    Bound, Bytes, Change, ChangeList, FaultList, NoMemory, OpenError, Order, Pair, PairList,
    ShardOf, Way, fnv64,
};
use tk_proc::{Remover, Setter};
use tk_store::{SeqStore, StoreError, run_on};

const ALONE: ShardOf = ShardOf { index: 0, of: 1 };

const LIMIT: u64 = 1 << 30;

/// A disk of these bytes that fails at these calls.
fn disk_of(alloc: Global, bytes: &[u8], faults: &[u64]) -> Result<MemDisk, NoMemory>
    ensures { IfOk result (λ d. mem_bytes d ≡ bytes.now) }
{
    let bytes = Bytes::from_slice(alloc, bytes)?;
    let faults = FaultList::from_vec(faults.to_vec(alloc)?);
    MemDisk::new(alloc, bytes, 10_000_000, faults)
}

/// A store over a new file of 2^p buckets, whose disk fails at these calls.
pub(crate) fn fresh(
    alloc: Global,
    p: u8,
    limit: u64,
    faults: &[u64],
) -> Result<HashStore<MemDisk>, OpenError>
    requires p { p ≤ 24 }
    ensures whole { IfOk result (IsWhole (HashStands mem_image MemMayLeave mem_past)) }
    ensures open { IfOk result (λ s. (hash_view mem_image s).closed ≡ false) }
    ensures writable { IfOk result (λ s. (hash_constants s).writable ≡ true) }
    ensures floor { IfOk result (λ s. (hash_view mem_image s).floor ≤ 0) }
{
    let disk = disk_of(alloc, b"", faults)?;
    match HashStore::create_file(alloc, disk, p, limit, ALONE) {
        Ok(store) => Ok(store),
        Err(unopened) => Err(unopened.cause),
    }
}

/// A store over a closed file, for reading.
fn opened(alloc: Global, disk: MemDisk) -> Result<HashStore<MemDisk>, OpenError>
    ensures whole { IfOk result (IsWhole (HashStands mem_image MemMayLeave mem_past)) }
{
    match HashStore::open_file(alloc, disk, false, LIMIT, ALONE) {
        Ok(store) => Ok(store),
        Err(unopened) => Err(unopened.cause),
    }
}

/// The length of what the disk holds, and its hash.
fn sum_of(disk: &MemDisk) -> (usize, u64) {
    let bytes = disk.bytes();
    (bytes.len(), fnv64(bytes))
}

pub(crate) fn set<S: SeqStore>(
    alloc: Global,
    store: &mut S,
    number: u64,
    key: &[u8],
    value: &[u8],
) -> Result<(), StoreError>
    requires whole { IsWhole S.stands store.old }
    requires open { (S.store_view store.old).closed ≡ false }
    requires writable { (S.constants store.old).writable ≡ true }
    requires number { (S.store_view store.old).floor ≤ number }
    requires key { length key.now ≤ 65535 }
    ensures whole { OnOk result (IsWhole S.stands store.new) }
    ensures open { (S.store_view store.new).closed ≡ false }
    ensures writable { (S.constants store.new).writable ≡ true }
    ensures floor { OnOk result ((S.store_view store.new).floor ≤ number + 1) }
{
    let mut setter = Setter::new(Bytes::from_slice(alloc, value)?);
    run_on(alloc, store, number, key, &mut setter)?;
    Ok(())
}

fn remove<S: SeqStore>(
    alloc: Global,
    store: &mut S,
    number: u64,
    key: &[u8],
) -> Result<(), StoreError>
    requires whole { IsWhole S.stands store.old }
    requires open { (S.store_view store.old).closed ≡ false }
    requires writable { (S.constants store.old).writable ≡ true }
    requires number { (S.store_view store.old).floor ≤ number }
    requires key { length key.now ≤ 65535 }
    ensures whole { OnOk result (IsWhole S.stands store.new) }
    ensures open { (S.store_view store.new).closed ≡ false }
    ensures writable { (S.constants store.new).writable ≡ true }
    ensures floor { OnOk result ((S.store_view store.new).floor ≤ number + 1) }
{
    let mut remover = Remover::new();
    run_on(alloc, store, number, key, &mut remover)?;
    Ok(())
}

/// Copies the value of a key into bytes that are 7 before: as many as there is room for, and no more.
fn reads_into<S: SeqStore>(
    alloc: Global,
    store: &mut S,
    key: &[u8],
    value: &[u8],
    room: usize,
) -> Result<bool, Fail>
    requires whole { IsWhole S.stands store.old }
    ensures whole { IsWhole S.stands store.new }
    ensures store_view { S.store_view store.new ≡ S.store_view store.old }
    ensures constants { S.constants store.new ≡ S.constants store.old }
{
    let mut into = Vec::new(alloc);
    into.resize(room, 7)?;
    let length = store.get_into(key, &mut into)?;
    let count = room.min(value.len());
    let right = into.len() == room
        && into[..count] == value[..count]
        && into[count..].iter().all(|byte| *byte == 7);
    Ok(right && length.is_some_and(|length| length as usize == value.len()))
}

/// A key has this value, read whole, into as much room, into more and into less.
fn has<S: SeqStore>(alloc: Global, store: &mut S, key: &[u8], value: &[u8]) -> Result<bool, Fail>
    requires whole { IsWhole S.stands store.old }
    ensures whole { IsWhole S.stands store.new }
    ensures store_view { S.store_view store.new ≡ S.store_view store.old }
    ensures constants { S.constants store.new ≡ S.constants store.old }
{
    let mut found = Bytes::from_slice(alloc, b"other")?;
    let there = store.get(key, &mut found)?;
    let len = value.len();
    Ok(
        there
            && found.as_slice() == value
            && reads_into(alloc, store, key, value, len)?
            && reads_into(alloc, store, key, value, len.saturating_add(3))?
            && reads_into(alloc, store, key, value, len / 2)?,
    )
}

/// No record has the key, and a look-up leaves the caller's bytes.
fn lacks<S: SeqStore>(alloc: Global, store: &mut S, key: &[u8]) -> Result<bool, Fail>
    requires whole { IsWhole S.stands store.old }
    ensures whole { IsWhole S.stands store.new }
    ensures store_view { S.store_view store.new ≡ S.store_view store.old }
    ensures constants { S.constants store.new ≡ S.constants store.old }
{
    let mut found = Bytes::from_slice(alloc, b"other")?;
    let there = store.get(key, &mut found)?;
    let mut into = [7; 2];
    let length = store.get_into(key, &mut into)?;
    Ok(!there && found.as_slice() == b"other".as_slice() && length.is_none() && into == [7; 2])
}

fn step<S: SeqStore>(store: &mut S, way: Way, bound: &Bound) -> Result<Option<Pair>, StoreError>
    requires whole { IsWhole S.stands store.old }
    ensures whole { IsWhole S.stands store.new }
    ensures store_view { S.store_view store.new ≡ S.store_view store.old }
    ensures constants { S.constants store.new ≡ S.constants store.old }
{
    match way {
        Way::Up => store.next(bound),
        Way::Down => store.prev(bound),
    }
}

/// The keys and values one behind the other, going this way.
fn walked<S: SeqStore>(alloc: Global, store: &mut S, way: Way) -> Result<Bytes, NoMemory>
    requires whole { IsWhole S.stands store.old }
    ensures whole { IsWhole S.stands store.new }
    ensures store_view { S.store_view store.new ≡ S.store_view store.old }
    ensures constants { S.constants store.new ≡ S.constants store.old }
{
    let mut text = Bytes::new(alloc);
    let mut bound = Bound::Edge;
    for _step in 0..20 {
        let Ok(Some(pair)) = step(store, way, &bound) else {
            return Ok(text);
        };
        text.extend(pair.key.as_slice())?;
        text.extend(pair.value.as_slice())?;
        bound = Bound::Over(pair.key);
    }
    Ok(text)
}

/// Sets and removes: two records are left.
fn five_calls<S: SeqStore>(alloc: Global, store: &mut S) -> Result<(), StoreError>
    requires whole { IsWhole S.stands store.old }
    requires open { (S.store_view store.old).closed ≡ false }
    requires writable { (S.constants store.old).writable ≡ true }
    requires number { (S.store_view store.old).floor ≤ 0 }
    ensures whole { OnOk result (IsWhole S.stands store.new) }
    ensures open { OnOk result ((S.store_view store.new).closed ≡ false) }
    ensures writable { OnOk result ((S.constants store.new).writable ≡ true) }
    ensures floor { OnOk result ((S.store_view store.new).floor ≤ 5) }
{
    set(alloc, store, 0, b"a", b"1")?;
    set(alloc, store, 1, b"b", b"22")?;
    set(alloc, store, 2, b"a", b"333")?;
    set(alloc, store, 3, b"c", b"")?;
    remove(alloc, store, 4, b"b")
}

/// The records are those that the five calls leave.
fn has_two<S: SeqStore>(alloc: Global, store: &mut S) -> Result<bool, Fail>
    requires whole { IsWhole S.stands store.old }
    ensures whole { IsWhole S.stands store.new }
    ensures store_view { S.store_view store.new ≡ S.store_view store.old }
    ensures constants { S.constants store.new ≡ S.constants store.old }
{
    let up = walked(alloc, store, Way::Up)?;
    let down = walked(alloc, store, Way::Down)?;
    let a = has(alloc, store, b"a", b"333")?;
    let b = lacks(alloc, store, b"b")?;
    let c = has(alloc, store, b"c", b"")?;
    let walks = up.as_slice() == b"ca333".as_slice() && down.as_slice() == b"a333c".as_slice();
    Ok(a && b && c && walks)
}

/// What a store with two records says of itself.
fn tells<S: SeqStore>(store: &S, next: u64) -> bool {
    store.size() == 312
        && store.count() == 2
        && store.limit() == LIMIT
        && store.order() == Order::Hash
        && store.next_number() == next
        && store.faults() == 0
}

/// Makes the five calls, and closes the store.
fn makes_two<S: SeqStore>(alloc: Global, store: &mut S) -> Result<bool, Fail>
    requires whole { IsWhole S.stands store.old }
    requires open { (S.store_view store.old).closed ≡ false }
    requires writable { (S.constants store.old).writable ≡ true }
    requires number { (S.store_view store.old).floor ≤ 0 }
{
    five_calls(alloc, store)?;
    let right = has_two(alloc, store)?;
    store.close(5)?;
    Ok(right)
}

#[test]
fn records_of_one_bucket(rt: HostRuntime) -> Result<(), Fail> {
    let alloc = rt.alloc();
    let mut store = fresh(alloc, 0, LIMIT, &[])?;
    let made = makes_two(alloc, &mut store);
    let told = tells(&store, 0);
    let disk = store.into_disk();
    assert!(rt; made? && told);
    assert_eq!(rt; sum_of(&disk), (312, 0x908164a42f371321));
    let mut store = opened(alloc, disk)?;
    let found = has_two(alloc, &mut store);
    let told = tells(&store, 5);
    let disk = store.into_disk();
    assert!(rt; found? && told);
    assert_eq!(rt; sum_of(&disk), (312, 0x908164a42f371321));
    Ok(())
}

/// Sets eight keys, each to itself.
fn fill<S: SeqStore>(alloc: Global, store: &mut S) -> Result<(), StoreError>
    requires whole { IsWhole S.stands store.old }
    requires open { (S.store_view store.old).closed ≡ false }
    requires writable { (S.constants store.old).writable ≡ true }
    requires number { (S.store_view store.old).floor ≤ 0 }
    ensures whole { OnOk result (IsWhole S.stands store.new) }
    ensures open { OnOk result ((S.store_view store.new).closed ≡ false) }
    ensures writable { OnOk result ((S.constants store.new).writable ≡ true) }
    ensures floor { OnOk result ((S.store_view store.new).floor ≤ 8) }
{
    for i in 0..8u8 {
        let key = [b'a' + i];
        set(alloc, store, i as u64, &key, &key)?;
    }
    Ok(())
}

/// Fills the store, walks both ways and closes it.
fn fills<S: SeqStore>(alloc: Global, store: &mut S) -> Result<bool, Fail>
    requires whole { IsWhole S.stands store.old }
    requires open { (S.store_view store.old).closed ≡ false }
    requires writable { (S.constants store.old).writable ≡ true }
    requires number { (S.store_view store.old).floor ≤ 0 }
{
    fill(alloc, store)?;
    let up = walked(alloc, store, Way::Up)?;
    let down = walked(alloc, store, Way::Down)?;
    let right = has(alloc, store, b"h", b"h")? && lacks(alloc, store, b"i")?;
    store.close(8)?;
    Ok(
        right
            && up.as_slice() == b"hheeggbbccaaddff".as_slice()
            && down.as_slice() == b"ffddaaccbbggeehh".as_slice(),
    )
}

#[test]
fn records_of_many_buckets(rt: HostRuntime) -> Result<(), Fail> {
    let alloc = rt.alloc();
    for (p, sum) in [
        (0, (456, 0x3f6a12318b0c50c3)),
        (4, (576, 0x557654c8082f6ccb)),
    ] {
        let mut store = fresh(alloc, p, LIMIT, &[])?;
        let filled = fills(alloc, &mut store);
        let disk = store.into_disk();
        assert!(rt; filled?, "with p {p}");
        assert_eq!(rt; sum_of(&disk), sum, "with p {p}");
    }
    Ok(())
}

#[test]
fn records_far_apart(rt: HostRuntime) -> Result<(), Fail> {
    let alloc = rt.alloc();
    let mut store = fresh(alloc, 12, LIMIT, &[])?;
    let filled = fills(alloc, &mut store);
    assert!(rt; filled?);
    Ok(())
}

/// Adds a change that sets a key.
fn add_put(
    alloc: Global,
    changes: &mut ChangeList,
    key: &[u8],
    value: &[u8],
) -> Result<(), NoMemory>
    ensures { OnOk result (changes.new ≡ changes.old ++ Put
        (record { key = key.now; value = value.now }) ∷ []) }
{
    let key = Bytes::from_slice(alloc, key)?;
    let value = Bytes::from_slice(alloc, value)?;
    changes.push(Change::Put(Pair { key, value }))
}

/// A key that is set and then removed, one that is set twice, and one more.
fn mixed_changes(alloc: Global) -> Result<ChangeList, NoMemory>
    ensures fit { IfOk result (AllFitWithin 16777215) }
    ensures alone { IfOk result IsClearAlone }
{
    let mut changes = ChangeList::new(alloc);
    add_put(alloc, &mut changes, b"a", b"1")?;
    add_put(alloc, &mut changes, b"b", b"22")?;
    changes.push(Change::Drop(Bytes::from_slice(alloc, b"a")?))?;
    add_put(alloc, &mut changes, b"b", b"333")?;
    add_put(alloc, &mut changes, b"c", b"4")?;
    Ok(changes)
}

/// A clear alone.
fn clearing(alloc: Global) -> Result<ChangeList, NoMemory>
    ensures fit { IfOk result (AllFitWithin 16777215) }
    ensures alone { IfOk result IsClearAlone }
{
    let mut changes = ChangeList::new(alloc);
    changes.push(Change::Clear)?;
    Ok(changes)
}

/// Makes a group, and answers what it needed.
fn apply<S: SeqStore>(store: &mut S, number: u64, changes: &ChangeList) -> Result<u64, StoreError>
    requires whole { IsWhole S.stands store.old }
    requires open { (S.store_view store.old).closed ≡ false }
    requires writable { (S.constants store.old).writable ≡ true }
    requires number { (S.store_view store.old).floor ≤ number }
    requires alone { IsClearAlone changes.now }
    requires fit { AllFitWithin 16777215 changes.now }
    ensures whole { OnOk result (IsWhole S.stands store.new) }
    ensures open { OnOk result ((S.store_view store.new).closed ≡ false) }
    ensures writable { OnOk result ((S.constants store.new).writable ≡ true) }
    ensures floor { OnOk result ((S.store_view store.new).floor ≤ number + 1) }
{
    let need = store.check_group(changes)?;
    store.reserve_group(changes)?;
    store.apply_reserved(number)?;
    Ok(need)
}

/// Makes one group of several changes, and closes the store.
fn makes_a_group<S: SeqStore>(alloc: Global, store: &mut S) -> Result<bool, Fail>
    requires whole { IsWhole S.stands store.old }
    requires open { (S.store_view store.old).closed ≡ false }
    requires writable { (S.constants store.old).writable ≡ true }
    requires number { (S.store_view store.old).floor ≤ 0 }
{
    let changes = mixed_changes(alloc)?;
    let need = apply(store, 3, &changes)?;
    let right = need == 240 && store.size() == 312 && store.count() == 2;
    let a = lacks(alloc, store, b"a")?;
    let b = has(alloc, store, b"b", b"333")?;
    let c = has(alloc, store, b"c", b"4")?;
    store.close(4)?;
    Ok(right && a && b && c)
}

#[test]
fn a_group_of_several_changes(rt: HostRuntime) -> Result<(), Fail> {
    let alloc = rt.alloc();
    let mut store = fresh(alloc, 0, LIMIT, &[])?;
    let made = makes_a_group(alloc, &mut store);
    let disk = store.into_disk();
    assert!(rt; made?);
    assert_eq!(rt; sum_of(&disk), (312, 0x37e5033b11c18e69));
    Ok(())
}

/// Reads of a store that was cleared find nothing of before, and take no more bytes than the new records need.
fn clears<S: SeqStore>(alloc: Global, store: &mut S) -> Result<bool, Fail>
    requires whole { IsWhole S.stands store.old }
    requires open { (S.store_view store.old).closed ≡ false }
    requires writable { (S.constants store.old).writable ≡ true }
    requires number { (S.store_view store.old).floor ≤ 0 }
{
    fill(alloc, store)?;
    let changes = clearing(alloc)?;
    apply(store, 8, &changes)?;
    let none = walked(alloc, store, Way::Up)?;
    let gone = lacks(alloc, store, b"a")?;
    let empty = gone && none.is_empty() && store.count() == 0;
    set(alloc, store, 9, b"a", b"2")?;
    let before = store.taken();
    let mut value = Bytes::new(alloc);
    let there = store.get(b"b", &mut value)?;
    let cost = store.taken().saturating_sub(before);
    let all = walked(alloc, store, Way::Down)?;
    let found = has(alloc, store, b"a", b"2")?;
    store.close(10)?;
    Ok(empty && !there && cost <= 56 && all.as_slice() == b"a2".as_slice() && found)
}

#[test]
fn a_clear(rt: HostRuntime) -> Result<(), Fail> {
    let alloc = rt.alloc();
    for (p, sum) in [
        (0, (552, 0x5d102f6e20f246ad)),
        (4, (672, 0x6c18a7bc76d56264)),
    ] {
        let mut store = fresh(alloc, p, LIMIT, &[])?;
        let cleared = clears(alloc, &mut store);
        let disk = store.into_disk();
        assert!(rt; cleared?, "with p {p}");
        assert_eq!(rt; sum_of(&disk), sum, "with p {p}");
    }
    Ok(())
}

/// So many bytes that tell their places, and a last one.
fn long_bytes(alloc: Global, len: u32, last: u8) -> Result<Bytes, Fail> {
    let mut bytes = Bytes::from_vec((0..len).map(|i| (i % 251) as u8).collect(alloc)?);
    bytes.push(last)?;
    Ok(bytes)
}

/// Sets the longest keys, which differ in the last byte, and a value that is longer than what is read at once.
fn holds_long<S: SeqStore>(alloc: Global, store: &mut S) -> Result<bool, Fail>
    requires whole { IsWhole S.stands store.old }
    requires open { (S.store_view store.old).closed ≡ false }
    requires writable { (S.constants store.old).writable ≡ true }
    requires number { (S.store_view store.old).floor ≤ 0 }
{
    let key = long_bytes(alloc, 65_534, 1)?;
    let other = long_bytes(alloc, 65_534, 2)?;
    let value = long_bytes(alloc, 199_999, 3)?;
    if key.len() > 65_535 || other.len() > 65_535 {
        return Ok(false);
    }
    set(alloc, store, 0, key.as_slice(), value.as_slice())?;
    set(alloc, store, 1, other.as_slice(), b"2")?;
    Ok(
        has(alloc, store, key.as_slice(), value.as_slice())?
            && has(alloc, store, other.as_slice(), b"2")?
            && lacks(alloc, store, b"")?
            && store.size() == 72 + 265_584 + 65_584,
    )
}

#[test]
fn long_keys_and_values(rt: HostRuntime) -> Result<(), Fail> {
    let alloc = rt.alloc();
    let mut store = fresh(alloc, 0, LIMIT, &[])?;
    let held = holds_long(alloc, &mut store);
    let _disk = store.into_disk();
    assert!(rt; held?);
    Ok(())
}

/// The size, the need and the limit of a set that is refused.
fn refused_set<S: SeqStore>(
    alloc: Global,
    store: &mut S,
    number: u64,
    key: &[u8],
) -> Result<Option<(u64, u64, u64)>, StoreError>
    requires whole { IsWhole S.stands store.old }
    requires open { (S.store_view store.old).closed ≡ false }
    requires writable { (S.constants store.old).writable ≡ true }
    requires number { (S.store_view store.old).floor ≤ number }
    requires key { length key.now ≤ 65535 }
    ensures whole { OnOk result (IsWhole S.stands store.new) }
    ensures open { (S.store_view store.new).closed ≡ false }
    ensures writable { (S.constants store.new).writable ≡ true }
    ensures floor { OnOk result ((S.store_view store.new).floor ≤ number + 1) }
{
    let mut setter = Setter::new(Bytes::new(alloc));
    match run_on(alloc, store, number, key, &mut setter) {
        Ok(_) => Ok(None),
        Err(StoreError::Full { size, need, limit }) => Ok(Some((size, need, limit))),
        Err(cause) => Err(cause),
    }
}

/// Fills a store up to its limit, which has room for two blocks. A list without changes is never refused.
fn stops_at_the_limit<S: SeqStore>(alloc: Global, store: &mut S) -> Result<bool, Fail>
    requires whole { IsWhole S.stands store.old }
    requires open { (S.store_view store.old).closed ≡ false }
    requires writable { (S.constants store.old).writable ≡ true }
    requires number { (S.store_view store.old).floor ≤ 0 }
{
    set(alloc, store, 0, b"a", b"1")?;
    set(alloc, store, 1, b"b", b"2")?;
    let refused = refused_set(alloc, store, 2, b"c")?;
    let need = apply(store, 3, &ChangeList::new(alloc))?;
    Ok(
        refused == Some((168, 48, store.limit()))
            && need == 0
            && store.size() == 168
            && has(alloc, store, b"a", b"1")?
            && has(alloc, store, b"b", b"2")?
            && lacks(alloc, store, b"c")?,
    )
}

#[test]
fn the_limit(rt: HostRuntime) -> Result<(), Fail> {
    let alloc = rt.alloc();
    for limit in [168, 215] {
        let mut store = fresh(alloc, 0, limit, &[])?;
        let told = store.limit() == limit;
        let stopped = stops_at_the_limit(alloc, &mut store);
        let _disk = store.into_disk();
        assert!(rt; stopped? && told, "at {limit}");
    }
    Ok(())
}

/// Each call that reads.
fn all_reads<S: SeqStore>(alloc: Global, store: &mut S) -> Result<(), StoreError>
    requires whole { IsWhole S.stands store.old }
    ensures whole { IsWhole S.stands store.new }
    ensures store_view { S.store_view store.new ≡ S.store_view store.old }
    ensures constants { S.constants store.new ≡ S.constants store.old }
{
    let mut value = Bytes::new(alloc);
    let mut into = [0; 2];
    store.get(b"a", &mut value)?;
    store.get_into(b"a", &mut into)?;
    step(store, Way::Up, &Bound::Edge)?;
    step(store, Way::Down, &Bound::Edge)?;
    Ok(())
}

/// Makes all durable.
pub(crate) fn sync_hard(store: &mut HashStore<MemDisk>) -> Result<(), StoreError>
    requires whole { IsWhole (HashStands mem_image MemMayLeave mem_past) store.old }
    requires open { (hash_view mem_image store.old).closed ≡ false }
    ensures whole { OnOk result (IsWhole (HashStands mem_image MemMayLeave mem_past) store.new) }
    ensures store_view { OnOk result (hash_view mem_image store.new ≡ hash_view mem_image
        store.old) }
    ensures constants { hash_constants store.new ≡ hash_constants store.old }
{
    store.sync(true)?;
    Ok(())
}

/// Each kind of call that reads or writes.
fn all_calls(alloc: Global, store: &mut HashStore<MemDisk>) -> Result<(), StoreError>
    requires whole { IsWhole (HashStands mem_image MemMayLeave mem_past) store.old }
    requires open { (hash_view mem_image store.old).closed ≡ false }
    requires writable { (hash_constants store.old).writable ≡ true }
    requires number { (hash_view mem_image store.old).floor ≤ 0 }
{
    five_calls(alloc, store)?;
    all_reads(alloc, store)?;
    let changes = clearing(alloc)?;
    apply(store, 5, &changes)?;
    sync_hard(store)?;
    store.close(6)
}

/// Makes all calls on a new file, whose disk fails at this call, and answers whether it failed: then the answer is a fault.
fn fails_at(alloc: Global, call: u64) -> Result<Option<bool>, Fail> {
    match fresh(alloc, 0, LIMIT, &[call]) {
        Ok(mut store) => {
            let answer = all_calls(alloc, &mut store);
            let faults = store.faults();
            let _disk = store.into_disk();
            Ok(match answer {
                Ok(()) if faults == 0 => Some(false),
                Err(StoreError::Fault) if faults == 1 => Some(true),
                _ => None,
            })
        }
        Err(cause) => Ok((cause == OpenError::Fault).then_some(true)),
    }
}

#[test]
fn each_call_of_the_disk_fails(rt: HostRuntime) -> Result<(), Fail> {
    let alloc = rt.alloc();
    for call in 0..200 {
        let failed = fails_at(alloc, call)?;
        assert!(rt; failed.is_some(), "at {call}");
        if failed == Some(false) {
            assert!(rt; call > 30, "at {call}");
            return Ok(());
        }
    }
    assert!(rt; false);
    Ok(())
}

/// Why a file of these bytes is refused, where the disk comes back as it was or failed.
fn refusal(alloc: Global, bytes: &[u8], faults: &[u64]) -> Result<Option<OpenError>, NoMemory> {
    let disk = disk_of(alloc, bytes, faults)?;
    match HashStore::open_file(alloc, disk, true, LIMIT, ALONE) {
        Ok(store) => {
            let _disk = store.into_disk();
            Ok(None)
        }
        Err(unopened) => {
            let fault = unopened.cause == OpenError::Fault;
            Ok((fault || unopened.disk.bytes() == bytes).then_some(unopened.cause))
        }
    }
}

fn makes_one<S: SeqStore>(alloc: Global, store: &mut S) -> Result<(), StoreError>
    requires whole { IsWhole S.stands store.old }
    requires open { (S.store_view store.old).closed ≡ false }
    requires writable { (S.constants store.old).writable ≡ true }
    requires number { (S.store_view store.old).floor ≤ 0 }
{
    set(alloc, store, 0, b"a", b"1")?;
    store.close(1)
}

/// The closed file of one record, in one bucket.
fn one_record(alloc: Global) -> Result<Bytes, Fail> {
    let mut store = fresh(alloc, 0, LIMIT, &[])?;
    let made = makes_one(alloc, &mut store);
    let disk = store.into_disk();
    made?;
    Ok(Bytes::from_slice(alloc, disk.bytes())?)
}

#[test]
fn files_that_are_refused(rt: HostRuntime) -> Result<(), Fail> {
    let alloc = rt.alloc();
    let open = fresh(alloc, 0, LIMIT, &[])?.into_disk();
    assert_eq!(rt;
        refusal(alloc, open.bytes(), &[])?,
        Some(OpenError::BrokenAt(32))
    );
    let head = StaticHead {
        kind: 2,
        version: 1,
        p: 0,
        order: 0,
        generation: 0,
    };
    let mut other = disk_of(alloc, b"", &[])?;
    write_fresh(alloc, &mut other, &head, 0, &PairList::new(alloc))?;
    assert_eq!(rt;
        refusal(alloc, other.bytes(), &[])?,
        Some(OpenError::BrokenAt(8))
    );
    let mut looped = one_record(alloc)?;
    assert_eq!(rt; refusal(alloc, looped.as_slice(), &[])?, None);
    assert!(rt; looped.len() == 120);
    looped.write_at(88, &72u64.to_be_bytes());
    assert_eq!(rt;
        refusal(alloc, looped.as_slice(), &[])?,
        Some(OpenError::BrokenAt(88))
    );
    Ok(())
}

#[test]
fn each_call_of_an_opening_fails(rt: HostRuntime) -> Result<(), Fail> {
    let alloc = rt.alloc();
    let bytes = one_record(alloc)?;
    for call in 0..20 {
        match refusal(alloc, bytes.as_slice(), &[call])? {
            Some(cause) => assert_eq!(rt; cause, OpenError::Fault, "at {call}"),
            None => {
                assert!(rt; call > 3);
                return Ok(());
            }
        }
    }
    assert!(rt; false);
    Ok(())
}
