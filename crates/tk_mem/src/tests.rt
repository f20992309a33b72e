ghost use Rattle.std.specs.Prelude.{◌≡◌, ◌≤◌, ◌<◌, ◌+◌, ◌^◌, ◌++◌, ◌∷◌, [], length, min, true, false, IfOk, OnOk};
ghost use Rattle.tk_model.specs.declared.record.Change.TheVariants.{Put};
ghost use Rattle.tk_model.specs.Records.{IsClearAlone};
ghost use Rattle.tk_store.specs.Store.{IsWhole, AllFitWithin};
ghost use Rattle.tk_mem.specs.Tiny.{TinyStands, tiny_constants, tiny_view};

use super::*;
use std::alloc::Global;
use std::test::Fail;
use tk_model::{
    Bound, Bytes, Change, ChangeList, NoMemory, Order, Pair, PairList, drop_in, put_in,
};
use tk_store::{HashedRecords, SeqStore, StoreError};

/// A store without records.
fn empty(alloc: Global, limit: u64) -> Result<TinyRecords, NoMemory>
    ensures whole { IfOk result (IsWhole TinyStands) }
    ensures open { IfOk result (λ s. (tiny_view s).closed ≡ false) }
    ensures writable { IfOk result (λ s. (tiny_constants s).writable ≡ true) }
    ensures floor { IfOk result (λ s. (tiny_view s).floor ≡ 0) }
{
    let records = HashedRecords::new(alloc, 0)?;
    Ok(TinyRecords::of(alloc, records, 8, true, limit))
}

fn pair(alloc: Global, key: &[u8], value: &[u8]) -> Result<Pair, NoMemory> {
    let key = Bytes::from_slice(alloc, key)?;
    let value = Bytes::from_slice(alloc, value)?;
    Ok(Pair { key, value })
}

fn add_put(
    alloc: Global,
    changes: &mut ChangeList,
    key: &[u8],
    value: &[u8],
) -> Result<(), NoMemory>
    ensures { OnOk result (changes.new ≡ changes.old ++ Put
        (record { key = key.now; value = value.now }) ∷ []) }
{
    let key = Bytes::from_slice(alloc, key)?;
    let value = Bytes::from_slice(alloc, value)?;
    changes.push(Change::Put(Pair { key, value }))
}

pub(crate) fn setting(alloc: Global, key: &[u8], value: &[u8]) -> Result<ChangeList, NoMemory>
    requires key { length key.now ≤ 8 }
    requires value { length value.now ≤ 8 }
    ensures fit { IfOk result (AllFitWithin 16777215) }
    ensures alone { IfOk result IsClearAlone }
{
    let mut changes = ChangeList::new(alloc);
    add_put(alloc, &mut changes, key, value)?;
    Ok(changes)
}

fn dropping(alloc: Global, key: &[u8]) -> Result<ChangeList, NoMemory>
    requires { length key.now ≤ 8 }
    ensures fit { IfOk result (AllFitWithin 16777215) }
    ensures alone { IfOk result IsClearAlone }
{
    let mut changes = ChangeList::new(alloc);
    changes.push(Change::Drop(Bytes::from_slice(alloc, key)?))?;
    Ok(changes)
}

/// Makes a group, and answers what it needed.
pub(crate) fn apply<S: SeqStore>(
    store: &mut S,
    number: u64,
    changes: &ChangeList,
) -> Result<u64, StoreError>
    requires whole { IsWhole S.stands store.old }
    requires open { (S.store_view store.old).closed ≡ false }
    requires writable { (S.constants store.old).writable ≡ true }
    requires number { (S.store_view store.old).floor ≤ number }
    requires alone { IsClearAlone changes.now }
    requires fit { AllFitWithin 16777215 changes.now }
    ensures whole { OnOk result (IsWhole S.stands store.new) }
    ensures open { OnOk result ((S.store_view store.new).closed ≡ false) }
    ensures writable { OnOk result ((S.constants store.new).writable ≡ true) }
    ensures floor { OnOk result ((S.store_view store.new).floor ≤ number + 1) }
{
    let need = store.check_group(changes)?;
    store.reserve_group(changes)?;
    store.apply_reserved(number)?;
    Ok(need)
}

/// Prepares a group.
fn prepare<S: SeqStore>(store: &mut S, changes: &ChangeList) -> Result<(), StoreError>
    requires whole { IsWhole S.stands store.old }
    requires open { (S.store_view store.old).closed ≡ false }
    requires writable { (S.constants store.old).writable ≡ true }
    requires alone { IsClearAlone changes.now }
    requires fit { AllFitWithin 16777215 changes.now }
    ensures whole { OnOk result (IsWhole S.stands store.new) }
    ensures open { (S.store_view store.new).closed ≡ false }
    ensures writable { (S.constants store.new).writable ≡ true }
    ensures floor { OnOk result ((S.store_view store.new).floor ≡ (S.store_view store.old).floor) }
{
    store.reserve_group(changes)
}

/// Sets a key, or takes one away, in the store and in a sorted list.
fn step<S: SeqStore>(
    alloc: Global,
    store: &mut S,
    list: &mut PairList,
    number: u64,
) -> Result<(), StoreError>
    requires whole { IsWhole S.stands store.old }
    requires open { (S.store_view store.old).closed ≡ false }
    requires writable { (S.constants store.old).writable ≡ true }
    requires floor { (S.store_view store.old).floor ≤ number }
    requires small { number < 600 }
    ensures whole { OnOk result (IsWhole S.stands store.new) }
    ensures open { OnOk result ((S.store_view store.new).closed ≡ false) }
    ensures writable { OnOk result ((S.constants store.new).writable ≡ true) }
    ensures floor { OnOk result ((S.store_view store.new).floor ≤ number + 1) }
{
    let key = (number * 7 % 251).to_be_bytes();
    let value = number.to_be_bytes();
    if number % 5 == 4 {
        drop_in(list, &key);
        let changes = dropping(alloc, &key)?;
        apply(store, number, &changes)?;
        return Ok(());
    }
    put_in(list, &Order::Hash, pair(alloc, &key, &value)?)?;
    let changes = setting(alloc, &key, &value)?;
    apply(store, number, &changes)?;
    Ok(())
}

fn fill<S: SeqStore>(alloc: Global, store: &mut S, list: &mut PairList) -> Result<(), StoreError>
    requires whole { IsWhole S.stands store.old }
    requires open { (S.store_view store.old).closed ≡ false }
    requires writable { (S.constants store.old).writable ≡ true }
    requires floor { (S.store_view store.old).floor ≤ 0 }
    ensures whole { OnOk result (IsWhole S.stands store.new) }
{
    for i in 0..600u64 {
        step(alloc, store, list, i)?;
    }
    Ok(())
}

fn is_at(found: &Option<Pair>, pair: &Pair) -> bool {
    match found {
        Some(found) => {
            found.key.as_slice() == pair.key.as_slice()
                && found.value.as_slice() == pair.value.as_slice()
        }
        None => false,
    }
}

fn first<S: SeqStore>(store: &mut S) -> Result<Option<Pair>, StoreError>
    requires whole { IsWhole S.stands store.old }
    ensures whole { IsWhole S.stands store.new }
    ensures store_view { S.store_view store.new ≡ S.store_view store.old }
    ensures constants { S.constants store.new ≡ S.constants store.old }
{
    store.next(&Bound::Edge)
}

/// The records, one after the other, are those of the list.
fn are<S: SeqStore>(store: &mut S, list: &PairList) -> Result<bool, StoreError>
    requires whole { IsWhole S.stands store.old }
{
    let mut bound = Bound::Edge;
    for pair in list.as_slice() {
        let found = store.next(&bound)?;
        if !is_at(&found, pair) {
            return Ok(false);
        }
        bound = Bound::Over(pair.key.clone().map_err(|_| StoreError::NoMemory)?);
    }
    Ok(store.next(&bound)?.is_none() && store.count() == list.len() as u64)
}

#[test]
fn calls_answer_as_a_sorted_list(rt: HostRuntime) -> Result<(), Fail> {
    let alloc = rt.alloc();
    let mut store = empty(alloc, u64::MAX)?;
    let mut list = PairList::new(alloc);
    fill(alloc, &mut store, &mut list)?;
    assert!(rt; list.len() > 150 && list.len() < 251);
    assert_eq!(rt; store.size(), 8 + 22 * list.len() as u64);
    assert!(rt; are(&mut store, &list)?);
    Ok(())
}

#[test]
fn synced_and_closed(rt: HostRuntime) -> Result<(), Fail> {
    let alloc = rt.alloc();
    let mut store = empty(alloc, 16)?;
    store.sync(true)?;
    assert_eq!(rt; (store.limit(), store.next_number()), (16, 0));
    let mut store = empty(alloc, 16)?;
    store.close(0)?;
    assert_eq!(rt; (store.size(), store.count()), (8, 0));
    assert_eq!(rt; (store.faults(), store.taken()), (0, 0));
    Ok(())
}

#[test]
fn full_with_its_numbers(rt: HostRuntime) -> Result<(), Fail> {
    let alloc = rt.alloc();
    let mut store = empty(alloc, 17)?;
    let changes = setting(alloc, b"k", b"v")?;
    assert_eq!(rt; apply(&mut store, 0, &changes)?, 8);
    let changes = setting(alloc, b"k", b"vw")?;
    assert_eq!(rt; apply(&mut store, 1, &changes)?, 1);
    let changes = setting(alloc, b"l", b"")?;
    let answer = prepare(&mut store, &changes);
    let full = StoreError::Full {
        size: 17,
        need: 7,
        limit: 17,
    };
    assert_eq!(rt; answer, Err(full));
    assert_eq!(rt; (store.count(), store.size()), (1, 17));
    Ok(())
}

#[test]
fn a_dropped_group_is_not_made(rt: HostRuntime) -> Result<(), Fail> {
    let alloc = rt.alloc();
    let mut store = empty(alloc, u64::MAX)?;
    let mut list = PairList::new(alloc);
    put_in(&mut list, &Order::Hash, pair(alloc, b"a", b"1")?)?;
    let changes = setting(alloc, b"a", b"1")?;
    apply(&mut store, 0, &changes)?;
    let dropped = setting(alloc, b"b", b"2")?;
    prepare(&mut store, &dropped)?;
    assert!(rt; is_at(&first(&mut store)?, &pair(alloc, b"a", b"1")?));
    put_in(&mut list, &Order::Hash, pair(alloc, b"c", b"3")?)?;
    let changes = setting(alloc, b"c", b"3")?;
    apply(&mut store, 1, &changes)?;
    assert_eq!(rt; store.size(), 24);
    assert!(rt; are(&mut store, &list)?);
    Ok(())
}
