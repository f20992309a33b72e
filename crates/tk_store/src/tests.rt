ghost use Rattle.std.specs.Prelude.{◌≡◌, ◌≤◌, [], ◌∷◌, length, IfSome, IfOk, true, false};
ghost use Rattle.tk_model.specs.declared.record.Change.TheVariants.{Put};
ghost use Rattle.tk_model.specs.Records.{find, IsClearAlone};
ghost use Rattle.tk_proc.specs.Replies.{get_reply, set_reply, remove_reply};
ghost use Rattle.tk_store.specs.Store.{IsWhole, AllFitWithin};
ghost use Rattle.tk_store.specs.OneRecord.{reply_status};

use super::*;
use crate::memory::MemStore;
use std::alloc::Global;
use std::test::Fail;
use tk_model::{Bound, Bytes, Change, ChangeList, ListOf, NoMemory, Order, Pair};
use tk_proc::{Adder, Getter, Remover, Setter};
use tk_status::{Status, number};

/// The call of a setter is its row of the replies.
fn set_on<S: SeqStore>(
    alloc: Global,
    store: &mut S,
    number: u64,
    key: &[u8],
    value: Bytes,
) -> Result<Status, StoreError>
    requires whole { IsWhole S.stands store.old }
    requires open { (S.store_view store.old).closed ≡ false }
    requires key { length key.now ≤ 65535 }
    requires writable { (S.constants store.old).writable ≡ true }
    requires number { (S.store_view store.old).floor ≤ number }
    ensures { IfSome (S.store_view store.old).map
        (λ m. IfOk result (λ s. s ≡ reply_status (set_reply value true (find key.now m)))) }
{
    let mut setter = Setter::new(value);
    match run_on(alloc, store, number, key, &mut setter)? {
        Status::Success => Ok(setter.status()),
        long => Ok(long),
    }
}

/// The call of an adder is its row of the replies.
fn add_on<S: SeqStore>(
    alloc: Global,
    store: &mut S,
    number: u64,
    key: &[u8],
    value: Bytes,
) -> Result<Status, StoreError>
    requires whole { IsWhole S.stands store.old }
    requires open { (S.store_view store.old).closed ≡ false }
    requires key { length key.now ≤ 65535 }
    requires writable { (S.constants store.old).writable ≡ true }
    requires number { (S.store_view store.old).floor ≤ number }
    ensures { IfSome (S.store_view store.old).map
        (λ m. IfOk result (λ s. s ≡ reply_status (set_reply value false (find key.now m)))) }
{
    let mut adder = Adder::new(value);
    match run_on(alloc, store, number, key, &mut adder)? {
        Status::Success => Ok(adder.status()),
        long => Ok(long),
    }
}

/// The call of a remover is its row of the replies.
fn remove_on<S: SeqStore>(
    alloc: Global,
    store: &mut S,
    number: u64,
    key: &[u8],
) -> Result<Status, StoreError>
    requires whole { IsWhole S.stands store.old }
    requires open { (S.store_view store.old).closed ≡ false }
    requires key { length key.now ≤ 65535 }
    requires writable { (S.constants store.old).writable ≡ true }
    requires number { (S.store_view store.old).floor ≤ number }
    ensures { IfSome (S.store_view store.old).map
        (λ m. IfOk result (λ s. s ≡ reply_status (remove_reply (find key.now m)))) }
{
    let mut remover = Remover::new();
    match run_on(alloc, store, number, key, &mut remover)? {
        Status::Success => Ok(remover.status()),
        long => Ok(long),
    }
}

/// The call of a getter is its row of the replies.
#[tactic(auto, using(crate::proofs::Acts::get_keeps))]
fn get_on<S: SeqStore>(
    alloc: Global,
    store: &mut S,
    key: &[u8],
) -> Result<(Status, Getter), StoreError>
    requires whole { IsWhole S.stands store.old }
    requires open { (S.store_view store.old).closed ≡ false }
    requires key { length key.now ≤ 65535 }
    ensures status { IfSome (S.store_view store.old).map
        (λ m. IfOk result (λ r. r.0 ≡ reply_status (get_reply (find key.now m)))) }
    ensures value { IfSome (S.store_view store.old).map
        (λ m. IfOk result (λ r. r.1 ≡ find key.now m)) }
{
    let mut getter = Getter::new(alloc);
    let status = match run_on(alloc, store, 0, key, &mut getter)? {
        Status::Success => getter.status(),
        long => long,
    };
    Ok((status, getter))
}

fn puts(alloc: Global, key: &[u8], value: &[u8]) -> Result<ChangeList, NoMemory>
    requires key { length key.now ≤ 65535 }
    requires value { length value.now ≤ 65535 }
    ensures { IfOk result (λ cs. cs ≡ Put (record { key = key.now; value = value.now }) ∷ []) }
{
    let mut changes = ListOf::new(alloc);
    changes.push(Change::Put(Pair {
        key: Bytes::from_slice(alloc, key)?,
        value: Bytes::from_slice(alloc, value)?,
    }))?;
    Ok(changes)
}

fn is_at(found: &Option<Pair>, key: &[u8]) -> bool {
    match found {
        Some(pair) => pair.key.as_slice() == key,
        None => false,
    }
}

/// Reads, and goes up and down.
fn reads<S: SeqStore>(alloc: Global, store: &mut S, key: &[u8]) -> Result<bool, StoreError>
    requires whole { IsWhole S.stands store.old }
    ensures whole { IsWhole S.stands store.new }
{
    let mut value = Bytes::new(alloc);
    let found = store.get(key, &mut value)?;
    let mut front = [0; 3];
    let length = store.get_into(key, &mut front)?;
    let up = store.next(&Bound::Edge)?;
    let down = store.prev(&Bound::Edge)?;
    Ok(found && length == Some(5) && is_at(&up, key) && is_at(&down, key))
}

/// Makes a group, and answers what it needed.
fn writes<S: SeqStore>(store: &mut S, changes: &ChangeList) -> Result<u64, StoreError>
    requires whole { IsWhole S.stands store.old }
    requires open { (S.store_view store.old).closed ≡ false }
    requires alone { IsClearAlone changes.now }
    requires fit { AllFitWithin (S.constants store.old).longest_value changes.now }
    requires writable { (S.constants store.old).writable ≡ true }
    requires number { (S.store_view store.old).floor ≤ 5 }
{
    let need = store.check_group(changes)?;
    store.reserve_group(changes)?;
    store.apply_reserved(5)?;
    Ok(need)
}

/// Sets a record and reads it.
fn reads_back<S: SeqStore>(
    alloc: Global,
    store: &mut S,
    key: &[u8],
    value: Bytes,
) -> Result<bool, StoreError>
    requires whole { IsWhole S.stands store.old }
    requires open { (S.store_view store.old).closed ≡ false }
    requires key { length key.now ≤ 65535 }
    requires writable { (S.constants store.old).writable ≡ true }
    requires number { (S.store_view store.old).floor ≤ 1 }
{
    let mut setter = Setter::new(value);
    run_on(alloc, store, 1, key, &mut setter)?;
    reads(alloc, store, key)
}

#[test]
fn each_call_of_a_store(rt: HostRuntime) -> Result<(), Fail> {
    let alloc = rt.alloc();
    let mut store = MemStore::new(alloc, Order::Bytes, 1);
    let changes = puts(alloc, b"a", b"value")?;
    assert_eq!(rt; writes(&mut store, &changes)?, 1);
    assert_eq!(rt; (store.limit(), store.next_number()), (1, 0));
    assert_eq!(rt; (store.size(), store.count()), (1, 1));
    assert_eq!(rt; (store.faults(), store.taken()), (0, 0));
    Ok(())
}

#[test]
fn stores_that_are_closed_synced_and_read(rt: HostRuntime) -> Result<(), Fail> {
    let alloc = rt.alloc();
    let mut store = MemStore::new(alloc, Order::Bytes, 1);
    store.close(1)?;
    let mut store = MemStore::new(alloc, Order::Bytes, 1);
    store.sync(true)?;
    let value = Bytes::from_slice(alloc, b"value")?;
    let mut store = MemStore::new(alloc, Order::Bytes, 1);
    assert!(rt; reads_back(alloc, &mut store, b"k", value)?);
    Ok(())
}

#[test]
fn a_setter_on_a_store(rt: HostRuntime) -> Result<(), Fail> {
    let alloc = rt.alloc();
    let mut store = MemStore::new(alloc, Order::Bytes, 1);
    let value = Bytes::from_slice(alloc, b"value")?;
    let status = set_on(alloc, &mut store, 1, b"k", value)?;
    assert_eq!(rt; number(&status), 0);
    Ok(())
}

#[test]
fn an_adder_on_a_store(rt: HostRuntime) -> Result<(), Fail> {
    let alloc = rt.alloc();
    let mut store = MemStore::new(alloc, Order::Bytes, 1);
    let value = Bytes::from_slice(alloc, b"value")?;
    let status = add_on(alloc, &mut store, 1, b"k", value)?;
    assert_eq!(rt; number(&status), 0);
    Ok(())
}

#[test]
fn a_remover_and_a_getter_on_a_store(rt: HostRuntime) -> Result<(), Fail> {
    let alloc = rt.alloc();
    let mut store = MemStore::new(alloc, Order::Bytes, 1);
    assert_eq!(rt; number(&remove_on(alloc, &mut store, 1, b"k")?), 7);
    let mut store = MemStore::new(alloc, Order::Bytes, 1);
    let (status, _getter) = get_on(alloc, &mut store, b"k")?;
    assert_eq!(rt; number(&status), 7);
    Ok(())
}
