//! What look-ups and changes take of the disk.
ghost use Rattle.std.specs.Prelude.{◌≡◌, ◌≤◌, length, true, false};
ghost use Rattle.tk_store.specs.Store.{IsWhole};

use crate::tests::{fresh, set};
use std::alloc::Global;
use std::test::Fail;
use tk_model::Bytes;
use tk_store::SeqStore;

const LIMIT: u64 = 1 << 30;

/// The bytes that a look-up takes.
fn get_cost<S: SeqStore>(alloc: Global, store: &mut S, key: &[u8]) -> Result<u64, Fail>
    requires whole { IsWhole S.stands store.old }
    ensures whole { IsWhole S.stands store.new }
    ensures store_view { S.store_view store.new ≡ S.store_view store.old }
    ensures constants { S.constants store.new ≡ S.constants store.old }
{
    let before = store.taken();
    let mut value = Bytes::new(alloc);
    store.get(key, &mut value)?;
    Ok(store.taken().saturating_sub(before))
}

/// The bytes that are taken by a look-up in an empty bucket, by a set of the older of two keys, and by look-ups of the
/// newest block, of the one before it, and past all three.
fn costs<S: SeqStore>(alloc: Global, store: &mut S) -> Result<[u64; 5], Fail>
    requires whole { IsWhole S.stands store.old }
    requires open { (S.store_view store.old).closed ≡ false }
    requires writable { (S.constants store.old).writable ≡ true }
    requires number { (S.store_view store.old).floor ≤ 0 }
{
    let empty = get_cost(alloc, store, b"a")?;
    set(alloc, store, 0, b"a", b"1")?;
    set(alloc, store, 1, b"b", b"2")?;
    let before = store.taken();
    set(alloc, store, 2, b"a", b"3")?;
    let change = store.taken().saturating_sub(before);
    let newest = get_cost(alloc, store, b"a")?;
    let older = get_cost(alloc, store, b"b")?;
    let none = get_cost(alloc, store, b"c")?;
    Ok([empty, change, newest, older, none])
}

#[test]
fn the_blocks_of_a_chain_alone_are_read(rt: HostRuntime) -> Result<(), Fail> {
    let alloc = rt.alloc();
    let mut store = fresh(alloc, 0, LIMIT, &[])?;
    assert_eq!(rt; costs(alloc, &mut store)?, [0, 96, 48, 96, 144]);
    Ok(())
}

/// Whether a set of the older of two keys fails on a disk that fails at this call. None where a call before it fails.
fn fails_third(alloc: Global, call: u64) -> Option<bool> {
    let Ok(mut store) = fresh(alloc, 0, LIMIT, &[call]) else {
        return None;
    };
    let Ok(()) = set(alloc, &mut store, 0, b"a", b"1") else {
        return None;
    };
    let Ok(()) = set(alloc, &mut store, 1, b"b", b"2") else {
        return None;
    };
    Some(set(alloc, &mut store, 2, b"a", b"3").is_err())
}

#[test]
fn a_set_reads_each_block_once_and_writes_twice(rt: HostRuntime) -> Result<(), Fail> {
    let alloc = rt.alloc();
    let mut calls: u64 = 0;
    for call in 0..64 {
        if fails_third(alloc, call) == Some(true) {
            calls = calls.saturating_add(1);
        }
    }
    // Two blocks, the group and its head.
    assert_eq!(rt; calls, 4);
    Ok(())
}
