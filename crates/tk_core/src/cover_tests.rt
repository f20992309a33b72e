//! Which locks a call of each kind needs: of a core of two stores and 16 stripes, whose stores have the locks 16 and 17.
use crate::{Core, Move, MoveList};
use std::alloc::Global;
use std::test::Fail;
use tk_hashnum::{mix, shard, stripe};
use tk_model::{Action, Bound, Bytes, Entry, Order, Pair, Touch, TouchList, Way};

/// A call, where the key "a" has the value "1".
#[derive(Clone, Copy)]
enum Kind {
    Get,
    Put,
    Count,
    Sync,
    HardSync,
    First,
    DropFirst,
    DropEach,
    Clear,
}

const ALL: [u32; 18] = [0, 1, 2, 3, 4, 5, 6, 7, 8, 9, 10, 11, 12, 13, 14, 15, 16, 17];

fn touch(alloc: Global, was: Option<Bytes>, action: Action) -> Result<TouchList, Fail> {
    let mut touches = TouchList::new(alloc);
    touches.push(Touch {
        key: Bytes::from_slice(alloc, b"a")?,
        was,
        action,
    })?;
    Ok(touches)
}

fn one(alloc: Global) -> Result<Bytes, Fail> {
    Ok(Bytes::from_slice(alloc, b"1")?)
}

fn first(alloc: Global, action: Action) -> Result<Entry, Fail> {
    let found = Pair {
        key: Bytes::from_slice(alloc, b"a")?,
        value: one(alloc)?,
    };
    Ok(Entry::Next {
        way: Way::Up,
        bound: Bound::Edge,
        found: Some(found),
        action,
    })
}

fn entry_of(alloc: Global, kind: Kind) -> Result<Entry, Fail> {
    Ok(match kind {
        Kind::Get => Entry::Proc(touch(alloc, Some(one(alloc)?), Action::Keep)?),
        Kind::Put => Entry::Proc(touch(alloc, Some(one(alloc)?), Action::Put(one(alloc)?))?),
        Kind::Count => Entry::Count(1),
        Kind::Sync => Entry::Sync(false),
        Kind::HardSync => Entry::Sync(true),
        Kind::First => first(alloc, Action::Keep)?,
        Kind::DropFirst => first(alloc, Action::Drop)?,
        Kind::DropEach => Entry::Each(touch(alloc, Some(one(alloc)?), Action::Drop)?),
        Kind::Clear => Entry::Clear,
    })
}

/// All locks are taken, both stores are taken out, and the key gets its value.
fn push_start(alloc: Global, moves: &mut MoveList) -> Result<(), Fail> {
    for lock in 0..18 {
        moves.push(Move::Take { caller: 0, lock })?;
    }
    for store in 0..2 {
        moves.push(Move::Out { caller: 0, store })?;
    }
    let entry = Entry::Proc(touch(alloc, None, Action::Put(one(alloc)?))?);
    moves.push(Move::Commit { caller: 0, entry })?;
    Ok(())
}

fn push_back(moves: &mut MoveList, store: u32) -> Result<(), Fail> {
    moves.push(Move::Back {
        caller: 0,
        store,
        broken: false,
    })?;
    Ok(())
}

/// All locks but these are given back; the stores of these are put back where none is to be out.
fn push_gives(moves: &mut MoveList, held: &[u32], is_out: bool) -> Result<(), Fail> {
    for store in 0..2u32 {
        if !is_out || !held.contains(&(16 + store)) {
            push_back(moves, store)?;
        }
    }
    for lock in 0..18u32 {
        if !held.contains(&lock) {
            moves.push(Move::Give { caller: 0, lock })?;
        }
    }
    Ok(())
}

/// Whether a caller with these locks may make the call.
fn may(alloc: Global, kind: Kind, held: &[u32], is_out: bool) -> Result<bool, Fail> {
    let mut moves = MoveList::new(alloc);
    push_start(alloc, &mut moves)?;
    push_gives(&mut moves, held, is_out)?;
    let before = moves.len() as u64;
    let entry = entry_of(alloc, kind)?;
    moves.push(Move::Commit { caller: 0, entry })?;
    let mut core = Core::new(alloc, 2, 16, Order::Hash)?;
    let done = core.run(alloc, &moves)?;
    if done < before {
        return Err(Fail::new("the locks couldn't be given back"));
    }
    Ok(done > before)
}

#[test]
fn a_key_is_read_by_its_stripe_or_its_store(rt: HostRuntime) -> Result<(), Fail> {
    let alloc = rt.alloc();
    let mixed = mix(b"a");
    let store = 16 + shard(mixed, 2);
    assert!(rt; may(alloc, Kind::Get, &[stripe(mixed, 16)], false)?);
    assert!(rt; may(alloc, Kind::Get, &[store], false)?);
    assert!(rt; !may(alloc, Kind::Get, &[33 - store], false)?);
    Ok(())
}

#[test]
fn a_key_is_changed_by_both_with_its_store_out(rt: HostRuntime) -> Result<(), Fail> {
    let alloc = rt.alloc();
    let mixed = mix(b"a");
    let both = [stripe(mixed, 16), 16 + shard(mixed, 2)];
    assert!(rt; may(alloc, Kind::Put, &both, true)?);
    assert!(rt; !may(alloc, Kind::Put, &both, false)?);
    assert!(rt; !may(alloc, Kind::Put, &both[..1], true)?);
    assert!(rt; !may(alloc, Kind::Put, &both[1..], true)?);
    Ok(())
}

#[test]
fn calls_of_all_stores_need_their_locks(rt: HostRuntime) -> Result<(), Fail> {
    let alloc = rt.alloc();
    for kind in [Kind::Count, Kind::Sync, Kind::First] {
        assert!(rt; may(alloc, kind, &ALL[16..], false)?);
        assert!(rt; !may(alloc, kind, &ALL[17..], false)?);
        assert!(rt; !may(alloc, kind, &ALL[..17], false)?);
    }
    Ok(())
}

#[test]
fn a_hard_synchronisation_needs_all_stores_out(rt: HostRuntime) -> Result<(), Fail> {
    let alloc = rt.alloc();
    assert!(rt; may(alloc, Kind::HardSync, &ALL[16..], true)?);
    assert!(rt; !may(alloc, Kind::HardSync, &ALL[16..], false)?);
    assert!(rt; !may(alloc, Kind::HardSync, &ALL[17..], true)?);
    Ok(())
}

#[test]
fn calls_of_all_records_need_all_locks(rt: HostRuntime) -> Result<(), Fail> {
    let alloc = rt.alloc();
    for kind in [Kind::DropFirst, Kind::DropEach, Kind::Clear] {
        assert!(rt; may(alloc, kind, &ALL, true)?);
        assert!(rt; !may(alloc, kind, &ALL, false)?);
        assert!(rt; !may(alloc, kind, &ALL[1..], true)?);
        assert!(rt; !may(alloc, kind, &ALL[..17], true)?);
    }
    Ok(())
}
