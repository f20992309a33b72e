use crate::{Core, Move, MoveList};
use std::alloc::Global;
use std::test::Fail;
use tk_hashnum::{mix, stripe};
use tk_model::{Action, Bytes, Entry, Order, PlainMap, Touch, TouchList, value_at};

/// A move of a core of one store and 16 stripes: its store has lock 16, and the key "a" stripe 11.
#[derive(Clone, Copy)]
enum Step {
    Take(u32, u32),
    Miss(u32, u32),
    Give(u32, u32),
    Look(u32),
    Out(u32),
    Back(u32),
    Split(u32),
    Join(u32, u32),
    /// A call that puts "1" at the key "a", where no record is.
    PutA(u32),
}

fn put_a(alloc: Global) -> Result<Entry, Fail> {
    let mut touches = TouchList::new(alloc);
    touches.push(Touch {
        key: Bytes::from_slice(alloc, b"a")?,
        was: None,
        action: Action::Put(Bytes::from_slice(alloc, b"1")?),
    })?;
    Ok(Entry::Proc(touches))
}

fn move_of(alloc: Global, step: Step) -> Result<Move, Fail> {
    Ok(match step {
        Step::Take(caller, lock) => Move::Take { caller, lock },
        Step::Miss(caller, lock) => Move::Miss { caller, lock },
        Step::Give(caller, lock) => Move::Give { caller, lock },
        Step::Look(caller) => Move::Look { caller },
        Step::Out(caller) => Move::Out { caller, store: 0 },
        Step::Back(caller) => Move::Back {
            caller,
            store: 0,
            broken: false,
        },
        Step::Split(caller) => Move::Split { caller },
        Step::Join(caller, other) => Move::Join { caller, other },
        Step::PutA(caller) => Move::Commit {
            caller,
            entry: put_a(alloc)?,
        },
    })
}

fn moves_of(alloc: Global, steps: &[Step]) -> Result<MoveList, Fail> {
    let mut moves = MoveList::new(alloc);
    for step in steps {
        moves.push(move_of(alloc, *step)?)?;
    }
    Ok(moves)
}

/// The value that the records have under a key of one byte.
fn value_of(records: &PlainMap, key: u8) -> Result<Option<Bytes>, Fail> {
    match value_at(records.pairs().as_slice(), &[key]) {
        Some(value) => Ok(Some(value.clone()?)),
        None => Ok(None),
    }
}

/// A call on a key of one byte, that tells the value there and puts another or drops the record.
fn call_on(alloc: Global, records: &PlainMap, key: u8, value: u8) -> Result<Entry, Fail> {
    let was = value_of(records, key)?;
    let action = if value % 5 == 0 {
        Action::Drop
    } else {
        Action::Put(Bytes::from_slice(alloc, &[value])?)
    };
    let mut touches = TouchList::new(alloc);
    touches.push(Touch {
        key: Bytes::from_slice(alloc, &[key])?,
        was,
        action,
    })?;
    Ok(Entry::Proc(touches))
}

/// A caller takes the locks of one key, makes a call and gives them back; another waits meanwhile.
fn push_turn(
    moves: &mut MoveList,
    caller: u32,
    other: u32,
    key: u8,
    entry: Entry,
) -> Result<(), Fail> {
    let lock = stripe(mix(&[key]), 16);
    moves.push(Move::Take { caller, lock })?;
    moves.push(Move::Take { caller, lock: 16 })?;
    moves.push(Move::Out { caller, store: 0 })?;
    moves.push(Move::Miss {
        caller: other,
        lock: 16,
    })?;
    moves.push(Move::Commit { caller, entry })?;
    moves.push(Move::Back {
        caller,
        store: 0,
        broken: false,
    })?;
    moves.push(Move::Give { caller, lock: 16 })?;
    moves.push(Move::Give { caller, lock })?;
    Ok(())
}

/// So many turns of two callers, after a split. A plain map replays their calls one by one, and each
/// call tells the value that it holds; at a call that the plain map refuses the list ends.
fn turns(alloc: Global, count: u32) -> Result<MoveList, Fail> {
    let mut records = PlainMap::new(alloc, Order::Hash);
    let mut moves = moves_of(alloc, &[Step::Split(0)])?;
    for turn in 0..count {
        let key = b'a' + (turn % 13) as u8;
        let entry = call_on(alloc, &records, key, (turn % 251) as u8)?;
        if !records.run(&entry)? {
            return Ok(moves);
        }
        push_turn(&mut moves, turn % 2, (turn % 2) ^ 1, key, entry)?;
    }
    Ok(moves)
}

/// So many callers are split off, each from one that has a part of the allowance.
fn push_splits(moves: &mut MoveList, count: u32) -> Result<(), Fail> {
    for split in 0..count {
        moves.push(Move::Split { caller: split / 2 })?;
    }
    Ok(())
}

/// Each of the callers after the first takes a lock, gives it back and is joined to the first.
fn push_joins(moves: &mut MoveList, count: u32) -> Result<(), Fail> {
    for caller in 1..=count {
        moves.push(Move::Take { caller, lock: 1 })?;
        moves.push(Move::Give { caller, lock: 1 })?;
        moves.push(Move::Join {
            caller: 0,
            other: caller,
        })?;
    }
    Ok(())
}

/// How many of these moves a new core does.
fn done(alloc: Global, steps: &[Step]) -> Result<u64, Fail> {
    let moves = moves_of(alloc, steps)?;
    let mut core = Core::new(alloc, 1, 16, Order::Hash)?;
    Ok(core.run(alloc, &moves)?)
}

#[test]
fn a_waiting_caller_comes_next(rt: HostRuntime) -> Result<(), Fail> {
    let steps = [
        Step::Split(0),
        Step::Take(0, 1),
        Step::Miss(1, 1),
        Step::Give(0, 1),
        Step::Take(1, 1),
    ];
    assert_eq!(rt; done(rt.alloc(), &steps)?, 5);
    Ok(())
}

#[test]
fn no_lock_has_two_holders(rt: HostRuntime) -> Result<(), Fail> {
    let steps = [Step::Split(0), Step::Take(0, 1), Step::Take(1, 1)];
    assert_eq!(rt; done(rt.alloc(), &steps)?, 2);
    Ok(())
}

#[test]
fn a_covered_call_is_committed(rt: HostRuntime) -> Result<(), Fail> {
    // The second call isn't legal any more, as the key has a record.
    let steps = [
        Step::Take(0, 11),
        Step::Take(0, 16),
        Step::Out(0),
        Step::PutA(0),
        Step::PutA(0),
    ];
    assert_eq!(rt; done(rt.alloc(), &steps)?, 4);
    Ok(())
}

#[test]
fn no_call_is_committed_once_its_stripe_is_given_back(rt: HostRuntime) -> Result<(), Fail> {
    let steps = [
        Step::Take(0, 11),
        Step::Take(0, 16),
        Step::Out(0),
        Step::Give(0, 11),
        Step::PutA(0),
    ];
    assert_eq!(rt; done(rt.alloc(), &steps)?, 4);
    Ok(())
}

#[test]
fn a_caller_of_no_weight_takes_no_lock(rt: HostRuntime) -> Result<(), Fail> {
    // Caller 62 gets the half of 2, and caller 63 that of 1, rounded down.
    let mut steps = [Step::Split(0); 67];
    steps[63] = Step::Split(63);
    steps[64] = Step::Take(0, 1);
    steps[65] = Step::Take(62, 2);
    steps[66] = Step::Take(63, 3);
    assert_eq!(rt; done(rt.alloc(), &steps)?, 66);
    Ok(())
}

#[test]
fn more_callers_than_stores_may_be(rt: HostRuntime) -> Result<(), Fail> {
    let mut steps = [Step::Split(0); 72];
    steps[70] = Step::Look(70);
    steps[71] = Step::Look(71);
    assert_eq!(rt; done(rt.alloc(), &steps)?, 71);
    Ok(())
}

#[test]
fn nobody_joins_itself(rt: HostRuntime) -> Result<(), Fail> {
    assert_eq!(rt; done(rt.alloc(), &[Step::Join(0, 0)])?, 0);
    Ok(())
}

#[test]
fn no_store_at_home_is_put_back(rt: HostRuntime) -> Result<(), Fail> {
    assert_eq!(rt; done(rt.alloc(), &[Step::Take(0, 16), Step::Back(0)])?, 1);
    Ok(())
}

#[test]
fn a_thousand_calls_agree_with_a_plain_map(rt: HostRuntime) -> Result<(), Fail> {
    let mut moves = turns(rt.alloc(), 1_000)?;
    moves.push(move_of(rt.alloc(), Step::PutA(0))?)?;
    let mut core = Core::new(rt.alloc(), 1, 16, Order::Hash)?;
    // The last call has no lock.
    assert_eq!(rt; core.run(rt.alloc(), &moves)?, 8_001);
    Ok(())
}

#[test]
fn a_hundred_callers_take_a_lock_and_are_joined(rt: HostRuntime) -> Result<(), Fail> {
    let mut moves = MoveList::new(rt.alloc());
    push_splits(&mut moves, 100)?;
    push_joins(&mut moves, 100)?;
    let mut core = Core::new(rt.alloc(), 1, 16, Order::Hash)?;
    assert_eq!(rt; core.run(rt.alloc(), &moves)?, 400);
    Ok(())
}
