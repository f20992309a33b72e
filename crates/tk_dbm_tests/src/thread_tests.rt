//! Many threads on one database.
ghost use Rattle.std.specs.Prelude.{◌≡◌, ◌≤◌, List, true, length};
ghost use Rattle.tk_model.specs.declared.record.Pair.{Pair};
ghost use Rattle.tk_dbm.specs.Dbm.{IsIdleOf};

use crate::fixture::{alone, call, get, is_done, key_of};
use crate::stores::{LIMIT, tiny};
use crate::{Meeting, Tagger};
use std::alloc::Global;
use std::sync::Wait;
use std::sync::atomic::{AtomicU64, Ordering};
use std::test::*;
use std::thread::{self, Threads};
use tk_dbm::{Dbm, Pass};
use tk_model::NoMemory;
use tk_status::Status;
use tk_store::SeqStore;

/// So many calls, each of which puts the tag behind the value.
fn tag<S: SeqStore, R: Wait>(
    rt: &R,
    alloc: Global,
    db: &Dbm<S>,
    mut pass: Pass,
    key: &[u8],
    tag: u8,
    count: u32,
) -> (Pass, bool)
    requires own { IsIdleOf S.lawful S.stands S.store_view S.constants db.now pass }
    requires key { length key.now ≤ 65535 }
    requires law { (m : List Pair) → S.lawful m ≡ true }
    ensures own { IsIdleOf S.lawful S.stands S.store_view S.constants db.entry.now result.0 }
{
    let mut done = true;
    for _ in 0..count {
        let mut tagger = Tagger { alloc, tag };
        let answer = call(rt, db, &mut pass, key, &mut tagger, true);
        done = done && answer.status == Status::Success && answer.number.is_some();
    }
    (pass, done)
}

#[test]
fn two_threads_make_each_call_once(rt: HostRuntime) -> Result<(), Fail> {
    let alloc = rt.alloc();
    let (db, mut pass) = alone(alloc, tiny(alloc, LIMIT)?, 0, true)?;
    let mine = db.split(&mut pass);
    let theirs = db.split(&mut pass);
    let shared = &db;
    let ((mine, a), (theirs, b)) = thread::join(
        &rt,
        || tag(&rt, alloc, shared, mine, b"k", 1, 1000),
        || tag(&rt, alloc, shared, theirs, b"k", 2, 1000),
    );
    assert!(rt; a && b);
    db.join(&mut pass, mine);
    db.join(&mut pass, theirs);
    assert_eq!(rt; db.look(&mut pass), 2000);
    let (answer, value) = get(&rt, alloc, &db, &mut pass, b"k");
    assert!(rt; is_done(&answer, 2000));
    let Some(value) = value else {
        assert!(rt; false);
        return Ok(());
    };
    let ones = value.as_slice().iter().filter(|tag| **tag == 1).count();
    assert_eq!(rt; (value.len(), ones), (2000, 1000));
    let closed = db.close(pass);
    assert!(rt; closed.status == Status::Success && closed.calls == 2001);
    Ok(())
}

/// Two threads make so many calls each, at keys of the stripes of their tags.
fn both<S: SeqStore + Send + Sync, R: Threads + Wait + Sync>(
    rt: &R,
    alloc: Global,
    db: &Dbm<S>,
    one: (Pass, u8),
    other: (Pass, u8),
    count: u32,
) -> (Pass, Pass, bool)
    requires one { IsIdleOf S.lawful S.stands S.store_view S.constants db.now one.0 }
    requires other { IsIdleOf S.lawful S.stands S.store_view S.constants db.now other.0 }
    requires law { (m : List Pair) → S.lawful m ≡ true }
    ensures one { IsIdleOf S.lawful S.stands S.store_view S.constants db.entry.now result.0 }
    ensures other { IsIdleOf S.lawful S.stands S.store_view S.constants db.entry.now result.1 }
{
    let (one, a) = one;
    let (other, b) = other;
    let (here, there) = (key_of(a as u32), key_of(b as u32));
    let ((one, x), (other, y)) = thread::join(
        rt,
        || tag(rt, alloc, db, one, &here, a, count),
        || tag(rt, alloc, db, other, &there, b, count),
    );
    (one, other, x && y)
}

#[test]
fn four_threads_share_a_store(rt: HostRuntime) -> Result<(), Fail> {
    let alloc = rt.alloc();
    let (db, mut pass) = alone(alloc, tiny(alloc, LIMIT)?, 0, true)?;
    let first = db.split(&mut pass);
    let second = db.split(&mut pass);
    let third = db.split(&mut pass);
    let fourth = db.split(&mut pass);
    let shared = &db;
    let ((first, second, a), (third, fourth, b)) = thread::join(
        &rt,
        || both(&rt, alloc, shared, (first, 1), (second, 2), 250),
        || both(&rt, alloc, shared, (third, 3), (fourth, 4), 250),
    );
    assert!(rt; a && b);
    db.join(&mut pass, first);
    db.join(&mut pass, second);
    db.join(&mut pass, third);
    db.join(&mut pass, fourth);
    assert_eq!(rt; db.look(&mut pass), 1000);
    for lock in 1..5 {
        let (_, value) = get(&rt, alloc, &db, &mut pass, &key_of(lock));
        assert!(rt; value.is_some_and(|value| value.len() == 250));
    }
    assert_eq!(rt; db.close(pass).calls, 1004);
    Ok(())
}

/// One call of this processor, and whether it was made.
fn meet<S: SeqStore, R: Wait>(
    rt: &R,
    db: &Dbm<S>,
    mut pass: Pass,
    key: &[u8],
    mut meeting: Meeting,
) -> (Pass, bool)
    requires own { IsIdleOf S.lawful S.stands S.store_view S.constants db.now pass }
    requires key { length key.now ≤ 65535 }
    requires law { (m : List Pair) → S.lawful m ≡ true }
    ensures own { IsIdleOf S.lawful S.stands S.store_view S.constants db.entry.now result.0 }
{
    let answer = call(rt, db, &mut pass, key, &mut meeting, false);
    (pass, answer.status == Status::Success)
}

/// How many of two processors on these keys saw the other come, and how many calls were made.
fn met<R: Threads + Wait + Sync>(
    rt: &R,
    alloc: Global,
    one: &[u8],
    other: &[u8],
    turns: u32,
) -> Result<(u64, u64), NoMemory>
    requires one { length one.now ≤ 65535 }
    requires other { length other.now ≤ 65535 }
{
    let (db, mut pass) = alone(alloc, tiny(alloc, LIMIT)?, 0, true)?;
    let mine = db.split(&mut pass);
    let shared = &db;
    let (word, met) = (AtomicU64::new(0), AtomicU64::new(0));
    let (word, met) = (&word, &met);
    let ((mine, a), (mut pass, b)) = thread::join(
        rt,
        || meet(rt, shared, mine, one, Meeting { word, met, turns }),
        || meet(rt, shared, pass, other, Meeting { word, met, turns }),
    );
    db.join(&mut pass, mine);
    let closed = db.close(pass);
    if !(a && b) {
        return Ok((0, 0));
    }
    Ok((met.load(Ordering::SeqCst), closed.calls))
}

#[test]
fn processors_of_two_stripes_run_at_once(rt: HostRuntime) -> Result<(), Fail> {
    let alloc = rt.alloc();
    assert_eq!(rt;
        met(&rt, alloc, &key_of(0), &key_of(1), 100_000_000)?,
        (2, 2)
    );
    // on one stripe the second finds that the first has been there
    assert_eq!(rt; met(&rt, alloc, &key_of(0), &key_of(0), 1_000_000)?, (1, 2));
    Ok(())
}
