//! Each refusal, and which comes first.
ghost use Rattle.tk_dbm.specs.Dbm.{IsIdleOf};

use crate::fixture::{alone, call, get, has, is_done, is_refused, set};
use crate::stores::{LIMIT, tiny};
use std::test::*;
use tk_dbm::{Dbm, Pass};
use tk_model::Bytes;
use tk_proc::{Adder, Remover};
use tk_status::Status;
use tk_store::SeqStore;

#[test]
fn a_call_is_seen_by_the_next(rt: HostRuntime) -> Result<(), Fail> {
    let alloc = rt.alloc();
    let (db, mut pass) = alone(alloc, tiny(alloc, LIMIT)?, 0, true)?;
    assert!(rt; is_done(&set(&rt, alloc, &db, &mut pass, b"a", b"1")?, 0));
    let (answer, value) = get(&rt, alloc, &db, &mut pass, b"a");
    assert!(rt; is_done(&answer, 1) && has(&value, b"1"));
    let (answer, value) = get(&rt, alloc, &db, &mut pass, b"b");
    assert!(rt; is_done(&answer, 2) && value.is_none());
    let mut adder = Adder::new(Bytes::from_slice(alloc, b"2")?);
    assert!(rt; is_done(&call(&rt, &db, &mut pass, b"a", &mut adder, true), 3));
    assert!(rt; adder.status() == Status::Duplication);
    let mut remover = Remover::new();
    assert!(rt; is_done(&call(&rt, &db, &mut pass, b"a", &mut remover, true), 4));
    assert!(rt; remover.status() == Status::Success);
    let (answer, value) = get(&rt, alloc, &db, &mut pass, b"a");
    assert!(rt; is_done(&answer, 5) && value.is_none());
    let closed = db.close(pass);
    assert!(rt; closed.status == Status::Success && closed.calls == 6);
    Ok(())
}

/// Splits the pass once, and its part so often. All parts but the last join the pass.
fn last_part<S: SeqStore>(db: &Dbm<S>, pass: &mut Pass, splits: u32) -> Pass
    requires { IsIdleOf S.lawful S.stands S.store_view S.constants db.now pass.old }
    ensures own { IsIdleOf S.lawful S.stands S.store_view S.constants db.now pass.new }
    ensures last { IsIdleOf S.lawful S.stands S.store_view S.constants db.now result }
{
    let mut last = db.split(pass);
    for _ in 0..splits {
        let next = db.split(&mut last);
        db.join(pass, last);
        last = next;
    }
    last
}

#[test]
fn only_reading_comes_before_no_allowance(rt: HostRuntime) -> Result<(), Fail> {
    let alloc = rt.alloc();
    let (db, mut pass) = alone(alloc, tiny(alloc, LIMIT)?, 0, false)?;
    let mut last = last_part(&db, &mut pass, 62);
    assert_eq!(rt; last.allowance(), 0);
    assert!(rt;
        is_refused(
            &set(&rt, alloc, &db, &mut last, b"a", b"2")?,
            Status::Precondition
        )
    );
    let (answer, value) = get(&rt, alloc, &db, &mut last, b"a");
    assert!(rt; is_refused(&answer, Status::Limit) && value.is_none());
    // a split at 0 and one at 1
    let more = db.split(&mut last);
    assert_eq!(rt; (last.allowance(), more.allowance()), (0, 0));
    db.join(&mut last, more);
    db.join(&mut pass, last);
    let (answer, value) = get(&rt, alloc, &db, &mut pass, b"a");
    assert!(rt; is_done(&answer, 0) && value.is_none());
    assert_eq!(rt; pass.allowance(), (1 << 62) - 1);
    assert!(rt; db.close(pass).status == Status::Success);
    Ok(())
}

#[test]
fn too_long_comes_before_full(rt: HostRuntime) -> Result<(), Fail> {
    let alloc = rt.alloc();
    let (db, mut pass) = alone(alloc, tiny(alloc, 20)?, 0, true)?;
    assert!(rt; is_done(&set(&rt, alloc, &db, &mut pass, b"a", b"1")?, 0));
    let long = Bytes::from_vec(vec![in alloc; 7u8; 16_777_216]?);
    let answer = set(&rt, alloc, &db, &mut pass, b"a", long.as_slice())?;
    let too_long = Status::TooLong { length: 16_777_216 };
    assert!(rt; answer.status == too_long && answer.number == Some(1));
    let answer = set(&rt, alloc, &db, &mut pass, b"b", b"2")?;
    let full = Status::Full {
        size: 16,
        need: 8,
        limit: 20,
    };
    assert_eq!(rt; answer.status, full);
    assert!(rt; answer.number.is_none());
    let (answer, value) = get(&rt, alloc, &db, &mut pass, b"b");
    assert!(rt; is_done(&answer, 2) && value.is_none());
    let (answer, value) = get(&rt, alloc, &db, &mut pass, b"a");
    assert!(rt; is_done(&answer, 3) && has(&value, b"1"));
    assert!(rt; db.close(pass).status == Status::Success);
    Ok(())
}
