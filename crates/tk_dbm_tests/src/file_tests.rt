//! Databases of hash files: how files end, and what a failed disk makes of them.
use crate::fixture::{alone, get, has, is_done, is_refused, set};
use crate::stores::{LIMIT, MAKING, again, file};
use std::test::*;
use tk_model::Bytes;
use tk_status::Status;
use tk_store::SeqStore;

#[test]
fn a_store_whose_first_write_fails_is_broken(rt: HostRuntime) -> Result<(), Fail> {
    let alloc = rt.alloc();
    let (db, mut pass) = alone(alloc, file(alloc, 200, &[MAKING])?, 0, true)?;
    let answer = set(&rt, alloc, &db, &mut pass, b"a", b"1")?;
    assert_eq!(rt; answer.status, Status::System { faults: 1 });
    assert_eq!(rt; answer.number, Some(0));
    // broken comes before too long and full
    let long = Bytes::from_vec(vec![in alloc; 7u8; 16_777_216]?);
    let broken = Status::Broken { faults: 1 };
    let answer = set(&rt, alloc, &db, &mut pass, b"a", long.as_slice())?;
    assert!(rt; is_refused(&answer, broken));
    let closed = db.close(pass);
    assert_eq!(rt; closed.status, broken);
    assert_eq!(rt; (closed.calls, closed.stores.len()), (1, 1));
    Ok(())
}

#[test]
fn a_store_whose_first_read_fails_is_broken(rt: HostRuntime) -> Result<(), Fail> {
    let alloc = rt.alloc();
    let (db, mut pass) = alone(alloc, file(alloc, LIMIT, &[MAKING + 2])?, 0, true)?;
    assert!(rt; is_done(&set(&rt, alloc, &db, &mut pass, b"a", b"1")?, 0));
    let (answer, value) = get(&rt, alloc, &db, &mut pass, b"b");
    assert!(rt; is_refused(&answer, Status::System { faults: 1 }) && value.is_none());
    let (answer, value) = get(&rt, alloc, &db, &mut pass, b"a");
    assert!(rt; is_refused(&answer, Status::Broken { faults: 1 }) && value.is_none());
    let closed = db.close(pass);
    assert_eq!(rt; closed.status, Status::Broken { faults: 1 });
    assert_eq!(rt; (closed.calls, closed.stores.len()), (1, 1));
    Ok(())
}

#[test]
fn a_file_is_ended_with_its_next_number(rt: HostRuntime) -> Result<(), Fail> {
    let alloc = rt.alloc();
    let (db, mut pass) = alone(alloc, file(alloc, LIMIT, &[])?, 7, true)?;
    assert!(rt; is_done(&set(&rt, alloc, &db, &mut pass, b"a", b"1")?, 0));
    let (answer, _) = get(&rt, alloc, &db, &mut pass, b"a");
    assert!(rt; is_done(&answer, 1));
    let closed = db.close(pass);
    assert!(rt; closed.status == Status::Success && closed.calls == 2);
    let Some(store) = closed.stores.into_vec().pop() else {
        assert!(rt; false);
        return Ok(());
    };
    let store = again(alloc, store, true)?;
    let next = store.next_number();
    assert_eq!(rt; next, 9);
    let (db, mut pass) = alone(alloc, store, next, true)?;
    let (answer, value) = get(&rt, alloc, &db, &mut pass, b"a");
    assert!(rt; is_done(&answer, 0) && has(&value, b"1"));
    Ok(())
}

#[test]
fn a_record_is_read_where_nothing_may_be_written(rt: HostRuntime) -> Result<(), Fail> {
    let alloc = rt.alloc();
    let (db, mut pass) = alone(alloc, file(alloc, LIMIT, &[])?, 0, true)?;
    assert!(rt; is_done(&set(&rt, alloc, &db, &mut pass, b"a", b"1")?, 0));
    let closed = db.close(pass);
    let Some(store) = closed.stores.into_vec().pop() else {
        assert!(rt; false);
        return Ok(());
    };
    let (db, mut pass) = alone(alloc, again(alloc, store, false)?, 0, false)?;
    let answer = set(&rt, alloc, &db, &mut pass, b"a", b"2")?;
    assert!(rt; is_refused(&answer, Status::Precondition));
    let (answer, value) = get(&rt, alloc, &db, &mut pass, b"a");
    assert!(rt; is_done(&answer, 0) && has(&value, b"1"));
    assert!(rt; db.close(pass).status == Status::Success);
    Ok(())
}

#[test]
fn a_close_that_fails_says_so(rt: HostRuntime) -> Result<(), Fail> {
    let alloc = rt.alloc();
    let (db, pass) = alone(alloc, file(alloc, LIMIT, &[MAKING])?, 0, true)?;
    let closed = db.close(pass);
    assert!(rt; closed.status == Status::System { faults: 1 });
    assert_eq!(rt; closed.stores.len(), 1);
    Ok(())
}
