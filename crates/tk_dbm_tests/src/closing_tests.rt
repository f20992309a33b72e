//! How databases end.
use crate::fixture::{alone, is_done, set};
use crate::stores::{LIMIT, tiny};
use std::test::*;
use tk_status::Status;

#[test]
fn a_part_ends_the_stores_too(rt: HostRuntime) -> Result<(), Fail> {
    let alloc = rt.alloc();
    let (db, mut pass) = alone(alloc, tiny(alloc, LIMIT)?, 0, true)?;
    let part = db.split(&mut pass);
    assert!(rt; is_done(&set(&rt, alloc, &db, &mut pass, b"a", b"1")?, 0));
    let closed = db.close(part);
    assert!(rt; closed.status == Status::Success && closed.calls == 1);
    assert_eq!(rt; closed.stores.len(), 1);
    Ok(())
}
