//! The gate that a call passes.
use crate::row::{Call, Row, rows_met};
use std::sync::atomic::{AtomicU64, Ordering};
use std::test::*;
use tk_dbm_tests::fixture::{LIMIT, alone, tiny};
use tk_proc::{At, Gate};
use tk_status::Status;

/// Adds up who passes: a worker as a thousand, a line as one.
#[derive(Drop)]
struct Summed<'a> {
    sum: &'a AtomicU64,
}

impl Gate for Summed<'_> {
    fn pass(&self, worker: u32, line: u64) {
        let passed = (worker as u64).wrapping_mul(1000).wrapping_add(line);
        self.sum.fetch_add(passed, Ordering::SeqCst);
    }
}

#[test]
fn a_call_passes_its_gate_once(rt: HostRuntime) -> Result<(), Fail> {
    let alloc = rt.alloc();
    let sum = AtomicU64::new(0);
    let at = At {
        gate: &Summed { sum: &sum },
        worker: 3,
        line: 7,
    };
    let rows = [
        Row {
            call: Call::Set(b"1", true),
            status: Status::Success,
        },
        Row {
            call: Call::Remove,
            status: Status::Success,
        },
    ];
    let (db, mut pass) = alone(alloc, tiny(alloc, LIMIT)?, 0, true)?;
    assert_eq!(rt; rows_met(&rt, alloc, &db, &mut pass, &rows, true, &at)?, 2);
    assert_eq!(rt; sum.load(Ordering::SeqCst), 6014);
    assert!(rt; db.close(pass).status == Status::Success);
    Ok(())
}
