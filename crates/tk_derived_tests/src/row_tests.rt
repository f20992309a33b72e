//! The rows of the reply table, and refusals.

use crate::row::Call::{Append, Exchange, Get, Increment, Remove, Set};
use crate::row::{Call, Row, rows_met};
use std::alloc::Global;
use std::sync::Wait;
use std::test::*;
use tk_dbm_tests::fixture::{LIMIT, alone, tiny};
use tk_model::{Bytes, NoMemory};
use tk_proc::{At, Desired, Expected, OpenGate};
use tk_status::Status;
use tk_status::Status::{Duplication, Infeasible, InvalidArgument, NotFound, Success};

fn row<'a>(call: Call<'a>, status: Status) -> Row<'a> {
    Row { call, status }
}

/// How many rows in front are met on an empty store, from the first call on.
fn met<R: Wait>(
    rt: &R,
    alloc: Global,
    limit: u64,
    writable: bool,
    rows: &[Row],
) -> Result<usize, NoMemory> {
    let (db, mut pass) = alone(alloc, tiny(alloc, limit)?, 0, writable)?;
    let open = At {
        gate: &OpenGate,
        worker: 0,
        line: 0,
    };
    let count = rows_met(rt, alloc, &db, &mut pass, rows, writable, &open);
    let closed = db.close(pass);
    let _ = closed;
    count
}

#[test]
fn a_value_is_overwritten_where_it_may_be(rt: HostRuntime) -> Result<(), Fail> {
    let rows = [
        row(Get(None), NotFound),
        row(Set(b"1", false), Success),
        row(Set(b"2", false), Duplication),
        row(Get(Some(b"1")), Success),
        row(Set(b"3", true), Success),
        row(Get(Some(b"3")), Success),
        row(Remove, Success),
        row(Remove, NotFound),
        row(Get(None), NotFound),
    ];
    assert_eq!(rt; met(&rt, rt.alloc(), LIMIT, true, &rows)?, 9);
    Ok(())
}

#[test]
fn a_delimiter_stands_between_values(rt: HostRuntime) -> Result<(), Fail> {
    let rows = [
        row(Append(b"1", b", "), Success),
        row(Append(b"2", b", "), Success),
        row(Append(b"3", b""), Success),
        row(Get(Some(b"1, 23")), Success),
    ];
    assert_eq!(rt; met(&rt, rt.alloc(), LIMIT, true, &rows)?, 4);
    Ok(())
}

#[test]
fn a_value_has_a_greatest_length(rt: HostRuntime) -> Result<(), Fail> {
    let alloc = rt.alloc();
    let long = Bytes::from_vec(vec![in alloc; 7u8; 16_777_215]?);
    let rows = [
        row(Append(long.as_slice(), b","), Success),
        row(Append(b"", b","), Status::TooLong { length: 16_777_216 }),
        row(Set(b"1", false), Duplication),
    ];
    assert_eq!(rt; met(&rt, alloc, LIMIT, true, &rows)?, 3);
    Ok(())
}

#[test]
fn a_number_has_eight_bytes(rt: HostRuntime) -> Result<(), Fail> {
    let rows = [
        row(Increment(i64::MIN, 40, Some(40)), Success),
        row(Get(None), NotFound),
        row(Increment(2, 40, Some(42)), Success),
        row(Increment(i64::MIN, 40, Some(42)), Success),
        row(Get(Some(&[0, 0, 0, 0, 0, 0, 0, 42])), Success),
        row(Increment(-44, 40, Some(-2)), Success),
        row(
            Get(Some(&[255, 255, 255, 255, 255, 255, 255, 254])),
            Success,
        ),
        row(Set(b"", true), Success),
        row(Increment(1, 0, None), InvalidArgument),
        row(Set(&[0; 7], true), Success),
        row(Increment(i64::MIN, 0, None), InvalidArgument),
        row(Set(&[0; 9], true), Success),
        row(Increment(1, 0, None), InvalidArgument),
        row(Get(Some(&[0; 9])), Success),
    ];
    assert_eq!(rt; met(&rt, rt.alloc(), LIMIT, true, &rows)?, 14);
    Ok(())
}

#[test]
fn a_sum_stays_in_64_bits(rt: HostRuntime) -> Result<(), Fail> {
    let rows = [
        row(Increment(1, i64::MAX, None), Infeasible),
        row(Get(None), NotFound),
        row(Increment(1, i64::MAX - 1, Some(i64::MAX)), Success),
        row(Increment(1, 0, None), Infeasible),
        row(Increment(i64::MIN, 0, Some(i64::MAX)), Success),
        row(Remove, Success),
        row(Increment(-1, i64::MIN + 1, Some(i64::MIN)), Success),
        row(Increment(-1, 0, None), Infeasible),
        row(Increment(i64::MAX, 0, Some(-1)), Success),
    ];
    assert_eq!(rt; met(&rt, rt.alloc(), LIMIT, true, &rows)?, 9);
    Ok(())
}

#[test]
fn each_form_is_exchanged(rt: HostRuntime) -> Result<(), Fail> {
    let alloc = rt.alloc();
    let one = Expected::Value(Bytes::from_slice(alloc, b"1")?);
    let two = Expected::Value(Bytes::from_slice(alloc, b"2")?);
    let to_one = Desired::Value(Bytes::from_slice(alloc, b"1")?);
    let to_two = Desired::Value(Bytes::from_slice(alloc, b"2")?);
    let (was_one, was_two): (Option<Option<&[u8]>>, Option<Option<&[u8]>>) = (
        Some(Some(b"1")),
        Some(Some(b"2")),
    );
    let rows = [
        row(Exchange(&Expected::Any, &to_one, Some(None)), Infeasible),
        row(Exchange(&one, &to_one, Some(None)), Infeasible),
        row(
            Exchange(&Expected::Absent, &Desired::Remove, Some(None)),
            Success,
        ),
        row(
            Exchange(&Expected::Absent, &Desired::Leave, Some(None)),
            Success,
        ),
        row(Exchange(&Expected::Absent, &to_one, Some(None)), Success),
        row(Exchange(&Expected::Absent, &to_two, was_one), Infeasible),
        row(Exchange(&two, &Desired::Remove, was_one), Infeasible),
        row(Exchange(&Expected::Any, &Desired::Leave, was_one), Success),
        row(Exchange(&one, &to_two, was_one), Success),
        row(Get(Some(b"2")), Success),
        row(Exchange(&Expected::Any, &to_one, was_two), Success),
        row(Exchange(&one, &Desired::Remove, was_one), Success),
        row(Get(None), NotFound),
    ];
    assert_eq!(rt; met(&rt, alloc, LIMIT, true, &rows)?, 13);
    Ok(())
}

#[test]
fn a_refusal_tells_nothing(rt: HostRuntime) -> Result<(), Fail> {
    let rows = [
        row(Set(b"1", true), Status::Precondition),
        row(Remove, Status::Precondition),
        row(Append(b"1", b""), Status::Precondition),
        row(
            Exchange(&Expected::Any, &Desired::Leave, None),
            Status::Precondition,
        ),
        row(Increment(i64::MIN, 0, None), Status::Precondition),
    ];
    assert_eq!(rt; met(&rt, rt.alloc(), LIMIT, false, &rows)?, 5);
    Ok(())
}
