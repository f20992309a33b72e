use super::*;
use std::process::Abort;

/// Each key stands before the next.
fn rises(rt: &impl Abort, order: Order, keys: &[&[u8]]) {
    for i in 1..keys.len() {
        assert_eq!(rt;
            compare(&order, keys[i - 1], keys[i]),
            Ordering::Less,
            "place {i}"
        );
        assert_eq!(rt;
            compare(&order, keys[i], keys[i - 1]),
            Ordering::Greater,
            "place {i}"
        );
        assert_eq!(rt;
            compare(&order, keys[i], keys[i]),
            Ordering::Equal,
            "place {i}"
        );
    }
}

#[test]
fn keys_by_bytes_and_hash(rt: HostRuntime) {
    rises(&rt, Order::Bytes, &[b"", b"\0", b"A", b"AB", b"a", b"\xff"]);
    // The mixed hashes of a and of no bytes begin with 82 and ef.
    rises(&rt, Order::Hash, &[b"a", b""]);
}

#[test]
fn keys_that_differ_in_case(rt: HostRuntime) {
    rises(
        &rt,
        Order::Case,
        &[
            b"", b"[", b"A", b"a", b"AA", b"Aa", b"aA", b"aa", b"B", b"b", b"{",
        ],
    );
}

#[test]
fn keys_by_their_numbers(rt: HostRuntime) {
    rises(
        &rt,
        Order::Decimal,
        &[
            b"-170141183460469231731687303715884105728",
            b"-9999999999999999999999999999999999999999",
            b"-10",
            b"-2",
            b"",
            b"+",
            b"-0",
            b"0",
            b"x9",
            b"+1",
            b"001",
            b"1",
            b"1x",
            b"9",
            b"10",
            b"170141183460469231731687303715884105726",
            b"170141183460469231731687303715884105727",
            b"170141183460469231731687303715884105728",
            b"9999999999999999999999999999999999999999",
        ],
    );
}

#[test]
fn keys_by_their_hexadecimal_numbers(rt: HostRuntime) {
    rises(
        &rt,
        Order::Hex,
        &[
            b"",
            b"0",
            b"g",
            b"9",
            b"00a",
            b"A",
            b"a",
            b"ag",
            b"F",
            b"f",
            b"10",
            b"7fffffffffffffffffffffffffffffff",
            b"80000000000000000000000000000000",
        ],
    );
}
