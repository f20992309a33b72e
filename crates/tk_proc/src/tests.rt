use super::*;
use std::alloc::Global;
use std::sync::atomic::{AtomicU64, Ordering};
use std::test::Fail;
use tk_model::{Action, Bytes, NoMemory};
use tk_status::number;

/// What a processor answers to an old value: an empty text for keep, `-` for drop, else the value to store.
fn answer<P: RecordProcessor>(
    p: &mut P,
    old: Option<&[u8]>,
    wanted: &str,
) -> Result<bool, NoMemory> {
    let action = ask(p, b"k", old)?;
    Ok(match action {
        Action::Keep => wanted.is_empty(),
        Action::Put(value) => value.as_slice() == wanted.as_bytes(),
        Action::Drop => wanted == "-",
    })
}

#[test]
fn a_getter(rt: HostRuntime) -> Result<(), Fail> {
    let mut getter = Getter::new(rt.alloc());
    assert!(rt; answer(&mut getter, Some(b"old"), "")?);
    assert_eq!(rt; number(&getter.status()), 0);
    assert_eq!(rt; getter.value(), Some(b"old".as_slice()));
    assert!(rt; answer(&mut getter, None, "")?);
    assert_eq!(rt; number(&getter.status()), 7);
    assert!(rt; getter.value().is_none());
    assert!(rt; answer(&mut getter, Some(b"new"), "")?);
    assert!(rt;
        getter
            .into_value()
            .map(|value| value.as_slice() == b"new".as_slice())
            == Some(true)
    );
    Ok(())
}

#[test]
fn a_setter(rt: HostRuntime) -> Result<(), Fail> {
    let mut setter = Setter::new(Bytes::from_slice(rt.alloc(), b"new")?);
    assert!(rt; answer(&mut setter, Some(b"old"), "new")?);
    assert!(rt; answer(&mut setter, None, "new")?);
    assert_eq!(rt; number(&setter.status()), 0);
    Ok(())
}

#[test]
fn an_adder(rt: HostRuntime) -> Result<(), Fail> {
    let mut adder = Adder::new(Bytes::from_slice(rt.alloc(), b"new")?);
    assert!(rt; answer(&mut adder, Some(b"old"), "")?);
    assert_eq!(rt; number(&adder.status()), 10);
    assert!(rt; answer(&mut adder, None, "new")?);
    assert_eq!(rt; number(&adder.status()), 0);
    Ok(())
}

#[test]
fn a_remover(rt: HostRuntime) -> Result<(), Fail> {
    let mut remover = Remover::new();
    assert!(rt; answer(&mut remover, Some(b"old"), "-")?);
    assert_eq!(rt; number(&remover.status()), 0);
    assert!(rt; answer(&mut remover, None, "")?);
    assert_eq!(rt; number(&remover.status()), 7);
    runs_are_legal(&remover, tk_model::Order::Hash);
    Ok(())
}

#[test]
fn an_appender(rt: HostRuntime) -> Result<(), Fail> {
    let value = Bytes::from_slice(rt.alloc(), b"x")?;
    let delim = Bytes::from_slice(rt.alloc(), b", ")?;
    let mut appender = Appender::new(rt.alloc(), value, delim);
    for (old, wanted) in [
        (None, "x"),
        (Some(b"".as_slice()), ", x"),
        (Some(b"v".as_slice()), "v, x"),
    ] {
        assert!(rt; answer(&mut appender, old, wanted)?, "{wanted}");
        assert_eq!(rt; number(&appender.status()), 0);
    }
    Ok(())
}

/// The length of the value that an append of one byte behind one byte of delimiter stores.
fn appended(alloc: Global, old: usize) -> Result<Option<usize>, NoMemory> {
    let value = Bytes::from_slice(alloc, b"x")?;
    let delim = Bytes::from_slice(alloc, b"-")?;
    let mut appender = Appender::new(alloc, value, delim);
    let mut long = Bytes::new(alloc);
    long.extend_zeros(old)?;
    Ok(match ask(&mut appender, b"k", Some(long.as_slice()))? {
        Action::Put(value) => Some(value.len()),
        _ => None,
    })
}

/// An appender answers the whole value also where no call may store it: its length is what such a call tells.
#[test]
fn an_appender_at_the_limit(rt: HostRuntime) -> Result<(), Fail> {
    for (old, wanted) in [
        (16_777_213, 16_777_215),
        (16_777_214, 16_777_216),
        (33_554_431, 33_554_433),
    ] {
        assert_eq!(rt; appended(rt.alloc(), old)?, Some(wanted));
    }
    Ok(())
}

/// An absent record for no text, any for `*`, else this value.
fn expected(alloc: Global, text: &str) -> Result<Expected, NoMemory> {
    Ok(match text {
        "" => Expected::Absent,
        "*" => Expected::Any,
        text => Expected::Value(Bytes::from_slice(alloc, text.as_bytes())?),
    })
}

/// What is there for no text, no record for `-`, else this value.
fn desired(alloc: Global, text: &str) -> Result<Desired, NoMemory> {
    Ok(match text {
        "" => Desired::Leave,
        "-" => Desired::Remove,
        text => Desired::Value(Bytes::from_slice(alloc, text.as_bytes())?),
    })
}

#[test]
fn an_exchanger(rt: HostRuntime) -> Result<(), Fail> {
    let old = Some(b"old".as_slice());
    for (expects, desires, was, status, wanted) in [
        ("", "new", None, 0, "new"),
        ("", "-", None, 0, "-"),
        ("", "", None, 0, ""),
        ("", "new", old, 9, ""),
        ("*", "new", old, 0, "new"),
        ("*", "-", old, 0, "-"),
        ("*", "", old, 0, ""),
        ("*", "-", None, 9, ""),
        ("old", "new", old, 0, "new"),
        ("old", "old", old, 0, "old"),
        ("old", "-", old, 0, "-"),
        ("old", "", old, 0, ""),
        ("old", "new", Some(b"older".as_slice()), 9, ""),
        ("old", "new", None, 9, ""),
    ] {
        let expects = expected(rt.alloc(), expects)?;
        let desires = desired(rt.alloc(), desires)?;
        let mut exchanger = Exchanger::new(rt.alloc(), expects, desires);
        assert!(rt; answer(&mut exchanger, was, wanted)?, "{wanted}");
        assert_eq!(rt; number(&exchanger.status()), status, "{wanted}");
        assert_eq!(rt; exchanger.value(), was, "{wanted}");
        assert!(rt;
            exchanger.into_value().is_some() == was.is_some(),
            "{wanted}"
        );
    }
    Ok(())
}

#[test]
fn an_exchanger_asked_again(rt: HostRuntime) -> Result<(), Fail> {
    let expects = expected(rt.alloc(), "a")?;
    let desires = desired(rt.alloc(), "b")?;
    let mut exchanger = Exchanger::new(rt.alloc(), expects.clone()?, desires.clone()?);
    assert_eq!(rt; number(&exchanger.status()), 9);
    assert!(rt; answer(&mut exchanger, Some(b"a"), "b")?);
    assert_eq!(rt; number(&exchanger.status()), 0);
    assert!(rt; answer(&mut exchanger, Some(b"b"), "")?);
    assert_eq!(rt; number(&exchanger.status()), 9);
    assert_eq!(rt; exchanger.value(), Some(b"b".as_slice()));
    assert!(rt; answer(&mut exchanger, None, "")?);
    assert!(rt; exchanger.value().is_none());
    values_are_met_alone();
    Ok(())
}

/// What a counter answers to an old value: none for keep, else the value to store.
fn counts(
    counter: &mut Counter,
    old: Option<&[u8]>,
    wanted: Option<&[u8]>,
) -> Result<bool, NoMemory> {
    Ok(match ask(counter, b"k", old)? {
        Action::Keep => wanted.is_none(),
        Action::Put(value) => wanted == Some(value.as_slice()),
        Action::Drop => false,
    })
}

const LEAST: i64 = -9_223_372_036_854_775_808;

const GREATEST: i64 = 9_223_372_036_854_775_807;

const LEAST_BYTES: &[u8] = b"\x80\0\0\0\0\0\0\0";

const GREATEST_BYTES: &[u8] = b"\x7f\xff\xff\xff\xff\xff\xff\xff";

const MINUS_ONE: &[u8] = b"\xff\xff\xff\xff\xff\xff\xff\xff";

const ZERO: &[u8] = b"\0\0\0\0\0\0\0\0";

const MANY: &[u8] = b"\0\0\0\0\0\0\x07\xd0";

#[test]
fn a_counter_that_adds(rt: HostRuntime) -> Result<(), Fail> {
    for (n, initial, was, sum, put) in [
        (1, 1_999, None, 2_000, MANY),
        (2_000, 7, Some(ZERO), 2_000, MANY),
        (0, 7, Some(MANY), 2_000, MANY),
        (1, 7, Some(MINUS_ONE), 0, ZERO),
        (-2_000, 7, Some(MANY), 0, ZERO),
        (GREATEST, 0, None, GREATEST, GREATEST_BYTES),
        (1, GREATEST - 1, None, GREATEST, GREATEST_BYTES),
        (LEAST + 1, -1, None, LEAST, LEAST_BYTES),
        (LEAST + 1, 7, Some(MINUS_ONE), LEAST, LEAST_BYTES),
        (GREATEST, 7, Some(LEAST_BYTES), -1, MINUS_ONE),
    ] {
        let mut counter = Counter::new(rt.alloc(), n, initial);
        assert!(rt; counts(&mut counter, was, Some(put))?, "{n}");
        assert_eq!(rt; number(&counter.status()), 0, "{n}");
        assert_eq!(rt; counter.number(), Some(sum), "{n}");
    }
    numbers_are_read_back();
    Ok(())
}

#[test]
fn a_counter_that_reads(rt: HostRuntime) -> Result<(), Fail> {
    for (initial, was, found) in [
        (7, None, 7),
        (LEAST, None, LEAST),
        (GREATEST, None, GREATEST),
        (7, Some(MANY), 2_000),
        (7, Some(MINUS_ONE), -1),
        (7, Some(LEAST_BYTES), LEAST),
        (7, Some(GREATEST_BYTES), GREATEST),
    ] {
        let mut counter = Counter::new(rt.alloc(), LEAST, initial);
        assert!(rt; counts(&mut counter, was, None)?, "{found}");
        assert_eq!(rt; number(&counter.status()), 0, "{found}");
        assert_eq!(rt; counter.number(), Some(found));
    }
    Ok(())
}

#[test]
fn a_counter_that_refuses(rt: HostRuntime) -> Result<(), Fail> {
    for (n, initial, was, status) in [
        (1, 7, Some(b"".as_slice()), 5),
        (1, 7, Some(b"\0\0\0\0\0\0\0".as_slice()), 5),
        (1, 7, Some(b"\0\0\0\0\0\0\0\0\0".as_slice()), 5),
        (LEAST, 7, Some(b"".as_slice()), 5),
        (LEAST, 7, Some(b"\0\0\0\0\0\0\0".as_slice()), 5),
        (LEAST, 7, Some(b"\0\0\0\0\0\0\0\0\0".as_slice()), 5),
        (1, GREATEST, None, 9),
        (-1, LEAST, None, 9),
        (1, 7, Some(GREATEST_BYTES), 9),
        (GREATEST, 7, Some(MANY), 9),
        (-1, 7, Some(LEAST_BYTES), 9),
        (LEAST + 1, 7, Some(LEAST_BYTES), 9),
    ] {
        let mut counter = Counter::new(rt.alloc(), n, initial);
        assert!(rt; counts(&mut counter, was, None)?, "{n}");
        assert_eq!(rt; number(&counter.status()), status, "{n}");
        assert!(rt; counter.number().is_none(), "{n}");
    }
    Ok(())
}

#[test]
fn a_counter_asked_again(rt: HostRuntime) -> Result<(), Fail> {
    let mut counter = Counter::new(rt.alloc(), 1, 0);
    assert_eq!(rt; number(&counter.status()), 0);
    assert!(rt; counter.number().is_none());
    assert!(rt; counts(&mut counter, Some(GREATEST_BYTES), None)?);
    assert_eq!(rt; number(&counter.status()), 9);
    assert!(rt; counts(&mut counter, Some(MINUS_ONE), Some(ZERO))?);
    assert_eq!(rt; counter.number(), Some(0));
    assert!(rt; counts(&mut counter, Some(b"0"), None)?);
    assert_eq!(rt; number(&counter.status()), 5);
    assert!(rt; counter.number().is_none());
    Ok(())
}

#[test]
fn a_list_of_processors(rt: HostRuntime) -> Result<(), Fail> {
    let mut list: ProcList<Getter> = ProcList::new(rt.alloc());
    assert!(rt; list.is_empty());
    list.push(Getter::new(rt.alloc()))?;
    list.push(Getter::new(rt.alloc()))?;
    list.push(Getter::new(rt.alloc()))?;
    for old in [
        Some(b"a".as_slice()),
        None,
        Some(b"c".as_slice()),
        Some(b"d".as_slice()),
    ] {
        assert!(rt; answer(&mut list, old, "")?);
    }
    assert_eq!(rt; list.len(), 3);
    assert_eq!(rt; list.at(0).value(), Some(b"a".as_slice()));
    assert_eq!(rt; number(&list.at(1).status()), 7);
    assert_eq!(rt; list.at(2).value(), Some(b"c".as_slice()));
    assert_eq!(rt; list.into_vec().len(), 3);
    Ok(())
}

#[test]
fn a_list_that_stores(rt: HostRuntime) -> Result<(), Fail> {
    let mut list: ProcList<Setter> = ProcList::new(rt.alloc());
    for value in ["first", "second"] {
        list.push(Setter::new(Bytes::from_slice(rt.alloc(), value.as_bytes())?))?;
    }
    for wanted in ["first", "second", "", ""] {
        assert!(rt; answer(&mut list, Some(b"old"), wanted)?, "{wanted}");
    }
    Ok(())
}

/// Adds up the lines that pass it.
#[derive(Drop)]
struct Tally(AtomicU64);

impl Gate for Tally {
    fn pass(&self, worker: u32, line: u64) {
        self.0.fetch_add(
            u64::from(worker).wrapping_mul(100).wrapping_add(line),
            Ordering::SeqCst,
        );
    }
}

#[test]
fn gates(rt: HostRuntime) -> Result<(), Fail> {
    let gate = Tally(AtomicU64::new(0));
    let at = At {
        gate: &gate,
        worker: 3,
        line: 7,
    };
    let mut remover = Gated {
        processor: Remover::new(),
        at,
    };
    assert!(rt; answer(&mut remover, Some(b"old"), "-")?);
    assert_eq!(rt; gate.0.load(Ordering::SeqCst), 307);
    assert!(rt; answer(&mut remover, None, "")?);
    assert_eq!(rt; gate.0.load(Ordering::SeqCst), 614);
    assert_eq!(rt; number(&remover.processor.status()), 7);
    OpenGate.pass(at.worker, at.line);
    Ok(())
}
