use super::*;
use std::test::Fail;
use tk_model::{Bytes, BytesList, NoMemory, Order, PlainMap};
use tk_proc::{Desired, Expected};
use tk_status::{Status, text};

/// One worker over a plain map.
#[derive(Drop)]
struct Session {
    map: PlainMap,
    order: Order,
    position: Position,
}

fn new_session(rt: &HostRuntime, order: Order) -> Session {
    Session {
        map: PlainMap::new(rt.alloc(), order),
        order,
        position: Position::Nowhere,
    }
}

fn bytes(rt: &HostRuntime, text: &[u8]) -> Result<Bytes, NoMemory> {
    Bytes::from_slice(rt.alloc(), text)
}

/// Makes a call, and answers its status and fields as a line prints them, with `|` for a TAB.
fn say(rt: &HostRuntime, s: &mut Session, call: &Call) -> Result<Bytes, Fail> {
    let mut line = Bytes::new(rt.alloc());
    if let Some(status) = answered_early(&s.order, true, call, &s.position) {
        line.push(b'-')?;
        line.extend(text(&status).as_bytes())?;
        return Ok(line);
    }
    let replied = reply(rt.alloc(), &s.order, call, &s.position, s.map.pairs())?;
    if !s.map.run(&replied.entry)? {
        return Err(Fail::new("not legal"));
    }
    line.extend(text(&replied.status).as_bytes())?;
    for field in replied.fields.as_slice() {
        line.push(b'|')?;
        if let Some(value) = field {
            line.push(b'=')?;
            line.extend(value.as_slice())?;
        }
    }
    s.position = replied.position;
    Ok(line)
}

fn says(rt: &HostRuntime, s: &mut Session, call: Call, wanted: &[u8]) -> Result<(), Fail> {
    let line = say(rt, s, &call)?;
    if line.as_slice() != wanted {
        return Err(Fail::new("another reply"));
    }
    Ok(())
}

fn get(rt: &HostRuntime, key: &[u8]) -> Result<Call, NoMemory> {
    Ok(Call::Get(bytes(rt, key)?))
}

fn set(rt: &HostRuntime, key: &[u8], value: &[u8]) -> Result<Call, NoMemory> {
    let key = bytes(rt, key)?;
    let value = bytes(rt, value)?;
    Ok(Call::Set { key, value })
}

fn rekey(rt: &HostRuntime, from: &[u8], to: &[u8], flags: (bool, bool)) -> Result<Call, NoMemory> {
    let from = bytes(rt, from)?;
    let to = bytes(rt, to)?;
    let (overwrite, copying) = flags;
    Ok(Call::Rekey {
        from,
        to,
        overwrite,
        copying,
    })
}

fn increment(rt: &HostRuntime, key: &[u8], n: i64, initial: i64) -> Result<Call, NoMemory> {
    let key = bytes(rt, key)?;
    Ok(Call::Increment { key, n, initial })
}

#[test]
fn one_record(rt: HostRuntime) -> Result<(), Fail> {
    let mut s = new_session(&rt, Order::Hash);
    says(&rt, &mut s, set(&rt, b"a", b"1")?, b"SUCCESS")?;
    says(&rt, &mut s, get(&rt, b"a")?, b"SUCCESS|=1")?;
    says(&rt, &mut s, get(&rt, b"b")?, b"NOT_FOUND_ERROR|")?;
    let add = Call::Add {
        key: bytes(&rt, b"a")?,
        value: bytes(&rt, b"2")?,
    };
    says(&rt, &mut s, add, b"DUPLICATION_ERROR")?;
    let append = Call::Append {
        key: bytes(&rt, b"a")?,
        value: bytes(&rt, b"2")?,
        delimiter: bytes(&rt, b",")?,
    };
    says(&rt, &mut s, append, b"SUCCESS")?;
    says(&rt, &mut s, get(&rt, b"a")?, b"SUCCESS|=1,2")?;
    let exchange = Call::CompareExchange {
        key: bytes(&rt, b"a")?,
        expected: Expected::Any,
        desired: Desired::Remove,
    };
    says(&rt, &mut s, exchange, b"SUCCESS|=1,2")?;
    says(
        &rt,
        &mut s,
        Call::Remove(bytes(&rt, b"a")?),
        b"NOT_FOUND_ERROR",
    )?;
    Ok(())
}

#[test]
fn a_key_moved_onto_itself(rt: HostRuntime) -> Result<(), Fail> {
    let mut s = new_session(&rt, Order::Hash);
    says(&rt, &mut s, set(&rt, b"a", b"1")?, b"SUCCESS")?;
    says(
        &rt,
        &mut s,
        rekey(&rt, b"a", b"a", (false, false))?,
        b"SUCCESS",
    )?;
    says(&rt, &mut s, get(&rt, b"a")?, b"SUCCESS|=1")?;
    says(
        &rt,
        &mut s,
        rekey(&rt, b"z", b"z", (true, true))?,
        b"NOT_FOUND_ERROR",
    )?;
    Ok(())
}

#[test]
fn a_key_moved_onto_another(rt: HostRuntime) -> Result<(), Fail> {
    let mut s = new_session(&rt, Order::Hash);
    says(&rt, &mut s, set(&rt, b"a", b"1")?, b"SUCCESS")?;
    says(&rt, &mut s, set(&rt, b"b", b"2")?, b"SUCCESS")?;
    says(
        &rt,
        &mut s,
        rekey(&rt, b"a", b"b", (false, false))?,
        b"DUPLICATION_ERROR",
    )?;
    says(
        &rt,
        &mut s,
        rekey(&rt, b"a", b"c", (false, true))?,
        b"SUCCESS",
    )?;
    says(&rt, &mut s, Call::Count, b"SUCCESS|=3")?;
    says(
        &rt,
        &mut s,
        rekey(&rt, b"a", b"b", (true, false))?,
        b"SUCCESS",
    )?;
    says(&rt, &mut s, get(&rt, b"a")?, b"NOT_FOUND_ERROR|")?;
    says(&rt, &mut s, get(&rt, b"b")?, b"SUCCESS|=1")?;
    Ok(())
}

fn exchange_multi(
    rt: &HostRuntime,
    expected: &[(&[u8], &[u8])],
    desired: &[(&[u8], &[u8])],
) -> Result<Call, NoMemory> {
    let mut es = ExpectedList::new(rt.alloc());
    for (key, value) in expected {
        let form = Expected::Value(bytes(rt, value)?);
        let key = bytes(rt, key)?;
        es.push(ExpectedPair { key, form })?;
    }
    let mut ds = DesiredList::new(rt.alloc());
    for (key, value) in desired {
        let form = Desired::Value(bytes(rt, value)?);
        let key = bytes(rt, key)?;
        ds.push(DesiredPair { key, form })?;
    }
    Ok(Call::CompareExchangeMulti {
        expected: es,
        desired: ds,
    })
}

#[test]
fn an_exchange_of_several(rt: HostRuntime) -> Result<(), Fail> {
    let mut s = new_session(&rt, Order::Hash);
    says(&rt, &mut s, set(&rt, b"a", b"1")?, b"SUCCESS")?;
    let missed = exchange_multi(
        &rt,
        &[(b"a", b"1"), (b"b", b"9")],
        &[(b"a", b"5"), (b"b", b"6")],
    )?;
    says(&rt, &mut s, missed, b"INFEASIBLE_ERROR")?;
    says(&rt, &mut s, get(&rt, b"a")?, b"SUCCESS|=1")?;
    let met = exchange_multi(&rt, &[(b"a", b"1")], &[(b"a", b"5"), (b"b", b"6")])?;
    says(&rt, &mut s, met, b"SUCCESS")?;
    let mut keys = BytesList::new(rt.alloc());
    for key in [b"a", b"b", b"c"] {
        keys.push(bytes(&rt, key)?)?;
    }
    says(&rt, &mut s, Call::GetMulti(keys), b"NOT_FOUND_ERROR|=5|=6|")?;
    Ok(())
}

#[test]
fn several_steps_at_one_key(rt: HostRuntime) -> Result<(), Fail> {
    let mut s = new_session(&rt, Order::Hash);
    let mut steps = MultiStepList::new(rt.alloc());
    for end in [b"x", b"y"] {
        let op = Op::Append(bytes(&rt, end)?);
        let key = bytes(&rt, b"k")?;
        steps.push(MultiStep { op, key })?;
    }
    says(&rt, &mut s, Call::Multi(steps), b"SUCCESS||=x")?;
    says(&rt, &mut s, get(&rt, b"k")?, b"SUCCESS|=xy")?;
    let mut steps = MultiStepList::new(rt.alloc());
    for op in [
        Op::Remove,
        Op::Get,
        Op::Add(bytes(&rt, b"1")?),
        Op::Set(bytes(&rt, b"2")?),
    ] {
        let key = bytes(&rt, b"k")?;
        steps.push(MultiStep { op, key })?;
    }
    says(&rt, &mut s, Call::Multi(steps), b"SUCCESS|=xy|||=1")?;
    Ok(())
}

#[test]
fn numbers_to_their_ends(rt: HostRuntime) -> Result<(), Fail> {
    let mut s = new_session(&rt, Order::Hash);
    says(
        &rt,
        &mut s,
        increment(&rt, b"n", i64::MAX, 0)?,
        b"SUCCESS|=9223372036854775807",
    )?;
    says(
        &rt,
        &mut s,
        increment(&rt, b"n", 1, 0)?,
        b"INFEASIBLE_ERROR|",
    )?;
    says(
        &rt,
        &mut s,
        increment(&rt, b"m", i64::MIN, 7)?,
        b"SUCCESS|=7",
    )?;
    says(&rt, &mut s, get(&rt, b"m")?, b"NOT_FOUND_ERROR|")?;
    says(&rt, &mut s, set(&rt, b"t", b"text")?, b"SUCCESS")?;
    says(
        &rt,
        &mut s,
        increment(&rt, b"t", 1, 0)?,
        b"INVALID_ARGUMENT_ERROR|",
    )?;
    Ok(())
}

#[test]
fn every_record(rt: HostRuntime) -> Result<(), Fail> {
    let mut s = new_session(&rt, Order::Bytes);
    says(&rt, &mut s, set(&rt, b"b", b"2")?, b"SUCCESS")?;
    says(&rt, &mut s, set(&rt, b"a", b"1")?, b"SUCCESS")?;
    says(&rt, &mut s, Call::Pop, b"SUCCESS|=a|=1")?;
    says(&rt, &mut s, Call::Count, b"SUCCESS|=1")?;
    says(&rt, &mut s, Call::Each(bytes(&rt, b"x")?), b"SUCCESS|=1")?;
    says(&rt, &mut s, get(&rt, b"b")?, b"SUCCESS|=2x")?;
    says(&rt, &mut s, Call::Sync(true), b"SUCCESS")?;
    says(&rt, &mut s, Call::Clear, b"SUCCESS")?;
    says(&rt, &mut s, Call::Pop, b"NOT_FOUND_ERROR||")?;
    Ok(())
}

#[test]
fn a_value_that_is_too_long(rt: HostRuntime) -> Result<(), Fail> {
    let mut s = new_session(&rt, Order::Bytes);
    let mut long = Bytes::new(rt.alloc());
    long.extend_zeros(16_777_215)?;
    let longest = Call::Set {
        key: bytes(&rt, b"k")?,
        value: long,
    };
    says(&rt, &mut s, longest, b"SUCCESS")?;
    says(&rt, &mut s, Call::Each(bytes(&rt, b"x")?), b"TOO_LONG|")?;
    Ok(())
}

#[test]
fn a_walk_that_removes(rt: HostRuntime) -> Result<(), Fail> {
    let mut s = new_session(&rt, Order::Bytes);
    for key in [b"k1", b"k2", b"k3"] {
        says(&rt, &mut s, set(&rt, key, b"v")?, b"SUCCESS")?;
    }
    says(&rt, &mut s, Call::Next, b"-NOT_FOUND_ERROR")?;
    says(&rt, &mut s, Call::First, b"SUCCESS")?;
    says(&rt, &mut s, Call::IterGet, b"SUCCESS|=k1|=v")?;
    says(&rt, &mut s, Call::Next, b"SUCCESS")?;
    says(&rt, &mut s, Call::IterRemove, b"SUCCESS")?;
    says(&rt, &mut s, Call::IterGet, b"SUCCESS|=k3|=v")?;
    says(&rt, &mut s, Call::IterSet(bytes(&rt, b"w")?), b"SUCCESS")?;
    says(&rt, &mut s, Call::IterGet, b"SUCCESS|=k3|=w")?;
    says(&rt, &mut s, Call::Next, b"SUCCESS")?;
    says(&rt, &mut s, Call::IterGet, b"-NOT_FOUND_ERROR")?;
    Ok(())
}

#[test]
fn searches_from_a_key(rt: HostRuntime) -> Result<(), Fail> {
    let mut s = new_session(&rt, Order::Bytes);
    says(&rt, &mut s, set(&rt, b"b", b"1")?, b"SUCCESS")?;
    says(&rt, &mut s, set(&rt, b"d", b"2")?, b"SUCCESS")?;
    for (key, inclusive, wanted) in [
        (b"b", false, b"-NOT_FOUND_ERROR".as_slice()),
        (b"b", true, b"SUCCESS|=b|=1".as_slice()),
        (b"c", false, b"SUCCESS|=b|=1".as_slice()),
    ] {
        let key = bytes(&rt, key)?;
        says(&rt, &mut s, Call::Lower { key, inclusive }, b"SUCCESS")?;
        says(&rt, &mut s, Call::IterGet, wanted)?;
    }
    let key = bytes(&rt, b"b")?;
    let inclusive = false;
    says(&rt, &mut s, Call::Upper { key, inclusive }, b"SUCCESS")?;
    says(&rt, &mut s, Call::IterGet, b"SUCCESS|=d|=2")?;
    says(&rt, &mut s, Call::Previous, b"SUCCESS")?;
    says(&rt, &mut s, Call::IterGet, b"SUCCESS|=b|=1")?;
    says(&rt, &mut s, Call::Last, b"SUCCESS")?;
    says(&rt, &mut s, Call::IterGet, b"SUCCESS|=d|=2")?;
    says(&rt, &mut s, Call::Jump(bytes(&rt, b"c")?), b"SUCCESS")?;
    says(&rt, &mut s, Call::IterGet, b"SUCCESS|=d|=2")?;
    Ok(())
}

#[test]
fn a_walk_without_an_order(rt: HostRuntime) -> Result<(), Fail> {
    let mut s = new_session(&rt, Order::Hash);
    says(&rt, &mut s, set(&rt, b"b", b"1")?, b"SUCCESS")?;
    says(&rt, &mut s, Call::Last, b"-NOT_IMPLEMENTED_ERROR")?;
    says(&rt, &mut s, Call::Previous, b"-NOT_IMPLEMENTED_ERROR")?;
    says(
        &rt,
        &mut s,
        Call::Jump(bytes(&rt, b"a")?),
        b"NOT_FOUND_ERROR",
    )?;
    says(&rt, &mut s, Call::IterGet, b"-NOT_FOUND_ERROR")?;
    says(&rt, &mut s, Call::Jump(bytes(&rt, b"b")?), b"SUCCESS")?;
    says(&rt, &mut s, Call::IterGet, b"SUCCESS|=b|=1")?;
    let read = answered_early(&Order::Hash, false, &Call::Clear, &Position::Nowhere);
    assert_eq!(rt; read, Some(Status::Precondition));
    let read = answered_early(&Order::Hash, false, &Call::Count, &Position::Nowhere);
    assert_eq!(rt; read, None);
    Ok(())
}
