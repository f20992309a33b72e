use super::*;
use std::alloc::Global;
use std::process::Abort;
use std::test::Fail;

#[test]
fn hashes_of_the_public_vectors(rt: HostRuntime) {
    assert_eq!(rt; fnv32(b""), 0x811c9dc5);
    assert_eq!(rt; fnv32(b"a"), 0xe40c292c);
    assert_eq!(rt; fnv32(b"foobar"), 0xbf9cf968);
    assert_eq!(rt; fnv64(b""), 0xcbf29ce484222325);
    assert_eq!(rt; fnv64(b"a"), 0xaf63dc4c8601ec8c);
    assert_eq!(rt; fnv64(b"foobar"), 0x85944171f73967e8);
    assert_eq!(rt; fnv32_from(fnv32(b"foo"), b"bar"), 0xbf9cf968);
}

fn rises(rt: &impl Abort, order: Order, keys: &str) {
    let mut last: Option<&str> = None;
    for key in keys.split(' ') {
        assert!(rt; !before(&order, key.as_bytes(), key.as_bytes()), "{key}");
        if let Some(last) = last {
            assert!(rt;
                before(&order, last.as_bytes(), key.as_bytes()),
                "{last} {key}"
            );
            assert!(rt;
                !before(&order, key.as_bytes(), last.as_bytes()),
                "{last} {key}"
            );
        }
        last = Some(key);
    }
}

#[test]
fn keys_in_their_orders(rt: HostRuntime) {
    rises(&rt, Order::Hash, "k1 b c k2 a d k3 ab ");
    rises(&rt, Order::Bytes, " 0 10 2 A AB B Z [ a ab ~ é");
    rises(&rt, Order::Case, " @ [ A a AB Ab aB ab ABC B b Z z {");
    // Numbers that are held at the least, then negative ones, 0 in many spellings, positive ones, and those held at the greatest.
    rises(
        &rt,
        Order::Decimal,
        "-0170141183460469231731687303715884105728 -170141183460469231731687303715884105727 -9999999999999999999999999999999999999999 -170141183460469231731687303715884105726 -10 -2 -1",
    );
    rises(
        &rt,
        Order::Decimal,
        "-1  + +-1 +0 - --5 -0 0 00 0x9 a1 +1 01 1 1x 2 9z +010 10 100 18446744073709551616 170141183460469231731687303715884105726",
    );
    rises(
        &rt,
        Order::Decimal,
        "170141183460469231731687303715884105726 +170141183460469231731687303715884105727 00170141183460469231731687303715884105727 170141183460469231731687303715884105727 170141183460469231731687303715884105728 9999999999999999999999999999999999999999",
    );
    rises(
        &rt,
        Order::Hex,
        " +1 0 00 0x1F G1 x 01 1 1g 9 0A A a FF Ff fF ff 100 7ffffffffffffffffffffffffffffffe",
    );
    rises(
        &rt,
        Order::Hex,
        "7ffffffffffffffffffffffffffffffe 000000007fffffffffffffffffffffffffffffff 7fffffffffffffffffffffffffffffff 80000000000000000000000000000000 ffffffffffffffffffffffffffffffffffffffff",
    );
}

fn touch(alloc: Global, key: &str, was: Option<&str>, action: Action) -> Result<Touch, Fail> {
    let key = Bytes::from_slice(alloc, key.as_bytes())?;
    let was = match was {
        Some(was) => Some(Bytes::from_slice(alloc, was.as_bytes())?),
        None => None,
    };
    Ok(Touch { key, was, action })
}

fn put(alloc: Global, value: &str) -> Result<Action, Fail> {
    Ok(Action::Put(Bytes::from_slice(alloc, value.as_bytes())?))
}

fn proc(alloc: Global, touch: Touch) -> Result<Entry, Fail> {
    let mut touches = TouchList::new(alloc);
    touches.push(touch)?;
    Ok(Entry::Proc(touches))
}

fn shows(map: &PlainMap, text: &str) -> bool {
    let mut words = text.split(' ');
    for pair in map.pairs().as_slice() {
        if words
            .next()
            .map(|word| word.as_bytes() == pair.key.as_slice())
            != Some(true)
            || words
                .next()
                .map(|word| word.as_bytes() == pair.value.as_slice())
                != Some(true)
        {
            return false;
        }
    }
    words.next().is_none()
}

#[test]
fn calls_on_the_plain_machine(rt: HostRuntime) -> Result<(), Fail> {
    let alloc = rt.alloc();
    let mut map = PlainMap::new(alloc, Order::Bytes);
    assert!(rt; map.run(&proc(alloc, touch(alloc, "b", None, put(alloc, "2")?)?)?)?);
    assert!(rt; map.run(&proc(alloc, touch(alloc, "a", None, put(alloc, "1")?)?)?)?);
    assert!(rt; shows(&map, "a 1 b 2"));
    // A wrong old value is refused, and nothing changes.
    assert!(rt; !map.run(&proc(alloc, touch(alloc, "a", Some("2"), Action::Drop)?)?)?);
    assert!(rt; !map.run(&proc(alloc, touch(alloc, "c", Some(""), put(alloc, "3")?)?)?)?);
    assert!(rt; shows(&map, "a 1 b 2"));

    let mut each = TouchList::new(alloc);
    each.push(touch(alloc, "a", Some("1"), Action::Keep)?)?;
    each.push(touch(alloc, "b", Some("2"), put(alloc, "4")?)?)?;
    assert!(rt; map.run(&Entry::Each(each))?);
    assert!(rt; !map.run(&Entry::Each(TouchList::new(alloc)))?);
    assert!(rt; map.run(&Entry::Count(2))? && !map.run(&Entry::Count(3))?);
    assert!(rt; shows(&map, "a 1 b 4"));

    let pair = Pair {
        key: Bytes::from_slice(alloc, b"a")?,
        value: Bytes::from_slice(alloc, b"1")?,
    };
    let past = Entry::Next {
        way: Way::Down,
        bound: Bound::Over(Bytes::from_slice(alloc, b"b")?),
        found: Some(pair),
        action: Action::Drop,
    };
    assert!(rt; map.run(&past)? && !map.run(&past)?);
    assert!(rt; shows(&map, "b 4"));
    assert!(rt; map.run(&Entry::Clear)? && map.run(&Entry::Sync(true))?);
    assert!(rt; map.pairs().is_empty());
    let none = Entry::Next {
        way: Way::Up,
        bound: Bound::Edge,
        found: None,
        action: Action::Keep,
    };
    assert!(rt; map.run(&none)?);
    Ok(())
}

#[test]
fn changes_on_the_plain_machine(rt: HostRuntime) -> Result<(), Fail> {
    let alloc = rt.alloc();
    let mut map = PlainMap::new(alloc, Order::Bytes);
    for (key, value) in [("b", "2"), ("a", "1"), ("b", "3")] {
        let key = Bytes::from_slice(alloc, key.as_bytes())?;
        let value = Bytes::from_slice(alloc, value.as_bytes())?;
        map.apply(&Change::Put(Pair { key, value }))?;
    }
    assert!(rt; shows(&map, "a 1 b 3"));
    map.apply(&Change::Drop(Bytes::from_slice(alloc, b"a")?))?;
    map.apply(&Change::Drop(Bytes::from_slice(alloc, b"c")?))?;
    assert!(rt; shows(&map, "b 3"));
    map.apply(&Change::Clear)?;
    assert!(rt; map.pairs().is_empty());
    Ok(())
}

#[test]
fn a_call_of_two_touches(rt: HostRuntime) -> Result<(), Fail> {
    let alloc = rt.alloc();
    let mut map = PlainMap::new(alloc, Order::Bytes);
    let mut touches = TouchList::new(alloc);
    touches.push(touch(alloc, "a", None, put(alloc, "1")?)?)?;
    touches.push(touch(alloc, "a", Some("1"), put(alloc, "2")?)?)?;
    let entry = Entry::Proc(touches);
    assert!(rt; map.run(&entry)? && !map.run(&entry)?);
    assert!(rt; shows(&map, "a 2"));
    Ok(())
}

#[test]
fn pushes_into_room(rt: HostRuntime) -> Result<(), Fail> {
    let mut list = ReservedList::from_list(BytesList::new(rt.alloc()));
    list.reserve(2)?;
    for text in ["a", "b"] {
        let text = Bytes::from_slice(rt.alloc(), text.as_bytes())?;
        assert!(rt; list.room() > 0);
        list.push_reserved(text);
    }
    assert!(rt;
        list.as_slice()
            .last()
            .map(|b| b.as_slice() == b"b".as_slice())
            == Some(true)
    );
    assert_eq!(rt; list.into_list().len(), 2);
    let mut bytes = ReservedList::from_bytes(Bytes::from_slice(rt.alloc(), b"ab")?);
    bytes.reserve(3)?;
    bytes.extend_reserved(b"cde");
    assert_eq!(rt; bytes.as_slice(), b"abcde".as_slice());
    bytes.clear();
    assert_eq!(rt; bytes.len(), 0);
    assert_eq!(rt; bytes.into_bytes().len(), 0);
    Ok(())
}

#[test]
fn a_record_and_its_text(rt: HostRuntime) -> Result<(), Fail> {
    let mut out = Bytes::from_slice(rt.alloc(), b">")?;
    write_record(b"k", b"val", &mut out)?;
    out.extend(b"<")?;
    assert_eq!(rt;
        out.as_slice(),
        b">\x00\x01\x00\x00\x00\x03kval<".as_slice()
    );
    let here = record_here(&out.as_slice()[1..]).ok_or("refused")?;
    assert_eq!(rt; here.key, b"k".as_slice());
    assert_eq!(rt; here.value, b"val".as_slice());
    assert_eq!(rt; here.rest, b"<".as_slice());
    assert!(rt; record_here(&out.as_slice()[1..10]).is_none());
    Ok(())
}

#[test]
fn calls_that_fail(rt: HostRuntime) -> Result<(), Fail> {
    let mut failing = FaultList::new(rt.alloc());
    failing.push(1)?;
    let mut schedule = FaultSchedule::new(failing);
    for call in 0..3 {
        let due = schedule.is_due();
        assert_eq!(rt; due, call == 1);
        schedule.count(due);
    }
    assert_eq!(rt; schedule.faults(), 1);
    Ok(())
}

#[test]
fn places_of_keys(rt: HostRuntime) -> Result<(), Fail> {
    let alloc = rt.alloc();
    let mut pairs = PairList::new(alloc);
    for key in ["b", "d"] {
        let pair = Pair {
            key: Bytes::from_slice(alloc, key.as_bytes())?,
            value: Bytes::new(alloc),
        };
        put_in(&mut pairs, &Order::Bytes, copy_pair(&pair)?)?;
    }
    let list = pairs.as_slice();
    assert!(rt; place_of(list, b"d") == Some(1) && place_of(list, b"c").is_none());
    assert!(rt; place_to_put(list, &Order::Bytes, b"c") == Err(1));
    let over = Bound::Over(Bytes::from_slice(alloc, b"b")?);
    assert!(rt;
        first_pair(list, &Order::Bytes, &over).map(|p| p.key.as_slice() == b"d".as_slice())
            == Some(true)
    );
    assert!(rt; last_pair(list, &Order::Bytes, &over).is_none());
    assert!(rt; named_pair(list, &Order::Bytes, Way::Down, &Bound::Edge).is_some());
    assert!(rt; is_within(&Order::Bytes, Way::Up, &over, b"c") && value_at(list, b"b").is_some());
    drop_in(&mut pairs, b"b");
    assert_eq!(rt; pairs.len(), 1);
    Ok(())
}
