use super::*;
use std::alloc::Global;
use std::test::Fail;
use tk_model::{Bytes, ListOf, NoMemory, Order, Pair, PairList, RecordHere, compare_keys};

// Worked by hand from the layout.
static LEAF: &[u8] = b"\x01\0\0\0\x02\0\x01\0\0\0\x02axy\0\x02\0\0\0\0bc";

static INNER: &[u8] = b"\x02\0\0\0\x02\0\0\0\0\0\0\0\x01\0\0\0\0\0\0\0\0\x01\x02\0\x02bc";

static META: &[u8] = b"\0\0\0\0\0\0\0\x05\x02\0\0\0\0\0\0\x01\0\0\0\0\0\0\0\0\x03";

fn bytes(alloc: Global, of: &[u8]) -> Result<Bytes, NoMemory> {
    Bytes::from_slice(alloc, of)
}

fn leaf(alloc: Global, of: &[(&[u8], &[u8])]) -> Result<Page, NoMemory> {
    let mut pairs = PairList::new(alloc);
    for (key, value) in of {
        let key = bytes(alloc, key)?;
        let value = bytes(alloc, value)?;
        pairs.push(Pair { key, value })?;
    }
    Ok(Page::Leaf(pairs))
}

fn inner(alloc: Global, of: &[(u64, &[u8])]) -> Result<Page, NoMemory> {
    let mut children = ChildList::new(alloc);
    for (page, key) in of {
        let key = bytes(alloc, key)?;
        children.push(Child { page: *page, key })?;
    }
    Ok(Page::Inner(children))
}

/// The last bytes of a number, the high one first, by the plain rule.
fn put_number(out: &mut Bytes, number: u64, width: u32) -> Result<(), NoMemory> {
    for place in (0..width).rev() {
        out.push((number.wrapping_shr(place.wrapping_mul(8)) & 0xff) as u8)?;
    }
    Ok(())
}

/// The text of a page by the plain rule, byte by byte.
fn plain_text(alloc: Global, page: &Page) -> Result<Bytes, NoMemory> {
    let mut out = Bytes::new(alloc);
    match page {
        Page::Leaf(pairs) => {
            put_number(&mut out, 1, 1)?;
            put_number(&mut out, pairs.len() as u64, 4)?;
            for pair in pairs.as_slice() {
                put_number(&mut out, pair.key.len() as u64, 2)?;
                put_number(&mut out, pair.value.len() as u64, 4)?;
                out.extend(pair.key.as_slice())?;
                out.extend(pair.value.as_slice())?;
            }
        }
        Page::Inner(children) => {
            put_number(&mut out, 2, 1)?;
            put_number(&mut out, children.len() as u64, 4)?;
            for child in children.as_slice() {
                put_number(&mut out, child.page, 8)?;
                put_number(&mut out, child.key.len() as u64, 2)?;
                out.extend(child.key.as_slice())?;
            }
        }
    }
    Ok(out)
}

fn count_of(page: &Page) -> usize {
    match page {
        Page::Leaf(pairs) => pairs.len(),
        Page::Inner(children) => children.len(),
    }
}

fn count_here(page: &PageHere<'_>) -> usize {
    match page {
        PageHere::Leaf(records) => records.len(),
        PageHere::Inner(children) => children.len(),
    }
}

/// The text is the page's by the plain rule; what is read of it is that page, and is written so again.
fn is_text(rt: &HostRuntime, page: &Page, text: &[u8]) -> Result<bool, NoMemory> {
    let Some(copy) = read_page(rt.alloc(), text)? else {
        return Ok(false);
    };
    let Some(here) = page_here(rt.alloc(), text)? else {
        return Ok(false);
    };
    let mut out = bytes(rt.alloc(), b"before")?;
    write_page(&copy, &mut out)?;
    let plain = plain_text(rt.alloc(), page)?;
    let plain_copy = plain_text(rt.alloc(), &copy)?;
    Ok(
        out.as_slice().starts_with(b"before")
            && out.as_slice().ends_with(text)
            && out.len() == b"before".len() + text.len()
            && plain.as_slice() == text
            && plain_copy.as_slice() == text
            && count_here(&here) == count_of(page),
    )
}

fn is_page(rt: &HostRuntime, text: &[u8]) -> Result<bool, NoMemory> {
    let here = page_here(rt.alloc(), text)?.is_some();
    let copy = read_page(rt.alloc(), text)?.is_some();
    Ok(here && copy)
}

#[test]
fn worked_rows(rt: HostRuntime) -> Result<(), Fail> {
    let alloc = rt.alloc();
    let page = leaf(alloc, &[(b"a", b"xy"), (b"bc", b"")])?;
    assert!(rt; is_text(&rt, &page, LEAF)?);
    assert!(rt; !is_text(&rt, &page, INNER)?);
    let page = inner(alloc, &[(1, b""), (258, b"bc")])?;
    assert!(rt; is_text(&rt, &page, INNER)?);
    let page = leaf(alloc, &[])?;
    assert!(rt; is_text(&rt, &page, b"\x01\0\0\0\0")?);
    let page = inner(alloc, &[])?;
    assert!(rt; is_text(&rt, &page, b"\x02\0\0\0\0")?);
    let page = leaf(alloc, &[(b"", b""), (b"", b"")])?;
    assert!(rt; is_text(&rt, &page, b"\x01\0\0\0\x02\0\0\0\0\0\0\0\0\0\0\0\0")?);
    let page = inner(alloc, &[(u64::MAX, b"")])?;
    let text = b"\x02\0\0\0\x01\xff\xff\xff\xff\xff\xff\xff\xff\0\0";
    assert!(rt; is_text(&rt, &page, text)?);
    Ok(())
}

#[test]
fn a_long_page(rt: HostRuntime) -> Result<(), Fail> {
    let value = Vec::from_elem(rt.alloc(), 7, 70_000)?;
    let page = leaf(
        rt.alloc(),
        &[(b"k", value.as_slice()), (&value[..65_535], b"v")],
    )?;
    let text = plain_text(rt.alloc(), &page)?;
    assert_eq!(rt; text.len(), 5 + 7 + 70_000 + 7 + 65_535);
    assert!(rt; is_text(&rt, &page, text.as_slice())?);
    Ok(())
}

#[test]
fn page_0_is_written_and_read(rt: HostRuntime) {
    let meta = Meta {
        root: 5,
        height: 2,
        next: 256,
        count: 3,
    };
    assert_eq!(rt; write_meta(&meta).as_slice(), META);
    assert_eq!(rt; read_meta(META), Some(meta));
    assert_eq!(rt; read_meta(&META[1..]), None);
    assert_eq!(rt; read_meta(LEAF), None);
}

#[test]
fn texts_of_no_page(rt: HostRuntime) -> Result<(), Fail> {
    for text in [LEAF, INNER] {
        for end in 0..text.len() {
            assert!(rt; !is_page(&rt, &text[..end])?, "end {end}");
        }
        assert!(rt; is_page(&rt, text)?);
        let mut more = bytes(rt.alloc(), text)?;
        more.push(0)?;
        assert!(rt; !is_page(&rt, more.as_slice())?);
    }
    // A kind that isn't there, a count too low, a first key that isn't empty.
    assert!(rt; !is_page(&rt, b"\0\0\0\0\0")?);
    assert!(rt; !is_page(&rt, b"\x03\0\0\0\0")?);
    assert!(rt; !is_page(&rt, b"\x01\0\0\0\x01\0\0\0\0\0\0\0\0\0\0\0\0")?);
    assert!(rt; !is_page(&rt, b"\x02\0\0\0\x01\0\0\0\0\0\0\0\x01\0\x01a")?);
    // No test of a page's own text sees that keys fall, or that a child has the number 0.
    assert!(rt; is_page(&rt, b"\x01\0\0\0\x02\0\x01\0\0\0\0b\0\x01\0\0\0\0a")?);
    assert!(rt; is_page(&rt, b"\x02\0\0\0\x01\0\0\0\0\0\0\0\0\0\0")?);
    Ok(())
}

static NUMBERS: [&[u8]; 7] = [b"-7", b"0", b"1", b"+2", b"10", b"10x", b"200"];

/// What is found of a key, where the keys rise.
fn value_of<'a>(page: &[RecordHere<'a>], key: &[u8]) -> Option<&'a [u8]> {
    if !records_rise(&Order::Decimal, page) {
        return Some(b"no");
    }
    find_value(&Order::Decimal, page, key)
}

#[test]
fn one_record_is_found(rt: HostRuntime) -> Result<(), Fail> {
    let mut page = ListOf::new(rt.alloc());
    for (count, new) in NUMBERS.iter().enumerate() {
        for (at, key) in NUMBERS.iter().enumerate() {
            let value = if at < count { Some(*key) } else { None };
            assert_eq!(rt; value_of(page.as_slice(), key), value, "{at} of {count}");
        }
        page.push(RecordHere {
            key: new,
            value: new,
            rest: b"",
        })?;
    }
    assert_eq!(rt; value_of(page.as_slice(), b"01"), None);
    assert!(rt; !records_rise(&Order::Bytes, page.as_slice()));
    Ok(())
}

/// The child for a key, where the keys rise; by binary search, and by going through all.
fn child_of(page: &[ChildHere<'_>], key: &[u8]) -> (Option<u64>, Option<u64>) {
    if !children_rise(&Order::Decimal, page) {
        return (None, Some(0));
    }
    let mut plain = None;
    for (at, child) in page.iter().enumerate() {
        if at == 0 || compare_keys(&Order::Decimal, child.key, key).is_le() {
            plain = Some(child.page);
        }
    }
    (find_child(&Order::Decimal, page, key), plain)
}

static KEYS: [&[u8]; 8] = [b"-8", b"-7", b"0", b"1", b"01", b"5", b"10y", b"3000"];

#[test]
fn one_child_is_found(rt: HostRuntime) -> Result<(), Fail> {
    let mut page = ListOf::new(rt.alloc());
    for (at, new) in NUMBERS.iter().enumerate() {
        for key in KEYS {
            let (found, plain) = child_of(page.as_slice(), key);
            assert_eq!(rt; found, plain, "behind {at}");
        }
        page.push(ChildHere {
            page: at as u64,
            key: if at == 0 { b"" } else { new },
            rest: b"",
        })?;
    }
    assert_eq!(rt; child_of(page.as_slice(), b"9").0, Some(3));
    assert_eq!(rt; child_of(page.as_slice(), b"10").0, Some(4));
    assert_eq!(rt; child_of(page.as_slice(), b"-8").0, Some(0));
    assert!(rt; !children_rise(&Order::Bytes, page.as_slice()));
    Ok(())
}
