use super::*;
use std::test::Fail;
use tk_model::{Bytes, NoMemory, Pair, PairList};

fn pairs(rt: &HostRuntime, of: &[(&[u8], &[u8])]) -> Result<PairList, NoMemory> {
    let mut list = PairList::new(rt.alloc());
    for (key, value) in of {
        let key = Bytes::from_slice(rt.alloc(), key)?;
        let value = Bytes::from_slice(rt.alloc(), value)?;
        list.push(Pair { key, value })?;
    }
    Ok(list)
}

fn are(found: &PairList, of: &[(&[u8], &[u8])]) -> bool {
    if found.len() != of.len() {
        return false;
    }
    for (pair, (key, value)) in found.as_slice().iter().zip(of) {
        if pair.key.as_slice() != *key || pair.value.as_slice() != *value {
            return false;
        }
    }
    true
}

fn reads(rt: &HostRuntime, text: &[u8], of: &[(&[u8], &[u8])]) -> bool {
    match read_tsv(rt.alloc(), text) {
        Ok(found) => are(&found, of),
        Err(_) => false,
    }
}

fn refused_at(rt: &HostRuntime, text: &[u8]) -> u64 {
    match read_tsv(rt.alloc(), text) {
        Err(TextError::At(line)) => line,
        _ => 0,
    }
}

fn refused_from(rt: &HostRuntime, text: &[u8]) -> u64 {
    match read_flat(rt.alloc(), text) {
        Err(TextError::At(place)) => place,
        _ => u64::MAX,
    }
}

#[test]
fn fields_of_every_escape(rt: HostRuntime) -> Result<(), Fail> {
    assert!(rt;
        reads(
            &rt,
            b"\\t\\n\\\\\t\\x00\\x7f\\xFf\\xfF\n",
            &[(b"\t\n\\", b"\x00\x7f\xff\xff")]
        )
    );
    assert!(rt;
        reads(
            &rt,
            b"\\xab\\xAB\\xcd\\xCD\t\\xef\\xEF\\x09\\x90",
            &[(b"\xab\xab\xcd\xcd", b"\xef\xef\t\x90")]
        )
    );
    assert_eq!(rt; refused_at(&rt, b"a\tb\\"), 1);
    assert_eq!(rt; refused_at(&rt, b"a\tb\\\nc\td\n"), 1);
    assert_eq!(rt; refused_at(&rt, b"a\tb\nc\\x1\td\n"), 2);
    assert_eq!(rt; refused_at(&rt, b"a\t\\xg0"), 1);
    assert_eq!(rt; refused_at(&rt, b"a\t\\x0G"), 1);
    assert_eq!(rt; refused_at(&rt, b"a\t\\T"), 1);
    assert_eq!(rt; refused_at(&rt, b"a\t\\X00"), 1);
    Ok(())
}

#[test]
fn lines_and_their_ends(rt: HostRuntime) {
    assert!(rt; reads(&rt, b"", &[]));
    assert!(rt; reads(&rt, b"a\tb", &[(b"a", b"b")]));
    assert!(rt; reads(&rt, b"a\tb\n", &[(b"a", b"b")]));
    assert!(rt; reads(&rt, b"\t\n\t", &[(b"", b""), (b"", b"")]));
    assert!(rt; reads(&rt, b"a\t\xff\rz\n", &[(b"a", b"\xff\rz")]));
    assert_eq!(rt; refused_at(&rt, b"\n"), 1);
    assert_eq!(rt; refused_at(&rt, b"a\tb\n\n"), 2);
    assert_eq!(rt; refused_at(&rt, b"a\tb\nc\td\nno"), 3);
    assert_eq!(rt; refused_at(&rt, b"a\tb\tc\n"), 1);
    assert_eq!(rt; refused_at(&rt, b"a\tb\n\t\t\nx\n"), 2);
}

#[test]
fn printed_text(rt: HostRuntime) -> Result<(), Fail> {
    let mut out = Bytes::from_slice(rt.alloc(), b">")?;
    let list = pairs(&rt, &[(b"\t\n\\", b" ~\x7f\x1f\x80\xff"), (b"", b"a")])?;
    write_tsv(&list, &mut out)?;
    assert_eq!(rt;
        out.as_slice(),
        &b">\\t\\n\\\\\t ~\\x7f\\x1f\\x80\\xff\n\ta\n"[..]
    );
    Ok(())
}

#[test]
fn all_bytes_there_and_back(rt: HostRuntime) -> Result<(), Fail> {
    let mut all = Bytes::new(rt.alloc());
    for byte in 0..=255u8 {
        all.push(byte)?;
    }
    let list = pairs(&rt, &[(all.as_slice(), b"v"), (b"k", all.as_slice())])?;
    let mut lines = Bytes::new(rt.alloc());
    write_tsv(&list, &mut lines)?;
    assert!(rt;
        reads(
            &rt,
            lines.as_slice(),
            &[(all.as_slice(), b"v"), (b"k", all.as_slice())]
        )
    );
    let mut field = Bytes::new(rt.alloc());
    escape(all.as_slice(), &mut field)?;
    let back = unescape(rt.alloc(), field.as_slice())?.ok_or("refused")?;
    assert_eq!(rt; back.as_slice(), all.as_slice());
    Ok(())
}

#[test]
fn lines_have_no_limits(rt: HostRuntime) -> Result<(), Fail> {
    let mut text = Bytes::from_slice(rt.alloc(), b"a\tb\n")?;
    text.extend_zeros(65_535)?;
    text.extend(b"\tv\n")?;
    let within = read_tsv(rt.alloc(), text.as_slice())?;
    assert_eq!(rt; within.len(), 2);
    assert!(rt; first_line_past_limits(&within).is_none());
    text.extend_zeros(65_536)?;
    text.extend(b"\tv\nk\t")?;
    text.extend_zeros(16_777_216)?;
    let past = read_tsv(rt.alloc(), text.as_slice())?;
    assert_eq!(rt; past.len(), 4);
    assert_eq!(rt; first_line_past_limits(&past), Some(3));
    Ok(())
}

/// `TKPFLAT` and LF, then the records (`a`, `12`), (empty, empty) and (`bc`, `d`).
const FLAT: &[u8; 34] =
    b"TKPFLAT\n\x00\x01\x00\x00\x00\x02a12\x00\x00\x00\x00\x00\x00\x00\x02\x00\x00\x00\x01bcd\x00\x09";

#[test]
fn flat_text_there_and_back(rt: HostRuntime) -> Result<(), Fail> {
    let of: [(&[u8], &[u8]); 3] = [(b"a", b"12"), (b"", b""), (b"bc", b"d")];
    let list = pairs(&rt, &of)?;
    let mut out = Bytes::new(rt.alloc());
    assert!(rt;
        list.as_slice()
            .iter()
            .all(|p| p.key.len() < 9 && p.value.len() < 9)
    );
    write_flat(&list, &mut out)?;
    assert_eq!(rt; out.as_slice(), &FLAT[..32]);
    let found = read_flat(rt.alloc(), &FLAT[..32])?;
    assert!(rt; are(&found, &of));
    let mut word = Bytes::new(rt.alloc());
    write_flat(&PairList::new(rt.alloc()), &mut word)?;
    assert_eq!(rt; word.as_slice(), &FLAT[..8]);
    assert_eq!(rt; read_flat(rt.alloc(), &FLAT[..8])?.len(), 0);
    Ok(())
}

#[test]
fn flat_text_cut_and_broken(rt: HostRuntime) -> Result<(), Fail> {
    for end in 24..32 {
        assert_eq!(rt; refused_from(&rt, &FLAT[..end]), 23);
    }
    assert_eq!(rt; read_flat(rt.alloc(), &FLAT[..23])?.len(), 2);
    assert_eq!(rt; refused_from(&rt, FLAT), 32);
    assert_eq!(rt; refused_from(&rt, b""), 0);
    assert_eq!(rt; refused_from(&rt, b"TKPFLAT"), 0);
    assert_eq!(rt; refused_from(&rt, b"TKPFLAT\r\x00\x00\x00\x00\x00\x00"), 0);
    assert_eq!(rt; refused_from(&rt, b"TKPFLAT\n\x00\x00\x02\x00\x00\x00"), 8);
    Ok(())
}

#[test]
fn one_record_and_one_line(rt: HostRuntime) -> Result<(), Fail> {
    let text = FLAT.as_slice();
    let found = flat_record(&text[8..]).ok_or("refused")?;
    assert_eq!(rt; found.key, &b"a"[..]);
    assert_eq!(rt; found.value, &b"12"[..]);
    assert_eq!(rt; found.rest, &text[17..]);
    let (line, behind) = next_line(b"ab\ncd");
    assert_eq!(rt; line, &b"ab"[..]);
    assert_eq!(rt; behind, &b"cd"[..]);
    let (front, behind) = cut(b'-', b"a-b-").ok_or("none")?;
    assert_eq!(rt; front, &b"a"[..]);
    assert_eq!(rt; behind, &b"b-"[..]);
    assert!(rt; cut(b'-', b"ab").is_none());
    Ok(())
}
