ghost use Rattle.std.specs.Prelude.{◌≡◌, ◌≤◌, ◌^◌, length, IfOk};
ghost use Rattle.tk_block.specs.Blocks.{AllSmall, group_bodies};
ghost use Rattle.tk_block.specs.Layout.{end_of};

use super::*;
use std::alloc::Global;
use std::test::Fail;
use tk_model::{Bytes, Change, ChangeList, ListOf, NoMemory, Pair};

// A file of one record, `a` with the value `1`: header, closing part and block, by another program.
static HEADER: &[u8] =
    b"TKPHASH\n\x01\x01\x0a\0\0\0\0\0\0\0\0\0\0\0\0\0\0\0\x20\x40\x64\x2b\xf2\xf6";

static CLOSING: &[u8] =
    b"\0\0\0\0\0\0\x20\x70\0\0\0\0\0\0\0\x01\0\0\0\0\0\0\0\x01\0\0\0\0\xf7\xb7\x05\x05";

static BLOCK: &[u8] =
    b"TKB1\0\0\0\0\0\0\0\x30\x4a\x4b\x38\x9d\0\0\0\0\0\0\0\0\x01\x01\0\x01\0\0\0\x01\0\0\0\0\0\0\0\0a1\x72\x54\xb9\xe1\0\0";
// The same block under the number 7.
static BLOCK_OF_7: &[u8] =
    b"TKB1\0\0\0\0\0\0\0\x30\x4a\x4b\x38\x9d\0\0\0\0\0\0\0\0\x01\x01\0\x01\0\0\0\x01\0\0\0\0\0\0\0\x07a1\x74\xb8\x2f\x2c\0\0";

#[test]
fn a_header_is_written_and_read(rt: HostRuntime) {
    let head = StaticHead {
        kind: 1,
        version: 1,
        p: 10,
        order: 0,
        generation: 0,
    };
    assert_eq!(rt; write_static(&head).as_slice(), HEADER);
    assert_eq!(rt; read_static(HEADER), Some(head));
    assert_eq!(rt; read_static(CLOSING), None);
    assert_eq!(rt; base_of(10), 8256);
}

#[test]
fn a_closing_part_is_written_and_read(rt: HostRuntime) {
    let closing = Closing {
        size: 8304,
        count: 1,
        next: 1,
    };
    assert_eq!(rt; write_closing(&closing).as_slice(), CLOSING);
    assert_eq!(rt; read_closing(CLOSING), Some(closing));
    assert_eq!(rt; read_closing(HEADER), None);
}

#[test]
fn a_block_is_read(rt: HostRuntime) -> Result<(), Fail> {
    assert_eq!(rt; write_head(48, 8256).as_slice(), &BLOCK[..16]);
    assert_eq!(rt; read_head(BLOCK, 8256), Some(48));
    assert_eq!(rt; read_head(BLOCK, 8264), None);
    assert_eq!(rt; extent_of(1, 1), 48);
    let body = read_body(rt.alloc(), &BLOCK[24..], 8256)?.ok_or("no body")?;
    assert_eq!(rt; body.kind, 1);
    assert!(rt; body.last);
    assert_eq!(rt; body.number, 0);
    assert_eq!(rt; body.key.as_slice(), b"a".as_slice());
    assert_eq!(rt; body.value.as_slice(), b"1".as_slice());
    assert!(rt; body_at(&BLOCK[24..], 8264).is_none());
    Ok(())
}

fn one_put(alloc: Global) -> Result<ChangeList, NoMemory>
    ensures small { IfOk result AllSmall }
    ensures one { IfOk result (λ changes. length changes ≡ 1) }
    ensures end { IfOk result (λ changes. end_of 8256 (group_bodies 0 changes) ≤ 2 ^ 40) }
{
    let key = Bytes::from_slice(alloc, b"a")?;
    let value = Bytes::from_slice(alloc, b"1")?;
    let mut changes = ListOf::new(alloc);
    changes.push(Change::Put(Pair { key, value }))?;
    Ok(changes)
}

/// The text of the group under a number.
fn group_of(alloc: Global, number: u64) -> Result<Bytes, NoMemory> {
    let changes = one_put(alloc)?;
    let mut links = ListOf::new(alloc);
    links.push(0)?;
    let mut text = Bytes::new(alloc);
    write_unnumbered(&changes, 8256, &links, &mut text)?;
    renumber(&mut text, 8256, number);
    Ok(text)
}

#[test]
fn a_group_is_written(rt: HostRuntime) -> Result<(), Fail> {
    assert_eq!(rt; group_of(rt.alloc(), 0)?.as_slice(), BLOCK);
    assert_eq!(rt; group_of(rt.alloc(), 7)?.as_slice(), BLOCK_OF_7);
    Ok(())
}
