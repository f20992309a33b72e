ghost use Rattle.std.specs.Prelude.{◌≡◌, [], IsTrue, IfOk};
ghost use Rattle.tk_disk.specs.MemDisk.{mem_bytes};
ghost use Rattle.tk_restore.specs.Restoration.{IsAppending};

use super::*;
use crate::records::Records;
use std::alloc::Global;
use std::test::Fail;
use tk_append::restore_groups;
use tk_block::read_static;
use tk_disk::MemDisk;
use tk_model::{Bytes, Change, FaultList, NoMemory, OpenError, Pair, PairList};
use tk_store::HashedRecords;

/// An open file of five groups: two sets, a remove and a set, a clear, two sets, a set of a key that is there. No link and
/// no head is right.
const IMAGE: &[u8] =
    b"TKPHASH\x0a\x01\x01\0\0\0\0\0\0\0\0\0\x07\0\0\0\0\0\0\0H\x0b\xe2*1\0\0\0\0\0\0\0\0\0\0\0\0\0\0\0\0\0\0\0\0\0\0\0\0\0\0\0\0\0\0\0\0\0\0\0\0\0\0\0\0TKB1\0\0\0\0\0\0\00\x82\x9bB\xa5\0\0\0\0\0\0\0\x08\x01\0\0\x01\0\0\0\x01\0\0\0\0\0\0\0\x01a1/A\x84\x91\0\0TKB1\0\0\0\0\0\0\08xU;\x0d\0\0\0\0\0\0\0\x08\x01\x01\0\x01\0\0\0\x04\0\0\0\0\0\0\0\x01b2222\xe5!\xb2\xbb\0\0\0\0\0\0\0TKB1\0\0\0\0\0\0\00\xba\x9a\x07\xcd\0\0\0\0\0\0\0\x08\x02\0\0\x01\0\0\0\0\0\0\0\0\0\0\0\x02a\xc9\xf7\x8d!\0\0\0TKB1\0\0\0\0\0\0\00\xea\x9aS]\0\0\0\0\0\0\0\x08\x01\x01\0\x01\0\0\0\x01\0\0\0\0\0\0\0\x02c3s\xb5\xf7c\0\0TKB1\0\0\0\0\0\0\00\x14\x98V\xe4\0\0\0\0\0\0\0\x08\x04\x01\0\0\0\0\0\0\0\0\0\0\0\0\0\x03LF;:\0\0\0\0TKB1\0\0\0\0\0\0\00d\x98\xd4\xd4\0\0\0\0\0\0\0\x08\x01\0\0\x01\0\0\0\x01\0\0\0\0\0\0\0\x04d4\x95\x02mY\0\0TKB1\0\0\0\0\0\0\08jR\xe6l\0\0\0\0\0\0\0\x08\x01\x01\0\x01\0\0\0\x08\0\0\0\0\0\0\0\x04e55555555\xc9%|\x06\0\0\0TKB1\0\0\0\0\0\0\00\xbc\x99_\x5c\0\0\0\0\0\0\0\x08\x01\x01\0\x01\0\0\0\x02\0\0\0\0\0\0\0\x05d66\x8c;.\xee\0";

fn disk(alloc: Global, bytes: &[u8], fault: u64) -> Result<MemDisk, NoMemory>
    ensures { IfOk result (λ d. mem_bytes d ≡ bytes.now) }
{
    let mut faults = FaultList::new(alloc);
    faults.push(fault)?;
    let bytes = Bytes::from_slice(alloc, bytes)?;
    MemDisk::new(alloc, bytes, 100_000, faults)
}

/// The records that the slow program finds.
fn slowly(alloc: Global, bytes: &[u8]) -> Result<PairList, NoMemory> {
    let mut records = HashedRecords::new(alloc, 0)?;
    for group in restore_groups(alloc, bytes)?.into_vec() {
        for change in group.changes.into_vec() {
            records.apply(change)?;
        }
    }
    records.into_pairs()
}

fn are_alike(some: &[Pair], others: &[Pair]) -> bool {
    if some.len() != others.len() {
        return false;
    }
    for i in 0..some.len() {
        let (one, other) = (&some[i], &others[i]);
        if one.key.as_slice() != other.key.as_slice()
            || one.value.as_slice() != other.value.as_slice()
        {
            return false;
        }
    }
    true
}

/// The image has no header of an updating file.
fn is_appending(bytes: &[u8]) -> bool
    ensures { IsTrue result → IsAppending bytes.now }
{
    match read_static(bytes) {
        Some(head) => head.kind == 1 || head.kind == 3,
        None => true,
    }
}

/// The program and the slow one make the same file, or there is no header.
fn is_same(alloc: Global, bytes: &[u8]) -> Result<bool, Fail> {
    if !is_appending(bytes) {
        return Ok(true);
    }
    let mut from = disk(alloc, bytes, 1_000)?;
    let mut to = disk(alloc, b"", 1_000)?;
    let restored = restore_appending(alloc, &mut from, &mut to);
    if read_static(bytes).is_none() {
        return Ok(restored == Err(OpenError::NotADatabase) && to.bytes().is_empty());
    }
    let records = slowly(alloc, to.bytes())?;
    let is_alike = are_alike(records.as_slice(), slowly(alloc, bytes)?.as_slice());
    Ok(is_alike && restored == Ok(records.len() as u64) && from.bytes() == bytes)
}

#[test]
fn all_groups(rt: HostRuntime) -> Result<(), Fail> {
    let alloc = rt.alloc();
    assert!(rt; is_appending(IMAGE));
    let mut from = disk(alloc, IMAGE, 1_000)?;
    let mut to = disk(alloc, b"", 1_000)?;
    assert_eq!(rt; restore_appending(alloc, &mut from, &mut to), Ok(2));
    assert_eq!(rt; to.bytes().len(), 72 + 48 + 56);
    Ok(())
}

/// Each cut: with no header, an empty file, one in the midst of a group, in a block's padding, at a block's end.
#[test]
fn each_cut(rt: HostRuntime) -> Result<(), Fail> {
    let alloc = rt.alloc();
    for len in 0..=IMAGE.len() {
        assert!(rt; is_same(alloc, &IMAGE[..len])?, "at {len}");
    }
    Ok(())
}

#[test]
fn each_changed_byte(rt: HostRuntime) -> Result<(), Fail> {
    let alloc = rt.alloc();
    for at in 0..IMAGE.len() {
        let mut other = Bytes::from_slice(alloc, IMAGE)?;
        other.write_at(at, &[IMAGE[at] ^ 1]);
        assert!(rt; is_same(alloc, other.as_slice())?, "at {at}");
    }
    Ok(())
}

/// Each call of the disk that is read fails in turn, and each of the new one.
#[test]
fn each_fault(rt: HostRuntime) -> Result<(), Fail> {
    let alloc = rt.alloc();
    assert!(rt; is_appending(IMAGE));
    for call in 0..3 {
        let mut from = disk(alloc, IMAGE, call)?;
        let mut to = disk(alloc, b"", 1_000)?;
        assert_eq!(rt;
            restore_appending(alloc, &mut from, &mut to),
            Err(OpenError::Fault),
            "at {call}"
        );
        assert!(rt; to.bytes().is_empty());
    }
    for call in 0..4 {
        let mut from = disk(alloc, IMAGE, 1_000)?;
        let mut to = disk(alloc, b"", call)?;
        assert_eq!(rt;
            restore_appending(alloc, &mut from, &mut to),
            Err(OpenError::Fault),
            "at {call}"
        );
        assert!(rt; from.bytes() == IMAGE);
    }
    Ok(())
}

/// A set or a remove of a key that has one byte.
fn change_of(alloc: Global, key: u8, sets: bool, value: u8) -> Result<Change, NoMemory> {
    let key = Bytes::from_slice(alloc, &[key])?;
    if !sets {
        return Ok(Change::Drop(key));
    }
    let value = Bytes::from_slice(alloc, &[value])?;
    Ok(Change::Put(Pair { key, value }))
}

/// Records that are settled now and then are those that are kept by bucket. A group that is begun isn't among them.
#[test]
fn settled_records(rt: HostRuntime) -> Result<(), Fail> {
    let alloc = rt.alloc();
    let mut records = Records::new(alloc);
    let mut slow = HashedRecords::new(alloc, 0)?;
    for i in 0..200u8 {
        records.push(&[i % 30], &[i], i % 7 > 1)?;
        records.complete()?;
        slow.apply(change_of(alloc, i % 30, i % 7 > 1, i)?)?;
        if i % 50 == 0 {
            records.settle()?;
        }
    }
    records.push(b"begun", b"1", true)?;
    let (records, slow) = (records.into_pairs()?, slow.into_pairs()?);
    assert!(rt; are_alike(records.as_slice(), slow.as_slice()));
    Ok(())
}
