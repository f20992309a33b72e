ghost use Rattle.std.specs.Prelude.{◌≡◌, ◌≤◌, ◌∷◌, ◌++◌, [], length, IfOk, OnOk};
ghost use Rattle.tk_disk.specs.MemDisk.{mem_bytes};

use super::*;
use std::alloc::Global;
use std::test::Fail;
use tk_block::StaticHead;
use tk_disk::MemDisk;
use tk_model::{Bytes, FaultList, NoMemory, OpenError, Pair, PairList, ShardOf, fnv64};

pub(crate) fn head_of(kind: u8, p: u8) -> StaticHead
    ensures { result ≡ record { kind = kind; version = 1; p = p; order = 0; generation = 0 } }
{
    StaticHead {
        kind,
        version: 1,
        p,
        order: 0,
        generation: 0,
    }
}

fn empty_disk(alloc: Global) -> Result<MemDisk, NoMemory>
    ensures { IfOk result (λ d. mem_bytes d ≡ []) }
{
    MemDisk::new(alloc, Bytes::new(alloc), 4_000_000, FaultList::new(alloc))
}

pub(crate) fn add(
    alloc: Global,
    pairs: &mut PairList,
    key: &[u8],
    value: &[u8],
) -> Result<(), NoMemory>
    ensures { OnOk result (pairs.new ≡ pairs.old ++ record { key = key.now; value = value.now }
        ∷ []) }
{
    let key = Bytes::from_slice(alloc, key)?;
    let value = Bytes::from_slice(alloc, value)?;
    pairs.push(Pair { key, value })
}

/// The length of what the disk holds, and its hash.
fn sum_of(disk: &MemDisk) -> (usize, u64) {
    let bytes = disk.bytes();
    (bytes.len(), fnv64(bytes))
}

/// A disk of a set with no records.
pub(crate) fn fresh_disk(alloc: Global) -> Result<MemDisk, Fail> {
    let mut disk = empty_disk(alloc)?;
    write_fresh(alloc, &mut disk, &head_of(1, 0), 0, &PairList::new(alloc))?;
    Ok(disk)
}

fn without_last(bytes: &[u8]) -> &[u8] {
    match bytes.split_last() {
        Some((_, rest)) => rest,
        None => bytes,
    }
}

pub(crate) const ALONE: ShardOf = ShardOf { index: 0, of: 1 };

#[test]
fn three_records_in_one_bucket(rt: HostRuntime) -> Result<(), Fail> {
    let alloc = rt.alloc();
    let mut pairs = PairList::new(alloc);
    add(alloc, &mut pairs, b"a", b"1")?;
    add(alloc, &mut pairs, b"b", b"22")?;
    add(alloc, &mut pairs, b"c", b"")?;
    let mut disk = empty_disk(alloc)?;
    write_fresh(alloc, &mut disk, &head_of(1, 0), 0, &pairs)?;
    assert_eq!(rt; sum_of(&disk), (216, 0x92dfccc26f125f30));
    Ok(())
}

#[test]
fn no_records(rt: HostRuntime) -> Result<(), Fail> {
    let alloc = rt.alloc();
    let mut disk = empty_disk(alloc)?;
    write_fresh(alloc, &mut disk, &head_of(1, 0), 0, &PairList::new(alloc))?;
    assert_eq!(rt; sum_of(&disk), (72, 0x71c84c289f5a334c));
    Ok(())
}

#[test]
fn an_updating_file(rt: HostRuntime) -> Result<(), Fail> {
    let alloc = rt.alloc();
    let mut pairs = PairList::new(alloc);
    add(alloc, &mut pairs, b"a", b"1")?;
    add(alloc, &mut pairs, b"b", b"22")?;
    let mut disk = empty_disk(alloc)?;
    write_fresh(alloc, &mut disk, &head_of(2, 0), 0, &pairs)?;
    assert_eq!(rt; sum_of(&disk), (168, 0x8ca89d64b967e769));
    Ok(())
}

#[test]
fn a_fresh_file_is_opened(rt: HostRuntime) -> Result<(), Fail> {
    let alloc = rt.alloc();
    let opened = open_log(alloc, fresh_disk(alloc)?, true, ALONE);
    assert!(rt; opened.is_ok_and(|log| log.end() == 72));
    Ok(())
}

#[test]
fn a_file_without_its_last_byte_is_refused(rt: HostRuntime) -> Result<(), Fail> {
    let alloc = rt.alloc();
    let whole = fresh_disk(alloc)?;
    let bytes = Bytes::from_slice(alloc, without_last(whole.bytes()))?;
    let short = MemDisk::new(alloc, bytes, 4_000_000, FaultList::new(alloc))?;
    let opened = open_log(alloc, short, true, ALONE);
    assert!(rt; opened.is_err_and(|unopened| unopened.cause == OpenError::BrokenAt(32)));
    Ok(())
}

#[test]
fn a_fresh_file_is_checked(rt: HostRuntime) -> Result<(), Fail> {
    let alloc = rt.alloc();
    let mut disk = fresh_disk(alloc)?;
    let head = check_all(alloc, &mut disk, true, ALONE)?;
    assert_eq!(rt; (head.kind, head.p), (1, 0));
    assert_eq!(rt; sum_of(&disk), (72, 0x71c84c289f5a334c));
    Ok(())
}

#[test]
fn a_fresh_group_has_the_number_that_was_asked_for(rt: HostRuntime) -> Result<(), Fail> {
    let alloc = rt.alloc();
    let mut pairs = PairList::new(alloc);
    add(alloc, &mut pairs, b"a", b"1")?;
    let mut disk = empty_disk(alloc)?;
    write_fresh(alloc, &mut disk, &head_of(1, 0), 7, &pairs)?;
    let groups = restore_groups(alloc, disk.bytes())?;
    let numbers = groups.as_slice().iter().map(|group| group.number);
    assert!(rt; numbers.eq([7]));
    let read = read_counted(alloc, disk, &[1], true, ALONE);
    assert!(rt; read.is_ok_and(|read| (read.count, read.next) == (1, 8)));
    Ok(())
}

#[test]
fn without_records_the_next_number_is_zero(rt: HostRuntime) -> Result<(), Fail> {
    let alloc = rt.alloc();
    let mut disk = empty_disk(alloc)?;
    write_fresh(alloc, &mut disk, &head_of(1, 0), 7, &PairList::new(alloc))?;
    let read = read_counted(alloc, disk, &[1], true, ALONE);
    assert!(rt; read.is_ok_and(|read| (read.count, read.next) == (0, 0)));
    Ok(())
}
