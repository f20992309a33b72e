ghost use Rattle.std.specs.Prelude.{◌≡◌, ◌∷◌, [], length, IsTrue, IfOk};
ghost use Rattle.tk_model.specs.declared.record.Change.TheVariants.{Put, Drop};
ghost use Rattle.tk_disk.specs.MemDisk.{mem_bytes};
ghost use Rattle.tk_append.specs.LogParts.{log_disk, log_end};

use super::*;
use crate::tests::{ALONE, add as add_record, fresh_disk, head_of};
use std::alloc::Global;
use std::test::Fail;
use tk_block::LinkList;
use tk_disk::MemDisk;
use tk_model::{Bytes, Change, ChangeList, FaultList, Group, NoMemory, OpenError, Pair, PairList};

/// A set of one key, and a remove of another.
fn changes_of(alloc: Global, set: u8, removed: u8) -> Result<ChangeList, NoMemory>
    ensures { IfOk result (λ l. l ≡ Put (record { key = set ∷ []; value = set ∷ [] }) ∷ Drop
        (removed ∷ []) ∷ []) }
{
    let key = Bytes::from_slice(alloc, &[set])?;
    let value = Bytes::from_slice(alloc, &[set])?;
    let mut changes = ChangeList::new(alloc);
    changes.push(Change::Put(Pair { key, value }))?;
    changes.push(Change::Drop(Bytes::from_slice(alloc, &[removed])?))?;
    Ok(changes)
}

/// The disk ends where the log does.
fn is_level(log: &mut GroupLog<MemDisk>) -> bool
    ensures level { IsTrue result → length (mem_bytes (log_disk log.new)) ≡ log_end log.new }
    ensures end { log_end log.new ≡ log_end log.old }
{
    let end = log.end();
    log.disk().bytes().len() as u64 == end
}

/// Adds a group of two changes, with no links.
fn add(
    alloc: Global,
    log: &mut GroupLog<MemDisk>,
    number: u64,
    set: u8,
    removed: u8,
) -> Result<bool, Fail> {
    let changes = changes_of(alloc, set, removed)?;
    let mut links = LinkList::new(alloc);
    links.push(0)?;
    links.push(0)?;
    if log.end() > 10_000 || !is_level(log) {
        return Ok(false);
    }
    log.reserve_text(&changes, &links)?;
    log.append(number)?;
    Ok(true)
}

fn is_group(group: &Group, number: u64, set: u8, removed: u8) -> bool {
    match group.changes.as_slice() {
        [Change::Put(pair), Change::Drop(key)] => {
            group.number == number
                && pair.key.as_slice() == [set].as_slice()
                && pair.value.as_slice() == [set].as_slice()
                && key.as_slice() == [removed].as_slice()
        }
        _ => false,
    }
}

/// The groups are the first ones that the test adds.
fn is_front(groups: &[Group]) -> bool {
    for (i, group) in groups.iter().enumerate() {
        let is = match i {
            0 => is_group(group, 1, b'a', b'x'),
            1 => is_group(group, 2, b'b', b'a'),
            2 => is_group(group, 5, b'c', b'b'),
            _ => false,
        };
        if !is {
            return false;
        }
    }
    true
}

#[test]
fn each_crash_leaves_a_front(rt: HostRuntime) -> Result<(), Fail> {
    let alloc = rt.alloc();
    let opened = open_log(alloc, fresh_disk(alloc)?, true, ALONE);
    let mut log = opened.ok().expect(&rt, "a log");
    assert!(rt; add(alloc, &mut log, 1, b'a', b'x')?);
    log.sync_log(true)?;
    let end = log.end();
    assert!(rt; add(alloc, &mut log, 2, b'b', b'a')?);
    assert!(rt; add(alloc, &mut log, 5, b'c', b'b')?);
    let written = log.end().saturating_sub(end);
    assert_eq!(rt; written, 192);
    for keep in 0..=written {
        let image = log.disk().crash(alloc, keep)?;
        let groups = restore_groups(alloc, image.as_slice())?;
        // A group is whole once its last body is, three zero bytes before its end.
        let count = match keep {
            0..=92 => 1,
            93..=188 => 2,
            _ => 3,
        };
        assert_eq!(rt; groups.len(), count, "at {keep}");
        assert!(rt; is_front(groups.as_slice()), "at {keep}");
    }
    Ok(())
}

/// The disk of a fresh file of one record, whose writing failed at a call.
fn cut_short(alloc: Global, call: u64) -> Result<MemDisk, Fail> {
    let mut faults = FaultList::new(alloc);
    faults.push(call)?;
    let mut disk = MemDisk::new(alloc, Bytes::new(alloc), 10_000, faults)?;
    let mut pairs = PairList::new(alloc);
    add_record(alloc, &mut pairs, b"a", b"1")?;
    let _ = write_fresh(alloc, &mut disk, &head_of(1, 0), 0, &pairs);
    Ok(disk)
}

/// A file is no database, or it is whole.
fn is_none_or_whole(alloc: Global, bytes: Bytes) -> Result<bool, Fail> {
    let mut disk = MemDisk::new(alloc, bytes, 0, FaultList::new(alloc))?;
    match check_all(alloc, &mut disk, true, ALONE) {
        Ok(_) | Err(OpenError::NotADatabase) => Ok(true),
        Err(_) => Ok(false),
    }
}

#[test]
fn a_crash_leaves_no_half_of_a_fresh_file(rt: HostRuntime) -> Result<(), Fail> {
    let alloc = rt.alloc();
    // Zero bytes, heads and blocks, closing part, sync, header, sync, and no fault.
    for call in 0..7 {
        let disk = cut_short(alloc, call)?;
        for keep in 0..=230 {
            let image = disk.crash(alloc, keep)?;
            assert!(rt; is_none_or_whole(alloc, image)?, "call {call} at {keep}");
        }
    }
    Ok(())
}
