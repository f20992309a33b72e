//! The number of records behind a group.
ghost use Rattle.std.specs.Prelude.{◌≡◌, ◌-◌, ◌≤◌, ◌<◌, List, [], length, take, IfOk, IfSome, OnOk, Some};
ghost use Rattle.std.specs.Option.{is_some};
ghost use Rattle.tk_disk.specs.Crash.{OnlyReads};
ghost use Rattle.tk_model.specs.Records.{after, after_one, find, replay, HasNoClear, Rising};
ghost use Rattle.tk_model.specs.declared.record.Order.TheVariants.{Hash};
ghost use Rattle.tk_model.specs.declared.record.Group.{Group};
ghost use Rattle.tk_model.specs.declared.record.Pair.{Pair as Record};
ghost use Rattle.tk_block.specs.Blocks.{key_of as key_in};
ghost use Rattle.tk_store.specs.Store.{HasCause, NeverFull};
ghost use Rattle.tk_append.specs.FileText.{IsFile};
ghost use Rattle.tk_hash.specs.Seek.{KnowsFile, KnowsKey};
ghost use Rattle.tk_hash.specs.Plan.{mark_in, told_there, TellThere};

use crate::found::FoundKey;
use crate::links::key_of;
use crate::seek::{HeldFile, has_key};
use std::alloc::Global;
use tk_disk::Disk;
use tk_model::{Bytes, Change, NoMemory, Pair};
use tk_store::{HashedRecords, StoreError};

/// What a change does to its key: a byte where the key is there behind it, and none where it is not.
fn mark_of(alloc: Global, change: &Change) -> Result<Pair, NoMemory>
    ensures { IfOk result (λ mark. mark ≡ mark_in change.now) }
{
    let key = Bytes::from_slice(alloc, key_of(change))?;
    let mut value = Bytes::new(alloc);
    if let Change::Put(_) = change {
        value.push(1)?;
    }
    Ok(Pair { key, value })
}

/// Adds the mark of the change before this place.
fn mark_before(
    alloc: Global,
    marks: &mut HashedRecords,
    changes: &[Change],
    at: usize,
) -> Result<(), NoMemory>
    requires at { at < length changes.now }
    requires alone { HasNoClear changes.now }
    requires marks { TellThere (take (at - 1) changes.now) marks.old }
    ensures { OnOk result (TellThere (take at changes.now) marks.new) }
{
    if at == 0 {
        return Ok(());
    }
    let mark = mark_of(alloc, &changes[at - 1])?;
    marks.put(mark)
}

/// Whether a key is there, by its mark, by the last look-up, or else by the file.
fn was_there<D: Disk>(
    disk: &mut D,
    file: &HeldFile,
    buffer: &mut [u8],
    marks: &HashedRecords,
    found: &FoundKey,
    key: &[u8],
) -> Result<bool, StoreError>
    requires p { file.now.head.p ≤ 24 }
    requires file { KnowsFile (D.image disk.old) file.now }
    requires found { KnowsKey (D.image disk.old) file.now.head found.now }
    requires buffer { 131072 ≤ length buffer.old }
    ensures value { (groups : List Group) → IfSome (D.image disk.old)
        (λ f. IsFile file.now.head f groups
        → IfOk result (λ there. there ≡ told_there (find key.now marks.now)
        (is_some (find key.now (replay Hash groups []))))) }
    ensures buffer { length buffer.new ≡ length buffer.old }
    ensures image { D.image disk.new ≡ D.image disk.old }
    ensures still { OnlyReads D.may_leave D.moment D.left_since D.past D.left_with
        disk.old disk.new }
    ensures taken { D.taken_count disk.old ≤ D.taken_count disk.new }
    ensures cause { HasCause (D.fault_count disk.old) (D.fault_count disk.new) result }
    ensures never { NeverFull result }
{
    match marks.get(key) {
        Some(mark) => Ok(!mark.is_empty()),
        None => match found.recall(key) {
            Some(there) => Ok(there),
            None => has_key(disk, file, buffer, key),
        },
    }
}

/// The number of records behind a change of a key that was there or not. What passes 64 bits is no number of records.
fn counted(count: u64, change: &Change, there: bool) -> Result<u64, NoMemory>
    ensures { (m : List Record) → Rising Hash m → count ≡ length m
        → there ≡ is_some (find (key_in change.now) m)
        → IfOk result (λ n. n ≡ length (after_one Hash change.now m)) }
{
    match change {
        Change::Put(_) if there => Ok(count),
        Change::Put(_) => match count.checked_add(1) {
            Some(more) => Ok(more),
            None => Err(NoMemory),
        },
        Change::Drop(_) if there => Ok(count.saturating_sub(1)),
        Change::Drop(_) => Ok(count),
        Change::Clear => Ok(0),
    }
}

/// A power of two, so that there are about as many buckets as marks.
fn buckets_for(number: usize) -> u8
    ensures { result ≤ 24 }
{
    (64 - (number / 2).leading_zeros()).min(24) as u8
}

/// The number of records behind changes of a file of so many.
pub(crate) fn count_changes<D: Disk>(
    alloc: Global,
    disk: &mut D,
    file: &HeldFile,
    count: u64,
    buffer: &mut [u8],
    found: &FoundKey,
    changes: &[Change],
) -> Result<u64, StoreError>
    requires p { file.now.head.p ≤ 24 }
    requires file { KnowsFile (D.image disk.old) file.now }
    requires found { KnowsKey (D.image disk.old) file.now.head found.now }
    requires buffer { 131072 ≤ length buffer.old }
    requires alone { HasNoClear changes.now }
    ensures count { (groups : List Group) → IfSome (D.image disk.old)
        (λ f. IsFile file.now.head f groups → count ≡ length (replay Hash groups [])
        → IfOk result (λ n. n ≡ length (after Hash changes.now (replay Hash groups [])))) }
    ensures buffer { length buffer.new ≡ length buffer.old }
    ensures image { D.image disk.new ≡ D.image disk.old }
    ensures still { OnlyReads D.may_leave D.moment D.left_since D.past D.left_with
        disk.old disk.new }
    ensures taken { D.taken_count disk.old ≤ D.taken_count disk.new }
    ensures cause { HasCause (D.fault_count disk.old) (D.fault_count disk.new) result }
    ensures never { NeverFull result }
{
    let mut marks = HashedRecords::new(alloc, buckets_for(changes.len()))?;
    let mut count = count;
    for i in 0..changes.len() {
        let change = &changes[i];
        mark_before(alloc, &mut marks, changes, i)?;
        let there = was_there(disk, file, buffer, &marks, found, key_of(change))?;
        count = counted(count, change, there)?;
    }
    Ok(count)
}
