ghost use Rattle.std.specs.Prelude.{◌≡◌, ◌≤◌, true, false};
ghost use Rattle.tk_disk.specs.MemDisk.{mem_image, mem_past, MemMayLeave};
ghost use Rattle.tk_store.specs.Store.{IsWhole};
ghost use Rattle.tk_hash.specs.Hash.{hash_constants, hash_view, HashStands};

use crate::HashStore;
use crate::tests::{fresh, set, sync_hard};
use std::alloc::Global;
use std::test::Fail;
use tk_append::restore_groups;
use tk_disk::MemDisk;
use tk_model::{Change, Group};
use tk_store::StoreError;

/// Sets three records, each in a group of its own. The first is hard-synced.
fn three_groups(alloc: Global, store: &mut HashStore<MemDisk>) -> Result<(), StoreError>
    requires whole { IsWhole (HashStands mem_image MemMayLeave mem_past) store.old }
    requires open { (hash_view mem_image store.old).closed ≡ false }
    requires writable { (hash_constants store.old).writable ≡ true }
    requires number { (hash_view mem_image store.old).floor ≤ 0 }
{
    set(alloc, store, 1, b"a", b"1")?;
    sync_hard(store)?;
    set(alloc, store, 2, b"b", b"2")?;
    set(alloc, store, 5, b"a", b"3")?;
    Ok(())
}

fn is_set(group: &Group, number: u64, key: u8, value: u8) -> bool {
    match group.changes.as_slice() {
        [Change::Put(pair)] => {
            group.number == number
                && pair.key.as_slice() == [key].as_slice()
                && pair.value.as_slice() == [value].as_slice()
        }
        _ => false,
    }
}

/// The groups are the first ones that the test makes.
fn is_front(groups: &[Group]) -> bool {
    groups.iter().enumerate().all(|(i, group)| match i {
        0 => is_set(group, 1, b'a', b'1'),
        1 => is_set(group, 2, b'b', b'2'),
        2 => is_set(group, 5, b'a', b'3'),
        _ => false,
    })
}

/// What a crash leaves that kept so many bytes has so many of the groups.
fn is_left(alloc: Global, disk: &MemDisk, keep: u64, count: usize) -> Result<bool, Fail> {
    let image = disk.crash(alloc, keep)?;
    let groups = restore_groups(alloc, image.as_slice())?;
    Ok(groups.len() == count && is_front(groups.as_slice()))
}

#[test]
fn each_crash_leaves_a_front(rt: HostRuntime) -> Result<(), Fail> {
    let alloc = rt.alloc();
    let mut store = fresh(alloc, 0, 1 << 30, &[])?;
    let made = three_groups(alloc, &mut store);
    let disk = store.into_disk();
    made?;
    // Each group is a block of 48 bytes, of which the last two are padding, and then a head of 8.
    for keep in 0..=112 {
        let count = match keep {
            0..=45 => 1,
            46..=101 => 2,
            _ => 3,
        };
        assert!(rt; is_left(alloc, &disk, keep, count)?, "at {keep}");
    }
    Ok(())
}

#[test]
fn a_group_stands_before_its_heads(rt: HostRuntime) -> Result<(), Fail> {
    let alloc = rt.alloc();
    // Eight calls make the file, and then the group and its head are written: nothing is read.
    let mut store = fresh(alloc, 0, 1 << 30, &[9])?;
    let failed = set(alloc, &mut store, 0, b"a", b"1");
    assert_eq!(rt; store.into_disk().bytes().len(), 120);
    assert!(rt; failed.is_err());
    Ok(())
}
