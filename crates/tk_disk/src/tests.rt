ghost use Rattle.std.specs.Prelude.{◌≡◌, ◌≤◌, ◌^◌, length, IfSome, OnOk};
ghost use Rattle.tk_disk.specs.Past.{settled_on, with_write, with_cut};

use super::*;
use std::alloc::{AllocError, Global};
use std::fs;
use std::fs::File;
use std::test::Fail;
use tk_model::{Bytes, FaultList, NoMemory};

fn faults_at(alloc: Global, calls: &[u64]) -> Result<FaultList, AllocError> {
    Ok(FaultList::from_vec(calls.to_vec(alloc)?))
}

fn disk_of(alloc: Global, bytes: &[u8], room: u64, faults: &[u64]) -> Result<MemDisk, NoMemory> {
    let bytes = Bytes::from_slice(alloc, bytes)?;
    MemDisk::new(alloc, bytes, room, faults_at(alloc, faults)?)
}

#[test]
fn a_buffer_of_zeros(rt: HostRuntime) -> Result<(), Fail> {
    let bytes = zeros(rt.alloc(), 3)?;
    assert_eq!(rt; bytes.as_slice(), b"\0\0\0".as_slice());
    Ok(())
}

#[test]
fn a_disk_in_memory_reads_and_writes(rt: HostRuntime) -> Result<(), Fail> {
    let mut disk = disk_of(rt.alloc(), b"hello", 1000, &[])?;
    disk.write_at(0, b"J")?;
    disk.sync(false)?;
    assert_eq!(rt; disk.bytes(), b"Jello".as_slice());
    let mut into = [0; 8];
    assert_eq!(rt; disk.read_at(2, &mut into)?, 3);
    assert_eq!(rt; into.as_slice(), b"llo\0\0\0\0\0".as_slice());
    assert_eq!(rt; disk.read_at(9, &mut into)?, 0);
    assert_eq!(rt; disk.taken(), 3);
    assert!(rt; disk.bytes().len() >= 4);
    disk.cut(4)?;
    disk.sync(true)?;
    assert_eq!(rt; disk.len()?, 4);
    assert_eq!(rt; disk.bytes(), b"Jell".as_slice());
    assert_eq!(rt; disk.faults(), 0);
    Ok(())
}

/// What a disk is written behind a hard sync, by the calls of the trait.
fn settle_and_write<D: Disk>(disk: &mut D, bytes: &[u8]) -> Result<(), DiskError>
    requires { length bytes.now ≤ 2 ^ 40 }
    ensures past { IfSome (D.image disk.old) (λ f.
        OnOk result (D.past disk.new ≡ with_cut 0 (with_write 0 bytes.now (settled_on f)))) }
{
    disk.sync(true)?;
    disk.write_at(0, bytes)?;
    disk.cut(0)
}

#[test]
fn a_disk_in_memory_is_a_disk(rt: HostRuntime) -> Result<(), Fail> {
    let alloc = rt.alloc();
    let mut disk = disk_of(alloc, b"abcdef", 1000, &[])?;
    disk.write_at(0, b"XY")?;
    settle_and_write(&mut disk, b"Z")?;
    assert_eq!(rt; disk.crash(alloc, 0)?.as_slice(), b"XYcdef".as_slice());
    assert_eq!(rt; disk.len(), Ok(0));
    Ok(())
}

#[test]
fn a_crash_keeps_the_first_bytes(rt: HostRuntime) -> Result<(), Fail> {
    let alloc = rt.alloc();
    let mut disk = disk_of(alloc, b"abcdef", 1000, &[])?;
    disk.write_at(0, b"XY")?;
    disk.write_at(1, b"ZW")?;
    for (keep, image) in [
        (0, b"abcdef"),
        (1, b"Xbcdef"),
        (2, b"XYcdef"),
        (3, b"XZcdef"),
        (4, b"XZWdef"),
        (9, b"XZWdef"),
    ] {
        let left = disk.crash(alloc, keep)?;
        assert_eq!(rt; left.as_slice(), image.as_slice(), "at {keep}");
    }
    Ok(())
}

#[test]
fn a_crash_keeps_what_was_synced(rt: HostRuntime) -> Result<(), Fail> {
    let alloc = rt.alloc();
    let mut disk = disk_of(alloc, b"abcdef", 1000, &[])?;
    disk.write_at(0, b"XY")?;
    disk.sync(true)?;
    disk.write_at(1, b"Z")?;
    disk.cut(0)?;
    assert_eq!(rt; disk.crash(alloc, 0)?.as_slice(), b"XYcdef".as_slice());
    assert_eq!(rt; disk.crash(alloc, 1)?.as_slice(), b"".as_slice());
    Ok(())
}

#[test]
fn a_disk_in_memory_fails_by_its_list(rt: HostRuntime) -> Result<(), Fail> {
    let mut disk = disk_of(rt.alloc(), b"", 1000, &[1, 3, 5, 7, 9])?;
    let mut into = [0; 1];
    assert_eq!(rt; disk.len(), Ok(0));
    assert_eq!(rt; disk.len(), Err(DiskError::Fault));
    assert_eq!(rt; disk.read_at(0, &mut into), Ok(0));
    assert_eq!(rt; disk.read_at(0, &mut into), Err(DiskError::Fault));
    assert_eq!(rt; disk.write_at(0, b"a"), Ok(()));
    assert_eq!(rt; disk.write_at(0, b"b"), Err(DiskError::Fault));
    assert_eq!(rt; disk.sync(true), Ok(()));
    assert_eq!(rt; disk.sync(true), Err(DiskError::Fault));
    assert_eq!(rt; disk.cut(0), Ok(()));
    assert_eq!(rt; disk.cut(0), Err(DiskError::Fault));
    assert_eq!(rt; disk.faults(), 5);
    Ok(())
}

#[test]
fn a_disk_in_memory_fails_by_its_room(rt: HostRuntime) -> Result<(), Fail> {
    let mut disk = disk_of(rt.alloc(), b"", 200, &[])?;
    assert_eq!(rt; disk.write_at(0, b"12345678"), Ok(()));
    assert_eq!(rt; disk.sync(false), Ok(()));
    assert_eq!(rt; disk.write_at(0, b"x"), Err(DiskError::Fault));
    assert_eq!(rt; disk.write_at(0, b""), Ok(()));
    assert_eq!(rt; disk.sync(true), Err(DiskError::Fault));
    assert_eq!(rt; disk.len(), Ok(8));
    assert_eq!(rt; disk.faults(), 2);
    Ok(())
}

#[test]
fn a_folder_in_memory_keeps_disks(rt: HostRuntime) -> Result<(), Fail> {
    let alloc = rt.alloc();
    let mut folder = MemFolder::new(alloc, 1000, faults_at(alloc, &[])?);
    assert!(rt; folder.take("a", false)?.is_none());
    assert!(rt; folder.bytes("a").is_none());
    let mut disk = folder.take("a", true)?.expect(&rt, "a new disk");
    disk.write_at(0, b"one")?;
    folder.give("a", disk)?;
    assert_eq!(rt; folder.bytes("a"), Some(b"one".as_slice()));
    let disk = folder.take("a", false)?.expect(&rt, "the disk");
    assert_eq!(rt; disk.bytes(), b"one".as_slice());
    folder.give("a", disk)?;
    folder.add("a", disk_of(alloc, b"two", 1000, &[])?)?;
    assert_eq!(rt; folder.bytes("a"), Some(b"two".as_slice()));
    assert_eq!(rt; folder.faults(), 0);
    Ok(())
}

#[test]
fn a_folder_in_memory_fails_by_its_list(rt: HostRuntime) -> Result<(), Fail> {
    let alloc = rt.alloc();
    let mut folder = MemFolder::new(alloc, 1000, faults_at(alloc, &[0, 2])?);
    let refused = folder.take("a", true);
    assert!(rt; matches!(&refused, Err(DiskError::Fault)));
    let disk = folder.take("a", true)?.expect(&rt, "a new disk");
    assert_eq!(rt; folder.give("a", disk), Err(DiskError::Fault));
    assert_eq!(rt; folder.bytes("a"), Some(b"".as_slice()));
    assert_eq!(rt; folder.faults(), 2);
    Ok(())
}

#[test]
fn a_file_is_a_disk(rt: HostRuntime) -> Result<(), Fail> {
    let name = "a_file_is_a_disk.tmp";
    let mut disk = FileDisk::new(File::create_new(&rt, name)?);
    disk.write_at(0, b"hello")?;
    disk.write_at(5, b" world")?;
    let mut into = [0; 8];
    assert_eq!(rt; disk.read_at(6, &mut into)?, 5);
    assert_eq!(rt; into.as_slice(), b"world\0\0\0".as_slice());
    disk.cut(4)?;
    disk.sync(true)?;
    disk.sync(false)?;
    assert_eq!(rt; disk.len()?, 4);
    assert_eq!(rt; disk.taken(), 5);
    assert_eq!(rt; disk.faults(), 0);
    fs::remove_file(&rt, name)?;
    Ok(())
}

#[test]
fn a_file_that_is_not_open_for_writing_is_a_fault(rt: HostRuntime) -> Result<(), Fail> {
    let name = "a_file_for_reading.tmp";
    fs::write(&rt, name, "text")?;
    let mut disk = FileDisk::new(File::open(&rt, name)?);
    assert_eq!(rt; disk.write_at(0, b"x"), Err(DiskError::Fault));
    assert_eq!(rt; disk.cut(0), Err(DiskError::Fault));
    assert_eq!(rt; disk.len(), Ok(4));
    assert_eq!(rt; disk.faults(), 2);
    fs::remove_file(&rt, name)?;
    Ok(())
}

#[test]
fn a_directory_is_a_folder(rt: HostRuntime) -> Result<(), Fail> {
    let name = "a_directory_is_a_folder.tmp";
    let mut folder = DirFolder::new(&rt, rt.alloc(), ".")?;
    assert!(rt; folder.take(name, false)?.is_none());
    let mut disk = folder.take(name, true)?.expect(&rt, "a new file");
    assert_eq!(rt; disk.len(), Ok(0));
    disk.write_at(0, b"kept")?;
    disk.sync(true)?;
    folder.give(name, disk)?;
    let mut disk = folder.take(name, true)?.expect(&rt, "the file");
    let mut into = [0; 4];
    assert_eq!(rt; disk.read_at(0, &mut into)?, 4);
    assert_eq!(rt; into.as_slice(), b"kept".as_slice());
    folder.give(name, disk)?;
    fs::remove_file(&rt, name)?;
    Ok(())
}

#[test]
fn a_directory_is_no_file(rt: HostRuntime) -> Result<(), Fail> {
    let mut folder = DirFolder::new(&rt, rt.alloc(), "/")?;
    let refused = folder.take("tmp", true);
    assert!(rt; matches!(&refused, Err(DiskError::Fault)));
    assert_eq!(rt; folder.faults(), 1);
    Ok(())
}
