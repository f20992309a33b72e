ghost use Rattle.std.specs.Prelude.{◌≡◌, IfOk, length};
ghost use Rattle.tk_disk.specs.MemDisk.{mem_bytes};

use super::*;
use std::alloc::Global;
use std::test::Fail;
use tk_block::{Block, StaticHead, write_block};
use tk_disk::{Disk, MemDisk};
use tk_model::{Bytes, FaultList, NoMemory};

/// The header of a file with one bucket.
fn one_bucket() -> StaticHead
    ensures { result.p ≡ 0 }
{
    StaticHead {
        kind: 2,
        version: 1,
        p: 0,
        order: 0,
        generation: 0,
    }
}

/// A disk of zeros.
fn zeros(alloc: Global) -> Result<MemDisk, NoMemory>
    ensures { IfOk result (λ d. length (mem_bytes d) ≡ 168) }
{
    let mut bytes = Bytes::new(alloc);
    bytes.extend_zeros(168)?;
    MemDisk::new(alloc, bytes, 1000, FaultList::new(alloc))
}

/// A disk with 72 as the head at 64, this link at 88, and zeros.
fn disk_of(alloc: Global, link: u64) -> Result<MemDisk, NoMemory> {
    let mut bytes = Bytes::new(alloc);
    bytes.extend_zeros(71)?;
    bytes.push(72)?;
    bytes.extend_zeros(16)?;
    bytes.extend(&link.to_be_bytes())?;
    bytes.extend_zeros(72)?;
    MemDisk::new(alloc, bytes, 1000, FaultList::new(alloc))
}

#[test]
fn two_blocks(rt: HostRuntime) -> Result<(), Fail> {
    let alloc = rt.alloc();
    let mut disk = disk_of(alloc, 120)?;
    let len = disk.len()?;
    let places = chain(alloc, &mut disk, 72, len)?;
    assert_eq!(rt; places.as_slice(), [72, 120].as_slice());
    Ok(())
}

#[test]
fn links_that_go_round(rt: HostRuntime) -> Result<(), Fail> {
    let alloc = rt.alloc();
    let mut disk = disk_of(alloc, 72)?;
    let len = disk.len()?;
    let places = chain(alloc, &mut disk, 72, len)?;
    assert_eq!(rt; places.as_slice(), [72, 72, 72].as_slice());
    Ok(())
}

#[test]
fn a_block_in_front(rt: HostRuntime) -> Result<(), Fail> {
    let alloc = rt.alloc();
    let mut disk = zeros(alloc)?;
    insert(&mut disk, &one_bucket(), 0, 120)?;
    let len = disk.len()?;
    let first = number_at(&mut disk, 64)?;
    let places = chain(alloc, &mut disk, first, len)?;
    assert_eq!(rt; places.as_slice(), [120].as_slice());
    Ok(())
}

/// A set block's body.
fn set<'a>(key: &'a [u8], value: &'a [u8]) -> Block<'a>
    ensures key { result.key.now ≡ key.now }
    ensures value { result.value.now ≡ value.now }
{
    Block {
        kind: 1,
        last: true,
        number: 0,
        key,
        value,
    }
}

/// A disk with blocks of `a`, at 72, and `b`, at 120, of which the first links to this place and the other to none.
fn two_keys(alloc: Global, link: u64) -> Result<MemDisk, NoMemory> {
    let mut bytes = Bytes::new(alloc);
    bytes.extend_zeros(71)?;
    bytes.push(72)?;
    write_block(set(b"a", b"1"), 72, link, &mut bytes)?;
    write_block(set(b"b", b"22"), 120, 0, &mut bytes)?;
    MemDisk::new(alloc, bytes, 1000, FaultList::new(alloc))
}

#[test]
fn a_key_behind_a_link_upwards(rt: HostRuntime) -> Result<(), Fail> {
    let mut disk = two_keys(rt.alloc(), 120)?;
    let len = disk.len()?;
    let mut buffer = [0; 48];
    let found = find_block(&mut disk, 72, len, &mut buffer, b"b")?.ok_or("no block")?;
    assert_eq!(rt; found.place, 120);
    assert_eq!(rt; found.extent, 48);
    assert_eq!(rt; found.kind, 1);
    assert_eq!(rt; found.value_len, 2);
    assert_eq!(rt; &buffer[41..43], b"22".as_slice());
    assert_eq!(rt; disk.taken(), 96);
    Ok(())
}

#[test]
fn a_key_in_no_block(rt: HostRuntime) -> Result<(), Fail> {
    let mut disk = two_keys(rt.alloc(), 120)?;
    let len = disk.len()?;
    let mut buffer = [0; 48];
    assert!(rt; find_block(&mut disk, 72, len, &mut buffer, b"c")?.is_none());
    assert!(rt; find_block(&mut disk, 120, len, &mut buffer, b"a")?.is_none());
    assert!(rt; find_block(&mut disk, 0, len, &mut buffer, b"a")?.is_none());
    assert_eq!(rt; disk.taken(), 144);
    Ok(())
}

#[test]
fn a_key_where_links_go_round(rt: HostRuntime) -> Result<(), Fail> {
    let mut disk = two_keys(rt.alloc(), 72)?;
    let len = disk.len()?;
    let mut buffer = [0; 48];
    assert!(rt; find_block(&mut disk, 72, len, &mut buffer, b"b")?.is_none());
    assert_eq!(rt; disk.taken(), 144);
    Ok(())
}
