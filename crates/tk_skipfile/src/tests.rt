ghost use Rattle.std.specs.Prelude.{◌≡◌, ◌∷◌, ◌++◌, [], IfOk, OnOk};
ghost use Rattle.tk_disk.specs.MemDisk.{mem_bytes};

use super::*;
use std::alloc::Global;
use std::test::Fail;
use tk_disk::{DiskError, MemDisk};
use tk_model::{Bytes, FaultList, NoMemory, Pair, PairList, fnv32};

fn empty_disk(alloc: Global, faults: FaultList) -> Result<MemDisk, NoMemory>
    ensures { IfOk result (λ d. mem_bytes d ≡ []) }
{
    MemDisk::new(alloc, Bytes::new(alloc), 1_000_000, faults)
}

fn add(alloc: Global, pairs: &mut PairList, key: &[u8], value: &[u8]) -> Result<(), NoMemory>
    ensures { OnOk result (pairs.new ≡ pairs.old ++ record { key = key.now; value = value.now }
        ∷ []) }
{
    let key = Bytes::from_slice(alloc, key)?;
    let value = Bytes::from_slice(alloc, value)?;
    pairs.push(Pair { key, value })
}

/// The length of what the disk holds, and its hash.
fn sum_of(disk: &MemDisk) -> (usize, u32) {
    let bytes = disk.bytes();
    (bytes.len(), fnv32(bytes))
}

#[test]
fn no_record(rt: HostRuntime) -> Result<(), Fail> {
    let alloc = rt.alloc();
    let pairs = PairList::new(alloc);
    let mut disk = empty_disk(alloc, FaultList::new(alloc))?;
    write_skip(alloc, &mut disk, 7, &pairs)?;
    assert_eq!(rt; sum_of(&disk), (32, 0x55e9cfac));
    Ok(())
}

#[test]
fn one_record(rt: HostRuntime) -> Result<(), Fail> {
    let alloc = rt.alloc();
    let mut pairs = PairList::new(alloc);
    add(alloc, &mut pairs, b"a", b"1")?;
    assert!(rt; fits_skip(&pairs));
    let mut disk = empty_disk(alloc, FaultList::new(alloc))?;
    write_skip(alloc, &mut disk, 7, &pairs)?;
    let text =
        b"TKPSKIP\n\x01\x04\0\0\0\0\0\0\0\0\0\x01\0\0\0\0\0\0\0\x07\x5d\xf0\x2b\x78\0\x01\0\0\0\x01a1\xda\xca\x36\xcf";
    assert!(rt; disk.bytes() == text.as_slice());
    Ok(())
}

#[test]
fn five_records_with_a_link(rt: HostRuntime) -> Result<(), Fail> {
    let alloc = rt.alloc();
    let mut pairs = PairList::new(alloc);
    add(alloc, &mut pairs, b"a", b"")?;
    add(alloc, &mut pairs, b"b", b"v")?;
    add(alloc, &mut pairs, b"c", b"vv")?;
    add(alloc, &mut pairs, b"d", b"")?;
    add(alloc, &mut pairs, b"e", b"v")?;
    assert!(rt; fits_skip(&pairs));
    let mut disk = empty_disk(alloc, FaultList::new(alloc))?;
    write_skip(alloc, &mut disk, 7, &pairs)?;
    assert_eq!(rt; sum_of(&disk), (107, 0x82c26853));
    Ok(())
}

#[test]
fn a_fault_at_the_header_leaves_none(rt: HostRuntime) -> Result<(), Fail> {
    let alloc = rt.alloc();
    let pairs = PairList::new(alloc);
    let mut faults = FaultList::new(alloc);
    faults.push(3)?;
    let mut disk = empty_disk(alloc, faults)?;
    assert!(rt; write_skip(alloc, &mut disk, 7, &pairs) == Err(DiskError::Fault));
    assert!(rt; !disk.bytes().starts_with(b"TKPSKIP\n"));
    Ok(())
}

#[test]
fn seventeen_records_on_three_levels(rt: HostRuntime) -> Result<(), Fail> {
    let alloc = rt.alloc();
    let mut pairs = PairList::new(alloc);
    add(alloc, &mut pairs, b"a", b"")?;
    add(alloc, &mut pairs, b"b", b"v")?;
    add(alloc, &mut pairs, b"c", b"vv")?;
    add(alloc, &mut pairs, b"d", b"")?;
    add(alloc, &mut pairs, b"e", b"v")?;
    add(alloc, &mut pairs, b"f", b"vv")?;
    add(alloc, &mut pairs, b"g", b"")?;
    add(alloc, &mut pairs, b"h", b"v")?;
    add(alloc, &mut pairs, b"i", b"vv")?;
    add(alloc, &mut pairs, b"j", b"")?;
    add(alloc, &mut pairs, b"k", b"v")?;
    add(alloc, &mut pairs, b"l", b"vv")?;
    add(alloc, &mut pairs, b"m", b"")?;
    add(alloc, &mut pairs, b"n", b"v")?;
    add(alloc, &mut pairs, b"o", b"vv")?;
    add(alloc, &mut pairs, b"p", b"")?;
    add(alloc, &mut pairs, b"q", b"v")?;
    assert!(rt; fits_skip(&pairs));
    let mut disk = empty_disk(alloc, FaultList::new(alloc))?;
    write_skip(alloc, &mut disk, 7, &pairs)?;
    assert_eq!(rt; sum_of(&disk), (291, 0x35b9b839));
    Ok(())
}

#[test]
fn four_records_on_one_level(rt: HostRuntime) -> Result<(), Fail> {
    let alloc = rt.alloc();
    let mut pairs = PairList::new(alloc);
    add(alloc, &mut pairs, b"a", b"")?;
    add(alloc, &mut pairs, b"b", b"v")?;
    add(alloc, &mut pairs, b"c", b"vv")?;
    add(alloc, &mut pairs, b"d", b"")?;
    assert!(rt; fits_skip(&pairs));
    let mut disk = empty_disk(alloc, FaultList::new(alloc))?;
    write_skip(alloc, &mut disk, 7, &pairs)?;
    assert_eq!(rt; sum_of(&disk), (79, 0xc416b1cd));
    Ok(())
}

#[test]
fn sixteen_records_on_two_levels(rt: HostRuntime) -> Result<(), Fail> {
    let alloc = rt.alloc();
    let mut pairs = PairList::new(alloc);
    add(alloc, &mut pairs, b"a", b"")?;
    add(alloc, &mut pairs, b"b", b"v")?;
    add(alloc, &mut pairs, b"c", b"vv")?;
    add(alloc, &mut pairs, b"d", b"")?;
    add(alloc, &mut pairs, b"e", b"v")?;
    add(alloc, &mut pairs, b"f", b"vv")?;
    add(alloc, &mut pairs, b"g", b"")?;
    add(alloc, &mut pairs, b"h", b"v")?;
    add(alloc, &mut pairs, b"i", b"vv")?;
    add(alloc, &mut pairs, b"j", b"")?;
    add(alloc, &mut pairs, b"k", b"v")?;
    add(alloc, &mut pairs, b"l", b"vv")?;
    add(alloc, &mut pairs, b"m", b"")?;
    add(alloc, &mut pairs, b"n", b"v")?;
    add(alloc, &mut pairs, b"o", b"vv")?;
    add(alloc, &mut pairs, b"p", b"")?;
    assert!(rt; fits_skip(&pairs));
    let mut disk = empty_disk(alloc, FaultList::new(alloc))?;
    write_skip(alloc, &mut disk, 7, &pairs)?;
    assert_eq!(rt; sum_of(&disk), (255, 0x58fca801));
    Ok(())
}
