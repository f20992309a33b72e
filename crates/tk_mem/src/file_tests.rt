ghost use Rattle.std.specs.Prelude.{◌≡◌, ◌≤◌, ◌<◌, ◌+◌, length, true, false, IfOk, OnOk};
ghost use Rattle.tk_disk.specs.MemDisk.{mem_bytes, mem_image, MemMayLeave};
ghost use Rattle.tk_store.specs.Store.{IsWhole};
ghost use Rattle.tk_mem.specs.TinyStored.{stored_constants, stored_view, StoredStands};

use super::*;
use crate::tests::{apply, setting};
use std::alloc::Global;
use std::test::Fail;
use tk_disk::{Disk, MemDisk};
use tk_model::{Bytes, FaultList, NoMemory, OpenError, Pair, ShardOf, mix, shard};
use tk_store::{HashedRecords, SeqStore, StoreError};

const ALONE: ShardOf = ShardOf { index: 0, of: 1 };

/// The file of b and a, in the order of their hashes.
const TWO: [u8; 25] = *b"TKPFLAT\n\0\x01\0\0\0\x02b22\0\x01\0\0\0\x01a1";

/// A disk of these bytes that fails at these calls.
fn disk_of(alloc: Global, bytes: &[u8], faults: &[u64]) -> Result<MemDisk, NoMemory>
    ensures { IfOk result (λ d. mem_bytes d ≡ bytes.now) }
{
    let bytes = Bytes::from_slice(alloc, bytes)?;
    let faults = FaultList::from_vec(faults.to_vec(alloc)?);
    MemDisk::new(alloc, bytes, 10_000_000, faults)
}

/// A store over the file of these bytes, whose disk fails at these calls.
fn loaded(alloc: Global, bytes: &[u8], faults: &[u64]) -> Result<TinyStore<MemDisk>, OpenError>
    ensures whole { IfOk result (IsWhole (StoredStands mem_image MemMayLeave)) }
    ensures open { IfOk result (λ s. (stored_view s).closed ≡ false) }
    ensures writable { IfOk result (λ s. (stored_constants s).writable ≡ true) }
    ensures floor { IfOk result (λ s. (stored_view s).floor ≤ 0) }
{
    let disk = disk_of(alloc, bytes, faults)?;
    match TinyStore::load(alloc, disk, true, u64::MAX, ALONE) {
        Ok(store) => Ok(store),
        Err(unopened) => Err(unopened.cause),
    }
}

/// Why a file is refused, where it is.
fn refusal(
    alloc: Global,
    bytes: &[u8],
    writable: bool,
    of: ShardOf,
) -> Result<Option<OpenError>, NoMemory>
    requires { of.index < of.of }
{
    let disk = disk_of(alloc, bytes, &[])?;
    match TinyStore::load(alloc, disk, writable, u64::MAX, of) {
        Ok(_) => Ok(None),
        Err(unopened) => Ok(Some(unopened.cause)),
    }
}

/// Sets two keys, and closes the store.
fn sets_two<S: SeqStore>(alloc: Global, store: &mut S) -> Result<(), StoreError>
    requires whole { IsWhole S.stands store.old }
    requires open { (S.store_view store.old).closed ≡ false }
    requires writable { (S.constants store.old).writable ≡ true }
    requires floor { (S.store_view store.old).floor ≤ 0 }
{
    let changes = setting(alloc, b"a", b"1")?;
    apply(store, 0, &changes)?;
    let changes = setting(alloc, b"b", b"22")?;
    apply(store, 1, &changes)?;
    store.close(2)
}

#[test]
fn closed_and_loaded(rt: HostRuntime) -> Result<(), Fail> {
    let alloc = rt.alloc();
    let mut store = loaded(alloc, b"", &[])?;
    sets_two(alloc, &mut store)?;
    assert_eq!(rt; (store.size(), store.faults()), (25, 0));
    let disk = store.into_disk();
    assert!(rt; disk.bytes() == TWO.as_slice());
    let mut store = loaded(alloc, disk.bytes(), &[])?;
    let mut value = Bytes::new(alloc);
    assert!(rt; store.get(b"b", &mut value)?);
    assert!(rt; value.as_slice() == b"22".as_slice());
    assert_eq!(rt; (store.count(), store.size(), store.taken()), (2, 25, 25));
    Ok(())
}

#[test]
fn refused_at_each_record(rt: HostRuntime) -> Result<(), Fail> {
    let alloc = rt.alloc();
    for end in 0..25 {
        let cause = match end {
            0 | 8 | 17 => None,
            1..8 => Some(OpenError::NotADatabase),
            9..17 => Some(OpenError::BrokenAt(8)),
            _ => Some(OpenError::BrokenAt(17)),
        };
        assert!(rt;
            refusal(alloc, &TWO[..end], true, ALONE)? == cause,
            "cut at {end}"
        );
    }
    assert!(rt; refusal(alloc, b"", false, ALONE)? == Some(OpenError::NotADatabase));
    let mut turned = TWO;
    turned[14] = b'a';
    turned[23] = b'b';
    assert!(rt; refusal(alloc, &turned, true, ALONE)? == Some(OpenError::BrokenAt(17)));
    turned[23] = b'a';
    assert!(rt; refusal(alloc, &turned, true, ALONE)? == Some(OpenError::BrokenAt(17)));
    Ok(())
}

#[test]
fn refused_in_another_shard(rt: HostRuntime) -> Result<(), Fail> {
    let alloc = rt.alloc();
    let (a, b) = (shard(mix(b"a"), 7), shard(mix(b"b"), 7));
    let of_b = refusal(alloc, &TWO, true, ShardOf { index: b, of: 7 })?;
    assert!(rt; a != b && of_b == Some(OpenError::BrokenAt(17)));
    let of_a = refusal(alloc, &TWO, true, ShardOf { index: a, of: 7 })?;
    assert!(rt; of_a == Some(OpenError::BrokenAt(8)));
    Ok(())
}

/// The answer of closing a store over the two records, whose disk fails at a call.
fn closing(alloc: Global, call: u64) -> Result<Result<(), StoreError>, OpenError> {
    let mut store = loaded(alloc, &TWO, &[call])?;
    Ok(store.close(0))
}

#[test]
fn failing_disks(rt: HostRuntime) -> Result<(), Fail> {
    let alloc = rt.alloc();
    for call in 0..3 {
        assert!(rt; matches!(loaded(alloc, &TWO, &[call]), Err(OpenError::Fault)));
    }
    for call in 3..6 {
        assert!(rt;
            closing(alloc, call)? == Err(StoreError::Fault),
            "call {call}"
        );
    }
    assert!(rt; closing(alloc, 6)? == Ok(()));
    Ok(())
}

/// Puts records that are numbered into a table.
fn many(alloc: Global, count: u64) -> Result<HashedRecords, NoMemory> {
    let mut records = HashedRecords::new(alloc, 4)?;
    for i in 0..count {
        let key = Bytes::from_slice(alloc, &i.to_be_bytes())?;
        let value = Bytes::from_slice(alloc, &i.to_le_bytes())?;
        records.widen()?;
        records.put(Pair { key, value })?;
    }
    Ok(records)
}

/// The flat text of records whose keys and values have eight bytes.
fn text_of(alloc: Global, records: &HashedRecords) -> Result<Bytes, NoMemory> {
    let mut text = Bytes::from_slice(alloc, b"TKPFLAT\n")?;
    let mut rest = records.pairs();
    for _ in 0..records.len() {
        let Some((pair, behind)) = rest.split_first() else {
            return Ok(text);
        };
        text.extend(&[0, 8, 0, 0, 0, 8])?;
        text.extend(pair.key.as_slice())?;
        text.extend(pair.value.as_slice())?;
        rest = behind;
    }
    Ok(text)
}

#[test]
fn closed_as_it_was(rt: HostRuntime) -> Result<(), Fail> {
    let alloc = rt.alloc();
    let records = many(alloc, 100_000)?;
    let text = text_of(alloc, &records)?;
    let mut store = loaded(alloc, text.as_slice(), &[])?;
    assert_eq!(rt; (store.count(), store.size()), (100_000, 2_200_008));
    store.close(0)?;
    assert!(rt; store.into_disk().bytes() == text.as_slice());
    Ok(())
}
