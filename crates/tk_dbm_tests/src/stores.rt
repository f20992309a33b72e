//! Stores for tests.
ghost use Rattle.std.specs.Prelude.{◌≡◌, ◌≤◌, ◌^◌, true, IfOk};
ghost use Rattle.tk_disk.specs.MemDisk.{mem_image, mem_past, MemMayLeave};
ghost use Rattle.tk_hash.specs.Hash.{HashStands, hash_view, hash_constants};
ghost use Rattle.tk_dbm_tests.specs.Fixture.{IsOpened};

pub use crate::fixture::{LIMIT, tiny};
use std::alloc::Global;
use tk_disk::MemDisk;
use tk_hash::HashStore;
use tk_model::{Bytes, FaultList, OpenError, ShardOf};

/// How many calls of the disk make a new file.
pub const MAKING: u64 = 8;

const ALONE: ShardOf = ShardOf { index: 0, of: 1 };

/// A store over a new file, whose disk fails at these calls.
pub fn file(alloc: Global, limit: u64, faults: &[u64]) -> Result<HashStore<MemDisk>, OpenError>
    ensures opened { IfOk result (IsOpened (HashStands mem_image MemMayLeave mem_past)
        (hash_view mem_image)) }
    ensures floor { IfOk result (λ s. (hash_view mem_image s).floor ≡ 0) }
    ensures writable { IfOk result (λ s. (hash_constants s).writable ≡ true) }
{
    let mut list = FaultList::new(alloc);
    for call in faults {
        list.push(*call)?;
    }
    let disk = MemDisk::new(alloc, Bytes::new(alloc), 100_000_000, list)?;
    match HashStore::create_file(alloc, disk, 0, limit, ALONE) {
        Ok(store) => Ok(store),
        Err(unopened) => Err(unopened.cause),
    }
}

/// The store again, over its closed file.
pub fn again(
    alloc: Global,
    store: HashStore<MemDisk>,
    writable: bool,
) -> Result<HashStore<MemDisk>, OpenError>
    ensures opened { IfOk result (IsOpened (HashStands mem_image MemMayLeave mem_past)
        (hash_view mem_image)) }
    ensures floor { IfOk result (λ s. (hash_view mem_image s).floor ≡ (hash_constants s).next) }
    ensures writable { IfOk result (λ s. (hash_constants s).writable ≡ writable) }
    ensures next { IfOk result (λ s. writable ≡ true → (hash_constants s).next ≤ 2 ^ 62) }
{
    match HashStore::open_file(alloc, store.into_disk(), writable, LIMIT, ALONE) {
        Ok(store) => Ok(store),
        Err(unopened) => Err(unopened.cause),
    }
}
