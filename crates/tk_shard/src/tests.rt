ghost use Rattle.std.specs.Prelude.{◌≡◌, ◌≤◌, [], true, false, IfOk};
ghost use Rattle.tk_disk.specs.MemDisk.{mem_bytes, mem_image, mem_past, MemMayLeave};
ghost use Rattle.tk_store.specs.Store.{IsWhole};
ghost use Rattle.tk_shard.specs.AnyStore.{any_constants, any_view, AnyStands};

use super::*;
use std::alloc::Global;
use std::test::Fail;
use tk_disk::MemDisk;
use tk_hash::HashStore;
use tk_mem::TinyStore;
use tk_model::{Bound, Bytes, ChangeList, FaultList, NoMemory, OpenError, Order, ShardOf};
use tk_proc::Setter;
use tk_store::{SeqStore, StoreError, run_on};

const ALONE: ShardOf = ShardOf { index: 0, of: 1 };

/// An empty disk that fails at these calls.
fn disk_of(alloc: Global, faults: &[u64]) -> Result<MemDisk, NoMemory>
    ensures { IfOk result (λ d. mem_bytes d ≡ []) }
{
    let faults = FaultList::from_vec(faults.to_vec(alloc)?);
    MemDisk::new(alloc, Bytes::new(alloc), 10_000_000, faults)
}

/// A new store of each kind, whose disk fails at these calls.
fn stores_of(
    alloc: Global,
    faults: &[u64],
) -> Result<(AnyStore<MemDisk>, AnyStore<MemDisk>), OpenError>
    ensures hash { IfOk result (λ r. IsWhole (AnyStands mem_image MemMayLeave mem_past) r.0
        × ((any_view mem_image r.0).closed ≡ false) × ((any_view mem_image r.0).floor ≤ 0)
        × ((any_constants r.0).writable ≡ true)) }
    ensures tiny { IfOk result (λ r. IsWhole (AnyStands mem_image MemMayLeave mem_past) r.1
        × ((any_view mem_image r.1).closed ≡ false) × ((any_view mem_image r.1).floor ≤ 0)
        × ((any_constants r.1).writable ≡ true)) }
{
    let hash = match HashStore::create_file(alloc, disk_of(alloc, faults)?, 4, 1 << 20, ALONE) {
        Ok(store) => AnyStore::Hash(store),
        Err(unopened) => return Err(unopened.cause),
    };
    let tiny = match TinyStore::load(alloc, disk_of(alloc, faults)?, true, 1 << 20, ALONE) {
        Ok(store) => AnyStore::Tiny(store),
        Err(unopened) => return Err(unopened.cause),
    };
    Ok((hash, tiny))
}

/// Sets a key, reads it back, and closes the store. The answer has the value's length and the number of records.
fn sets_one<S: SeqStore>(alloc: Global, store: &mut S) -> Result<(usize, u64), StoreError>
    requires whole { IsWhole S.stands store.old }
    requires open { (S.store_view store.old).closed ≡ false }
    requires writable { (S.constants store.old).writable ≡ true }
    requires floor { (S.store_view store.old).floor ≤ 0 }
{
    let mut setter = Setter::new(Bytes::from_slice(alloc, b"22")?);
    run_on(alloc, store, 0, b"a", &mut setter)?;
    let mut value = Bytes::new(alloc);
    store.get(b"a", &mut value)?;
    let mut room = [0; 2];
    store.get_into(b"a", &mut room)?;
    store.next(&Bound::Edge)?;
    store.prev(&Bound::Edge)?;
    store.check_group(&ChangeList::new(alloc))?;
    store.sync(false)?;
    let count = store.count();
    store.close(1)?;
    Ok((value.len(), count))
}

#[test]
fn each_kind_keeps_a_record(rt: HostRuntime) -> Result<(), Fail> {
    let alloc = rt.alloc();
    let (mut hash, mut tiny) = stores_of(alloc, &[])?;
    assert!(rt; hash.order() == Order::Hash && tiny.order() == Order::Hash);
    assert_eq!(rt; (hash.limit(), tiny.limit()), (1 << 20, 1 << 20));
    assert_eq!(rt; (hash.next_number(), tiny.next_number()), (0, 0));
    assert_eq!(rt; sets_one(alloc, &mut hash)?, (2, 1));
    assert_eq!(rt; sets_one(alloc, &mut tiny)?, (2, 1));
    assert_eq!(rt; (hash.faults(), tiny.faults()), (0, 0));
    assert_eq!(rt; tiny.size(), 17);
    Ok(())
}

#[test]
fn a_fault_is_told_by_each_kind(rt: HostRuntime) -> Result<(), Fail> {
    let alloc = rt.alloc();
    for call in 0..40 {
        let Ok((mut hash, mut tiny)) = stores_of(alloc, &[call]) else {
            continue;
        };
        let failed = sets_one(alloc, &mut hash) == Err(StoreError::Fault);
        assert_eq!(rt; failed, hash.faults() > 0);
        let failed = sets_one(alloc, &mut tiny) == Err(StoreError::Fault);
        assert_eq!(rt; failed, tiny.faults() > 0);
    }
    Ok(())
}
