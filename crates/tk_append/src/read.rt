ghost use Rattle.std.specs.Prelude.{◌≡◌, ◌≤◌, ◌<◌, ◌^◌, ◌==◌, true, IfOk, IfErr, IfSome};
ghost use Rattle.std.specs.List.{list_any};
ghost use Rattle.tk_disk.specs.Crash.{OnlyReads};
ghost use Rattle.tk_model.specs.declared.error.OpenError.TheVariants as OpenError;
ghost use Rattle.tk_disk.specs.Disk.{Rose};
ghost use Rattle.tk_append.specs.Opening.{first_fault};
ghost use Rattle.tk_append.specs.Log.{Tells};
ghost use Rattle.tk_append.specs.LogParts.{log_disk, log_head};
ghost use Rattle.tk_append.specs.Counted.{HasCounted};

use crate::check::{FoundHeads, check_disk};
use crate::log::GroupLog;
use std::alloc::Global;
use tk_disk::Disk;
use tk_model::{ShardOf, Unopened};

/// The log of a file that was read, with the newest block of each bucket, the number of its records and its next number.
#[derive(Drop)]
pub struct CountedLog<D: Disk> {
    pub log: GroupLog<D>,
    pub heads: Vec<u64>,
    pub count: u64,
    pub next: u64,
}

/// Reads and checks a whole file, and counts its records. The disk is handed back where it is refused.
pub fn read_counted<D: Disk>(
    alloc: Global,
    disk: D,
    kinds: &[u8],
    writable: bool,
    shard: ShardOf,
) -> Result<CountedLog<D>, Unopened<D>>
    requires shard { shard.index < shard.of }
    ensures exact { IfSome (D.image disk)
        (λ f. Tells result (first_fault kinds.now writable shard f)) }
    ensures found { IfOk result (HasCounted D.image disk shard) }
    ensures kind { IfOk result (λ r. list_any (λ k. k == (log_head r.log).kind) kinds.now ≡ true) }
    ensures last { IfOk result (λ r. writable ≡ true → r.next ≤ 2 ^ 62) }
    ensures image { IfOk result (λ r. D.image (log_disk r.log) ≡ D.image disk) }
    ensures back { IfErr result (λ u. D.image u.disk ≡ D.image disk) }
    ensures still { IfOk result (λ r. OnlyReads D.may_leave D.moment D.left_since D.past D.left_with
        disk (log_disk r.log)) }
    ensures back_still { IfErr result (λ u. OnlyReads D.may_leave D.moment D.left_since D.past
        D.left_with disk u.disk) }
    ensures counted { IfOk result (λ r. D.fault_count (log_disk r.log) ≡ D.fault_count disk) }
    ensures later { IfErr result (λ u. D.fault_count disk ≤ D.fault_count u.disk) }
    ensures cause { IfErr result (λ u. u.cause ≡ OpenError.Fault → Rose (D.fault_count disk)
        (D.fault_count u.disk)) }
{
    let mut disk = disk;
    match check_disk(alloc, &mut disk, kinds, writable, shard) {
        Ok(FoundHeads { found, heads }) => Ok(CountedLog {
            log: GroupLog::of(alloc, disk, found.head, found.closing.size),
            heads,
            count: found.closing.count,
            next: found.closing.next,
        }),
        Err(cause) => Err(Unopened { cause, disk }),
    }
}
