ghost use Rattle.std.specs.Prelude.{◌≡◌, ◌≢◌, ◌≤◌, ◌<◌, ◌==◌, ◌∷◌, [], ℕ, true, false, List, Some, IfOk, IfErr, IfSome, OnOk};
ghost use Rattle.std.specs.List.{list_any};
ghost use Rattle.std.specs.Option.{is_some, option_map};
ghost use Rattle.tk_model.specs.declared.record.Group.{Group};
ghost use Rattle.tk_model.specs.declared.error.OpenError.TheVariants as OpenError;
ghost use Rattle.tk_disk.specs.Crash.{Torn, Follows, Within, Only, LeavesOnly, OnlyReads, PastOnly};
ghost use Rattle.tk_disk.specs.Disk.{Rose, HasCause};
ghost use Rattle.tk_disk.specs.Past.{settled_on};
ghost use Rattle.tk_block.specs.Sizes.{closing_place, closing_size};
ghost use Rattle.tk_block.specs.Text.{static_at};
ghost use Rattle.tk_append.specs.Opening.{first_fault};
ghost use Rattle.tk_append.specs.Log.{Tells};
ghost use Rattle.tk_append.specs.LogParts.{log_disk, log_head, with_closing, open_mark, Stands};
ghost use Rattle.tk_append.specs.LogPasts.{Marks};
ghost use Rattle.tk_append.specs.Read.{HasOpenCause, TellsResult};
ghost use Rattle.tk_append.specs.Opened.{HasOpened};

use crate::check::check_disk;
use crate::log::GroupLog;
use crate::read::{CountedLog, read_counted};
use std::alloc::Global;
use tk_block::StaticHead;
use tk_disk::{Disk, DiskError};
use tk_model::{OpenError, ShardOf, Unopened};

/// Makes it durable that a file that is to be written is open.
#[tactic(auto, using(crate::proofs::Readings::untorn))]
fn begin<D: Disk>(log: &mut GroupLog<D>, writable: bool) -> Result<(), DiskError>
    requires groups { (groups : List Group) × Stands D.image log.old groups }
    ensures stands { (groups : List Group) → Stands D.image log.old groups
        → OnOk result (Stands D.image log.new groups) }
    ensures head { log_head log.new ≡ log_head log.old }
    ensures reads { writable ≡ false → D.image (log_disk log.new) ≡ D.image (log_disk log.old) }
    ensures marked { writable ≡ true → OnOk result (D.image (log_disk log.new) ≡ option_map
        (with_closing open_mark) (D.image (log_disk log.old))) }
    ensures told { is_some (D.image (log_disk log.new)) ≡ is_some (D.image (log_disk log.old)) }
    ensures cause { HasCause (D.fault_count (log_disk log.old)) (D.fault_count (log_disk log.new))
        result }
    ensures crash { Follows (Torn closing_place closing_size) (D.may_leave (log_disk log.old))
        (D.may_leave (log_disk log.new)) }
    ensures crash_reads { writable ≡ false → Within (D.may_leave (log_disk log.old))
        (D.may_leave (log_disk log.new)) }
    ensures durable { writable ≡ true
        → OnOk result (IfSome (D.image (log_disk log.new))
        (λ f. Only f (D.may_leave (log_disk log.new)))) }
    ensures time { LeavesOnly D.moment D.left_since (log_disk log.old) (log_disk log.new)
        (λ c. (d : List ℕ) × D.may_leave (log_disk log.old) d
        × Torn closing_place closing_size d c) }
    ensures past { Marks open_mark (D.image (log_disk log.old))
        (D.past (log_disk log.old)) (D.past (log_disk log.new)) }
    ensures pasts { PastOnly D.moment D.left_with (log_disk log.old) (log_disk log.new)
        (Marks open_mark (D.image (log_disk log.old)) (D.past (log_disk log.old))) }
    ensures settled { writable ≡ true → OnOk result (IfSome (D.image (log_disk log.new)) (λ f.
        D.past (log_disk log.new) ≡ settled_on f)) }
    ensures still { writable ≡ false → OnlyReads D.may_leave D.moment D.left_since D.past
        D.left_with
        (log_disk log.old) (log_disk log.new) }
{
    if writable { log.mark_open() } else { Ok(()) }
}

/// Opens an appending file, or one of tree pages. Where it is to be written, it is made durable that the file is open.
/// The disk is handed back where it is refused.
#[tactic(auto, using(crate::proofs::Readings::untorn, crate::proofs::Readings::torn_later))]
pub fn open_log<D: Disk>(
    alloc: Global,
    disk: D,
    writable: bool,
    shard: ShardOf,
) -> Result<GroupLog<D>, Unopened<D>>
    requires shard { shard.index < shard.of }
    ensures exact { IfSome (D.image disk)
        (λ f. Tells result (first_fault (1 ∷ 3 ∷ []) writable shard f)) }
    ensures stands { IfOk result (HasOpened D.image disk writable shard) }
    ensures kind { IfOk result (λ log. list_any (λ k. k == (log_head log).kind) (1 ∷ 3 ∷ [])
        ≡ true) }
    ensures marked { writable ≡ true → IfOk result (λ log. D.image (log_disk log) ≡ option_map
        (with_closing open_mark) (D.image disk)) }
    ensures reads { writable ≡ false → IfOk result (λ log. D.image (log_disk log) ≡ D.image disk) }
    ensures told { IfOk result (λ log. is_some (D.image (log_disk log)) ≡ is_some (D.image disk)) }
    ensures back { IfErr result (λ u. u.cause ≢ OpenError.Fault → D.image u.disk ≡ D.image disk) }
    ensures back_reads { writable ≡ false → IfErr result (λ u. D.image u.disk ≡ D.image disk) }
    ensures back_still { IfErr result (λ u. u.cause ≢ OpenError.Fault
        → OnlyReads D.may_leave D.moment D.left_since D.past D.left_with disk u.disk) }
    ensures back_told { IfErr result (λ u. is_some (D.image u.disk) ≡ is_some (D.image disk)) }
    ensures durable { writable ≡ true → IfOk result (λ log. IfSome (D.image (log_disk log))
        (λ f. Only f (D.may_leave (log_disk log)))) }
    ensures crash { IfOk result (λ log. Follows (Torn closing_place closing_size) (D.may_leave disk)
        (D.may_leave (log_disk log))) }
    ensures back_crash { IfErr result (λ u. Follows (Torn closing_place closing_size)
        (D.may_leave disk) (D.may_leave u.disk)) }
    ensures crash_reads { writable ≡ false
        → IfOk result (λ log. Within (D.may_leave disk) (D.may_leave (log_disk log))) }
    ensures counted { IfOk result (λ log. D.fault_count (log_disk log) ≡ D.fault_count disk) }
    ensures later { IfErr result (λ u. D.fault_count disk ≤ D.fault_count u.disk) }
    ensures cause { IfErr result (λ u. u.cause ≡ OpenError.Fault → Rose (D.fault_count disk)
        (D.fault_count u.disk)) }
    ensures time { IfOk result (λ log. LeavesOnly D.moment D.left_since disk (log_disk log)
        (λ c. (d : List ℕ) × D.may_leave disk d × Torn closing_place closing_size d c)) }
    ensures back_time { IfErr result (λ u. LeavesOnly D.moment D.left_since disk u.disk
        (λ c. (d : List ℕ) × D.may_leave disk d × Torn closing_place closing_size d c)) }
    ensures past { IfOk result (λ log. Marks open_mark (D.image disk) (D.past disk)
        (D.past (log_disk log))) }
    ensures back_past { IfErr result (λ u. Marks open_mark (D.image disk) (D.past disk)
        (D.past u.disk)) }
    ensures pasts { IfOk result (λ log. PastOnly D.moment D.left_with disk (log_disk log)
        (Marks open_mark (D.image disk) (D.past disk))) }
    ensures back_pasts { IfErr result (λ u. PastOnly D.moment D.left_with disk u.disk
        (Marks open_mark (D.image disk) (D.past disk))) }
    ensures settled { writable ≡ true → IfOk result (λ log. IfSome (D.image (log_disk log)) (λ f.
        D.past (log_disk log) ≡ settled_on f)) }
    ensures still { writable ≡ false → IfOk result (λ log.
        OnlyReads D.may_leave D.moment D.left_since D.past D.left_with disk (log_disk log)) }
{
    let read = match read_counted(alloc, disk, &[1, 3], writable, shard) {
        Ok(read) => read,
        Err(unopened) => return Err(unopened),
    };
    let CountedLog {
        mut log,
        heads: _,
        count: _,
        next: _,
    } = read;
    match begin(&mut log, writable) {
        Ok(()) => Ok(log),
        Err(_) => Err(Unopened {
            cause: OpenError::Fault,
            disk: log.into_disk(),
        }),
    }
}

/// The steps of an opening, with no write, for each kind that stands. Whether the kind fits the file's ending is the
/// caller's test. Answers the file's header.
pub fn check_all<D: Disk>(
    alloc: Global,
    disk: &mut D,
    writable: bool,
    shard: ShardOf,
) -> Result<StaticHead, OpenError>
    requires shard { shard.index < shard.of }
    ensures exact { IfSome (D.image disk.old)
        (λ f. TellsResult result (first_fault (1 ∷ 3 ∷ []) writable shard f)) }
    ensures head { IfSome (D.image disk.old) (λ f. IfOk result (λ h. static_at f ≡ Some h)) }
    ensures kind { IfOk result (λ h. list_any (λ k. k == h.kind) (1 ∷ 3 ∷ []) ≡ true) }
    ensures image { D.image disk.new ≡ D.image disk.old }
    ensures cause { HasOpenCause (D.fault_count disk.old) (D.fault_count disk.new) result }
    ensures still { OnlyReads D.may_leave D.moment D.left_since D.past D.left_with disk.old
        disk.new }
{
    let checked = check_disk(alloc, disk, &[1, 3], writable, shard)?;
    Ok(checked.found.head)
}
