ghost use Rattle.std.specs.Prelude.{◌≡◌, ◌≢◌, ◌≤◌, ◌<◌, ◌^◌, [], ◌∷◌, length, true, false, IfOk, IfSome, Some, Err};
ghost use Rattle.tk_disk.specs.Crash.{Within, Only, OnlyReads};
ghost use Rattle.tk_disk.specs.Disk.{HasFaultCause};
ghost use Rattle.tk_proc.specs.Replies.{set_reply};
ghost use Rattle.tk_util.specs.Calls.{Spares};
ghost use Rattle.tk_util.specs.Counts.{HasCause};
ghost use Rattle.tk_util.specs.CutShort.{IsCutShort, IsCutShortSince};
ghost use Rattle.tk_util.specs.Done.{CallDone, CrashDone, SetDone};
ghost use Rattle.tk_util.specs.Interrupted.{Interrupts};
ghost use Rattle.tk_util.specs.Making.{AtEachMoment, IsSettingMoment};
ghost use Rattle.tk_util.specs.Ran.{reply_changes, set_text};

use crate::call::{Called, Stop, run_call};
use crate::end::with_status;
use std::alloc::Global;
use tk_append::write_or_empty;
use tk_block::StaticHead;
use tk_disk::{Disk, DiskError};
use tk_model::{Bytes, NoMemory, Pair, PairList};
use tk_proc::Setter;
use tk_status::Status;

/// The header of a new hash file.
const NEW_HEAD: StaticHead = StaticHead {
    kind: 1,
    version: 1,
    p: 10,
    order: 0,
    generation: 0,
};

/// A list of one record.
fn one_record(alloc: Global, key: &[u8], value: &[u8]) -> Result<PairList, NoMemory>
    ensures { IfOk result (λ l. l ≡ record { key = key.now; value = value.now } ∷ []) }
{
    let pair = Pair {
        key: Bytes::from_slice(alloc, key)?,
        value: Bytes::from_slice(alloc, value)?,
    };
    let mut pairs = PairList::new(alloc);
    pairs.push(pair)?;
    Ok(pairs)
}

/// Writes the file where the disk is empty, and answers whether it was. After want of memory it is empty again.
fn set_fresh<D: Disk>(
    alloc: Global,
    disk: &mut D,
    key: &[u8],
    value: &[u8],
) -> Result<bool, DiskError>
    requires key { length key.now < 2 ^ 16 }
    requires value { length value.now ≤ 16777215 }
    ensures fresh { IfOk result (λ b. b ≡ true
        → IfSome (D.image disk.old) (λ f. (f ≡ [])
        × (D.image disk.new ≡ Some (set_text key.now value.now)))) }
    ensures full { IfOk result (λ b. b ≡ false → IfSome (D.image disk.old) (λ f. f ≢ [])) }
    ensures kept { IfSome (D.image disk.old) (λ f. f ≢ [] → D.image disk.new ≡ D.image disk.old) }
    ensures no_memory { result ≡ Err DiskError.NoMemory → D.image disk.new ≡ D.image disk.old }
    ensures left { IfSome (D.image disk.old) (λ f. f ≢ []
        → Within (D.may_leave disk.old) (D.may_leave disk.new)) }
    ensures looks { IfSome (D.image disk.old) (λ f. f ≢ []
        → OnlyReads D.may_leave D.moment D.left_since D.past D.left_with disk.old disk.new) }
    ensures durable { IfOk result (λ b. b ≡ true
        → IfSome (D.image disk.new) (λ f. Only f (D.may_leave disk.new))) }
    ensures unwritten { IfOk result (λ b. b ≡ false
        → Within (D.may_leave disk.old) (D.may_leave disk.new)) }
    ensures makes { IfSome (D.image disk.old) (λ f. f ≡ []
        → AtEachMoment (IsSettingMoment key.now value.now (D.past disk.old)) (D.moment disk.old)
        (D.moment disk.new) (D.left_with disk.new)) }
    ensures cause { HasFaultCause (D.fault_count disk.old) (D.fault_count disk.new) result }
{
    if disk.len()? > 0 {
        return Ok(false);
    }
    let pairs = one_record(alloc, key, value)?;
    write_or_empty(alloc, disk, &NEW_HEAD, 0, &pairs)?;
    Ok(true)
}

/// One call that sets a key in a file that has bytes.
fn set_more<D: Disk>(alloc: Global, disk: D, key: &[u8], value: &[u8]) -> Called<D>
    requires key { length key.now < 2 ^ 16 }
    requires value { length value.now ≤ 16777215 }
    ensures call { IfSome (D.image disk) (λ f.
        CallDone true (set_reply value.now true) key.now f (D.image result.disk) result.answer) }
    ensures spared { IfSome (D.image disk) (λ f.
        Spares f (D.may_leave disk) (D.may_leave result.disk)) }
    ensures crash { CrashDone result.answer (D.may_leave disk) (D.may_leave result.disk)
        (D.image result.disk) }
    ensures crashes { IfSome (D.image disk) (λ f.
        Interrupts (λ groups. reply_changes (set_reply value.now true) groups key.now) f
        (D.moment disk) (D.moment result.disk)
        (D.may_leave disk) (D.left_since disk) (D.left_since result.disk)
        (D.left_with result.disk)) }
    ensures cut_short { IfSome (D.image disk) (λ f.
        IsCutShortSince (λ groups. reply_changes (set_reply value.now true) groups key.now) f
        (D.moment disk) (D.moment result.disk) (D.left_since disk) (D.left_with disk)
        (D.left_with result.disk)) }
    ensures cause { HasCause Stop.Fault (D.fault_count disk) (D.fault_count result.disk)
        result.answer }
{
    let Ok(value) = Bytes::from_slice(alloc, value) else {
        return Called {
            disk,
            answer: Err(Stop::NoMemory),
        };
    };
    let mut setter = Setter::new(value);
    let Called { disk, answer } = run_call(alloc, disk, true, key, &mut setter);
    let answer = with_status(answer, setter.status());
    Called { disk, answer }
}

/// Sets a key in a file, which may be empty.
pub(crate) fn set_on<D: Disk>(alloc: Global, mut disk: D, key: &[u8], value: &[u8]) -> Called<D>
    requires key { length key.now < 2 ^ 16 }
    requires value { length value.now ≤ 16777215 }
    ensures call { IfSome (D.image disk) (λ f.
        SetDone key.now value.now f (D.image result.disk) result.answer) }
    ensures spared { IfSome (D.image disk) (λ f.
        Spares f (D.may_leave disk) (D.may_leave result.disk)) }
    ensures crash { CrashDone result.answer (D.may_leave disk) (D.may_leave result.disk)
        (D.image result.disk) }
    ensures crashes { IfSome (D.image disk) (λ f. f ≢ []
        → Interrupts (λ groups.
        reply_changes (set_reply value.now true) groups key.now) f (D.moment disk)
        (D.moment result.disk)
        (D.may_leave disk) (D.left_since disk) (D.left_since result.disk)
        (D.left_with result.disk)) }
    ensures cut_short { IfSome (D.image disk) (λ f.
        IsCutShort (λ groups. reply_changes (set_reply value.now true) groups key.now) f
        (D.moment disk) (D.moment result.disk) (D.past disk) (D.may_leave disk)
        (D.left_with result.disk)) }
    ensures makes { IfSome (D.image disk) (λ f. f ≡ []
        → AtEachMoment (IsSettingMoment key.now value.now (D.past disk)) (D.moment disk)
        (D.moment result.disk) (D.left_with result.disk)) }
    ensures cause { HasCause Stop.Fault (D.fault_count disk) (D.fault_count result.disk)
        result.answer }
{
    match set_fresh(alloc, &mut disk, key, value) {
        Ok(true) => Called {
            disk,
            answer: Ok(Status::Success),
        },
        Ok(false) => set_more(alloc, disk, key, value),
        Err(DiskError::Fault) => Called {
            disk,
            answer: Err(Stop::Fault),
        },
        Err(DiskError::NoMemory) => Called {
            disk,
            answer: Err(Stop::NoMemory),
        },
    }
}
