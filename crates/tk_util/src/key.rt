//! `get` and `remove`: calls on a file that has to be there.
ghost use Rattle.std.specs.Prelude.{◌≡◌, ◌<◌, ◌^◌, ℕ, [], length, true, false, IfSome};
ghost use Rattle.tk_disk.specs.Crash.{Within};
ghost use Rattle.tk_proc.specs.Replies.{remove_reply};
ghost use Rattle.tk_util.specs.Calls.{Spares};
ghost use Rattle.tk_util.specs.Counts.{HasCause};
ghost use Rattle.tk_util.specs.CutShort.{IsCutShort};
ghost use Rattle.tk_util.specs.Done.{CallDone, CrashDone, GetDone};
ghost use Rattle.tk_util.specs.Interrupted.{Interrupts};
ghost use Rattle.tk_util.specs.Making.{AtEachMoment, IsUnmadeMoment};
ghost use Rattle.tk_util.specs.Ran.{reply_changes};

use crate::call::{Called, Stop, run_call};
use crate::end::with_status;
use std::alloc::Global;
use tk_disk::Disk;
use tk_proc::{Getter, Remover};

/// One call that reads the value at a key.
pub(crate) fn get_from<D: Disk>(
    alloc: Global,
    disk: D,
    key: &[u8],
    getter: &mut Getter,
) -> Called<D>
    requires key { length key.now < 2 ^ 16 }
    ensures call { IfSome (D.image disk) (λ f.
        GetDone key.now f (D.image result.disk) getter.new result.answer) }
    ensures still { Within (D.may_leave disk) (D.may_leave result.disk) }
    ensures cause { HasCause Stop.Fault (D.fault_count disk) (D.fault_count result.disk)
        result.answer }
{
    let Called { disk, answer } = run_call(alloc, disk, false, key, getter);
    let answer = with_status(answer, getter.status());
    Called { disk, answer }
}

/// One call that removes the record of a key.
pub(crate) fn remove_from<D: Disk>(alloc: Global, disk: D, key: &[u8]) -> Called<D>
    requires key { length key.now < 2 ^ 16 }
    ensures call { IfSome (D.image disk) (λ f.
        CallDone true remove_reply key.now f (D.image result.disk) result.answer) }
    ensures spared { IfSome (D.image disk) (λ f.
        Spares f (D.may_leave disk) (D.may_leave result.disk)) }
    ensures crash { CrashDone result.answer (D.may_leave disk) (D.may_leave result.disk)
        (D.image result.disk) }
    ensures crashes { IfSome (D.image disk) (λ f.
        Interrupts (λ groups. reply_changes remove_reply groups key.now) f (D.moment disk)
        (D.moment result.disk)
        (D.may_leave disk) (D.left_since disk) (D.left_since result.disk)
        (D.left_with result.disk)) }
    ensures cut_short { IfSome (D.image disk) (λ f.
        IsCutShort (λ groups. reply_changes remove_reply groups key.now) f (D.moment disk)
        (D.moment result.disk) (D.past disk) (D.may_leave disk) (D.left_with result.disk)) }
    ensures makes { IfSome (D.image disk) (λ f. f ≡ []
        → AtEachMoment (IsUnmadeMoment (D.past disk)) (D.moment disk) (D.moment result.disk)
        (D.left_with result.disk)) }
    ensures cause { HasCause Stop.Fault (D.fault_count disk) (D.fault_count result.disk)
        result.answer }
{
    let mut remover = Remover::new();
    let Called { disk, answer } = run_call(alloc, disk, true, key, &mut remover);
    let answer = with_status(answer, remover.status());
    Called { disk, answer }
}
