ghost use Rattle.std.specs.Prelude.{◌≡◌, ◌+◌, ◌↔◌, IsErr, OnErr, IsErrOf, Contains};
ghost use Rattle.tk_io.specs.Streams.{HasCause};
ghost use Rattle.tk_model.specs.Counts.{capped};

use crate::IoError;
use tk_model::FaultSchedule;

/// Counts a call, and fails where it is to fail.
pub fn begin(schedule: &mut FaultSchedule) -> Result<(), IoError>
    ensures exact { IsErr result ↔ Contains schedule.old.failing schedule.old.calls }
    ensures fault { IsErrOf result IoError.NoMemory → ⊥ }
    ensures calls { schedule.new.calls ≡ capped (schedule.old.calls + 1) }
    ensures failing { schedule.new.failing ≡ schedule.old.failing }
    ensures cause { HasCause schedule.old.faults schedule.new.faults result }
    ensures err { OnErr result (schedule.new.faults ≡ capped (schedule.old.faults + 1)) }
{
    let fails = schedule.is_due();
    schedule.count(fails);
    if fails {
        return Err(IoError::Fault);
    }
    Ok(())
}
