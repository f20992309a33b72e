//! Commands on one file: its disk is taken, the call is made, and the disk is given back.
ghost use Rattle.std.specs.Prelude.{◌≡◌, ◌≢◌, ◌⊎◌, ℕ, List, [], true, false, Option, IsSome, IfOk, IfErr, IfSome, OnOk, OnErr, None, Err};
ghost use Rattle.tk_disk.specs.Disk.{Rose};
ghost use Rattle.tk_disk.specs.Folder.{NoneOut, SameBut, SameHistory, KeepsHistory, or_empty};
ghost use Rattle.tk_util.specs.Asked.{file_said, IsWithinLimits};
ghost use Rattle.tk_util.specs.Calls.{Spares};
ghost use Rattle.tk_util.specs.Counts.{HasCause, HasExactCause, RoseIn, EndsByCounts};
ghost use Rattle.tk_util.specs.CutShort.{CutsCommandShort};
ghost use Rattle.tk_util.specs.Done.{CommandDone, CrashLeft, NotTaken, RanOnFile};
ghost use Rattle.tk_util.specs.Interrupted.{InterruptsCommand};
ghost use Rattle.tk_util.specs.Leaves.{LeavesToCrash, OthersWithin};
ghost use Rattle.tk_util.specs.Making.{Makes};
ghost use Rattle.tk_util.specs.Ran.{Ran, EndsClearly, RoseOf, IsRunStatus, IsEnd, file_of, writes};

use crate::call::{Called, Stop, counted};
use crate::end::{end_of, print};
use crate::key::{get_from, remove_from};
use crate::set::set_on;
use crate::words::FileCommand;
use std::alloc::Global;
use tk_disk::{Disk, DiskError, Folder};
use tk_io::{IoError, Sink};
use tk_proc::Getter;
use tk_status::Finish;

/// Takes the disk of a file out of its folder. An absent file is made, or refused.
pub(crate) fn take_disk<F: Folder>(folder: &mut F, name: &str, create: bool) -> Result<F::D, Stop>
    requires home { F.is_out folder.old name.now ≡ false }
    ensures there { OnOk result (create ≡ false → F.tells folder.old ≡ true
        → IsSome (F.file folder.old name.now)) }
    ensures image { IfOk result (λ d. F.tells folder.old ≡ true
        → F.D.image d ≡ Some (or_empty (F.file folder.old name.now))) }
    ensures count { IfOk result (λ d. F.D.fault_count d ≡ F.disk_faults folder.old name.now) }
    ensures stopped { IfErr result
        (NotTaken create (F.tells folder.old) (F.file folder.old name.now)) }
    ensures same { OnErr result (F.file folder.new name.now ≡ F.file folder.old name.now) }
    ensures out { OnOk result (F.is_out folder.new name.now ≡ true) }
    ensures err_out { OnErr result (F.is_out folder.new name.now ≡ false) }
    ensures others_out { SameBut name.now (F.is_out folder.old) (F.is_out folder.new) }
    ensures others { SameBut name.now (F.file folder.old) (F.file folder.new) }
    ensures counts { (m : List ℕ) → F.disk_faults folder.new m ≡ F.disk_faults folder.old m }
    ensures tells { F.tells folder.new ≡ F.tells folder.old }
    ensures cause { HasExactCause Stop.Fault (F.fault_count folder.old) (F.fault_count folder.new)
        result }
    ensures crash { IfOk result (λ d.
        SameHistory (F.moment_of folder.old name.now) (F.D.moment d) (F.leaves folder.old name.now)
        (F.D.may_leave d)
        (F.left_since folder.old name.now) (F.D.left_since d)
        (F.past_of folder.old name.now) (F.D.past d) (F.left_with folder.old name.now)
        (F.D.left_with d)) }
    ensures err_crash { OnErr result
        (SameHistory (F.moment_of folder.old name.now) (F.moment_of folder.new name.now)
        (F.leaves folder.old name.now) (F.leaves folder.new name.now)
        (F.left_since folder.old name.now) (F.left_since folder.new name.now)
        (F.past_of folder.old name.now) (F.past_of folder.new name.now)
        (F.left_with folder.old name.now) (F.left_with folder.new name.now)) }
    ensures others_crash { OthersWithin name.now (F.leaves folder.old) (F.leaves folder.new) }
    ensures others_history { (m : List ℕ) → m ≢ name.now
        → KeepsHistory F.moment_of F.leaves F.left_since F.past_of F.left_with folder.old folder.new
        m }
{
    match folder.take(name, create) {
        Ok(Some(disk)) => Ok(disk),
        Ok(None) => Err(Stop::Refused { place: 0 }),
        Err(DiskError::Fault) => Err(Stop::Fault),
        Err(DiskError::NoMemory) => Err(Stop::NoMemory),
    }
}

/// The call of a command on the disk of its file. What `get` reads is left with the getter.
fn call_command<D: Disk>(
    alloc: Global,
    command: FileCommand<'_>,
    disk: D,
    getter: &mut Getter,
) -> Called<D>
    requires within { IsWithinLimits command }
    requires unread { getter.old ≡ None }
    ensures done { IfSome (D.image disk) (λ f.
        CommandDone command.entry f (D.image result.disk) getter.new result.answer) }
    ensures spared { IfSome (D.image disk) (λ f.
        Spares f (D.may_leave disk) (D.may_leave result.disk)) }
    ensures crash { CrashLeft (writes (file_said command.entry)) result.answer (D.may_leave disk)
        (D.may_leave result.disk) (D.image result.disk) }
    ensures crashes { IfSome (D.image disk) (λ f.
        InterruptsCommand (file_said command.entry) f (D.moment disk) (D.moment result.disk)
        (D.may_leave disk) (D.left_since disk) (D.left_since result.disk)
        (D.left_with result.disk)) }
    ensures cut_short { IfSome (D.image disk) (λ f.
        CutsCommandShort (file_said command.entry) f (D.moment disk) (D.moment result.disk)
        (D.past disk) (D.may_leave disk) (D.left_with result.disk)) }
    ensures makes { (files : List ℕ → Option (List ℕ)) → IfSome (D.image disk) (λ f. f ≡ []
        → Makes (file_said command.entry) files (D.past disk) (D.moment disk) (D.moment result.disk)
        (D.left_with result.disk)) }
    ensures cause { HasCause Stop.Fault (D.fault_count disk) (D.fault_count result.disk)
        result.answer }
{
    match command {
        FileCommand::Get(get) => get_from(alloc, disk, get.key, getter),
        FileCommand::Set(set) => set_on(alloc, disk, set.key, set.value),
        FileCommand::Remove(remove) => remove_from(alloc, disk, remove.key),
    }
}

/// A command on its file, as far as it prints nothing.
fn run_unprinted<F: Folder>(
    alloc: Global,
    command: FileCommand<'_>,
    folder: &mut F,
    getter: &mut Getter,
) -> Finish
    requires within { IsWithinLimits command }
    requires home { NoneOut (F.is_out folder.old) }
    requires unread { getter.old ≡ None }
    ensures ran { (left held : Option (List ℕ)) → F.tells folder.old ≡ true
        → RanOnFile command.entry (record { files = F.file folder.old; left = left; held = held })
        (record { files = F.file folder.new; left = left; held = held }) getter.new result }
    ensures ends_clearly { (left held : Option (List ℕ)) → F.tells folder.old ≡ true
        → EndsClearly (file_said command.entry)
        (record { files = F.file folder.old; left = left; held = held })
        (record { files = F.file folder.new; left = left; held = held })
        ⊎ RoseOf (file_said command.entry) (F.disk_faults folder.old) (F.disk_faults folder.new) }
    ensures crash { LeavesToCrash (writes (file_said command.entry)) (F.tells folder.old)
        (file_of (file_said command.entry)) (F.file folder.old (file_of (file_said command.entry)))
        (F.file folder.new (file_of (file_said command.entry)))
        (F.leaves folder.old) (F.leaves folder.new) result }
    ensures crashes { F.tells folder.old ≡ true
        → InterruptsCommand (file_said command.entry)
        (or_empty (F.file folder.old (file_of (file_said command.entry))))
        (F.moment_of folder.old (file_of (file_said command.entry)))
        (F.moment_of folder.new (file_of (file_said command.entry)))
        (F.leaves folder.old (file_of (file_said command.entry)))
        (F.left_since folder.old (file_of (file_said command.entry)))
        (F.left_since folder.new (file_of (file_said command.entry)))
        (F.left_with folder.new (file_of (file_said command.entry))) }
    ensures cut_short { F.tells folder.old ≡ true
        → CutsCommandShort (file_said command.entry)
        (or_empty (F.file folder.old (file_of (file_said command.entry))))
        (F.moment_of folder.old (file_of (file_said command.entry)))
        (F.moment_of folder.new (file_of (file_said command.entry)))
        (F.past_of folder.old (file_of (file_said command.entry)))
        (F.leaves folder.old (file_of (file_said command.entry)))
        (F.left_with folder.new (file_of (file_said command.entry))) }
    ensures makes { F.tells folder.old ≡ true
        → or_empty (F.file folder.old (file_of (file_said command.entry))) ≡ []
        → Makes (file_said command.entry) (F.file folder.old)
        (F.past_of folder.old (file_of (file_said command.entry)))
        (F.moment_of folder.old (file_of (file_said command.entry)))
        (F.moment_of folder.new (file_of (file_said command.entry)))
        (F.left_with folder.new (file_of (file_said command.entry))) }
    ensures counts { EndsByCounts (F.fault_count folder.old) (F.fault_count folder.new)
        (F.disk_faults folder.old) (F.disk_faults folder.new) result }
    ensures fields { IsEnd result }
    ensures status { IsRunStatus (file_said command.entry) result.status }
    ensures tells { F.tells folder.new ≡ F.tells folder.old }
    ensures closed { NoneOut (F.is_out folder.new) }
{
    let disk = match take_disk(folder, command.file(), command.creates()) {
        Ok(disk) => disk,
        Err(stop) => return end_of(Err(stop), Ok(())),
    };
    let faults = disk.faults();
    let Called { disk, answer } = call_command(alloc, command, disk, getter);
    let answer = counted(answer, faults, disk.faults());
    let given = folder.give(command.file(), disk);
    end_of(answer, given)
}

/// Runs a command on its file, and prints the value that it read.
pub(crate) fn run_on_file<F: Folder, W: Sink>(
    alloc: Global,
    command: FileCommand<'_>,
    folder: &mut F,
    out: &mut W,
) -> Finish
    requires within { IsWithinLimits command }
    requires home { NoneOut (F.is_out folder.old) }
    ensures ran { (left : Option (List ℕ)) → F.tells folder.old ≡ true
        → Ran (file_said command.entry)
        (record { files = F.file folder.old; left = left; held = W.held out.old })
        (record { files = F.file folder.new; left = left; held = W.held out.new }) result }
    ensures ends_clearly { (left held : Option (List ℕ)) → F.tells folder.old ≡ true
        → EndsClearly (file_said command.entry)
        (record { files = F.file folder.old; left = left; held = held })
        (record { files = F.file folder.new; left = left; held = held })
        ⊎ RoseOf (file_said command.entry) (F.disk_faults folder.old) (F.disk_faults folder.new) }
    ensures crash { LeavesToCrash (writes (file_said command.entry)) (F.tells folder.old)
        (file_of (file_said command.entry)) (F.file folder.old (file_of (file_said command.entry)))
        (F.file folder.new (file_of (file_said command.entry)))
        (F.leaves folder.old) (F.leaves folder.new) result }
    ensures crashes { F.tells folder.old ≡ true
        → InterruptsCommand (file_said command.entry)
        (or_empty (F.file folder.old (file_of (file_said command.entry))))
        (F.moment_of folder.old (file_of (file_said command.entry)))
        (F.moment_of folder.new (file_of (file_said command.entry)))
        (F.leaves folder.old (file_of (file_said command.entry)))
        (F.left_since folder.old (file_of (file_said command.entry)))
        (F.left_since folder.new (file_of (file_said command.entry)))
        (F.left_with folder.new (file_of (file_said command.entry))) }
    ensures cut_short { F.tells folder.old ≡ true
        → CutsCommandShort (file_said command.entry)
        (or_empty (F.file folder.old (file_of (file_said command.entry))))
        (F.moment_of folder.old (file_of (file_said command.entry)))
        (F.moment_of folder.new (file_of (file_said command.entry)))
        (F.past_of folder.old (file_of (file_said command.entry)))
        (F.leaves folder.old (file_of (file_said command.entry)))
        (F.left_with folder.new (file_of (file_said command.entry))) }
    ensures makes { F.tells folder.old ≡ true
        → or_empty (F.file folder.old (file_of (file_said command.entry))) ≡ []
        → Makes (file_said command.entry) (F.file folder.old)
        (F.past_of folder.old (file_of (file_said command.entry)))
        (F.moment_of folder.old (file_of (file_said command.entry)))
        (F.moment_of folder.new (file_of (file_said command.entry)))
        (F.left_with folder.new (file_of (file_said command.entry))) }
    ensures fields { IsEnd result }
    ensures status { IsRunStatus (file_said command.entry) result.status }
    ensures clean { result.status ≡ 0 → W.fault_count out.new ≡ W.fault_count out.old }
    ensures fault { result.status ≡ 4
        → RoseIn (F.fault_count folder.old) (F.fault_count folder.new) (F.disk_faults folder.old)
        (F.disk_faults folder.new) ⊎ Rose (W.fault_count out.old) (W.fault_count out.new) }
    ensures folder_met { result.status ≢ 3 → result.status ≢ 4 → result.status ≢ 7
        → F.fault_count folder.new ≡ F.fault_count folder.old }
    ensures disks_met { result.status ≢ 3 → result.status ≢ 4 → result.status ≢ 7 → (name : List ℕ)
        → F.disk_faults folder.new name ≡ F.disk_faults folder.old name }
    ensures tells { F.tells folder.new ≡ F.tells folder.old }
    ensures closed { NoneOut (F.is_out folder.new) }
{
    let mut getter = Getter::new(alloc);
    let finish = run_unprinted(alloc, command, folder, &mut getter);
    if finish.status != 0 {
        return finish;
    }
    let Some(value) = getter.value() else {
        return finish;
    };
    match print(out, value) {
        Ok(()) => finish,
        Err(IoError::Fault) => Finish::with(4),
        Err(IoError::NoMemory) => Finish::with(5),
    }
}
