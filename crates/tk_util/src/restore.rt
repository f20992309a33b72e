//! `restore`: the records that a crash left of a file, written as a new file.
ghost use Rattle.std.specs.Prelude.{◌≡◌, ◌≢◌, ◌⊎◌, ℕ, List, [], true, false, Option, IfOk, IfErr, IfSome, OnOk, None, Some, Ok, Err};
ghost use Rattle.std.specs.Option.{is_some};
ghost use Rattle.tk_disk.specs.Crash.{Within, Only};
ghost use Rattle.tk_disk.specs.Folder.{NoneOut, SameBut, KeepsHistory, or_empty};
ghost use Rattle.tk_restore.specs.Reading.{IsFit, IsReadFrom};
ghost use Rattle.tk_restore.specs.Restoration.{IsRestoringMoment};
ghost use Rattle.tk_util.specs.Asked.{restore_said};
ghost use Rattle.tk_disk.specs.Disk.{Rose};
ghost use Rattle.tk_status.specs.declared.finish.Finish.{Finish as End};
ghost use Rattle.tk_util.specs.Counts.{HasCause, RoseIn, EndsByCounts};
ghost use Rattle.tk_util.specs.Leaves.{LeavesToCrash};
ghost use Rattle.tk_util.specs.Making.{AtEachMoment, Makes};
ghost use Rattle.tk_util.specs.Ran.{RanRestore, EndsClearly, RoseOf, IsRunStatus, IsEnd, restore_fault};
ghost use Rattle.tk_util.specs.Restoring.{ImageRead, IsReadStop, NewWritten, IsWriteStop, ReadStopped, WroteNew, IsWriteEnd};
ghost use Rattle.tk_util.specs.Words.{Restore};

use crate::call::{Stop, counted, unopened};
use crate::end::end_of;
use crate::file::take_disk;
use crate::words::RestoreOperands;
use std::alloc::Global;
use tk_disk::{Disk, Folder};
use tk_restore::{Restoration, read_header, read_restoration, write_restoration};
use tk_status::Finish;

/// Reads what a file is restored to. A file that is updated in place is refused by its kind.
fn read_image<D: Disk>(alloc: Global, from: &mut D) -> Result<Restoration, Stop>
    ensures read { IfSome (D.image from.old) (λ f. ImageRead f result) }
    ensures fits { IfOk result IsFit }
    ensures stops { IfErr result IsReadStop }
    ensures image { D.image from.new ≡ D.image from.old }
    ensures still { Within (D.may_leave from.old) (D.may_leave from.new) }
    ensures cause { HasCause Stop.Fault (D.fault_count from.old) (D.fault_count from.new) result }
{
    match read_header(from) {
        Ok(None) => return Err(Stop::Refused { place: 0 }),
        Ok(Some(head)) if head.kind == 2 => return Err(Stop::Refused { place: 8 }),
        Ok(Some(_)) => {}
        Err(error) => return Err(unopened(error)),
    }
    match read_restoration(alloc, from) {
        Ok(restoration) => Ok(restoration),
        Err(error) => Err(unopened(error)),
    }
}

/// Writes the new file where the disk is empty, and answers whether it was.
fn write_new<D: Disk>(alloc: Global, restoration: &Restoration, to: &mut D) -> Result<bool, Stop>
    requires fits { IsFit restoration.now }
    ensures written { (image : List ℕ) → IsReadFrom image restoration.now
        → IfSome (D.image to.old) (λ f. NewWritten image f (D.image to.new) result) }
    ensures stops { IfErr result IsWriteStop }
    ensures unwritten { IfSome (D.image to.old) (λ f. f ≢ []
        → Within (D.may_leave to.old) (D.may_leave to.new)) }
    ensures present { IfOk result (λ b. b ≡ false
        → Within (D.may_leave to.old) (D.may_leave to.new)) }
    ensures durable { IfOk result (λ b. b ≡ true
        → IfSome (D.image to.new) (λ f. Only f (D.may_leave to.new))) }
    ensures makes { (image : List ℕ) → IsReadFrom image restoration.now
        → IfSome (D.image to.old) (λ f. f ≡ []
        → AtEachMoment (IsRestoringMoment image (D.past to.old)) (D.moment to.old) (D.moment to.new)
        (D.left_with to.new)) }
    ensures cause { HasCause Stop.Fault (D.fault_count to.old) (D.fault_count to.new) result }
{
    if to.len()? > 0 {
        return Ok(false);
    }
    match write_restoration(alloc, restoration, to) {
        Ok(_) => Ok(true),
        Err(error) => Err(unopened(error)),
    }
}

/// Takes what a file is restored to out of its folder.
fn read_from<F: Folder>(alloc: Global, folder: &mut F, name: &str) -> Result<Restoration, Finish>
    requires home { NoneOut (F.is_out folder.old) }
    ensures read { F.tells folder.old ≡ true
        → IfOk result (λ r. IsReadFrom (or_empty (F.file folder.old name.now)) r
        × (restore_fault (or_empty (F.file folder.old name.now)) ≡ None)) }
    ensures fits { IfOk result IsFit }
    ensures stopped { IfErr result (ReadStopped (F.tells folder.old) (F.file folder.old name.now)) }
    ensures files { F.tells folder.old ≡ true → (m : List ℕ)
        → F.file folder.new m ≡ F.file folder.old m }
    ensures crash { (m : List ℕ) → Within (F.leaves folder.old m) (F.leaves folder.new m) }
    ensures history { (m : List ℕ) → m ≢ name.now
        → KeepsHistory F.moment_of F.leaves F.left_since F.past_of F.left_with folder.old folder.new
        m }
    ensures met { OnOk result (F.fault_count folder.new ≡ F.fault_count folder.old) }
    ensures disks_met { OnOk result ((m : List ℕ)
        → F.disk_faults folder.new m ≡ F.disk_faults folder.old m) }
    ensures counts { IfErr result
        (EndsByCounts (F.fault_count folder.old) (F.fault_count folder.new)
        (F.disk_faults folder.old) (F.disk_faults folder.new)) }
    ensures tells { F.tells folder.new ≡ F.tells folder.old }
    ensures closed { NoneOut (F.is_out folder.new) }
{
    let mut disk = match take_disk(folder, name, false) {
        Ok(disk) => disk,
        Err(stop) => return Err(end_of(Err(stop), Ok(()))),
    };
    let faults = disk.faults();
    let read = read_image(alloc, &mut disk);
    let read = counted(read, faults, disk.faults());
    let given = folder.give(name, disk);
    match (read, given) {
        (Ok(restoration), Ok(())) => Ok(restoration),
        (Ok(_), Err(_)) => Err(Finish::with(4)),
        (Err(stop), given) => Err(end_of(Err(stop), given)),
    }
}

/// Writes the new file of a name.
fn write_to<F: Folder>(
    alloc: Global,
    restoration: &Restoration,
    folder: &mut F,
    name: &str,
) -> Finish
    requires fits { IsFit restoration.now }
    requires home { NoneOut (F.is_out folder.old) }
    ensures wrote { F.tells folder.old ≡ true → (image : List ℕ) → IsReadFrom image restoration.now
        → WroteNew image (F.file folder.old name.now) (F.file folder.new name.now) result }
    ensures ends_clearly { F.tells folder.old ≡ true → (image : List ℕ)
        → IsReadFrom image restoration.now
        → ((end : End) × IsWriteEnd end × (end.status ≢ 4)
        × WroteNew image (F.file folder.old name.now) (F.file folder.new name.now) end)
        ⊎ Rose (F.disk_faults folder.old name.now) (F.disk_faults folder.new name.now) }
    ensures others { SameBut name.now (F.file folder.old) (F.file folder.new) }
    ensures crash { LeavesToCrash true (F.tells folder.old) name.now (F.file folder.old name.now)
        (F.file folder.new name.now) (F.leaves folder.old) (F.leaves folder.new) result }
    ensures makes { F.tells folder.old ≡ true → (image : List ℕ) → IsReadFrom image restoration.now
        → or_empty (F.file folder.old name.now) ≡ []
        → AtEachMoment (IsRestoringMoment image (F.past_of folder.old name.now))
        (F.moment_of folder.old name.now) (F.moment_of folder.new name.now)
        (F.left_with folder.new name.now) }
    ensures counts { EndsByCounts (F.fault_count folder.old) (F.fault_count folder.new)
        (F.disk_faults folder.old) (F.disk_faults folder.new) result }
    ensures ends { IsWriteEnd result }
    ensures tells { F.tells folder.new ≡ F.tells folder.old }
    ensures closed { NoneOut (F.is_out folder.new) }
{
    let mut disk = match take_disk(folder, name, true) {
        Ok(disk) => disk,
        Err(stop) => return end_of(Err(stop), Ok(())),
    };
    let faults = disk.faults();
    let written = write_new(alloc, restoration, &mut disk);
    let written = counted(written, faults, disk.faults());
    let given = folder.give(name, disk);
    match written {
        Ok(true) => match given {
            Ok(()) => Finish::with(0),
            Err(_) => Finish::with(4),
        },
        Ok(false) => Finish::exists(1),
        Err(stop) => end_of(Err(stop), given),
    }
}

/// `restore`: reads one file whole, and then writes the new one.
pub(crate) fn run_restore<F: Folder>(
    alloc: Global,
    restore: RestoreOperands<'_>,
    folder: &mut F,
) -> Finish
    requires differ { restore.from.now ≢ restore.to.now }
    requires home { NoneOut (F.is_out folder.old) }
    ensures ran { (left held : Option (List ℕ)) → F.tells folder.old ≡ true
        → RanRestore (restore_said restore.entry)
        (record { files = F.file folder.old; left = left; held = held })
        (record { files = F.file folder.new; left = left; held = held }) result }
    ensures ends_clearly { (left held : Option (List ℕ)) → F.tells folder.old ≡ true
        → EndsClearly (Restore (restore_said restore.entry))
        (record { files = F.file folder.old; left = left; held = held })
        (record { files = F.file folder.new; left = left; held = held })
        ⊎ RoseOf (Restore (restore_said restore.entry)) (F.disk_faults folder.old)
        (F.disk_faults folder.new) }
    ensures crash { LeavesToCrash true (F.tells folder.old) restore.entry.to.now
        (F.file folder.old restore.entry.to.now) (F.file folder.new restore.entry.to.now)
        (F.leaves folder.old) (F.leaves folder.new) result }
    ensures makes { F.tells folder.old ≡ true
        → or_empty (F.file folder.old restore.entry.to.now) ≡ []
        → Makes (Restore (restore_said restore.entry)) (F.file folder.old)
        (F.past_of folder.old restore.entry.to.now) (F.moment_of folder.old restore.entry.to.now)
        (F.moment_of folder.new restore.entry.to.now)
        (F.left_with folder.new restore.entry.to.now) }
    ensures fields { IsEnd result }
    ensures status { IsRunStatus (Restore (restore_said restore.entry)) result.status }
    ensures fault { result.status ≡ 4
        → RoseIn (F.fault_count folder.old) (F.fault_count folder.new) (F.disk_faults folder.old)
        (F.disk_faults folder.new) }
    ensures folder_met { result.status ≢ 3 → result.status ≢ 4 → result.status ≢ 7
        → F.fault_count folder.new ≡ F.fault_count folder.old }
    ensures disks_met { result.status ≢ 3 → result.status ≢ 4 → result.status ≢ 7 → (name : List ℕ)
        → F.disk_faults folder.new name ≡ F.disk_faults folder.old name }
    ensures tells { F.tells folder.new ≡ F.tells folder.old }
    ensures closed { NoneOut (F.is_out folder.new) }
{
    match read_from(alloc, folder, restore.from) {
        Ok(restoration) => write_to(alloc, &restoration, folder, restore.to),
        Err(finish) => finish,
    }
}
