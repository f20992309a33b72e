//! The records of a disk's image, which is read in pieces.
ghost use Rattle.std.specs.Prelude.{◌≡◌, ◌≤◌, ◌<◌, ◌+◌, ◌-◌, ◌^◌, [], length, drop, min, true, Option, None, IfOk, IfErr, IfSome, OnOk};
ghost use Rattle.std.specs.Io.{StartsWith};
ghost use Rattle.tk_model.specs.declared.record.Order.TheVariants.{Hash};
ghost use Rattle.tk_model.specs.Records.{replay};
ghost use Rattle.tk_disk.specs.Crash.{OnlyReads};
ghost use Rattle.tk_block.specs.Text.{static_at, is_static};
ghost use Rattle.tk_block.specs.declared.head.StaticHead.{StaticHead as Head};
ghost use Rattle.tk_append.specs.Fresh.{AllPairsSmall};
ghost use Rattle.tk_append.specs.Read.{IsOutside, HasOpenCause};
ghost use Rattle.tk_append.specs.Restored.{groups_in};
ghost use Rattle.tk_append.specs.Walked.{Shows};
ghost use Rattle.tk_append.specs.Windows.{items};
ghost use Rattle.tk_restore.specs.Readings.{HoldsBlock, Scanned};

use crate::reading::Reading;
use std::alloc::Global;
use tk_append::{Window, length_of};
use tk_block::{BODY_OFFSET, StaticHead, base_of, read_head, read_static};
use tk_disk::{Disk, DiskError};
use tk_model::{OpenError, PairList};

/// No body ends so far behind its block's place.
const LONGEST: u64 = 1 << 26;

/// The static header at the disk's front, where it has one.
pub fn read_header<D: Disk>(disk: &mut D) -> Result<Option<StaticHead>, OpenError>
    ensures found { IfSome (D.image disk.old) (λ f. IfOk result (λ found. found ≡ static_at f)) }
    ensures valid { IfOk result (λ found. IfSome found (λ h. is_static h ≡ true)) }
    ensures outside { IfErr result IsOutside }
    ensures image { D.image disk.new ≡ D.image disk.old }
    ensures cause { HasOpenCause (D.fault_count disk.old) (D.fault_count disk.new) result }
    ensures still { OnlyReads D.may_leave D.moment D.left_since D.past D.left_with disk.old
        disk.new }
{
    let mut front = [0; 32];
    match disk.read_at(0, &mut front) {
        Ok(got) => Ok(read_static(&front[..got])),
        Err(DiskError::Fault) => Err(OpenError::Fault),
        Err(DiskError::NoMemory) => Err(OpenError::NoMemory),
    }
}

/// Has so many bytes from a place on, or all that are left; a file that ends before has none.
fn fill<D: Disk>(
    disk: &mut D,
    window: &mut Window,
    place: u64,
    need: u64,
    left: u64,
) -> Result<bool, OpenError>
    requires need { need ≤ 2 ^ 26 }
    requires end { place + left < 2 ^ 64 }
    requires held { length (items window.old) ≤ left }
    ensures grows { IfOk result (λ t. t ≡ true → StartsWith (items window.new) (items window.old)) }
    ensures shows { Shows (D.image disk.old) place (items window.old)
        → IfOk result (λ t. t ≡ true → Shows (D.image disk.old) place (items window.new)) }
    ensures long { IfOk result (λ t. t ≡ true → min need left ≤ length (items window.new)) }
    ensures held { IfOk result (λ t. t ≡ true → length (items window.new) ≤ left) }
    ensures told { IfSome (D.image disk.old) (λ f. place + left ≤ length f
        → IfOk result (λ t. t ≡ true)) }
    ensures outside { IfErr result IsOutside }
    ensures image { D.image disk.new ≡ D.image disk.old }
    ensures cause { HasOpenCause (D.fault_count disk.old) (D.fault_count disk.new) result }
    ensures still { OnlyReads D.may_leave D.moment D.left_since D.past D.left_with disk.old
        disk.new }
{
    match window.fill(disk, place, need, left) {
        Ok(()) => Ok(true),
        Err(OpenError::BrokenAt(_)) => Ok(false),
        Err(error) => Err(error),
    }
}

/// The extent of the block at a place, by its head, where there is one. The window has the block then, as far as its body.
fn hold_block<D: Disk>(
    disk: &mut D,
    window: &mut Window,
    place: u64,
    left: u64,
) -> Result<Option<u64>, OpenError>
    requires end { place + left < 2 ^ 64 }
    requires held { length (items window.old) ≤ left }
    ensures holds { IfSome (D.image disk.old) (λ f. length f ≡ place + left
        → StartsWith (drop place f) (items window.old)
        → IfOk result (HoldsBlock f place left (items window.new))) }
    ensures held { IfOk result (λ found. IfSome found (λ _. length (items window.new) ≤ left)) }
    ensures some { IfOk result (λ found. IfSome found (λ e. 0 < e)) }
    ensures outside { IfErr result IsOutside }
    ensures image { D.image disk.new ≡ D.image disk.old }
    ensures cause { HasOpenCause (D.fault_count disk.old) (D.fault_count disk.new) result }
    ensures still { OnlyReads D.may_leave D.moment D.left_since D.past D.left_with disk.old
        disk.new }
{
    if !fill(disk, window, place, BODY_OFFSET as u64, left)? {
        return Ok(None);
    }
    let Some(extent) = read_head(window.as_slice(), place) else {
        return Ok(None);
    };
    if !fill(disk, window, place, extent.min(LONGEST), left)? {
        return Ok(None);
    }
    Ok(Some(extent))
}

/// Reads the block at a place, and answers where the next may stand: at the end where none is read.
fn step<D: Disk>(
    disk: &mut D,
    window: &mut Window,
    reading: &mut Reading,
    place: u64,
    size: u64,
) -> Result<u64, OpenError>
    requires here { place < size }
    requires held { place + length (items window.old) ≤ size }
    ensures scanned { (h : Head)
        → Scanned (D.image disk.old) h size place (items window.old) reading.old
        → IfOk result (λ next. Scanned (D.image disk.old) h size next (items window.new)
        reading.new) }
    ensures further { IfOk result (λ next. place < next) }
    ensures outside { IfErr result IsOutside }
    ensures image { D.image disk.new ≡ D.image disk.old }
    ensures cause { HasOpenCause (D.fault_count disk.old) (D.fault_count disk.new) result }
    ensures still { OnlyReads D.may_leave D.moment D.left_since D.past D.left_with disk.old
        disk.new }
{
    let left = size - place;
    let Some(extent) = hold_block(disk, window, place, left)? else {
        return Ok(size);
    };
    if !reading.read(place, extent, window.as_slice())? {
        return Ok(size);
    }
    if extent >= left {
        return Ok(size);
    }
    let held = window.as_slice().len();
    window.pass(held.min(extent as usize));
    Ok(place + extent)
}

/// The records that the complete groups of a file of this header leave.
pub(crate) fn read_records<D: Disk>(
    alloc: Global,
    disk: &mut D,
    head: &StaticHead,
) -> Result<PairList, OpenError>
    requires p { head.now.p ≤ 24 }
    ensures records { IfSome (D.image disk.old) (λ f.
        IfOk result (λ pairs. pairs ≡ replay Hash (groups_in head.now f) [])) }
    ensures small { IfOk result AllPairsSmall }
    ensures outside { IfErr result IsOutside }
    ensures image { D.image disk.new ≡ D.image disk.old }
    ensures cause { HasOpenCause (D.fault_count disk.old) (D.fault_count disk.new) result }
    ensures still { OnlyReads D.may_leave D.moment D.left_since D.past D.left_with disk.old
        disk.new }
{
    let size = length_of(disk)?;
    let mut reading = Reading::new(alloc);
    let mut window = Window::new(alloc);
    let mut place = base_of(head.p);
    while place < size {
        place = step(disk, &mut window, &mut reading, place, size)?;
    }
    Ok(reading.into_pairs()?)
}
