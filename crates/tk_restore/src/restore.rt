ghost use Rattle.std.specs.Prelude.{◌≡◌, ◌≤◌, ◌^◌, ℕ, List, [], nat_le, true, IfOk, IfErr, IfSome, IsSomeAnd, OnOk, Err, Some};
ghost use Rattle.std.specs.Option.{is_some};
ghost use Rattle.tk_model.specs.declared.error.OpenError.TheVariants as errors;
ghost use Rattle.tk_disk.specs.Crash.{OnlyReads, Only, LeavesOnly};
ghost use Rattle.tk_block.specs.Text.{is_static};
ghost use Rattle.tk_append.specs.Fresh.{AllPairsSmall, IsFreshMoment, fresh_groups, fresh_size, fresh_text};
ghost use Rattle.tk_append.specs.Read.{IsOutside, HasOpenCause, TellsResult};
ghost use Rattle.tk_restore.specs.Causes.{HasEitherCause};
ghost use Rattle.tk_restore.specs.Reading.{IsFit, IsReadFrom};
ghost use Rattle.tk_restore.specs.Restoration.{IsAppending, IsRestoredFrom, IsRestoringMoment, OnRefusal, refusal};

use crate::scan::{read_header, read_records};
use std::alloc::Global;
use tk_append::write_or_empty;
use tk_block::{StaticHead, base_of, extent_of};
use tk_disk::{Disk, DiskError};
use tk_model::{OpenError, Pair, PairList};

/// The most bytes of a file.
const LIMIT: u64 = 1 << 40;

/// A file of this header has room for all the records.
fn has_room(head: &StaticHead, pairs: &[Pair]) -> bool
    requires p { head.now.p ≤ 24 }
    requires small { AllPairsSmall pairs.now }
    ensures { result ≡ nat_le (fresh_size head.now 0 pairs.now) (2 ^ 40) }
{
    let mut size = base_of(head.p);
    for pair in pairs {
        if size > LIMIT {
            return false;
        }
        size += extent_of(pair.key.len(), pair.value.len());
    }
    size <= LIMIT
}

/// Writes the file of these records. After want of memory the disk is empty again.
fn write_file<D: Disk>(
    alloc: Global,
    disk: &mut D,
    head: &StaticHead,
    pairs: &PairList,
) -> Result<(), OpenError>
    requires head { is_static head.now ≡ true }
    requires small { AllPairsSmall pairs.now }
    requires end { fresh_size head.now 0 pairs.now ≤ 2 ^ 40 }
    requires empty { IfSome (D.image disk.old) (λ f. f ≡ []) }
    ensures written { OnOk result
        (IfSome (D.image disk.old) (λ _.
        D.image disk.new ≡ Some (fresh_text head.now 0 pairs.now))) }
    ensures durable { OnOk result (IfSome (D.image disk.new) (λ f. Only f (D.may_leave disk.new))) }
    ensures pasts { IfSome (D.image disk.old) (λ _.
        LeavesOnly D.moment D.left_with disk.old disk.new
        (IsFreshMoment head.now (fresh_groups head.now.kind 0 pairs.now)
        (fresh_text head.now 0 pairs.now) (D.past disk.old))) }
    ensures no_memory { result ≡ Err errors.NoMemory → D.image disk.new ≡ D.image disk.old }
    ensures outside { IfErr result IsOutside }
    ensures told { is_some (D.image disk.new) ≡ is_some (D.image disk.old) }
    ensures cause { HasOpenCause (D.fault_count disk.old) (D.fault_count disk.new) result }
{
    match write_or_empty(alloc, disk, head, 0, pairs) {
        Ok(()) => Ok(()),
        Err(DiskError::Fault) => Err(OpenError::Fault),
        Err(DiskError::NoMemory) => Err(OpenError::NoMemory),
    }
}

/// What an image is restored to: the header of the new file, and its records.
#[derive(Drop)]
pub struct Restoration {
    pub(crate) head: StaticHead,
    pub(crate) pairs: PairList,
}

/// Reads the records that a crash left of an appending file. All complete groups count, up to the first place that
/// is no block of theirs; what stands behind is left out.
pub fn read_restoration<D: Disk>(alloc: Global, from: &mut D) -> Result<Restoration, OpenError>
    requires kind { IfSome (D.image from.old) IsAppending }
    // what is read, and what is refused
    ensures read { IfSome (D.image from.old) (λ image. IfOk result (IsReadFrom image)) }
    ensures fits { IfOk result IsFit }
    ensures exact { IfSome (D.image from.old) (λ image. TellsResult result (refusal image)) }
    ensures refused { IfErr result (λ e. OnRefusal e (Unit {0})) }
    // the disk
    ensures image { D.image from.new ≡ D.image from.old }
    ensures still { OnlyReads D.may_leave D.moment D.left_since D.past D.left_with from.old
        from.new }
    ensures cause { HasOpenCause (D.fault_count from.old) (D.fault_count from.new) result }
{
    let Some(head) = read_header(from)? else {
        return Err(OpenError::NotADatabase);
    };
    let pairs = read_records(alloc, from, &head)?;
    let head = StaticHead {
        generation: 0,
        ..head
    };
    if !has_room(&head, pairs.as_slice()) {
        return Err(OpenError::BrokenAt(10));
    }
    Ok(Restoration { head, pairs })
}

/// Writes what was read to an empty disk, as a closed file, and answers the number of records.
pub fn write_restoration<D: Disk>(
    alloc: Global,
    restoration: &Restoration,
    to: &mut D,
) -> Result<u64, OpenError>
    requires fits { IsFit restoration.now }
    requires empty { IfSome (D.image to.old) (λ f. f ≡ []) }
    // what is written
    ensures restored { (image : List ℕ) → IsReadFrom image restoration.now
        → IfSome (D.image to.old) (λ _.
        IfOk result (λ n. IsSomeAnd (D.image to.new) (λ file. IsRestoredFrom image file n))) }
    ensures durable { OnOk result (IfSome (D.image to.new) (λ f. Only f (D.may_leave to.new))) }
    // what a crash leaves while it is written
    ensures pasts { (image : List ℕ) → IsReadFrom image restoration.now
        → IfSome (D.image to.old) (λ _.
        LeavesOnly D.moment D.left_with to.old to.new (IsRestoringMoment image (D.past to.old))) }
    // the disk
    ensures no_memory { result ≡ Err errors.NoMemory → D.image to.new ≡ D.image to.old }
    ensures outside { IfErr result IsOutside }
    ensures told { is_some (D.image to.new) ≡ is_some (D.image to.old) }
    ensures cause { HasOpenCause (D.fault_count to.old) (D.fault_count to.new) result }
{
    write_file(alloc, to, &restoration.head, &restoration.pairs)?;
    Ok(restoration.pairs.len() as u64)
}

/// Writes the records that a crash left of an appending file to an empty disk, as a closed file, and answers their
/// number. All complete groups count, up to the first place that is no block of theirs; what stands behind is left out.
pub fn restore_appending<D: Disk>(alloc: Global, from: &mut D, to: &mut D) -> Result<u64, OpenError>
    requires kind { IfSome (D.image from.old) IsAppending }
    requires empty { IfSome (D.image to.old) (λ f. f ≡ []) }
    // what is written
    ensures restored { IfSome (D.image from.old) (λ image. IfSome (D.image to.old) (λ _.
        IfOk result (λ n. IsSomeAnd (D.image to.new) (λ file. IsRestoredFrom image file n)))) }
    ensures durable { OnOk result (IfSome (D.image to.new) (λ f. Only f (D.may_leave to.new))) }
    // what a crash leaves while it is written
    ensures pasts { IfSome (D.image from.old) (λ image. IfSome (D.image to.old) (λ _.
        LeavesOnly D.moment D.left_with to.old to.new
        (IsRestoringMoment image (D.past to.old)))) }
    // what is refused
    ensures exact { IfSome (D.image from.old) (λ image. TellsResult result (refusal image)) }
    ensures untouched { IfErr result (λ e. OnRefusal e (to.new ≡ to.old)) }
    ensures no_memory { result ≡ Err errors.NoMemory → D.image to.new ≡ D.image to.old }
    // the disks
    ensures image { D.image from.new ≡ D.image from.old }
    ensures still { OnlyReads D.may_leave D.moment D.left_since D.past D.left_with from.old
        from.new }
    ensures told { is_some (D.image to.new) ≡ is_some (D.image to.old) }
    ensures cause { HasEitherCause (D.fault_count from.old) (D.fault_count from.new)
        (D.fault_count to.old) (D.fault_count to.new) result }
{
    let restoration = read_restoration(alloc, from)?;
    write_restoration(alloc, &restoration, to)
}
