ghost use Rattle.std.specs.Prelude.{◌≡◌, ◌≤◌, ◌<◌, ◌^◌, ◌+◌, ◌*◌, ◌==◌, ℕ, Bool, List, length, take, drop, None, Some, IfOk, IfErr, IsErrOf, IfSome, OnOk, slice_index};
ghost use Rattle.std.specs.List.{list_any};
ghost use Rattle.std.specs.Io.{StartsWith};
ghost use Rattle.tk_disk.specs.Crash.{OnlyReads};
ghost use Rattle.tk_model.specs.declared.record.ShardOf.{ShardOf as Shard};
ghost use Rattle.tk_model.specs.declared.error.OpenError.TheVariants as OpenError;
ghost use Rattle.tk_block.specs.Sizes.{closing_place, heads_place, cell_size};
ghost use Rattle.tk_block.specs.Text.{closing_at, static_at, base_of};
ghost use Rattle.tk_block.specs.declared.head.StaticHead.{StaticHead as Head};
ghost use Rattle.tk_append.specs.Chains.{HeadsAre};
ghost use Rattle.tk_append.specs.Opening.{Walk, Ends, records_in, first_fault, closing_fault, end_fault, count_fault};
ghost use Rattle.tk_append.specs.Log.{TellsCause};
ghost use Rattle.tk_append.specs.Walked.{IsAt, NewestIn, Shows, live_head, least_behind};
ghost use Rattle.tk_append.specs.Checked.{Finds, FindsCause, HeadIn, ClosingIn, IsFront, HasHeads};
ghost use Rattle.tk_append.specs.Read.{IsOutside, HasOpenCause, IsClosedOn, TellsResult};

use crate::heads::head_fault;
use crate::scan::walk_file;
use crate::walker::Walker;
use crate::window::read_piece;
use std::alloc::Global;
use tk_block::{
    CLOSING_PLACE, Closing, HEADS_PLACE, KIND_PLACE, LEAST_EXTENT, NEXT_PLACE, STATIC_SIZE,
    StaticHead, base_of, read_closing, read_static,
};
use tk_disk::{Disk, DiskError};
use tk_model::{OpenError, ShardOf};

/// What a file's header says.
#[derive(Clone, Copy)]
pub(crate) struct Found {
    pub head: StaticHead,
    pub closing: Closing,
}

/// What a file's header says, and the newest block of each bucket.
#[derive(Drop)]
pub(crate) struct FoundHeads {
    pub found: Found,
    pub heads: Vec<u64>,
}

/// The length of the disk's file.
pub fn length_of<D: Disk>(disk: &mut D) -> Result<u64, OpenError>
    ensures value { IfSome (D.image disk.old) (λ f. IfOk result (λ n. n ≡ length f)) }
    ensures image { D.image disk.new ≡ D.image disk.old }
    ensures outside { IfErr result IsOutside }
    ensures unmet { IsErrOf result OpenError.NoMemory → ⊥ }
    ensures cause { HasOpenCause (D.fault_count disk.old) (D.fault_count disk.new) result }
    ensures still { OnlyReads D.may_leave D.moment D.left_since D.past D.left_with disk.old
        disk.new }
{
    match disk.len() {
        Ok(len) => Ok(len),
        Err(DiskError::Fault) => Err(OpenError::Fault),
        Err(DiskError::NoMemory) => Err(OpenError::NoMemory),
    }
}

fn is_among(kinds: &[u8], kind: u8) -> bool
    ensures { result ≡ list_any (λ k. k == kind) kinds.now }
{
    kinds.contains(&kind)
}

/// The header of a file of one of these kinds, by the file's front.
fn head_in(front: &[u8], kinds: &[u8]) -> Result<StaticHead, OpenError>
    requires long { length front.now ≡ heads_place }
    ensures found { (f : List ℕ) → StartsWith f front.now → IfOk result (HeadIn kinds.now f) }
    ensures p { IfOk result (λ h. h.p ≤ 24) }
    ensures fails { (writable : Bool) (shard : Shard) (f : List ℕ) → StartsWith f front.now
        → IfErr result (λ e. FindsCause e (first_fault kinds.now writable shard f)) }
    ensures no_fault { IsErrOf result OpenError.Fault → ⊥ }
    ensures small { (i : ℕ) → slice_index front.now i < 256 }
{
    let Some(head) = read_static(front) else {
        return Err(OpenError::NotADatabase);
    };
    if !is_among(kinds, head.kind) {
        return Err(OpenError::BrokenAt(KIND_PLACE));
    }
    Ok(head)
}

/// The closing part of a file of this size, by the file's front.
fn closing_in(front: &[u8], size: u64, p: u8) -> Result<Closing, OpenError>
    requires p { p ≤ 24 }
    requires long { length front.now ≡ heads_place }
    ensures found { (f : List ℕ) → StartsWith f front.now → length f ≡ size
        → IfOk result (ClosingIn p f) }
    ensures fails { (writable : Bool) (h : Head) (shard : Shard) (f : List ℕ)
        → StartsWith f front.now → length f ≡ size → h.p ≡ p
        → IfErr result
        (λ e. FindsCause e (closing_fault writable h shard f (closing_at (drop closing_place f)))) }
    ensures no_fault { IsErrOf result OpenError.Fault → ⊥ }
    ensures size { IfOk result (λ c. c.size ≡ size) }
    ensures base { IfOk result (λ c. base_of p ≤ c.size) }
{
    let Some(closing) = read_closing(&front[STATIC_SIZE..]) else {
        return Err(OpenError::BrokenAt(CLOSING_PLACE));
    };
    if closing.size != size || closing.size < base_of(p) {
        return Err(OpenError::BrokenAt(CLOSING_PLACE));
    }
    Ok(closing)
}

/// The header and the closing part of the disk's file.
fn read_front<D: Disk>(disk: &mut D, kinds: &[u8]) -> Result<Found, OpenError>
    ensures front { IfOk result (IsFront (D.image disk.old) kinds.now) }
    ensures fails { IfSome (D.image disk.old) (λ f. (writable : Bool) (shard : Shard)
        → IfErr result (λ e. TellsCause e (first_fault kinds.now writable shard f))) }
    ensures image { D.image disk.new ≡ D.image disk.old }
    ensures cause { HasOpenCause (D.fault_count disk.old) (D.fault_count disk.new) result }
    ensures still { OnlyReads D.may_leave D.moment D.left_since D.past D.left_with disk.old
        disk.new }
{
    let size = length_of(disk)?;
    if size < HEADS_PLACE {
        return Err(OpenError::NotADatabase);
    }
    let mut front = [0; 64];
    read_piece(disk, 0, &mut front)?;
    let head = head_in(&front, kinds)?;
    let closing = closing_in(&front, size, head.p)?;
    Ok(Found { head, closing })
}

/// The closing part tells the number of records, and a next number above all.
fn check_count(
    writable: bool,
    closing: &Closing,
    count: usize,
    before: Option<u64>,
) -> Result<(), OpenError>
    ensures exact { (w : Walk) → count ≡ length (records_in w.blocks)
        → w.least ≡ least_behind before → Finds result (count_fault writable closing.now w) }
    ensures no_fault { IsErrOf result OpenError.Fault → ⊥ }
{
    let is_above = before.is_none_or(|number| number < closing.next);
    if closing.count != count as u64 || !is_above {
        return Err(OpenError::BrokenAt(CLOSING_PLACE));
    }
    if writable && closing.next > 1 << 62 {
        return Err(OpenError::BrokenAt(NEXT_PLACE));
    }
    Ok(())
}

/// Behind the blocks: the last group is complete, the heads are right and the closing part fits.
fn check_end<D: Disk>(
    alloc: Global,
    disk: &mut D,
    walker: &mut Walker,
    closing: &Closing,
    writable: bool,
) -> Result<(), OpenError>
    requires { length walker.old.heads.items ≤ 2 ^ 24 }
    ensures heads { (p place : ℕ) (w : Walk) → IsAt p place walker.old w
        → OnOk result (HeadsAre p walker.new.heads.items w.blocks) }
    ensures ends { (h : Head) (place : ℕ) (w : Walk) → IsAt h.p place walker.old w
        → OnOk result (HasHeads (D.image disk.old) h w closing.now writable) }
    ensures fails { (h : Head) (place : ℕ) (w : Walk) → IsAt h.p place walker.old w
        → IfSome (D.image disk.old) (λ f.
        heads_place + cell_size * length walker.old.heads.items ≤ length f
        → IfErr result (λ e. TellsCause e (end_fault writable h closing.now f (Ends w)))) }
    ensures image { D.image disk.new ≡ D.image disk.old }
    ensures cause { HasOpenCause (D.fault_count disk.old) (D.fault_count disk.new) result }
    ensures still { OnlyReads D.may_leave D.moment D.left_since D.past D.left_with disk.old
        disk.new }
{
    if let Some(first) = walker.open_group {
        return Err(OpenError::BrokenAt(first.place));
    }
    walker.settle();
    match head_fault(alloc, disk, &walker.heads)? {
        Some(place) => Err(OpenError::BrokenAt(place)),
        None => check_count(writable, closing, walker.keys.len(), walker.before),
    }
}

/// Checks the disk's file, from its front to its end, and answers what its header says and its heads, or what fails first.
pub(crate) fn check_disk<D: Disk>(
    alloc: Global,
    disk: &mut D,
    kinds: &[u8],
    writable: bool,
    shard: ShardOf,
) -> Result<FoundHeads, OpenError>
    requires shard { shard.index < shard.of }
    ensures exact { IfSome (D.image disk.old)
        (λ f. TellsResult result (first_fault kinds.now writable shard f)) }
    ensures closed { IfOk result (λ r. IsClosedOn (D.image disk.old) kinds.now writable shard
        r.found r.heads.items) }
    ensures head { IfSome (D.image disk.old)
        (λ f. IfOk result (λ r. static_at f ≡ Some r.found.head)) }
    ensures image { D.image disk.new ≡ D.image disk.old }
    ensures cause { HasOpenCause (D.fault_count disk.old) (D.fault_count disk.new) result }
    ensures still { OnlyReads D.may_leave D.moment D.left_since D.past D.left_with disk.old
        disk.new }
{
    let found = read_front(disk, kinds)?;
    let Closing { count, size, .. } = found.closing;
    let keys = count.min(size / LEAST_EXTENT) as usize;
    let mut walker = walk_file(alloc, disk, &found.head, shard, size, keys)?;
    check_end(alloc, disk, &mut walker, &found.closing, writable)?;
    let heads = walker.into_heads();
    Ok(FoundHeads { found, heads })
}
