//! The heads of a file's buckets, beside those that its blocks give.
ghost use Rattle.std.specs.Prelude.{◌≡◌, ◌≤◌, ◌<◌, ◌^◌, ◌+◌, ◌-◌, ◌*◌, ℕ, List, length, drop, slice_index, IfOk, IfErr, IfSome, MatchOption, Some};
ghost use Rattle.std.specs.Io.{StartsWith};
ghost use Rattle.tk_disk.specs.Crash.{OnlyReads};
ghost use Rattle.tk_block.specs.Sizes.{heads_place, cell_size};
ghost use Rattle.tk_block.specs.Layout.{Placed};
ghost use Rattle.tk_append.specs.Opening.{head_fault};
ghost use Rattle.tk_append.specs.Chains.{HeadsAre};
ghost use Rattle.tk_append.specs.Read.{IsOutside, HasOpenCause};
ghost use Rattle.tk_append.specs.Checked.{HeadsStand, HeadFails};

use crate::window::read_piece;
use std::alloc::Global;
use tk_block::{CELL_SIZE, HEADS_PLACE, u64_at};
use tk_disk::{Disk, zeros};
use tk_model::OpenError;

/// So many heads are read at once.
const PIECE: usize = 1 << 17;

/// The place of the first of so many heads that is not this one, by their bytes.
fn head_fault_in(bytes: &[u8], heads: &[u64], first: usize, count: usize) -> Option<u64>
    requires bytes { length bytes.now ≡ cell_size * count }
    requires heads { first + count ≤ length heads.now }
    requires few { length heads.now ≤ 2 ^ 24 }
    ensures fault { MatchOption result
        ((p : ℕ) (blocks : List Placed) (f : List ℕ) → HeadsAre p heads.now blocks
        → StartsWith (drop (heads_place + cell_size * first) f) bytes.now
        → head_fault p blocks f (2 ^ p - first) first ≡ head_fault p blocks f (2 ^ p - (first + count)) (first + count))
        (λ q. (p : ℕ) (blocks : List Placed) (f : List ℕ) → HeadsAre p heads.now blocks
        → StartsWith (drop (heads_place + cell_size * first) f) bytes.now
        → head_fault p blocks f (2 ^ p - first) first ≡ Some q) }
    ensures small { (i : ℕ) → slice_index bytes.now i < 256 }
{
    for i in 0..count {
        let bucket = first + i;
        if u64_at(bytes, 8 * i) != heads[bucket] {
            return Some(HEADS_PLACE + CELL_SIZE * bucket as u64);
        }
    }
    None
}

/// The place of the first head of the disk's file that is not this one.
pub(crate) fn head_fault<D: Disk>(
    alloc: Global,
    disk: &mut D,
    heads: &[u64],
) -> Result<Option<u64>, OpenError>
    requires { length heads.now ≤ 2 ^ 24 }
    ensures fault { IfOk result (λ o. MatchOption o (HeadsStand (D.image disk.old) heads.now)
        (λ q. HeadFails (D.image disk.old) heads.now q)) }
    ensures outside { IfSome (D.image disk.old) (λ f.
        heads_place + cell_size * length heads.now ≤ length f → IfErr result IsOutside) }
    ensures image { D.image disk.new ≡ D.image disk.old }
    ensures cause { HasOpenCause (D.fault_count disk.old) (D.fault_count disk.new) result }
    ensures still { OnlyReads D.may_leave D.moment D.left_since D.past D.left_with disk.old
        disk.new }
{
    let mut buffer = zeros(alloc, 8 * PIECE.min(heads.len()))?;
    let mut first = 0;
    while first < heads.len() {
        let count = PIECE.min(heads.len() - first);
        let bytes = &mut buffer[..8 * count];
        read_piece(disk, HEADS_PLACE + CELL_SIZE * first as u64, bytes)?;
        if let Some(place) = head_fault_in(bytes, heads, first, count) {
            return Ok(Some(place));
        }
        first += count;
    }
    Ok(None)
}
