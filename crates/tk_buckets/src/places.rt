ghost use Rattle.std.specs.Prelude.{◌≡◌, ◌+◌, ◌*◌, ◌/◌, ◌≤◌, List, [], ℕ, length, IfOk, IfSome};
ghost use Rattle.tk_disk.specs.Crash.{OnlyReads};
ghost use Rattle.tk_disk.specs.Disk.{HasFaultCause};
ghost use Rattle.tk_block.specs.Sizes.{cell_size, least_extent};
ghost use Rattle.tk_block.specs.Number.{u64_in};
ghost use Rattle.tk_block.specs.declared.head.StaticHead.{StaticHead};
ghost use Rattle.tk_block.specs.Text.{base_of};
ghost use Rattle.tk_block.specs.Layout.{laid};
ghost use Rattle.tk_block.specs.declared.block.Body.{Body};
ghost use Rattle.tk_buckets.specs.Chain.{IsLinked, IsWritten, bucket_blocks, head_cell, places_in};

use crate::read::number_at;
use std::alloc::Global;
use tk_block::{LEAST_EXTENT, LINK_OFFSET};
use tk_disk::{Disk, DiskError};
use tk_model::ListOf;

/// Places of blocks.
pub type PlaceList = ListOf<u64>;

/// The places of the blocks of the chain that begins at a place, the first first, in a file no longer than this.
pub fn chain<D: Disk>(
    alloc: Global,
    disk: &mut D,
    first: u64,
    len: u64,
) -> Result<PlaceList, DiskError>
    requires len { IfSome (D.image disk.old) (λ f. length f ≤ len) }
    // the answer, which has no more places than the file can have blocks
    ensures all { (h : StaticHead) (places : List ℕ) → IfSome (D.image disk.old) (λ f.
        IsLinked h f first places → IfOk result (λ l. l ≡ places)) }
    ensures newest_first { (h : StaticHead) (bucket : ℕ) (bodies : List Body)
        → IfSome (D.image disk.old) (λ f. IsWritten h f bucket bodies
        → first ≡ u64_in f (head_cell bucket) → IfOk result (λ l.
        l ≡ places_in (bucket_blocks h.p bucket [] (laid (base_of h.p) bodies)))) }
    ensures few { IfOk result (λ l. length l ≤ len / 48) }
    // what was read: a link of each block
    ensures taken { (h : StaticHead) (places : List ℕ) → IfSome (D.image disk.old) (λ f.
        IsLinked h f first places
        → D.taken_count disk.new ≤ D.taken_count disk.old + cell_size * length places) }
    ensures bound { D.taken_count disk.new
        ≤ D.taken_count disk.old + cell_size * (len / least_extent) }
    ensures more { D.taken_count disk.old ≤ D.taken_count disk.new }
    // the disk
    ensures image { D.image disk.new ≡ D.image disk.old }
    ensures cause { HasFaultCause (D.fault_count disk.old) (D.fault_count disk.new) result }
    ensures still { OnlyReads D.may_leave D.moment D.left_since D.past D.left_with
        disk.old disk.new }
{
    let mut places = PlaceList::new(alloc);
    let mut next = first;
    while next != 0 && (places.len() as u64) < len / LEAST_EXTENT {
        places.push(next)?;
        next = number_at(disk, next.saturating_add(LINK_OFFSET as u64))?;
    }
    Ok(places)
}
