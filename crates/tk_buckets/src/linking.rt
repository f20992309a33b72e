ghost use Rattle.std.specs.Prelude.{◌≡◌, ◌≢◌, ◌+◌, ◌*◌, ◌/◌, ◌<◌, ◌≤◌, ◌^◌, ◌∷◌, ◌&&◌, ◌-◌, List, ℕ, length, true, nat_le, Some, None, IfOk, IfSome, OnOk, if◌then◌else◌};
ghost use Rattle.std.specs.Option.{is_some, option_map};
ghost use Rattle.std.specs.Int.{w64, to_be_bytes};
ghost use Rattle.tk_disk.specs.Crash.{Torn, Follows, Elapses, OnlyReads, LeavesOnly, PastOnly};
ghost use Rattle.tk_disk.specs.Past.{with_write, Writes};
ghost use Rattle.tk_disk.specs.Disk.{put_at, HasCause};
ghost use Rattle.tk_block.specs.Sizes.{cell_size, least_extent};
ghost use Rattle.tk_block.specs.Number.{u64_in};
ghost use Rattle.tk_block.specs.Text.{base_of};
ghost use Rattle.tk_block.specs.declared.head.StaticHead.{StaticHead};
ghost use Rattle.tk_buckets.specs.Chain.{IsChain, IsLinked, IsNext, AreApart, IfInChain, head_cell, link_in, has_block, cell_to, without};

use crate::read::number_at;
use tk_block::{CELL_SIZE, HEADS_PLACE, LEAST_EXTENT, LINK_OFFSET, StaticHead};
use tk_disk::{Disk, DiskError};

/// Makes a block, whose link was written with it, the first of its bucket.
pub fn insert<D: Disk>(
    disk: &mut D,
    head: &StaticHead,
    bucket: u64,
    place: u64,
) -> Result<(), DiskError>
    requires p { head.now.p ≤ 24 }
    requires bucket { bucket < 2 ^ head.now.p }
    requires heads { IfSome (D.image disk.old) (λ f. base_of head.now.p ≤ length f) }
    // the file and its chains
    ensures written { OnOk result (D.image disk.new
        ≡ option_map (put_at (head_cell bucket) (to_be_bytes w64 place)) (D.image disk.old)) }
    ensures first { (places : List ℕ) → IfSome (D.image disk.old) (λ f.
        IsNext head.now f bucket place places
        → OnOk result (IfSome (D.image disk.new) (λ g. IsChain head.now g bucket
        (place ∷ places)))) }
    ensures others { (other : ℕ) (places : List ℕ) → other ≢ bucket
        → IfSome (D.image disk.old) (λ f. IsChain head.now f other places
        → OnOk result (IfSome (D.image disk.new) (λ g. IsChain head.now g other places))) }
    ensures told { is_some (D.image disk.new) ≡ is_some (D.image disk.old) }
    // its counts
    ensures taken { D.taken_count disk.new ≡ D.taken_count disk.old }
    ensures cause { HasCause (D.fault_count disk.old) (D.fault_count disk.new) result }
    // a crash: the head's eight bytes are all that is written
    ensures crash { Follows (Torn (head_cell bucket) cell_size) (D.may_leave disk.old)
        (D.may_leave disk.new) }
    ensures time { LeavesOnly D.moment D.left_since disk.old disk.new
        (λ c. (d : List ℕ) × D.may_leave disk.old d × Torn (head_cell bucket) cell_size d c) }
    ensures past { Writes (head_cell bucket) (to_be_bytes w64 place)
        (D.past disk.old) (D.past disk.new) }
    ensures told_past { IfSome (D.image disk.old) (λ _. OnOk result (D.past disk.new
        ≡ with_write (head_cell bucket) (to_be_bytes w64 place) (D.past disk.old))) }
    ensures pasts { PastOnly D.moment D.left_with disk.old disk.new
        (Writes (head_cell bucket) (to_be_bytes w64 place) (D.past disk.old)) }
    ensures time_with { Elapses (D.moment disk.old) (D.moment disk.new)
        (D.left_with disk.old) (D.left_with disk.new)
        (λ x. (x.0 ≡ D.past disk.new) × D.may_leave disk.new x.1) }
{
    disk.write_at(HEADS_PLACE + CELL_SIZE * bucket, &place.to_be_bytes())
}

/// The cell, where it was found and a file may reach so far.
fn found_cell(found: bool, cell: u64) -> Option<u64>
    ensures value { result ≡ if found && nat_le cell (2 ^ 40 - cell_size) then Some cell
        else None }
    ensures fits { IfSome result (λ c. c + cell_size ≤ 2 ^ 40) }
{
    if found && cell <= (1 << 40) - CELL_SIZE {
        Some(cell)
    } else {
        None
    }
}

/// The cell that leads to a block, from a cell on, in a file of this length.
fn cell_of<D: Disk>(disk: &mut D, cell: u64, place: u64, len: u64) -> Result<Option<u64>, DiskError>
    requires len { IfSome (D.image disk.old) (λ f. length f ≡ len) }
    requires size { IfSome (D.image disk.old) (λ f. length f ≤ 2 ^ 40) }
    ensures found { (h : StaticHead) (places : List ℕ) → IfSome (D.image disk.old) (λ f.
        cell + cell_size ≤ length f → IsLinked h f (u64_in f cell) places
        → has_block place places ≡ true → IfOk result (λ c. c ≡ Some (cell_to cell place places))) }
    ensures fits { IfOk result (λ c. IfSome c (λ n. n + cell_size ≤ 2 ^ 40)) }
    ensures cost { (h : StaticHead) (places : List ℕ) → IfSome (D.image disk.old) (λ f.
        cell + cell_size ≤ length f → IsLinked h f (u64_in f cell) places
        → has_block place places ≡ true → D.taken_count disk.new
        ≤ D.taken_count disk.old + cell_size * length places) }
    ensures bound { D.taken_count disk.new
        ≤ D.taken_count disk.old + cell_size + cell_size * (len / least_extent) }
    ensures image { D.image disk.new ≡ D.image disk.old }
    ensures more { D.taken_count disk.old ≤ D.taken_count disk.new }
    ensures cause { HasCause (D.fault_count disk.old) (D.fault_count disk.new) result }
    ensures still { OnlyReads D.may_leave D.moment D.left_since D.past D.left_with
        disk.old disk.new }
{
    let mut at = cell;
    let mut next = number_at(disk, cell)?;
    let mut steps = 0;
    while next != place && steps < len / LEAST_EXTENT {
        at = next.saturating_add(LINK_OFFSET as u64);
        next = number_at(disk, at)?;
        steps += 1;
    }
    Ok(found_cell(next == place, at))
}

/// Takes a block out of its bucket: the cell that led to it leads to the next one.
pub fn unlink<D: Disk>(
    disk: &mut D,
    head: &StaticHead,
    bucket: u64,
    place: u64,
) -> Result<(), DiskError>
    requires p { head.now.p ≤ 24 }
    requires bucket { bucket < 2 ^ head.now.p }
    requires chain { IfSome (D.image disk.old) (λ f. (places : List ℕ)
        × IsChain head.now f bucket places × (has_block place places ≡ true)) }
    requires size { IfSome (D.image disk.old) (λ f. length f ≤ 2 ^ 40) }
    // the file and its chains
    ensures written { IfInChain (D.image disk.old) head.now bucket place (λ f places. OnOk result
        (D.image disk.new ≡ Some (put_at (cell_to (head_cell bucket) place places)
        (to_be_bytes w64 (link_in f place)) f))) }
    ensures chain { IfInChain (D.image disk.old) head.now bucket place (λ _ places. OnOk result
        (IfSome (D.image disk.new) (λ g. IsChain head.now g bucket (without place places)))) }
    // a bucket of which no block has a byte in common with one of this bucket keeps its chain
    ensures others { (other : ℕ) (rest : List ℕ) → other < 2 ^ head.now.p → other ≢ bucket
        → IfInChain (D.image disk.old) head.now bucket place (λ f places.
        IsChain head.now f other rest → AreApart f places rest
        → OnOk result (IfSome (D.image disk.new) (λ g. IsChain head.now g other rest))) }
    ensures told { is_some (D.image disk.new) ≡ is_some (D.image disk.old) }
    // what was read: the head and links, no more than the file can have
    ensures cost { IfInChain (D.image disk.old) head.now bucket place (λ _ places.
        D.taken_count disk.new
        ≤ D.taken_count disk.old + cell_size + cell_size * length places) }
    ensures bound { IfSome (D.image disk.old) (λ f.
        D.taken_count disk.new
        ≤ D.taken_count disk.old + 2 * cell_size + cell_size * (length f / least_extent)) }
    ensures more { D.taken_count disk.old ≤ D.taken_count disk.new }
    ensures cause { HasCause (D.fault_count disk.old) (D.fault_count disk.new) result }
    // a crash: the eight bytes of the cell are all that is written
    ensures crash { IfInChain (D.image disk.old) head.now bucket place (λ _ places.
        Follows (Torn (cell_to (head_cell bucket) place places) cell_size)
        (D.may_leave disk.old) (D.may_leave disk.new)) }
    ensures time { IfInChain (D.image disk.old) head.now bucket place (λ _ places.
        LeavesOnly D.moment D.left_since disk.old disk.new
        (λ c. (d : List ℕ) × D.may_leave disk.old d
        × Torn (cell_to (head_cell bucket) place places) cell_size d c)) }
    ensures past { IfInChain (D.image disk.old) head.now bucket place (λ f places.
        Writes (cell_to (head_cell bucket) place places) (to_be_bytes w64 (link_in f place))
        (D.past disk.old) (D.past disk.new)) }
    ensures told_past { IfInChain (D.image disk.old) head.now bucket place (λ f places.
        OnOk result (D.past disk.new ≡ with_write (cell_to (head_cell bucket) place places)
        (to_be_bytes w64 (link_in f place)) (D.past disk.old))) }
    ensures pasts { IfInChain (D.image disk.old) head.now bucket place (λ f places.
        PastOnly D.moment D.left_with disk.old disk.new
        (Writes (cell_to (head_cell bucket) place places)
        (to_be_bytes w64 (link_in f place)) (D.past disk.old))) }
    ensures time_with { Elapses (D.moment disk.old) (D.moment disk.new)
        (D.left_with disk.old) (D.left_with disk.new)
        (λ x. (x.0 ≡ D.past disk.new) × D.may_leave disk.new x.1) }
{
    let len = disk.len()?;
    let Some(cell) = cell_of(disk, HEADS_PLACE + CELL_SIZE * bucket, place, len)? else {
        return Ok(());
    };
    let link = number_at(disk, place.saturating_add(LINK_OFFSET as u64))?;
    disk.write_at(cell, &link.to_be_bytes())
}
