//! Look-ups by key along a chain.
ghost use Rattle.std.specs.Prelude.{◌≡◌, ◌+◌, ◌-◌, ◌*◌, ◌/◌, ◌<◌, ◌≤◌, ◌^◌, ◌&&◌, ◌==◌, ℕ, List, true, min, max, length, take, drop, IfOk, IfSome, OnOk};
ghost use Rattle.tk_disk.specs.Crash.{OnlyReads};
ghost use Rattle.tk_disk.specs.Disk.{HasCause};
ghost use Rattle.tk_model.specs.Orders.{same_bytes};
ghost use Rattle.tk_block.specs.Sizes.{key_len_offset, key_offset, least_extent};
ghost use Rattle.tk_block.specs.Number.{u16_in, u32_in, u64_in};
ghost use Rattle.tk_block.specs.declared.head.StaticHead.{StaticHead};
ghost use Rattle.tk_buckets.specs.Chain.{IsLinked, IsWhole};
ghost use Rattle.tk_buckets.specs.Lookup.{IsBlockOf, body_in_block, read_of_block, read_of_chain, Finds};
ghost use Rattle.tk_buckets.specs.Seen.{Sees, shown_block};

use crate::read::read_bytes;
use tk_block::{
    BODY_OFFSET, EXTENT_OFFSET, KEY_LEN_OFFSET, KEY_OFFSET, LEAST_EXTENT, LINK_OFFSET,
    VALUE_LEN_OFFSET, u16_at, u32_at, u64_at,
};
use tk_disk::{Disk, DiskError};
use tk_model::is_same;

/// Head, link, numbers and the first eight letters of the key.
const FRONT: usize = KEY_OFFSET + 8;

/// A block that a look-up found. Kinds are those of `Body`.
#[derive(Clone, Copy, Debug)]
pub struct FoundBlock {
    pub place: u64,
    pub extent: u64,
    pub kind: u8,
    pub value_len: u32,
}

/// Reads bytes of a block at a place, those from one on up to the end, to where they stand in the buffer.
fn read_part<D: Disk>(
    disk: &mut D,
    place: u64,
    buffer: &mut [u8],
    from: usize,
    end: usize,
) -> Result<(), DiskError>
    requires from { from ≤ length buffer.old }
    requires end { end ≤ length buffer.old }
    ensures bytes { IfSome (D.image disk.old) (λ f. place + from < 2 ^ 64
        → end ≤ length (drop place f)
        → take from buffer.old ≡ take from (drop place f)
        → IfOk result (λ _. take (max from end) buffer.new ≡ take (max from end) (drop place f))) }
    ensures cost { D.taken_count disk.new ≤ D.taken_count disk.old + (end - from) }
    ensures image { D.image disk.new ≡ D.image disk.old }
    ensures more { D.taken_count disk.old ≤ D.taken_count disk.new }
    ensures cause { HasCause (D.fault_count disk.old) (D.fault_count disk.new) result }
    ensures still { OnlyReads D.may_leave D.moment D.left_since D.past D.left_with
        disk.old disk.new }
{
    if end <= from {
        return Ok(());
    }
    read_bytes(
        disk,
        place.saturating_add(from as u64),
        &mut buffer[from..end],
    )
}

/// The key of the block in the buffer has this one's length and first letters.
fn may_have(buffer: &[u8], key: &[u8]) -> bool
    requires { least_extent ≤ length buffer.now }
    ensures short { result ≡ true → length key.now < 65536 }
    ensures value { result ≡ ((u16_in buffer.now key_len_offset == length key.now)
        && same_bytes (take (min (length key.now) 8) key.now)
        (take (min (length key.now) 8) (drop key_offset buffer.now))) }
{
    let first = key.len().min(FRONT - KEY_OFFSET);
    u16_at(buffer, KEY_LEN_OFFSET) as usize == key.len()
        && is_same(&key[..first], &buffer[KEY_OFFSET..KEY_OFFSET + first])
}

/// Whether the block at a place has the key. The buffer then has the block's link, and where the block has the key, its
/// front and as much of its value as there is room for.
fn has_key_at<D: Disk>(
    disk: &mut D,
    place: u64,
    buffer: &mut [u8],
    key: &[u8],
) -> Result<bool, DiskError>
    requires front { least_extent ≤ length buffer.old }
    requires key { min 65575 (key_offset + length key.now) ≤ length buffer.old }
    ensures sees { (h : StaticHead) → IfSome (D.image disk.old) (λ f. IsWhole h f place
        → length f < 2 ^ 64 → IfOk result (Sees f key.now place buffer.new)) }
    ensures cost { (h : StaticHead) → IfSome (D.image disk.old) (λ f. IsWhole h f place
        → length f < 2 ^ 64 → D.taken_count disk.new ≤ D.taken_count disk.old
        + read_of_block key.now (length buffer.old) (body_in_block f place)) }
    ensures most { D.taken_count disk.new ≤ D.taken_count disk.old + length buffer.old }
    ensures short { IfOk result (λ has. has ≡ true → length key.now < 65536) }
    ensures image { D.image disk.new ≡ D.image disk.old }
    ensures more { D.taken_count disk.old ≤ D.taken_count disk.new }
    ensures cause { HasCause (D.fault_count disk.old) (D.fault_count disk.new) result }
    ensures still { OnlyReads D.may_leave D.moment D.left_since D.past D.left_with
        disk.old disk.new }
{
    read_part(disk, place, buffer, 0, FRONT)?;
    if !may_have(buffer, key) {
        return Ok(false);
    }
    let end = KEY_OFFSET + key.len() + u32_at(buffer, VALUE_LEN_OFFSET) as usize;
    let end = end.min(buffer.len());
    read_part(disk, place, buffer, FRONT, end)?;
    Ok(is_same(key, &buffer[KEY_OFFSET..KEY_OFFSET + key.len()]))
}

/// The block at a place, of which the buffer has the front.
fn shown_block(place: u64, buffer: &[u8]) -> FoundBlock
    requires { least_extent ≤ length buffer.now }
    ensures { result ≡ shown_block place buffer.now }
{
    FoundBlock {
        place,
        extent: u64_at(buffer, EXTENT_OFFSET),
        kind: buffer[BODY_OFFSET],
        value_len: u32_at(buffer, VALUE_LEN_OFFSET),
    }
}

/// The first block with the key in the chain that begins at a place, in a file no longer than this. Where there is one,
/// the buffer has its value behind 40 bytes and the key, or as much of it as there is room for.
pub fn find_block<D: Disk>(
    disk: &mut D,
    first: u64,
    len: u64,
    buffer: &mut [u8],
    key: &[u8],
) -> Result<Option<FoundBlock>, DiskError>
    requires len { IfSome (D.image disk.old) (λ f. length f ≤ len) }
    requires front { least_extent ≤ length buffer.old }
    requires key { min 65575 (key_offset + length key.now) ≤ length buffer.old }
    // the answer
    ensures found { (h : StaticHead) (places : List ℕ) → IfSome (D.image disk.old) (λ f.
        IsLinked h f first places → IfOk result (Finds f key.now places buffer.new)) }
    ensures short { IfOk result (λ x. IfSome x (λ _. length key.now < 65536)) }
    // what was read: of each block on the way as much as it takes, and of no more blocks than the file can have
    ensures cost { (h : StaticHead) (places : List ℕ) → IfSome (D.image disk.old) (λ f.
        IsLinked h f first places → D.taken_count disk.new
        ≤ D.taken_count disk.old + read_of_chain f key.now (length buffer.old) places) }
    ensures bound { D.taken_count disk.new
        ≤ D.taken_count disk.old + len / least_extent * length buffer.old }
    ensures more { D.taken_count disk.old ≤ D.taken_count disk.new }
    // the disk
    ensures image { D.image disk.new ≡ D.image disk.old }
    ensures cause { HasCause (D.fault_count disk.old) (D.fault_count disk.new) result }
    ensures still { OnlyReads D.may_leave D.moment D.left_since D.past D.left_with
        disk.old disk.new }
{
    let mut place = first;
    let mut steps = 0;
    while place != 0 && steps < len / LEAST_EXTENT {
        if has_key_at(disk, place, buffer, key)? {
            return Ok(Some(shown_block(place, buffer)));
        }
        place = u64_at(buffer, LINK_OFFSET);
        steps += 1;
    }
    Ok(None)
}

/// Fills the answer with the front of the value of a block that was found, of which the buffer has as much as it can.
pub fn fill_value<D: Disk>(
    disk: &mut D,
    block: &FoundBlock,
    buffer: &[u8],
    key: &[u8],
    into: &mut [u8],
) -> Result<(), DiskError>
    requires key { key_offset + length key.now ≤ length buffer.now }
    ensures filled { IfSome (D.image disk.old) (λ f. length f < 2 ^ 64
        → length into.old ≤ block.now.value_len → (x : IsBlockOf f key.now buffer.now block.now)
        → IfOk result (λ _. into.new ≡ take (length into.old) x.body.value)) }
    ensures cost { D.taken_count disk.new ≤ D.taken_count disk.old
        + (length into.old - (length buffer.now - (key_offset + length key.now))) }
    ensures image { D.image disk.new ≡ D.image disk.old }
    ensures more { D.taken_count disk.old ≤ D.taken_count disk.new }
    ensures cause { HasCause (D.fault_count disk.old) (D.fault_count disk.new) result }
    ensures still { OnlyReads D.may_leave D.moment D.left_since D.past D.left_with
        disk.old disk.new }
{
    let start = KEY_OFFSET + key.len();
    let have = into.len().min(buffer.len() - start);
    into[..have].copy_from_slice(&buffer[start..start + have]);
    if have < into.len() {
        let at = block.place.saturating_add(buffer.len() as u64);
        read_bytes(disk, at, &mut into[have..])?;
    }
    Ok(())
}
