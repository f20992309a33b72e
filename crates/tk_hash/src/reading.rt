//! The changes of blocks, and buckets that have some.
ghost use Rattle.std.specs.Prelude.{◌≡◌, ◌≢◌, ◌+◌, ◌-◌, ◌<◌, ◌≤◌, ◌^◌, ℕ, length, slice_index, take, drop, IfOk, IfSome, OnOk};
ghost use Rattle.tk_disk.specs.Crash.{OnlyReads};
ghost use Rattle.tk_store.specs.Store.{HasCause, NeverFull, OkOrFault};
ghost use Rattle.tk_block.specs.Layout.{Placed};
ghost use Rattle.tk_block.specs.declared.head.StaticHead.{StaticHead};
ghost use Rattle.tk_buckets.specs.Lookup.{StandsAt};
ghost use Rattle.tk_append.specs.Opening.{change_in};

use std::alloc::Global;
use tk_block::{BODY_OFFSET, KEY_LEN_OFFSET, KEY_OFFSET, VALUE_LEN_OFFSET, u16_at, u32_at};
use tk_buckets::read_bytes;
use tk_disk::{Disk, DiskError, zeros};
use tk_model::{Bytes, Change, NoMemory, Pair};
use tk_store::StoreError;

/// Fills the buffer with the bytes from a place on.
fn fill_from<D: Disk>(disk: &mut D, at: u64, into: &mut [u8]) -> Result<(), StoreError>
    ensures bytes { IfSome (D.image disk.old) (λ f. at + length into.old ≤ length f
        → OnOk result (into.new ≡ take (length into.old) (drop at f))) }
    ensures image { D.image disk.new ≡ D.image disk.old }
    ensures still { OnlyReads D.may_leave D.moment D.left_since D.past D.left_with
        disk.old disk.new }
    ensures taken { D.taken_count disk.old ≤ D.taken_count disk.new }
    ensures cause { HasCause (D.fault_count disk.old) (D.fault_count disk.new) result }
    ensures answers { OkOrFault result }
{
    match read_bytes(disk, at, into) {
        Ok(()) => Ok(()),
        Err(DiskError::Fault) => Err(StoreError::Fault),
        Err(DiskError::NoMemory) => Err(StoreError::NoMemory),
    }
}

/// So many bytes from a place on.
fn bytes_at<D: Disk>(
    alloc: Global,
    disk: &mut D,
    at: u64,
    len: usize,
) -> Result<Vec<u8>, StoreError>
    ensures bytes { IfSome (D.image disk.old) (λ f. at + len ≤ length f
        → IfOk result (λ b. b.items ≡ take len (drop at f))) }
    ensures long { IfOk result (λ b. length b.items ≡ len) }
    ensures image { D.image disk.new ≡ D.image disk.old }
    ensures still { OnlyReads D.may_leave D.moment D.left_since D.past D.left_with
        disk.old disk.new }
    ensures taken { D.taken_count disk.old ≤ D.taken_count disk.new }
    ensures cause { HasCause (D.fault_count disk.old) (D.fault_count disk.new) result }
    ensures never { NeverFull result }
{
    let mut bytes = zeros(alloc, len)?;
    fill_from(disk, at, &mut bytes)?;
    Ok(bytes)
}

/// The kind of a block, and the lengths of its key and value.
#[derive(Clone, Copy)]
struct Front {
    kind: u8,
    key: u16,
    value: u32,
}

/// What the front of a block says.
fn front_at<D: Disk>(disk: &mut D, place: u64) -> Result<Front, StoreError>
    ensures says { (h : StaticHead) (x : Placed) → IfSome (D.image disk.old) (λ f.
        StandsAt h f x → length f < 2 ^ 64 → place ≡ x.place → IfOk result (λ front.
        (front.kind ≡ x.body.kind) × (front.key ≡ length x.body.key)
        × (front.value ≡ length x.body.value))) }
    ensures image { D.image disk.new ≡ D.image disk.old }
    ensures still { OnlyReads D.may_leave D.moment D.left_since D.past D.left_with
        disk.old disk.new }
    ensures taken { D.taken_count disk.old ≤ D.taken_count disk.new }
    ensures cause { HasCause (D.fault_count disk.old) (D.fault_count disk.new) result }
    ensures never { NeverFull result }
{
    let mut bytes = [0; 48];
    fill_from(disk, place, &mut bytes)?;
    Ok(Front {
        kind: bytes[BODY_OFFSET],
        key: u16_at(&bytes, KEY_LEN_OFFSET),
        value: u32_at(&bytes, VALUE_LEN_OFFSET),
    })
}

/// The change of this kind, of the bytes of a key and of a value.
fn change_of(alloc: Global, kind: u8, key: &[u8], value: &[u8]) -> Result<Change, NoMemory>
    ensures { (x : Placed) → kind ≡ x.body.kind → key.now ≡ x.body.key
        → value.now ≡ x.body.value → IfOk result (λ c. c ≡ change_in x.body) }
{
    let key = Bytes::from_slice(alloc, key)?;
    match kind {
        1 => Ok(Change::Put(Pair {
            key,
            value: Bytes::from_slice(alloc, value)?,
        })),
        2 => Ok(Change::Drop(key)),
        _ => Ok(Change::Clear),
    }
}

/// The change that a block tells.
pub(crate) fn change_at<D: Disk>(
    alloc: Global,
    disk: &mut D,
    place: u64,
) -> Result<Change, StoreError>
    ensures says { (h : StaticHead) (x : Placed) → IfSome (D.image disk.old) (λ f.
        StandsAt h f x → length f < 2 ^ 64 → place ≡ x.place
        → IfOk result (λ c. c ≡ change_in x.body)) }
    ensures image { D.image disk.new ≡ D.image disk.old }
    ensures still { OnlyReads D.may_leave D.moment D.left_since D.past D.left_with
        disk.old disk.new }
    ensures taken { D.taken_count disk.old ≤ D.taken_count disk.new }
    ensures cause { HasCause (D.fault_count disk.old) (D.fault_count disk.new) result }
    ensures never { NeverFull result }
{
    let front = front_at(disk, place)?;
    let key = front.key as usize;
    let text = bytes_at(
        alloc,
        disk,
        place.saturating_add(KEY_OFFSET as u64),
        key + front.value as usize,
    )?;
    Ok(change_of(alloc, front.kind, &text[..key], &text[key..])?)
}

/// The first bucket from one on that has a block, or else the end.
pub(crate) fn next_filled(heads: &[u64], from: u64) -> u64
    requires { from ≤ length heads.now }
    ensures least { from ≤ result }
    ensures most { result ≤ length heads.now }
    ensures empty { (i : ℕ) → from ≤ i → i < result → slice_index heads.now i ≡ 0 }
    ensures filled { result < length heads.now → slice_index heads.now result ≢ 0 }
{
    let end = heads.len() as u64;
    let mut at = from;
    while at < end && heads[at as usize] == 0 {
        at += 1;
    }
    at
}

/// Behind the last bucket below one that has a block, or else 0.
pub(crate) fn filled_below(heads: &[u64], end: u64) -> u64
    requires { end ≤ length heads.now }
    ensures most { result ≤ end }
    ensures empty { (i : ℕ) → result ≤ i → i < end → slice_index heads.now i ≡ 0 }
    ensures filled { 0 < result → slice_index heads.now (result - 1) ≢ 0 }
{
    let mut at = end;
    while at > 0 && heads[at as usize - 1] == 0 {
        at -= 1;
    }
    at
}
