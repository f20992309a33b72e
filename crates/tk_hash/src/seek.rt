//! Look-ups along the chain of a bucket.
ghost use Rattle.std.specs.Prelude.{◌≡◌, ◌+◌, ◌-◌, ◌<◌, ◌≤◌, ◌^◌, List, [], length, slice_index, take, min, IfOk, IfSome};
ghost use Rattle.std.specs.Option.{is_some};
ghost use Rattle.tk_disk.specs.Crash.{OnlyReads};
ghost use Rattle.tk_model.specs.Records.{find, replay};
ghost use Rattle.tk_model.specs.declared.record.Order.TheVariants.{Hash};
ghost use Rattle.tk_model.specs.declared.record.Group.{Group};
ghost use Rattle.tk_store.specs.Store.{HasCause, NeverFull, OkOrFault, Gives, GivesInto};
ghost use Rattle.tk_block.specs.Sizes.{key_offset, least_extent};
ghost use Rattle.tk_block.specs.Layout.{bucket_in};
ghost use Rattle.tk_buckets.specs.Chain.{places_in};
ghost use Rattle.tk_buckets.specs.Lookup.{IsBlockOf, Finds, read_of_chain};
ghost use Rattle.tk_append.specs.FileText.{IsFile};
ghost use Rattle.tk_hash.specs.Chain.{chain_of, cost_in};
ghost use Rattle.tk_hash.specs.Seek.{KnowsFile, Sought};

use std::alloc::Global;
use tk_block::{KEY_OFFSET, StaticHead};
use tk_buckets::{FoundBlock, fill_value, find_block};
use tk_disk::{Disk, DiskError, zeros};
use tk_model::{Bytes, bucket, mix};
use tk_store::StoreError;

/// The kind of a block that sets a value.
const SET: u8 = 1;
/// Head, link, numbers and the first eight letters of the key.
const FRONT: usize = KEY_OFFSET + 8;

/// What stands in memory of a file.
#[derive(Clone, Copy)]
pub(crate) struct HeldFile<'a> {
    pub head: StaticHead,
    /// The newest block of each bucket.
    pub heads: &'a [u64],
    pub end: u64,
}

/// The place of the first block of the key's bucket.
fn first_place(file: &HeldFile, key: &[u8]) -> u64
    requires p { file.now.head.p ≤ 24 }
    requires heads { length file.now.heads.now ≡ 2 ^ file.now.head.p }
    ensures below { bucket_in file.now.head.p key.now < 2 ^ file.now.head.p }
    ensures value { result ≡ slice_index file.now.heads.now (bucket_in file.now.head.p key.now) }
{
    file.heads[bucket(mix(key), file.head.p) as usize]
}

/// The first block with the key in the key's bucket.
fn find_in_bucket<D: Disk>(
    disk: &mut D,
    file: &HeldFile,
    buffer: &mut [u8],
    key: &[u8],
) -> Result<Option<FoundBlock>, StoreError>
    requires p { file.now.head.p ≤ 24 }
    requires file { KnowsFile (D.image disk.old) file.now }
    requires front { least_extent ≤ length buffer.old }
    requires key { min 65575 (key_offset + length key.now) ≤ length buffer.old }
    // the answer
    ensures short { IfOk result (λ x. IfSome x (λ _. length key.now < 65536)) }
    ensures found { (groups : List Group) → IfSome (D.image disk.old) (λ f.
        IsFile file.now.head f groups → IfOk result (Finds f key.now (places_in
        (chain_of file.now.head (bucket_in file.now.head.p key.now) groups)) buffer.new)) }
    // what is read
    ensures cost { (groups : List Group) → IfSome (D.image disk.old) (λ f.
        IsFile file.now.head f groups → D.taken_count disk.new ≤ D.taken_count disk.old
        + read_of_chain f key.now (length buffer.old) (places_in
        (chain_of file.now.head (bucket_in file.now.head.p key.now) groups))) }
    ensures image { D.image disk.new ≡ D.image disk.old }
    ensures still { OnlyReads D.may_leave D.moment D.left_since D.past D.left_with
        disk.old disk.new }
    ensures taken { D.taken_count disk.old ≤ D.taken_count disk.new }
    ensures cause { HasCause (D.fault_count disk.old) (D.fault_count disk.new) result }
    ensures answers { OkOrFault result }
{
    let first = first_place(file, key);
    match find_block(disk, first, file.end, buffer, key) {
        Ok(found) => Ok(found),
        Err(DiskError::Fault) => Err(StoreError::Fault),
        Err(DiskError::NoMemory) => Err(StoreError::NoMemory),
    }
}

/// The block that has the value of a key. The buffer then has its front.
fn seek_value<D: Disk>(
    disk: &mut D,
    file: &HeldFile,
    buffer: &mut [u8],
    key: &[u8],
) -> Result<Option<FoundBlock>, StoreError>
    requires p { file.now.head.p ≤ 24 }
    requires file { KnowsFile (D.image disk.old) file.now }
    requires front { least_extent ≤ length buffer.old }
    requires key { min 65575 (key_offset + length key.now) ≤ length buffer.old }
    // the answer
    ensures short { IfOk result (λ at. IfSome at (λ _. length key.now < 65536)) }
    ensures value { (groups : List Group) → IfSome (D.image disk.old) (λ f.
        IsFile file.now.head f groups → IfOk result (Sought key.now
        (find key.now (replay Hash groups [])) f buffer.new (D.taken_count disk.old)
        (D.taken_count disk.new) (cost_in file.now.head groups key.now))) }
    // what is read
    ensures cost { (groups : List Group) → IfSome (D.image disk.old) (λ f.
        IsFile file.now.head f groups → D.taken_count disk.new
        ≤ D.taken_count disk.old + cost_in file.now.head groups key.now) }
    ensures image { D.image disk.new ≡ D.image disk.old }
    ensures still { OnlyReads D.may_leave D.moment D.left_since D.past D.left_with
        disk.old disk.new }
    ensures taken { D.taken_count disk.old ≤ D.taken_count disk.new }
    ensures cause { HasCause (D.fault_count disk.old) (D.fault_count disk.new) result }
    ensures answers { OkOrFault result }
{
    let Some(block) = find_in_bucket(disk, file, buffer, key)? else {
        return Ok(None);
    };
    if block.kind != SET {
        return Ok(None);
    }
    Ok(Some(block))
}

/// How much of the buffer serves to read a block with a key so long and as much of its value.
fn window(len: usize, key: usize, value: usize) -> usize
    requires { 131072 ≤ len }
    ensures within { result ≤ len }
    ensures front { 48 ≤ result }
    ensures key { min 65575 (key_offset + key) ≤ result }
{
    KEY_OFFSET
        .saturating_add(key)
        .saturating_add(value)
        .max(FRONT)
        .min(len)
}

/// Fills the answer with the front of the value of a block, of which the buffer has as much as it can.
fn fill_answer<D: Disk>(
    disk: &mut D,
    block: &FoundBlock,
    buffer: &[u8],
    key: &[u8],
    into: &mut [u8],
) -> Result<(), StoreError>
    requires key { key_offset + length key.now ≤ length buffer.now }
    ensures filled { IfSome (D.image disk.old) (λ f. length f < 2 ^ 64
        → length into.old ≤ block.now.value_len → (x : IsBlockOf f key.now buffer.now block.now)
        → IfOk result (λ _. into.new ≡ take (length into.old) x.body.value)) }
    ensures cost { D.taken_count disk.new ≤ D.taken_count disk.old
        + (length into.old - (length buffer.now - (key_offset + length key.now))) }
    ensures image { D.image disk.new ≡ D.image disk.old }
    ensures still { OnlyReads D.may_leave D.moment D.left_since D.past D.left_with
        disk.old disk.new }
    ensures taken { D.taken_count disk.old ≤ D.taken_count disk.new }
    ensures cause { HasCause (D.fault_count disk.old) (D.fault_count disk.new) result }
    ensures answers { OkOrFault result }
{
    match fill_value(disk, block, buffer, key, into) {
        Ok(()) => Ok(()),
        Err(DiskError::Fault) => Err(StoreError::Fault),
        Err(DiskError::NoMemory) => Err(StoreError::NoMemory),
    }
}

/// Puts the value of a block, of which the buffer has as much as it can, in place of the bytes in the answer.
fn give_value<D: Disk>(
    alloc: Global,
    disk: &mut D,
    block: &FoundBlock,
    buffer: &[u8],
    key: &[u8],
    out: &mut Bytes,
) -> Result<(), StoreError>
    requires key { key_offset + length key.now ≤ length buffer.now }
    ensures value { IfSome (D.image disk.old) (λ f. length f < 2 ^ 64
        → (x : IsBlockOf f key.now buffer.now block.now)
        → IfOk result (λ _. out.new ≡ x.body.value)) }
    ensures cost { D.taken_count disk.new ≤ D.taken_count disk.old
        + (block.now.value_len - (length buffer.now - (key_offset + length key.now))) }
    ensures image { D.image disk.new ≡ D.image disk.old }
    ensures still { OnlyReads D.may_leave D.moment D.left_since D.past D.left_with
        disk.old disk.new }
    ensures taken { D.taken_count disk.old ≤ D.taken_count disk.new }
    ensures cause { HasCause (D.fault_count disk.old) (D.fault_count disk.new) result }
    ensures never { NeverFull result }
{
    let start = KEY_OFFSET + key.len();
    let len = block.value_len as usize;
    if len <= buffer.len() - start {
        out.clear();
        out.extend(&buffer[start..start + len])?;
        return Ok(());
    }
    let mut bytes = zeros(alloc, len)?;
    fill_answer(disk, block, buffer, key, &mut bytes)?;
    *out = Bytes::from_vec(bytes);
    Ok(())
}

/// The value at a key. The buffer holds the front of a block.
pub(crate) fn get_value<D: Disk>(
    alloc: Global,
    disk: &mut D,
    file: &HeldFile,
    buffer: &mut [u8],
    key: &[u8],
    out: &mut Bytes,
) -> Result<bool, StoreError>
    requires p { file.now.head.p ≤ 24 }
    requires file { KnowsFile (D.image disk.old) file.now }
    requires buffer { 131072 ≤ length buffer.old }
    ensures value { (groups : List Group) → IfSome (D.image disk.old) (λ f.
        IsFile file.now.head f groups
        → IfOk result (Gives (find key.now (replay Hash groups [])) out.old out.new)) }
    ensures cost { (groups : List Group) → IfSome (D.image disk.old) (λ f.
        IsFile file.now.head f groups → D.taken_count disk.new
        ≤ D.taken_count disk.old + cost_in file.now.head groups key.now) }
    ensures buffer { length buffer.new ≡ length buffer.old }
    ensures image { D.image disk.new ≡ D.image disk.old }
    ensures still { OnlyReads D.may_leave D.moment D.left_since D.past D.left_with
        disk.old disk.new }
    ensures taken { D.taken_count disk.old ≤ D.taken_count disk.new }
    ensures cause { HasCause (D.fault_count disk.old) (D.fault_count disk.new) result }
    ensures never { NeverFull result }
{
    let Some(block) = seek_value(disk, file, buffer, key)? else {
        return Ok(false);
    };
    give_value(alloc, disk, &block, buffer, key, out)?;
    Ok(true)
}

/// Copies as many bytes of the value at a key as fit, and answers the value's length. It takes no memory.
pub(crate) fn get_value_into<D: Disk>(
    disk: &mut D,
    file: &HeldFile,
    buffer: &mut [u8],
    key: &[u8],
    into: &mut [u8],
) -> Result<Option<u32>, StoreError>
    requires p { file.now.head.p ≤ 24 }
    requires file { KnowsFile (D.image disk.old) file.now }
    requires buffer { 131072 ≤ length buffer.old }
    // the answer
    ensures value { (groups : List Group) → IfSome (D.image disk.old) (λ f.
        IsFile file.now.head f groups
        → IfOk result (GivesInto (find key.now (replay Hash groups [])) into.old into.new)) }
    // what is read
    ensures cost { (groups : List Group) → IfSome (D.image disk.old) (λ f.
        IsFile file.now.head f groups → D.taken_count disk.new
        ≤ D.taken_count disk.old + cost_in file.now.head groups key.now) }
    ensures buffer { length buffer.new ≡ length buffer.old }
    ensures image { D.image disk.new ≡ D.image disk.old }
    ensures still { OnlyReads D.may_leave D.moment D.left_since D.past D.left_with
        disk.old disk.new }
    ensures taken { D.taken_count disk.old ≤ D.taken_count disk.new }
    ensures cause { HasCause (D.fault_count disk.old) (D.fault_count disk.new) result }
    ensures never { NeverFull result }
    ensures answers { OkOrFault result }
{
    let end = window(buffer.len(), key.len(), into.len());
    let front = &mut buffer[..end];
    let Some(block) = seek_value(disk, file, front, key)? else {
        return Ok(None);
    };
    let count = into.len().min(block.value_len as usize);
    fill_answer(disk, &block, front, key, &mut into[..count])?;
    Ok(Some(block.value_len))
}

/// Whether a record has the key.
pub(crate) fn has_key<D: Disk>(
    disk: &mut D,
    file: &HeldFile,
    buffer: &mut [u8],
    key: &[u8],
) -> Result<bool, StoreError>
    requires p { file.now.head.p ≤ 24 }
    requires file { KnowsFile (D.image disk.old) file.now }
    requires buffer { 131072 ≤ length buffer.old }
    ensures value { (groups : List Group) → IfSome (D.image disk.old) (λ f.
        IsFile file.now.head f groups
        → IfOk result (λ found. found ≡ is_some (find key.now (replay Hash groups [])))) }
    ensures buffer { length buffer.new ≡ length buffer.old }
    ensures image { D.image disk.new ≡ D.image disk.old }
    ensures still { OnlyReads D.may_leave D.moment D.left_since D.past D.left_with
        disk.old disk.new }
    ensures taken { D.taken_count disk.old ≤ D.taken_count disk.new }
    ensures cause { HasCause (D.fault_count disk.old) (D.fault_count disk.new) result }
    ensures never { NeverFull result }
    ensures answers { OkOrFault result }
{
    let end = window(buffer.len(), key.len(), 0);
    let found = seek_value(disk, file, &mut buffer[..end], key)?;
    Ok(found.is_some())
}
