//! The records of one bucket, for going on in hash order.
ghost use Rattle.std.specs.Prelude.{◌≡◌, ◌+◌, ◌*◌, ◌<◌, ◌≤◌, ◌^◌, ℕ, List, [], length, true, IfOk, IfSome, OnOk};
ghost use Rattle.tk_disk.specs.Crash.{OnlyReads};
ghost use Rattle.tk_model.specs.Hashes.{bucket_of, mix_of};
ghost use Rattle.tk_model.specs.Records.{first_within, last_within, replay};
ghost use Rattle.tk_model.specs.declared.record.Order.TheVariants.{Hash};
ghost use Rattle.tk_model.specs.declared.record.Group.{Group};
ghost use Rattle.tk_store.specs.Store.{HasCause, NeverFull};
ghost use Rattle.tk_block.specs.Layout.{Placed};
ghost use Rattle.tk_block.specs.declared.head.StaticHead.{StaticHead};
ghost use Rattle.tk_buckets.specs.Chain.{places_in};
ghost use Rattle.tk_buckets.specs.Lookup.{AllStand};
ghost use Rattle.tk_append.specs.FileText.{IsFile};
ghost use Rattle.tk_hash.specs.Chain.{chain_of, in_bucket};
ghost use Rattle.tk_hash.specs.Seek.{IsShelf, KnowsFile};
ghost use Rattle.tk_hash.specs.Shelf.{HasBucket, left_by};

use crate::reading::{change_at, filled_below, next_filled};
use crate::seek::HeldFile;
use std::alloc::Global;
use tk_buckets::{PlaceList, chain};
use tk_disk::{Disk, DiskError};
use tk_model::{Bound, NoMemory, Pair};
use tk_store::{HashedRecords, StoreError, end_bucket, first_bucket, number_of_buckets};

/// The records of a bucket, as they were read.
#[derive(Drop)]
pub(crate) struct Shelf {
    pub bucket: u64,
    pub records: HashedRecords,
}

/// How many bits of the hash part the records of so many blocks of a bucket, which agree in the first p. More than 20
/// bits, or many more parts than blocks, would cost more than they save.
fn bits_for(p: u8, blocks: usize) -> u8
    ensures { result ≤ 20 }
{
    if blocks < 16 {
        return 0;
    }
    let mut bits = 4;
    while bits < 20 && blocks >> bits > 1 {
        bits += 1;
    }
    20.min(bits + p.min(6))
}

/// Makes the changes of a chain's blocks, the oldest first.
fn read_blocks<D: Disk>(
    alloc: Global,
    disk: &mut D,
    places: &[u64],
    records: &mut HashedRecords,
) -> Result<(), StoreError>
    requires { records.old ≡ [] }
    ensures value { (h : StaticHead) (blocks : List Placed) → IfSome (D.image disk.old) (λ f.
        AllStand h f blocks → length f < 2 ^ 64 → places.now ≡ places_in blocks
        → OnOk result (records.new ≡ left_by blocks)) }
    ensures image { D.image disk.new ≡ D.image disk.old }
    ensures still { OnlyReads D.may_leave D.moment D.left_since D.past D.left_with
        disk.old disk.new }
    ensures taken { D.taken_count disk.old ≤ D.taken_count disk.new }
    ensures cause { HasCause (D.fault_count disk.old) (D.fault_count disk.new) result }
    ensures never { NeverFull result }
{
    for i in (0..places.len()).rev() {
        let change = change_at(alloc, disk, places[i])?;
        records.apply(change)?;
    }
    Ok(())
}

/// The places of a bucket's blocks, the newest first.
fn places_of<D: Disk>(
    alloc: Global,
    disk: &mut D,
    file: &HeldFile,
    bucket: u64,
) -> Result<PlaceList, StoreError>
    requires bucket { bucket < 2 ^ file.now.head.p }
    requires file { KnowsFile (D.image disk.old) file.now }
    ensures value { (groups : List Group) → IfSome (D.image disk.old) (λ f.
        IsFile file.now.head f groups
        → IfOk result (λ l. l ≡ places_in (chain_of file.now.head bucket groups))) }
    ensures image { D.image disk.new ≡ D.image disk.old }
    ensures still { OnlyReads D.may_leave D.moment D.left_since D.past D.left_with
        disk.old disk.new }
    ensures taken { D.taken_count disk.old ≤ D.taken_count disk.new }
    ensures cause { HasCause (D.fault_count disk.old) (D.fault_count disk.new) result }
    ensures never { NeverFull result }
{
    match chain(alloc, disk, file.heads[bucket as usize], file.end) {
        Ok(places) => Ok(places),
        Err(DiskError::Fault) => Err(StoreError::Fault),
        Err(DiskError::NoMemory) => Err(StoreError::NoMemory),
    }
}

/// The records of a bucket.
fn read_bucket<D: Disk>(
    alloc: Global,
    disk: &mut D,
    file: &HeldFile,
    bucket: u64,
) -> Result<HashedRecords, StoreError>
    requires p { file.now.head.p ≤ 24 }
    requires file { KnowsFile (D.image disk.old) file.now }
    requires bucket { bucket < 2 ^ file.now.head.p }
    ensures value { (groups : List Group) → IfSome (D.image disk.old) (λ f.
        IsFile file.now.head f groups
        → IfOk result (λ r. r ≡ in_bucket file.now.head.p bucket (replay Hash groups []))) }
    ensures image { D.image disk.new ≡ D.image disk.old }
    ensures still { OnlyReads D.may_leave D.moment D.left_since D.past D.left_with
        disk.old disk.new }
    ensures taken { D.taken_count disk.old ≤ D.taken_count disk.new }
    ensures cause { HasCause (D.fault_count disk.old) (D.fault_count disk.new) result }
    ensures never { NeverFull result }
{
    let places = places_of(alloc, disk, file, bucket)?;
    let mut records = HashedRecords::new(alloc, bits_for(file.head.p, places.len()))?;
    read_blocks(alloc, disk, places.as_slice(), &mut records)?;
    Ok(records)
}

/// Whether the shelf has the bucket.
fn has_bucket(shelf: &Option<Shelf>, bucket: u64) -> bool
    ensures { (h : StaticHead) (groups : List Group) → result ≡ true
        → IsShelf h groups shelf.now → HasBucket h groups bucket shelf.now }
{
    match shelf {
        Some(held) => held.bucket == bucket,
        None => false,
    }
}

/// Reads the bucket onto the shelf, where it isn't there.
fn lay<D: Disk>(
    alloc: Global,
    disk: &mut D,
    file: &HeldFile,
    shelf: &mut Option<Shelf>,
    bucket: u64,
) -> Result<(), StoreError>
    requires p { file.now.head.p ≤ 24 }
    requires file { KnowsFile (D.image disk.old) file.now }
    requires bucket { bucket < 2 ^ file.now.head.p }
    ensures value { (groups : List Group) → IfSome (D.image disk.old) (λ f.
        IsFile file.now.head f groups → IsShelf file.now.head groups shelf.old
        → OnOk result (HasBucket file.now.head groups bucket shelf.new)) }
    ensures shelf { (groups : List Group) → IfSome (D.image disk.old) (λ f.
        IsFile file.now.head f groups → IsShelf file.now.head groups shelf.old
        → IsShelf file.now.head groups shelf.new) }
    ensures image { D.image disk.new ≡ D.image disk.old }
    ensures still { OnlyReads D.may_leave D.moment D.left_since D.past D.left_with
        disk.old disk.new }
    ensures taken { D.taken_count disk.old ≤ D.taken_count disk.new }
    ensures cause { HasCause (D.fault_count disk.old) (D.fault_count disk.new) result }
    ensures never { NeverFull result }
{
    if has_bucket(shelf, bucket) {
        return Ok(());
    }
    let records = read_bucket(alloc, disk, file, bucket)?;
    *shelf = Some(Shelf { bucket, records });
    Ok(())
}

fn copy_of(pair: &Pair) -> Result<Pair, NoMemory>
    ensures { IfOk result (λ copy. copy ≡ pair.now) }
{
    Ok(pair.clone()?)
}

/// The first record on the shelf within the bound, going up.
fn first_on(shelf: &Option<Shelf>, bound: &Bound) -> Result<Option<Pair>, NoMemory>
    ensures { IfSome shelf.now (λ s.
        IfOk result (λ found. found ≡ first_within Hash bound.now s.records)) }
{
    let Some(held) = shelf else {
        return Ok(None);
    };
    match held.records.first_within(bound) {
        Some(pair) => Ok(Some(copy_of(pair)?)),
        None => Ok(None),
    }
}

/// The first record on the shelf within the bound, going down.
fn last_on(shelf: &Option<Shelf>, bound: &Bound) -> Result<Option<Pair>, NoMemory>
    ensures { IfSome shelf.now (λ s.
        IfOk result (λ found. found ≡ last_within Hash bound.now s.records)) }
{
    let Some(held) = shelf else {
        return Ok(None);
    };
    match held.records.last_within(bound) {
        Some(pair) => Ok(Some(copy_of(pair)?)),
        None => Ok(None),
    }
}

/// The first record of a bucket within the bound, going up.
fn first_in<D: Disk>(
    alloc: Global,
    disk: &mut D,
    file: &HeldFile,
    shelf: &mut Option<Shelf>,
    bucket: u64,
    bound: &Bound,
) -> Result<Option<Pair>, StoreError>
    requires p { file.now.head.p ≤ 24 }
    requires file { KnowsFile (D.image disk.old) file.now }
    requires bucket { bucket < 2 ^ file.now.head.p }
    ensures value { (groups : List Group) → IfSome (D.image disk.old) (λ f.
        IsFile file.now.head f groups → IsShelf file.now.head groups shelf.old
        → IfOk result (λ found. found ≡ first_within Hash bound.now
        (in_bucket file.now.head.p bucket (replay Hash groups [])))) }
    ensures shelf { (groups : List Group) → IfSome (D.image disk.old) (λ f.
        IsFile file.now.head f groups → IsShelf file.now.head groups shelf.old
        → IsShelf file.now.head groups shelf.new) }
    ensures image { D.image disk.new ≡ D.image disk.old }
    ensures still { OnlyReads D.may_leave D.moment D.left_since D.past D.left_with
        disk.old disk.new }
    ensures taken { D.taken_count disk.old ≤ D.taken_count disk.new }
    ensures cause { HasCause (D.fault_count disk.old) (D.fault_count disk.new) result }
    ensures never { NeverFull result }
{
    lay(alloc, disk, file, shelf, bucket)?;
    Ok(first_on(shelf, bound)?)
}

/// The first record of a bucket within the bound, going down.
fn last_in<D: Disk>(
    alloc: Global,
    disk: &mut D,
    file: &HeldFile,
    shelf: &mut Option<Shelf>,
    bucket: u64,
    bound: &Bound,
) -> Result<Option<Pair>, StoreError>
    requires p { file.now.head.p ≤ 24 }
    requires file { KnowsFile (D.image disk.old) file.now }
    requires bucket { bucket < 2 ^ file.now.head.p }
    ensures value { (groups : List Group) → IfSome (D.image disk.old) (λ f.
        IsFile file.now.head f groups → IsShelf file.now.head groups shelf.old
        → IfOk result (λ found. found ≡ last_within Hash bound.now
        (in_bucket file.now.head.p bucket (replay Hash groups [])))) }
    ensures shelf { (groups : List Group) → IfSome (D.image disk.old) (λ f.
        IsFile file.now.head f groups → IsShelf file.now.head groups shelf.old
        → IsShelf file.now.head groups shelf.new) }
    ensures image { D.image disk.new ≡ D.image disk.old }
    ensures still { OnlyReads D.may_leave D.moment D.left_since D.past D.left_with
        disk.old disk.new }
    ensures taken { D.taken_count disk.old ≤ D.taken_count disk.new }
    ensures cause { HasCause (D.fault_count disk.old) (D.fault_count disk.new) result }
    ensures never { NeverFull result }
{
    lay(alloc, disk, file, shelf, bucket)?;
    Ok(last_on(shelf, bound)?)
}

/// The first record within the bound, going up. What was read of its bucket stays on the shelf.
pub(crate) fn first_record<D: Disk>(
    alloc: Global,
    disk: &mut D,
    file: &HeldFile,
    shelf: &mut Option<Shelf>,
    bound: &Bound,
) -> Result<Option<Pair>, StoreError>
    requires p { file.now.head.p ≤ 24 }
    requires file { KnowsFile (D.image disk.old) file.now }
    ensures value { (groups : List Group) → IfSome (D.image disk.old) (λ f.
        IsFile file.now.head f groups → IsShelf file.now.head groups shelf.old
        → IfOk result (λ found. found ≡ first_within Hash bound.now (replay Hash groups []))) }
    ensures shelf { (groups : List Group) → IfSome (D.image disk.old) (λ f.
        IsFile file.now.head f groups → IsShelf file.now.head groups shelf.old
        → IsShelf file.now.head groups shelf.new) }
    ensures image { D.image disk.new ≡ D.image disk.old }
    ensures still { OnlyReads D.may_leave D.moment D.left_since D.past D.left_with
        disk.old disk.new }
    ensures taken { D.taken_count disk.old ≤ D.taken_count disk.new }
    ensures cause { HasCause (D.fault_count disk.old) (D.fault_count disk.new) result }
    ensures never { NeverFull result }
{
    let end = number_of_buckets(file.head.p);
    let mut bucket = first_bucket(bound, file.head.p);
    while bucket < end {
        let found = first_in(alloc, disk, file, shelf, bucket, bound)?;
        if found.is_some() {
            return Ok(found);
        }
        bucket = next_filled(file.heads, bucket + 1);
    }
    Ok(None)
}

/// The first record within the bound, going down.
pub(crate) fn last_record<D: Disk>(
    alloc: Global,
    disk: &mut D,
    file: &HeldFile,
    shelf: &mut Option<Shelf>,
    bound: &Bound,
) -> Result<Option<Pair>, StoreError>
    requires p { file.now.head.p ≤ 24 }
    requires file { KnowsFile (D.image disk.old) file.now }
    ensures value { (groups : List Group) → IfSome (D.image disk.old) (λ f.
        IsFile file.now.head f groups → IsShelf file.now.head groups shelf.old
        → IfOk result (λ found. found ≡ last_within Hash bound.now (replay Hash groups []))) }
    ensures shelf { (groups : List Group) → IfSome (D.image disk.old) (λ f.
        IsFile file.now.head f groups → IsShelf file.now.head groups shelf.old
        → IsShelf file.now.head groups shelf.new) }
    ensures image { D.image disk.new ≡ D.image disk.old }
    ensures still { OnlyReads D.may_leave D.moment D.left_since D.past D.left_with
        disk.old disk.new }
    ensures taken { D.taken_count disk.old ≤ D.taken_count disk.new }
    ensures cause { HasCause (D.fault_count disk.old) (D.fault_count disk.new) result }
    ensures never { NeverFull result }
{
    let mut end = end_bucket(bound, file.head.p);
    while end > 0 {
        let found = last_in(alloc, disk, file, shelf, end - 1, bound)?;
        if found.is_some() {
            return Ok(found);
        }
        end = filled_below(file.heads, end - 1);
    }
    Ok(None)
}
