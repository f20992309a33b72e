//! What a group needs beside its changes: the links of its blocks, the new heads, and the count of records behind it.
ghost use Rattle.std.specs.Prelude.{◌≡◌, ◌+◌, ◌*◌, ◌≤◌, ◌^◌, ◌++◌, ◌∷◌, ℕ, List, [], length, replicate, IfOk, IfSome, OnOk, Some};
ghost use Rattle.std.specs.Option.{is_some};
ghost use Rattle.tk_disk.specs.Crash.{Torn, Follows, LeavesOnly, OnlyReads};
ghost use Rattle.tk_disk.specs.Disk.{HasCause as HasDiskCause};
ghost use Rattle.tk_model.specs.Records.{after, replay, AllFit, IsClearAlone};
ghost use Rattle.tk_model.specs.declared.record.Order.TheVariants.{Hash};
ghost use Rattle.tk_model.specs.declared.record.Group.{Group};
ghost use Rattle.tk_store.specs.Store.{HasCause, NeverFull};
ghost use Rattle.tk_block.specs.Sizes.{heads_place, cell_size};
ghost use Rattle.tk_block.specs.Text.{base_of};
ghost use Rattle.tk_block.specs.Blocks.{group_bodies};
ghost use Rattle.tk_block.specs.Layout.{laid, links_of, end_of};
ghost use Rattle.tk_block.specs.declared.closing.Closing.{Closing};
ghost use Rattle.tk_append.specs.Chains.{HeadsAre};
ghost use Rattle.tk_append.specs.Log.{blocks_of};
ghost use Rattle.tk_append.specs.LogParts.{log_disk, log_head, log_end};
ghost use Rattle.tk_append.specs.FileText.{text_with, IsFile};
ghost use Rattle.tk_hash.specs.declared.plan.NewHeads.TheVariants.{Cleared};
ghost use Rattle.tk_hash.specs.Fair.{KeepsFair};
ghost use Rattle.tk_hash.specs.Seek.{KnowsFile, KnowsKey};
ghost use Rattle.tk_hash.specs.Plan.{with_new, with_heads, AllBelow, FitHeads, Puts};

use crate::counts::count_changes;
use crate::found::FoundKey;
use crate::links::chain_changes;
use crate::seek::HeldFile;
use std::alloc::Global;
use tk_append::GroupLog;
use tk_block::LinkList;
use tk_disk::{Disk, DiskError};
use tk_model::{Change, ChangeList, NoMemory};
use tk_store::{StoreError, number_of_buckets};

/// A bucket's newest block.
#[derive(Clone, Copy, Debug, PartialEq, Eq)]
pub(crate) struct NewHead {
    pub bucket: u64,
    pub place: u64,
}

/// The heads that a group changes.
#[derive(Drop)]
pub(crate) enum NewHeads {
    /// All buckets are empty.
    Cleared,
    /// Each bucket that has a block in the group, with its newest.
    Renewed(Vec<NewHead>),
}

/// Where the blocks of a group go in the chains, and the number of records behind it.
#[derive(Drop)]
pub(crate) struct Plan {
    pub links: LinkList,
    pub heads: NewHeads,
    pub count: u64,
}

/// The plan of a clear.
fn plan_clear(alloc: Global) -> Result<Plan, NoMemory>
    ensures links { IfOk result (λ plan. plan.links ≡ 0 ∷ []) }
    ensures heads { IfOk result (λ plan. plan.heads ≡ Cleared) }
    ensures count { IfOk result (λ plan. plan.count ≡ 0) }
{
    let mut links = LinkList::new(alloc);
    links.push(0)?;
    Ok(Plan {
        links,
        heads: NewHeads::Cleared,
        count: 0,
    })
}

/// Plans a group that goes to the end of a file of so many records. The buffer holds a key while it is compared.
pub(crate) fn plan_changes<D: Disk>(
    alloc: Global,
    disk: &mut D,
    file: &HeldFile,
    count: u64,
    buffer: &mut [u8],
    found: &FoundKey,
    changes: &ChangeList,
) -> Result<Plan, StoreError>
    requires p { file.now.head.p ≤ 24 }
    requires file { KnowsFile (D.image disk.old) file.now }
    requires found { KnowsKey (D.image disk.old) file.now.head found.now }
    requires buffer { 131072 ≤ length buffer.old }
    requires fit { AllFit changes.now }
    requires alone { IsClearAlone changes.now }
    requires end { end_of file.now.end (group_bodies 0 changes.now) ≤ 2 ^ 40 }
    // the answer
    ensures links { (number : ℕ) (groups : List Group) → IfSome (D.image disk.old)
        (λ f. IsFile file.now.head f groups
        → IfOk result (λ plan. plan.links ≡ links_of file.now.head.p
        (blocks_of file.now.head groups) (laid file.now.end (group_bodies number changes.now)))) }
    ensures heads { (number : ℕ) (groups : List Group) → IfSome (D.image disk.old)
        (λ f. IsFile file.now.head f groups
        → IfOk result (λ plan. HeadsAre file.now.head.p (with_heads plan.heads file.now.heads.now)
        (blocks_of file.now.head groups ++ laid file.now.end (group_bodies number changes.now)))) }
    ensures fit { IfOk result (λ plan. FitHeads (2 ^ file.now.head.p) plan.heads) }
    ensures count { (groups : List Group) → IfSome (D.image disk.old)
        (λ f. IsFile file.now.head f groups → count ≡ length (replay Hash groups [])
        → IfOk result (λ plan. plan.count ≡ length
        (after Hash changes.now (replay Hash groups [])))) }
    ensures counts { IfOk result (λ plan. length plan.links ≡ length changes.now) }
    // what is read
    ensures buffer { length buffer.new ≡ length buffer.old }
    ensures image { D.image disk.new ≡ D.image disk.old }
    ensures still { OnlyReads D.may_leave D.moment D.left_since D.past D.left_with
        disk.old disk.new }
    ensures taken { D.taken_count disk.old ≤ D.taken_count disk.new }
    ensures cause { HasCause (D.fault_count disk.old) (D.fault_count disk.new) result }
    ensures never { NeverFull result }
{
    let changes = changes.as_slice();
    if let [Change::Clear] = changes {
        return Ok(plan_clear(alloc)?);
    }
    let mut chains = chain_changes(alloc, file.head.p, file.heads, file.end, changes)?;
    chains.settle(alloc)?;
    let count = count_changes(alloc, disk, file, count, buffer, found, changes)?;
    Ok(Plan {
        links: chains.links,
        heads: NewHeads::Renewed(chains.heads),
        count,
    })
}

/// Zero heads, as many as are written at once.
static ZEROS: [u8; 1 << 16] = [0; 1 << 16];

/// Writes each of these heads.
fn put_renewed<D: Disk>(log: &mut GroupLog<D>, heads: &[NewHead]) -> Result<(), DiskError>
    requires p { (log_head log.old).p ≤ 24 }
    requires fit { AllBelow (2 ^ (log_head log.old).p) heads.now }
    requires there { IfSome (D.image (log_disk log.old)) (λ f. base_of (log_head log.old).p
        ≤ length f) }
    ensures written { (c : Closing) (old : List ℕ) (groups : List Group)
        → IfSome (D.image (log_disk log.old)) (λ f. f ≡ text_with (log_head log.old) c old groups
        → length old ≡ 2 ^ (log_head log.old).p
        → OnOk result (D.image (log_disk log.new) ≡ Some (text_with (log_head log.old) c
        (with_new heads.now old) groups))) }
    ensures puts { Puts D.image D.may_leave D.past D.moment D.left_since D.left_with D.taken_count
        log.old log.new }
    ensures cause { HasDiskCause (D.fault_count (log_disk log.old))
        (D.fault_count (log_disk log.new)) result }
{
    for head in heads {
        log.set_cells(head.bucket, &head.place.to_be_bytes())?;
    }
    Ok(())
}

/// Writes that each bucket is empty, so many zero bytes at once.
fn put_zeros<D: Disk>(log: &mut GroupLog<D>, zeros: &[u8]) -> Result<(), DiskError>
    requires p { (log_head log.old).p ≤ 24 }
    requires there { IfSome (D.image (log_disk log.old)) (λ f. base_of (log_head log.old).p
        ≤ length f) }
    requires zeros { zeros.now ≡ replicate (length zeros.now) 0 }
    requires some { 8 ≤ length zeros.now }
    ensures written { (c : Closing) (old : List ℕ) (groups : List Group)
        → IfSome (D.image (log_disk log.old)) (λ f. f ≡ text_with (log_head log.old) c old groups
        → length old ≡ 2 ^ (log_head log.old).p
        → OnOk result (D.image (log_disk log.new) ≡ Some (text_with (log_head log.old) c
        (replicate (length old) 0) groups))) }
    ensures puts { Puts D.image D.may_leave D.past D.moment D.left_since D.left_with D.taken_count
        log.old log.new }
    ensures cause { HasDiskCause (D.fault_count (log_disk log.old))
        (D.fault_count (log_disk log.new)) result }
{
    let number = number_of_buckets(log.head().p);
    let most = zeros.len() / 8;
    let mut bucket = 0;
    while bucket < number {
        let cells = (number - bucket).min(most as u64);
        log.set_cells(bucket, &zeros[..8 * cells as usize])?;
        bucket += cells;
    }
    Ok(())
}

/// Puts each of these among the heads.
fn renew(heads: &mut [u64], new: &[NewHead])
    requires { AllBelow (length heads.old) new.now }
    ensures { heads.new ≡ with_new new.now heads.old }
{
    for head in new {
        heads[head.bucket as usize] = head.place;
    }
}

/// Makes the heads in memory those that a group leaves.
pub(crate) fn set_heads(heads: &mut [u64], new: &NewHeads)
    requires { FitHeads (length heads.old) new.now }
    ensures { heads.new ≡ with_heads new.now heads.old }
{
    match new {
        NewHeads::Cleared => heads.fill(0),
        NewHeads::Renewed(new) => renew(heads, new),
    }
}

/// Writes the new heads.
pub(crate) fn put_heads<D: Disk>(log: &mut GroupLog<D>, heads: &NewHeads) -> Result<(), DiskError>
    requires p { (log_head log.old).p ≤ 24 }
    requires fit { FitHeads (2 ^ (log_head log.old).p) heads.now }
    requires there { IfSome (D.image (log_disk log.old)) (λ f. base_of (log_head log.old).p
        ≤ length f) }
    // the file
    ensures written { (c : Closing) (old : List ℕ) (groups : List Group)
        → IfSome (D.image (log_disk log.old)) (λ f. f ≡ text_with (log_head log.old) c old groups
        → length old ≡ 2 ^ (log_head log.old).p
        → OnOk result (D.image (log_disk log.new) ≡ Some (text_with (log_head log.old) c
        (with_heads heads.now old) groups))) }
    ensures head { log_head log.new ≡ log_head log.old }
    ensures end { log_end log.new ≡ log_end log.old }
    // the disk
    ensures told { is_some (D.image (log_disk log.new)) ≡ is_some (D.image (log_disk log.old)) }
    ensures taken { D.taken_count (log_disk log.new) ≡ D.taken_count (log_disk log.old) }
    ensures cause { HasDiskCause (D.fault_count (log_disk log.old))
        (D.fault_count (log_disk log.new)) result }
    // a crash
    ensures crash { Follows (Torn heads_place (cell_size * 2 ^ (log_head log.old).p))
        (D.may_leave (log_disk log.old)) (D.may_leave (log_disk log.new)) }
    ensures time { LeavesOnly D.moment D.left_since (log_disk log.old) (log_disk log.new)
        (λ c. (d : List ℕ) × D.may_leave (log_disk log.old) d
        × Torn heads_place (cell_size * 2 ^ (log_head log.old).p) d c) }
    ensures fair { (groups : List Group) → KeepsFair D.past D.moment D.left_with (log_head log.old)
        groups [] (log_disk log.old) (log_disk log.new) }
{
    match heads {
        NewHeads::Cleared => put_zeros(log, &ZEROS),
        NewHeads::Renewed(new) => put_renewed(log, new),
    }
}
