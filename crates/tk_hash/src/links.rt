//! The links of a group's blocks, and the heads behind it.
ghost use Rattle.std.specs.Prelude.{◌≡◌, ◌+◌, ◌-◌, ◌≤◌, ◌<◌, ◌^◌, ◌++◌, ◌∷◌, ℕ, List, [], length, slice_index, take, map, IfOk, OnOk};
ghost use Rattle.std.specs.Ordering.{nat_cmp};
ghost use Rattle.std.specs.BTreeMap.{IsOrdered};
ghost use Rattle.tk_model.specs.Records.{AllFit, HasNoClear};
ghost use Rattle.tk_block.specs.Blocks.{group_bodies, key_of as key_in};
ghost use Rattle.tk_block.specs.Layout.{Placed, laid, links_of, end_of, bucket_in};
ghost use Rattle.tk_append.specs.Chains.{HeadsAre};
ghost use Rattle.tk_hash.specs.Plan.{with_new, AllBelow, placed_in, IsNewest};

use crate::plan::NewHead;
use std::alloc::Global;
use std::collections::BTreeMap;
use tk_append::extent_of_change;
use tk_block::LinkList;
use tk_model::{Change, NoMemory, bucket, mix};

/// The blocks of a group, as far as they are planned: their links, and each as the newest of its bucket.
#[derive(Drop)]
pub(crate) struct Chains {
    pub links: LinkList,
    pub heads: Vec<NewHead>,
    /// The newest block of each bucket, but for the last one.
    newest: BTreeMap<u64, u64>,
}

/// The key of a change.
pub(crate) fn key_of(change: &Change) -> &[u8]
    ensures { result.now ≡ key_in change.now }
{
    match change {
        Change::Put(pair) => pair.key.as_slice(),
        Change::Drop(key) => key.as_slice(),
        Change::Clear => &[],
    }
}

/// Adds the last new head to the newest blocks.
fn remember(newest: &mut BTreeMap<u64, u64>, heads: &[NewHead]) -> Result<(), NoMemory>
    requires { IsNewest newest.old (take (length heads.now - 1) heads.now) }
    ensures { OnOk result (IsNewest newest.new heads.now) }
{
    if heads.is_empty() {
        return Ok(());
    }
    let last = heads[heads.len() - 1];
    newest.insert(last.bucket, last.place)?;
    Ok(())
}

/// The newest block of a bucket: of the new heads, or else the head.
fn newest_block(newest: &BTreeMap<u64, u64>, heads: &[u64], bucket: u64) -> u64
    requires { bucket < length heads.now }
    ensures { (new : List NewHead) → IsNewest newest.now new → result ≡ placed_in new bucket
        (slice_index heads.now bucket) }
{
    match newest.get(&bucket) {
        Some(place) => *place,
        None => heads[bucket as usize],
    }
}

/// The newest blocks as new heads, each bucket once, in order.
fn heads_of(alloc: Global, newest: &BTreeMap<u64, u64>) -> Result<Vec<NewHead>, NoMemory>
    ensures heads { IfOk result (λ heads. heads.items ≡ map (λ e. record { bucket = e.0; place = e.1 })
        newest.now.entries) }
    ensures ordered { IsOrdered nat_cmp newest.now }
{
    let heads = newest
        .iter()
        .map(|(bucket, place)| NewHead {
            bucket: *bucket,
            place: *place,
        })
        .collect(alloc)?;
    Ok(heads)
}

impl Chains {
    fn new(alloc: Global) -> Chains
        ensures links { result.links ≡ [] }
        ensures heads { result.heads.items ≡ [] }
        ensures newest { IsNewest result.newest [] }
    {
        Chains {
            links: LinkList::new(alloc),
            heads: Vec::new(alloc),
            newest: BTreeMap::new(alloc),
        }
    }

    fn push(&mut self, link: u64, head: NewHead) -> Result<(), NoMemory>
        ensures links { OnOk result (self.new.links ≡ self.old.links ++ link ∷ []) }
        ensures heads { OnOk result (self.new.heads.items ≡ self.old.heads.items ++ head ∷ []) }
        ensures newest { self.new.newest ≡ self.old.newest }
    {
        self.links.push(link)?;
        self.heads.push(head)?;
        Ok(())
    }

    /// Leaves each bucket once among the new heads, with its newest block.
    pub(crate) fn settle(&mut self, alloc: Global) -> Result<(), NoMemory>
        requires newest { IsNewest self.old.newest (take (length self.old.heads.items - 1)
            self.old.heads.items) }
        ensures heads { OnOk result ((bucket found : ℕ) → placed_in self.new.heads.items bucket
            found ≡ placed_in self.old.heads.items bucket found) }
        ensures links { self.new.links ≡ self.old.links }
    {
        if self.heads.len() < 2 {
            return Ok(());
        }
        remember(&mut self.newest, &self.heads)?;
        self.heads = heads_of(alloc, &self.newest)?;
        Ok(())
    }
}

/// Plans a block of this key at a place.
fn chain_key(
    p: u8,
    heads: &[u64],
    chains: &mut Chains,
    place: u64,
    key: &[u8],
) -> Result<(), NoMemory>
    requires p { p ≤ 24 }
    requires heads { length heads.now ≡ 2 ^ p }
    requires newest { IsNewest chains.old.newest (take (length chains.old.heads.items - 1)
        chains.old.heads.items) }
    ensures newest { OnOk result (IsNewest chains.new.newest chains.old.heads.items) }
    ensures heads { OnOk result (chains.new.heads.items ≡ chains.old.heads.items
        ++ record { bucket = bucket_in p key.now; place = place } ∷ []) }
    ensures links { OnOk result (chains.new.links ≡ chains.old.links ++ placed_in chains.old.heads.items
        (bucket_in p key.now) (slice_index heads.now (bucket_in p key.now)) ∷ []) }
    ensures counts { OnOk result (length chains.new.links ≡ length chains.old.links + 1) }
    ensures below { OnOk result (bucket_in p key.now < 2 ^ p) }
{
    remember(&mut chains.newest, &chains.heads)?;
    let bucket = bucket(mix(key), p);
    let link = newest_block(&chains.newest, heads, bucket);
    chains.push(link, NewHead { bucket, place })
}

/// Plans the blocks of changes that go to the end of a file with these heads.
pub(crate) fn chain_changes(
    alloc: Global,
    p: u8,
    heads: &[u64],
    end: u64,
    changes: &[Change],
) -> Result<Chains, NoMemory>
    requires p { p ≤ 24 }
    requires heads { length heads.now ≡ 2 ^ p }
    requires fit { AllFit changes.now }
    requires alone { HasNoClear changes.now }
    requires end { end_of end (group_bodies 0 changes.now) ≤ 2 ^ 40 }
    ensures links { (number : ℕ) (blocks : List Placed) → HeadsAre p heads.now blocks
        → IfOk result (λ chains. chains.links ≡ links_of p blocks
        (laid end (group_bodies number changes.now))) }
    ensures heads { (number : ℕ) (blocks : List Placed) → HeadsAre p heads.now blocks
        → IfOk result (λ chains. HeadsAre p (with_new chains.heads.items heads.now)
        (blocks ++ laid end (group_bodies number changes.now))) }
    ensures fit { IfOk result (λ chains. AllBelow (2 ^ p) chains.heads.items) }
    ensures counts { IfOk result (λ chains. length chains.links ≡ length changes.now) }
    ensures newest { IfOk result (λ chains. IsNewest chains.newest
        (take (length chains.heads.items - 1) chains.heads.items)) }
{
    let mut chains = Chains::new(alloc);
    let mut place = end;
    for change in changes {
        chain_key(p, heads, &mut chains, place, key_of(change))?;
        place += extent_of_change(change);
    }
    Ok(chains)
}
