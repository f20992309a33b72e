ghost use Rattle.std.specs.Prelude.{◌≡◌, ◌≤◌, ◌<◌, ◌^◌, ◌+◌, ◌-◌, ℕ, List, length, take, drop, replicate, IfOk, OnOk, Some, MatchOption, MatchResult, nat_le, ◌&&◌, ◌==◌};
ghost use Rattle.std.specs.Str.{bytes_eq};
ghost use Rattle.tk_model.specs.Hashes.{mix_of};
ghost use Rattle.tk_block.specs.Blocks.{IsSmall, body_at, body_said, extent_of, room_of};
ghost use Rattle.tk_block.specs.Layout.{Placed, link_of};
ghost use Rattle.tk_append.specs.Opening.{Walk, is_in_its_shard, is_in_turn, is_padded, may_stand, walked};
ghost use Rattle.tk_append.specs.Walked.{IsAt, MayFollow, Fails, NewestIn, HasNone, HasBlock, turn_in, live_head};

use crate::ahead::{AHEAD, count_new, has_blocks, keys_ahead, reserve_keys};
use crate::keys::change_keys;
use std::alloc::Global;
use std::collections::HashSet;
use tk_block::{
    BLOCK_OVERHEAD, BODY_OFFSET, Block, LINK_OFFSET, StaticHead, body_at, extent_of, read_head,
    u64_at,
};
use tk_model::{NoMemory, OpenError, ShardOf, bucket, mix, shard};

/// The first block of a group that is not complete.
#[derive(Clone, Copy, Debug, PartialEq, Eq)]
pub struct OpenGroup {
    pub place: u64,
    pub number: u64,
}

/// What is known behind some of a file's blocks.
#[derive(Drop)]
pub(crate) struct Walker {
    /// The newest block of each bucket. One in front of the last clear counts as none.
    pub heads: Vec<u64>,
    pub cleared: u64,
    /// The keys of the records that the blocks leave.
    pub keys: HashSet<Vec<u8>>,
    /// The number of the last complete group.
    pub before: Option<u64>,
    pub open_group: Option<OpenGroup>,
    /// So many of the blocks that were looked at are not passed.
    ahead: usize,
}

/// A block with its extent and the mixed hash of its key.
#[derive(Clone, Copy)]
pub(crate) struct FoundBlock<'a> {
    pub extent: u64,
    pub hash: u64,
    pub block: Block<'a>,
}

/// A head, where it stands behind the last clear.
fn live_head(cleared: u64, head: u64) -> u64
    ensures { result ≡ live_head cleared head }
{
    if cleared < head { head } else { 0 }
}

/// The block at the front of bytes that lie at a place.
fn block_at(bytes: &[u8], place: u64) -> Option<FoundBlock<'_>>
    ensures { MatchOption result (HasNone place bytes.now) (HasBlock place bytes.now) }
{
    if bytes.len() < BODY_OFFSET {
        return None;
    }
    let extent = read_head(bytes, place)?;
    let block = body_at(&bytes[BODY_OFFSET..], place)?;
    Some(FoundBlock {
        extent,
        hash: mix(block.key),
        block,
    })
}

/// The bytes behind the body are zero.
fn is_padded(bytes: &[u8], extent: u64, block: Block<'_>) -> bool
    requires small { IsSmall block.key.now block.value.now }
    requires extent { extent ≡ extent_of (body_said block) }
    requires long { extent ≤ length bytes.now }
    ensures { result ≡ is_padded bytes.now extent (body_said block.entry) }
{
    let room = BLOCK_OVERHEAD + block.key.len() + block.value.len();
    let padding = &bytes[room..extent as usize];
    padding == &[0; 8][..padding.len()]
}

/// The block lies within the bytes, has the least extent that fits and zero padding.
fn is_well_laid(bytes: &[u8], extent: u64, block: Block<'_>) -> bool
    requires small { IsSmall block.key.now block.value.now }
    ensures { result ≡ (nat_le extent (length bytes.now) &&
        (extent == extent_of (body_said block.entry)) && is_padded bytes.now extent
        (body_said block.entry)) }
{
    extent <= bytes.len() as u64
        && extent == extent_of(block.key.len(), block.value.len())
        && is_padded(bytes, extent, block)
}

/// The key belongs to this file of a set.
fn is_in_its_shard(head: &StaticHead, shard_of: ShardOf, found: &FoundBlock<'_>) -> bool
    requires shard { shard_of.index < shard_of.of }
    requires hash { found.now.hash ≡ mix_of found.now.block.key.now }
    ensures { result ≡ is_in_its_shard head.now shard_of (body_said found.now.block) }
{
    head.kind != 1 || found.block.kind == 4 || shard(found.hash, shard_of.of) == shard_of.index
}

/// The block may follow those before it in its group, or begin a group.
pub fn is_in_turn(before: Option<u64>, open_group: Option<OpenGroup>, block: Block<'_>) -> bool
    ensures { result ≡ turn_in before open_group (body_said block.entry) }
{
    match open_group {
        Some(first) => block.number == first.number && block.kind != 4,
        None => before.is_none_or(|number| number < block.number)
            && (block.kind != 4 || block.last),
    }
}

impl Walker {
    ghost use Rattle.std.specs.Prelude.{◌≡◌, ◌≤◌, ◌<◌, ◌^◌, ◌+◌, ℕ, List, [], ◌++◌, ◌∷◌, length, Option, option_map, if◌then◌else◌, IfOk, OnOk, IfErr};
    ghost use Rattle.tk_model.specs.Hashes.{mix_of};
    ghost use Rattle.tk_block.specs.Text.{base_of};
    ghost use Rattle.tk_block.specs.Blocks.{IsSmall, body_said};
    ghost use Rattle.tk_block.specs.Layout.{Placed, link_of, placed};
    ghost use Rattle.tk_append.specs.Chains.{HeadsAre};
    ghost use Rattle.tk_append.specs.Opening.{Walk, begin, may_stand, walked, opened_by};
    ghost use Rattle.tk_append.specs.Walked.{IsAt, MayFollow, Fails, HasBlock, NewestIn, IsOfKind, Passed, least_behind, as_open};

    /// Nothing is known yet. There is room for so many keys.
    pub fn with_capacity(alloc: Global, p: u8, keys: usize) -> Result<Walker, NoMemory>
        requires { p ≤ 24 }
        ensures { IfOk result (λ walker. IsAt p (base_of p) walker begin) }
    {
        let mut heads = Vec::new(alloc);
        heads.resize(1 << p, 0)?;
        let keys = HashSet::with_capacity(alloc, keys)?;
        Ok(Walker {
            heads,
            cleared: 0,
            keys,
            before: None,
            open_group: None,
            ahead: 0,
        })
    }

    /// The link that this block has here.
    fn link(&self, p: u8, found: &FoundBlock<'_>) -> u64
        requires p { p ≤ 24 }
        requires heads { length self.now.heads.items ≡ 2 ^ p }
        requires hash { found.now.hash ≡ mix_of found.now.block.key.now }
        ensures { (place : ℕ) (w : Walk) → IsAt p place self.now w → result ≡ link_of p w.blocks
            (body_said found.now.block) }
    {
        if found.block.kind == 4 {
            return 0;
        }
        live_head(self.cleared, self.heads[bucket(found.hash, p) as usize])
    }

    /// The block may stand behind those so far.
    fn may_stand(
        &self,
        head: &StaticHead,
        shard: ShardOf,
        bytes: &[u8],
        found: &FoundBlock<'_>,
    ) -> bool
        requires shard { shard.index < shard.of }
        requires small { IsSmall found.now.block.key.now found.now.block.value.now }
        requires hash { found.now.hash ≡ mix_of found.now.block.key.now }
        ensures { (place : ℕ) (w : Walk) → IsAt head.now.p place self.now w
            → result ≡ may_stand head.now shard w bytes.now found.now.extent
            (body_said found.now.block) }
    {
        is_well_laid(bytes, found.extent, found.block)
            && found.block.kind != 3
            && is_in_turn(self.before, self.open_group, found.block)
            && is_in_its_shard(head, shard, found)
    }

    /// The block at the front of bytes that lie at a place, where it may stand behind those so far.
    fn judge<'a>(
        &self,
        head: &StaticHead,
        shard: ShardOf,
        place: u64,
        bytes: &'a [u8],
    ) -> Result<FoundBlock<'a>, OpenError>
        requires p { head.now.p ≤ 24 }
        requires heads { length self.now.heads.items ≡ 2 ^ head.now.p }
        requires shard { shard.index < shard.of }
        requires place { place + length bytes.now < 2 ^ 64 }
        ensures found { (w : Walk) → IsAt head.now.p place self.now w
            → IfOk result (λ s. MayFollow head.now shard w place bytes.now s.extent
            (body_said s.block)) }
        ensures fails { (w : Walk) → IsAt head.now.p place self.now w
            → IfErr result (Fails head.now shard w place bytes.now) }
        ensures block { IfOk result (HasBlock place bytes.now) }
    {
        let Some(found) = block_at(bytes, place) else {
            return Err(OpenError::BrokenAt(place));
        };
        if !self.may_stand(head, shard, bytes, &found) {
            return Err(OpenError::BrokenAt(place));
        }
        if u64_at(bytes, LINK_OFFSET) != self.link(head.p, &found) {
            return Err(OpenError::BrokenAt(place + LINK_OFFSET as u64));
        }
        Ok(found)
    }

    /// The block is the newest of its bucket, or all buckets are empty.
    fn turn_heads(&mut self, p: u8, place: u64, found: &FoundBlock<'_>)
        requires p { p ≤ 24 }
        requires heads { length self.old.heads.items ≡ 2 ^ p }
        requires hash { found.now.hash ≡ mix_of found.now.block.key.now }
        ensures heads { (blocks : List Placed) → NewestIn p place self.old.heads.items
            self.old.cleared blocks → IsOfKind (body_said found.now.block)
            → (next : ℕ) → place < next → NewestIn p next self.new.heads.items self.new.cleared
            (blocks ++ placed place (body_said found.now.block) ∷ []) }
        ensures keys { self.new.keys ≡ self.old.keys }
        ensures before { self.new.before ≡ self.old.before }
        ensures open_group { self.new.open_group ≡ self.old.open_group }
    {
        if found.block.kind == 4 {
            self.cleared = place;
        } else {
            self.heads[bucket(found.hash, p) as usize] = place;
        }
    }

    /// The block ends its group, or goes on with one.
    fn turn_group(&mut self, place: u64, block: Block<'_>)
        ensures before { (least : ℕ) → least ≡ least_behind self.old.before
            → (if block.entry.last then block.entry.number + 1 else least) ≡ least_behind
            self.new.before }
        ensures open_group { (first : Option Placed) → self.old.open_group ≡ option_map as_open
            first → self.new.open_group ≡ option_map as_open
            (opened_by first (placed place (body_said block.entry))) }
        ensures heads { self.new.heads.items ≡ self.old.heads.items }
        ensures cleared { self.new.cleared ≡ self.old.cleared }
        ensures keys { self.new.keys ≡ self.old.keys }
    {
        if block.last {
            self.before = Some(block.number);
            self.open_group = None;
        } else if self.open_group.is_none() {
            self.open_group = Some(OpenGroup {
                place,
                number: block.number,
            });
        }
    }

    /// Goes on behind a block that may stand here.
    fn pass(
        &mut self,
        alloc: Global,
        p: u8,
        place: u64,
        found: &FoundBlock<'_>,
    ) -> Result<(), NoMemory>
        requires p { p ≤ 24 }
        requires heads { length self.old.heads.items ≡ 2 ^ p }
        requires hash { found.now.hash ≡ mix_of found.now.block.key.now }
        ensures walked { (w : Walk) (next : ℕ) → IsAt p place self.old w
            → IsOfKind (body_said found.now.block) → place < next
            → OnOk result
            (IsAt p next self.new
            (walked w (placed place (body_said found.now.block)))) }
    {
        change_keys(alloc, &mut self.keys, found.block)?;
        self.turn_heads(p, place, found);
        self.turn_group(place, found.block);
        Ok(())
    }

    /// Looks at the next blocks where none of those that were looked at is left.
    fn look_ahead(&mut self, p: u8, bytes: &[u8]) -> Result<(), NoMemory>
        requires p { p ≤ 24 }
        requires heads { length self.old.heads.items ≡ 2 ^ p }
        ensures same { (place : ℕ) (w : Walk) → IsAt p place self.old w → IsAt p place self.new w }
        ensures heads { self.new.heads ≡ self.old.heads }
    {
        if self.ahead > 0 {
            self.ahead -= 1;
            return Ok(());
        }
        self.ahead = AHEAD - 1;
        let next = keys_ahead(bytes);
        let new = if has_blocks(p, &self.heads, &next) {
            count_new(&self.keys, &next)
        } else {
            next.len()
        };
        reserve_keys(&mut self.keys, new)
    }

    /// Passes the block at the front of bytes that lie at a place, and answers its extent.
    pub fn step(
        &mut self,
        alloc: Global,
        head: &StaticHead,
        shard: ShardOf,
        place: u64,
        bytes: &[u8],
    ) -> Result<u64, OpenError>
        requires p { head.now.p ≤ 24 }
        requires heads { length self.old.heads.items ≡ 2 ^ head.now.p }
        requires shard { shard.index < shard.of }
        requires place { place + length bytes.now < 2 ^ 64 }
        ensures passed { (w : Walk) → IsAt head.now.p place self.old w
            → IfOk result (λ e. Passed head.now shard w place bytes.now e self.new) }
        ensures fails { (w : Walk) → IsAt head.now.p place self.old w
            → IfErr result (Fails head.now shard w place bytes.now) }
    {
        self.look_ahead(head.p, bytes)?;
        let found = self.judge(head, shard, place, bytes)?;
        self.pass(alloc, head.p, place, &found)?;
        Ok(found.extent)
    }

    /// Gives the heads away.
    pub fn into_heads(self) -> Vec<u64>
        ensures { result ≡ self.heads }
    {
        let Walker {
            heads,
            cleared: _,
            keys: _,
            before: _,
            open_group: _,
            ahead: _,
        } = self;
        heads
    }

    /// Makes 0 of the heads in front of the last clear.
    pub fn settle(&mut self)
        ensures heads { (p place : ℕ) (blocks : List Placed) → NewestIn p place self.old.heads.items
            self.old.cleared blocks → HeadsAre p self.new.heads.items blocks }
        ensures same { length self.new.heads.items ≡ length self.old.heads.items }
        ensures keys { self.new.keys ≡ self.old.keys }
        ensures before { self.new.before ≡ self.old.before }
        ensures open_group { self.new.open_group ≡ self.old.open_group }
    {
        for bucket in 0..self.heads.len() {
            self.heads[bucket] = live_head(self.cleared, self.heads[bucket]);
        }
    }
}
