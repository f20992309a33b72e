//! To what the image that a crash leaves of a file of groups is restored.
ghost use Rattle.std.specs.Prelude.{◌≡◌, ◌≤◌, IfOk, MatchOption};
ghost use Rattle.tk_block.specs.Blocks.{body_said};
ghost use Rattle.tk_append.specs.Opening.{change_in};
ghost use Rattle.tk_append.specs.Restored.{groups_in, restored_groups};
ghost use Rattle.tk_append.specs.Reread.{NoneThere, IsThere};

use crate::walker::{OpenGroup, is_in_turn};
use std::alloc::Global;
use std::mem;
use tk_block::{
    BLOCK_OVERHEAD, BODY_OFFSET, Block, StaticHead, base_of, body_at, read_head, read_static,
};
use tk_model::{Bytes, Change, ChangeList, Group, GroupList, NoMemory, Pair};

/// A block that stands at a place, with the extent that its head says.
#[derive(Clone, Copy)]
struct Standing<'a> {
    extent: u64,
    block: Block<'a>,
}

/// The block at the front of bytes that lie at a place.
fn block_at(bytes: &[u8], place: u64) -> Option<Standing<'_>>
    ensures { MatchOption result (NoneThere place bytes.now) (IsThere place bytes.now) }
{
    if bytes.len() < BODY_OFFSET {
        return None;
    }
    let extent = read_head(bytes, place)?;
    let block = body_at(&bytes[BODY_OFFSET..], place)?;
    Some(Standing { extent, block })
}

/// What a block does.
pub fn change_of(alloc: Global, block: Block<'_>) -> Result<Change, NoMemory>
    ensures { IfOk result (λ c. c ≡ change_in (body_said block.entry)) }
{
    match block.kind {
        1 => {
            let key = Bytes::from_slice(alloc, block.key)?;
            let value = Bytes::from_slice(alloc, block.value)?;
            Ok(Change::Put(Pair { key, value }))
        }
        2 => Ok(Change::Drop(Bytes::from_slice(alloc, block.key)?)),
        _ => Ok(Change::Clear),
    }
}

/// The groups of some blocks, and the changes of a group that they begin.
#[derive(Drop)]
struct Reading {
    groups: GroupList,
    begun: ChangeList,
    /// The number of the last complete group.
    before: Option<u64>,
    open_group: Option<OpenGroup>,
}

impl Reading {
    ghost use Rattle.std.specs.Prelude.{◌≡◌, ◌<◌, ◌≤◌, ℕ, length, IfOk, OnOk};
    ghost use Rattle.tk_block.specs.Blocks.{IsSmall, body_said};
    ghost use Rattle.tk_block.specs.declared.head.StaticHead.{StaticHead};
    ghost use Rattle.tk_append.specs.Opening.{Walk, begin, walked};
    ghost use Rattle.tk_append.specs.Restored.{may_be_read};
    ghost use Rattle.tk_append.specs.Reread.{Knows, ReadUpto};

    /// Nothing is read yet.
    fn new(alloc: Global) -> Reading
        ensures { Knows result begin }
    {
        Reading {
            groups: GroupList::new(alloc),
            begun: ChangeList::new(alloc),
            before: None,
            open_group: None,
        }
    }

    /// The block may be read behind those so far.
    fn may_read(&self, found: &Standing<'_>) -> bool
        requires { IsSmall found.now.block.key.now found.now.block.value.now }
        ensures { (w : Walk) → Knows self.now w → result ≡ may_be_read w found.now.extent
            (body_said found.now.block) }
    {
        let room = BLOCK_OVERHEAD + found.block.key.len() + found.block.value.len();
        room as u64 <= found.extent
            && found.block.kind != 3
            && is_in_turn(self.before, self.open_group, found.block)
    }

    /// One block more.
    fn add(&mut self, alloc: Global, place: u64, block: Block<'_>) -> Result<(), NoMemory>
        ensures { (w : Walk) (extent : ℕ) → Knows self.old w → OnOk result (Knows self.new
            (walked w (record { place = place; extent = extent; body = body_said block.entry }))) }
    {
        self.begun.push(change_of(alloc, block)?)?;
        let number = block.number;
        if block.last {
            let changes = mem::replace(&mut self.begun, ChangeList::new(alloc));
            self.groups.push(Group { number, changes })?;
            self.before = Some(number);
            self.open_group = None;
        } else if self.open_group.is_none() {
            self.open_group = Some(OpenGroup { place, number });
        }
        Ok(())
    }

    /// Reads the block at a place, and answers where the next may stand: at the end where none is read.
    fn step(&mut self, alloc: Global, bytes: &[u8], place: usize) -> Result<usize, NoMemory>
        requires { place < length bytes.now }
        ensures read { (h : StaticHead) → ReadUpto h bytes.now place self.old
            → IfOk result (λ next. ReadUpto h bytes.now next self.new) }
        ensures further { IfOk result (λ next. place < next) }
        ensures within { IfOk result (λ next. next ≤ length bytes.now) }
    {
        let rest = &bytes[place..];
        let Some(found) = block_at(rest, place as u64) else {
            return Ok(bytes.len());
        };
        if !self.may_read(&found) {
            return Ok(bytes.len());
        }
        self.add(alloc, place as u64, found.block)?;
        Ok(place + found.extent.min(rest.len() as u64) as usize)
    }
}

/// The groups of a file of this header.
#[tactic(auto, using(crate::proofs::Rereading::upto_first))]
fn groups_of(alloc: Global, head: &StaticHead, bytes: &[u8]) -> Result<GroupList, NoMemory>
    requires { head.now.p ≤ 24 }
    ensures { IfOk result (λ groups. groups ≡ groups_in head.now bytes.now) }
{
    let mut reading = Reading::new(alloc);
    let mut place = base_of(head.p) as usize;
    while place < bytes.len() {
        place = reading.step(alloc, bytes, place)?;
    }
    Ok(reading.groups)
}

/// The complete groups that the bytes begin with, up to the first place that is no block of theirs. Padding, links, heads
/// and the closing part are not looked at.
#[tactic(auto, unfolding(crate::specs::Restored::restored_groups))]
pub fn restore_groups(alloc: Global, bytes: &[u8]) -> Result<GroupList, NoMemory>
    ensures { IfOk result (λ groups. groups ≡ restored_groups bytes.now) }
{
    match read_static(bytes) {
        Some(head) => groups_of(alloc, &head, bytes),
        None => Ok(GroupList::new(alloc)),
    }
}
