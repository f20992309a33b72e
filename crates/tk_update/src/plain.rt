//! The plain model of an updating file: a list of blocks that is gone through from end to end.
ghost use Rattle.std.specs.Prelude.{[], ◌≡◌, ◌≤◌, ◌<◌, ◌^◌, ◌+◌, ◌&&◌, ◌==◌, ℕ, true, false, nat_le, length, IfOk, OnOk, OnErr, option_map, Option};
ghost use Rattle.std.specs.Option.{option_copied};
ghost use Rattle.tk_model.specs.declared.record.Change.TheVariants.{Put};
ghost use Rattle.tk_block.specs.Blocks.{IsSmall, AllSmall, key_of, value_of, room_of};
ghost use Rattle.tk_block.specs.Layout.{Placed};
ghost use Rattle.tk_update.specs.Blocks.{is_of, block_of, best_void, end_behind, appended, written_at, voided, put_into, put_block, better, set_body, void_body, blocks_after_one, blocks_after};
ghost use Rattle.tk_update.specs.Plain.{BlocksFrom};

use crate::block::{BlockList, PlainBlock};
use std::alloc::Global;
use std::marker::Model;
use tk_block::{BLOCK_OVERHEAD, Body, extent_of};
use tk_model::{Bytes, Change, Group, NoMemory, Pair, is_same};

/// The body sets the key.
pub(crate) fn is_of(key: &[u8], body: &Body) -> bool
    ensures { result ≡ is_of key.now body.now }
{
    body.kind == 1 && is_same(key, body.key.as_slice())
}

/// The bytes that a set block of this record needs.
fn room_of(pair: &Pair) -> u64
    requires { IsSmall pair.now.key pair.now.value }
    ensures { (n : ℕ) → result ≡ room_of (set_body pair.now n) }
{
    BLOCK_OVERHEAD as u64 + pair.key.len() as u64 + pair.value.len() as u64
}

/// The body of a set block.
fn set_body(pair: &Pair, number: u64) -> Result<Body, NoMemory>
    ensures { IfOk result (λ b. b ≡ set_body pair.now number) }
{
    let key = pair.key.clone()?;
    let value = pair.value.clone()?;
    Ok(Body {
        kind: 1,
        last: true,
        key,
        value,
        number,
    })
}

fn void_body(alloc: Global, number: u64) -> Body
    ensures { result ≡ void_body number }
{
    Body {
        kind: 3,
        last: true,
        key: Bytes::new(alloc),
        value: Bytes::new(alloc),
        number,
    }
}

fn copy_blocks(alloc: Global, blocks: &[PlainBlock]) -> Result<BlockList, NoMemory>
    ensures { IfOk result (λ l. l ≡ blocks.now) }
{
    let mut copy = BlockList::new(alloc);
    for block in blocks {
        copy.push(block.copy()?)?;
    }
    Ok(copy)
}

/// The block that sets a key.
fn block_of<'a>(blocks: &'a [PlainBlock], key: &[u8]) -> Option<&'a PlainBlock>
    ensures { option_copied result ≡ block_of key.now blocks.now }
{
    for i in 0..blocks.len() {
        let block = &blocks[i];
        if is_of(key, block.body()) {
            return Some(block);
        }
    }
    None
}

/// The block is void and has room for so many bytes.
fn is_free(block: &PlainBlock, room: u64) -> bool
    ensures { result ≡ ((block.now.body.kind == 3) && nat_le room block.now.extent) }
{
    block.body().kind == 3 && room <= block.extent()
}

/// Of two voids the one of lesser extent, of equals the first.
fn better<'a>(one: Option<&'a PlainBlock>, two: Option<&'a PlainBlock>) -> Option<&'a PlainBlock>
    ensures { option_copied result ≡ better (option_copied one.entry) (option_copied two.entry) }
{
    match (one, two) {
        (None, two) => two,
        (Some(one), None) => Some(one),
        (Some(one), Some(two)) => {
            if one.extent() <= two.extent() {
                Some(one)
            } else {
                Some(two)
            }
        }
    }
}

/// The void of the least extent that fits, of equals the first.
fn best_void(blocks: &[PlainBlock], room: u64) -> Option<&PlainBlock>
    ensures { option_copied result ≡ best_void room blocks.now }
{
    let mut best: Option<&PlainBlock> = None;
    for i in (0..blocks.len()).rev() {
        let block = &blocks[i];
        if is_free(block, room) {
            best = better(Some(block), best);
        }
    }
    best
}

fn void_place(blocks: &[PlainBlock], room: u64) -> Option<u64>
    ensures { result ≡ option_map (λ (x : Placed). x.place) (best_void room blocks.now) }
{
    match best_void(blocks, room) {
        Some(void) => Some(void.place()),
        None => None,
    }
}

/// Where the blocks end.
fn end_behind(base: u64, blocks: &[PlainBlock]) -> u64
    requires { end_behind base blocks.now < 2 ^ 64 }
    ensures { result ≡ end_behind base blocks.now }
{
    if blocks.is_empty() {
        return base;
    }
    let block = &blocks[blocks.len() - 1];
    block.place() + block.extent()
}

/// Another body for the block at a place.
fn write_at(blocks: &mut BlockList, place: u64, body: Body)
    ensures { blocks.new ≡ written_at place body blocks.old }
{
    for i in 0..blocks.len() {
        let block = &blocks.as_slice()[i];
        if block.place() == place {
            let written = PlainBlock::new(block.place(), block.extent(), body);
            blocks.set(i, written);
            return;
        }
    }
}

/// Each block of the key is made void.
fn void_key(alloc: Global, blocks: &mut BlockList, key: &[u8], number: u64)
    ensures { blocks.new ≡ voided key.now number blocks.old }
{
    for i in 0..blocks.len() {
        let block = &blocks.as_slice()[i];
        if is_of(key, block.body()) {
            let void = PlainBlock::new(block.place(), block.extent(), void_body(alloc, number));
            blocks.set(i, void);
        }
    }
}

/// A block of the least extent at the end.
fn append(blocks: &mut BlockList, base: u64, body: Body) -> Result<(), NoMemory>
    requires small { IsSmall body.key body.value }
    requires end { end_behind base blocks.old < 2 ^ 63 }
    ensures { OnOk result (blocks.new ≡ appended base body blocks.old) }
{
    let place = end_behind(base, blocks.as_slice());
    let extent = extent_of(body.key.len(), body.value.len());
    blocks.push(PlainBlock::new(place, extent, body))
}

/// The body into the void at a place, or to the end.
fn put_into(
    blocks: &mut BlockList,
    base: u64,
    body: Body,
    void: Option<u64>,
) -> Result<(), NoMemory>
    requires small { IsSmall body.key body.value }
    requires end { end_behind base blocks.old < 2 ^ 63 }
    ensures { (v : Option Placed) → option_map (λ (x : Placed). x.place) v ≡ void
        → OnOk result (blocks.new ≡ put_into base body v blocks.old) }
{
    match void {
        Some(place) => {
            write_at(blocks, place, body);
            Ok(())
        }
        None => append(blocks, base, body),
    }
}

fn put_block(
    alloc: Global,
    blocks: &mut BlockList,
    base: u64,
    pair: &Pair,
    number: u64,
) -> Result<(), NoMemory>
    requires small { IsSmall pair.now.key pair.now.value }
    requires end { end_behind base blocks.old < 2 ^ 63 }
    ensures { OnOk result (blocks.new ≡ put_block base pair.now number blocks.old) }
{
    let body = set_body(pair, number)?;
    let room = room_of(pair);
    let void = void_place(blocks.as_slice(), room);
    let Some(old) = block_of(blocks.as_slice(), pair.key.as_slice()) else {
        return put_into(blocks, base, body, void);
    };
    if room <= old.extent() {
        let place = old.place();
        write_at(blocks, place, body);
        return Ok(());
    }
    void_key(alloc, blocks, pair.key.as_slice(), number);
    put_into(blocks, base, body, void)
}

fn change_blocks(
    alloc: Global,
    blocks: &mut BlockList,
    base: u64,
    change: &Change,
    number: u64,
) -> Result<(), NoMemory>
    requires small { IsSmall (key_of change.now) (value_of change.now) }
    requires end { end_behind base blocks.old < 2 ^ 63 }
    ensures { OnOk result (blocks.new ≡ blocks_after_one base number change.now blocks.old) }
{
    match change {
        Change::Put(pair) => put_block(alloc, blocks, base, pair, number)?,
        Change::Drop(key) => void_key(alloc, blocks, key.as_slice(), number),
        Change::Clear => blocks.clear(),
    }
    Ok(())
}

/// The blocks of an updating file, and changes made of them one after the other.
#[derive(Debug, Drop)]
pub struct PlainBlocks {
    base: u64,
    blocks: BlockList,
}

impl Model for PlainBlocks {
    ghost use Rattle.std.specs.Prelude.{◌≤◌, ◌<◌, ◌^◌};
    ghost use Rattle.tk_update.specs.Blocks.{end_behind};
    ghost use Rattle.tk_update.specs.Plain.{BlocksFrom};

    ghost Value = { BlocksFrom };

    ghost view = { λ m. record { base = m.base; blocks = m.blocks } };

    ghost invariant = { λ m. (m.base ≤ 2 ^ 40) × (end_behind m.base m.blocks < 2 ^ 63) };
}

impl PlainBlocks {
    /// No blocks, from a place on.
    pub fn new(alloc: Global, base: u64) -> PlainBlocks
        requires { base ≤ 2 ^ 40 }
        ensures { result ≡ record { base = base; blocks = [] } }
    {
        PlainBlocks {
            base,
            blocks: BlockList::new(alloc),
        }
    }

    pub fn blocks(&self) -> &BlockList
        ensures { result.now ≡ self.now.blocks }
    {
        &self.blocks
    }

    /// Where they end.
    pub fn end(&self) -> u64
        ensures { result ≡ end_behind self.now.base self.now.blocks }
    {
        end_behind(self.base, self.blocks.as_slice())
    }

    /// Makes the changes of a group.
    pub fn apply(&mut self, alloc: Global, group: &Group) -> Result<(), NoMemory>
        requires small { AllSmall group.now.changes }
        requires few { length group.now.changes ≤ 2 ^ 20 }
        requires end { end_behind self.old.base self.old.blocks ≤ 2 ^ 40 }
        ensures blocks { OnOk result (self.new.blocks ≡ blocks_after self.old.base
            group.now.number group.now.changes self.old.blocks) }
        ensures base { self.new.base ≡ self.old.base }
        ensures err { OnErr result (self.new ≡ self.old) }
    {
        let mut after = copy_blocks(alloc, self.blocks.as_slice())?;
        for change in group.changes.as_slice() {
            change_blocks(alloc, &mut after, self.base, change, group.number)?;
        }
        self.blocks = after;
        Ok(())
    }
}
