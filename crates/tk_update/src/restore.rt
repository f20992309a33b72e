//! To which records the image that a crash leaves of an updating file is restored.
ghost use Rattle.std.specs.Prelude.{◌≡◌, ◌≤◌, ◌<◌, length, drop, IfOk, OnOk, option_map};
ghost use Rattle.std.specs.Option.{option_copied};
ghost use Rattle.tk_model.specs.declared.record.Order.TheVariants.{Hash};
ghost use Rattle.tk_block.specs.Sizes.{body_offset};
ghost use Rattle.tk_block.specs.Blocks.{body_at, body_said};
ghost use Rattle.tk_block.specs.declared.head.StaticHead.{StaticHead};
ghost use Rattle.tk_update.specs.Blocks.{value_in};
ghost use Rattle.tk_update.specs.Restored.{inside, blocks_in, newer, newest_of, restore_one, newest_records, restored_records};
ghost use Rattle.tk_update.specs.Reread.{ReadTo};

use crate::block::{BlockList, PlainBlock};
use crate::plain::is_of;
use std::alloc::Global;
use tk_block::{
    BLOCK_OVERHEAD, BODY_OFFSET, Block, Body, StaticHead, base_of, body_at, read_head, read_static,
};
use tk_model::{Bytes, NoMemory, Order, Pair, PairList, put_in};

/// The body of the block at the front of bytes that lie at a place, if it lies inside the extent.
fn body_inside(bytes: &[u8], place: u64, extent: u64) -> Option<Block<'_>>
    ensures { option_map body_said result ≡ inside extent
        (body_at (drop body_offset bytes.now) place) }
{
    if bytes.len() < BODY_OFFSET {
        return None;
    }
    let block = body_at(&bytes[BODY_OFFSET..], place)?;
    let room = BLOCK_OVERHEAD + block.key.len() + block.value.len();
    if room as u64 <= extent {
        Some(block)
    } else {
        None
    }
}

fn copy_body(alloc: Global, block: Block<'_>) -> Result<Body, NoMemory>
    ensures { IfOk result (λ body. body ≡ body_said block.entry) }
{
    let key = Bytes::from_slice(alloc, block.key)?;
    let value = Bytes::from_slice(alloc, block.value)?;
    Ok(Body {
        kind: block.kind,
        last: block.last,
        key,
        value,
        number: block.number,
    })
}

/// Reads the block at a place, and answers where the next may stand: at the end where there is no head.
fn read_block(
    alloc: Global,
    bytes: &[u8],
    place: usize,
    blocks: &mut BlockList,
) -> Result<usize, NoMemory>
    requires { place < length bytes.now }
    ensures read { (h : StaticHead) → ReadTo h bytes.now place blocks.old
        → IfOk result (λ next. ReadTo h bytes.now next blocks.new) }
    ensures further { IfOk result (λ next. place < next) }
    ensures within { IfOk result (λ next. next ≤ length bytes.now) }
{
    let rest = &bytes[place..];
    let Some(extent) = read_head(rest, place as u64) else {
        return Ok(bytes.len());
    };
    let next = place + extent.min(rest.len() as u64) as usize;
    let Some(block) = body_inside(rest, place as u64, extent) else {
        return Ok(next);
    };
    let body = copy_body(alloc, block)?;
    blocks.push(PlainBlock::new(place as u64, extent, body))?;
    Ok(next)
}

/// The valid blocks of a file of this header.
fn blocks_of(alloc: Global, head: &StaticHead, bytes: &[u8]) -> Result<BlockList, NoMemory>
    requires { head.now.p ≤ 24 }
    ensures { IfOk result (λ blocks. blocks ≡ blocks_in head.now bytes.now) }
{
    let mut blocks = BlockList::new(alloc);
    let mut place = base_of(head.p) as usize;
    while place < bytes.len() {
        place = read_block(alloc, bytes, place, &mut blocks)?;
    }
    Ok(blocks)
}

/// The block of greater number, of equals the first.
fn newer<'a>(one: &'a PlainBlock, two: Option<&'a PlainBlock>) -> Option<&'a PlainBlock>
    ensures { option_copied result ≡ newer one.now (option_copied two.entry) }
{
    match two {
        Some(two) if one.body().number < two.body().number => Some(two),
        _ => Some(one),
    }
}

/// Of a key's blocks the one of the greatest number, of equals the first.
fn newest_of<'a>(blocks: &'a [PlainBlock], key: &[u8]) -> Option<&'a PlainBlock>
    ensures { option_copied result ≡ newest_of key.now blocks.now }
{
    let mut newest: Option<&PlainBlock> = None;
    for i in (0..blocks.len()).rev() {
        let block = &blocks[i];
        if is_of(key, block.body()) {
            newest = newer(block, newest);
        }
    }
    newest
}

/// Puts the newest value of the block's key.
fn restore_one(all: &[PlainBlock], body: &Body, pairs: &mut PairList) -> Result<(), NoMemory>
    ensures { OnOk result (pairs.new ≡ restore_one Hash body.now
        (value_in (newest_of body.now.key all.now)) pairs.old) }
{
    let Some(newest) = newest_of(all, body.key.as_slice()) else {
        return Ok(());
    };
    if body.kind == 1 {
        let key = body.key.clone()?;
        let value = newest.body().value.clone()?;
        put_in(pairs, &Order::Hash, Pair { key, value })?;
    }
    Ok(())
}

fn newest_records(alloc: Global, blocks: &[PlainBlock]) -> Result<PairList, NoMemory>
    ensures { IfOk result (λ pairs. pairs ≡ newest_records Hash blocks.now blocks.now) }
{
    let mut pairs = PairList::new(alloc);
    for i in (0..blocks.len()).rev() {
        restore_one(blocks, blocks[i].body(), &mut pairs)?;
    }
    Ok(pairs)
}

/// The records of the valid blocks to which the heads lead, each key with the value of its greatest number, at the lowest
/// place among equals. Padding, links, heads of buckets and the closing part are not looked at.
pub fn restore_records(alloc: Global, bytes: &[u8]) -> Result<PairList, NoMemory>
    ensures { IfOk result (λ pairs. pairs ≡ restored_records Hash bytes.now) }
{
    let Some(head) = read_static(bytes) else {
        return Ok(PairList::new(alloc));
    };
    let blocks = blocks_of(alloc, &head, bytes)?;
    newest_records(alloc, blocks.as_slice())
}
