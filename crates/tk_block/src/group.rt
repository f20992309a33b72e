ghost use Rattle.std.specs.Prelude.{◌≡◌, ◌≤◌, ◌<◌, ◌^◌, ◌+◌, ◌++◌, length, OnOk, OnErr};
ghost use Rattle.std.specs.Io.{StartsWith};
ghost use Rattle.tk_block.specs.Blocks.{AllSmall, group_bodies, kind_of, key_of, value_of};
ghost use Rattle.tk_block.specs.Layout.{laid, end_of};
ghost use Rattle.tk_block.specs.Renumber.{unchecked_texts, IsGroupText, Renumbered, IsBlockIn, RenumberedBlock};

use crate::block::{Block, check, extent_of, write_unchecked};
use crate::number::{u16_at, u32_at, u64_at};
use crate::sizes::{
    BODY_OFFSET, EXTENT_OFFSET, KEY_LEN_OFFSET, KEY_OFFSET, NUMBER_OFFSET, VALUE_LEN_OFFSET,
};
use tk_model::{Bytes, Change, ChangeList, ListOf, NoMemory};

/// A place for each change: that of the block before it in its bucket's chain, or 0.
pub type LinkList = ListOf<u64>;

/// The block of a change.
fn block_of(change: &Change, number: u64, last: bool) -> Block<'_>
    ensures kind { result.kind ≡ kind_of change.now }
    ensures key { result.key.now ≡ key_of change.now }
    ensures value { result.value.now ≡ value_of change.now }
    ensures number { result.number ≡ number }
    ensures last { result.last ≡ last }
{
    let (kind, key, value) = match change {
        Change::Put(pair) => (1, pair.key.as_slice(), pair.value.as_slice()),
        Change::Drop(key) => (2, key.as_slice(), &[] as &[u8]),
        Change::Clear => (4, &[] as &[u8], &[] as &[u8]),
    };
    Block {
        kind,
        last,
        number,
        key,
        value,
    }
}

/// Puts the text of a group of these changes, for a place, at the end. It waits for its number and has no checks.
pub fn write_unnumbered(
    changes: &ChangeList,
    place: u64,
    links: &LinkList,
    out: &mut Bytes,
) -> Result<(), NoMemory>
    requires small { AllSmall changes.now }
    requires links { length links.now ≡ length changes.now }
    requires end { end_of place (group_bodies 0 changes.now) ≤ 2 ^ 40 }
    ensures ok { OnOk result (out.new ≡ out.old ++ unchecked_texts
        (laid place (group_bodies 0 changes.now)) links.now) }
    ensures err { OnErr result (StartsWith out.new out.old) }
{
    let count = changes.len();
    let mut at = place;
    for (i, change) in changes.as_slice().iter().enumerate() {
        let block = block_of(change, 0, i + 1 == count);
        write_unchecked(block, at, *links.at(i), out)?;
        at += extent_of(block.key.len(), block.value.len());
    }
    Ok(())
}

/// Gives the block at an index its number and its check, and answers its length.
fn renumber_block(text: &mut Bytes, at: usize, place: u64, number: u64) -> usize
    requires { IsBlockIn text.old at place }
    ensures block { RenumberedBlock text.old text.new at place number result }
    ensures length { length text.new ≡ length text.old }
{
    let extent = u64_at(text.as_slice(), at + EXTENT_OFFSET) as usize;
    let key = u16_at(text.as_slice(), at + KEY_LEN_OFFSET) as usize;
    let value = u32_at(text.as_slice(), at + VALUE_LEN_OFFSET) as usize;
    let check_at = at + KEY_OFFSET + key + value;
    text.write_at(at + NUMBER_OFFSET, &number.to_be_bytes());
    let sum = check(&text.as_slice()[at + BODY_OFFSET..check_at], place);
    text.write_at(check_at, &sum.to_be_bytes());
    extent
}

/// Gives a group's text for a place its number and its checks.
pub fn renumber(text: &mut Bytes, place: u64, number: u64)
    requires { IsGroupText text.old place }
    ensures { Renumbered text.old text.new place number }
{
    let mut at = 0;
    while at < text.len() {
        at += renumber_block(text, at, place + at as u64, number);
    }
}
