ghost use Rattle.std.specs.Prelude.{◌≡◌, ◌≤◌, ◌<◌, ◌^◌, ◌+◌, ◌-◌, ◌++◌, ℕ, length, OnOk, OnErr, IfOk, option_map, Some, None, if◌then◌else◌, take, nat_le};
ghost use Rattle.std.specs.Io.{StartsWith};
ghost use Rattle.std.specs.Str.{bytes_eq};
ghost use Rattle.tk_block.specs.Sizes.{check_size, block_overhead};
ghost use Rattle.tk_block.specs.Text.{check_number};
ghost use Rattle.tk_block.specs.Grammar.{Reads, FitsBody};
ghost use Rattle.tk_block.specs.Renumber.{unchecked_text};
ghost use Rattle.tk_block.specs.Blocks.{IsSmall, flag, numbers_text, body_front, body_text, block_text, room_of, extent_for, extent_of, body_said, is_nil, is_body, body_at, body_in, check_in};

use crate::head::write_head;
use crate::number::{u16_at, u32_at, u64_at};
use crate::sizes::{BLOCK_OVERHEAD, CHECK_SIZE, EXTENT_UNIT, LEAST_EXTENT, NUMBERS_SIZE};
use std::alloc::Global;
use tk_model::{Bytes, NoMemory, fnv32, fnv32_from};

/// What a block's body says. Kinds: 1 set, 2 remove, 3 void, 4 clear.
#[derive(Debug, Drop)]
pub struct Body {
    pub kind: u8,
    pub last: bool,
    pub key: Bytes,
    pub value: Bytes,
    pub number: u64,
}

/// A body whose key and value are borrowed.
#[derive(Clone, Copy)]
pub struct Block<'a> {
    pub kind: u8,
    pub last: bool,
    pub number: u64,
    pub key: &'a [u8],
    pub value: &'a [u8],
}

/// The check of bytes at a place.
#[tactic(auto, using(crate::proofs::Checks::joined))]
pub(crate) fn check(bytes: &[u8], place: u64) -> u32
    ensures { result ≡ check_number bytes.now place }
{
    fnv32_from(fnv32(bytes), &place.to_be_bytes())
}

/// The bytes of a block whose key and value are so long.
pub fn extent_of(key: usize, value: usize) -> u64
    requires key { key < 2 ^ 16 }
    requires value { value ≤ 33554431 }
    ensures value { result ≡ extent_for (block_overhead + key + value) }
    ensures fits { block_overhead + key + value ≤ result }
{
    let room = BLOCK_OVERHEAD as u64 + key as u64 + value as u64;
    LEAST_EXTENT.max((room + EXTENT_UNIT - 1) / EXTENT_UNIT * EXTENT_UNIT)
}

fn flag(last: bool) -> u8
    ensures { result ≡ flag last }
{
    if last { 1 } else { 0 }
}

fn numbers_of(block: Block<'_>) -> [u8; 16]
    requires { IsSmall block.key.now block.value.now }
    ensures { result ≡ numbers_text (body_said block.entry) }
{
    let k = (block.key.len() as u16).to_be_bytes();
    let v = (block.value.len() as u32).to_be_bytes();
    let n = block.number.to_be_bytes();
    let last = flag(block.last);
    [
        block.kind, last, k[0], k[1], v[0], v[1], v[2], v[3], n[0], n[1], n[2], n[3], n[4], n[5],
        n[6], n[7],
    ]
}

fn put_front(block: Block<'_>, out: &mut Bytes) -> Result<(), NoMemory>
    requires { IsSmall block.key.now block.value.now }
    ensures ok { OnOk result (out.new ≡ out.old ++ body_front (body_said block.entry)) }
    ensures err { OnErr result (StartsWith out.new out.old) }
{
    out.extend(&numbers_of(block))?;
    out.extend(block.key)?;
    out.extend(block.value)
}

#[tactic(auto, unfolding(crate::specs::Text::checked))]
fn put_body(block: Block<'_>, place: u64, out: &mut Bytes) -> Result<(), NoMemory>
    requires { IsSmall block.key.now block.value.now }
    ensures ok { OnOk result (out.new ≡ out.old ++ body_text (body_said block.entry) place) }
    ensures err { OnErr result (StartsWith out.new out.old) }
{
    let start = out.len();
    put_front(block, out)?;
    let sum = check(&out.as_slice()[start..], place);
    out.extend(&sum.to_be_bytes())
}

/// Puts the block's text for a place at the end.
#[tactic(auto, unfolding(crate::specs::Blocks::block_text, crate::specs::Blocks::block_with))]
pub fn write_block(block: Block<'_>, place: u64, link: u64, out: &mut Bytes) -> Result<(), NoMemory>
    requires { IsSmall block.key.now block.value.now }
    ensures ok { OnOk result (out.new ≡ out.old ++ block_text (body_said block.entry) place link) }
    ensures err { OnErr result (StartsWith out.new out.old) }
{
    let room = BLOCK_OVERHEAD + block.key.len() + block.value.len();
    let extent = extent_of(block.key.len(), block.value.len());
    out.extend(&write_head(extent, place))?;
    out.extend(&link.to_be_bytes())?;
    put_body(block, place, out)?;
    out.extend_zeros(extent as usize - room)
}

/// Puts the block's text for a place at the end, with zero bytes where its check will stand.
#[tactic(auto, unfolding(crate::specs::Renumber::unchecked_text))]
pub(crate) fn write_unchecked(
    block: Block<'_>,
    place: u64,
    link: u64,
    out: &mut Bytes,
) -> Result<(), NoMemory>
    requires { IsSmall block.key.now block.value.now }
    ensures ok { OnOk result (out.new ≡ out.old
        ++ unchecked_text (body_said block.entry) place link) }
    ensures err { OnErr result (StartsWith out.new out.old) }
{
    let room = BLOCK_OVERHEAD + block.key.len() + block.value.len();
    let extent = extent_of(block.key.len(), block.value.len());
    out.extend(&write_head(extent, place))?;
    out.extend(&link.to_be_bytes())?;
    put_front(block, out)?;
    out.extend_zeros(CHECK_SIZE + (extent as usize - room))
}

fn is_body(block: Block<'_>) -> bool
    ensures { result ≡ is_body (body_said block.entry) }
{
    1 <= block.kind
        && block.kind <= 4
        && block.value.len() <= 33_554_431
        && (block.kind == 1 || block.value.is_empty())
        && (block.kind <= 2 || block.key.is_empty())
}

/// Where the check stands, if the bytes are long enough for the lengths at their front.
fn check_place(bytes: &[u8]) -> Option<usize>
    ensures { result ≡ if nat_le (check_in bytes.now + check_size) (length bytes.now) then Some
        (check_in bytes.now) else None }
{
    if bytes.len() < NUMBERS_SIZE + CHECK_SIZE {
        return None;
    }
    let place = NUMBERS_SIZE + u16_at(bytes, 2) as usize + u32_at(bytes, 4) as usize;
    if place <= bytes.len() - CHECK_SIZE {
        Some(place)
    } else {
        None
    }
}

fn fields_of(bytes: &[u8], check_at: usize) -> Block<'_>
    requires place { check_at ≡ check_in bytes.now }
    requires long { check_at + check_size ≤ length bytes.now }
    ensures fields { body_said result ≡ body_in bytes.now }
    ensures key { length result.key.now < 2 ^ 16 }
{
    let value_at = NUMBERS_SIZE + u16_at(bytes, 2) as usize;
    Block {
        kind: bytes[0],
        last: bytes[1] == 1,
        number: u64_at(bytes, 8),
        key: &bytes[NUMBERS_SIZE..value_at],
        value: &bytes[value_at..check_at],
    }
}

fn is_spelled(bytes: &[u8], check_at: usize, block: Block<'_>, place: u64) -> bool
    requires place { check_at ≡ check_in bytes.now }
    requires long { check_at + check_size ≤ length bytes.now }
    requires fields { body_said block ≡ body_in bytes.now }
    requires small { IsSmall block.key.now block.value.now }
    ensures { result ≡ bytes_eq (take (check_in bytes.now + check_size) bytes.now)
        (body_text (body_in bytes.now) place) }
{
    let numbers = numbers_of(block);
    let sum = check(&bytes[..check_at], place).to_be_bytes();
    &bytes[..NUMBERS_SIZE] == numbers.as_slice()
        && &bytes[check_at..check_at + CHECK_SIZE] == sum.as_slice()
}

/// The body that the front of bytes at a place spells. Bytes behind it are not looked at.
#[tactic(auto, unfolding(crate::specs::Blocks::body_at))]
pub fn body_at(bytes: &[u8], place: u64) -> Option<Block<'_>>
    ensures value { option_map body_said result ≡ body_at bytes.now place }
    ensures exact { Reads FitsBody (λ b. body_text b place) (λ bytes. body_at bytes place) }
{
    let check_at = check_place(bytes)?;
    let block = fields_of(bytes, check_at);
    if is_body(block) && is_spelled(bytes, check_at, block, place) {
        Some(block)
    } else {
        None
    }
}

/// As `body_at`, with a key and a value of its own.
pub fn read_body(alloc: Global, bytes: &[u8], place: u64) -> Result<Option<Body>, NoMemory>
    ensures { IfOk result (λ b. b ≡ body_at bytes.now place) }
{
    let Some(block) = body_at(bytes, place) else {
        return Ok(None);
    };
    let key = Bytes::from_slice(alloc, block.key)?;
    let value = Bytes::from_slice(alloc, block.value)?;
    Ok(Some(Body {
        kind: block.kind,
        last: block.last,
        key,
        value,
        number: block.number,
    }))
}
