ghost use Rattle.std.specs.Prelude.{◌≡◌, ◌≤◌, ◌<◌, ◌^◌, ◌+◌, ◌*◌, ℕ, IsTrue, IfSome, IfNone, take};
ghost use Rattle.tk_block.specs.Grammar.{Reads, FitsExtent, FitsStatic};
ghost use Rattle.tk_block.specs.Text.{head_text, head_at, is_extent, static_front, static_text, is_static, static_at, base_of};

use crate::block::check;
use crate::number::u64_at;
use crate::sizes::{
    CELL_SIZE, EXTENT_OFFSET, EXTENT_UNIT, HEAD_SIZE, HEADS_PLACE, LEAST_EXTENT, STATIC_SIZE,
};
use tk_model::fnv32;

/// The head of a block at a place.
pub fn write_head(extent: u64, place: u64) -> [u8; 16]
    ensures { result ≡ head_text extent place }
{
    let e = extent.to_be_bytes();
    let front = [
        b'T', b'K', b'B', b'1', e[0], e[1], e[2], e[3], e[4], e[5], e[6], e[7],
    ];
    let c = check(&front, place).to_be_bytes();
    [
        b'T', b'K', b'B', b'1', e[0], e[1], e[2], e[3], e[4], e[5], e[6], e[7], c[0], c[1], c[2],
        c[3],
    ]
}

fn is_extent(e: u64) -> bool
    ensures { result ≡ is_extent e }
{
    e % EXTENT_UNIT == 0 && LEAST_EXTENT <= e
}

/// The extent at the front of bytes that lie at a place, where they spell a head.
#[tactic(auto, unfolding(crate::specs::Text::head_at))]
pub fn read_head(bytes: &[u8], place: u64) -> Option<u64>
    ensures value { result ≡ head_at bytes.now place }
    ensures exact { Reads FitsExtent (λ e. head_text e place) (λ bytes. head_at bytes place) }
{
    if bytes.len() < HEAD_SIZE {
        return None;
    }
    let extent = u64_at(bytes, EXTENT_OFFSET);
    if !is_extent(extent) {
        return None;
    }
    let text = write_head(extent, place);
    if &bytes[..HEAD_SIZE] == text.as_slice() {
        Some(extent)
    } else {
        None
    }
}

/// The part of a header that is written once. Kinds: 1 appending, 2 updating, 3 tree pages; the order is that of a tree's
/// keys, 0 for the other kinds; there are `2^p` buckets.
#[derive(Clone, Copy, Debug, PartialEq, Eq)]
pub struct StaticHead {
    pub kind: u8,
    pub version: u8,
    pub p: u8,
    pub order: u8,
    pub generation: u64,
}

/// The place where the records begin.
#[tactic(auto, using(crate::proofs::Shifts::shifted))]
pub fn base_of(p: u8) -> u64
    requires { p ≤ 24 }
    ensures { result ≡ base_of p }
{
    HEADS_PLACE + CELL_SIZE * (1 << p)
}

fn static_front(head: &StaticHead) -> [u8; 28]
    requires { head.now.p ≤ 24 }
    ensures { result ≡ static_front head.now }
{
    let g = head.generation.to_be_bytes();
    let b = base_of(head.p).to_be_bytes();
    [
        b'T',
        b'K',
        b'P',
        b'H',
        b'A',
        b'S',
        b'H',
        b'\n',
        head.kind,
        head.version,
        head.p,
        head.order,
        g[0],
        g[1],
        g[2],
        g[3],
        g[4],
        g[5],
        g[6],
        g[7],
        b[0],
        b[1],
        b[2],
        b[3],
        b[4],
        b[5],
        b[6],
        b[7],
    ]
}

/// The 32 bytes of a header.
#[tactic(auto, unfolding(crate::specs::Text::static_text))]
pub fn write_static(head: &StaticHead) -> [u8; 32]
    requires { head.now.p ≤ 24 }
    ensures { result ≡ static_text head.now }
{
    let front = static_front(head);
    let check = fnv32(&front).to_be_bytes();
    let mut out = [0; 32];
    out[..28].copy_from_slice(&front);
    out[28..].copy_from_slice(&check);
    out
}

/// The header that the first 32 bytes spell.
#[tactic(auto, unfolding(crate::specs::Text::static_at))]
pub fn read_static(bytes: &[u8]) -> Option<StaticHead>
    ensures value { result ≡ static_at bytes.now }
    ensures exact { Reads FitsStatic static_text static_at }
{
    if bytes.len() < STATIC_SIZE {
        return None;
    }
    let head = StaticHead {
        kind: bytes[8],
        version: bytes[9],
        p: bytes[10],
        order: bytes[11],
        generation: u64_at(bytes, 12),
    };
    if !is_valid(&head) {
        return None;
    }
    let text = write_static(&head);
    if &bytes[..STATIC_SIZE] == text.as_slice() {
        Some(head)
    } else {
        None
    }
}

fn is_valid(head: &StaticHead) -> bool
    ensures { result ≡ is_static head.now }
{
    let order_fits = if head.kind == 3 {
        1 <= head.order && head.order <= 4
    } else {
        head.order == 0
    };
    1 <= head.kind && head.kind <= 3 && head.version == 1 && head.p <= 24 && order_fits
}
