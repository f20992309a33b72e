ghost use Rattle.std.specs.Prelude.{◌≡◌, ◌+◌, ◌≤◌, ◌<◌, ◌^◌, ◌++◌, IfOk, IfSome, length, take, drop, sum_by, Option, Some, None, true};
ghost use Rattle.tk_tree.specs.Formed.{pair_size, leaf_size};
ghost use Rattle.tk_tree.specs.Put.{is_long, half_from, half_of, least_key, split_leaf};
ghost use Rattle.tk_tree.specs.Parts.{Splits};

use std::alloc::Global;
use tk_model::{Bytes, ListOf, NoMemory, Pair, PairList};

/// The most bytes of a leaf of two records or more.
const MOST: u64 = 2048;

/// A part of a leaf that was split, with its least key.
#[derive(Debug, Drop)]
pub struct LeafPart {
    pub number: u64,
    pub key: Bytes,
    pub pairs: PairList,
}

pub type LeafPartList = ListOf<LeafPart>;

/// The bytes of a record's text.
fn pair_size(pair: &Pair) -> u64
    requires { pair_size pair.now ≤ 2 ^ 40 }
    ensures { result ≡ pair_size pair.now }
{
    6 + (pair.key.len() as u64 + pair.value.len() as u64)
}

/// The bytes of the text of a leaf.
fn leaf_size(pairs: &[Pair]) -> u64
    requires { leaf_size pairs.now ≤ 2 ^ 40 }
    ensures { result ≡ leaf_size pairs.now }
{
    let mut size = 5;
    for pair in pairs {
        size += pair_size(pair);
    }
    size
}

/// Two records or more, and more than 2,048 bytes.
fn is_long(pairs: &[Pair]) -> bool
    requires { leaf_size pairs.now ≤ 2 ^ 40 }
    ensures { result ≡ is_long pairs.now }
{
    match pairs {
        [] => false,
        [_] => false,
        [_, _, ..] => leaf_size(pairs) > MOST,
    }
}

/// The number of leading records whose own text has at least half of all bytes. One is left.
fn half_of(pairs: &[Pair]) -> usize
    requires { leaf_size pairs.now ≤ 2 ^ 40 }
    ensures { result ≡ half_of pairs.now }
{
    let all = leaf_size(pairs);
    let mut so_far = 5;
    for i in 0..pairs.len() {
        if i + 1 == pairs.len() {
            return i;
        }
        so_far += pair_size(&pairs[i]);
        if all <= 2 * so_far {
            return i + 1;
        }
    }
    pairs.len()
}

/// The first records, and the others.
fn cut(pairs: PairList, at: usize) -> Result<(PairList, PairList), NoMemory>
    requires { at ≤ length pairs }
    ensures { IfOk result (λ r. (r.0 ≡ take at pairs) × (r.1 ≡ drop at pairs)) }
{
    let mut front = pairs.into_vec();
    let back = front.split_off(at)?;
    Ok((ListOf::from_vec(front), ListOf::from_vec(back)))
}

/// Puts the parts of a leaf with these records behind those that are there, and tells the next page number after them; none where
/// it would pass 64 bits.
pub fn split_leaf(
    alloc: Global,
    number: u64,
    key: Bytes,
    pairs: PairList,
    next: u64,
    out: &mut LeafPartList,
) -> Result<Option<u64>, NoMemory>
    requires { leaf_size pairs ≤ 2 ^ 40 }
    ensures { IfOk result (Splits key (split_leaf (length pairs) number pairs next)
        out.old out.new) }
{
    if !is_long(pairs.as_slice()) {
        out.push(LeafPart { number, key, pairs })?;
        return Ok(Some(next));
    }
    if next == u64::MAX {
        return Ok(None);
    }
    let half = half_of(pairs.as_slice());
    let (front, back) = cut(pairs, half)?;
    let least = Bytes::from_slice(alloc, back.at(0).key.as_slice())?;
    match split_leaf(alloc, number, key, front, next + 1, out)? {
        Some(after) => split_leaf(alloc, next, least, back, after, out),
        None => Ok(None),
    }
}
