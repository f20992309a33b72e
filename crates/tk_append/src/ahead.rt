//! A look at the keys of the blocks that follow. What stands of several in memory is asked for together, so that one
//! answer isn't waited for before the next is asked.
ghost use Rattle.std.specs.Prelude.{◌≡◌, ◌^◌, ◌≤◌, List, Option, length, IfSome, OnOk};
ghost use Rattle.tk_model.specs.declared.record.Pair.{Pair};
ghost use Rattle.tk_append.specs.Keys.{HasKeys};

use std::collections::HashSet;
use tk_block::{EXTENT_OFFSET, KEY_LEN_OFFSET, KEY_OFFSET, u16_at, u64_at};
use tk_model::{NoMemory, bucket, mix};

/// So many blocks are looked at together.
pub(crate) const AHEAD: usize = 16;

/// The key and the extent that stand at the front of bytes, where both lie within them.
fn front_of(bytes: &[u8]) -> Option<(&[u8], usize)>
    ensures { IfSome result (λ front. front.1 ≤ length bytes.now) }
{
    if bytes.len() < KEY_OFFSET {
        return None;
    }
    let extent = u64_at(bytes, EXTENT_OFFSET);
    let end = KEY_OFFSET + u16_at(bytes, KEY_LEN_OFFSET) as usize;
    if extent > bytes.len() as u64 || end > bytes.len() {
        return None;
    }
    Some((&bytes[KEY_OFFSET..end], extent as usize))
}

/// The keys of the next blocks. Behind the last that lies whole in the bytes they are empty.
pub(crate) fn keys_ahead(bytes: &[u8]) -> [&[u8]; AHEAD] {
    let mut keys: [&[u8]; AHEAD] = [&[]; AHEAD];
    let mut left = bytes;
    for slot in 0..AHEAD {
        let Some((key, extent)) = front_of(left) else {
            break;
        };
        keys[slot] = key;
        left = &left[extent..];
    }
    keys
}

/// Some bucket of the keys has a block.
pub(crate) fn has_blocks(p: u8, heads: &[u64], keys: &[&[u8]]) -> bool
    requires p { p ≤ 24 }
    requires heads { length heads.now ≡ 2 ^ p }
{
    let mut found = 0;
    for key in keys {
        found |= heads[bucket(mix(key), p) as usize];
    }
    found != 0
}

/// How many of the keys aren't in the set.
pub(crate) fn count_new(set: &HashSet<Vec<u8>>, keys: &[&[u8]]) -> usize {
    keys.iter().filter(|key| !set.contains(**key)).count()
}

/// Takes room for so many keys more.
pub(crate) fn reserve_keys(set: &mut HashSet<Vec<u8>>, more: usize) -> Result<(), NoMemory>
    ensures { (pairs : List Pair) → HasKeys set.old pairs → HasKeys set.new pairs }
{
    set.reserve(more)?;
    Ok(())
}
