//! A record with its links at the front of bytes.
ghost use Rattle.std.specs.Prelude.{◌≡◌, ◌+◌, ◌*◌, ◌<◌, ◌≤◌, ◌++◌, ℕ, List, length, IfSome, IfNone};
ghost use Rattle.tk_model.specs.RecordText.{BeginsWith, pair_here};
ghost use Rattle.tk_skipfile.specs.Opening.{Linked};
ghost use Rattle.tk_skipfile.specs.Walking.{BeginsLinked, linked_of};

use crate::record::check;
use tk_model::{RecordHere, record_here};

/// The longest value.
const LONGEST_VALUE: usize = 33_554_431;

/// A record with its links, and the bytes behind it.
#[derive(Clone, Copy)]
pub(crate) struct LinkedHere<'a> {
    pub height: u8,
    pub links: &'a [u8],
    pub key: &'a [u8],
    pub value: &'a [u8],
    pub rest: &'a [u8],
}

/// The record at the front of bytes at a place, with so many links, where it has its check.
pub(crate) fn linked_here(bytes: &[u8], height: u8, place: u64) -> Option<LinkedHere<'_>>
    ensures found { IfSome result (λ r. BeginsLinked height place bytes.now (linked_of r)
        r.rest.now) }
    ensures height { IfSome result (λ r. r.height ≡ height) }
    ensures long { IfSome result (λ r. length r.links.now ≡ 8 * height) }
    ensures none { IfNone result ((x : Linked) (rest : List ℕ)
        → BeginsLinked height place bytes.now x rest → ⊥) }
{
    let size = 8 * usize::from(height);
    if bytes.len() < size {
        return None;
    }
    let Some(RecordHere { key, value, rest }) = record_here(&bytes[size..]) else {
        return None;
    };
    if value.len() > LONGEST_VALUE || rest.len() < 4 {
        return None;
    }
    let text = &bytes[..bytes.len() - rest.len()];
    let check = check(text, place).to_be_bytes();
    if &rest[..4] != check.as_slice() {
        return None;
    }
    Some(LinkedHere {
        height,
        links: &bytes[..size],
        key,
        value,
        rest: &rest[4..],
    })
}
