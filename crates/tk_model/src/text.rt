//! The text of a record: the lengths of key and value, the key, and the value.
ghost use Rattle.std.specs.Prelude.{◌≡◌, ◌++◌, ℕ, List, Some, drop, option_map, IfSome, OnOk, OnErr};
ghost use Rattle.tk_model.specs.declared.record.Pair.{Pair};
ghost use Rattle.tk_model.specs.RecordText.{pair_with, FitsRecord, lengths_text, record_text, record_size, record_at, BeginsWith, pair_here, Extends};

use crate::{Bytes, NoMemory};

/// A record at the front of a text, and the bytes behind it.
#[derive(Clone, Copy, Debug)]
pub struct RecordHere<'a> {
    pub key: &'a [u8],
    pub value: &'a [u8],
    pub rest: &'a [u8],
}

/// The record at the front, by the lengths that stand there.
#[tactic(auto, unfolding(crate::specs::RecordText::record_at))]
fn front_record(bytes: &[u8]) -> Option<RecordHere<'_>>
    ensures value { option_map pair_here result ≡ record_at bytes.now }
    ensures rest { IfSome result (λ r. r.rest.now ≡ drop (record_size (pair_here r)) bytes.now) }
{
    if bytes.len() < 6 {
        return None;
    }
    let key = usize::from(u16::from_be_bytes([bytes[0], bytes[1]]));
    let value = u32::from_be_bytes([bytes[2], bytes[3], bytes[4], bytes[5]]) as usize;
    if bytes.len() < 6 + (key + value) {
        return None;
    }
    Some(RecordHere {
        key: &bytes[6..6 + key],
        value: &bytes[6 + key..6 + (key + value)],
        rest: &bytes[6 + (key + value)..],
    })
}

/// The record at the front; none where no record's text stands there.
pub fn record_here(bytes: &[u8]) -> Option<RecordHere<'_>>
    ensures value { option_map pair_here result ≡ record_at bytes.now }
    ensures found { IfSome result (λ r. BeginsWith bytes.now (pair_here r) r.rest.now) }
    ensures again { (p : Pair) (rest : List ℕ) → BeginsWith bytes.now p rest
        → option_map pair_here result ≡ Some p }
{
    front_record(bytes)
}

#[tactic(auto, unfolding(crate::specs::RecordText::lengths_text))]
fn lengths_text(key: &[u8], value: &[u8]) -> [u8; 6]
    requires { FitsRecord (pair_with key.now value.now) }
    ensures { result ≡ lengths_text (pair_with key.now value.now) }
{
    let k = (key.len() as u16).to_be_bytes();
    let v = (value.len() as u32).to_be_bytes();
    [k[0], k[1], v[0], v[1], v[2], v[3]]
}

/// Puts the text of a record at the end.
#[tactic(auto, using(crate::proofs::RecordTexts::Extends_same, crate::proofs::RecordTexts::Extends_by), unfolding(crate::specs::RecordText::record_text))]
pub fn write_record(key: &[u8], value: &[u8], out: &mut Bytes) -> Result<(), NoMemory>
    requires { FitsRecord (pair_with key.now value.now) }
    ensures ok { OnOk result (out.new ≡ out.old ++ record_text (pair_with key.now value.now)) }
    ensures err { OnErr result (Extends out.old out.new) }
{
    out.extend(&lengths_text(key, value))?;
    out.extend(key)?;
    out.extend(value)
}
