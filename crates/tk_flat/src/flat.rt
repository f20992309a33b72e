ghost use Rattle.std.specs.Prelude.{◌≡◌, ◌≢◌, ◌+◌, ◌<◌, ◌++◌, ℕ, List, All, true, false, Ok, Err, drop, length, IfErr, IfOk, IfNone, IfSome, OnOk, OnErr};
ghost use Rattle.tk_model.specs.declared.record.Pair.{Pair};
ghost use Rattle.tk_model.specs.RecordText.{BeginsWith, Extends, pair_here};
ghost use Rattle.tk_flat.specs.Errors.{Answers, Names};
ghost use Rattle.tk_flat.specs.Flat.{BeginsWithNone, IsFault, IsFlat, IsFlatText, flat_text, flat_word};

use crate::TextError;
use std::alloc::Global;
use tk_model::{Bytes, NoMemory, Pair, PairList, RecordHere, record_here, write_record};

const WORD: [u8; 8] = *b"TKPFLAT\n";

const MAX_VALUE: usize = 33_554_431;

/// The record at the front; none where none stands there that a flat text can hold.
pub fn flat_record(bytes: &[u8]) -> Option<RecordHere<'_>>
    ensures fits { IfSome result (λ r. IsFlat (pair_here r)) }
    ensures found { IfSome result (λ r. BeginsWith bytes.now (pair_here r) r.rest.now) }
    ensures none { IfNone result (BeginsWithNone bytes.now) }
{
    let here = record_here(bytes)?;
    if here.value.len() > MAX_VALUE {
        return None;
    }
    Some(here)
}

fn has_word(bytes: &[u8]) -> bool
    ensures yes { result ≡ true → bytes.now ≡ flat_word ++ drop 8 bytes.now }
    ensures no { result ≡ false → (rest : List ℕ) → bytes.now ≢ flat_word ++ rest }
{
    bytes.starts_with(&WORD)
}

fn read_records(alloc: Global, bytes: &[u8]) -> Result<PairList, TextError>
    ensures read { IfOk result (λ pairs. IsFlatText bytes.now pairs) }
    ensures place { IfErr result (Names (IsFault bytes.now)) }
{
    if !has_word(bytes) {
        return Err(TextError::At(0));
    }
    let mut pairs = PairList::new(alloc);
    let mut rest = &bytes[WORD.len()..];
    while !rest.is_empty() {
        let Some(here) = flat_record(rest) else {
            return Err(TextError::At((bytes.len() - rest.len()) as u64));
        };
        let key = Bytes::from_slice(alloc, here.key)?;
        let value = Bytes::from_slice(alloc, here.value)?;
        pairs.push(Pair { key, value })?;
        rest = here.rest;
    }
    Ok(pairs)
}

/// The records of a flat text.
#[tactic(auto, using(crate::proofs::Judged::flat_accepted, crate::proofs::Judged::flat_refused))]
pub fn read_flat(alloc: Global, bytes: &[u8]) -> Result<PairList, TextError>
    ensures read { IfOk result (λ pairs. IsFlatText bytes.now pairs) }
    ensures place { IfErr result (Names (IsFault bytes.now)) }
    ensures accepted { (pairs : List Pair) → IsFlatText bytes.now pairs
        → Answers (Ok pairs) result }
    ensures refused { (place : ℕ) → IsFault bytes.now place → Answers (Err (TextError.At place))
        result }
{
    read_records(alloc, bytes)
}

/// Puts the flat text of records at the end.
#[tactic(auto, using(crate::proofs::Lists::Extends_then, crate::proofs::Lists::Extends_by), unfolding(crate::specs::Flat::flat_text))]
pub fn write_flat(pairs: &PairList, out: &mut Bytes) -> Result<(), NoMemory>
    requires { All IsFlat pairs.now }
    ensures ok { OnOk result (out.new ≡ out.old ++ flat_text pairs.now) }
    ensures err { OnErr result (Extends out.old out.new) }
{
    out.extend(&WORD)?;
    for pair in pairs.as_slice() {
        write_record(pair.key.as_slice(), pair.value.as_slice(), out)?;
    }
    Ok(())
}
