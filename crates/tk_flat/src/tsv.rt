ghost use Rattle.std.specs.Prelude.{◌≡◌, ◌≢◌, ◌<◌, ◌⊎◌, ◌++◌, ◌∷◌, [], ℕ, List, length, map, Ok, Err, IfErr, IfOk, OnOk, OnErr, Some};
ghost use Rattle.tk_model.specs.declared.record.Pair.{Pair};
ghost use Rattle.tk_model.specs.RecordText.{Extends, pair_with};
ghost use Rattle.tk_flat.specs.Errors.{Answers, Names};
ghost use Rattle.tk_flat.specs.Tsv.{IsFirstBadLine, IsReadBack, IsTsv, first_past_limits, is_past_limits, line_text, lines_of, pair_from, pair_in, tsv_text};

use crate::TextError;
use crate::field::{escape, unescape};
use crate::search::cut;
use std::alloc::Global;
use tk_model::{Bytes, NoMemory, Pair, PairList};

const MAX_KEY: usize = 65_535;

const MAX_VALUE: usize = 16_777_215;

/// The first line, without its LF, and the bytes behind it. The last LF may be missing.
#[tactic(auto, using(crate::proofs::Lines::line_at, crate::proofs::Lines::line_last))]
pub fn next_line(bytes: &[u8]) -> (&[u8], &[u8])
    requires { 0 < length bytes.now }
    ensures line { lines_of bytes.now ≡ result.0.now ∷ lines_of result.1.now }
    ensures parts { (bytes.now ≡ result.0.now ++ 10 ∷ result.1.now) ⊎ ((bytes.now ≡ result.0.now)
        × (result.1.now ≡ [])) }
    ensures shorter { length result.1.now < length bytes.now }
{
    match cut(b'\n', bytes) {
        Some((line, behind)) => (line, behind),
        None => (bytes, &[]),
    }
}

fn pair_from(key: Option<Bytes>, value: Option<Bytes>) -> Option<Pair>
    ensures { result ≡ pair_from key value }
{
    let key = key?;
    let value = value?;
    Some(Pair { key, value })
}

#[tactic(auto, using(crate::proofs::Lines::fields_read))]
fn read_line(alloc: Global, line: &[u8]) -> Result<Option<Pair>, NoMemory>
    ensures { IfOk result (λ pair. pair ≡ pair_in line.now) }
{
    let Some((key, value)) = cut(b'\t', line) else {
        return Ok(None);
    };
    let None = cut(b'\t', value) else {
        return Ok(None);
    };
    let key = unescape(alloc, key)?;
    let value = unescape(alloc, value)?;
    Ok(pair_from(key, value))
}

fn read_lines(alloc: Global, bytes: &[u8]) -> Result<PairList, TextError>
    ensures read { IfOk result (λ pairs. IsTsv bytes.now pairs) }
    ensures line { IfErr result (Names (IsFirstBadLine bytes.now)) }
{
    let mut pairs = PairList::new(alloc);
    let mut rest = bytes;
    while !rest.is_empty() {
        let (line, behind) = next_line(rest);
        let Some(pair) = read_line(alloc, line)? else {
            return Err(TextError::At(pairs.len() as u64 + 1));
        };
        pairs.push(pair)?;
        rest = behind;
    }
    Ok(pairs)
}

/// The records of a text of lines.
#[tactic(auto, using(crate::proofs::TsvJudged::tsv_accepted, crate::proofs::TsvJudged::tsv_refused))]
pub fn read_tsv(alloc: Global, bytes: &[u8]) -> Result<PairList, TextError>
    ensures read { IfOk result (λ pairs. IsTsv bytes.now pairs) }
    ensures line { IfErr result (Names (IsFirstBadLine bytes.now)) }
    ensures accepted { (pairs : List Pair) → IsTsv bytes.now pairs → Answers (Ok pairs) result }
    ensures refused { (line : ℕ) → IsFirstBadLine bytes.now line → Answers (Err (TextError.At line))
        result }
{
    read_lines(alloc, bytes)
}

fn is_past_limits(pair: &Pair) -> bool
    ensures { result ≡ is_past_limits pair.now }
{
    pair.key.len() > MAX_KEY || pair.value.len() > MAX_VALUE
}

/// The first line whose record has a longer key or value than a call stores, where the lines are these records.
#[tactic(auto, using(crate::proofs::PastLimits::search_steps))]
pub fn first_line_past_limits(pairs: &PairList) -> Option<u64>
    ensures { result ≡ first_past_limits pairs.now }
{
    for (at, pair) in pairs.as_slice().iter().enumerate() {
        if is_past_limits(pair) {
            return Some(at as u64 + 1);
        }
    }
    None
}

/// Puts a record at the end as a line.
#[tactic(auto, using(crate::proofs::Lists::Extends_then, crate::proofs::Lists::Extends_by, crate::proofs::Lists::Extends_same))]
pub fn write_line(key: &[u8], value: &[u8], out: &mut Bytes) -> Result<(), NoMemory>
    ensures ok { OnOk result (out.new ≡ out.old ++ line_text (pair_with key.now value.now)) }
    ensures err { OnErr result (Extends out.old out.new) }
    ensures back { OnOk result (IsReadBack (pair_with key.now value.now)) }
{
    escape(key, out)?;
    out.push(b'\t')?;
    escape(value, out)?;
    out.push(b'\n')?;
    Ok(())
}

/// Puts records at the end, a line for each.
#[tactic(auto, using(crate::proofs::Lists::Extends_then, crate::proofs::Lists::Extends_by))]
pub fn write_tsv(pairs: &PairList, out: &mut Bytes) -> Result<(), NoMemory>
    ensures ok { OnOk result (out.new ≡ out.old ++ tsv_text pairs.now) }
    ensures err { OnErr result (Extends out.old out.new) }
    ensures back { OnOk result (IsTsv (tsv_text pairs.now) pairs.now) }
{
    for pair in pairs.as_slice() {
        write_line(pair.key.as_slice(), pair.value.as_slice(), out)?;
    }
    Ok(())
}
