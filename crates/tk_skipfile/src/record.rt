ghost use Rattle.std.specs.Prelude.{◌≡◌, ◌++◌, ◌+◌, ◌^◌, ◌<◌, ◌≤◌, OnOk, length, slice_index};
ghost use Rattle.tk_model.specs.RecordText.{FitsRecord};
ghost use Rattle.tk_block.specs.Text.{check_number};
ghost use Rattle.tk_append.specs.Pieces.{words_text};
ghost use Rattle.tk_skipfile.specs.SkipText.{links_of, linked_text};

use crate::levels::{height_of, step_of};
use tk_model::{Bytes, NoMemory, Pair, fnv32, fnv32_from, write_record};

/// The check of bytes at a place.
#[tactic(auto, using(tk_block::proofs::Checks::joined))]
pub(crate) fn check(bytes: &[u8], place: u64) -> u32
    ensures { result ≡ check_number bytes.now place }
{
    fnv32_from(fnv32(bytes), &place.to_be_bytes())
}

/// The place of record `i`, or 0 where there is none.
fn link_to(places: &[u64], i: u64) -> u64
    ensures { result ≡ slice_index places.now i }
{
    if i >= places.len() as u64 {
        return 0;
    }
    places[i as usize]
}

/// Puts the links of record `i` at the end.
fn put_links(levels: u8, places: &[u64], i: u64, out: &mut Bytes) -> Result<(), NoMemory>
    requires levels { levels ≤ 32 }
    requires i { i < 2 ^ 62 }
    ensures { OnOk result (out.new ≡ out.old ++ words_text (links_of levels places.now i)) }
{
    let height = height_of(levels, i);
    for level in 1..height + 1 {
        let link = link_to(places, i + step_of(level));
        out.extend(&link.to_be_bytes())?;
    }
    Ok(())
}

/// Puts the text of record `i` at the end, as it stands at a place.
#[tactic(auto, unfolding(tk_block::specs::Text::checked))]
pub(crate) fn put_linked(
    levels: u8,
    places: &[u64],
    i: u64,
    pair: &Pair,
    place: u64,
    out: &mut Bytes,
) -> Result<(), NoMemory>
    requires levels { levels ≤ 32 }
    requires i { i < 2 ^ 62 }
    requires fits { FitsRecord pair.now }
    ensures { OnOk result (out.new ≡ out.old ++ linked_text levels places.now i pair.now place) }
{
    let start = out.len();
    put_links(levels, places, i, out)?;
    write_record(pair.key.as_slice(), pair.value.as_slice(), out)?;
    let check = check(&out.as_slice()[start..], place);
    out.extend(&check.to_be_bytes())
}
