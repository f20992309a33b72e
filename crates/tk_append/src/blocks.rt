ghost use Rattle.std.specs.Prelude.{◌≡◌, ◌+◌, ◌*◌, ◌<◌, ◌≤◌, ◌++◌, ◌^◌, ◌==◌, ◌||◌, List, ℕ, [], length, IfSome, OnOk};
ghost use Rattle.std.specs.Option.{is_some};
ghost use Rattle.tk_disk.specs.Disk.{HasFaultCause};
ghost use Rattle.tk_model.specs.declared.record.Change.TheVariants as Change;
ghost use Rattle.tk_block.specs.Blocks.{IsSmall, body_of, block_text, extent_of};
ghost use Rattle.tk_block.specs.Layout.{laid, end_of, texts};
ghost use Rattle.tk_append.specs.Untorn.{WritesNoHeader};
ghost use Rattle.tk_append.specs.Pieces.{Holds, words_text};
ghost use Rattle.tk_append.specs.Fresh.{AllPairsSmall, fresh_bodies};

use crate::pieces::flush_piece;
use tk_block::{Block, write_block};
use tk_disk::{Disk, DiskError};
use tk_model::{Bytes, Pair};

/// Writes numbers behind what waits.
pub(crate) fn put_words<D: Disk>(
    disk: &mut D,
    at: &mut u64,
    waiting: &mut Bytes,
    words: &[u64],
) -> Result<(), DiskError>
    requires behind { 0 < at.old }
    requires here { IfSome (D.image disk.old) (λ f. length f ≡ at.old) }
    requires end { at.old + length waiting.old + 8 * length words.now ≤ 2 ^ 40 }
    ensures text { (text : List ℕ) → Holds (D.image disk.old) at.old waiting.old text
        → OnOk result (Holds (D.image disk.new) at.new waiting.new (text ++ words_text words.now)) }
    ensures here { OnOk result (IfSome (D.image disk.new) (λ f. length f ≡ at.new)) }
    ensures end { OnOk result (at.new + length waiting.new ≡ at.old + length waiting.old + 8
        * length words.now) }
    ensures front { OnOk result (at.old ≤ at.new) }
    ensures told { is_some (D.image disk.new) ≡ is_some (D.image disk.old) }
    ensures cause { HasFaultCause (D.fault_count disk.old) (D.fault_count disk.new) result }
    ensures no_header { WritesNoHeader D.past D.moment D.left_with disk.old disk.new }
{
    for word in words {
        waiting.extend(&word.to_be_bytes())?;
        flush_piece(disk, at, waiting)?;
    }
    Ok(())
}

/// Writes the block that sets one record behind what waits.
fn put_record<D: Disk>(
    disk: &mut D,
    at: &mut u64,
    waiting: &mut Bytes,
    number: u64,
    pair: &Pair,
    last: bool,
    link: u64,
) -> Result<(), DiskError>
    requires behind { 0 < at.old }
    requires here { IfSome (D.image disk.old) (λ f. length f ≡ at.old) }
    requires small { IsSmall pair.now.key pair.now.value }
    requires end { at.old + length waiting.old + extent_of (body_of number (Change.Put pair.now)
        last) ≤ 2 ^ 40 }
    ensures text { (text : List ℕ) → Holds (D.image disk.old) at.old waiting.old text
        → OnOk result (Holds (D.image disk.new) at.new waiting.new
        (text ++ block_text (body_of number (Change.Put pair.now) last)
        (at.old + length waiting.old) link)) }
    ensures here { OnOk result (IfSome (D.image disk.new) (λ f. length f ≡ at.new)) }
    ensures end { OnOk result (at.new + length waiting.new ≡ at.old + length waiting.old + extent_of
        (body_of number (Change.Put pair.now) last)) }
    ensures front { OnOk result (at.old ≤ at.new) }
    ensures told { is_some (D.image disk.new) ≡ is_some (D.image disk.old) }
    ensures cause { HasFaultCause (D.fault_count disk.old) (D.fault_count disk.new) result }
    ensures no_header { WritesNoHeader D.past D.moment D.left_with disk.old disk.new }
{
    let place = *at + waiting.len() as u64;
    let block = Block {
        kind: 1,
        last,
        number,
        key: pair.key.as_slice(),
        value: pair.value.as_slice(),
    };
    write_block(block, place, link, waiting)?;
    flush_piece(disk, at, waiting)?;
    Ok(())
}

/// The flag of block `i` of so many.
fn is_flagged(each: bool, i: usize, count: usize) -> bool
    requires { i < count }
    ensures { result ≡ (each || (i + 1 == count)) }
{
    each || i + 1 == count
}

/// Writes the blocks of fresh records behind what waits, each with its link.
pub(crate) fn put_records<D: Disk>(
    disk: &mut D,
    at: &mut u64,
    waiting: &mut Bytes,
    number: u64,
    each: bool,
    pairs: &[Pair],
    links: &[u64],
) -> Result<(), DiskError>
    requires behind { 0 < at.old }
    requires here { IfSome (D.image disk.old) (λ f. length f ≡ at.old) }
    requires small { AllPairsSmall pairs.now }
    requires links { length links.now ≡ length pairs.now }
    requires end { end_of (at.old + length waiting.old) (fresh_bodies number each pairs.now)
        ≤ 2 ^ 40 }
    ensures text { (text : List ℕ) → Holds (D.image disk.old) at.old waiting.old text
        → OnOk result (Holds (D.image disk.new) at.new waiting.new
        (text ++ texts (laid (at.old + length waiting.old) (fresh_bodies number each pairs.now))
        links.now)) }
    ensures here { OnOk result (IfSome (D.image disk.new) (λ f. length f ≡ at.new)) }
    ensures end { OnOk result (at.new + length waiting.new ≡ end_of (at.old + length waiting.old)
        (fresh_bodies number each pairs.now)) }
    ensures front { OnOk result (at.old ≤ at.new) }
    ensures told { is_some (D.image disk.new) ≡ is_some (D.image disk.old) }
    ensures cause { HasFaultCause (D.fault_count disk.old) (D.fault_count disk.new) result }
    ensures no_header { WritesNoHeader D.past D.moment D.left_with disk.old disk.new }
{
    for (i, pair) in pairs.iter().enumerate() {
        let last = is_flagged(each, i, pairs.len());
        put_record(disk, at, waiting, number, pair, last, links[i])?;
    }
    Ok(())
}
