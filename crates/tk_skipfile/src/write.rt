ghost use Rattle.std.specs.Prelude.{◌≡◌, ◌+◌, ◌≤◌, ◌<◌, ◌++◌, ◌^◌, List, ℕ, [], length, replicate, IfSome, OnOk, Some};
ghost use Rattle.std.specs.Option.{is_some};
ghost use Rattle.tk_disk.specs.Crash.{Only, PastOnly};
ghost use Rattle.tk_disk.specs.Past.{settled_on};
ghost use Rattle.tk_disk.specs.Disk.{HasFaultCause};
ghost use Rattle.tk_model.specs.RecordText.{FitsRecord};
ghost use Rattle.tk_model.specs.Records.{AllHeld};
ghost use Rattle.tk_append.specs.Pieces.{Holds};
ghost use Rattle.tk_skipfile.specs.HeaderLast.{WritesNoWord, IsSkipMoment};
ghost use Rattle.tk_skipfile.specs.SkipText.{size_of, end_from, linked_text, texts_from, records_text, skip_text, skip_size};

use crate::header::write_header;
use crate::levels::levels_of;
use crate::pieces::{PIECE, flush, flush_piece};
use crate::places::{HEADER_SIZE, places_of};
use crate::record::put_linked;
use std::alloc::Global;
use tk_disk::{Disk, DiskError};
use tk_model::{Bytes, Pair, PairList};

/// Writes record `i` behind what waits.
fn put_record<D: Disk>(
    disk: &mut D,
    at: &mut u64,
    waiting: &mut Bytes,
    levels: u8,
    places: &[u64],
    i: u64,
    pair: &Pair,
) -> Result<(), DiskError>
    requires behind { 0 < at.old }
    requires here { IfSome (D.image disk.old) (λ f. length f ≡ at.old) }
    requires levels { levels ≤ 32 }
    requires i { i < 2 ^ 62 }
    requires fits { FitsRecord pair.now }
    requires end { at.old + length waiting.old + size_of levels i pair.now ≤ 2 ^ 40 }
    ensures text { (text : List ℕ) → Holds (D.image disk.old) at.old waiting.old text
        → OnOk result (Holds (D.image disk.new) at.new waiting.new
        (text ++ linked_text levels places.now i pair.now (at.old + length waiting.old))) }
    ensures here { OnOk result (IfSome (D.image disk.new) (λ f. length f ≡ at.new)) }
    ensures end { OnOk result (at.new + length waiting.new ≡ at.old + length waiting.old + size_of
        levels i pair.now) }
    ensures front { OnOk result (at.old ≤ at.new) }
    ensures told { is_some (D.image disk.new) ≡ is_some (D.image disk.old) }
    ensures cause { HasFaultCause (D.fault_count disk.old) (D.fault_count disk.new) result }
    ensures no_word { WritesNoWord D.past D.moment D.left_with disk.old disk.new }
{
    let place = *at + waiting.len() as u64;
    put_linked(levels, places, i, pair, place, waiting)?;
    flush_piece(disk, at, waiting)?;
    Ok(())
}

/// Writes records behind what waits, each with its links.
fn put_records<D: Disk>(
    disk: &mut D,
    at: &mut u64,
    waiting: &mut Bytes,
    levels: u8,
    places: &[u64],
    pairs: &[Pair],
) -> Result<(), DiskError>
    requires behind { 0 < at.old }
    requires here { IfSome (D.image disk.old) (λ f. length f ≡ at.old) }
    requires levels { levels ≤ 32 }
    requires held { AllHeld pairs.now }
    requires end { end_from levels 0 (at.old + length waiting.old) pairs.now ≤ 2 ^ 40 }
    ensures text { (text : List ℕ) → Holds (D.image disk.old) at.old waiting.old text
        → OnOk result (Holds (D.image disk.new) at.new waiting.new
        (text ++ texts_from levels places.now 0 (at.old + length waiting.old) pairs.now)) }
    ensures here { OnOk result (IfSome (D.image disk.new) (λ f. length f ≡ at.new)) }
    ensures end { OnOk result (at.new + length waiting.new ≡ end_from levels 0
        (at.old + length waiting.old) pairs.now) }
    ensures front { OnOk result (at.old ≤ at.new) }
    ensures told { is_some (D.image disk.new) ≡ is_some (D.image disk.old) }
    ensures cause { HasFaultCause (D.fault_count disk.old) (D.fault_count disk.new) result }
    ensures no_word { WritesNoWord D.past D.moment D.left_with disk.old disk.new }
{
    for (i, pair) in pairs.iter().enumerate() {
        put_record(disk, at, waiting, levels, places, i as u64, pair)?;
    }
    Ok(())
}

/// Writes the records behind 32 zero bytes.
fn write_records<D: Disk>(alloc: Global, disk: &mut D, pairs: &[Pair]) -> Result<(), DiskError>
    requires held { AllHeld pairs.now }
    requires end { skip_size pairs.now ≤ 2 ^ 40 }
    requires empty { IfSome (D.image disk.old) (λ f. f ≡ []) }
    ensures written { OnOk result (IfSome (D.image disk.old) (λ _.
        D.image disk.new ≡ Some (replicate 32 0 ++ records_text pairs.now))) }
    ensures told { is_some (D.image disk.new) ≡ is_some (D.image disk.old) }
    ensures cause { HasFaultCause (D.fault_count disk.old) (D.fault_count disk.new) result }
    ensures no_word { WritesNoWord D.past D.moment D.left_with disk.old disk.new }
{
    let levels = levels_of(pairs.len() as u64);
    let places = places_of(alloc, levels, pairs)?;
    let mut waiting = Bytes::with_capacity(alloc, PIECE)?;
    disk.write_at(0, &[0; 32])?;
    let mut at = HEADER_SIZE;
    put_records(disk, &mut at, &mut waiting, levels, &places, pairs)?;
    flush(disk, &mut at, &mut waiting)?;
    Ok(())
}

/// Writes all but the header, in whose place zero bytes stand, and makes it durable.
fn write_rest<D: Disk>(alloc: Global, disk: &mut D, pairs: &[Pair]) -> Result<(), DiskError>
    requires held { AllHeld pairs.now }
    requires end { skip_size pairs.now ≤ 2 ^ 40 }
    requires empty { IfSome (D.image disk.old) (λ f. f ≡ []) }
    ensures written { OnOk result (IfSome (D.image disk.old) (λ _.
        D.image disk.new ≡ Some (replicate 32 0 ++ records_text pairs.now))) }
    ensures durable { OnOk result (IfSome (D.image disk.new) (λ f. Only f (D.may_leave disk.new))) }
    ensures settled { OnOk result (IfSome (D.image disk.new) (λ f. D.past disk.new ≡ settled_on f)) }
    ensures told { is_some (D.image disk.new) ≡ is_some (D.image disk.old) }
    ensures cause { HasFaultCause (D.fault_count disk.old) (D.fault_count disk.new) result }
    ensures no_word { IfSome (D.image disk.old) (λ _.
        WritesNoWord D.past D.moment D.left_with disk.old disk.new) }
{
    write_records(alloc, disk, pairs)?;
    disk.sync(true)?;
    Ok(())
}

/// Writes the whole file of a generation and of records to an empty disk, the records in their order. All but the header
/// is durable before that is written, and it before the call returns. Nothing is asked of the order of keys.
pub fn write_skip<D: Disk>(
    alloc: Global,
    disk: &mut D,
    generation: u64,
    pairs: &PairList,
) -> Result<(), DiskError>
    requires held { AllHeld pairs.now }
    requires end { skip_size pairs.now ≤ 2 ^ 40 }
    requires empty { IfSome (D.image disk.old) (λ f. f ≡ []) }
    ensures written { OnOk result (IfSome (D.image disk.old) (λ _.
        D.image disk.new ≡ Some (skip_text generation pairs.now))) }
    ensures durable { OnOk result (IfSome (D.image disk.new) (λ f. Only f (D.may_leave disk.new))) }
    ensures settled { OnOk result (IfSome (D.image disk.new) (λ f. D.past disk.new ≡ settled_on f)) }
    ensures told { is_some (D.image disk.new) ≡ is_some (D.image disk.old) }
    ensures cause { HasFaultCause (D.fault_count disk.old) (D.fault_count disk.new) result }
    // at each moment all records are durable, or no new header is known
    ensures header_last { IfSome (D.image disk.old) (λ _. PastOnly D.moment D.left_with disk.old
        disk.new (IsSkipMoment pairs.now (D.past disk.old))) }
{
    write_rest(alloc, disk, pairs.as_slice())?;
    disk.write_at(0, &write_header(pairs.len() as u64, generation))?;
    disk.sync(true)
}
