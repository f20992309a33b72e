ghost use Rattle.std.specs.Prelude.{◌≡◌, ◌+◌, ◌≤◌, ◌<◌, ◌++◌, ◌^◌, ◌==◌, List, [], length, drop, replicate, true, IfSome, IfOk, OnOk, Some, Err};
ghost use Rattle.std.specs.Option.{is_some};
ghost use Rattle.tk_disk.specs.Crash.{Only, LeavesOnly, PastOnly};
ghost use Rattle.tk_disk.specs.Past.{settled_on};
ghost use Rattle.tk_disk.specs.Disk.{HasFaultCause};
ghost use Rattle.tk_block.specs.Text.{is_static, base_of};
ghost use Rattle.tk_block.specs.Layout.{laid, end_of, heads_text, texts, links_of};
ghost use Rattle.tk_append.specs.Untorn.{NoNewHeader, WritesNoHeader};
ghost use Rattle.tk_append.specs.Fresh.{AllPairsSmall, IsFreshMoment, fresh_bodies, fresh_groups, fresh_next, fresh_text, fresh_size};
ghost use Rattle.tk_model.specs.declared.record.Pair.{Pair};

use crate::blocks::{put_records, put_words};
use crate::chains::chains_of;
use crate::pieces::{PIECE, flush};
use std::alloc::Global;
use tk_block::{CLOSING_PLACE, Closing, HEADS_PLACE, StaticHead, write_closing, write_static};
use tk_disk::{Disk, DiskError};
use tk_model::{Bytes, Pair, PairList};

/// Writes heads and blocks behind 64 zero bytes, and answers where they end.
fn write_records<D: Disk>(
    alloc: Global,
    disk: &mut D,
    p: u8,
    number: u64,
    each: bool,
    pairs: &[Pair],
) -> Result<u64, DiskError>
    requires p { p ≤ 24 }
    requires small { AllPairsSmall pairs.now }
    requires end { end_of (base_of p) (fresh_bodies number each pairs.now) ≤ 2 ^ 40 }
    requires empty { IfSome (D.image disk.old) (λ f. f ≡ []) }
    ensures written { OnOk result (IfSome (D.image disk.old) (λ _. D.image disk.new
        ≡ Some (replicate 64 0 ++ (heads_text p (laid (base_of p) (fresh_bodies number each pairs.now)) ++ texts (laid (base_of p) (fresh_bodies number each pairs.now)) (links_of p [] (laid (base_of p) (fresh_bodies number each pairs.now))))))) }
    ensures end { IfOk result (λ n. n ≡ end_of (base_of p) (fresh_bodies number each pairs.now)) }
    ensures told { is_some (D.image disk.new) ≡ is_some (D.image disk.old) }
    ensures cause { HasFaultCause (D.fault_count disk.old) (D.fault_count disk.new) result }
    ensures no_header { WritesNoHeader D.past D.moment D.left_with disk.old disk.new }
{
    let chains = chains_of(alloc, p, pairs)?;
    let mut waiting = Bytes::with_capacity(alloc, PIECE)?;
    disk.write_at(0, &[0; 64])?;
    let mut at = HEADS_PLACE;
    put_words(disk, &mut at, &mut waiting, &chains.heads)?;
    put_records(
        disk,
        &mut at,
        &mut waiting,
        number,
        each,
        pairs,
        &chains.links,
    )?;
    flush(disk, &mut at, &mut waiting)?;
    Ok(at)
}

/// The next number behind so many fresh records.
fn next_of(number: u64, count: u64) -> u64
    requires { number + 1 < 2 ^ 64 }
    ensures { (pairs : List Pair) → count ≡ length pairs → result ≡ fresh_next number pairs }
{
    if count == 0 { 0 } else { number + 1 }
}

/// Writes all but the static header, in whose place zero bytes stand, and makes it durable.
fn write_rest<D: Disk>(
    alloc: Global,
    disk: &mut D,
    head: &StaticHead,
    number: u64,
    pairs: &PairList,
) -> Result<(), DiskError>
    requires head { is_static head.now ≡ true }
    requires small { AllPairsSmall pairs.now }
    requires number { number + 1 < 2 ^ 64 }
    requires end { fresh_size head.now number pairs.now ≤ 2 ^ 40 }
    requires empty { IfSome (D.image disk.old) (λ f. f ≡ []) }
    ensures written { OnOk result (IfSome (D.image disk.old) (λ _.
        D.image disk.new ≡ Some (replicate 32 0 ++ drop 32 (fresh_text head.now number pairs.now)))) }
    ensures durable { OnOk result (IfSome (D.image disk.new) (λ f. Only f (D.may_leave disk.new))) }
    ensures settled { OnOk result (IfSome (D.image disk.new) (λ f. D.past disk.new ≡ settled_on f)) }
    ensures told { is_some (D.image disk.new) ≡ is_some (D.image disk.old) }
    ensures cause { HasFaultCause (D.fault_count disk.old) (D.fault_count disk.new) result }
    ensures no_header { IfSome (D.image disk.old) (λ _.
        WritesNoHeader D.past D.moment D.left_with disk.old disk.new) }
{
    let each = head.kind == 2;
    let size = write_records(alloc, disk, head.p, number, each, pairs.as_slice())?;
    let count = pairs.len() as u64;
    let next = next_of(number, count);
    let closing = Closing { size, count, next };
    disk.write_at(CLOSING_PLACE, &write_closing(&closing))?;
    disk.sync(true)?;
    Ok(())
}

/// Writes the whole file of a header and records to an empty disk. The records are set under this number, in their
/// order. All but the static header is durable before that is written, and it before the call returns.
pub fn write_fresh<D: Disk>(
    alloc: Global,
    disk: &mut D,
    head: &StaticHead,
    number: u64,
    pairs: &PairList,
) -> Result<(), DiskError>
    requires head { is_static head.now ≡ true }
    requires small { AllPairsSmall pairs.now }
    requires number { number + 1 < 2 ^ 64 }
    requires end { fresh_size head.now number pairs.now ≤ 2 ^ 40 }
    requires empty { IfSome (D.image disk.old) (λ f. f ≡ []) }
    ensures written { OnOk result (IfSome (D.image disk.old) (λ _.
        D.image disk.new ≡ Some (fresh_text head.now number pairs.now))) }
    ensures durable { OnOk result (IfSome (D.image disk.new) (λ f. Only f (D.may_leave disk.new))) }
    ensures settled { OnOk result (IfSome (D.image disk.new) (λ f. D.past disk.new ≡ settled_on f)) }
    // after want of memory no header is known that wasn't before
    ensures no_memory { result ≡ Err DiskError.NoMemory → IfSome (D.image disk.old) (λ _.
        NoNewHeader (D.past disk.old) (D.past disk.new)) }
    ensures told { is_some (D.image disk.new) ≡ is_some (D.image disk.old) }
    ensures cause { HasFaultCause (D.fault_count disk.old) (D.fault_count disk.new) result }
    ensures pasts { IfSome (D.image disk.old) (λ _. LeavesOnly D.moment D.left_with disk.old
        disk.new
        (IsFreshMoment head.now (fresh_groups head.now.kind number pairs.now)
        (fresh_text head.now number pairs.now) (D.past disk.old))) }
{
    write_rest(alloc, disk, head, number, pairs)?;
    disk.write_at(0, &write_static(head))?;
    disk.sync(true)
}

/// Writes the whole file of a header and records to an empty disk, as `write_fresh` does. Where memory ran out, the disk
/// is empty again.
pub fn write_or_empty<D: Disk>(
    alloc: Global,
    disk: &mut D,
    head: &StaticHead,
    number: u64,
    pairs: &PairList,
) -> Result<(), DiskError>
    requires head { is_static head.now ≡ true }
    requires small { AllPairsSmall pairs.now }
    requires number { number + 1 < 2 ^ 64 }
    requires end { fresh_size head.now number pairs.now ≤ 2 ^ 40 }
    requires empty { IfSome (D.image disk.old) (λ f. f ≡ []) }
    ensures written { OnOk result (IfSome (D.image disk.old) (λ _.
        D.image disk.new ≡ Some (fresh_text head.now number pairs.now))) }
    ensures durable { OnOk result (IfSome (D.image disk.new) (λ f. Only f (D.may_leave disk.new))) }
    ensures settled { OnOk result (IfSome (D.image disk.new) (λ f. D.past disk.new ≡ settled_on f)) }
    ensures no_memory { result ≡ Err DiskError.NoMemory → D.image disk.new ≡ D.image disk.old }
    ensures told { is_some (D.image disk.new) ≡ is_some (D.image disk.old) }
    ensures cause { HasFaultCause (D.fault_count disk.old) (D.fault_count disk.new) result }
    ensures pasts { IfSome (D.image disk.old) (λ _. LeavesOnly D.moment D.left_with disk.old
        disk.new
        (IsFreshMoment head.now (fresh_groups head.now.kind number pairs.now)
        (fresh_text head.now number pairs.now) (D.past disk.old))) }
{
    match write_fresh(alloc, disk, head, number, pairs) {
        Ok(()) => Ok(()),
        Err(DiskError::Fault) => Err(DiskError::Fault),
        Err(DiskError::NoMemory) => {
            disk.cut(0)?;
            Err(DiskError::NoMemory)
        }
    }
}
