//! Changes in a table that can be undone.
ghost use Rattle.std.specs.Prelude.{◌≡◌, ◌+◌, ◌≤◌, ℕ, [], ◌∷◌, List, length, IfOk, OnOk, OnErr};
ghost use Rattle.std.specs.Option.{option_copied};
ghost use Rattle.tk_model.specs.Records.{find, after, after_one, HasNoClear};
ghost use Rattle.tk_model.specs.declared.record.Order.TheVariants.{Hash};
ghost use Rattle.tk_store.specs.Store.{AllFitWithin};
ghost use Rattle.tk_mem.specs.Undo.{key_of, undo_of, undone, size_of, text_size};

use tk_model::{Bytes, Change, NoMemory, Pair, copy_pair};
use tk_store::HashedRecords;

fn copied(bytes: &Bytes) -> Result<Bytes, NoMemory>
    ensures { IfOk result (λ copy. copy ≡ bytes.now) }
{
    Ok(bytes.clone()?)
}

fn key_of(change: &Change) -> &Bytes
    requires { HasNoClear (change.now ∷ []) }
    ensures { result.now ≡ key_of change.now }
{
    match change {
        Change::Put(new) => &new.key,
        Change::Drop(key) => key,
        Change::Clear => unreachable!(),
    }
}

/// What brings a key back to what it has.
fn undo_of(table: &HashedRecords, key: &Bytes) -> Result<Change, NoMemory>
    ensures { IfOk result (λ undo. undo ≡ undo_of key.now (find key.now table.now)) }
{
    let copy = copied(key)?;
    match table.get(key.as_slice()) {
        Some(value) => Ok(Change::Put(Pair {
            key: copy,
            value: copied(value)?,
        })),
        None => Ok(Change::Drop(copy)),
    }
}

/// Makes a change whose key and value are copied.
fn make(table: &mut HashedRecords, change: &Change) -> Result<(), NoMemory>
    ensures ok { OnOk result (table.new ≡ after_one Hash change.now table.old) }
    ensures err { OnErr result (table.new ≡ table.old) }
{
    match change {
        Change::Put(new) => table.put(copy_pair(new)?)?,
        Change::Drop(key) => table.remove(key.as_slice()),
        Change::Clear => table.clear(),
    }
    Ok(())
}

/// The bytes of the text of a key's record.
#[tactic(auto, using(crate::proofs::Sizes::size_within))]
fn size_at(table: &HashedRecords, key: &Bytes, size: u64) -> u64
    requires { size ≡ text_size table.now }
    ensures value { result ≡ size_of key.now (find key.now table.now) }
    ensures within { result + 8 ≤ size }
{
    match table.get(key.as_slice()) {
        Some(value) => 6 + (key.len() as u64 + value.len() as u64),
        None => 0,
    }
}

/// The length of the text after a change. What passes 64 bits is no text of records that are in memory.
#[tactic(auto, using(crate::proofs::Sizes::size_put, crate::proofs::Sizes::size_without))]
fn size_after(table: &HashedRecords, change: &Change, size: u64) -> Result<u64, NoMemory>
    requires size { size ≡ text_size table.now }
    requires fit { AllFitWithin 33554431 (change.now ∷ []) }
    ensures { IfOk result (λ n. n ≡ text_size (after_one Hash change.now table.now)) }
{
    table.in_hash_order();
    match change {
        Change::Put(new) => {
            let rest = size - size_at(table, &new.key, size);
            let more = 6 + (new.key.len() as u64 + new.value.len() as u64);
            rest.checked_add(more).ok_or(NoMemory)
        }
        Change::Drop(key) => Ok(size - size_at(table, key, size)),
        Change::Clear => Ok(8),
    }
}

/// Makes a change, and keeps what undoes it.
fn make_kept(
    table: &mut HashedRecords,
    undo: &mut Vec<Change>,
    change: &Change,
) -> Result<(), NoMemory>
    requires { HasNoClear (change.now ∷ []) }
    ensures back { undone undo.new.items table.new ≡ undone undo.old.items table.old }
    ensures ok { OnOk result (table.new ≡ after_one Hash change.now table.old) }
{
    table.in_hash_order();
    let back = undo_of(table, key_of(change))?;
    undo.push(back)?;
    make(table, change)?;
    Ok(())
}

/// Makes changes, and keeps what undoes them. The answer is the length of the text after them.
pub(crate) fn make_all(
    table: &mut HashedRecords,
    undo: &mut Vec<Change>,
    changes: &[Change],
    size: u64,
) -> Result<u64, NoMemory>
    requires size { size ≡ text_size table.old }
    requires fit { AllFitWithin 33554431 changes.now }
    requires no_clear { HasNoClear changes.now }
    ensures back { undone undo.new.items table.new ≡ undone undo.old.items table.old }
    ensures ok { OnOk result (table.new ≡ after Hash changes.now table.old) }
    ensures size { IfOk result (λ n. n ≡ text_size table.new) }
{
    let mut size = size;
    let mut rest = changes;
    while let Some((change, behind)) = rest.split_first() {
        size = size_after(table, change, size)?;
        make_kept(table, undo, change)?;
        rest = behind;
    }
    Ok(size)
}

/// Undoes changes, the last one first.
pub(crate) fn take_back(table: &mut HashedRecords, undo: &mut Vec<Change>) -> Result<(), NoMemory>
    ensures back { undone undo.new.items table.new ≡ undone undo.old.items table.old }
    ensures ok { OnOk result (undo.new.items ≡ []) }
{
    for left in (0..undo.len()).rev() {
        make(table, &undo[left])?;
        undo.truncate(left);
    }
    Ok(())
}
