//! Calls as rows, made and compared.
ghost use Rattle.std.specs.Prelude.{◌≡◌, ◌≤◌, ◌↔◌, ◌∷◌, [], List, true, length, IfOk, IsTrue};
ghost use Rattle.std.specs.Option.{option_copied};
ghost use Rattle.tk_model.specs.declared.record.Pair.{Pair};
ghost use Rattle.tk_dbm.specs.Dbm.{IsIdleOf};

use std::alloc::Global;
use std::sync::Wait;
use tk_dbm::{Answer, Dbm, Pass};
use tk_derived::{ValueList, append, compare_exchange, get, increment, remove, set};
use tk_model::{Bytes, NoMemory};
use tk_proc::{At, Desired, Expected, Gate};
use tk_status::Status;
use tk_store::SeqStore;

/// A call at the key of these tests, and what it tells; without that the out parameter stays.
#[derive(Drop)]
pub enum Call<'a> {
    Get(Option<&'a [u8]>),
    Set(&'a [u8], bool),
    Remove,
    Append(&'a [u8], &'a [u8]),
    Exchange(&'a Expected, &'a Desired, Option<Option<&'a [u8]>>),
    Increment(i64, i64, Option<i64>),
}

/// A call, with the status that it is to have.
#[derive(Drop)]
pub struct Row<'a> {
    pub call: Call<'a>,
    pub status: Status,
}

const KEY: &[u8] = b"k";

/// What stands in an out parameter before a call.
const BEFORE: &[u8] = b"before";

/// `get`, and whether it tells this.
fn gets<S: SeqStore, R: Wait, G: Gate>(
    rt: &R,
    alloc: Global,
    db: &Dbm<S>,
    pass: &mut Pass,
    told: Option<&[u8]>,
    at: &At<G>,
) -> Result<(Answer, bool), NoMemory>
    requires own { IsIdleOf S.lawful S.stands S.store_view S.constants db.now pass.old }
    requires law { (m : List Pair) → S.lawful m ≡ true }
    ensures { IsIdleOf S.lawful S.stands S.store_view S.constants db.now pass.new }
{
    let mut out = Bytes::from_slice(alloc, BEFORE)?;
    let answer = get(alloc, rt, db, pass, KEY, &mut out, at);
    Ok((answer, out.as_slice() == told.unwrap_or(BEFORE)))
}

/// Whether the value is these bytes, or neither is there.
fn is_value(value: &Option<Bytes>, item: Option<&[u8]>) -> bool
    ensures { IsTrue result ↔ (value.now ≡ option_copied item.entry) }
{
    match (value, item) {
        (Some(value), Some(bytes)) => value.as_slice() == bytes,
        (None, None) => true,
        _ => false,
    }
}

/// Whether the list has this one item.
pub fn lists(list: &ValueList, item: Option<&[u8]>) -> bool
    ensures { IsTrue result ↔ (list.now ≡ option_copied item.entry ∷ []) }
{
    match list.as_slice() {
        [value] => is_value(value, item),
        _ => false,
    }
}

/// `compare_exchange`, and whether it tells this.
fn exchanges<S: SeqStore, R: Wait, G: Gate>(
    rt: &R,
    alloc: Global,
    db: &Dbm<S>,
    pass: &mut Pass,
    expected: &Expected,
    desired: &Desired,
    told: Option<Option<&[u8]>>,
    at: &At<G>,
) -> Result<(Answer, bool), NoMemory>
    requires own { IsIdleOf S.lawful S.stands S.store_view S.constants db.now pass.old }
    requires law { (m : List Pair) → S.lawful m ≡ true }
    ensures { IsIdleOf S.lawful S.stands S.store_view S.constants db.now pass.new }
{
    let mut actual = ValueList::new(alloc);
    actual.push(Some(Bytes::from_slice(alloc, BEFORE)?))?;
    let answer = compare_exchange(alloc, rt, db, pass, KEY, expected, desired, &mut actual, at);
    Ok((answer, lists(&actual, told.unwrap_or(Some(BEFORE)))))
}

/// `increment`, and whether it tells this.
fn increments<S: SeqStore, R: Wait, G: Gate>(
    rt: &R,
    alloc: Global,
    db: &Dbm<S>,
    pass: &mut Pass,
    n: i64,
    initial: i64,
    told: Option<i64>,
    at: &At<G>,
) -> (Answer, bool)
    requires own { IsIdleOf S.lawful S.stands S.store_view S.constants db.now pass.old }
    requires law { (m : List Pair) → S.lawful m ≡ true }
    ensures { IsIdleOf S.lawful S.stands S.store_view S.constants db.now pass.new }
{
    let mut out = 77;
    let answer = increment(alloc, rt, db, pass, KEY, n, initial, &mut out, at);
    (answer, out == told.unwrap_or(77))
}

/// The call, and whether it tells what it is to tell.
fn calls<S: SeqStore, R: Wait, G: Gate>(
    rt: &R,
    alloc: Global,
    db: &Dbm<S>,
    pass: &mut Pass,
    call: &Call,
    at: &At<G>,
) -> Result<(Answer, bool), NoMemory>
    requires own { IsIdleOf S.lawful S.stands S.store_view S.constants db.now pass.old }
    requires law { (m : List Pair) → S.lawful m ≡ true }
    ensures { IsIdleOf S.lawful S.stands S.store_view S.constants db.now pass.new }
{
    match call {
        Call::Get(told) => gets(rt, alloc, db, pass, *told, at),
        Call::Set(value, overwrite) => Ok((
            set(alloc, rt, db, pass, KEY, value, *overwrite, at),
            true,
        )),
        Call::Remove => Ok((remove(rt, db, pass, KEY, at), true)),
        Call::Append(value, delim) => Ok((
            append(alloc, rt, db, pass, KEY, value, delim, at),
            true,
        )),
        Call::Exchange(expected, desired, told) => {
            exchanges(rt, alloc, db, pass, expected, desired, *told, at)
        }
        Call::Increment(n, initial, told) => {
            Ok(increments(rt, alloc, db, pass, *n, *initial, *told, at))
        }
    }
}

/// Makes the calls, and says how many in front answered and told as their rows say. Those that are made get the numbers
/// from 0 on, those that are refused get none.
pub fn rows_met<S: SeqStore, R: Wait, G: Gate>(
    rt: &R,
    alloc: Global,
    db: &Dbm<S>,
    pass: &mut Pass,
    rows: &[Row],
    made: bool,
    at: &At<G>,
) -> Result<usize, NoMemory>
    requires own { IsIdleOf S.lawful S.stands S.store_view S.constants db.now pass.old }
    requires law { (m : List Pair) → S.lawful m ≡ true }
    ensures own { IsIdleOf S.lawful S.stands S.store_view S.constants db.now pass.new }
    ensures within { IfOk result (λ n. n ≤ length rows.now) }
{
    for (i, row) in rows.iter().enumerate() {
        let (answer, told) = calls(rt, alloc, db, pass, &row.call, at)?;
        let number = made.then_some(i as u64);
        if !told || answer.status != row.status || answer.number != number {
            return Ok(i);
        }
    }
    Ok(rows.len())
}
