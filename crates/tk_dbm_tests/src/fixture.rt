//! A database of one store.
ghost use Rattle.std.specs.Prelude.{◌≡◌, ◌≤◌, ◌^◌, ◌∷◌, [], List, true, length, IfOk};
ghost use Rattle.tk_model.specs.declared.record.Pair.{Pair};
ghost use Rattle.tk_mem.specs.Tiny.{TinyStands, tiny_view, tiny_constants};
ghost use Rattle.tk_dbm.specs.Dbm.{IsIdleOf};
ghost use Rattle.tk_dbm_tests.specs.Fixture.{IsOpened};

use std::alloc::Global;
use std::sync::Wait;
use tk_dbm::{Answer, Dbm, Pass, StoreList};
use tk_hashnum::{mix, stripe};
use tk_mem::TinyRecords;
use tk_model::{Bytes, NoMemory};
use tk_proc::{Getter, RecordProcessor, Setter};
use tk_status::Status;
use tk_store::{HashedRecords, SeqStore};

/// Few stripes, so that tests find keys for each.
const STRIPES: u32 = 16;

/// The highest limit of a store.
pub const LIMIT: u64 = 1 << 40;

/// A store in memory without records.
pub fn tiny(alloc: Global, limit: u64) -> Result<TinyRecords, NoMemory>
    ensures opened { IfOk result (IsOpened TinyStands tiny_view) }
    ensures floor { IfOk result (λ s. (tiny_view s).floor ≡ 0) }
    ensures writable { IfOk result (λ s. (tiny_constants s).writable ≡ true) }
{
    let records = HashedRecords::new(alloc, 0)?;
    Ok(TinyRecords::of(alloc, records, 8, true, limit))
}

fn one<S: SeqStore + Drop>(alloc: Global, store: S) -> Result<StoreList<S>, NoMemory>
    ensures { IfOk result (λ xs. xs ≡ store ∷ []) }
{
    let mut stores = StoreList::new(alloc);
    stores.push(store)?;
    Ok(stores)
}

/// A database of this store, and the pass that has the whole allowance.
pub fn alone<S: SeqStore + Drop>(
    alloc: Global,
    store: S,
    base: u64,
    writable: bool,
) -> Result<(Dbm<S>, Pass), NoMemory>
    requires opened { IsOpened S.stands S.store_view store }
    requires floor { (S.constants store).writable ≡ true → (S.store_view store).floor ≤ base }
    requires base { base ≤ 2 ^ 62 }
    requires writes { writable ≡ true → (S.constants store).writable ≡ true }
    requires law { (m : List Pair) → S.lawful m ≡ true }
    ensures { IfOk result (λ d.
        IsIdleOf S.lawful S.stands S.store_view S.constants d.0 d.1) }
{
    let stores = one(alloc, store)?;
    match Dbm::make(alloc, stores, STRIPES, base, writable) {
        Ok(made) => Ok(made),
        Err(_) => Err(NoMemory),
    }
}

/// One call of this processor.
pub fn call<S: SeqStore, P: RecordProcessor, R: Wait>(
    rt: &R,
    db: &Dbm<S>,
    pass: &mut Pass,
    key: &[u8],
    p: &mut P,
    writable: bool,
) -> Answer
    requires own { IsIdleOf S.lawful S.stands S.store_view S.constants db.now pass.old }
    requires key { length key.now ≤ 65535 }
    requires law { (m : List Pair) → S.lawful m ≡ true }
    ensures { IsIdleOf S.lawful S.stands S.store_view S.constants db.now pass.new }
{
    db.process(rt, pass, key, p, writable)
}

/// Sets the key to a copy of the value.
pub fn set<S: SeqStore, R: Wait>(
    rt: &R,
    alloc: Global,
    db: &Dbm<S>,
    pass: &mut Pass,
    key: &[u8],
    value: &[u8],
) -> Result<Answer, NoMemory>
    requires own { IsIdleOf S.lawful S.stands S.store_view S.constants db.now pass.old }
    requires key { length key.now ≤ 65535 }
    requires law { (m : List Pair) → S.lawful m ≡ true }
    ensures { IsIdleOf S.lawful S.stands S.store_view S.constants db.now pass.new }
{
    let mut setter = Setter::new(Bytes::from_slice(alloc, value)?);
    Ok(call(rt, db, pass, key, &mut setter, true))
}

/// The answer, and the value where there is one.
pub fn get<S: SeqStore, R: Wait>(
    rt: &R,
    alloc: Global,
    db: &Dbm<S>,
    pass: &mut Pass,
    key: &[u8],
) -> (Answer, Option<Bytes>)
    requires own { IsIdleOf S.lawful S.stands S.store_view S.constants db.now pass.old }
    requires key { length key.now ≤ 65535 }
    requires law { (m : List Pair) → S.lawful m ≡ true }
    ensures { IsIdleOf S.lawful S.stands S.store_view S.constants db.now pass.new }
{
    let mut getter = Getter::new(alloc);
    let answer = call(rt, db, pass, key, &mut getter, false);
    (answer, getter.into_value())
}

/// Whether the call was made under this number, and succeeded.
pub fn is_done(answer: &Answer, number: u64) -> bool {
    answer.status == Status::Success && answer.number == Some(number)
}

/// Whether the call ended so without a number.
pub fn is_refused(answer: &Answer, status: Status) -> bool {
    answer.status == status && answer.number.is_none()
}

/// Whether there is a value, and these are its bytes.
pub fn has(value: &Option<Bytes>, bytes: &[u8]) -> bool {
    match value {
        Some(value) => value.as_slice() == bytes,
        None => false,
    }
}

/// A key of one letter with this stripe.
pub fn key_of(lock: u32) -> [u8; 1] {
    for byte in 0..255u8 {
        if stripe(mix(&[byte]), STRIPES) == lock {
            return [byte];
        }
    }
    [255]
}
