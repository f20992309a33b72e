ghost use Rattle.std.specs.Prelude.{◌≡◌, IfOk, IfErr};
ghost use Rattle.tk_locks.specs.View.{first_view};
ghost use Rattle.tk_dbm.specs.Making.{MayMake, ground_for};
ghost use Rattle.tk_dbm.specs.Dbm.{its, view, writes, IsIdleOf};

use crate::dbm::{Dbm, Room};
use crate::pass::Pass;
use std::alloc::Global;
use std::sync::Mutex;
use tk_core::Frame;
use tk_locks::{LockTable, StoreList};
use tk_store::SeqStore;

impl<S: SeqStore + Drop> Dbm<S> {
    /// A database of these stores, and the pass that has the whole allowance. At `Err` there was no
    /// memory, and the stores come back.
    pub fn make(
        alloc: Global,
        stores: StoreList<S>,
        stripes: u32,
        base: u64,
        writable: bool,
    ) -> Result<(Dbm<S>, Pass), StoreList<S>>
        requires may { MayMake S.lawful S.stands S.store_view S.constants
            stores stripes base writable }
        ensures own { IfOk result (λ d.
            IsIdleOf S.lawful S.stands S.store_view S.constants d.0 d.1) }
        ensures first { IfOk result (λ d. view d.1 ≡ first_view) }
        ensures its { IfOk result (λ d. its d.0 ≡ ground_for S.constants stores stripes base) }
        ensures writes { IfOk result (λ d. writes d.0 ≡ writable) }
        ensures err { IfErr result (λ s. s ≡ stores) }
    {
        let frame = Frame {
            stripes,
            stores: stores.len() as u32,
            order: stores.at(0).order(),
            base,
        };
        let Ok(list) = Vec::with_capacity(alloc, 64) else {
            return Err(stores);
        };
        let (table, token) = LockTable::make(alloc, stores, stripes, base)?;
        let db = Dbm {
            table,
            frame,
            writable,
            alloc,
            room: Mutex::new(Room { list }),
        };
        Ok((db, Pass::new(alloc, token)))
    }
}
