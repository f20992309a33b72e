//! How a database ends.
ghost use Rattle.tk_dbm.specs.Closing.{IsClosed};
ghost use Rattle.tk_dbm.specs.Dbm.{its, view, IsIdleOf};

use crate::dbm::{Dbm, Room};
use crate::ending::end_all;
use crate::pass::Pass;
use tk_locks::{Dissolved, StoreList};
use tk_model::ListOf;
use tk_status::Status;
use tk_store::SeqStore;

/// The stores of a database that was closed, in order, and how many calls it made.
#[derive(Drop)]
pub struct Closed<S> {
    pub status: Status,
    pub stores: StoreList<S>,
    pub calls: u64,
}

impl<S: SeqStore + Drop> Dbm<S> {
    /// Ends each store that isn't broken. Takes no memory but what a store takes.
    pub fn close(self, pass: Pass) -> Closed<S>
        requires own { IsIdleOf S.lawful S.stands S.store_view S.constants self pass }
        ensures closed { IsClosed S.lawful S.stands S.store_view S.constants S.fault_count
            (its self) (view pass) result }
    {
        let Dbm {
            table,
            frame,
            room,
            writable: _,
            alloc: _,
        } = self;
        let Room { list } = room.into_inner();
        let Dissolved { stores, calls } = table.dissolve(pass.token);
        let (stores, status) = end_all(stores.into_vec(), frame.base + calls, list);
        Closed {
            status,
            stores: ListOf::from_vec(stores),
            calls,
        }
    }
}
