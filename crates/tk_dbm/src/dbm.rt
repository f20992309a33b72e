ghost use Rattle.std.specs.Prelude.{◌≡◌, ◌≤◌, ◌^◌, []};
ghost use Rattle.std.specs.Vec.{vec_capacity};
ghost use Rattle.tk_core.specs.Covers.{IsFrame};
ghost use Rattle.tk_locks.specs.Calls.{its as its_table};

use std::alloc::Global;
use std::sync::Mutex;
use tk_core::Frame;
use tk_locks::LockTable;
use tk_store::SeqStore;

/// An empty list with room for the stores of any database.
#[derive(Drop)]
pub(crate) struct Room<S> {
    pub(crate) list: Vec<S>,
    ghost empty: { list.items ≡ [] },
    ghost wide: { 64 ≤ vec_capacity list },
}

/// A database that many threads share, each with a pass of its own.
#[derive(Drop)]
pub struct Dbm<S: SeqStore> {
    pub(crate) table: LockTable<S>,
    pub(crate) frame: Frame,
    pub(crate) writable: bool,
    pub(crate) alloc: Global,
    pub(crate) room: Mutex<Room<S>>,
    ghost framed: { frame ≡ (its_table table).frame },
    ghost sized: { IsFrame frame × (frame.base ≤ 2 ^ 62) },
}
