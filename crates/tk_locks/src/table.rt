ghost use Rattle.std.specs.Prelude.{◌≡◌, ◌+◌, ◌≤◌, []};
ghost use Rattle.std.specs.Vec.{vec_capacity};
ghost use Rattle.tk_core.specs.Covers.{IsFrame};

use crate::home::Home;
use crate::rule::Law;
use crate::view::Seen;
use atomic_table::Table;
use std::alloc::Global;
use std::snapshot::Snapshot;
use std::sync::Mutex;
use tk_core::Frame;
use tk_store::SeqStore;

/// What the table is told when it is made: its sizes, and the stores as they were then.
#[derive(Drop)]
pub struct Origin<S> {
    pub frame: Frame,
    pub start: Snapshot<Vec<Option<Home<S>>>>,
}

/// An empty list with room for the stores of any table.
#[derive(Drop)]
pub(crate) struct Room<S> {
    pub(crate) list: Vec<Home<S>>,
    ghost empty: { list.items ≡ [] },
    ghost wide: { 64 ≤ vec_capacity list },
}

/// Locks, one history and stores, for many threads.
#[derive(Drop)]
pub struct LockTable<S: SeqStore> {
    pub(crate) table: Table<Option<Home<S>>, Seen, Origin<S>, Law, Global>,
    pub(crate) frame: Frame,
    pub(crate) room: Mutex<Room<S>>,
    ghost sized: { (table.shared.table_id.words ≡ (frame.stripes + frame.stores) + 1)
        × (table.shared.table_id.slots ≡ frame.stores) × (table.shared.key.frame ≡ frame)
        × IsFrame frame },
}
