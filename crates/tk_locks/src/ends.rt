//! How a table is made, and taken apart.
ghost use Rattle.std.specs.Prelude.{◌≡◌, ◌≤◌, [], true, length, IfOk, IfErr};
ghost use Rattle.std.specs.Vec.{vec_capacity};
ghost use Rattle.tk_core.specs.Covers.{IsFrame};
ghost use Rattle.tk_locks.specs.Homes.{homes_of};
ghost use Rattle.tk_locks.specs.View.{first_view};
ghost use Rattle.tk_locks.specs.Rule.{ground_of};
ghost use Rattle.tk_locks.specs.Calls.{at, view, its, IsSeatOf, IsPassOf};
ghost use Rattle.tk_locks.specs.Made.{Fresh, frame_of};
ghost use Rattle.tk_locks.specs.Tells.{Finds};

use crate::home::{Dissolved, Home, StoreList};
use crate::lists::{lodged, put_home, unlodged};
use crate::pass::Pass;
use crate::rule::Law;
use crate::steps::Sitting;
use crate::table::{LockTable, Origin, Room};
use crate::view::Seen;
use atomic_table::{Badge, Refused, Table};
use std::alloc::Global;
use std::snapshot::Snapshot;
use std::sync::Mutex;
use tk_core::Frame;
use tk_model::ListOf;
use tk_store::SeqStore;

impl<S: SeqStore + Drop> LockTable<S> {
    /// A table of these stores, and the pass that has the whole allowance. At `Err` there was no
    /// memory, and the stores come back.
    pub fn make(
        alloc: Global,
        stores: StoreList<S>,
        stripes: u32,
        base: u64,
    ) -> Result<(LockTable<S>, Pass), StoreList<S>>
        requires frame { IsFrame (frame_of S.constants stores stripes base) }
        requires fresh { Fresh S.lawful S.stands S.store_view S.constants
            (frame_of S.constants stores stripes base) (homes_of stores) }
        ensures own { IfOk result (λ t. IsPassOf t.0 t.1) }
        ensures first { IfOk result (λ t. view t.1 ≡ first_view) }
        ensures its { IfOk result (λ t. its t.0
            ≡ record { frame = frame_of S.constants stores stripes base; start = homes_of stores }) }
        ensures err { IfErr result (λ s. s ≡ stores) }
    {
        let count = stores.len();
        let frame = Frame {
            stripes,
            stores: count as u32,
            order: stores.at(0).order(),
            base,
        };
        let Ok(room) = Vec::with_capacity(alloc, 64) else {
            return Err(stores);
        };
        let Ok(homes) = Vec::with_capacity(alloc, count) else {
            return Err(stores);
        };
        let Ok(back) = Vec::with_capacity(alloc, count) else {
            return Err(stores);
        };
        let homes = lodged(stores.into_vec(), homes);
        match LockTable::make_as(alloc, homes, room, frame) {
            Ok((table, seat)) => {
                let mut pass = Pass {
                    badge: Badge::blank(),
                    left: 1 << 62,
                };
                pass.close(seat);
                Ok((table, pass))
            }
            Err(homes) => Err(ListOf::from_vec(unlodged(homes, back))),
        }
    }

    fn make_as(
        alloc: Global,
        stores: Vec<Option<Home<S>>>,
        room: Vec<Home<S>>,
        frame: Frame,
    ) -> Result<(LockTable<S>, Sitting<S>), Vec<Option<Home<S>>>>
        requires frame { IsFrame frame }
        requires fresh { Fresh S.lawful S.stands S.store_view S.constants frame stores.items }
        requires empty { room.items ≡ [] }
        requires wide { 64 ≤ vec_capacity room }
        ensures ok { IfOk result (λ t. IsSeatOf t.0 t.1 × (at t.1 ≡ first_view)
            × (ground_of t.0.table.shared.key ≡ record { frame = frame; start = stores.items })) }
        ensures err { IfErr result (λ s. s.items ≡ stores.items) }
    {
        let about = Origin {
            frame,
            start: Snapshot::of(&stores),
        };
        let count = frame.stripes as usize + frame.stores as usize + 1;
        let Ok(words) = Vec::from_elem(alloc, 0u64, count) else {
            return Err(stores);
        };
        match Table::<Option<Home<S>>, Seen, Origin<S>, Law, Global>::new(
            alloc,
            words.as_slice(),
            stores,
            &about,
        ) {
            Ok((table, seat)) => {
                let room = Mutex::new(Room { list: room });
                Ok((LockTable { table, frame, room }, seat))
            }
            Err(Refused { slots }) => Err(slots),
        }
    }

    /// Takes no memory. A store whose lock was not given back is let go.
    pub fn dissolve(self, mut pass: Pass) -> Dissolved<S>
        requires own { IsPassOf self pass }
        requires none { (view pass).caller.held ≡ [] }
        ensures few { length result.stores ≤ (its self).frame.stores }
        ensures end { Finds S.lawful S.stands S.store_view S.constants S.fault_count (its self)
            (view pass) result.calls result.stores }
    {
        let seat: Sitting<S> = pass.open();
        let (homes, calls) = self.dissolve_as(seat);
        Dissolved {
            stores: ListOf::from_vec(homes),
            calls,
        }
    }

    fn dissolve_as(self, seat: Sitting<S>) -> (Vec<Home<S>>, u64)
        requires own { IsSeatOf self seat }
        requires idle { (at seat).caller.held ≡ [] }
        ensures few { length result.0.items ≤ (its self).frame.stores }
        ensures end { Finds S.lawful S.stands S.store_view S.constants S.fault_count (its self)
            (at seat) result.1 result.0.items }
    {
        let LockTable { table, frame, room } = self;
        let Room { list: mut into } = room.into_inner();
        let mut closed = table.close_with(seat);
        let calls = closed.word(0);
        let mut i = 0;
        while i < closed.slot_count() {
            let lock = closed.word(frame.stripes as usize + i + 1);
            let slot = closed.take(i);
            put_home(&mut into, slot, lock);
            i += 1;
        }
        closed.free();
        (into, calls)
    }
}
