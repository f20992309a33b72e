//! The steps, by a seat.
ghost use Rattle.std.specs.Prelude.{◌≡◌, ◌+◌, ◌<◌, ◌≤◌, ◌^◌, ◌∷◌, ℕ, [], length, true, false};
ghost use Rattle.std.specs.Prelude.{Some, None, is_some, MatchBool, MatchOption};
ghost use Rattle.atomic_table.specs.Table.{rest};
ghost use Rattle.tk_core.specs.Caller.{knows_broken};
ghost use Rattle.tk_core.specs.Covers.{store_lock};
ghost use Rattle.tk_core.specs.Lists.{has};
ghost use Rattle.tk_core.specs.Moves.{gave_stripe};
ghost use Rattle.tk_core.specs.Needs.{MayGiveStripe, IsIdle};
ghost use Rattle.tk_locks.specs.View.{noted, with_caller, with_count};
ghost use Rattle.tk_locks.specs.Rule.{ground_of, next_fits, count_at};
ghost use Rattle.tk_locks.specs.Steps.{MayWant, MayMark, GaveStore, Joined, left_half, right_half};
ghost use Rattle.tk_locks.specs.Tells.{TakesStripe, Misses, TakesStore, IsOwed};
ghost use Rattle.tk_locks.specs.Tells.{MayMake, Makes, Looks};
ghost use Rattle.tk_locks.specs.Calls.{at, IsSeatOf, IsSameSeat};

use crate::home::Home;
use crate::rule::{
    Call, Commit, Fetch, Give, GiveStore, Halves, Hear, Look, Marked, Merges, Park, Said, Take,
    TakeStore, Told,
};
use crate::table::LockTable;
use crate::view::Seen;
use atomic_table::Seat;
use crossbeam_utils::Backoff;
use std::sync::Wait;
use tk_store::SeqStore;

pub(crate) type Sitting<S> = Seat<Option<Home<S>>, Seen>;

impl<S: SeqStore> LockTable<S> {
    pub(crate) fn try_take_stripe_as<J: Told<S>>(&self, seat: &mut Sitting<S>, lock: u32) -> bool
        requires own { IsSeatOf self.now seat.old }
        requires ground { J.ground ≡ ground_of self.now.table.shared.key }
        requires lock { (lock < J.ground.frame.stripes) × MayWant J.ground.frame lock
            (at seat.old).caller }
        ensures own { IsSameSeat seat.old seat.new }
        ensures step { MatchBool result (TakesStripe S.lawful S.store_view J.ground lock
            (at seat.old) (at seat.new))
            (Misses S.lawful S.store_view J.ground lock (at seat.old) (at seat.new)) }
    {
        self.table
            .shared
            .compare_exchange::<Take<J>>(seat, lock as usize + 1, 0, 1)
            == 0
    }

    pub(crate) fn try_take_store_as<J: Told<S>>(
        &self,
        seat: &mut Sitting<S>,
        i: u32,
    ) -> Option<Home<S>>
        requires own { IsSeatOf self.now seat.old }
        requires ground { J.ground ≡ ground_of self.now.table.shared.key }
        requires lock { (i < J.ground.frame.stores) × MayWant J.ground.frame
            (store_lock J.ground.frame i) (at seat.old).caller }
        ensures own { IsSameSeat seat.old seat.new }
        ensures step { MatchOption result (Misses S.lawful S.store_view J.ground
            (store_lock J.ground.frame i) (at seat.old) (at seat.new))
            (λ h. TakesStore S.lawful S.stands S.store_view S.constants S.fault_count J.ground
            i (at seat.old) h (at seat.new)) }
    {
        let word = self.frame.stripes as usize + i as usize + 1;
        if self
            .table
            .shared
            .compare_exchange::<TakeStore<J>>(seat, word, 0, 1)
            != 0
        {
            return None;
        }
        let home = self.table.shared.exchange(seat, i as usize, None);
        self.table.shared.load::<Park<J>>(seat, word);
        home
    }

    pub(crate) fn take_stripe_as<R: Wait, J: Told<S>>(
        &self,
        rt: &R,
        seat: &mut Sitting<S>,
        lock: u32,
    )
        requires own { IsSeatOf self.now seat.old }
        requires ground { J.ground ≡ ground_of self.now.table.shared.key }
        requires lock { (lock < J.ground.frame.stripes) × MayWant J.ground.frame lock
            (at seat.old).caller }
        ensures own { IsSameSeat seat.old seat.new }
        ensures step { TakesStripe S.lawful S.store_view J.ground lock (at seat.old) (at seat.new) }
    {
        let backoff = Backoff::new();
        for _ in rt.forever() {
            if self.try_take_stripe_as::<J>(seat, lock) {
                return;
            }
            backoff.snooze();
        }
        unreachable!()
    }

    pub(crate) fn take_store_as<R: Wait, J: Told<S>>(
        &self,
        rt: &R,
        seat: &mut Sitting<S>,
        i: u32,
    ) -> Home<S>
        requires own { IsSeatOf self.now seat.old }
        requires ground { J.ground ≡ ground_of self.now.table.shared.key }
        requires lock { (i < J.ground.frame.stores) × MayWant J.ground.frame
            (store_lock J.ground.frame i) (at seat.old).caller }
        ensures own { IsSameSeat seat.old seat.new }
        ensures step { TakesStore S.lawful S.stands S.store_view S.constants S.fault_count J.ground
            i (at seat.old) result (at seat.new) }
    {
        let backoff = Backoff::new();
        for _ in rt.forever() {
            if let Some(home) = self.try_take_store_as::<J>(seat, i) {
                return home;
            }
            backoff.snooze();
        }
        unreachable!()
    }

    pub(crate) fn give_stripe_as<J: Told<S>>(&self, seat: &mut Sitting<S>, lock: u32)
        requires own { IsSeatOf self.now seat.old }
        requires ground { J.ground ≡ ground_of self.now.table.shared.key }
        requires may { MayGiveStripe J.ground.frame lock (at seat.old).caller }
        ensures own { IsSameSeat seat.old seat.new }
        ensures step { at seat.new ≡ with_caller (gave_stripe lock (at seat.old).caller)
            (at seat.old) }
    {
        self.table.shared.swap::<Give>(seat, lock as usize + 1, 0);
    }

    pub(crate) fn give_store_as<J: Told<S>, K: Marked>(
        &self,
        seat: &mut Sitting<S>,
        i: u32,
        home: Home<S>,
    )
        requires own { IsSeatOf self.now seat.old }
        requires ground { J.ground ≡ ground_of self.now.table.shared.key }
        requires marked { (K.kept ≡ home.broken) × (K.count ≡ S.fault_count home.store) }
        requires live { (at seat.old).caller.live ≡ true }
        requires lock { (i < J.ground.frame.stores) × (has (store_lock J.ground.frame i)
            (at seat.old).caller.held ≡ true) × (has i (at seat.old).caller.out ≡ true) }
        requires stays { MayMark J.ground.frame (count_at S.fault_count J.ground.start) i
            (at seat.old) home.broken }
        requires fits { IsOwed S.lawful S.stands S.store_view S.constants S.fault_count J.ground
            i (at seat.old).caller home }
        requires count { noted i (at seat.old).counts ≤ S.fault_count home.store }
        requires next { home.broken ≡ None → next_fits S.store_view S.constants J.ground
            home.store (length (at seat.old).caller.base) }
        ensures own { IsSameSeat seat.old seat.new }
        ensures step { GaveStore S.fault_count J.ground.frame i (at seat.old) home (at seat.new) }
    {
        let word = self.frame.stripes as usize + i as usize + 1;
        self.table.shared.load::<Fetch<J, K>>(seat, word);
        match self.table.shared.exchange(seat, i as usize, Some(home)) {
            None => {}
            Some(_) => unreachable!(),
        }
        self.table.shared.swap::<GiveStore<J, K>>(seat, word, 0);
    }

    pub(crate) fn look_as<J: Told<S>>(&self, seat: &mut Sitting<S>) -> u64
        requires own { IsSeatOf self.now seat.old }
        requires ground { J.ground ≡ ground_of self.now.table.shared.key }
        requires live { (at seat.old).caller.live ≡ true }
        ensures own { IsSameSeat seat.old seat.new }
        ensures step { Looks S.lawful S.store_view J.ground (at seat.old) result (at seat.new) }
    {
        self.table.shared.load::<Look<J>>(seat, 0)
    }

    pub(crate) fn commit_as<C: Call, J: Told<S>, K: Said>(
        &self,
        seat: &mut Sitting<S>,
        call: &C,
    ) -> u64
        requires own { IsSeatOf self.now seat.old }
        requires said { K.entry ≡ C.entry call.now }
        requires ground { J.ground ≡ ground_of self.now.table.shared.key }
        requires may { MayMake S.lawful S.store_view J.ground K.entry (at seat.old).caller }
        ensures own { IsSameSeat seat.old seat.new }
        ensures step { Makes S.lawful S.store_view J.ground K.entry (at seat.old) result
            (at seat.new) }
    {
        let _ = call;
        self.table.shared.fetch_add::<Commit<J, K>>(seat, 0, 1)
    }

    pub(crate) fn split_at(&self, seat: &mut Sitting<S>) -> Sitting<S>
        requires own { IsSeatOf self.now seat.old }
        requires idle { IsIdle (at seat.old).caller }
        ensures own { IsSameSeat seat.old seat.new × IsSeatOf self.now result }
        ensures step { (at seat.new ≡ left_half (at seat.old))
            × (at result ≡ right_half (at seat.old)) }
    {
        self.table.shared.split_seat::<Halves>(seat)
    }

    pub(crate) fn join_at(&self, seat: &mut Sitting<S>, other: Sitting<S>)
        requires own { IsSeatOf self.now seat.old × IsSeatOf self.now other }
        requires idle { IsIdle (at seat.old).caller × IsIdle (at other).caller }
        ensures own { IsSameSeat seat.old seat.new }
        ensures step { Joined (at seat.old) (at other) (at seat.new)
            × ((at seat.new).caller.allowance ≤ 2 ^ 62) }
    {
        self.table.shared.join_seat::<Merges>(seat, other);
        self.table.shared.load::<Hear>(seat, 0);
    }
}
