//! The calls of a pass.
ghost use Rattle.std.specs.Prelude.{◌≡◌, ◌+◌, ◌<◌, ◌≤◌, ℕ, [], ◌∷◌, length, true, is_some, None};
ghost use Rattle.tk_core.specs.Caller.{weight, knows_broken};
ghost use Rattle.tk_core.specs.Covers.{store_lock};
ghost use Rattle.tk_core.specs.Lists.{has, AllBelow};
ghost use Rattle.tk_core.specs.Moves.{gave_stripe};
ghost use Rattle.tk_locks.specs.View.{noted, with_caller};
ghost use Rattle.tk_locks.specs.Rule.{next_fits, count_at};
ghost use Rattle.tk_locks.specs.Steps.{MayMark, GaveStore, Joined, left_half, right_half};
ghost use Rattle.tk_locks.specs.Tells.{TakesStripe, TakesStore, IsOwed, MayMake, Makes, Looks};
ghost use Rattle.tk_locks.specs.Calls.{view, IsCounted, IsPassOf, its};

use crate::home::Home;
use crate::pass::Pass;
use crate::rule::Call;
use crate::steps::Sitting;
use crate::table::LockTable;
use crate::view::Seen;
use atomic_table::{Badge, Seat};
use std::marker::Brand;
use std::mem;
use std::sync::Wait;
use tk_core::Frame;
use tk_store::SeqStore;

impl Pass {
    /// How many calls the pass may still make.
    pub fn allowance(&self) -> u64
        requires { IsCounted self.now }
        ensures { result ≡ (view self.now).caller.allowance }
    {
        self.left
    }

    pub(crate) fn open<T>(&mut self) -> Seat<T, Seen>
        requires { self.old.badge.views ≡ view self.old ∷ [] }
        ensures { (result.table_id ≡ self.old.badge.table_id)
            × (result.me ≡ (view self.old, [])) × (self.new.left ≡ self.old.left) }
    {
        mem::replace(&mut self.badge, Badge::blank()).into_seat()
    }

    pub(crate) fn close<T>(&mut self, seat: Seat<T, Seen>)
        requires { seat.me.1 ≡ [] }
        ensures { (self.new.badge.table_id ≡ seat.table_id)
            × (self.new.badge.views ≡ seat.me.0 ∷ []) × (view self.new ≡ seat.me.0)
            × (self.new.left ≡ self.old.left) }
    {
        self.badge = seat.into_badge();
    }
}

impl<S: SeqStore> LockTable<S> {
    pub fn frame(&self) -> Frame
        ensures { result ≡ (its self.now).frame }
    {
        self.frame
    }

    /// Waits until the stripe's lock is free, and takes it.
    pub fn take_stripe<R: Wait>(&self, rt: &R, pass: &mut Pass, i: u32)
        requires own { IsPassOf self.now pass.old }
        requires lock { (i < (its self.now).frame.stripes)
            × AllBelow i (view pass.old).caller.held × (0 < weight (view pass.old).caller) }
        ensures own { IsPassOf self.now pass.new }
        ensures step { TakesStripe S.lawful S.store_view (its self.now) i (view pass.old)
            (view pass.new) }
    {
        let mut seat: Sitting<S> = pass.open();
        self.take_stripe_as::<R, Brand>(rt, &mut seat, i);
        pass.close(seat);
    }

    /// Waits until the store's lock is free, and takes it and the store.
    pub fn take_store<R: Wait>(&self, rt: &R, pass: &mut Pass, i: u32) -> Home<S>
        requires own { IsPassOf self.now pass.old }
        requires lock { (i < (its self.now).frame.stores)
            × AllBelow (store_lock (its self.now).frame i) (view pass.old).caller.held
            × (0 < weight (view pass.old).caller) }
        ensures own { IsPassOf self.now pass.new }
        ensures step { TakesStore S.lawful S.stands S.store_view S.constants S.fault_count
            (its self.now) i (view pass.old) result (view pass.new) }
    {
        let mut seat: Sitting<S> = pass.open();
        let home = self.take_store_as::<R, Brand>(rt, &mut seat, i);
        pass.close(seat);
        home
    }

    /// Gives the store back, whole or as broken, and its lock.
    pub fn give_store(&self, pass: &mut Pass, i: u32, home: Home<S>)
        requires own { IsPassOf self.now pass.old }
        requires lock { (i < (its self.now).frame.stores)
            × (has (store_lock (its self.now).frame i) (view pass.old).caller.held ≡ true) }
        requires stays { MayMark (its self.now).frame
            (count_at S.fault_count (its self.now).start) i (view pass.old) home.broken }
        requires fits { IsOwed S.lawful S.stands S.store_view S.constants S.fault_count
            (its self.now) i (view pass.old).caller home }
        requires count { noted i (view pass.old).counts ≤ S.fault_count home.store }
        requires next { home.broken ≡ None
            → next_fits S.store_view S.constants (its self.now) home.store
            (length (view pass.old).caller.base) }
        ensures own { IsPassOf self.now pass.new }
        ensures step { GaveStore S.fault_count (its self.now).frame i (view pass.old) home
            (view pass.new) }
    {
        let mut seat: Sitting<S> = pass.open();
        self.give_store_as::<Brand, Brand>(&mut seat, i, home);
        pass.close(seat);
    }

    /// The call gets the next number of the history, which is the answer.
    pub fn commit<C: Call>(&self, pass: &mut Pass, call: &C) -> u64
        requires own { IsPassOf self.now pass.old }
        requires may { MayMake S.lawful S.store_view (its self.now) (C.entry call.now)
            (view pass.old).caller }
        ensures own { IsPassOf self.now pass.new }
        ensures step { Makes S.lawful S.store_view (its self.now) (C.entry call.now)
            (view pass.old) result (view pass.new) }
    {
        let mut seat: Sitting<S> = pass.open();
        let n = self.commit_as::<C, Brand, Brand>(&mut seat, call);
        pass.left -= 1;
        pass.close(seat);
        n
    }

    /// Gives the stripe's lock back.
    pub fn give_stripe(&self, pass: &mut Pass, i: u32)
        requires own { IsPassOf self.now pass.old }
        requires lock { (i < (its self.now).frame.stripes)
            × (has i (view pass.old).caller.held ≡ true) }
        ensures own { IsPassOf self.now pass.new }
        ensures step { view pass.new ≡ with_caller (gave_stripe i (view pass.old).caller)
            (view pass.old) }
    {
        let mut seat: Sitting<S> = pass.open();
        self.give_stripe_as::<Brand>(&mut seat, i);
        pass.close(seat);
    }

    /// The length of the history, of which the pass has then seen all.
    pub fn look(&self, pass: &mut Pass) -> u64
        requires own { IsPassOf self.now pass.old }
        ensures own { IsPassOf self.now pass.new }
        ensures step { Looks S.lawful S.store_view (its self.now) (view pass.old) result
            (view pass.new) }
    {
        let mut seat: Sitting<S> = pass.open();
        let n = self.look_as::<Brand>(&mut seat);
        pass.close(seat);
        n
    }

    /// Half of the allowance, rounded down, goes to a new pass.
    pub fn split(&self, pass: &mut Pass) -> Pass
        requires own { IsPassOf self.now pass.old }
        requires none { (view pass.old).caller.held ≡ [] }
        ensures own { IsPassOf self.now pass.new × IsPassOf self.now result }
        ensures step { (view pass.new ≡ left_half (view pass.old))
            × (view result ≡ right_half (view pass.old)) }
    {
        let mut seat: Sitting<S> = pass.open();
        let other = self.split_at(&mut seat);
        let half = pass.left / 2;
        pass.left -= half;
        pass.close(seat);
        let mut right = Pass {
            badge: Badge::blank(),
            left: half,
        };
        right.close(other);
        right
    }

    /// The pass has then all that the other had.
    pub fn join(&self, pass: &mut Pass, mut other: Pass)
        requires own { IsPassOf self.now pass.old × IsPassOf self.now other }
        requires none { ((view pass.old).caller.held ≡ []) × ((view other).caller.held ≡ []) }
        ensures own { IsPassOf self.now pass.new }
        ensures step { Joined (view pass.old) (view other) (view pass.new) }
    {
        let mut seat: Sitting<S> = pass.open();
        let theirs = other.open();
        self.join_at(&mut seat, theirs);
        pass.left += other.left;
        pass.close(seat);
    }
}
