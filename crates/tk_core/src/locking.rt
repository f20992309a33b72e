//! The steps that take and give locks, put stores back and join callers.
ghost use Rattle.std.specs.Prelude.{true, [], ◌+◌, ◌^◌, ◌≡◌, ◌≢◌, ◌<◌, ◌++◌, ◌∷◌, ℕ, List, None, Some, cond, get_or, false, option_to_list, Decides, IfOk, IfErr};
ghost use Rattle.tk_core.specs.Caller.{weight, knows_broken};
ghost use Rattle.std.specs.Bool.{then_some};
ghost use Rattle.tk_model.specs.declared.record.Entry.{Entry};
ghost use Rattle.tk_core.specs.Covers.{store_lock};
ghost use Rattle.tk_core.specs.Lists.{has, without};
ghost use Rattle.tk_core.specs.Moves.{gave_stripe, gave_store, put_back, joined, spent};
ghost use Rattle.tk_core.specs.Needs.{MayTake, MayGive, MayPutBack, IsIdle};
ghost use Rattle.tk_core.specs.declared.frame.Frame.{Frame};
ghost use Rattle.tk_core.specs.Program.{IsAnswer, AnyCaller, caller_of, firsts, owner_of};
ghost use Rattle.tk_core.specs.declared.moves.Move.TheVariants as moves;

use crate::machine::Row;
use crate::steps::{holds, is_above};
use crate::{Core, Frame};
use std::alloc::Global;
use std::mem;
use tk_model::NoMemory;

impl Core {
    fn may_take(&self, caller: u32, lock: u32) -> bool
        ensures { Decides result (AnyCaller self.now caller
            (MayTake self.now.frame (owner_of self.now) lock)) }
    {
        let at = caller as usize;
        if at >= self.rows.len() {
            return false;
        }
        let row = &self.rows[at];
        if !row.live {
            return false;
        }
        let place = lock as usize;
        if place >= self.owners.len() {
            return false;
        }
        if self.owners[place] != 0 {
            return false;
        }
        if !row.weighs() {
            return false;
        }
        is_above(lock, &row.held)
    }

    /// The store of the lock, where it is broken.
    fn broken_store(&self, lock: u32) -> Option<u32>
        ensures stripe { lock < self.now.frame.stripes → result ≡ None }
        ensures store { (i : ℕ) → lock ≡ store_lock self.now.frame i
            → result ≡ then_some (get_or self.now.spoilt i false) i }
    {
        let store = lock.checked_sub(self.frame.stripes)?;
        let is_broken = *self.spoilt.get(store as usize)?;
        is_broken.then_some(store)
    }

    /// The caller holds the lock.
    pub(crate) fn take(&mut self, caller: u32, lock: u32) -> Result<bool, NoMemory>
        ensures answer { IfOk result (λ done. IsAnswer (moves.Take caller lock) self.old self.new
            done) }
        ensures want { IfErr result (λ e. self.new ≡ self.old) }
    {
        if !self.may_take(caller, lock) {
            return Ok(false);
        }
        let found = self.broken_store(lock);
        let base = self.log.len();
        self.rows[caller as usize].hold(lock, base, found)?;
        self.owners[lock as usize] = caller as u64 + 1;
        Ok(true)
    }

    fn may_give(&self, caller: u32, lock: u32) -> bool
        ensures { Decides result (AnyCaller self.now caller (MayGive self.now.frame lock)) }
    {
        let at = caller as usize;
        if at >= self.rows.len() {
            return false;
        }
        self.rows[at].may_give(&self.frame, lock)
    }

    /// The lock is free.
    pub(crate) fn give(&mut self, caller: u32, lock: u32) -> Result<bool, NoMemory>
        ensures answer { IfOk result (λ done. IsAnswer (moves.Give caller lock) self.old self.new
            done) }
        ensures want { IfErr result (λ e. self.new ≡ self.old) }
    {
        if !self.may_give(caller, lock) {
            return Ok(false);
        }
        let store = lock.checked_sub(self.frame.stripes);
        self.rows[caller as usize].give_up(lock, store)?;
        self.owners[lock as usize] = 0;
        Ok(true)
    }

    fn may_put_back(&self, caller: u32, store: u32, broken: bool) -> bool
        ensures { Decides result (AnyCaller self.now caller
            (MayPutBack self.now.frame [] self.now.log (λ gs n. Unit {0}) store broken)) }
    {
        let at = caller as usize;
        if at >= self.rows.len() {
            return false;
        }
        if store >= self.frame.stores {
            return false;
        }
        self.rows[at].may_put_back(store, broken)
    }

    /// The store is at home, whole or broken.
    pub(crate) fn put_back(
        &mut self,
        caller: u32,
        store: u32,
        broken: bool,
    ) -> Result<bool, NoMemory>
        ensures answer { IfOk result (λ done. IsAnswer (moves.Back caller store broken) self.old
            self.new done) }
        ensures want { IfErr result (λ e. self.new ≡ self.old) }
    {
        if !self.may_put_back(caller, store, broken) {
            return Ok(false);
        }
        self.rows[caller as usize].bring_back(store, broken)?;
        self.away[store as usize] = false;
        self.spoilt[store as usize] = broken;
        Ok(true)
    }

    /// Whether this is a live caller that holds no lock.
    fn is_idle(&self, caller: u32) -> bool
        ensures { Decides result (AnyCaller self.now caller IsIdle) }
    {
        let at = caller as usize;
        if at >= self.rows.len() {
            return false;
        }
        let row = &self.rows[at];
        if !row.live {
            return false;
        }
        row.held.is_empty()
    }

    fn may_join(&self, caller: u32, other: u32) -> bool
        ensures { Decides result ((caller ≢ other) × AnyCaller self.now caller IsIdle
            × AnyCaller self.now other IsIdle) }
    {
        caller != other && self.is_idle(caller) && self.is_idle(other)
    }

    /// The caller has all that the other had.
    pub(crate) fn join(&mut self, caller: u32, other: u32) -> Result<bool, NoMemory>
        ensures answer { IfOk result (λ done. IsAnswer (moves.Join caller other) self.old self.new
            done) }
        ensures want { IfErr result (λ e. self.new ≡ self.old) }
    {
        if !self.may_join(caller, other) {
            return Ok(false);
        }
        let blank = Row::blank(*self.rows.allocator());
        let mut gone = mem::replace(&mut self.rows[other as usize], blank);
        let done = self.rows[caller as usize].absorb(&mut gone);
        self.rows[other as usize] = gone;
        done?;
        Ok(true)
    }
}

impl Row {
    /// Whether the row made a call or may make one.
    #[tactic(auto, using(crate::proofs::LockRows::length_mine))]
    fn weighs(&self) -> bool
        ensures { (log : List Entry) → Decides result (0 < weight (caller_of log self.now)) }
    {
        self.allowance > 0 || !self.mine.is_empty()
    }

    /// The row has the lock, wants none, and has met the store that was found broken.
    fn hold(&mut self, lock: u32, base: usize, found: Option<u32>) -> Result<(), NoMemory>
        ensures held { IfOk result (λ _. (log : List Entry) → caller_of log self.new
            ≡ record (caller_of log self.old) {
              held = lock ∷ self.old.held.items;
              want = None;
              base = firsts base log;
              met = option_to_list found ++ self.old.met.items;
            }) }
        ensures want { IfErr result (λ e. (log : List Entry) → caller_of log self.new ≡ caller_of
            log self.old) }
    {
        self.held.reserve(1)?;
        put_first(&mut self.met, found)?;
        self.held.insert(0, lock)?;
        self.want = None;
        self.base = base;
        Ok(())
    }

    fn may_give(&self, frame: &Frame, lock: u32) -> bool
        ensures { (log : List Entry)
            → Decides result (MayGive frame.now lock (caller_of log self.now)) }
    {
        if !self.live {
            return false;
        }
        if !holds(&self.held, lock) {
            return false;
        }
        let Some(store) = lock.checked_sub(frame.stripes) else {
            return true;
        };
        store < frame.stores && !holds(&self.out, store)
    }

    /// A store that the row is breaking is among those that it broke.
    fn settle(&mut self, store: u32) -> Result<(), NoMemory>
        ensures settled { IfOk result (λ _. (log : List Entry) → caller_of log self.new
            ≡ record (caller_of log self.old) {
              breaking = without store self.old.breaking.items;
              broke = cond (has store self.old.breaking.items) (store ∷ self.old.broke.items)
                  self.old.broke.items;
            }) }
        ensures want { IfErr result (λ e. (log : List Entry) → caller_of log self.new ≡ caller_of
            log self.old) }
    {
        let newly = holds(&self.breaking, store).then_some(store);
        put_first(&mut self.broke, newly)?;
        remove_all(&mut self.breaking, store);
        Ok(())
    }

    /// The row has the lock no more, and wants none. The lock may be that of a store.
    fn give_up(&mut self, lock: u32, store: Option<u32>) -> Result<(), NoMemory>
        ensures stripe { store ≡ None → IfOk result (λ _. (log : List Entry)
            → caller_of log self.new ≡ gave_stripe lock (caller_of log self.old)) }
        ensures store { (f : Frame) (i : ℕ) → store ≡ Some i → lock ≡ store_lock f i
            → IfOk result (λ _. (log : List Entry) → caller_of log self.new ≡ gave_store f i
            (caller_of log self.old)) }
        ensures want { IfErr result (λ e. (log : List Entry) → caller_of log self.new ≡ caller_of
            log self.old) }
    {
        if let Some(store) = store {
            self.settle(store)?;
        }
        remove_all(&mut self.held, lock);
        self.want = None;
        Ok(())
    }

    /// Whether the row knows that the store is broken.
    fn knows_broken(&self, store: u32) -> bool
        ensures { (log : List Entry) → result ≡ knows_broken (caller_of log self.now) store }
    {
        holds(&self.met, store) || holds(&self.breaking, store)
    }

    fn may_put_back(&self, store: u32, broken: bool) -> bool
        ensures { Decides result ((self.now.live ≡ true) × (has store self.now.out.items ≡ true)
            × (knows_broken (caller_of [] self.now) store ≡ true → broken ≡ true)) }
    {
        if !self.live {
            return false;
        }
        if !holds(&self.out, store) {
            return false;
        }
        broken || !self.knows_broken(store)
    }

    /// The store is with the row no more, and newly broken by it where it is broken and wasn't.
    fn bring_back(&mut self, store: u32, broken: bool) -> Result<(), NoMemory>
        ensures back { IfOk result (λ _. (log : List Entry) → caller_of log self.new
            ≡ put_back store broken (caller_of log self.old)) }
        ensures want { IfErr result (λ e. (log : List Entry) → caller_of log self.new ≡ caller_of
            log self.old) }
    {
        let newly = broken && !self.knows_broken(store);
        put_first(&mut self.breaking, newly.then_some(store))?;
        remove_all(&mut self.out, store);
        Ok(())
    }

    /// A row of nobody.
    fn blank(alloc: Global) -> Row
        ensures { (log : List Entry) → caller_of log result ≡ spent }
    {
        Row {
            live: false,
            allowance: 0,
            held: Vec::new(alloc),
            want: None,
            out: Vec::new(alloc),
            seen: 0,
            base: 0,
            mine: Vec::new(alloc),
            breaking: Vec::new(alloc),
            broke: Vec::new(alloc),
            met: Vec::new(alloc),
        }
    }

    /// The row has all that the other had, and the other nothing any more.
    fn absorb(&mut self, other: &mut Row) -> Result<(), NoMemory>
        requires room { self.old.allowance + other.old.allowance < 2 ^ 64 }
        ensures joined { IfOk result (λ _. (log : List Entry)
            → (caller_of log self.new ≡ joined (caller_of log self.old) (caller_of log other.old))
            × (caller_of log other.new ≡ spent)) }
        ensures want { IfErr result (λ e. (log : List Entry)
            → (caller_of log self.new ≡ caller_of log self.old)
            × (caller_of log other.new ≡ caller_of log other.old)) }
    {
        other.mine.reserve(self.mine.len())?;
        self.broke.reserve(other.broke.len())?;
        self.met.append(&mut other.met)?;
        self.broke.append(&mut other.broke)?;
        other.mine.append(&mut self.mine)?;
        let blank = Row::blank(*self.met.allocator());
        let Row {
            allowance,
            seen,
            mine,
            ..
        } = mem::replace(other, blank);
        self.allowance += allowance;
        self.seen = self.seen.max(seen);
        self.mine = mine;
        Ok(())
    }
}

/// Puts the number, where there is one, before the list.
fn put_first(list: &mut Vec<u32>, number: Option<u32>) -> Result<(), NoMemory>
    ensures put { IfOk result (λ _. list.new.items ≡ option_to_list number ++ list.old.items) }
    ensures want { IfErr result (λ e. list.new.items ≡ list.old.items) }
{
    if let Some(number) = number {
        list.insert(0, number)?;
    }
    Ok(())
}

/// Takes the number out of the list.
fn remove_all(list: &mut Vec<u32>, number: u32)
    ensures { list.new.items ≡ without number list.old.items }
{
    list.retain(|other| *other != number);
}
