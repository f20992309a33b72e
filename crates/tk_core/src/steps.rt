//! The steps of the core, one for each kind of move.
ghost use Rattle.std.specs.Prelude.{◌≡◌, length, Decides, IfOk, IfErr};
ghost use Rattle.tk_core.specs.Lists.{has, AllBelow};
ghost use Rattle.tk_core.specs.Needs.{MayLook, MayMiss, MaySplit, MayTakeOut};
ghost use Rattle.tk_core.specs.Program.{IsAnswer, AnyCaller, owner_of};
ghost use Rattle.tk_core.specs.declared.moves.Move.TheVariants as moves;

use crate::Core;
use crate::machine::Row;
use std::alloc::Global;
use tk_model::NoMemory;

impl Core {
    fn may_look(&self, caller: u32) -> bool
        ensures { Decides result (AnyCaller self.now caller MayLook) }
    {
        let at = caller as usize;
        if at >= self.rows.len() {
            return false;
        }
        self.rows[at].live
    }

    /// The caller sees the whole history.
    pub(crate) fn look(&mut self, caller: u32) -> bool
        ensures { IsAnswer (moves.Look caller) self.old self.new result }
    {
        if !self.may_look(caller) {
            return false;
        }
        let seen = self.log.len();
        let row = &mut self.rows[caller as usize];
        row.seen = seen;
        row.base = seen;
        true
    }

    fn may_miss(&self, caller: u32, lock: u32) -> bool
        ensures { Decides result (AnyCaller self.now caller
            (MayMiss self.now.frame (owner_of self.now) lock)) }
    {
        let at = caller as usize;
        if at >= self.rows.len() {
            return false;
        }
        let row = &self.rows[at];
        if !row.live {
            return false;
        }
        let place = lock as usize;
        if place >= self.owners.len() {
            return false;
        }
        if self.owners[place] == 0 {
            return false;
        }
        is_above(lock, &row.held)
    }

    /// The caller waits for the lock.
    pub(crate) fn miss(&mut self, caller: u32, lock: u32) -> bool
        ensures { IsAnswer (moves.Miss caller lock) self.old self.new result }
    {
        if !self.may_miss(caller, lock) {
            return false;
        }
        let row = &mut self.rows[caller as usize];
        row.want = Some(lock);
        true
    }

    fn may_split(&self, caller: u32) -> bool
        ensures { Decides result (AnyCaller self.now caller (MaySplit (length self.now.callers))) }
    {
        let at = caller as usize;
        if at >= self.rows.len() {
            return false;
        }
        if self.rows.len() >= 1 << 32 {
            return false;
        }
        let row = &self.rows[at];
        if !row.live {
            return false;
        }
        row.held.is_empty()
    }

    /// Half of the caller's allowance goes to a new caller.
    pub(crate) fn split(&mut self, alloc: Global, caller: u32) -> Result<bool, NoMemory>
        ensures answer { IfOk result (λ done. IsAnswer (moves.Split caller) self.old self.new
            done) }
        ensures want { IfErr result (λ e. self.new ≡ self.old) }
    {
        if !self.may_split(caller) {
            return Ok(false);
        }
        let row = &self.rows[caller as usize];
        let whole = row.allowance;
        let new = Row {
            live: true,
            allowance: whole / 2,
            held: Vec::new(alloc),
            want: None,
            out: Vec::new(alloc),
            seen: row.seen,
            base: row.base,
            mine: Vec::new(alloc),
            breaking: Vec::new(alloc),
            broke: Vec::new(alloc),
            met: Vec::new(alloc),
        };
        self.rows.push(new)?;
        let row = &mut self.rows[caller as usize];
        row.allowance = whole - whole / 2;
        Ok(true)
    }

    fn may_take_out(&self, caller: u32, store: u32) -> bool
        ensures { Decides result (AnyCaller self.now caller (MayTakeOut self.now.frame store)) }
    {
        let at = caller as usize;
        if at >= self.rows.len() {
            return false;
        }
        let row = &self.rows[at];
        if !row.live {
            return false;
        }
        if store >= self.frame.stores {
            return false;
        }
        if !holds(&row.held, self.frame.stripes + store) {
            return false;
        }
        !holds(&row.out, store)
    }

    /// The store is with the caller.
    pub(crate) fn take_out(&mut self, caller: u32, store: u32) -> Result<bool, NoMemory>
        ensures answer { IfOk result (λ done. IsAnswer (moves.Out caller store) self.old self.new
            done) }
        ensures want { IfErr result (λ e. self.new ≡ self.old) }
    {
        if !self.may_take_out(caller, store) {
            return Ok(false);
        }
        let row = &mut self.rows[caller as usize];
        row.out.insert(0, store)?;
        self.away[store as usize] = true;
        Ok(true)
    }
}

/// Whether the number stands in the list.
pub(crate) fn holds(list: &[u32], number: u32) -> bool
    ensures { result ≡ has number list.now }
{
    list.contains(&number)
}

/// Whether the lock is greater than each of these.
pub(crate) fn is_above(lock: u32, held: &[u32]) -> bool
    ensures { Decides result (AllBelow lock held.now) }
{
    for other in held.iter() {
        if *other >= lock {
            return false;
        }
    }
    true
}
