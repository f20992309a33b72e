//! Lists of moves.
ghost use Rattle.std.specs.Prelude.{◌≡◌, ◌≤◌, ℕ, true, length, take, IfOk, IfErr};
ghost use Rattle.tk_core.specs.Commits.{records_of};
ghost use Rattle.tk_core.specs.Program.{IsAnswer, state_of};
ghost use Rattle.tk_core.specs.Rings.{HasNoRing};
ghost use Rattle.tk_core.specs.States.{IsSound};
ghost use Rattle.tk_core.specs.Steps.{Runs, RunsFar};

use crate::commit::replay;
use crate::{Core, Move, MoveList};
use std::alloc::Global;
use tk_model::{NoMemory, PlainMap};

impl Core {
    /// Does one move; the records are those after the whole history.
    fn step(&mut self, alloc: Global, records: &mut PlainMap, next: &Move) -> Result<bool, NoMemory>
        requires { records.old ≡ records_of self.old }
        ensures answer { IfOk result (λ done. IsAnswer next.now self.old self.new done) }
        ensures records { IfOk result (λ done. done ≡ true → records.new ≡ records_of self.new) }
        ensures want { IfErr result (λ e. self.new ≡ self.old) }
    {
        match next {
            Move::Take { caller, lock } => self.take(*caller, *lock),
            Move::Miss { caller, lock } => Ok(self.miss(*caller, *lock)),
            Move::Commit { caller, entry } => self.commit(records, *caller, entry),
            Move::Give { caller, lock } => self.give(*caller, *lock),
            Move::Look { caller } => Ok(self.look(*caller)),
            Move::Out { caller, store } => self.take_out(*caller, *store),
            Move::Back {
                caller,
                store,
                broken,
            } => self.put_back(*caller, *store, *broken),
            Move::Split { caller } => self.split(alloc, *caller),
            Move::Join { caller, other } => self.join(*caller, *other),
        }
    }

    /// Does the moves in order, stops at the first that isn't allowed, and answers how many were done.
    pub fn run(&mut self, alloc: Global, moves: &MoveList) -> Result<u64, NoMemory>
        ensures frame { self.new.frame ≡ self.old.frame }
        ensures far { IfOk result (λ n. RunsFar self.old.frame moves.now (state_of self.old)
            (state_of self.new) n) }
        ensures want { IfErr result (λ e. (n : ℕ) × (n ≤ length moves.now)
            × Runs self.old.frame (take n moves.now) (state_of self.old) (state_of self.new)) }
        ensures sound { IsSound self.new.frame (state_of self.new) }
        ensures no_ring { HasNoRing self.new.callers }
    {
        let mut records = replay(alloc, self.frame.order, &self.log)?;
        let mut done = 0;
        for next in moves.as_slice() {
            if !self.step(alloc, &mut records, next)? {
                return Ok(done);
            }
            done += 1;
        }
        Ok(done)
    }
}
