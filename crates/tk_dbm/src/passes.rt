//! What passes have and know.
ghost use Rattle.std.specs.Prelude.{◌≡◌};
ghost use Rattle.tk_locks.specs.Steps.{left_half, right_half};
ghost use Rattle.tk_dbm.specs.Passes.{Looked, Joins};
ghost use Rattle.tk_dbm.specs.Dbm.{its, setting, view, IsIdleOf};

use crate::dbm::Dbm;
use crate::pass::Pass;
use tk_model::Order;
use tk_store::SeqStore;

impl<S: SeqStore> Dbm<S> {
    /// The order of the keys.
    pub fn order(&self) -> Order
        ensures { result ≡ (its self.now).frame.order }
    {
        self.frame.order
    }

    /// How many calls were made, all of which the pass has seen then.
    pub fn look(&self, pass: &mut Pass) -> u64
        requires own { IsIdleOf S.lawful S.stands S.store_view S.constants self.now pass.old }
        ensures own { IsIdleOf S.lawful S.stands S.store_view S.constants self.now pass.new }
        ensures seen { Looked (setting S.lawful S.store_view S.fault_count self.now)
            (view pass.old) result (view pass.new) }
    {
        self.table.look(&mut pass.token)
    }

    /// A second pass, with half of the allowance, rounded down.
    pub fn split(&self, pass: &mut Pass) -> Pass
        requires own { IsIdleOf S.lawful S.stands S.store_view S.constants self.now pass.old }
        ensures own { IsIdleOf S.lawful S.stands S.store_view S.constants self.now pass.new }
        ensures new { IsIdleOf S.lawful S.stands S.store_view S.constants self.now result }
        ensures left { view pass.new ≡ left_half (view pass.old) }
        ensures right { view result ≡ right_half (view pass.old) }
    {
        let token = self.table.split(&mut pass.token);
        Pass::new(self.alloc, token)
    }

    /// One pass of two.
    pub fn join(&self, pass: &mut Pass, other: Pass)
        requires own { IsIdleOf S.lawful S.stands S.store_view S.constants self.now pass.old }
        requires other { IsIdleOf S.lawful S.stands S.store_view S.constants self.now other }
        ensures own { IsIdleOf S.lawful S.stands S.store_view S.constants self.now pass.new }
        ensures joined { Joins (view pass.old) (view other) (view pass.new) }
    {
        self.table.join(&mut pass.token, other.token);
    }
}
