//! All stripes, for a call that may touch any key.
ghost use Rattle.std.specs.Prelude.{◌<◌, []};
ghost use Rattle.tk_core.specs.Caller.{weight};
ghost use Rattle.tk_dbm.specs.AllKeys.{falling_from, LocksOnly};
ghost use Rattle.tk_dbm.specs.Dbm.{its, view, IsPassAt};

use crate::dbm::Dbm;
use crate::pass::Pass;
use std::sync::Wait;
use tk_store::SeqStore;

impl<S: SeqStore> Dbm<S> {
    /// Takes all stripes, in rising order.
    pub(crate) fn take_all_stripes<R: Wait>(&self, rt: &R, pass: &mut Pass)
        requires own { IsPassAt S.lawful S.stands S.store_view S.constants [] self.now pass.old }
        requires weighs { 0 < weight (view pass.old).caller }
        ensures own { IsPassAt S.lawful S.stands S.store_view S.constants
            (falling_from (its self.now).frame.stripes) self.now pass.new }
        ensures kept { LocksOnly (view pass.old) (view pass.new) }
    {
        let mut i = 0;
        while i < self.frame.stripes {
            self.table.take_stripe(rt, &mut pass.token, i);
            i += 1;
        }
    }

    /// Gives all stripes back, which are all locks that the pass holds.
    pub(crate) fn give_all_stripes(&self, pass: &mut Pass)
        requires own { IsPassAt S.lawful S.stands S.store_view S.constants
            (falling_from (its self.now).frame.stripes) self.now pass.old }
        ensures own { IsPassAt S.lawful S.stands S.store_view S.constants [] self.now pass.new }
        ensures kept { LocksOnly (view pass.old) (view pass.new) }
    {
        let mut i = self.frame.stripes;
        while i > 0 {
            i -= 1;
            self.table.give_stripe(&mut pass.token, i);
        }
    }
}
