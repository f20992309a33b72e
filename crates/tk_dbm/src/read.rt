//! The value of a key whose stripe is held.
ghost use Rattle.std.specs.Prelude.{◌≡◌, ◌<◌, ◌≤◌, true, Some, None, IfOk, IfErr, OnOk};
ghost use Rattle.tk_store.specs.Store.{Gives, HasCause};
ghost use Rattle.tk_status.specs.declared.Status.TheVariants.{System};
ghost use Rattle.tk_model.specs.Counts.{Rose};
ghost use Rattle.tk_core.specs.Covers.{store_of, store_lock};
ghost use Rattle.tk_core.specs.Lists.{has};
ghost use Rattle.tk_core.specs.Rule.{known};
ghost use Rattle.tk_locks.specs.Calls.{IsPassOf, view as view_of};
ghost use Rattle.tk_locks.specs.Made.{Fresh};
ghost use Rattle.tk_locks.specs.View.{noted, marked};
ghost use Rattle.tk_locks.specs.Rule.{count_at};
ghost use Rattle.tk_dbm.specs.Parts.{MayVisit, IsOut, GaveUp, Rests, Stopped};
ghost use Rattle.tk_dbm.specs.Dbm.{its, setting, view, IsPassAt};

use crate::answer::Answer;
use crate::dbm::Dbm;
use crate::pass::Pass;
use std::sync::Wait;
use tk_locks::Home;
use tk_model::Bytes;
use tk_status::Status;
use tk_store::{SeqStore, StoreError};

impl<S: SeqStore> Dbm<S> {
    /// A call that ends without a number: the history is looked at, and the store goes back.
    pub(crate) fn refuse(&self, pass: &mut Pass, i: u32, home: Home<S>, status: Status) -> Answer
        requires own { IsPassOf self.now.table pass.old.token }
        requires out { IsOut S.lawful S.stands S.store_view S.constants S.fault_count
            (its self.now) i (view pass.old) home }
        ensures own { IsPassOf self.now.table pass.new.token }
        ensures answer { result ≡ record { status = status; number = None } }
        ensures step { GaveUp S.lawful S.stands S.store_view S.constants S.fault_count
            (its self.now) i (view pass.old) home (view pass.new) }
    {
        self.table.look(&mut pass.token);
        self.table.give_store(&mut pass.token, i, home);
        Answer::refused(status)
    }

    /// A call that ends without a number because its store failed.
    pub(crate) fn fail(&self, pass: &mut Pass, i: u32, mut home: Home<S>) -> Answer
        requires own { IsPassOf self.now.table pass.old.token }
        requires holds { (i < (its self.now).frame.stores)
            × (has (store_lock (its self.now).frame i) (view pass.old).caller.held ≡ true) }
        requires whole { marked i (view pass.old).marks ≡ None }
        requires begun { count_at S.fault_count (its self.now).start i
            ≤ noted i (view pass.old).counts }
        requires rose { Rose (noted i (view pass.old).counts) (S.fault_count home.store)
            × (noted i (view pass.old).counts ≤ S.fault_count home.store) }
        ensures own { IsPassOf self.now.table pass.new.token }
        ensures answer { result ≡ record {
          status = System (S.fault_count home.store);
          number = None;
        } }
        ensures step { GaveUp S.lawful S.stands S.store_view S.constants S.fault_count
            (its self.now) i (view pass.old)
            (record { store = home.store; broken = Some (S.fault_count home.store) })
            (view pass.new) }
    {
        let faults = home.store.faults();
        home.broken = Some(faults);
        self.refuse(pass, i, home, Status::System { faults })
    }

    /// What the store answers while it is out.
    fn value(
        &self,
        token: &tk_locks::Pass,
        i: u32,
        home: &mut Home<S>,
        key: &[u8],
        out: &mut Bytes,
    ) -> Result<bool, StoreError>
        requires fresh { Fresh S.lawful S.stands S.store_view S.constants (its self.now).frame
            (its self.now).start }
        requires key { store_of (its self.now).frame key.now ≡ i }
        requires whole { home.old.broken ≡ None }
        requires out { IsOut S.lawful S.stands S.store_view S.constants S.fault_count
            (its self.now) i (view_of token.now) home.old }
        ensures whole { home.new.broken ≡ None }
        ensures out { IsOut S.lawful S.stands S.store_view S.constants S.fault_count
            (its self.now) i (view_of token.now) home.new }
        ensures value { (setting S.lawful S.store_view S.fault_count self.now).tells i ≡ true
            → IfOk result (Gives (known (its self.now).frame
            (setting S.lawful S.store_view S.fault_count self.now).first
            (view_of token.now).caller key.now) out.old out.new) }
        ensures cause { HasCause (S.fault_count home.old.store) (S.fault_count home.new.store)
            result }
    {
        let _ = token;
        let _ = i;
        home.store.get(key, out)
    }

    /// Takes the key's store, reads into the pass's room, and gives the store back. The answer tells whether there is a value.
    pub(crate) fn read<R: Wait>(
        &self,
        rt: &R,
        pass: &mut Pass,
        i: u32,
        key: &[u8],
    ) -> Result<bool, Answer>
        requires own { IsPassAt S.lawful S.stands S.store_view S.constants
            (view pass.old).caller.held self.now pass.old }
        requires visit { MayVisit (its self.now).frame i (view pass.old).caller }
        requires key { store_of (its self.now).frame key.now ≡ i }
        ensures own { IsPassAt S.lawful S.stands S.store_view S.constants
            (view pass.old).caller.held self.now pass.new }
        ensures rests { OnOk result (Rests (setting S.lawful S.store_view S.fault_count self.now)
            i (view pass.old) (view pass.new)) }
        ensures value { (setting S.lawful S.store_view S.fault_count self.now).tells i ≡ true
            → IfOk result (Gives (known (its self.now).frame
            (setting S.lawful S.store_view S.fault_count self.now).first (view pass.new).caller
            key.now) pass.old.room pass.new.room) }
        ensures stopped { IfErr result (λ a. Stopped
            (setting S.lawful S.store_view S.fault_count self.now) i (view pass.old) a
            (view pass.new)) }
    {
        let mut home = self.table.take_store(rt, &mut pass.token, i);
        if let Some(faults) = home.broken {
            return Err(self.refuse(pass, i, home, Status::Broken { faults }));
        }
        match self.value(&pass.token, i, &mut home, key, &mut pass.room) {
            Ok(found) => {
                self.table.give_store(&mut pass.token, i, home);
                Ok(found)
            }
            Err(StoreError::Fault) => Err(self.fail(pass, i, home)),
            Err(_) => Err(self.refuse(pass, i, home, Status::NoMemory)),
        }
    }
}
