//! A change of one key whose stripe is held and whose value is known.
ghost use Rattle.std.specs.Prelude.{◌≡◌, ◌≢◌, ◌⊎◌, ◌≤◌, [], true, Some, None, ℕ, OnOk};
ghost use Rattle.tk_model.specs.Records.{IsClearAlone};
ghost use Rattle.tk_store.specs.Store.{AllFitWithin, HasCause, OkOrFault, UnlessFault, TellsFull};
ghost use Rattle.tk_locks.specs.Calls.{IsPassOf};
ghost use Rattle.tk_locks.specs.Made.{Fresh};
ghost use Rattle.tk_locks.specs.Tells.{MayMake};
ghost use Rattle.tk_locks.specs.View.{noted, marked};
ghost use Rattle.tk_locks.specs.Rule.{count_at};
ghost use Rattle.tk_dbm.specs.Parts.{MayVisit, IsOut, IsReady, HasChanges, Quiet, MadeAt};
ghost use Rattle.tk_dbm.specs.Parts.{MadeThere, MayChange, Changed};
ghost use Rattle.tk_dbm.specs.Room.{IsFull, AllHaveRoom};
ghost use Rattle.tk_dbm.specs.Setting.{IsWritable};
ghost use Rattle.tk_dbm.specs.Dbm.{its, setting, view, writes, IsPassAt};

use crate::answer::Answer;
use crate::dbm::Dbm;
use crate::pass::Pass;
use crate::picked::{Entered, Picked};
use std::sync::Wait;
use tk_locks::Home;
use tk_model::ChangeList;
use tk_status::Status;
use tk_store::{SeqStore, StoreError};

impl<S: SeqStore> Dbm<S> {
    /// A call that changes nothing gets its number.
    pub(crate) fn keep<J: Picked>(&self, pass: &mut Pass, status: Status) -> Answer
        requires own { IsPassAt S.lawful S.stands S.store_view S.constants
            (view pass.old).caller.held self.now pass.old }
        requires may { MayMake S.lawful S.store_view (its self.now) J.entry
            (view pass.old).caller }
        ensures own { IsPassAt S.lawful S.stands S.store_view S.constants
            (view pass.old).caller.held self.now pass.new }
        ensures quiet { Quiet (view pass.old) (view pass.new) }
        ensures made { (n : ℕ) × (result ≡ record { status = status; number = Some n })
            × MadeAt (setting S.lawful S.store_view S.fault_count self.now) J.entry
            (view pass.old).caller (view pass.new).caller n }
    {
        let number = self.table.commit(&mut pass.token, &Entered::<J>::new());
        Answer {
            status,
            number: Some(number),
        }
    }

    /// Reserves the group in the store while it is out.
    pub(crate) fn reserve(
        &self,
        pass: &Pass,
        i: u32,
        home: &mut Home<S>,
        changes: &ChangeList,
    ) -> Result<(), StoreError>
        requires fresh { Fresh S.lawful S.stands S.store_view S.constants (its self.now).frame
            (its self.now).start }
        requires writable { IsWritable S.constants (its self.now) (writes self.now)
            × ((writes self.now ≡ true) ⊎ (changes.now ≡ [])) }
        requires whole { home.old.broken ≡ None }
        requires out { IsOut S.lawful S.stands S.store_view S.constants S.fault_count
            (its self.now) i (view pass.now) home.old }
        requires alone { IsClearAlone changes.now }
        requires fit { AllFitWithin 16777215 changes.now }
        ensures whole { home.new.broken ≡ None }
        ensures out { UnlessFault result (IsOut S.lawful S.stands S.store_view S.constants
            S.fault_count (its self.now) i (view pass.now) home.new) }
        ensures full { TellsFull (S.constants home.old.store) (S.store_view home.old.store)
            changes.now result }
        ensures reserved { OnOk result (S.reserved home.new.store changes.now) }
        ensures cause { HasCause (S.fault_count home.old.store) (S.fault_count home.new.store)
            result }
    {
        let _ = pass;
        let _ = i;
        home.store.reserve_group(changes)
    }

    /// Makes the reserved group in the store while it is out.
    pub(crate) fn apply(
        &self,
        pass: &Pass,
        i: u32,
        home: &mut Home<S>,
        number: u64,
    ) -> Result<(), StoreError>
        requires fresh { Fresh S.lawful S.stands S.store_view S.constants (its self.now).frame
            (its self.now).start }
        requires whole { home.old.broken ≡ None }
        requires ready { IsReady S.lawful S.stands S.store_view S.constants S.fault_count
            (its self.now) S.reserved i number (view pass.now) home.old.store }
        ensures whole { home.new.broken ≡ None }
        ensures out { OnOk result (IsOut S.lawful S.stands S.store_view S.constants
            S.fault_count (its self.now) i (view pass.now) home.new) }
        ensures cause { HasCause (S.fault_count home.old.store) (S.fault_count home.new.store)
            result }
        ensures answers { OkOrFault result }
    {
        let _ = pass;
        let _ = i;
        home.store.apply_reserved(number)
    }

    /// Draws the call's number, makes its group in the store, which is out, and gives the store back.
    fn make_call<J: Picked>(&self, pass: &mut Pass, i: u32, mut home: Home<S>) -> Answer
        requires own { IsPassOf self.now.table pass.old.token }
        requires fresh { Fresh S.lawful S.stands S.store_view S.constants (its self.now).frame
            (its self.now).start }
        requires whole { (home.broken ≡ None) × (marked i (view pass.old).marks ≡ None) }
        requires out { IsOut S.lawful S.stands S.store_view S.constants S.fault_count
            (its self.now) i (view pass.old) home }
        requires begun { count_at S.fault_count (its self.now).start i
            ≤ noted i (view pass.old).counts }
        requires may { MayMake S.lawful S.store_view (its self.now) J.entry
            (view pass.old).caller }
        requires ready { HasChanges S.lawful S.stands S.store_view S.constants S.fault_count
            (its self.now) S.reserved i J.entry (view pass.old).caller home.store }
        ensures own { IsPassOf self.now.table pass.new.token }
        ensures made { MadeThere S.lawful S.stands S.store_view S.constants S.fault_count
            (its self.now) J.entry i (view pass.old) result (view pass.new) }
    {
        let number = self.table.commit(&mut pass.token, &Entered::<J>::new());
        let made = self.apply(pass, i, &mut home, self.frame.base + number);
        let status = match made {
            Ok(()) => Status::Success,
            Err(_) => {
                let faults = home.store.faults();
                home.broken = Some(faults);
                Status::System { faults }
            }
        };
        self.table.give_store(&mut pass.token, i, home);
        Answer {
            status,
            number: Some(number),
        }
    }

    /// Takes the key's store, reserves the group, draws the number, makes the group, and gives the store back.
    pub(crate) fn change<R: Wait, J: Picked>(
        &self,
        rt: &R,
        pass: &mut Pass,
        i: u32,
        changes: &ChangeList,
    ) -> Answer
        requires own { IsPassAt S.lawful S.stands S.store_view S.constants
            (view pass.old).caller.held self.now pass.old }
        requires visit { MayVisit (its self.now).frame i (view pass.old).caller }
        requires may { MayChange (setting S.lawful S.store_view S.fault_count self.now) J.entry i
            changes.now (view pass.old).caller }
        requires writes { writes self.now ≡ true }
        requires some { changes.now ≢ [] }
        requires alone { IsClearAlone changes.now }
        requires fit { AllFitWithin 16777215 changes.now }
        ensures own { IsPassAt S.lawful S.stands S.store_view S.constants
            (view pass.old).caller.held self.now pass.new }
        ensures changed { Changed (setting S.lawful S.store_view S.fault_count self.now)
            (IsFull S.stands S.store_view S.constants (its self.now))
            (AllHaveRoom S.stands S.store_view S.constants (its self.now)) i J.entry
            (view pass.old) result (view pass.new) }
    {
        let mut home = self.table.take_store(rt, &mut pass.token, i);
        if let Some(faults) = home.broken {
            return self.refuse(pass, i, home, Status::Broken { faults });
        }
        match self.reserve(pass, i, &mut home, changes) {
            Ok(()) => self.make_call::<J>(pass, i, home),
            Err(StoreError::Fault) => self.fail(pass, i, home),
            Err(StoreError::Full { size, need, limit }) => {
                self.refuse(pass, i, home, Status::Full { size, need, limit })
            }
            Err(StoreError::NoMemory) => self.refuse(pass, i, home, Status::NoMemory),
        }
    }
}
