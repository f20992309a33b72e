//! One call of a processor on one record.
ghost use Rattle.std.specs.Prelude.{◌≡◌, ◌≤◌, ◌<◌, ℕ, List, true, Option, Some, None, is_some};
ghost use Rattle.std.specs.Prelude.{length, IfOk, if◌then◌else◌};
ghost use Rattle.tk_status.specs.declared.Status.TheVariants.{NoMemory as no_memory};
ghost use Rattle.tk_proc.specs.Runs.{counted, unless_long, status_unless_long, action_changes};
ghost use Rattle.tk_core.specs.Covers.{store_of, stripe_lock};
ghost use Rattle.tk_core.specs.Lists.{has};
ghost use Rattle.tk_core.specs.Rule.{known};
ghost use Rattle.tk_dbm.specs.Parts.{MayVisit, Quiet, MadeNothing};
ghost use Rattle.tk_dbm.specs.Setting.{uses_key};
ghost use Rattle.tk_dbm.specs.Calls.{Ends, Called};
ghost use Rattle.tk_dbm.specs.Room.{IsFull, AllHaveRoom};
ghost use Rattle.tk_dbm.specs.OneKey.{key_entry, key_status, picked_entry, Turned};
ghost use Rattle.tk_dbm.specs.Dbm.{its, setting, view, writes, IsPassAt, IsIdleOf, AllKeepLaw};

use crate::answer::Answer;
use crate::dbm::Dbm;
use crate::pass::Pass;
use crate::picked::Picked;
use std::alloc::Global;
use std::marker::Brand;
use std::sync::Wait;
use tk_hashnum::{mix, shard, stripe};
use tk_model::{Action, Bytes, Change, ChangeList, NoMemory, Pair};
use tk_proc::{RecordProcessor, ask};
use tk_status::Status;
use tk_store::SeqStore;

/// The longest value that a call stores.
const VALUE_LIMIT: usize = 16_777_215;

/// What an action counts as, and what the call answers.
fn counted_action(action: Action, writable: bool) -> (Action, Status)
    ensures action { result.0 ≡ unless_long (counted writable action) }
    ensures status { result.1 ≡ status_unless_long (counted writable action) }
{
    match action {
        Action::Put(value) if writable && value.len() > VALUE_LIMIT => {
            let length = value.len() as u64;
            (Action::Keep, Status::TooLong { length })
        }
        action if writable => (action, Status::Success),
        _ => (Action::Keep, Status::Success),
    }
}

/// The net change that an action makes of a record.
fn changes_of(
    alloc: Global,
    key: &[u8],
    found: bool,
    action: Action,
) -> Result<ChangeList, NoMemory>
    ensures { (was : Option (List ℕ)) → is_some was ≡ found
        → IfOk result (λ cs. cs ≡ action_changes key.now was action) }
{
    let mut changes = ChangeList::new(alloc);
    match action {
        Action::Put(value) => {
            let key = Bytes::from_slice(alloc, key)?;
            changes.push(Change::Put(Pair { key, value }))?;
        }
        Action::Drop if found => changes.push(Change::Drop(Bytes::from_slice(alloc, key)?))?,
        Action::Drop | Action::Keep => {}
    }
    Ok(changes)
}

impl<S: SeqStore> Dbm<S> {
    /// One call of a processor on one record. Calls on keys of different stripes don't wait for each other's processors.
    pub fn process<P: RecordProcessor, R: Wait>(
        &self,
        rt: &R,
        pass: &mut Pass,
        key: &[u8],
        p: &mut P,
        writable: bool,
    ) -> Answer
        requires own { IsIdleOf S.lawful S.stands S.store_view S.constants self.now pass.old }
        requires key { length key.now ≤ 65535 }
        requires law { AllKeepLaw (setting S.lawful S.store_view S.fault_count self.now)
            (key_entry P.acts P.turns (setting S.lawful S.store_view S.fault_count self.now)
            writable p.old key.now) }
        ensures own { IsIdleOf S.lawful S.stands S.store_view S.constants self.now pass.new }
        ensures called { Called (setting S.lawful S.store_view S.fault_count self.now)
            (IsFull S.stands S.store_view S.constants (its self.now))
            (AllHaveRoom S.stands S.store_view S.constants (its self.now))
            writable (uses_key (setting S.lawful S.store_view S.fault_count self.now) key.now)
            (key_status P.acts P.turns (setting S.lawful S.store_view S.fault_count self.now)
            writable p.old key.now)
            (key_entry P.acts P.turns (setting S.lawful S.store_view S.fault_count self.now)
            writable p.old key.now)
            (view pass.old) result (view pass.new) }
        ensures turned { Turned P.acts P.turns (setting S.lawful S.store_view S.fault_count self.now)
            p.old key.now (view pass.new) result.number p.new }
    {
        if writable && !self.writable {
            return Answer::refused(Status::Precondition);
        }
        if pass.allowance() == 0 {
            return Answer::refused(Status::Limit);
        }
        let hash = mix(key);
        let lock = stripe(hash, self.frame.stripes);
        self.table.take_stripe(rt, &mut pass.token, lock);
        let i = shard(hash, self.frame.stores);
        let answer = self.process_in(rt, pass, i, key, p, writable);
        self.table.give_stripe(&mut pass.token, lock);
        pass.trim(self.alloc);
        answer
    }

    /// The call, under its stripe's lock.
    fn process_in<P: RecordProcessor, R: Wait>(
        &self,
        rt: &R,
        pass: &mut Pass,
        i: u32,
        key: &[u8],
        p: &mut P,
        writable: bool,
    ) -> Answer
        requires own { IsPassAt S.lawful S.stands S.store_view S.constants
            (view pass.old).caller.held self.now pass.old }
        requires visit { MayVisit (its self.now).frame i (view pass.old).caller }
        requires key { (store_of (its self.now).frame key.now ≡ i) × (length key.now ≤ 65535)
            × (has (stripe_lock (its self.now).frame key.now) (view pass.old).caller.held
            ≡ true) }
        requires writes { writable ≡ true → writes self.now ≡ true }
        requires allowance { 0 < (view pass.old).caller.allowance }
        requires law { AllKeepLaw (setting S.lawful S.store_view S.fault_count self.now)
            (key_entry P.acts P.turns (setting S.lawful S.store_view S.fault_count self.now)
            writable p.old key.now) }
        ensures own { IsPassAt S.lawful S.stands S.store_view S.constants
            (view pass.old).caller.held self.now pass.new }
        ensures ends { Ends (setting S.lawful S.store_view S.fault_count self.now)
            (IsFull S.stands S.store_view S.constants (its self.now))
            (AllHaveRoom S.stands S.store_view S.constants (its self.now))
            writable (uses_key (setting S.lawful S.store_view S.fault_count self.now) key.now)
            (key_status P.acts P.turns (setting S.lawful S.store_view S.fault_count self.now)
            writable p.old key.now)
            (key_entry P.acts P.turns (setting S.lawful S.store_view S.fault_count self.now)
            writable p.old key.now)
            (view pass.old) result (view pass.new) }
        ensures turned { Turned P.acts P.turns (setting S.lawful S.store_view S.fault_count self.now)
            p.old key.now (view pass.new) result.number p.new }
    {
        match self.read(rt, pass, i, key) {
            Ok(found) => self.act::<P, R, Brand>(rt, pass, i, key, found, p, writable),
            Err(answer) => answer,
        }
    }

    /// Asks the processor about the value that was read, and does what it answers.
    fn act<P: RecordProcessor, R: Wait, J: Picked>(
        &self,
        rt: &R,
        pass: &mut Pass,
        i: u32,
        key: &[u8],
        found: bool,
        p: &mut P,
        writable: bool,
    ) -> Answer
        requires own { IsPassAt S.lawful S.stands S.store_view S.constants
            (view pass.old).caller.held self.now pass.old }
        requires visit { MayVisit (its self.now).frame i (view pass.old).caller }
        requires key { (store_of (its self.now).frame key.now ≡ i) × (length key.now ≤ 65535)
            × (has (stripe_lock (its self.now).frame key.now) (view pass.old).caller.held
            ≡ true) }
        requires writes { writable ≡ true → writes self.now ≡ true }
        requires allowance { 0 < (view pass.old).caller.allowance }
        requires entry { J.entry ≡ picked_entry P.acts P.turns
            (setting S.lawful S.store_view S.fault_count self.now) writable p.old key.now i
            (view pass.old).caller }
        requires value { (setting S.lawful S.store_view S.fault_count self.now).tells i ≡ true
            → if found then Some pass.old.room else None ≡ known (its self.now).frame
            (setting S.lawful S.store_view S.fault_count self.now).first (view pass.old).caller
            key.now }
        requires law { AllKeepLaw (setting S.lawful S.store_view S.fault_count self.now)
            (key_entry P.acts P.turns (setting S.lawful S.store_view S.fault_count self.now)
            writable p.old key.now) }
        ensures own { IsPassAt S.lawful S.stands S.store_view S.constants
            (view pass.old).caller.held self.now pass.new }
        ensures ends { Ends (setting S.lawful S.store_view S.fault_count self.now)
            (IsFull S.stands S.store_view S.constants (its self.now))
            (AllHaveRoom S.stands S.store_view S.constants (its self.now))
            writable (uses_key (setting S.lawful S.store_view S.fault_count self.now) key.now)
            (key_status P.acts P.turns (setting S.lawful S.store_view S.fault_count self.now)
            writable p.old key.now)
            (key_entry P.acts P.turns (setting S.lawful S.store_view S.fault_count self.now)
            writable p.old key.now)
            (view pass.old) result (view pass.new) }
        ensures turned { Turned P.acts P.turns (setting S.lawful S.store_view S.fault_count self.now)
            p.old key.now (view pass.new) result.number p.new }
    {
        let was = found.then_some(pass.room.as_slice());
        let Ok(action) = ask(p, key, was) else {
            return self.give_up(pass);
        };
        let (action, status) = counted_action(action, writable);
        let Ok(changes) = changes_of(self.alloc, key, found, action) else {
            return self.give_up(pass);
        };
        if changes.is_empty() {
            return self.keep::<J>(pass, status);
        }
        self.change::<R, J>(rt, pass, i, &changes)
    }

    /// Memory was wanting between two takings of the store.
    fn give_up(&self, pass: &mut Pass) -> Answer
        requires own { IsPassAt S.lawful S.stands S.store_view S.constants
            (view pass.old).caller.held self.now pass.old }
        ensures own { IsPassAt S.lawful S.stands S.store_view S.constants
            (view pass.old).caller.held self.now pass.new }
        ensures answer { result ≡ record { status = no_memory; number = None } }
        ensures quiet { Quiet (view pass.old) (view pass.new) }
        ensures nothing { MadeNothing (its self.now).frame
            (setting S.lawful S.store_view S.fault_count self.now).first
            (view pass.old).caller (view pass.new).caller }
    {
        self.table.look(&mut pass.token);
        Answer::refused(Status::NoMemory)
    }
}
