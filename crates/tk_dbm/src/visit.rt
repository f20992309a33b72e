//! A call that visits several stores, each while those before it are out.
ghost use Rattle.std.specs.Prelude.{◌≡◌, ◌⊎◌, ◌+◌, ◌<◌, ◌≤◌, ◌^◌, ◌++◌, ℕ, [], List, true, false};
ghost use Rattle.std.specs.Prelude.{length, Some, None, IfOk, OnOk};
ghost use Rattle.std.specs.Option.{is_some};
ghost use Rattle.tk_model.specs.declared.record.Pair.{Pair};
ghost use Rattle.tk_model.specs.declared.record.Group.{Group};
ghost use Rattle.tk_model.specs.Records.{find, Rising, IsClearAlone};
ghost use Rattle.tk_model.specs.Entries.{shard_records};
ghost use Rattle.tk_store.specs.Store.{First, AllFitWithin, HasCause, OkOrFault, UnlessFault};
ghost use Rattle.tk_store.specs.Store.{IsWhole, groups_made_by, floor_after};
ghost use Rattle.tk_core.specs.Covers.{Reads, store_lock};
ghost use Rattle.tk_core.specs.Lists.{has};
ghost use Rattle.tk_core.specs.Rule.{map_after, shard};
ghost use Rattle.tk_locks.specs.Calls.{IsPassOf};
ghost use Rattle.tk_locks.specs.Made.{Fresh};
ghost use Rattle.tk_locks.specs.Tells.{MayMake, Makes};
ghost use Rattle.tk_locks.specs.View.{noted, marked};
ghost use Rattle.tk_locks.specs.Rule.{Risen, count_at};
ghost use Rattle.tk_status.specs.declared.Status.TheVariants.{System};
ghost use Rattle.tk_dbm.specs.Parts.{IsOut, GaveUp};
ghost use Rattle.tk_dbm.specs.Setting.{IsWritable, records_at};
ghost use Rattle.tk_dbm.specs.Visiting.{stores_of, Climbs, AllUnbroken, MayAsk, AllFit, MayWork};
ghost use Rattle.tk_dbm.specs.Visiting.{MarksSuit, IsPrepared, TellsFullBy, IsSum, count_in, IsDue, work_at};
ghost use Rattle.tk_dbm.specs.Visiting.{OverBy, RoomBy, Visits, Settled};
ghost use Rattle.tk_dbm.specs.Dbm.{its, setting, view, writes, IsPassAt};

use crate::answer::Answer;
use crate::dbm::Dbm;
use crate::pass::Pass;
use crate::picked::{Asked, Entered, Picked};
use std::marker::Brand;
use std::sync::Wait;
use tk_locks::Home;
use tk_model::ChangeList;
use tk_status::Status;
use tk_store::{SeqStore, StoreError};

/// What a call does in each store that it visits.
#[derive(Clone, Copy)]
pub(crate) enum Work {
    Count,
    Sync { hard: bool },
    Change,
    /// The store stays as it is.
    Keep,
}

/// A store of a call, and what the call changes there.
#[derive(Drop)]
pub(crate) struct Part {
    pub(crate) store: u32,
    pub(crate) changes: ChangeList,
    /// The count of faults that the call saw of the store before.
    pub(crate) seen: Option<u64>,
}

/// What is done in the part's store: one where a call that changes records changes nothing stays as it is.
fn work_in(part: &Part, work: Work) -> Work
    ensures { result ≡ work_at work part.now.changes }
{
    match work {
        Work::Change if part.changes.is_empty() => Work::Keep,
        _ => work,
    }
}

/// Whether the count is above the one that was seen.
fn has_risen(seen: Option<u64>, faults: u64) -> bool
    ensures risen { result ≡ true → (q : ℕ) × (seen ≡ Some q) × (q < faults) }
    ensures same { result ≡ false → (q : ℕ) → seen ≡ Some q → faults ≤ q }
{
    match seen {
        Some(seen) => seen < faults,
        None => false,
    }
}

impl<S: SeqStore> Dbm<S> {
    /// What is done in the store before the number. The answer is the sum of the records, where they are counted.
    fn prepare(
        &self,
        pass: &Pass,
        work: Work,
        part: &Part,
        home: &mut Home<S>,
        sum: u64,
    ) -> Result<u64, StoreError>
        requires fresh { Fresh S.lawful S.stands S.store_view S.constants (its self.now).frame
            (its self.now).start }
        requires writable { IsWritable S.constants (its self.now) (writes self.now) }
        requires may { (writes self.now ≡ true) ⊎ (part.now.changes ≡ []) }
        requires whole { home.old.broken ≡ None }
        requires out { IsOut S.lawful S.stands S.store_view S.constants S.fault_count
            (its self.now) part.now.store (view pass.now) home.old }
        requires alone { IsClearAlone part.now.changes }
        requires fit { AllFitWithin 16777215 part.now.changes }
        ensures whole { home.new.broken ≡ None }
        ensures out { UnlessFault result (IsOut S.lawful S.stands S.store_view S.constants
            S.fault_count (its self.now) part.now.store (view pass.now) home.new) }
        ensures full { TellsFullBy work (S.constants home.old.store) (S.store_view home.old.store)
            part.now.changes result }
        ensures reserved { OnOk result (IsPrepared S.reserved work part.now.changes
            home.new.store) }
        ensures sum { (setting S.lawful S.store_view S.fault_count self.now).tells part.now.store
            ≡ true → IfOk result (IsSum work sum (length (shard_records
            (shard (its self.now).frame part.now.store) (map_after (its self.now).frame
            (setting S.lawful S.store_view S.fault_count self.now).first
            (view pass.now).caller.base)))) }
        ensures cause { HasCause (S.fault_count home.old.store) (S.fault_count home.new.store)
            result }
    {
        match work {
            Work::Count => match sum.checked_add(home.store.count()) {
                Some(sum) => Ok(sum),
                None => Err(StoreError::NoMemory),
            },
            Work::Sync { hard: false } | Work::Keep => Ok(sum),
            Work::Sync { hard: true } | Work::Change => {
                self.reserve(pass, part.store, home, &part.changes)?;
                Ok(sum)
            }
        }
    }

    /// Makes the reserved list without changes, and synchronises.
    fn sync_hard(&self, store: &mut S, number: u64) -> Result<(), StoreError>
        requires whole { IsWhole S.stands store.old }
        requires reserved { S.reserved store.old [] }
        requires open { (S.store_view store.old).closed ≡ false }
        requires number { (S.constants store.old).writable ≡ true → (S.store_view store.old).floor
            ≤ number }
        ensures stands { (first : First) (since : List Group) (hard : ℕ)
            → S.stands store.old first since hard
            → OnOk result (S.stands store.new first (since ++ groups_made_by
            (S.constants store.old) number [])
            (length (since ++ groups_made_by (S.constants store.old) number []))) }
        ensures floor { OnOk result ((S.store_view store.new).floor ≡ floor_after
            (S.store_view store.old).floor (groups_made_by (S.constants store.old) number [])) }
        ensures constants { S.constants store.new ≡ S.constants store.old }
        ensures tells { is_some (S.store_view store.new).map ≡ is_some
            (S.store_view store.old).map }
        ensures open { (S.store_view store.new).closed ≡ false }
        ensures cause { HasCause (S.fault_count store.old) (S.fault_count store.new) result }
        ensures answers { OkOrFault result }
    {
        store.apply_reserved(number)?;
        store.sync(true)
    }

    /// What is done in the store after the number.
    fn finish(
        &self,
        pass: &Pass,
        work: Work,
        i: u32,
        home: &mut Home<S>,
        number: u64,
    ) -> Result<(), StoreError>
        requires fresh { Fresh S.lawful S.stands S.store_view S.constants (its self.now).frame
            (its self.now).start }
        requires whole { home.old.broken ≡ None }
        requires marks { MarksSuit S.constants (its self.now) work }
        requires due { IsDue S.lawful S.stands S.store_view S.constants S.fault_count
            (its self.now) S.reserved work i number (view pass.now) home.old.store }
        ensures whole { home.new.broken ≡ None }
        ensures out { OnOk result (IsOut S.lawful S.stands S.store_view S.constants
            S.fault_count (its self.now) i (view pass.now) home.new) }
        ensures cause { HasCause (S.fault_count home.old.store) (S.fault_count home.new.store)
            result }
        ensures answers { OkOrFault result }
    {
        match work {
            Work::Count | Work::Keep => Ok(()),
            Work::Sync { hard: false } => home.store.sync(false),
            Work::Sync { hard: true } => self.sync_hard(&mut home.store, number),
            Work::Change => self.apply(pass, i, home, number),
        }
    }

    /// How the store is to be given back, after those behind it were visited.
    fn settle(&self, pass: &Pass, work: Work, i: u32, home: &mut Home<S>, answer: Answer) -> Status
        requires fresh { Fresh S.lawful S.stands S.store_view S.constants (its self.now).frame
            (its self.now).start }
        requires whole { (home.old.broken ≡ None) × (marked i (view pass.now).marks ≡ None) }
        requires holds { (i < (its self.now).frame.stores)
            × (has (store_lock (its self.now).frame i) (view pass.now).caller.held ≡ true)
            × (noted i (view pass.now).counts ≤ S.fault_count home.old.store) }
        requires begun { count_at S.fault_count (its self.now).start i
            ≤ S.fault_count home.old.store }
        requires marks { MarksSuit S.constants (its self.now) work }
        requires out { answer.number ≡ None → IsOut S.lawful S.stands S.store_view S.constants
            S.fault_count (its self.now) i (view pass.now) home.old }
        requires due { (n : ℕ) → answer.number ≡ Some n
            → IsDue S.lawful S.stands S.store_view S.constants S.fault_count (its self.now)
            S.reserved work i ((its self.now).frame.base + n) (view pass.now) home.old.store
            × (n < 2 ^ 62) }
        requires risen { (k : ℕ) → answer.status ≡ System k → Risen (its self.now).frame
            (count_at S.fault_count (its self.now).start) k }
        ensures out { IsOut S.lawful S.stands S.store_view S.constants S.fault_count
            (its self.now) i (view pass.now) home.new }
        ensures settled { Settled S.fault_count home.old.store answer home.new result }
    {
        if let Status::System { faults } = answer.status {
            home.broken = Some(faults);
            return answer.status;
        }
        let Some(number) = answer.number else {
            return answer.status;
        };
        match self.finish(pass, work, i, home, self.frame.base + number) {
            Ok(()) => answer.status,
            Err(_) => {
                let faults = home.store.faults();
                home.broken = Some(faults);
                Status::System { faults }
            }
        }
    }

    /// The number of the call of this entry.
    fn draw<J: Picked>(&self, pass: &mut Pass) -> u64
        requires own { IsPassOf self.now.table pass.old.token }
        requires may { MayMake S.lawful S.store_view (its self.now) J.entry
            (view pass.old).caller }
        ensures own { IsPassOf self.now.table pass.new.token }
        ensures step { Makes S.lawful S.store_view (its self.now) J.entry (view pass.old) result
            (view pass.new) }
    {
        self.table.commit(&mut pass.token, &Entered::<J>::new())
    }

    /// The call gets its number while its stores are out.
    fn number<J: Asked>(&self, pass: &mut Pass) -> Answer
        requires own { IsPassAt S.lawful S.stands S.store_view S.constants
            (view pass.old).caller.held self.now pass.old }
        requires may { MayMake S.lawful S.store_view (its self.now) (J.entry (map_after
            (its self.now).frame (setting S.lawful S.store_view S.fault_count self.now).first
            (view pass.old).caller.base)) (view pass.old).caller }
        requires alike { (m n : List Pair) → Rising (its self.now).frame.order m
            → Rising (its self.now).frame.order n
            → ((k : List ℕ) → Reads (its self.now).frame (view pass.old).caller.held k
            → find k m ≡ find k n) → J.entry m ≡ J.entry n }
        ensures own { IsPassAt S.lawful S.stands S.store_view S.constants
            (view pass.old).caller.held self.now pass.new }
        ensures visits { Visits (setting S.lawful S.store_view S.fault_count self.now)
            (λ _ _ _ _ _ _. ⊥) (λ _ _ _. Unit {0}) J.entry [] (view pass.old) result
            (view pass.new) }
    {
        let number = self.draw::<Brand>(pass);
        Answer {
            status: Status::Success,
            number: Some(number),
        }
    }

    /// A call that ends without a number because the store failed since the call saw it before.
    fn fail_since(&self, pass: &mut Pass, i: u32, mut home: Home<S>) -> Answer
        requires own { IsPassOf self.now.table pass.old.token }
        requires holds { (i < (its self.now).frame.stores)
            × (has (store_lock (its self.now).frame i) (view pass.old).caller.held ≡ true) }
        requires whole { marked i (view pass.old).marks ≡ None }
        requires counted { noted i (view pass.old).counts ≤ S.fault_count home.store }
        requires risen { Risen (its self.now).frame (count_at S.fault_count (its self.now).start)
            (S.fault_count home.store) }
        ensures own { IsPassOf self.now.table pass.new.token }
        ensures answer { result ≡ record {
          status = System (S.fault_count home.store);
          number = None;
        } }
        ensures step { GaveUp S.lawful S.stands S.store_view S.constants S.fault_count
            (its self.now) i (view pass.old)
            (record { store = home.store; broken = Some (S.fault_count home.store) })
            (view pass.new) }
    {
        let faults = home.store.faults();
        home.broken = Some(faults);
        self.refuse(pass, i, home, Status::System { faults })
    }

    /// Takes the first store, and gives it back when the others were visited. The answer's second part is the sum of the records, where they are counted.
    pub(crate) fn visit<R: Wait, J: Asked>(
        &self,
        rt: &R,
        pass: &mut Pass,
        work: Work,
        parts: &[Part],
        sum: u64,
    ) -> (Answer, u64)
        requires own { IsPassAt S.lawful S.stands S.store_view S.constants
            (view pass.old).caller.held self.now pass.old }
        requires climbs { Climbs (its self.now).frame (stores_of parts.now)
            (view pass.old).caller.held }
        requires unbroken { AllUnbroken (its self.now).frame (view pass.old).caller }
        requires ask { MayAsk (setting S.lawful S.store_view S.fault_count self.now) J.entry
            (stores_of parts.now) (view pass.old).caller }
        requires fit { AllFit (setting S.lawful S.store_view S.fault_count self.now) work J.entry
            (view pass.old) parts.now }
        requires may { MayWork work (writes self.now) }
        requires marks { MarksSuit S.constants (its self.now) work }
        ensures own { IsPassAt S.lawful S.stands S.store_view S.constants
            (view pass.old).caller.held self.now pass.new }
        ensures visits { Visits (setting S.lawful S.store_view S.fault_count self.now)
            (OverBy S.stands S.store_view S.constants (its self.now) work)
            (RoomBy S.stands S.store_view S.constants (its self.now) work) J.entry parts.now
            (view pass.old) result.0 (view pass.new) }
        ensures sum { (n : ℕ) → result.0.number ≡ Some n → ((i : ℕ) → has i (stores_of parts.now)
            ≡ true → (setting S.lawful S.store_view S.fault_count self.now).tells i ≡ true)
            → IsSum work sum (count_in (its self.now).frame (records_at
            (setting S.lawful S.store_view S.fault_count self.now) (view pass.new).caller n)
            (stores_of parts.now)) result.1 }
    {
        let Some((part, rest)) = parts.split_first() else {
            return (self.number::<J>(pass), sum);
        };
        let i = part.store;
        let mut home = self.table.take_store(rt, &mut pass.token, i);
        if let Some(faults) = home.broken {
            return (self.refuse(pass, i, home, Status::Broken { faults }), 0);
        }
        if has_risen(part.seen, home.store.faults()) {
            return (self.fail_since(pass, i, home), 0);
        }
        let here = work_in(part, work);
        match self.prepare(pass, here, part, &mut home, sum) {
            Ok(sum) => {
                let (answer, sum) = self.visit::<R, J>(rt, pass, work, rest, sum);
                let status = self.settle(pass, here, i, &mut home, answer);
                self.table.give_store(&mut pass.token, i, home);
                let number = answer.number;
                (Answer { status, number }, sum)
            }
            Err(StoreError::Fault) => (self.fail(pass, i, home), 0),
            Err(StoreError::Full { size, need, limit }) => {
                (
                    self.refuse(pass, i, home, Status::Full { size, need, limit }),
                    0,
                )
            }
            Err(StoreError::NoMemory) => (self.refuse(pass, i, home, Status::NoMemory), 0),
        }
    }
}
