ghost use Rattle.std.specs.Prelude.{◌≡◌, ◌≤◌, ◌+◌, ◌++◌, ◌⊎◌, [], List, ℕ, Option, Some, None, true, false, length, IfSome, IfOk, OnOk, OnErr, sum_by, max};
ghost use Rattle.std.specs.Option.{is_some, option_map, option_copied};
ghost use Rattle.tk_model.specs.declared.record.Action.TheVariants.{Keep};
ghost use Rattle.tk_model.specs.declared.record.Group.{Group};
ghost use Rattle.tk_model.specs.Records.{find, after, IsClearAlone};
ghost use Rattle.tk_model.specs.Entries.{group_of, touched};
ghost use Rattle.tk_proc.specs.Runs.{unless_long, status_unless_long, action_changes};
ghost use Rattle.tk_store.specs.Store.{First, groups_made_by, floor_after, AllFitWithin, extent_of, HasCause, UnlessFault, OnFull, Keeps, KeepsSince, LeavesSafe, IsWhole, TellsFull, SameContents, OnlyLooks};
ghost use Rattle.tk_store.specs.OneRecord.{call_changes, TurnsTo, TellsFullOfChanges};

use crate::{SeqStore, StoreError};
use std::alloc::Global;
use tk_model::{Action, Bytes, Change, ChangeList, ListOf, NoMemory, Pair};
use tk_proc::{RecordProcessor, ask};
use tk_status::Status;

/// The longest value that a call stores.
const VALUE_LIMIT: usize = 16_777_215;

/// The net change that an action makes of a record.
fn changes_of(
    alloc: Global,
    key: &[u8],
    was: Option<&[u8]>,
    action: Action,
) -> Result<ChangeList, NoMemory>
    requires { length key.now ≤ 65535 }
    ensures net { IfOk result (λ cs. cs ≡ action_changes key.now (option_copied was.entry)
        (unless_long action)) }
    ensures fit { IfOk result (AllFitWithin 16777215) }
    ensures alone { IfOk result IsClearAlone }
{
    let mut changes = ListOf::new(alloc);
    match action {
        Action::Keep => {}
        Action::Put(value) => {
            if value.len() <= VALUE_LIMIT {
                let key = Bytes::from_slice(alloc, key)?;
                changes.push(Change::Put(Pair { key, value }))?;
            }
        }
        Action::Drop => {
            if was.is_some() {
                changes.push(Change::Drop(Bytes::from_slice(alloc, key)?))?;
            }
        }
    }
    Ok(changes)
}

fn status_of(action: &Action) -> Status
    ensures { result ≡ status_unless_long action.now }
{
    match action {
        Action::Put(value) if value.len() > VALUE_LIMIT => Status::TooLong {
            length: value.len() as u64,
        },
        Action::Keep | Action::Put(_) | Action::Drop => Status::Success,
    }
}

/// Reserves a group and makes it, where there are changes.
fn put_changes<S: SeqStore>(
    store: &mut S,
    changes: &ChangeList,
    number: u64,
) -> Result<(), StoreError>
    requires whole { IsWhole S.stands store.old }
    requires open { (S.store_view store.old).closed ≡ false }
    requires alone { IsClearAlone changes.now }
    requires fit { AllFitWithin 16777215 changes.now }
    requires may { (changes.now ≡ []) ⊎ (((S.constants store.old).writable ≡ true)
        × ((S.store_view store.old).floor ≤ number)) }
    ensures map { OnOk result ((S.store_view store.new).map ≡ option_map
        (after (S.constants store.old).order changes.now) (S.store_view store.old).map) }
    ensures floor { OnOk result ((S.store_view store.new).floor ≡ floor_after
        (S.store_view store.old).floor (group_of number changes.now)) }
    ensures next { UnlessFault result ((S.store_view store.new).floor ≤ max
        (S.store_view store.old).floor (number + 1)) }
    ensures size { (v : ℕ) → (S.constants store.old).extents ≡ Some v
        → OnOk result ((S.store_view store.new).size ≡ (S.store_view store.old).size + sum_by
        (extent_of v) changes.now) }
    ensures stands { (first : First) (since : List Group) (hard : ℕ)
        → S.stands store.old first since hard
        → OnOk result (S.stands store.new first (since ++ group_of number changes.now) hard) }
    ensures since { (t n : ℕ) (first : First) (since : List Group) (hard : ℕ)
        → S.kept_since store.old t n first since hard
        → OnOk result (S.kept_since store.new t n first (since ++ group_of number changes.now)
        hard) }
    ensures safe { LeavesSafe S.kept_since S.safe (group_of number changes.now) store.old
        store.new }
    ensures told { is_some (S.store_view store.new).map ≡ is_some (S.store_view store.old).map }
    ensures full { TellsFullOfChanges (S.constants store.old) (S.store_view store.old) changes.now
        result }
    ensures whole { UnlessFault result (IsWhole S.stands store.new) }
    ensures refused { OnErr result (UnlessFault result (Keeps S.stands store.old store.new
        × KeepsSince S.kept_since store.old store.new × SameContents (S.store_view store.old)
        (S.store_view store.new))) }
    ensures unchanged { OnFull result (S.store_view store.new ≡ S.store_view store.old) }
    ensures same { changes.now ≡ [] → store.new ≡ store.old }
    ensures constants { S.constants store.new ≡ S.constants store.old }
    ensures open { (S.store_view store.new).closed ≡ false }
    ensures time { S.moment store.old ≤ S.moment store.new }
    ensures taken { S.taken_count store.old ≤ S.taken_count store.new }
    ensures cause { HasCause (S.fault_count store.old) (S.fault_count store.new) result }
{
    if changes.is_empty() {
        return Ok(());
    }
    store.reserve_group(changes)?;
    store.apply_reserved(number)
}

/// One call of a processor on one record.
pub fn run_on<S: SeqStore, P: RecordProcessor>(
    alloc: Global,
    store: &mut S,
    number: u64,
    key: &[u8],
    p: &mut P,
) -> Result<Status, StoreError>
    requires whole { IsWhole S.stands store.old }
    requires open { (S.store_view store.old).closed ≡ false }
    requires key { length key.now ≤ 65535 }
    requires may { ((was : Option (List ℕ)) → P.acts p.old key.now was ≡ Keep)
        ⊎ (((S.constants store.old).writable ≡ true) × ((S.store_view store.old).floor ≤ number)) }
    ensures status { IfSome (S.store_view store.old).map
        (λ m. IfOk result (λ s. s ≡ status_unless_long (P.acts p.old key.now (find key.now m)))) }
    ensures turned { IfSome (S.store_view store.old).map (λ m. TurnsTo result p.old
        (P.turns p.old key.now (find key.now m)) p.new) }
    ensures map { IfSome (S.store_view store.old).map
        (λ m. OnOk result ((S.store_view store.new).map ≡ Some
        (touched (S.constants store.old).order key.now
        (unless_long (P.acts p.old key.now (find key.now m))) m))) }
    ensures floor { IfSome (S.store_view store.old).map (λ m.
        OnOk result ((S.store_view store.new).floor ≡ floor_after (S.store_view store.old).floor (group_of number (call_changes P.acts p.old key.now m)))) }
    ensures next { UnlessFault result ((S.store_view store.new).floor ≤ max
        (S.store_view store.old).floor (number + 1)) }
    ensures size { IfSome (S.store_view store.old).map (λ m. (v : ℕ)
        → (S.constants store.old).extents ≡ Some v
        → OnOk result ((S.store_view store.new).size ≡ (S.store_view store.old).size + sum_by
        (extent_of v) (call_changes P.acts p.old key.now m))) }
    ensures stands { IfSome (S.store_view store.old).map (λ m. (first : First) (since : List Group)
        (hard : ℕ) → S.stands store.old first since hard
        → OnOk result
        (S.stands store.new first (since ++ group_of number (call_changes P.acts p.old key.now m))
        hard)) }
    ensures since { IfSome (S.store_view store.old).map (λ m. (t n : ℕ) (first : First)
        (since : List Group) (hard : ℕ) → S.kept_since store.old t n first since hard
        → OnOk result (S.kept_since store.new t n first
        (since ++ group_of number (call_changes P.acts p.old key.now m)) hard)) }
    ensures safe { IfSome (S.store_view store.old).map (λ m. LeavesSafe S.kept_since S.safe
        (group_of number (call_changes P.acts p.old key.now m)) store.old store.new) }
    ensures told { is_some (S.store_view store.new).map ≡ is_some (S.store_view store.old).map }
    ensures full { IfSome (S.store_view store.old).map
        (λ m. TellsFullOfChanges (S.constants store.old) (S.store_view store.old)
        (call_changes P.acts p.old key.now m) result) }
    ensures whole { UnlessFault result (IsWhole S.stands store.new) }
    ensures refused { OnErr result (UnlessFault result (Keeps S.stands store.old store.new
        × KeepsSince S.kept_since store.old store.new × SameContents (S.store_view store.old)
        (S.store_view store.new))) }
    ensures unchanged { OnFull result (S.store_view store.new ≡ S.store_view store.old) }
    ensures looks { IfSome (S.store_view store.old).map (λ m. call_changes P.acts p.old key.now m
        ≡ [] →
        OnlyLooks S.constants S.store_view S.stands S.kept_since S.untouched S.moment S.taken_count store.old store.new) }
    ensures reads { (S.constants store.old).writable ≡ false → S.untouched store.old store.new }
    ensures constants { S.constants store.new ≡ S.constants store.old }
    ensures open { (S.store_view store.new).closed ≡ false }
    ensures time { S.moment store.old ≤ S.moment store.new }
    ensures taken { S.taken_count store.old ≤ S.taken_count store.new }
    ensures cause { HasCause (S.fault_count store.old) (S.fault_count store.new) result }
{
    let mut value = Bytes::new(alloc);
    let found = store.get(key, &mut value)?;
    let was = found.then_some(value.as_slice());
    let action = ask(p, key, was)?;
    let status = status_of(&action);
    let changes = changes_of(alloc, key, was, action)?;
    put_changes(store, &changes, number)?;
    Ok(status)
}
