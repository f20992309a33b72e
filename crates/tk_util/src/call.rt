//! One call on a file.
ghost use Rattle.std.specs.Prelude.{◌≡◌, ◌==◌, ◌⊎◌, ◌-◌, ◌<◌, ◌≤◌, ◌^◌, ◌++◌, ℕ, List, [], length, true, false, Option, IfOk, IfSome, OnOk, OnErr, Some, Err, if◌then◌else◌};
ghost use Rattle.std.specs.Option.{is_some};
ghost use Rattle.tk_model.specs.declared.record.Action.TheVariants.{Keep};
ghost use Rattle.tk_model.specs.declared.record.Group.{Group};
ghost use Rattle.tk_disk.specs.Crash.{Only};
ghost use Rattle.tk_disk.specs.Disk.{Rose};
ghost use Rattle.tk_util.specs.Counts.{HasCause};
ghost use Rattle.tk_util.specs.CutShort.{IsCutShortSince};
ghost use Rattle.tk_util.specs.Interrupted.{MayAdd, Interrupts};
ghost use Rattle.tk_store.specs.OneRecord.{call_changes};
ghost use Rattle.tk_model.specs.Records.{replay};
ghost use Rattle.tk_model.specs.declared.record.Order.TheVariants.{Hash};
ghost use Rattle.tk_append.specs.Log.{closed_text};
ghost use Rattle.tk_store.specs.Store.{IsWhole, LeavesSafe};
ghost use Rattle.tk_util.specs.declared.call.Stop.{Stop as Stopped};
ghost use Rattle.tk_util.specs.Calls.{Made, NoRoom, RefusedAt, MadeOn, NoRoomOn, StopTells, Spares, IsStill};
ghost use Rattle.tk_util.specs.Done.{CrashDone, counted_answer, CallCounts};
ghost use Rattle.tk_util.specs.Making.{AtEachMoment, IsUnmadeMoment};
ghost use Rattle.tk_hash.specs.Hash.{HashStands, HashSafe, HashKeptSince, HashUntouched, hash_disk, hash_head, hash_constants, hash_view, opening};

use std::alloc::Global;
use tk_disk::{Disk, DiskError};
use tk_hash::HashStore;
use tk_model::{OpenError, ShardOf};
use tk_proc::RecordProcessor;
use tk_status::Status;
use tk_store::{SeqStore, StoreError, run_on};

/// The longest file.
const LIMIT: u64 = 1 << 40;

/// Why a call was not made.
#[derive(Clone, Copy, Debug, PartialEq, Eq)]
pub(crate) enum Stop {
    /// The file is no hash file: the first place that fails.
    Refused { place: u64 },
    /// The file would pass the limit.
    Full,
    Fault,
    NoMemory,
}

impl From<DiskError> for Stop {
    ghost use Rattle.tk_util.specs.Done.{stop_of};

    ghost from_gives = { λ e stop. stop ≡ stop_of e };

    fn from(error: DiskError) -> Stop {
        match error {
            DiskError::Fault => Stop::Fault,
            DiskError::NoMemory => Stop::NoMemory,
        }
    }
}

/// A file after a call, and the call's answer.
pub(crate) struct Called<D> {
    pub disk: D,
    pub answer: Result<Status, Stop>,
}

/// What a call that stopped short answers where its disk counted a fault: that fault.
pub(crate) fn counted<T>(answer: Result<T, Stop>, before: u64, now: u64) -> Result<T, Stop>
    requires { HasCause Stop.Fault before now answer }
    ensures answer { result ≡ counted_answer (now == before) answer }
    ensures counts { CallCounts before now result }
{
    match answer {
        Ok(value) => Ok(value),
        Err(Stop::Full | Stop::NoMemory) if now != before => Err(Stop::Fault),
        Err(stop) => Err(stop),
    }
}

/// Why a call on a file that was not opened was not made.
pub(crate) fn unopened(cause: OpenError) -> Stop
    ensures { StopTells cause result }
{
    match cause {
        OpenError::NotADatabase => Stop::Refused { place: 0 },
        OpenError::BrokenAt(place) => Stop::Refused { place },
        OpenError::Fault => Stop::Fault,
        OpenError::NoMemory => Stop::NoMemory,
    }
}

/// Closes the store behind its call.
fn end_call<D: Disk>(store: &mut HashStore<D>, next: u64) -> Result<(), Stop>
    requires whole { IsWhole (HashStands D.image D.may_leave D.past) store.old }
    requires open { (hash_view D.image store.old).closed ≡ false }
    requires number { (hash_constants store.old).writable ≡ true
        → (hash_view D.image store.old).floor ≤ next }
    requires below { (hash_constants store.old).writable ≡ true → next < 2 ^ 64 - 1 }
    ensures file { (groups since : List Group) (hard : ℕ)
        → HashStands D.image D.may_leave D.past store.old (opening groups) since hard
        → OnOk result (IfSome (D.image (hash_disk store.old)) (λ _. D.image (hash_disk store.new)
        ≡ Some (if (hash_constants store.old).writable then closed_text (hash_head store.old)
        (groups ++ since) next else closed_text (hash_head store.old) groups
        (hash_constants store.old).next))) }
    ensures stops { (stop : Stopped) → result ≡ Err stop → stop ≡ Stop.Fault }
    ensures kept { OnOk result (D.fault_count (hash_disk store.new)
        ≡ D.fault_count (hash_disk store.old)) }
    ensures later { D.fault_count (hash_disk store.old) ≤ D.fault_count (hash_disk store.new) }
    ensures fault { OnErr result
        (Rose (D.fault_count (hash_disk store.old)) (D.fault_count (hash_disk store.new))) }
    ensures safe { LeavesSafe (HashKeptSince D.image D.may_leave D.past D.moment D.left_since
        D.left_with) (HashSafe D.image D.left_since D.left_with) [] store.old store.new }
    ensures durable { (hash_constants store.old).writable ≡ true
        → OnOk result (IfSome (D.image (hash_disk store.new)) (λ f.
        Only f (D.may_leave (hash_disk store.new)))) }
    ensures reads { (hash_constants store.old).writable ≡ false
        → HashUntouched D.image D.may_leave D.past D.moment D.left_since D.left_with store.old
        store.new }
    ensures constants { hash_constants store.new ≡ hash_constants store.old }
    ensures told { is_some (hash_view D.image store.new).map
        ≡ is_some (hash_view D.image store.old).map }
    ensures time { D.moment (hash_disk store.old) ≤ D.moment (hash_disk store.new) }
{
    match store.close(next) {
        Ok(()) => Ok(()),
        Err(_) => Err(Stop::Fault),
    }
}

/// Makes a call under the store's next number, and closes the store unless it failed.
#[tactic(auto, using(crate::proofs::Crashing::still_twice))]
fn call_on<D: Disk, P: RecordProcessor>(
    alloc: Global,
    store: &mut HashStore<D>,
    key: &[u8],
    p: &mut P,
) -> Result<Status, Stop>
    requires key { length key.now ≤ 65535 }
    requires begun { (groups : List Group)
        × HashStands D.image D.may_leave D.past store.old (opening groups) [] 0 }
    requires open { (hash_view D.image store.old).closed ≡ false }
    requires limit { (hash_constants store.old).limit ≡ 2 ^ 40 }
    requires low { (hash_constants store.old).writable ≡ true → (hash_constants store.old).next
        ≤ 2 ^ 62 }
    requires may { ((was : Option (List ℕ)) → P.acts p.old key.now was ≡ Keep)
        ⊎ ((hash_constants store.old).writable ≡ true) }
    ensures made { (groups : List Group)
        → HashStands D.image D.may_leave D.past store.old (opening groups) [] 0
        → IfSome (D.image (hash_disk store.old)) (λ _.
        IfOk result (MadeOn P.acts P.turns (hash_head store.old) groups (hash_constants store.old).next
        (hash_constants store.old).writable key.now p.old p.new (D.image (hash_disk store.new)))) }
    ensures no_room { (groups : List Group)
        → HashStands D.image D.may_leave D.past store.old (opening groups) [] 0
        → IfSome (D.image (hash_disk store.old)) (λ _.
        result ≡ Err Stop.Full → NoRoomOn P.acts (hash_head store.old) groups
        (hash_constants store.old).next key.now p.old (D.image (hash_disk store.new))) }
    ensures no_memory { (groups : List Group)
        → HashStands D.image D.may_leave D.past store.old (opening groups) [] 0
        → IfSome (D.image (hash_disk store.old)) (λ _.
        result ≡ Err Stop.NoMemory
        → D.image (hash_disk store.new)
        ≡ Some (closed_text (hash_head store.old) groups (hash_constants store.old).next)) }
    ensures taken { (place : ℕ) → result ≡ Err (Stop.Refused place) → ⊥ }
    ensures safe { (groups : List Group) (t : ℕ)
        → HashKeptSince D.image D.may_leave D.past D.moment D.left_since D.left_with store.old t 0
        (opening groups) [] 0
        → IfSome (D.image (hash_disk store.old)) (λ _.
        (since : List Group) × MayAdd (hash_constants store.old).next
        (call_changes P.acts p.old key.now (replay Hash groups [])) since
        × HashSafe D.image D.left_since D.left_with store.new t (opening groups) since 0) }
    ensures crash { (hash_constants store.old).writable ≡ true
        → CrashDone result (D.may_leave (hash_disk store.old)) (D.may_leave (hash_disk store.new))
        (D.image (hash_disk store.new)) }
    ensures reads { (hash_constants store.old).writable ≡ false
        → IsStill (D.image (hash_disk store.old)) (D.image (hash_disk store.new))
        (D.may_leave (hash_disk store.old)) (D.may_leave (hash_disk store.new)) }
    ensures constants { hash_constants store.new ≡ hash_constants store.old }
    ensures told { is_some (hash_view D.image store.new).map
        ≡ is_some (hash_view D.image store.old).map }
    ensures time { D.moment (hash_disk store.old) ≤ D.moment (hash_disk store.new) }
    ensures cause { HasCause Stop.Fault (D.fault_count (hash_disk store.old))
        (D.fault_count (hash_disk store.new)) result }
{
    let next = store.next_number();
    match run_on(alloc, store, next, key, p) {
        Ok(status) => {
            end_call(store, next.saturating_add(1))?;
            Ok(status)
        }
        Err(StoreError::Full { .. }) => {
            end_call(store, next)?;
            Err(Stop::Full)
        }
        Err(StoreError::NoMemory) => {
            end_call(store, next)?;
            Err(Stop::NoMemory)
        }
        Err(StoreError::Fault) => Err(Stop::Fault),
    }
}

/// One call of a processor on the record of a key, under the file's next number. A file that is only read stays as it is.
pub(crate) fn run_call<D: Disk, P: RecordProcessor>(
    alloc: Global,
    disk: D,
    writable: bool,
    key: &[u8],
    p: &mut P,
) -> Called<D>
    requires key { length key.now ≤ 65535 }
    requires may { ((was : Option (List ℕ)) → P.acts p.old key.now was ≡ Keep) ⊎ (writable ≡ true) }
    ensures made { IfSome (D.image disk) (λ f.
        IfOk result.answer (Made P.acts P.turns writable f key.now p.old p.new
        (D.image result.disk))) }
    ensures no_room { IfSome (D.image disk) (λ f. result.answer ≡ Err Stop.Full
        → NoRoom P.acts writable f key.now p.old (D.image result.disk)) }
    ensures refused { IfSome (D.image disk) (λ f. (place : ℕ)
        → result.answer ≡ Err (Stop.Refused place) → RefusedAt writable f place
        × (D.image result.disk ≡ Some f)) }
    ensures no_memory { IfSome (D.image disk) (λ f. result.answer ≡ Err Stop.NoMemory
        → D.image result.disk ≡ Some f) }
    ensures spared { writable ≡ true
        → IfSome (D.image disk) (λ f. Spares f (D.may_leave disk) (D.may_leave result.disk)) }
    ensures crash { writable ≡ true
        → CrashDone result.answer (D.may_leave disk) (D.may_leave result.disk)
        (D.image result.disk) }
    ensures crashes { writable ≡ true
        → IfSome (D.image disk) (λ f.
        Interrupts (λ groups. call_changes P.acts p.old key.now (replay Hash groups [])) f
        (D.moment disk) (D.moment result.disk)
        (D.may_leave disk) (D.left_since disk) (D.left_since result.disk)
        (D.left_with result.disk)) }
    ensures cut_short { writable ≡ true
        → IfSome (D.image disk) (λ f.
        IsCutShortSince (λ groups. call_changes P.acts p.old key.now (replay Hash groups [])) f
        (D.moment disk) (D.moment result.disk) (D.left_since disk) (D.left_with disk)
        (D.left_with result.disk)) }
    ensures makes { writable ≡ true
        → IfSome (D.image disk) (λ f. f ≡ []
        → AtEachMoment (IsUnmadeMoment (D.past disk)) (D.moment disk) (D.moment result.disk)
        (D.left_with result.disk)) }
    ensures reads { writable ≡ false
        → IsStill (D.image disk) (D.image result.disk) (D.may_leave disk)
        (D.may_leave result.disk) }
    ensures cause { HasCause Stop.Fault (D.fault_count disk) (D.fault_count result.disk)
        result.answer }
{
    let alone = ShardOf { index: 0, of: 1 };
    let mut store = match HashStore::open_file(alloc, disk, writable, LIMIT, alone) {
        Ok(store) => store,
        Err(refused) => {
            return Called {
                disk: refused.disk,
                answer: Err(unopened(refused.cause)),
            };
        }
    };
    let answer = call_on(alloc, &mut store, key, p);
    Called {
        disk: store.into_disk(),
        answer,
    }
}
