ghost use Rattle.std.specs.Prelude.{◌≡◌, ◌≢◌, ◌≤◌, ◌<◌, ◌+◌, ◌-◌, ◌^◌, ◌++◌, ◌∷◌, ℕ, List, [], length, take, Option, IfOk, IfSome, OnOk, OnErr, Some, None, Ok, Err, true, false, if◌then◌else◌, sum_by};
ghost use Rattle.std.specs.Option.{is_some};
ghost use Rattle.tk_disk.specs.Crash.{Only};
ghost use Rattle.tk_model.specs.Records.{find, AllFit, IsClearAlone};
ghost use Rattle.tk_model.specs.declared.record.Group.{Group};
ghost use Rattle.tk_model.specs.declared.record.Change.{Change as Changed};
ghost use Rattle.tk_store.specs.Store.{First, groups_made_by, ended_by, extent_of as change_extent, NeverFull, OkOrFault, UnlessFault, OnNoMemory, IsWhole, GivesInto, Keeps, KeepsSince, LeavesSafe, OnlyLooks, GoesOn};
ghost use Rattle.tk_append.specs.Log.{closed_text};

use crate::found::FoundKey;
use crate::plan::{NewHeads, plan_changes, put_heads, set_heads};
use crate::seek::{HeldFile, get_value, get_value_into};
use crate::shelf::{Shelf, first_record, last_record};
use std::alloc::Global;
use tk_append::{GroupLog, extent_of_change};
use tk_block::Closing;
use tk_disk::{Disk, DiskError};
use tk_model::{Bound, Bytes, Change, ChangeList, NoMemory, Order, Pair};
use tk_store::{SeqStore, StoreError, is_over};

/// The longest file.
const LIMIT: u64 = 1 << 40;

/// What stands in memory of the file after the group that is prepared.
#[derive(Drop)]
pub(crate) struct ReservedGroup {
    pub(crate) heads: NewHeads,
    pub(crate) count: u64,
}

/// A store over a hash file of kind 1. Records stay in the file: a look-up reads the chain of its bucket.
#[derive(Drop)]
pub struct HashStore<D: Disk> {
    pub(crate) alloc: Global,
    pub(crate) log: GroupLog<D>,
    /// What stands in the file.
    pub(crate) closing: Closing,
    pub(crate) count: u64,
    pub(crate) next: u64,
    pub(crate) last: Option<u64>,
    pub(crate) writable: bool,
    pub(crate) closed: bool,
    pub(crate) limit: u64,
    /// The newest block of each bucket.
    pub(crate) heads: Vec<u64>,
    /// Room for a block's front, so that look-ups take no memory.
    pub(crate) buffer: Vec<u8>,
    pub(crate) found: FoundKey,
    pub(crate) shelf: Option<Shelf>,
    pub(crate) reserved_group: Option<ReservedGroup>,
}

/// The bytes that the blocks of changes take. What passes 64 bits is no sum of changes that are in memory.
fn need_of(changes: &[Change]) -> Result<u64, NoMemory>
    requires { AllFit changes.now }
    ensures { IfOk result (λ n. n ≡ sum_by (change_extent 1) changes.now) }
{
    let mut need: u64 = 0;
    for change in changes {
        let Some(more) = need.checked_add(extent_of_change(change)) else {
            return Err(NoMemory);
        };
        need = more;
    }
    Ok(need)
}

/// A disk's answer as a store's: its only error is a fault.
fn as_store_error<T>(answer: Result<T, DiskError>) -> Result<T, StoreError>
    ensures ok { IfOk answer (λ v. result ≡ Ok v) }
    ensures err { OnErr answer (result ≡ Err StoreError.Fault) }
{
    match answer {
        Ok(value) => Ok(value),
        Err(_) => Err(StoreError::Fault),
    }
}

impl<D: Disk> HashStore<D> {
    ghost use Rattle.tk_hash.specs.Hash.{hash_disk, hash_head, hash_closing, hash_constants, hash_view, groups_held, IsReservedGroup, HashStands, HashKeptSince, KeepsGroups, opening};
    ghost use Rattle.tk_hash.specs.Fair.{KeepsFair};
    ghost use Rattle.tk_hash.specs.Relations.{FromStands, HashCause};

    /// Makes a group of these changes ready.
    fn reserve_changes(&mut self, changes: &ChangeList) -> Result<ReservedGroup, StoreError>
        requires whole { IsWhole (HashStands D.image D.may_leave D.past) self.old }
        requires some { changes.now ≢ [] }
        requires fit { AllFit changes.now }
        requires alone { IsClearAlone changes.now }
        requires end { (hash_view D.image self.old).size + sum_by (change_extent 1) changes.now
            ≤ 2 ^ 40 }
        // the answer, and the store as it was
        ensures reserved_group { IfOk result (IsReservedGroup D.image self.new changes.now) }
        ensures stands { Keeps (HashStands D.image D.may_leave D.past) self.old self.new }
        ensures since { KeepsSince (HashKeptSince D.image D.may_leave D.past D.moment D.left_since
            D.left_with) self.old self.new }
        ensures constants { hash_constants self.new ≡ hash_constants self.old }
        ensures store_view { hash_view D.image self.new ≡ hash_view D.image self.old }
        // its counts
        ensures time { D.moment (hash_disk self.old) ≤ D.moment (hash_disk self.new) }
        ensures taken { D.taken_count (hash_disk self.old) ≤ D.taken_count (hash_disk self.new) }
        ensures cause { HashCause D.fault_count self.old self.new result }
        ensures never { NeverFull result }
    {
        let file = HeldFile {
            head: *self.log.head(),
            heads: &self.heads,
            end: self.log.end(),
        };
        let plan = plan_changes(
            self.alloc,
            self.log.disk(),
            &file,
            self.count,
            &mut self.buffer,
            &self.found,
            changes,
        )?;
        self.log.reserve_text(changes, &plan.links)?;
        Ok(ReservedGroup {
            heads: plan.heads,
            count: plan.count,
        })
    }

    /// Writes the group that was staged, under this number, and then the heads.
    fn put_reserved_group(
        &mut self,
        number: u64,
        reserved_group: ReservedGroup,
    ) -> Result<(), StoreError>
        requires whole { IsWhole (HashStands D.image D.may_leave D.past) self.old }
        requires reserved_group { (changes : List Changed)
            × IsReservedGroup D.image self.old changes reserved_group }
        requires writable { (hash_constants self.old).writable ≡ true }
        requires number { (hash_view D.image self.old).floor ≤ number }
        // what the store stands for
        ensures stands { (changes : List Changed) → IsReservedGroup D.image self.old changes
            reserved_group → AllFit changes → IsClearAlone changes
            → FromStands (HashStands D.image D.may_leave D.past) self.old
            (λ first since hard. OnOk result (HashStands D.image D.may_leave D.past self.new first
            (since ++ record { number = number; changes = changes } ∷ []) hard)) }
        // a crash
        ensures kept { FromStands (HashStands D.image D.may_leave D.past) self.old
            (λ first since hard. KeepsGroups D.may_leave D.moment D.left_since (hash_head self.old)
            (groups_held first.held ++ take hard since) (hash_disk self.old) (hash_disk self.new)) }
        ensures fair { (changes : List Changed) → IsReservedGroup D.image self.old changes
            reserved_group
            → FromStands (HashStands D.image D.may_leave D.past) self.old
            (λ first since hard. KeepsFair D.past D.moment D.left_with (hash_head self.old)
            (groups_held first.held ++ since)
            (record { number = number; changes = changes } ∷ []) (hash_disk self.old)
            (hash_disk self.new)) }
        // the state
        ensures size { (changes : List Changed) → IsReservedGroup D.image self.old changes
            reserved_group
            → OnOk result ((hash_view D.image self.new).size ≡ (hash_view D.image self.old).size
            + sum_by (change_extent 1) changes) }
        ensures floor { OnOk result ((hash_view D.image self.new).floor ≡ number + 1) }
        ensures constants { hash_constants self.new ≡ hash_constants self.old }
        ensures head { hash_head self.new ≡ hash_head self.old }
        ensures open { (hash_view D.image self.new).closed ≡ (hash_view D.image self.old).closed }
        ensures told { is_some (D.image (hash_disk self.new))
            ≡ is_some (D.image (hash_disk self.old)) }
        // its counts
        ensures time { D.moment (hash_disk self.old) ≤ D.moment (hash_disk self.new) }
        ensures taken { D.taken_count (hash_disk self.new) ≡ D.taken_count (hash_disk self.old) }
        ensures cause { HashCause D.fault_count self.old self.new result }
        ensures answers { OkOrFault result }
    {
        self.shelf = None;
        self.found.forget();
        as_store_error(self.log.append(number))?;
        as_store_error(put_heads(&mut self.log, &reserved_group.heads))?;
        set_heads(&mut self.heads, &reserved_group.heads);
        self.count = reserved_group.count;
        self.last = Some(number);
        Ok(())
    }

    /// Makes it durable that the file is closed, with this next number.
    fn end_file(&mut self, next: u64) -> Result<(), StoreError>
        requires whole { IsWhole (HashStands D.image D.may_leave D.past) self.old }
        requires writable { (hash_constants self.old).writable ≡ true }
        requires closed { (hash_view D.image self.old).closed ≡ true }
        // what the store stands for
        ensures stands { FromStands (HashStands D.image D.may_leave D.past) self.old
            (λ first since hard. OnOk result (HashStands D.image D.may_leave D.past self.new first
            since (length since))) }
        // a crash
        ensures kept { FromStands (HashStands D.image D.may_leave D.past) self.old
            (λ first since hard. KeepsGroups D.may_leave D.moment D.left_since (hash_head self.old)
            (groups_held first.held ++ take hard since) (hash_disk self.old) (hash_disk self.new)) }
        ensures fair { FromStands (HashStands D.image D.may_leave D.past) self.old
            (λ first since hard. IfSome (D.image (hash_disk self.old))
            (λ _. KeepsFair D.past D.moment D.left_with (hash_head self.old)
            (groups_held first.held ++ since) [] (hash_disk self.old) (hash_disk self.new))) }
        // the file
        ensures file { (groups since : List Group) (hard : ℕ)
            → HashStands D.image D.may_leave D.past self.old (opening groups) since hard
            → OnOk result (IfSome (D.image (hash_disk self.old)) (λ _. D.image (hash_disk self.new)
            ≡ Some (closed_text (hash_head self.old) (groups ++ since) next))) }
        ensures durable { OnOk result (IfSome (D.image (hash_disk self.new))
            (λ f. Only f (D.may_leave (hash_disk self.new)))) }
        // the state
        ensures ended { OnOk result ((hash_view D.image self.new).ended ≡ Some next) }
        ensures unended { OnErr result (hash_closing self.new ≡ hash_closing self.old) }
        ensures constants { hash_constants self.new ≡ hash_constants self.old }
        ensures head { hash_head self.new ≡ hash_head self.old }
        ensures closed { (hash_view D.image self.new).closed ≡ (hash_view D.image self.old).closed }
        ensures told { is_some (D.image (hash_disk self.new))
            ≡ is_some (D.image (hash_disk self.old)) }
        // its counts
        ensures time { D.moment (hash_disk self.old) ≤ D.moment (hash_disk self.new) }
        ensures taken { D.taken_count (hash_disk self.new) ≡ D.taken_count (hash_disk self.old) }
        ensures cause { HashCause D.fault_count self.old self.new result }
        ensures answers { OkOrFault result }
    {
        as_store_error(self.log.close_log(self.count, next))?;
        self.closing = Closing {
            size: self.log.end(),
            count: self.count,
            next,
        };
        Ok(())
    }

    /// Gives the disk back.
    pub fn into_disk(self) -> D
        ensures { result ≡ hash_disk self }
    {
        let HashStore {
            log,
            alloc: _,
            closing: _,
            count: _,
            next: _,
            last: _,
            writable: _,
            closed: _,
            limit: _,
            heads: _,
            buffer: _,
            found: _,
            shelf: _,
            reserved_group: _,
        } = self;
        log.into_disk()
    }
}

impl<D: Disk> SeqStore for HashStore<D> {
    ghost use Rattle.std.specs.Prelude.{true, Bool};
    ghost use Rattle.tk_hash.specs.Hash.{hash_disk, hash_head, hash_constants, hash_view, HashUntouched, HashStands, HashReserved, HashSafe, HashKeptSince, opening};
    ghost use Rattle.tk_hash.specs.Relations.{FromStands, HashCause, with_close};
    ghost use Rattle.tk_hash.specs.HashLaws.{hash_replays, hash_rising, hash_held, hash_stood_now, hash_stood_less, hash_safe_less, hash_by_extents, hash_unended, hash_values, hash_untouched_same, hash_untouched_then};

    ghost constants = { hash_constants };

    ghost store_view = { hash_view D.image };

    ghost stands = { HashStands D.image D.may_leave D.past };

    ghost reserved = { HashReserved D.image };

    ghost moment = { λ s. D.moment (hash_disk s) };

    ghost safe = { HashSafe D.image D.left_since D.left_with };

    ghost kept_since = { HashKeptSince D.image D.may_leave D.past D.moment D.left_since
        D.left_with };

    ghost untouched = { HashUntouched D.image D.may_leave D.past D.moment D.left_since
        D.left_with };

    ghost lawful = { λ m. true };

    ghost fault_count = { λ s. D.fault_count (hash_disk s) };

    ghost taken_count = { λ s. D.taken_count (hash_disk s) };

    ghost replays = { hash_replays D.image D.may_leave D.past };

    ghost rising = { hash_rising D.image D.may_leave D.past };

    ghost held = { hash_held D.image D.may_leave D.past };

    ghost numbered = { λ s first since hard st. st.floor };

    ghost synced = { λ s first since hard st. st.synced };

    ghost stood_now = { hash_stood_now D.image D.may_leave D.past D.moment D.left_since D.left_with
        D.only_now D.only_with D.since_with };

    ghost stood_less = { hash_stood_less D.image D.left_since D.left_with D.may_leave D.past
        D.moment };

    ghost stood_stands = { λ s t n first since hard st. st.stands };

    ghost stood_safe = { λ s t n first since hard st. st.safe };

    ghost safe_less = { hash_safe_less D.image D.left_since D.left_with };

    ghost unended = { hash_unended D.image };

    ghost values = { hash_values };

    ghost untouched_same = { hash_untouched_same D.image D.may_leave D.past D.moment D.left_since
        D.left_with };

    ghost untouched_then = { hash_untouched_then D.image D.may_leave D.past D.moment D.left_since
        D.left_with D.counts_now D.counts_with };

    ghost tells_need = { λ s changes told. Prim.cc };

    ghost by_extents = { hash_by_extents D.image };

    fn faults(&self) -> u64 {
        self.log.faults()
    }

    fn taken(&self) -> u64 {
        self.log.taken()
    }

    fn size(&self) -> u64 {
        self.log.end()
    }

    fn limit(&self) -> u64 {
        self.limit.min(LIMIT)
    }

    fn order(&self) -> Order {
        Order::Hash
    }

    fn next_number(&self) -> u64 {
        self.next
    }

    fn count(&self) -> u64 {
        self.count
    }

    fn get(&mut self, key: &[u8], out: &mut Bytes) -> Result<bool, StoreError> {
        let file = HeldFile {
            head: *self.log.head(),
            heads: &self.heads,
            end: self.log.end(),
        };
        let present = get_value(
            self.alloc,
            self.log.disk(),
            &file,
            &mut self.buffer,
            key,
            out,
        )?;
        // Without memory for the key, the next change looks it up again.
        let _ = self.found.remember(key, present);
        Ok(present)
    }

    fn get_into(&mut self, key: &[u8], into: &mut [u8]) -> Result<Option<u32>, StoreError>
        requires whole { IsWhole (HashStands D.image D.may_leave D.past) self.old }
        ensures value { IfSome (hash_view D.image self.old).map
            (λ m. IfOk result (GivesInto (find key.now m) into.old into.new)) }
        ensures cost { IfSome ((hash_view D.image self.old).cost key.now)
            (λ most. D.taken_count (hash_disk self.new) ≤ D.taken_count (hash_disk self.old)
            + most) }
        ensures looks { OnlyLooks hash_constants (hash_view D.image)
            (HashStands D.image D.may_leave D.past) (HashKeptSince D.image D.may_leave D.past
            D.moment D.left_since D.left_with)
            (HashUntouched D.image D.may_leave D.past D.moment D.left_since D.left_with)
            (λ s. D.moment (hash_disk s)) (λ s. D.taken_count (hash_disk s)) self.old self.new }
        ensures cause { HashCause D.fault_count self.old self.new result }
        ensures answers { OkOrFault result }
    {
        let file = HeldFile {
            head: *self.log.head(),
            heads: &self.heads,
            end: self.log.end(),
        };
        get_value_into(self.log.disk(), &file, &mut self.buffer, key, into)
    }

    fn next(&mut self, bound: &Bound) -> Result<Option<Pair>, StoreError> {
        let file = HeldFile {
            head: *self.log.head(),
            heads: &self.heads,
            end: self.log.end(),
        };
        first_record(self.alloc, self.log.disk(), &file, &mut self.shelf, bound)
    }

    fn prev(&mut self, bound: &Bound) -> Result<Option<Pair>, StoreError> {
        let file = HeldFile {
            head: *self.log.head(),
            heads: &self.heads,
            end: self.log.end(),
        };
        last_record(self.alloc, self.log.disk(), &file, &mut self.shelf, bound)
    }

    fn check_group(&mut self, changes: &ChangeList) -> Result<u64, StoreError> {
        Ok(need_of(changes.as_slice())?)
    }

    fn reserve_group(&mut self, changes: &ChangeList) -> Result<(), StoreError> {
        self.reserved_group = None;
        let size = self.log.end();
        let need = need_of(changes.as_slice())?;
        let limit = self.limit.min(LIMIT);
        if is_over(size, need, limit, changes) {
            return Err(StoreError::Full { size, need, limit });
        }
        if !changes.is_empty() {
            self.reserved_group = Some(self.reserve_changes(changes)?);
        }
        Ok(())
    }

    fn apply_reserved(&mut self, number: u64) -> Result<(), StoreError> {
        match self.reserved_group.take() {
            Some(reserved_group) => self.put_reserved_group(number, reserved_group),
            None => Ok(()),
        }
    }

    fn sync(&mut self, hard: bool) -> Result<(), StoreError> {
        if self.writable {
            as_store_error(self.log.sync_log(hard))?;
        }
        Ok(())
    }

    fn close(&mut self, next: u64) -> Result<(), StoreError>
        requires whole { IsWhole (HashStands D.image D.may_leave D.past) self.old }
        requires open { (hash_view D.image self.old).closed ≡ false }
        requires number { (hash_constants self.old).writable ≡ true
            → (hash_view D.image self.old).floor ≤ next }
        requires below { (hash_constants self.old).writable ≡ true → next < 2 ^ 64 - 1 }
        // what the store stands for
        ensures stands { FromStands (HashStands D.image D.may_leave D.past) self.old
            (λ first since hard. OnOk result (HashStands D.image D.may_leave D.past self.new first
            (with_close self.old next since) (length (with_close self.old next since)))) }
        ensures map { UnlessFault result ((hash_view D.image self.new).map
            ≡ (hash_view D.image self.old).map) }
        ensures since { (t n : ℕ) (first : First) (since : List Group) (hard : ℕ)
            → HashKeptSince D.image D.may_leave D.past D.moment D.left_since D.left_with self.old t
            n first since hard
            → OnOk result (HashKeptSince D.image D.may_leave D.past D.moment D.left_since
            D.left_with self.new t n first (with_close self.old next since)
            (length (with_close self.old next since))) }
        ensures safe { LeavesSafe (HashKeptSince D.image D.may_leave D.past D.moment D.left_since
            D.left_with) (HashSafe D.image D.left_since D.left_with)
            (groups_made_by (hash_constants self.old) next []) self.old self.new }
        // the state
        ensures closed { (hash_view D.image self.new).closed ≡ true }
        ensures ended { OnOk result ((hash_view D.image self.new).ended ≡ ended_by
            (hash_constants self.old) next) }
        ensures unended { OnErr result ((hash_view D.image self.new).ended ≡ None) }
        ensures kept { OnNoMemory result (Keeps (HashStands D.image D.may_leave D.past) self.old
            self.new × KeepsSince (HashKeptSince D.image D.may_leave D.past D.moment D.left_since
            D.left_with) self.old self.new) }
        ensures goes_on { GoesOn hash_constants (hash_view D.image) (λ s. D.moment (hash_disk s))
            (λ s. D.taken_count (hash_disk s)) self.old self.new }
        // its counts
        ensures cause { HashCause D.fault_count self.old self.new result }
        ensures never { NeverFull result }
        ensures answers { OkOrFault result }
        // the file
        ensures file { (groups since : List Group) (hard : ℕ)
            → HashStands D.image D.may_leave D.past self.old (opening groups) since hard
            → OnOk result (IfSome (D.image (hash_disk self.old)) (λ _. D.image (hash_disk self.new)
            ≡ Some (if (hash_constants self.old).writable then closed_text (hash_head self.old) (groups ++ since) next else closed_text (hash_head self.old) groups (hash_constants self.old).next))) }
        ensures durable { (hash_constants self.old).writable ≡ true
            → OnOk result (IfSome (D.image (hash_disk self.new))
            (λ f. Only f (D.may_leave (hash_disk self.new)))) }
        ensures reads { (hash_constants self.old).writable ≡ false
            → HashUntouched D.image D.may_leave D.past D.moment D.left_since D.left_with self.old
            self.new }
        ensures told { is_some (D.image (hash_disk self.new))
            ≡ is_some (D.image (hash_disk self.old)) }
    {
        self.closed = true;
        self.reserved_group = None;
        if self.writable {
            self.end_file(next)?;
        }
        Ok(())
    }
}
