ghost use Rattle.std.specs.Prelude.{◌≡◌, ◌≤◌, ◌<◌, ◌^◌, [], ℕ, List, IfOk, IfErr, IfSome, OnOk, min, false};
ghost use Rattle.std.specs.Option.{option_map};
ghost use Rattle.tk_model.specs.Counts.{Rose};
ghost use Rattle.tk_model.specs.declared.error.OpenError.TheVariants as OpenError;
ghost use Rattle.tk_model.specs.declared.record.Pair.{Pair as OneRecord};
ghost use Rattle.tk_disk.specs.Crash.{Only};
ghost use Rattle.tk_flat.specs.Flat.{flat_text};
ghost use Rattle.tk_model.specs.Records.{AllHeld};
ghost use Rattle.tk_store.specs.Store.{HasCause as StoreHasCause, Keeps, NeverFull, OnNoMemory};

use crate::load::read_records;
use crate::tiny_records::TinyRecords;
use crate::write::write_text;
use std::alloc::Global;
use tk_disk::Disk;
use tk_model::{Bound, Bytes, ChangeList, Order, Pair, ShardOf, Unopened};
use tk_store::{SeqStore, StoreError};

/// The longest file.
const LIMIT: u64 = 1 << 40;

/// How far a store has come.
#[derive(Clone, Copy)]
pub(crate) enum Stage {
    Running,
    Closed,
    /// The file was written, with this next number.
    Ended(u64),
}

/// A store that keeps its records in memory, and in a file from its closing to its next opening.
#[derive(Drop)]
pub struct TinyStore<D: Disk> {
    alloc: Global,
    disk: D,
    records: TinyRecords,
    stage: Stage,
}

impl<D: Disk> TinyStore<D> {
    ghost use Rattle.tk_mem.specs.TinyFile.{FailsAt, IsAccepted, IsCause, IsNoText, IsOutside, Refuses};
    ghost use Rattle.tk_mem.specs.Tiny.{TinyStands, tiny_constants, tiny_view};
    ghost use Rattle.tk_mem.specs.TinyStored.{stored_disk, stored_pairs, stored_constants, stored_view, opening_of, FitsFile, StoredStands};

    /// Reads the records of a file. The disk is handed back where it is refused.
    pub fn load(
        alloc: Global,
        disk: D,
        writable: bool,
        limit: u64,
        shard: ShardOf,
    ) -> Result<TinyStore<D>, Unopened<D>>
        requires { shard.index < shard.of }
        // the file
        ensures file { IfSome (D.image disk)
            (λ f. IfOk result (λ s. IsAccepted shard writable f (stored_pairs s))) }
        ensures refused { IfSome (D.image disk)
            (λ f. IfErr result (λ u. IsCause shard writable f u.cause)) }
        ensures accepted { IfSome (D.image disk)
            (λ f. (pairs : List OneRecord) → IsAccepted shard writable f pairs
            → IfErr result (λ u. IsOutside u.cause)) }
        ensures broken { IfSome (D.image disk)
            (λ f. (place : ℕ) → FailsAt shard f place → Refuses (OpenError.BrokenAt place) result) }
        ensures no_text { IfSome (D.image disk)
            (λ f. IsNoText writable f → Refuses OpenError.NotADatabase result) }
        // the store
        ensures stands { IfOk result
            (λ s. StoredStands D.image D.may_leave s (opening_of s) [] 0) }
        ensures open { IfOk result (λ s. (stored_view s).closed ≡ false) }
        ensures floor { IfOk result (λ s. (stored_view s).floor ≡ 0) }
        ensures writable { IfOk result (λ s. (stored_constants s).writable ≡ writable) }
        ensures limit { IfOk result (λ s. (stored_constants s).limit ≡ min limit (2 ^ 40)) }
        // the disk and its counts
        ensures image { IfOk result (λ s. D.image (stored_disk s) ≡ D.image disk) }
        ensures back { IfErr result (λ u. D.image u.disk ≡ D.image disk) }
        ensures counted { IfOk result (λ s. D.fault_count (stored_disk s) ≡ D.fault_count disk) }
        ensures later { IfErr result (λ u. D.fault_count disk ≤ D.fault_count u.disk) }
        ensures cause { IfErr result (λ u. u.cause ≡ OpenError.Fault → Rose (D.fault_count disk)
            (D.fault_count u.disk)) }
    {
        let mut disk = disk;
        match read_records(alloc, &mut disk, writable, shard) {
            Ok((records, size)) => Ok(TinyStore {
                alloc,
                disk,
                records: TinyRecords::of(alloc, records, size, writable, limit),
                stage: Stage::Running,
            }),
            Err(cause) => Err(Unopened { cause, disk }),
        }
    }

    /// Gives the disk back.
    pub fn into_disk(self) -> D
        ensures { result ≡ stored_disk self }
    {
        let TinyStore {
            disk,
            alloc: _,
            records: _,
            stage: _,
        } = self;
        disk
    }

    /// Writes the records. A text that is too long for a file is that of the opening: no change was made.
    fn write_file(&mut self) -> Result<(), StoreError>
        requires { AllHeld (stored_pairs self.old) }
        // the file
        ensures written { OnOk result (FitsFile (stored_pairs self.old)
            → D.image (stored_disk self.new) ≡ option_map (λ _. flat_text (stored_pairs self.old))
            (D.image (stored_disk self.old))) }
        ensures durable { OnOk result (FitsFile (stored_pairs self.old)
            → IfSome (D.image (stored_disk self.new)) (λ f. Only f
            (D.may_leave (stored_disk self.new)))) }
        ensures too_long { (FitsFile (stored_pairs self.old) → ⊥)
            → stored_disk self.new ≡ stored_disk self.old }
        ensures unwritten { OnNoMemory result (stored_disk self.new ≡ stored_disk self.old) }
        // the records
        ensures store_view { tiny_view self.new.records ≡ tiny_view self.old.records }
        ensures constants { tiny_constants self.new.records ≡ tiny_constants self.old.records }
        ensures stands { Keeps TinyStands self.old.records self.new.records }
        ensures stage { self.new.stage ≡ self.old.stage }
        // the counts
        ensures taken { D.taken_count (stored_disk self.new)
            ≡ D.taken_count (stored_disk self.old) }
        ensures cause { StoreHasCause (D.fault_count (stored_disk self.old))
            (D.fault_count (stored_disk self.new)) result }
        ensures never { NeverFull result }
    {
        self.records.settle()?;
        if self.records.size() > LIMIT {
            return Ok(());
        }
        write_text(self.alloc, &mut self.disk, self.records.pairs())
    }
}

#[tactic(auto, using(crate::proofs::Stored::inside, crate::proofs::Stored::open_inside, crate::proofs::Stored::looked, crate::proofs::Stored::running))]
impl<D: Disk> SeqStore for TinyStore<D> {
    ghost use Rattle.std.specs.Prelude.{true, Bool};
    ghost use Rattle.tk_mem.specs.TinyStored.{stored_disk, stored_constants, stored_view, StoredReserved, StoredStands, StoredUntouched};
    ghost use Rattle.tk_mem.specs.TinyStoredLaws.{stored_replays, stored_rising, stored_held, stored_by_extents, stored_unended, stored_values, stored_untouched_same, stored_untouched_then};

    ghost constants = { stored_constants };

    ghost store_view = { stored_view };

    ghost stands = { StoredStands D.image D.may_leave };

    ghost reserved = { StoredReserved };

    ghost moment = { λ s. 0 };

    ghost safe = { λ s t first groups n. Unit {0} };

    ghost kept_since = { λ s t n. StoredStands D.image D.may_leave s };

    ghost untouched = { StoredUntouched };

    ghost lawful = { λ m. true };

    ghost fault_count = { λ s. D.fault_count (stored_disk s) };

    ghost taken_count = { λ s. D.taken_count (stored_disk s) };

    ghost replays = { stored_replays D.image D.may_leave };

    ghost rising = { stored_rising D.image D.may_leave };

    ghost held = { stored_held D.image D.may_leave };

    ghost numbered = { λ s first since hard st. st.records.floor };

    ghost synced = { λ s first since hard st. st.records.synced };

    ghost stood_now = { λ s first since hard st. st };

    ghost stood_less = { λ s t m n first since hard le st. st };

    ghost stood_stands = { λ s t n first since hard st. st };

    ghost stood_safe = { λ s t n first since hard st. tt };

    ghost safe_less = { λ s t first since more m n less safe. tt };

    ghost unended = { stored_unended };

    ghost values = { stored_values };

    ghost untouched_same = { stored_untouched_same };

    ghost untouched_then = { stored_untouched_then };

    ghost tells_need = { λ s changes told. Prim.cc };

    ghost by_extents = { stored_by_extents };

    fn faults(&self) -> u64 {
        self.disk.faults()
    }

    fn taken(&self) -> u64 {
        self.disk.taken()
    }

    fn size(&self) -> u64 {
        self.records.size()
    }

    fn limit(&self) -> u64 {
        self.records.limit()
    }

    fn order(&self) -> Order {
        Order::Hash
    }

    fn next_number(&self) -> u64 {
        0
    }

    fn count(&self) -> u64 {
        self.records.count()
    }

    fn get(&mut self, key: &[u8], out: &mut Bytes) -> Result<bool, StoreError> {
        self.records.get(key, out)
    }

    fn get_into(&mut self, key: &[u8], into: &mut [u8]) -> Result<Option<u32>, StoreError> {
        self.records.get_into(key, into)
    }

    fn next(&mut self, bound: &Bound) -> Result<Option<Pair>, StoreError> {
        self.records.next(bound)
    }

    fn prev(&mut self, bound: &Bound) -> Result<Option<Pair>, StoreError> {
        self.records.prev(bound)
    }

    fn check_group(&mut self, changes: &ChangeList) -> Result<u64, StoreError> {
        self.records.check_group(changes)
    }

    fn reserve_group(&mut self, changes: &ChangeList) -> Result<(), StoreError> {
        self.records.reserve_group(changes)
    }

    fn apply_reserved(&mut self, number: u64) -> Result<(), StoreError> {
        self.records.apply_reserved(number)?;
        Ok(())
    }

    fn sync(&mut self, hard: bool) -> Result<(), StoreError> {
        self.records.sync(hard)
    }

    fn close(&mut self, next: u64) -> Result<(), StoreError> {
        self.stage = Stage::Closed;
        if self.records.writable() {
            self.write_file()?;
            self.stage = Stage::Ended(next);
        }
        Ok(())
    }
}
