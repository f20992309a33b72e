ghost use Rattle.std.specs.Prelude.{◌≡◌, ◌+◌, ◌≤◌, [], IfOk, OnOk, min, ◌^◌, true, false};
ghost use Rattle.std.specs.Option.{option_copied};

use crate::tiny_map::TinyMap;
use std::alloc::Global;
use tk_model::{Bound, Bytes, ChangeList, NoMemory, Order, Pair, copy_pair};
use tk_store::{HashedRecords, PairsLeft, SeqStore, StoreError, is_over};

/// The longest text of records.
const LIMIT: u64 = 1 << 40;

/// Records in memory, in buckets that grow with them: a store without a file.
#[derive(Drop)]
pub struct TinyRecords {
    map: TinyMap,
    limit: u64,
    writable: bool,
    last: Option<u64>,
    closed: bool,
    end: u64,
    next_size: u64,
    grows: bool,
}

impl TinyRecords {
    ghost use Rattle.tk_model.specs.Records.{AllHeld};
    ghost use Rattle.tk_store.specs.Store.{Records, Keeps};
    ghost use Rattle.tk_store.specs.PairsLeft.{pairs_left};
    ghost use Rattle.tk_mem.specs.Tiny.{TinyStands, tiny_view, tiny_constants};
    ghost use Rattle.tk_mem.specs.Undo.{text_size};

    /// A store of these records, whose flat text is so long.
    pub fn of(
        alloc: Global,
        records: HashedRecords,
        size: u64,
        writable: bool,
        limit: u64,
    ) -> TinyRecords
        requires size { size ≡ text_size records }
        requires held { AllHeld records }
        ensures stands { TinyStands result (record { records = records; held = Records }) [] 0 }
        ensures open { (tiny_view result).closed ≡ false }
        ensures floor { (tiny_view result).floor ≡ 0 }
        ensures writable { (tiny_constants result).writable ≡ writable }
        ensures limit { (tiny_constants result).limit ≡ min limit (2 ^ 40) }
    {
        records.in_hash_order();
        TinyRecords {
            map: TinyMap::of(alloc, records, size),
            limit,
            writable,
            last: None,
            closed: false,
            end: 0,
            next_size: size,
            grows: false,
        }
    }

    /// Whether the store was opened for writing.
    pub(crate) fn writable(&self) -> bool
        ensures { result ≡ (tiny_constants self.now).writable }
    {
        self.writable
    }

    /// Drops what is prepared.
    pub(crate) fn settle(&mut self) -> Result<(), NoMemory>
        ensures store_view { tiny_view self.new ≡ tiny_view self.old }
        ensures constants { tiny_constants self.new ≡ tiny_constants self.old }
        ensures stands { Keeps TinyStands self.old self.new }
        ensures settled { OnOk result (self.new.map.table ≡ self.new.map.pairs) }
    {
        self.map.settle()
    }

    /// All records, in hash order, where nothing is prepared.
    pub(crate) fn pairs(&self) -> PairsLeft<'_>
        ensures { pairs_left result ≡ self.now.map.table }
    {
        self.map.pairs()
    }
}

fn copied_pair(found: Option<&Pair>) -> Result<Option<Pair>, NoMemory>
    ensures { IfOk result (λ o. o ≡ option_copied found.entry) }
{
    match found {
        Some(pair) => Ok(Some(copy_pair(pair)?)),
        None => Ok(None),
    }
}

impl SeqStore for TinyRecords {
    ghost use Rattle.std.specs.Prelude.{◌≡◌, true, Bool};
    ghost use Rattle.tk_mem.specs.Tiny.{TinyStands, TinyReserved, tiny_view, tiny_constants};
    ghost use Rattle.tk_mem.specs.TinyLaws.{tiny_replays, tiny_rising, tiny_held, tiny_numbered, tiny_synced, tiny_by_extents, tiny_unended, tiny_values};

    ghost constants = { tiny_constants };

    ghost store_view = { tiny_view };

    ghost stands = { TinyStands };

    ghost reserved = { TinyReserved };

    ghost moment = { λ s. 0 };

    ghost safe = { λ s t first groups n. Unit {0} };

    ghost kept_since = { λ s t n. TinyStands s };

    ghost untouched = { λ old new. Unit {0} };

    ghost lawful = { λ m. true };

    ghost fault_count = { λ s. 0 };

    ghost taken_count = { λ s. 0 };

    ghost replays = { tiny_replays };

    ghost rising = { tiny_rising };

    ghost held = { tiny_held };

    ghost numbered = { tiny_numbered };

    ghost synced = { tiny_synced };

    ghost stood_now = { λ s first since hard st. st };

    ghost stood_less = { λ s t m n first since hard le st. st };

    ghost stood_stands = { λ s t n first since hard st. st };

    ghost stood_safe = { λ s t n first since hard st. tt };

    ghost safe_less = { λ s t first since more m n less safe. tt };

    ghost unended = { tiny_unended };

    ghost values = { tiny_values };

    ghost untouched_same = { λ s. tt };

    ghost untouched_then = { λ a b c p q. tt };

    ghost tells_need = { λ s changes told. Prim.cc };

    ghost by_extents = { tiny_by_extents };

    fn faults(&self) -> u64 {
        0
    }

    fn taken(&self) -> u64 {
        0
    }

    fn size(&self) -> u64 {
        self.map.size()
    }

    fn limit(&self) -> u64 {
        self.limit.min(LIMIT)
    }

    fn order(&self) -> Order {
        Order::Hash
    }

    fn next_number(&self) -> u64 {
        0
    }

    fn count(&self) -> u64 {
        self.map.count()
    }

    fn get(&mut self, key: &[u8], out: &mut Bytes) -> Result<bool, StoreError> {
        self.map.settle()?;
        match self.map.get(key) {
            Some(value) => {
                out.clear();
                out.extend(value.as_slice())?;
                Ok(true)
            }
            None => Ok(false),
        }
    }

    #[tactic(auto, using(crate::proofs::Standing::found_fits))]
    fn get_into(&mut self, key: &[u8], into: &mut [u8]) -> Result<Option<u32>, StoreError> {
        self.map.settle()?;
        match self.map.get(key) {
            Some(value) => {
                let n = into.len().min(value.len());
                into[..n].copy_from_slice(&value.as_slice()[..n]);
                Ok(Some(value.len() as u32))
            }
            None => Ok(None),
        }
    }

    fn next(&mut self, bound: &Bound) -> Result<Option<Pair>, StoreError> {
        self.map.settle()?;
        Ok(copied_pair(self.map.first_within(bound))?)
    }

    fn prev(&mut self, bound: &Bound) -> Result<Option<Pair>, StoreError> {
        self.map.settle()?;
        Ok(copied_pair(self.map.last_within(bound))?)
    }

    fn check_group(&mut self, changes: &ChangeList) -> Result<u64, StoreError> {
        let after = self.map.prepare(changes)?;
        Ok(after.saturating_sub(self.map.size()))
    }

    fn reserve_group(&mut self, changes: &ChangeList) -> Result<(), StoreError> {
        let after = self.map.prepare(changes)?;
        let size = self.map.size();
        let need = after.saturating_sub(size);
        let limit = self.limit.min(LIMIT);
        if is_over(size, need, limit, changes) {
            return Err(StoreError::Full { size, need, limit });
        }
        self.next_size = after;
        self.grows = !changes.is_empty();
        Ok(())
    }

    #[tactic(auto, using(crate::proofs::Standing::applied))]
    fn apply_reserved(&mut self, number: u64) -> Result<(), StoreError> {
        if self.grows {
            self.map.commit(self.next_size);
            self.last = Some(number);
        }
        Ok(())
    }

    fn sync(&mut self, _hard: bool) -> Result<(), StoreError> {
        Ok(())
    }

    fn close(&mut self, next: u64) -> Result<(), StoreError> {
        self.closed = true;
        self.end = next;
        Ok(())
    }
}
