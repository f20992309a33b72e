ghost use Rattle.std.specs.Prelude.{◌≡◌, ◌+◌, ◌≤◌, [], IfOk, min, ◌^◌, true, false};
ghost use Rattle.std.specs.Option.{option_copied};

use crate::records::with_all;
use crate::{SeqStore, StoreError, is_over};
use std::alloc::Global;
use std::mem;
use tk_model::{
    Bound, Bytes, ChangeList, NoMemory, Order, Pair, PairList, copy_pair, first_pair, last_pair,
    value_at,
};

/// A store in memory.
#[derive(Drop)]
pub struct MemStore {
    order: Order,
    room: u64,
    writable: bool,
    last: Option<u64>,
    closed: bool,
    end: u64,
    pairs: PairList,
    reserved_group: PairList,
    grows: bool,
}

impl MemStore {
    ghost use Rattle.tk_store.specs.Memory.{MemStands, mem_view, mem_constants};
    ghost use Rattle.tk_store.specs.Store.{Records};

    /// An empty store.
    pub fn new(alloc: Global, order: Order, room: u64) -> MemStore
        ensures stands { MemStands result (record { records = []; held = Records }) [] 0 }
        ensures open { (mem_view result).closed ≡ false }
        ensures floor { (mem_view result).floor ≡ 0 }
        ensures writable { (mem_constants result).writable ≡ true }
        ensures order { (mem_constants result).order ≡ order }
        ensures limit { (mem_constants result).limit ≡ min room (2 ^ 40) }
    {
        MemStore {
            order,
            room,
            writable: true,
            last: None,
            closed: false,
            end: 0,
            pairs: PairList::new(alloc),
            reserved_group: PairList::new(alloc),
            grows: false,
        }
    }
}

fn copied_pair(found: Option<&Pair>) -> Result<Option<Pair>, NoMemory>
    ensures { IfOk result (λ o. o ≡ option_copied found.entry) }
{
    match found {
        Some(pair) => Ok(Some(copy_pair(pair)?)),
        None => Ok(None),
    }
}

impl SeqStore for MemStore {
    ghost use Rattle.std.specs.Prelude.{◌≡◌, true, Bool};
    ghost use Rattle.tk_store.specs.Memory.{MemStands, MemReserved, mem_view, mem_constants};
    ghost use Rattle.tk_store.specs.MemoryLaws.{mem_replays, mem_rising, mem_held, mem_numbered, mem_synced, mem_by_extents, mem_unended, mem_values};

    ghost constants = { mem_constants };

    ghost store_view = { mem_view };

    ghost stands = { MemStands };

    ghost reserved = { MemReserved };

    ghost moment = { λ s. 0 };

    ghost safe = { λ s t first groups n. Unit {0} };

    ghost kept_since = { λ s t n. MemStands s };

    ghost untouched = { λ old new. new.pairs ≡ old.pairs };

    ghost lawful = { λ m. true };

    ghost fault_count = { λ s. 0 };

    ghost taken_count = { λ s. 0 };

    ghost replays = { mem_replays };

    ghost rising = { mem_rising };

    ghost held = { mem_held };

    ghost numbered = { mem_numbered };

    ghost synced = { mem_synced };

    ghost stood_now = { λ s first since hard st. st };

    ghost stood_less = { λ s t m n first since hard le st. st };

    ghost stood_stands = { λ s t n first since hard st. st };

    ghost stood_safe = { λ s t n first since hard st. tt };

    ghost safe_less = { λ s t first since more m n less safe. tt };

    ghost unended = { mem_unended };

    ghost values = { mem_values };

    ghost untouched_same = { λ s. Prim.cc };

    ghost untouched_then = { λ a b c p q. Prim.cc };

    ghost tells_need = { λ s changes told. Prim.cc };

    ghost by_extents = { mem_by_extents };

    fn faults(&self) -> u64 {
        0
    }

    fn taken(&self) -> u64 {
        0
    }

    fn size(&self) -> u64 {
        self.pairs.len() as u64
    }

    fn limit(&self) -> u64 {
        self.room.min(1 << 40)
    }

    fn order(&self) -> Order {
        self.order
    }

    fn next_number(&self) -> u64 {
        0
    }

    fn count(&self) -> u64 {
        self.pairs.len() as u64
    }

    fn get(&mut self, key: &[u8], out: &mut Bytes) -> Result<bool, StoreError> {
        match value_at(self.pairs.as_slice(), key) {
            Some(value) => {
                out.clear();
                out.extend(value.as_slice())?;
                Ok(true)
            }
            None => Ok(false),
        }
    }

    #[tactic(auto, using(crate::proofs::Mem::found_fits))]
    fn get_into(&mut self, key: &[u8], into: &mut [u8]) -> Result<Option<u32>, StoreError> {
        match value_at(self.pairs.as_slice(), key) {
            Some(value) => {
                let n = into.len().min(value.len());
                into[..n].copy_from_slice(&value.as_slice()[..n]);
                Ok(Some(value.len() as u32))
            }
            None => Ok(None),
        }
    }

    fn next(&mut self, bound: &Bound) -> Result<Option<Pair>, StoreError> {
        let found = first_pair(self.pairs.as_slice(), &self.order, bound);
        Ok(copied_pair(found)?)
    }

    fn prev(&mut self, bound: &Bound) -> Result<Option<Pair>, StoreError> {
        let found = last_pair(self.pairs.as_slice(), &self.order, bound);
        Ok(copied_pair(found)?)
    }

    fn check_group(&mut self, changes: &ChangeList) -> Result<u64, StoreError> {
        let reserved_group = with_all(&self.order, &self.pairs, changes.as_slice())?;
        let size = self.pairs.len() as u64;
        Ok((reserved_group.len() as u64).saturating_sub(size))
    }

    fn reserve_group(&mut self, changes: &ChangeList) -> Result<(), StoreError> {
        let reserved_group = with_all(&self.order, &self.pairs, changes.as_slice())?;
        let size = self.pairs.len() as u64;
        let need = (reserved_group.len() as u64).saturating_sub(size);
        let limit = self.room.min(1 << 40);
        if is_over(size, need, limit, changes) {
            return Err(StoreError::Full { size, need, limit });
        }
        self.reserved_group = reserved_group;
        self.grows = !changes.is_empty();
        Ok(())
    }

    #[tactic(auto, using(crate::proofs::Mem::applied))]
    fn apply_reserved(&mut self, number: u64) -> Result<(), StoreError> {
        if self.grows {
            mem::swap(&mut self.pairs, &mut self.reserved_group);
            self.last = Some(number);
        }
        Ok(())
    }

    fn sync(&mut self, _hard: bool) -> Result<(), StoreError> {
        Ok(())
    }

    fn close(&mut self, next: u64) -> Result<(), StoreError> {
        self.closed = true;
        self.end = next;
        Ok(())
    }
}
