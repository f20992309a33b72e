use tk_disk::Disk;
use tk_hash::HashStore;
use tk_mem::TinyStore;
use tk_model::{Bound, Bytes, ChangeList, Order, Pair};
use tk_store::{SeqStore, StoreError};

/// A store of any kind.
#[derive(Drop)]
pub enum AnyStore<D: Disk> {
    Hash(HashStore<D>),
    Tiny(TinyStore<D>),
}

impl<D: Disk> SeqStore for AnyStore<D> {
    ghost use Rattle.std.specs.Prelude.{true};
    ghost use Rattle.tk_shard.specs.AnyStore.{any_disk, any_constants, any_view, any_moment, AnyStands, AnyReserved, AnySafe, AnyKeptSince, AnyUntouched};
    ghost use Rattle.tk_shard.specs.AnyLaws.{any_replays, any_rising, any_held, any_numbered, any_synced, any_stood_now, any_stood_less, any_stood_stands, any_stood_safe, any_safe_less, any_unended, any_values, any_untouched_same, any_untouched_then, any_tells_need, any_by_extents};

    ghost constants = { any_constants };

    ghost store_view = { any_view D.image };

    ghost stands = { AnyStands D.image D.may_leave D.past };

    ghost reserved = { AnyReserved D.image };

    ghost moment = { any_moment D.moment };

    ghost safe = { AnySafe D.image D.left_since D.left_with };

    ghost kept_since = { AnyKeptSince D.image D.may_leave D.past D.moment D.left_since
        D.left_with };

    ghost untouched = { AnyUntouched D.image D.may_leave D.past D.moment D.left_since
        D.left_with };

    ghost lawful = { λ m. true };

    ghost fault_count = { λ s. D.fault_count (any_disk s) };

    ghost taken_count = { λ s. D.taken_count (any_disk s) };

    ghost replays = { any_replays D.image D.may_leave D.past };

    ghost rising = { any_rising D.image D.may_leave D.past };

    ghost held = { any_held D.image D.may_leave D.past };

    ghost numbered = { any_numbered D.image D.may_leave D.past };

    ghost synced = { any_synced D.image D.may_leave D.past };

    ghost stood_now = { any_stood_now D.image D.may_leave D.past D.moment D.left_since D.left_with
        D.only_now D.only_with D.since_with };

    ghost stood_less = { any_stood_less D.image D.may_leave D.past D.moment D.left_since
        D.left_with };

    ghost stood_stands = { any_stood_stands D.image D.may_leave D.past D.moment D.left_since
        D.left_with };

    ghost stood_safe = { any_stood_safe D.image D.may_leave D.past D.moment D.left_since
        D.left_with };

    ghost safe_less = { any_safe_less D.image D.left_since D.left_with };

    ghost unended = { any_unended D.image };

    ghost values = { any_values };

    ghost untouched_same = { any_untouched_same D.image D.may_leave D.past D.moment D.left_since
        D.left_with };

    ghost untouched_then = { any_untouched_then D.image D.may_leave D.past D.moment D.left_since
        D.left_with D.counts_now D.counts_with };

    ghost tells_need = { any_tells_need D.image };

    ghost by_extents = { any_by_extents D.image };

    fn faults(&self) -> u64 {
        match self {
            AnyStore::Hash(store) => store.faults(),
            AnyStore::Tiny(store) => store.faults(),
        }
    }

    fn taken(&self) -> u64 {
        match self {
            AnyStore::Hash(store) => store.taken(),
            AnyStore::Tiny(store) => store.taken(),
        }
    }

    fn size(&self) -> u64 {
        match self {
            AnyStore::Hash(store) => store.size(),
            AnyStore::Tiny(store) => store.size(),
        }
    }

    fn limit(&self) -> u64 {
        match self {
            AnyStore::Hash(store) => store.limit(),
            AnyStore::Tiny(store) => store.limit(),
        }
    }

    fn order(&self) -> Order {
        match self {
            AnyStore::Hash(store) => store.order(),
            AnyStore::Tiny(store) => store.order(),
        }
    }

    fn next_number(&self) -> u64 {
        match self {
            AnyStore::Hash(store) => store.next_number(),
            AnyStore::Tiny(store) => store.next_number(),
        }
    }

    fn count(&self) -> u64 {
        match self {
            AnyStore::Hash(store) => store.count(),
            AnyStore::Tiny(store) => store.count(),
        }
    }

    fn get(&mut self, key: &[u8], out: &mut Bytes) -> Result<bool, StoreError> {
        match self {
            AnyStore::Hash(store) => store.get(key, out),
            AnyStore::Tiny(store) => store.get(key, out),
        }
    }

    fn get_into(&mut self, key: &[u8], into: &mut [u8]) -> Result<Option<u32>, StoreError> {
        match self {
            AnyStore::Hash(store) => store.get_into(key, into),
            AnyStore::Tiny(store) => store.get_into(key, into),
        }
    }

    fn next(&mut self, bound: &Bound) -> Result<Option<Pair>, StoreError> {
        match self {
            AnyStore::Hash(store) => store.next(bound),
            AnyStore::Tiny(store) => store.next(bound),
        }
    }

    fn prev(&mut self, bound: &Bound) -> Result<Option<Pair>, StoreError> {
        match self {
            AnyStore::Hash(store) => store.prev(bound),
            AnyStore::Tiny(store) => store.prev(bound),
        }
    }

    fn check_group(&mut self, changes: &ChangeList) -> Result<u64, StoreError> {
        match self {
            AnyStore::Hash(store) => store.check_group(changes),
            AnyStore::Tiny(store) => store.check_group(changes),
        }
    }

    fn reserve_group(&mut self, changes: &ChangeList) -> Result<(), StoreError> {
        match self {
            AnyStore::Hash(store) => store.reserve_group(changes),
            AnyStore::Tiny(store) => store.reserve_group(changes),
        }
    }

    fn apply_reserved(&mut self, number: u64) -> Result<(), StoreError> {
        match self {
            AnyStore::Hash(store) => store.apply_reserved(number),
            AnyStore::Tiny(store) => store.apply_reserved(number),
        }
    }

    fn sync(&mut self, hard: bool) -> Result<(), StoreError> {
        match self {
            AnyStore::Hash(store) => store.sync(hard),
            AnyStore::Tiny(store) => store.sync(hard),
        }
    }

    fn close(&mut self, next: u64) -> Result<(), StoreError> {
        match self {
            AnyStore::Hash(store) => store.close(next),
            AnyStore::Tiny(store) => store.close(next),
        }
    }
}
