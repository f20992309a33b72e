//! Reading the file of a store.
ghost use Rattle.std.specs.Prelude.{◌≡◌, ◌≢◌, ◌⊎◌, ◌≤◌, ◌<◌, ◌+◌, ◌∷◌, ◌++◌, ℕ, List, [], length, drop, true, false, IfOk, IfErr, IfSome, IfNone, OnOk, OnErr, Err};
ghost use Rattle.tk_flat.specs.Flat.{flat_word, IsFlat};
ghost use Rattle.tk_model.specs.Counts.{HasCause};
ghost use Rattle.tk_model.specs.RecordText.{BeginsWith, pair_here};
ghost use Rattle.tk_model.specs.declared.error.OpenError.TheVariants as OpenError;
ghost use Rattle.tk_model.specs.declared.record.Pair.{Pair as OneRecord};
ghost use Rattle.tk_model.specs.Records.{Rising, AllHeld};
ghost use Rattle.tk_model.specs.declared.record.Order.TheVariants.{Hash};
ghost use Rattle.tk_mem.specs.TinyFile.{AreFiled, FailsAt, NoneFollows, IsAccepted, IsCause, IsOutside};
ghost use Rattle.tk_mem.specs.Loading.{ComesNext, IsLoaded, Takes, IsReadTo};
ghost use Rattle.tk_model.specs.Entries.{holds_key};
ghost use Rattle.tk_mem.specs.Undo.{text_size};

use std::alloc::Global;
use tk_disk::{Disk, DiskError, zeros};
use tk_flat::flat_record;
use tk_model::{Bytes, NoMemory, OpenError, Order, Pair, RecordHere, ShardOf, before, mix, shard};
use tk_store::HashedRecords;

const WORD: [u8; 8] = *b"TKPFLAT\n";

/// So many bytes are read at once where no record is longer.
const PIECE: u64 = 1 << 20;

/// The longest record of a flat text.
const LONGEST: u64 = 6 + 65_535 + 33_554_431;

/// The records that were read, and the key of the last.
#[derive(Drop)]
pub(crate) struct Loading {
    records: HashedRecords,
    last: Bytes,
}

/// A disk's answer as an opening's: its only error is a fault.
fn as_open_error<T>(answer: Result<T, DiskError>) -> Result<T, OpenError>
    ensures ok { IfOk answer (λ v. result ≡ Ok v) }
    ensures err { OnErr answer (result ≡ Err OpenError.Fault) }
{
    match answer {
        Ok(value) => Ok(value),
        Err(_) => Err(OpenError::Fault),
    }
}

/// The key is of the shard.
fn is_of(key: &[u8], of: ShardOf) -> bool
    requires { of.index < of.of }
    ensures { result ≡ holds_key of key.now }
{
    shard(mix(key), of.of) == of.index
}

impl Loading {
    fn new(alloc: Global) -> Result<Loading, NoMemory>
        ensures { IfOk result (λ l. l.records ≡ []) }
    {
        Ok(Loading {
            records: HashedRecords::new(alloc, 4)?,
            last: Bytes::new(alloc),
        })
    }

    /// The key comes behind the last.
    fn is_behind(&self, key: &[u8]) -> bool
        ensures yes { result ≡ true → ComesNext self.now key.now }
        ensures no { result ≡ false → ComesNext self.now key.now → ⊥ }
    {
        self.records.is_empty() || before(&Order::Hash, self.last.as_slice(), key)
    }

    /// A record with this key may follow.
    fn may_follow(&self, key: &[u8], of: ShardOf) -> bool
        requires { of.index < of.of }
        ensures yes { result ≡ true → ComesNext self.now key.now × (holds_key of key.now ≡ true) }
        ensures no { result ≡ false → ComesNext self.now key.now → holds_key of key.now ≡ true
            → ⊥ }
    {
        self.is_behind(key) && is_of(key, of)
    }

    /// The record at the front, where it may follow.
    fn next<'a>(&self, bytes: &'a [u8], of: ShardOf) -> Option<RecordHere<'a>>
        requires loaded { IsLoaded of self.now }
        requires shard { of.index < of.of }
        ensures found { IfSome result (λ r. BeginsWith bytes.now (pair_here r) r.rest.now) }
        ensures filed { IfSome result (λ r. AreFiled of (self.now.records ++ pair_here r ∷ [])) }
        ensures none { IfNone result (NoneFollows of self.now.records bytes.now) }
    {
        let Some(here) = flat_record(bytes) else {
            return None;
        };
        if self.may_follow(here.key, of) {
            Some(here)
        } else {
            None
        }
    }

    /// Puts a record behind the others.
    fn add(&mut self, alloc: Global, here: &RecordHere<'_>) -> Result<(), NoMemory>
        requires { Rising Hash (self.old.records ++ pair_here here.now ∷ []) }
        ensures records { OnOk result (self.new.records ≡ self.old.records ++ pair_here here.now
            ∷ []) }
        ensures last { OnOk result (self.new.last ≡ here.now.key.now) }
    {
        let key = Bytes::from_slice(alloc, here.key)?;
        let value = Bytes::from_slice(alloc, here.value)?;
        self.last.clear();
        self.last.extend(here.key)?;
        self.records.widen()?;
        self.records.put(Pair { key, value })?;
        Ok(())
    }

    /// Takes the records that stand whole at the front, and answers how many bytes they are.
    fn take(&mut self, alloc: Global, bytes: &[u8], of: ShardOf) -> Result<usize, NoMemory>
        requires loaded { IsLoaded of self.old }
        requires shard { of.index < of.of }
        ensures loaded { OnOk result (IsLoaded of self.new) }
        ensures takes { IfOk result (Takes self.old.records self.new.records bytes.now) }
        ensures none { IfOk result (λ n. NoneFollows of self.new.records (drop n bytes.now)) }
    {
        let mut rest = bytes;
        while let Some(here) = self.next(rest, of) {
            self.add(alloc, &here)?;
            rest = here.rest;
        }
        Ok(bytes.len() - rest.len())
    }
}

/// Takes the records that stand whole in the bytes from a place on, as many bytes as are read at once.
fn take_piece<D: Disk>(
    alloc: Global,
    disk: &mut D,
    loading: &mut Loading,
    place: u64,
    buffer: &mut [u8],
    of: ShardOf,
) -> Result<u64, OpenError>
    requires loaded { IsLoaded of loading.old }
    requires shard { of.index < of.of }
    requires read { IsReadTo (D.image disk.old) place loading.old.records }
    ensures read { IfOk result (λ n. IsReadTo (D.image disk.old) (place + n) loading.new.records) }
    ensures within { IfOk result (λ n. n ≤ length buffer.old) }
    ensures none { IfSome (D.image disk.old)
        (λ f. (length f ≤ place + length buffer.old) ⊎ (33619972 ≤ length buffer.old)
        → IfOk result (λ n. n ≡ 0 → NoneFollows of loading.new.records (drop place f))) }
    ensures loaded { OnOk result (IsLoaded of loading.new) }
    ensures image { D.image disk.new ≡ D.image disk.old }
    ensures cause { HasCause OpenError.Fault (D.fault_count disk.old) (D.fault_count disk.new)
        result }
    ensures outside { IfErr result IsOutside }
{
    let got = as_open_error(disk.read_at(place, buffer))?;
    Ok(loading.take(alloc, &buffer[..got], of)? as u64)
}

/// Takes records from a place on, at least one where the next may follow.
fn take_some<D: Disk>(
    alloc: Global,
    disk: &mut D,
    loading: &mut Loading,
    place: u64,
    left: u64,
    of: ShardOf,
) -> Result<u64, OpenError>
    requires loaded { IsLoaded of loading.old }
    requires shard { of.index < of.of }
    requires read { IsReadTo (D.image disk.old) place loading.old.records }
    requires end { IfSome (D.image disk.old) (λ f. length f ≡ place + left) }
    ensures read { IfOk result (λ n. IsReadTo (D.image disk.old) (place + n) loading.new.records) }
    ensures within { IfOk result (λ n. n ≤ left) }
    ensures none { IfSome (D.image disk.old) (λ f. IfOk result (λ n. n ≡ 0
        → NoneFollows of loading.new.records (drop place f))) }
    ensures loaded { OnOk result (IsLoaded of loading.new) }
    ensures image { D.image disk.new ≡ D.image disk.old }
    ensures cause { HasCause OpenError.Fault (D.fault_count disk.old) (D.fault_count disk.new)
        result }
    ensures outside { IfErr result IsOutside }
{
    let mut buffer = zeros(alloc, left.min(PIECE) as usize)?;
    let taken = take_piece(alloc, disk, loading, place, &mut buffer, of)?;
    if taken > 0 || left <= PIECE {
        return Ok(taken);
    }
    let mut buffer = zeros(alloc, left.min(LONGEST) as usize)?;
    take_piece(alloc, disk, loading, place, &mut buffer, of)
}

/// The file begins with the word of a flat text.
fn has_word<D: Disk>(disk: &mut D) -> Result<bool, OpenError>
    ensures yes { IfSome (D.image disk.old) (λ f. IfOk result (λ yes. yes ≡ true
        → f ≡ flat_word ++ drop 8 f)) }
    ensures no { IfSome (D.image disk.old) (λ f. IfOk result (λ yes. yes ≡ false
        → (rest : List ℕ) → f ≢ flat_word ++ rest)) }
    ensures image { D.image disk.new ≡ D.image disk.old }
    ensures cause { HasCause OpenError.Fault (D.fault_count disk.old) (D.fault_count disk.new)
        result }
    ensures outside { IfErr result IsOutside }
{
    let mut front = [0; 8];
    let got = as_open_error(disk.read_at(0, &mut front))?;
    Ok(got == 8 && front == WORD)
}

/// Takes all records behind the word.
fn take_all<D: Disk>(
    alloc: Global,
    disk: &mut D,
    loading: &mut Loading,
    size: u64,
    of: ShardOf,
) -> Result<u64, OpenError>
    requires loaded { IsLoaded of loading.old }
    requires shard { of.index < of.of }
    requires read { IsReadTo (D.image disk.old) 8 loading.old.records }
    requires size { IfSome (D.image disk.old) (λ f. length f ≡ size) }
    ensures read { IfOk result (λ n. IsReadTo (D.image disk.old) n loading.new.records) }
    ensures end { IfOk result (λ n. size ≤ n) }
    ensures refused { IfSome (D.image disk.old) (λ f. IfErr result (λ e. IsOutside e
        ⊎ ((place : ℕ) × (e ≡ OpenError.BrokenAt place) × FailsAt of f place))) }
    ensures loaded { OnOk result (IsLoaded of loading.new) }
    ensures image { D.image disk.new ≡ D.image disk.old }
    ensures cause { HasCause OpenError.Fault (D.fault_count disk.old) (D.fault_count disk.new)
        result }
{
    let mut place = 8;
    while place < size {
        let taken = take_some(alloc, disk, loading, place, size - place, of)?;
        if taken == 0 {
            return Err(OpenError::BrokenAt(place));
        }
        place += taken;
    }
    Ok(place)
}

/// The records of a file, and the length of their text. A writable opening takes an empty file.
pub(crate) fn read_records<D: Disk>(
    alloc: Global,
    disk: &mut D,
    writable: bool,
    of: ShardOf,
) -> Result<(HashedRecords, u64), OpenError>
    requires { of.index < of.of }
    ensures accepted { IfSome (D.image disk.old)
        (λ f. IfOk result (λ r. IsAccepted of writable f r.0)) }
    ensures refused { IfSome (D.image disk.old) (λ f. IfErr result (IsCause of writable f)) }
    ensures size { IfOk result (λ r. r.1 ≡ text_size r.0) }
    ensures held { IfOk result (λ r. AllHeld r.0) }
    ensures image { D.image disk.new ≡ D.image disk.old }
    ensures cause { HasCause OpenError.Fault (D.fault_count disk.old) (D.fault_count disk.new)
        result }
{
    let mut loading = Loading::new(alloc)?;
    let size = as_open_error(disk.len())?;
    if size == 0 && writable {
        return Ok((loading.records, 8));
    }
    if !has_word(disk)? {
        return Err(OpenError::NotADatabase);
    }
    let size = take_all(alloc, disk, &mut loading, size, of)?;
    Ok((loading.records, size))
}
