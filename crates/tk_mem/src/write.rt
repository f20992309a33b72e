//! Writing the flat text of records, in pieces.
ghost use Rattle.std.specs.Prelude.{◌≡◌, ◌≤◌, ◌+◌, ◌^◌, ◌++◌, length, IfOk, IfSome, OnOk};
ghost use Rattle.std.specs.Option.{is_some, option_map};
ghost use Rattle.tk_disk.specs.Crash.{Only};
ghost use Rattle.tk_flat.specs.Flat.{flat_text};
ghost use Rattle.tk_model.specs.Records.{AllHeld};
ghost use Rattle.tk_model.specs.RecordText.{FitsRecord, lengths_text};
ghost use Rattle.tk_store.specs.PairsLeft.{pairs_left};
ghost use Rattle.tk_store.specs.Store.{HasCause as StoreHasCause, NeverFull, OnNoMemory};
ghost use Rattle.tk_mem.specs.Undo.{text_size};

use std::alloc::Global;
use tk_disk::{Disk, DiskError, zeros};
use tk_model::{Bytes, NoMemory, Pair};
use tk_store::{PairsLeft, StoreError};

const WORD: [u8; 8] = *b"TKPFLAT\n";

/// So many bytes are written at once, or those of a longer value.
const PIECE: usize = 1 << 20;

/// Bytes on their way to a disk: room for a piece, of which so many wait, and the place that they go to.
#[derive(Drop)]
pub(crate) struct Pieces {
    buffer: Bytes,
    used: usize,
    place: u64,
    ghost within: { used ≤ length buffer },
    ghost room: { length buffer ≤ 2 ^ 20 },
}

#[tactic(auto, using(crate::proofs::Written::lengths_told))]
fn lengths_of(pair: &Pair) -> [u8; 6]
    requires { FitsRecord pair.now }
    ensures { result ≡ lengths_text pair.now }
{
    let k = (pair.key.len() as u16).to_be_bytes();
    let v = (pair.value.len() as u32).to_be_bytes();
    [k[0], k[1], v[0], v[1], v[2], v[3]]
}

fn zeros_of(alloc: Global, len: usize) -> Result<Bytes, NoMemory>
    ensures { IfOk result (λ b. length b ≡ len) }
{
    Ok(Bytes::from_vec(zeros(alloc, len)?))
}

impl Pieces {
    ghost use Rattle.std.specs.Prelude.{◌≡◌, ◌≤◌, ◌+◌, ◌^◌, ◌++◌, [], length, IfOk, IfSome, OnOk};
    ghost use Rattle.std.specs.List.{flat_map};
    ghost use Rattle.std.specs.Option.{is_some, option_map};
    ghost use Rattle.tk_disk.specs.Crash.{Only};
    ghost use Rattle.tk_disk.specs.Disk.{HasCause};
    ghost use Rattle.tk_model.specs.RecordText.{record_text, record_size, FitsRecord};
    ghost use Rattle.tk_mem.specs.Undo.{records_size};
    ghost use Rattle.tk_mem.specs.Writing.{waiting, text_so_far, with_more};

    /// Room for a piece; no memory is taken afterwards.
    fn new(alloc: Global) -> Result<Pieces, NoMemory>
        ensures used { IfOk result (λ p. p.used ≡ 0) }
        ensures place { IfOk result (λ p. p.place ≡ 0) }
    {
        Ok(Pieces {
            buffer: zeros_of(alloc, PIECE)?,
            used: 0,
            place: 0,
        })
    }

    /// Writes what waits.
    fn flush<D: Disk>(&mut self, disk: &mut D) -> Result<(), DiskError>
        requires here { IfSome (D.image disk.old) (λ f. length f ≡ self.old.place) }
        requires end { self.old.place + self.old.used ≤ 2 ^ 40 }
        ensures text { OnOk result (text_so_far (D.image disk.new) self.new ≡ text_so_far (D.image disk.old) self.old) }
        ensures here { OnOk result (IfSome (D.image disk.new) (λ f. length f ≡ self.new.place)) }
        ensures end { OnOk result (self.new.place + self.new.used ≡ self.old.place + self.old.used) }
        ensures told { is_some (D.image disk.new) ≡ is_some (D.image disk.old) }
        ensures taken { D.taken_count disk.new ≡ D.taken_count disk.old }
        ensures cause { HasCause (D.fault_count disk.old) (D.fault_count disk.new) result }
        ensures used { OnOk result (self.new.used ≡ 0) }
    {
        disk.write_at(self.place, &self.buffer.as_slice()[..self.used])?;
        self.place += self.used as u64;
        self.used = 0;
        Ok(())
    }

    /// Writes bytes behind all others, where none wait.
    fn write_through<D: Disk>(&mut self, disk: &mut D, bytes: &[u8]) -> Result<(), DiskError>
        requires used { self.old.used ≡ 0 }
        requires here { IfSome (D.image disk.old) (λ f. length f ≡ self.old.place) }
        requires end { self.old.place + self.old.used + length bytes.now ≤ 2 ^ 40 }
        ensures text { OnOk result (text_so_far (D.image disk.new) self.new ≡ with_more bytes.now
            (text_so_far (D.image disk.old) self.old)) }
        ensures here { OnOk result (IfSome (D.image disk.new) (λ f. length f ≡ self.new.place)) }
        ensures end { OnOk result (self.new.place + self.new.used ≡ self.old.place + self.old.used + length bytes.now) }
        ensures told { is_some (D.image disk.new) ≡ is_some (D.image disk.old) }
        ensures taken { D.taken_count disk.new ≡ D.taken_count disk.old }
        ensures cause { HasCause (D.fault_count disk.old) (D.fault_count disk.new) result }
    {
        disk.write_at(self.place, bytes)?;
        self.place += bytes.len() as u64;
        Ok(())
    }

    /// Lets bytes wait behind the others.
    fn keep(&mut self, bytes: &[u8])
        requires { self.old.used + length bytes.now ≤ length self.old.buffer }
        ensures waits { waiting self.new ≡ waiting self.old ++ bytes.now }
        ensures used { self.new.used ≡ self.old.used + length bytes.now }
        ensures place { self.new.place ≡ self.old.place }
    {
        self.buffer.write_at(self.used, bytes);
        self.used += bytes.len();
    }

    /// Puts bytes behind the others.
    fn put<D: Disk>(&mut self, disk: &mut D, bytes: &[u8]) -> Result<(), DiskError>
        requires here { IfSome (D.image disk.old) (λ f. length f ≡ self.old.place) }
        requires end { self.old.place + self.old.used + length bytes.now ≤ 2 ^ 40 }
        ensures text { OnOk result (text_so_far (D.image disk.new) self.new ≡ with_more bytes.now
            (text_so_far (D.image disk.old) self.old)) }
        ensures here { OnOk result (IfSome (D.image disk.new) (λ f. length f ≡ self.new.place)) }
        ensures end { OnOk result (self.new.place + self.new.used ≡ self.old.place + self.old.used + length bytes.now) }
        ensures told { is_some (D.image disk.new) ≡ is_some (D.image disk.old) }
        ensures taken { D.taken_count disk.new ≡ D.taken_count disk.old }
        ensures cause { HasCause (D.fault_count disk.old) (D.fault_count disk.new) result }
    {
        if self.buffer.len() - self.used < bytes.len() {
            self.flush(disk)?;
        }
        if self.buffer.len() - self.used < bytes.len() {
            return self.write_through(disk, bytes);
        }
        self.keep(bytes);
        Ok(())
    }

    /// Puts the text of a record behind the others.
    fn put_record<D: Disk>(&mut self, disk: &mut D, pair: &Pair) -> Result<(), DiskError>
        requires fits { FitsRecord pair.now }
        requires here { IfSome (D.image disk.old) (λ f. length f ≡ self.old.place) }
        requires end { self.old.place + self.old.used + record_size pair.now ≤ 2 ^ 40 }
        ensures text { OnOk result (text_so_far (D.image disk.new) self.new ≡ with_more (record_text pair.now)
            (text_so_far (D.image disk.old) self.old)) }
        ensures here { OnOk result (IfSome (D.image disk.new) (λ f. length f ≡ self.new.place)) }
        ensures end { OnOk result (self.new.place + self.new.used ≡ self.old.place + self.old.used + record_size pair.now) }
        ensures told { is_some (D.image disk.new) ≡ is_some (D.image disk.old) }
        ensures taken { D.taken_count disk.new ≡ D.taken_count disk.old }
        ensures cause { HasCause (D.fault_count disk.old) (D.fault_count disk.new) result }
    {
        self.put(disk, &lengths_of(pair))?;
        self.put(disk, pair.key.as_slice())?;
        self.put(disk, pair.value.as_slice())?;
        Ok(())
    }

    /// Puts the texts of records behind the others.
    fn put_records<D: Disk>(&mut self, disk: &mut D, left: PairsLeft<'_>) -> Result<(), DiskError>
        requires held { AllHeld (pairs_left left) }
        requires here { IfSome (D.image disk.old) (λ f. length f ≡ self.old.place) }
        requires end { self.old.place + self.old.used + records_size (pairs_left left) ≤ 2 ^ 40 }
        ensures text { OnOk result (text_so_far (D.image disk.new) self.new ≡ with_more
            (flat_map record_text (pairs_left left.entry)) (text_so_far (D.image disk.old) self.old)) }
        ensures here { OnOk result (IfSome (D.image disk.new) (λ f. length f ≡ self.new.place)) }
        ensures end { OnOk result (self.new.place + self.new.used ≡ self.old.place + self.old.used + records_size (pairs_left left.entry)) }
        ensures told { is_some (D.image disk.new) ≡ is_some (D.image disk.old) }
        ensures taken { D.taken_count disk.new ≡ D.taken_count disk.old }
        ensures cause { HasCause (D.fault_count disk.old) (D.fault_count disk.new) result }
    {
        let mut rest = left;
        while let Some((pair, behind)) = rest.split_first() {
            self.put_record(disk, pair)?;
            rest = behind;
        }
        Ok(())
    }

    /// The file becomes the text of these records, and that is made durable. No memory is taken.
    fn write_all<D: Disk>(&mut self, disk: &mut D, left: PairsLeft<'_>) -> Result<(), DiskError>
        requires used { self.old.used ≡ 0 }
        requires place { self.old.place ≡ 0 }
        requires held { AllHeld (pairs_left left) }
        requires end { text_size (pairs_left left) ≤ 2 ^ 40 }
        ensures written { OnOk result (D.image disk.new ≡ option_map
            (λ _. flat_text (pairs_left left.entry)) (D.image disk.old)) }
        ensures durable { OnOk result (IfSome (D.image disk.new)
            (λ f. Only f (D.may_leave disk.new))) }
        ensures told { is_some (D.image disk.new) ≡ is_some (D.image disk.old) }
        ensures taken { D.taken_count disk.new ≡ D.taken_count disk.old }
        ensures cause { HasCause (D.fault_count disk.old) (D.fault_count disk.new) result }
    {
        disk.cut(0)?;
        self.put(disk, &WORD)?;
        self.put_records(disk, left)?;
        self.flush(disk)?;
        disk.sync(true)?;
        Ok(())
    }
}

/// The file becomes the text of these records, and that is made durable. Want of memory leaves it as it was.
pub(crate) fn write_text<D: Disk>(
    alloc: Global,
    disk: &mut D,
    left: PairsLeft<'_>,
) -> Result<(), StoreError>
    requires held { AllHeld (pairs_left left) }
    requires end { text_size (pairs_left left) ≤ 2 ^ 40 }
    ensures written { OnOk result (D.image disk.new ≡ option_map (λ _. flat_text (pairs_left left.entry))
        (D.image disk.old)) }
    ensures durable { OnOk result (IfSome (D.image disk.new) (λ f. Only f (D.may_leave disk.new))) }
    ensures unwritten { OnNoMemory result (disk.new ≡ disk.old) }
    ensures told { is_some (D.image disk.new) ≡ is_some (D.image disk.old) }
    ensures taken { D.taken_count disk.new ≡ D.taken_count disk.old }
    ensures cause { StoreHasCause (D.fault_count disk.old) (D.fault_count disk.new) result }
    ensures never { NeverFull result }
{
    let mut pieces = Pieces::new(alloc)?;
    match pieces.write_all(disk, left) {
        Ok(()) => Ok(()),
        Err(_) => Err(StoreError::Fault),
    }
}
