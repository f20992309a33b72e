//! The part of a file that was read and isn't passed yet.
ghost use Rattle.std.specs.Prelude.{◌≡◌, ◌≤◌, ◌<◌, ◌^◌, ◌+◌, ◌-◌, ℕ, List, [], ◌++◌, length, drop, min, ◌⊎◌, IfErr, IsErrOf, IfSome, OnOk};
ghost use Rattle.std.specs.Io.{StartsWith};
ghost use Rattle.tk_model.specs.declared.error.OpenError.TheVariants as errors;
ghost use Rattle.tk_model.specs.declared.error.OpenError.TheVariants.{BrokenAt};
ghost use Rattle.tk_disk.specs.Crash.{OnlyReads};
ghost use Rattle.tk_append.specs.Read.{IsOutside, HasOpenCause};
ghost use Rattle.tk_append.specs.Walked.{Shows, HoldsBlock};
ghost use Rattle.tk_block.specs.Sizes.{closing_place};

use std::alloc::Global;
use tk_block::{BODY_OFFSET, CLOSING_PLACE, EXTENT_OFFSET, u64_at};
use tk_disk::{Disk, DiskError};
use tk_model::{NoMemory, OpenError};

/// So many bytes are read at once where no block is longer.
const PIECE: u64 = 1 << 20;

/// No block of the format is as long.
const LONGEST: u64 = 1 << 26;

/// Fills the bytes from a place of the disk's file on. A file that ends before is not as long as its closing part says.
pub fn read_piece<D: Disk>(disk: &mut D, at: u64, into: &mut [u8]) -> Result<(), OpenError>
    ensures shows { OnOk result (Shows (D.image disk.old) at into.new) }
    ensures outside { IfSome (D.image disk.old) (λ f. at + length into.old ≤ length f
        → IfErr result IsOutside) }
    ensures short { IfErr result (λ e. IsOutside e
        ⊎ ((e ≡ BrokenAt closing_place) × (D.fault_count disk.new ≡ D.fault_count disk.old))) }
    ensures unmet { IsErrOf result errors.NoMemory → ⊥ }
    ensures image { D.image disk.new ≡ D.image disk.old }
    ensures cause { HasOpenCause (D.fault_count disk.old) (D.fault_count disk.new) result }
    ensures still { OnlyReads D.may_leave D.moment D.left_since D.past D.left_with disk.old
        disk.new }
{
    match disk.read_at(at, into) {
        Ok(got) if got == into.len() => Ok(()),
        Ok(_) => Err(OpenError::BrokenAt(CLOSING_PLACE)),
        Err(DiskError::Fault) => Err(OpenError::Fault),
        Err(DiskError::NoMemory) => Err(OpenError::NoMemory),
    }
}

/// Bytes of a file that follow one another, in a buffer that grows to the longest block.
#[derive(Drop)]
pub struct Window {
    buffer: Vec<u8>,
    start: usize,
    end: usize,
    ghost ordered: { start ≤ end },
    ghost within: { end ≤ length buffer.items },
}

impl Window {
    ghost use Rattle.std.specs.Prelude.{◌≡◌, ◌≤◌, ◌<◌, ◌^◌, ◌+◌, ◌-◌, ℕ, List, [], ◌++◌, length, drop, min, ◌⊎◌, IfErr, IfSome, OnOk};
    ghost use Rattle.std.specs.Io.{StartsWith};
    ghost use Rattle.tk_model.specs.declared.error.OpenError.TheVariants.{BrokenAt};
    ghost use Rattle.tk_disk.specs.Crash.{OnlyReads};
    ghost use Rattle.tk_block.specs.Sizes.{closing_place};
    ghost use Rattle.tk_append.specs.Read.{IsOutside, HasOpenCause};
    ghost use Rattle.tk_append.specs.Walked.{Shows, HoldsBlock};
    ghost use Rattle.tk_append.specs.Windows.{items, room};

    /// Nothing is read yet.
    pub fn new(alloc: Global) -> Window
        ensures { items result ≡ [] }
    {
        Window {
            buffer: Vec::new(alloc),
            start: 0,
            end: 0,
        }
    }

    /// What was read and isn't passed.
    pub fn as_slice(&self) -> &[u8]
        ensures { result.now ≡ items self.now }
    {
        &self.buffer[self.start..self.end]
    }

    /// Takes bytes from the front.
    pub fn pass(&mut self, count: usize)
        requires { count ≤ length (items self.old) }
        ensures { items self.new ≡ drop count (items self.old) }
    {
        self.start += count;
    }

    fn move_to_front(&mut self)
        ensures items { items self.new ≡ items self.old }
        ensures front { self.new.start ≡ 0 }
    {
        let (start, end) = (self.start, self.end);
        self.buffer.copy_within(start..end, 0);
        self.start = 0;
        self.end = end - start;
    }

    /// Has room for so many bytes more.
    fn make_room(&mut self, count: usize) -> Result<(), NoMemory>
        requires { count ≤ 2 ^ 26 }
        ensures items { OnOk result (items self.new ≡ items self.old) }
        ensures room { OnOk result (count ≤ room self.new) }
    {
        self.move_to_front();
        let full = self.end + count;
        if self.buffer.len() < full {
            self.buffer.resize(full, 0)?;
        }
        Ok(())
    }

    /// Reads so many bytes behind those that are there.
    fn read<D: Disk>(&mut self, disk: &mut D, at: u64, count: usize) -> Result<(), OpenError>
        requires { count ≤ room self.old }
        ensures more { OnOk result ((more : List ℕ) × (items self.new ≡ items self.old ++ more)
            × (length more ≡ count) × Shows (D.image disk.old) at more) }
        ensures outside { IfSome (D.image disk.old) (λ f. at + count ≤ length f
            → IfErr result IsOutside) }
        ensures short { IfErr result (λ e. IsOutside e
            ⊎ ((e ≡ BrokenAt closing_place) × (D.fault_count disk.new ≡ D.fault_count disk.old))) }
        ensures image { D.image disk.new ≡ D.image disk.old }
        ensures cause { HasOpenCause (D.fault_count disk.old) (D.fault_count disk.new) result }
        ensures still { OnlyReads D.may_leave D.moment D.left_since D.past D.left_with disk.old
            disk.new }
    {
        let end = self.end;
        read_piece(disk, at, &mut self.buffer[end..end + count])?;
        self.end = end + count;
        Ok(())
    }

    /// Has so many bytes of the file from this place on, or all that are left.
    pub fn fill<D: Disk>(
        &mut self,
        disk: &mut D,
        place: u64,
        need: u64,
        left: u64,
    ) -> Result<(), OpenError>
        requires need { need ≤ 2 ^ 26 }
        requires end { place + left < 2 ^ 64 }
        requires held { length (items self.old) ≤ left }
        ensures grows { OnOk result (StartsWith (items self.new) (items self.old)) }
        ensures shows { Shows (D.image disk.old) place (items self.old)
            → OnOk result (Shows (D.image disk.old) place (items self.new)) }
        ensures long { OnOk result (min need left ≤ length (items self.new)) }
        ensures held { OnOk result (length (items self.new) ≤ left) }
        ensures outside { IfSome (D.image disk.old) (λ f. place + left ≤ length f
            → IfErr result IsOutside) }
        ensures short { IfErr result (λ e. IsOutside e
            ⊎ ((e ≡ BrokenAt closing_place) × (D.fault_count disk.new ≡ D.fault_count disk.old))) }
        ensures image { D.image disk.new ≡ D.image disk.old }
        ensures cause { HasOpenCause (D.fault_count disk.old) (D.fault_count disk.new) result }
        ensures still { OnlyReads D.may_leave D.moment D.left_since D.past D.left_with disk.old
            disk.new }
    {
        let held = self.as_slice().len() as u64;
        if need.min(left) <= held {
            return Ok(());
        }
        let count = need.max(PIECE).min(left) - held;
        self.make_room(count as usize)?;
        self.read(disk, place + held, count as usize)
    }

    /// Has the block at this place, or all bytes that are left.
    pub fn hold_block<D: Disk>(
        &mut self,
        disk: &mut D,
        place: u64,
        left: u64,
    ) -> Result<(), OpenError>
        requires end { place + left < 2 ^ 64 }
        requires held { length (items self.old) ≤ left }
        ensures block { OnOk result (HoldsBlock left (items self.new)) }
        ensures shows { Shows (D.image disk.old) place (items self.old)
            → OnOk result (Shows (D.image disk.old) place (items self.new)) }
        ensures held { OnOk result (length (items self.new) ≤ left) }
        ensures outside { IfSome (D.image disk.old) (λ f. place + left ≤ length f
            → IfErr result IsOutside) }
        ensures image { D.image disk.new ≡ D.image disk.old }
        ensures cause { HasOpenCause (D.fault_count disk.old) (D.fault_count disk.new) result }
        ensures still { OnlyReads D.may_leave D.moment D.left_since D.past D.left_with disk.old
            disk.new }
    {
        self.fill(disk, place, BODY_OFFSET as u64, left)?;
        let bytes = self.as_slice();
        if bytes.len() < BODY_OFFSET {
            return Ok(());
        }
        let extent = u64_at(bytes, EXTENT_OFFSET);
        if extent > LONGEST {
            return Ok(());
        }
        self.fill(disk, place, extent, left)
    }
}
