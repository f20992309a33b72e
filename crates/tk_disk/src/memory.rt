ghost use Rattle.std.specs.Prelude.{◌≡◌, ◌+◌, ◌≤◌, ◌↔◌, length, true, IfOk, OnOk, OnErr, IsErr};
ghost use Rattle.tk_disk.specs.Crash.{Only};
ghost use Rattle.tk_disk.specs.Disk.{capped, ReadsFrom, HasCause};

use crate::tape::Tape;
use crate::{Disk, DiskError};
use std::alloc::Global;
use tk_model::{Bytes, FaultList, NoMemory};

/// A disk in memory. The calls of the list fail, counted from 0, and those that need more than the room.
#[derive(Drop)]
pub struct MemDisk {
    tape: Tape,
    list: FaultList,
    calls: u64,
    faults: u64,
    taken: u64,
}

/// Copies what is there from a place on.
fn get(file: &[u8], at: u64, into: &mut [u8]) -> usize
    ensures bound { result ≤ length into.old }
    ensures bytes { ReadsFrom file.now at into.new result }
{
    if at > file.len() as u64 {
        return 0;
    }
    let rest = &file[at as usize..];
    let n = into.len().min(rest.len());
    into[..n].copy_from_slice(&rest[..n]);
    n
}

impl MemDisk {
    ghost use Rattle.tk_disk.specs.Past.{settled_on};
    ghost use Rattle.tk_disk.specs.MemDisk.{mem_bytes, mem_moment, mem_past, mem_tape, mem_room, mem_list, mem_calls, mem_faults, mem_taken, mem_fails, MemMayLeave, IsKeptOf};

    /// All its memory is taken here.
    pub fn new(
        alloc: Global,
        bytes: Bytes,
        room: u64,
        faults: FaultList,
    ) -> Result<MemDisk, NoMemory>
        ensures bytes { IfOk result (λ d. mem_bytes d ≡ bytes) }
        ensures crash { IfOk result (λ d. Only bytes (MemMayLeave d)) }
        ensures past { IfOk result (λ d. mem_past d ≡ settled_on bytes) }
        ensures moment { IfOk result (λ d. mem_moment d ≡ 0) }
        ensures room { IfOk result (λ d. mem_room d ≡ room) }
        ensures list { IfOk result (λ d. mem_list d ≡ faults) }
        ensures calls { IfOk result (λ d. mem_calls d ≡ 0) }
        ensures faults { IfOk result (λ d. mem_faults d ≡ 0) }
        ensures taken { IfOk result (λ d. mem_taken d ≡ 0) }
    {
        let tape = Tape::new(alloc, bytes.into_vec(), room)?;
        Ok(MemDisk {
            tape,
            list: faults,
            calls: 0,
            faults: 0,
            taken: 0,
        })
    }

    pub fn bytes(&self) -> &[u8]
        ensures { result.now ≡ mem_bytes self.now }
    {
        self.tape.bytes()
    }

    /// The bytes after a crash now that kept so many of those written since the last hard sync, in their order.
    pub fn crash(&self, alloc: Global, keep: u64) -> Result<Bytes, NoMemory>
        ensures image { IfOk result (IsKeptOf self.now keep) }
        ensures left { IfOk result (MemMayLeave self.now) }
    {
        Ok(Bytes::from_vec(self.tape.crash(alloc, keep)?))
    }

    /// Counts a call, and says whether it is to go on.
    fn begin(&mut self, need: u64) -> Result<(), DiskError>
        ensures room { OnOk result (need ≤ mem_room self.old) }
        ensures exact { IsErr result ↔ (mem_fails self.old need ≡ true) }
        ensures cause { HasCause (mem_faults self.old) (mem_faults self.new) result }
        ensures counted { OnErr result (mem_faults self.new ≡ capped (mem_faults self.old + 1)) }
        ensures calls { mem_calls self.new ≡ capped (mem_calls self.old + 1) }
        ensures list { mem_list self.new ≡ mem_list self.old }
        ensures tape { mem_tape self.new ≡ mem_tape self.old }
        ensures taken { mem_taken self.new ≡ mem_taken self.old }
    {
        let here = self.calls;
        self.calls = here.saturating_add(1);
        if self.list.as_slice().contains(&here) || self.tape.room() < need {
            self.faults = self.faults.saturating_add(1);
            return Err(DiskError::Fault);
        }
        Ok(())
    }
}

#[tactic(auto, using(crate::proofs::Still::same_time, crate::proofs::Still::later_time, crate::proofs::Still::later_write, crate::proofs::Still::later_cut, crate::proofs::Still::later_sync, crate::proofs::Still::later_rest, crate::proofs::Still::may_tear, crate::proofs::Still::may_shorten))]
impl Disk for MemDisk {
    ghost use Rattle.std.specs.Prelude.{◌≡◌, ◌+◌, ◌≤◌, ◌^◌, true, false, length, IfOk, OnOk};
    ghost use Rattle.std.specs.Option.{option_map};
    ghost use Rattle.tk_disk.specs.Crash.{Torn, Shortened, Follows};
    ghost use Rattle.tk_disk.specs.Disk.{put_at, ReadsFrom, Takes};
    ghost use Rattle.tk_disk.specs.MemDisk.{mem_bytes, mem_image, mem_moment, mem_tape, mem_past, mem_faults, mem_taken, MemMayLeave, MemLeftSince, MemLeftWith, RunsByList};
    ghost use Rattle.tk_disk.specs.Past.{with_write, Writes};
    ghost use Rattle.tk_disk.specs.Memory.{TapeWrites, TapeCuts, TapeSyncs, TapeRests};
    ghost use Rattle.tk_disk.specs.MemoryLaws.{mem_reads, mem_counts_now, mem_only_now, mem_counts_with, mem_only_with, mem_since_with};

    ghost image = { mem_image };

    ghost may_leave = { MemMayLeave };

    ghost moment = { mem_moment };

    ghost left_since = { MemLeftSince };

    ghost past = { mem_past };

    ghost left_with = { MemLeftWith };

    ghost fault_count = { mem_faults };

    ghost taken_count = { mem_taken };

    ghost reads_left = { λ d. mem_reads d.tape };

    ghost counts_now = { λ d. mem_counts_now d.tape };

    ghost only_now = { λ d. mem_only_now d.tape };

    ghost counts_with = { λ d. mem_counts_with d.tape };

    ghost only_with = { λ d. mem_only_with d.tape };

    ghost since_with = { λ d. mem_since_with d.tape };

    fn faults(&self) -> u64 {
        self.faults
    }

    fn taken(&self) -> u64 {
        self.taken
    }

    fn len(&mut self) -> Result<u64, DiskError>
        ensures value { IfOk result (λ n. n ≡ length (mem_bytes self.old)) }
        ensures taken { mem_taken self.new ≡ mem_taken self.old }
        ensures exact { RunsByList 0 self.old self.new result }
        ensures record { mem_tape self.new ≡ mem_tape self.old }
    {
        self.begin(0)?;
        Ok(self.tape.bytes().len() as u64)
    }

    fn read_at(&mut self, at: u64, into: &mut [u8]) -> Result<usize, DiskError>
        ensures bound { IfOk result (λ n. n ≤ length into.old) }
        ensures bytes { IfOk result (ReadsFrom (mem_bytes self.old) at into.new) }
        ensures taken { Takes (mem_taken self.old) (mem_taken self.new) result }
        ensures exact { RunsByList 0 self.old self.new result }
        ensures record { mem_tape self.new ≡ mem_tape self.old }
    {
        self.begin(0)?;
        let n = get(self.tape.bytes(), at, into);
        self.taken = self.taken.saturating_add(n as u64);
        Ok(n)
    }

    fn write_at(&mut self, at: u64, bytes: &[u8]) -> Result<(), DiskError>
        requires within { at ≤ length (mem_bytes self.old) }
        requires end { at + length bytes.now ≤ 2 ^ 40 }
        ensures written { OnOk result (mem_image self.new ≡ option_map (put_at at bytes.now)
            (mem_image self.old)) }
        ensures taken { mem_taken self.new ≡ mem_taken self.old }
        ensures exact { RunsByList (64 + length bytes.now) self.old self.new result }
        ensures crash { Follows (Torn at (length bytes.now)) (MemMayLeave self.old)
            (MemMayLeave self.new) }
        ensures past { Writes at bytes.now (mem_past self.old) (mem_past self.new) }
        ensures told_past { OnOk result (mem_past self.new ≡ with_write at bytes.now
            (mem_past self.old)) }
        ensures done { OnOk result (TapeWrites at bytes.now (mem_tape self.old)
            (mem_tape self.new)) }
    {
        self.begin(64 + bytes.len() as u64)?;
        self.tape.write(at, bytes);
        Ok(())
    }

    fn cut(&mut self, len: u64) -> Result<(), DiskError>
        requires { len ≤ length (mem_bytes self.old) }
        ensures taken { mem_taken self.new ≡ mem_taken self.old }
        ensures exact { RunsByList 64 self.old self.new result }
        ensures crash { Follows (Shortened len) (MemMayLeave self.old) (MemMayLeave self.new) }
        ensures done { OnOk result (TapeCuts len (mem_tape self.old) (mem_tape self.new)) }
    {
        self.begin(64)?;
        self.tape.cut(len);
        Ok(())
    }

    fn sync(&mut self, hard: bool) -> Result<(), DiskError>
        ensures taken { mem_taken self.new ≡ mem_taken self.old }
        ensures exact { RunsByList 64 self.old self.new result }
        ensures hard { hard ≡ true
            → OnOk result (TapeSyncs (mem_tape self.old) (mem_tape self.new)) }
        ensures soft { hard ≡ false
            → OnOk result (TapeRests (mem_tape self.old) (mem_tape self.new)) }
    {
        self.begin(64)?;
        if hard {
            self.tape.sync_hard();
        } else {
            self.tape.sync_soft();
        }
        Ok(())
    }
}
