ghost use Rattle.std.specs.Prelude.{◌≡◌, ◌≢◌, ◌+◌, ◌<◌, ◌↔◌, ℕ, List, [], length, true, false, IfOk, IfSome, IfNone, MatchOption, OnSome, OnOk, OnErr, IsErr, IsErrOf, Some, None};
ghost use Rattle.tk_disk.specs.Disk.{capped, HasCause};
ghost use Rattle.tk_disk.specs.Folder.{SameBut};
ghost use Rattle.tk_disk.specs.MemFolder.{slot_disk, slot_file, slot_is_out, slot_faults};
ghost use Rattle.tk_disk.specs.Places.{held_at, IsNamed, IsAbsent};

use crate::places::{Place, append, exchange, find, put};
use crate::{Disk, DiskError, Folder, MemDisk};
use std::alloc::Global;
use tk_model::{Bytes, FaultList, NoMemory};

/// A disk at home, or the faults that it had when it was taken out.
#[derive(Drop)]
enum Slot {
    Here(MemDisk),
    Out(u64),
}

/// A folder in memory. The calls of the list fail, counted from 0.
#[derive(Drop)]
pub struct MemFolder {
    alloc: Global,
    places: Vec<Place<Slot>>,
    room: u64,
    list: FaultList,
    calls: u64,
    faults: u64,
}

fn faults_of(slot: &Slot) -> u64
    ensures { result ≡ slot_faults (Some slot.now) }
{
    match slot {
        Slot::Here(disk) => disk.faults(),
        Slot::Out(faults) => *faults,
    }
}

fn bytes_of(slot: &Slot) -> Option<&[u8]>
    ensures { MatchOption result (slot_file (Some slot.now) ≡ None) (λ b. slot_file (Some slot.now)
        ≡ Some b.now) }
{
    match slot {
        Slot::Here(disk) => Some(disk.bytes()),
        Slot::Out(_) => None,
    }
}

/// Takes the disk of a name out, and keeps its place.
fn take_out(places: &mut [Place<Slot>], name: &str) -> Option<MemDisk>
    requires home { slot_is_out (held_at places.old name.now) ≡ false }
    ensures disk { result ≡ slot_disk (held_at places.old name.now) }
    ensures out { OnSome result (held_at places.new name.now ≡ Some
        (Slot.Out (slot_faults (held_at places.old name.now)))) }
    ensures absent { IfNone result (IsAbsent places.old name.now) }
    ensures none { IfNone result (held_at places.old name.now ≡ None) }
    ensures same { IfNone result (places.new ≡ places.old) }
    ensures others { SameBut name.now (held_at places.old) (held_at places.new) }
{
    let Some(i) = find(places, name) else {
        return None;
    };
    let faults = faults_of(&places[i].held);
    match exchange(places, i, Slot::Out(faults)) {
        Slot::Here(disk) => Some(disk),
        Slot::Out(_) => unreachable!(),
    }
}

/// Puts a disk back in its place.
fn put_back(places: &mut [Place<Slot>], name: &str, disk: MemDisk)
    requires out { slot_is_out (held_at places.old name.now) ≡ true }
    ensures here { held_at places.new name.now ≡ Some (Slot.Here disk) }
    ensures others { SameBut name.now (held_at places.old) (held_at places.new) }
{
    match find(places, name) {
        Some(i) => {
            exchange(places, i, Slot::Here(disk));
        }
        None => unreachable!(),
    }
}

impl MemFolder {
    ghost use Rattle.tk_disk.specs.Folder.{NoneOut, SameHistory};
    ghost use Rattle.tk_disk.specs.Past.{settled_on};
    ghost use Rattle.tk_disk.specs.MemDisk.{mem_faults, mem_moment, mem_past, MemMayLeave, MemLeftSince, MemLeftWith};
    ghost use Rattle.tk_disk.specs.MemFolder.{folder_disk, folder_file, folder_is_out, folder_disk_faults, folder_faults, folder_room, folder_list, folder_calls, folder_fails, folder_moment_of, folder_past_of, FolderLeaves, FolderLeftSince, FolderLeftWith, FolderKeeps, IsNewDisk};

    /// A folder of no files. Each disk that it creates has the room, and fails by it alone.
    pub fn new(alloc: Global, room: u64, faults: FaultList) -> MemFolder
        ensures empty { (name : List ℕ) → folder_disk result name ≡ None }
        ensures crash { (name c : List ℕ) → FolderLeaves result name c → c ≡ [] }
        ensures moment { (name : List ℕ) → folder_moment_of result name ≡ 0 }
        ensures past { (name : List ℕ) → folder_past_of result name ≡ settled_on [] }
        ensures out { NoneOut (folder_is_out result) }
        ensures disk_faults { (name : List ℕ) → folder_disk_faults result name ≡ 0 }
        ensures room { folder_room result ≡ room }
        ensures list { folder_list result ≡ faults }
        ensures calls { folder_calls result ≡ 0 }
        ensures faults { folder_faults result ≡ 0 }
    {
        MemFolder {
            alloc,
            places: Vec::new(alloc),
            room,
            list: faults,
            calls: 0,
            faults: 0,
        }
    }

    /// Puts a file into the folder, in place of the one of that name.
    pub fn add(&mut self, name: &str, disk: MemDisk) -> Result<(), NoMemory>
        requires home { folder_is_out self.old name.now ≡ false }
        ensures here { OnOk result (folder_disk self.new name.now ≡ Some disk) }
        ensures crash { OnOk result (SameHistory (mem_moment disk)
            (folder_moment_of self.new name.now)
            (MemMayLeave disk) (FolderLeaves self.new name.now)
            (MemLeftSince disk) (FolderLeftSince self.new name.now)
            (mem_past disk) (folder_past_of self.new name.now)
            (MemLeftWith disk) (FolderLeftWith self.new name.now)) }
        ensures err_crash { OnErr result (FolderKeeps self.old self.new name.now) }
        ensures others_crash { (m : List ℕ) → m ≢ name.now → FolderKeeps self.old self.new m }
        ensures out { folder_is_out self.new name.now ≡ false }
        ensures count { OnOk result (folder_disk_faults self.new name.now ≡ mem_faults disk) }
        ensures others { SameBut name.now (folder_disk self.old) (folder_disk self.new) }
        ensures others_out { SameBut name.now (folder_is_out self.old) (folder_is_out self.new) }
        ensures others_count { SameBut name.now (folder_disk_faults self.old)
            (folder_disk_faults self.new) }
        ensures err { OnErr result (folder_disk self.new name.now ≡ folder_disk self.old name.now) }
        ensures err_count { OnErr result (folder_disk_faults self.new name.now ≡ folder_disk_faults
            self.old name.now) }
        ensures room { folder_room self.new ≡ folder_room self.old }
        ensures list { folder_list self.new ≡ folder_list self.old }
        ensures calls { folder_calls self.new ≡ folder_calls self.old }
        ensures faults { folder_faults self.new ≡ folder_faults self.old }
    {
        put(self.alloc, &mut self.places, name, Slot::Here(disk))
    }

    /// What the file of a name holds.
    pub fn bytes(&self, name: &str) -> Option<&[u8]>
        requires home { folder_is_out self.now name.now ≡ false }
        ensures { MatchOption result (folder_file self.now name.now ≡ None)
            (λ b. folder_file self.now name.now ≡ Some b.now) }
    {
        match find(&self.places, name) {
            Some(i) => bytes_of(&self.places[i].held),
            None => None,
        }
    }

    /// Counts a call, and says whether it is to go on.
    fn begin(&mut self) -> Result<(), DiskError>
        ensures exact { IsErr result ↔ (folder_fails self.old ≡ true) }
        ensures cause { HasCause (folder_faults self.old) (folder_faults self.new) result }
        ensures counted { OnErr result (folder_faults self.new ≡ capped
            (folder_faults self.old + 1)) }
        ensures calls { folder_calls self.new ≡ capped (folder_calls self.old + 1) }
        ensures list { folder_list self.new ≡ folder_list self.old }
        ensures room { folder_room self.new ≡ folder_room self.old }
        ensures places { self.new.places ≡ self.old.places }
    {
        let here = self.calls;
        self.calls = here.saturating_add(1);
        if self.list.as_slice().contains(&here) {
            self.faults = self.faults.saturating_add(1);
            return Err(DiskError::Fault);
        }
        Ok(())
    }

    /// A new disk, whose place is kept.
    fn create(&mut self, name: &str) -> Result<MemDisk, NoMemory>
        requires { IsAbsent self.old.places.items name.now }
        ensures fresh { IfOk result (IsNewDisk (folder_room self.old)) }
        ensures out { OnOk result (held_at self.new.places.items name.now ≡ Some (Slot.Out 0)) }
        ensures others { SameBut name.now (held_at self.old.places.items)
            (held_at self.new.places.items) }
        ensures err { OnErr result (self.new.places.items ≡ self.old.places.items) }
        ensures list { folder_list self.new ≡ folder_list self.old }
        ensures room { folder_room self.new ≡ folder_room self.old }
        ensures calls { folder_calls self.new ≡ folder_calls self.old }
        ensures faults { folder_faults self.new ≡ folder_faults self.old }
    {
        let alloc = self.alloc;
        let disk = MemDisk::new(alloc, Bytes::new(alloc), self.room, FaultList::new(alloc))?;
        append(alloc, &mut self.places, name, Slot::Out(0))?;
        Ok(disk)
    }
}

#[tactic(auto, using(crate::proofs::Histories::kept, crate::proofs::Histories::given, crate::proofs::Histories::taken, crate::proofs::Histories::created))]
impl Folder for MemFolder {
    ghost use Rattle.std.specs.Prelude.{◌≡◌, ◌≢◌, ℕ, List, true, false, IsSome, IfOk, IfSome, IfNone, OnOk, OnErr, OnSome, None, Some, IsErrOf};
    ghost use Rattle.tk_disk.specs.Disk.{HasCause, HasFaultCause};
    ghost use Rattle.tk_disk.specs.Folder.{or_empty, SameBut, SameHistory};
    ghost use Rattle.tk_disk.specs.FolderLaws.{slot_reads, slot_counts_now, slot_only_now, slot_counts_with, slot_only_with, slot_since_with};
    ghost use Rattle.tk_disk.specs.MemDisk.{mem_image, mem_faults, mem_moment, mem_past, MemMayLeave, MemLeftSince, MemLeftWith};
    ghost use Rattle.tk_disk.specs.Places.{held_at};
    ghost use Rattle.tk_disk.specs.MemFolder.{folder_tells, folder_disk, folder_file, folder_is_out, folder_disk_faults, folder_faults, folder_room, folder_moment_of, folder_past_of, FolderLeaves, FolderLeftSince, FolderLeftWith, FolderKeeps, FailsByList, IsTakenFrom};

    type D = MemDisk;

    ghost tells = { folder_tells };

    ghost file = { folder_file };

    ghost is_out = { folder_is_out };

    ghost fault_count = { folder_faults };

    ghost disk_faults = { folder_disk_faults };

    ghost leaves = { FolderLeaves };

    ghost moment_of = { folder_moment_of };

    ghost left_since = { FolderLeftSince };

    ghost past_of = { folder_past_of };

    ghost left_with = { FolderLeftWith };

    ghost reads_left = { λ f name. slot_reads (held_at f.places.items name) };

    ghost counts_now = { λ f name. slot_counts_now (held_at f.places.items name) };

    ghost only_now = { λ f name. slot_only_now (held_at f.places.items name) };

    ghost counts_with = { λ f name. slot_counts_with (held_at f.places.items name) };

    ghost only_with = { λ f name. slot_only_with (held_at f.places.items name) };

    ghost since_with = { λ f name. slot_since_with (held_at f.places.items name) };

    fn faults(&self) -> u64 {
        self.faults
    }

    fn take(&mut self, name: &str, create: bool) -> Result<Option<MemDisk>, DiskError>
        requires home { folder_is_out self.old name.now ≡ false }
        ensures absent { IfOk result (λ o. IfNone o ((create ≡ false)
            × (folder_tells self.old ≡ true → folder_file self.old name.now ≡ None))) }
        ensures there { IfOk result (λ o. OnSome o (create ≡ false → folder_tells self.old ≡ true
            → IsSome (folder_file self.old name.now))) }
        ensures image { IfOk result (λ o. IfSome o (λ d. folder_tells self.old ≡ true
            → mem_image d ≡ Some (or_empty (folder_file self.old name.now)))) }
        ensures count { IfOk result (λ o. IfSome o (λ d. mem_faults d ≡ folder_disk_faults self.old
            name.now)) }
        ensures out { IfOk result (λ o. OnSome o (folder_is_out self.new name.now ≡ true)) }
        ensures none_out { IfOk result (λ o. IfNone o (folder_is_out self.new name.now ≡ false)) }
        ensures err_out { OnErr result (folder_is_out self.new name.now ≡ false) }
        ensures others_out { SameBut name.now (folder_is_out self.old) (folder_is_out self.new) }
        ensures others { SameBut name.now (folder_file self.old) (folder_file self.new) }
        ensures none_same { IfOk result (λ o. IfNone o (folder_file self.new name.now ≡ folder_file self.old
            name.now)) }
        ensures err_same { OnErr result (folder_file self.new name.now ≡ folder_file self.old
            name.now) }
        ensures counts { (m : List ℕ) → folder_disk_faults self.new m ≡ folder_disk_faults self.old
            m }
        ensures tells { folder_tells self.new ≡ folder_tells self.old }
        ensures cause { HasFaultCause (folder_faults self.old) (folder_faults self.new) result }
        ensures unmet { IsErrOf result DiskError.NoMemory → folder_faults self.new ≡ folder_faults
            self.old }
        ensures crash { IfOk result (λ o. IfSome o (λ d.
            SameHistory (folder_moment_of self.old name.now) (mem_moment d)
            (FolderLeaves self.old name.now) (MemMayLeave d)
            (FolderLeftSince self.old name.now) (MemLeftSince d)
            (folder_past_of self.old name.now) (mem_past d)
            (FolderLeftWith self.old name.now) (MemLeftWith d))) }
        ensures none_crash { IfOk result (λ o. IfNone o (FolderKeeps self.old self.new name.now)) }
        ensures err_crash { OnErr result (FolderKeeps self.old self.new name.now) }
        ensures others_crash { (m : List ℕ) → m ≢ name.now → FolderKeeps self.old self.new m }
        ensures exact { FailsByList self.old self.new result }
        ensures disk { IfOk result (λ o. IfSome o (IsTakenFrom (folder_disk self.old name.now)
            (folder_room self.old))) }
        ensures others_disk { SameBut name.now (folder_disk self.old) (folder_disk self.new) }
        ensures err_disk { OnErr result (folder_disk self.new name.now ≡ folder_disk self.old
            name.now) }
    {
        self.begin()?;
        match take_out(&mut self.places, name) {
            Some(disk) => Ok(Some(disk)),
            None if create => Ok(Some(self.create(name)?)),
            None => Ok(None),
        }
    }

    fn give(&mut self, name: &str, disk: MemDisk) -> Result<(), DiskError>
        requires out { folder_is_out self.old name.now ≡ true }
        ensures here { folder_tells self.old ≡ true → folder_file self.new name.now ≡ mem_image
            disk }
        ensures count { folder_disk_faults self.new name.now ≡ mem_faults disk }
        ensures home { folder_is_out self.new name.now ≡ false }
        ensures others_out { SameBut name.now (folder_is_out self.old) (folder_is_out self.new) }
        ensures others { SameBut name.now (folder_file self.old) (folder_file self.new) }
        ensures others_count { SameBut name.now (folder_disk_faults self.old)
            (folder_disk_faults self.new) }
        ensures tells { folder_tells self.new ≡ folder_tells self.old }
        ensures cause { HasCause (folder_faults self.old) (folder_faults self.new) result }
        ensures crash { SameHistory (mem_moment disk) (folder_moment_of self.new name.now)
            (MemMayLeave disk) (FolderLeaves self.new name.now)
            (MemLeftSince disk) (FolderLeftSince self.new name.now)
            (mem_past disk) (folder_past_of self.new name.now)
            (MemLeftWith disk) (FolderLeftWith self.new name.now) }
        ensures others_crash { (m : List ℕ) → m ≢ name.now → FolderKeeps self.old self.new m }
        ensures exact { FailsByList self.old self.new result }
        ensures disk { folder_disk self.new name.now ≡ Some disk }
        ensures others_disk { SameBut name.now (folder_disk self.old) (folder_disk self.new) }
    {
        let answer = self.begin();
        put_back(&mut self.places, name, disk);
        answer
    }
}
