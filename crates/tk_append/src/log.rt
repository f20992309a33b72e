ghost use Rattle.std.specs.Prelude.{◌≡◌, ◌⊎◌, ◌+◌, ◌*◌, ◌<◌, ◌≤◌, ◌++◌, ◌∷◌, ◌^◌, [], ℕ, List, length, true, false, IfSome, OnOk, OnErr, Some};
ghost use Rattle.std.specs.Option.{is_some, option_map};
ghost use Rattle.std.specs.Borrow.{Lends, sem};
ghost use Rattle.tk_disk.specs.Crash.{Torn, Follows, Within, Only, LeavesOnly, PastOnly};
ghost use Rattle.tk_disk.specs.Disk.{put_at, HasCause};
ghost use Rattle.tk_disk.specs.Past.{Writes, settled_on};
ghost use Rattle.tk_model.specs.declared.record.Change.{Change};
ghost use Rattle.tk_model.specs.declared.record.Group.{Group};
ghost use Rattle.tk_model.specs.Records.{AllFit};
ghost use Rattle.tk_block.specs.Sizes.{closing_place, closing_size, heads_place, cell_size};
ghost use Rattle.tk_block.specs.Text.{base_of, closing_text};
ghost use Rattle.tk_block.specs.Blocks.{group_bodies};
ghost use Rattle.tk_block.specs.Layout.{group_text, laid, end_of, links_of};
ghost use Rattle.tk_append.specs.Log.{blocks_of};
ghost use Rattle.tk_append.specs.contracts.log.GroupLog.{the_row};
ghost use Rattle.tk_append.specs.LogParts.{log_disk, log_head, log_end, with_disk, with_closing, open_mark, ready_text, IsReservedText, Stands};
ghost use Rattle.tk_append.specs.LogPasts.{Settles, Marks, Closes};

use std::alloc::Global;
use tk_block::{
    CELL_SIZE, CLOSING_PLACE, Closing, HEADS_PLACE, LinkList, StaticHead, renumber, write_closing,
    write_unnumbered,
};
use tk_disk::{Disk, DiskError};
use tk_model::{Bytes, ChangeList, NoMemory};

/// A file that groups are added to, each by one write.
#[derive(Drop)]
pub struct GroupLog<D: Disk> {
    disk: D,
    head: StaticHead,
    end: u64,
    reserved_text: Bytes,
}

impl<D: Disk> GroupLog<D> {
    /// The log of a file with this header, whose groups end there.
    pub fn of(alloc: Global, disk: D, head: StaticHead, end: u64) -> GroupLog<D>
        ensures disk { log_disk result ≡ disk }
        ensures head { log_head result ≡ head }
        ensures end { log_end result ≡ end }
    {
        GroupLog {
            disk,
            head,
            end,
            reserved_text: Bytes::new(alloc),
        }
    }

    pub fn head(&self) -> &StaticHead
        ensures { result.now ≡ log_head self.now }
    {
        &self.head
    }

    /// Where the next group goes.
    pub fn end(&self) -> u64
        ensures { result ≡ log_end self.now }
    {
        self.end
    }

    /// How often a call of the disk has failed.
    pub fn faults(&self) -> u64
        ensures { result ≡ D.fault_count (log_disk self.now) }
    {
        self.disk.faults()
    }

    /// How many bytes reads of the disk have given.
    pub fn taken(&self) -> u64
        ensures { result ≡ D.taken_count (log_disk self.now) }
    {
        self.disk.taken()
    }

    /// Lends the disk.
    pub fn disk(&mut self) -> &mut D
        ensures value { result.now ≡ log_disk self.old }
        ensures* writes_back { sem 𝓛 (Lends (the_row D.row) D.row self.entry result
            (λ w. with_disk self.old w)) }
    {
        &mut self.disk
    }

    pub fn into_disk(self) -> D
        ensures { result ≡ log_disk self }
    {
        let GroupLog {
            disk,
            head: _,
            end: _,
            reserved_text: _,
        } = self;
        disk
    }

    /// Makes a group of these changes ready for the end, under any number.
    #[tactic(auto, using(crate::proofs::LogSteps::fit_small))]
    pub fn reserve_text(&mut self, changes: &ChangeList, links: &LinkList) -> Result<(), NoMemory>
        requires fit { AllFit changes.now }
        requires links { length links.now ≡ length changes.now }
        requires end { end_of (log_end self.old) (group_bodies 0 changes.now) ≤ 2 ^ 40 }
        ensures reserved_text { OnOk result (IsReservedText self.new changes.now links.now) }
        ensures disk { log_disk self.new ≡ log_disk self.old }
        ensures head { log_head self.new ≡ log_head self.old }
        ensures end { log_end self.new ≡ log_end self.old }
    {
        self.reserved_text.clear();
        write_unnumbered(changes, self.end, links, &mut self.reserved_text)
    }

    /// Adds the group that is ready, under this number, by one write.
    pub fn append(&mut self, number: u64) -> Result<(), DiskError>
        requires reserved_text { (changes : List Change) × (links : List ℕ)
            × IsReservedText self.old changes links
            × (end_of (log_end self.old) (group_bodies number changes) ≤ 2 ^ 40) }
        requires here { IfSome (D.image (log_disk self.old)) (λ f. length f ≡ log_end self.old) }
        ensures written { (changes : List Change) (links : List ℕ)
            → IsReservedText self.old changes links
            → OnOk result (D.image (log_disk self.new) ≡ option_map
            (λ f. f ++ group_text (record { number = number; changes = changes }) (log_end self.old)
            links) (D.image (log_disk self.old))) }
        ensures end { (changes : List Change) (links : List ℕ)
            → IsReservedText self.old changes links
            → OnOk result (log_end self.new ≡ end_of (log_end self.old)
            (group_bodies number changes)) }
        ensures err_end { OnErr result (log_end self.new ≡ log_end self.old) }
        ensures stands { (groups : List Group) (changes : List Change) (links : List ℕ)
            → Stands D.image self.old groups → IsReservedText self.old changes links
            → links ≡ links_of (log_head self.old).p (blocks_of (log_head self.old) groups)
            (laid (log_end self.old) (group_bodies number changes))
            → OnOk result
            (Stands D.image self.new (groups ++ record { number = number; changes = changes }
            ∷ [])) }
        ensures head { log_head self.new ≡ log_head self.old }
        ensures told { is_some (D.image (log_disk self.new))
            ≡ is_some (D.image (log_disk self.old)) }
        ensures taken { D.taken_count (log_disk self.new) ≡ D.taken_count (log_disk self.old) }
        ensures cause { HasCause (D.fault_count (log_disk self.old))
            (D.fault_count (log_disk self.new)) result }
        ensures crash { (changes : List Change) (links : List ℕ)
            → IsReservedText self.old changes links
            → Follows (Torn (log_end self.old)
            (length (group_text (record { number = number; changes = changes }) (log_end self.old)
            links))) (D.may_leave (log_disk self.old)) (D.may_leave (log_disk self.new)) }
        ensures time { (changes : List Change) (links : List ℕ)
            → IsReservedText self.old changes links
            → LeavesOnly D.moment D.left_since (log_disk self.old) (log_disk self.new)
            (λ c. (d : List ℕ) × D.may_leave (log_disk self.old) d
            × Torn (log_end self.old)
            (length (group_text (record { number = number; changes = changes }) (log_end self.old)
            links)) d c) }
        ensures past { (changes : List Change) (links : List ℕ)
            → IsReservedText self.old changes links
            → Writes (log_end self.old) (ready_text self.old number changes links)
            (D.past (log_disk self.old)) (D.past (log_disk self.new)) }
        ensures pasts { (changes : List Change) (links : List ℕ)
            → IsReservedText self.old changes links
            → PastOnly D.moment D.left_with (log_disk self.old) (log_disk self.new)
            (Writes (log_end self.old) (ready_text self.old number changes links)
            (D.past (log_disk self.old))) }
    {
        renumber(&mut self.reserved_text, self.end, number);
        self.disk.write_at(self.end, self.reserved_text.as_slice())?;
        self.end += self.reserved_text.len() as u64;
        Ok(())
    }

    /// After a hard sync a crash leaves what a read gives.
    pub fn sync_log(&mut self, hard: bool) -> Result<(), DiskError>
        ensures image { OnOk result (D.image (log_disk self.new) ≡ D.image (log_disk self.old)) }
        ensures stands { (groups : List Group) → Stands D.image self.old groups
            → OnOk result (Stands D.image self.new groups) }
        ensures head { log_head self.new ≡ log_head self.old }
        ensures end { log_end self.new ≡ log_end self.old }
        ensures told { is_some (D.image (log_disk self.new))
            ≡ is_some (D.image (log_disk self.old)) }
        ensures taken { D.taken_count (log_disk self.new) ≡ D.taken_count (log_disk self.old) }
        ensures cause { HasCause (D.fault_count (log_disk self.old))
            (D.fault_count (log_disk self.new)) result }
        ensures durable { hard ≡ true
            → OnOk result (IfSome (D.image (log_disk self.old))
            (λ f. Only f (D.may_leave (log_disk self.new)))) }
        ensures crash { Within (D.may_leave (log_disk self.old)) (D.may_leave (log_disk self.new)) }
        ensures time { LeavesOnly D.moment D.left_since (log_disk self.old) (log_disk self.new)
            (D.may_leave (log_disk self.old)) }
        ensures past { Settles (D.image (log_disk self.old)) (D.past (log_disk self.old))
            (D.past (log_disk self.new)) }
        ensures pasts { PastOnly D.moment D.left_with (log_disk self.old) (log_disk self.new)
            (Settles (D.image (log_disk self.old)) (D.past (log_disk self.old))) }
        ensures settled { hard ≡ true → IfSome (D.image (log_disk self.old)) (λ f.
            OnOk result (D.past (log_disk self.new) ≡ settled_on f)) }
        ensures unsettled { OnErr result (D.past (log_disk self.new) ≡ D.past (log_disk self.old)) }
        ensures soft { hard ≡ false → D.past (log_disk self.new) ≡ D.past (log_disk self.old) }
    {
        self.disk.sync(hard)
    }

    /// Writes the closing part of the header.
    fn put_closing(&mut self, closing: &Closing) -> Result<(), DiskError>
        requires there { IfSome (D.image (log_disk self.old)) (λ f. heads_place ≤ length f) }
        ensures written { OnOk result (D.image (log_disk self.new) ≡ option_map
            (with_closing closing.now) (D.image (log_disk self.old))) }
        ensures stands { (groups : List Group) → Stands D.image self.old groups
            → OnOk result (Stands D.image self.new groups) }
        ensures head { log_head self.new ≡ log_head self.old }
        ensures end { log_end self.new ≡ log_end self.old }
        ensures told { is_some (D.image (log_disk self.new))
            ≡ is_some (D.image (log_disk self.old)) }
        ensures taken { D.taken_count (log_disk self.new) ≡ D.taken_count (log_disk self.old) }
        ensures cause { HasCause (D.fault_count (log_disk self.old))
            (D.fault_count (log_disk self.new)) result }
        ensures crash { Follows (Torn closing_place closing_size) (D.may_leave (log_disk self.old))
            (D.may_leave (log_disk self.new)) }
        ensures time { LeavesOnly D.moment D.left_since (log_disk self.old) (log_disk self.new)
            (λ c. (d : List ℕ) × D.may_leave (log_disk self.old) d
            × Torn closing_place closing_size d c) }
        ensures past { Writes closing_place (closing_text closing.now) (D.past (log_disk self.old))
            (D.past (log_disk self.new)) }
        ensures pasts { PastOnly D.moment D.left_with (log_disk self.old) (log_disk self.new)
            (Writes closing_place (closing_text closing.now) (D.past (log_disk self.old))) }
    {
        self.disk.write_at(CLOSING_PLACE, &write_closing(closing))
    }

    /// Writes that the file is open, and makes that durable.
    pub fn mark_open(&mut self) -> Result<(), DiskError>
        requires there { IfSome (D.image (log_disk self.old)) (λ f. heads_place ≤ length f) }
        ensures written { OnOk result (D.image (log_disk self.new) ≡ option_map
            (with_closing open_mark) (D.image (log_disk self.old))) }
        ensures stands { (groups : List Group) → Stands D.image self.old groups
            → OnOk result (Stands D.image self.new groups) }
        ensures head { log_head self.new ≡ log_head self.old }
        ensures end { log_end self.new ≡ log_end self.old }
        ensures told { is_some (D.image (log_disk self.new))
            ≡ is_some (D.image (log_disk self.old)) }
        ensures taken { D.taken_count (log_disk self.new) ≡ D.taken_count (log_disk self.old) }
        ensures cause { HasCause (D.fault_count (log_disk self.old))
            (D.fault_count (log_disk self.new)) result }
        ensures crash { Follows (Torn closing_place closing_size) (D.may_leave (log_disk self.old))
            (D.may_leave (log_disk self.new)) }
        ensures durable { OnOk result (IfSome (D.image (log_disk self.new))
            (λ f. Only f (D.may_leave (log_disk self.new)))) }
        ensures time { LeavesOnly D.moment D.left_since (log_disk self.old) (log_disk self.new)
            (λ c. (d : List ℕ) × D.may_leave (log_disk self.old) d
            × Torn closing_place closing_size d c) }
        ensures past { Marks open_mark (D.image (log_disk self.old))
            (D.past (log_disk self.old)) (D.past (log_disk self.new)) }
        ensures pasts { PastOnly D.moment D.left_with (log_disk self.old) (log_disk self.new)
            (Marks open_mark (D.image (log_disk self.old)) (D.past (log_disk self.old))) }
        ensures settled { OnOk result (IfSome (D.image (log_disk self.new)) (λ f.
            D.past (log_disk self.new) ≡ settled_on f)) }
    {
        let closing = Closing {
            size: 0,
            count: 0,
            next: 0,
        };
        self.put_closing(&closing)?;
        self.sync_log(true)
    }

    /// Makes all durable, and then that the file is closed with this count of records and this next number.
    pub fn close_log(&mut self, count: u64, next: u64) -> Result<(), DiskError>
        requires there { IfSome (D.image (log_disk self.old)) (λ f. heads_place ≤ length f) }
        ensures written { OnOk result (D.image (log_disk self.new) ≡ option_map
            (with_closing (record { size = log_end self.old; count = count; next = next }))
            (D.image (log_disk self.old))) }
        ensures stands { (groups : List Group) → Stands D.image self.old groups
            → OnOk result (Stands D.image self.new groups) }
        ensures head { log_head self.new ≡ log_head self.old }
        ensures end { log_end self.new ≡ log_end self.old }
        ensures told { is_some (D.image (log_disk self.new))
            ≡ is_some (D.image (log_disk self.old)) }
        ensures taken { D.taken_count (log_disk self.new) ≡ D.taken_count (log_disk self.old) }
        ensures cause { HasCause (D.fault_count (log_disk self.old))
            (D.fault_count (log_disk self.new)) result }
        ensures crash { Follows (Torn closing_place closing_size) (D.may_leave (log_disk self.old))
            (D.may_leave (log_disk self.new)) }
        ensures durable { OnOk result (IfSome (D.image (log_disk self.new))
            (λ f. Only f (D.may_leave (log_disk self.new)))) }
        ensures time { LeavesOnly D.moment D.left_since (log_disk self.old) (log_disk self.new)
            (λ c. (d : List ℕ) × D.may_leave (log_disk self.old) d
            × Torn closing_place closing_size d c) }
        ensures behind { IfSome (D.image (log_disk self.old)) (λ f. LeavesOnly D.moment D.left_since
            (log_disk self.old) (log_disk self.new) (λ c. D.may_leave (log_disk self.old) c
            ⊎ Torn closing_place closing_size f c)) }
        ensures past { Closes (record { size = log_end self.old; count = count; next = next })
            (D.image (log_disk self.old)) (D.past (log_disk self.old))
            (D.past (log_disk self.new)) }
        ensures pasts { PastOnly D.moment D.left_with (log_disk self.old) (log_disk self.new)
            (Closes (record { size = log_end self.old; count = count; next = next })
            (D.image (log_disk self.old)) (D.past (log_disk self.old))) }
        ensures settled { OnOk result (IfSome (D.image (log_disk self.new)) (λ f.
            D.past (log_disk self.new) ≡ settled_on f)) }
    {
        self.sync_log(true)?;
        let size = self.end;
        self.put_closing(&Closing { size, count, next })?;
        self.sync_log(true)
    }

    /// Writes the cells of heads from a bucket's on.
    pub fn set_cells(&mut self, bucket: u64, text: &[u8]) -> Result<(), DiskError>
        requires p { (log_head self.old).p ≤ 24 }
        requires text { heads_place + cell_size * bucket + length text.now
            ≤ base_of (log_head self.old).p }
        requires there { IfSome (D.image (log_disk self.old)) (λ f. base_of (log_head self.old).p
            ≤ length f) }
        ensures written { OnOk result (D.image (log_disk self.new) ≡ option_map
            (put_at (heads_place + cell_size * bucket) text.now) (D.image (log_disk self.old))) }
        ensures stands { (groups : List Group) → Stands D.image self.old groups
            → OnOk result (Stands D.image self.new groups) }
        ensures head { log_head self.new ≡ log_head self.old }
        ensures end { log_end self.new ≡ log_end self.old }
        ensures told { is_some (D.image (log_disk self.new))
            ≡ is_some (D.image (log_disk self.old)) }
        ensures taken { D.taken_count (log_disk self.new) ≡ D.taken_count (log_disk self.old) }
        ensures cause { HasCause (D.fault_count (log_disk self.old))
            (D.fault_count (log_disk self.new)) result }
        ensures crash { Follows (Torn (heads_place + cell_size * bucket) (length text.now))
            (D.may_leave (log_disk self.old)) (D.may_leave (log_disk self.new)) }
        ensures time { LeavesOnly D.moment D.left_since (log_disk self.old) (log_disk self.new)
            (λ c. (d : List ℕ) × D.may_leave (log_disk self.old) d
            × Torn (heads_place + cell_size * bucket) (length text.now) d c) }
        ensures past { Writes (heads_place + cell_size * bucket) text.now
            (D.past (log_disk self.old)) (D.past (log_disk self.new)) }
        ensures pasts { PastOnly D.moment D.left_with (log_disk self.old) (log_disk self.new)
            (Writes (heads_place + cell_size * bucket) text.now (D.past (log_disk self.old))) }
    {
        self.disk.write_at(HEADS_PLACE + CELL_SIZE * bucket, text)
    }
}
