ghost use Rattle.std.specs.Prelude.{◌≡◌, ◌+◌, ◌≤◌, ◌<◌, ◌^◌, ◌∷◌, [], ℕ, List, length, replicate, min, true, false, IfOk, IfErr, IsOk, OnOk, IfSome, Some};
ghost use Rattle.std.specs.Option.{is_some, option_map};
ghost use Rattle.tk_disk.specs.Crash.{Only, OnlyReads, PastOnly};
ghost use Rattle.tk_disk.specs.Disk.{Rose, HasCause};
ghost use Rattle.tk_disk.specs.Past.{settled_on};
ghost use Rattle.tk_model.specs.declared.record.Group.{Group};
ghost use Rattle.tk_model.specs.declared.error.OpenError.TheVariants as OpenError;
ghost use Rattle.tk_append.specs.Opening.{first_fault};
ghost use Rattle.tk_append.specs.Log.{Tells, closed_text};
ghost use Rattle.tk_append.specs.LogParts.{log_disk, log_head, log_end, with_closing, open_mark};
ghost use Rattle.tk_append.specs.LogPasts.{Marks};
ghost use Rattle.tk_append.specs.Read.{IsOutside};
ghost use Rattle.tk_block.specs.Sizes.{heads_place};
ghost use Rattle.tk_block.specs.Text.{is_static};
ghost use Rattle.tk_hash.specs.Relations.{MarkTornOnly, UnlessFaulty};

use crate::found::FoundKey;
use crate::store::HashStore;
use std::alloc::Global;
use tk_append::{CountedLog, GroupLog, read_counted, write_or_empty};
use tk_block::{CELL_SIZE, Closing, HEADS_PLACE, StaticHead};
use tk_disk::{Disk, DiskError, zeros};
use tk_model::{NoMemory, OpenError, PairList, ShardOf, Unopened};

/// Room for the front of a block with the longest key, and some of its value.
const BUFFER: usize = 1 << 17;

/// The buffer of a store.
fn buffer_of(alloc: Global) -> Result<Vec<u8>, NoMemory>
    ensures { IfOk result (λ b. 131072 ≤ length b.items) }
{
    zeros(alloc, BUFFER)
}

/// The heads of empty buckets, and the buffer of a store.
fn room_of(alloc: Global, p: u8) -> Result<(Vec<u64>, Vec<u8>), NoMemory>
    requires { p ≤ 24 }
    ensures heads { IfOk result (λ room. room.0.items ≡ replicate (2 ^ p) 0) }
    ensures buffer { IfOk result (λ room. 131072 ≤ length room.1.items) }
{
    let mut heads = Vec::new(alloc);
    heads.resize(1 << p, 0)?;
    Ok((heads, buffer_of(alloc)?))
}

/// Writes the file of a header and no records. Where memory ran out, what was written is cut away.
fn write_empty<D: Disk>(alloc: Global, disk: &mut D, head: &StaticHead) -> Result<(), OpenError>
    requires head { is_static head.now ≡ true }
    requires empty { IfSome (D.image disk.old) (λ f. f ≡ []) }
    ensures written { OnOk result (IfSome (D.image disk.old) (λ _. D.image disk.new ≡ Some
        (closed_text head.now [] 0))) }
    ensures told { is_some (D.image disk.new) ≡ is_some (D.image disk.old) }
    ensures back { IfErr result (λ e. (e ≡ OpenError.Fault → ⊥)
        → D.image disk.new ≡ D.image disk.old) }
    ensures only { IfErr result IsOutside }
    ensures kept { OnOk result (D.fault_count disk.new ≡ D.fault_count disk.old) }
    ensures fault { IfErr result (λ e. e ≡ OpenError.Fault → Rose (D.fault_count disk.old)
        (D.fault_count disk.new)) }
    ensures later { D.fault_count disk.old ≤ D.fault_count disk.new }
{
    match write_or_empty(alloc, disk, head, 0, &PairList::new(alloc)) {
        Ok(()) => Ok(()),
        Err(DiskError::Fault) => Err(OpenError::Fault),
        Err(DiskError::NoMemory) => Err(OpenError::NoMemory),
    }
}

/// Makes it durable that a file that is to be written is open, and answers the closing part that then stands in it.
fn begin<D: Disk>(
    log: &mut GroupLog<D>,
    closing: Closing,
    writable: bool,
) -> Result<Closing, DiskError>
    requires there { IfSome (D.image (log_disk log.old)) (λ f. heads_place ≤ length f) }
    // the log
    ensures head { log_head log.new ≡ log_head log.old }
    ensures end { log_end log.new ≡ log_end log.old }
    // a file that is read
    ensures reads { writable ≡ false → D.image (log_disk log.new) ≡ D.image (log_disk log.old) }
    ensures reads_still { writable ≡ false → OnlyReads D.may_leave D.moment D.left_since D.past
        D.left_with (log_disk log.old) (log_disk log.new) }
    ensures same { writable ≡ false → IfOk result (λ c. c ≡ closing) }
    // a file that is written
    ensures open { writable ≡ true → IfOk result (λ c. c ≡ open_mark) }
    ensures marked { writable ≡ true → OnOk result (D.image (log_disk log.new) ≡ option_map
        (with_closing open_mark) (D.image (log_disk log.old))) }
    // the disk
    ensures told { is_some (D.image (log_disk log.new)) ≡ is_some (D.image (log_disk log.old)) }
    ensures cause { HasCause (D.fault_count (log_disk log.old)) (D.fault_count (log_disk log.new))
        result }
    ensures done { writable ≡ false → IsOk result }
    ensures durable { writable ≡ true
        → OnOk result (IfSome (D.image (log_disk log.new))
        (λ f. Only f (D.may_leave (log_disk log.new)))) }
    ensures time { MarkTornOnly D.may_leave D.moment D.left_since (log_disk log.old)
        (log_disk log.new) }
    ensures settled { writable ≡ true
        → OnOk result (IfSome (D.image (log_disk log.new)) (λ f. D.past (log_disk log.new)
        ≡ settled_on f)) }
    ensures past { Marks open_mark (D.image (log_disk log.old))
        (D.past (log_disk log.old)) (D.past (log_disk log.new)) }
    ensures pasts { PastOnly D.moment D.left_with (log_disk log.old) (log_disk log.new)
        (Marks open_mark (D.image (log_disk log.old)) (D.past (log_disk log.old))) }
{
    if !writable {
        return Ok(closing);
    }
    log.mark_open()?;
    Ok(Closing {
        size: 0,
        count: 0,
        next: 0,
    })
}

impl<D: Disk> HashStore<D> {
    ghost use Rattle.tk_hash.specs.Hash.{hash_disk, hash_head, hash_constants, hash_view, HashStands, IsClosedLog, opening};

    /// Opens a hash file of kind 1, the file of this number in a set of so many. Where it is to be written, it is made
    /// durable that it is open. The disk is handed back where it is refused.
    pub fn open_file(
        alloc: Global,
        disk: D,
        writable: bool,
        limit: u64,
        shard: ShardOf,
    ) -> Result<HashStore<D>, Unopened<D>>
        requires shard { shard.index < shard.of }
        // the answer
        ensures exact { IfSome (D.image disk)
            (λ f. Tells result (first_fault (1 ∷ []) writable shard f)) }
        ensures opened { IfOk result (λ s. (groups : List Group)
            × HashStands D.image D.may_leave D.past s (opening groups) [] 0
            × IfSome (D.image disk) (λ f. f ≡ closed_text (hash_head s) groups
            (hash_constants s).next)) }
        ensures kind { IfOk result (λ s. (hash_head s).kind ≡ 1) }
        ensures mode { IfOk result (λ s. ((hash_constants s).writable ≡ writable)
            × ((hash_view D.image s).closed ≡ false)) }
        ensures limit { IfOk result (λ s. (hash_constants s).limit ≡ min limit (2 ^ 40)) }
        ensures last { IfOk result (λ s. writable ≡ true → (hash_constants s).next ≤ 2 ^ 62) }
        // the disk of a store
        ensures reads { IfOk result (λ s. writable ≡ false → D.image (hash_disk s) ≡ D.image disk) }
        ensures reads_still { writable ≡ false
            → IfOk result (λ s. OnlyReads D.may_leave D.moment D.left_since D.past D.left_with disk
            (hash_disk s)) }
        ensures marked { writable ≡ true → IfOk result (λ s. D.image (hash_disk s) ≡ option_map
            (with_closing open_mark) (D.image disk)) }
        ensures durable { writable ≡ true
            → IfOk result (λ s. IfSome (D.image (hash_disk s))
            (λ f. Only f (D.may_leave (hash_disk s)))) }
        ensures told { IfOk result (λ s. is_some (D.image (hash_disk s)) ≡ is_some (D.image disk)) }
        // the disk that is handed back
        ensures back { UnlessFaulty result (λ u. D.image u.disk ≡ D.image disk) }
        ensures back_reads { writable ≡ false → IfErr result (λ u. D.image u.disk ≡ D.image disk) }
        ensures back_still { UnlessFaulty result (λ u. OnlyReads D.may_leave D.moment D.left_since
            D.past D.left_with disk u.disk) }
        ensures back_reads_still { writable ≡ false
            → IfErr result (λ u. OnlyReads D.may_leave D.moment D.left_since D.past D.left_with disk
            u.disk) }
        // faults
        ensures kept { IfOk result (λ s. D.fault_count (hash_disk s) ≡ D.fault_count disk) }
        ensures fault { IfErr result (λ u. u.cause ≡ OpenError.Fault → Rose (D.fault_count disk)
            (D.fault_count u.disk)) }
        ensures later { IfErr result (λ u. D.fault_count disk ≤ D.fault_count u.disk) }
        // a crash
        ensures time { IfOk result (λ s. MarkTornOnly D.may_leave D.moment D.left_since disk
            (hash_disk s)) }
        ensures back_time { IfErr result (λ u. MarkTornOnly D.may_leave D.moment D.left_since disk
            u.disk) }
        ensures past { IfOk result (λ s.
            Marks open_mark (D.image disk) (D.past disk) (D.past (hash_disk s))) }
        ensures back_past { IfErr result (λ u.
            Marks open_mark (D.image disk) (D.past disk) (D.past u.disk)) }
        ensures pasts { IfOk result (λ s. PastOnly D.moment D.left_with disk (hash_disk s)
            (Marks open_mark (D.image disk) (D.past disk))) }
        ensures back_pasts { IfErr result (λ u. PastOnly D.moment D.left_with disk u.disk
            (Marks open_mark (D.image disk) (D.past disk))) }
    {
        let CountedLog {
            log,
            heads,
            count,
            next,
        } = read_counted(alloc, disk, &[1], writable, shard)?;
        let closing = Closing {
            size: log.end(),
            count,
            next,
        };
        let buffer = match buffer_of(alloc) {
            Ok(buffer) => buffer,
            Err(_) => {
                return Err(Unopened {
                    cause: OpenError::NoMemory,
                    disk: log.into_disk(),
                });
            }
        };
        HashStore::of_log(alloc, log, closing, writable, limit, heads, buffer)
    }

    /// Writes the fresh hash file of kind 1 to an empty disk, and makes it durable that it is open for writing.
    pub fn create_file(
        alloc: Global,
        disk: D,
        p: u8,
        limit: u64,
        shard: ShardOf,
    ) -> Result<HashStore<D>, Unopened<D>>
        requires p { p ≤ 24 }
        requires shard { shard.index < shard.of }
        requires empty { IfSome (D.image disk) (λ f. f ≡ []) }
        // the answer
        ensures opened { IfOk result (λ s. HashStands D.image D.may_leave D.past s (opening []) []
            0) }
        ensures head { IfOk result (λ s. hash_head s ≡ record {
          kind = 1;
          version = 1;
          p = p;
          order = 0;
          generation = 0;
        }) }
        ensures mode { IfOk result (λ s. ((hash_constants s).writable ≡ true)
            × ((hash_view D.image s).closed ≡ false)) }
        ensures next { IfOk result (λ s. (hash_constants s).next ≡ 0) }
        ensures limit { IfOk result (λ s. (hash_constants s).limit ≡ min limit (2 ^ 40)) }
        // the disk of a store
        ensures told { IfOk result (λ s. is_some (D.image (hash_disk s)) ≡ is_some (D.image disk)) }
        ensures durable { IfOk result (λ s. IfSome (D.image (hash_disk s))
            (λ f. Only f (D.may_leave (hash_disk s)))) }
        ensures marked { IfOk result (λ s. IfSome (D.image (hash_disk s))
            (λ f. f ≡ with_closing open_mark (closed_text (hash_head s) [] 0))) }
        // the disk that is handed back
        ensures back { UnlessFaulty result (λ u. D.image u.disk ≡ D.image disk) }
        ensures only { IfErr result (λ u. IsOutside u.cause) }
        // faults
        ensures kept { IfOk result (λ s. D.fault_count (hash_disk s) ≡ D.fault_count disk) }
        ensures fault { IfErr result (λ u. u.cause ≡ OpenError.Fault → Rose (D.fault_count disk)
            (D.fault_count u.disk)) }
        ensures later { IfErr result (λ u. D.fault_count disk ≤ D.fault_count u.disk) }
    {
        let head = StaticHead {
            kind: 1,
            version: 1,
            p,
            order: 0,
            generation: 0,
        };
        let Ok((heads, buffer)) = room_of(alloc, p) else {
            return Err(Unopened {
                cause: OpenError::NoMemory,
                disk,
            });
        };
        let mut disk = disk;
        match write_empty(alloc, &mut disk, &head) {
            Ok(()) => {
                let size = HEADS_PLACE + (CELL_SIZE << p);
                let log = GroupLog::of(alloc, disk, head, size);
                let closing = Closing {
                    size,
                    count: 0,
                    next: 0,
                };
                HashStore::of_log(alloc, log, closing, true, limit, heads, buffer)
            }
            Err(cause) => Err(Unopened { cause, disk }),
        }
    }

    /// The store over the log of a closed file. Where it is to be written, it is made durable that it is open.
    fn of_log(
        alloc: Global,
        log: GroupLog<D>,
        closing: Closing,
        writable: bool,
        limit: u64,
        heads: Vec<u64>,
        buffer: Vec<u8>,
    ) -> Result<HashStore<D>, Unopened<D>>
        requires buffer { 131072 ≤ length buffer.items }
        requires whole { (groups : List Group) × IsClosedLog D.image log closing heads.items
            groups }
        // the answer
        ensures stands { (groups : List Group) → IsClosedLog D.image log closing heads.items groups
            → IfOk result (λ s. HashStands D.image D.may_leave D.past s (opening groups) [] 0) }
        ensures head { IfOk result (λ s. hash_head s ≡ log_head log) }
        ensures mode { IfOk result (λ s. ((hash_constants s).writable ≡ writable)
            × ((hash_view D.image s).closed ≡ false)) }
        ensures next { IfOk result (λ s. (hash_constants s).next ≡ closing.next) }
        ensures limit { IfOk result (λ s. (hash_constants s).limit ≡ min limit (2 ^ 40)) }
        // the disk of a store
        ensures reads { IfOk result (λ s. writable ≡ false → D.image (hash_disk s) ≡ D.image
            (log_disk log)) }
        ensures reads_still { writable ≡ false
            → IfOk result (λ s. OnlyReads D.may_leave D.moment D.left_since D.past D.left_with
            (log_disk log) (hash_disk s)) }
        ensures marked { writable ≡ true → IfOk result (λ s. D.image (hash_disk s) ≡ option_map
            (with_closing open_mark) (D.image (log_disk log))) }
        ensures durable { writable ≡ true
            → IfOk result (λ s. IfSome (D.image (hash_disk s))
            (λ f. Only f (D.may_leave (hash_disk s)))) }
        ensures told { IfOk result (λ s. is_some (D.image (hash_disk s))
            ≡ is_some (D.image (log_disk log))) }
        // faults
        ensures fails { IfErr result (λ u. (u.cause ≡ OpenError.Fault) × (writable ≡ false → ⊥)) }
        ensures kept { IfOk result (λ s. D.fault_count (hash_disk s) ≡ D.fault_count
            (log_disk log)) }
        ensures fault { IfErr result (λ u. u.cause ≡ OpenError.Fault
            → Rose (D.fault_count (log_disk log)) (D.fault_count u.disk)) }
        ensures later { IfErr result (λ u. D.fault_count (log_disk log) ≤ D.fault_count u.disk) }
        // a crash
        ensures time { IfOk result (λ s. MarkTornOnly D.may_leave D.moment D.left_since
            (log_disk log) (hash_disk s)) }
        ensures back_time { IfErr result (λ u. MarkTornOnly D.may_leave D.moment D.left_since
            (log_disk log) u.disk) }
        ensures past { IfOk result (λ s.
            Marks open_mark (D.image (log_disk log)) (D.past (log_disk log)) (D.past (hash_disk s))) }
        ensures back_past { IfErr result (λ u.
            Marks open_mark (D.image (log_disk log)) (D.past (log_disk log)) (D.past u.disk)) }
        ensures pasts { IfOk result (λ s. PastOnly D.moment D.left_with (log_disk log) (hash_disk s)
            (Marks open_mark (D.image (log_disk log)) (D.past (log_disk log)))) }
        ensures back_pasts { IfErr result (λ u. PastOnly D.moment D.left_with (log_disk log) u.disk
            (Marks open_mark (D.image (log_disk log)) (D.past (log_disk log)))) }
    {
        let mut log = log;
        let count = closing.count;
        let next = closing.next;
        match begin(&mut log, closing, writable) {
            Ok(closing) => Ok(HashStore {
                alloc,
                log,
                closing,
                count,
                next,
                last: None,
                writable,
                closed: false,
                limit,
                heads,
                buffer,
                found: FoundKey::new(alloc),
                shelf: None,
                reserved_group: None,
            }),
            Err(_) => Err(Unopened {
                cause: OpenError::Fault,
                disk: log.into_disk(),
            }),
        }
    }
}
