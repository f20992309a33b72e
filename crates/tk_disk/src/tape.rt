ghost use Rattle.std.specs.Prelude.{◌≡◌, ◌+◌, ◌-◌, ◌++◌, [], ◌∷◌, ◌≤◌, ◌<◌, ◌^◌, length, take, IfOk, vec_len, vec_capacity};
ghost use Rattle.tk_disk.specs.Disk.{put_at};
ghost use Rattle.tk_disk.specs.Crash.{Only};
ghost use Rattle.tk_disk.specs.Memory.{tape_bytes, tape_past, MayLeave, TapeWrites, TapeCuts, TapeSyncs, TapeRests};
ghost use Rattle.tk_disk.specs.Past.{settled_on};
ghost use Rattle.tk_disk.specs.Redone.{redone, EndsWithLastSync, IsKeptImage};
ghost use Rattle.tk_disk.specs.Replay.{spent, AreWithin};

use std::alloc::Global;
use std::marker::Model;
use tk_model::NoMemory;

/// A call that changed what a crash may leave.
#[derive(Clone, Copy, Debug, PartialEq, Eq)]
pub enum Step {
    Write(u64, u64),
    Cut(u64),
    Sync,
}

/// A file in memory that keeps what it began with, each step since, and the bytes of the writes among them.
#[derive(Drop)]
pub struct Tape {
    bytes: Vec<u8>,
    first: Vec<u8>,
    steps: Vec<Step>,
    store: Vec<u8>,
    room: u64,
}

impl Model for Tape {
    ghost use Rattle.tk_disk.specs.Memory.{TapeView};

    ghost Value = { TapeView };

    ghost use Rattle.tk_disk.specs.TapeInside.{view_of, IsTape};

    ghost view = { view_of };

    ghost invariant = { IsTape };
}

/// Writes over what is there, and past the end.
fn put(file: &mut Vec<u8>, at: usize, bytes: &[u8])
    requires within { at ≤ vec_len file.old }
    requires room { vec_len file.old + length bytes.now ≤ vec_capacity file.old }
    ensures written { file.new.items ≡ put_at at bytes.now file.old.items }
    ensures len { vec_len file.new ≤ vec_len file.old + length bytes.now }
    ensures capacity { vec_capacity file.old ≤ vec_capacity file.new }
{
    let over = bytes.len().min(file.len() - at);
    file[at..at + over].copy_from_slice(&bytes[..over]);
    file.extend_from_slice(&bytes[over..]).unwrap();
}

/// Writes a step down.
fn note(steps: &mut Vec<Step>, store: &mut Vec<u8>, step: Step, bytes: &[u8])
    requires steps_room { vec_len steps.old < vec_capacity steps.old }
    requires store_room { vec_len store.old + length bytes.now ≤ vec_capacity store.old }
    ensures steps { steps.new.items ≡ steps.old.items ++ step ∷ [] }
    ensures store { store.new.items ≡ store.old.items ++ bytes.now }
    ensures steps_len { vec_len steps.new ≡ vec_len steps.old + 1 }
    ensures store_len { vec_len store.new ≡ vec_len store.old + length bytes.now }
    ensures steps_capacity { vec_capacity steps.old ≤ vec_capacity steps.new }
    ensures store_capacity { vec_capacity store.old ≤ vec_capacity store.new }
{
    steps.push(step).unwrap();
    store.extend_from_slice(bytes).unwrap();
}

/// Does steps again, of whose writes the first `keep` bytes are to stand.
fn redo(file: &mut Vec<u8>, steps: &[Step], store: &[u8], keep: u64)
    requires within { AreWithin steps.now store.now file.old.items }
    requires stored { spent steps.now ≤ length store.now }
    requires room { vec_len file.old + spent steps.now ≤ vec_capacity file.old }
    ensures done { file.new.items ≡ redone keep steps.now store.now file.old.items }
    ensures room { vec_len file.new ≤ vec_len file.old + spent steps.now }
    ensures capacity { vec_capacity file.old ≤ vec_capacity file.new }
{
    let mut store = store;
    let mut left = keep;
    for step in steps {
        match *step {
            Step::Write(at, n) if n <= left => {
                let (bytes, rest) = store.split_at(n as usize);
                put(file, at as usize, bytes);
                store = rest;
                left -= n;
            }
            Step::Write(at, _) => {
                put(file, at as usize, &store[..left as usize]);
                return;
            }
            Step::Cut(len) => file.truncate(len as usize),
            Step::Sync => {}
        }
    }
}

/// How many steps there are up to the last hard sync, and how many bytes their writes took.
fn last_sync(steps: &[Step]) -> (usize, usize)
    requires { spent steps.now < 2 ^ 63 }
    ensures last { EndsWithLastSync result.0 steps.now }
    ensures spent { result.1 ≡ spent (take result.0 steps.now) }
{
    let mut synced = (0, 0);
    let mut bytes = 0;
    for (i, step) in steps.iter().enumerate() {
        match *step {
            Step::Write(_, n) => bytes += n as usize,
            Step::Cut(_) => {}
            Step::Sync => synced = (i + 1, bytes),
        }
    }
    synced
}

/// Does the steps again up to the last hard sync, and of those after it as far as so many bytes reach.
fn redo_kept(file: &mut Vec<u8>, steps: &[Step], store: &[u8], keep: u64)
    requires within { AreWithin steps.now store.now file.old.items }
    requires stored { spent steps.now ≤ length store.now }
    requires room { vec_len file.old + spent steps.now ≤ vec_capacity file.old }
    requires bound { spent steps.now < 2 ^ 63 }
    ensures { IsKeptImage keep file.old.items steps.now store.now file.new.items }
{
    let (synced, bytes) = last_sync(steps);
    let (before, after) = steps.split_at(synced);
    let (_, later) = store.split_at(bytes);
    redo(file, before, store, u64::MAX);
    redo(file, after, later, keep);
}

impl Tape {
    /// All its memory is taken here.
    pub fn new(alloc: Global, bytes: Vec<u8>, room: u64) -> Result<Tape, NoMemory>
        ensures bytes { IfOk result (λ t. tape_bytes t ≡ bytes.items) }
        ensures crash { IfOk result (λ t. Only bytes.items (MayLeave t)) }
        ensures past { IfOk result (λ t. tape_past t ≡ settled_on bytes.items) }
        ensures steps { IfOk result (λ t. t.steps ≡ []) }
        ensures room { IfOk result (λ t. t.room ≡ room) }
    {
        let mut first = Vec::new(alloc);
        first.extend_from_slice(&bytes)?;
        let mut bytes = bytes;
        bytes.reserve(room as usize)?;
        let store = Vec::with_capacity(alloc, room as usize)?;
        let steps = Vec::with_capacity(alloc, room as usize / 64 + 1)?;
        Ok(Tape {
            bytes,
            first,
            steps,
            store,
            room,
        })
    }

    pub fn bytes(&self) -> &[u8]
        ensures { result.now ≡ tape_bytes self.now }
    {
        &self.bytes
    }

    pub fn room(&self) -> u64
        ensures { result ≡ self.now.room }
    {
        self.room
    }

    pub fn write(&mut self, at: u64, bytes: &[u8])
        requires within { at ≤ length (tape_bytes self.old) }
        requires room { 64 + length bytes.now ≤ self.old.room }
        ensures room { self.new.room ≡ self.old.room - (64 + length bytes.now) }
        ensures done { TapeWrites at bytes.now self.old self.new }
    {
        let step = Step::Write(at, bytes.len() as u64);
        put(&mut self.bytes, at as usize, bytes);
        note(&mut self.steps, &mut self.store, step, bytes);
        self.room -= 64 + bytes.len() as u64;
    }

    pub fn cut(&mut self, len: u64)
        requires within { len ≤ length (tape_bytes self.old) }
        requires room { 64 ≤ self.old.room }
        ensures room { self.new.room ≡ self.old.room - 64 }
        ensures done { TapeCuts len self.old self.new }
    {
        self.bytes.truncate(len as usize);
        note(&mut self.steps, &mut self.store, Step::Cut(len), &[]);
        self.room -= 64;
    }

    /// A hard sync.
    pub fn sync_hard(&mut self)
        requires room { 64 ≤ self.old.room }
        ensures room { self.new.room ≡ self.old.room - 64 }
        ensures done { TapeSyncs self.old self.new }
    {
        note(&mut self.steps, &mut self.store, Step::Sync, &[]);
        self.room -= 64;
    }

    /// A soft sync, which leaves all as it was.
    pub fn sync_soft(&mut self)
        requires room { 64 ≤ self.old.room }
        ensures room { self.new.room ≡ self.old.room - 64 }
        ensures done { TapeRests self.old self.new }
    {
        self.room -= 64;
    }

    /// The bytes after a crash now that kept so many of those written since the last hard sync, in their order.
    pub fn crash(&self, alloc: Global, keep: u64) -> Result<Vec<u8>, NoMemory>
        ensures image { IfOk result (λ b. IsKeptImage keep self.now.first self.now.steps
            self.now.store b.items) }
        ensures left { IfOk result (λ b. MayLeave self.now b.items) }
    {
        let mut file = Vec::with_capacity(alloc, self.first.len() + self.store.len())?;
        file.extend_from_slice(&self.first)?;
        redo_kept(&mut file, &self.steps, &self.store, keep);
        Ok(file)
    }
}
