//! Calls per second of a database: `tk_bench tiny|hash get|set THREADS CALLS`, in an empty directory.
#![tactic(auto)]

ghost use Rattle.std.specs.Prelude.{◌≡◌, [], List, true, All, IfOk, IfSome};
ghost use Rattle.tk_model.specs.declared.record.Pair.{Pair};
ghost use Rattle.tk_hash.specs.Hash.{HashStands, hash_view, hash_constants};
ghost use Rattle.tk_dbm.specs.Dbm.{IsIdleOf};
ghost use Rattle.tk_dbm_tests.specs.Fixture.{IsOpened};

use std::alloc::{AllocError, Global};
use std::process::ExitCode;
use std::sync::Wait;
use std::thread::{self, Threads};
use std::time::{Clock, Instant};
use std::{env, io};
use thiserror::Error;
use tk_dbm::{Dbm, Pass};
use tk_dbm_tests::fixture::{LIMIT, alone, get, set, tiny};
use tk_disk::{DirFolder, Disk, FileDisk, Folder};
use tk_hash::HashStore;
use tk_model::{NoMemory, OpenError, ShardOf};
use tk_status::Status;
use tk_store::SeqStore;

/// How many records there are.
const KEYS: u32 = 100_000;

/// Why nothing was measured.
#[derive(Debug, Drop, Error)]
enum BenchError {
    #[error("usage: tk_bench tiny|hash get|set 1|2|4 CALLS")]
    Usage,
    #[error("no memory")]
    NoMemory(#[from] NoMemory),
    #[error("no memory")]
    Alloc(#[from] AllocError),
    #[error("{0}")]
    Io(#[from] io::Error),
    #[error("the file")]
    Open,
    #[error("a call failed")]
    Call,
}

/// What each seed is multiplied by, so that threads don't follow each other from key to key.
const SPREAD: u64 = 0x9e37_79b9_7f4a_7c15;

/// What each thread does.
#[derive(Clone, Copy)]
struct Work {
    sets: bool,
    seed: u64,
    calls: u32,
}

/// The eight digits of a number.
fn key_of(number: u32) -> [u8; 8] {
    let mut key = [b'0'; 8];
    let mut left = number;
    for digit in key.iter_mut().rev() {
        *digit = b'0' + (left % 10) as u8;
        left /= 10;
    }
    key
}

/// The state behind this one.
fn next(seed: u64) -> u64 {
    seed.wrapping_mul(6_364_136_223_846_793_005)
        .wrapping_add(1_442_695_040_888_963_407)
}

/// What a thread has of its own.
#[derive(Drop)]
struct Worker {
    pass: Pass,
    work: Work,
}

/// A worker for each thread, with a part of the pass.
fn workers<S: SeqStore>(
    alloc: Global,
    db: &Dbm<S>,
    pass: &mut Pass,
    threads: u32,
    work: Work,
) -> Result<Vec<Worker>, NoMemory>
    requires own { IsIdleOf S.lawful S.stands S.store_view S.constants db.now pass.old }
    ensures own { IsIdleOf S.lawful S.stands S.store_view S.constants db.now pass.new }
    ensures each { IfOk result (λ v.
        All (λ w. IsIdleOf S.lawful S.stands S.store_view S.constants db.now w.pass) v.items) }
{
    let mut workers = Vec::new(alloc);
    for number in 0..threads {
        let seed = work.seed.wrapping_add(number as u64).wrapping_mul(SPREAD);
        workers.push(Worker {
            pass: db.split(pass),
            work: Work { seed, ..work },
        })?;
    }
    Ok(workers)
}

/// Whether all calls of one thread succeeded.
fn turns<S: SeqStore, R: Wait>(rt: &R, alloc: Global, db: &Dbm<S>, worker: Worker) -> bool
    requires own { IsIdleOf S.lawful S.stands S.store_view S.constants db.now worker.pass }
    requires law { (m : List Pair) → S.lawful m ≡ true }
{
    let Worker { mut pass, work } = worker;
    let mut seed = work.seed;
    let mut done = true;
    for _ in 0..work.calls {
        seed = next(seed);
        let key = key_of(((seed >> 33) % KEYS as u64) as u32);
        let made = if work.sets {
            match set(rt, alloc, db, &mut pass, &key, &key) {
                Ok(answer) => answer.status == Status::Success,
                Err(_) => false,
            }
        } else {
            get(rt, alloc, db, &mut pass, &key).1.is_some()
        };
        done = done && made;
    }
    done
}

/// Whether all calls of all workers succeeded, each in a thread of its own.
fn race<S: SeqStore + Send + Sync, R: Threads + Wait + Sync>(
    rt: &R,
    alloc: Global,
    db: &Dbm<S>,
    workers: Vec<Worker>,
) -> Result<bool, AllocError>
    requires each { All (λ w. IsIdleOf S.lawful S.stands S.store_view S.constants db.now w.pass)
        workers.items }
    requires law { (m : List Pair) → S.lawful m ≡ true }
{
    let done = thread::map_vec(
        rt,
        workers,
        &|worker: Worker| -> bool
            requires own { IsIdleOf S.lawful S.stands S.store_view S.constants db.now worker.pass }
            requires law { (m : List Pair) → S.lawful m ≡ true }
        { turns(rt, alloc, db, worker) },
    )?;
    Ok(done.iter().all(|done| *done))
}

/// Sets each key to itself.
fn fill<S: SeqStore, R: Wait>(rt: &R, alloc: Global, db: &Dbm<S>, pass: &mut Pass) -> bool
    requires own { IsIdleOf S.lawful S.stands S.store_view S.constants db.now pass.old }
    requires law { (m : List Pair) → S.lawful m ≡ true }
    ensures { IsIdleOf S.lawful S.stands S.store_view S.constants db.now pass.new }
{
    let mut done = true;
    for number in 0..KEYS {
        let key = key_of(number);
        done = done && set(rt, alloc, db, pass, &key, &key).is_ok();
    }
    done
}

/// How many calls were made in a second.
fn rate<S: SeqStore + Send + Sync + Drop, R: Threads + Wait + Clock + Sync>(
    rt: &R,
    alloc: Global,
    store: S,
    threads: u32,
    work: Work,
) -> Result<u128, BenchError>
    requires opened { IsOpened S.stands S.store_view store }
    requires floor { (S.store_view store).floor ≡ 0 }
    requires writable { (S.constants store).writable ≡ true }
    requires law { (m : List Pair) → S.lawful m ≡ true }
{
    let (db, mut pass) = alone(alloc, store, 0, true)?;
    let filled = fill(rt, alloc, &db, &mut pass);
    let share = Work {
        calls: work.calls / threads.max(1),
        ..work
    };
    let workers = workers(alloc, &db, &mut pass, threads, share)?;
    let start = Instant::now(rt)?;
    let done = race(rt, alloc, &db, workers)?;
    let nanos = start.elapsed(rt)?.as_nanos();
    if filled && done {
        Ok(work.calls as u128 * 1_000_000_000 / nanos.max(1))
    } else {
        Err(BenchError::Call)
    }
}

/// A store over this empty disk.
fn store_on<D: Disk + Drop>(alloc: Global, disk: D) -> Result<HashStore<D>, BenchError>
    requires { IfSome (D.image disk) (λ f. f ≡ []) }
    ensures opened { IfOk result (IsOpened (HashStands D.image D.may_leave D.past)
        (hash_view D.image)) }
    ensures floor { IfOk result (λ s. (hash_view D.image s).floor ≡ 0) }
    ensures writable { IfOk result (λ s. (hash_constants s).writable ≡ true) }
{
    let alone = ShardOf { index: 0, of: 1 };
    match HashStore::create_file(alloc, disk, 17, LIMIT, alone) {
        Ok(store) => Ok(store),
        Err(_) => Err(BenchError::Open),
    }
}

/// The new file `bench.tkh` of the current directory.
fn disk(rt: &HostRuntime) -> Result<FileDisk, BenchError> {
    let mut folder = DirFolder::new(rt.clone()?, rt.alloc(), ".")?;
    let Ok(Some(mut disk)) = folder.take("bench.tkh", true) else {
        return Err(BenchError::Open);
    };
    match disk.len() {
        Ok(0) => Ok(disk),
        _ => Err(BenchError::Open),
    }
}

/// The words of the command line, without the program's name.
fn words_of(rt: &HostRuntime) -> Result<Vec<String>, BenchError> {
    let mut args = env::args(rt)?;
    let _program = args.next();
    Ok(args.collect(rt.alloc())?)
}

fn measured<R: Threads + Wait + Clock + Sync>(
    rt: &HostRuntime,
    threads_of: &R,
) -> Result<u128, BenchError> {
    let words = words_of(rt)?;
    let [engine, call, threads, calls] = words.as_slice() else {
        return Err(BenchError::Usage);
    };
    let threads = match threads.as_str() {
        "1" => 1,
        "2" => 2,
        "4" => 4,
        _ => return Err(BenchError::Usage),
    };
    let Ok(calls) = calls.parse::<u32>() else {
        return Err(BenchError::Usage);
    };
    let work = Work {
        sets: call.as_str() == "set",
        seed: 1,
        calls,
    };
    match engine.as_str() {
        "tiny" => rate(
            threads_of,
            rt.alloc(),
            tiny(rt.alloc(), LIMIT)?,
            threads,
            work,
        ),
        "hash" => rate(
            threads_of,
            rt.alloc(),
            store_on(rt.alloc(), disk(rt)?)?,
            threads,
            work,
        ),
        _ => Err(BenchError::Usage),
    }
}

fn main(rt: HostRuntime) -> ExitCode {
    // There is nowhere to tell that a line wasn't printed.
    match measured(&rt, &rt) {
        Ok(rate) => {
            let _ = println!(rt; "{rate}");
            ExitCode::SUCCESS
        }
        Err(error) => {
            let _ = eprintln!(rt; "{error}");
            ExitCode::from(1)
        }
    }
}
