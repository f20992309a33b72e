//! A session store: four threads make visits, and what they left is read from the closed database.
#![tactic(auto)]

ghost use Rattle.std.specs.Prelude.{All, IfOk};
ghost use Rattle.example_sessions.specs.Sessions.{IsOurs};

mod database;
mod failure;
mod shop;

use database::{Store, close, disk, open};
use failure::Failure;
use shop::Shop;
use std::alloc::Global;
use std::process::ExitCode;
use std::sync::Wait;
use std::thread::{self, Threads};
use tk_dbm::{Dbm, Pass};
use tk_disk::FileDisk;
use tk_model::NoMemory;
use tk_status::Status;

const THREADS: u8 = 4;

/// How many pages a visitor looks at.
const PAGES: u32 = 25;

/// The pass of a thread, its session, and how it ended.
#[derive(Drop)]
struct Visitor {
    pass: Pass,
    session: [u8; 2],
    ended: Result<(), Failure>,
}

/// A visitor for each thread, with a part of the pass.
fn visitors(alloc: Global, db: &Dbm<Store>, pass: &mut Pass) -> Result<Vec<Visitor>, NoMemory>
    requires own { IsOurs db.now pass.old }
    ensures own { IsOurs db.now pass.new }
    ensures each { IfOk result (λ v. All (λ one. IsOurs db.now one.pass) v.items) }
{
    let mut visitors = Vec::new(alloc);
    for number in 0..THREADS {
        visitors.push(Visitor {
            pass: db.split(pass),
            session: [b's', b'0' + number],
            ended: Ok(()),
        })?;
    }
    Ok(visitors)
}

/// What one thread does.
fn stay<R: Wait>(shop: &Shop<R>, pass: &mut Pass, session: &[u8; 2]) -> Result<(), Failure>
    requires own { IsOurs shop.now.db.now pass.old }
    ensures own { IsOurs shop.now.db.now pass.new }
{
    shop.come(pass, session)?;
    for _ in 0..PAGES {
        shop.visit(pass, session, b"page")?;
    }
    Ok(())
}

/// Joins the parts of the pass, and tells the failure of a thread.
fn leave(db: &Dbm<Store>, pass: &mut Pass, mut visitors: Vec<Visitor>) -> Result<(), Failure>
    requires own { IsOurs db.now pass.old }
    requires each { All (λ one. IsOurs db.now one.pass) visitors.items }
    ensures own { IsOurs db.now pass.new }
{
    while let Some(visitor) = visitors.pop() {
        db.join(pass, visitor.pass);
        visitor.ended?;
    }
    Ok(())
}

/// Has each visitor stay in a thread of its own.
fn serve<R: Threads + Wait + Sync>(shop: &Shop<R>, pass: &mut Pass) -> Result<(), Failure>
    requires own { IsOurs shop.now.db.now pass.old }
    ensures own { IsOurs shop.now.db.now pass.new }
{
    let mut visitors = visitors(shop.alloc, shop.db, pass)?;
    let threads = visitors.len().max(1);
    thread::for_each_mut(
        shop.rt,
        &mut visitors,
        threads,
        &|_, visitor: &mut Visitor|
            requires { IsOurs shop.now.db.now visitor.now.pass }
            ensures { IsOurs shop.entry.now.db.now visitor.exit.now.pass }
        { visitor.ended = stay(shop, &mut visitor.pass, &visitor.session) },
    );
    leave(shop.db, pass, visitors)
}

/// A day of the store: opened, used by four threads, closed.
fn day<R: Threads + Wait + Sync>(
    rt: &R,
    alloc: Global,
    disk: FileDisk,
) -> Result<FileDisk, Failure> {
    let (db, mut pass) = open(alloc, disk)?;
    let shop = Shop { rt, alloc, db: &db };
    shop.begin(&mut pass)?;
    serve(&shop, &mut pass)?;
    close(db, pass)
}

/// Opened again: how many visits there were so far, and how long the pages of the session that came first are, which ends.
fn look<R: Wait>(rt: &R, alloc: Global, disk: FileDisk) -> Result<(i64, usize), Failure> {
    let (db, mut pass) = open(alloc, disk)?;
    let shop = Shop { rt, alloc, db: &db };
    let visits = shop.visits(&mut pass)?;
    let length = match shop.first(&mut pass)? {
        Some(session) => shop.end(&mut pass, &session)?.len(),
        None => 0,
    };
    close(db, pass)?;
    Ok((visits, length))
}

fn run<R: Threads + Wait + Sync>(host: &HostRuntime, rt: &R) -> Result<(i64, usize), Failure> {
    let disk = disk(host, "sessions.tkh")?;
    let disk = day(rt, host.alloc(), disk)?;
    look(rt, host.alloc(), disk)
}

fn main(rt: HostRuntime) -> ExitCode {
    match run(&rt, &rt) {
        Ok((visits, length)) => {
            // There is nowhere to tell that a line wasn't printed.
            let _ = println!(rt; "{visits} visits, the first session had {length} bytes");
            ExitCode::SUCCESS
        }
        Err(failure) => {
            let _ = eprintln!(rt; "{failure}");
            ExitCode::from(1)
        }
    }
}
