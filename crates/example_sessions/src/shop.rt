//! The calls of the session store.
ghost use Rattle.example_sessions.specs.Sessions.{IsOurs};

use crate::database::Store;
use crate::failure::{Failure, is_done};
use std::alloc::Global;
use std::sync::Wait;
use tk_dbm::{Dbm, Pass};
use tk_derived::{ValueList, append, compare_exchange, get, increment, remove, set};
use tk_model::Bytes;
use tk_proc::{At, Desired, Expected, OpenGate};
use tk_status::Status;

/// The counter of all visits, eight bytes.
const VISITS: &[u8] = b"visits";

/// The name of the session that came first.
const FIRST: &[u8] = b"first";

/// No call of this program waits at a gate.
const FREE: At<'static, OpenGate> = At {
    gate: &OpenGate,
    worker: 0,
    line: 0,
};

/// What every call needs beside a pass.
#[derive(Drop)]
pub struct Shop<'a, R> {
    pub rt: &'a R,
    pub alloc: Global,
    pub db: &'a Dbm<Store>,
}

impl<R: Wait> Shop<'_, R> {
    /// Begins to count, where no earlier day did.
    pub fn begin(&self, pass: &mut Pass) -> Result<(), Failure>
        requires own { IsOurs self.now.db.now pass.old }
        ensures own { IsOurs self.now.db.now pass.new }
    {
        let zero = [0; 8];
        let answer = set(
            self.alloc, self.rt, self.db, pass, VISITS, &zero, false, &FREE,
        );
        is_done(answer, Status::Duplication)?;
        Ok(())
    }

    /// Puts the session's name down as the first, where none is.
    pub fn come(&self, pass: &mut Pass, session: &[u8; 2]) -> Result<(), Failure>
        requires own { IsOurs self.now.db.now pass.old }
        ensures own { IsOurs self.now.db.now pass.new }
    {
        let name = Desired::Value(Bytes::from_slice(self.alloc, session)?);
        let mut was = ValueList::new(self.alloc);
        let none = Expected::Absent;
        let answer = compare_exchange(
            self.alloc, self.rt, self.db, pass, FIRST, &none, &name, &mut was, &FREE,
        );
        is_done(answer, Status::Infeasible)?;
        Ok(())
    }

    /// A visit of a page: it goes behind the pages of the session, and all visits are one more.
    pub fn visit(&self, pass: &mut Pass, session: &[u8; 2], page: &[u8]) -> Result<(), Failure>
        requires own { IsOurs self.now.db.now pass.old }
        ensures own { IsOurs self.now.db.now pass.new }
    {
        let answer = append(
            self.alloc, self.rt, self.db, pass, session, page, b",", &FREE,
        );
        is_done(answer, Status::Success)?;
        self.count(pass, 1)?;
        Ok(())
    }

    /// How many visits there were.
    pub fn visits(&self, pass: &mut Pass) -> Result<i64, Failure>
        requires own { IsOurs self.now.db.now pass.old }
        ensures own { IsOurs self.now.db.now pass.new }
    {
        // -2^63 reads
        self.count(pass, i64::MIN)
    }

    /// Adds to the counter of all visits, and tells it.
    fn count(&self, pass: &mut Pass, more: i64) -> Result<i64, Failure>
        requires own { IsOurs self.now.db.now pass.old }
        ensures own { IsOurs self.now.db.now pass.new }
    {
        let mut visits = 0;
        let answer = increment(
            self.alloc,
            self.rt,
            self.db,
            pass,
            VISITS,
            more,
            0,
            &mut visits,
            &FREE,
        );
        is_done(answer, Status::Success)?;
        Ok(visits)
    }

    /// The session that came first. A key from the store is tested, since a proof knows nothing of it.
    pub fn first(&self, pass: &mut Pass) -> Result<Option<[u8; 2]>, Failure>
        requires own { IsOurs self.now.db.now pass.old }
        ensures own { IsOurs self.now.db.now pass.new }
    {
        let mut name = Bytes::new(self.alloc);
        let answer = get(self.alloc, self.rt, self.db, pass, FIRST, &mut name, &FREE);
        is_done(answer, Status::NotFound)?;
        Ok(<[u8; 2]>::try_from(name.as_slice()).ok())
    }

    /// Ends the session that came first, and hands out its pages.
    pub fn end(&self, pass: &mut Pass, session: &[u8; 2]) -> Result<Bytes, Failure>
        requires own { IsOurs self.now.db.now pass.old }
        ensures own { IsOurs self.now.db.now pass.new }
    {
        let mut pages = Bytes::new(self.alloc);
        let answer = get(
            self.alloc, self.rt, self.db, pass, session, &mut pages, &FREE,
        );
        is_done(answer, Status::NotFound)?;
        is_done(
            remove(self.rt, self.db, pass, session, &FREE),
            Status::NotFound,
        )?;
        is_done(
            remove(self.rt, self.db, pass, FIRST, &FREE),
            Status::NotFound,
        )?;
        Ok(pages)
    }
}
