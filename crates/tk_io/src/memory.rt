ghost use Rattle.std.specs.Prelude.{◌≡◌, ◌+◌, ◌++◌, ◌≤◌, ◌<◌, ◌↔◌, [], min, length, take, drop, IfOk, OnOk, OnErr, IsErrOf, Contains, Some};
ghost use Rattle.std.specs.Io.KnownBytes.{Appends, Consumes, IsAtEnd, Keeps};
ghost use Rattle.tk_io.specs.Streams.{AppendsFront, HasCause};
ghost use Rattle.tk_model.specs.Counts.{capped};

use crate::schedule::begin;
use crate::{IoError, Sink, Source};
use std::alloc::Global;
use std::marker::Model;
use tk_model::{Bytes, FaultList, FaultSchedule};

/// A source over bytes in memory. The calls whose numbers, counted from 0, stand in its list fail.
#[derive(Drop)]
pub struct MemSource {
    bytes: Bytes,
    at: usize,
    schedule: FaultSchedule,
}

impl Model for MemSource {
    ghost use Rattle.std.specs.Prelude.{◌≤◌, drop, length};
    ghost use Rattle.tk_io.specs.Memory.{SourceState};

    ghost Value = { SourceState };

    ghost view = { λ s. record {
      left = drop s.at s.bytes;
      failing = s.schedule.failing;
      calls = s.schedule.calls;
      faults = s.schedule.faults;
    } };

    ghost invariant = { λ s. s.at ≤ length s.bytes };
}

/// Copies as many bytes as fit.
fn copy_front(from: &[u8], into: &mut [u8]) -> usize
    ensures count { result ≡ min (length into.old) (length from.now) }
    ensures bytes { take result into.new ≡ take result from.now }
{
    let count = into.len().min(from.len());
    into[..count].copy_from_slice(&from[..count]);
    count
}

impl MemSource {
    pub fn new(bytes: Bytes, faults: FaultList) -> MemSource
        ensures { result ≡ record { left = bytes; failing = faults; calls = 0; faults = 0 } }
    {
        MemSource {
            bytes,
            at: 0,
            schedule: FaultSchedule::new(faults),
        }
    }
}

impl Source for MemSource {
    ghost use Rattle.std.specs.Prelude.{Some};

    ghost left = { λ s. Some s.left };

    ghost fault_count = { λ s. s.faults };

    fn faults(&self) -> u64 {
        self.schedule.faults()
    }

    /// Gives as many bytes as fit.
    fn read(&mut self, into: &mut [u8]) -> Result<usize, IoError>
        ensures bound { IfOk result (λ n. n ≤ length into.old) }
        ensures bytes { IfOk result (λ n. Consumes (Some self.old.left) (Some self.new.left)
            (take n into.new)) }
        ensures end { IfOk result (λ n. n ≡ 0 → 0 < length into.old
            → IsAtEnd (Some self.new.left)) }
        ensures err { OnErr result (Keeps (Some self.old.left) (Some self.new.left)) }
        ensures cause { HasCause self.old.faults self.new.faults result }
        ensures exact { IsErrOf result IoError.Fault ↔ Contains self.old.failing self.old.calls }
        ensures memory { IsErrOf result IoError.NoMemory → ⊥ }
        ensures most { IfOk result (λ n. n ≡ min (length into.old) (length self.old.left)) }
        ensures calls { self.new.calls ≡ capped (self.old.calls + 1) }
        ensures failing { self.new.failing ≡ self.old.failing }
        ensures raised { OnErr result (self.new.faults ≡ capped (self.old.faults + 1)) }
    {
        begin(&mut self.schedule)?;
        let count = copy_front(&self.bytes.as_slice()[self.at..], into);
        self.at += count;
        Ok(count)
    }
}

/// A sink that keeps its bytes in memory. The calls whose numbers, counted from 0, stand in its list fail.
#[derive(Drop)]
pub struct MemSink {
    bytes: Bytes,
    schedule: FaultSchedule,
}

impl Model for MemSink {
    ghost use Rattle.tk_io.specs.Memory.{SinkState};

    ghost Value = { SinkState };

    ghost view = { λ s. record {
      held = s.bytes;
      failing = s.schedule.failing;
      calls = s.schedule.calls;
      faults = s.schedule.faults;
    } };
}

impl MemSink {
    pub fn new(alloc: Global, faults: FaultList) -> MemSink
        ensures { result ≡ record { held = []; failing = faults; calls = 0; faults = 0 } }
    {
        MemSink {
            bytes: Bytes::new(alloc),
            schedule: FaultSchedule::new(faults),
        }
    }

    /// What was written.
    pub fn bytes(&self) -> &[u8]
        ensures { result.now ≡ self.now.held }
    {
        self.bytes.as_slice()
    }
}

impl Sink for MemSink {
    ghost use Rattle.std.specs.Prelude.{Some};

    ghost held = { λ s. Some s.held };

    ghost fault_count = { λ s. s.faults };

    fn faults(&self) -> u64 {
        self.schedule.faults()
    }

    /// A call that fails writes nothing.
    fn write_all(&mut self, bytes: &[u8]) -> Result<(), IoError>
        ensures ok { OnOk result (Appends (Some self.old.held) (Some self.new.held) bytes.now) }
        ensures fault { IsErrOf result IoError.Fault → AppendsFront (Some self.old.held)
            (Some self.new.held) bytes.now }
        ensures memory { IsErrOf result IoError.NoMemory → Keeps (Some self.old.held)
            (Some self.new.held) }
        ensures cause { HasCause self.old.faults self.new.faults result }
        ensures exact { IsErrOf result IoError.Fault ↔ Contains self.old.failing self.old.calls }
        ensures unwritten { OnErr result (self.new.held ≡ self.old.held) }
        ensures calls { self.new.calls ≡ capped (self.old.calls + 1) }
        ensures failing { self.new.failing ≡ self.old.failing }
        ensures raised { IsErrOf result IoError.Fault → self.new.faults ≡ capped
            (self.old.faults + 1) }
    {
        begin(&mut self.schedule)?;
        if self.bytes.extend(bytes).is_err() {
            return Err(IoError::NoMemory);
        }
        Ok(())
    }
}
