ghost use Rattle.std.specs.Prelude.{◌≡◌, ◌≤◌, ◌<◌, length, take, IfOk, OnOk, OnErr, IsErrOf};
ghost use Rattle.std.specs.Io.KnownBytes.{Appends, Consumes, IsAtEnd, Keeps};
ghost use Rattle.tk_io.specs.Streams.{AppendsFront, HasCause};

use crate::{IoError, Sink, Source};
use std::io::{ErrorKind, Read, Write};
use std::marker::Model;

/// What the system refused.
#[derive(Drop)]
struct Refused;

/// One read, again where a signal broke it off.
#[tactic(auto, using(crate::proofs::Known::Keeps_then, crate::proofs::Known::Keeps_Consumes, crate::proofs::Known::Keeps_same))]
fn read_once<R: Read>(reader: &mut R, into: &mut [u8]) -> Result<usize, Refused>
    ensures bound { IfOk result (λ n. n ≤ length into.old) }
    ensures bytes { IfOk result (λ n. Consumes (R.remaining reader.old) (R.remaining reader.new)
        (take n into.new)) }
    ensures end { IfOk result (λ n. n ≡ 0 → 0 < length into.old
        → IsAtEnd (R.remaining reader.new)) }
    ensures err { OnErr result (Keeps (R.remaining reader.old) (R.remaining reader.new)) }
{
    for _ in 0..u64::MAX {
        match reader.read(into) {
            Ok(n) => return Ok(n),
            Err(e) if e.kind() == ErrorKind::Interrupted => {}
            Err(_) => return Err(Refused),
        }
    }
    Err(Refused)
}

/// One write, again where a signal broke it off.
#[tactic(auto, using(crate::proofs::Known::Keeps_then, crate::proofs::Known::Keeps_Appends, crate::proofs::Known::Keeps_same))]
fn write_once<W: Write>(writer: &mut W, bytes: &[u8]) -> Result<usize, Refused>
    ensures bound { IfOk result (λ n. n ≤ length bytes.now) }
    ensures some { IfOk result (λ n. 0 < n) }
    ensures ok { IfOk result (λ n. Appends (W.contents writer.old) (W.contents writer.new)
        (take n bytes.now)) }
    ensures err { OnErr result (Keeps (W.contents writer.old) (W.contents writer.new)) }
{
    for _ in 0..u64::MAX {
        match writer.write(bytes) {
            Ok(0) => return Err(Refused),
            Ok(n) => return Ok(n),
            Err(e) if e.kind() == ErrorKind::Interrupted => {}
            Err(_) => return Err(Refused),
        }
    }
    Err(Refused)
}

#[tactic(auto, using(crate::proofs::Known::Appends_more, crate::proofs::Known::Appends_Keeps, crate::proofs::Known::Appends_none))]
fn drain<W: Write>(writer: &mut W, bytes: &[u8]) -> Result<(), Refused>
    ensures ok { OnOk result (Appends (W.contents writer.old) (W.contents writer.new) bytes.now) }
    ensures err { OnErr result (AppendsFront (W.contents writer.old) (W.contents writer.new)
        bytes.now) }
{
    let mut done = 0;
    while done < bytes.len() {
        done += write_once(writer, &bytes[done..])?;
    }
    Ok(())
}

#[tactic(auto, using(crate::proofs::Known::Appends_Keeps, crate::proofs::Known::Appends_front))]
fn hand_over<W: Write>(writer: &mut W, bytes: &[u8]) -> Result<(), Refused>
    ensures ok { OnOk result (Appends (W.contents writer.old) (W.contents writer.new) bytes.now) }
    ensures err { OnErr result (AppendsFront (W.contents writer.old) (W.contents writer.new)
        bytes.now) }
{
    drain(writer, bytes)?;
    if writer.flush().is_err() {
        return Err(Refused);
    }
    Ok(())
}

/// A reader as a source. It tells the bytes that the reader tells.
#[derive(Drop)]
pub struct StdSource<R> {
    inner: R,
    faults: u64,
}

impl<R> Model for StdSource<R> {
    ghost use Rattle.std.specs.Prelude.{ℕ};
    ghost use Rattle.std.specs.Coded.{coded×, coded_ℕ};

    ghost Value = { R × ℕ };

    ghost coded = { coded× R.code coded_ℕ };

    ghost view = { λ s. (s.inner, s.faults) };
}

impl<R> StdSource<R> {
    pub fn new(inner: R) -> StdSource<R>
        ensures { result ≡ (inner, 0) }
    {
        StdSource { inner, faults: 0 }
    }
}

impl<R: Read> Source for StdSource<R> {
    ghost left = { λ s. R.remaining s.0 };

    ghost fault_count = { λ s. s.1 };

    fn faults(&self) -> u64 {
        self.faults
    }

    fn read(&mut self, into: &mut [u8]) -> Result<usize, IoError>
        ensures bound { IfOk result (λ n. n ≤ length into.old) }
        ensures bytes { IfOk result (λ n. Consumes (R.remaining self.old.0) (R.remaining self.new.0)
            (take n into.new)) }
        ensures end { IfOk result (λ n. n ≡ 0 → 0 < length into.old
            → IsAtEnd (R.remaining self.new.0)) }
        ensures err { OnErr result (Keeps (R.remaining self.old.0) (R.remaining self.new.0)) }
        ensures cause { HasCause self.old.1 self.new.1 result }
        ensures memory { IsErrOf result IoError.NoMemory → ⊥ }
    {
        match read_once(&mut self.inner, into) {
            Ok(n) => Ok(n),
            Err(_) => {
                self.faults = self.faults.saturating_add(1);
                Err(IoError::Fault)
            }
        }
    }
}

/// A writer as a sink. Each call that answers Ok has flushed the writer.
#[derive(Drop)]
pub struct StdSink<W> {
    inner: W,
    faults: u64,
}

impl<W> Model for StdSink<W> {
    ghost use Rattle.std.specs.Prelude.{ℕ};
    ghost use Rattle.std.specs.Coded.{coded×, coded_ℕ};

    ghost Value = { W × ℕ };

    ghost coded = { coded× W.code coded_ℕ };

    ghost view = { λ s. (s.inner, s.faults) };
}

impl<W> StdSink<W> {
    pub fn new(inner: W) -> StdSink<W>
        ensures { result ≡ (inner, 0) }
    {
        StdSink { inner, faults: 0 }
    }
}

impl<W: Write> Sink for StdSink<W> {
    ghost held = { λ s. W.contents s.0 };

    ghost fault_count = { λ s. s.1 };

    fn faults(&self) -> u64 {
        self.faults
    }

    fn write_all(&mut self, bytes: &[u8]) -> Result<(), IoError>
        ensures ok { OnOk result (Appends (W.contents self.old.0) (W.contents self.new.0)
            bytes.now) }
        ensures fault { OnErr result (AppendsFront (W.contents self.old.0) (W.contents self.new.0)
            bytes.now) }
        ensures cause { HasCause self.old.1 self.new.1 result }
        ensures memory { IsErrOf result IoError.NoMemory → ⊥ }
    {
        match hand_over(&mut self.inner, bytes) {
            Ok(()) => Ok(()),
            Err(_) => {
                self.faults = self.faults.saturating_add(1);
                Err(IoError::Fault)
            }
        }
    }
}
