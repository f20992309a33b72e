use super::*;
use std::io::{self, Read, Write};
use std::test::Fail;
use tk_model::{Bytes, FaultList, NoMemory};

fn numbers(rt: &HostRuntime, of: &[u64]) -> Result<FaultList, NoMemory> {
    let mut list = FaultList::new(rt.alloc());
    for number in of {
        list.push(*number)?;
    }
    Ok(list)
}

#[test]
fn a_source_gives_its_bytes_in_turn(rt: HostRuntime) -> Result<(), Fail> {
    let bytes = Bytes::from_slice(rt.alloc(), b"abcde")?;
    let mut source = MemSource::new(bytes, numbers(&rt, &[])?);
    let mut into = [0; 3];
    assert_eq!(rt; source.read(&mut into), Ok(3));
    assert_eq!(rt; into, *b"abc");
    assert_eq!(rt; source.read(&mut into), Ok(2));
    assert_eq!(rt; into[..2], b"de"[..]);
    assert_eq!(rt; source.read(&mut into), Ok(0));
    assert_eq!(rt; source.faults(), 0);
    Ok(())
}

#[test]
fn a_source_goes_on_after_a_fault(rt: HostRuntime) -> Result<(), Fail> {
    let bytes = Bytes::from_slice(rt.alloc(), b"abcd")?;
    let mut source = MemSource::new(bytes, numbers(&rt, &[1])?);
    let mut into = [0; 2];
    assert_eq!(rt; source.read(&mut into), Ok(2));
    assert_eq!(rt; source.read(&mut into), Err(IoError::Fault));
    assert_eq!(rt; source.faults(), 1);
    assert_eq!(rt; source.read(&mut into), Ok(2));
    assert_eq!(rt; into, *b"cd");
    Ok(())
}

#[test]
fn a_sink_keeps_what_was_written(rt: HostRuntime) -> Result<(), Fail> {
    let mut sink = MemSink::new(rt.alloc(), numbers(&rt, &[1])?);
    assert_eq!(rt; sink.write_all(b"ab"), Ok(()));
    assert_eq!(rt; sink.write_all(b"xy"), Err(IoError::Fault));
    assert_eq!(rt; sink.faults(), 1);
    assert_eq!(rt; sink.write_all(b"cd"), Ok(()));
    assert_eq!(rt; sink.bytes(), &b"abcd"[..]);
    Ok(())
}

/// Passes one byte at a time; its second call is broken off by a signal, and its fourth fails.
#[derive(Drop)]
struct Halting {
    calls: u8,
}

impl Halting {
    fn next(&mut self) -> io::Result<()> {
        self.calls = self.calls.saturating_add(1);
        match self.calls {
            2 => Err(io::Error::from(io::ErrorKind::Interrupted)),
            4 => Err(io::Error::from(io::ErrorKind::BrokenPipe)),
            _ => Ok(()),
        }
    }
}

impl Read for Halting {
    fn read(&mut self, buf: &mut [u8]) -> io::Result<usize> {
        self.next()?;
        if buf.is_empty() {
            return Ok(0);
        }
        buf[0] = self.calls;
        Ok(1)
    }
}

impl Write for Halting {
    fn write(&mut self, buf: &[u8]) -> io::Result<usize> {
        self.next()?;
        Ok(buf.len().min(1))
    }

    fn flush(&mut self) -> io::Result<()> {
        Ok(())
    }
}

#[test]
fn a_reader_is_a_source(rt: HostRuntime) {
    let mut source = StdSource::new(Halting { calls: 0 });
    let mut into = [0; 4];
    assert_eq!(rt; source.read(&mut into), Ok(1));
    assert_eq!(rt; into[0], 1);
    assert_eq!(rt; source.read(&mut into), Ok(1));
    assert_eq!(rt; into[0], 3);
    assert_eq!(rt; source.read(&mut into), Err(IoError::Fault));
    assert_eq!(rt; source.faults(), 1);
    assert_eq!(rt; source.read(&mut into), Ok(1));
}

#[test]
fn a_writer_is_a_sink(rt: HostRuntime) {
    let mut sink = StdSink::new(Halting { calls: 0 });
    assert_eq!(rt; sink.write_all(b"ab"), Ok(()));
    assert_eq!(rt; sink.faults(), 0);
    assert_eq!(rt; sink.write_all(b"c"), Err(IoError::Fault));
    assert_eq!(rt; sink.faults(), 1);
    assert_eq!(rt; sink.write_all(b"d"), Ok(()));
}

/// Takes all bytes, and can't hand them on.
#[derive(Drop)]
struct Stuck;

impl Write for Stuck {
    fn write(&mut self, buf: &[u8]) -> io::Result<usize> {
        Ok(buf.len())
    }

    fn flush(&mut self) -> io::Result<()> {
        Err(io::Error::from(io::ErrorKind::BrokenPipe))
    }
}

#[test]
fn a_writer_is_flushed(rt: HostRuntime) {
    let mut sink = StdSink::new(Stuck);
    assert_eq!(rt; sink.write_all(b"a"), Err(IoError::Fault));
    assert_eq!(rt; sink.faults(), 1);
}

/// Through the traits alone.
fn copy<S: Source, K: Sink>(source: &mut S, sink: &mut K) -> Result<(), IoError> {
    let mut block = [0; 4];
    let count = source.read(&mut block)?;
    sink.write_all(&block[..count])
}

#[test]
fn a_copy_through_the_traits(rt: HostRuntime) -> Result<(), Fail> {
    let bytes = Bytes::from_slice(rt.alloc(), b"abc")?;
    let mut source = MemSource::new(bytes, numbers(&rt, &[])?);
    let mut sink = MemSink::new(rt.alloc(), numbers(&rt, &[])?);
    assert_eq!(rt; copy(&mut source, &mut sink), Ok(()));
    assert_eq!(rt; sink.bytes(), &b"abc"[..]);
    let mut out = Vec::new(rt.alloc());
    let mut source = StdSource::new(&b"wxyz"[..]);
    assert_eq!(rt; copy(&mut source, &mut StdSink::new(&mut out)), Ok(()));
    assert_eq!(rt; out.as_slice(), &b"wxyz"[..]);
    Ok(())
}
