ghost use Rattle.std.specs.Prelude.{◌≡◌, ◌≤◌, ◌<◌, ℕ, List, length, take, IfOk, OnOk, OnErr, IsErrOf};
ghost use Rattle.std.specs.declared.option.Option.{Option};
ghost use Rattle.std.specs.Io.KnownBytes.{Appends, Consumes, IsAtEnd, Keeps};
ghost use Rattle.tk_io.specs.Streams.{AppendsFront, HasCause};

use thiserror::Error;

/// Why bytes did not pass.
#[derive(Clone, Copy, Debug, PartialEq, Eq, Error)]
pub enum IoError {
    #[error("fault")]
    Fault,
    #[error("no memory")]
    NoMemory,
}

/// Where bytes come from.
pub trait Source {
    /// The bytes that are left, where the source tells them.
    ghost left: { Self → Option (List ℕ) };

    /// How often a call has failed.
    ghost fault_count: { Self → ℕ };

    fn faults(&self) -> u64
        ensures { result ≡ fault_count self.now };

    /// Of the slice behind the bytes that were given nothing is said.
    fn read(&mut self, into: &mut [u8]) -> Result<usize, IoError>
        ensures bound { IfOk result (λ n. n ≤ length into.old) }
        ensures bytes { IfOk result (λ n. Consumes (left self.old) (left self.new)
            (take n into.new)) }
        ensures end { IfOk result (λ n. n ≡ 0 → 0 < length into.old → IsAtEnd (left self.new)) }
        ensures err { OnErr result (Keeps (left self.old) (left self.new)) }
        ensures cause { HasCause (fault_count self.old) (fault_count self.new) result };
}

/// Where bytes go.
pub trait Sink {
    /// The bytes that were written, where the sink tells them.
    ghost held: { Self → Option (List ℕ) };

    /// How often a call has failed.
    ghost fault_count: { Self → ℕ };

    fn faults(&self) -> u64
        ensures { result ≡ fault_count self.now };

    fn write_all(&mut self, bytes: &[u8]) -> Result<(), IoError>
        ensures ok { OnOk result (Appends (held self.old) (held self.new) bytes.now) }
        ensures fault { IsErrOf result IoError.Fault → AppendsFront (held self.old) (held self.new)
            bytes.now }
        ensures memory { IsErrOf result IoError.NoMemory → Keeps (held self.old) (held self.new) }
        ensures cause { HasCause (fault_count self.old) (fault_count self.new) result };
}
