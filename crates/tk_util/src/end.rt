//! How a command ends, by its call.
ghost use Rattle.std.specs.Prelude.{◌≡◌, ◌≢◌, ◌⊎◌, ◌≤◌, ◌++◌, ◌∷◌, ℕ, List, [], OnOk, OnErr, IsErrOf, Option};
ghost use Rattle.std.specs.Io.KnownBytes.{Appends};
ghost use Rattle.tk_io.specs.Streams.{AppendsFront, HasCause};
ghost use Rattle.tk_util.specs.Done.{with_status};
ghost use Rattle.tk_util.specs.Ends.{call_end};

use crate::call::Stop;
use tk_disk::DiskError;
use tk_io::{IoError, Sink};
use tk_status::{Finish, Status};

/// The number of the answer that a file would pass its limit.
const FULL: u8 = 21;

/// The end of a command by its call, and by giving its disk back.
pub(crate) fn end_of(answer: Result<Status, Stop>, given: Result<(), DiskError>) -> Finish
    ensures { result ≡ call_end answer given }
{
    match (answer, given) {
        (Ok(status), Ok(())) => Finish::ended_by(&status),
        (Err(Stop::Refused { place }), _) => Finish::refused(0, place),
        (Err(Stop::Full), Ok(())) => Finish::answered(FULL),
        (Err(Stop::NoMemory), Ok(())) => Finish::with(5),
        (Err(Stop::Fault), _) | (_, Err(_)) => Finish::with(4),
    }
}

/// The answer of a processor's call, with the status of its reply.
pub(crate) fn with_status(answer: Result<Status, Stop>, status: Status) -> Result<Status, Stop>
    ensures { result ≡ with_status answer status }
{
    answer.map(|_| status)
}

/// Prints a value as a line.
pub(crate) fn print<W: Sink>(out: &mut W, value: &[u8]) -> Result<(), IoError>
    ensures ok { OnOk result (Appends (W.held out.old) (W.held out.new) (value.now ++ 10 ∷ [])) }
    ensures err { OnErr result (AppendsFront (W.held out.old) (W.held out.new)
        (value.now ++ 10 ∷ [])) }
    ensures cause { HasCause (W.fault_count out.old) (W.fault_count out.new) result }
{
    match out.write_all(value) {
        Ok(()) => out.write_all(b"\n"),
        Err(error) => Err(error),
    }
}
