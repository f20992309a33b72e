//! From what the database answered and what the processor tells to the answer of a call.
ghost use Rattle.std.specs.Prelude.{◌≡◌, unwrap_or, if◌then◌else◌};
ghost use Rattle.tk_derived.specs.Answering.{succeeded, answered};

use tk_dbm::Answer;
use tk_status::Status;

/// The call was made, and its processor's reply counts.
pub(crate) fn is_made(answer: &Answer) -> bool
    ensures { result ≡ succeeded answer.now }
{
    match (answer.number, answer.status) {
        (Some(_), Status::Success) => true,
        _ => false,
    }
}

/// The answer of a call, with its processor's no in place of success.
pub(crate) fn replied(answer: Answer, status: Status) -> Answer
    ensures { result ≡ answered answer status }
{
    let no = matches!(
        status,
        Status::InvalidArgument | Status::NotFound | Status::Infeasible | Status::Duplication
    );
    if no && is_made(&answer) {
        return Answer {
            status,
            number: answer.number,
        };
    }
    answer
}

/// Writes what a processor tells over `out`, where the call was made and there is something to tell.
pub(crate) fn tell<T: Drop>(out: &mut T, made: &Answer, value: Option<T>)
    ensures { out.new ≡ if succeeded made.now then unwrap_or value out.old else out.old }
{
    if is_made(made)
        && let Some(value) = value
    {
        *out = value;
    }
}
