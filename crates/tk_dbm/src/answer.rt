ghost use Rattle.std.specs.Prelude.{◌≡◌, None};

use tk_status::Status;

/// How a call ended, and its number in the history where it has one.
#[derive(Clone, Copy, Debug, PartialEq, Eq)]
pub struct Answer {
    pub status: Status,
    pub number: Option<u64>,
}

impl Answer {
    pub(crate) fn refused(status: Status) -> Answer
        ensures { result ≡ record { status = status; number = None } }
    {
        Answer {
            status,
            number: None,
        }
    }
}
