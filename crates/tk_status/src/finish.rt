use crate::{Status, number};

/// How a command ended. Fields that its status doesn't use are 0.
#[derive(Clone, Copy, Debug, PartialEq, Eq)]
pub struct Finish {
    pub status: u8,
    pub line: u64,
    pub file: u64,
    pub place: u64,
    pub answer: u8,
}

impl Finish {
    ghost use Rattle.std.specs.Prelude.{◌≡◌};
    ghost use Rattle.tk_status.specs.Finish.{ended, refused_at, exists_at, answered, ended_by};
    ghost use Rattle.tk_status.specs.Statuses.{number_of};

    /// The end with this status and nothing more to tell.
    pub fn with(status: u8) -> Finish
        ensures { result ≡ ended status }
    {
        Finish {
            status,
            line: 0,
            file: 0,
            place: 0,
            answer: 0,
        }
    }

    /// The end at a file that was refused at a place.
    pub fn refused(file: u64, place: u64) -> Finish
        ensures { result ≡ refused_at file place }
    {
        Finish {
            status: 3,
            line: 0,
            file,
            place,
            answer: 0,
        }
    }

    /// The end at a file that was to be written new, and has bytes.
    pub fn exists(file: u64) -> Finish
        ensures { result ≡ exists_at file }
    {
        Finish {
            status: 7,
            line: 0,
            file,
            place: 0,
            answer: 0,
        }
    }

    /// The end of a command whose call answered another status than success, by that status's number.
    pub fn answered(answer: u8) -> Finish
        ensures { result ≡ answered answer }
    {
        Finish {
            status: 6,
            line: 0,
            file: 0,
            place: 0,
            answer,
        }
    }

    /// The end of a command by the status of its call.
    pub fn ended_by(status: &Status) -> Finish
        ensures { result ≡ ended_by status.now }
    {
        let answer = number(status);
        if answer == 0 {
            Finish::with(0)
        } else {
            Finish::answered(answer)
        }
    }
}
