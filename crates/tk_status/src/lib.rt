//! How calls of the database and commands of the program end.
#![tactic(auto)]

ghost use Rattle.std.specs.Prelude.{◌≡◌};
ghost use Rattle.tk_status.specs.Statuses.{number_of, text_of};

mod finish;

pub use finish::Finish;

/// The answer of a call.
#[derive(Clone, Copy, Debug, PartialEq, Eq)]
pub enum Status {
    Success,
    /// The system failed in this call: the count of its faults.
    System { faults: u64 },
    NotImplemented,
    Precondition,
    InvalidArgument,
    NotFound,
    Infeasible,
    Duplication,
    /// A store that failed earlier: the count of its faults then.
    Broken { faults: u64 },
    NoMemory,
    /// What the change needs, beside the size so far, passes the limit.
    Full { size: u64, need: u64, limit: u64 },
    /// No more calls are allowed.
    Limit,
    /// The length of a value that is too long to store.
    TooLong { length: u64 },
}

/// The number by which a status is known outside.
pub fn number(s: &Status) -> u8
    ensures { result ≡ number_of s.now }
{
    match s {
        Status::Success => 0,
        Status::System { .. } => 2,
        Status::NotImplemented => 3,
        Status::Precondition => 4,
        Status::InvalidArgument => 5,
        Status::NotFound => 7,
        Status::Infeasible => 9,
        Status::Duplication => 10,
        Status::Broken { .. } => 11,
        Status::NoMemory => 20,
        Status::Full { .. } => 21,
        Status::Limit => 22,
        Status::TooLong { .. } => 23,
    }
}

/// The name by which a status is printed.
#[tactic(auto, unfolding(crate::specs::Statuses::text_of))]
pub fn text(s: &Status) -> &'static str
    ensures { result.now ≡ text_of s.now }
{
    match s {
        Status::Success => "SUCCESS",
        Status::System { .. } => "SYSTEM_ERROR",
        Status::NotImplemented => "NOT_IMPLEMENTED_ERROR",
        Status::Precondition => "PRECONDITION_ERROR",
        Status::InvalidArgument => "INVALID_ARGUMENT_ERROR",
        Status::NotFound => "NOT_FOUND_ERROR",
        Status::Infeasible => "INFEASIBLE_ERROR",
        Status::Duplication => "DUPLICATION_ERROR",
        Status::Broken { .. } => "BROKEN_DATA_ERROR",
        Status::NoMemory => "NO_MEMORY",
        Status::Full { .. } => "FULL",
        Status::Limit => "LIMIT",
        Status::TooLong { .. } => "TOO_LONG",
    }
}

#[cfg(test)]
mod tests {
    use super::*;

    #[test]
    fn a_status_with_its_number_and_name(rt: HostRuntime) {
        let status = Status::Broken { faults: 3 };
        assert_eq!(rt; number(&status), 11);
        assert_eq!(rt; text(&status), "BROKEN_DATA_ERROR");
        assert_eq!(rt; number(&Status::TooLong { length: 18_000_000 }), 23);
        assert_eq!(rt; text(&Status::NotFound), "NOT_FOUND_ERROR");
    }
}
