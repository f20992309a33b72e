ghost use Rattle.std.specs.Prelude.{◌≡◌};

use std::alloc::{AllocError, AllocFailed};
use thiserror::Error;

/// Memory ran out.
#[derive(Clone, Copy, Debug, PartialEq, Eq, Error)]
#[error("no memory")]
pub struct NoMemory;

impl From<AllocError> for NoMemory {
    fn from(_: AllocError) -> Self {
        NoMemory
    }
}

impl<T: Drop> From<AllocFailed<T>> for NoMemory {
    fn from(_: AllocFailed<T>) -> Self {
        NoMemory
    }
}

/// Why a file was not opened.
#[derive(Clone, Copy, Debug, PartialEq, Eq, Error)]
pub enum OpenError {
    #[error("not a database")]
    NotADatabase,
    /// The place of the first byte or block at fault.
    #[error("broken at {0}")]
    BrokenAt(u64),
    #[error("fault")]
    Fault,
    #[error("no memory")]
    NoMemory,
}

impl From<NoMemory> for OpenError {
    ghost use Rattle.tk_model.specs.declared.error.OpenError.TheVariants.{NoMemory};

    ghost from_gives = { λ _ e. e ≡ NoMemory };

    fn from(_: NoMemory) -> Self {
        OpenError::NoMemory
    }
}

/// A disk that was not opened, and why.
#[derive(Debug, Drop)]
pub struct Unopened<D> {
    pub cause: OpenError,
    pub disk: D,
}
