ghost use Rattle.std.specs.Prelude.{◌≡◌};

use thiserror::Error;
use tk_model::NoMemory;

/// Why a call of a store was refused.
#[derive(Clone, Copy, Debug, PartialEq, Eq, Error)]
pub enum StoreError {
    #[error("fault")]
    Fault,
    /// The size so far and what the group needs pass the limit.
    #[error("size {size} and need {need} pass the limit {limit}")]
    Full { size: u64, need: u64, limit: u64 },
    #[error("no memory")]
    NoMemory,
}

impl From<NoMemory> for StoreError {
    ghost use Rattle.tk_store.specs.declared.error.StoreError.TheVariants.{NoMemory};

    ghost from_gives = { λ _ e. e ≡ NoMemory };

    fn from(_: NoMemory) -> Self {
        StoreError::NoMemory
    }
}
