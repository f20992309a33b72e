ghost use Rattle.std.specs.Prelude.{◌≡◌};

use thiserror::Error;
use tk_model::NoMemory;

/// Why a text was not read.
#[derive(Clone, Copy, Debug, PartialEq, Eq, Error)]
pub enum TextError {
    /// In a flat text the place of the first record at fault; in lines its line, counted from 1.
    #[error("refused at {0}")]
    At(u64),
    #[error("no memory")]
    NoMemory,
}

impl From<NoMemory> for TextError {
    ghost use Rattle.tk_flat.specs.declared.error.TextError.TheVariants.{NoMemory};

    ghost from_gives = { λ _ e. e ≡ NoMemory };

    fn from(_: NoMemory) -> Self {
        TextError::NoMemory
    }
}
