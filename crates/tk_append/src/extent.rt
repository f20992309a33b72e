//! The room of a change in a file.
ghost use Rattle.std.specs.Prelude.{◌≡◌, ◌∷◌, ℕ, Bool, []};
ghost use Rattle.tk_model.specs.Records.{AllFit};
ghost use Rattle.tk_block.specs.Blocks.{body_of, extent_of as body_extent};

use tk_block::extent_of;
use tk_model::Change;

/// The bytes of a change's block.
pub fn extent_of_change(change: &Change) -> u64
    requires { AllFit (change.now ∷ []) }
    ensures { (number : ℕ) (last : Bool) → result ≡ body_extent (body_of number change.now last) }
{
    match change {
        Change::Put(pair) => extent_of(pair.key.len(), pair.value.len()),
        Change::Drop(key) => extent_of(key.len(), 0),
        Change::Clear => extent_of(0, 0),
    }
}
