ghost use Rattle.std.specs.Prelude.{◌≡◌};
ghost use Rattle.tk_store.specs.Store.{is_over};

use tk_model::ChangeList;

/// The group would pass the limit.
pub fn is_over(size: u64, need: u64, limit: u64, changes: &ChangeList) -> bool
    ensures { result ≡ is_over size need limit changes.now }
{
    if changes.is_empty() && need == 0 {
        return false;
    }
    limit < size || limit - size < need
}
