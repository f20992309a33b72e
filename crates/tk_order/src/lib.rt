//! How keys compare in the orders of a database.
#![tactic(auto)]

ghost use Rattle.std.specs.Prelude.{◌≡◌, ◌↔◌};
ghost use Rattle.std.specs.Cmp.{IsTotalOrder};
ghost use Rattle.std.specs.declared.cmp.Ordering.{Ordering};
ghost use Rattle.tk_model.specs.Orders.{key_cmp};

use std::cmp::Ordering;
use tk_model::{Order, compare_keys, keys_in_line};

/// How two keys compare. The order is total, and keys of different bytes are never equal.
pub fn compare(o: &Order, a: &[u8], b: &[u8]) -> Ordering
    ensures value { result ≡ key_cmp o.now a.now b.now }
    ensures equal { result ≡ Ordering.Equal ↔ (a.now ≡ b.now) }
    ensures total { IsTotalOrder (key_cmp o.now) }
{
    keys_in_line(*o);
    compare_keys(o, a, b)
}

#[cfg(test)]
mod tests;
