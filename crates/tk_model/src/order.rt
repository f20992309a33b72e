ghost use Rattle.std.specs.Prelude.{◌≡◌, ◌∷◌, ◌≤◌, ◌<◌, ◌^◌, pos, neg_ℤ, if◌then◌else◌};
ghost use Rattle.std.specs.Ordering.{is_lt};
ghost use Rattle.tk_model.specs.Orders.{magnitude, decimal, hexadecimal, lowered, bytes_cmp, key_cmp, same_bytes};

use crate::Order;
use std::cmp::Ordering;

/// The greatest number that a key is read as.
const GREATEST: u128 = 0x7fff_ffff_ffff_ffff_ffff_ffff_ffff_ffff;

/// The two texts have the same bytes.
#[tactic(auto, unfolding(crate::specs::Orders::same_bytes))]
pub fn is_same(a: &[u8], b: &[u8]) -> bool
    ensures { result ≡ same_bytes a.now b.now }
{
    a == b
}

/// The number of the longest front of digits, held at its greatest.
fn magnitude_of(text: &[u8], base: u32) -> u128
    requires { (2 ≤ base) × (base ≤ 36) }
    ensures value { result ≡ magnitude base text.now }
    ensures held { result < 2 ^ 127 }
{
    let mut number: u128 = 0;
    for byte in text {
        let Some(digit) = char::from(*byte).to_digit(base) else {
            return number;
        };
        number = number
            .saturating_mul(u128::from(base))
            .saturating_add(u128::from(digit))
            .min(GREATEST);
    }
    number
}

fn signed(negative: bool, magnitude: u128) -> i128
    requires { magnitude < 2 ^ 127 }
    ensures { result ≡ (if negative then neg_ℤ (pos magnitude) else pos magnitude) }
{
    if negative {
        -(magnitude as i128)
    } else {
        magnitude as i128
    }
}

#[tactic(auto, unfolding(crate::specs::Orders::decimal))]
fn decimal_after(key: &[u8], sign: u8, digits: &[u8]) -> i128
    requires { key.now ≡ sign ∷ digits.now }
    ensures { result ≡ decimal (sign ∷ digits.now) }
{
    match sign {
        b'-' => signed(true, magnitude_of(digits, 10)),
        b'+' => signed(false, magnitude_of(digits, 10)),
        _ => signed(false, magnitude_of(key, 10)),
    }
}

#[tactic(auto, unfolding(crate::specs::Orders::decimal))]
fn decimal_of(key: &[u8]) -> i128
    ensures { result ≡ decimal key.now }
{
    match key.split_first() {
        None => 0,
        Some((sign, digits)) => decimal_after(key, *sign, digits),
    }
}

#[tactic(auto, unfolding(crate::specs::Orders::bytes_cmp))]
fn compare_bytes(a: &[u8], b: &[u8]) -> Ordering
    ensures { result ≡ bytes_cmp a.now b.now }
{
    a.cmp(b)
}

fn compare_lowered(a: &[u8], b: &[u8]) -> Ordering
    ensures { result ≡ bytes_cmp (lowered a.now) (lowered b.now) }
{
    for i in 0..a.len().min(b.len()) {
        let found = a[i].to_ascii_lowercase().cmp(&b[i].to_ascii_lowercase());
        if found.is_ne() {
            return found;
        }
    }
    a.len().cmp(&b.len())
}

/// How two keys compare in an order. Keys of different bytes are never equal.
#[tactic(auto, unfolding(crate::specs::Orders::key_cmp, crate::specs::Orders::hexadecimal))]
pub fn compare_keys(order: &Order, a: &[u8], b: &[u8]) -> Ordering
    ensures { result ≡ key_cmp order.now a.now b.now }
{
    let first = match order {
        Order::Hash => crate::mix(a).cmp(&crate::mix(b)),
        Order::Bytes => Ordering::Equal,
        Order::Case => compare_lowered(a, b),
        Order::Decimal => decimal_of(a).cmp(&decimal_of(b)),
        Order::Hex => magnitude_of(a, 16).cmp(&magnitude_of(b, 16)),
    };
    if first.is_ne() {
        first
    } else {
        compare_bytes(a, b)
    }
}

/// The first key stands before the second.
pub fn before(order: &Order, a: &[u8], b: &[u8]) -> bool
    ensures { result ≡ is_lt (key_cmp order.now a.now b.now) }
{
    compare_keys(order, a, b).is_lt()
}
