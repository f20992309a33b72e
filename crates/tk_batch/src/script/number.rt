//! Numbers in decimal digits.
ghost use Rattle.std.specs.Prelude.{◌≡◌, ◌≤◌, ◌^◌, IfSome};
ghost use Rattle.tk_batch.specs.Numbers.{number_in, at_most, signed_in};

/// An optional `-`, and then a number; it fits 64 bits.
pub(crate) fn read_signed(text: &[u8]) -> Option<i64>
    ensures { result ≡ signed_in text.now }
{
    match text {
        [] => None,
        [b'-', digits @ ..] => {
            let magnitude = read_number(digits, 1 << 63)?;
            if magnitude == 1 << 63 {
                Some(i64::MIN)
            } else {
                Some(-(magnitude as i64))
            }
        }
        _ => {
            let magnitude = read_number(text, (1 << 63) - 1)?;
            Some(magnitude as i64)
        }
    }
}

/// A number of one digit or more, up to a greatest.
#[tactic(auto, using(crate::proofs::Digits::stops))]
pub(crate) fn read_number(text: &[u8], most: u64) -> Option<u64>
    requires { most ≤ 2 ^ 63 }
    ensures value { result ≡ at_most most (number_in text.now) }
    ensures small { IfSome result (λ n. n ≤ most) }
{
    if text.is_empty() {
        return None;
    }
    let mut number: u64 = 0;
    for byte in text {
        if !byte.is_ascii_digit() {
            return None;
        }
        let next = number as u128 * 10 + (*byte - b'0') as u128;
        if next > most as u128 {
            return None;
        }
        number = next as u64;
    }
    Some(number)
}
