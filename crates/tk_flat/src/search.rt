ghost use Rattle.std.specs.Prelude.{◌≡◌, ◌==◌, ◌++◌, ◌∷◌, false, All, IfNone, IfSome};

use memchr::memchr;

/// The bytes before the first such byte, and those behind it.
pub fn cut(byte: u8, bytes: &[u8]) -> Option<(&[u8], &[u8])>
    ensures found { IfSome result (λ r. bytes.now ≡ r.0.now ++ byte ∷ r.1.now) }
    ensures first { IfSome result (λ r. All (λ b. (b == byte) ≡ false) r.0.now) }
    ensures none { IfNone result (All (λ b. (b == byte) ≡ false) bytes.now) }
{
    let at = memchr(byte, bytes)?;
    Some((&bytes[..at], &bytes[at + 1..]))
}
