ghost use Rattle.std.specs.Prelude.{◌≡◌, ◌<◌, ◌≤◌, ◌++◌, ◌∷◌, [], true, false, All, length, slice_index, take, IfSome, IfNone, IfOk, OnOk, OnErr, None, Some};
ghost use Rattle.std.specs.Option.{SomeIff};
ghost use Rattle.std.specs.Char.{digit_char, digit_value};
ghost use Rattle.tk_model.specs.RecordText.{Extends};
ghost use Rattle.tk_flat.specs.Escapes.{needs_escape, escape_text, hex_escape, escaped, followed, unescaped, after_backslash, first_digit};

use crate::search::cut;
use std::alloc::Global;
use tk_model::{Bytes, NoMemory};

fn digit(value: u8) -> u8
    requires { value < 16 }
    ensures { result ≡ digit_char value }
{
    char::from_digit(u32::from(value), 16).unwrap() as u8
}

fn hex_escape(byte: u8) -> [u8; 4]
    ensures { result ≡ hex_escape byte }
{
    [b'\\', b'x', digit(byte / 16), digit(byte % 16)]
}

fn put_escape(byte: u8, out: &mut Bytes) -> Result<(), NoMemory>
    ensures ok { OnOk result (out.new ≡ out.old ++ escape_text byte) }
    ensures err { OnErr result (out.new ≡ out.old) }
{
    match byte {
        b'\t' => out.extend(b"\\t"),
        b'\n' => out.extend(b"\\n"),
        b'\\' => out.extend(b"\\\\"),
        _ => out.extend(&hex_escape(byte)),
    }
}

fn needs_escape(byte: u8) -> bool
    ensures { result ≡ needs_escape byte }
{
    byte < 0x20 || byte >= 0x7f || byte == b'\\'
}

/// How many bytes at the front are printed as they are.
fn plain_front(bytes: &[u8]) -> usize
    ensures bound { result ≤ length bytes.now }
    ensures plain { All (λ b. needs_escape b ≡ false) (take result bytes.now) }
    ensures stops { result < length bytes.now → needs_escape (slice_index bytes.now result) ≡ true }
{
    for (at, byte) in bytes.iter().enumerate() {
        if needs_escape(*byte) {
            return at;
        }
    }
    bytes.len()
}

/// The bytes before the first that is not printed as it is, that byte, and those behind it.
fn cut_run(bytes: &[u8]) -> Option<(&[u8], u8, &[u8])>
    ensures found { IfSome result (λ r. bytes.now ≡ r.0.now ++ r.1 ∷ r.2.now) }
    ensures plain { IfSome result (λ r. All (λ b. needs_escape b ≡ false) r.0.now) }
    ensures escaped { IfSome result (λ r. needs_escape r.1 ≡ true) }
    ensures none { IfNone result (All (λ b. needs_escape b ≡ false) bytes.now) }
{
    let at = plain_front(bytes);
    if at == bytes.len() {
        return None;
    }
    Some((&bytes[..at], bytes[at], &bytes[at + 1..]))
}

/// Puts bytes at the end as one field.
#[tactic(auto, using(crate::proofs::Escaped::escape_steps))]
pub fn escape(bytes: &[u8], out: &mut Bytes) -> Result<(), NoMemory>
    ensures ok { OnOk result (out.new ≡ out.old ++ escaped bytes.now) }
    ensures err { OnErr result (Extends out.old out.new) }
    ensures back { unescaped (escaped bytes.now) ≡ Some bytes.now }
{
    let mut rest = bytes;
    loop {
        let Some((run, byte, behind)) = cut_run(rest) else {
            out.extend(rest)?;
            return Ok(());
        };
        out.extend(run)?;
        put_escape(byte, out)?;
        rest = behind;
    }
}

fn hex_value(digit: u8) -> Option<u8>
    ensures { SomeIff result (digit_value digit < 16) (digit_value digit) }
{
    let value = char::from(digit).to_digit(16)?;
    Some(value as u8)
}

/// The byte of two digits, and the rest.
#[tactic(auto, unfolding(crate::specs::Escapes::unescaped))]
fn read_hex(bytes: &[u8]) -> Option<(u8, &[u8])>
    ensures found { IfSome result (λ r. first_digit bytes.now ≡ followed r.0 (unescaped r.1.now)) }
    ensures none { IfNone result (first_digit bytes.now ≡ None) }
    ensures shorter { IfSome result (λ r. length r.1.now < length bytes.now) }
{
    let [high, low, rest @ ..] = bytes else {
        return None;
    };
    let high = hex_value(*high)?;
    let low = hex_value(*low)?;
    Some((16 * high + low, rest))
}

/// The byte that is written behind a backslash, and the rest.
#[tactic(auto, unfolding(crate::specs::Escapes::unescaped))]
fn read_escape(bytes: &[u8]) -> Option<(u8, &[u8])>
    ensures found { IfSome result (λ r. after_backslash bytes.now ≡ followed r.0
        (unescaped r.1.now)) }
    ensures none { IfNone result (after_backslash bytes.now ≡ None) }
    ensures shorter { IfSome result (λ r. length r.1.now < length bytes.now) }
{
    let (first, rest) = bytes.split_first()?;
    match first {
        b't' => Some((b'\t', rest)),
        b'n' => Some((b'\n', rest)),
        b'\\' => Some((b'\\', rest)),
        b'x' => read_hex(rest),
        _ => None,
    }
}

/// The bytes of a field; none where it holds a backslash that begins no escape.
#[tactic(auto, using(crate::proofs::Fields::unescape_steps))]
pub fn unescape(alloc: Global, field: &[u8]) -> Result<Option<Bytes>, NoMemory>
    ensures { IfOk result (λ bytes. bytes ≡ unescaped field.now) }
{
    let mut out = Bytes::with_capacity(alloc, field.len())?;
    let mut rest = field;
    loop {
        let Some((run, escape)) = cut(b'\\', rest) else {
            out.extend(rest)?;
            return Ok(Some(out));
        };
        out.extend(run)?;
        let Some((byte, behind)) = read_escape(escape) else {
            return Ok(None);
        };
        out.push(byte)?;
        rest = behind;
    }
}
