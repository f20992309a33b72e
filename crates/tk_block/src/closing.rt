ghost use Rattle.std.specs.Prelude.{◌≡◌};
ghost use Rattle.tk_block.specs.Grammar.{Reads, FitsClosing};
ghost use Rattle.tk_block.specs.Text.{closing_front, closing_text, closing_at};

use crate::number::u64_at;
use crate::sizes::CLOSING_SIZE;
use tk_model::fnv32;

/// The part of a header that is written again at each closing. All three are 0 while the file is open.
#[derive(Clone, Copy, Debug, PartialEq, Eq)]
pub struct Closing {
    pub size: u64,
    pub count: u64,
    pub next: u64,
}

fn closing_front(closing: &Closing) -> [u8; 28]
    ensures { result ≡ closing_front closing.now }
{
    let s = closing.size.to_be_bytes();
    let c = closing.count.to_be_bytes();
    let n = closing.next.to_be_bytes();
    [
        s[0], s[1], s[2], s[3], s[4], s[5], s[6], s[7], c[0], c[1], c[2], c[3], c[4], c[5], c[6],
        c[7], n[0], n[1], n[2], n[3], n[4], n[5], n[6], n[7], 0, 0, 0, 0,
    ]
}

/// The 32 bytes of a closing part.
#[tactic(auto, unfolding(crate::specs::Text::closing_text))]
pub fn write_closing(closing: &Closing) -> [u8; 32]
    ensures { result ≡ closing_text closing.now }
{
    let front = closing_front(closing);
    let check = fnv32(&front).to_be_bytes();
    let mut out = [0; 32];
    out[..28].copy_from_slice(&front);
    out[28..].copy_from_slice(&check);
    out
}

/// The closing part that the first 32 bytes spell.
#[tactic(auto, unfolding(crate::specs::Text::closing_at))]
pub fn read_closing(bytes: &[u8]) -> Option<Closing>
    ensures value { result ≡ closing_at bytes.now }
    ensures exact { Reads FitsClosing closing_text closing_at }
{
    if bytes.len() < CLOSING_SIZE {
        return None;
    }
    let closing = Closing {
        size: u64_at(bytes, 0),
        count: u64_at(bytes, 8),
        next: u64_at(bytes, 16),
    };
    let text = write_closing(&closing);
    if &bytes[..CLOSING_SIZE] == text.as_slice() {
        Some(closing)
    } else {
        None
    }
}
