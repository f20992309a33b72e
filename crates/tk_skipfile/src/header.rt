ghost use Rattle.std.specs.Prelude.{◌≡◌};
ghost use Rattle.tk_skipfile.specs.SkipText.{header_front, header_text};

use crate::levels::levels_of;
use tk_model::fnv32;

#[tactic(auto, unfolding(crate::specs::SkipText::header_front))]
fn header_front(count: u64, generation: u64) -> [u8; 28]
    ensures { result ≡ header_front count generation }
{
    let levels = levels_of(count);
    let c = count.to_be_bytes();
    let g = generation.to_be_bytes();
    [
        b'T', b'K', b'P', b'S', b'K', b'I', b'P', b'\n', 1, 4, levels, 0, c[0], c[1], c[2], c[3],
        c[4], c[5], c[6], c[7], g[0], g[1], g[2], g[3], g[4], g[5], g[6], g[7],
    ]
}

/// The 32 bytes of a header.
#[tactic(auto, unfolding(crate::specs::SkipText::header_text))]
pub fn write_header(count: u64, generation: u64) -> [u8; 32]
    ensures { result ≡ header_text count generation }
{
    let front = header_front(count, generation);
    let check = fnv32(&front).to_be_bytes();
    let mut out = [0; 32];
    out[..28].copy_from_slice(&front);
    out[28..].copy_from_slice(&check);
    out
}
