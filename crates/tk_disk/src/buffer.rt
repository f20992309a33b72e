ghost use Rattle.std.specs.Prelude.{◌≡◌, length, replicate, IfOk};

use std::alloc::Global;
use tk_model::NoMemory;

/// So many zero bytes, to read into.
pub fn zeros(alloc: Global, len: usize) -> Result<Vec<u8>, NoMemory>
    ensures bytes { IfOk result (λ b. b.items ≡ replicate len 0) }
    ensures length { IfOk result (λ b. length b.items ≡ len) }
{
    let mut bytes = Vec::new(alloc);
    bytes.resize(len, 0)?;
    Ok(bytes)
}
