ghost use Rattle.std.specs.Prelude.{◌≡◌, ◌^◌, ◌<◌, ◌≤◌, ◌↔◌, IfOk, IsTrue, length};
ghost use Rattle.tk_model.specs.Records.{AllHeld};
ghost use Rattle.tk_model.specs.declared.record.Pair.{Pair};
ghost use Rattle.tk_skipfile.specs.SkipText.{header_size, size_of, places_from, end_from, skip_size};

use crate::levels::{height_of, levels_of};
use std::alloc::Global;
use tk_model::{NoMemory, Pair, PairList};

/// Where the records of a file begin.
pub(crate) const HEADER_SIZE: u64 = 32;

/// The bytes of record `i`.
pub(crate) fn size_of(levels: u8, i: u64, key: usize, value: usize) -> u64
    requires levels { levels ≤ 32 }
    requires key { key ≤ 65535 }
    requires value { value ≤ 33554431 }
    ensures value { (p : Pair) → length p.key ≡ key → length p.value ≡ value
        → result ≡ size_of levels i p }
    ensures bound { result < 2 ^ 26 }
{
    8 * u64::from(height_of(levels, i)) + (6 + key as u64 + value as u64 + 4)
}

/// Where the records of a file stand.
pub(crate) fn places_of(alloc: Global, levels: u8, pairs: &[Pair]) -> Result<Vec<u64>, NoMemory>
    requires levels { levels ≤ 32 }
    requires held { AllHeld pairs.now }
    requires end { end_from levels 0 header_size pairs.now ≤ 2 ^ 40 }
    ensures { IfOk result (λ places. places.items ≡ places_from levels 0 header_size pairs.now) }
{
    let mut places = Vec::with_capacity(alloc, pairs.len())?;
    let mut place = HEADER_SIZE;
    for (i, pair) in pairs.iter().enumerate() {
        places.push(place)?;
        place += size_of(levels, i as u64, pair.key.len(), pair.value.len());
    }
    Ok(places)
}

/// No file is longer.
const LONGEST: u64 = 1 << 40;

/// The records of a file end within the length that a file can have.
fn end_fits(levels: u8, pairs: &[Pair]) -> bool
    requires levels { levels ≤ 32 }
    requires held { AllHeld pairs.now }
    ensures { IsTrue result ↔ (end_from levels 0 header_size pairs.now ≤ 2 ^ 40) }
{
    let mut place = HEADER_SIZE;
    for (i, pair) in pairs.iter().enumerate() {
        if place > LONGEST {
            return false;
        }
        place += size_of(levels, i as u64, pair.key.len(), pair.value.len());
    }
    place <= LONGEST
}

/// The file of these records is short enough to be written.
pub fn fits_skip(pairs: &PairList) -> bool
    requires held { AllHeld pairs.now }
    ensures { IsTrue result ↔ (skip_size pairs.now ≤ 2 ^ 40) }
{
    let pairs = pairs.as_slice();
    end_fits(levels_of(pairs.len() as u64), pairs)
}
