ghost use Rattle.std.specs.Prelude.{◌≡◌, ◌≤◌, ◌^◌, ℕ, Bool, [], IfOk};
ghost use Rattle.tk_block.specs.Text.{base_of};
ghost use Rattle.tk_block.specs.Layout.{laid, links_of, end_of};
ghost use Rattle.tk_append.specs.Fresh.{AllPairsSmall, fresh_bodies};
ghost use Rattle.tk_append.specs.Chains.{HeadsAre};

use std::alloc::Global;
use tk_block::{base_of, extent_of};
use tk_model::{NoMemory, Pair, bucket, mix};

/// The chains of a file's buckets: for each bucket its newest block, and for each block the one before it.
#[derive(Drop)]
pub(crate) struct Chains {
    pub heads: Vec<u64>,
    pub links: Vec<u64>,
}

/// The chains of blocks that follow one another from the records' base.
pub(crate) fn chains_of(alloc: Global, p: u8, pairs: &[Pair]) -> Result<Chains, NoMemory>
    requires p { p ≤ 24 }
    requires small { AllPairsSmall pairs.now }
    requires end { (number : ℕ) (each : Bool)
        → end_of (base_of p) (fresh_bodies number each pairs.now) ≤ 2 ^ 40 }
    ensures heads { IfOk result (λ c. (number : ℕ) (each : Bool) → HeadsAre p c.heads.items
        (laid (base_of p) (fresh_bodies number each pairs.now))) }
    ensures links { IfOk result (λ c. (number : ℕ) (each : Bool) → c.links.items ≡ links_of p []
        (laid (base_of p) (fresh_bodies number each pairs.now))) }
{
    let mut heads = Vec::new(alloc);
    heads.resize(1 << p, 0)?;
    let mut links = Vec::with_capacity(alloc, pairs.len())?;
    let mut place = base_of(p);
    for pair in pairs {
        let slot = bucket(mix(pair.key.as_slice()), p) as usize;
        links.push(heads[slot])?;
        heads[slot] = place;
        place += extent_of(pair.key.len(), pair.value.len());
    }
    Ok(Chains { heads, links })
}
