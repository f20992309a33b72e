ghost use Rattle.std.specs.Prelude.{◌≡◌, ◌^◌, ◌<◌, ◌≤◌};
ghost use Rattle.tk_skipfile.specs.SkipText.{levels_of, height};

/// How many records a link of a level leads on.
#[tactic(auto, using(crate::proofs::Powers::four_shifted, crate::proofs::Powers::four_some, crate::proofs::Powers::four_small))]
pub(crate) fn step_of(level: u8) -> u64
    requires { level < 32 }
    ensures value { result ≡ 4 ^ level }
    ensures some { 0 < result }
    ensures bound { result ≤ 2 ^ 62 }
{
    1 << (2 * level)
}

/// The levels of so many records.
#[tactic(auto, unfolding(crate::specs::SkipText::levels_of))]
pub(crate) fn levels_of(count: u64) -> u8
    ensures value { result ≡ levels_of count }
    ensures bound { result ≤ 32 }
{
    for levels in 0..32 {
        if count <= step_of(levels) {
            return levels;
        }
    }
    32
}

/// How many links record `i` has.
pub(crate) fn height_of(levels: u8, i: u64) -> u8
    requires { levels ≤ 32 }
    ensures value { result ≡ height levels i }
    ensures bound { result < 32 }
    ensures few { result ≤ levels }
{
    for level in 1..levels {
        if i % step_of(level) != 0 {
            return level - 1;
        }
    }
    levels.saturating_sub(1)
}
