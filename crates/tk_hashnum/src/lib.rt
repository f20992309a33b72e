//! Where the hash of a key puts it: its bucket, its stripe and its shard.
#![tactic(auto)]

ghost use Rattle.std.specs.Prelude.{◌≡◌, ◌≤◌, ◌<◌};
ghost use Rattle.tk_hashnum.specs.Stripes.{stripe_of};

pub use tk_model::{bucket, fnv32, fnv64, mix, shard};

/// The stripe of a mixed hash among `n`.
pub fn stripe(mix: u64, n: u32) -> u32
    requires { 1 ≤ n }
    ensures value { result ≡ stripe_of mix n }
    ensures below { result < n }
{
    (mix % u64::from(n)) as u32
}

#[cfg(test)]
mod tests {
    use super::*;

    #[test]
    fn places_of_a_key(rt: HostRuntime) {
        assert_eq!(rt; fnv32(b"a"), 0xe40c292c);
        assert_eq!(rt; fnv64(b"a"), 0xaf63dc4c8601ec8c);
        assert_eq!(rt; mix(b"a"), 0x82a2a958a9bece5b);
        assert_eq!(rt; bucket(mix(b"a"), 10), 0x20a);
        assert_eq!(rt; bucket(mix(b"a"), 0), 0);
        assert_eq!(rt; stripe(mix(b"a"), 64), 0x1b);
        assert_eq!(rt; shard(mix(b"a"), 7), 0xa9be % 7);
    }
}
