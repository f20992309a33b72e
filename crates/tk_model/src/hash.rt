ghost use Rattle.std.specs.Prelude.{◌≡◌, ◌≤◌, ◌<◌, ◌^◌};
ghost use Rattle.tk_model.specs.Hashes.{fnv_from, fnv32_of, fnv64_of, mix_of, mixed, bucket_of, shard_of};

/// Goes on with FNV-1a of 32 bits from a hash so far.
pub fn fnv32_from(start: u32, bytes: &[u8]) -> u32
    ensures { result ≡ fnv_from (2 ^ 32) 16777619 start bytes.now }
{
    let mut hash = start;
    for byte in bytes {
        hash = (hash ^ u32::from(*byte)).wrapping_mul(16777619);
    }
    hash
}

/// FNV-1a of 32 bits.
#[tactic(auto, unfolding(crate::specs::Hashes::fnv32_of))]
pub fn fnv32(bytes: &[u8]) -> u32
    ensures { result ≡ fnv32_of bytes.now }
{
    fnv32_from(2166136261, bytes)
}

/// FNV-1a of 64 bits.
#[tactic(auto, unfolding(crate::specs::Hashes::fnv64_of))]
pub fn fnv64(bytes: &[u8]) -> u64
    ensures { result ≡ fnv64_of bytes.now }
{
    let mut hash: u64 = 14695981039346656037;
    for byte in bytes {
        hash = (hash ^ u64::from(*byte)).wrapping_mul(1099511628211);
    }
    hash
}

fn scramble(x: u64) -> u64
    ensures { result ≡ mixed x }
{
    let x = (x ^ (x >> 33)).wrapping_mul(0xff51afd7ed558ccd);
    let x = (x ^ (x >> 33)).wrapping_mul(0xc4ceb9fe1a85ec53);
    x ^ (x >> 33)
}

/// The hash that places a key: its 64-bit hash with the high bits mixed into the low ones.
#[tactic(auto, unfolding(crate::specs::Hashes::mix_of))]
pub fn mix(bytes: &[u8]) -> u64
    ensures { result ≡ mix_of bytes.now }
{
    scramble(fnv64(bytes))
}

/// The bucket of a mixed hash among `2^p`: its top `p` bits.
pub fn bucket(mix: u64, p: u8) -> u64
    requires { p ≤ 64 }
    ensures value { result ≡ bucket_of mix p }
    ensures below { result < 2 ^ p }
{
    if p == 0 { 0 } else { mix >> (64 - p) }
}

/// The shard of a mixed hash among `n`: its bits 16 to 31 modulo `n`.
pub fn shard(mix: u64, n: u32) -> u32
    requires { 1 ≤ n }
    ensures value { result ≡ shard_of mix n }
    ensures below { result < n }
{
    (mix >> 16 & 0xffff) as u32 % n
}
