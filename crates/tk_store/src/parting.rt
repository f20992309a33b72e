//! How hashes part records into buckets.
ghost use Rattle.std.specs.Prelude.{◌≡◌, ◌≤◌, ◌<◌, ◌^◌};
ghost use Rattle.tk_store.specs.Hashed.{bucket_in, start_in, end_in};

use tk_model::{Bound, bucket, mix};

/// Which bits of a hash tell its bucket.
#[derive(Clone, Copy, Debug)]
pub struct Parting {
    /// So many bits of a hash are looked at.
    pub depth: u8,
    /// The number that they make in the first bucket.
    pub start: u64,
    /// There are `2^p` buckets.
    pub p: u8,
}

impl Parting {
    /// The bucket of a hash.
    pub fn bucket_at(self, hash: u64) -> usize
        requires p { self.p ≤ 24 }
        requires depth { self.depth ≤ 48 }
        ensures value { result ≡ bucket_in self hash }
        ensures below { result < 2 ^ self.p }
    {
        let last = (1 << self.p) - 1;
        bucket(hash, self.depth)
            .saturating_sub(self.start)
            .min(last) as usize
    }

    /// The first bucket that can have a record within a bound, on the way up.
    pub fn first_bucket(self, bound: &Bound) -> usize
        requires p { self.p ≤ 24 }
        requires depth { self.depth ≤ 48 }
        ensures value { result ≡ start_in self bound.now }
        ensures below { result ≤ 2 ^ self.p }
    {
        match bound {
            Bound::Edge => 0,
            Bound::Over(key) | Bound::From(key) => self.bucket_at(mix(key.as_slice())),
        }
    }

    /// The bucket behind the last that can have a record within a bound, on the way down.
    pub fn end_bucket(self, bound: &Bound) -> usize
        requires p { self.p ≤ 24 }
        requires depth { self.depth ≤ 48 }
        ensures value { result ≡ end_in self bound.now }
        ensures below { result ≤ 2 ^ self.p }
    {
        match bound {
            Bound::Edge => 1 << self.p,
            Bound::Over(key) | Bound::From(key) => self.bucket_at(mix(key.as_slice())) + 1,
        }
    }
}
