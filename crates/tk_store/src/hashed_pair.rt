//! A record that keeps the hash of its key.
ghost use Rattle.std.specs.Prelude.{◌≡◌};
ghost use Rattle.tk_model.specs.Hashes.{mix_of};
ghost use Rattle.tk_model.specs.Orders.{same_bytes, key_cmp};
ghost use Rattle.tk_model.specs.declared.record.Order.TheVariants.{Hash};

use std::alloc::AllocError;
use std::cmp::Ordering;
use std::marker::Model;
use tk_model::{Order, Pair, compare_keys, is_same};

/// A record with the hash of its key.
#[derive(Debug, Drop)]
pub struct HashedPair {
    hash: u64,
    pair: Pair,
}

impl Model for HashedPair {
    ghost use Rattle.std.specs.Prelude.{◌≡◌};
    ghost use Rattle.tk_model.specs.Hashes.{mix_of};
    ghost use Rattle.tk_model.specs.declared.record.Pair.{Pair};

    ghost Value = { Pair };

    ghost view = { λ h. h.pair };

    ghost invariant = { λ h. h.hash ≡ mix_of h.pair.key };
}

impl Clone for HashedPair {
    ghost is_clone = { λ old new. new ≡ old };

    fn clone(&self) -> Result<HashedPair, AllocError> {
        let pair = self.pair.clone()?;
        Ok(HashedPair {
            hash: self.hash,
            pair,
        })
    }
}

impl HashedPair {
    pub fn new(hash: u64, pair: Pair) -> HashedPair
        requires { hash ≡ mix_of pair.key }
        ensures { result ≡ pair }
    {
        HashedPair { hash, pair }
    }

    pub fn into_pair(self) -> Pair
        ensures { result ≡ self }
    {
        let HashedPair { hash: _, pair } = self;
        pair
    }

    pub fn pair(&self) -> &Pair
        ensures { result.now ≡ self.now }
    {
        &self.pair
    }

    /// The bytes are compared only where the hashes are the same.
    #[tactic(auto, using(crate::proofs::Hashing::apart))]
    pub fn has_key(&self, hash: u64, key: &[u8]) -> bool
        requires { hash ≡ mix_of key.now }
        ensures { result ≡ same_bytes key.now self.now.key }
    {
        if self.hash != hash {
            return false;
        }
        is_same(key, self.pair.key.as_slice())
    }

    /// How a key compares to this one: by the hashes, and where they are the same by the bytes.
    #[tactic(auto, using(crate::proofs::Hashing::by_less, crate::proofs::Hashing::by_greater))]
    pub fn compare(&self, hash: u64, key: &[u8]) -> Ordering
        requires { hash ≡ mix_of key.now }
        ensures { result ≡ key_cmp Hash key.now self.now.key }
    {
        match hash.cmp(&self.hash) {
            Ordering::Less => Ordering::Less,
            Ordering::Greater => Ordering::Greater,
            Ordering::Equal => compare_keys(&Order::Hash, key, self.pair.key.as_slice()),
        }
    }
}
