//! Verification of content that arrives in parts.
ghost use Rattle.std.specs.Prelude.{◌≡◌, ◌↔◌, ◌++◌, [], List, ℕ, IsTrue};
ghost use Rattle.oci_digest.specs.Digest.{Verifies};
ghost use Rattle.oci_digest.specs.Hash.{IsHash, text_of};
ghost use Rattle.oci_digest.specs.Hashing.{IsHashing, IsTaking};

use crate::digest::Digest;
use crate::hash::Hash;
use sha2::{Digest as _, Sha256, Sha512};

/// The expected hash, and the hasher of the bytes taken so far.
#[derive(Drop)]
enum Taking {
    Sha256([u8; 32], Sha256),
    Sha512([u8; 64], Sha512),
}

/// Verifies content against a digest, part by part.
#[derive(Drop)]
pub struct Hasher {
    taking: Taking,
}

impl Hasher {
    /// Creates a hasher for `digest` that has taken no bytes.
    #[tactic(auto, unfolding(crate::specs::Hashing::IsHashing))]
    pub fn new(digest: &Digest) -> Hasher
        ensures { IsHashing result digest.now [] }
    {
        Hasher {
            taking: Taking::of(digest.hash()),
        }
    }

    /// Takes the next part of the content.
    #[tactic(auto, unfolding(crate::specs::Hashing::IsHashing))]
    pub fn update(&mut self, part: &[u8])
        ensures { (digest m : List ℕ) → IsHashing self.old digest m
            → IsHashing self.new digest (m ++ part.now) }
    {
        self.taking.update(part);
    }

    #[tactic(auto, unfolding(crate::specs::Hashing::IsHashing))]
    /// Returns whether the digest is that of all bytes taken.
    pub fn matches(self) -> bool
        ensures { (digest m : List ℕ) → IsHashing self digest m → IsTrue result
            ↔ Verifies digest m }
    {
        self.taking.matches()
    }
}

impl Taking {
    /// Creates a state for `hash` that has taken no bytes.
    fn of(hash: &Hash) -> Taking
        requires { IsHash hash.now }
        ensures { IsTaking result (text_of hash.now) [] }
    {
        match hash {
            Hash::Sha256(bytes) => Taking::Sha256(*bytes, Sha256::new()),
            Hash::Sha512(bytes) => Taking::Sha512(*bytes, Sha512::new()),
        }
    }

    fn update(&mut self, part: &[u8])
        ensures { (digest m : List ℕ) → IsTaking self.old digest m
            → IsTaking self.new digest (m ++ part.now) }
    {
        match self {
            Taking::Sha256(_, hasher) => hasher.update(part),
            Taking::Sha512(_, hasher) => hasher.update(part),
        }
    }

    fn matches(self) -> bool
        ensures { (digest m : List ℕ) → IsTaking self digest m → IsTrue result ↔ Verifies digest m }
    {
        match self {
            Taking::Sha256(bytes, hasher) => bytes == hasher.finalize(),
            Taking::Sha512(bytes, hasher) => bytes == hasher.finalize(),
        }
    }
}
