//! The digest type: made from content or from text, verified, printed and compared.
ghost use Rattle.std.specs.Prelude.{◌≡◌, ◌↔◌, ◌++◌, ℕ, List, true, codes, Some, IsTrue, IsOk, IfOk, IsErrOf, is_ok, string_bytes};
ghost use Rattle.oci_digest.specs.Algorithm.{sha256, sha512};
ghost use Rattle.oci_digest.specs.Digest.{digest_of, digest_by, text_by, algorithm_of, encoded_of, IsDigest, is_digest, Verifies, verifies};
ghost use Rattle.oci_digest.specs.Hash.{IsHash, text_of};
ghost use Rattle.oci_digest.specs.Refusals.{IsBadForm, HasUnknownAlgorithm, HasBadEncoding};

use crate::fault::{DigestFault, NoMemory};
use crate::hash::Hash;
use crate::parse::parsed;
use sha2::{Digest as _, Sha256, Sha512};
use std::alloc::Global;
use std::cmp::Ordering;
use std::marker::Model;
use std::{fmt, str};

/// The digest of a content. Contracts see it as its text.
#[derive(Clone, Copy)]
pub struct Digest {
    hash: Hash,
}

impl Model for Digest {
    ghost use Rattle.std.specs.Prelude.{List, ℕ};
    ghost use Rattle.std.proofs.Common.{ap};
    ghost use Rattle.oci_digest.specs.Hash.{text_of, hash_of_text, IsHash};
    ghost use Rattle.oci_digest.specs.HashLaws.{hash_of_text-text_of};

    ghost Value = { List ℕ };

    ghost view = { λ d. text_of d.hash };

    ghost invariant = { λ d. IsHash d.hash };

    ghost inverse = { λ text. record { hash = hash_of_text text } };

    ghost inverse_ok = { λ d h. ap (λ kept. record { hash = kept })
        (hash_of_text-text_of d.hash h) };
}

impl Digest {
    /// Returns the SHA-256 digest of `content` (FIPS 180-4).
    pub fn of(content: &[u8]) -> Digest
        ensures { result ≡ digest_of content.now }
    {
        Digest::from_sha256(Sha256::digest(content))
    }

    /// Returns the SHA-512 digest of `content` (FIPS 180-4).
    pub fn of_sha512(content: &[u8]) -> Digest
        ensures { result ≡ digest_by sha512 content.now }
    {
        Digest::from_sha512(Sha512::digest(content))
    }

    /// Returns the SHA-256 digest with this hash.
    pub(crate) fn from_sha256(bytes: [u8; 32]) -> Digest
        ensures { result ≡ text_by sha256 bytes }
    {
        Digest {
            hash: Hash::Sha256(bytes),
        }
    }

    /// Returns the SHA-512 digest with this hash.
    pub(crate) fn from_sha512(bytes: [u8; 64]) -> Digest
        ensures { result ≡ text_by sha512 bytes }
    {
        Digest {
            hash: Hash::Sha512(bytes),
        }
    }

    /// Reads a digest from its text (descriptor.md, "Digests"). Any text is allowed, also one that
    /// is not ASCII. Does not allocate.
    ///
    /// # Errors
    ///
    /// At most one of these applies to a text:
    ///
    /// - 1 `BadForm`: the text is not `algorithm:encoded` of the grammar.
    /// - 2 `UnknownAlgorithm`: the algorithm is neither `sha256` nor `sha512`.
    /// - 3 `BadEncoding`: the encoded part is not 64 (`sha256`) or 128 (`sha512`) lower-case
    ///   hexadecimal digits.
    pub fn parse(text: &str) -> Result<Digest, DigestFault>
        ensures digest { IfOk result (λ digest. digest ≡ text.now) }
        ensures ok { IsOk result ↔ IsDigest text.now }
        ensures bad_form { IsErrOf result DigestFault.BadForm ↔ IsBadForm text.now }
        ensures unknown_algorithm { IsErrOf result DigestFault.UnknownAlgorithm
            ↔ HasUnknownAlgorithm text.now }
        ensures bad_encoding { IsErrOf result DigestFault.BadEncoding ↔ HasBadEncoding text.now }

        // Equivalent to `ok`, for callers whose own definitions are Boolean tests.
        ensures accepts { is_ok result ≡ is_digest text.now }
    {
        parsed(text)
    }

    /// Returns whether this is the digest of `content` by the digest's own algorithm
    /// (descriptor.md, "Verification").
    pub fn matches(&self, content: &[u8]) -> bool
        ensures verifies { IsTrue result ↔ Verifies self.now content.now }

        // Equivalent to `verifies`, for callers whose own definitions are Boolean tests.
        ensures tests { result ≡ verifies self.now content.now }
    {
        match &self.hash {
            Hash::Sha256(bytes) => *bytes == Sha256::digest(content),
            Hash::Sha512(bytes) => *bytes == Sha512::digest(content),
        }
    }

    /// Returns the stored hash.
    pub(crate) fn hash(&self) -> &Hash
        ensures is_hash { IsHash result.now }
        ensures text { self.now ≡ text_of result.now }
    {
        &self.hash
    }

    /// Returns the part of the text before the colon, `sha256` or `sha512` (descriptor.md,
    /// "Digests").
    pub fn algorithm(&self) -> &'static str
        ensures part { result.now ≡ algorithm_of self.now }
        ensures joined { self.now ≡ result.now ++ codes ":" ++ encoded_of self.now }
        ensures digest { IsDigest self.now }
    {
        match &self.hash {
            Hash::Sha256(_) => "sha256",
            Hash::Sha512(_) => "sha512",
        }
    }

    /// Returns the part of the text after the colon.
    ///
    /// # Errors
    ///
    /// Returns [`NoMemory`] if an allocation fails.
    pub fn encoded(&self, alloc: Global) -> Result<String, NoMemory>
        ensures { IfOk result (λ text. string_bytes text ≡ encoded_of self.now) }
    {
        Ok(hex::encode(alloc, self.hash.as_bytes())?)
    }

    /// Returns the digest's text. [`Digest::parse`] reads it back as this digest.
    ///
    /// # Errors
    ///
    /// Returns [`NoMemory`] if an allocation fails.
    pub fn text(&self, alloc: Global) -> Result<String, NoMemory>
        ensures text { IfOk result (λ text. string_bytes text ≡ self.now) }
        ensures parses { IsDigest self.now }
    {
        // Reading the field brings the hash's invariant into the proof, which `parses` needs.
        let _ = &self.hash;
        Ok(format!(in alloc; "{self}")?)
    }
}

/// Prints the digest's text. Does not allocate.
impl fmt::Display for Digest {
    ghost output = { λ d. Some d };

    fn fmt<W: fmt::Write>(&self, f: &mut fmt::Formatter<W>) -> fmt::Result {
        let bytes = self.hash.as_bytes();
        let mut room = [0u8; 128];
        let digits = &mut room[..2 * bytes.len()];
        let Ok(()) = hex::encode_to_slice(bytes, digits) else {
            unreachable!();
        };
        let Ok(digits) = str::from_utf8(digits) else {
            unreachable!();
        };
        write!(f, "{}:{digits}", self.algorithm())
    }
}

impl fmt::Debug for Digest {
    ghost debug_output = { λ d. Some (codes "Digest(" ++ d ++ codes ")") };

    fn fmt<W: fmt::Write>(&self, f: &mut fmt::Formatter<W>) -> fmt::Result {
        write!(f, "Digest({self})")
    }
}

impl PartialEq for Digest {
    ghost use Rattle.std.specs.Str.{bytes_eq};
    ghost use Rattle.std.proofs.Common.{rules};

    ghost eq = { bytes_eq };

    ghost laws = { Prim.search rules };

    fn eq(&self, other: &Digest) -> bool {
        self.hash == other.hash
    }
}

impl Eq for Digest {
    ghost use Rattle.std.proofs.Common.{rules};

    ghost laws = { Prim.search rules };
}

/// Orders digests by their texts, byte by byte.
impl Ord for Digest {
    ghost use Rattle.std.proofs.Common.{rules};
    ghost use Rattle.std.specs.Cmp.Lexicographic.{slice_cmp};
    ghost use Rattle.std.specs.Cmp.Rules.{comparing};
    ghost use Rattle.std.specs.Ordering.{nat_cmp};

    ghost cmp = { slice_cmp nat_cmp };

    ghost total = { Prim.search (comparing, rules) };

    ghost matches_partial_cmp = { Prim.search (comparing, rules) };

    ghost matches_eq = { Prim.search (comparing, rules) };

    fn cmp(&self, other: &Digest) -> Ordering {
        self.hash.cmp(&other.hash)
    }
}

impl PartialOrd for Digest {
    ghost use Rattle.std.proofs.Common.{rules};
    ghost use Rattle.std.specs.Cmp.{partial_order_from_own_ties};
    ghost use Rattle.std.specs.Cmp.Lexicographic.{slice_cmp};
    ghost use Rattle.std.specs.Cmp.Rules.{comparing};
    ghost use Rattle.std.specs.Ordering.{nat_cmp, as_partial_cmp};

    ghost partial_cmp = { as_partial_cmp (slice_cmp nat_cmp) };

    ghost laws = { partial_order_from_own_ties (Prim.search (comparing, rules))
        (Prim.search (comparing, rules)) };

    fn partial_cmp(&self, other: &Digest) -> Option<Ordering> {
        Some(self.cmp(other))
    }
}

/// States that the Boolean tests used by contracts decide the readable definitions. `verifies` is
/// true exactly for a digest and bytes that it verifies. `is_digest` is true exactly for the text
/// of a digest. The function does nothing at run time.
pub fn tests_decide_definitions()
    ensures verifies { (digest bytes : List ℕ)
        → (verifies digest bytes ≡ true) ↔ Verifies digest bytes }
    ensures is_digest { (text : List ℕ) → (is_digest text ≡ true) ↔ IsDigest text }
{}
