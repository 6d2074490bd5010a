//! The hash inside a digest.
ghost use Rattle.std.specs.Prelude.{◌≡◌};

/// The hash of a content by one of the known algorithms (FIPS 180-4).
///
/// SHA-256 hashes are ordered before SHA-512 hashes, as the texts of their digests are.
#[derive(Clone, Copy, PartialEq, Eq, PartialOrd, Ord)]
pub(crate) enum Hash {
    Sha256([u8; 32]),
    Sha512([u8; 64]),
}

impl Hash {
    ghost use Rattle.oci_digest.specs.Hash.{bytes_in};

    /// Returns the bytes of the hash.
    pub(crate) fn as_bytes(&self) -> &[u8]
        ensures { result.now ≡ bytes_in self.now }
    {
        match self {
            Hash::Sha256(bytes) => bytes,
            Hash::Sha512(bytes) => bytes,
        }
    }
}
