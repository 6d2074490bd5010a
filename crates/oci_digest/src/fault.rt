//! The errors of this crate.
ghost use Rattle.std.specs.Prelude.{◌≡◌};
ghost use Rattle.oci_digest.specs.Fault.{number_of};

use std::alloc::{AllocError, AllocFailed};
use thiserror::Error;

/// Why a text is not a digest. Exactly one variant applies to each rejected text.
#[derive(Clone, Copy, Debug, PartialEq, Eq, Error)]
pub enum DigestFault {
    /// The text is not `algorithm:encoded` of the grammar (descriptor.md, "Digests").
    #[error("1 BadForm")]
    BadForm,
    /// The text matches the grammar, but its algorithm is neither `sha256` nor `sha512`.
    #[error("2 UnknownAlgorithm")]
    UnknownAlgorithm,
    /// The text matches the grammar and its algorithm is known, but its encoded part is not 64
    /// (`sha256`) or 128 (`sha512`) characters of `[a-f0-9]`.
    #[error("3 BadEncoding")]
    BadEncoding,
}

impl DigestFault {
    /// Returns the error number, from 1 to 3. The printed text begins with it.
    pub fn number(&self) -> u8
        ensures { result ≡ number_of self.now }
    {
        match self {
            DigestFault::BadForm => 1,
            DigestFault::UnknownAlgorithm => 2,
            DigestFault::BadEncoding => 3,
        }
    }
}

/// An allocation failed: the error of calls that cannot fail for any other reason.
#[derive(Clone, Copy, Debug, PartialEq, Eq, Error)]
#[error("memory")]
pub struct NoMemory;

impl From<AllocError> for NoMemory {
    fn from(_refused: AllocError) -> NoMemory {
        NoMemory
    }
}

impl<T: Drop> From<AllocFailed<T>> for NoMemory {
    fn from(_refused: AllocFailed<T>) -> NoMemory {
        NoMemory
    }
}
