ghost use Rattle.std.specs.Prelude.{◌≡◌};
ghost use Rattle.oci_manifest.specs.Fault.{key_number_of, number_of};

use oci_digest::NoMemory;
use std::alloc::AllocFailed;
use thiserror::Error;

/// Why a key cannot be created from its parts.
#[derive(Clone, Copy, Debug, PartialEq, Eq, Error)]
pub enum KeyFault {
    /// The size is over 2^63 - 1.
    #[error("4 BadSize")]
    BadSize,
}

impl KeyFault {
    /// Returns the error number.
    pub fn number(&self) -> u8
        ensures { result ≡ key_number_of self.now }
    {
        match self {
            KeyFault::BadSize => 4,
        }
    }
}

/// Why a content's successors cannot be determined.
///
/// The variant names the first broken rule, in the order listed at
/// [`successors`](crate::successors). It prints as its number, its name and its fields, as in
/// `14 BadDescriptor layers 0`.
#[derive(Clone, Copy, Debug, PartialEq, Eq, Error)]
pub enum ManifestFault {
    /// The bytes are not a JSON text (RFC 8259) that `serde_json` reads. It does not read texts
    /// that nest deeper than 127, or that have a number too large for a float, such as `1e400`.
    #[error("10 NotJson")]
    NotJson,
    /// The JSON value is not an object.
    #[error("11 NotObject")]
    NotObject,
    /// The `config` of an image is absent or null.
    #[error("12 NoConfig")]
    NoConfig,
    /// The member with this name is neither a list nor null.
    #[error("13 BadList {0}")]
    BadList(&'static str),
    /// The member with this name has no descriptor at this position. The position is 0 if the
    /// member is not a list.
    #[error("14 BadDescriptor {0} {1}")]
    BadDescriptor(&'static str, u64),
    /// An allocation failed.
    #[error("15 Memory")]
    Memory,
}

impl ManifestFault {
    /// Returns the error number.
    pub fn number(&self) -> u8
        ensures { result ≡ number_of self.now }
    {
        match self {
            ManifestFault::NotJson => 10,
            ManifestFault::NotObject => 11,
            ManifestFault::NoConfig => 12,
            ManifestFault::BadList(_) => 13,
            ManifestFault::BadDescriptor(_, _) => 14,
            ManifestFault::Memory => 15,
        }
    }
}

impl From<NoMemory> for ManifestFault {
    ghost use Rattle.oci_manifest.specs.declared.fault.ManifestFault.TheVariants.{Memory};

    ghost from_gives = { λ _ e. e ≡ Memory };

    fn from(_refused: NoMemory) -> ManifestFault {
        ManifestFault::Memory
    }
}

impl<T: Drop> From<AllocFailed<T>> for ManifestFault {
    ghost use Rattle.oci_manifest.specs.declared.fault.ManifestFault.TheVariants.{Memory};

    ghost from_gives = { λ _ e. e ≡ Memory };

    fn from(_refused: AllocFailed<T>) -> ManifestFault {
        ManifestFault::Memory
    }
}
