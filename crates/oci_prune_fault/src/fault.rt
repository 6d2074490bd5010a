ghost use Rattle.std.specs.Prelude.{◌≡◌};
ghost use Rattle.oci_prune_fault.specs.Faults.{of_fetch, of_manifest};
ghost use Rattle.oci_prune_fault.specs.Numbers.{prune_number};

use oci_digest::NoMemory;
use oci_layout_store::LayoutFault;
use oci_manifest::{Key, ManifestFault};
use oci_store::FetchFault;
use thiserror::Error;

/// Why a prune failed.
///
/// Every memory error is `Memory`, and no other variant contains one.
#[derive(Debug, Drop, Error)]
pub enum PruneFault {
    /// The file at this path could not be removed.
    #[error("79 NotRemoved {0}")]
    NotRemoved(String),
    /// The bytes of this held manifest could not be fetched, for this reason.
    #[error("88 Fetch {0} {1}")]
    Fetch(Key, FetchFault),
    /// The layout could not be read or saved, an entry of its index is no descriptor (73), or a held
    /// manifest cannot be read as one (77).
    #[error("{0}")]
    Layout(LayoutFault),
    /// Out of memory.
    #[error("89 Memory")]
    Memory,
    /// This key is not held, so it is not known what it lists: the first entry of the opened index
    /// that was not held, or else the first damaged manifest that is not held, or else a key of a
    /// manifest kind that is to be kept or that a kept key lists.
    #[error("96 Unknown {0}")]
    Unknown(Key),
    /// The layout has no tag.
    #[error("97 NoTags")]
    NoTags,
    /// This folder of blobs is a link.
    #[error("98 LinkedBlobs {0}")]
    LinkedBlobs(&'static str),
}

impl From<NoMemory> for PruneFault {
    ghost use Rattle.std.specs.Prelude.{◌≡◌};
    ghost use Rattle.oci_prune_fault.specs.declared.fault.PruneFault.TheVariants.{Memory};

    ghost from_gives = { λ _ e. e ≡ Memory };

    fn from(_refused: NoMemory) -> PruneFault {
        PruneFault::Memory
    }
}

/// A memory error becomes `Memory`.
impl From<LayoutFault> for PruneFault {
    ghost use Rattle.std.specs.Prelude.{◌≡◌};
    ghost use Rattle.oci_prune_fault.specs.Faults.{of_layout};

    ghost from_gives = { λ refused fault. fault ≡ of_layout refused };

    fn from(fault: LayoutFault) -> PruneFault {
        match fault {
            LayoutFault::Memory => PruneFault::Memory,
            _ => PruneFault::Layout(fault),
        }
    }
}

impl PruneFault {
    /// Returns the number of the fault.
    pub fn number(&self) -> u8
        ensures { result ≡ prune_number self.now }
    {
        match self {
            PruneFault::NotRemoved(_) => 79,
            PruneFault::Fetch(_, _) => 88,
            PruneFault::Layout(fault) => fault.number(),
            PruneFault::Memory => 89,
            PruneFault::Unknown(_) => 96,
            PruneFault::NoTags => 97,
            PruneFault::LinkedBlobs(_) => 98,
        }
    }
}

/// Returns the fault of a prune for a refused fetch of a key. A memory error becomes `Memory`.
pub fn of_fetch(key: Key, fault: FetchFault) -> PruneFault
    ensures { result ≡ of_fetch key fault }
{
    match fault {
        FetchFault::Memory => PruneFault::Memory,
        _ => PruneFault::Fetch(key, fault),
    }
}

/// Returns the fault of a prune for a manifest that cannot be read. A memory error becomes
/// `Memory`.
pub fn of_manifest(key: Key, fault: ManifestFault) -> PruneFault
    ensures { result ≡ of_manifest key fault }
{
    match fault {
        ManifestFault::Memory => PruneFault::Memory,
        _ => PruneFault::Layout(LayoutFault::BadManifest(key, fault)),
    }
}
