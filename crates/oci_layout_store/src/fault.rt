ghost use Rattle.std.specs.Prelude.{◌≡◌};
ghost use Rattle.oci_layout_store.specs.Numbers.{layout_number};

use oci_digest::NoMemory;
use oci_dir::DirFault;
use oci_manifest::{Key, ManifestFault};
use thiserror::Error;

/// Why a layout was not opened, created or saved.
#[derive(Debug, Drop, Error)]
pub enum LayoutFault {
    /// There is no file `oci-layout`.
    #[error("70 NoLayoutFile")]
    NoLayoutFile,
    /// The file `oci-layout` is not a JSON object with a text `imageLayoutVersion`.
    #[error("71 BadLayoutFile")]
    BadLayoutFile,
    /// The version in `oci-layout` is not `1.0.0`.
    #[error("72 BadVersion")]
    BadVersion,
    /// The file `index.json` is not an index, for this reason.
    #[error("73 BadIndex {0}")]
    BadIndex(ManifestFault),
    /// The directory could not be read or written.
    #[error("74 Device")]
    Device,
    /// The size or digest of this manifest's file is not that of its key.
    #[error("75 Corrupt {0}")]
    Corrupt(Key),
    /// Out of memory.
    #[error("76 Memory")]
    Memory,
    /// The file of this manifest cannot be read as one, for this reason.
    #[error("77 BadManifest {0} {1}")]
    BadManifest(Key, ManifestFault),
    /// The directory already has a file `oci-layout`.
    #[error("78 AlreadyLayout")]
    AlreadyLayout,
}

impl From<NoMemory> for LayoutFault {
    ghost use Rattle.std.specs.Prelude.{◌≡◌};
    ghost use Rattle.oci_layout_store.specs.declared.fault.LayoutFault.TheVariants.{Memory};

    ghost from_gives = { λ _ e. e ≡ Memory };

    fn from(_refused: NoMemory) -> LayoutFault {
        LayoutFault::Memory
    }
}

impl From<DirFault> for LayoutFault {
    ghost use Rattle.std.specs.Prelude.{◌≡◌};
    ghost use Rattle.oci_layout_store.specs.Faults.{of_device};

    ghost from_gives = { λ d e. e ≡ of_device d };

    fn from(fault: DirFault) -> LayoutFault {
        match fault {
            DirFault::Failed => LayoutFault::Device,
            DirFault::Memory => LayoutFault::Memory,
        }
    }
}

impl LayoutFault {
    /// Returns the number of the fault.
    pub fn number(&self) -> u8
        ensures { result ≡ layout_number self.now }
    {
        match self {
            LayoutFault::NoLayoutFile => 70,
            LayoutFault::BadLayoutFile => 71,
            LayoutFault::BadVersion => 72,
            LayoutFault::BadIndex(_) => 73,
            LayoutFault::Device => 74,
            LayoutFault::Corrupt(_) => 75,
            LayoutFault::Memory => 76,
            LayoutFault::BadManifest(_, _) => 77,
            LayoutFault::AlreadyLayout => 78,
        }
    }
}
