use oci_digest::NoMemory;
use oci_dir::DirFault;
use oci_layout_store::LayoutFault;
use oci_manifest::Key;
use oci_store::FetchFault;
use thiserror::Error;

/// Why an archive was not written.
///
/// Every memory error is `Memory`, and no other variant contains one.
#[derive(Debug, Drop, Error)]
pub enum ExportFault {
    /// One of the layout's own two files could not be read, or is missing.
    #[error("{0}")]
    Layout(LayoutFault),
    /// The source refused the content of the key.
    #[error("88 Fetch {0} {1}")]
    Fetch(Key, FetchFault),
    /// The archive could not be written.
    #[error("94 Output")]
    Output,
    /// Something is at the path of the archive.
    #[error("95 Exists")]
    Exists,
    /// Out of memory.
    #[error("memory")]
    Memory,
}

impl From<NoMemory> for ExportFault {
    ghost use Rattle.std.specs.Prelude.{◌≡◌};
    ghost use Rattle.oci_export.specs.declared.fault.ExportFault.TheVariants.{Memory};

    ghost from_gives = { λ fault result. result ≡ Memory };

    fn from(_refused: NoMemory) -> ExportFault {
        ExportFault::Memory
    }
}

/// Converts the fault of a place that is written.
impl From<DirFault> for ExportFault {
    ghost use Rattle.oci_export.specs.Refusal.{of_sink};
    ghost use Rattle.std.specs.Prelude.{◌≡◌};

    ghost from_gives = { λ fault result. result ≡ of_sink fault };

    fn from(fault: DirFault) -> ExportFault {
        match fault {
            DirFault::Failed => ExportFault::Output,
            DirFault::Memory => ExportFault::Memory,
        }
    }
}
