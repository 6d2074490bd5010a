ghost use Rattle.std.specs.Prelude.{◌≡◌};
ghost use Rattle.oci_repair.specs.Fault.{number_of, of_layout, of_source};

use oci_digest::NoMemory;
use oci_dir::DirFault;
use oci_manifest::Key;
use thiserror::Error;

/// Why a layout was not repaired.
#[derive(Debug, Drop, Error)]
pub enum RepairFault {
    /// A file of a source could not be read.
    #[error("22 Device")]
    Source,
    /// Out of memory.
    #[error("63 Memory")]
    Memory,
    /// A file of the layout could not be read or put.
    #[error("74 Device")]
    Layout,
    /// The file of this key in its source does not match the key any more.
    #[error("88 Fetch {0} 21 Corrupt")]
    Changed(Key),
}

impl RepairFault {
    /// Returns the number at the start of the fault's line.
    pub fn number(&self) -> u8
        ensures { result ≡ number_of self.now }
    {
        match self {
            RepairFault::Source => 22,
            RepairFault::Memory => 63,
            RepairFault::Layout => 74,
            RepairFault::Changed(_) => 88,
        }
    }

    /// Returns the fault of a file of the layout that could not be read or put.
    pub(crate) fn of_layout(fault: DirFault) -> RepairFault
        ensures { result ≡ of_layout fault }
    {
        match fault {
            DirFault::Failed => RepairFault::Layout,
            DirFault::Memory => RepairFault::Memory,
        }
    }

    /// Returns the fault of a file of a source that could not be read.
    pub(crate) fn of_source(fault: DirFault) -> RepairFault
        ensures { result ≡ of_source fault }
    {
        match fault {
            DirFault::Failed => RepairFault::Source,
            DirFault::Memory => RepairFault::Memory,
        }
    }
}

impl From<NoMemory> for RepairFault {
    ghost use Rattle.oci_repair.specs.declared.fault.RepairFault.TheVariants.{Memory};

    ghost from_gives = { λ _ e. e ≡ Memory };

    fn from(_refused: NoMemory) -> RepairFault {
        RepairFault::Memory
    }
}
