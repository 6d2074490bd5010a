ghost use Rattle.std.specs.Prelude.{◌≡◌};
ghost use Rattle.oci_dir.specs.Numbers.{dir_number};

use oci_digest::NoMemory;
use oci_store::PushFault;
use std::alloc::AllocError;
use thiserror::Error;

/// Why a file of a directory could not be read or written.
#[derive(Clone, Copy, Debug, PartialEq, Eq, Error)]
pub enum DirFault {
    /// The file could not be read or written.
    #[error("90 Failed")]
    Failed,
    /// Out of memory.
    #[error("91 Memory")]
    Memory,
}

impl From<NoMemory> for DirFault {
    ghost use Rattle.std.specs.Prelude.{◌≡◌};
    ghost use Rattle.oci_dir.specs.declared.fault.DirFault.TheVariants.{Memory};

    ghost from_gives = { λ _ e. e ≡ Memory };

    fn from(_refused: NoMemory) -> DirFault {
        DirFault::Memory
    }
}

impl From<AllocError> for DirFault {
    ghost use Rattle.std.specs.Prelude.{◌≡◌};
    ghost use Rattle.oci_dir.specs.declared.fault.DirFault.TheVariants.{Memory};

    ghost from_gives = { λ _ e. e ≡ Memory };

    fn from(_refused: AllocError) -> DirFault {
        DirFault::Memory
    }
}

impl From<DirFault> for PushFault {
    ghost use Rattle.std.specs.Prelude.{◌≡◌};
    ghost use Rattle.oci_dir.specs.Faults.{push_fault};

    ghost from_gives = { λ d e. e ≡ push_fault d };

    fn from(fault: DirFault) -> PushFault {
        match fault {
            DirFault::Failed => PushFault::Device,
            DirFault::Memory => PushFault::Memory,
        }
    }
}

impl DirFault {
    /// Returns the number of the fault.
    pub fn number(&self) -> u8
        ensures { result ≡ dir_number self.now }
    {
        match self {
            DirFault::Failed => 90,
            DirFault::Memory => 91,
        }
    }
}
