ghost use Rattle.std.specs.Prelude.{◌≡◌};
ghost use Rattle.oci_verify.specs.Fault.{number_of};

use oci_digest::NoMemory;
use thiserror::Error;

/// Why the files of a layout were not checked.
#[derive(Clone, Copy, Debug, PartialEq, Eq, Error)]
pub enum VerifyFault {
    /// A file could not be read.
    #[error("22 Device")]
    Device,
    /// No file failed to be read and memory was not refused, but the file of the held key at this
    /// place was not checked.
    #[error("61 Incomplete {0}")]
    Incomplete(u32),
    /// More than 64 workers were asked for, and no file was read.
    #[error("62 BadWorkers")]
    BadWorkers,
    /// Memory was refused.
    #[error("63 Memory")]
    Memory,
}

impl VerifyFault {
    /// Returns the number that the fault's line begins with.
    pub fn number(&self) -> u8
        ensures { result ≡ number_of self.now }
    {
        match self {
            VerifyFault::Device => 22,
            VerifyFault::Incomplete(_) => 61,
            VerifyFault::BadWorkers => 62,
            VerifyFault::Memory => 63,
        }
    }
}

impl From<NoMemory> for VerifyFault {
    ghost use Rattle.oci_verify.specs.declared.fault.VerifyFault.TheVariants.{Memory};

    ghost from_gives = { λ _ e. e ≡ Memory };

    fn from(_refused: NoMemory) -> VerifyFault {
        VerifyFault::Memory
    }
}
