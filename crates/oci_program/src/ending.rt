ghost use Rattle.std.specs.Prelude.{◌≡◌, ◌≤◌};
ghost use Rattle.oci_program.specs.Status.{status_of};

use crate::fault::ProgramFault;
use std::alloc::AllocError;
use std::fmt;
use std::io::Write;

/// Why a run ended early. `Display` is the text on stderr.
#[derive(Drop)]
pub enum Ending {
    /// The command line is invalid. The text has the usage.
    Usage(String),
    /// A word is not UTF-8, so the command line is invalid.
    NotUtf8,
    /// The command was refused.
    Fault(ProgramFault),
}

impl Ending {
    /// Returns the exit status: 2 for `Usage` and `NotUtf8`, 3 for out of memory, and otherwise 1.
    pub fn status(&self) -> u8
        ensures status { result ≡ status_of self.now }
        ensures most { result ≤ 3 }
    {
        match self {
            Ending::Usage(_) => 2,
            Ending::NotUtf8 => 2,
            Ending::Fault(fault) => { if fault.is_memory() { 3 } else { 1 } }
        }
    }

    /// Writes the ending on `err` and returns its status, also if `err` cannot be written.
    pub fn tell<X: Write>(self, err: &mut X) -> u8
        ensures status { result ≡ status_of self }
        ensures most { result ≤ 3 }
    {
        let _ = write!(err, "{self}");
        self.status()
    }
}

impl fmt::Display for Ending {
    fn fmt<W: fmt::Write>(&self, f: &mut fmt::Formatter<W>) -> fmt::Result {
        match self {
            Ending::Usage(usage) => write!(f, "{usage}"),
            Ending::NotUtf8 => writeln!(f, "error: a word is not UTF-8"),
            Ending::Fault(fault) if fault.is_memory() => writeln!(f, "ocicp: memory"),
            Ending::Fault(fault) => writeln!(f, "ocicp: {fault}"),
        }
    }
}

impl From<ProgramFault> for Ending {
    fn from(fault: ProgramFault) -> Ending {
        Ending::Fault(fault)
    }
}

impl From<AllocError> for Ending {
    fn from(_refused: AllocError) -> Ending {
        Ending::Fault(ProgramFault::Memory)
    }
}
