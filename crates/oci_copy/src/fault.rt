ghost use Rattle.std.specs.Prelude.{◌≡◌};
ghost use Rattle.oci_copy.specs.Fault.{number_of};

use oci_manifest::Key;
use oci_plan::PlanFault;
use oci_store::{FetchFault, PushFault, RefFault};
use thiserror::Error;

/// Why a copy failed.
///
/// Every memory error of a copy is `Memory`, and no other variant contains one.
#[derive(Debug, Drop, Error)]
pub enum CopyFault {
    /// The destination is not closed: the first key lists the second, which is not held. Nothing
    /// was changed.
    #[error("80 DestinationOpen {0} {1}")]
    DestinationOpen(Key, Key),
    /// The plan was refused. Nothing was changed.
    #[error("81 Plan {0}")]
    Plan(PlanFault),
    /// The destination refused the key's content, or the content does not read. The keys pushed
    /// before stay.
    #[error("82 Push {0} {1}")]
    Push(Key, PushFault),
    /// At the key's turn, its content lists a key that the destination lacks. Only
    /// [`copy_one`](crate::copy_one) returns it. The keys pushed before stay.
    #[error("83 Stuck {0}")]
    Stuck(Key),
    /// Never returned: a copy by workers waits for each planned key.
    #[error("84 Incomplete {0}")]
    Incomplete(Key),
    /// More than 64 workers were asked for. Nothing was changed.
    #[error("85 BadWorkers")]
    BadWorkers,
    /// Out of memory. The keys pushed before stay.
    #[error("86 Memory")]
    Memory,
    /// The source's reference is empty or does not resolve. Nothing was changed. (A tag of a held
    /// key fails only for lack of memory; the copy is then complete.)
    #[error("87 Reference {0}")]
    Reference(RefFault),
    /// The source refused the key's content. The keys pushed before stay.
    #[error("88 Fetch {0} {1}")]
    Fetch(Key, FetchFault),
}

impl CopyFault {
    /// Returns the number at the start of the fault's line.
    pub fn number(&self) -> u8
        ensures { result ≡ number_of self.now }
    {
        match self {
            CopyFault::DestinationOpen(_, _) => 80,
            CopyFault::Plan(_) => 81,
            CopyFault::Push(_, _) => 82,
            CopyFault::Stuck(_) => 83,
            CopyFault::Incomplete(_) => 84,
            CopyFault::BadWorkers => 85,
            CopyFault::Memory => 86,
            CopyFault::Reference(_) => 87,
            CopyFault::Fetch(_, _) => 88,
        }
    }
}

/// Converts a refused reference. A memory error becomes `Memory`.
impl From<RefFault> for CopyFault {
    ghost use Rattle.oci_copy.specs.Fault.{of_reference};

    ghost from_gives = { λ refused fault. fault ≡ of_reference refused };

    fn from(fault: RefFault) -> CopyFault {
        match fault {
            RefFault::Memory => CopyFault::Memory,
            _ => CopyFault::Reference(fault),
        }
    }
}
