ghost use Rattle.std.specs.Prelude.{◌≡◌};
ghost use Rattle.oci_plan.specs.Fault.{number_of, plan_number_of};

use oci_digest::NoMemory;
use oci_manifest::{Key, ManifestFault};
use oci_store::FetchFault;
use std::alloc::{AllocError, AllocFailed};
use std::fmt;
use std::fmt::Display;
use thiserror::Error;

/// Items that are printed with a space before each.
#[derive(Drop)]
struct SpaceSeparated<'a, T: Display>(&'a [T]);

impl<T: Display> Display for SpaceSeparated<'_, T> {
    fn fmt<W: fmt::Write>(&self, f: &mut fmt::Formatter<W>) -> fmt::Result {
        for item in self.0 {
            write!(f, " {item}")?;
        }
        Ok(())
    }
}

/// The reason why the numbers of a graph have no order.
#[derive(Debug, Drop, Error)]
pub enum OrderFault {
    /// A cycle of the graph: distinct numbers, each a successor of the one before, and the first a
    /// successor of the last. Which of several cycles is reported is unspecified.
    #[error("50 Cycle{}", SpaceSeparated(.0))]
    Cycle(Vec<u32>),
    /// A list, and an element of it that is no number of the graph. It is the first such element of
    /// the first such list.
    #[error("51 BadNumber {0} {1}")]
    BadNumber(u32, u32),
    /// Memory was refused.
    #[error("52 Memory")]
    Memory,
}

impl OrderFault {
    /// Returns the number that the fault's line begins with.
    pub fn number(&self) -> u8
        ensures { result ≡ number_of self.now }
    {
        match self {
            OrderFault::Cycle(_) => 50,
            OrderFault::BadNumber(_, _) => 51,
            OrderFault::Memory => 52,
        }
    }
}

impl From<AllocError> for OrderFault {
    ghost use Rattle.oci_plan.specs.declared.fault.OrderFault.TheVariants.{Memory};

    ghost from_gives = { λ _ e. e ≡ Memory };

    fn from(_refused: AllocError) -> OrderFault {
        OrderFault::Memory
    }
}

impl<T: Drop> From<AllocFailed<T>> for OrderFault {
    ghost use Rattle.oci_plan.specs.declared.fault.OrderFault.TheVariants.{Memory};

    ghost from_gives = { λ _ e. e ≡ Memory };

    fn from(_refused: AllocFailed<T>) -> OrderFault {
        OrderFault::Memory
    }
}

/// The reason why a copy has no plan.
#[derive(Debug, Drop, Error)]
pub enum PlanFault {
    /// The source does not have the key.
    #[error("53 NotFound {0}")]
    NotFound(Key),
    /// The key is a manifest's, and its size is over the limit.
    #[error("54 TooLarge {0} {1}")]
    TooLarge(Key, u64),
    /// A cycle of the source: distinct keys, each listed by the one before, and the first by the
    /// last. Which of several cycles is reported is unspecified.
    #[error("55 Cycle{}", SpaceSeparated(.0))]
    Cycle(Vec<Key>),
    /// The content of the key is not a manifest of its media type.
    #[error("56 Manifest {0} {1}")]
    Manifest(Key, ManifestFault),
    /// The content of the key could not be fetched: the device has other bytes, or could not be
    /// read.
    #[error("57 Fetch {0} {1}")]
    Fetch(Key, FetchFault),
    /// Memory was refused.
    #[error("58 Memory")]
    Memory,
    /// There are more than 4294967295 keys to copy.
    #[error("59 TooMany")]
    TooMany,
}

impl PlanFault {
    /// Returns the number that the fault's line begins with.
    pub fn number(&self) -> u8
        ensures { result ≡ plan_number_of self.now }
    {
        match self {
            PlanFault::NotFound(_) => 53,
            PlanFault::TooLarge(_, _) => 54,
            PlanFault::Cycle(_) => 55,
            PlanFault::Manifest(_, _) => 56,
            PlanFault::Fetch(_, _) => 57,
            PlanFault::Memory => 58,
            PlanFault::TooMany => 59,
        }
    }
}

impl From<NoMemory> for PlanFault {
    ghost use Rattle.oci_plan.specs.declared.fault.PlanFault.TheVariants.{Memory};

    ghost from_gives = { λ _ e. e ≡ Memory };

    fn from(_refused: NoMemory) -> PlanFault {
        PlanFault::Memory
    }
}

impl<T: Drop> From<AllocFailed<T>> for PlanFault {
    ghost use Rattle.oci_plan.specs.declared.fault.PlanFault.TheVariants.{Memory};

    ghost from_gives = { λ _ e. e ≡ Memory };

    fn from(_refused: AllocFailed<T>) -> PlanFault {
        PlanFault::Memory
    }
}
