ghost use Rattle.std.specs.Prelude.{◌≡◌};
ghost use Rattle.oci_live.specs.Numbers.{live_number, look_number};

use thiserror::Error;

/// Why a store cannot be opened for looks.
#[derive(Clone, Copy, Debug, PartialEq, Eq, Error)]
pub enum LiveFault {
    /// An allocation failed.
    #[error("48 Memory")]
    Memory,
}

/// Why a look cannot be created, or a call of a look failed.
#[derive(Clone, Copy, Debug, PartialEq, Eq, Error)]
pub enum LookFault {
    /// The key is not in the look's list.
    #[error("45 NotFound")]
    NotFound,
    /// No place is free for another look, or the store is gone. The contracts do not state when
    /// this is returned.
    #[error("46 Unavailable")]
    Unavailable,
    /// An allocation failed.
    #[error("47 Memory")]
    Memory,
}

impl LiveFault {
    /// Returns the error number.
    pub fn number(&self) -> u8
        ensures { result ≡ live_number self.now }
    {
        match self {
            LiveFault::Memory => 48,
        }
    }
}

impl LookFault {
    /// Returns the error number.
    pub fn number(&self) -> u8
        ensures { result ≡ look_number self.now }
    {
        match self {
            LookFault::NotFound => 45,
            LookFault::Unavailable => 46,
            LookFault::Memory => 47,
        }
    }
}
