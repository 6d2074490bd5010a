ghost use Rattle.std.specs.Prelude.{◌≡◌};
ghost use Rattle.oci_program.specs.Kind.{kind_by, kind_of_error, kind_of_last, kind_of_number};
ghost use Rattle.oci_program.specs.Status.{last_number};

use crate::fault::ProgramFault;
use serde::Serialize;
use std::io::ErrorKind;

/// The class of a refusal, for a script that does not know the numbers.
#[derive(Clone, Copy, Serialize)]
#[serde(rename_all = "camelCase")]
pub(crate) enum Kind {
    /// The command line names something that is not there.
    NotFound,
    /// A layout or an archive lacks something that it needs, or has other content than it should.
    Damaged,
    /// Another process works in the folder.
    Locked,
    /// There is no space left.
    Full,
    /// The system does not permit a read or a write.
    Denied,
    /// A read or a write failed for another cause.
    Device,
    /// Memory ran out.
    Memory,
    /// Any other cause.
    Refused,
}

impl Kind {
    /// Returns the kind of the refusals whose last number this is.
    #[tactic(auto, unfolding(crate::specs::Kind::kind_of_number, crate::specs::Kind::not_found, crate::specs::Kind::damaged, crate::specs::Kind::locked, crate::specs::Kind::device, crate::specs::Kind::memory))]
    fn of_number(number: u8) -> Kind
        ensures { result ≡ kind_of_number number }
    {
        match number {
            20 | 36 | 37 | 45 | 70 | 97 | 107 | 108 => Kind::NotFound,
            10..=14 | 21 | 31 | 32 | 40 | 42 | 53 | 55 | 71 | 73 | 75 | 77 => Kind::Damaged,
            80 | 83 | 96 | 102 | 103 | 109 => Kind::Damaged,
            99 | 110 => Kind::Locked,
            22 | 43 | 74 | 79 | 90 | 93 | 94 | 105 => Kind::Device,
            15 | 23 | 34 | 38 | 41 | 47 | 48 | 52 | 58 | 63 | 76 | 86 | 89 | 91 | 106 => {
                Kind::Memory
            }
            _ => Kind::Refused,
        }
    }

    /// Returns the kind of the refusals for a call of the system that failed so.
    fn of_error(error: ErrorKind) -> Kind
        ensures { result ≡ kind_of_error error }
    {
        match error {
            ErrorKind::NotFound => Kind::NotFound,
            ErrorKind::StorageFull => Kind::Full,
            ErrorKind::QuotaExceeded => Kind::Full,
            ErrorKind::PermissionDenied => Kind::Denied,
            ErrorKind::ReadOnlyFilesystem => Kind::Denied,
            _ => Kind::Device,
        }
    }
}

impl ProgramFault {
    /// Returns the kind of the fault's refusal, where a call of the system may have failed with this error.
    pub(crate) fn kind(&self, error: Option<ErrorKind>) -> Kind
        ensures { result ≡ kind_by (kind_of_last (last_number self.now)) error }
    {
        let kind = match self.last_number() {
            Some(number) => Kind::of_number(number),
            None => Kind::Memory,
        };
        match (kind, error) {
            (Kind::Device, Some(error)) => Kind::of_error(error),
            _ => kind,
        }
    }
}
