ghost use Rattle.std.specs.Prelude.{◌≡◌, true};
ghost use Rattle.oci_store.specs.Keyed.{has_key};

use super::copy_start::CopyStart;
use super::locked::LockedDestination;
use oci_manifest::Key;
use oci_store::Dest;
use std::marker::Model;

/// Proof that the destination of a run held a key. To a contract it is that key.
///
/// It is made only from a locked destination that holds the key. A job reaches only the destination
/// of its run, under the lock. So a job that returns one has pushed its key or has found it held.
#[derive(Drop)]
pub(crate) struct Held<'k> {
    key: &'k Key,
}

impl<'k> Model for Held<'k> {
    ghost use Rattle.oci_manifest.specs.Descriptor.{Descriptor};

    ghost Value = { Descriptor };

    ghost view = { λ h. h.key.now };
}

impl<'k> Held<'k> {
    /// Creates the proof from a destination that holds the key.
    pub(crate) fn by<D: Dest, T: CopyStart>(_locked: &LockedDestination<D, T>, key: &'k Key) -> Self
        requires held { has_key _locked.now key.now ≡ true }
        ensures { result ≡ key.now }
    {
        Held { key }
    }
}
