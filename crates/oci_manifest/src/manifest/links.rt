ghost use Rattle.std.specs.Prelude.{◌≡◌, [], None, Ok, IsOk, IfOk};
ghost use Rattle.oci_manifest.specs.Fault.{Gives};
ghost use Rattle.oci_manifest.specs.Reading.{successors_of};
ghost use Rattle.oci_manifest.specs.Subject.{subject_of};
ghost use Rattle.oci_manifest.specs.Undistributed.{undistributed_of};
ghost use Rattle.oci_manifest.specs.declared.kind.Kind.{Kind};
ghost use Rattle.oci_manifest.specs.declared.kind.Kind.TheVariants.{Leaf};

use super::aside::keep_undistributed;
use super::distinct::keep_distributed;
use super::referrer::stated_in;
use super::{keys_in, read_json};
use crate::fault::ManifestFault;
use crate::key::Key;
use crate::kind::Kind;
use std::alloc::Global;

/// What a content lists and states.
#[derive(Drop)]
pub struct Links {
    /// The keys that [`successors`](crate::successors) returns. The subject is the first of them,
    /// unless it is a layer that is not distributed.
    pub successors: Vec<Key>,
    /// The key that [`subject`](crate::subject) returns.
    pub subject: Option<Key>,
    /// The keys that [`undistributed`](crate::undistributed) returns.
    pub undistributed: Vec<Key>,
}

impl Links {
    /// Returns the links of a content that lists nothing. Does not allocate.
    pub fn none(alloc: Global) -> Links
        ensures successors { result.successors.items ≡ [] }
        ensures subject { result.subject ≡ None }
        ensures undistributed { result.undistributed.items ≡ [] }
    {
        Links {
            successors: Vec::new(alloc),
            subject: None,
            undistributed: Vec::new(alloc),
        }
    }
}

/// Returns what a content of this kind lists and states. Reads the bytes once.
///
/// # Errors
///
/// The same as for [`successors`](crate::successors).
#[tactic(auto, unfolding(crate::specs::Reading::successors_of, crate::specs::Reading::manifest_keys, crate::specs::Subject::subject_of, crate::specs::Undistributed::undistributed_of))]
pub fn read_links(alloc: Global, kind: Kind, bytes: &[u8]) -> Result<Links, ManifestFault>
    ensures successors { Gives (λ links. links.successors.items) result
        (successors_of kind bytes.now) }
    ensures subject { IfOk result (λ links. subject_of kind bytes.now ≡ Ok links.subject) }
    ensures undistributed { IfOk result (λ links.
        undistributed_of kind bytes.now ≡ Ok links.undistributed.items) }
    ensures leaf { kind ≡ Leaf → IsOk result }
{
    if kind == Kind::Leaf {
        return Ok(Links::none(alloc));
    }
    let manifest = read_json(alloc, bytes)?;
    let keys = keys_in(alloc, kind, &manifest)?;
    match stated_in(alloc, kind, &manifest) {
        Ok(subject) => Ok(Links {
            undistributed: keep_undistributed(alloc, &keys)?,
            successors: keep_distributed(alloc, keys)?,
            subject,
        }),
        Err(fault) => Err(fault),
    }
}
