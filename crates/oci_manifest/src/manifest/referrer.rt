ghost use Rattle.std.specs.Prelude.{◌≡◌, ◌↔◌, ℕ, List, Ok, Some, IfErr};
ghost use Rattle.serde_json.specs.View.{view};
ghost use Rattle.oci_manifest.specs.Descriptor.{Descriptor};
ghost use Rattle.oci_manifest.specs.Fault.{Gives};
ghost use Rattle.oci_manifest.specs.Manifest.{Reads};
ghost use Rattle.oci_manifest.specs.Subject.{HasSubject, may_refer, stated_in, stated_subject, subject_of};
ghost use Rattle.oci_manifest.specs.declared.kind.Kind.{Kind};

use super::descriptor::key_of;
use super::member::present;
use super::read_json;
use crate::fault::ManifestFault;
use crate::key::Key;
use crate::kind::Kind;
use serde_json::Value;
use std::alloc::Global;

/// Returns the key in the member `subject` of a manifest (OCI image-spec 1.1, manifest.md and
/// image-index.md). A manifest with a subject is a referrer of it: a signature, an SBOM.
///
/// Returns `None` if the member is absent or null, and for the kinds that have no such member,
/// whose bytes are not read. Of a manifest that [`successors`](crate::successors) reads, the
/// subject is returned unless memory runs out.
///
/// # Errors
///
/// The first broken rule is reported:
///
/// - 10 `NotJson`: the bytes are not JSON that `serde_json` reads.
/// - 11 `NotObject`: the value is not an object.
/// - 14 `BadDescriptor`: the subject is not a descriptor.
/// - 15 `Memory`: an allocation failed.
pub fn subject(alloc: Global, kind: Kind, bytes: &[u8]) -> Result<Option<Key>, ManifestFault>
    ensures exact { Gives (λ found. found) result (subject_of kind bytes.now) }
    ensures reads { (listed : List Descriptor) → Reads kind bytes.now listed
        → IfErr result (λ e. e ≡ ManifestFault.Memory) }
{
    found_subject(alloc, kind, bytes)
}

/// Computes the result of `subject`.
#[tactic(auto, unfolding(crate::specs::Subject::subject_of))]
fn found_subject(alloc: Global, kind: Kind, bytes: &[u8]) -> Result<Option<Key>, ManifestFault>
    ensures { Gives (λ found. found) result (subject_of kind bytes.now) }
{
    if !may_refer(kind) {
        return Ok(None);
    }
    let manifest = read_json(alloc, bytes)?;
    stated_subject(alloc, &manifest)
}

/// Returns the subject of a manifest of a kind.
pub(crate) fn stated_in(
    alloc: Global,
    kind: Kind,
    manifest: &Value,
) -> Result<Option<Key>, ManifestFault>
    ensures { Gives (λ found. found) result (stated_in kind (view manifest.now)) }
{
    if may_refer(kind) {
        stated_subject(alloc, manifest)
    } else {
        Ok(None)
    }
}

/// Returns whether manifests of a kind may have a subject.
fn may_refer(kind: Kind) -> bool
    ensures { result ≡ may_refer kind }
{
    matches!(kind, Kind::Image | Kind::Index | Kind::Artifact)
}

/// Returns the subject of a manifest.
#[tactic(auto, unfolding(crate::specs::Subject::stated_subject))]
fn stated_subject(alloc: Global, manifest: &Value) -> Result<Option<Key>, ManifestFault>
    ensures { Gives (λ found. found) result (stated_subject (view manifest.now)) }
{
    if !manifest.is_object() {
        return Err(ManifestFault::NotObject);
    }
    let Some(value) = present(manifest, "subject") else {
        return Ok(None);
    };
    match key_of(alloc, value)? {
        Some(key) => Ok(Some(key)),
        None => Err(ManifestFault::BadDescriptor("subject", 0)),
    }
}

/// States that `subject_of`, which contracts above compute with, agrees with the readable relation:
/// it returns a key exactly if the bytes state that key as their subject. The function does nothing
/// at run time.
pub fn subject_is_what_is_stated()
    ensures { (kind : Kind) (bytes : List ℕ) (k : Descriptor)
        → (subject_of kind bytes ≡ Ok (Some k)) ↔ HasSubject kind bytes k }
{}
