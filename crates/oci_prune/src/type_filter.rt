ghost use Rattle.std.specs.Prelude.{◌↔◌, map, IsTrue, Contains, IfOk};
ghost use Rattle.oci_manifest.specs.ArtifactType.{artifact_type_of};
ghost use Rattle.oci_prune.specs.Typed.{IsOneOf, Passes};

use oci_digest::{Digest, NoMemory};
use oci_manifest::{Key, Kind, artifact_type};
use std::alloc::Global;
use std::collections::BTreeSet;

/// Which of the manifests that state a subject count as attached to it.
#[derive(Clone, Copy)]
pub(crate) enum TypeFilter<'t> {
    /// All of them.
    AnyType,
    /// Those that declare one of these types, and all whose subject has none of these digests.
    OneOf {
        subjects: &'t BTreeSet<Digest>,
        types: &'t [&'t str],
    },
}

impl TypeFilter<'_> {
    /// Returns whether bytes of a kind that state a subject pass. An artifact type is read only if
    /// the subject has one of the digests.
    pub(crate) fn passes(
        &self,
        alloc: Global,
        kind: Kind,
        bytes: &[u8],
        subject: &Key,
    ) -> Result<bool, NoMemory>
        ensures { IfOk result (λ passes. IsTrue passes
            ↔ Passes self.now kind bytes.now subject.now) }
    {
        match self {
            TypeFilter::AnyType => Ok(true),
            TypeFilter::OneOf { subjects, types } => {
                if !subjects.contains(subject.digest()) {
                    return Ok(true);
                }
                is_of_types(alloc, kind, bytes, types)
            }
        }
    }
}

/// Returns whether bytes of a kind declare one of these types.
fn is_of_types(alloc: Global, kind: Kind, bytes: &[u8], types: &[&str]) -> Result<bool, NoMemory>
    ensures { IfOk result (λ is_one. IsTrue is_one
        ↔ IsOneOf (map (λ t. t.now) types.now) (artifact_type_of kind bytes.now)) }
{
    match artifact_type(alloc, kind, bytes)? {
        Some(declared) => Ok(is_among(declared.as_str(), types)),
        None => Ok(false),
    }
}

/// Returns whether a text is one of these.
fn is_among(text: &str, texts: &[&str]) -> bool
    ensures { IsTrue result ↔ Contains (map (λ t. t.now) texts.now) text.now }
{
    texts.contains(&text)
}
