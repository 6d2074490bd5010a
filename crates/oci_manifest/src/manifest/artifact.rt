ghost use Rattle.std.specs.Prelude.{◌≡◌, ◌↔◌, ℕ, List, Some, IfOk, option_map, option_copied, string_bytes};
ghost use Rattle.serde_json.specs.View.{view};
ghost use Rattle.oci_manifest.specs.ArtifactType.{DeclaresType, type_at, config_type, stated_type, artifact_type_of};
ghost use Rattle.oci_manifest.specs.declared.kind.Kind.{Kind};

use super::read_value;
use crate::kind::Kind;
use oci_digest::NoMemory;
use serde_json::Value;
use std::alloc::Global;

/// Returns the type that a manifest declares: its `artifactType`, or else the media type of an
/// image's `config` (OCI distribution-spec 1.1, "Listing Referrers"). An empty text does not count
/// as a type.
///
/// Returns `None` if the manifest declares no type, for a leaf, and for bytes that are not JSON.
///
/// # Errors
///
/// Returns [`NoMemory`] if an allocation fails.
#[tactic(auto, unfolding(crate::specs::ArtifactType::artifact_type_of))]
pub fn artifact_type(alloc: Global, kind: Kind, bytes: &[u8]) -> Result<Option<String>, NoMemory>
    ensures { IfOk result (λ found. option_map string_bytes found
        ≡ artifact_type_of kind bytes.now) }
{
    if kind == Kind::Leaf {
        return Ok(None);
    }
    let Some(manifest) = read_value(alloc, bytes)? else {
        return Ok(None);
    };
    match stated_type(kind, &manifest) {
        Some(text) => Ok(Some(String::from_str(alloc, text)?)),
        None => Ok(None),
    }
}

/// Returns the type that a manifest declares.
#[tactic(auto, unfolding(crate::specs::ArtifactType::stated_type))]
fn stated_type<'v>(kind: Kind, manifest: &'v Value) -> Option<&'v str>
    ensures { option_copied result ≡ stated_type kind (view manifest.now) }
{
    type_at(manifest, "artifactType").or(config_type(kind, manifest))
}

/// Returns the media type of an image's `config`.
#[tactic(auto, unfolding(crate::specs::ArtifactType::config_type))]
fn config_type<'v>(kind: Kind, manifest: &'v Value) -> Option<&'v str>
    ensures { option_copied result ≡ config_type kind (view manifest.now) }
{
    match kind {
        Kind::Image | Kind::DockerImage => type_at(manifest.get("config")?, "mediaType"),
        _ => None,
    }
}

/// Returns the text of a member unless it is empty.
fn type_at<'v>(value: &'v Value, name: &str) -> Option<&'v str>
    ensures { option_copied result ≡ type_at name.now (view value.now) }
{
    let text = value.get(name)?.as_str()?;
    if text.is_empty() { None } else { Some(text) }
}

/// States that `artifact_type_of`, which contracts above compute with, agrees with the readable
/// relation: it returns a type exactly if the bytes declare that type. The function does nothing at
/// run time.
pub fn artifact_type_is_what_is_declared()
    ensures { (kind : Kind) (bytes type : List ℕ)
        → (artifact_type_of kind bytes ≡ Some type) ↔ DeclaresType kind bytes type }
{}
