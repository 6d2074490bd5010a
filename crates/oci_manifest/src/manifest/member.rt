ghost use Rattle.std.specs.Prelude.{◌≡◌, map, codes, option_map};
ghost use Rattle.serde_json.specs.View.{view};
ghost use Rattle.oci_manifest.specs.Reading.{keys_of, all_keys, field_of, Adds};
ghost use Rattle.oci_manifest.specs.Manifest.{fields_of, member_of, listed};

use super::descriptor::{push_list, push_single};
use crate::fault::ManifestFault;
use crate::key::Key;
use crate::kind::Kind;
use serde_json::Value;
use std::alloc::Global;

/// A member of a manifest that has successors: its name, and the form of its value.
#[derive(Clone, Copy)]
pub(crate) enum Field {
    /// An optional descriptor.
    Optional(&'static str),
    /// A required descriptor.
    Required(&'static str),
    /// An optional list of descriptors.
    Listed(&'static str),
}

const SUBJECT: Field = Field::Optional("subject");

const CONFIG: Field = Field::Required("config");

const LAYERS: Field = Field::Listed("layers");

const MANIFESTS: Field = Field::Listed("manifests");

const BLOBS: Field = Field::Listed("blobs");

/// Returns the members of a kind that have successors, in order.
pub(crate) fn fields(kind: Kind) -> &'static [Field]
    ensures { map field_of result.now ≡ fields_of kind }
{
    match kind {
        Kind::Image => &[SUBJECT, CONFIG, LAYERS],
        Kind::Index => &[SUBJECT, MANIFESTS],
        Kind::DockerImage => &[CONFIG, LAYERS],
        Kind::DockerList => &[MANIFESTS],
        Kind::Artifact => &[SUBJECT, BLOBS],
        Kind::Leaf => &[],
    }
}

/// Returns the member with this name, unless it is null.
pub(crate) fn present<'v>(manifest: &'v Value, name: &str) -> Option<&'v Value>
    ensures { option_map (λ v. view v.now) result ≡ member_of (view manifest.now) name.now }
{
    let value = manifest.get(name)?;
    if value.is_null() { None } else { Some(value) }
}

/// Appends the keys of one member to `found`.
#[tactic(auto, unfolding(crate::specs::Reading::keys_of))]
fn push_field(
    alloc: Global,
    field: Field,
    manifest: &Value,
    found: &mut Vec<Key>,
) -> Result<(), ManifestFault>
    ensures { Adds found.old.items found.new.items result
        (keys_of (view manifest.now) (field_of field)) }
{
    match field {
        Field::Optional(name) => match present(manifest, name) {
            None => Ok(()),
            Some(value) => push_single(alloc, name, value, found),
        },
        Field::Required(name) => match present(manifest, name) {
            None => Err(ManifestFault::NoConfig),
            Some(value) => push_single(alloc, name, value, found),
        },
        Field::Listed(name) => match present(manifest, name) {
            None => Ok(()),
            Some(value) => match value.as_array() {
                None => Err(ManifestFault::BadList(name)),
                Some(list) => push_list(alloc, name, list, found),
            },
        },
    }
}

/// Appends the keys of these members to `found`, in order.
pub(crate) fn push_fields(
    alloc: Global,
    fields: &[Field],
    manifest: &Value,
    found: &mut Vec<Key>,
) -> Result<(), ManifestFault>
    ensures { Adds found.old.items found.new.items result
        (all_keys (view manifest.now) (map field_of fields.now)) }
{
    for field in fields {
        push_field(alloc, *field, manifest, found)?;
    }
    Ok(())
}

/// Appends the keys of the member `manifests` to `found`.
pub(crate) fn push_manifests(
    alloc: Global,
    index: &Value,
    found: &mut Vec<Key>,
) -> Result<(), ManifestFault>
    ensures { Adds found.old.items found.new.items result
        (keys_of (view index.now) (listed (codes "manifests"))) }
{
    push_field(alloc, MANIFESTS, index, found)
}
