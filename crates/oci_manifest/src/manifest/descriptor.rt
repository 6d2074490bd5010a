ghost use Rattle.std.specs.Prelude.{◌≡◌, IfOk};
ghost use Rattle.serde_json.specs.View.{view, items_view};
ghost use Rattle.oci_manifest.specs.Reading.{descriptor_of, descriptors_from, single, Adds};

use crate::fault::ManifestFault;
use crate::key::Key;
use crate::media_type::MediaType;
use oci_digest::{Digest, NoMemory};
use serde_json::Value;
use std::alloc::Global;

/// Returns the key of the descriptor in `value` (OCI image-spec 1.1, descriptor.md, "Properties"),
/// or `None` if `value` is not a descriptor. Other members are ignored.
///
/// # Errors
///
/// `NoMemory` if memory runs out.
#[tactic(auto, unfolding(crate::specs::Reading::descriptor_of))]
pub fn key_of(alloc: Global, value: &Value) -> Result<Option<Key>, NoMemory>
    ensures { IfOk result (λ found. found ≡ descriptor_of (view value.now)) }
{
    let Some(media_type) = value.get("mediaType").and_then(Value::as_str) else {
        return Ok(None);
    };
    let Some(text) = value.get("digest").and_then(Value::as_str) else {
        return Ok(None);
    };
    let Some(size) = value.get("size").and_then(Value::as_u64) else {
        return Ok(None);
    };
    let Ok(digest) = Digest::parse(text) else {
        return Ok(None);
    };
    let media_type = MediaType::copied(alloc, media_type)?;
    Ok(Key::from_parts(alloc, media_type, digest, size).ok())
}

/// Appends the key of the descriptor in the member `name` to `found`.
pub(crate) fn push_single(
    alloc: Global,
    name: &'static str,
    value: &Value,
    found: &mut Vec<Key>,
) -> Result<(), ManifestFault>
    ensures { Adds found.old.items found.new.items result (single name.now (view value.now)) }
{
    let Some(key) = key_of(alloc, value)? else {
        return Err(ManifestFault::BadDescriptor(name, 0));
    };
    found.push(key)?;
    Ok(())
}

/// Appends the keys of the descriptors in the list of the member `name` to `found`.
pub(crate) fn push_list(
    alloc: Global,
    name: &'static str,
    list: &[Value],
    found: &mut Vec<Key>,
) -> Result<(), ManifestFault>
    ensures { Adds found.old.items found.new.items result
        (descriptors_from name.now 0 (items_view list.now)) }
{
    for (position, value) in list.iter().enumerate() {
        let Some(key) = key_of(alloc, value)? else {
            return Err(ManifestFault::BadDescriptor(name, position as u64));
        };
        found.push(key)?;
    }
    Ok(())
}
