ghost use Rattle.std.specs.Prelude.{◌≡◌, IfErr, IfOk, OnOk, Some};
ghost use Rattle.serde_json.specs.View.{view, items_view};
ghost use Rattle.oci_manifest.specs.MediaTypes.{kind_of};
ghost use Rattle.oci_store.specs.Tags.{by_bytes};
ghost use Rattle.oci_reference.specs.Platform.{add_stated, all_stated, listed_in, stated_by, IsNoJson};

use crate::platform::{is_index, json_of, manifests_in, platform_of};
use oci_digest::NoMemory;
use oci_manifest::{Key, key_of};
use oci_program::ProgramFault;
use serde_json::Value;
use std::alloc::Global;

/// Returns the platforms that an index states, each with the key of the descriptor that states it, in
/// the order of its `manifests` (OCI image specification 1.1, image-index.md, `platform`). A platform
/// is `OS/ARCH` or `OS/ARCH/VARIANT`. `bytes` are those of the key. A key of another kind than an index
/// states none.
///
/// # Errors
///
/// - 77 `BadManifest` if the bytes of an index are not JSON.
/// - Out of memory, at any point.
pub fn listed_platforms(
    alloc: Global,
    key: &Key,
    bytes: &[u8],
) -> Result<Vec<(String, Key)>, ProgramFault>
    ensures listed { IfOk result (λ found. by_bytes found.items
        ≡ all_stated (listed_in (kind_of key.now.media_type) bytes.now)) }
    ensures refused { IfErr result (IsNoJson key.now bytes.now) }
{
    if !is_index(key) {
        return Ok(Vec::new(alloc));
    }
    let index = json_of(key, bytes)?;
    Ok(all_stated(alloc, manifests_in(&index))?)
}

/// Returns the platforms that these elements state, each with the key of the element.
fn all_stated(alloc: Global, elements: &[Value]) -> Result<Vec<(String, Key)>, NoMemory>
    ensures { IfOk result (λ found. by_bytes found.items ≡ all_stated (items_view elements.now)) }
{
    let mut found = Vec::new(alloc);
    for element in elements {
        add_stated(alloc, element, &mut found)?;
    }
    Ok(found)
}

/// Adds the platform that an element states, if it is a descriptor and states one.
fn add_stated(
    alloc: Global,
    element: &Value,
    found: &mut Vec<(String, Key)>,
) -> Result<(), NoMemory>
    ensures { OnOk result (by_bytes found.new.items
        ≡ add_stated (by_bytes found.old.items) (stated_by (view element.now))) }
{
    let Some(platform) = platform_of(alloc, element)? else {
        return Ok(());
    };
    let Some(key) = key_of(alloc, element)? else {
        return Ok(());
    };
    found.push((platform, key))?;
    Ok(())
}
