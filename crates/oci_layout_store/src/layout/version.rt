ghost use Rattle.std.specs.Prelude.{◌≡◌, IfOk};
ghost use Rattle.oci_dir.specs.Device.{Finds};
ghost use Rattle.oci_layout_store.specs.Index.{HasLayoutFile, version_in};
ghost use Rattle.oci_layout_store.specs.Entries.{text_of};
ghost use Rattle.oci_layout_store.specs.Refusal.{IsOpenAsIsFault};

use crate::fault::LayoutFault;
use oci_digest::NoMemory;
use oci_dir::Dir;
use oci_manifest::{ManifestFault, read_json};
use serde_json::Value;
use std::alloc::Global;

/// Fails if the `oci-layout` of a directory does not state the version 1.0.0 (image-layout.md,
/// "oci-layout file").
///
/// # Errors
///
/// - 70 `NoLayoutFile` if there is none.
/// - 71 `BadLayoutFile` if it is not a JSON object with a text `imageLayoutVersion`.
/// - 72 `BadVersion` if it states another version.
/// - 74 `Device` if it could not be read.
/// - 76 `Memory` if memory runs out.
#[tactic(auto, unfolding(crate::specs::Index::layout_file, crate::specs::Index::layout_version))]
pub fn check_version<D: Dir>(alloc: Global, dir: &D) -> Result<(), LayoutFault>
    ensures { Finds (D.device dir.now) (λ _. HasLayoutFile (D.device dir.now).file)
        (IsOpenAsIsFault (D.device dir.now)) result }
{
    let Some(bytes) = dir.read("oci-layout")? else {
        return Err(LayoutFault::NoLayoutFile);
    };
    let Some(version) = version_in(alloc, bytes.as_slice())? else {
        return Err(LayoutFault::BadLayoutFile);
    };
    match version.as_str() {
        "1.0.0" => Ok(()),
        _ => Err(LayoutFault::BadVersion),
    }
}

/// Returns the version that bytes state, or `None` if they are not a JSON object with a text
/// `imageLayoutVersion`.
#[tactic(auto, unfolding(crate::specs::Index::version_in))]
fn version_in(alloc: Global, bytes: &[u8]) -> Result<Option<String>, NoMemory>
    ensures { IfOk result (λ version. text_of version ≡ version_in bytes.now) }
{
    let value = match read_json(alloc, bytes) {
        Ok(value) => value,
        Err(ManifestFault::Memory) => return Err(NoMemory),
        Err(_) => return Ok(None),
    };
    match value.get("imageLayoutVersion").and_then(Value::as_str) {
        Some(version) => Ok(Some(String::from_str(alloc, version)?)),
        None => Ok(None),
    }
}
