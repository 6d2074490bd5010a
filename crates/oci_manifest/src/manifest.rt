ghost use Rattle.std.specs.Prelude.{◌≡◌, ◌≢◌, ◌↔◌, ℕ, List, Ok, Err, IsOk, IfOk, IfErr, option_map};
ghost use Rattle.std.specs.List.{IsDistinct};
ghost use Rattle.serde_json.specs.View.{view};
ghost use Rattle.oci_manifest.specs.Descriptor.{Descriptor, same_key};
ghost use Rattle.oci_manifest.specs.Fault.{Fault, Gives, IsFault, not_json};
ghost use Rattle.oci_manifest.specs.Manifest.{Reads, Breaks};
ghost use Rattle.oci_manifest.specs.Reading.{reading, or_fault, index_keys, keys_in, successors_of};
ghost use Rattle.oci_manifest.specs.declared.kind.Kind.{Kind};
ghost use Rattle.oci_manifest.specs.declared.kind.Kind.TheVariants.{Leaf};

mod artifact;
mod aside;
mod descriptor;
mod distinct;
mod links;
mod member;
mod referrer;

use crate::fault::ManifestFault;
use crate::key::Key;
use crate::kind::Kind;
pub use artifact::{artifact_type, artifact_type_is_what_is_declared};
pub use aside::{undistributed, undistributed_are_what_is_listed};
pub use descriptor::key_of;
use distinct::keep_distributed;
pub use links::{Links, read_links};
use member::{fields, push_fields, push_manifests};
use oci_digest::NoMemory;
pub use referrer::{subject, subject_is_what_is_stated};
use serde_json::Value;
use std::alloc::Global;

/// Reads the bytes as JSON.
///
/// # Errors
///
/// - 10 `NotJson`: the bytes are not JSON that `serde_json` reads.
/// - 15 `Memory`: an allocation failed.
pub fn read_json(alloc: Global, bytes: &[u8]) -> Result<Value, ManifestFault>
    ensures { Gives view result (or_fault not_json (reading bytes.now)) }
{
    match read_value(alloc, bytes)? {
        Some(value) => Ok(value),
        None => Err(ManifestFault::NotJson),
    }
}

/// Reads the bytes as JSON. Returns `None` if they are not JSON.
fn read_value(alloc: Global, bytes: &[u8]) -> Result<Option<Value>, NoMemory>
    ensures { IfOk result (λ found. option_map view found ≡ reading bytes.now) }
{
    match Value::from_slice(alloc, bytes) {
        Ok(value) => Ok(Some(value)),
        Err(error) => {
            if error.is_memory() {
                Err(NoMemory)
            } else {
                Ok(None)
            }
        }
    }
}

/// Returns the keys of a manifest's members in order, including repeated keys and undistributed
/// layers.
fn keys_in(alloc: Global, kind: Kind, manifest: &Value) -> Result<Vec<Key>, ManifestFault>
    ensures { Gives (λ keys. keys.items) result (keys_in kind (view manifest.now)) }
{
    if !manifest.is_object() {
        return Err(ManifestFault::NotObject);
    }
    let mut found = Vec::new(alloc);
    push_fields(alloc, fields(kind), manifest, &mut found)?;
    Ok(found)
}

/// Returns the keys in the member `manifests` of an index in order, including repeated keys and
/// undistributed layers. No other member is read.
///
/// # Errors
///
/// - 11 `NotObject`: the index is not a JSON object.
/// - 13 `BadList`: `manifests` is neither a list nor null nor absent.
/// - 14 `BadDescriptor`: an element of `manifests` is not a descriptor. The first one is reported.
/// - 15 `Memory`: an allocation failed.
#[tactic(auto, unfolding(crate::specs::Reading::index_keys))]
pub fn index_keys(alloc: Global, index: &Value) -> Result<Vec<Key>, ManifestFault>
    ensures { Gives (λ keys. keys.items) result (index_keys (view index.now)) }
{
    if !index.is_object() {
        return Err(ManifestFault::NotObject);
    }
    let mut found = Vec::new(alloc);
    push_manifests(alloc, index, &mut found)?;
    Ok(found)
}

/// Computes the result of `successors`.
#[tactic(auto, unfolding(crate::specs::Reading::successors_of, crate::specs::Reading::manifest_keys))]
fn answer(alloc: Global, kind: Kind, bytes: &[u8]) -> Result<Vec<Key>, ManifestFault>
    ensures exact { Gives (λ keys. keys.items) result (successors_of kind bytes.now) }
    ensures leaf { kind ≡ Leaf → IsOk result }
{
    if kind == Kind::Leaf {
        return Ok(Vec::new(alloc));
    }
    let manifest = read_json(alloc, bytes)?;
    let keys = keys_in(alloc, kind, &manifest)?;
    Ok(keep_distributed(alloc, keys)?)
}

/// Returns the keys that a content of this kind lists, in the order of its members. Each key is
/// returned once, at its first place.
///
/// A descriptor is an object with a text `mediaType`, a text `digest` that `Digest::parse` accepts,
/// and a `size` that is written as a whole number from 0 to 2^63 - 1 (OCI image-spec 1.1,
/// descriptor.md, "Properties"). Its other members are ignored. A null member of the manifest
/// counts as absent. Keys of the four layer types that are not distributed are left out of every
/// member, but their descriptors must be well formed.
///
/// # Errors
///
/// The rules are checked in this order, and the first broken one is reported:
///
/// 1. 10 `NotJson`: the bytes are not a JSON text (RFC 8259), nest deeper than 127, or have a
///    number that is too large for a float, such as `1e400`. `serde_json` does not read the last
///    two.
/// 2. 11 `NotObject`: the value is not an object.
/// 3. The members, in the kind's order:
///    - `subject`, if present: 14 `BadDescriptor` if it is not a descriptor.
///    - `config`: 12 `NoConfig` if it is absent, 14 `BadDescriptor` if it is not a descriptor.
///    - `layers`, `manifests` or `blobs`, if present: 13 `BadList` if it is not a list, 14
///      `BadDescriptor` at its first element that is not a descriptor.
///
/// 15 `Memory` is possible at any point, but not for a leaf.
pub fn successors(alloc: Global, kind: Kind, bytes: &[u8]) -> Result<Vec<Key>, ManifestFault>
    // The returned keys are the ones that the content lists.
    ensures found { IfOk result (λ keys. Reads kind bytes.now keys.items) }
    // If the content reads, its keys are returned, unless memory runs out.
    ensures reads { (L : List Descriptor) → Reads kind bytes.now L
        → Gives (λ keys. keys.items) result (Ok L) }
    // An error names the first broken rule.
    ensures refused { IfErr result (λ e. e ≢ ManifestFault.Memory
        → (f : Fault) × IsFault e f × Breaks kind bytes.now f) }
    // If a rule is broken, the first one is reported, unless memory runs out.
    ensures breaks { (f : Fault) → Breaks kind bytes.now f
        → Gives (λ keys. keys.items) result (Err f) }
    // No key is returned twice.
    ensures distinct { IfOk result (λ keys. IsDistinct same_key keys.items) }
    // A leaf never fails.
    ensures leaf { kind ≡ Leaf → IsOk result }
    // All of the above as a function, for the crates above.
    ensures exact { Gives (λ keys. keys.items) result (successors_of kind bytes.now) }
{
    answer(alloc, kind, bytes)
}

/// States that `successors_of`, which contracts above compute with, agrees with the readable
/// relations. It returns some keys exactly if the bytes read and list these keys. It returns an
/// error exactly if that is the first rule that the bytes break. So the edges of every stored or
/// copied graph are the keys that a manifest lists. The function does nothing at run time.
pub fn successors_are_what_is_listed()
    ensures reads { (kind : Kind) (bytes : List ℕ) (listed : List Descriptor)
        → (successors_of kind bytes ≡ Ok listed) ↔ Reads kind bytes listed }
    ensures breaks { (kind : Kind) (bytes : List ℕ) (broken : Fault)
        → (successors_of kind bytes ≡ Err broken) ↔ Breaks kind bytes broken }
{}
