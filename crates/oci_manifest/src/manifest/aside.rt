ghost use Rattle.std.specs.Prelude.{◌≡◌, ◌↔◌, ℕ, List, Ok, IsOk, IfOk, IfErr};
ghost use Rattle.oci_manifest.specs.Descriptor.{Descriptor};
ghost use Rattle.oci_manifest.specs.Fault.{Gives};
ghost use Rattle.oci_manifest.specs.Manifest.{Reads};
ghost use Rattle.oci_manifest.specs.Undistributed.{ReadsAside, undistributed_in, undistributed_of};
ghost use Rattle.oci_manifest.specs.declared.kind.Kind.{Kind};
ghost use Rattle.oci_manifest.specs.declared.kind.Kind.TheVariants.{Leaf};

use super::{keys_in, read_json};
use crate::fault::ManifestFault;
use crate::key::Key;
use crate::kind::{Kind, is_undistributed_type};
use oci_digest::NoMemory;
use std::alloc::Global;

/// Returns the keys that a content of this kind lists and that [`successors`](crate::successors)
/// leaves out, since they are of layers that are not distributed (OCI image-spec 1.1, layer.md,
/// "Non-Distributable Layers"): in the order of its members, and as often as they are listed.
///
/// # Errors
///
/// The same as for [`successors`](crate::successors).
pub fn undistributed(alloc: Global, kind: Kind, bytes: &[u8]) -> Result<Vec<Key>, ManifestFault>
    ensures exact { Gives (λ keys. keys.items) result (undistributed_of kind bytes.now) }
    ensures reads { (listed : List Descriptor) → Reads kind bytes.now listed
        → IfErr result (λ e. e ≡ ManifestFault.Memory) }
    ensures leaf { kind ≡ Leaf → IsOk result }
{
    found_undistributed(alloc, kind, bytes)
}

/// Computes the result of `undistributed`.
#[tactic(auto, unfolding(crate::specs::Undistributed::undistributed_of, crate::specs::Reading::manifest_keys))]
fn found_undistributed(alloc: Global, kind: Kind, bytes: &[u8]) -> Result<Vec<Key>, ManifestFault>
    ensures exact { Gives (λ keys. keys.items) result (undistributed_of kind bytes.now) }
    ensures leaf { kind ≡ Leaf → IsOk result }
{
    if kind == Kind::Leaf {
        return Ok(Vec::new(alloc));
    }
    let manifest = read_json(alloc, bytes)?;
    let keys = keys_in(alloc, kind, &manifest)?;
    Ok(keep_undistributed(alloc, &keys)?)
}

/// Returns those of these keys that are not distributed.
pub(super) fn keep_undistributed(alloc: Global, keys: &[Key]) -> Result<Vec<Key>, NoMemory>
    ensures { IfOk result (λ kept. kept.items ≡ undistributed_in keys.now) }
{
    let mut kept = Vec::new(alloc);
    for key in keys {
        if !is_undistributed_type(key.media_type()) {
            continue;
        }
        kept.push(key.try_clone()?)?;
    }
    Ok(kept)
}

/// States that `undistributed_of`, which contracts above compute with, agrees with the readable
/// relation: it returns some keys exactly if the bytes read and list these keys that are not
/// distributed. The function does nothing at run time.
pub fn undistributed_are_what_is_listed()
    ensures { (kind : Kind) (bytes : List ℕ) (aside : List Descriptor)
        → (undistributed_of kind bytes ≡ Ok aside) ↔ ReadsAside kind bytes aside }
{}
