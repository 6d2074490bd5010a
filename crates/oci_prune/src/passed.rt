//! The layers that a copy of keys passes over, since they are not distributed.
ghost use Rattle.std.specs.Prelude.{◌≡◌, true, IfOk, IfErr};
ghost use Rattle.oci_layout_store.specs.Meaning.{meaning};
ghost use Rattle.oci_store.specs.Keyed.{has_key};
ghost use Rattle.oci_prune.specs.Aside.{ArePassedOver, IsAsideFault};

use crate::aside::undistributed_layers;
use crate::attachments::Attachments;
use crate::members::members_of;
use oci_dir::Dir;
use oci_layout_store::Layout;
use oci_manifest::Key;
use oci_prune_fault::PruneFault;
use std::alloc::Global;

/// Returns the keys that are not distributed, and that a held key of a layout lists which the given
/// ones reach: a copy of these passes over them. They are in key order, and none occurs twice.
///
/// # Errors
///
/// The same as for [`undistributed_layers`].
pub fn keys_passed_over<D: Dir>(
    alloc: Global,
    layout: &Layout<D>,
    keys: &[Key],
) -> Result<Vec<Key>, PruneFault>
    ensures exact { IfOk result (λ passed. (D.device layout.now.dir).is_honest
        → ArePassedOver layout.now.graph (meaning (D.device layout.now.dir) layout.now.graph
        layout.now.tags).entries keys.now passed.items) }
    ensures cause { IfErr result (IsAsideFault
        (meaning (D.device layout.now.dir) layout.now.graph layout.now.tags)
        (λ k. has_key layout.now.graph k ≡ true)) }
{
    let reached = members_of(alloc, layout, keys, &Attachments::none(alloc), false)?;
    let passed = undistributed_layers(alloc, layout, Some(&reached))?;
    Ok(passed)
}
