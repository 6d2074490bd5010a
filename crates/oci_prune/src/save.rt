ghost use Rattle.std.specs.Prelude.{◌≡◌, true, List, length, IfErr, OnOk};
ghost use Rattle.std.specs.BTreeSet.{contains};
ghost use Rattle.std.specs.List.{All};
ghost use Rattle.std.specs.Map.{values_of};
ghost use Rattle.oci_manifest.specs.Descriptor.{key_cmp};
ghost use Rattle.oci_store.specs.Closed.{IsClosed};
ghost use Rattle.oci_store.specs.Content.{Entry};
ghost use Rattle.oci_store.specs.Tags.{Tags};
ghost use Rattle.oci_layout_store.specs.Blobs.{stored};
ghost use Rattle.oci_layout_store.specs.Lasts.{Lasts};
ghost use Rattle.oci_layout_store.specs.Refusal.{IsSettledFault};
ghost use Rattle.oci_prune.specs.Pruned.{kept_of, OnlyIndex, StaysOrDrops};
ghost use Rattle.oci_prune.specs.Settled.{CanSettle, LeavesOneOf, SavesOnly};

use oci_dir::Dir;
use oci_layout_store::{Layout, LayoutFault};
use oci_manifest::Key;
use oci_store::Dest;
use std::collections::BTreeSet;

/// Drops the keys that are not kept from a layout, and saves its index, which is then on the disk. The
/// files of these keys stay. A key with a tag must be kept.
///
/// No key came, so no file of a key is waited for. A power cut at any moment leaves the layout that was
/// saved before, or the one with the kept keys.
///
/// # Errors
///
/// - 74 `Device` if `index.json` could not be written, or if it is not known whether it is on the
///   disk. The layout in memory has the kept keys.
/// - 76 `Memory` if memory runs out. The layout in memory has the same keys as before, or the kept
///   ones.
pub fn save_only<D: Dir>(layout: &mut Layout<D>, kept: &BTreeSet<Key>) -> Result<(), LayoutFault>
    requires tagged { All (λ k. contains key_cmp kept.now k ≡ true) (values_of layout.old.tags) }
    ensures stays { StaysOrDrops kept.now layout.old layout.new }
    ensures only { OnlyIndex D.device layout.old layout.new }
    ensures saved { OnOk result (SavesOnly D.device layout.old layout.new kept.now) }
    ensures cause { IfErr result (IsSettledFault (D.device layout.old.dir)
        (D.device layout.new.dir)) }
    ensures left { (entries : List Entry) (tags : Tags) → CanSettle (D.device layout.old.dir)
        (length layout.old.graph) layout.old.graph entries tags
        → IsClosed (kept_of kept.now layout.old.graph)
        → LeavesOneOf (D.device layout.new.dir) entries tags
        (stored (D.device layout.new.dir).file layout.new.graph) layout.new.tags }
    ensures lasts { OnOk result ((entries : List Entry) (tags : Tags)
        → CanSettle (D.device layout.old.dir) (length layout.old.graph) layout.old.graph entries
        tags → IsClosed (kept_of kept.now layout.old.graph)
        → Lasts (D.device layout.new.dir)
        (stored (D.device layout.new.dir).file layout.new.graph) layout.new.tags) }
{
    layout.retain(kept)?;
    let count = layout.count();
    layout.save_settled(count)
}
