ghost use Rattle.std.specs.Prelude.{◌≡◌, [], IfOk};
ghost use Rattle.oci_manifest.specs.Descriptor.{Descriptor};
ghost use Rattle.oci_store.specs.Closed.{IsClosed};
ghost use Rattle.oci_store.specs.Keyed.{value_at};
ghost use Rattle.oci_layout_store.specs.Blobs.{stored, IsSound};
ghost use Rattle.oci_layout_store.specs.Entries.{nothing_read};

use oci_layout::{Dir, Layout, LayoutFault, opens_as_saved};
use std::alloc::Global;

/// Saves a layout, and opens its directory again.
///
/// If the layout is closed and sound, and was not opened as it is, the opened one has the same
/// bytes under each key, the same tags, and no absent keys.
pub fn save_and_open<D: Dir + Drop>(
    alloc: Global,
    mut layout: Layout<D>,
) -> Result<Layout<D>, LayoutFault>
    ensures contents { IfOk result (λ again. layout.opened.content ≡ nothing_read → IsClosed layout.graph
        → IsSound (D.device layout.dir).is_honest (D.device layout.dir).file layout.graph
        → (k : Descriptor)
        → value_at (stored (D.device again.dir).file again.graph) k
        ≡ value_at (stored (D.device layout.dir).file layout.graph) k) }
    ensures tags { IfOk result (λ again. layout.opened.content ≡ nothing_read → IsClosed layout.graph
        → IsSound (D.device layout.dir).is_honest (D.device layout.dir).file layout.graph
        → again.tags ≡ layout.tags) }
    ensures absent { IfOk result (λ again. layout.opened.content ≡ nothing_read → IsClosed layout.graph
        → IsSound (D.device layout.dir).is_honest (D.device layout.dir).file layout.graph
        → again.opened.absent ≡ []) }
{
    // The contract of `tags` states the invariant of a layout, and so the premises of the law.
    let _tags = layout.tags()?;
    layout.save()?;
    opens_as_saved();
    match Layout::open(alloc, layout.into_dir()) {
        Ok(again) => Ok(again),
        Err((_dir, fault)) => Err(fault),
    }
}
