ghost use Rattle.std.specs.Prelude.{◌≡◌, ◌∷◌, ◌+◌, true, false, Some, None, option_map, IfOk, IfErr, IsErrOf, MatchOption};
ghost use Rattle.std.specs.BTreeSet.{contains};
ghost use Rattle.oci_dir.specs.Device.{IsRead};
ghost use Rattle.oci_layout_store.specs.Opened.{listed_in};
ghost use Rattle.oci_manifest.specs.Descriptor.{key_cmp};
ghost use Rattle.oci_repair.specs.Fault.{IsSearchFault};
ghost use Rattle.oci_repair.specs.Planned.{Knows};
ghost use Rattle.oci_repair.specs.Sources.{device_in, files_in, AnyFails, AreHonest};
ghost use Rattle.oci_repair.specs.Whole.{has_whole, lists_in, place_in};

use crate::blob::whole_links;
use crate::fault::RepairFault;
use crate::source::RepairSource;
use oci_dir::{Dir, DirFault};
use oci_layout_store::Layout;
use oci_manifest::Key;
use oci_store::{Dest, GraphSource, PartWatcher};
use std::alloc::Global;
use std::collections::BTreeSet;

/// Where a whole file of a key is.
pub(crate) struct Found {
    /// Its place: 0 in the layout, and from 1 on in the sources.
    pub(crate) place: usize,
    /// The keys that it lists.
    pub(crate) links: Vec<Key>,
}

/// Looks for a whole file of a key, in the layout and then in the sources, in their order. `corrupt`
/// has the keys whose files in the layout are known not to match.
pub(crate) fn find<D: Dir, F: Dir, A: Dir, P: PartWatcher>(
    alloc: Global,
    layout: &Layout<D>,
    corrupt: &BTreeSet<Key>,
    sources: &[RepairSource<F, A>],
    key: &Key,
    watcher: &P,
) -> Result<Option<Found>, RepairFault>
    ensures found { IfOk result (λ found. (D.device layout.now.dir).is_honest
        → AreHonest F.device A.device sources.now
        → Knows (D.device layout.now.dir).file layout.now.graph (contains key_cmp corrupt.now)
        → MatchOption found
        (place_in ((D.device layout.now.dir).file ∷ files_in F.device A.device sources.now) key.now
        ≡ None)
        (λ f. (place_in ((D.device layout.now.dir).file ∷ files_in F.device A.device sources.now)
        key.now ≡ Some f.place)
        × (f.links.items ≡ lists_in
        ((D.device layout.now.dir).file ∷ files_in F.device A.device sources.now) key.now))) }
    ensures cause { IfErr result (IsSearchFault (D.device layout.now.dir)
        (AnyFails F.device A.device sources.now)) }
{
    match in_layout(alloc, layout, corrupt, key, watcher) {
        Ok(Some(links)) => return Ok(Some(Found { place: 0, links })),
        Ok(None) => {}
        Err(fault) => return Err(RepairFault::of_layout(fault)),
    }
    match in_sources(alloc, sources, key, watcher) {
        Ok(found) => Ok(found),
        Err(fault) => Err(RepairFault::of_source(fault)),
    }
}

/// Returns what the whole file of a key in a layout lists, or `None` if it has no whole file of it.
/// The file of a held key is not read again.
fn in_layout<D: Dir, P: PartWatcher>(
    alloc: Global,
    layout: &Layout<D>,
    corrupt: &BTreeSet<Key>,
    key: &Key,
    watcher: &P,
) -> Result<Option<Vec<Key>>, DirFault>
    ensures found { IfOk result (λ found. (D.device layout.now.dir).is_honest
        → Knows (D.device layout.now.dir).file layout.now.graph (contains key_cmp corrupt.now)
        → MatchOption found (has_whole (D.device layout.now.dir).file key.now ≡ false)
        (λ links. (has_whole (D.device layout.now.dir).file key.now ≡ true)
        × (links.items ≡ listed_in (D.device layout.now.dir).file key.now))) }
    ensures failed { IsErrOf result DirFault.Failed
        → (D.device layout.now.dir).fails_reads ≡ true }
{
    if corrupt.contains(key) {
        return Ok(None);
    }
    if let Some(links) = layout.successors(key)? {
        return Ok(Some(links));
    }
    whole_links(alloc, layout.dir(), key, watcher)
}

/// Looks for a whole file of a key in the sources, in their order. The place of the first is 1.
fn in_sources<F: Dir, A: Dir, P: PartWatcher>(
    alloc: Global,
    sources: &[RepairSource<F, A>],
    key: &Key,
    watcher: &P,
) -> Result<Option<Found>, DirFault>
    ensures found { IfOk result (λ found. AreHonest F.device A.device sources.now
        → MatchOption found
        (place_in (files_in F.device A.device sources.now) key.now ≡ None)
        (λ f. (option_map (λ n. n + 1) (place_in (files_in F.device A.device sources.now) key.now)
        ≡ Some f.place)
        × (f.links.items ≡ lists_in (files_in F.device A.device sources.now) key.now))) }
    ensures failed { IsErrOf result DirFault.Failed → AnyFails F.device A.device sources.now }
{
    for (place, source) in sources.iter().enumerate() {
        if let Some(links) = in_source(alloc, source, key, watcher)? {
            return Ok(Some(Found {
                place: place + 1,
                links,
            }));
        }
    }
    Ok(None)
}

/// Returns what the whole file of a key in a source lists, or `None` if it has no whole file of it.
fn in_source<F: Dir, A: Dir, P: PartWatcher>(
    alloc: Global,
    source: &RepairSource<F, A>,
    key: &Key,
    watcher: &P,
) -> Result<Option<Vec<Key>>, DirFault>
    ensures { IsRead (device_in F.device A.device source.now) (λ found. MatchOption found
        (has_whole (device_in F.device A.device source.now).file key.now ≡ false)
        (λ links. (has_whole (device_in F.device A.device source.now).file key.now ≡ true)
        × (links.items ≡ listed_in (device_in F.device A.device source.now).file key.now)))
        result }
{
    match source {
        RepairSource::Folder(dir) => whole_links(alloc, dir, key, watcher),
        RepairSource::Archive(dir) => whole_links(alloc, dir, key, watcher),
    }
}
