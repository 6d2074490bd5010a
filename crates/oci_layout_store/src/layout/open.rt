ghost use Rattle.std.specs.Prelude.{◌≡◌, ◌++◌, ◌∷◌, [], false, IfOk, IfErr, OnOk};
ghost use Rattle.std.specs.List.{All};
ghost use Rattle.oci_layout_store.specs.Blobs.{HasMatchingFiles, IsSound};
ghost use Rattle.oci_layout_store.specs.Entries.{absent_in, said};
ghost use Rattle.oci_layout_store.specs.Index.{HasLayoutFile};
ghost use Rattle.oci_layout_store.specs.Opened.{IsMeantFile, IsOpened, IsOpenedAsIs, IsRead};
ghost use Rattle.oci_layout_store.specs.Refusal.{IsOpenAsIsFault, IsOpenFault, IsOpenFaultBy};
ghost use Rattle.oci_layout_store.specs.Stated.{AreStated};
ghost use Rattle.oci_store.specs.Keyed.{HasDistinctKeys, has_key};
ghost use Rattle.oci_store.specs.Tags.{AreNames};

use crate::fault::LayoutFault;
use crate::index::{IndexContent, keys_of, owned_tags_of, read_index, tags_of};
use crate::layout::Layout;
use crate::layout::held::Held;
use crate::layout::version::check_version;
use crate::layout::walk::walk;
use crate::meant::meant_content;
use crate::opened_index::OpenedIndex;
use oci_digest::NoMemory;
use oci_dir::Dir;
use oci_manifest::Key;
use oci_store::{Graph, Tags};
use std::alloc::Global;

impl<D: Dir> Layout<D> {
    /// Opens the layout in a directory (image-layout.md). Writes nothing, so a read-only folder can
    /// be opened.
    ///
    /// The layout holds each key that is reached from the entries of `index.json` along successors
    /// and whose file is there, in the order of that walk. Each manifest is read once. A leaf is
    /// not read until it is fetched. A key without a file is not held, which is not an error. If it
    /// has an entry, it is among the [`absent`](Layout::absent) keys. If there is no `index.json`,
    /// there are no entries.
    ///
    /// A tag is the text `org.opencontainers.image.ref.name` among the annotations of an entry
    /// whose key is held. An empty text is not a tag, and neither is a value that is not a text. If
    /// two of these entries have the same name, the last one counts. Other members of an entry are
    /// ignored.
    ///
    /// A caller that will change the layout in a folder holds the folder's
    /// `FolderLock` from before this call until after [`save`](Layout::save).
    /// Otherwise the save drops tags and entries that another process saved after this call.
    ///
    /// # Errors
    ///
    /// Returns the directory, unchanged, with the first of these faults:
    ///
    /// - 70 `NoLayoutFile`, 71 `BadLayoutFile` or 72 `BadVersion` if `oci-layout` is missing,
    ///   cannot be read as one, or has another version than 1.0.0.
    /// - 73 `BadIndex` if `index.json` is there and is not an index.
    /// - 75 `Corrupt` or 77 `BadManifest` if the file of a manifest does not match its key, or
    ///   cannot be read as one. It is the first such manifest of the walk.
    ///
    /// 74 `Device` if a read failed and 76 `Memory` if memory runs out may be returned at any
    /// point.
    pub fn open(alloc: Global, dir: D) -> Result<Layout<D>, (D, LayoutFault)>
        ensures opened { IfOk result (λ layout. (D.device dir).is_honest
            → IsOpened (D.device dir).file layout.graph layout.tags layout.opened) }
        ensures absent { IfOk result (λ layout. All (λ k. has_key layout.graph k ≡ false)
            layout.opened.absent) }
        ensures same { IfOk result (λ layout. layout.dir ≡ dir) }
        ensures sound { IfOk result (λ layout. (D.device dir).is_honest
            → HasMatchingFiles (D.device dir).file layout.graph
            → IsSound (D.device dir).is_honest (D.device dir).file layout.graph) }
        ensures cause { IfErr result (λ refused. IsOpenFault (D.device dir) refused.1) }
        ensures back { IfErr result (λ refused. refused.0 ≡ dir) }
    {
        match parts(alloc, &dir) {
            Ok((held, tags, opened)) => Ok(Layout::of(alloc, dir, held, tags, opened)),
            Err(fault) => Err((dir, fault)),
        }
    }

    /// Opens the layout in a directory as [`open`](Layout::open) does, and remembers what its index
    /// says, so that [`save`](Layout::save) writes that again.
    ///
    /// Unlike with `open`, a manifest whose file does not match its key, or cannot be read as one,
    /// is no error, and neither is a leaf whose file has another size than its key says. Such a key
    /// is passed over: it is not held, lists nothing, and is among the
    /// [`damaged`](Layout::damaged) keys, and if it has an entry, among the `absent` ones.
    ///
    /// An entry of the type `application/octet-stream`, or of that of a manifest with parameters, may
    /// mean a manifest: oras writes such an entry when it tags a manifest that the index does not
    /// list. Its type is the one that the file states as `mediaType`, or else is known by the file's
    /// members. An entry with another size than its file's means that file. Either file must match
    /// the digest and have at most 4 MiB. The layout goes by the key that is meant, and a save
    /// writes the entry as it was.
    ///
    /// An element of `manifests` that is no descriptor is no error either. It is an entry without
    /// a key, which is remembered whole and counts like one whose key is absent, and can never be
    /// held. [`unreadable`](Layout::unreadable) returns the places of these entries, and
    /// [`check_entries`](Layout::check_entries) the fault that `open` returns for the first.
    ///
    /// Unlike with `open`, a name belongs to its last entry even if the key of that one is not
    /// held, or it has none. There is no such tag then, so an older entry never answers in its
    /// place. If that key is pushed, the name is a tag at the next opening.
    ///
    /// # Errors
    ///
    /// Those of `open`, but 75 and 77, and 73 `BadIndex` only if `index.json` is no JSON object,
    /// or its `manifests` is neither a list nor null nor absent.
    pub fn open_as_is(alloc: Global, dir: D) -> Result<Layout<D>, (D, LayoutFault)>
        ensures opened { IfOk result (λ layout. (D.device dir).is_honest
            → IsOpenedAsIs (D.device dir).file layout.graph layout.tags layout.opened) }
        ensures absent { IfOk result (λ layout. All (λ k. has_key layout.graph k ≡ false)
            layout.opened.absent) }
        ensures same { IfOk result (λ layout. layout.dir ≡ dir) }
        ensures sound { IfOk result (λ layout. (D.device dir).is_honest
            → HasMatchingFiles (D.device dir).file layout.graph
            → IsSound (D.device dir).is_honest (D.device dir).file layout.graph) }
        ensures cause { IfErr result (λ refused. IsOpenAsIsFault (D.device dir) refused.1) }
        ensures back { IfErr result (λ refused. refused.0 ≡ dir) }
    {
        match parts_as_is(alloc, &dir) {
            Ok((held, tags, opened)) => Ok(Layout::of(alloc, dir, held, tags, opened)),
            Err(fault) => Err((dir, fault)),
        }
    }
}

/// Reads the layout in a directory: its held, its absent and its damaged keys, and what its index
/// says. No key is damaged unless it is opened `as_is`.
fn read_layout<D: Dir>(
    alloc: Global,
    dir: &D,
    as_is: bool,
) -> Result<(Held, Vec<Key>, Vec<Key>, IndexContent), LayoutFault>
    ensures read { IfOk result (λ p. (D.device dir.now).is_honest
        → IsRead as_is (D.device dir.now).file p.0.graph p.1.items p.2.items (said p.3)) }
    ensures stated { IfOk result (λ p. (D.device dir.now).is_honest
        → AreStated (D.device dir.now).file p.0.graph p.0.stated) }
    ensures absent { IfOk result (λ p. All (λ k. has_key p.0.graph k ≡ false) p.1.items) }
    ensures distinct { IfOk result (λ p. HasDistinctKeys p.0.graph) }
    ensures cause { IfErr result (IsOpenFaultBy as_is (D.device dir.now)) }
{
    check_version(alloc, dir)?;
    let content = read_meant(alloc, dir, as_is)?;
    let keys = keys_of(alloc, content.entries())?;
    let (held, damaged) = walk(alloc, dir, as_is, &keys)?;
    let absent = absent_of(alloc, &held.graph, &keys)?;
    Ok((held, absent, damaged, content))
}

/// Reads what `index.json` says. If it is read `as_is`, each entry has the key that it means.
fn read_meant<D: Dir>(alloc: Global, dir: &D, as_is: bool) -> Result<IndexContent, LayoutFault>
    ensures read { IfOk result (λ content. (D.device dir.now).is_honest
        → IsMeantFile as_is (D.device dir.now).file (said content)) }
    ensures cause { IfErr result (λ fault.
        ((D.device dir.now).is_honest → HasLayoutFile (D.device dir.now).file)
        → IsOpenFaultBy as_is (D.device dir.now) fault) }
{
    let content = read_index(alloc, dir, as_is)?;
    if as_is {
        return Ok(meant_content(alloc, dir, content)?);
    }
    Ok(content)
}

/// Reads the held keys and the tags of a layout that is opened, and what it remembers of its index.
fn parts<D: Dir>(alloc: Global, dir: &D) -> Result<(Held, Tags, OpenedIndex), LayoutFault>
    ensures opened { IfOk result (λ p. (D.device dir.now).is_honest
        → IsOpened (D.device dir.now).file p.0.graph p.1 p.2) }
    ensures stated { IfOk result (λ p. (D.device dir.now).is_honest
        → AreStated (D.device dir.now).file p.0.graph p.0.stated) }
    ensures absent { IfOk result (λ p. All (λ k. has_key p.0.graph k ≡ false) p.2.absent) }
    ensures names { IfOk result (λ p. AreNames p.0.graph p.1) }
    ensures distinct { IfOk result (λ p. HasDistinctKeys p.0.graph) }
    ensures cause { IfErr result (IsOpenFault (D.device dir.now)) }
{
    let (held, absent, damaged, content) = read_layout(alloc, dir, false)?;
    let tags = tags_of(alloc, &held.graph, content.entries())?;
    Ok((
        held,
        tags,
        OpenedIndex::new(absent, damaged, IndexContent::none(alloc)),
    ))
}

/// Reads the held keys and the tags of a layout that is opened as it is, and what it remembers of
/// its index.
fn parts_as_is<D: Dir>(alloc: Global, dir: &D) -> Result<(Held, Tags, OpenedIndex), LayoutFault>
    ensures opened { IfOk result (λ p. (D.device dir.now).is_honest
        → IsOpenedAsIs (D.device dir.now).file p.0.graph p.1 p.2) }
    ensures stated { IfOk result (λ p. (D.device dir.now).is_honest
        → AreStated (D.device dir.now).file p.0.graph p.0.stated) }
    ensures absent { IfOk result (λ p. All (λ k. has_key p.0.graph k ≡ false) p.2.absent) }
    ensures names { IfOk result (λ p. AreNames p.0.graph p.1) }
    ensures distinct { IfOk result (λ p. HasDistinctKeys p.0.graph) }
    ensures cause { IfErr result (IsOpenAsIsFault (D.device dir.now)) }
{
    let (held, absent, damaged, content) = read_layout(alloc, dir, true)?;
    let tags = owned_tags_of(alloc, &held.graph, content.entries())?;
    Ok((held, tags, OpenedIndex::new(absent, damaged, content)))
}

/// Returns those of these keys that are not held, in their order.
fn absent_of(alloc: Global, graph: &Graph, keys: &[Key]) -> Result<Vec<Key>, NoMemory>
    ensures { IfOk result (λ absent. absent.items ≡ absent_in graph.now keys.now) }
{
    let mut absent = Vec::new(alloc);
    for key in keys {
        note_absent(graph, key, &mut absent)?;
    }
    Ok(absent)
}

/// Adds a key to the absent ones if it is not held.
fn note_absent(graph: &Graph, key: &Key, absent: &mut Vec<Key>) -> Result<(), NoMemory>
    ensures { OnOk result (absent.new.items
        ≡ absent.old.items ++ absent_in graph.now (key.now ∷ [])) }
{
    if graph.holds(key) {
        return Ok(());
    }
    absent.push(key.try_clone()?)?;
    Ok(())
}
