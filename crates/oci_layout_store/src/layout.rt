ghost use Rattle.std.specs.Prelude.{◌≡◌, true, false, option_map, slice_get, IfSome, IfOk, IfErr, OnOk};
ghost use Rattle.std.specs.Cmp.Lexicographic.{slice_cmp};
ghost use Rattle.std.specs.List.{All};
ghost use Rattle.std.specs.List.Sorted.{IsStrictlySortedBy};
ghost use Rattle.std.specs.Map.{keys_of};
ghost use Rattle.std.specs.Option.{option_copied};
ghost use Rattle.std.specs.Ordering.{nat_cmp};
ghost use Rattle.oci_manifest.specs.Descriptor.{IsKey};
ghost use Rattle.oci_manifest.specs.MediaTypes.{kind_of};
ghost use Rattle.oci_store.specs.Tags.{by_bytes, AreNames};
ghost use Rattle.oci_layout_store.specs.Brought.{IsShallowEntry};
ghost use Rattle.oci_layout_store.specs.Entries.{entry_keys, said};
ghost use Rattle.oci_layout_store.specs.Files.{IsLayout};
ghost use Rattle.oci_layout_store.specs.Saved.{shadowed_keys};
ghost use Rattle.oci_layout_store.specs.Layout.{is_manifest, manifests_of};
ghost use Rattle.oci_layout_store.specs.Lasts.{LastingIsLeft};
ghost use Rattle.oci_layout_store.specs.Law.{KeysShareBytes, OpensAsKept, OpensAsSaved, OpensAsWritten, Remembers};
ghost use Rattle.oci_layout_store.specs.Opened.{is_damaged};
ghost use Rattle.oci_layout_store.specs.Refusal.{IsDamageFault};
ghost use Rattle.oci_layout_store.specs.Stated.{AreStated, AreSubjects, AreUndistributed};

mod blob;
mod brought;
mod create;
mod dest;
mod held;
mod loose;
mod open;
mod open_or_create;
mod prune;
mod replace;
mod retain;
mod save;
mod settle;
mod source;
mod stated;
mod tagger;
mod unreadable;
mod untagger;
mod version;
mod walk;

use crate::fault::LayoutFault;
use crate::index::{IndexContent, IndexEntry, keys_of};
use crate::layout::held::Held;
use crate::layout::stated::Stated;
use crate::opened_index::OpenedIndex;
pub use blob::blob_path;
pub use loose::unnamed_keys;
pub(crate) use loose::{loose_keys, tagged_keys};
use oci_digest::NoMemory;
use oci_dir::{Dir, FirstFailure};
use oci_manifest::{Key, Kind};
use oci_store::{Graph, Tags};
use std::alloc::Global;
use std::marker::Model;
pub use unreadable::unreadable_entry;
pub use version::check_version;
pub use walk::links_in;

/// An image layout in a directory. The graph of the held contents is in memory, their bytes in the
/// files.
pub struct Layout<D: Dir> {
    alloc: Global,
    dir: D,
    graph: Graph,
    /// What the held keys state, as it was read at the opening. `None` if a key was pushed or dropped
    /// since, or a file was changed.
    stated: Option<Stated>,
    tags: Tags,
    absent: Vec<Key>,
    damaged: Vec<Key>,
    content: IndexContent,
}

/// Written out, so that a proof has one call where it is dropped.
impl<D: Dir + Drop> Drop for Layout<D> {
    fn drop(self) {
        let Layout {
            alloc: _,
            dir: _dir,
            graph: _graph,
            stated: _stated,
            tags: _tags,
            absent: _absent,
            damaged: _damaged,
            content: _content,
        } = self;
    }
}

impl<D: Dir> Model for Layout<D> {
    ghost use Rattle.oci_layout_store.specs.Files.{IsLayout};
    ghost use Rattle.oci_layout_store.specs.Layout.{LayoutState};
    ghost use Rattle.oci_layout_store.specs.Stated.{AreRemembered};
    ghost use Rattle.serde_json.specs.contracts.value.Value as value;
    ghost use Rattle.std.specs.Coded.{codes};

    ghost Value = { LayoutState D };

    ghost coded = { Prim.hlevel (codes, value.the_row.coded) };

    ghost view = { λ l. record {
      dir = l.dir;
      graph = l.graph;
      tags = l.tags;
      opened = record {
        absent = l.absent.items;
        damaged = l.damaged.items;
        content = l.content;
      };
    } };

    ghost invariant = { λ l. IsLayout (D.device l.dir) l.graph l.tags
        × AreRemembered (D.device l.dir) l.graph l.stated };
}

impl<D: Dir> Layout<D> {
    /// Creates the layout of these parts.
    pub(crate) fn of(
        alloc: Global,
        dir: D,
        held: Held,
        tags: Tags,
        opened: OpenedIndex,
    ) -> Layout<D>
        requires layout { IsLayout (D.device dir) held.graph tags }
        requires stated { (D.device dir).is_honest
            → AreStated (D.device dir).file held.graph held.stated }
        ensures { result ≡ record { dir = dir; graph = held.graph; tags = tags; opened = opened } }
    {
        let Held { graph, stated } = held;
        let (absent, damaged, content) = opened.into_parts();
        Layout {
            alloc,
            dir,
            graph,
            stated: Some(stated),
            tags,
            absent,
            damaged,
            content,
        }
    }

    /// Returns the directory.
    pub fn dir(&self) -> &D
        ensures { result.now ≡ self.now.dir }
    {
        &self.dir
    }

    /// Returns the directory, and drops the rest of the layout.
    pub fn into_dir(self) -> D
        ensures { result ≡ self.dir }
    {
        let Layout {
            alloc: _,
            dir,
            graph: _graph,
            stated: _stated,
            tags: _tags,
            absent: _absent,
            damaged: _damaged,
            content: _content,
        } = self;
        dir
    }

    /// Returns where the directory notes the first call of the system that fails in it, if it does.
    pub fn first_failure(&self) -> Option<&FirstFailure> {
        self.dir.first_failure()
    }

    /// Returns the key of the entry at a place, if there is one.
    pub fn key(&self, place: usize) -> Option<&Key>
        ensures { option_copied result ≡ option_map (λ n. n.0) (slice_get self.now.graph place) }
    {
        self.graph.key(place)
    }

    /// Returns the held keys that state a subject, each with that, as they were read when the
    /// layout was opened. Returns `None` if a key was pushed or dropped since, or a file was
    /// changed.
    pub fn subjects(&self) -> Option<&[(Key, Key)]>
        ensures { IfSome result (λ pairs. (D.device self.now.dir).is_honest
            → AreSubjects (D.device self.now.dir).file self.now.graph pairs.now) }
    {
        match &self.stated {
            Some(stated) => Some(&stated.subjects),
            None => None,
        }
    }

    /// Returns the held keys that list a layer which is not distributed, each with that. Returns `None`
    /// where [`subjects`](Layout::subjects) does.
    pub fn undistributed(&self) -> Option<&[(Key, Key)]>
        ensures { IfSome result (λ pairs. (D.device self.now.dir).is_honest
            → AreUndistributed (D.device self.now.dir).file self.now.graph pairs.now) }
    {
        match &self.stated {
            Some(stated) => Some(&stated.undistributed),
            None => None,
        }
    }

    /// Returns the keys of the index's entries that were not held when the layout was opened, in
    /// the order of the index: they had no file, or a [damaged](Layout::damaged) one. There are
    /// none if the layout was created. An entry that is no descriptor has no key, so none is here
    /// for it. A key stays among them when it is pushed, and goes when all entries that had it are
    /// [replaced](Layout::bring) or [forgotten](Layout::forget_names). [`save`](Layout::save)
    /// writes the entries of those that are not held only if the layout was
    /// [opened as it is](Layout::open_as_is).
    pub fn absent(&self) -> &[Key]
        ensures { result.now ≡ self.now.opened.absent }
    {
        &self.absent
    }

    /// Returns the keys that were passed over when the layout was
    /// [opened as it is](Layout::open_as_is), since their files are damaged: those of manifests
    /// that do not match them or cannot be read as manifests, and those of leaves that have
    /// another size. They come in the order in which they were met, each once.
    /// [`check_file`](Layout::check_file) returns what is wrong with one. Otherwise they stay and
    /// go as the [absent](Layout::absent) ones do.
    pub fn damaged(&self) -> &[Key]
        ensures { result.now ≡ self.now.opened.damaged }
    {
        &self.damaged
    }

    /// Returns those of the [damaged](Layout::damaged) keys that are of a manifest kind, in their
    /// order. It is not known what they list, and to what they refer.
    ///
    /// # Errors
    ///
    /// `NoMemory` if memory runs out.
    pub fn damaged_manifests(&self) -> Result<Vec<Key>, NoMemory>
        ensures { IfOk result (λ keys. keys.items ≡ manifests_of self.now.opened.damaged) }
    {
        manifests_of(self.alloc, &self.damaged)
    }

    /// Looks at the file of a key as [`open_as_is`](Layout::open_as_is) does: reads that of a
    /// manifest, and asks for the size of a leaf's. It is no fault if there is no file.
    ///
    /// # Errors
    ///
    /// - 75 `Corrupt` if the file of a manifest does not match the key, or that of a leaf has
    ///   another size.
    /// - 77 `BadManifest` if the file of a manifest matches the key, and cannot be read as one.
    /// - 74 `Device` if a read failed.
    /// - 76 `Memory` if memory runs out.
    pub fn check_file(&self, key: &Key) -> Result<(), LayoutFault>
        ensures whole { OnOk result ((D.device self.now.dir).is_honest
            → is_damaged true (D.device self.now.dir).file key.now ≡ false) }
        ensures cause { IfErr result (IsDamageFault (D.device self.now.dir) key.now) }
    {
        match links_in(self.alloc, &self.dir, key) {
            Ok(_) => Ok(()),
            Err(fault) => Err(fault),
        }
    }

    /// Returns the entries that the layout remembers: those of the index, in its order, if the
    /// layout was [opened as it is](Layout::open_as_is), and those that were
    /// [brought](Layout::bring) since. Whatever is pushed, tagged or dropped, they stay. An entry
    /// that is no descriptor has no key: see [`unreadable`](Layout::unreadable).
    pub fn entries(&self) -> &[IndexEntry]
        ensures entries { result.now ≡ self.now.opened.content.entries }
        ensures shallow { All IsShallowEntry (said self.now.opened.content).entries }
    {
        self.content.entries()
    }

    /// Returns the keys of the [entries](Layout::entries) that have one, in their order. A key of
    /// several entries comes as often.
    ///
    /// # Errors
    ///
    /// `NoMemory` if memory runs out.
    pub fn entry_keys(&self) -> Result<Vec<Key>, NoMemory>
        ensures { IfOk result (λ keys. keys.items
            ≡ entry_keys (said self.now.opened.content).entries) }
    {
        keys_of(self.alloc, self.content.entries())
    }

    /// Returns the held keys of the entries with a name that [`save`](Layout::save) writes before
    /// the tags, in the order of the index. A tag hides them: the name belongs to a later entry. If
    /// the last entry of a name was not held when the layout was opened, or is no descriptor, and
    /// there is no such tag, they are those of all entries of the name.
    ///
    /// # Errors
    ///
    /// `NoMemory` if memory runs out.
    pub fn shadowed_keys(&self) -> Result<Vec<Key>, NoMemory>
        ensures { IfOk result (λ keys. keys.items
            ≡ shadowed_keys self.now.opened self.now.graph self.now.tags) }
    {
        self.content
            .shadowed_keys(self.alloc, &self.absent, &self.graph, &self.tags)
    }

    /// Returns the tags: each name with its key, in byte order of the names.
    ///
    /// # Errors
    ///
    /// `NoMemory` if memory runs out.
    pub fn tags(&self) -> Result<Vec<(String, Key)>, NoMemory>
        ensures exact { IfOk result (λ tags. by_bytes tags.items ≡ self.now.tags) }
        ensures order { IfOk result (λ tags. IsStrictlySortedBy (slice_cmp nat_cmp)
            (keys_of (by_bytes tags.items))) }
        ensures names { AreNames self.now.graph self.now.tags }
        ensures keys { All IsKey (keys_of self.now.graph) }
    {
        // The contract of `len` states the invariant of a graph, from which the clause `keys`
        // follows.
        let _ = self.graph.len();
        self.tags.to_vec()
    }
}

/// Returns those of these keys that are of a manifest kind.
fn manifests_of(alloc: Global, keys: &[Key]) -> Result<Vec<Key>, NoMemory>
    ensures { IfOk result (λ manifests. manifests.items ≡ manifests_of keys.now) }
{
    let mut manifests = Vec::new(alloc);
    for key in keys {
        if is_manifest(key) {
            manifests.push(key.try_clone()?)?;
        }
    }
    Ok(manifests)
}

/// Returns whether a key is of a manifest kind.
fn is_manifest(key: &Key) -> bool
    ensures { result ≡ is_manifest (kind_of key.now.media_type) }
{
    match Kind::of(key.media_type()) {
        Kind::Leaf => false,
        _ => true,
    }
}

/// States that a layout opened from the files of a closed sound layout, which was not opened as it
/// is, has the same bytes under each key, the same tags, and no absent keys. Does nothing when it
/// runs.
pub fn opens_as_saved()
    ensures { OpensAsSaved }
{}

/// States that a layout opened as it is, from the files of a closed sound layout, has the same
/// bytes under each key and the same tags, remembers the entries that were written, and writes them
/// again when it is saved. This holds if the remembered entries and the held keys say what they are,
/// and no key that was absent is held or has a whole file. Right after the layout was opened all of
/// this is so, unless a held layer of type `application/octet-stream` looks like a manifest. Does
/// nothing when it runs.
pub fn opens_as_written()
    ensures written { OpensAsWritten }
    ensures remembered { Remembers }
{}

/// States that keys of one digest have the same bytes in a layout, since they share a file. Does
/// nothing when it runs.
pub fn keys_of_one_digest()
    ensures { KeysShareBytes }
{}

/// States that where a closed layout lasts, a crash leaves it: whatever the directory may have
/// after a power cut, the files of the layout are there as they were. Does nothing when it runs.
pub fn lasting_is_left<D: Dir>(_dir: &D)
    ensures { LastingIsLeft (D.device _dir.now) }
{}

/// States that where the files of a closed layout were left as they were, it is there: what was
/// opened without absent keys is opened again, as it is or not, what a save wrote is there, and
/// each key has the same bytes. Does nothing when it runs.
pub fn opens_as_kept()
    ensures { OpensAsKept }
{}
