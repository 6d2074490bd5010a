ghost use Rattle.std.specs.Prelude.{◌⊎◌, List, OnOk, IfErr, IsErrOf};
ghost use Rattle.oci_dir.specs.Crash.{IsLeft};
ghost use Rattle.oci_dir.specs.Device.{AfterPuts, File, Same, Touches};
ghost use Rattle.oci_layout_store.specs.Files.{HasFiles};
ghost use Rattle.oci_layout_store.specs.Index.{index_file, HasIndex};
ghost use Rattle.oci_layout_store.specs.Lasts.{AreKnown, HasLayout, Lasts};
ghost use Rattle.oci_layout_store.specs.Layout.{OnlyFiles};
ghost use Rattle.oci_layout_store.specs.Refusal.{IsPutFault, IsSettledFault};
ghost use Rattle.oci_store.specs.Closed.{IsClosed};
ghost use Rattle.oci_store.specs.Content.{Entry};
ghost use Rattle.oci_store.specs.Push.{IsRaised};
ghost use Rattle.oci_store.specs.Tags.{Tags};

use crate::fault::LayoutFault;
use crate::layout::Layout;
use crate::layout::settle::put_settled;
use oci_dir::Dir;
use oci_store::Store;

impl<D: Dir> Layout<D> {
    /// Writes `index.json`. An entry for each tag comes in byte order of the names. Then comes an
    /// entry for each held key without a tag, in key order, if the key is of a manifest kind or no
    /// held key lists it. An entry has the media type, the digest and the size of the key, and the
    /// name of the tag.
    ///
    /// A layout that remembers entries, since it was [opened as it is](Layout::open_as_is) or they
    /// were [brought](Layout::bring), also writes what these say. The last entry of a name keeps
    /// its members if its key is still that of the tag. So does each entry without a name whose key
    /// is held: these come after the tags, in the order of the index, and a key that has one gets no
    /// other. Before the tags come, in the order of the index, the entries without a name whose key
    /// was not held when the layout was opened and is not held now, and the earlier entries of a
    /// name, unless the name has moved to another key or was removed. All entries of a name come
    /// there if it has no tag, and the key of the last one was not held when the layout was opened,
    /// also if the name was set and removed since then. An entry that is no descriptor counts like
    /// one whose key was not held, and is not held now. The entries of dropped keys go. The index
    /// keeps its own members but `mediaType` and `schemaVersion`, which are set. Numbers that are
    /// no 64-bit integers become the nearest double.
    ///
    /// # Errors
    ///
    /// - 74 `Device` if the directory could not be written.
    /// - 76 `Memory` if memory runs out.
    ///
    /// The layout in memory is unchanged. After 74 `index.json` may have any bytes.
    #[tactic(auto, unfolding(crate::specs::Index::index_file))]
    pub fn save(&mut self) -> Result<(), LayoutFault>
        ensures saved { OnOk result ((D.device self.old.dir).is_honest
            → HasIndex (D.device self.new.dir).file self.old.graph self.old.tags
            self.old.opened) }
        ensures files { OnOk result ((⟦<Self as Store>⟧.state self.old).is_sound
            → HasFiles (D.device self.new.dir).file (⟦<Self as Store>⟧.state self.old).entries
            self.old.graph self.old.tags self.old.opened) }
        ensures drafts { OnOk result ((D.device self.old.dir).is_honest
            → Same (D.device self.old.dir).draft (D.device self.new.dir).draft) }
        ensures only { OnlyFiles D.device self.old self.new }
        ensures other { (D.device self.old.dir).is_honest
            → Touches (D.device self.old.dir).file (D.device self.new.dir).file index_file }
        ensures device { AfterPuts (D.device self.old.dir) (D.device self.new.dir)
            (IsErrOf result LayoutFault.Device) }
        ensures cause { IfErr result (IsPutFault (D.device self.old.dir).failures
            (D.device self.new.dir).failures) }
    {
        let text = self
            .content
            .saved_text(self.alloc, &self.absent, &self.graph, &self.tags)?;
        self.stated = None;
        match self.dir.put("index.json", &text) {
            Ok(()) => Ok(()),
            Err(fault) => Err(LayoutFault::from(fault)),
        }
    }

    /// Writes `index.json` as [`save`](Layout::save) does, so that a power cut at any moment leaves
    /// the layout as it was saved last, or as it is now. Waits until the files of the keys from
    /// place `from` on are on the disk, with `oci-layout`. Then replaces the index, and waits until
    /// it is there too. The keys before `from` are those that the last saved layout holds, and
    /// those of a [`settle_blobs`](Layout::settle_blobs): `from` is the number of keys after the
    /// layout was opened, created or saved like this, less those that were dropped since.
    ///
    /// # Errors
    ///
    /// - 74 `Device` if the directory could not be written, or could not say that a file is on the
    ///   disk.
    /// - 76 `Memory` if memory runs out.
    ///
    /// The layout in memory is unchanged. After a fault `index.json` has its old bytes or all of
    /// the new ones.
    pub fn save_settled(&mut self, from: usize) -> Result<(), LayoutFault>
        ensures left { (⟦<Self as Store>⟧.state self.old).is_sound → IsClosed self.old.graph
            → (entries : List Entry) (tags : Tags) → Lasts (D.device self.old.dir) entries tags
            → AreKnown (D.device self.old.dir) from self.old.graph entries
            → (left : File) → IsLeft (D.device self.new.dir) left → HasLayout left entries tags
            ⊎ HasLayout left (⟦<Self as Store>⟧.state self.old).entries self.old.tags }
        ensures lasts { OnOk result ((⟦<Self as Store>⟧.state self.old).is_sound
            → IsClosed self.old.graph → (entries : List Entry) (tags : Tags)
            → Lasts (D.device self.old.dir) entries tags
            → AreKnown (D.device self.old.dir) from self.old.graph entries
            → Lasts (D.device self.new.dir) (⟦<Self as Store>⟧.state self.old).entries
            self.old.tags) }
        ensures saved { OnOk result ((D.device self.old.dir).is_honest
            → HasIndex (D.device self.new.dir).file self.old.graph self.old.tags
            self.old.opened) }
        ensures files { OnOk result ((⟦<Self as Store>⟧.state self.old).is_sound
            → HasFiles (D.device self.new.dir).file (⟦<Self as Store>⟧.state self.old).entries
            self.old.graph self.old.tags self.old.opened) }
        ensures drafts { OnOk result ((D.device self.old.dir).is_honest
            → Same (D.device self.old.dir).draft (D.device self.new.dir).draft) }
        ensures only { OnlyFiles D.device self.old self.new }
        ensures other { (D.device self.old.dir).is_honest
            → Touches (D.device self.old.dir).file (D.device self.new.dir).file index_file }
        ensures device { AfterPuts (D.device self.old.dir) (D.device self.new.dir)
            (IsErrOf result LayoutFault.Device × IsRaised (D.device self.old.dir).failures
            (D.device self.new.dir).failures) }
        ensures cause { IfErr result (IsSettledFault (D.device self.old.dir)
            (D.device self.new.dir)) }
    {
        // The contract of `len` states that the keys are valid.
        let _ = self.graph.len();
        let text = self
            .content
            .saved_text(self.alloc, &self.absent, &self.graph, &self.tags)?;
        self.stated = None;
        match put_settled(self.alloc, &mut self.dir, &self.graph, from, &text) {
            Ok(()) => Ok(()),
            Err(fault) => Err(LayoutFault::from(fault)),
        }
    }
}
