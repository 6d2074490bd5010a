ghost use Rattle.std.specs.Prelude.{◌≡◌, ◌≢◌, ◌↔◌, ◌∷◌, ◌++◌, [], List, true, false, is_some, option_map, IfOk, OnOk, IfErr, MatchOption};
ghost use Rattle.std.specs.BTreeMap.{IsOrdered};
ghost use Rattle.std.specs.Cmp.Lexicographic.{slice_cmp};
ghost use Rattle.std.specs.List.{All};
ghost use Rattle.std.specs.Map.{keys_of};
ghost use Rattle.std.specs.Ordering.{nat_cmp};
ghost use Rattle.oci_digest.specs.Digest.{IsDigest};
ghost use Rattle.oci_manifest.specs.Descriptor.{Descriptor, IsKey};
ghost use Rattle.oci_store.specs.Content.{Entry};
ghost use Rattle.oci_store.specs.Keyed.{has_key};
ghost use Rattle.oci_store.specs.Tags.{Tags};
ghost use Rattle.oci_layout_store.specs.Blobs.{blob_path};
ghost use Rattle.oci_layout_store.specs.Keeps.{KeepsSettled};
ghost use Rattle.oci_dir.specs.Device.{Finds, Same, SameDevice};
ghost use Rattle.oci_layout_store.specs.Lasts.{Lasts};
ghost use Rattle.oci_layout_store.specs.Layout.{OnlyFile, OnlyFiles};
ghost use Rattle.oci_dir.specs.Prunable.{by_name, ListsFiles, Removes};
ghost use Rattle.oci_layout_store.specs.BlobFiles.{AreBlobs, IsDirFault, IsDraftNotRemoved, IsNotRemoved, Notes};

use crate::fault::LayoutFault;
use crate::layout::Layout;
use crate::layout::blob::blob_path;
use oci_digest::{Digest, NoMemory};
use oci_dir::PrunableDir;
use oci_store::Graph;
use std::alloc::Global;
use std::collections::BTreeMap;

impl<D: PrunableDir> Layout<D> {
    /// Returns the digests that files under `blobs` are named by, each with the length of its file
    /// in bytes, in byte order of the paths. Leaves out files with other names.
    ///
    /// # Errors
    ///
    /// - 74 `Device` if a folder could not be read.
    /// - 76 `Memory` if memory runs out.
    pub fn blobs(&self) -> Result<Vec<(Digest, u64)>, LayoutFault>
        ensures { Finds (D.device self.now.dir)
            (λ blobs. AreBlobs (D.device self.now.dir).file blobs.items)
            (IsDirFault (D.device self.now.dir)) result }
    {
        blobs_in(self.alloc, &self.dir)
    }

    /// Removes the file of a digest, unless a held key has the digest. Returns whether there was
    /// one.
    ///
    /// # Errors
    ///
    /// - 74 `Device` if it could not be removed.
    /// - 76 `Memory` if memory runs out.
    ///
    /// No file is then changed.
    pub fn remove_blob(&mut self, digest: &Digest) -> Result<bool, LayoutFault>
        ensures removed { OnOk result ((D.device self.old.dir).is_honest
            → All (λ k. k.digest ≢ digest.now) (keys_of self.old.graph)
            → Removes (D.device self.old.dir).file (D.device self.new.dir).file
            (blob_path digest.now)) }
        ensures found { IfOk result (λ found. (D.device self.old.dir).is_honest
            → All (λ k. k.digest ≢ digest.now) (keys_of self.old.graph)
            → found ≡ is_some ((D.device self.old.dir).file (blob_path digest.now))) }
        ensures kept { IfOk result (λ found. found ≡ true
            → All (λ k. k.digest ≢ digest.now) (keys_of self.old.graph)) }
        ensures held { (k : Descriptor) → has_key self.old.graph k ≡ true → k.digest ≡ digest.now
            → self.new ≡ self.old }
        ensures only { OnlyFile D.device self.old self.new (blob_path digest.now) }
        ensures settled { KeepsSettled (D.device self.old.dir) (D.device self.new.dir)
            self.old.graph }
        ensures lasts { (entries : List Entry) (tags : Tags)
            → All (λ e. e.0.digest ≢ digest.now) entries
            → Lasts (D.device self.old.dir) entries tags
            → Lasts (D.device self.new.dir) entries tags }
        ensures refused { IfErr result (IsNotRemoved (D.device self.old.dir)
            (D.device self.new.dir)) }
    {
        if is_held(&self.graph, digest) {
            return Ok(false);
        }
        let path = blob_path(self.alloc, digest)?;
        self.stated = None;
        match self.dir.remove(&path) {
            Ok(found) => Ok(found),
            Err(fault) => Err(LayoutFault::from(fault)),
        }
    }

    /// Returns the paths of the drafts that killed processes left, each with its length in bytes.
    /// Leaves out a draft that a process is still writing.
    ///
    /// # Errors
    ///
    /// - 74 `Device` if a folder or a draft could not be read.
    /// - 76 `Memory` if memory runs out.
    pub fn leftovers(&self) -> Result<Vec<(String, u64)>, LayoutFault>
        ensures { Finds (D.device self.now.dir)
            (λ drafts. ListsFiles (D.device self.now.dir).draft (by_name drafts.items))
            (IsDirFault (D.device self.now.dir)) result }
    {
        match self.dir.leftovers() {
            Ok(drafts) => Ok(drafts),
            Err(fault) => Err(LayoutFault::from(fault)),
        }
    }

    /// Removes the draft at a path that a killed process left. Returns false if there is none, or
    /// if a process is still writing it. Changes no file of the layout, whatever the result.
    ///
    /// # Errors
    ///
    /// - 74 `Device` if it could not be removed.
    /// - 76 `Memory` if memory runs out.
    ///
    /// No draft is then changed.
    pub fn remove_leftover(&mut self, path: &str) -> Result<bool, LayoutFault>
        ensures removed { OnOk result ((D.device self.old.dir).is_honest
            → Removes (D.device self.old.dir).draft (D.device self.new.dir).draft path.now) }
        ensures found { IfOk result (λ found. (D.device self.old.dir).is_honest
            → found ≡ is_some ((D.device self.old.dir).draft path.now)) }
        ensures files { (D.device self.old.dir).is_honest
            → Same (D.device self.old.dir).file (D.device self.new.dir).file }
        ensures only { OnlyFiles D.device self.old self.new }
        ensures device { SameDevice (D.device self.old.dir) (D.device self.new.dir) }
        ensures settled { KeepsSettled (D.device self.old.dir) (D.device self.new.dir)
            self.old.graph }
        ensures lasts { (entries : List Entry) (tags : Tags)
            → Lasts (D.device self.old.dir) entries tags
            → Lasts (D.device self.new.dir) entries tags }
        ensures refused { IfErr result (IsDraftNotRemoved (D.device self.old.dir)
            (D.device self.new.dir)) }
    {
        match self.dir.remove_draft(path) {
            Ok(found) => Ok(found),
            Err(fault) => Err(LayoutFault::from(fault)),
        }
    }

    /// Returns the first of `blobs`, `blobs/sha256` and `blobs/sha512` that is a link. Another
    /// layout may need the files that such a link leads to.
    ///
    /// # Errors
    ///
    /// - 74 `Device` if that could not be found out.
    /// - 76 `Memory` if memory runs out.
    pub fn linked(&self) -> Result<Option<&'static str>, LayoutFault>
        ensures { Finds (D.device self.now.dir)
            (λ found. option_map (λ path. path.now) found ≡ (D.device self.now.dir).link)
            (IsDirFault (D.device self.now.dir)) result }
    {
        match self.dir.linked() {
            Ok(linked) => Ok(linked),
            Err(fault) => Err(LayoutFault::from(fault)),
        }
    }
}

/// Returns whether a key of a graph has a digest.
fn is_held(graph: &Graph, digest: &Digest) -> bool
    ensures held { result ≡ false ↔ All (λ k. k.digest ≢ digest.now) (keys_of graph.now) }
    ensures keys { All IsKey (keys_of graph.now) }
    ensures digest { IsDigest digest.now }
{
    // The contracts of `len` and `algorithm` state that the keys and the digest are valid.
    let _ = graph.len();
    let _ = digest.algorithm();
    graph.least_with(digest).is_some()
}

/// Returns the digests that files are named by, each with the length of its file.
fn blobs_in<D: PrunableDir>(alloc: Global, dir: &D) -> Result<Vec<(Digest, u64)>, LayoutFault>
    ensures { Finds (D.device dir.now) (λ blobs. AreBlobs (D.device dir.now).file blobs.items)
        (IsDirFault (D.device dir.now)) result }
{
    let mut sizes = BTreeMap::new(alloc);
    let files = dir.list("blobs/sha256")?;
    note_blobs(alloc, "sha256:", &files, &mut sizes)?;
    let files = dir.list("blobs/sha512")?;
    note_blobs(alloc, "sha512:", &files, &mut sizes)?;
    let blobs = entries_of(alloc, &sizes)?;
    Ok(blobs)
}

/// Notes the digests that these files are named by, each with the length of its file.
fn note_blobs(
    alloc: Global,
    algorithm: &str,
    files: &[(String, u64)],
    sizes: &mut BTreeMap<Digest, u64>,
) -> Result<(), NoMemory>
    ensures { OnOk result (Notes algorithm.now (by_name files.now) sizes.old sizes.new) }
{
    for file in files {
        note_blob(alloc, algorithm, file, sizes)?;
    }
    Ok(())
}

/// Notes the digest that a file is named by, if it is, with the length of the file.
fn note_blob(
    alloc: Global,
    algorithm: &str,
    file: &(String, u64),
    sizes: &mut BTreeMap<Digest, u64>,
) -> Result<(), NoMemory>
    ensures { OnOk result (Notes algorithm.now (by_name (file.now ∷ [])) sizes.old sizes.new) }
{
    let Some(digest) = digest_named(alloc, algorithm, file.0.as_str())? else {
        return Ok(());
    };
    sizes.insert(digest, file.1)?;
    Ok(())
}

/// Returns the digest by an algorithm whose encoded part is the name of a file.
fn digest_named(alloc: Global, algorithm: &str, name: &str) -> Result<Option<Digest>, NoMemory>
    ensures { IfOk result (λ found. MatchOption found (IsDigest (algorithm.now ++ name.now) → ⊥)
        (λ digest. IsDigest digest × (digest ≡ algorithm.now ++ name.now))) }
{
    let text = format!(in alloc; "{algorithm}{name}")?;
    match Digest::parse(&text) {
        Ok(digest) => Ok(Some(digest)),
        Err(_) => Ok(None),
    }
}

/// Returns the entries of a map, in key order.
fn entries_of(alloc: Global, sizes: &BTreeMap<Digest, u64>) -> Result<Vec<(Digest, u64)>, NoMemory>
    ensures exact { IfOk result (λ blobs. blobs.items ≡ sizes.now.entries) }
    ensures order { IsOrdered (slice_cmp nat_cmp) sizes.now }
{
    let mut entries = Vec::new(alloc);
    for (digest, size) in sizes.iter() {
        entries.push((*digest, *size))?;
    }
    Ok(entries)
}
