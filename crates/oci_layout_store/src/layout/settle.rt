ghost use Rattle.std.specs.Prelude.{◌≡◌, ◌∷◌, [], List, drop, map, string_bytes, IfOk, IfErr, OnOk};
ghost use Rattle.std.specs.List.{All};
ghost use Rattle.oci_layout_store.specs.Blobs.{blob_path};
ghost use Rattle.oci_dir.specs.Crash.{IsReplaced, IsSettled, OnlySettles};
ghost use Rattle.oci_layout_store.specs.Index.{index_file, layout_file};
ghost use Rattle.oci_layout_store.specs.Lasts.{Lasts};
ghost use Rattle.oci_layout_store.specs.Layout.{SameMemory};
ghost use Rattle.oci_layout_store.specs.Refusal.{IsSettledFault};
ghost use Rattle.oci_layout_store.specs.Settled.{IsSaved, SettlesFiles, paths_of};
ghost use Rattle.oci_store.specs.Content.{Entry};
ghost use Rattle.oci_store.specs.Tags.{Tags};

use crate::fault::LayoutFault;
use crate::layout::Layout;
use crate::layout::blob::blob_path;
use oci_digest::NoMemory;
use oci_dir::{Dir, DirFault};
use oci_store::Graph;
use std::alloc::Global;

impl<D: Dir> Layout<D> {
    /// Waits until the files of the keys from place `from` on are on the disk, with `oci-layout`. A
    /// later [`save_settled`](Layout::save_settled) need not wait for them. Changes nothing.
    ///
    /// # Errors
    ///
    /// - 74 `Device` if the directory could not say so.
    /// - 76 `Memory` if memory runs out.
    pub fn settle_blobs(&mut self, from: usize) -> Result<(), LayoutFault>
        ensures settled { OnOk result ((D.device self.old.dir).is_honest
            → All (λ n. IsSettled (D.device self.new.dir) (blob_path n.0.digest))
            (drop from self.old.graph)) }
        ensures layout { OnOk result ((D.device self.old.dir).is_honest
            → IsSettled (D.device self.new.dir) layout_file) }
        ensures lasts { (entries : List Entry) (tags : Tags)
            → Lasts (D.device self.old.dir) entries tags
            → Lasts (D.device self.new.dir) entries tags }
        ensures only { OnlySettles (D.device self.old.dir) (D.device self.new.dir) }
        ensures memory { SameMemory self.old self.new }
        ensures cause { IfErr result (IsSettledFault (D.device self.old.dir)
            (D.device self.new.dir)) }
    {
        match settle_files(self.alloc, &mut self.dir, &self.graph, from) {
            Ok(()) => Ok(()),
            Err(fault) => Err(LayoutFault::from(fault)),
        }
    }

    /// Waits until `oci-layout` and `index.json` are on the disk, as they are now. A process that
    /// was killed may have replaced them shortly before the layout was opened. Changes nothing.
    ///
    /// # Errors
    ///
    /// - 74 `Device` if the directory could not say so.
    /// - 76 `Memory` if memory runs out.
    pub fn settle_index(&mut self) -> Result<(), LayoutFault>
        ensures settled { OnOk result ((D.device self.old.dir).is_honest
            → IsSettled (D.device self.new.dir) layout_file
            × IsSettled (D.device self.new.dir) index_file) }
        ensures lasts { (entries : List Entry) (tags : Tags)
            → Lasts (D.device self.old.dir) entries tags
            → Lasts (D.device self.new.dir) entries tags }
        ensures only { OnlySettles (D.device self.old.dir) (D.device self.new.dir) }
        ensures memory { SameMemory self.old self.new }
        ensures cause { IfErr result (IsSettledFault (D.device self.old.dir)
            (D.device self.new.dir)) }
    {
        let paths = both_paths(self.alloc)?;
        match self.dir.settle(&paths) {
            Ok(()) => Ok(()),
            Err(fault) => Err(LayoutFault::from(fault)),
        }
    }
}

/// Settles `oci-layout` and the files of the keys from a place on, and then replaces the index and
/// settles it.
pub(crate) fn put_settled<D: Dir>(
    alloc: Global,
    dir: &mut D,
    graph: &Graph,
    from: usize,
    text: &[u8],
) -> Result<(), DirFault>
    ensures { IsSaved (D.device dir.old) (D.device dir.new) (drop from graph.now) text.now result }
{
    let index = index_path(alloc)?;
    settle_files(alloc, dir, graph, from)?;
    replace_index(dir, text)?;
    dir.settle(&index)
}

/// Replaces the index.
#[tactic(auto, unfolding(crate::specs::Index::index_file))]
fn replace_index<D: Dir>(dir: &mut D, text: &[u8]) -> Result<(), DirFault>
    ensures { IsReplaced (D.device dir.old) (D.device dir.new) index_file text.now result }
{
    dir.replace("index.json", text)
}

/// Settles `oci-layout` and the files of the keys from a place on.
fn settle_files<D: Dir>(
    alloc: Global,
    dir: &mut D,
    graph: &Graph,
    from: usize,
) -> Result<(), DirFault>
    ensures { SettlesFiles (D.device dir.old) (D.device dir.new) (drop from graph.now) result }
{
    let paths = paths_from(alloc, graph, from)?;
    dir.settle(&paths)
}

/// Returns the paths of `oci-layout` and of the files of the keys from a place on.
fn paths_from(alloc: Global, graph: &Graph, from: usize) -> Result<Vec<String>, NoMemory>
    ensures { IfOk result (λ paths. map string_bytes paths.items
        ≡ paths_of (drop from graph.now)) }
{
    let mut paths = layout_path(alloc)?;
    for place in from..graph.len() {
        let Some(key) = graph.key(place) else {
            unreachable!();
        };
        paths.push(blob_path(alloc, key.digest())?)?;
    }
    Ok(paths)
}

/// Returns the path of `oci-layout`.
#[tactic(auto, unfolding(crate::specs::Index::layout_file))]
pub(crate) fn layout_path(alloc: Global) -> Result<Vec<String>, NoMemory>
    ensures { IfOk result (λ paths. map string_bytes paths.items ≡ layout_file ∷ []) }
{
    let mut paths = Vec::new(alloc);
    paths.push(String::from_str(alloc, "oci-layout")?)?;
    Ok(paths)
}

/// Returns the path of the index.
#[tactic(auto, unfolding(crate::specs::Index::index_file))]
fn index_path(alloc: Global) -> Result<Vec<String>, NoMemory>
    ensures { IfOk result (λ paths. map string_bytes paths.items ≡ index_file ∷ []) }
{
    let mut paths = Vec::new(alloc);
    paths.push(String::from_str(alloc, "index.json")?)?;
    Ok(paths)
}

/// Returns the paths of `oci-layout` and of the index.
#[tactic(auto, unfolding(crate::specs::Index::layout_file, crate::specs::Index::index_file))]
pub(crate) fn both_paths(alloc: Global) -> Result<Vec<String>, NoMemory>
    ensures { IfOk result (λ paths. map string_bytes paths.items
        ≡ layout_file ∷ index_file ∷ []) }
{
    let mut paths = Vec::new(alloc);
    paths.push(String::from_str(alloc, "oci-layout")?)?;
    paths.push(String::from_str(alloc, "index.json")?)?;
    Ok(paths)
}
