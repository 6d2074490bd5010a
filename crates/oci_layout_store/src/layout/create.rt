ghost use Rattle.std.specs.Prelude.{◌≡◌, ◌∷◌, [], map, string_bytes, OnOk, IfOk, IfErr};
ghost use Rattle.std.specs.List.{All};
ghost use Rattle.oci_dir.specs.Crash.{IsSettled};
ghost use Rattle.oci_layout_store.specs.Created.{IsCreated, IsFresh, IsRefused};
ghost use Rattle.oci_dir.specs.Device.{TouchesTwo};
ghost use Rattle.oci_layout_store.specs.Index.{layout_file, index_file};
ghost use Rattle.oci_layout_store.specs.Layout.{no_index};
ghost use Rattle.oci_layout_store.specs.Settled.{AfterSettling, PutsSettled};
ghost use Rattle.oci_store.specs.Tags.{AreNames};

use crate::fault::LayoutFault;
use crate::index::IndexContent;
use crate::layout::Layout;
use crate::layout::held::Held;
use crate::layout::settle::{both_paths, layout_path};
use crate::opened_index::OpenedIndex;
use oci_dir::{Dir, DirFault};
use oci_store::{Graph, Tags};
use std::alloc::Global;

impl<D: Dir> Layout<D> {
    /// Creates an empty layout in a directory: puts `oci-layout`, and then an `index.json` without
    /// entries, and waits until each is on the disk. A power cut leaves each with its old bytes or
    /// all of the new ones.
    ///
    /// Two processes may both find no `oci-layout` in a folder. The later one then empties the
    /// other's index, unless each holds the folder's `FolderLock` from before
    /// this call until after [`save`](Layout::save).
    ///
    /// # Errors
    ///
    /// Returns the directory with the fault:
    ///
    /// - 78 `AlreadyLayout` if it has a file `oci-layout`. The directory is unchanged.
    /// - 74 `Device` if it could not be read or written, or could not say that a file is on the
    ///   disk.
    /// - 76 `Memory` if memory runs out.
    ///
    /// After 74 and 76 the two files may have any bytes. No other file is changed.
    #[tactic(auto, unfolding(crate::specs::Index::layout_file))]
    pub fn create(alloc: Global, mut dir: D) -> Result<Layout<D>, (D, LayoutFault)>
        ensures created { IfOk result (λ layout. IsCreated (D.device dir) (D.device layout.dir)) }
        ensures empty { IfOk result (λ layout. (layout.graph ≡ []) × (layout.tags ≡ [])
            × (layout.opened ≡ no_index)) }
        ensures refused { IfErr result (IsRefused D.device dir) }
    {
        match dir.exists("oci-layout") {
            Ok(false) => {}
            Ok(true) => return Err((dir, LayoutFault::AlreadyLayout)),
            Err(fault) => return Err((dir, LayoutFault::from(fault))),
        }
        if let Err(fault) = put_files(alloc, &mut dir) {
            return Err((dir, LayoutFault::from(fault)));
        }
        let (held, tags) = (Held::none(alloc), Tags::new(alloc));
        Ok(Layout::of(alloc, dir, held, tags, OpenedIndex::none(alloc)))
    }

    /// Returns the layout with these keys as its held ones. The directory need not have their files:
    /// this is for a caller that lets a [`save`](Layout::save) write the index of a layout, and
    /// writes the files of its blobs to another place. It no longer
    /// remembers what its manifests [state](Layout::subjects).
    pub fn holding(self, graph: Graph) -> Layout<D>
        requires { AreNames graph self.tags }
        ensures { result ≡ record self { graph = graph } }
    {
        let Layout {
            alloc,
            dir,
            graph: _graph,
            stated: _stated,
            tags,
            absent,
            damaged,
            content,
        } = self;
        Layout {
            alloc,
            dir,
            graph,
            stated: None,
            tags,
            absent,
            damaged,
            content,
        }
    }
}

/// Puts the two files of an empty layout, `oci-layout` first, and settles them.
#[tactic(auto, unfolding(crate::specs::Index::layout_file, crate::specs::Index::layout_text, crate::specs::Index::index_file))]
fn put_files<D: Dir>(alloc: Global, dir: &mut D) -> Result<(), DirFault>
    ensures files { OnOk result ((D.device dir.old).is_honest → IsFresh (D.device dir.new).file) }
    ensures settled { OnOk result ((D.device dir.old).is_honest
        → All (IsSettled (D.device dir.new)) (layout_file ∷ index_file ∷ [])) }
    ensures other { (D.device dir.old).is_honest
        → TouchesTwo (D.device dir.old).file (D.device dir.new).file layout_file index_file }
    ensures device { AfterSettling (D.device dir.old) (D.device dir.new) result }
{
    let first = layout_path(alloc)?;
    let both = both_paths(alloc)?;
    let index = IndexContent::empty_text(alloc)?;
    put_settled(
        dir,
        "oci-layout",
        b"{\"imageLayoutVersion\":\"1.0.0\"}",
        &first,
    )?;
    put_settled(dir, "index.json", &index, &both)
}

/// Puts a file, and then settles files.
fn put_settled<D: Dir>(
    dir: &mut D,
    path: &str,
    bytes: &[u8],
    paths: &[String],
) -> Result<(), DirFault>
    ensures { PutsSettled (D.device dir.old) (D.device dir.new) path.now bytes.now
        (map string_bytes paths.now) result }
{
    dir.put(path, bytes)?;
    dir.settle(paths)
}
