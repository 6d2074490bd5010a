ghost use Rattle.std.specs.Prelude.{◌≡◌, ◌↔◌, ◌⊎◌, [], false, IsTrue, IfOk, OnOk, IfErr};
ghost use Rattle.std.specs.List.{All};
ghost use Rattle.oci_layout_store.specs.Blobs.{HasMatchingFiles, IsSound};
ghost use Rattle.oci_layout_store.specs.Created.{IsCreated, IsFree, IsNotFree, IsRefused};
ghost use Rattle.oci_layout_store.specs.Index.{empty_index_text};
ghost use Rattle.oci_layout_store.specs.Layout.{no_index};
ghost use Rattle.oci_layout_store.specs.Opened.{IsOpened};
ghost use Rattle.oci_layout_store.specs.Refusal.{IsOpenFault};
ghost use Rattle.oci_store.specs.Keyed.{has_key};

use crate::fault::LayoutFault;
use crate::layout::Layout;
use oci_dir::Dir;
use std::alloc::Global;

/// The index of an empty layout.
const EMPTY_INDEX: &[u8] =
    b"{\"manifests\":[],\"mediaType\":\"application/vnd.oci.image.index.v1+json\",\"schemaVersion\":2}";

impl<D: Dir> Layout<D> {
    /// Opens the layout in a directory, as [`open`](Layout::open) does. If there is no file
    /// `oci-layout`, creates an empty layout there, as [`create_if_free`](Layout::create_if_free)
    /// does.
    ///
    /// # Errors
    ///
    /// Those of `open`: the directory is then unchanged. 70 `NoLayoutFile` is returned only if
    /// there is no `oci-layout`, and an index that is not the one of an empty layout. Those of
    /// `create`: the directory is then as `create` left it.
    pub fn open_or_create(alloc: Global, dir: D) -> Result<Layout<D>, (D, LayoutFault)>
        ensures layout { IfOk result (λ layout. ((layout.dir ≡ dir)
            × ((D.device dir).is_honest → IsOpened (D.device dir).file layout.graph layout.tags
            layout.opened))
            ⊎ (IsCreated (D.device dir) (D.device layout.dir)
            × ((D.device dir).is_honest → IsFree (D.device dir).file)
            × (layout.graph ≡ []) × (layout.tags ≡ []) × (layout.opened ≡ no_index))) }
        ensures absent { IfOk result (λ layout. All (λ k. has_key layout.graph k ≡ false)
            layout.opened.absent) }
        ensures sound { IfOk result (λ layout. (D.device dir).is_honest
            → HasMatchingFiles (D.device layout.dir).file layout.graph
            → IsSound (D.device layout.dir).is_honest (D.device layout.dir).file layout.graph) }
        ensures refused { IfErr result (λ refused. ((refused.0 ≡ dir)
            × IsOpenFault (D.device dir) refused.1)
            ⊎ (IsOpenFault (D.device dir) LayoutFault.NoLayoutFile
            × IsRefused D.device dir refused)) }
        ensures taken { IfErr result (λ refused. refused.1 ≡ LayoutFault.NoLayoutFile
            → (D.device dir).is_honest → IsFree (D.device dir).file → ⊥) }
    {
        match Layout::open(alloc, dir) {
            Ok(layout) => Ok(layout),
            Err((dir, LayoutFault::NoLayoutFile)) => Layout::create_if_free(alloc, dir),
            Err(refused) => Err(refused),
        }
    }

    /// Creates an empty layout in a directory, as [`create`](Layout::create) does, if
    /// [`check_is_free`](Layout::check_is_free) allows it.
    ///
    /// # Errors
    ///
    /// Those of `check_is_free`: the directory is then unchanged. Those of `create`.
    pub fn create_if_free(alloc: Global, dir: D) -> Result<Layout<D>, (D, LayoutFault)>
        ensures created { IfOk result (λ layout. IsCreated (D.device dir) (D.device layout.dir)) }
        ensures free { OnOk result ((D.device dir).is_honest → IsFree (D.device dir).file) }
        ensures empty { IfOk result (λ layout. (layout.graph ≡ []) × (layout.tags ≡ [])
            × (layout.opened ≡ no_index)) }
        ensures refused { IfErr result (λ refused. ((refused.0 ≡ dir)
            × IsNotFree (D.device dir) refused.1)
            ⊎ IsRefused D.device dir refused) }
    {
        match Layout::check_is_free(&dir) {
            Ok(()) => Layout::create(alloc, dir),
            Err(fault) => Err((dir, fault)),
        }
    }

    /// Refuses a directory with an `index.json` that a creation would replace, such as a layout
    /// that lost its `oci-layout`. Does not look at that file. The index of an empty layout is
    /// allowed, since a killed `create` may leave it.
    ///
    /// # Errors
    ///
    /// - 70 `NoLayoutFile` if `index.json` is there, and is not the one of an empty layout.
    /// - 74 `Device` if it could not be read.
    /// - 76 `Memory` if memory runs out.
    #[tactic(auto, unfolding(crate::specs::Index::index_file))]
    pub fn check_is_free(dir: &D) -> Result<(), LayoutFault>
        ensures free { OnOk result ((D.device dir.now).is_honest → IsFree (D.device dir.now).file) }
        ensures cause { IfErr result (IsNotFree (D.device dir.now)) }
    {
        let Some(bytes) = dir.read("index.json")? else {
            return Ok(());
        };
        if is_empty_index(bytes.as_slice()) {
            return Ok(());
        }
        Err(LayoutFault::NoLayoutFile)
    }
}

/// Returns whether bytes are the index of an empty layout.
#[tactic(auto, unfolding(crate::specs::Index::empty_index_text))]
fn is_empty_index(bytes: &[u8]) -> bool
    ensures { IsTrue result ↔ (bytes.now ≡ empty_index_text) }
{
    bytes == EMPTY_INDEX
}
