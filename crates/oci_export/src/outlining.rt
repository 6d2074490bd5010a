ghost use Rattle.std.specs.Prelude.{◌≡◌, [], ◌∷◌, IfErr, IfOk, OnOk};
ghost use Rattle.std.specs.List.{All};
ghost use Rattle.oci_layout_store.specs.Created.{IsFresh};
ghost use Rattle.oci_layout_store.specs.Index.{HasLayoutFile};
ghost use Rattle.oci_layout_store.specs.Layout.{no_index};
ghost use Rattle.oci_store.specs.Keyed.{HasAll};
ghost use Rattle.oci_export.specs.Export.{IsHeldOf, IsListed};
ghost use Rattle.oci_export.specs.Refusal.{IsListFault};

use crate::fault::ExportFault;
use oci_dir::{Dir, MemDir};
use oci_layout_store::Layout;
use oci_manifest::Key;
use oci_store::{FetchFault, Graph, GraphSource};
use std::alloc::Global;

/// Creates a layout in memory that holds these keys, such as those of a plan, each with the keys that
/// the source says it lists. It has none of their files: it is for
/// [`write_archive`](crate::write_archive) and [`save_archive`](crate::save_archive), after its tags
/// are set and it is saved. A save enters each held manifest into the index: for an index of fewer
/// keys, outline and save these, and then let the layout [hold](Layout::holding) the
/// [graph](graph_of) of all keys whose blobs are to be written.
///
/// # Errors
///
/// - 88 `Fetch` with 20 `NotFound` for a key that the source does not have.
/// - Out of memory.
pub fn outline<S: GraphSource>(
    alloc: Global,
    source: &S,
    keys: &[Key],
) -> Result<Layout<MemDir>, ExportFault>
    ensures held { IfOk result (λ layout. HasAll layout.graph keys.now) }
    ensures listed { IfOk result (λ layout. All (IsListed (S.state source.now) keys.now)
        layout.graph) }
    ensures tags { IfOk result (λ layout. layout.tags ≡ []) }
    ensures opened { IfOk result (λ layout. layout.opened ≡ no_index) }
    ensures fresh { IfOk result (λ layout. IsFresh (⟦<MemDir as Dir>⟧.device layout.dir).file) }
    ensures version { IfOk result
        (λ layout. HasLayoutFile (⟦<MemDir as Dir>⟧.device layout.dir).file) }
    ensures refused { IfErr result (IsListFault (S.state source.now) keys.now) }
{
    let graph = graph_of(alloc, source, keys)?;
    match Layout::create(alloc, MemDir::new(alloc)) {
        Ok(layout) => Ok(layout.holding(graph)),
        // (a directory in memory that has no fuse fails only where memory runs out)
        Err(_) => Err(ExportFault::Memory),
    }
}

/// Returns the graph of these keys of a source: each with the keys that the source says it lists.
///
/// # Errors
///
/// - 88 `Fetch` with 20 `NotFound` for a key that the source does not have.
/// - Out of memory.
pub fn graph_of<S: GraphSource>(
    alloc: Global,
    source: &S,
    keys: &[Key],
) -> Result<Graph, ExportFault>
    ensures held { IfOk result (λ graph. HasAll graph keys.now) }
    ensures listed { IfOk result (All (IsListed (S.state source.now) keys.now)) }
    ensures refused { IfErr result (IsListFault (S.state source.now) keys.now) }
{
    let mut graph = Graph::new(alloc);
    for key in keys {
        hold(source, key, &mut graph)?;
    }
    Ok(graph)
}

/// Adds a key of a source to a graph, unless that has it.
fn hold<S: GraphSource>(source: &S, key: &Key, graph: &mut Graph) -> Result<(), ExportFault>
    ensures held { OnOk result (IsHeldOf (S.state source.now) key.now graph.old graph.new) }
    ensures refused { IfErr result (IsListFault (S.state source.now) (key.now ∷ [])) }
{
    if graph.holds(key) {
        return Ok(());
    }
    match source.successors(key)? {
        Some(listed) => Ok(graph.push(key, listed)?),
        None => Err(ExportFault::Fetch(key.try_clone()?, FetchFault::NotFound)),
    }
}
