ghost use Rattle.std.specs.Prelude.{◌≡◌, true, take, filter, ◌+◌, IfOk, OnOk, OnErr};
ghost use Rattle.std.specs.BTreeSet.{contains};
ghost use Rattle.std.specs.List.{All};
ghost use Rattle.std.specs.Map.{values_of};
ghost use Rattle.oci_manifest.specs.Descriptor.{key_cmp};
ghost use Rattle.oci_store.specs.Keyed.{HasDistinctKeys};

use crate::layout::Layout;
use oci_digest::NoMemory;
use oci_dir::Dir;
use oci_manifest::Key;
use oci_store::{Graph, Store};
use std::alloc::Global;
use std::collections::BTreeSet;

impl<D: Dir> Layout<D> {
    /// Drops all keys but these from the layout. Their files stay, and so does `index.json` until
    /// the next [`save`](Layout::save). A key with a tag must be kept.
    ///
    /// # Errors
    ///
    /// `NoMemory` if memory runs out. The layout is then unchanged.
    pub fn retain(&mut self, kept: &BTreeSet<Key>) -> Result<(), NoMemory>
        requires tagged { All (λ k. contains key_cmp kept.now k ≡ true) (values_of self.old.tags) }
        ensures retained { OnOk result (self.new.graph
            ≡ filter (λ n. contains key_cmp kept.now n.0) self.old.graph) }
        ensures refused { OnErr result (self.new ≡ self.old) }
        ensures dir { self.new.dir ≡ self.old.dir }
        ensures tags { self.new.tags ≡ self.old.tags }
        ensures opened { self.new.opened ≡ self.old.opened }
        ensures sound { (⟦<Self as Store>⟧.state self.old).is_sound
            → (⟦<Self as Store>⟧.state self.new).is_sound }
    {
        self.graph = retained(self.alloc, &self.graph, kept)?;
        self.stated = None;
        Ok(())
    }
}

/// Returns the graph of the keys that are kept, in their order.
fn retained(alloc: Global, graph: &Graph, kept: &BTreeSet<Key>) -> Result<Graph, NoMemory>
    ensures { IfOk result (λ rest. rest ≡ filter (λ n. contains key_cmp kept.now n.0) graph.now) }
{
    let mut rest = Graph::new(alloc);
    for place in 0..graph.len() {
        retain_at(alloc, graph, place, kept, &mut rest)?;
    }
    Ok(rest)
}

/// Adds the key at a place to the rest of a graph if it is kept.
fn retain_at(
    alloc: Global,
    graph: &Graph,
    place: usize,
    kept: &BTreeSet<Key>,
    rest: &mut Graph,
) -> Result<(), NoMemory>
    requires distinct { HasDistinctKeys graph.now }
    requires before { rest.old
        ≡ filter (λ n. contains key_cmp kept.now n.0) (take place graph.now) }
    ensures { OnOk result (rest.new
        ≡ filter (λ n. contains key_cmp kept.now n.0) (take (place + 1) graph.now)) }
{
    let Some(key) = graph.key(place) else {
        return Ok(());
    };
    let Some(successors) = graph.successors(place) else {
        return Ok(());
    };
    if !kept.contains(key) {
        return Ok(());
    }
    rest.push(key, copies(alloc, successors)?)?;
    Ok(())
}

/// Returns equal keys.
fn copies(alloc: Global, keys: &[Key]) -> Result<Vec<Key>, NoMemory>
    ensures { IfOk result (λ copies. copies.items ≡ keys.now) }
{
    let mut copies = Vec::new(alloc);
    for key in keys {
        copies.push(key.try_clone()?)?;
    }
    Ok(copies)
}
