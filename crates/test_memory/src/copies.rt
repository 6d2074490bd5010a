use crate::line::Line;
use crate::stores::{Graph, by_three, destination_with};
use oci_copy::{CopyFault, Report, copy_graph, copy_one, extended_copy_graph};
use oci_pool::NoHooks;
use oci_store::ClosedStore;
use std::alloc::Global;
use std::slice;
use std::sync::Wait;
use std::test::Fail;
use std::thread::Threads;
use test_support::Sample::{
    Bar, Empty, Foo, FooBySha512, Image2, Image3, Index1, Index3, Index4, Referrer,
};
use test_support::{Sample, gives_sample};

/// The content of the destination before the copy; no manifest lists it.
const OLD: Sample = FooBySha512;

#[derive(Clone, Copy)]
pub(crate) enum Call {
    One,
    Workers,
    Referrers,
}

impl Call {
    /// Returns the contents of the source, and the root of the copy.
    fn samples(self) -> ([Sample; 6], Sample) {
        match self {
            Call::One | Call::Workers => ([Empty, Foo, Bar, Image2, Image3, Index1], Index1),
            Call::Referrers => ([Empty, Foo, Image2, Referrer, Index3, Index4], Image2),
        }
    }

    fn copy<R: Threads + Wait + Sync>(
        self,
        rt: &R,
        alloc: Global,
        graph: &Graph,
        store: ClosedStore,
    ) -> (ClosedStore, Result<Report, CopyFault>) {
        let Graph { source, root } = graph;
        let (roots, by) = (slice::from_ref(root), by_three());
        match self {
            Call::One => copy_one(alloc, source, store, roots, &by),
            Call::Workers => copy_graph(rt, alloc, source, store, roots, &by, &NoHooks),
            Call::Referrers => {
                extended_copy_graph(rt, alloc, source, root, 1, store, &by, &NoHooks)
            }
        }
    }
}

/// Copies into a closed store with an old entry, twice.
pub(crate) fn copied_twice<R: Threads + Wait + Sync>(
    rt: &R,
    alloc: Global,
    call: Call,
    line: &mut Line,
) -> Result<(), Fail> {
    let (samples, root) = call.samples();
    let graph = Graph::of(alloc, &samples, root)?;
    let store = copied(rt, alloc, call, &graph, destination_with(alloc, OLD)?, line)?;
    copied(rt, alloc, call, &graph, store, line)?;
    Ok(())
}

/// Runs the copy, and reports the state of the destination afterwards.
fn copied<R: Threads + Wait + Sync>(
    rt: &R,
    alloc: Global,
    call: Call,
    graph: &Graph,
    store: ClosedStore,
    line: &mut Line,
) -> Result<ClosedStore, Fail> {
    let store = made(rt, alloc, call, graph, store, line);
    line.old(gives_sample(alloc, &store, OLD)?);
    Ok(store)
}

/// Runs the copy, and reports its result.
fn made<R: Threads + Wait + Sync>(
    rt: &R,
    alloc: Global,
    call: Call,
    graph: &Graph,
    store: ClosedStore,
    line: &mut Line,
) -> ClosedStore {
    let (store, answer) = call.copy(rt, alloc, graph, store);
    line.copy(&answer, &store);
    store
}
