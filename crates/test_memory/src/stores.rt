//! The stores at the start of a run.
use oci_copy::Options;
use oci_manifest::Key;
use oci_store::{ClosedStore, MemoryStore};
use std::alloc::Global;
use std::test::Fail;
use test_support::{Sample, closed, memory};

/// A graph to copy: its root, and a store with all its contents.
#[derive(Drop)]
pub(crate) struct Graph {
    pub(crate) source: MemoryStore,
    pub(crate) root: Key,
}

impl Graph {
    /// Creates a graph of all these samples.
    pub(crate) fn of(alloc: Global, samples: &[Sample], root: Sample) -> Result<Graph, Fail> {
        let source = source_of(alloc, samples)?;
        Ok(Graph {
            source,
            root: root.key(alloc)?,
        })
    }
}

/// Returns a store with all these samples.
fn source_of(alloc: Global, samples: &[Sample]) -> Result<MemoryStore, Fail> {
    let store = memory(alloc, samples)?;
    if store.len() == samples.len() {
        Ok(store)
    } else {
        Err(Fail::from("no memory for the source"))
    }
}

/// Returns a destination with this sample.
pub(crate) fn destination_with(alloc: Global, old: Sample) -> Result<ClosedStore, Fail> {
    let store = closed(alloc, &[old])?;
    if store.memory().len() == 1 {
        Ok(store)
    } else {
        Err(Fail::from("no memory for the destination"))
    }
}

/// Returns the options for a copy by three workers.
pub(crate) fn by_three() -> Options {
    Options {
        workers: 3,
        ..Options::default()
    }
}
