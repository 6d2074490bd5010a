//! Copies of many layers and of long chains, on one thread and by workers.

use crate::tests::calls::{EACH, Run, Workers, left};
use oci_manifest::Key;
use oci_plan::Existing;
use oci_store::MemoryStore;
use std::alloc::Global;
use std::process::Abort;
use std::slice;
use std::sync::Wait;
use std::test::Fail;
use std::thread::Threads;
use test_support::Sample::Empty;
use test_support::{Content, LAYER, gives, index, memory, put_chain, put_content};

/// The store has each entry of another.
fn has_all(store: &MemoryStore, other: &MemoryStore) -> bool {
    for place in 0..other.len() {
        let Some((key, bytes)) = other.entry(place) else {
            return false;
        };
        if !gives(store, key, bytes) {
            return false;
        }
    }
    true
}

/// Puts the entry at a place of a store into another.
fn put_entry(from: &MemoryStore, place: usize, to: &mut MemoryStore) -> Result<(), Fail> {
    if let Some((key, bytes)) = from.entry(place) {
        to.push(key, bytes.clone()?)?;
    }
    Ok(())
}

/// Returns the store into which a copy is made: an empty one, or for a copy that descends one with
/// all entries of the source except every third.
fn opening(alloc: Global, source: &MemoryStore, existing: Existing) -> Result<MemoryStore, Fail> {
    let mut store = MemoryStore::new(alloc);
    for place in 0..source.len() {
        if existing == Existing::Descend && place % 3 != 0 {
            put_entry(source, place, &mut store)?;
        }
    }
    Ok(store)
}

/// A large copy of all that a source has, and its report.
#[derive(Clone, Copy)]
struct Large<'a> {
    name: &'a str,
    existing: Existing,
    workers: &'a [Workers],
    told: &'a str,
}

/// The copy by this number of workers brings all.
fn assert_large_by<R: AllocGlobal + Threads + Wait + Sync + Abort>(
    rt: &R,
    source: &MemoryStore,
    root: &Key,
    copy: &Large<'_>,
    run: Run<'_>,
) -> Result<(), Fail> {
    let (opening, by) = (
        opening(rt.alloc(), source, copy.existing)?,
        (run, copy.existing),
    );
    let store = left(rt, source, opening, slice::from_ref(root), by, &[copy.told])?;
    assert!(rt;
        store.len() == source.len() && has_all(&store, source),
        "{run}"
    );
    Ok(())
}

/// The copy by each of its numbers of workers brings all.
fn assert_large<R: AllocGlobal + Threads + Wait + Sync + Abort>(
    rt: &R,
    source: &MemoryStore,
    root: &Key,
    copy: &Large<'_>,
) -> Result<(), Fail> {
    for workers in copy.workers {
        let (name, workers) = (copy.name, *workers);
        assert_large_by(rt, source, root, copy, Run { name, workers })?;
    }
    Ok(())
}

/// The copies of a chain, in which only one key at a time can be pushed.
fn assert_chain<R: AllocGlobal + Threads + Wait + Sync + Abort>(
    rt: &R,
    source: &mut MemoryStore,
    copy: &Large<'_>,
) -> Result<(), Fail> {
    let root = put_chain(rt.alloc(), source, 3_000)?;
    assert_large(rt, source, &root, copy)
}

#[test]
fn long_chain(rt: HostRuntime) -> Result<(), Fail> {
    static COPY: Large<'static> = Large {
        name: "a long chain",
        existing: Existing::Skip,
        workers: &[None, Some(3)],
        told: "planned 3001 pushed 3001 skipped 0",
    };
    assert_chain(&rt, &mut memory(rt.alloc(), &[Empty])?, &COPY)
}

/// The destination lacks every third content of the chain, the last image included.
#[test]
fn long_chain_with_holes(rt: HostRuntime) -> Result<(), Fail> {
    static COPY: Large<'static> = Large {
        name: "a long chain with holes",
        existing: Existing::Descend,
        workers: &EACH,
        told: "planned 1001 pushed 1001 skipped 0",
    };
    assert_chain(&rt, &mut memory(rt.alloc(), &[Empty])?, &COPY)
}

/// Puts the layer whose bytes are a number in decimal into the store, and returns its descriptor.
fn put_layer(alloc: Global, store: &mut MemoryStore, number: u32) -> Result<String, Fail> {
    let layer = Content {
        media_type: LAYER,
        bytes: format!(in alloc; "{number}")?,
    };
    let descriptor = layer.descriptor(alloc)?;
    put_content(alloc, store, layer)?;
    Ok(descriptor)
}

/// Puts layers into the store, and returns the list of their descriptors.
fn put_layers(alloc: Global, store: &mut MemoryStore, count: u32) -> Result<String, Fail> {
    let mut list = String::new(alloc);
    for number in 0..count {
        list.push_str(if number == 0 { "" } else { "," })?;
        list.push_str(put_layer(alloc, store, number)?.as_str())?;
    }
    Ok(list)
}

/// Puts layers and their index into the store, and returns the key of the index.
fn put_index(alloc: Global, store: &mut MemoryStore, count: u32) -> Result<Key, Fail> {
    let list = put_layers(alloc, store, count)?;
    put_content(alloc, store, index(alloc, list.as_str())?)
}

/// The copies of an index.
fn assert_index<R: AllocGlobal + Threads + Wait + Sync + Abort>(
    rt: &R,
    source: &mut MemoryStore,
    copy: &Large<'_>,
) -> Result<(), Fail> {
    let root = put_index(rt.alloc(), source, 5_000)?;
    assert_large(rt, source, &root, copy)
}

/// An index: all keys except one can be pushed at once.
#[test]
fn wide_index(rt: HostRuntime) -> Result<(), Fail> {
    static COPY: Large<'static> = Large {
        name: "a wide index",
        existing: Existing::Skip,
        workers: &[None, Some(1), Some(64)],
        told: "planned 5001 pushed 5001 skipped 0",
    };
    assert_index(&rt, &mut MemoryStore::new(rt.alloc()), &COPY)
}
