use crate::tests::stores::{by, has, live, numbers};
use oci_copy::{CopyFault, Report, copy_graph, copy_one, extended_copy_graph};
use oci_live::LiveStore;
use oci_manifest::Key;
use oci_pool::NoHooks;
use oci_store::{MemoryStore, Source};
use std::alloc::Global;
use std::process::Abort;
use std::slice;
use std::sync::Wait;
use std::test::Fail;
use std::thread::Threads;
use test_support::Sample::{Bar, Empty, Foo, Image2, Image3, Index1, Index3, Index4, Referrer};
use test_support::{Device, Sample, memory, on_device};

/// The images, and the contents that they reach.
const IMAGES: [Sample; 6] = [Empty, Foo, Bar, Image2, Image3, Index1];

/// An image, its referrers, and their referrers.
const REFERRERS: [Sample; 6] = [Empty, Foo, Image2, Referrer, Index3, Index4];

/// One kind of copy.
#[derive(Clone, Copy, Debug)]
enum Call {
    /// A copy on the calling thread.
    One,
    /// A copy by this number of workers.
    Graph(u32),
}

/// The kinds of copies of the images.
const CALLS: [Call; 5] = [
    Call::Graph(1),
    Call::Graph(3),
    Call::Graph(64),
    Call::Graph(0),
    Call::One,
];

/// Runs one of the copies.
fn copied<A: Source + Sync, R: Threads + Wait + Sync + Send + Copy + Drop>(
    rt: &R,
    alloc: Global,
    source: &A,
    root: &Key,
    live: LiveStore<R>,
    call: Call,
) -> (LiveStore<R>, Result<Report, CopyFault>) {
    let roots = slice::from_ref(root);
    match call {
        Call::One => copy_one(alloc, source, live, roots, &by(0)),
        Call::Graph(workers) => copy_graph(rt, alloc, source, live, roots, &by(workers), &NoHooks),
    }
}

/// Returns whether a copy into an empty live store copied exactly these samples.
fn brought<R: Wait + Drop>(
    alloc: Global,
    live: &LiveStore<R>,
    copied: Result<Report, CopyFault>,
    samples: &[Sample],
) -> Result<bool, Fail> {
    let count = samples.len() as u64;
    Ok(numbers(copied) == Some([count, count, 0]) && has(alloc, live, samples)?)
}

/// Returns whether one kind of copy copies exactly the images from a store into an empty live
/// store.
fn arrive<A: Source + Sync, R: Threads + Wait + Sync + Send + Copy + Drop>(
    rt: &R,
    alloc: Global,
    source: &A,
    call: Call,
) -> Result<bool, Fail> {
    let root = Index1.key(alloc)?;
    let empty = live(alloc, *rt, &[])?;
    let (live, copied) = copied(rt, alloc, source, &root, empty, call);
    brought(alloc, &live, copied, &IMAGES)
}

fn assert_arrive<A: Source + Sync, R: Threads + Wait + Abort + Sync + Send + Copy + Drop>(
    rt: &R,
    alloc: Global,
    source: &A,
) -> Result<(), Fail> {
    for call in &CALLS {
        assert!(rt; arrive(rt, alloc, source, *call)?, "row {call:?}");
    }
    Ok(())
}

/// Returns whether a copy fails because of its number of workers, and leaves a live store with a
/// layer unchanged.
fn is_refused<R: Threads + Wait + Sync + Send + Copy + Drop>(
    rt: &R,
    alloc: Global,
    source: &MemoryStore,
    workers: u32,
) -> Result<bool, Fail> {
    let root = Index1.key(alloc)?;
    let before = live(alloc, *rt, &[Foo])?;
    let (after, copied) = copied(rt, alloc, source, &root, before, Call::Graph(workers));
    Ok(matches!(copied, Err(CopyFault::BadWorkers)) && has(alloc, &after, &[Foo])?)
}

#[test]
fn two_images(rt: HostRuntime) -> Result<(), Fail> {
    let source = memory(rt.alloc(), &IMAGES)?;
    assert_arrive(&rt, rt.alloc(), &source)?;
    assert!(rt; is_refused(&rt, rt.alloc(), &source, 65)?, "row Graph(65)");
    Ok(())
}

/// From a source that may fail, layers and configs are copied in parts, in drafts of the live
/// store.
#[test]
fn two_images_in_drafts(rt: HostRuntime) -> Result<(), Fail> {
    let device = Device::failing(None, None);
    let source = on_device(rt.alloc(), &device, &IMAGES)?;
    assert_arrive(&rt, rt.alloc(), &source)
}

/// Returns whether an image is copied with exactly its direct referrers.
fn referrers_arrive<R: Threads + Wait + Sync + Send + Copy + Drop>(
    rt: &R,
    alloc: Global,
    source: &MemoryStore,
) -> Result<bool, Fail> {
    let image = Image2.key(alloc)?;
    let empty = live(alloc, *rt, &[])?;
    let (live, copied) = extended_copy_graph(rt, alloc, source, &image, 1, empty, &by(0), &NoHooks);
    brought(
        alloc,
        &live,
        copied,
        &[Empty, Foo, Image2, Referrer, Index3],
    )
}

#[test]
fn referrers(rt: HostRuntime) -> Result<(), Fail> {
    let source = memory(rt.alloc(), &REFERRERS)?;
    assert!(rt;
        referrers_arrive(&rt, rt.alloc(), &source)?,
        "{REFERRERS:?}"
    );
    Ok(())
}
