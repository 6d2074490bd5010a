//! The search for damaged blobs by several workers.

use crate::tests::layouts::{listed, made, saved};
use crate::tests::texts::{assert_told, blob};
use oci_layout::{Dir, Layout, MemDir};
use oci_verify::corrupt_keys;
use std::alloc::Global;
use std::process::Abort;
use std::sync::Wait;
use std::test::Fail;
use std::thread::Threads;
use test_support::Sample;
use test_support::Sample::{Bar, Empty, Foo, Image2, Image3, Index1};

/// Puts other bytes in the place of a sample.
fn damage(alloc: Global, dir: &mut MemDir, sample: Sample, bytes: &[u8]) -> Result<(), Fail> {
    dir.put(&blob(alloc, &sample.key(alloc)?)?, bytes)?;
    Ok(())
}

/// Returns the directory of a layout of an index with two images. A layer of the first one has
/// other bytes of the same length, and the manifest of the second one has other bytes.
fn damaged(alloc: Global) -> Result<MemDir, Fail> {
    let samples = [Empty, Foo, Bar, Image2, Image3, Index1];
    let mut dir = saved(alloc, &samples, Index1)?;
    damage(alloc, &mut dir, Foo, b"oof")?;
    damage(alloc, &mut dir, Image3, b"{}")?;
    Ok(dir)
}

/// Searches the damaged layout by this many workers. Returns the keys or the fault as text.
fn told_of_search<R: AllocGlobal + Threads + Wait + Sync>(
    rt: &R,
    workers: u32,
) -> Result<String, Fail> {
    let layout = made(Layout::open_as_is(rt.alloc(), damaged(rt.alloc())?))?;
    match corrupt_keys(rt, rt.alloc(), &layout, workers, &()) {
        Ok(keys) => listed(rt.alloc(), &keys),
        Err(fault) => Ok(format!(in rt.alloc(); "{fault}")?),
    }
}

fn assert_search<R: AllocGlobal + Threads + Wait + Sync + Abort>(
    rt: &R,
    workers: u32,
    want: &str,
) -> Result<(), Fail> {
    let told = told_of_search(rt, workers)?;
    assert_told(rt, &workers, told.as_str(), want)
}

/// The keys are the same by any number of workers, and in key order.
#[test]
fn damaged_blobs(rt: HostRuntime) -> Result<(), Fail> {
    for workers in [0, 1, 3, 64] {
        assert_search(&rt, workers, "<key Foo>;<key Image3>;")?;
    }
    assert_search(&rt, 65, "62 BadWorkers")
}
