//! A source whose files change during the copy.

use crate::tests::copies::copied_samples;
use crate::tests::faulty::{Change, FaultyDir};
use crate::tests::layouts::saved;
use crate::tests::texts::{assert_told, blob};
use bytes::Bytes;
use oci_layout::Layout;
use std::alloc::Global;
use std::process::Abort;
use std::sync::Wait;
use std::test::Fail;
use std::thread::Threads;
use test_support::Sample::{Empty, Image0};
use test_support::{closed, is_closed};

/// The manifest of the image has other bytes after `right` reads.
fn change(alloc: Global, right: u64) -> Result<Change, Fail> {
    let path = blob(alloc, &Image0.key(alloc)?)?;
    let other = Bytes::copy_from_slice(alloc, b"{}")?;
    Ok(Change { path, other, right })
}

/// The directory of a layout of one image, whose manifest changes after `right` reads.
fn changing(alloc: Global, right: u64) -> Result<FaultyDir, Fail> {
    let change = change(alloc, right)?;
    let dir = saved(alloc, &[Empty, Image0], Image0)?;
    Ok(FaultyDir::changing(dir, change))
}

/// Copies the image of a layout by this many workers, or on the calling thread. Returns the result
/// as text, and whether the destination is closed.
fn told_of_copy<R: AllocGlobal + Threads + Wait + Sync>(
    rt: &R,
    source: &Layout<FaultyDir>,
    workers: Option<u32>,
) -> Result<(String, bool), Fail> {
    let destination = closed(rt.alloc(), &[])?;
    let (destination, told) = copied_samples(rt, source, destination, &[Image0], workers)?;
    Ok((told, is_closed(&destination)?))
}

/// Opens the layout and copies its image.
fn told_of_run<R: AllocGlobal + Threads + Wait + Sync>(
    rt: &R,
    right: u64,
    workers: Option<u32>,
) -> Result<(String, bool), Fail> {
    match Layout::open(rt.alloc(), changing(rt.alloc(), right)?) {
        Ok(layout) => told_of_copy(rt, &layout, workers),
        Err((_, fault)) => Ok((format!(in rt.alloc(); "{fault}")?, true)),
    }
}

/// Asserts the result of a copy whose first `right` reads return the right bytes, and that the
/// destination is closed.
fn assert_changing<R: AllocGlobal + Threads + Wait + Sync + Abort>(
    rt: &R,
    right: usize,
    workers: Option<u32>,
    want: &str,
) -> Result<(), Fail> {
    let (told, is_closed) = told_of_run(rt, right as u64, workers)?;
    assert!(rt; is_closed, "{right} right reads by {workers:?}");
    assert_told(rt, &right, told.as_str(), want)
}

/// The result for each number of right reads, up to the first run without a fault. `open` reads
/// three files. The copy reads the manifest for its plan, and then the config and the manifest.
static TOLD: [&str; 7] = [
    "75 Corrupt <key Image0>",
    "75 Corrupt <key Image0>",
    "75 Corrupt <key Image0>",
    "81 Plan 57 Fetch <key Image0> 21 Corrupt",
    "88 Fetch <key Image0> 21 Corrupt",
    "88 Fetch <key Image0> 21 Corrupt",
    "planned 2 pushed 2 skipped 0",
];

#[test]
fn changing_source(rt: HostRuntime) -> Result<(), Fail> {
    for workers in [None, Some(3)] {
        for (right, want) in TOLD.iter().enumerate() {
            assert_changing(&rt, right, workers, want)?;
        }
    }
    Ok(())
}
