//! Copies on the calling thread and by workers, and their results as text.

use oci_copy::{CopyFault, Options, Report, copy, copy_graph, copy_one, extended_copy_graph};
use oci_manifest::Key;
use oci_pool::NoHooks;
use oci_store::{Dest, MemoryStore, Source, Tagger};
use std::alloc::Global;
use std::fmt::Display;
use std::sync::Wait;
use std::test::Fail;
use std::thread::Threads;
use test_support::Sample::{Empty, Foo, Image0, Image2, Index3, Index4, Referrer};
use test_support::{Sample, keys, memory};

/// A copy from a store in memory into a layout.
pub(crate) enum Copying {
    /// Copies an image by reference. Its tag is `m`, and `v1` in the layout.
    Named,
    /// Copies an image and its referrers, one edge away.
    Extended,
}

fn printed<T: Display>(alloc: Global, value: &T) -> Result<String, Fail> {
    Ok(format!(in alloc; "{value}")?)
}

/// Returns the result of a copy as text.
fn line(alloc: Global, answer: Result<Report, CopyFault>) -> Result<String, Fail> {
    match answer {
        Ok(report) => printed(alloc, &report),
        Err(fault) => printed(alloc, &fault),
    }
}

/// Copies some keys on the calling thread.
fn answered<A: Source, D: Dest + Drop>(
    alloc: Global,
    source: &A,
    destination: D,
    roots: &[Key],
) -> (D, Result<Report, CopyFault>) {
    copy_one(alloc, source, destination, roots, &Options::default())
}

/// Copies some keys by this many workers.
fn answered_by<A: Source + Sync, D: Dest + Drop + Send, R: AllocGlobal + Threads + Wait + Sync>(
    rt: &R,
    source: &A,
    destination: D,
    roots: &[Key],
    workers: u32,
) -> (D, Result<Report, CopyFault>)
where
    D::Draft: Send,
{
    let options = Options {
        workers,
        ..Options::default()
    };
    copy_graph(
        rt,
        rt.alloc(),
        source,
        destination,
        roots,
        &options,
        &NoHooks,
    )
}

/// The destination, and the result as text.
fn told_of<D: Dest + Drop>(
    alloc: Global,
    answered: (D, Result<Report, CopyFault>),
) -> Result<(D, String), Fail> {
    let (destination, answer) = answered;
    let told = line(alloc, answer)?;
    Ok((destination, told))
}

/// Copies some samples by this many workers, or on the calling thread. Returns the destination and
/// the result as text.
pub(crate) fn copied_samples<
    A: Source + Sync,
    D: Dest + Drop + Send,
    R: AllocGlobal + Threads + Wait + Sync,
>(
    rt: &R,
    source: &A,
    destination: D,
    roots: &[Sample],
    workers: Option<u32>,
) -> Result<(D, String), Fail>
where
    D::Draft: Send,
{
    let alloc = rt.alloc();
    let roots = keys(alloc, roots)?;
    match workers {
        Some(workers) => told_of(alloc, answered_by(rt, source, destination, &roots, workers)),
        None => told_of(alloc, answered(alloc, source, destination, &roots)),
    }
}

/// Copies by reference.
fn answered_named<D: Dest + Tagger + Drop + Send, R: AllocGlobal + Threads + Wait + Sync>(
    rt: &R,
    source: &MemoryStore,
    destination: D,
) -> (D, Result<(Key, Report), CopyFault>)
where
    D::Draft: Send,
{
    let options = Options::default();
    copy(
        rt,
        rt.alloc(),
        source,
        "m",
        destination,
        "v1",
        &options,
        &NoHooks,
    )
}

fn named_report(alloc: Global, key: &Key, report: &Report) -> Result<String, Fail> {
    Ok(format!(in alloc; "{key} {report}")?)
}

/// Returns the result of a copy by reference as text.
fn named_line(alloc: Global, answer: Result<(Key, Report), CopyFault>) -> Result<String, Fail> {
    match answer {
        Ok((key, report)) => named_report(alloc, &key, &report),
        Err(fault) => printed(alloc, &fault),
    }
}

/// Returns a store in memory of an image and its config, with the tag `m` for the image.
fn named(alloc: Global) -> Result<MemoryStore, Fail> {
    let mut store = memory(alloc, &[Empty, Image0])?;
    store.tag(&Image0.key(alloc)?, "m")?;
    Ok(store)
}

/// Copies by reference. Returns the key and the report as text.
fn copied_named<D: Dest + Tagger + Drop + Send, R: AllocGlobal + Threads + Wait + Sync>(
    rt: &R,
    destination: D,
) -> Result<(D, String), Fail>
where
    D::Draft: Send,
{
    let source = named(rt.alloc())?;
    let (destination, answer) = answered_named(rt, &source, destination);
    let told = named_line(rt.alloc(), answer)?;
    Ok((destination, told))
}

/// Copies a key and its referrers.
fn answered_extended<D: Dest + Drop + Send, R: AllocGlobal + Threads + Wait + Sync>(
    rt: &R,
    source: &MemoryStore,
    destination: D,
    key: &Key,
) -> (D, Result<Report, CopyFault>)
where
    D::Draft: Send,
{
    let options = Options::default();
    extended_copy_graph(
        rt,
        rt.alloc(),
        source,
        key,
        1,
        destination,
        &options,
        &NoHooks,
    )
}

/// Copies an image and its referrers. Returns the report as text.
fn copied_extended<D: Dest + Drop + Send, R: AllocGlobal + Threads + Wait + Sync>(
    rt: &R,
    destination: D,
) -> Result<(D, String), Fail>
where
    D::Draft: Send,
{
    let key = Image2.key(rt.alloc())?;
    let source = memory(rt.alloc(), &[Empty, Foo, Image2, Referrer, Index3, Index4])?;
    told_of(
        rt.alloc(),
        answered_extended(rt, &source, destination, &key),
    )
}

/// Copies into a layout. Returns the layout and the result as text.
pub(crate) fn copied<D: Dest + Tagger + Drop + Send, R: AllocGlobal + Threads + Wait + Sync>(
    rt: &R,
    destination: D,
    copying: &Copying,
) -> Result<(D, String), Fail>
where
    D::Draft: Send,
{
    match copying {
        Copying::Named => copied_named(rt, destination),
        Copying::Extended => copied_extended(rt, destination),
    }
}
