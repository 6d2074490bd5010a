//! The calls that copy, on the calling thread and by workers, and the texts of their results.

use oci_copy::{
    CopyFault, Options, Report, copy_graph, copy_memory, copy_memory_by_workers, copy_one,
    copy_plan, plan_copy, repair_memory, repair_memory_by_workers,
};
use oci_manifest::Key;
use oci_plan::Existing;
use oci_pool::NoHooks;
use oci_store::{ClosedStore, Dest, MemoryStore, Source};
use std::alloc::Global;
use std::fmt::{self, Display, Formatter, Write};
use std::process::Abort;
use std::sync::Wait;
use std::test::Fail;
use std::thread::Threads;

/// The number of workers; `None` is for the calling thread.
pub(crate) type Workers = Option<u32>;

/// The calling thread, and one, three and 64 workers.
pub(crate) const EACH: [Workers; 4] = [None, Some(1), Some(3), Some(64)];

pub(crate) const ONE_AND_THREE: [Workers; 2] = [None, Some(3)];

/// The printed keys of samples.
pub(crate) const EMPTY: &str =
    "sha256:44136fa355b3678a1146ad16f7e8649e94fb4fc21fe77e8310c060f61caaff8a 2 application/vnd.oci.empty.v1+json";

pub(crate) const FOO: &str =
    "sha256:2c26b46b68ffc68ff99b453c1d30413413422d706483bfa0f98a5e886266e7ae 3 application/vnd.oci.image.layer.v1.tar";

pub(crate) const BAR: &str =
    "sha256:fcde2b2edba56bf408601fb721fe9b5c338d10ee429ea04fae5511b68fbf8fb9 3 application/vnd.oci.image.layer.v1.tar";

pub(crate) const IMAGE_0: &str =
    "sha256:88028e7a699c392898fd180bf967edbcdb6227a9b7434a3ba0c9efff269e613f 241 application/vnd.oci.image.manifest.v1+json";

pub(crate) const IMAGE_2: &str =
    "sha256:7e1df211bc4556d2a9db939a81721c52e5e53c59e3dfb45a57205a794dd412b7 385 application/vnd.oci.image.manifest.v1+json";

/// One run of a row, as a failure prints it.
#[derive(Clone, Copy)]
pub(crate) struct Run<'a> {
    /// The name of the row.
    pub name: &'a str,
    pub workers: Workers,
}

impl<'a> Display for Run<'a> {
    fn fmt<W: Write>(&self, f: &mut Formatter<W>) -> fmt::Result {
        match self.workers {
            Some(workers) => write!(f, "row '{}' by {workers} workers", self.name),
            None => write!(f, "row '{}' on the calling thread", self.name),
        }
    }
}

/// The options of a copy.
pub(crate) fn options(workers: Workers, existing: Existing, max_metadata_bytes: u64) -> Options {
    Options {
        workers: workers.unwrap_or(0),
        max_metadata_bytes,
        existing,
    }
}

/// Returns the text of these parts.
fn joined(alloc: Global, parts: &[&str]) -> Result<String, Fail> {
    let mut text = String::new(alloc);
    for part in parts {
        text.push_str(part)?;
    }
    Ok(text)
}

/// A text is that of these parts.
pub(crate) fn assert_text<R: AllocGlobal + Abort>(
    rt: &R,
    found: &str,
    want: &[&str],
    run: Run<'_>,
) -> Result<(), Fail> {
    let want = joined(rt.alloc(), want)?;
    assert_eq!(rt; found, want.as_str(), "{run}");
    Ok(())
}

/// Returns the report or the fault of a copy as text.
pub(crate) fn told(alloc: Global, answer: &Result<Report, CopyFault>) -> Result<String, Fail> {
    match answer {
        Ok(report) => Ok(report.to_string(alloc)?),
        Err(fault) => Ok(fault.to_string(alloc)?),
    }
}

/// The report or the fault of a copy is this.
pub(crate) fn assert_told<R: AllocGlobal + Abort>(
    rt: &R,
    answer: &Result<Report, CopyFault>,
    want: &[&str],
    run: Run<'_>,
) -> Result<(), Fail> {
    let told = told(rt.alloc(), answer)?;
    assert_text(rt, told.as_str(), want, run)
}

/// Copies keys with no hooks, by `copy_graph`, or by `copy_one` on the calling thread.
pub(crate) fn copied<
    R: AllocGlobal + Threads + Wait + Sync,
    A: Source + Sync,
    D: Dest + Drop + Send,
>(
    rt: &R,
    source: &A,
    destination: D,
    roots: &[Key],
    workers: Workers,
    options: &Options,
) -> (D, Result<Report, CopyFault>)
where
    D::Draft: Send,
{
    let alloc = rt.alloc();
    match workers {
        Some(_) => copy_graph(rt, alloc, source, destination, roots, options, &NoHooks),
        None => copy_one(alloc, source, destination, roots, options),
    }
}

/// Returns the store that a copy leaves, and asserts its report or fault.
pub(crate) fn left<
    R: AllocGlobal + Threads + Wait + Sync + Abort,
    A: Source + Sync,
    D: Dest + Drop + Send,
>(
    rt: &R,
    source: &A,
    destination: D,
    roots: &[Key],
    by: (Run<'_>, Existing),
    want: &[&str],
) -> Result<D, Fail>
where
    D::Draft: Send,
{
    let (run, existing) = by;
    let options = options(run.workers, existing, 0);
    let (destination, answer) = copied(rt, source, destination, roots, run.workers, &options);
    assert_told(rt, &answer, want, run)?;
    Ok(destination)
}

/// Plans the copy of keys, and then runs the plan by workers.
pub(crate) fn planned<R: AllocGlobal + Threads + Wait + Sync>(
    rt: &R,
    source: &MemoryStore,
    destination: MemoryStore,
    roots: &[Key],
    options: &Options,
) -> (MemoryStore, Result<Report, CopyFault>) {
    let alloc = rt.alloc();
    match plan_copy(alloc, source, &destination, roots, options) {
        Ok(plan) => copy_plan(
            rt,
            alloc,
            source,
            destination,
            &plan,
            roots,
            options,
            &NoHooks,
        ),
        Err(fault) => (destination, Err(fault)),
    }
}

/// Copies keys by the calls between stores in memory into a closed one.
pub(crate) fn copied_in_memory<R: AllocGlobal + Threads + Wait + Sync>(
    rt: &R,
    source: &MemoryStore,
    destination: ClosedStore,
    roots: &[Key],
    workers: Workers,
    options: &Options,
) -> (ClosedStore, Result<Report, CopyFault>) {
    let alloc = rt.alloc();
    match workers {
        Some(_) => {
            copy_memory_by_workers(rt, alloc, source, destination, roots, options, &NoHooks)
        }
        None => copy_memory(alloc, source, destination, roots, options),
    }
}

/// Repairs below keys by the calls between stores in memory.
pub(crate) fn repaired<R: AllocGlobal + Threads + Wait + Sync>(
    rt: &R,
    source: &MemoryStore,
    destination: MemoryStore,
    roots: &[Key],
    workers: Workers,
    options: &Options,
) -> (MemoryStore, Result<Report, CopyFault>) {
    let alloc = rt.alloc();
    match workers {
        Some(_) => {
            repair_memory_by_workers(rt, alloc, source, destination, roots, options, &NoHooks)
        }
        None => repair_memory(alloc, source, destination, roots, options),
    }
}
