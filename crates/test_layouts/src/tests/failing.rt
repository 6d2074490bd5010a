//! Copies between two layouts. One read or one put of one of the directories fails.

use crate::tests::copies::copied_samples;
use crate::tests::faulty::Failing::{LaterReads, Read};
use crate::tests::faulty::{Failing, FaultyDir};
use crate::tests::layouts::{created, opened, saved, summary};
use crate::tests::steps::Way::{Create, Open, OpenAsIs};
use crate::tests::steps::{Way, entered};
use oci_layout::{Layout, MemDir};
use oci_store::Dest;
use std::alloc::Global;
use std::process::Abort;
use std::sync::Wait;
use std::test::Fail;
use std::thread::Threads;
use test_support::Sample::{Bar, Empty, Foo, Image2, Image3, Index1};
use test_support::{Sample, holds, is_closed};

/// The two images, and the contents that they reach.
static ALL: [Sample; 6] = [Empty, Foo, Bar, Image2, Image3, Index1];

/// The number of files that `create` puts.
const CREATED: u64 = 2;

/// The number of files that `open` reads: the layout file, the index, and three manifests.
const OPENED: u64 = 5;

/// The result of a copy of everything.
const BROUGHT: &str = "planned 6 pushed 6 skipped 0";

/// A copy, and the same copy again into the destination that it returned.
#[derive(Drop)]
struct Twice {
    /// The result of the first copy as text.
    first: String,
    /// The number of contents that the destination then holds.
    count: usize,
    /// The number of its puts that failed.
    failures: u64,
    /// Whether its contents are closed.
    is_closed: bool,
    /// The result of the second copy.
    second: String,
    /// Whether the destination then holds all samples, and nothing else.
    is_whole: bool,
}

/// Returns the directory of a layout of the two images, with this failure.
fn images(alloc: Global, failing: Failing) -> Result<FaultyDir, Fail> {
    let dir = saved(alloc, &ALL, Index1)?;
    Ok(FaultyDir::failing(dir, failing))
}

/// Copies the index of a layout into another layout. Returns that layout, and the result.
fn copied<R: AllocGlobal + Threads + Wait + Sync>(
    rt: &R,
    source: &Layout<FaultyDir>,
    destination: Layout<FaultyDir>,
    workers: Option<u32>,
) -> Result<(Layout<FaultyDir>, String), Fail> {
    copied_samples(rt, source, destination, &[Index1], workers)
}

/// Copies again into a layout that a copy with this result has left.
fn copied_again<R: AllocGlobal + Threads + Wait + Sync>(
    rt: &R,
    source: &Layout<FaultyDir>,
    left: Layout<FaultyDir>,
    first: String,
    workers: Option<u32>,
) -> Result<Twice, Fail> {
    let is_closed = is_closed(&left)?;
    let (count, failures) = (left.count(), left.failures());
    let (whole, second) = copied(rt, source, left, workers)?;
    Ok(Twice {
        first,
        count,
        failures,
        is_closed,
        second,
        is_whole: holds(rt.alloc(), &whole, &ALL)?,
    })
}

/// Copies the images twice, from a directory with the first failure into a directory with the
/// second.
fn copied_twice<R: AllocGlobal + Threads + Wait + Sync>(
    rt: &R,
    reading: Failing,
    putting: Failing,
    workers: Option<u32>,
) -> Result<Twice, Fail> {
    let alloc = rt.alloc();
    let source = opened(alloc, images(alloc, reading)?)?;
    let destination = created(alloc, FaultyDir::failing(MemDir::new(alloc), putting))?;
    let (left, first) = copied(rt, &source, destination, workers)?;
    copied_again(rt, &source, left, first, workers)
}

/// Asserts the result of the first copy, but for a key in it, and that it left closed contents. The
/// second copy copies the missing contents, and the layout then holds all.
fn assert_ends<R: AllocGlobal + Abort>(
    rt: &R,
    twice: &Twice,
    (before, after): (&str, &str),
    passing: u64,
) -> Result<(), Fail> {
    let first = twice.first.as_str();
    assert!(rt; first.starts_with(before), "{passing}: {first}");
    assert!(rt; first.ends_with(after), "{passing}: {first}");
    assert!(rt; twice.is_closed, "{passing}: {first}");
    let rest = 6usize.saturating_sub(twice.count);
    let skipped = if rest == 0 { 1 } else { 0 };
    let want = format!(in rt.alloc(); "planned {rest} pushed {rest} skipped {skipped}")?;
    assert_eq!(rt; twice.second.as_str(), want.as_str(), "{passing}, again");
    assert!(rt; twice.is_whole, "{passing}, again");
    Ok(())
}

/// Runs a copy whose put after `passing` others fails. On one thread the destination has the
/// contents that were pushed before. Workers may also have finished pushes that they had begun.
fn assert_put<R: AllocGlobal + Threads + Wait + Sync + Abort>(
    rt: &R,
    passing: u64,
    workers: Option<u32>,
) -> Result<(), Fail> {
    let failing = Failing::Put(CREATED.saturating_add(passing));
    let twice = copied_twice(rt, Failing::Nothing, failing, workers)?;
    let (want, failures, most) = match (passing, workers) {
        (6, _) => ((BROUGHT, BROUGHT), 0, 6),
        (_, None) => (("82 Push ", " 43 Device"), 1, passing),
        _ => (("82 Push ", " 43 Device"), 1, 5),
    };
    let left = twice.count as u64;
    assert_ends(rt, &twice, want, passing)?;
    assert_eq!(rt; twice.failures, failures, "{passing} by {workers:?}");
    assert!(rt;
        left >= passing && left <= most,
        "{passing} by {workers:?}: {left} left"
    );
    Ok(())
}

/// Each put of a copy fails in turn, and so does the copy. A second copy into the returned
/// destination copies the rest, over the bytes that the failed put left. A copy puts each of the six
/// contents once: the put after them is never made.
#[test]
fn failing_put(rt: HostRuntime) -> Result<(), Fail> {
    for passing in 0..7u64 {
        for workers in [None, Some(3)] {
            assert_put(&rt, passing, workers)?;
        }
    }
    Ok(())
}

/// Runs a copy whose read after `passing` others fails. Nothing is pushed if the plan fails.
fn assert_read<R: AllocGlobal + Threads + Wait + Sync + Abort>(
    rt: &R,
    passing: u64,
    workers: Option<u32>,
) -> Result<(), Fail> {
    let failing = Failing::Read(OPENED.saturating_add(passing));
    let twice = copied_twice(rt, failing, Failing::Nothing, workers)?;
    let (want, most) = match passing {
        0..=2 => (("81 Plan 57 Fetch ", " 22 Device"), 0),
        3..=8 => (("88 Fetch ", " 22 Device"), 5),
        _ => ((BROUGHT, BROUGHT), 6),
    };
    assert!(rt;
        twice.count <= most,
        "{passing} by {workers:?}: {} left",
        twice.count
    );
    assert_ends(rt, &twice, want, passing)
}

/// Each read of a copy fails in turn. The copy reads three manifests for its plan and then six
/// contents, so after nine reads there is no failure.
#[test]
fn failing_read(rt: HostRuntime) -> Result<(), Fail> {
    for passing in 0..10u64 {
        for workers in [None, Some(3)] {
            assert_read(&rt, passing, workers)?;
        }
    }
    Ok(())
}

/// A way into the layout of the images, the reads that fail, and the contents or the fault.
struct Opening(Way, Failing, &'static str);

static OPENINGS: [Opening; 13] = [
    Opening(Create, LaterReads(0), "74 Device"),
    Opening(Open, Read(0), "74 Device"),
    Opening(Open, Read(1), "74 Device"),
    Opening(Open, Read(2), "74 Device"),
    Opening(Open, Read(3), "74 Device"),
    Opening(Open, Read(4), "74 Device"),
    Opening(Open, Read(OPENED), "held 6 v1"),
    Opening(OpenAsIs, Read(0), "74 Device"),
    Opening(OpenAsIs, Read(1), "74 Device"),
    Opening(OpenAsIs, Read(2), "74 Device"),
    Opening(OpenAsIs, Read(3), "74 Device"),
    Opening(OpenAsIs, Read(4), "74 Device"),
    Opening(OpenAsIs, Read(OPENED), "held 6 v1"),
];

fn told_of_opening(alloc: Global, opening: &Opening) -> Result<String, Fail> {
    let dir = images(alloc, opening.1)?;
    match entered(alloc, dir, &opening.0) {
        Ok(layout) => summary(alloc, &layout),
        Err((_, fault)) => Ok(format!(in alloc; "{fault}")?),
    }
}

/// Each read of an opening fails in turn, and the failure is reported, also if the layout is opened
/// as it is. No layout is created if it cannot be told whether one is there.
#[test]
fn failing_read_of_open(rt: HostRuntime) -> Result<(), Fail> {
    for (row, opening) in OPENINGS.iter().enumerate() {
        let told = told_of_opening(rt.alloc(), opening)?;
        assert_eq!(rt; told.as_str(), opening.2, "row {row}");
    }
    Ok(())
}
