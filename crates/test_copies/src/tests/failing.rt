//! Copies from and into stores that fail once: the report, the state that is left, and that the
//! same copy again brings the rest.

use crate::tests::calls::{ONE_AND_THREE, Run, Workers, copied, left, options, told};
use oci_manifest::Key;
use oci_plan::Existing;
use oci_store::{Dest, MemoryStore, Source};
use std::alloc::Global;
use std::process::Abort;
use std::sync::Wait;
use std::test::Fail;
use std::thread::Threads;
use test_support::Sample::{Bar, Empty, Foo, Image2, Image3, Index1};
use test_support::{
    Device, FailingClosedStore, Sample, closed, holds, is_closed, keys, memory, on_device,
};

const ALL: [Sample; 6] = [Empty, Foo, Bar, Image2, Image3, Index1];

/// Copies into a store. Returns the store, which is closed, and the report or the fault as text.
fn once<A: Source + Sync, D: Dest + Drop + Send, R: AllocGlobal + Threads + Wait + Sync + Abort>(
    rt: &R,
    source: &A,
    destination: D,
    roots: &[Key],
    run: Run<'_>,
) -> Result<(D, String), Fail>
where
    D::Draft: Send,
{
    let options = options(run.workers, Existing::Skip, 0);
    let (store, answer) = copied(rt, source, destination, roots, run.workers, &options);
    assert!(rt; is_closed(&store)?, "{run}");
    let told = told(rt.alloc(), &answer)?;
    Ok((store, told))
}

/// Returns the report of a copy after which the store has all, if it had `held` before.
fn report(alloc: Global, held: usize) -> Result<String, Fail> {
    let (rest, skipped) = (ALL.len().saturating_sub(held), u32::from(held == ALL.len()));
    Ok(format!(in alloc; "planned {rest} pushed {rest} skipped {skipped}")?)
}

/// The same copy again brings the rest. Returns the number of contents that were there before.
fn again<
    A: Source + Sync,
    D: Dest + Source + Drop + Send,
    R: AllocGlobal + Threads + Wait + Sync + Abort,
>(rt: &R, source: &A, destination: D, roots: &[Key], run: Run<'_>) -> Result<usize, Fail>
where
    D::Draft: Send,
{
    let held = destination.count();
    let want = report(rt.alloc(), held)?;
    let by = (run, Existing::Skip);
    let store = left(rt, source, destination, roots, by, &[want.as_str()])?;
    assert!(rt; holds(rt.alloc(), &store, &ALL)?, "{run}");
    Ok(held)
}

/// Copies an index of two images into an empty store, and then again. Returns the report or the
/// fault of the first copy, and the number of contents that it left.
fn twice<
    A: Source + Sync,
    D: Dest + Source + Drop + Send,
    R: AllocGlobal + Threads + Wait + Sync + Abort,
>(rt: &R, source: &A, empty: D, run: Run<'_>) -> Result<(String, usize), Fail>
where
    D::Draft: Send,
{
    let roots = keys(rt.alloc(), &[Index1])?;
    let (store, told) = once(rt, source, empty, &roots, run)?;
    let held = again(rt, source, store, &roots, run)?;
    Ok((told, held))
}

/// Whether the text reports a failed push of this sample, which the store lacks.
fn names<D: Dest>(alloc: Global, store: &D, told: &str, sample: Sample) -> Result<bool, Fail> {
    let key = sample.key(alloc)?;
    let line = format!(in alloc; "82 Push {key} 43 Device")?;
    Ok(told == line.as_str() && !store.has(&key))
}

/// Whether the text reports a failed push of one of the samples, which the store lacks.
fn names_missing<D: Dest>(alloc: Global, store: &D, told: &str) -> Result<bool, Fail> {
    for sample in ALL {
        if names(alloc, store, told, sample)? {
            return Ok(true);
        }
    }
    Ok(false)
}

/// Copies into a store that fails, asserts the fault, and returns what the copy leaves.
fn left_by_failing<D: Dest + Source + Drop + Send, R: AllocGlobal + Threads + Wait + Sync + Abort>(
    rt: &R,
    source: &MemoryStore,
    empty: D,
    roots: &[Key],
    run: Run<'_>,
) -> Result<D, Fail>
where
    D::Draft: Send,
{
    let (store, told) = once(rt, source, empty, roots, run)?;
    assert!(rt;
        names_missing(rt.alloc(), &store, told.as_str())?,
        "{run}: {told}"
    );
    Ok(store)
}

/// Copies into a store that fails, and then again. Returns the number of contents that the first
/// copy left.
fn held_by_failing<D: Dest + Source + Drop + Send, R: AllocGlobal + Threads + Wait + Sync + Abort>(
    rt: &R,
    empty: D,
    run: Run<'_>,
) -> Result<usize, Fail>
where
    D::Draft: Send,
{
    let (source, roots) = (memory(rt.alloc(), &ALL)?, keys(rt.alloc(), &[Index1])?);
    let store = left_by_failing(rt, &source, empty, &roots, run)?;
    again(rt, &source, store, &roots, run)
}

/// The third push into a closed store fails.
#[test]
fn failing_push(rt: HostRuntime) -> Result<(), Fail> {
    let run = Run {
        name: "the third push",
        workers: None,
    };
    let failing = FailingClosedStore::after(closed(rt.alloc(), &[])?, 2);
    assert_eq!(rt; held_by_failing(&rt, failing, run)?, 2, "{run}");
    Ok(())
}

/// The put after `passing` others fails. On one thread exactly the contents put before are left;
/// workers may have finished others that were begun.
fn assert_put<R: AllocGlobal + Threads + Wait + Sync + Abort>(
    rt: &R,
    passing: usize,
    workers: Workers,
) -> Result<(), Fail> {
    let run = Run {
        name: "a put",
        workers,
    };
    let device = Device::failing(Some(passing as u64), None);
    let held = held_by_failing(rt, on_device(rt.alloc(), &device, &[])?, run)?;
    let most = if workers.is_none() { passing } else { 5 };
    assert!(rt;
        held >= passing && held <= most,
        "{run} after {passing}: {held} held"
    );
    Ok(())
}

/// One put fails, and the copy is refused. The same copy into the returned store brings the rest.
#[test]
fn failing_puts(rt: HostRuntime) -> Result<(), Fail> {
    for passing in 0..6 {
        for workers in ONE_AND_THREE {
            assert_put(&rt, passing, workers)?;
        }
    }
    Ok(())
}

/// Whether a copy was refused for a fetch and left this number of contents: none if the fetch was
/// for the plan.
fn is_refusal(told: &str, held: usize) -> bool {
    let is_planned = told.starts_with("81 Plan 57 Fetch ") && held == 0;
    told.ends_with(" 22 Device") && (is_planned || told.starts_with("88 Fetch "))
}

/// The get after `passing` others fails.
fn assert_get<R: AllocGlobal + Threads + Wait + Sync + Abort>(
    rt: &R,
    passing: u64,
    workers: Workers,
) -> Result<(), Fail> {
    let run = Run {
        name: "a get",
        workers,
    };
    let device = Device::failing(None, Some(passing));
    let source = on_device(rt.alloc(), &device, &ALL)?;
    let (told, held) = twice(rt, &source, closed(rt.alloc(), &[])?, run)?;
    assert_eq!(rt;
        is_refusal(told.as_str(), held),
        passing < 9,
        "{run} after {passing}: {told}"
    );
    Ok(())
}

/// One fetch fails, at each place in turn. The last copy meets no failure: there are three
/// manifests for the plan and six contents.
#[test]
fn failing_fetch(rt: HostRuntime) -> Result<(), Fail> {
    for passing in 0..10 {
        for workers in ONE_AND_THREE {
            assert_get(&rt, passing, workers)?;
        }
    }
    Ok(())
}
