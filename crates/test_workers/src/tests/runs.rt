use crate::graphs::{DIAMOND, order_of, ordered};
use crate::jobs::{FailsAt, TenTimes};
use oci_plan::Order;
use oci_pool::{PoolFault, run};
use std::alloc::{AllocError, Global};
use std::fmt::Write;
use std::process::Abort;
use std::sync::Wait;
use std::sync::atomic::Ordering;
use std::test::Fail;
use std::thread::Threads;
use test_support::{Shape, graph};

/// The jobs of a run.
#[derive(Clone, Copy)]
enum Kind {
    TenTimes,
    /// The job of number 1 fails.
    FailsAtOne,
}

/// Writes the results of a run, or its fault, and how many jobs were run.
fn tell_ten_times<R: Threads + Wait + Sync>(
    rt: &R,
    alloc: Global,
    order: &Order,
    workers: u32,
    text: &mut String,
) -> Result<(), AllocError> {
    let job = TenTimes::new();
    let answer = run(rt, alloc, order, workers, &job);
    let runs = job.runs.load(Ordering::SeqCst);
    match answer {
        Ok(all) => {
            write!(text, "{runs} runs:")?;
            tell_all(all.as_slice(), text)
        }
        Err(stopped) => {
            let (done, fault) = stopped.into_parts();
            write!(text, "{runs} runs, {} done: {fault}", done.len())
        }
    }
}

fn tell_all(results: &[u64], text: &mut String) -> Result<(), AllocError> {
    for result in results {
        write!(text, " {result}")?;
    }
    Ok(())
}

/// Writes about a run whose job of number 1 fails: whether the number of results is the number of
/// jobs that returned one, its fault, and the numbers and results.
fn tell_fails_at_one<R: Threads + Wait + Sync>(
    rt: &R,
    alloc: Global,
    order: &Order,
    workers: u32,
    text: &mut String,
) -> Result<(), AllocError> {
    let job = FailsAt::numbers(1, 1, 0);
    match run(rt, alloc, order, workers, &job) {
        Ok(_) => write!(text, "done"),
        Err(stopped) => {
            let (done, fault) = stopped.into_parts();
            let all = job.answered.load(Ordering::SeqCst) == done.len() as u64;
            write!(text, "{all} {fault}:")?;
            tell_done(done.as_slice(), text)
        }
    }
}

fn tell_done(done: &[(u32, u32)], text: &mut String) -> Result<(), AllocError> {
    for (number, result) in done {
        write!(text, " {number} {result}")?;
    }
    Ok(())
}

/// Returns the line about a run.
fn told<R: Threads + Wait + Sync>(
    rt: &R,
    alloc: Global,
    order: &Order,
    workers: u32,
    kind: Kind,
) -> Result<String, AllocError> {
    let mut text = String::new(alloc);
    match kind {
        Kind::TenTimes => tell_ten_times(rt, alloc, order, workers, &mut text)?,
        Kind::FailsAtOne => tell_fails_at_one(rt, alloc, order, workers, &mut text)?,
    }
    Ok(text)
}

fn is_one_of(told: &str, lines: &[&str]) -> bool {
    for line in lines {
        if *line == told {
            return true;
        }
    }
    false
}

/// Runs of the jobs of a graph, one for each number of workers from the first up to, but not
/// including, the last.
#[derive(Clone, Copy)]
struct Row<'a> {
    name: &'a str,
    lists: &'a [&'a [u32]],
    workers: (u32, u32),
    kind: Kind,
    /// The line about each run is one of these.
    lines: &'a [&'a str],
}

fn assert_run<R: Threads + Wait + Sync + Abort>(
    rt: &R,
    alloc: Global,
    order: &Order,
    workers: u32,
    row: &Row<'_>,
) -> Result<(), Fail> {
    let told = told(rt, alloc, order, workers, row.kind)?;
    let name = row.name;
    assert!(rt;
        is_one_of(told.as_str(), row.lines),
        "row '{name}' by {workers} workers: {told}"
    );
    Ok(())
}

fn assert_runs<R: Threads + Wait + Sync + Abort>(
    rt: &R,
    alloc: Global,
    row: &Row<'_>,
) -> Result<(), Fail> {
    let order = ordered(rt, alloc, row.lists)?;
    for workers in row.workers.0..row.workers.1 {
        assert_run(rt, alloc, &order, workers, row)?;
    }
    Ok(())
}

#[test]
fn ten_times(rt: HostRuntime) -> Result<(), Fail> {
    static ROWS: [Row<'static>; 4] = [
        Row {
            name: "the diamond",
            lists: DIAMOND,
            workers: (0, 3),
            kind: Kind::TenTimes,
            lines: &["4 runs: 0 10 20 30"],
        },
        Row {
            name: "the diamond by the most workers",
            lists: DIAMOND,
            workers: (64, 65),
            kind: Kind::TenTimes,
            lines: &["4 runs: 0 10 20 30"],
        },
        Row {
            name: "the diamond by too many workers",
            lists: DIAMOND,
            workers: (65, 66),
            kind: Kind::TenTimes,
            lines: &["0 runs, 0 done: 62 BadWorkers"],
        },
        Row {
            name: "no jobs",
            lists: &[],
            workers: (2, 3),
            kind: Kind::TenTimes,
            lines: &["0 runs:"],
        },
    ];
    for row in &ROWS {
        assert_runs(&rt, rt.alloc(), row)?;
    }
    Ok(())
}

#[test]
fn jobs(rt: HostRuntime) -> Result<(), Fail> {
    static ROW: Row<'static> = Row {
        name: "the diamond, failing at 1",
        lists: DIAMOND,
        workers: (0, 65),
        kind: Kind::FailsAtOne,
        lines: &["true 60 Job 1 101: 0 0", "true 60 Job 1 101: 0 0 2 2"],
    };
    assert_runs(&rt, rt.alloc(), &ROW)
}

/// Returns how many jobs are run of an order if all fail. Returns nothing if the fault of the run
/// is not that of a job, or if it has a result.
fn runs_of_fails<R: Threads + Wait + Sync>(
    rt: &R,
    alloc: Global,
    order: &Order,
    workers: u32,
) -> Option<u64> {
    let job = FailsAt::each();
    let Err(stopped) = run(rt, alloc, order, workers, &job) else {
        return None;
    };
    let (done, fault) = stopped.into_parts();
    if !done.is_empty() || fault.number() != 60 {
        return None;
    }
    Some(job.runs.load(Ordering::SeqCst))
}

/// No worker begins a job after the run has stopped. If all jobs fail, the first one stops the run,
/// so each worker runs at most one.
#[test]
fn none_after_a_stop(rt: HostRuntime) -> Result<(), Fail> {
    let alloc = rt.alloc();
    let order = order_of(&rt, graph(alloc, Shape::Leaves, 100)?);
    for workers in 1..65 {
        let Some(runs) = runs_of_fails(&rt, alloc, &order, workers) else {
            panic!(rt; "the run by {workers} workers was not stopped by a job");
        };
        assert!(rt;
            runs >= 1 && runs <= workers as u64,
            "{runs} runs by {workers} workers"
        );
    }
    Ok(())
}

/// Asserts the number and the line of a fault.
fn assert_fault(
    rt: &impl Abort,
    alloc: Global,
    fault: &PoolFault<u32>,
    line: &str,
) -> Result<(), Fail> {
    let told = format!(in alloc; "{}: {fault}", fault.number())?;
    assert_eq!(rt; told.as_str(), line);
    Ok(())
}

#[test]
fn fault_lines(rt: HostRuntime) -> Result<(), Fail> {
    const FAULTS: &[(PoolFault<u32>, &str)] = &[
        (PoolFault::Job(3, 7), "60: 60 Job 3 7"),
        (PoolFault::Incomplete(3), "61: 61 Incomplete 3"),
        (PoolFault::BadWorkers, "62: 62 BadWorkers"),
        (PoolFault::Memory, "63: 63 Memory"),
    ];
    for (fault, line) in FAULTS {
        assert_fault(&rt, rt.alloc(), fault, line)?;
    }
    Ok(())
}
