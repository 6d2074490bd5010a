use crate::graphs::ordered;
use crate::jobs::{FailsAt, MANY_LOOKS, Meeting, Meets};
use oci_plan::Order;
use oci_pool::run;
use std::alloc::{AllocError, Global};
use std::process::Abort;
use std::sync::Wait;
use std::test::Fail;
use std::thread::Threads;

/// Two numbers that need nothing.
const TWO: &[&[u32]] = &[&[], &[]];

/// 1 and 2 need 0.
const FORK: &[&[u32]] = &[&[], &[0], &[0]];

/// Returns whether all jobs met that were to meet.
fn met<R: Threads + Wait + Sync>(
    rt: &R,
    alloc: Global,
    order: &Order,
    workers: u32,
    meeting: Meeting,
) -> bool {
    match run(rt, alloc, order, workers, &Meets::new(meeting)) {
        Ok(all) => all.iter().all(|met| *met),
        Err(_) => false,
    }
}

/// Asserts for each of `times` runs whether all jobs met that were to meet. If they are too many
/// for the workers, not all of them meet.
fn assert_met<R: Threads + Wait + Sync + Abort>(
    rt: &R,
    alloc: Global,
    lists: &[&[u32]],
    workers: u32,
    meeting: Meeting,
    (times, meet): (u32, bool),
) -> Result<(), Fail> {
    let order = ordered(rt, alloc, lists)?;
    for time in 0..times {
        assert!(rt;
            met(rt, alloc, &order, workers, meeting) == meet,
            "run {time} of {lists:?} by {workers} workers"
        );
    }
    Ok(())
}

/// Returns a meeting of `wanted` jobs, from the number `from` on.
const fn of(from: u32, wanted: u64) -> Meeting {
    Meeting {
        from,
        wanted,
        looks: MANY_LOOKS,
        looks_before: 0,
    }
}

#[test]
fn meeting(rt: HostRuntime) -> Result<(), Fail> {
    assert_met(&rt, rt.alloc(), TWO, 2, of(0, 2), (1, true))
}

/// Returns the results of two jobs that one worker runs, if each looks `looks` times for the other.
fn alone<R: Threads + Wait + Sync>(
    rt: &R,
    alloc: Global,
    order: &Order,
    looks: u64,
) -> Option<[bool; 2]> {
    let meeting = Meeting { looks, ..of(0, 2) };
    match run(rt, alloc, order, 1, &Meets::new(meeting)) {
        Ok(all) => match all.as_slice() {
            [first, second] => Some([*first, *second]),
            _ => None,
        },
        Err(_) => None,
    }
}

/// One worker runs the first job to its end, and it does not meet the second. Then it runs the
/// second job, which sees that the first has raised the count.
#[test]
fn one_worker(rt: HostRuntime) -> Result<(), Fail> {
    let order = ordered(&rt, rt.alloc(), TWO)?;
    assert_eq!(rt;
        alone(&rt, rt.alloc(), &order, 1_000_000),
        Some([false, true])
    );
    Ok(())
}

/// If 0 workers are asked for, there are three: three jobs meet, and four do not.
#[test]
fn usual_workers(rt: HostRuntime) -> Result<(), Fail> {
    const THREE: &[&[u32]] = &[&[], &[], &[]];
    const FOUR: &[&[u32]] = &[&[], &[], &[], &[]];
    assert_met(&rt, rt.alloc(), THREE, 0, of(0, 3), (1, true))?;
    let meeting = Meeting {
        looks: 100_000_000,
        ..of(0, 4)
    };
    assert_met(&rt, rt.alloc(), FOUR, 0, meeting, (1, false))
}

/// One worker makes both numbers ready, and the other has to be woken to steal one of them.
#[test]
fn stealing(rt: HostRuntime) -> Result<(), Fail> {
    assert_met(&rt, rt.alloc(), FORK, 2, of(1, 2), (100, true))
}

/// The first job goes on for so long that the other worker waits before it ends. The numbers that
/// it makes ready have to wake that worker.
#[test]
fn waking(rt: HostRuntime) -> Result<(), Fail> {
    let meeting = Meeting {
        looks_before: 20_000_000,
        ..of(1, 2)
    };
    assert_met(&rt, rt.alloc(), FORK, 2, meeting, (10, true))
}

/// Returns the line of the fault of a run of two jobs that meet and then both fail.
fn both_fail<R: Threads + Wait + Sync>(
    rt: &R,
    alloc: Global,
    order: &Order,
) -> Result<String, AllocError> {
    match run(rt, alloc, order, 2, &FailsAt::numbers(0, 1, 2)) {
        Ok(_) => String::from_str(alloc, "done"),
        Err(stopped) => stopped.into_fault().to_string(alloc),
    }
}

fn assert_both_fail<R: Threads + Wait + Sync + Abort>(
    rt: &R,
    alloc: Global,
    order: &Order,
) -> Result<(), Fail> {
    assert_eq!(rt; both_fail(rt, alloc, order)?.as_str(), "60 Job 0 100");
    Ok(())
}

#[test]
fn least_number_is_told(rt: HostRuntime) -> Result<(), Fail> {
    let order = ordered(&rt, rt.alloc(), TWO)?;
    for _ in 0..100 {
        assert_both_fail(&rt, rt.alloc(), &order)?;
    }
    Ok(())
}
