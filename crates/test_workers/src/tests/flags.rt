use crate::graphs::{DIAMOND, order_of};
use crate::jobs::Flags;
use crate::tests::flags::Graph::{Chain, Diamond, Random};
use oci_plan::Order;
use oci_pool::run;
use std::alloc::{AllocError, Global};
use std::process::Abort;
use std::sync::Wait;
use std::test::Fail;
use std::thread::Threads;
use test_support::{Shape, graph, graph_of, random_graph};

/// A graph whose jobs are run.
#[derive(Clone, Copy, Debug)]
enum Graph {
    Diamond,
    /// A random graph of 2000 numbers, by its seed.
    Random(u64),
    /// A chain of this many numbers.
    Chain(u32),
}

fn random(alloc: Global, seed: u64) -> Result<Vec<Vec<u32>>, AllocError> {
    let mut state = seed;
    random_graph(alloc, &mut state, 2000, true)
}

fn lists(alloc: Global, jobs: Graph) -> Result<Vec<Vec<u32>>, AllocError> {
    match jobs {
        Diamond => graph_of(alloc, DIAMOND),
        Random(seed) => random(alloc, seed),
        Chain(count) => graph(alloc, Shape::Chain, count),
    }
}

/// Returns whether each job ran once, and found the flags of its successors set as it started.
fn in_order<R: Threads + Wait + Sync>(
    rt: &R,
    alloc: Global,
    order: &Order,
    workers: u32,
    job: &Flags,
) -> bool {
    match run(rt, alloc, order, workers, job) {
        Ok(all) => all.len() == order.len() && all.iter().all(|found| *found) && job.ran_once(),
        Err(_) => false,
    }
}

/// Like `in_order`, for the order of a graph. Its lists are made once more for the jobs.
fn graph_in_order<R: Threads + Wait + Sync>(
    rt: &R,
    alloc: Global,
    order: &Order,
    jobs: Graph,
    workers: u32,
    looks: u64,
) -> Result<bool, AllocError> {
    let job = Flags::new(alloc, lists(alloc, jobs)?, looks)?;
    Ok(in_order(rt, alloc, order, workers, &job))
}

fn assert_in_order<R: Threads + Wait + Sync + Abort>(
    rt: &R,
    alloc: Global,
    jobs: Graph,
    workers: u32,
    looks: u64,
) -> Result<(), Fail> {
    let order = order_of(rt, lists(alloc, jobs)?);
    assert!(rt;
        graph_in_order(rt, alloc, &order, jobs, workers, looks)?,
        "row '{jobs:?}' by {workers} workers"
    );
    Ok(())
}

#[test]
fn each_runs_once_after_its_successors(rt: HostRuntime) -> Result<(), Fail> {
    for workers in 1..65 {
        assert_in_order(&rt, rt.alloc(), Diamond, workers, 1_000_000)?;
    }
    Ok(())
}

#[test]
fn random_graphs(rt: HostRuntime) -> Result<(), Fail> {
    for seed in 0..10 {
        assert_in_order(&rt, rt.alloc(), Random(seed), 64, 0)?;
    }
    Ok(())
}

#[test]
fn long_chain(rt: HostRuntime) -> Result<(), Fail> {
    for workers in [1, 3, 64] {
        assert_in_order(&rt, rt.alloc(), Chain(3000), workers, 0)?;
    }
    Ok(())
}
