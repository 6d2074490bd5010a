//! Runs jobs on a graph of one shape with a number of workers.

use crate::counting::Counts;
use oci_plan::{Order, order};
use oci_pool::run;
use std::alloc::Global;
use std::sync::Wait;
use std::thread::Threads;
use test_support::{Shape, graph};

/// The request in the words.
#[derive(Drop)]
struct Task {
    order: Order,
    workers: u32,
    steps: u64,
}

/// Runs the jobs, and returns how many were run. The words are the shape (`chain`, `star` or
/// `layers`), the number of jobs, the number of workers, and the number to which each job counts.
/// Returns `None` if they cannot be read, or if a job was not run.
pub(crate) fn run_jobs<R: Threads + Wait + Send + Sync>(
    rt: &R,
    alloc: Global,
    words: &[String],
) -> Option<usize> {
    let task = read_task(alloc, words)?;
    let job = Counts::new(task.steps);
    match run(rt, alloc, &task.order, task.workers, &job) {
        Ok(all) => Some(all.len()),
        Err(_) => None,
    }
}

/// Returns the word at a place as a number.
fn number(words: &[String], place: usize) -> Option<u32> {
    words.get(place)?.as_str().parse().ok()
}

/// Returns the shape with this name.
fn shape(word: &str) -> Option<Shape> {
    match word {
        "chain" => Some(Shape::Chain),
        "star" => Some(Shape::Star),
        "layers" => Some(Shape::Layers),
        _ => None,
    }
}

/// Returns the request in the words, if they can be read.
fn read_task(alloc: Global, words: &[String]) -> Option<Task> {
    let count = number(words, 1)?;
    let shape = shape(words.first()?.as_str())?;
    let lists = graph(alloc, shape, count).ok()?;
    if lists.len() > 4294967295 {
        return None;
    }
    Some(Task {
        order: order(lists).ok()?,
        workers: number(words, 2)?,
        steps: u64::from(number(words, 3)?),
    })
}
