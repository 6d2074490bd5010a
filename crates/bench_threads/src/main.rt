//! Does what `bench/pool` and `bench/live` time.
//!
//! The first word says what. `jobs` runs jobs on a graph of one shape: the other words are the
//! shape (`chain`, `star` or `layers`), the number of jobs, the number of workers, and the number
//! to which each job counts. The output is the number of jobs that were run.
//!
//! `pushes` pushes small contents into a store: the other words are the store and the number of
//! contents. The stores are:
//!
//! - `closed`: a closed store.
//! - `live`: a live store.
//! - `looked`: a live store that two looks ask for a content during the pushes.
//! - `asked`: a live store that one look asks for a content a million times after the pushes.
//!
//! The output is the number of successful pushes, the number of entries in the store or in a copy of
//! it, and the number of successful looks.
//!
//! If the words cannot be read, or a job is not run, or anything but a push runs out of memory,
//! nothing is printed, and the status is 3.
#![tactic(auto)]

mod counting;
mod jobs;
mod looking;
mod pushing;
mod stores;

use jobs::run_jobs;
use std::alloc::Global;
use std::process::ExitCode;
use std::sync::Wait;
use std::thread::Threads;
use std::{env, io};
use stores::run_pushes;

fn main(rt: HostRuntime) -> io::Result<ExitCode> {
    let words: Vec<String> = env::args(&rt)?.skip(1).collect(rt.alloc())?;
    let Some(told) = told(rt, rt.alloc(), &words) else {
        return Ok(ExitCode::from(3));
    };
    println!(rt; "{told}")?;
    Ok(ExitCode::from(0))
}

/// Does what the words say, and returns the output.
fn told<R: Threads + Wait + Send + Sync + Copy + Drop>(
    rt: R,
    alloc: Global,
    words: &[String],
) -> Option<String> {
    let (first, rest) = words.split_first()?;
    match first.as_str() {
        "jobs" => {
            let count = run_jobs(&rt, alloc, rest)?;
            format!(in alloc; "{count}").ok()
        }
        "pushes" => {
            let tally = run_pushes(rt, alloc, rest)?;
            format!(in alloc; "{tally}").ok()
        }
        _ => None,
    }
}
