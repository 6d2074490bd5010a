//! Calls of the library during which a check makes allocations fail: each allocation of a run in
//! turn, in another run each time.
//!
//! The word is one of these. Without a word all of them are run, one after the other.
//!
//! | Word | Run |
//! |---|---|
//! | `one` | a copy of two images on the calling thread, twice |
//! | `workers` | a copy of two images by three workers, twice |
//! | `referrers` | a copy of an image with its direct referrers, twice |
//! | `round-trip` | a layout is created, filled, saved and reopened; a failed step is repeated |
//! | `live` | a copy into a live store while a look is open, twice |
//!
//! A line reports the result of each step, and the contents of the destination afterwards. If there
//! is no memory for anything but these steps, the line is not printed, and the status is 1.
#![tactic(auto)]

mod copies;
mod line;
mod live;
mod round_trip;
mod stores;

use copies::{Call, copied_twice};
use line::Line;
use live::looked_at;
use round_trip::taken_round;
use std::alloc::Global;
use std::env;
use std::sync::Wait;
use std::test::Fail;
use std::thread::Threads;

const ALL: [&str; 5] = ["one", "workers", "referrers", "round-trip", "live"];

fn main(rt: HostRuntime) -> Result<(), Fail> {
    let wanted = env::args(&rt)?.nth(1);
    for name in ALL {
        if is_wanted(&wanted, name) {
            let line = line_of(rt, rt.alloc(), name)?;
            println!(rt; "{name}:{line}")?;
        }
    }
    Ok(())
}

/// Returns whether the word, if there is one, requests this run.
fn is_wanted(wanted: &Option<String>, name: &str) -> bool {
    match wanted {
        Some(word) => word.as_str() == name,
        None => true,
    }
}

/// Returns the line of a run.
fn line_of<R: Threads + Wait + Send + Sync + Copy + Drop>(
    rt: R,
    alloc: Global,
    name: &str,
) -> Result<String, Fail> {
    let mut line = Line::new(alloc);
    run(rt, alloc, name, &mut line)?;
    Ok(line.into_text()?)
}

/// Runs the steps.
fn run<R: Threads + Wait + Send + Sync + Copy + Drop>(
    rt: R,
    alloc: Global,
    name: &str,
    line: &mut Line,
) -> Result<(), Fail> {
    match name {
        "one" => copied_twice(&rt, alloc, Call::One, line),
        "workers" => copied_twice(&rt, alloc, Call::Workers, line),
        "referrers" => copied_twice(&rt, alloc, Call::Referrers, line),
        "round-trip" => taken_round(&rt, alloc, line),
        _ => looked_at(rt, alloc, line),
    }
}
