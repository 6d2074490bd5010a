//! `ocicp`: copies OCI content between stores, and reads image layouts.
//!
//! The whole program is [`run::run_words`]. It takes the words after the program's name and two
//! writers, and returns the exit status. [`process::run_process`] runs it with the words and the
//! outputs of the process.
#![tactic(auto)]

mod escaped;
mod meaning;
mod place;
mod process;
mod run;
mod sides;
mod spooled;

use process::run_process;
use std::process::ExitCode;

fn main(rt: HostRuntime) -> ExitCode {
    ExitCode::from(run_process(&rt, rt.stdout(), &mut rt.stderr()))
}
