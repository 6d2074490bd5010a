//! Tests of the workers, run through the public calls of `oci_pool`.
//!
//! This crate has only tests, of facts that no contract of the pool states: a run ends, and
//! succeeds if memory suffices; two workers run at once; a job starts after the jobs of its
//! successors have ended; each job is run once; and no result is lost. Each test that starts
//! threads ends by itself under any schedule.
//!
//! `graphs` makes the orders, `jobs` has the jobs, and `tests` has a module for each subject:
//! `boards`, `runs` (results and errors), `meetings` (jobs that wait for each other) and `flags`
//! (jobs that look whether their successors have run).
#![tactic(auto)]

#[cfg(test)]
mod graphs;
#[cfg(test)]
mod jobs;
#[cfg(test)]
mod tests;
