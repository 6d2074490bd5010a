//! Tests of prunes, run through the public calls of `oci_prune`.
//!
//! The contracts state which keys are kept and removed, and what belongs to a key. The tests show the
//! rest, on directories in memory: that a plan, a prune and a search for what belongs to a key
//! succeed if memory is available, and what a prune leaves of a directory that takes no more files.
#![tactic(auto)]

#[cfg(test)]
mod tests;
