//! Why a prune failed: [`PruneFault`], with its number.
//!
//! The fault stands apart from `oci_prune`, which passes it on under its own name, so that a program's
//! faults can hold it without the prune. [`of_fetch`] and [`of_manifest`] make it of faults from below.
#![tactic(auto)]

mod fault;

pub use fault::{PruneFault, of_fetch, of_manifest};
