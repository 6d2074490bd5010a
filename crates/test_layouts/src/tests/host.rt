//! The bounds on the runtime of the tests.

use oci_layout::Lockable;
use std::random::RandomSource;
use std::rt::Files;

/// The bounds on the runtime of a test in a folder, apart from threads: files, random numbers and
/// memory.
pub(crate) trait Host: Files<File: Lockable + Send, Dir: Send>
    + AllocGlobal
    + RandomSource
    + Clone
    + Sync {}

impl Host for HostRuntime {}
