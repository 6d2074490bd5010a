use oci_archive::ReadAt;
use oci_folder::Lockable;
use std::random::RandomSource;
use std::rt::Files;
use std::sync::Wait;
use std::thread::Threads;
use std::time::Clock;

/// The runtime that the program needs: files that can be locked, and read at positions by several
/// workers, memory, random names for new files, a clock for the progress line, and threads. Each
/// runtime that has these is a host.
pub trait Host: Files<File: Lockable + ReadAt + Send + Sync, Dir: Send>
    + AllocGlobal
    + RandomSource
    + Clock
    + Threads
    + Wait
    + Sync {}

impl<R> Host for R
where
    R: Files<File: Lockable + ReadAt + Send + Sync, Dir: Send>,
    R: AllocGlobal + RandomSource + Clock + Threads + Wait + Sync,
{}
