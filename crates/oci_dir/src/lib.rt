//! Directories: named files that can be read, and put as a whole.
//!
//! [`Dir`] is a directory, and [`PrunableDir`] one whose files can also be listed and removed.
//! [`MemDir`] keeps its files in memory and may have a fuse, for tests of callers. Callers can
//! implement `Dir` themselves; `oci_folder` does for a folder of the file system.
//!
//! A directory in memory returns what was written to it, by proof. Statements about the files of
//! another one assume that it does, and that no other program writes into it. Each directory says
//! what a crash may leave of its files.
//!
//! The faults, [`DirFault`], have the numbers 90 and 91. A fault says neither the path nor the
//! system's reason: a [`FirstFailure`] notes them, of the first call that fails.
#![tactic(auto)]

mod dir;
mod fault;
mod first_failure;
mod mem_dir;
mod prunable_dir;

pub use dir::Dir;
pub use fault::DirFault;
pub use first_failure::{Failure, FirstFailure};
pub use mem_dir::MemDir;
pub use prunable_dir::PrunableDir;
