use crate::fault::ProgramFault;
use oci_dir::{Dir, FirstFailure};
use oci_folder::{FolderLock, Lockable};
use oci_layout_store::LayoutFault;
use std::io::Write;
use std::rt::Files;

/// Refuses a directory that has no layout. Its folder need not exist, so a command that changes a
/// layout checks this before it locks the folder.
///
/// # Errors
///
/// - 70 `NoLayoutFile` if there is no file `oci-layout`.
/// - 74 `Device` if that cannot be found out.
/// - Out of memory, at any point.
pub fn check_is_layout<D: Dir>(dir: &D) -> Result<(), ProgramFault> {
    match dir.exists("oci-layout") {
        Ok(true) => Ok(()),
        Ok(false) => Err(ProgramFault::Layout(LayoutFault::NoLayoutFile)),
        Err(fault) => Err(ProgramFault::Layout(LayoutFault::from(fault))),
    }
}

/// Locks the folder that a command writes into. If another process has the lock, prints this on
/// `err` and waits, or refuses the command unless it `waits`. A failure of the system is noted in
/// `first`, if it is there.
///
/// # Errors
///
/// - 74 `Device` if the folder cannot be opened or locked.
/// - 99 `Locked` if another process has the lock, and the command does not wait.
/// - Out of memory, at any point.
pub fn lock_folder<R: Files<File: Lockable> + AllocGlobal, X: Write>(
    rt: &R,
    folder: &str,
    first: Option<&FirstFailure>,
    waits: bool,
    err: &mut X,
) -> Result<FolderLock<R>, ProgramFault> {
    match FolderLock::try_lock(rt, folder) {
        Ok(Some(lock)) => Ok(lock),
        Ok(None) => wait_for(rt, folder, first, waits, err),
        Err(error) => Err(ProgramFault::of_folder(first, folder, error)),
    }
}

/// Locks a folder as [`lock_folder`] does. Creates it, and the folders above it, if it is missing.
///
/// # Errors
///
/// - 74 `Device` if the folder cannot be created, opened or locked.
/// - 99 `Locked` if another process has the lock, and the command does not wait.
/// - Out of memory, at any point.
pub fn make_and_lock_folder<R: Files<File: Lockable> + AllocGlobal, X: Write>(
    rt: &R,
    folder: &str,
    first: Option<&FirstFailure>,
    waits: bool,
    err: &mut X,
) -> Result<FolderLock<R>, ProgramFault> {
    match FolderLock::make_and_try_lock(rt, folder) {
        Ok(Some(lock)) => Ok(lock),
        Ok(None) => wait_for(rt, folder, first, waits, err),
        Err(error) => Err(ProgramFault::of_folder(first, folder, error)),
    }
}

/// Waits for the lock of a folder, or refuses the command unless it `waits`.
fn wait_for<R: Files<File: Lockable> + AllocGlobal, X: Write>(
    rt: &R,
    folder: &str,
    first: Option<&FirstFailure>,
    waits: bool,
    err: &mut X,
) -> Result<FolderLock<R>, ProgramFault> {
    let place = if folder.is_empty() { "." } else { folder };
    if !waits {
        return Err(ProgramFault::Locked(String::from_str(rt.alloc(), place)?));
    }
    let _ = writeln!(
        err,
        "ocicp: waiting for another process that writes into {place}"
    );
    match FolderLock::lock(rt, folder) {
        Ok(lock) => Ok(lock),
        Err(error) => Err(ProgramFault::of_folder(first, folder, error)),
    }
}
