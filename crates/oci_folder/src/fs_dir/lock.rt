use crate::fs_dir::leftovers::remove_leftovers;
use crate::fs_dir::paths::path_of_folder;
use std::fs::{OpenFile, TryLockError};
use std::io::ErrorKind;
use std::os::unix::fs::MetadataExt;
use std::rt::Files;
use std::{fs, io};

/// An open file or folder that one process at a time can lock, until it is closed.
pub trait Lockable {
    /// Locks it. Returns false, without waiting, if it is locked already.
    fn try_take(&self) -> io::Result<bool>;

    /// Locks it. Waits while it is locked already.
    fn take(&self) -> io::Result<()>;
}

impl Lockable for fs::File {
    fn try_take(&self) -> io::Result<bool> {
        match self.try_lock() {
            Ok(()) => Ok(true),
            Err(TryLockError::WouldBlock) => Ok(false),
            Err(TryLockError::Error(error)) => Err(error),
        }
    }

    fn take(&self) -> io::Result<()> {
        self.lock()
    }
}

/// A lock on a folder, held until this value is dropped or the process ends.
///
/// A caller that writes into the layout of a folder holds the lock from before
/// `Layout::open`, `Layout::create` or
/// `Layout::open_or_create` until after
/// `Layout::save`. If two callers write at once without it, the later `save`
/// writes an index without the other's tags and entries. A blob has the bytes of its digest with
/// and without the lock. A caller that only reads needs no lock.
///
/// The lock is on the open folder itself (`flock`), and leaves no file behind. It excludes other
/// holders of the lock, in other processes on this machine and in this process, and nothing else.
/// Machines that share a folder over a network need not see each other's locks.
///
/// Taking the lock changes no file. An empty path is the current folder, as `.` is.
///
/// # Errors
///
/// Each call returns the error of the system if the folder cannot be created, opened or locked:
/// `NotADirectory` if something else is there, `NotFound` if nothing is, or if the path no longer
/// leads to the folder that was locked, and `OutOfMemory` if memory runs out.
#[derive(Drop)]
pub struct FolderLock<R: Files + AllocGlobal> {
    locked: R::File,
    folder: String,
}

impl<R: Files + AllocGlobal> FolderLock<R>
where
    R::File: Lockable,
{
    /// Locks a folder. Waits while its lock is held elsewhere.
    ///
    /// # Errors
    ///
    /// As [`FolderLock`] says.
    pub fn lock(rt: &R, folder: &str) -> io::Result<FolderLock<R>> {
        let place = path_of_folder(folder);
        let locked = opened(rt, place)?;
        locked.take()?;
        held(rt, locked, place)
    }

    /// Locks a folder. Returns `None`, without waiting, if its lock is held elsewhere.
    ///
    /// # Errors
    ///
    /// As [`FolderLock`] says.
    pub fn try_lock(rt: &R, folder: &str) -> io::Result<Option<FolderLock<R>>> {
        let place = path_of_folder(folder);
        let locked = opened(rt, place)?;
        if locked.try_take()? {
            Ok(Some(held(rt, locked, place)?))
        } else {
            Ok(None)
        }
    }

    /// Creates a folder, and the folders above it, if it is missing. Locks it as
    /// [`lock`](FolderLock::lock) does.
    ///
    /// # Errors
    ///
    /// As [`FolderLock`] says. A folder that was created stays.
    pub fn make_and_lock(rt: &R, folder: &str) -> io::Result<FolderLock<R>> {
        fs::create_dir_all(rt, path_of_folder(folder))?;
        FolderLock::lock(rt, folder)
    }

    /// Creates a folder, and the folders above it, if it is missing. Locks it as
    /// [`try_lock`](FolderLock::try_lock) does.
    ///
    /// # Errors
    ///
    /// As [`FolderLock`] says. A folder that was created stays.
    pub fn make_and_try_lock(rt: &R, folder: &str) -> io::Result<Option<FolderLock<R>>> {
        fs::create_dir_all(rt, path_of_folder(folder))?;
        FolderLock::try_lock(rt, folder)
    }
}

impl<R: Files + AllocGlobal> FolderLock<R>
where
    R::File: Lockable,
{
    /// Removes files that a process left in the locked folder if it was killed while it wrote a
    /// layout.
    ///
    /// They are the regular files with the names of the new files of [`FsDir`](crate::FsDir), in
    /// the folders where it writes them: `index.json.R.new` and `oci-layout.R.new` in the folder
    /// itself, and `DIGITS.R.new` in `blobs/sha256` and `blobs/sha512`. `R` is a random number of
    /// 16 hexadecimal digits, and `DIGITS` has the 64 or 128 digits of the algorithm, all in lower
    /// case. Nothing is removed through a link in the place of `blobs`, `blobs/sha256` or
    /// `blobs/sha512`, since this lock does not cover the folder behind it.
    ///
    /// A file that is still being written stays, even if its process does not have this lock: the
    /// file itself is locked. A file that cannot be removed stays too.
    ///
    /// # Errors
    ///
    /// - The error of the system if a folder cannot be read or a file cannot be removed. The files
    ///   of the other folders and the other files are removed all the same. Of several errors it is
    ///   the last.
    /// - `OutOfMemory` if memory runs out. Some of the files may be removed.
    pub fn remove_leftovers(&self, rt: &R) -> io::Result<()> {
        remove_leftovers(rt, &self.folder)
    }
}

/// Opens a folder. Does not open anything else: a FIFO would wait for its writer.
pub(crate) fn opened<R: Files>(rt: &R, place: &str) -> io::Result<R::File> {
    if fs::metadata(rt, place)?.is_dir() {
        fs::File::open(rt, place)
    } else {
        Err(io::Error::from(ErrorKind::NotADirectory))
    }
}

/// Returns the lock of an open folder that was locked, if the folder is still at the place. Another
/// process may have removed it and created a new one before it was locked here.
fn held<R: Files + AllocGlobal>(rt: &R, locked: R::File, place: &str) -> io::Result<FolderLock<R>> {
    if !is_at(rt, &locked, place)? {
        return Err(io::Error::from(ErrorKind::NotFound));
    }
    let folder = String::from_str(rt.alloc(), place)?;
    Ok(FolderLock { locked, folder })
}

/// Returns whether an open folder is the one at a path.
fn is_at<R: Files>(rt: &R, file: &R::File, path: &str) -> io::Result<bool> {
    let (open, there) = (file.metadata()?, fs::metadata(rt, path)?);
    Ok(open.dev() == there.dev() && open.ino() == there.ino())
}
