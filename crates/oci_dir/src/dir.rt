ghost use Rattle.std.specs.Prelude.{◌≡◌, ◌≤◌, [], ℕ, List, length, map, is_some, option_map, string_bytes, IfSome, IfOk, OnOk, IsErrOf};
ghost use Rattle.oci_dir.specs.Crash.{IsReplaced, IsSettling, LeavesPut, NoMore, NoMoreBut};
ghost use Rattle.oci_dir.specs.Device.{AfterPuts, Device, IsPut, IsRead, Only, Same, Touches, of_length, part_in};

use crate::fault::DirFault;
use crate::first_failure::FirstFailure;
use bytes::Bytes;
use oci_digest::NoMemory;
use oci_store::{Drafting, part_of};

/// A directory of files. A path is relative and has `/` between its parts. A layout uses only the
/// paths `oci-layout`, `index.json` and `blobs/ALGORITHM/DIGITS`, and those of drafts that a
/// [`PrunableDir`](crate::PrunableDir) has found.
pub trait Dir {
    /// The meaning of the directory at this moment.
    ghost device: { Self → Device };

    /// Returns the bytes of a file, or `None` if there is no such file.
    ///
    /// # Errors
    ///
    /// - 90 `Failed` if the file cannot be read.
    /// - 91 `Memory` if memory runs out.
    fn read(&self, path: &str) -> Result<Option<Bytes>, DirFault>
        ensures { IsRead (device self.now) (λ found. found ≡ (device self.now).file path.now)
            result };

    /// Returns at most `most` bytes of a file, from position `from` on, and fewer only at its end.
    /// Returns `None` if there is no such file.
    ///
    /// # Errors
    ///
    /// - 90 `Failed` if the file cannot be read.
    /// - 91 `Memory` if memory runs out.
    fn read_part(&self, path: &str, from: u64, most: usize) -> Result<Option<Bytes>, DirFault>
        ensures short { IfOk result (λ found. IfSome found (λ part. length part ≤ most)) }
        ensures part { IsRead (device self.now)
            (λ found. found ≡ part_in ((device self.now).file path.now) from most) result }
    {
        match self.read(path)? {
            Some(bytes) => Ok(Some(part_of(&bytes, from, most)?)),
            None => Ok(None),
        }
    }

    /// Returns whether there is such a file.
    ///
    /// # Errors
    ///
    /// - 90 `Failed` if that cannot be found out.
    /// - 91 `Memory` if memory runs out.
    fn exists(&self, path: &str) -> Result<bool, DirFault>
        ensures { IsRead (device self.now)
            (λ found. found ≡ is_some ((device self.now).file path.now)) result };

    /// Returns the length of a file in bytes, or `None` if there is no such file. Of something that
    /// is no regular file it is a number that no key has as its size.
    ///
    /// # Errors
    ///
    /// - 90 `Failed` if that cannot be found out.
    /// - 91 `Memory` if memory runs out.
    fn size(&self, path: &str) -> Result<Option<u64>, DirFault>
        ensures { IsRead (device self.now)
            (λ found. found ≡ option_map length ((device self.now).file path.now)) result }
    {
        match self.read(path)? {
            Some(bytes) => Ok(Some(bytes.len() as u64)),
            None => Ok(None),
        }
    }

    /// Returns the bytes of a file of this length, or `None` if there is no such file, it has
    /// another length, or it is no regular file.
    ///
    /// # Errors
    ///
    /// - 90 `Failed` if the file cannot be read.
    /// - 91 `Memory` if memory runs out.
    fn read_of_length(&self, path: &str, length: u64) -> Result<Option<Bytes>, DirFault>
        ensures { IsRead (device self.now)
            (λ found. found ≡ of_length length ((device self.now).file path.now)) result }
    {
        match self.size(path)? {
            Some(size) if size == length => self.read(path),
            _ => Ok(None),
        }
    }

    /// Replaces the bytes of a file. Creates the file and its folders if they are missing.
    ///
    /// # Errors
    ///
    /// - 90 `Failed` if the file cannot be written. It may then have any bytes.
    /// - 91 `Memory` if memory runs out. The file is then unchanged.
    fn put(&mut self, path: &str, bytes: &[u8]) -> Result<(), DirFault>
        ensures put { IsPut (device self.old) (device self.new) path.now (Only bytes.now) result }
        ensures left { (device self.old).is_honest
            → NoMoreBut (device self.old) (device self.new) path.now };

    /// Replaces the bytes of a file as a whole: a crash leaves the old file or the new one, and
    /// never a part. Creates the file and its folders if they are missing.
    ///
    /// # Errors
    ///
    /// - 90 `Failed` if the file cannot be written.
    /// - 91 `Memory` if memory runs out. The file is then unchanged.
    fn replace(&mut self, path: &str, bytes: &[u8]) -> Result<(), DirFault>
        ensures { IsReplaced (device self.old) (device self.new) path.now bytes.now result };

    /// Waits until these files and their names are on the disk, or, for a path without a file, that
    /// there is none. A crash then leaves them as they are.
    ///
    /// # Errors
    ///
    /// - 90 `Failed` if that is not known, as when the disk failed.
    /// - 91 `Memory` if memory runs out.
    fn settle(&mut self, paths: &[String]) -> Result<(), DirFault>
        ensures { IsSettling (device self.old) (device self.new) (map string_bytes paths.now)
            result };

    /// Content being written to a file; not visible under any path until it is kept.
    type Draft: Drafting + Drop;

    /// Creates an empty draft of a file.
    ///
    /// # Errors
    ///
    /// `NoMemory` if memory runs out.
    fn draft(&self, path: &str) -> Result<Self::Draft, NoMemory>
        ensures { IfOk result (λ draft. Self.Draft.drafted draft []) };

    /// Creates an empty draft of a file, all of whose bytes are written, also those that the file
    /// begins with already.
    ///
    /// # Errors
    ///
    /// `NoMemory` if memory runs out.
    fn fresh_draft(&self, path: &str) -> Result<Self::Draft, NoMemory>
        ensures { IfOk result (λ draft. Self.Draft.drafted draft []) }
    {
        self.draft(path)
    }

    /// Replaces the bytes of a file with the bytes of a draft. A lost draft is never kept. If there
    /// was a file, a crash leaves it as it was, or with the bytes of the draft. If there was none, a
    /// crash may leave anything at the path.
    ///
    /// # Errors
    ///
    /// - 90 `Failed` if the file cannot be written, or an earlier write of the draft failed. The
    ///   file may then have any bytes.
    /// - 91 `Memory` if memory runs out. The file is then unchanged.
    fn keep(&mut self, path: &str, draft: Self::Draft) -> Result<(), DirFault>
        ensures put { IsPut (device self.old) (device self.new) path.now
            (Self.Draft.drafted draft) result }
        ensures left { (device self.old).is_honest → LeavesPut (device self.old)
            (device self.new) path.now (Self.Draft.drafted draft) }
        ensures lost { Self.Draft.is_lost draft → OnOk result ⊥ }
        ensures lost_left { Self.Draft.is_lost draft → (device self.old).is_honest
            → NoMore (device self.old) (device self.new) };

    /// Replaces the bytes of a file with the bytes of a draft, as a whole: a crash leaves the old
    /// file or the new one, and never a part. Creates the file and its folders if they are missing.
    /// An empty folder in its place is removed. A lost draft is never put.
    ///
    /// # Errors
    ///
    /// - 90 `Failed` if the file cannot be written, or an earlier write of the draft failed.
    /// - 91 `Memory` if memory runs out. The file is then unchanged.
    fn restore(&mut self, path: &str, draft: Self::Draft) -> Result<(), DirFault>
        ensures replaced { (bytes : List ℕ) → Self.Draft.drafted draft bytes
            → IsReplaced (device self.old) (device self.new) path.now bytes result }
        ensures lost { Self.Draft.is_lost draft → OnOk result ⊥ }
        ensures lost_same { Self.Draft.is_lost draft → (device self.old).is_honest
            → Same (device self.old).file (device self.new).file
            × NoMore (device self.old) (device self.new) }
        ensures other { (device self.old).is_honest
            → Touches (device self.old).file (device self.new).file path.now }
        ensures device { AfterPuts (device self.old) (device self.new)
            (IsErrOf result DirFault.Failed) };

    /// Returns whether a folder with contents stands at the path of a file, so that the file cannot
    /// be put.
    ///
    /// # Errors
    ///
    /// - 90 `Failed` if that cannot be found out.
    /// - 91 `Memory` if memory runs out.
    fn is_blocked(&self, _path: &str) -> Result<bool, DirFault> {
        Ok(false)
    }

    /// Returns whether a read or a removal may fail with `Failed`.
    fn may_fail_reads(&self) -> bool
        ensures { result ≡ (device self.now).fails_reads };

    /// Returns how many puts have failed. The count stays at the greatest `u64` once it is there.
    fn failures(&self) -> u64
        ensures { result ≡ (device self.now).failures };

    /// Returns where the directory notes the first call of the system that fails in it, if it does.
    fn first_failure(&self) -> Option<&FirstFailure> {
        None
    }
}
