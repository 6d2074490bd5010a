ghost use Rattle.std.specs.Prelude.{◌≡◌, option_map};
ghost use Rattle.oci_dir.specs.Device.{IsRead};
ghost use Rattle.oci_dir.specs.Prunable.{by_name, IsDraftRemoval, IsRemoval, ListsFiles, ListsFolder};

use crate::dir::Dir;
use crate::fault::DirFault;

/// A directory whose files and drafts can be listed and removed. A draft is no file: reads find none
/// at its path, and `list` leaves it out.
pub trait PrunableDir: Dir {
    /// Returns the names of the files directly in a folder, each with its length in bytes, in no
    /// order. Leaves out names that are not UTF-8. A link counts as a file of its own length, and a
    /// subfolder as a file without bytes. A folder that does not exist has no files.
    ///
    /// # Errors
    ///
    /// - 90 `Failed` if the folder cannot be read.
    /// - 91 `Memory` if memory runs out.
    fn list(&self, folder: &str) -> Result<Vec<(String, u64)>, DirFault>
        ensures { IsRead (Self.device self.now)
            (λ files. ListsFolder (Self.device self.now).file folder.now (by_name files.items))
            result };

    /// Returns the paths of the drafts that killed processes left, each with its length in bytes.
    /// Leaves out a draft that a process is still writing.
    ///
    /// # Errors
    ///
    /// - 90 `Failed` if a folder or a draft cannot be read.
    /// - 91 `Memory` if memory runs out.
    fn leftovers(&self) -> Result<Vec<(String, u64)>, DirFault>
        ensures { IsRead (Self.device self.now)
            (λ drafts. ListsFiles (Self.device self.now).draft (by_name drafts.items)) result };

    /// Returns the first of `blobs`, `blobs/sha256` and `blobs/sha512` that is a link.
    ///
    /// # Errors
    ///
    /// - 90 `Failed` if that cannot be found out.
    /// - 91 `Memory` if memory runs out.
    fn linked(&self) -> Result<Option<&'static str>, DirFault>
        ensures { IsRead (Self.device self.now)
            (λ found. option_map (λ path. path.now) found ≡ (Self.device self.now).link) result };

    /// Removes a file, or a link itself. Returns false if there is none.
    ///
    /// # Errors
    ///
    /// - 90 `Failed` if it cannot be removed.
    /// - 91 `Memory` if memory runs out.
    fn remove(&mut self, path: &str) -> Result<bool, DirFault>
        ensures { IsRemoval (Self.device self.old) (Self.device self.new) path.now result };

    /// Removes the draft at a path that a killed process left. Returns false if there is none, or
    /// if a process is still writing it.
    ///
    /// # Errors
    ///
    /// - 90 `Failed` if it cannot be removed.
    /// - 91 `Memory` if memory runs out.
    fn remove_draft(&mut self, path: &str) -> Result<bool, DirFault>
        ensures { IsDraftRemoval (Self.device self.old) (Self.device self.new) path.now result };
}
