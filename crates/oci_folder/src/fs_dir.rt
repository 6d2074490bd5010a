ghost use Rattle.std.specs.Prelude.{◌≡◌, IfOk, IsErrOf};
ghost use Rattle.oci_dir.specs.Device.{AfterPuts};
ghost use Rattle.oci_folder.specs.Folder.{folder};

use bytes::Bytes;
use oci_digest::NoMemory;
use oci_dir::{Dir, DirFault, FirstFailure};
use std::collections::BTreeSet;
use std::fs;
use std::io::ErrorKind;
use std::marker::Model;
use std::random::RandomSource;
use std::rt::Files;

mod beside;
mod draft;
mod files;
mod leftovers;
mod links;
mod lock;
mod paths;
mod prunable;
mod settling;

pub use draft::FsDraft;
use draft::finish;
use files::{failed, file_of_length, has_contents, is_absence, part_of_file, whole_file};
pub use leftovers::remove_leftovers_of;
pub use lock::{FolderLock, Lockable};
pub use paths::folder_and_name;
use settling::{Syncs, note_paths};

/// A folder of the file system.
///
/// A put or a draft writes a new file and renames it to the one that it replaces: `NAME.R.new` to
/// `NAME`, with 16 random hexadecimal digits for `R`. So a process that is killed halfway leaves
/// the old file or the new one. The file `NAME.R.new` that it may also leave is never taken for a
/// blob, and [`FolderLock::remove_leftovers`] removes it. No two writers ever have the same such
/// file, and one that another process removes is not renamed. So a file has the bytes of one put or
/// one draft, whatever other processes of this library do at the same time. A caller that changes a
/// layout holds the folder's [`FolderLock`] until it has saved, since otherwise tags or entries of
/// the index may be lost. A draft of the bytes that the file already has writes nothing.
///
/// The file `NAME.R.new` is a draft and no file of the directory: reads find none at its path, and
/// `list` leaves it out. A put, a kept draft or a removal there fails with `Failed`, and so it does
/// at `blobs`, `blobs/sha256` or `blobs/sha512`, since a link may stand there.
///
/// A path that leaves the folder, by a part `..` or as an absolute one, fails with `Failed`. So
/// does a read of anything but a regular file or a link to one; only `read_of_length` then returns
/// `None`. A put or `settle` at `oci-layout` or `index.json` refuses a link in its place: the link
/// may lead out of the folder, and a put would leave what it leads to as it is. `read` refuses one
/// there that leads to no file. If the system is
/// out of memory, a call fails with `Memory`, and for any other error of the system with `Failed`.
///
/// # What is on the disk, and when
///
/// Each sync is an `fsync`. It is a premise that a file or a folder for which it returned is there
/// after a power cut, with its bytes or its names.
///
/// - A put, a replacement and a kept draft sync the new file before they rename it. So no path ever
///   has a file whose bytes are not on the disk. A draft that was settled, and got no bytes since,
///   is not synced again. A draft of the bytes that the file already has syncs nothing.
/// - `settle` syncs the files at its paths, but for those that this value has itself written or
///   settled. What another process wrote, and was killed, may not be on the disk. Then `settle`
///   syncs the folders of the paths, up to the folder itself, each once.
/// - The first `settle` also syncs the folders above the folder, since this process or a killed one
///   may have made them. It goes up as far as the path of the folder says, and ends at the root, at
///   the current folder, where another file system begins, and at a folder that may not be read:
///   what is above is taken to be on the disk.
/// - `settle` follows links to blobs, and syncs what they lead to. It passes over what is no regular file.
/// - A file system that cannot sync folders, and says so (`EINVAL` or `EOPNOTSUPP`), is taken to
///   keep their names without.
///
/// A failed sync is final, since the system may count bytes as written that it has lost. Each call
/// of this value and of its drafts that has to sync fails from then on. A new value knows nothing
/// of that. So after such a failure look at the disk and verify the layout before more is written.
///
/// [`unsynced`](FsDir::unsynced) returns a folder that never syncs.
///
/// No code can show the contents of a folder, so nothing is proved about them. That the folder is
/// honest is a premise of its users.
#[derive(Drop)]
pub struct FsDir<'r, R: Files + AllocGlobal> {
    rt: &'r R,
    first: Option<&'r FirstFailure>,
    folder: String,
    failures: u64,
    syncs: Syncs,
    /// The paths of files whose bytes this value has put onto the disk, unless it never syncs.
    on_disk: BTreeSet<String>,
    /// Whether the folders above the folder are on the disk.
    is_named: bool,
}

impl<'r, R: Files + AllocGlobal> Model for FsDir<'r, R> {
    ghost use Rattle.std.specs.Prelude.{ℕ, List, string_bytes};

    ghost Value = { List ℕ × ℕ };

    ghost view = { λ d. (string_bytes d.folder, d.failures) };
}

impl<'r, R: Files + AllocGlobal> FsDir<'r, R> {
    /// Returns the folder at a path. An empty path is the current folder, as `.` is. Creates
    /// nothing: the folder need not exist.
    ///
    /// # Errors
    ///
    /// `NoMemory` if memory runs out.
    pub fn new(rt: &'r R, folder: &str) -> Result<FsDir<'r, R>, NoMemory>
        ensures { IfOk result (λ dir. dir ≡ (folder.now, 0)) }
    {
        FsDir::with(rt, folder, None)
    }

    /// Returns the folder at a path, as [`new`](FsDir::new) does. The first call of the system that
    /// fails in the folder is noted.
    ///
    /// # Errors
    ///
    /// `NoMemory` if memory runs out.
    pub fn noting(
        rt: &'r R,
        folder: &str,
        first: &'r FirstFailure,
    ) -> Result<FsDir<'r, R>, NoMemory>
        ensures { IfOk result (λ dir. dir ≡ (folder.now, 0)) }
    {
        FsDir::with(rt, folder, Some(first))
    }

    /// Returns the folder at a path, where failures are noted in `first`, if it is there.
    fn with(
        rt: &'r R,
        folder: &str,
        first: Option<&'r FirstFailure>,
    ) -> Result<FsDir<'r, R>, NoMemory>
        ensures { IfOk result (λ dir. dir ≡ (folder.now, 0)) }
    {
        let folder = String::from_str(rt.alloc(), folder)?;
        let syncs = Syncs::new(rt.alloc())?;
        Ok(FsDir {
            rt,
            first,
            folder,
            failures: 0,
            syncs,
            on_disk: BTreeSet::new(rt.alloc()),
            is_named: false,
        })
    }

    /// Returns the same folder, but one that never syncs: no put, draft or `settle` waits for
    /// the disk. That is for a layout in a scratch folder, which is made again after a power cut.
    ///
    /// A power cut, also one some time after the process has ended, may leave each file that was
    /// written so torn, empty or missing, and the file that it replaced is lost. If `index.json` is
    /// such a file, the layout cannot be opened any more. A torn blob is found by its digest.
    pub fn unsynced(self) -> FsDir<'r, R>
        ensures { result ≡ self.entry }
    {
        let mut dir = self;
        dir.syncs.turn_off();
        dir
    }

    /// Removes the empty folder at the path of a file, if there is one. If that fails, the put of the
    /// file finds out why.
    fn remove_empty_folder(&self, path: &str) -> Result<(), NoMemory> {
        let place = match self.file_place(path) {
            Ok(place) => place,
            Err(DirFault::Failed) => return Ok(()),
            Err(DirFault::Memory) => return Err(NoMemory),
        };
        match fs::remove_dir(self.rt, &place) {
            Err(error) if error.kind() == ErrorKind::OutOfMemory => Err(NoMemory),
            _ => Ok(()),
        }
    }

    /// Counts a put that failed. After one that wrote a file, notes its path. Returns the result of
    /// the put.
    #[tactic(auto, unfolding(crate::specs::Folder::IsWatched))]
    fn counted(&mut self, wrote: Option<&str>, answer: Result<(), DirFault>) -> Result<(), DirFault>
        ensures same { result ≡ answer }
        ensures folder { self.new.0 ≡ self.old.0 }
        ensures counted { AfterPuts (folder self.old) (folder self.new)
            (IsErrOf result DirFault.Failed) }
    {
        match answer {
            Ok(()) => {
                self.note_written(wrote);
                Ok(())
            }
            Err(DirFault::Memory) => Err(DirFault::Memory),
            Err(DirFault::Failed) => {
                self.failures = self.failures.saturating_add(1);
                Err(DirFault::Failed)
            }
        }
    }
}

impl<'r, R: Files + AllocGlobal + RandomSource> Dir for FsDir<'r, R>
where
    R::File: Lockable,
{
    ghost use Rattle.oci_folder.specs.Folder.{folder};

    ghost device = { folder };

    #[tactic(auto, unfolding(crate::specs::Folder::IsWatched))]
    fn read(&self, path: &str) -> Result<Option<Bytes>, DirFault> {
        let Some(place) = self.read_place(path)? else {
            return Ok(None);
        };
        match whole_file(self.rt, &place) {
            Ok(bytes) => match Bytes::from_vec(bytes) {
                Ok(bytes) => Ok(Some(bytes)),
                Err(_) => Err(DirFault::Memory),
            },
            Err(error) if is_absence(&error) => {
                self.refuse_link(path)?;
                Ok(None)
            }
            Err(error) => Err(failed(self.first, &place, error)),
        }
    }

    #[tactic(auto, unfolding(crate::specs::Folder::IsWatched))]
    fn read_part(&self, path: &str, from: u64, most: usize) -> Result<Option<Bytes>, DirFault> {
        let Some(place) = self.read_place(path)? else {
            return Ok(None);
        };
        match part_of_file(self.rt, &place, from, most) {
            Ok(bytes) if bytes.len() <= most => match Bytes::from_vec(bytes) {
                Ok(bytes) => Ok(Some(bytes)),
                Err(_) => Err(DirFault::Memory),
            },
            Ok(_) => Err(DirFault::Failed),
            Err(error) if is_absence(&error) => Ok(None),
            Err(error) => Err(failed(self.first, &place, error)),
        }
    }

    #[tactic(auto, unfolding(crate::specs::Folder::IsWatched))]
    fn exists(&self, path: &str) -> Result<bool, DirFault> {
        let Some(place) = self.read_place(path)? else {
            return Ok(false);
        };
        match fs::exists(self.rt, &place) {
            Ok(found) => Ok(found),
            Err(error) if is_absence(&error) => Ok(false),
            Err(error) => Err(failed(self.first, &place, error)),
        }
    }

    #[tactic(auto, unfolding(crate::specs::Folder::IsWatched))]
    fn size(&self, path: &str) -> Result<Option<u64>, DirFault> {
        let Some(place) = self.read_place(path)? else {
            return Ok(None);
        };
        match fs::metadata(self.rt, &place) {
            Ok(metadata) if metadata.is_file() => Ok(Some(metadata.len())),
            // (no key has this size, so this is a damaged blob)
            Ok(_) => Ok(Some(u64::MAX)),
            Err(error) if is_absence(&error) => Ok(None),
            Err(error) => Err(failed(self.first, &place, error)),
        }
    }

    #[tactic(auto, unfolding(crate::specs::Folder::IsWatched))]
    fn read_of_length(&self, path: &str, length: u64) -> Result<Option<Bytes>, DirFault> {
        let Some(place) = self.read_place(path)? else {
            return Ok(None);
        };
        match file_of_length(self.rt, &place, length) {
            Ok(None) => Ok(None),
            Ok(Some(bytes)) => match Bytes::from_vec(bytes) {
                Ok(bytes) => Ok(Some(bytes)),
                Err(_) => Err(DirFault::Memory),
            },
            Err(error) if is_absence(&error) => Ok(None),
            Err(error) => Err(failed(self.first, &place, error)),
        }
    }

    /// As [`replace`](Dir::replace): the file is always replaced as a whole.
    #[tactic(auto, unfolding(crate::specs::Folder::IsWatched))]
    fn put(&mut self, path: &str, bytes: &[u8]) -> Result<(), DirFault> {
        self.replace(path, bytes)
    }

    #[tactic(auto, unfolding(crate::specs::Folder::IsWatched))]
    fn replace(&mut self, path: &str, bytes: &[u8]) -> Result<(), DirFault> {
        let answer = self.write(path, bytes);
        self.counted(Some(path), answer)
    }

    #[tactic(auto, unfolding(crate::specs::Folder::IsWatched))]
    fn settle(&mut self, paths: &[String]) -> Result<(), DirFault> {
        self.refuse_links(paths)?;
        if self.syncs.is_off() {
            return Ok(());
        }
        let synced = self.sync_files(paths)?;
        self.sync_folders(paths)?;
        self.is_named = self.is_named || self.sync_above()?;
        note_paths(&mut self.on_disk, synced);
        Ok(())
    }

    type Draft = FsDraft<'r, R>;

    fn draft(&self, path: &str) -> Result<FsDraft<'r, R>, NoMemory> {
        let syncs = self.syncs.share()?;
        match self.place(path) {
            Ok(place) => Ok(FsDraft::at(self.rt, self.first, syncs, place)),
            Err(DirFault::Memory) => Err(NoMemory),
            Err(DirFault::Failed) => Ok(FsDraft::nowhere(self.rt, syncs)),
        }
    }

    /// A file that has just the bytes of the draft already may not be on the disk. Only `settle`
    /// syncs it.
    #[tactic(auto, unfolding(crate::specs::Folder::IsWatched))]
    fn keep(&mut self, path: &str, draft: FsDraft<'r, R>) -> Result<(), DirFault> {
        let wrote = if draft.is_written() { Some(path) } else { None };
        let answer = self
            .file_place(path)
            .and_then(|place| finish(draft, &place));
        self.counted(wrote, answer)
    }

    fn fresh_draft(&self, path: &str) -> Result<FsDraft<'r, R>, NoMemory> {
        let mut draft = self.draft(path)?;
        draft.write_all_bytes();
        Ok(draft)
    }

    #[tactic(auto, unfolding(crate::specs::Folder::IsWatched))]
    fn restore(&mut self, path: &str, draft: FsDraft<'r, R>) -> Result<(), DirFault> {
        self.remove_empty_folder(path)?;
        self.keep(path, draft)
    }

    /// A link is no folder.
    fn is_blocked(&self, path: &str) -> Result<bool, DirFault> {
        let place = self.place(path)?;
        match has_contents(self.rt, &place) {
            Ok(found) => Ok(found),
            Err(error) if is_absence(&error) => Ok(false),
            Err(error) => Err(failed(self.first, &place, error)),
        }
    }

    fn may_fail_reads(&self) -> bool {
        true
    }

    fn failures(&self) -> u64 {
        self.failures
    }

    fn first_failure(&self) -> Option<&FirstFailure> {
        self.first
    }
}
