use crate::fs_dir::FsDir;
use crate::fs_dir::files::{failed, part_of_file};
use crate::fs_dir::lock::Lockable;
use crate::fs_dir::settling::Syncs;
use oci_dir::{DirFault, FirstFailure};
use std::fs::OpenFile;
use std::io::{ErrorKind, Write};
use std::os::unix::fs::{MetadataExt, chown};
use std::random::RandomSource;
use std::rt::Files;
use std::{fs, io};

/// The number of bytes that are copied at a time.
const PART: u64 = 1_048_576;

/// The number of names that are tried before a write fails. Two random names are equal once in 2^64
/// times, so a name that is taken shows that the random source repeats itself.
const TRIES: u32 = 16;

/// A new file beside the place to which it will be renamed. Its name is the place's name, then 16
/// random hexadecimal digits and `.new`, and no file had that name before. It is open and locked
/// from before its first byte until after it is renamed. So no other process of this library writes
/// into it, or takes it for a file that a killed process left. If it is removed all the same, its
/// renaming fails. It is removed if it is dropped before it is renamed.
pub(crate) struct Beside<'r, R: Files + AllocGlobal> {
    rt: &'r R,
    first: Option<&'r FirstFailure>,
    path: String,
    file: R::File,
    is_settled: bool,
}

impl<'r, R: Files + AllocGlobal> Drop for Beside<'r, R> {
    fn drop(self) {
        let Beside {
            rt,
            first: _,
            path,
            file,
            is_settled: _,
        } = self;
        let _ = fs::remove_file(rt, &path);
        drop(file);
    }
}

impl<'r, R: Files + AllocGlobal> Beside<'r, R> {
    /// Appends bytes.
    pub(crate) fn append(&mut self, bytes: &[u8]) -> Result<(), DirFault> {
        self.is_settled = false;
        match self.file.write_all(bytes) {
            Ok(()) => Ok(()),
            Err(error) => Err(failed(self.first, place_of(&self.path), error)),
        }
    }

    /// Syncs the file, unless nothing was appended since the last time.
    pub(crate) fn settle(&mut self, syncs: &Syncs) -> Result<(), DirFault> {
        if self.is_settled {
            return Ok(());
        }
        match syncs.sync(&self.file) {
            Ok(()) => {
                self.is_settled = true;
                Ok(())
            }
            Err(error) => Err(failed(self.first, place_of(&self.path), error)),
        }
    }

    /// Syncs the file, and then renames it to the place. So the place never gets a file whose bytes
    /// are not on the disk.
    pub(crate) fn rename(mut self, syncs: &Syncs, place: &str) -> Result<(), DirFault> {
        self.settle(syncs)?;
        let Beside {
            rt,
            first,
            path,
            file,
            is_settled: _,
        } = self;
        let renamed = fs::rename(rt, &path, place).map_err(|error| {
            let _ = fs::remove_file(rt, &path);
            failed(first, place, error)
        });
        drop(file);
        renamed
    }
}

impl<'r, R: Files + AllocGlobal + RandomSource> Beside<'r, R>
where
    R::File: Lockable,
{
    /// Creates a file with these bytes. Creates its folder if it is missing.
    pub(crate) fn with(
        rt: &'r R,
        first: Option<&'r FirstFailure>,
        place: &str,
        bytes: &[u8],
    ) -> Result<Beside<'r, R>, DirFault> {
        let mut beside = Beside::empty(rt, first, place)?;
        beside.append(bytes)?;
        Ok(beside)
    }

    /// Creates a file with these bytes, and with the mode, the group and the owner of the file at
    /// the place, as far as the system lets.
    pub(crate) fn like(
        rt: &'r R,
        first: Option<&'r FirstFailure>,
        place: &str,
        bytes: &[u8],
    ) -> Result<Beside<'r, R>, DirFault> {
        let mut beside = Beside::empty(rt, first, place)?;
        copy_access(rt, place, &beside.path);
        beside.append(bytes)?;
        Ok(beside)
    }

    /// Creates a file with the first `length` bytes of the one at the place.
    pub(crate) fn copied(
        rt: &'r R,
        first: Option<&'r FirstFailure>,
        place: &str,
        length: u64,
    ) -> Result<Beside<'r, R>, DirFault> {
        let mut beside = Beside::empty(rt, first, place)?;
        for number in 0..length.div_ceil(PART) {
            let from = number.saturating_mul(PART);
            let most = PART.min(length.saturating_sub(from));
            match part_of_file(rt, place, from, most as usize) {
                Ok(part) if part.len() as u64 == most => beside.append(&part)?,
                Ok(_) => return Err(DirFault::Failed),
                Err(error) => return Err(failed(first, place, error)),
            }
        }
        Ok(beside)
    }

    /// Creates an empty file. If a name is taken, leaves that file unchanged and tries another
    /// name.
    fn empty(
        rt: &'r R,
        first: Option<&'r FirstFailure>,
        place: &str,
    ) -> Result<Beside<'r, R>, DirFault> {
        for _ in 0..TRIES {
            let path = new_path(rt, first, place)?;
            match made(rt, &path) {
                Ok(file) => {
                    let beside = Beside {
                        rt,
                        first,
                        path,
                        file,
                        is_settled: false,
                    };
                    if beside.lock()? {
                        return Ok(beside);
                    }
                }
                Err(error) if error.kind() == ErrorKind::AlreadyExists => {}
                Err(error) => return Err(failed(first, place, error)),
            }
        }
        Err(DirFault::Failed)
    }

    /// Locks the file. Returns false if another process takes it for a leftover first.
    fn lock(&self) -> Result<bool, DirFault> {
        match lock_at(self.rt, &self.file, &self.path) {
            Ok(locked) => Ok(locked),
            Err(error) => Err(failed(self.first, place_of(&self.path), error)),
        }
    }
}

/// Gives a file the mode, the group and the owner of a regular file. What the system refuses stays
/// as it is: only a privileged process may change an owner. The owner comes first, because a change
/// of it may clear bits of the mode.
fn copy_access<R: Files>(rt: &R, from: &str, to: &str) {
    let Ok(metadata) = fs::symlink_metadata(rt, from) else {
        return;
    };
    if !metadata.is_file() {
        return;
    }
    let _ = chown(rt, to, Some(metadata.uid()), None);
    let _ = chown(rt, to, None, Some(metadata.gid()));
    let _ = fs::set_permissions(rt, to, metadata.permissions());
}

/// Locks the open file of a path. Returns false if it is locked already or was removed.
///
/// A file that was removed has no links. Some file systems count none at all, so the path is looked
/// up before a file is taken for removed.
fn lock_at<R: Files>(rt: &R, file: &R::File, path: &str) -> io::Result<bool>
where
    R::File: Lockable,
{
    Ok(file.try_take()? && (file.metadata()?.nlink() > 0 || fs::exists(rt, path)?))
}

/// Returns the path of a file beside a place, with a new random number.
fn new_path<R: AllocGlobal + RandomSource>(
    rt: &R,
    first: Option<&FirstFailure>,
    place: &str,
) -> Result<String, DirFault> {
    let mut bytes = [0; 8];
    match rt.fill_bytes(&mut bytes) {
        Ok(()) => {}
        Err(error) => return Err(failed(first, place, error)),
    }
    let number = u64::from_be_bytes(bytes);
    Ok(format!(in rt.alloc(); "{place}.{number:016x}.new")?)
}

/// Returns the place of a file beside it.
fn place_of(path: &str) -> &str {
    let numbered = path.strip_suffix(".new").unwrap_or(path);
    match numbered.rsplit_once('.') {
        Some((place, _)) => place,
        None => numbered,
    }
}

/// Creates a file that does not exist yet. Creates its folder if it is missing.
fn made<R: Files + AllocGlobal>(rt: &R, path: &str) -> io::Result<R::File> {
    match fs::File::create_new(rt, path) {
        Err(error) if error.kind() == ErrorKind::NotFound => {
            make_folder_of(rt, path)?;
            fs::File::create_new(rt, path)
        }
        made => made,
    }
}

/// Creates the folder of a file.
fn make_folder_of<R: Files + AllocGlobal>(rt: &R, path: &str) -> io::Result<()> {
    match path.rsplit_once('/') {
        Some((folder, _)) => fs::create_dir_all(rt, folder),
        None => Ok(()),
    }
}

impl<'r, R: Files + AllocGlobal + RandomSource> FsDir<'r, R>
where
    R::File: Lockable,
{
    /// Writes the file with this path. An `index.json` that is there already keeps its mode, its
    /// group and its owner, as far as the system lets.
    pub(crate) fn write(&self, path: &str, bytes: &[u8]) -> Result<(), DirFault> {
        let place = self.file_place(path)?;
        self.refuse_link(path)?;
        let beside = match path {
            "index.json" => Beside::like(self.rt, self.first, &place, bytes)?,
            _ => Beside::with(self.rt, self.first, &place, bytes)?,
        };
        beside.rename(&self.syncs, &place)
    }
}
