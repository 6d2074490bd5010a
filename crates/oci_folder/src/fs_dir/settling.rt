ghost use Rattle.std.specs.Prelude.{◌≡◌};

use crate::fs_dir::FsDir;
use crate::fs_dir::files::{failed, is_absence};
use crate::fs_dir::lock::opened;
use crate::fs_dir::paths::{above_at, folders_of, path_of_folder};
use oci_digest::NoMemory;
use oci_dir::DirFault;
use std::alloc::Global;
use std::collections::BTreeSet;
use std::fs::OpenFile;
use std::io::ErrorKind;
use std::os::unix::fs::MetadataExt;
use std::rt::Files;
use std::sync::Arc;
use std::sync::atomic::{AtomicBool, Ordering};
use std::{fs, io};

/// Whether a folder syncs what it writes, and whether a sync has failed. A draft of the folder has
/// its own value, and shares with it whether a sync has failed.
///
/// A failed sync is final: the system may count the bytes that it could not write as written, so
/// that a later sync succeeds although they are lost. So each sync fails from then on.
#[derive(Drop)]
pub(crate) struct Syncs {
    is_off: bool,
    has_failed: Arc<AtomicBool>,
}

impl Syncs {
    /// Returns the value of a folder that syncs what it writes. No sync has failed.
    pub(crate) fn new(alloc: Global) -> Result<Syncs, NoMemory> {
        let has_failed = Arc::new(alloc, AtomicBool::new(false))?;
        Ok(Syncs {
            is_off: false,
            has_failed,
        })
    }

    /// Returns the value of a draft.
    pub(crate) fn share(&self) -> Result<Syncs, NoMemory> {
        let has_failed = Arc::try_clone(&self.has_failed)?;
        Ok(Syncs {
            is_off: self.is_off,
            has_failed,
        })
    }

    /// From now on no call syncs anything.
    pub(crate) fn turn_off(&mut self) {
        self.is_off = true;
    }

    /// Returns whether no call syncs anything.
    pub(crate) fn is_off(&self) -> bool {
        self.is_off
    }

    /// Syncs an open file.
    pub(crate) fn sync<F: OpenFile>(&self, file: &F) -> io::Result<()> {
        if self.is_off {
            return Ok(());
        }
        self.check()?;
        self.noted(file.sync_all())
    }

    /// Syncs a regular file, or the one that a link leads to. Returns false if something else is
    /// there. That is not opened: a FIFO would wait for its writer.
    pub(crate) fn sync_file<R: Files>(&self, rt: &R, place: &str) -> io::Result<bool> {
        if !fs::metadata(rt, place)?.is_file() {
            return Ok(false);
        }
        self.sync(&fs::File::open(rt, place)?)?;
        Ok(true)
    }

    /// Syncs a folder. Some file systems cannot do that, and keep the names in it without.
    pub(crate) fn sync_folder<R: Files>(&self, rt: &R, place: &str) -> io::Result<()> {
        if self.is_off {
            return Ok(());
        }
        self.check()?;
        let folder = opened(rt, place)?;
        match folder.sync_all() {
            Err(error) if is_unsupported(&error) => Ok(()),
            answer => self.noted(answer),
        }
    }

    /// Fails if a sync has failed.
    fn check(&self) -> io::Result<()> {
        if self.has_failed.load(Ordering::SeqCst) {
            Err(io::Error::from(ErrorKind::Other))
        } else {
            Ok(())
        }
    }

    /// Notes a sync that failed. Returns its result.
    fn noted(&self, answer: io::Result<()>) -> io::Result<()> {
        if answer.is_err() {
            self.has_failed.store(true, Ordering::SeqCst);
        }
        answer
    }
}

/// Returns whether an error of the system says that it cannot sync such a thing at all.
fn is_unsupported(error: &io::Error) -> bool {
    matches!(
        error.kind(),
        ErrorKind::Unsupported | ErrorKind::InvalidInput
    )
}

/// Adds a path to the files that are on the disk. If memory runs out, it is not added: then the
/// file is synced once more.
pub(crate) fn note_path(alloc: Global, on_disk: &mut BTreeSet<String>, path: &str) {
    if let Ok(path) = String::from_str(alloc, path) {
        let _ = on_disk.insert(path);
    }
}

/// Adds a path to a list.
fn add_path(alloc: Global, paths: &mut Vec<String>, path: &str) -> Result<(), NoMemory> {
    paths.push(String::from_str(alloc, path)?)?;
    Ok(())
}

/// Adds paths to the files that are on the disk, as [`note_path`] does.
pub(crate) fn note_paths(on_disk: &mut BTreeSet<String>, paths: Vec<String>) {
    for path in paths {
        let _ = on_disk.insert(path);
    }
}

impl<'r, R: Files + AllocGlobal> FsDir<'r, R> {
    /// Notes the path of a file that was written, and synced unless nothing is.
    pub(crate) fn note_written(&mut self, wrote: Option<&str>)
        ensures { self.new ≡ self.old }
    {
        if let Some(path) = wrote {
            note_path(self.rt.alloc(), &mut self.on_disk, path);
        }
    }

    /// Syncs the files at these paths, but for those whose bytes are on the disk already, and for
    /// what is no regular file. Returns the paths of the files that it synced.
    pub(crate) fn sync_files(&self, paths: &[String]) -> Result<Vec<String>, DirFault> {
        let mut synced = Vec::new(self.rt.alloc());
        for path in paths {
            if self.sync_path(path.as_str())? {
                add_path(self.rt.alloc(), &mut synced, path.as_str())?;
            }
        }
        Ok(synced)
    }

    /// Syncs one such file. Returns whether it did.
    fn sync_path(&self, path: &str) -> Result<bool, DirFault> {
        if self.on_disk.contains(path) {
            return Ok(false);
        }
        let place = self.place(path)?;
        match self.syncs.sync_file(self.rt, &place) {
            Ok(is_file) => Ok(is_file),
            Err(error) if is_absence(&error) => Ok(false),
            Err(error) => Err(failed(self.first, &place, error)),
        }
    }

    /// Syncs the folders of these paths and their parents, up to and with the folder itself. Each
    /// is synced once. One that is not there has no names.
    pub(crate) fn sync_folders(&self, paths: &[String]) -> Result<(), DirFault> {
        for folder in folders_of(self.rt.alloc(), paths)?.iter() {
            self.sync_inner(folder.as_str())?;
        }
        Ok(())
    }

    /// Syncs a folder below the folder, or the folder itself if the path is empty.
    fn sync_inner(&self, folder: &str) -> Result<(), DirFault> {
        let place = self.inner_place(folder)?;
        match self.syncs.sync_folder(self.rt, &place) {
            Ok(()) => Ok(()),
            Err(error) if is_absence(&error) => Ok(()),
            Err(error) => Err(failed(self.first, &place, error)),
        }
    }

    /// Syncs the folders above the folder, from the nearest on. Ends at one on another file system:
    /// no call that makes a folder crosses into it. Ends at one that may not be read, too. Returns
    /// false if the folder is not there.
    pub(crate) fn sync_above(&self) -> Result<bool, DirFault> {
        let folder = path_of_folder(self.folder.as_str());
        let device = match fs::metadata(self.rt, folder) {
            Ok(metadata) => metadata.dev(),
            Err(error) if is_absence(&error) => return Ok(false),
            Err(error) => return Err(failed(self.first, folder, error)),
        };
        for end in (0..folder.len()).rev() {
            if let Some(above) = above_at(folder, end) {
                if !self.sync_one_above(above, device)? {
                    return Ok(true);
                }
            }
        }
        Ok(true)
    }

    /// Syncs a folder above the folder. Returns false if it is on another device, or may not be
    /// read.
    fn sync_one_above(&self, above: &str, device: u64) -> Result<bool, DirFault> {
        match synced_on(self.rt, &self.syncs, above, device) {
            Ok(is_on_device) => Ok(is_on_device),
            Err(error) if error.kind() == ErrorKind::PermissionDenied => Ok(false),
            Err(error) => Err(failed(self.first, above, error)),
        }
    }
}

/// Syncs a folder if it is on this device. Returns whether it is.
fn synced_on<R: Files>(rt: &R, syncs: &Syncs, place: &str, device: u64) -> io::Result<bool> {
    if fs::metadata(rt, place)?.dev() != device {
        return Ok(false);
    }
    syncs.sync_folder(rt, place)?;
    Ok(true)
}
