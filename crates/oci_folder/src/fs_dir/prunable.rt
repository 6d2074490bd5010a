use crate::fs_dir::FsDir;
use crate::fs_dir::files::{failed, is_absence};
use crate::fs_dir::leftovers::{Room, free_leftovers, remove_leftover};
use crate::fs_dir::links::first_link;
use crate::fs_dir::lock::Lockable;
use crate::fs_dir::paths::path_of_folder;
use oci_dir::{DirFault, PrunableDir};
use std::fs::OpenFile;
use std::io::ErrorKind;
use std::random::RandomSource;
use std::rt::Files;
use std::{fs, io};

impl<'r, R: Files + AllocGlobal + RandomSource> PrunableDir for FsDir<'r, R>
where
    R::File: Lockable,
{
    /// Leaves out drafts. Anything else that is neither a regular file nor a link stands in the
    /// place of a file: it counts as one without bytes, and `remove` fails there.
    #[tactic(auto, unfolding(crate::specs::Folder::IsWatched))]
    fn list(&self, folder: &str) -> Result<Vec<(String, u64)>, DirFault> {
        let place = self.place(folder)?;
        match files_in(self.rt, &place, Room::of_blobs(folder)) {
            Ok(files) => Ok(files),
            Err(error) if is_absence(&error) => Ok(Vec::new(self.rt.alloc())),
            Err(error) => Err(failed(self.first, &place, error)),
        }
    }

    /// Finds the files that [`FolderLock::remove_leftovers`](crate::FolderLock::remove_leftovers)
    /// removes.
    #[tactic(auto, unfolding(crate::specs::Folder::IsWatched))]
    fn leftovers(&self) -> Result<Vec<(String, u64)>, DirFault> {
        let folder = path_of_folder(self.folder.as_str());
        match free_leftovers(self.rt, folder) {
            Ok(drafts) => Ok(drafts),
            Err(error) => Err(failed(self.first, folder, error)),
        }
    }

    /// A folder of blobs counts as a link too if a blob in it is a link to a file with the name of
    /// another blob: to remove that file would empty both.
    #[tactic(auto, unfolding(crate::specs::Folder::IsWatched))]
    fn linked(&self) -> Result<Option<&'static str>, DirFault> {
        let folder = path_of_folder(self.folder.as_str());
        match first_link(self.rt, folder) {
            Ok(linked) => Ok(linked),
            Err(error) => Err(failed(self.first, folder, error)),
        }
    }

    /// Fails for anything that is neither a regular file nor a link, and at the path of a draft or
    /// of a folder of blobs.
    #[tactic(auto, unfolding(crate::specs::Folder::IsWatched))]
    fn remove(&mut self, path: &str) -> Result<bool, DirFault> {
        let place = self.file_place(path)?;
        // (if another program writes it again, it has to be synced)
        self.on_disk.remove(path);
        match removed(self.rt, &place) {
            Ok(()) => Ok(true),
            Err(error) if is_absence(&error) => Ok(false),
            Err(error) => Err(failed(self.first, &place, error)),
        }
    }

    /// Removes only a file that [`leftovers`](PrunableDir::leftovers) may list: at any other path
    /// it touches nothing.
    #[tactic(auto, unfolding(crate::specs::Folder::IsWatched))]
    fn remove_draft(&mut self, path: &str) -> Result<bool, DirFault> {
        let Some(room) = Room::of_leftover(path) else {
            return Ok(false);
        };
        let place = self.place(path)?;
        let folder = path_of_folder(self.folder.as_str());
        match remove_leftover(self.rt, folder, room, &place) {
            Ok(found) => Ok(found),
            Err(error) if is_absence(&error) => Ok(false),
            Err(error) => Err(failed(self.first, &place, error)),
        }
    }
}

/// Returns the names in a folder, each with the length of its file or link. Leaves out the drafts,
/// if it is a folder of blobs.
fn files_in<R: Files + AllocGlobal>(
    rt: &R,
    place: &str,
    room: Option<Room>,
) -> io::Result<Vec<(String, u64)>> {
    let mut files = Vec::new(rt.alloc());
    for entry in fs::read_dir(&rt, place)? {
        match entry {
            Ok(entry) if is_draft(room, entry.file_name()) => {}
            Ok(entry) => {
                if let Some(length) = own_length(rt, entry.path().as_str())? {
                    files.push((String::from_str(rt.alloc(), entry.file_name())?, length))?;
                }
            }
            Err(error) if error.kind() == ErrorKind::InvalidFilename => {}
            Err(error) => return Err(error),
        }
    }
    Ok(files)
}

/// Returns whether a file of a folder has the name of a draft.
fn is_draft(room: Option<Room>, name: &str) -> bool {
    match room {
        Some(room) => room.is_leftover(name),
        None => false,
    }
}

/// Returns the length of a file or a link, and 0 for anything else. Returns `None` if it was
/// removed.
fn own_length<R: Files>(rt: &R, place: &str) -> io::Result<Option<u64>> {
    match fs::symlink_metadata(rt, place) {
        Ok(found) if found.is_file() || found.is_symlink() => Ok(Some(found.len())),
        Ok(_) => Ok(Some(0)),
        Err(error) if is_absence(&error) => Ok(None),
        Err(error) => Err(error),
    }
}

/// Removes a file or a link.
fn removed<R: Files>(rt: &R, place: &str) -> io::Result<()> {
    let found = fs::symlink_metadata(rt, place)?;
    if !found.is_file() && !found.is_symlink() {
        return Err(io::Error::from(ErrorKind::InvalidInput));
    }
    fs::remove_file(rt, place)
}
