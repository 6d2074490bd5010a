ghost use Rattle.oci_folder.specs.Place.{IsFileAt};

use crate::fs_dir::FsDir;
use crate::fs_dir::leftovers::Room;
use oci_digest::NoMemory;
use oci_dir::DirFault;
use std::alloc::Global;
use std::collections::BTreeSet;
use std::rt::Files;

impl<'r, R: Files + AllocGlobal> FsDir<'r, R> {
    /// Returns the path of a file of the directory. Fails if it leaves the folder.
    pub(crate) fn place(&self, path: &str) -> Result<String, DirFault> {
        if !stays_inside(path) {
            return Err(DirFault::Failed);
        }
        Ok(self.below(path)?)
    }

    /// Returns the path of a file that is read, or `None` at the path of a draft, where none is.
    pub(crate) fn read_place(&self, path: &str) -> Result<Option<String>, DirFault> {
        if Room::of_leftover(path).is_some() {
            return Ok(None);
        }
        Ok(Some(self.place(path)?))
    }

    /// Returns the path of a file that is written or removed. Fails at the path of a draft, and at
    /// that of a folder of blobs, where a link may stand.
    pub(crate) fn file_place(&self, path: &str) -> Result<String, DirFault> {
        if Room::of_leftover(path).is_some() || is_blob_folder(path) {
            return Err(DirFault::Failed);
        }
        self.place(path)
    }

    /// Returns a path below the folder.
    fn below(&self, path: &str) -> Result<String, NoMemory> {
        let folder = path_of_folder(self.folder.as_str());
        Ok(format!(in self.rt.alloc(); "{folder}/{path}")?)
    }

    /// Returns the path of a folder below the folder, or of the folder itself.
    pub(crate) fn inner_place(&self, folder: &str) -> Result<String, NoMemory> {
        match folder {
            "" => {
                let path = path_of_folder(self.folder.as_str());
                Ok(String::from_str(self.rt.alloc(), path)?)
            }
            folder => self.below(folder),
        }
    }
}

/// Returns the path of a folder: `.` for an empty one.
pub(crate) fn path_of_folder(folder: &str) -> &str {
    match folder {
        "" => ".",
        folder => folder,
    }
}

/// Returns the folder of a file, and its name there.
pub fn folder_and_name(path: &str) -> (&str, &str)
    ensures { IsFileAt path.now result.0.now result.1.now }
{
    match path.rsplit_once('/') {
        Some(("", name)) => ("/", name),
        Some((folder, name)) => (folder, name),
        None => (".", path),
    }
}

/// Returns whether a path is that of a folder of blobs.
fn is_blob_folder(path: &str) -> bool {
    matches!(path, "blobs" | "blobs/sha256" | "blobs/sha512")
}

/// Returns whether a path stays below the folder that it starts from.
fn stays_inside(path: &str) -> bool {
    path.split('/')
        .all(|part| !part.is_empty() && part != "." && part != "..")
}

/// Returns the folders of these paths and their parents. The folder from which the paths start is
/// the empty one.
pub(crate) fn folders_of(alloc: Global, paths: &[String]) -> Result<BTreeSet<String>, NoMemory> {
    let mut folders = BTreeSet::new(alloc);
    folders.insert(String::new(alloc))?;
    for path in paths {
        if let Some((folder, _)) = path.rsplit_once('/') {
            if !folders.contains(folder) {
                add_folder(alloc, &mut folders, folder)?;
            }
        }
    }
    Ok(folders)
}

/// Adds a folder and its parents.
fn add_folder(alloc: Global, folders: &mut BTreeSet<String>, folder: &str) -> Result<(), NoMemory> {
    folders.insert(String::from_str(alloc, folder)?)?;
    for end in 0..folder.len() {
        if let Some(parent) = parent_at(folder, end) {
            folders.insert(String::from_str(alloc, parent)?)?;
        }
    }
    Ok(())
}

/// Returns the start of a path, if a part ends there and another one follows.
fn parent_at(path: &str, end: usize) -> Option<&str> {
    match path.split_at_checked(end) {
        Some((parent, rest)) if rest.starts_with('/') => Some(parent),
        _ => None,
    }
}

/// Returns the folder above a folder whose path ends there in the folder's path, if one does. The
/// first part of a relative path is in the current folder.
pub(crate) fn above_at(folder: &str, end: usize) -> Option<&str> {
    match parent_at(folder, end) {
        Some("") => Some("/"),
        None if end == 0 => Some("."),
        parent => parent,
    }
}
