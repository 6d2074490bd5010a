//! Links through which a removal could reach a blob that is needed, and links that a write would
//! replace.
use crate::fs_dir::FsDir;
use crate::fs_dir::files::{failed, is_absence};
use crate::fs_dir::leftovers::{Room, is_link, path_below};
use oci_dir::DirFault;
use std::io::ErrorKind;
use std::rt::Files;
use std::{fs, io};

impl<'r, R: Files + AllocGlobal> FsDir<'r, R> {
    /// Refuses a link at each of these paths at which [`refuse_link`](FsDir::refuse_link) does.
    pub(crate) fn refuse_links(&self, paths: &[String]) -> Result<(), DirFault> {
        for path in paths {
            self.refuse_link(path.as_str())?;
        }
        Ok(())
    }

    /// Refuses a link in the place of `oci-layout` or `index.json`, with the error for anything that
    /// is no regular file. A write would replace the link, and leave what it leads to as it is.
    pub(crate) fn refuse_link(&self, path: &str) -> Result<(), DirFault> {
        if !matches!(path, "oci-layout" | "index.json") {
            return Ok(());
        }
        let place = self.place(path)?;
        match fs::symlink_metadata(self.rt, &place) {
            Ok(found) if found.is_symlink() => {
                let error = io::Error::from(ErrorKind::InvalidInput);
                Err(failed(self.first, &place, error))
            }
            Err(error) if !is_absence(&error) => Err(failed(self.first, &place, error)),
            _ => Ok(()),
        }
    }
}

/// Returns the first of the folders of blobs that is a link, or that has a blob which is a link to a
/// file with the name of another blob.
pub(crate) fn first_link<R: Files + AllocGlobal>(
    rt: &R,
    folder: &str,
) -> io::Result<Option<&'static str>> {
    for path in ["blobs", "blobs/sha256", "blobs/sha512"] {
        match is_linked(rt, folder, path) {
            Ok(true) => return Ok(Some(path)),
            Ok(false) => {}
            Err(error) if is_absence(&error) => {}
            Err(error) => return Err(error),
        }
    }
    Ok(None)
}

/// Returns whether a folder is a link, or has such a blob.
fn is_linked<R: Files + AllocGlobal>(rt: &R, folder: &str, path: &str) -> io::Result<bool> {
    if is_link(rt, folder, path)? {
        return Ok(true);
    }
    match Room::of_blobs(path) {
        Some(room) => has_linked_blob(rt, path_below(rt, folder, path)?.as_str(), room),
        None => Ok(false),
    }
}

fn has_linked_blob<R: Files + AllocGlobal>(rt: &R, place: &str, room: Room) -> io::Result<bool> {
    for entry in fs::read_dir(&rt, place)? {
        match entry {
            Ok(entry) if room.is_name(entry.file_name()) => {
                if leads_to_another(rt, entry.path().as_str(), entry.file_name())? {
                    return Ok(true);
                }
            }
            Ok(_) => {}
            // Blobs have names in UTF-8.
            Err(error) if error.kind() == ErrorKind::InvalidFilename => {}
            Err(error) => return Err(error),
        }
    }
    Ok(false)
}

/// Returns whether a blob is a link to a file with the name of another blob, or to one whose name is
/// not UTF-8.
fn leads_to_another<R: Files + AllocGlobal>(rt: &R, place: &str, name: &str) -> io::Result<bool> {
    match fs::read_link(rt, place) {
        Ok(target) => Ok(match target.file_name() {
            Some(found) => found != name && is_blob_name(found),
            None => false,
        }),
        // (what is no link)
        Err(error) if error.kind() == ErrorKind::InvalidInput || is_absence(&error) => Ok(false),
        Err(error) if error.kind() == ErrorKind::InvalidFilename => Ok(true),
        Err(error) => Err(error),
    }
}

fn is_blob_name(name: &str) -> bool {
    Room::Sha256.is_name(name) || Room::Sha512.is_name(name)
}
