use crate::fs_dir::files::is_absence;
use crate::fs_dir::lock::Lockable;
use crate::fs_dir::paths::folder_and_name;
use std::fs::OpenFile;
use std::io::ErrorKind;
use std::rt::Files;
use std::{fs, io};

/// A folder of a layout where files are written.
#[derive(Clone, Copy)]
pub(crate) enum Room {
    Top,
    Sha256,
    Sha512,
}

impl Room {
    /// Returns its path from the folder of the layout.
    fn path(self) -> &'static str {
        match self {
            Room::Top => ".",
            Room::Sha256 => "blobs/sha256",
            Room::Sha512 => "blobs/sha512",
        }
    }

    /// Returns whether a file of the layout in this folder may have this name.
    pub(crate) fn is_name(self, name: &str) -> bool {
        match self {
            Room::Top => matches!(name, "oci-layout" | "index.json"),
            Room::Sha256 => is_hexadecimal(name, 64),
            Room::Sha512 => is_hexadecimal(name, 128),
        }
    }

    /// Returns whether this is the name of a file that was written beside such a file.
    pub(crate) fn is_leftover(self, name: &str) -> bool {
        match replaced_by(name) {
            Some(file) => self.is_name(file),
            None => false,
        }
    }

    /// Returns the folder in which a path, from the folder of the layout, is that of such a file.
    pub(crate) fn of_leftover(path: &str) -> Option<Room> {
        let (room, name) = match path.rsplit_once('/') {
            None => (Room::Top, path),
            Some((folder, name)) => (Room::of_blobs(folder)?, name),
        };
        if room.is_leftover(name) {
            Some(room)
        } else {
            None
        }
    }

    /// Returns the folder of blobs at a path.
    pub(crate) fn of_blobs(path: &str) -> Option<Room> {
        match path {
            "blobs/sha256" => Some(Room::Sha256),
            "blobs/sha512" => Some(Room::Sha512),
            _ => None,
        }
    }
}

/// Returns the name of the file beside which a file with this name was written.
fn replaced_by(name: &str) -> Option<&str> {
    match name.strip_suffix(".new")?.rsplit_once('.') {
        Some((file, number)) if is_hexadecimal(number, 16) => Some(file),
        _ => None,
    }
}

/// Returns whether a text has `digits` hexadecimal digits and nothing else, none of them in upper
/// case.
fn is_hexadecimal(text: &str, digits: usize) -> bool {
    text.len() == digits
        && text
            .bytes()
            .all(|byte| matches!(byte, b'0'..=b'9' | b'a'..=b'f'))
}

/// Removes from the folder of a layout the files that were written beside others and never renamed.
/// A file that cannot be removed stays.
pub(crate) fn remove_leftovers<R: Files + AllocGlobal>(rt: &R, folder: &str) -> io::Result<()>
where
    R::File: Lockable,
{
    let mut answer = Ok(());
    for room in [Room::Top, Room::Sha256, Room::Sha512] {
        match remove_from(rt, folder, room) {
            Ok(()) => {}
            Err(error) if error.kind() == ErrorKind::OutOfMemory => return Err(error),
            Err(error) => answer = Err(error),
        }
    }
    answer
}

/// Removes the regular files that were written beside a place and never renamed: the place's name, 16
/// random hexadecimal digits in lower case, and `.new`. One that a process is still writing, or that
/// cannot be removed, stays. The folder of the place need not be locked.
///
/// # Errors
///
/// - The error of the system if the folder cannot be listed or a file cannot be removed. The other
///   files are removed all the same. Of several errors it is the last.
/// - `OutOfMemory` if memory runs out. Some of the files may be removed.
pub fn remove_leftovers_of<R: Files + AllocGlobal>(rt: &R, place: &str) -> io::Result<()>
where
    R::File: Lockable,
{
    let (folder, name) = folder_and_name(place);
    let names = names_beside(rt, folder, name)?;
    remove(rt, folder, &names)
}

/// Returns the names of the files in a folder that were written beside the file of this name.
fn names_beside<R: Files + AllocGlobal>(
    rt: &R,
    folder: &str,
    name: &str,
) -> io::Result<Vec<String>> {
    let mut names = Vec::new(rt.alloc());
    for entry in fs::read_dir(&rt, folder)? {
        match entry {
            Ok(entry) if replaced_by(entry.file_name()) == Some(name) => {
                names.push(String::from_str(rt.alloc(), entry.file_name())?)?;
            }
            Ok(_) => {}
            // Files that are written beside others have names in UTF-8.
            Err(error) if error.kind() == ErrorKind::InvalidFilename => {}
            Err(error) => return Err(error),
        }
    }
    Ok(names)
}

fn remove_from<R: Files + AllocGlobal>(rt: &R, folder: &str, room: Room) -> io::Result<()>
where
    R::File: Lockable,
{
    match leftovers(rt, folder, room) {
        Ok(paths) => remove(rt, folder, &paths),
        Err(error) if is_absence(&error) => Ok(()),
        Err(error) => Err(error),
    }
}

/// Returns the paths of these files in one folder, from the folder of the layout. Does not look for
/// blobs through a link.
fn leftovers<R: Files + AllocGlobal>(rt: &R, folder: &str, room: Room) -> io::Result<Vec<String>> {
    let mut paths = Vec::new(rt.alloc());
    if is_linked(rt, folder, room)? {
        return Ok(paths);
    }
    for entry in fs::read_dir(&rt, path_below(rt, folder, room.path())?.as_str())? {
        match entry {
            Ok(entry) if room.is_leftover(entry.file_name()) => {
                paths.push(path_in(rt, room, entry.file_name())?)?;
            }
            Ok(_) => {}
            // Files that are written beside others have names in UTF-8.
            Err(error) if error.kind() == ErrorKind::InvalidFilename => {}
            Err(error) => return Err(error),
        }
    }
    Ok(paths)
}

/// Returns whether this folder, or `blobs` above it, is a link.
fn is_linked<R: Files + AllocGlobal>(rt: &R, folder: &str, room: Room) -> io::Result<bool> {
    match room {
        Room::Top => Ok(false),
        _ => Ok(is_link(rt, folder, "blobs")? || is_link(rt, folder, room.path())?),
    }
}

/// Returns the path of a file in one folder, from the folder of the layout.
fn path_in<R: AllocGlobal>(rt: &R, room: Room, name: &str) -> io::Result<String> {
    match room {
        Room::Top => Ok(String::from_str(rt.alloc(), name)?),
        _ => path_below(rt, room.path(), name),
    }
}

pub(crate) fn is_link<R: Files + AllocGlobal>(
    rt: &R,
    folder: &str,
    path: &str,
) -> io::Result<bool> {
    Ok(fs::symlink_metadata(rt, path_below(rt, folder, path)?.as_str())?.is_symlink())
}

pub(crate) fn path_below<R: AllocGlobal>(rt: &R, folder: &str, path: &str) -> io::Result<String> {
    Ok(format!(in rt.alloc(); "{folder}/{path}")?)
}

/// Removes files of a folder. After one that cannot be removed, goes on with the others.
fn remove<R: Files + AllocGlobal>(rt: &R, folder: &str, paths: &[String]) -> io::Result<()>
where
    R::File: Lockable,
{
    let mut answer = Ok(());
    for path in paths {
        match remove_below(rt, folder, path.as_str()) {
            Err(error) if !is_absence(&error) => answer = Err(error),
            _ => {}
        }
    }
    answer
}

/// Removes a file of a folder if it is free. Returns whether it was removed.
fn remove_below<R: Files + AllocGlobal>(rt: &R, folder: &str, path: &str) -> io::Result<bool>
where
    R::File: Lockable,
{
    remove_free(rt, path_below(rt, folder, path)?.as_str())
}

/// Removes a file in one folder of a layout if it is free and that folder is no link. Returns
/// whether it was removed.
pub(crate) fn remove_leftover<R: Files + AllocGlobal>(
    rt: &R,
    folder: &str,
    room: Room,
    place: &str,
) -> io::Result<bool>
where
    R::File: Lockable,
{
    if is_linked(rt, folder, room)? {
        return Ok(false);
    }
    remove_free(rt, place)
}

/// Removes a file if it is free. Returns whether it was removed.
fn remove_free<R: Files>(rt: &R, place: &str) -> io::Result<bool>
where
    R::File: Lockable,
{
    let Some(free) = taken(rt, place)? else {
        return Ok(false);
    };
    fs::remove_file(rt, place)?;
    drop(free);
    Ok(true)
}

/// Opens and locks a regular file. Returns `None` if it is locked already: then a process is still
/// writing it. Returns `None` for anything else too.
fn taken<R: Files>(rt: &R, place: &str) -> io::Result<Option<R::File>>
where
    R::File: Lockable,
{
    if !fs::symlink_metadata(rt, place)?.is_file() {
        return Ok(None);
    }
    let file = fs::File::open(rt, place)?;
    if file.try_take()? {
        Ok(Some(file))
    } else {
        Ok(None)
    }
}

/// Returns the paths of the files that were written beside others and never renamed, each with its
/// length. Leaves out files that are still being written, and those that may not be read.
pub(crate) fn free_leftovers<R: Files + AllocGlobal>(
    rt: &R,
    folder: &str,
) -> io::Result<Vec<(String, u64)>>
where
    R::File: Lockable,
{
    let mut drafts = Vec::new(rt.alloc());
    for room in [Room::Top, Room::Sha256, Room::Sha512] {
        note_free(rt, folder, room, &mut drafts)?;
    }
    Ok(drafts)
}

/// Adds those of one folder.
fn note_free<R: Files + AllocGlobal>(
    rt: &R,
    folder: &str,
    room: Room,
    drafts: &mut Vec<(String, u64)>,
) -> io::Result<()>
where
    R::File: Lockable,
{
    let paths = match leftovers(rt, folder, room) {
        Ok(paths) => paths,
        Err(error) if is_absence(&error) => return Ok(()),
        Err(error) => return Err(error),
    };
    for path in paths {
        if let Some(length) = free_length(rt, folder, path.as_str())? {
            drafts.push((path, length))?;
        }
    }
    Ok(())
}

/// Returns the length of a file of a folder, or `None` if it is not free, was removed, or may not
/// be read.
fn free_length<R: Files + AllocGlobal>(rt: &R, folder: &str, path: &str) -> io::Result<Option<u64>>
where
    R::File: Lockable,
{
    let place = path_below(rt, folder, path)?;
    match taken(rt, place.as_str()) {
        Ok(Some(file)) => Ok(Some(file.metadata()?.len())),
        Ok(None) => Ok(None),
        Err(error) if is_absence(&error) || error.kind() == ErrorKind::PermissionDenied => Ok(None),
        Err(error) => Err(error),
    }
}
