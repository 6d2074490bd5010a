use oci_dir::{DirFault, FirstFailure};
use std::io::{ErrorKind, Read, Seek, SeekFrom};
use std::rt::Files;
use std::{fs, io};

/// Returns the length of a regular file, or of the one that a link leads to. Anything else is an
/// error and is not opened: a FIFO would wait for its writer, and a device may have no end.
pub(crate) fn length_of<R: Files>(rt: &R, place: &str) -> io::Result<u64> {
    let metadata = fs::metadata(rt, place)?;
    if metadata.is_file() {
        Ok(metadata.len())
    } else {
        Err(io::Error::from(ErrorKind::InvalidInput))
    }
}

/// Reads a regular file, or the one that a link leads to. Allocates the memory first, so that
/// nothing is read of a file that is too long for it.
pub(crate) fn whole_file<R: Files + AllocGlobal>(rt: &R, place: &str) -> io::Result<Vec<u8>> {
    let length = length_of(rt, place)?;
    let mut bytes = room(rt, length)?;
    fs::File::open(rt, place)?.read_to_end(&mut bytes)?;
    Ok(bytes)
}

/// Reads at most `most` bytes of a regular file, from position `from` on, and fewer only at its
/// end. One read usually suffices, since the memory is allocated for all bytes that are there.
pub(crate) fn part_of_file<R: Files + AllocGlobal>(
    rt: &R,
    place: &str,
    from: u64,
    most: usize,
) -> io::Result<Vec<u8>> {
    let there = length_of(rt, place)?.saturating_sub(from).min(most as u64);
    let mut bytes = room(rt, there)?;
    let mut file = fs::File::open(rt, place)?;
    if from > 0 {
        file.seek(SeekFrom::Start(from))?;
    }
    file.take(there).read_to_end(&mut bytes)?;
    Ok(bytes)
}

/// Reads a regular file, or the one that a link leads to, if it has this length. Opens nothing
/// else.
pub(crate) fn file_of_length<R: Files + AllocGlobal>(
    rt: &R,
    place: &str,
    length: u64,
) -> io::Result<Option<Vec<u8>>> {
    let metadata = fs::metadata(rt, place)?;
    if !metadata.is_file() || metadata.len() != length {
        return Ok(None);
    }
    let mut bytes = room(rt, length)?;
    fs::File::open(rt, place)?
        .take(length)
        .read_to_end(&mut bytes)?;
    Ok(Some(bytes))
}

/// Returns whether a folder with contents is at a place. A link is no folder.
pub(crate) fn has_contents<R: Files + AllocGlobal>(rt: &R, place: &str) -> io::Result<bool> {
    if !fs::symlink_metadata(rt, place)?.is_dir() {
        return Ok(false);
    }
    Ok(fs::read_dir(&rt, place)?.next().is_some())
}

/// Returns an empty list with room for `bytes` bytes.
fn room<R: AllocGlobal>(rt: &R, bytes: u64) -> io::Result<Vec<u8>> {
    let bytes = usize::try_from(bytes).unwrap_or(usize::MAX);
    match Vec::with_capacity(rt.alloc(), bytes) {
        Ok(list) => Ok(list),
        Err(_) => Err(io::Error::from(ErrorKind::OutOfMemory)),
    }
}

/// Returns whether an error of the system says that there is no such file.
pub(crate) fn is_absence(error: &io::Error) -> bool {
    matches!(error.kind(), ErrorKind::NotFound | ErrorKind::NotADirectory)
}

/// Returns the fault for an error of the system at a path. Notes it as a failure, unless memory ran
/// out.
pub(crate) fn failed(first: Option<&FirstFailure>, path: &str, error: io::Error) -> DirFault {
    if error.kind() == ErrorKind::OutOfMemory {
        return DirFault::Memory;
    }
    if let Some(first) = first {
        first.note(path, error);
    }
    DirFault::Failed
}
