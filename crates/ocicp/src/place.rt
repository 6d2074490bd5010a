ghost use Rattle.std.specs.Prelude.{◌≡◌, IfOk};
ghost use Rattle.oci_folder.specs.Place.{IsFileAt};
ghost use Rattle.ocicp.specs.Run.{AreSourcesAt, IsPlaceAt, IsSourceAt};

use crate::sides::Failures;
use crate::spooled::{INPUT, refused, spool};
use oci_archive::{ReadAt, TarDir};
use oci_command_line::{CopyWords, RepairWords};
use oci_dir::FirstFailure;
use oci_folder::{FsDir, folder_and_name};
use oci_program::ProgramFault;
use oci_repair::RepairSource;
use std::fs;
use std::random::RandomSource;
use std::rt::{Env, Files};

/// The place of a layout that is read.
#[derive(Drop)]
pub(crate) enum Place<'r, R: Files + AllocGlobal> {
    /// A folder, which need not exist.
    Folder(FsDir<'r, R>),
    /// A file, or what came from the standard input, which is a tar archive.
    Archive(TarDir<R::File>),
}

impl<'r, R: Files<File: ReadAt> + AllocGlobal + RandomSource + Input + Env> Place<'r, R> {
    /// Opens the place at a path. A regular file, or a link to one, is opened as an archive. `-` is
    /// the standard input, which is read to its end, and kept as [`spool`] says until the place is
    /// dropped. Anything else is taken as a folder, and is not touched. The first call of the system
    /// that fails there is noted in `first`, but for reads of an archive.
    ///
    /// # Errors
    ///
    /// - 100 to 105 if the file is not an archive or cannot be read, or the input not be kept.
    /// - Out of memory, at any point.
    pub(crate) fn open(
        rt: &'r R,
        path: &str,
        into: Option<&str>,
        first: &'r FirstFailure,
    ) -> Result<Place<'r, R>, ProgramFault>
        ensures { IfOk result (IsPlaceAt path.now) }
    {
        if path == INPUT {
            let file = spool(rt, into, first)?;
            return Ok(Place::Archive(TarDir::open(rt.alloc(), file)?));
        }
        if !is_file(rt, path) {
            return Ok(Place::Folder(FsDir::noting(rt, path, first)?));
        }
        match fs::File::open(rt, path) {
            Ok(file) => Ok(Place::Archive(TarDir::open(rt.alloc(), file)?)),
            Err(error) => Err(refused(first, path, error)),
        }
    }
}

/// Returns the folder that a command writes into, unless it only plans.
pub(crate) fn written(is_dry: bool, folder: &str) -> Option<&str> {
    if is_dry { None } else { Some(folder) }
}

/// Opens the places of a copy: where it reads, and the folder into which it writes. Each notes its
/// failures.
///
/// # Errors
///
/// - 95 `NotWritable` if the destination is a regular file, or a link to one, or does not exist and
///   ends in `.tar` or begins with `oci:` or `oci-archive:`. The source is not touched then.
/// - 100 to 105 as of [`Place::open`].
/// - Out of memory, at any point.
pub(crate) fn open_copy<'r, R: Files<File: ReadAt> + AllocGlobal + RandomSource + Input + Env>(
    rt: &'r R,
    words: &CopyWords<'_>,
    failures: &'r Failures,
) -> Result<(Place<'r, R>, FsDir<'r, R>), ProgramFault>
    ensures source { IfOk result (λ places. IsPlaceAt words.now.source.now places.0) }
    ensures destination { IfOk result (λ places. places.1 ≡ (words.now.destination.now, 0)) }
{
    let path = words.destination;
    if names_archive(path) && !fs::exists(rt, path).unwrap_or(false) {
        let path = String::from_str(rt.alloc(), path)?;
        return Err(ProgramFault::NotWritable(path));
    }
    let destination = open_folder(rt, path, &failures.written, words.syncs)?;
    let into = written(words.is_dry, path);
    Ok((
        Place::open(rt, words.source, into, &failures.read)?,
        destination,
    ))
}

/// Opens the folder of the new file into which a copy is written as an archive, and returns its name
/// there. The file is not created yet.
///
/// # Errors
///
/// - 95 `NotWritable` if anything is at the path, also a link that leads nowhere, or its folder is a
///   regular file.
/// - 74 `Device` if its folder cannot be found.
/// - Out of memory, at any point.
pub(crate) fn open_new_file<'r, 'w, R: Files + AllocGlobal>(
    rt: &'r R,
    words: &CopyWords<'w>,
    first: &'r FirstFailure,
) -> Result<(FsDir<'r, R>, &'w str), ProgramFault>
    ensures file { IfOk result (λ place. IsFileAt words.now.destination.now place.0.0
        place.1.now) }
    ensures fresh { IfOk result (λ place. place.0 ≡ (place.0.0, 0)) }
{
    let path = words.destination;
    if fs::symlink_metadata(rt, path).is_ok() {
        let path = String::from_str(rt.alloc(), path)?;
        return Err(ProgramFault::NotWritable(path));
    }
    let (folder, name) = folder_and_name(path);
    if let Err(error) = fs::metadata(rt, folder) {
        return Err(ProgramFault::of_folder(Some(first), folder, error));
    }
    let folder = open_folder(rt, folder, first, words.syncs)?;
    Ok((folder, name))
}

/// Opens the sources of a repair, in their order, as [`Place::open`] does.
///
/// # Errors
///
/// - 100 to 105 as of [`Place::open`].
/// - Out of memory, at any point.
pub(crate) fn open_sources<'r, R: Files<File: ReadAt> + AllocGlobal + RandomSource + Input + Env>(
    rt: &'r R,
    words: &RepairWords<'_>,
    first: &'r FirstFailure,
) -> Result<Vec<RepairSource<FsDir<'r, R>, TarDir<R::File>>>, ProgramFault>
    ensures { IfOk result (λ sources. AreSourcesAt words.now.sources.items sources.items) }
{
    let into = written(words.is_dry, words.folder);
    let mut sources = Vec::new(rt.alloc());
    for path in &words.sources {
        sources.push(open_source(rt, path, into, first)?)?;
    }
    Ok(sources)
}

/// Opens the place of a path, as a source.
fn open_source<'r, R: Files<File: ReadAt> + AllocGlobal + RandomSource + Input + Env>(
    rt: &'r R,
    path: &str,
    into: Option<&str>,
    first: &'r FirstFailure,
) -> Result<RepairSource<FsDir<'r, R>, TarDir<R::File>>, ProgramFault>
    ensures { IfOk result (IsSourceAt path.now) }
{
    match Place::open(rt, path, into, first)? {
        Place::Folder(dir) => Ok(RepairSource::Folder(dir)),
        Place::Archive(dir) => Ok(RepairSource::Archive(dir)),
    }
}

/// Opens the folder that a command writes into. It need not exist, and is not touched. Unless the
/// command `syncs`, a write into it does not wait for the disk. The first call of the system that
/// fails there is noted in `first`.
///
/// # Errors
///
/// - 95 `NotWritable` if the path leads to a regular file.
/// - Out of memory, at any point.
pub(crate) fn open_folder<'r, R: Files + AllocGlobal>(
    rt: &'r R,
    path: &str,
    first: &'r FirstFailure,
    syncs: bool,
) -> Result<FsDir<'r, R>, ProgramFault>
    ensures { IfOk result (λ dir. dir ≡ (path.now, 0)) }
{
    if is_file(rt, path) {
        let path = String::from_str(rt.alloc(), path)?;
        return Err(ProgramFault::NotWritable(path));
    }
    let folder = FsDir::noting(rt, path, first)?;
    if syncs {
        Ok(folder)
    } else {
        Ok(folder.unsynced())
    }
}

/// Returns whether a path is named like an archive, or has a prefix by which other tools tell
/// archives and layouts apart. A new folder of that name is most likely a mistake.
fn names_archive(path: &str) -> bool {
    path.ends_with(".tar") || path.starts_with("oci:") || path.starts_with("oci-archive:")
}

/// Returns whether a path leads to a regular file.
pub(crate) fn is_file<R: Files>(rt: &R, path: &str) -> bool {
    match fs::metadata(rt, path) {
        Ok(metadata) => metadata.is_file(),
        Err(_) => false,
    }
}
