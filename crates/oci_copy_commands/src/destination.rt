ghost use Rattle.std.specs.Prelude.{IfOk};
ghost use Rattle.oci_copy_commands.specs.Run.{IsCreatedIn, IsFound, IsReady, IsSettledFrom};

use oci_dir::{Dir, FirstFailure};
use oci_folder::{FolderLock, Lockable, remove_leftovers_of};
use oci_layout_store::{Layout, LayoutFault};
use oci_program::{ProgramFault, SeenIndex};
use std::alloc::Global;
use std::rt::Files;
use std::{fs, io};

/// Removes the files that killed copies left in a locked folder. A file that cannot be removed
/// stays, and does not stop the copy.
///
/// # Errors
///
/// Out of memory.
pub(crate) fn remove_leftovers<R: Files<File: Lockable> + AllocGlobal>(
    rt: &R,
    lock: &FolderLock<R>,
) -> Result<(), ProgramFault> {
    match lock.remove_leftovers(rt) {
        Err(error) if error.kind() == io::ErrorKind::OutOfMemory => Err(ProgramFault::Memory),
        _ => Ok(()),
    }
}

/// Removes the files that killed copies left beside a new file. One that cannot be removed stays, and
/// does not stop the copy.
///
/// # Errors
///
/// Out of memory.
pub(crate) fn remove_leftovers_of_file<R: Files<File: Lockable> + AllocGlobal>(
    rt: &R,
    path: &str,
) -> Result<(), ProgramFault> {
    match remove_leftovers_of(rt, path) {
        Err(error) if error.kind() == io::ErrorKind::OutOfMemory => Err(ProgramFault::Memory),
        _ => Ok(()),
    }
}

/// Creates the folder `blobs/sha256` of a layout in a folder, if it is missing. Every layout has
/// it, even one without blobs (OCI image specification 1.1, image-layout.md, "Blobs"). A failure of
/// the system is noted in `first`, if it is there.
///
/// # Errors
///
/// - 74 `Device` if it cannot be created, for example because `blobs` is a file.
/// - Out of memory.
pub(crate) fn make_blobs_folder<R: Files + AllocGlobal>(
    rt: &R,
    folder: &str,
    first: Option<&FirstFailure>,
) -> Result<(), ProgramFault> {
    let above = if folder.is_empty() { "." } else { folder };
    let path = format!(in rt.alloc(); "{above}/blobs/sha256")?;
    match fs::create_dir_all(rt, &path) {
        Ok(()) => Ok(()),
        Err(error) => Err(ProgramFault::of_folder(first, &path, error)),
    }
}

/// Opens the layout in a directory as it is, whose index was seen before. Creates one if there is no
/// `oci-layout` and no index that the creation would replace, and returns what its index has then. Waits
/// until the index is on the disk: a process that was killed may have replaced it shortly before.
///
/// # Errors
///
/// - 70 `NoLayoutFile` if there is no `oci-layout`, and another `index.json` than that of an empty
///   layout.
/// - 71 to 74 if the directory has a layout that cannot be opened.
/// - 74 `Device` if a layout cannot be created, or if it is not known whether the index is on the
///   disk.
/// - Out of memory, at any point.
pub(crate) fn open_or_create<D: Dir + Drop>(
    alloc: Global,
    dir: D,
    seen: SeenIndex,
) -> Result<(Layout<D>, SeenIndex), ProgramFault>
    ensures { IfOk result (λ it. IsReady D.device dir it.0) }
{
    let (layout, seen) = find(alloc, dir, seen)?;
    let ready = settled(layout)?;
    Ok((ready, seen))
}

/// Opens the layout in a directory as it is, or creates one, as [`open_or_create`] does.
fn find<D: Dir + Drop>(
    alloc: Global,
    dir: D,
    seen: SeenIndex,
) -> Result<(Layout<D>, SeenIndex), ProgramFault>
    ensures { IfOk result (λ it. IsFound D.device dir it.0) }
{
    match Layout::open_as_is(alloc, dir) {
        Ok(layout) => Ok((layout, seen)),
        Err((dir, LayoutFault::NoLayoutFile)) => create(alloc, dir),
        Err((_dir, fault)) => Err(ProgramFault::Destination(fault)),
    }
}

/// Creates a layout in a directory, if there is no index that the creation would replace.
fn create<D: Dir + Drop>(alloc: Global, dir: D) -> Result<(Layout<D>, SeenIndex), ProgramFault>
    ensures { IfOk result (λ it. IsCreatedIn D.device dir it.0) }
{
    match Layout::create_if_free(alloc, dir) {
        Ok(layout) => {
            let seen = SeenIndex::of(layout.dir())?;
            Ok((layout, seen))
        }
        Err((_dir, fault)) => Err(ProgramFault::Destination(fault)),
    }
}

/// Returns a layout once its index is on the disk.
fn settled<D: Dir + Drop>(layout: Layout<D>) -> Result<Layout<D>, ProgramFault>
    ensures { IfOk result (IsSettledFrom D.device layout) }
{
    let mut layout = layout;
    match layout.settle_index() {
        Ok(()) => Ok(layout),
        Err(fault) => Err(ProgramFault::Destination(fault)),
    }
}
