ghost use Rattle.std.specs.Prelude.{◌≡◌, IfOk, IfSome, IsSomeAnd};
ghost use Rattle.std.specs.IoError.{error_kind};
ghost use Rattle.std.specs.Option.{option_copied};
ghost use Rattle.oci_program.specs.Kind.{IsReasonAt, IsReasonOf};

use crate::fault::ProgramFault;
use oci_archive::ArchiveFault;
use oci_copy::CopyFault;
use oci_digest::NoMemory;
use oci_dir::Failure;
use oci_layout_store::LayoutFault;
use oci_manifest::Key;
use oci_plan::PlanFault;
use oci_prune_fault::PruneFault;
use oci_store::{FetchFault, PushFault};
use oci_verify::VerifyFault;
use std::alloc::Global;
use std::io;

/// A place that a command line names: a folder or an archive that the command reads, or the folder
/// that it changes.
#[derive(Clone, Copy)]
pub struct Side<'w> {
    /// Its word in the command's usage: `SRC`, `DST` or `FOLDER`. The files of `mem` have none.
    pub word: Option<&'w str>,
    /// Its path, as the command line has it.
    pub path: &'w str,
    /// Whether it is an archive. The files in an archive have no path.
    pub is_archive: bool,
    /// The first call of the system that failed there.
    pub failure: Option<&'w Failure>,
}

/// The places that a command line names. A command that changes the layout that it reads has the
/// same place twice.
#[derive(Clone, Copy)]
pub struct Sides<'w> {
    /// The place that the command reads.
    pub read: Option<Side<'w>>,
    /// The folder that the command changes.
    pub written: Option<Side<'w>>,
}

impl<'w> Sides<'w> {
    /// Returns the places of a command line that names none.
    pub fn none() -> Sides<'w> {
        Sides {
            read: None,
            written: None,
        }
    }
}

/// The file or folder that is the cause of a refusal.
#[derive(Drop)]
pub struct RefusedPath<'w> {
    /// The word of its [`Side`].
    pub side: Option<&'w str>,
    /// Its path.
    pub path: String,
    /// The system's reason, if a call of the system failed there.
    pub reason: Option<Reason>,
}

/// Why a call of the system failed.
#[derive(Drop)]
pub struct Reason {
    /// The system's text: for example `Permission denied`.
    pub text: String,
    /// The kind of the error.
    pub kind: io::ErrorKind,
}

/// A side of a command.
#[derive(Clone, Copy)]
enum Role {
    Read,
    Written,
}

/// A file of a side.
#[derive(Clone, Copy)]
enum Part<'f> {
    /// The folder or archive itself.
    Whole,
    /// The file at this path in the folder.
    File(&'f str),
    /// The blob of this key.
    Blob(&'f Key),
    /// The file at this path, which the command line names.
    Named(&'f str),
    /// The file at which the system failed first. If nothing is noted, it is the blob of this key, or
    /// the folder or archive itself.
    Failed(Option<&'f Key>),
}

impl ProgramFault {
    /// Returns the file or folder that is the cause of the fault, if one is.
    pub(crate) fn refused_path<'w>(
        &self,
        alloc: Global,
        sides: &Sides<'w>,
    ) -> Result<Option<RefusedPath<'w>>, NoMemory>
        ensures { IfOk result (λ found.
            IfSome found (λ it. IfSome it.reason (IsReasonOf sides.now))) }
    {
        let Some((role, part)) = self.cause() else {
            return Ok(None);
        };
        let side = match role {
            Role::Read => sides.read,
            Role::Written => sides.written,
        };
        match side {
            Some(side) => refused_path_in(alloc, side, part),
            None => Ok(None),
        }
    }

    /// Returns the side and the file that are the cause of the fault, if it has such a cause.
    fn cause(&self) -> Option<(Role, Part<'_>)> {
        match self {
            ProgramFault::Archive(ArchiveFault::Device) => Some((Role::Read, Part::Failed(None))),
            ProgramFault::Archive(_) => Some((Role::Read, Part::Whole)),
            ProgramFault::Layout(fault) => Some((Role::Read, part_of_layout(fault))),
            ProgramFault::Source(fault) => Some((Role::Read, part_of_prune(fault))),
            ProgramFault::NoMatch => Some((Role::Read, Part::Whole)),
            ProgramFault::NoIndex => Some((Role::Written, Part::File("index.json"))),
            ProgramFault::IndexChanged => Some((Role::Written, Part::File("index.json"))),
            ProgramFault::Fetch(_) => Some((Role::Read, Part::Failed(None))),
            ProgramFault::Verify(VerifyFault::Device) => Some((Role::Read, Part::Failed(None))),
            ProgramFault::File(path) => Some((Role::Read, Part::Named(path))),
            ProgramFault::Destination(fault) => Some((Role::Written, part_of_layout(fault))),
            ProgramFault::Prune(fault) => Some((Role::Written, part_of_prune(fault))),
            ProgramFault::NotWritable(_) => Some((Role::Written, Part::Whole)),
            ProgramFault::Locked(_) => Some((Role::Written, Part::Whole)),
            ProgramFault::Copy(fault) => cause_of_copy(fault),
            _ => None,
        }
    }
}

/// Returns the file that is the cause of a layout's fault.
fn part_of_layout(fault: &LayoutFault) -> Part<'_> {
    match fault {
        LayoutFault::BadLayoutFile => Part::File("oci-layout"),
        LayoutFault::BadVersion => Part::File("oci-layout"),
        LayoutFault::BadIndex(_) => Part::File("index.json"),
        LayoutFault::Corrupt(key) => Part::Blob(key),
        LayoutFault::BadManifest(key, _) => Part::Blob(key),
        LayoutFault::Device => Part::Failed(None),
        _ => Part::Whole,
    }
}

/// Returns the file that is the cause of a prune's fault.
fn part_of_prune(fault: &PruneFault) -> Part<'_> {
    match fault {
        PruneFault::NotRemoved(path) => Part::File(path),
        PruneFault::LinkedBlobs(path) => Part::File(path),
        PruneFault::Fetch(key, inner) => part_of_fetch(key, inner),
        PruneFault::Unknown(key) => Part::Blob(key),
        PruneFault::Layout(inner) => part_of_layout(inner),
        _ => Part::Whole,
    }
}

/// Returns the file that is the cause of the refused fetch of a blob.
fn part_of_fetch<'f>(key: &'f Key, fault: &FetchFault) -> Part<'f> {
    match fault {
        FetchFault::Device => Part::Failed(Some(key)),
        _ => Part::Blob(key),
    }
}

/// Returns the side and the blob that are the cause of a copy's fault, if it has such a cause.
fn cause_of_copy(fault: &CopyFault) -> Option<(Role, Part<'_>)> {
    match fault {
        CopyFault::Plan(inner) => cause_of_plan(inner),
        CopyFault::Fetch(key, inner) => Some((Role::Read, part_of_fetch(key, inner))),
        CopyFault::Push(key, PushFault::Device) => Some((Role::Written, Part::Failed(Some(key)))),
        CopyFault::Push(key, PushFault::BadManifest(_)) => Some((Role::Read, Part::Blob(key))),
        CopyFault::DestinationOpen(_, missing) => Some((Role::Written, Part::Blob(missing))),
        _ => None,
    }
}

/// Returns the side and the blob that are the cause of a plan's fault, if it has such a cause.
fn cause_of_plan(fault: &PlanFault) -> Option<(Role, Part<'_>)> {
    match fault {
        PlanFault::NotFound(key) => Some((Role::Read, Part::Blob(key))),
        PlanFault::TooLarge(key, _) => Some((Role::Read, Part::Blob(key))),
        PlanFault::Manifest(key, _) => Some((Role::Read, Part::Blob(key))),
        PlanFault::Fetch(key, inner) => Some((Role::Read, part_of_fetch(key, inner))),
        _ => None,
    }
}

/// Returns a file of a side. A side without a word has only files that the command line names.
fn refused_path_in<'w>(
    alloc: Global,
    side: Side<'w>,
    part: Part<'_>,
) -> Result<Option<RefusedPath<'w>>, NoMemory>
    ensures { IfOk result (λ found.
        IfSome found (λ it. IfSome it.reason (λ reason. IsReasonAt reason side.entry))) }
{
    if side.word.is_none() && !matches!(part, Part::Named(_)) {
        return Ok(None);
    }
    let path = path_of(alloc, side, part)?;
    let reason = reason_at(alloc, side.failure, &path)?;
    Ok(Some(RefusedPath {
        side: side.word,
        path,
        reason,
    }))
}

/// Returns the path of a file of a side.
fn path_of(alloc: Global, side: Side<'_>, part: Part<'_>) -> Result<String, NoMemory> {
    match part {
        Part::Whole => Ok(String::from_str(alloc, folder_of(side))?),
        Part::File(path) => path_below(alloc, side, path),
        Part::Blob(key) => blob_path(alloc, side, Some(key)),
        Part::Named(path) => Ok(String::from_str(alloc, path)?),
        Part::Failed(key) => match side.failure {
            Some(failure) => Ok(String::from_str(alloc, failure.path.as_str())?),
            None => blob_path(alloc, side, key),
        },
    }
}

/// Returns the path of a side: `.` for an empty one.
fn folder_of(side: Side<'_>) -> &str {
    match side.path {
        "" => ".",
        path => path,
    }
}

/// Returns the path of a file below a folder. In an archive it is the path of the archive.
fn path_below(alloc: Global, side: Side<'_>, path: &str) -> Result<String, NoMemory> {
    let folder = folder_of(side);
    if side.is_archive {
        return Ok(String::from_str(alloc, folder)?);
    }
    Ok(format!(in alloc; "{folder}/{path}")?)
}

/// Returns the path of the blob of a key, or of the folder or archive if there is no key.
fn blob_path(alloc: Global, side: Side<'_>, key: Option<&Key>) -> Result<String, NoMemory> {
    let Some(key) = key else {
        return Ok(String::from_str(alloc, folder_of(side))?);
    };
    let (algorithm, digits) = (key.digest().algorithm(), key.digest().encoded(alloc)?);
    path_below(
        alloc,
        side,
        &format!(in alloc; "blobs/{algorithm}/{digits}")?,
    )
}

/// Returns the system's reason for a failure at a path. What the system did not refuse has none.
fn reason_at(
    alloc: Global,
    failure: Option<&Failure>,
    path: &str,
) -> Result<Option<Reason>, NoMemory>
    ensures { IfOk result (λ found. IfSome found (λ reason.
        IsSomeAnd (option_copied failure.entry) (λ first. reason.kind ≡ error_kind first.error))) }
{
    match failure {
        Some(failure) if failure.path.as_str() == path => reason_of(alloc, failure.error),
        _ => Ok(None),
    }
}

/// Returns an error of the system as a reason, whose text has no number.
fn reason_of(alloc: Global, error: io::Error) -> Result<Option<Reason>, NoMemory>
    ensures { IfOk result (λ found. IfSome found (λ reason. reason.kind ≡ error_kind error)) }
{
    if error.raw_os_error().is_none() {
        return Ok(None);
    }
    let text = format!(in alloc; "{error}")?;
    Ok(Some(Reason {
        text: String::from_str(alloc, without_number(&text))?,
        kind: error.kind(),
    }))
}

/// Returns the text of an error of the system, without its number at the end.
fn without_number(text: &str) -> &str {
    match text.rsplit_once(" (os error ") {
        Some((reason, _)) => reason,
        None => text,
    }
}
