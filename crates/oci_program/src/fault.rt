ghost use Rattle.std.specs.Prelude.{◌≡◌, ◌↔◌, ◌⊎◌, IsTrue};
ghost use Rattle.std.specs.IoError.{error_kind};
ghost use Rattle.std.specs.declared.io.ErrorKind.TheVariants.{OutOfMemory};
ghost use Rattle.oci_program.specs.Status.{is_memory, program_number};

use oci_archive::ArchiveFault;
use oci_copy::CopyFault;
use oci_digest::NoMemory;
use oci_dir::FirstFailure;
use oci_layout_store::LayoutFault;
use oci_manifest::KeyFault;
use oci_prune_fault::PruneFault;
use oci_store::{FetchFault, PushFault, RefFault};
use oci_verify::VerifyFault;
use std::alloc::{AllocError, AllocFailed};
use std::fmt::Display;
use std::{fmt, io};
use thiserror::Error;

/// Texts that are printed with a space before each.
#[derive(Drop)]
struct SpaceSeparated<'a>(&'a [String]);

impl Display for SpaceSeparated<'_> {
    fn fmt<W: fmt::Write>(&self, f: &mut fmt::Formatter<W>) -> fmt::Result {
        for text in self.0 {
            write!(f, " {text}")?;
        }
        Ok(())
    }
}

/// Why a command is refused. `Display` is the text after `ocicp: ` on stderr.
#[derive(Debug, Drop, Error)]
pub enum ProgramFault {
    /// An item has no `=`.
    #[error("92 BadItem {0}")]
    BadItem(String),
    /// The file could not be read.
    #[error("93 File {0}")]
    File(String),
    /// The output could not be written.
    #[error("94 Output")]
    Output,
    /// The path of a layout to change is a file, or a new one has the name of an archive.
    #[error("95 NotWritable {0}")]
    NotWritable(String),
    /// Another process has the lock of the folder, and the command does not wait.
    #[error("99 Locked {0}")]
    Locked(String),
    /// No descriptor of an index states the platform, or what the reference names is no index. The
    /// platforms that the index states follow.
    #[error("107 NoPlatform {}{}", .0, SpaceSeparated(.1))]
    NoPlatform(String, Vec<String>),
    /// The layout that a copy reads has tags, and none of them matches a pattern.
    #[error("108 NoMatch")]
    NoMatch,
    /// The folder that a command would remove blobs from has blobs, and no `index.json`.
    #[error("109 NoIndex")]
    NoIndex,
    /// Another program wrote `index.json` while a command changed the layout, or removed it.
    #[error("110 IndexChanged")]
    IndexChanged,
    /// The file that a command reads is no archive, or could not be read.
    #[error("{0}")]
    Archive(#[from] ArchiveFault),
    /// The file is too long for a key.
    #[error("{0}")]
    Key(#[from] KeyFault),
    /// The store refused the file.
    #[error("{0}")]
    Push(#[from] PushFault),
    /// The copy was refused.
    #[error("{0}")]
    Copy(#[from] CopyFault),
    /// The layout that a command reads is no layout, or could not be read.
    #[error("{0}")]
    Layout(#[from] LayoutFault),
    /// The folder that a command writes into is no layout, or could not be locked, read or written.
    #[error("{0}")]
    Destination(LayoutFault),
    /// The prune was refused, or a file could not be removed.
    #[error("{0}")]
    Prune(#[from] PruneFault),
    /// The layout that a command reads has no tag, or it is not known what it has.
    #[error("{0}")]
    Source(PruneFault),
    /// The layout does not have the reference.
    #[error("{0}")]
    Reference(#[from] RefFault),
    /// A file of the layout could not be read.
    #[error("{0}")]
    Fetch(#[from] FetchFault),
    /// The files of the layout were not checked.
    #[error("{0}")]
    Verify(#[from] VerifyFault),
    /// Out of memory.
    #[error("memory")]
    Memory,
}

impl ProgramFault {
    /// Returns the fault of an output that failed with this error: `Memory` for `OutOfMemory`, and
    /// otherwise `Output`.
    pub fn of_output(error: io::Error) -> ProgramFault
        ensures memory { IsTrue (is_memory result) ↔ (error_kind error ≡ OutOfMemory) }
        ensures either { (result ≡ ProgramFault.Output) ⊎ (result ≡ ProgramFault.Memory) }
    {
        match error.kind() {
            io::ErrorKind::OutOfMemory => ProgramFault::Memory,
            _ => ProgramFault::Output,
        }
    }

    /// Returns the fault of an archive that could not be opened with this error: `Memory` for
    /// `OutOfMemory`, and otherwise `Device`.
    pub fn of_archive(error: io::Error) -> ProgramFault
        ensures { IsTrue (is_memory result) ↔ (error_kind error ≡ OutOfMemory) }
    {
        match error.kind() {
            io::ErrorKind::OutOfMemory => ProgramFault::Archive(ArchiveFault::Memory),
            _ => ProgramFault::Archive(ArchiveFault::Device),
        }
    }

    /// Returns the fault of a folder to change that could not be created, opened or locked: `Memory`
    /// for `OutOfMemory`, and otherwise `Device`. Notes a failure of the system in `first`, if it is
    /// there.
    pub fn of_folder(first: Option<&FirstFailure>, folder: &str, error: io::Error) -> ProgramFault
        ensures { IsTrue (is_memory result) ↔ (error_kind error ≡ OutOfMemory) }
    {
        if error.kind() == io::ErrorKind::OutOfMemory {
            return ProgramFault::Memory;
        }
        if let Some(first) = first {
            first.note(if folder.is_empty() { "." } else { folder }, error);
        }
        ProgramFault::Destination(LayoutFault::Device)
    }

    /// Whether memory ran out.
    pub fn is_memory(&self) -> bool
        ensures { result ≡ is_memory self.now }
    {
        match self {
            ProgramFault::Archive(fault) => matches!(fault, ArchiveFault::Memory),
            ProgramFault::Push(fault) => matches!(fault, PushFault::Memory),
            ProgramFault::Copy(fault) => matches!(fault, CopyFault::Memory),
            ProgramFault::Layout(fault) => matches!(fault, LayoutFault::Memory),
            ProgramFault::Destination(fault) => matches!(fault, LayoutFault::Memory),
            ProgramFault::Prune(fault) => is_prune_memory(fault),
            ProgramFault::Source(fault) => is_prune_memory(fault),
            ProgramFault::Reference(fault) => matches!(fault, RefFault::Memory),
            ProgramFault::Fetch(fault) => matches!(fault, FetchFault::Memory),
            ProgramFault::Verify(fault) => matches!(fault, VerifyFault::Memory),
            ProgramFault::Memory => true,
            _ => false,
        }
    }

    /// Returns the first number of the fault's text. The program's own memory error has none.
    pub fn number(&self) -> Option<u8>
        ensures { result ≡ program_number self.now }
    {
        match self {
            ProgramFault::BadItem(_) => Some(92),
            ProgramFault::File(_) => Some(93),
            ProgramFault::Output => Some(94),
            ProgramFault::NotWritable(_) => Some(95),
            ProgramFault::Locked(_) => Some(99),
            ProgramFault::NoPlatform(_, _) => Some(107),
            ProgramFault::NoMatch => Some(108),
            ProgramFault::NoIndex => Some(109),
            ProgramFault::IndexChanged => Some(110),
            ProgramFault::Archive(fault) => Some(fault.number()),
            ProgramFault::Key(fault) => Some(fault.number()),
            ProgramFault::Push(fault) => Some(fault.number()),
            ProgramFault::Copy(fault) => Some(fault.number()),
            ProgramFault::Layout(fault) => Some(fault.number()),
            ProgramFault::Destination(fault) => Some(fault.number()),
            ProgramFault::Prune(fault) => Some(fault.number()),
            ProgramFault::Source(fault) => Some(fault.number()),
            ProgramFault::Reference(fault) => Some(fault.number()),
            ProgramFault::Fetch(fault) => Some(fault.number()),
            ProgramFault::Verify(fault) => Some(fault.number()),
            ProgramFault::Memory => None,
        }
    }
}

/// Whether memory ran out in a prune.
fn is_prune_memory(fault: &PruneFault) -> bool
    ensures { result ≡ is_memory (ProgramFault.Prune fault.now) }
{
    match fault {
        PruneFault::Layout(inner) => matches!(inner, LayoutFault::Memory),
        PruneFault::Memory => true,
        _ => false,
    }
}

impl From<AllocError> for ProgramFault {
    ghost use Rattle.std.specs.Prelude.{◌≡◌};
    ghost use Rattle.oci_program.specs.declared.fault.ProgramFault.TheVariants.{Memory};

    ghost from_gives = { λ _ e. e ≡ Memory };

    fn from(_refused: AllocError) -> ProgramFault {
        ProgramFault::Memory
    }
}

impl From<NoMemory> for ProgramFault {
    ghost use Rattle.std.specs.Prelude.{◌≡◌};
    ghost use Rattle.oci_program.specs.declared.fault.ProgramFault.TheVariants.{Memory};

    ghost from_gives = { λ _ e. e ≡ Memory };

    fn from(_refused: NoMemory) -> ProgramFault {
        ProgramFault::Memory
    }
}

impl<T: Drop> From<AllocFailed<T>> for ProgramFault {
    ghost use Rattle.std.specs.Prelude.{◌≡◌};
    ghost use Rattle.oci_program.specs.declared.fault.ProgramFault.TheVariants.{Memory};

    ghost from_gives = { λ _ e. e ≡ Memory };

    fn from(_refused: AllocFailed<T>) -> ProgramFault {
        ProgramFault::Memory
    }
}

/// The fault of a layout that was not opened or not created. Its directory is dropped.
impl<D: Drop> From<(D, LayoutFault)> for ProgramFault {
    fn from(refused: (D, LayoutFault)) -> ProgramFault {
        let (_dir, fault) = refused;
        ProgramFault::Layout(fault)
    }
}
