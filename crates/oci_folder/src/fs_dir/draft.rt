ghost use Rattle.std.specs.Prelude.{◌≡◌, OnOk, IsTrue};
ghost use Rattle.oci_folder.specs.declared.fs_dir.draft.Stage.TheVariants.{Failed};

use crate::fs_dir::beside::Beside;
use crate::fs_dir::files::{length_of, part_of_file};
use crate::fs_dir::lock::Lockable;
use crate::fs_dir::settling::Syncs;
use oci_digest::NoMemory;
use oci_dir::{DirFault, FirstFailure};
use oci_store::Drafting;
use std::io::ErrorKind;
use std::random::RandomSource;
use std::rt::Files;

/// The state of a draft of a file of a folder.
#[derive(Drop)]
enum Stage<'r, R: Files + AllocGlobal> {
    /// The number of bytes appended so far. The file at the place begins with them, and nothing is
    /// written yet.
    Found(u64),
    /// Nothing is appended or written yet, and all bytes will be written.
    Fresh,
    /// The appended bytes are in a file beside the place.
    Written(Beside<'r, R>),
    /// An append failed, or the folder cannot have the file.
    Failed,
}

/// A draft of a file of a folder.
///
/// Nothing is written as long as the file at the place begins with the appended bytes. From the
/// first difference on they are in a file beside the place. No other draft has that file, and it is
/// removed if the draft is dropped. If the file at the place is longer than the draft, its
/// beginning is copied when the draft is kept. All bytes of a fresh draft are written.
#[derive(Drop)]
pub struct FsDraft<'r, R: Files + AllocGlobal> {
    rt: &'r R,
    first: Option<&'r FirstFailure>,
    syncs: Syncs,
    place: String,
    stage: Stage<'r, R>,
}

impl<'r, R: Files + AllocGlobal> FsDraft<'r, R> {
    /// Creates an empty draft of the file at a place. The folder is not touched.
    pub(crate) fn at(
        rt: &'r R,
        first: Option<&'r FirstFailure>,
        syncs: Syncs,
        place: String,
    ) -> FsDraft<'r, R> {
        FsDraft {
            rt,
            first,
            syncs,
            place,
            stage: Stage::Found(0),
        }
    }

    /// Creates a draft of a file that the folder cannot have. It is never kept.
    pub(crate) fn nowhere(rt: &'r R, syncs: Syncs) -> FsDraft<'r, R> {
        FsDraft {
            rt,
            first: None,
            syncs,
            place: String::new(rt.alloc()),
            stage: Stage::Failed,
        }
    }

    /// Makes an empty draft write each byte, also those that the file at the place begins with.
    pub(crate) fn write_all_bytes(&mut self) {
        if let Stage::Found(_) = &self.stage {
            self.stage = Stage::Fresh;
        }
    }

    /// Returns whether its bytes are in a file of its own.
    pub(crate) fn is_written(&self) -> bool {
        matches!(&self.stage, Stage::Written(_))
    }

    /// Returns whether its bytes cannot be synced. Syncs them if they are in a file of its own.
    fn fails_to_settle(&mut self) -> bool
        ensures { self.old.stage ≡ Failed → IsTrue result }
    {
        match &mut self.stage {
            Stage::Written(beside) => beside.settle(&self.syncs).is_err(),
            Stage::Found(_) | Stage::Fresh => false,
            Stage::Failed => true,
        }
    }
}

impl<'r, R: Files + AllocGlobal + RandomSource> FsDraft<'r, R>
where
    R::File: Lockable,
{
    /// Adds bytes at the end.
    fn add(&mut self, part: &[u8]) -> Result<(), DirFault> {
        match &mut self.stage {
            Stage::Found(length) => {
                self.stage = added(self.rt, self.first, &self.place, *length, part)?;
                Ok(())
            }
            Stage::Fresh => {
                let beside = Beside::with(self.rt, self.first, &self.place, part)?;
                self.stage = Stage::Written(beside);
                Ok(())
            }
            Stage::Written(beside) => beside.append(part),
            Stage::Failed => Ok(()),
        }
    }
}

/// No code can show the bytes of a file, so the contracts take a draft in a folder to have any
/// bytes.
impl<'r, R: Files + AllocGlobal + RandomSource> Drafting for FsDraft<'r, R>
where
    R::File: Lockable,
{
    ghost use Rattle.std.specs.Prelude.{◌≡◌, ⊤};
    ghost use Rattle.oci_folder.specs.declared.fs_dir.draft.Stage.TheVariants.{Failed};

    ghost drafted = { λ d bytes. ⊤ };

    ghost is_lost = { λ d. d.stage ≡ Failed };

    fn append(&mut self, part: &[u8]) -> Result<(), NoMemory> {
        let Err(fault) = self.add(part) else {
            return Ok(());
        };
        self.stage = Stage::Failed;
        match fault {
            DirFault::Memory => Err(NoMemory),
            DirFault::Failed => Ok(()),
        }
    }

    /// Syncs the file that the draft has beside its place, if it has one. If that fails, the draft
    /// is lost.
    fn settle(&mut self) {
        if self.fails_to_settle() {
            self.stage = Stage::Failed;
        }
    }

    fn is_broken(&self) -> bool {
        matches!(&self.stage, Stage::Failed)
    }
}

/// Appends a part to a draft that has `length` bytes so far. The file at the place begins with
/// them. Returns the draft's new state.
fn added<'r, R: Files + AllocGlobal + RandomSource>(
    rt: &'r R,
    first: Option<&'r FirstFailure>,
    place: &str,
    length: u64,
    part: &[u8],
) -> Result<Stage<'r, R>, DirFault>
where
    R::File: Lockable,
{
    if has_part(rt, place, length, part)? {
        return Ok(Stage::Found(length.saturating_add(part.len() as u64)));
    }
    if length == 0 {
        return Ok(Stage::Written(Beside::with(rt, first, place, part)?));
    }
    let mut beside = Beside::copied(rt, first, place, length)?;
    beside.append(part)?;
    Ok(Stage::Written(beside))
}

/// Returns whether the file at a place has these bytes at position `from`. If it cannot be read, it
/// does not.
fn has_part<R: Files + AllocGlobal>(
    rt: &R,
    place: &str,
    from: u64,
    part: &[u8],
) -> Result<bool, DirFault> {
    match part_of_file(rt, place, from, part.len()) {
        Ok(bytes) => Ok(bytes.as_slice() == part),
        Err(error) if error.kind() == ErrorKind::OutOfMemory => Err(DirFault::Memory),
        Err(_) => Ok(false),
    }
}

/// Puts the drafted bytes at a place. That is usually one renaming, or nothing if the file there
/// has just these bytes. If it goes on after them, they are copied now: a draft does not know its
/// length before. A draft is not put if an append failed.
pub(crate) fn finish<R: Files + AllocGlobal + RandomSource>(
    draft: FsDraft<'_, R>,
    place: &str,
) -> Result<(), DirFault>
where
    R::File: Lockable,
    ensures { draft.entry.stage ≡ Failed → OnOk result ⊥ }
{
    let FsDraft {
        rt,
        first,
        syncs,
        place: drafted,
        stage,
    } = draft;
    match stage {
        Stage::Found(length) => {
            if drafted.as_str() == place && is_whole(rt, place, length) {
                return Ok(());
            }
            Beside::copied(rt, first, &drafted, length)?.rename(&syncs, place)
        }
        Stage::Fresh => Beside::with(rt, first, &drafted, &[])?.rename(&syncs, place),
        Stage::Written(beside) => beside.rename(&syncs, place),
        Stage::Failed => Err(DirFault::Failed),
    }
}

/// Returns whether the file at a place has exactly `length` bytes.
fn is_whole<R: Files>(rt: &R, place: &str, length: u64) -> bool {
    match length_of(rt, place) {
        Ok(found) => found == length,
        Err(_) => false,
    }
}
