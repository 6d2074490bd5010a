use oci_dir::FirstFailure;
use oci_folder::folder_and_name;
use oci_program::ProgramFault;
use std::fs::OpenOptions;
use std::io::{ErrorKind, Read};
use std::os::unix::fs::OpenOptionsExt;
use std::random::RandomSource;
use std::rt::{Env, Files};
use std::{env, fs, io};

/// The path that stands for the standard input, from which an archive is read.
pub(crate) const INPUT: &str = "-";

/// The standard input, whose first failure is noted.
#[derive(Drop)]
struct NotedInput<'f, I: Read + Drop> {
    input: I,
    first: &'f FirstFailure,
}

impl<I: Read + Drop> Read for NotedInput<'_, I> {
    ghost remaining = { λ it. I.remaining it.input };

    fn read(&mut self, part: &mut [u8]) -> io::Result<usize> {
        let count = self.input.read(part);
        if let Err(error) = &count
            && error.kind() != ErrorKind::Interrupted
        {
            self.first.note(INPUT, *error);
        }
        count
    }
}

/// Reads the standard input to its end, and returns a file with its bytes, which can be read at
/// positions. The file has no name, so nothing is left of it however the process ends.
///
/// It is in the folder `into`, which the command writes into, or in the nearest one above that is
/// there. If the command writes into no folder, it is in the one for temporary files: that of the
/// environment's `TMPDIR`, or `/tmp`.
///
/// # Errors
///
/// - 105 `Device` if the input cannot be read, or the file not be created or written. The path `-`,
///   or that of the folder, is noted in `first` with the system's error.
/// - Out of memory, at any point.
pub(crate) fn spool<R: Files + AllocGlobal + RandomSource + Input + Env>(
    rt: &R,
    into: Option<&str>,
    first: &FirstFailure,
) -> Result<R::File, ProgramFault> {
    if let Some(path) = into {
        return spool_in(rt, nearest_folder(rt, path), first);
    }
    match env::temp_dir(rt) {
        Ok(folder) => spool_in(rt, or_usual(folder.as_str()), first),
        Err(error) => Err(refused(first, "TMPDIR", error)),
    }
}

/// Returns the path of the folder for temporary files: the usual one for an empty path.
fn or_usual(path: &str) -> &str {
    if path.is_empty() { "/tmp" } else { path }
}

/// Returns the folder at a path, or the nearest one above it.
fn nearest_folder<'p, R: Files>(rt: &R, path: &'p str) -> &'p str {
    let mut folder = path;
    for _ in 0..=path.len() {
        if is_folder(rt, folder) {
            break;
        }
        folder = folder_and_name(folder).0;
    }
    folder
}

/// Returns whether a path leads to a folder.
fn is_folder<R: Files>(rt: &R, path: &str) -> bool {
    match fs::metadata(rt, path) {
        Ok(metadata) => metadata.is_dir(),
        Err(_) => false,
    }
}

/// Reads the standard input to its end into a file in a folder.
fn spool_in<R: Files + AllocGlobal + RandomSource + Input>(
    rt: &R,
    folder: &str,
    first: &FirstFailure,
) -> Result<R::File, ProgramFault> {
    let mut file = match nameless(rt, folder) {
        Ok(file) => file,
        Err(error) => return Err(refused(first, folder, error)),
    };
    let mut input = NotedInput {
        input: rt.reader(),
        first,
    };
    match io::copy(&mut input, &mut file) {
        Ok(_) => Ok(file),
        Err(error) => Err(refused(first, folder, error)),
    }
}

/// Creates a file in a folder, which only this user may open, and removes its name. If the process
/// is killed between the two, an empty file `ocicp-stdin.R.new` stays, with 16 random hexadecimal
/// digits for `R`.
fn nameless<R: Files + AllocGlobal + RandomSource>(rt: &R, folder: &str) -> io::Result<R::File> {
    let mut bytes = [0; 8];
    rt.fill_bytes(&mut bytes)?;
    let number = u64::from_be_bytes(bytes);
    let path = format!(in rt.alloc(); "{folder}/ocicp-stdin.{number:016x}.new")?;
    let file = OpenOptions::new()
        .read(true)
        .write(true)
        .create_new(true)
        .mode(0o600)
        .open(rt, &path)?;
    match fs::remove_file(rt, &path) {
        Err(error) if error.kind() != ErrorKind::NotFound => Err(error),
        _ => Ok(file),
    }
}

/// Notes a failure of the system at a path, and returns the refusal of an archive for it.
pub(crate) fn refused(first: &FirstFailure, path: &str, error: io::Error) -> ProgramFault {
    first.note(path, error);
    ProgramFault::of_archive(error)
}
