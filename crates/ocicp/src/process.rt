use crate::escaped::Escaped;
use crate::run::{form_of, run_words_on};
use oci_layout_copy::Host;
use oci_program::{Ending, ProgramFault, end_early};
use std::env::FillError;
use std::io::{BufWriter, IsTerminal, Write};
use std::rt::Env;
use std::{env, io};

/// Runs the program on the words of the process, and returns its exit status, as [`run_words_on`]
/// does. `out` is written through a buffer. If it is a terminal, control characters are escaped. A
/// word that is not UTF-8 makes the command line invalid: status 2.
pub fn run_process<
    R: Env + Host + Input,
    W: Write + IsTerminal + Drop,
    X: Write + IsTerminal + Send,
>(rt: &R, out: W, err: &mut X) -> u8 {
    let words = match words(rt) {
        Ok(words) => words,
        Err(ending) => return end(rt, ending, err),
    };
    let is_shown = out.is_terminal();
    match BufWriter::new(rt.alloc(), out) {
        Ok(out) => {
            let mut out = Escaped::new(out, is_shown);
            run_words_on(rt, &words, err.is_terminal(), &mut out, err)
        }
        Err(error) => end(rt, Ending::Fault(ProgramFault::of_output(error)), err),
    }
}

/// The words of the process after the program's name.
fn words<R: Env + AllocGlobal>(rt: &R) -> Result<Vec<String>, Ending> {
    let alloc = rt.alloc();
    let words = env::args(rt).map_err(unread)?.skip(1).collect(alloc)?;
    Ok(words)
}

/// The end of a run whose words could not be read: one is not UTF-8, or memory ran out.
fn unread(error: io::Error) -> Ending {
    match error.kind() {
        io::ErrorKind::InvalidData => Ending::NotUtf8,
        _ => Ending::Fault(ProgramFault::Memory),
    }
}

/// Ends a run before its command line is parsed. A fault is printed as JSON if `--json` is one of
/// the words.
fn end<R: Env + AllocGlobal, X: Write>(rt: &R, ending: Ending, err: &mut X) -> u8 {
    end_early(rt.alloc(), ending, form_of(has_json(rt)), err)
}

/// Whether `--json` is one of the words of the process. Takes no memory.
fn has_json<R: Env>(rt: &R) -> bool {
    for place in 1..usize::MAX {
        let mut word = [0; 6];
        match rt.arg(place, &mut word) {
            Ok(length) => {
                if word[..length].starts_with(b"--json") {
                    return true;
                }
            }
            Err(FillError::TooLong) => {}
            Err(FillError::NotPresent) => return false,
        }
    }
    false
}
