use crate::place::is_file;
use crate::spooled::INPUT;
use oci_command_line::{RepairWords, Request};
use oci_dir::FirstFailure;
use oci_program::{Side, Sides};
use std::alloc::Global;
use std::fs;
use std::rt::Files;

/// The first calls of the system that failed in a run: in the place that its command reads, and in
/// the folder that it changes.
#[derive(Drop)]
pub(crate) struct Failures {
    pub(crate) read: FirstFailure,
    pub(crate) written: FirstFailure,
}

impl Failures {
    /// Returns the failures of a run that has none.
    pub(crate) fn new(alloc: Global) -> Failures {
        Failures {
            read: FirstFailure::new(alloc),
            written: FirstFailure::new(alloc),
        }
    }
}

/// Returns the places that a command line names, each with its first failure. A command that changes
/// the layout that it reads notes all its failures in `written`.
pub(crate) fn sides_of<'w, R: Files + AllocGlobal>(
    rt: &R,
    request: &Request<'w>,
    failures: &'w Failures,
) -> Sides<'w> {
    match request {
        Request::Copy(words) => Sides {
            read: Some(read_side(rt, "SRC", words.source, &failures.read)),
            written: Some(side(rt, "DST", words.destination, &failures.written)),
        },
        Request::Archive(words) => Sides {
            read: Some(read_side(rt, "SRC", words.source, &failures.read)),
            written: Some(Side {
                word: Some("DST"),
                path: words.destination,
                is_archive: false,
                failure: failures.written.get(),
            }),
        },
        Request::Tag(words) => both(side(rt, "FOLDER", words.folder, &failures.written)),
        Request::Untag(words) => both(side(rt, "FOLDER", words.folder, &failures.written)),
        Request::Prune(words) => both(side(rt, "FOLDER", words.folder, &failures.written)),
        Request::Repair(words) => Sides {
            read: Some(read_side(rt, "FROM", named_source(rt, words), &failures.read)),
            written: Some(side(rt, "FOLDER", words.folder, &failures.written)),
        },
        Request::Query(path, _) => both(read_side(rt, "FOLDER", path, &failures.read)),
        Request::Mem(_) => Sides {
            read: Some(Side {
                word: None,
                path: "",
                is_archive: false,
                failure: failures.read.get(),
            }),
            written: None,
        },
        _ => Sides::none(),
    }
}

/// Returns the place with this word and path, which a command reads. The standard input is an
/// archive too.
fn read_side<'w, R: Files>(
    rt: &R,
    word: &'w str,
    path: &'w str,
    first: &'w FirstFailure,
) -> Side<'w> {
    Side {
        is_archive: is_archive(rt, path),
        ..side(rt, word, path, first)
    }
}

/// Returns whether a path that a command reads is that of an archive.
fn is_archive<R: Files>(rt: &R, path: &str) -> bool {
    path == INPUT || is_file(rt, path)
}

/// Returns the place with this word and path. A file is an archive.
fn side<'w, R: Files>(rt: &R, word: &'w str, path: &'w str, first: &'w FirstFailure) -> Side<'w> {
    Side {
        word: Some(word),
        path,
        is_archive: is_file(rt, path),
        failure: first.get(),
    }
}

/// Returns the source of a repair that a refusal names: the first folder without a file
/// `oci-layout`, or else the first source.
fn named_source<'w, R: Files + AllocGlobal>(rt: &R, words: &RepairWords<'w>) -> &'w str {
    for path in &words.sources {
        if !is_archive(rt, path) && !has_layout_file(rt, path) {
            return path;
        }
    }
    match words.sources.first() {
        Some(path) => path,
        None => "",
    }
}

/// Returns whether a folder has a file `oci-layout`, or true if that is not known.
fn has_layout_file<R: Files + AllocGlobal>(rt: &R, folder: &str) -> bool {
    let Ok(path) = format!(in rt.alloc(); "{folder}/oci-layout") else {
        return true;
    };
    fs::exists(rt, &path).unwrap_or(true)
}

/// Returns the places of a command that names one.
fn both(side: Side<'_>) -> Sides<'_> {
    Sides {
        read: Some(side),
        written: Some(side),
    }
}
