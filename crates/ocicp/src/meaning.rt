use oci_command_line::{Query, Request, Selection, first_sentence};
use oci_program::{Refusal, RefusedPath, Subject};
use std::fs;
use std::io::Write;
use std::rt::Files;

/// The number of the refusal of a path that has no layout.
const NO_LAYOUT_FILE: u8 = 70;

/// Prints a line for a person: the file, the folder or the reference that a refusal is about, the
/// meaning of its number, the system's reason, and where to read more. If the line cannot be
/// written, it is left out.
pub(crate) fn print_meaning<R: Files, X: Write>(
    rt: &R,
    request: &Request<'_>,
    refusal: &Refusal<'_>,
    err: &mut X,
) {
    let number = refusal.number;
    let Some(sentence) = first_sentence(number) else {
        return;
    };
    print_subject(request, &refusal.subject, err);
    let _ = write!(err, "{sentence}");
    if number == NO_LAYOUT_FILE && is_stream(rt, &refusal.subject) {
        let _ = write!(
            err,
            ". An archive from a pipe or a device is read from the standard input, as `-`"
        );
    }
    if let Subject::Path(
        RefusedPath {
            reason: Some(reason),
            ..
        },
    ) = &refusal.subject
    {
        let _ = write!(err, ": {}", reason.text);
    }
    let _ = writeln!(err, ". Run `ocicp explain {number}` for what to do.");
}

/// Returns whether a refusal is about a path where something other than a file or a folder is, such
/// as a pipe.
fn is_stream<R: Files>(rt: &R, subject: &Subject<'_>) -> bool {
    let Subject::Path(path) = subject else {
        return false;
    };
    match fs::metadata(rt, &path.path) {
        Ok(metadata) => !metadata.is_file() && !metadata.is_dir(),
        Err(_) => false,
    }
}

/// Prints what a refusal is about, if that is known.
fn print_subject<X: Write>(request: &Request<'_>, subject: &Subject<'_>, err: &mut X) {
    match subject {
        Subject::Reference => print_reference(reference_of(request), err),
        Subject::Path(path) => {
            if let Some(side) = path.side {
                let _ = write!(err, "{side} ");
            }
            let _ = write!(err, "`{}`: ", path.path);
        }
        Subject::Unknown => {}
    }
}

/// Prints the reference that a refusal is about, if it is not empty.
fn print_reference<X: Write>(reference: &str, err: &mut X) {
    if !reference.is_empty() {
        let _ = write!(err, "`{reference}`: ");
    }
}

/// The reference of a command line, or the empty text if it has none. That of a copy is the one in
/// the source.
fn reference_of<'w>(request: &Request<'w>) -> &'w str {
    match request {
        Request::Copy(words) | Request::Archive(words) => match &words.selection {
            Selection::Reference { source, .. } => source,
            Selection::AllTags { .. } => "",
        },
        Request::Tag(words) => words.reference,
        Request::Untag(words) => words.tag,
        Request::Query(_, query) => reference_in(query),
        _ => "",
    }
}

/// The reference of a query.
fn reference_in<'w>(query: &Query<'w>) -> &'w str {
    match query {
        Query::Resolve { reference, .. } => reference,
        Query::Predecessors { reference, .. } => reference,
        Query::Tree { reference, .. } => reference,
        Query::Cat { reference, .. } => reference,
        Query::Tags { .. } => "",
        Query::Verify { reference, .. } => reference.unwrap_or(""),
    }
}
