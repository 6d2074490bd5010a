ghost use Rattle.std.specs.Prelude.{◌≡◌, ◌++◌, ◌∷◌, [], IfOk, OnOk};
ghost use Rattle.std.specs.Option.{option_map};
ghost use Rattle.oci_program.specs.Kind.{IsKind, kind_at};
ghost use Rattle.oci_program.specs.Status.{entry_numbers, last_number, numbers};

use crate::fault::ProgramFault;
use crate::kind::Kind;
use crate::refused_path::{Reason, RefusedPath, Sides};
use oci_archive::Compression;
use oci_digest::NoMemory;
use oci_manifest::Key;
use serde::{Serialize, Serializer};
use std::alloc::Global;
use std::fmt::Display;

/// The document of a refusal.
#[derive(Drop, Serialize)]
pub(crate) struct RefusalDocument<'f> {
    /// The faults of its line, the outermost first.
    error: Vec<Entry<'f>>,
    /// The class of the refusal.
    kind: Kind,
    /// The word of the folder or archive that the refusal is about: `SRC`, `DST` or `FOLDER`.
    #[serde(skip_serializing_if = "Option::is_none")]
    side: Option<&'f str>,
    /// The path of the file or folder that the refusal is about.
    #[serde(skip_serializing_if = "Option::is_none")]
    path: Option<String>,
    /// The system's reason for the failure there.
    #[serde(skip_serializing_if = "Option::is_none")]
    os: Option<String>,
}

impl<'f> RefusalDocument<'f> {
    /// Returns the document of a fault of a command with these folders.
    pub(crate) fn of(
        alloc: Global,
        fault: &'f ProgramFault,
        sides: &Sides<'f>,
    ) -> Result<RefusalDocument<'f>, NoMemory>
        ensures numbers { IfOk result (λ document.
            entry_numbers document.error.items ≡ numbers fault.now) }
        ensures kind { IfOk result (λ document.
            IsKind sides.now (last_number fault.now) document.os document.kind) }
    {
        let mut error = Vec::new(alloc);
        fault.add_to(alloc, &mut error)?;
        let (side, path, reason) = match fault.refused_path(alloc, sides)? {
            Some(RefusedPath { side, path, reason }) => (side, Some(path), reason),
            None => (None, None, None),
        };
        let (kind, os) = kind_and_text(fault, reason);
        Ok(RefusalDocument {
            error,
            kind,
            side,
            path,
            os,
        })
    }
}

/// Returns the kind of a fault's refusal, and the text of the system's reason if there is one.
fn kind_and_text(fault: &ProgramFault, reason: Option<Reason>) -> (Kind, Option<String>)
    ensures kind { result.0 ≡ kind_at (last_number fault.now) reason }
    ensures text { result.1 ≡ option_map (λ r. r.text) reason }
{
    match reason {
        Some(Reason { text, kind }) => (fault.kind(Some(kind)), Some(text)),
        None => (fault.kind(None), None),
    }
}

/// One fault of a refusal: its number, its name, and the values that it carries.
#[derive(Drop, Serialize)]
pub(crate) struct Entry<'f> {
    number: u8,
    name: String,
    #[serde(flatten)]
    carried: Carried<'f>,
}

/// The values that a fault carries, beside the fault inside it.
#[derive(Clone, Copy, Serialize)]
#[serde(untagged)]
pub(crate) enum Carried<'f> {
    Nothing,
    Descriptor {
        descriptor: &'f Key,
    },
    Descriptors {
        descriptors: &'f Vec<Key>,
    },
    TooLarge {
        descriptor: &'f Key,
        limit: u64,
    },
    Missing {
        holder: &'f Key,
        missing: &'f Key,
    },
    Member {
        member: &'f str,
    },
    Position {
        member: &'f str,
        position: u64,
    },
    Path {
        path: &'f str,
    },
    Item {
        item: &'f str,
    },
    Platforms {
        platform: &'f str,
        platforms: &'f Vec<String>,
    },
    Form {
        #[serde(serialize_with = "write_printed")]
        form: Compression,
    },
    Offset {
        offset: u64,
    },
}

fn write_printed<S: Serializer>(form: &Compression, out: &mut S) -> Result<(), S::Error> {
    out.collect_str(form)
}

/// Adds the entry of a fault with this number, whose name is the second word of its text.
pub(crate) fn add_entry<'f, F: Display>(
    alloc: Global,
    number: u8,
    fault: &F,
    carried: Carried<'f>,
    entries: &mut Vec<Entry<'f>>,
) -> Result<(), NoMemory>
    ensures { OnOk result (entry_numbers entries.new.items
        ≡ entry_numbers entries.old.items ++ number ∷ []) }
{
    let name = second_word(alloc, fault)?;
    entries.push(Entry {
        number,
        name,
        carried,
    })?;
    Ok(())
}

/// Returns the second word of a value's text, or the empty text if there is none.
fn second_word<T: Display>(alloc: Global, value: &T) -> Result<String, NoMemory> {
    let text = format!(in alloc; "{value}")?;
    let word = text.split(' ').nth(1).unwrap_or("");
    Ok(String::from_str(alloc, word)?)
}
