ghost use Rattle.std.specs.Prelude.{◌≡◌, ◌⊎◌, [], ◌∷◌, ◌++◌, List, ℕ, Some, IfSome, IfErr, IfOk, OnOk};
ghost use Rattle.std.specs.Io.KnownBytes.{Appends};
ghost use Rattle.serde.specs.Event.{Log};
ghost use Rattle.serde_json.specs.Sent.{IsTextOf};

use crate::fault::ProgramFault;
use crate::outcome::Outcome;
use oci_manifest::Key;
use serde::Serialize;
use std::alloc::Global;
use std::fmt::Display;
use std::io::Write;

/// The form in which a command prints its result and its refusal.
#[derive(Clone, Copy)]
pub enum Form {
    /// Lines, as people read them.
    Lines,
    /// One JSON document on one line.
    Json,
}

/// A tag, and the key that it names.
#[derive(Drop, Serialize)]
pub struct Tagged {
    /// The tag.
    pub tag: String,
    /// The key.
    pub descriptor: Key,
}

/// Prints the answer of a command: its lines, each of which it ends itself, or its document and a
/// line feed. Returns `Good`.
///
/// # Errors
///
/// - 94 `Output` if `out` cannot be written. What was printed before stays.
/// - Out of memory, before anything of a document is printed.
pub fn print_answer<T: Display + Serialize, W: Write>(
    alloc: Global,
    answer: &T,
    form: Form,
    out: &mut W,
) -> Result<Outcome, ProgramFault>
    ensures good { IfOk result (λ outcome. outcome ≡ Outcome.Good) }
    ensures lines { form ≡ Form.Lines → OnOk result (IfSome (T.output answer.now)
        (Appends (W.contents out.old) (W.contents out.new))) }
    ensures document { form ≡ Form.Json → OnOk result ((log : Log) × (text : List ℕ)
        × T.writes answer.now (Some []) log × IsTextOf log text
        × Appends (W.contents out.old) (W.contents out.new) (text ++ 10 ∷ [])) }
    ensures refused { IfErr result (λ fault. (fault ≡ ProgramFault.Output)
        ⊎ (fault ≡ ProgramFault.Memory)) }
{
    match form {
        Form::Lines => write!(out, "{answer}").map_err(ProgramFault::of_output)?,
        Form::Json => {
            let document = document_line(alloc, answer)?;
            out.write_all(&document).map_err(ProgramFault::of_output)?;
        }
    }
    Ok(Outcome::Good)
}

/// Returns the document of a value, and a line feed.
pub(crate) fn document_line<T: Serialize>(alloc: Global, value: &T) -> Result<Vec<u8>, ProgramFault>
    ensures line { IfOk result (λ line. (log : Log) × (text : List ℕ)
        × T.writes value.now (Some []) log × IsTextOf log text
        × (line.items ≡ text ++ 10 ∷ [])) }
    ensures refused { IfErr result (λ fault. (fault ≡ ProgramFault.Output)
        ⊎ (fault ≡ ProgramFault.Memory)) }
{
    let mut line = serde_json::to_vec(alloc, value).map_err(of_document)?;
    line.push(b'\n')?;
    Ok(line)
}

/// Returns the fault of a document that could not be made.
fn of_document(error: serde_json::Error) -> ProgramFault
    ensures { (result ≡ ProgramFault.Output) ⊎ (result ≡ ProgramFault.Memory) }
{
    if error.is_memory() {
        ProgramFault::Memory
    } else {
        ProgramFault::Output
    }
}
