ghost use Rattle.std.specs.Prelude.{◌≡◌, ◌≤◌, ◌⊎◌, false, Ok, IfErr, IfOk, OnErr, OnOk};
ghost use Rattle.oci_program.specs.Status.{IsEndingStatus, IsRefusalStatus, is_memory, status_of_done};

use crate::answer::{Form, document_line};
use crate::ending::Ending;
use crate::fault::ProgramFault;
use crate::outcome::Outcome;
use crate::refusal::Refusal;
use crate::refusal_document::RefusalDocument;
use crate::refused_path::Sides;
use std::alloc::Global;
use std::io;
use std::io::Write;

/// The line of a refusal for lack of memory, which is written without any.
const MEMORY_LINE: &str = "{\"error\":[{\"name\":\"Memory\"}],\"kind\":\"memory\"}\n";

/// How a run ended.
#[derive(Drop)]
pub struct Ended<'w> {
    /// The exit status.
    pub status: u8,
    /// The refusal, if the run has one with a number.
    pub refusal: Option<Refusal<'w>>,
}

/// Ends a run: flushes `out` if the command was done, or prints its fault on `err` in this form.
///
/// The lines of a fault are `ocicp: ` and its text. Its document is
/// `{"error":[{"number":N,"name":"..", ..}],"kind":".."}` on one line, with an object for each fault of
/// the text, the outermost first, and in each the values that it carries, and with the class of the
/// refusal. If a file or folder of `sides` is the cause, its word, its path and the system's reason
/// follow as `side`, `path` and `os`. If memory ran out, or runs out while the document is made, the
/// document is `{"error":[{"name":"Memory"}],"kind":"memory"}` and the status is 3. A fault that `err`
/// does not take is left out; the status is the same.
///
/// # Errors
///
/// The run ends with 94 `Output` or out of memory if `out` cannot be flushed. What was printed
/// before stays.
pub fn finish_run<'w, W: Write, X: Write>(
    alloc: Global,
    done: Result<Outcome, ProgramFault>,
    form: Form,
    sides: &Sides<'w>,
    out: &mut W,
    err: &mut X,
) -> Ended<'w>
    ensures status { result.status ≤ 3 }
    ensures good { result.status ≡ 0 → done ≡ Ok Outcome.Good }
    ensures done { IfOk done (λ outcome. (result.status ≡ status_of_done outcome)
        ⊎ ((result.status ≡ 1) ⊎ (result.status ≡ 3))) }
    ensures refused { IfErr done (λ fault. IsRefusalStatus form fault result.status) }
{
    match done {
        Ok(outcome) => end_done(alloc, outcome, out.flush(), form, sides, err),
        Err(fault) => refused(alloc, fault, form, sides, err),
    }
}

/// Ends a run whose command was done, by the result of the flush of its output.
fn end_done<'w, X: Write>(
    alloc: Global,
    outcome: Outcome,
    flushed: io::Result<()>,
    form: Form,
    sides: &Sides<'w>,
    err: &mut X,
) -> Ended<'w>
    ensures done { OnOk flushed (result.status ≡ status_of_done outcome) }
    ensures lost { OnErr flushed ((result.status ≡ 1) ⊎ (result.status ≡ 3)) }
{
    match flushed {
        Ok(()) => Ended {
            status: outcome.status(),
            refusal: None,
        },
        Err(error) => refused(alloc, ProgramFault::of_output(error), form, sides, err),
    }
}

/// Ends a run before its command begins: prints the ending on `err`, a fault in this form. Returns
/// the exit status, which is 3 if memory runs out while the document of a fault is made.
pub fn end_early<X: Write>(alloc: Global, ending: Ending, form: Form, err: &mut X) -> u8
    ensures status { result ≤ 3 }
    ensures ending { IsEndingStatus form ending result }
{
    match ending {
        Ending::Fault(fault) => refused(alloc, fault, form, &Sides::none(), err).status,
        ending => ending.tell(err),
    }
}

/// Ends a run that was refused: prints the fault on `err`.
fn refused<'w, X: Write>(
    alloc: Global,
    fault: ProgramFault,
    form: Form,
    sides: &Sides<'w>,
    err: &mut X,
) -> Ended<'w>
    ensures status { (result.status ≡ 1) ⊎ (result.status ≡ 3) }
    ensures refused { IsRefusalStatus form fault result.status }
{
    let refusal = fault.refusal(alloc, sides);
    let status = match form {
        Form::Lines => Ending::Fault(fault).tell(err),
        Form::Json => tell_document(alloc, fault, sides, err),
    };
    Ended { status, refusal }
}

/// Writes the document of a fault on `err`, and returns the exit status.
fn tell_document<X: Write>(alloc: Global, fault: ProgramFault, sides: &Sides<'_>, err: &mut X) -> u8
    ensures status { (result ≡ 1) ⊎ (result ≡ 3) }
    ensures refused { IsRefusalStatus Form.Json fault result }
{
    match refusal_line(alloc, &fault, sides) {
        Ok(line) => {
            let _ = err.write_all(&line);
            1
        }
        Err(_) => {
            let _ = err.write_all(MEMORY_LINE.as_bytes());
            3
        }
    }
}

/// Returns the document of a fault and a line feed, unless memory ran out or runs out.
fn refusal_line(
    alloc: Global,
    fault: &ProgramFault,
    sides: &Sides<'_>,
) -> Result<Vec<u8>, ProgramFault>
    ensures { OnOk result (is_memory fault.now ≡ false) }
{
    if fault.is_memory() {
        return Err(ProgramFault::Memory);
    }
    let document = RefusalDocument::of(alloc, fault, sides)?;
    document_line(alloc, &document)
}
