ghost use Rattle.std.specs.Prelude.{◌≡◌, ◌≢◌, true, None, [], IfSome, OnOk};
ghost use Rattle.std.specs.Io.KnownBytes.{Appends};
ghost use Rattle.oci_layout_store.specs.Layout.{manifests_of};
ghost use Rattle.oci_query_commands.specs.Answered.{AreReadable, AreUndamaged, LeavesNothingOut};

use oci_dir::Dir;
use oci_layout_store::{Layout, LayoutFault, unreadable_entry};
use oci_manifest::Key;
use oci_program::{Ending, Form, Outcome, ProgramFault, print_answer};
use serde::Serialize;
use std::alloc::Global;
use std::fmt;
use std::fmt::Display;
use std::io::Write;

/// An answer that speaks of a whole layout, with what it leaves out. `Display` prints the answer
/// alone.
#[derive(Drop, Serialize)]
struct AnswerOfAll<T> {
    #[serde(flatten)]
    answer: T,
    /// The keys of damaged manifests.
    #[serde(skip_serializing_if = "Vec::is_empty")]
    damaged: Vec<Key>,
    /// The places of the entries of the index that are no descriptors.
    #[serde(skip_serializing_if = "Vec::is_empty")]
    unreadable: Vec<usize>,
}

impl<T: Display> Display for AnswerOfAll<T> {
    ghost output = { λ all. T.output all.answer };

    fn fmt<W: fmt::Write>(&self, f: &mut fmt::Formatter<W>) -> fmt::Result {
        self.answer.fmt(f)
    }
}

/// Prints an answer that speaks of a whole layout, and then refuses the command if an entry of the
/// index is no descriptor, or a manifest of the layout is damaged. The refusals of such entries come
/// in the order of the index, and then those of such manifests in the order of
/// [`Layout::damaged_manifests`]. As lines, all but the last are printed on `err`, and the last is
/// returned. As JSON the first is returned, and no other is told.
///
/// # Errors
///
/// - 73 `BadIndex` if an entry is no descriptor, and 75 `Corrupt` or 77 `BadManifest` if a manifest
///   is damaged. The answer is printed and `out` is flushed before. If a file cannot be read again,
///   74 `Device` ends these refusals.
/// - 94 `Output` if `out` cannot be written.
/// - Out of memory, at any point.
pub(crate) fn print_answer_of_all<D: Dir, T: Display + Serialize + Drop, W: Write, X: Write>(
    alloc: Global,
    layout: &Layout<D>,
    answer: T,
    form: Form,
    out: &mut W,
    err: &mut X,
) -> Result<Outcome, ProgramFault>
    ensures whole { OnOk result (LeavesNothingOut (D.device layout.now.dir) layout.now.opened) }
    ensures lines { form ≡ Form.Lines → OnOk result (IfSome (T.output answer)
        (Appends (W.contents out.old) (W.contents out.new))) }
{
    let damaged = layout.damaged_manifests()?;
    print_answer_without(alloc, layout, answer, damaged, form, out, err)
}

/// Prints an answer that speaks of all files of a layout, also of the damaged ones, and then refuses
/// the command if an entry of the index is no descriptor. As lines, the refusals of all such entries
/// but the last are printed on `err`, in the order of the index, and the last is returned. As JSON
/// the first is returned, and no other is told.
///
/// # Errors
///
/// - 73 `BadIndex` if an entry is no descriptor. The answer is printed and `out` is flushed before.
/// - 94 `Output` if `out` cannot be written.
/// - Out of memory, at any point.
pub fn print_findings_of_all<D: Dir, T: Display + Serialize + Drop, W: Write, X: Write>(
    alloc: Global,
    layout: &Layout<D>,
    answer: T,
    form: Form,
    out: &mut W,
    err: &mut X,
) -> Result<Outcome, ProgramFault>
    ensures readable { OnOk result (AreReadable layout.now.opened) }
    ensures lines { form ≡ Form.Lines → OnOk result (IfSome (T.output answer)
        (Appends (W.contents out.old) (W.contents out.new))) }
{
    print_answer_without(alloc, layout, answer, Vec::new(alloc), form, out, err)
}

/// Prints an answer that leaves out the entries of the index that are no descriptors, and these
/// damaged manifests, and then refuses the command if there are some.
fn print_answer_without<D: Dir, T: Display + Serialize + Drop, W: Write, X: Write>(
    alloc: Global,
    layout: &Layout<D>,
    answer: T,
    damaged: Vec<Key>,
    form: Form,
    out: &mut W,
    err: &mut X,
) -> Result<Outcome, ProgramFault>
    ensures readable { OnOk result (AreReadable layout.now.opened) }
    ensures undamaged { OnOk result (AreUndamaged (D.device layout.now.dir) damaged.items) }
    ensures lines { form ≡ Form.Lines → OnOk result (IfSome (T.output answer)
        (Appends (W.contents out.old) (W.contents out.new))) }
{
    let unreadable = layout.unreadable()?;
    let answer = AnswerOfAll {
        answer,
        damaged,
        unreadable,
    };
    let outcome = print_answer(alloc, &answer, form, out)?;
    if answer.damaged.is_empty() && answer.unreadable.is_empty() {
        return Ok(outcome);
    }
    out.flush().map_err(ProgramFault::of_output)?;
    let entries = fault_of_entries(&answer.unreadable, form, err);
    match fault_of_manifests(layout, &answer.damaged, entries, form, err) {
        None => Ok(outcome),
        Some(fault) => Err(ProgramFault::Layout(fault)),
    }
}

/// Returns the last fault of the entries at these places, which are no descriptors, and prints those
/// before it. As JSON the first fault is the last one.
fn fault_of_entries<X: Write>(places: &[usize], form: Form, err: &mut X) -> Option<LayoutFault>
    ensures { result ≡ None → places.now ≡ [] }
{
    let mut last = None;
    for place in places {
        if is_end(form, &last) {
            return last;
        }
        tell(last, err);
        last = Some(unreadable_entry(*place));
    }
    last
}

/// Returns the last fault of these: the one before, if there is one, and those that these manifests
/// of a layout still have. Prints the others. As JSON only the first is returned and none is printed.
/// A fault other than those of an entry or a manifest ends the list.
fn fault_of_manifests<D: Dir, X: Write>(
    layout: &Layout<D>,
    manifests: &[Key],
    before: Option<LayoutFault>,
    form: Form,
    err: &mut X,
) -> Option<LayoutFault>
    ensures none { result ≡ None → before ≡ None }
    ensures undamaged { result ≡ None → AreUndamaged (D.device layout.now.dir) manifests.now }
{
    let mut last = before;
    for key in manifests {
        if is_end(form, &last) {
            return last;
        }
        let Err(fault) = layout.check_file(key) else {
            continue;
        };
        tell(last, err);
        last = Some(fault);
    }
    last
}

/// Returns whether there is a fault after which no other one is looked for.
fn is_end(form: Form, fault: &Option<LayoutFault>) -> bool
    ensures { result ≡ true → fault.now ≢ None }
{
    match fault {
        Some(fault) => is_last(form, fault),
        None => false,
    }
}

/// Returns whether no fault is looked for after this one.
fn is_last(form: Form, fault: &LayoutFault) -> bool {
    match form {
        Form::Lines => !matches!(
            fault,
            LayoutFault::BadIndex(_) | LayoutFault::Corrupt(_) | LayoutFault::BadManifest(_, _)
        ),
        Form::Json => true,
    }
}

/// Prints the line of a fault, if there is one.
fn tell<X: Write>(fault: Option<LayoutFault>, err: &mut X) {
    if let Some(fault) = fault {
        let _ = Ending::Fault(ProgramFault::Layout(fault)).tell(err);
    }
}
