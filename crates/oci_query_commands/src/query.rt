ghost use Rattle.std.specs.Prelude.{◌≡◌, ◌↔◌, ℕ, true, List, None, Some, map, option_copied, IfOk, OnOk};
ghost use Rattle.oci_layout_store.specs.Meaning.{meaning};
ghost use Rattle.oci_query_commands.specs.Answered.{is_of_all, IsReadable, LeavesNothingOut};
ghost use Rattle.oci_query_commands.specs.Broken.{by_tag_text, AreFindingsByTag};
ghost use Rattle.oci_query_commands.specs.Found.{AreFindings};
ghost use Rattle.oci_verify.specs.Intact.{HasFiles};
ghost use Rattle.oci_query_commands.specs.Lines.{findings_text, key_line, key_lines, listing_lines};
ghost use Rattle.oci_query_commands.specs.Listed.{ArePredecessorsOf, AreTags};
ghost use Rattle.oci_query_commands.specs.Named.{IsNamed};
ghost use Rattle.oci_query_commands.specs.Printed.{Prints, PrintsAnswer, PrintsAnswerOf, PrintsBelow, PrintsFindings, PrintsWhole};
ghost use Rattle.oci_query_commands.specs.Verified.{is_verify, verified_reference, IsFaulty, IsFaultyVerify, IsGoodVerify, IsVerdict, IsVerified, IsVerifiedBelow, IsWhole};
ghost use Rattle.oci_query_commands.specs.Written.{is_cat};

use crate::broken::{FindingsByTag, broken_tags};
use crate::cat::print_blob;
use crate::left_out::{print_answer_of_all, print_findings_of_all};
use crate::listing::{Predecessors, Resolved, Tags};
use crate::named::named_key;
use crate::tree::{Labels, Tree};
use crate::verify::{verify, verify_below};
use oci_command_line::Query;
use oci_dir::Dir;
use oci_layout_store::Layout;
use oci_manifest::Key;
use oci_program::{Form, Outcome, ProgramFault, print_answer};
use oci_reference::resolve;
use std::alloc::Global;
use std::io::Write;
use std::sync::Wait;
use std::thread::Threads;
use std::time::Clock;

/// Opens the layout in a directory, and prints its answer to the query on `out` in this form, but
/// the bytes of `cat` as they are in each form.
/// `verify` also draws a progress line on `err` if the query asks for it, and erases it before
/// anything is printed. Returns `Good`, or `Faulty` if `verify` finds something wrong. `F` is
/// [`ProgramFault`] or another type that is made from one.
///
/// # Errors
///
/// If the query is refused, nothing was printed on `out`, with three exceptions. What was printed
/// before the fault of a write stays. So do the parts of a blob of more than 4 MiB that `cat` wrote
/// before it found the file wrong, or could not read it. And `tags`, `predecessors`, `tree` with
/// referrers, and `verify` of a whole layout print their answer, and are then refused for each entry
/// of the index that is no descriptor, and all but `verify`, which has reported them, for each damaged
/// manifest of the layout: as lines, `err` has the refusals of all but the last, which is returned; as
/// JSON, the first is returned, and no other is told.
///
/// - 70 to 74, as from [`oci_layout_store::Layout::open_as_is`].
/// - 73 `BadIndex` with 14 `BadDescriptor("manifests", place)` for the entry at this place of the
///   index, which is no descriptor: of `tags`, `predecessors`, `tree` with referrers, and `verify` of a
///   whole layout after the answer, and if it is the last one of the name that is the reference.
/// - 35 `EmptyReference` if the reference is empty, and 36 `UnknownReference` if it is unknown.
/// - 75 `Corrupt` or 77 `BadManifest` if the reference names a damaged blob, or for a damaged
///   manifest of the layout after the answer.
/// - 107 `NoPlatform` if a platform is asked for, and the reference names no index that lists a
///   manifest for it. 96 `Unknown`, 75 `Corrupt` or 77 `BadManifest` if that manifest is missing or
///   damaged.
/// - 77 `BadManifest` and 88 `Fetch` of `predecessors` with types and of `tree` with referrers, if a
///   manifest of the layout cannot be read.
/// - 21 `Corrupt` if `tree` reads a referrer whose file does not match its key, or if the file of an
///   index that is asked for a platform does not.
/// - 88 `Fetch` with the key and 21 `Corrupt` if the file of the blob that `cat` writes is gone or does
///   not match its key, and with 22 `Device` if it cannot be read.
/// - 22 `Device` if a blob cannot be read by `resolve`, `tree` or `verify`.
/// - 61 `Incomplete` if `verify` did not check a blob. This was never seen.
/// - 62 `BadWorkers` if `verify` is asked for more than 64 workers. No blob is read.
/// - 94 `Output` if `out` cannot be written.
/// - Out of memory, at any point.
pub fn run_query<
    R: AllocGlobal + Clock + Threads + Wait + Sync,
    D: Dir + Drop + Sync,
    W: Write,
    X: Write + Send,
    F: From<ProgramFault>,
>(rt: &R, dir: D, query: &Query<'_>, form: Form, out: &mut W, err: &mut X) -> Result<Outcome, F>
where
    D::Draft: Send,
    // If the directory returns what was written into it, the outcome of `verify` is `Good` only if
    // nothing is wrong with the layout, and `Faulty` only if something is. With a reference this is
    // said of what it reaches.
    ensures verified { IfOk result (λ outcome. IsGoodVerify query.now outcome
        → (D.device dir).is_honest → IsVerified (D.device dir)) }
    ensures faulty { IfOk result (λ outcome. IsFaultyVerify query.now outcome
        → (D.device dir).is_honest → IsFaulty (D.device dir)) }
    ensures below { IfOk result (λ outcome. (reference : List ℕ)
        → verified_reference query.now ≡ Some reference → (D.device dir).is_honest
        → IsVerifiedBelow (D.device dir) reference outcome) }

    // And `tags`, `predecessors`, and `tree` with referrers are done only if each entry of the index
    // is a descriptor, and no manifest is damaged.
    ensures answered { OnOk result (is_of_all query.now ≡ true
        → (D.device dir).is_honest → IsReadable (D.device dir)) }

    // As lines, a command other than `tree` that is done has printed exactly its answer.
    ensures printed { form ≡ Form.Lines → OnOk result ((D.device dir).is_honest
        → PrintsAnswerOf (D.device dir) query.now (W.contents out.old) (W.contents out.new)) }

    // In each form, a `cat` that is done has written exactly the bytes of the blob.
    ensures written { OnOk result (is_cat query.now ≡ true → (D.device dir).is_honest
        → PrintsAnswerOf (D.device dir) query.now (W.contents out.old) (W.contents out.new)) }
{
    let layout = match Layout::open_as_is(rt.alloc(), dir) {
        Ok(layout) => layout,
        Err((_dir, fault)) => return Err(F::from(ProgramFault::Layout(fault))),
    };
    Ok(answer_from(rt, &layout, query, form, out, err)?)
}

/// Prints the answer of a layout to a query.
fn answer_from<
    R: AllocGlobal + Clock + Threads + Wait + Sync,
    D: Dir + Sync,
    W: Write,
    X: Write + Send,
>(
    rt: &R,
    layout: &Layout<D>,
    query: &Query<'_>,
    form: Form,
    out: &mut W,
    err: &mut X,
) -> Result<Outcome, ProgramFault>
where
    D::Draft: Send,
    ensures verified { IfOk result (λ outcome. is_verify query.now ≡ true
        → HasFiles (D.device layout.now.dir) layout.now.graph → (outcome ≡ Outcome.Good)
        ↔ IsWhole (D.device layout.now.dir) layout.now.graph layout.now.opened) }
    ensures below { IfOk result (λ outcome. (reference : List ℕ)
        → verified_reference query.now ≡ Some reference
        → HasFiles (D.device layout.now.dir) layout.now.graph
        → IsVerdict (D.device layout.now.dir) layout.now.graph layout.now.tags layout.now.opened
        reference outcome) }
    ensures answered { OnOk result (is_of_all query.now ≡ true
        → LeavesNothingOut (D.device layout.now.dir) layout.now.opened) }
    ensures printed { form ≡ Form.Lines → OnOk result (PrintsAnswer (D.device layout.now.dir)
        layout.now.graph layout.now.tags layout.now.opened query.now (W.contents out.old)
        (W.contents out.new)) }
    ensures written { OnOk result (is_cat query.now ≡ true → PrintsAnswer
        (D.device layout.now.dir) layout.now.graph layout.now.tags layout.now.opened query.now
        (W.contents out.old) (W.contents out.new)) }
{
    let alloc = rt.alloc();
    match query {
        Query::Tags { lists_all } => print_tags(alloc, layout, *lists_all, form, out, err),
        Query::Resolve {
            reference,
            platform,
        } => print_resolved(alloc, layout, reference, *platform, form, out),
        Query::Predecessors { reference, types } => {
            print_predecessors(alloc, layout, reference, types, form, out, err)
        }
        Query::Tree {
            reference,
            platform,
            shows_referrers,
        } => {
            let root = named_key(layout, reference, *platform)?;
            print_tree(alloc, layout, &root, *shows_referrers, form, out, err)
        }
        Query::Cat {
            reference,
            platform,
        } => print_blob(layout, reference, *platform, out),
        Query::Verify {
            reference,
            lists_broken,
            workers,
            shows_progress,
        } => print_verified(
            rt,
            layout,
            *reference,
            *lists_broken,
            *workers,
            *shows_progress,
            form,
            out,
            err,
        ),
    }
}

/// Prints the tags of a layout, and if it `lists_all`, the keys without a tag.
fn print_tags<D: Dir, W: Write, X: Write>(
    alloc: Global,
    layout: &Layout<D>,
    lists_all: bool,
    form: Form,
    out: &mut W,
    err: &mut X,
) -> Result<Outcome, ProgramFault>
    ensures whole { OnOk result (LeavesNothingOut (D.device layout.now.dir) layout.now.opened) }
    ensures printed { form ≡ Form.Lines → OnOk result (Prints
        (AreTags layout.now.graph layout.now.tags layout.now.opened lists_all) listing_lines
        (W.contents out.old) (W.contents out.new)) }
{
    let tags = Tags::of(alloc, layout, lists_all)?;
    print_answer_of_all(alloc, layout, tags, form, out, err)
}

/// Prints the key that a reference names, perhaps for a platform.
fn print_resolved<D: Dir, W: Write>(
    alloc: Global,
    layout: &Layout<D>,
    reference: &str,
    platform: Option<&str>,
    form: Form,
    out: &mut W,
) -> Result<Outcome, ProgramFault>
    ensures { form ≡ Form.Lines → OnOk result (Prints
        (IsNamed (D.device layout.now.dir) layout.now.graph layout.now.tags reference.now
        (option_copied platform.entry)) key_line (W.contents out.old) (W.contents out.new)) }
{
    let resolved = Resolved::of(layout, reference, platform)?;
    print_answer(alloc, &resolved, form, out)
}

/// Prints the keys that list the key of a reference; with types, its referrers of these.
fn print_predecessors<D: Dir, W: Write, X: Write>(
    alloc: Global,
    layout: &Layout<D>,
    reference: &str,
    types: &[&str],
    form: Form,
    out: &mut W,
    err: &mut X,
) -> Result<Outcome, ProgramFault>
    ensures whole { OnOk result (LeavesNothingOut (D.device layout.now.dir) layout.now.opened) }
    ensures printed { form ≡ Form.Lines → OnOk result (Prints
        (ArePredecessorsOf (meaning (D.device layout.now.dir) layout.now.graph layout.now.tags)
        reference.now (map (λ t. t.now) types.now)) key_lines
        (W.contents out.old) (W.contents out.new)) }
{
    let predecessors = Predecessors::of(alloc, layout, reference, types)?;
    print_answer_of_all(alloc, layout, predecessors, form, out, err)
}

/// Prints the tree of a key. Its referrers may be any manifests of the layout.
fn print_tree<D: Dir, W: Write, X: Write>(
    alloc: Global,
    layout: &Layout<D>,
    root: &Key,
    shows_referrers: bool,
    form: Form,
    out: &mut W,
    err: &mut X,
) -> Result<Outcome, ProgramFault>
    ensures { OnOk result (shows_referrers ≡ true
        → LeavesNothingOut (D.device layout.now.dir) layout.now.opened) }
{
    let labels = Labels::of(alloc, layout)?;
    let tree = Tree::of(alloc, layout, &labels, root, shows_referrers)?;
    if shows_referrers {
        print_answer_of_all(alloc, layout, tree, form, out, err)
    } else {
        print_answer(alloc, &tree, form, out)
    }
}

/// Prints what is wrong with a layout, and if it `lists_broken`, with its tags, or what is wrong with
/// what a reference of it reaches.
fn print_verified<
    R: AllocGlobal + Clock + Threads + Wait + Sync,
    D: Dir + Sync,
    W: Write,
    X: Write + Send,
>(
    rt: &R,
    layout: &Layout<D>,
    reference: Option<&str>,
    lists_broken: bool,
    workers: Option<u32>,
    shows_progress: bool,
    form: Form,
    out: &mut W,
    err: &mut X,
) -> Result<Outcome, ProgramFault>
where
    D::Draft: Send,
    ensures whole { IfOk result (λ outcome. option_copied reference.entry ≡ None
        → HasFiles (D.device layout.now.dir) layout.now.graph → (outcome ≡ Outcome.Good)
        ↔ IsWhole (D.device layout.now.dir) layout.now.graph layout.now.opened) }
    ensures below { IfOk result (λ outcome. (name : List ℕ)
        → option_copied reference.entry ≡ Some name
        → HasFiles (D.device layout.now.dir) layout.now.graph
        → IsVerdict (D.device layout.now.dir) layout.now.graph layout.now.tags layout.now.opened
        name outcome) }
    ensures printed { form ≡ Form.Lines → OnOk result (PrintsFindings (D.device layout.now.dir)
        layout.now.graph layout.now.tags layout.now.opened (option_copied reference.entry)
        lists_broken (W.contents out.old) (W.contents out.new)) }
{
    match reference {
        Some(name) => {
            print_findings_below(rt, layout, name, workers, shows_progress, form, out, err)
        }
        None => print_whole(
            rt,
            layout,
            lists_broken,
            workers,
            shows_progress,
            form,
            out,
            err,
        ),
    }
}

/// Prints what is wrong with a layout, and if it `lists_broken`, with its tags. Returns `Good` exactly
/// if nothing is wrong.
fn print_whole<
    R: AllocGlobal + Clock + Threads + Wait + Sync,
    D: Dir + Sync,
    W: Write,
    X: Write + Send,
>(
    rt: &R,
    layout: &Layout<D>,
    lists_broken: bool,
    workers: Option<u32>,
    shows_progress: bool,
    form: Form,
    out: &mut W,
    err: &mut X,
) -> Result<Outcome, ProgramFault>
where
    D::Draft: Send,
    ensures outcome { IfOk result (λ outcome. HasFiles (D.device layout.now.dir) layout.now.graph
        → (outcome ≡ Outcome.Good)
        ↔ IsWhole (D.device layout.now.dir) layout.now.graph layout.now.opened) }
    ensures printed { form ≡ Form.Lines → OnOk result (PrintsWhole (D.device layout.now.dir)
        layout.now.graph layout.now.opened lists_broken (W.contents out.old)
        (W.contents out.new)) }
{
    if lists_broken {
        print_by_tag(rt, layout, workers, shows_progress, form, out, err)
    } else {
        print_findings(rt, layout, workers, shows_progress, form, out, err)
    }
}

/// Prints what is wrong with a layout, and refuses its entries that are no descriptors. Returns
/// `Good` exactly if nothing is wrong.
fn print_findings<
    R: AllocGlobal + Clock + Threads + Wait + Sync,
    D: Dir + Sync,
    W: Write,
    X: Write + Send,
>(
    rt: &R,
    layout: &Layout<D>,
    workers: Option<u32>,
    shows_progress: bool,
    form: Form,
    out: &mut W,
    err: &mut X,
) -> Result<Outcome, ProgramFault>
where
    D::Draft: Send,
    ensures outcome { IfOk result (λ outcome. HasFiles (D.device layout.now.dir) layout.now.graph
        → (outcome ≡ Outcome.Good)
        ↔ IsWhole (D.device layout.now.dir) layout.now.graph layout.now.opened) }
    ensures printed { form ≡ Form.Lines → OnOk result (Prints
        (AreFindings (D.device layout.now.dir) layout.now.graph layout.now.opened)
        findings_text (W.contents out.old) (W.contents out.new)) }
{
    let findings = verify(rt, layout, workers, shows_progress, err)?;
    let outcome = findings.outcome();
    print_findings_of_all(rt.alloc(), layout, findings, form, out, err)?;
    Ok(outcome)
}

/// As [`print_findings`], with the broken tags.
fn print_by_tag<
    R: AllocGlobal + Clock + Threads + Wait + Sync,
    D: Dir + Sync,
    W: Write,
    X: Write + Send,
>(
    rt: &R,
    layout: &Layout<D>,
    workers: Option<u32>,
    shows_progress: bool,
    form: Form,
    out: &mut W,
    err: &mut X,
) -> Result<Outcome, ProgramFault>
where
    D::Draft: Send,
    ensures outcome { IfOk result (λ outcome. HasFiles (D.device layout.now.dir) layout.now.graph
        → (outcome ≡ Outcome.Good)
        ↔ IsWhole (D.device layout.now.dir) layout.now.graph layout.now.opened) }
    ensures printed { form ≡ Form.Lines → OnOk result (Prints
        (AreFindingsByTag (D.device layout.now.dir) layout.now.graph layout.now.opened)
        by_tag_text (W.contents out.old) (W.contents out.new)) }
{
    let findings = verify(rt, layout, workers, shows_progress, err)?;
    let outcome = findings.outcome();
    let broken = broken_tags(rt.alloc(), layout, &findings.corrupt)?;
    let by_tag = FindingsByTag { findings, broken };
    print_findings_of_all(rt.alloc(), layout, by_tag, form, out, err)?;
    Ok(outcome)
}

/// Prints what is wrong with what a reference of a layout reaches. Returns `Good` exactly if nothing
/// is wrong.
fn print_findings_below<
    R: AllocGlobal + Clock + Threads + Wait + Sync,
    D: Dir + Sync,
    W: Write,
    X: Write + Send,
>(
    rt: &R,
    layout: &Layout<D>,
    reference: &str,
    workers: Option<u32>,
    shows_progress: bool,
    form: Form,
    out: &mut W,
    err: &mut X,
) -> Result<Outcome, ProgramFault>
where
    D::Draft: Send,
    ensures outcome { IfOk result (λ outcome.
        HasFiles (D.device layout.now.dir) layout.now.graph
        → IsVerdict (D.device layout.now.dir) layout.now.graph layout.now.tags layout.now.opened
        reference.now outcome) }
    ensures printed { form ≡ Form.Lines → OnOk result (PrintsBelow (D.device layout.now.dir)
        layout.now.graph layout.now.tags layout.now.opened reference.now (W.contents out.old)
        (W.contents out.new)) }
{
    let root = resolve(layout, reference)?;
    let findings = verify_below(rt, layout, &root, workers, shows_progress, err)?;
    let outcome = findings.outcome();
    print_answer(rt.alloc(), &findings, form, out)?;
    Ok(outcome)
}
