ghost use Rattle.std.specs.Prelude.{◌≡◌, List, true, false, IfOk, OnOk};
ghost use Rattle.std.specs.Io.KnownBytes.{Appends};
ghost use Rattle.oci_export.specs.Archive.{archive_of, Item};
ghost use Rattle.oci_export.specs.Export.{IsExport};
ghost use Rattle.oci_copy_commands.specs.Archived.{
  refusal_of,
  HasNoFiles,
  MemoryDir,
  IsArchiveAnswer,
  IsArchived,
  IsArchivedTo,
  IsFileRefusal,
  IsIndexOfRoots,
  IsOutlined,
  IsSavedOutline,
};
ghost use Rattle.oci_copy_commands.specs.Printed.{copy_text, plan_text};
ghost use Rattle.oci_copy_commands.specs.Run.{options_of, store_of, IsAnsweredDryRun, IsSelectedIn};
ghost use Rattle.oci_copy_commands.specs.declared.answer.CopyAnswer.{CopyAnswer as Answer};
ghost use Rattle.oci_copy_commands.specs.declared.dry_run.PlanAnswer.{PlanAnswer};
ghost use Rattle.oci_store.specs.Keyed.{HasAll};

use crate::answer::CopyAnswer;
use crate::behind::LeftBehind;
use crate::copy::{check_source_if, is_exact, options_of};
use crate::destination::remove_leftovers_of_file;
use crate::dry_run::{empty_layout, show_plan};
use oci_command_line::CopyWords;
use oci_copy::{CopyFault, Report};
use oci_digest::NoMemory;
use oci_dir::{Dir, MemDir};
use oci_export::{ExportFault, graph_of, outline, save_archive, write_archive};
use oci_layout_copy::{Copied, Host, plan_from, tag_all};
use oci_layout_store::{Layout, LayoutFault};
use oci_plan::Plan;
use oci_pool::Hooks;
use oci_program::{Form, Outcome, ProgramFault, print_answer};
use oci_progress::Progress;
use oci_selection::Selected;
use oci_store::Source;
use std::alloc::Global;
use std::io::{ErrorKind, Write};

/// `copy --archive SRC SRCREF FILE [DSTREF]` and `copy --archive --all SRC FILE`: writes the blobs and
/// the tags that a copy into a new folder sets into a new file of a directory, as a tar archive, and
/// prints what that copy prints. Its index has an entry for what was asked for, and for what no other
/// entry reaches. With `--dry-run` only the plan is printed.
///
/// # Errors
///
/// Those of [`run_copy`](crate::run_copy) for SRC, the selection and the plan, and
///
/// - 88 `Fetch` if SRC refuses a blob, or has other bytes.
/// - 74 `Device` if the file cannot be written, or if it is not known whether it is on the disk. Only in
///   the last case it may be there.
/// - 95 `NotWritable` if there is a file.
/// - 94 `Output` if `out` cannot be written. The archive is written.
/// - Out of memory, at any point.
pub fn run_archive<
    R: Host,
    S: Dir + Drop,
    T: Dir + Drop,
    W: Write,
    X: Write,
    F: From<ProgramFault>,
>(
    rt: &R,
    source: S,
    folder: T,
    name: &str,
    words: &CopyWords<'_>,
    form: Form,
    out: &mut W,
    err: &mut X,
) -> Result<Outcome, F>
where
    // Without `--dry-run` the archive was written that the words ask for. As lines, the text of the
    // answer was printed.
    ensures archived { words.now.is_dry ≡ false → OnOk result ((answer : Answer) × IsArchivedTo
        S.device ⟦<MemDir as Dir>⟧.device T.device words.now source folder name.now answer
        × (form ≡ Form.Lines → Appends (W.contents out.old) (W.contents out.new)
        (copy_text answer))) }

    // With it that copy was planned. As lines, the text of the plan's answer was printed.
    ensures planned { words.now.is_dry ≡ true → OnOk result ((answer : PlanAnswer)
        × (empty : MemoryDir) × HasNoFiles (⟦<MemDir as Dir>⟧.device empty)
        × IsAnsweredDryRun S.device ⟦<MemDir as Dir>⟧.device ⟦<MemDir as Dir>⟧.device words.now
        source empty answer × (form ≡ Form.Lines
        → Appends (W.contents out.old) (W.contents out.new) (plan_text answer))) }
{
    if words.is_dry {
        let empty = MemDir::new(rt.alloc());
        return Ok(show_plan(rt.alloc(), source, empty, words, form, out)?);
    }
    let answer = archive_into(rt, source, folder, name, words, err)?;
    let outcome = print_answer(rt.alloc(), &answer, form, out)?;
    answer.behind.tell(form, err);
    Ok(outcome)
}

/// `copy --archive SRC SRCREF - [DSTREF]` and `copy --archive --all SRC -`: writes the archive to
/// `out`, as [`run_archive`] writes it into a file, and prints what the copy prints on `err`. With
/// `--dry-run` only the plan is printed, on `out`.
///
/// # Errors
///
/// Those of [`run_archive`] but 74 and 95, and 94 `Output` if `out` or `err` cannot be written. The
/// archive on `out` is then cut off, unless only `err` failed.
pub fn run_archive_to_output<R: Host, S: Dir + Drop, W: Write, X: Write, F: From<ProgramFault>>(
    rt: &R,
    source: S,
    words: &CopyWords<'_>,
    form: Form,
    out: &mut W,
    err: &mut X,
) -> Result<Outcome, F>
where
    // Without `--dry-run` exactly the archive was written that the words ask for.
    ensures archived { words.now.is_dry ≡ false → OnOk result ((answer : Answer)
        × (items : List Item) × IsArchived S.device ⟦<MemDir as Dir>⟧.device words.now source
        items answer × Appends (W.contents out.old) (W.contents out.new) (archive_of items)) }

    // With it that copy was planned. As lines, the text of the plan's answer was printed.
    ensures planned { words.now.is_dry ≡ true → OnOk result ((answer : PlanAnswer)
        × (empty : MemoryDir) × HasNoFiles (⟦<MemDir as Dir>⟧.device empty)
        × IsAnsweredDryRun S.device ⟦<MemDir as Dir>⟧.device ⟦<MemDir as Dir>⟧.device words.now
        source empty answer × (form ≡ Form.Lines
        → Appends (W.contents out.old) (W.contents out.new) (plan_text answer))) }
{
    if words.is_dry {
        let empty = MemDir::new(rt.alloc());
        return Ok(show_plan(rt.alloc(), source, empty, words, form, out)?);
    }
    let answer = archive_onto(rt, source, words, out, err)?;
    let outcome = print_answer(rt.alloc(), &answer, form, err)?;
    answer.behind.tell(form, err);
    Ok(outcome)
}

/// Writes the archive of what the words select into a new file of a directory.
fn archive_into<R: Host, S: Dir + Drop, T: Dir + Drop, X: Write>(
    rt: &R,
    source: S,
    folder: T,
    name: &str,
    words: &CopyWords<'_>,
    err: &mut X,
) -> Result<CopyAnswer, ProgramFault>
    ensures { IfOk result (IsArchivedTo S.device ⟦<MemDir as Dir>⟧.device T.device words.now
        source folder name.now) }
{
    let (source, selected) = open_selected(rt.alloc(), source, words)?;
    let (plan, outline) = outline_of(rt.alloc(), &source, &selected, words)?;
    let behind = LeftBehind::of(rt.alloc(), &source, &outline, &selected, words)?;
    remove_leftovers_of_file(rt, words.destination)?;
    let progress = Progress::new(rt, err, words.shown, &plan);
    let mut folder = folder;
    let saved = save_archive(rt.alloc(), &source, &outline, &progress, &mut folder, name);
    progress.end();
    match saved {
        Ok(()) => Ok(answer_of(rt.alloc(), selected, &plan, behind)?),
        Err(fault) => Err(fault_of_file(rt.alloc(), words.destination, fault)),
    }
}

/// Writes the archive of what the words select to an output.
fn archive_onto<R: Host, S: Dir + Drop, W: Write, X: Write>(
    rt: &R,
    source: S,
    words: &CopyWords<'_>,
    out: &mut W,
    err: &mut X,
) -> Result<CopyAnswer, ProgramFault>
    ensures { IfOk result (λ answer. (items : List Item) × IsArchived S.device
        ⟦<MemDir as Dir>⟧.device words.now source items answer
        × Appends (W.contents out.old) (W.contents out.new) (archive_of items)) }
{
    let (source, selected) = open_selected(rt.alloc(), source, words)?;
    let (plan, outline) = outline_of(rt.alloc(), &source, &selected, words)?;
    let behind = LeftBehind::of(rt.alloc(), &source, &outline, &selected, words)?;
    let progress = Progress::new(rt, err, words.shown, &plan);
    let written = write_flushed(rt.alloc(), &source, &outline, &progress, out);
    progress.end();
    match written {
        Ok(()) => Ok(answer_of(rt.alloc(), selected, &plan, behind)?),
        Err(fault) => Err(fault_of(fault)),
    }
}

/// Writes the archive of a layout to an output, and flushes that, so that nothing is said of an
/// archive that did not arrive.
fn write_flushed<S: Source, D: Dir, H: Hooks, W: Write>(
    alloc: Global,
    source: &S,
    layout: &Layout<D>,
    hooks: &H,
    out: &mut W,
) -> Result<(), ExportFault>
    ensures { OnOk result ((items : List Item) × IsExport (S.state source.now)
        (D.device layout.now.dir) layout.now.graph items
        × Appends (W.contents out.old) (W.contents out.new) (archive_of items)) }
{
    write_archive(alloc, source, layout, hooks, out)?;
    match out.flush() {
        Ok(()) => Ok(()),
        Err(error) if error.kind() == ErrorKind::OutOfMemory => Err(ExportFault::Memory),
        Err(_) => Err(ExportFault::Output),
    }
}

/// Opens the source as it is, and selects there what the words name. Refuses a source that a mirror
/// must not follow, if the words prune.
fn open_selected<S: Dir + Drop>(
    alloc: Global,
    source: S,
    words: &CopyWords<'_>,
) -> Result<(Layout<S>, Selected), ProgramFault>
    ensures { IfOk result (λ it. IsSelectedIn S.device words.now source it.0 it.1) }
{
    let source = Layout::open_as_is(alloc, source)?;
    let selected = Selected::of(alloc, &source, words)?;
    check_source_if(words.prunes, is_exact(words), &source)?;
    Ok((source, selected))
}

/// Plans the copy of what is selected into an empty layout, and returns the plan and a layout of the
/// planned keys. Its directory has the index of the roots, but not the files of its blobs.
fn outline_of<S: Dir>(
    alloc: Global,
    source: &Layout<S>,
    selected: &Selected,
    words: &CopyWords<'_>,
) -> Result<(Plan, Layout<MemDir>), ProgramFault>
    ensures { IfOk result (λ it. IsOutlined S.device ⟦<MemDir as Dir>⟧.device
        (options_of words.now) source.now selected.now it.0 it.1) }
{
    let empty = empty_layout(alloc)?;
    let plan = plan_from(alloc, source, &empty, selected.roots(), &options_of(words))?;
    let index = index_of_roots(alloc, source, selected)?;
    match graph_of(alloc, source, plan.keys()) {
        Ok(graph) => Ok((plan, index.holding(graph))),
        Err(fault) => Err(fault_of(fault)),
    }
}

/// Returns a saved layout in memory of the roots, with the selected tags and entries. So its index has
/// no entry for the images of an index that is a root.
fn index_of_roots<S: Dir>(
    alloc: Global,
    source: &Layout<S>,
    selected: &Selected,
) -> Result<Layout<MemDir>, ProgramFault>
    ensures { IfOk result (IsIndexOfRoots ⟦<MemDir as Dir>⟧.device (store_of S.device source.now)
        selected.now) }
{
    let mut index = match outline(alloc, source, selected.roots()) {
        Ok(index) => index,
        Err(fault) => return Err(fault_of(fault)),
    };
    save_selected(&mut index, selected)?;
    Ok(index)
}

/// Sets the selected tags in a layout in memory that holds their keys, brings the selected entries,
/// and saves it.
fn save_selected(layout: &mut Layout<MemDir>, selected: &Selected) -> Result<(), ProgramFault>
    requires held { HasAll layout.old.graph selected.now.0 }
    ensures saved { OnOk result (IsSavedOutline ⟦<MemDir as Dir>⟧.device selected.now
        layout.old layout.new) }
{
    if let Err(fault) = tag_all(layout, selected.tags()) {
        return Err(ProgramFault::Copy(CopyFault::from(fault)));
    }
    layout.bring(selected.entries())?;
    match layout.save() {
        Ok(()) => Ok(()),
        Err(fault) => Err(ProgramFault::Destination(fault)),
    }
}

/// Returns what a copy of the selected tags and this plan into a new folder, which leaves this behind,
/// prints.
fn answer_of(
    alloc: Global,
    selected: Selected,
    plan: &Plan,
    behind: LeftBehind,
) -> Result<CopyAnswer, NoMemory>
    ensures { IfOk result (IsArchiveAnswer selected plan.now behind) }
{
    let planned = plan.len() as u64;
    let report = Report {
        planned,
        pushed: planned,
        skipped: plan.skipped().len() as u64,
    };
    let done = Copied {
        report,
        removed: None,
    };
    let (answer, _) = CopyAnswer::of(alloc, selected, done, behind)?;
    Ok(answer)
}

/// The refusal of an archive that is written into a file.
fn fault_of_file(alloc: Global, path: &str, fault: ExportFault) -> ProgramFault
    ensures { IsFileRefusal path.now fault result }
{
    match fault {
        ExportFault::Output => ProgramFault::Destination(LayoutFault::Device),
        ExportFault::Exists => match String::from_str(alloc, path) {
            Ok(path) => ProgramFault::NotWritable(path),
            Err(_) => ProgramFault::Memory,
        },
        fault => fault_of(fault),
    }
}

/// The refusal of an archive that is written to an output.
fn fault_of(fault: ExportFault) -> ProgramFault
    ensures { result ≡ refusal_of fault }
{
    match fault {
        ExportFault::Layout(fault) => ProgramFault::Destination(fault),
        ExportFault::Fetch(key, fault) => ProgramFault::Copy(CopyFault::Fetch(key, fault)),
        ExportFault::Output | ExportFault::Exists => ProgramFault::Output,
        ExportFault::Memory => ProgramFault::Memory,
    }
}
