ghost use Rattle.std.specs.Prelude.{◌≡◌, true, false, None, IfErr, IfOk, OnOk};
ghost use Rattle.std.specs.Io.KnownBytes.{Appends};
ghost use Rattle.oci_layout_copy.specs.Mirror.{is_exact, HasGoal, IsWholeSource};
ghost use Rattle.oci_entries.specs.Pattern.{texts_of};
ghost use Rattle.oci_copy.specs.Planned.{IsPlanOf};
ghost use Rattle.oci_layout_copy.specs.Goal.{patterns_of, Fits};
ghost use Rattle.oci_program.specs.Indexed.{HasIndexOrNoBlobs, IsRefusedWithout};
ghost use Rattle.oci_copy_commands.specs.Printed.{copy_text, plan_text};
ghost use Rattle.oci_copy_commands.specs.Run.{
  existing_of,
  options_of,
  IsAnsweredDryRun,
  IsAnsweredRun,
  IsCopyMade,
  IsMadeBy,
  IsMadeIn,
  IsMirrorMade,
};
ghost use Rattle.oci_copy_commands.specs.declared.answer.CopyAnswer.{CopyAnswer as Answer};
ghost use Rattle.oci_copy_commands.specs.declared.dry_run.PlanAnswer.{PlanAnswer};

use crate::answer::CopyAnswer;
use crate::behind::LeftBehind;
use crate::destination::{make_blobs_folder, open_or_create, remove_leftovers};
use crate::dry_run::show_plan;
use oci_command_line::{CopyWords, Selection};
use oci_copy::Options;
use oci_dir::{Dir, MemDir, PrunableDir};
use oci_folder::FolderLock;
use oci_layout_copy::mirror::{mirror, prepare_destination};
use oci_layout_copy::{Copied, Goal, Host, check_source, copy_between, plan_from};
use oci_layout_store::Layout;
use oci_plan::{Existing, Plan};
use oci_program::{Form, Outcome, ProgramFault, SeenIndex, check_index, make_and_lock_folder};
use oci_progress::Progress;
use oci_prune_answer::print_answer_with_fault;
use oci_prune_fault::PruneFault;
use oci_selection::Selected;
use oci_store::Store;
use std::alloc::Global;
use std::io::Write;

/// `copy SRC SRCREF DST [DSTREF]` and `copy --all SRC DST`: copies the selected blobs, tags them in
/// the destination, brings the entries of SRC's index, and saves it. With `--platform` the manifest
/// for a platform is selected in place of the index that SRCREF names. Prints in this form the key of
/// each tag and the report, and what stays in the source; as lines, that is for `err`. With `--progress` each blob is printed on `err` when it arrives.
/// Without it, on a terminal, one line shows how much has arrived. With `--dry-run` only the plan
/// is printed, and with `--prune` what would be removed. With `--all --prune` the tags that the source
/// does not have are removed too, and what no tag then needs; the tags and what was removed are
/// printed. What is attached to an image in DST stays, but with `--referrers` only if SRC has it too.
/// With `--match` the tags of DST that match no pattern stay, with what belongs to them.
/// `F` is [`ProgramFault`] or another type that is made from one.
///
/// Otherwise a destination without `oci-layout` becomes a layout, once the source is open and its
/// reference is resolved. The destination's folder is locked from before the destination is opened
/// until after it is saved. Files left by killed copies are removed once the copy is planned.
///
/// A power cut at any moment leaves DST as it was, or as it is after the copy: the index is replaced
/// once all copied blobs are on the disk. With `--prune` a file goes only after that.
///
/// # Errors
///
/// With 75, 77, 80, 81, 99 and the faults before them, no blob, tag or entry of DST is changed.
///
/// - 70 to 74 if SRC or DST is not a layout or cannot be read; 70 for DST only if it has another
///   `index.json` than that of an empty layout; 74 also if DST cannot be created or locked, if its
///   folder `blobs/sha256` cannot be made, or if it is not known whether its index is on the disk.
/// - 73 `BadIndex` for an entry that is no descriptor: with `--all`, if SRC has one with a tag; with
///   `--referrers` or `--prune`, if SRC has any; with `--prune`, if DST has one that has no tag, or
///   one that matches no pattern, is not selected and does not go.
/// - 75 `Corrupt` and 77 `BadManifest` with `--referrers`, if any manifest of SRC is damaged.
///   77 `BadManifest` and 88 `Fetch` if one cannot be read after all.
/// - 35 `EmptyReference` and 36 `UnknownReference` for the reference; 75 `Corrupt` and 77
///   `BadManifest` if it is that of a damaged blob.
/// - 107 `NoPlatform` with `--platform`, if the reference names no index that lists a manifest for it;
///   96 `Unknown`, 75 `Corrupt` and 77 `BadManifest` if that manifest is missing or damaged; 21
///   `Corrupt` and 22 `Device` if the index cannot be read.
/// - 99 `Locked` if another process has the lock of DST, and the words say not to wait.
/// - 97 `NoTags` with `--all`, if SRC has no tag, and 96 `Unknown` if the blob of an entry of its
///   index that has a tag is missing or damaged. With `--match` only tags that match count, and 108
///   `NoMatch` is for a SRC whose tags do not.
/// - 96 `Unknown` with `--prune`, if the blob of any entry of SRC's index is missing or damaged, or
///   any manifest of SRC is damaged; with `--referrers` also if a manifest that one of SRC's lists is
///   missing; or if in DST the blob of an entry that has no such tag is missing or damaged, or a
///   manifest that a kept one lists is missing, or one that has no tag is damaged.
/// - 98 `LinkedBlobs` with `--prune`, if DST has a link to a folder of blobs. 88 `Fetch` and 77
///   `BadManifest` if one of its held manifests cannot be read.
/// - 109 `NoIndex` with `--prune`, if DST has blobs and no `index.json`.
/// - 80 `DestinationOpen` and 81 `Plan` if there is no plan. 75 `Corrupt` and 77 `BadManifest` if it needs
///   a blob whose file in SRC is damaged.
/// - 110 `IndexChanged` if another program wrote DST's `index.json` meanwhile. Blobs that arrived stay.
/// - 82 `Push` and 88 `Fetch` if a blob cannot be copied, and 74 `Device` if the index cannot be
///   written, or if it is not known whether it and the copied blobs are on the disk. Blobs that
///   arrived stay.
/// - 88 `Fetch` if a manifest of SRC cannot be read again, and 74 `Device` if it cannot be found out
///   whether DST has a layer that is not to be distributed. The copy is done and saved.
/// - 85 `BadWorkers` if there are more than 64 workers. Nothing is copied.
/// - 79 `NotRemoved` with `--prune`, if a file cannot be removed. The copy is done and saved.
/// - 94 `Output` if `out` cannot be written. The copy is done and saved.
/// - Out of memory, at any point.
pub fn run_copy<
    R: Host,
    S: Dir + Drop + Sync,
    D: PrunableDir + Drop + Send,
    W: Write,
    X: Write + Send,
    F: From<ProgramFault>,
>(
    rt: &R,
    source: S,
    destination: D,
    words: &CopyWords<'_>,
    form: Form,
    out: &mut W,
    err: &mut X,
) -> Result<Outcome, F>
where
    S::Draft: Send,
    D::Draft: Send,
    // Without `--dry-run` the copy was made that the words ask for. As lines, the text of its answer
    // was printed.
    ensures copied { words.now.is_dry ≡ false → OnOk result ((answer : Answer) × IsAnsweredRun
        S.device D.device words.now source destination answer × (form ≡ Form.Lines
        → Appends (W.contents out.old) (W.contents out.new) (copy_text answer))) }

    // With it that copy was planned. As lines, the text of the plan's answer was printed.
    ensures planned { words.now.is_dry ≡ true → OnOk result ((answer : PlanAnswer)
        × IsAnsweredDryRun S.device D.device ⟦<MemDir as Dir>⟧.device words.now source
        destination answer × (form ≡ Form.Lines → Appends (W.contents out.old) (W.contents out.new)
        (plan_text answer))) }
{
    if words.is_dry {
        return Ok(show_plan(rt.alloc(), source, destination, words, form, out)?);
    }
    let (answer, fault) = copy_layout(rt, source, destination, words, err)?;
    let outcome = print_answer_with_fault(rt.alloc(), &answer, fault, form, out)?;
    answer.behind.tell(form, err);
    Ok(outcome)
}

/// Copies from one directory into another, whose folder is locked during the copy. Returns what was
/// copied, and the fault of the prune, if there was one and it has one.
fn copy_layout<R: Host, S: Dir + Drop + Sync, D: PrunableDir + Drop + Send, X: Write + Send>(
    rt: &R,
    source: S,
    destination: D,
    words: &CopyWords<'_>,
    err: &mut X,
) -> Result<(CopyAnswer, Option<PruneFault>), ProgramFault>
where
    S::Draft: Send,
    D::Draft: Send,
    ensures { IfOk result (λ it. it.1 ≡ None → IsAnsweredRun S.device D.device words.now source
        destination it.0) }
{
    let source = Layout::open_as_is(rt.alloc(), source)?;
    let selected = Selected::of(rt.alloc(), &source, words)?;
    check_source_if(words.prunes, is_exact(words), &source)?;
    let (copied, behind) = copy_selected(rt, &source, destination, &selected, words, err)?;
    Ok(CopyAnswer::of(rt.alloc(), selected, copied, behind)?)
}

/// Refuses a source that a mirror must not follow, if the copy prunes.
pub(crate) fn check_source_if<S: Dir>(
    prunes: bool,
    is_exact: bool,
    source: &Layout<S>,
) -> Result<(), ProgramFault>
    ensures { OnOk result (prunes ≡ true → IsWholeSource is_exact source.now) }
{
    if prunes {
        check_source(source, is_exact)
    } else {
        Ok(())
    }
}

/// Refuses a destination that has blobs and no index, if the copy prunes.
pub(crate) fn check_index_if<D: PrunableDir>(prunes: bool, dir: &D) -> Result<(), ProgramFault>
    ensures indexed { OnOk result (prunes ≡ true → (D.device dir.now).is_honest
        → HasIndexOrNoBlobs (D.device dir.now).file) }
    ensures cause { IfErr result (λ e. (prunes ≡ true)
        × IsRefusedWithout (D.device dir.now) (HasIndexOrNoBlobs (D.device dir.now).file) e) }
{
    if prunes { check_index(dir) } else { Ok(()) }
}

/// Returns whether a mirror keeps of what is attached in the destination only what the source has
/// too, and what belongs to tags that stay.
pub(crate) fn is_exact(words: &CopyWords<'_>) -> bool
    ensures { result ≡ is_exact words.now }
{
    words.referrers.is_some()
}

/// Copies the selected blobs of an open layout into a folder. The folder is locked from before it
/// is opened until after it is saved.
fn copy_selected<R: Host, S: Dir + Sync, D: PrunableDir + Drop + Send, X: Write + Send>(
    rt: &R,
    source: &Layout<S>,
    destination: D,
    selected: &Selected,
    words: &CopyWords<'_>,
    err: &mut X,
) -> Result<(Copied, LeftBehind), ProgramFault>
where
    S::Draft: Send,
    D::Draft: Send,
    requires whole { words.now.prunes ≡ true → IsWholeSource (is_exact words.now) source.now }
    ensures { IfOk result (IsMadeIn S.device D.device words.now source.now selected.now
        destination) }
{
    let lock = make_and_lock_folder(
        rt,
        words.destination,
        destination.first_failure(),
        words.waits,
        err,
    )?;
    let seen = SeenIndex::of(&destination)?;
    check_index_if(words.prunes, &destination)?;
    let (destination, seen) = open_or_create(rt.alloc(), destination, seen)?;
    make_blobs_folder(rt, words.destination, destination.first_failure())?;
    copy_under_lock(rt, source, destination, &seen, selected, words, &lock, err)
}

/// Plans a copy into an open layout, removes files left by killed copies, and copies.
fn copy_under_lock<R: Host, S: Dir + Sync, D: PrunableDir + Drop + Send, X: Write + Send>(
    rt: &R,
    source: &Layout<S>,
    mut destination: Layout<D>,
    seen: &SeenIndex,
    selected: &Selected,
    words: &CopyWords<'_>,
    lock: &FolderLock<R>,
    err: &mut X,
) -> Result<(Copied, LeftBehind), ProgramFault>
where
    S::Draft: Send,
    D::Draft: Send,
    requires whole { words.now.prunes ≡ true → IsWholeSource (is_exact words.now) source.now }
    ensures { IfOk result (IsMadeBy S.device D.device words.now source.now selected.now
        destination) }
{
    let options = options_of(words);
    let goal = goal_of(rt.alloc(), &mut destination, selected, words)?;
    let plan = plan_from(rt.alloc(), source, &destination, selected.roots(), &options)?;
    remove_leftovers(rt, lock)?;
    let progress = Progress::new(rt, err, words.shown, &plan);
    match &goal {
        Some(goal) => mirror_and_end(
            rt,
            source,
            destination,
            seen,
            &plan,
            selected,
            goal,
            words,
            &progress,
        ),
        None => copy_and_end(
            rt,
            source,
            destination,
            seen,
            &plan,
            selected,
            words,
            &progress,
        ),
    }
}

/// Makes a planned mirror, ends its progress line, and finds out what it leaves behind.
fn mirror_and_end<R: Host, S: Dir + Sync, D: PrunableDir + Drop + Send, X: Write + Send>(
    rt: &R,
    source: &Layout<S>,
    destination: Layout<D>,
    seen: &SeenIndex,
    plan: &Plan,
    selected: &Selected,
    goal: &Goal,
    words: &CopyWords<'_>,
    progress: &Progress<'_, R, X>,
) -> Result<(Copied, LeftBehind), ProgramFault>
where
    S::Draft: Send,
    D::Draft: Send,
    requires planned { IsPlanOf (⟦<Layout<S> as Store>⟧.state source.now)
        (options_of words.now) (⟦<Layout<D> as Store>⟧.state destination) selected.now.0
        plan.now }
    requires whole { IsWholeSource (is_exact words.now) source.now }
    requires fits { Fits destination selected.now.0 goal.now.0 }
    ensures { IfOk result (IsMirrorMade S.device D.device words.now source.now selected.now
        goal.now destination) }
{
    let (left, mirrored) = mirror(
        rt,
        source,
        destination,
        seen,
        plan,
        selected,
        goal,
        is_exact(words),
        &options_of(words),
        progress,
    );
    progress.end();
    match mirrored {
        Ok(copied) => {
            let behind = LeftBehind::of(rt.alloc(), source, &left, selected, words)?;
            Ok((copied, behind))
        }
        Err(fault) => Err(fault),
    }
}

/// Makes a planned copy, ends its progress line, and finds out what it leaves behind.
fn copy_and_end<R: Host, S: Dir + Sync, D: PrunableDir + Drop + Send, X: Write + Send>(
    rt: &R,
    source: &Layout<S>,
    destination: Layout<D>,
    seen: &SeenIndex,
    plan: &Plan,
    selected: &Selected,
    words: &CopyWords<'_>,
    progress: &Progress<'_, R, X>,
) -> Result<(Copied, LeftBehind), ProgramFault>
where
    S::Draft: Send,
    D::Draft: Send,
    requires { IsPlanOf (⟦<Layout<S> as Store>⟧.state source.now) (options_of words.now)
        (⟦<Layout<D> as Store>⟧.state destination) selected.now.0 plan.now }
    ensures { IfOk result (IsCopyMade S.device D.device words.now source.now selected.now
        destination) }
{
    let (left, copied) = copy_between(
        rt,
        source,
        destination,
        seen,
        plan,
        selected,
        &options_of(words),
        progress,
    );
    progress.end();
    match copied {
        Ok(report) => {
            let behind = LeftBehind::of(rt.alloc(), source, &left, selected, words)?;
            let copied = Copied {
                report,
                removed: None,
            };
            Ok((copied, behind))
        }
        Err(fault) => Err(fault),
    }
}

/// Prepares the destination of a copy for a mirror, and returns the goal of that, if the copy prunes.
pub(crate) fn goal_of<D: PrunableDir>(
    alloc: Global,
    destination: &mut Layout<D>,
    selected: &Selected,
    words: &CopyWords<'_>,
) -> Result<Option<Goal>, ProgramFault>
    ensures goal { IfOk result (HasGoal D.device words.now (selected.now.0, selected.now.1)
        destination.old destination.new) }
    ensures same { words.now.prunes ≡ false → destination.new ≡ destination.old }
{
    if !words.prunes {
        return Ok(None);
    }
    let patterns = patterns_of(&words.selection);
    let goal = prepare_destination(alloc, destination, selected, patterns, is_exact(words))?;
    Ok(Some(goal))
}

/// Returns the patterns that the tags of a copy must match.
fn patterns_of<'w>(selection: &'w Selection<'w>) -> &'w [&'w str]
    ensures { texts_of result.now ≡ patterns_of selection.now }
{
    match selection {
        Selection::Reference { .. } => &[],
        Selection::AllTags { patterns } => patterns,
    }
}

/// The options of a copy that its words name.
pub(crate) fn options_of(words: &CopyWords<'_>) -> Options
    ensures { result ≡ options_of words.now }
{
    Options {
        workers: words.workers,
        existing: existing_of(words.descends),
        ..Options::default()
    }
}

/// How a copy treats a key that the destination has.
fn existing_of(descends: bool) -> Existing
    ensures { result ≡ existing_of descends }
{
    if descends {
        Existing::Descend
    } else {
        Existing::Skip
    }
}
