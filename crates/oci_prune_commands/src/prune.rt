ghost use Rattle.std.specs.Prelude.{◌≡◌, [], true, false, None, IfErr, IfOk, IsOk, OnOk};
ghost use Rattle.std.specs.Io.KnownBytes.{Appends};
ghost use Rattle.oci_layout_store.specs.BlobFiles.{AreBlobs};
ghost use Rattle.oci_layout_store.specs.Index.{index_file};
ghost use Rattle.oci_prune.specs.Plan.{IsPrunePlan, roots_of};
ghost use Rattle.oci_program.specs.Indexed.{HasIndexOrNoBlobs, IsRefusedWithout};
ghost use Rattle.oci_store.specs.Tags.{by_bytes};
ghost use Rattle.oci_prune_commands.specs.PruneText.{full_text};
ghost use Rattle.oci_prune_commands.specs.declared.answer.FullAnswer.{FullAnswer};
ghost use Rattle.oci_prune_commands.specs.PrunedLayout.{
  CountsFree,
  HasEntriesOrNoBlobs,
  IsDryPrune,
  IsPlannedBy,
  IsPrunedBy,
  IsPruneRun,
  KeepsHeldKeys,
  KeepsPlanned,
  LosesLeftovers,
  LosesTags,
};

use crate::answer::FullAnswer;
use oci_command_line::PruneWords;
use oci_dir::PrunableDir;
use oci_folder::{FolderLock, Lockable};
use oci_layout_store::Layout;
use oci_manifest::Key;
use oci_program::{
    Form, Outcome, ProgramFault, SeenIndex, check_index, check_is_layout, lock_folder,
    open_settled, print_answer,
};
use oci_prune::{
    PrunePlan, Pruned, free_keys, plan_leftovers, plan_prune, plan_prune_keeping, prune,
    prune_leftovers, untag_orphans,
};
use oci_prune_answer::{PruneAnswer, print_answer_with_fault};
use oci_prune_fault::PruneFault;
use std::alloc::Global;
use std::io::Write;
use std::rt::Files;

/// `prune FOLDER`: removes from the layout in a directory the files that no entry of its index needs,
/// and prints in this form what was removed. With `--untagged` it removes what no tag needs, with the
/// entries of that, and each tag that is made of the digest of an image that goes. With `--leftovers`
/// it removes only the files that killed copies left. The directory is the words' folder, which is
/// locked from before the layout is opened until after the last file is removed. With `--dry-run`
/// nothing is locked or changed, and the same is printed. `F` is [`ProgramFault`] or another type that
/// is made from one. A power cut at any moment leaves the layout with all that it had, or with what its
/// tags need; this is a clause of [`prune`](oci_prune::prune), its core.
///
/// # Errors
///
/// With all but 74, 79, 94 and a memory error nothing is changed.
///
/// - 70 to 74 if the directory has no layout, or it cannot be read; 74 also if the folder cannot be
///   locked, if `index.json` cannot be written, or if it is not known whether it is on the disk. If
///   the new `index.json` is not saved, what went before is printed: files that no held blob has.
/// - 99 `Locked` if another process has the lock, and the words say not to wait.
/// - 109 `NoIndex` if there are blobs and no `index.json`, or, without `--untagged`, one without entries.
///   This and the next five not with `--leftovers`.
/// - 96 `Unknown` if it is not known what a manifest needs, since it is missing or damaged.
/// - 98 `LinkedBlobs` if a folder of blobs is a link.
/// - 97 `NoTags` if the layout has no tag, or none that stays; only with `--untagged`.
/// - 88 `Fetch` and 77 `BadManifest` if a held manifest cannot be read.
/// - 110 `IndexChanged` if another program wrote `index.json` since the layout was opened.
/// - 79 `NotRemoved` if a file cannot be removed. The others are removed and printed.
/// - 94 `Output` if `out` cannot be written. The prune is done.
/// - Out of memory, at any point.
pub fn run_prune<
    R: Files<File: Lockable> + AllocGlobal,
    D: PrunableDir + Drop,
    W: Write,
    X: Write,
    F: From<ProgramFault>,
>(
    rt: &R,
    dir: D,
    words: &PruneWords<'_>,
    form: Form,
    out: &mut W,
    err: &mut X,
) -> Result<Outcome, F>
    ensures good { IfOk result (λ outcome. outcome ≡ Outcome.Good) }

    // Without `--dry-run` the layout in the directory was opened, and pruned as the words ask for. As
    // lines, the answer is what was removed, or what would be.
    ensures pruned { words.now.is_dry ≡ false → OnOk result ((answer : FullAnswer)
        × IsPruneRun D.device dir words.now answer × (form ≡ Form.Lines
        → Appends (W.contents out.old) (W.contents out.new) (full_text answer))) }
    ensures planned { words.now.is_dry ≡ true → OnOk result ((answer : FullAnswer)
        × IsDryPrune D.device dir words.now answer × (form ≡ Form.Lines
        → Appends (W.contents out.old) (W.contents out.new) (full_text answer))) }
{
    if words.is_dry {
        let planned = plan_folder(rt.alloc(), dir, words)?;
        return Ok(print_answer(rt.alloc(), &planned, form, out)?);
    }
    let (answer, fault) = prune_folder(rt, dir, words, err)?;
    Ok(print_answer_with_fault(rt.alloc(), &answer, fault, form, out)?)
}

/// Plans a prune of a layout. Returns the answer of one that removes all that is planned.
fn plan_folder<D: PrunableDir + Drop>(
    alloc: Global,
    dir: D,
    words: &PruneWords<'_>,
) -> Result<FullAnswer, ProgramFault>
    ensures { IfOk result (IsDryPrune D.device dir words.now) }
{
    check_is_layout(&dir)?;
    check_index_for(&dir, words)?;
    let mut layout = Layout::open_as_is(alloc, dir)?;
    check_entries_for(&layout, words)?;
    let tags = untag_for(alloc, &mut layout, words)?;
    let plan = plan_by(alloc, &layout, words)?;
    let left = untagged_left(alloc, &layout, words)?;
    let planned = PruneAnswer::planned(alloc, plan, left)?;
    Ok(FullAnswer::of(alloc, tags, planned)?)
}

/// Locks the folder of a layout, and prunes the layout. Returns what was removed, and the fault of
/// the prune, if it has one.
fn prune_folder<R: Files<File: Lockable> + AllocGlobal, D: PrunableDir + Drop, X: Write>(
    rt: &R,
    dir: D,
    words: &PruneWords<'_>,
    err: &mut X,
) -> Result<(FullAnswer, Option<PruneFault>), ProgramFault>
    ensures { IfOk result (λ done. done.1 ≡ None → IsPruneRun D.device dir words.now
        done.0) }
{
    check_is_layout(&dir)?;
    let lock = lock_folder(rt, words.folder, dir.first_failure(), words.waits, err)?;
    prune_under_lock(rt.alloc(), dir, words, &lock)
}

/// Opens the layout in a locked folder, and prunes it.
fn prune_under_lock<R: Files + AllocGlobal, D: PrunableDir + Drop>(
    alloc: Global,
    dir: D,
    words: &PruneWords<'_>,
    _lock: &FolderLock<R>,
) -> Result<(FullAnswer, Option<PruneFault>), ProgramFault>
    ensures { IfOk result (λ done. done.1 ≡ None → IsPruneRun D.device dir words.now
        done.0) }
{
    let seen = SeenIndex::of(&dir)?;
    check_index_for(&dir, words)?;
    let mut layout = open_settled(alloc, dir)?;
    check_entries_for(&layout, words)?;
    let tags = untag_for(alloc, &mut layout, words)?;
    let left = untagged_left(alloc, &layout, words)?;
    let (plan, pruned) = prune_layout(alloc, &mut layout, &seen, words)?;
    let removed = PruneAnswer::of(alloc, plan, &pruned, left)?;
    let answer = FullAnswer::of(alloc, tags_gone(alloc, tags, &pruned), removed)?;
    Ok((answer, pruned.into_fault()))
}

/// Removes the orphans of a layout in memory, if the words ask for a prune that keeps what tags need.
/// Returns them.
fn untag_for<D: PrunableDir>(
    alloc: Global,
    layout: &mut Layout<D>,
    words: &PruneWords<'_>,
) -> Result<Vec<(String, Key)>, PruneFault>
    ensures { IfOk result (λ gone. LosesTags D.device words.now layout.old layout.new
        (by_bytes gone.items)) }
{
    if words.only_leftovers || !words.removes_untagged {
        return Ok(Vec::new(alloc));
    }
    untag_orphans(alloc, layout)
}

/// Returns the tags that went with a prune: these, or none if the index is not saved.
fn tags_gone(alloc: Global, tags: Vec<(String, Key)>, pruned: &Pruned) -> Vec<(String, Key)>
    ensures saved { IsOk pruned.now.saved → result ≡ tags }
    ensures unsaved { IfErr pruned.now.saved (λ e. result.items ≡ []) }
{
    match pruned.saved {
        Ok(()) => tags,
        Err(_) => Vec::new(alloc),
    }
}

/// Refuses a directory that has blobs and no index, unless only leftovers are removed.
fn check_index_for<D: PrunableDir>(dir: &D, words: &PruneWords<'_>) -> Result<(), ProgramFault>
    ensures indexed { OnOk result (words.now.only_leftovers ≡ false
        → (D.device dir.now).is_honest → HasIndexOrNoBlobs (D.device dir.now).file) }
    ensures cause { IfErr result (λ e. (words.now.only_leftovers ≡ false)
        × IsRefusedWithout (D.device dir.now) (HasIndexOrNoBlobs (D.device dir.now).file) e) }
{
    if words.only_leftovers {
        return Ok(());
    }
    check_index(dir)
}

/// Refuses a layout that has blobs and no entry, if the words ask for a prune that keeps each held key.
fn check_entries_for<D: PrunableDir>(
    layout: &Layout<D>,
    words: &PruneWords<'_>,
) -> Result<(), ProgramFault>
    ensures { OnOk result (KeepsHeldKeys words.now
        → HasEntriesOrNoBlobs (D.device layout.now.dir) layout.now) }
{
    if words.only_leftovers || words.removes_untagged {
        return Ok(());
    }
    check_entries(layout)
}

/// Refuses a layout that has blobs and no entry: a prune that keeps what the entries reach would remove
/// every blob.
fn check_entries<D: PrunableDir>(layout: &Layout<D>) -> Result<(), ProgramFault>
    ensures { OnOk result (HasEntriesOrNoBlobs (D.device layout.now.dir) layout.now) }
{
    if layout.entries().is_empty() {
        check_no_blobs(layout)
    } else {
        Ok(())
    }
}

/// Refuses a layout that has blobs.
fn check_no_blobs<D: PrunableDir>(layout: &Layout<D>) -> Result<(), ProgramFault>
    ensures { OnOk result ((D.device layout.now.dir).is_honest
        → AreBlobs (D.device layout.now.dir).file []) }
{
    match layout.blobs() {
        Ok(blobs) => {
            if blobs.is_empty() {
                Ok(())
            } else {
                Err(ProgramFault::NoIndex)
            }
        }
        Err(fault) => Err(ProgramFault::Layout(fault)),
    }
}

/// Returns how many free keys a prune leaves, if the words ask for one that keeps each held key.
fn untagged_left<D: PrunableDir>(
    alloc: Global,
    layout: &Layout<D>,
    words: &PruneWords<'_>,
) -> Result<Option<usize>, PruneFault>
    ensures { IfOk result (CountsFree D.device words.now layout.now) }
{
    if words.only_leftovers || words.removes_untagged {
        return Ok(None);
    }
    let free = free_keys(alloc, layout)?;
    Ok(Some(free.len()))
}

/// Prunes a layout as the words ask for, if its index is what was seen. Returns the plan, and what was
/// removed.
fn prune_layout<D: PrunableDir>(
    alloc: Global,
    layout: &mut Layout<D>,
    seen: &SeenIndex,
    words: &PruneWords<'_>,
) -> Result<(PrunePlan, Pruned), ProgramFault>
    ensures { IfOk result (λ done. IsPrunedBy D.device words.now layout.old layout.new
        done.0 done.1) }
{
    if words.only_leftovers {
        return Ok(remove_leftovers(alloc, layout)?);
    }
    let plan = plan_by(alloc, layout, words)?;
    let pruned = prune_seen(alloc, layout, seen, &plan)?;
    Ok((plan, pruned))
}

/// Prunes a layout by a plan of it, if its index is what was seen.
fn prune_seen<D: PrunableDir>(
    alloc: Global,
    layout: &mut Layout<D>,
    seen: &SeenIndex,
    plan: &PrunePlan,
) -> Result<Pruned, ProgramFault>
    requires { IsPrunePlan (D.device layout.old.dir) layout.old.graph (roots_of layout.old)
        plan.now }
    ensures seen { OnOk result ((D.device layout.old.dir).is_honest
        → (D.device layout.old.dir).file index_file ≡ seen.now.0) }
    ensures pruned { IfOk result (KeepsPlanned D.device layout.old layout.new plan.now) }
{
    seen.check(layout.dir())?;
    Ok(prune(alloc, layout, plan)?)
}

/// Plans the prune of a layout that the words ask for.
fn plan_by<D: PrunableDir>(
    alloc: Global,
    layout: &Layout<D>,
    words: &PruneWords<'_>,
) -> Result<PrunePlan, PruneFault>
    ensures planned { IfOk result (IsPlannedBy D.device words.now layout.now) }
    ensures others { IfOk result (λ plan. words.now.only_leftovers ≡ false
        → IsPrunePlan (D.device layout.now.dir) layout.now.graph (roots_of layout.now) plan) }
{
    if words.only_leftovers {
        plan_leftovers(alloc, layout)
    } else if words.removes_untagged {
        plan_prune_keeping(alloc, layout, &[], true)
    } else {
        plan_prune(alloc, layout)
    }
}

/// Removes from a layout what killed processes left. Returns the plan, and what was removed.
fn remove_leftovers<D: PrunableDir>(
    alloc: Global,
    layout: &mut Layout<D>,
) -> Result<(PrunePlan, Pruned), PruneFault>
    ensures { IfOk result (λ done. LosesLeftovers D.device layout.old layout.new done.0 done.1) }
{
    let plan = plan_leftovers(alloc, layout)?;
    let pruned = prune_leftovers(alloc, layout, &plan)?;
    Ok((plan, pruned))
}
