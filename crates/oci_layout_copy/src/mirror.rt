ghost use Rattle.std.specs.Prelude.{◌≡◌, ◌≢◌, ◌≤◌, ◌⊎◌, List, [], true, Ok, Err, Some, None, map, Contains, IsOk, IfOk, IfErr, OnOk, OnErr};
ghost use Rattle.std.specs.List.{All};
ghost use Rattle.std.specs.Map.{values_of};
ghost use Rattle.oci_store.specs.Closed.{IsClosed};
ghost use Rattle.oci_store.specs.Content.{Entry};
ghost use Rattle.oci_store.specs.Keyed.{HasAll};
ghost use Rattle.oci_store.specs.Tags.{Tags};
ghost use Rattle.oci_copy.specs.Cause.{CanFail, IsStepCause, RefusedAt, RefusedByWorkers};
ghost use Rattle.oci_copy.specs.Grown.{BeginsWith};
ghost use Rattle.oci_copy.specs.Planned.{IsPlanOf};
ghost use Rattle.oci_layout_store.specs.Brought.{Brings};
ghost use Rattle.oci_layout_store.specs.Entries.{entry_of, said, unreadable_places};
ghost use Rattle.oci_layout_store.specs.Index.{HasIndex};
ghost use Rattle.oci_layout_store.specs.Layout.{manifests_of, OnlyIndex};
ghost use Rattle.oci_prune.specs.Pruned.{KeepsReached};
ghost use Rattle.oci_layout_copy.specs.Between.{HasReached};
ghost use Rattle.oci_layout_copy.specs.Goal.{Fits, IsOnlySelected, IsPrepared};
ghost use Rattle.oci_layout_copy.specs.Mirror.{HoldsOnlyReached, IsCleanedCopySettled, IsKnown, IsMirrored, IsRefusedMirror, IsWholeSource, KeepsContents, KeepsHeld, of_prune};
ghost use Rattle.oci_entries.specs.Pattern.{texts_of};
ghost use Rattle.oci_layout_copy.specs.Refusal.{AfterRefusedCopy};
ghost use Rattle.oci_selection.specs.Selected.{set_tags, IsOfRoot};
ghost use Rattle.oci_layout_store.specs.Lasts.{Lasts};
ghost use Rattle.oci_prune.specs.Settled.{LeavesOneOf};
ghost use Rattle.oci_layout_copy.specs.Settled.{CanCleanUp, StartsSettled};
ghost use Rattle.oci_program.specs.SeenIndex.{OrOtherIndex};

use crate::clean_up::{CleanUp, settle_and_clean_up};
use crate::copied::Copied;
use crate::goal::Goal;
use crate::host::Host;
use crate::kept::{forget_others, kept_tags};
use oci_copy::{CopyFault, Options, Report, copy_plan};
use oci_dir::{Dir, PrunableDir};
use oci_layout_store::{Layout, OpenedIndex};
use oci_manifest::Key;
use oci_plan::Plan;
use oci_pool::Hooks;
use oci_program::{ProgramFault, SeenIndex};
use oci_prune::plan_prune_keeping;
use oci_prune_fault::PruneFault;
use oci_selection::Selected;
use oci_store::{Dest, Store};
use std::alloc::Global;

/// Prepares the destination of a mirror that selects the tags which match one of the patterns, and
/// returns its goal. With no patterns each tag matches, and the goal is what is selected.
///
/// The tags that match no pattern are kept, as of [`kept_tags`]. The destination forgets the entries
/// of the other tags, since the mirror brings its own. One that cannot be pruned then is refused.
///
/// # Errors
///
/// - 77 `BadManifest` and 88 `Fetch`, as of [`kept_tags`].
/// - 73 `BadIndex` for the first entry of its index that it does not forget and that is no descriptor.
/// - Those of [`check_destination`].
/// - 96 `Unknown` if the blob of a remembered entry with a name is not held after all.
pub fn prepare_destination<D: PrunableDir>(
    alloc: Global,
    destination: &mut Layout<D>,
    selected: &Selected,
    patterns: &[&str],
    is_exact: bool,
) -> Result<Goal, ProgramFault>
    ensures goal { IfOk result (λ goal. IsPrepared D.device (texts_of patterns.now) is_exact
        (selected.now.0, selected.now.1) destination.old destination.new goal) }
    ensures whole { patterns.now ≡ [] → IfOk result (λ goal.
        IsOnlySelected destination.new (selected.now.0, selected.now.1) goal) }
    ensures fits { IfOk result (λ goal. Fits destination.new selected.now.0 goal.0) }
    ensures readable { OnOk result
        (unreadable_places (said destination.new.opened.content).entries ≡ []) }
    ensures absent { OnOk result (destination.new.opened.absent ≡ []) }
    ensures damaged { OnOk result (destination.new.tags ≢ []
        → HasAll destination.new.graph (manifests_of destination.new.opened.damaged)) }
    ensures unlinked { OnOk result ((D.device destination.new.dir).is_honest
        → (D.device destination.new.dir).link ≡ None) }
    ensures only { OnlyIndex destination.old destination.new }
{
    let kept = kept_tags(alloc, destination, selected, patterns, is_exact)?;
    forget_others(alloc, destination, selected, patterns, &kept.tags)?;
    check_destination(alloc, destination, &kept.attached, is_exact)?;
    Goal::of(alloc, destination, selected, kept)
}

/// Refuses a destination that cannot be pruned as it is, and keep these keys of it. One without tags
/// can.
///
/// # Errors
///
/// - 96 `Unknown` if the blob of a remembered entry of its index is missing or damaged: the first one.
/// - 73 `BadIndex` if a remembered entry of its index is no descriptor: for the first one.
/// - 98 `LinkedBlobs` if a folder of blobs is a link.
/// - 96 `Unknown` if it has tags, and any other manifest is damaged: the first one.
/// - 77 `BadManifest` and 88 `Fetch` if it has tags, and a held manifest cannot be read; if the mirror
///   is exact, one that is kept.
/// - 96 `Unknown` if it has tags, and a kept manifest lists a missing one.
/// - 74 `Device` if the directory cannot be read.
/// - Out of memory, at any point.
fn check_destination<D: PrunableDir>(
    alloc: Global,
    destination: &Layout<D>,
    keys: &[Key],
    is_exact: bool,
) -> Result<(), ProgramFault>
    ensures readable { OnOk result
        (unreadable_places (said destination.now.opened.content).entries ≡ []) }
    ensures absent { OnOk result (destination.now.opened.absent ≡ []) }
    ensures damaged { OnOk result (destination.now.tags ≢ []
        → HasAll destination.now.graph (manifests_of destination.now.opened.damaged)) }
    ensures known { OnOk result (destination.now.tags ≢ []
        → IsKnown D.device is_exact destination.now keys.now) }
    ensures unlinked { OnOk result ((D.device destination.now.dir).is_honest
        → (D.device destination.now.dir).link ≡ None) }
{
    if let Some(key) = destination.absent().first() {
        return Err(ProgramFault::Prune(PruneFault::Unknown(key.try_clone()?)));
    }
    match destination.check_entries() {
        Ok(()) => {
            check_unlinked(destination)?;
            check_plan(alloc, destination, keys, is_exact)
        }
        Err(fault) => Err(ProgramFault::Destination(fault)),
    }
}

/// Refuses a layout with a link to a folder of blobs.
fn check_unlinked<D: PrunableDir>(layout: &Layout<D>) -> Result<(), ProgramFault>
    ensures { OnOk result ((D.device layout.now.dir).is_honest
        → (D.device layout.now.dir).link ≡ None) }
{
    match layout.linked() {
        Ok(None) => Ok(()),
        Ok(Some(folder)) => Err(ProgramFault::Prune(PruneFault::LinkedBlobs(folder))),
        Err(fault) => Err(ProgramFault::Destination(fault)),
    }
}

/// Refuses a layout whose prune is refused that also keeps these keys, unless it has no tags.
fn check_plan<D: PrunableDir>(
    alloc: Global,
    layout: &Layout<D>,
    keys: &[Key],
    is_exact: bool,
) -> Result<(), ProgramFault>
    ensures damaged { OnOk result (layout.now.tags ≢ []
        → HasAll layout.now.graph (manifests_of layout.now.opened.damaged)) }
    ensures known { OnOk result (layout.now.tags ≢ []
        → IsKnown D.device is_exact layout.now keys.now) }
{
    let tags = layout.tags()?;
    if tags.is_empty() {
        return Ok(());
    }
    match plan_prune_keeping(alloc, layout, keys, !is_exact) {
        Ok(_) => Ok(()),
        Err(fault) => Err(fault_of(fault)),
    }
}

/// Copies the planned blobs into a layout, sets the tags of the goal there and removes all others,
/// brings the selected entries, saves it, and removes what no tag needs. The layout is saved once,
/// when the copied blobs are on the disk, and before a file is removed that a held key has. Files that
/// none has go before.
///
/// What refers to what a tag needs, such as a signature, stays. If the mirror is exact, it stays only
/// if it is among the roots of the goal, or they reach it.
///
/// The plan is one that `plan_copy` made of these two layouts, the selected roots and these options,
/// and the goal is one that fits the destination, as from [`prepare_destination`]. `seen` is what the
/// destination's `index.json` had before it was opened. The destination is always returned. If the copy
/// is refused, no tag, no entry and no file is removed, and the index is not written.
///
/// # Errors
///
/// - 82 `Push` if the destination refuses a blob, and 88 `Fetch` if the source does.
/// - 85 `BadWorkers` if there are more than 64 workers. Nothing is copied.
/// - 96 `Unknown`, 73 `BadIndex`, 88 `Fetch` and 77 `BadManifest` if the destination cannot be pruned
///   after all. The copied blobs stay, and the index is not written.
/// - 110 `IndexChanged` if `index.json` is no longer what was seen. The copied blobs stay.
/// - 74 `Device` if `index.json` could not be read or written, or if it is not known whether it and the
///   copied blobs are on the disk.
/// - Out of memory, at any point.
pub fn mirror<R: Host, S: Dir + Sync, D: PrunableDir + Drop + Send, H: Hooks + Sync>(
    rt: &R,
    source: &Layout<S>,
    destination: Layout<D>,
    seen: &SeenIndex,
    plan: &Plan,
    selected: &Selected,
    goal: &Goal,
    is_exact: bool,
    options: &Options,
    hooks: &H,
) -> (Layout<D>, Result<Copied, ProgramFault>)
where
    S::Draft: Send,
    D::Draft: Send,
    requires planned { IsPlanOf (⟦<Layout<S> as Store>⟧.state source.now) options.now
        (⟦<Layout<D> as Store>⟧.state destination) selected.now.0 plan.now }
    requires whole { IsWholeSource is_exact source.now }
    requires fits { Fits destination selected.now.0 goal.now.0 }

    ensures workers { OnOk result.1 (options.now.workers ≤ 64) }

    // After a mirror the destination has exactly the tags of the goal, and what they need.
    ensures tags { OnOk result.1 (result.0.tags ≡ set_tags [] goal.now.1) }
    ensures brought { OnOk result.1 (Brings (map entry_of selected.now.2) result.0.tags
        destination.opened result.0.opened) }
    ensures saved { OnOk result.1 ((D.device result.0.dir).is_honest
        → HasIndex (D.device result.0.dir).file result.0.graph result.0.tags result.0.opened) }
    ensures pruned { IfOk result.1 (IsMirrored D.device options.now.existing is_exact
        (⟦<Layout<S> as Store>⟧.state source.now) selected.now.0 goal.now destination
        result.0) }
    ensures reached { OnOk result.1 (HasReached (⟦<Layout<S> as Store>⟧.state source.now)
        (⟦<Layout<D> as Store>⟧.state destination) selected.now.0
        (⟦<Layout<D> as Store>⟧.state result.0)) }

    // All roots of the goal are held. An exact mirror holds only what is reached from them.
    ensures held { OnOk result.1 (HasAll result.0.graph goal.now.0) }
    ensures only { OnOk result.1 (is_exact ≡ true
        → HoldsOnlyReached result.0.graph goal.now.0) }

    // What its tags need stays, whatever the result.
    ensures stays { KeepsHeld destination.graph result.0.graph (values_of result.0.tags) }
    ensures closed { IsClosed destination.graph → IsClosed result.0.graph }

    // A refused copy removes nothing.
    ensures untagged { IfErr result.1 (AfterRefusedCopy (result.0.tags ≡ destination.tags)) }
    ensures remembered { IfErr result.1 (AfterRefusedCopy
        (result.0.opened ≡ destination.opened)) }
    ensures unpruned { IfErr result.1 (AfterRefusedCopy
        (BeginsWith destination.graph result.0.graph)) }
    ensures contents { IfErr result.1 (AfterRefusedCopy (KeepsContents
        (⟦<Layout<S> as Store>⟧.state source.now) (⟦<Layout<D> as Store>⟧.state destination)
        (⟦<Layout<D> as Store>⟧.state result.0))) }
    ensures refused { IfErr result.1 (OrOtherIndex (D.device result.0.dir) seen.now.0
        (IsRefusedMirror (RefusedByWorkers options.now.workers
        (RefusedAt (Contains plan.now.keys) (IsStepCause
        (CanFail ⟦<Layout<D> as Store>⟧.state (⟦<Layout<D> as Store>⟧.state destination))
        (⟦<Layout<S> as Store>⟧.state source.now) (⟦<Layout<D> as Store>⟧.state destination))))
        is_exact goal.now.0 (D.device destination.dir).failures (D.device result.0.dir)
        result.0)) }

    // A power cut at any moment leaves the old layout or the new one.
    ensures left { StartsSettled (⟦<Layout<S> as Store>⟧.state source.now)
        (⟦<Layout<D> as Store>⟧.state destination) → LeavesOneOf (D.device result.0.dir)
        (⟦<Layout<D> as Store>⟧.state destination).entries destination.tags
        (⟦<Layout<D> as Store>⟧.state result.0).entries result.0.tags }
    ensures lasts { OnOk result.1 (StartsSettled (⟦<Layout<S> as Store>⟧.state source.now)
        (⟦<Layout<D> as Store>⟧.state destination) → Lasts (D.device result.0.dir)
        (⟦<Layout<D> as Store>⟧.state result.0).entries result.0.tags) }
{
    // The files of the keys that are held now are on the disk, if the layout was saved before.
    let from = destination.count();
    // A copy may change what the destination remembers of its index, as far as its contract says.
    let mut destination = destination;
    let index = destination.take_index();
    let roots = selected.roots();
    let (destination, copied) = copy_plan(
        rt,
        rt.alloc(),
        source,
        destination,
        plan,
        roots,
        options,
        hooks,
    );
    finish(
        rt.alloc(),
        destination,
        seen,
        index,
        from,
        copied,
        selected,
        goal,
        is_exact,
    )
}

/// Gives the destination of a copy back what it remembered of its index, and cleans it up, unless
/// the copy was refused. The keys from the place `from` on were copied.
fn finish<D: PrunableDir>(
    alloc: Global,
    destination: Layout<D>,
    seen: &SeenIndex,
    index: OpenedIndex,
    from: usize,
    copied: Result<Report, CopyFault>,
    selected: &Selected,
    goal: &Goal,
    is_exact: bool,
) -> (Layout<D>, Result<Copied, ProgramFault>)
    requires held { OnOk copied (HasAll destination.graph goal.now.0) }
    requires roots { All (Contains goal.now.0) selected.now.0 }
    ensures tags { OnOk result.1 (result.0.tags ≡ set_tags [] goal.now.1) }
    ensures brought { OnOk result.1 (Brings (map entry_of selected.now.2) result.0.tags index
        result.0.opened) }
    ensures saved { OnOk result.1 ((D.device result.0.dir).is_honest
        → HasIndex (D.device result.0.dir).file result.0.graph result.0.tags result.0.opened) }
    ensures pruned { IfOk result.1 (IsCleanedCopySettled D.device is_exact goal.now destination
        result.0) }
    ensures stays { OnOk result.1 (KeepsReached destination.graph result.0.graph goal.now.0) }
    ensures held { OnOk result.1 (HasAll result.0.graph goal.now.0) }
    ensures only { OnOk result.1 (is_exact ≡ true
        → All (IsOfRoot goal.now.0) (said index.content).entries
        → HoldsOnlyReached result.0.graph goal.now.0) }
    ensures report { IfOk result.1 (λ done. copied ≡ Ok done.report) }
    ensures reached { KeepsReached destination.graph result.0.graph (values_of result.0.tags) }
    ensures closed { IsClosed destination.graph → IsClosed result.0.graph }
    ensures unsaved { OnErr copied (OnlyIndex destination result.0) }
    ensures remembered { OnErr copied (result.0.opened ≡ index) }
    ensures refused { IfErr result.1 (OrOtherIndex (D.device result.0.dir) seen.now.0
        (IsRefusedMirror
        (λ fault. (copied ≡ Err fault) ⊎ (IsOk copied × (fault ≡ CopyFault.Memory)))
        is_exact goal.now.0 (D.device destination.dir).failures (D.device result.0.dir)
        result.0)) }
    ensures left { (entries : List Entry) (tags : Tags)
        → CanCleanUp (D.device destination.dir) from destination.graph entries tags
        → LeavesOneOf (D.device result.0.dir) entries tags
        (⟦<Layout<D> as Store>⟧.state result.0).entries result.0.tags }
    ensures lasts { OnOk result.1 ((entries : List Entry) (tags : Tags)
        → CanCleanUp (D.device destination.dir) from destination.graph entries tags
        → Lasts (D.device result.0.dir) (⟦<Layout<D> as Store>⟧.state result.0).entries
        result.0.tags) }
{
    let mut destination = destination;
    destination.put_index(index);
    match copied {
        Ok(report) => {
            match settle_and_clean_up(
                alloc,
                &mut destination,
                seen,
                from,
                selected,
                goal,
                is_exact,
            ) {
                Ok(removed) => (destination, Ok(copied_of(report, removed))),
                Err(fault) => (destination, Err(fault)),
            }
        }
        Err(fault) => (destination, Err(ProgramFault::Copy(fault))),
    }
}

/// Returns what was copied and removed.
fn copied_of(report: Report, removed: CleanUp) -> Copied
    ensures report { result.report ≡ report }
    ensures removed { result.removed ≡ Some removed }
{
    Copied {
        report,
        removed: Some(removed),
    }
}

/// Returns the fault of a command that prunes its destination.
pub(crate) fn fault_of(fault: PruneFault) -> ProgramFault
    ensures { result ≡ of_prune fault }
{
    match fault {
        PruneFault::Layout(fault) => ProgramFault::Destination(fault),
        _ => ProgramFault::Prune(fault),
    }
}
