ghost use Rattle.std.specs.Prelude.{◌≡◌, List, [], drop, true, Ok, Err, map, Contains, IfOk, IfErr, OnOk};
ghost use Rattle.std.specs.List.{All};
ghost use Rattle.std.specs.Map.{values_of};
ghost use Rattle.oci_store.specs.Closed.{IsClosed};
ghost use Rattle.oci_store.specs.Content.{Entry};
ghost use Rattle.oci_store.specs.Keyed.{HasAll};
ghost use Rattle.oci_store.specs.Tags.{Tags};
ghost use Rattle.oci_layout_store.specs.Brought.{Brings};
ghost use Rattle.oci_layout_store.specs.Entries.{entry_of, said};
ghost use Rattle.oci_layout_store.specs.Index.{index_file, HasIndex};
ghost use Rattle.oci_prune.specs.Plan.{roots_of, roots_with};
ghost use Rattle.oci_prune.specs.Pruned.{KeepsReached};
ghost use Rattle.oci_layout_copy.specs.Mirror.{HoldsOnlyReached, IsCleaned, IsCleanedSettled, IsPruned, IsRefusedMirror};
ghost use Rattle.oci_selection.specs.Selected.{set_tags, IsOfRoot};
ghost use Rattle.oci_layout_store.specs.Lasts.{Lasts};
ghost use Rattle.oci_prune.specs.Settled.{LeavesOneOf};
ghost use Rattle.oci_layout_copy.specs.Settled.{AreSettled, CanCleanUp};
ghost use Rattle.oci_program.specs.SeenIndex.{OrOtherIndex};

use crate::goal::Goal;
use crate::mirror::fault_of;
use crate::retag::retag;
use oci_copy::CopyFault;
use oci_dir::PrunableDir;
use oci_layout_store::Layout;
use oci_manifest::Key;
use oci_program::{ProgramFault, SeenIndex};
use oci_prune::{PrunePlan, Pruned, plan_prune_keeping, prune};
use oci_selection::Selected;
use oci_store::Store;
use std::alloc::Global;

/// What `copy --all --prune` removed from the destination.
#[derive(Drop)]
pub struct CleanUp {
    /// The removed tags, in byte order, each with the key that it named.
    pub untagged: Vec<(String, Key)>,
    /// The plan of the prune.
    pub plan: PrunePlan,
    /// The files that went.
    pub pruned: Pruned,
}

/// Waits until the copied blobs are on the disk, and cleans the layout up. The keys from the place
/// `from` on were copied.
///
/// # Errors
///
/// As of [`mirror`](crate::mirror::mirror), after the copy.
pub(crate) fn settle_and_clean_up<D: PrunableDir>(
    alloc: Global,
    destination: &mut Layout<D>,
    seen: &SeenIndex,
    from: usize,
    selected: &Selected,
    goal: &Goal,
    is_exact: bool,
) -> Result<CleanUp, ProgramFault>
    requires held { HasAll destination.old.graph goal.now.0 }
    requires roots { All (Contains goal.now.0) selected.now.0 }
    ensures tags { OnOk result (destination.new.tags ≡ set_tags [] goal.now.1) }
    ensures brought { OnOk result (Brings (map entry_of selected.now.2) destination.new.tags
        destination.old.opened destination.new.opened) }
    ensures saved { OnOk result ((D.device destination.new.dir).is_honest
        → HasIndex (D.device destination.new.dir).file destination.new.graph
        destination.new.tags destination.new.opened) }
    ensures pruned { IfOk result (IsCleanedSettled D.device is_exact goal.now destination.old
        destination.new) }
    ensures stays { OnOk result (KeepsReached destination.old.graph destination.new.graph
        goal.now.0) }
    ensures held { OnOk result (HasAll destination.new.graph goal.now.0) }
    ensures only { OnOk result (is_exact ≡ true
        → All (IsOfRoot goal.now.0) (said destination.old.opened.content).entries
        → HoldsOnlyReached destination.new.graph goal.now.0) }
    ensures reached { KeepsReached destination.old.graph destination.new.graph
        (values_of destination.new.tags) }
    ensures closed { IsClosed destination.old.graph → IsClosed destination.new.graph }
    ensures refused { IfErr result (OrOtherIndex (D.device destination.new.dir) seen.now.0
        (IsRefusedMirror (λ fault. fault ≡ CopyFault.Memory)
        is_exact goal.now.0 (D.device destination.old.dir).failures
        (D.device destination.new.dir) destination.new)) }
    ensures left { (entries : List Entry) (tags : Tags)
        → CanCleanUp (D.device destination.old.dir) from destination.old.graph entries tags
        → LeavesOneOf (D.device destination.new.dir) entries tags
        (⟦<Layout<D> as Store>⟧.state destination.new).entries destination.new.tags }
    ensures lasts { OnOk result ((entries : List Entry) (tags : Tags)
        → CanCleanUp (D.device destination.old.dir) from destination.old.graph entries tags
        → Lasts (D.device destination.new.dir)
        (⟦<Layout<D> as Store>⟧.state destination.new).entries destination.new.tags) }
{
    match destination.settle_blobs(from) {
        Ok(()) => clean_up(alloc, destination, seen, from, selected, goal, is_exact),
        Err(fault) => Err(ProgramFault::Destination(fault)),
    }
}

/// Sets the tags of a goal in a layout that holds their keys, removes all others, brings the selected
/// entries, saves it, and removes what no tag needs, if the index is what was seen.
///
/// # Errors
///
/// As of [`mirror`](crate::mirror::mirror), after the copy.
fn clean_up<D: PrunableDir>(
    alloc: Global,
    destination: &mut Layout<D>,
    seen: &SeenIndex,
    from: usize,
    selected: &Selected,
    goal: &Goal,
    is_exact: bool,
) -> Result<CleanUp, ProgramFault>
    requires held { HasAll destination.old.graph goal.now.0 }
    requires roots { All (Contains goal.now.0) selected.now.0 }
    ensures seen { OnOk result ((D.device destination.old.dir).is_honest
        → (D.device destination.old.dir).file index_file ≡ seen.now.0) }
    ensures tags { OnOk result (destination.new.tags ≡ set_tags [] goal.now.1) }
    ensures brought { OnOk result (Brings (map entry_of selected.now.2) destination.new.tags
        destination.old.opened destination.new.opened) }
    ensures saved { OnOk result ((D.device destination.new.dir).is_honest
        → HasIndex (D.device destination.new.dir).file destination.new.graph
        destination.new.tags destination.new.opened) }
    ensures pruned { IfOk result (IsCleaned D.device is_exact goal.now destination.old
        destination.new) }
    ensures stays { OnOk result (KeepsReached destination.old.graph destination.new.graph
        goal.now.0) }
    ensures held { OnOk result (HasAll destination.new.graph goal.now.0) }
    ensures only { OnOk result (is_exact ≡ true
        → All (IsOfRoot goal.now.0) (said destination.old.opened.content).entries
        → HoldsOnlyReached destination.new.graph goal.now.0) }
    ensures reached { KeepsReached destination.old.graph destination.new.graph
        (values_of destination.new.tags) }
    ensures closed { IsClosed destination.old.graph → IsClosed destination.new.graph }
    ensures refused { IfErr result (OrOtherIndex (D.device destination.new.dir) seen.now.0
        (IsRefusedMirror (λ fault. fault ≡ CopyFault.Memory)
        is_exact goal.now.0 (D.device destination.old.dir).failures
        (D.device destination.new.dir) destination.new)) }
    ensures left { (entries : List Entry) (tags : Tags)
        → CanCleanUp (D.device destination.old.dir) from destination.old.graph entries tags
        → AreSettled (D.device destination.old.dir) (drop from destination.old.graph)
        → LeavesOneOf (D.device destination.new.dir) entries tags
        (⟦<Layout<D> as Store>⟧.state destination.new).entries destination.new.tags }
    ensures lasts { OnOk result ((entries : List Entry) (tags : Tags)
        → CanCleanUp (D.device destination.old.dir) from destination.old.graph entries tags
        → AreSettled (D.device destination.old.dir) (drop from destination.old.graph)
        → Lasts (D.device destination.new.dir)
        (⟦<Layout<D> as Store>⟧.state destination.new).entries destination.new.tags) }
{
    seen.check(destination.dir())?;
    let untagged = retag(alloc, destination, goal)?;
    destination.bring(selected.entries())?;
    match prune_and_save(alloc, destination, from, goal.roots(), is_exact) {
        Ok((plan, pruned)) => Ok(CleanUp {
            untagged,
            plan,
            pruned,
        }),
        Err(fault) => Err(fault),
    }
}

/// Removes what no tag of a layout needs, and saves it; if the mirror is exact, what neither a tag nor
/// one of these roots reaches. Returns the plan, and what was removed. The keys before the place
/// `from` were saved before.
fn prune_and_save<D: PrunableDir>(
    alloc: Global,
    destination: &mut Layout<D>,
    from: usize,
    roots: &[Key],
    is_exact: bool,
) -> Result<(PrunePlan, Pruned), ProgramFault>
    ensures tags { destination.new.tags ≡ destination.old.tags }
    ensures opened { destination.new.opened ≡ destination.old.opened }
    ensures pruned { IfOk result (λ done. IsPruned D.device is_exact roots.now destination.old
        destination.new done.0 done.1) }
    ensures stays { OnOk result (KeepsReached destination.old.graph destination.new.graph
        (roots_with destination.old roots.now)) }
    ensures only { OnOk result (is_exact ≡ true → HoldsOnlyReached destination.new.graph
        (roots_with destination.old roots.now)) }
    ensures saved { OnOk result ((D.device destination.new.dir).is_honest
        → HasIndex (D.device destination.new.dir).file destination.new.graph
        destination.new.tags destination.new.opened) }
    ensures reached { KeepsReached destination.old.graph destination.new.graph
        (roots_of destination.old) }
    ensures closed { IsClosed destination.old.graph → IsClosed destination.new.graph }
    ensures refused { IfErr result (IsRefusedMirror (λ fault. fault ≡ CopyFault.Memory)
        is_exact roots.now (D.device destination.old.dir).failures
        (D.device destination.new.dir) destination.new) }
    ensures left { (entries : List Entry) (tags : Tags)
        → CanCleanUp (D.device destination.old.dir) from destination.old.graph entries tags
        → AreSettled (D.device destination.old.dir) (drop from destination.old.graph)
        → LeavesOneOf (D.device destination.new.dir) entries tags
        (⟦<Layout<D> as Store>⟧.state destination.new).entries destination.new.tags }
    ensures lasts { OnOk result ((entries : List Entry) (tags : Tags)
        → CanCleanUp (D.device destination.old.dir) from destination.old.graph entries tags
        → AreSettled (D.device destination.old.dir) (drop from destination.old.graph)
        → Lasts (D.device destination.new.dir)
        (⟦<Layout<D> as Store>⟧.state destination.new).entries destination.new.tags) }
{
    let plan = match plan_prune_keeping(alloc, destination, roots, !is_exact) {
        Ok(plan) => plan,
        Err(fault) => return Err(fault_of(fault)),
    };
    let pruned = match prune(alloc, destination, &plan) {
        Ok(pruned) => pruned,
        Err(fault) => return Err(fault_of(fault)),
    };
    let pruned = match pruned.into_saved() {
        Ok(pruned) => pruned,
        Err(fault) => return Err(fault_of(fault)),
    };
    // A prune saves the layout, before it removes a file, only if it drops a key. If it does not,
    // it removes only files that the old index does not need either.
    if plan.removed.is_empty()
        && let Err(fault) = destination.save_settled(from)
    {
        return Err(ProgramFault::Destination(fault));
    }
    Ok((plan, pruned))
}
