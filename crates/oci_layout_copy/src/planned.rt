//! What a mirror would remove, before there is one.
ghost use Rattle.std.specs.Prelude.{◌≡◌, ◌↔◌, true, Contains, IfOk, IfErr};
ghost use Rattle.std.specs.BTreeSet.{contains};
ghost use Rattle.oci_manifest.specs.Descriptor.{Descriptor, key_cmp};
ghost use Rattle.oci_copy.specs.Planned.{IsPlanOf};
ghost use Rattle.oci_layout_copy.specs.Goal.{Fits};
ghost use Rattle.oci_layout_copy.specs.Mirror.{IsWholeSource};
ghost use Rattle.oci_layout_copy.specs.PlannedMirror.{IsCopyAfter, IsPlannedCleanUp, IsRefusedPlan};

use crate::goal::Goal;
use crate::mirror::fault_of;
use crate::planning::plan_from;
use crate::retag::other_tags;
use oci_copy::Options;
use oci_digest::NoMemory;
use oci_dir::{Dir, PrunableDir};
use oci_layout_store::Layout;
use oci_manifest::Key;
use oci_plan::Plan;
use oci_program::ProgramFault;
use oci_prune::{PrunePlan, plan_prune_after};
use oci_selection::Selected;
use oci_store::Store;
use std::alloc::Global;
use std::collections::BTreeSet;

/// What `copy --all --prune` would remove from the destination.
#[derive(Drop)]
pub struct PlannedCleanUp {
    /// The tags that would go, in byte order, each with the key that it names.
    pub untagged: Vec<(String, Key)>,
    /// The plan of the prune.
    pub plan: PrunePlan,
}

/// Plans a mirror: the copy, and what the clean-up after it would remove. Changes nothing. The goal
/// fits the destination, as for [`mirror`](crate::mirror::mirror).
///
/// # Errors
///
/// - 75 `Corrupt`, 77 `BadManifest`, 80 `DestinationOpen` and 81 `Plan` if there is no plan of the copy.
/// - 96 `Unknown`, 73 `BadIndex`, 98 `LinkedBlobs`, 88 `Fetch`, 77 `BadManifest` and 74 `Device` if
///   the destination could not be pruned after the copy.
/// - Out of memory, at any point.
pub fn plan_mirror<S: Dir, D: PrunableDir>(
    alloc: Global,
    source: &Layout<S>,
    destination: &Layout<D>,
    selected: &Selected,
    goal: &Goal,
    is_exact: bool,
    options: &Options,
) -> Result<(Plan, PlannedCleanUp), ProgramFault>
    requires whole { IsWholeSource is_exact source.now }
    requires fits { Fits destination.now selected.now.0 goal.now.0 }
    ensures plan { IfOk result (λ it. IsPlanOf (⟦<Layout<S> as Store>⟧.state source.now)
        options.now (⟦<Layout<D> as Store>⟧.state destination.now) selected.now.0 it.0) }
    ensures planned { IfOk result (λ it. IsPlannedCleanUp (D.device destination.now.dir)
        (⟦<Layout<S> as Store>⟧.state source.now)
        (⟦<Layout<D> as Store>⟧.state destination.now) it.0.keys is_exact goal.now it.1) }
    ensures copied { IfOk result (λ it. IsCopyAfter (⟦<Layout<S> as Store>⟧.state source.now)
        (⟦<Layout<D> as Store>⟧.state destination.now) it.0.keys selected.now.0) }
{
    let plan = plan_from(alloc, source, destination, selected.roots(), options)?;
    let clean_up = plan_clean_up(alloc, source, destination, &plan, goal, is_exact)?;
    Ok((plan, clean_up))
}

/// Plans what the clean-up after a planned copy would remove.
///
/// # Errors
///
/// As of [`plan_mirror`], after the plan of the copy.
fn plan_clean_up<S: Dir, D: PrunableDir>(
    alloc: Global,
    source: &Layout<S>,
    destination: &Layout<D>,
    plan: &Plan,
    goal: &Goal,
    is_exact: bool,
) -> Result<PlannedCleanUp, ProgramFault>
    ensures planned { IfOk result (IsPlannedCleanUp (D.device destination.now.dir)
        (⟦<Layout<S> as Store>⟧.state source.now)
        (⟦<Layout<D> as Store>⟧.state destination.now) plan.now.keys is_exact goal.now) }
    ensures refused { IfErr result (IsRefusedPlan (D.device destination.now.dir)
        destination.now.opened (⟦<Layout<S> as Store>⟧.state source.now)
        (⟦<Layout<D> as Store>⟧.state destination.now) plan.now.keys is_exact goal.now.0) }
{
    let untagged = other_tags(alloc, &destination.tags()?, goal.tags())?;
    let arriving = set_of_keys(alloc, plan.keys())?;
    let roots = goal.roots();
    match plan_prune_after(alloc, source, destination, &arriving, roots, !is_exact) {
        Ok(plan) => Ok(PlannedCleanUp { untagged, plan }),
        Err(fault) => Err(fault_of(fault)),
    }
}

/// Returns the set of these keys.
fn set_of_keys(alloc: Global, keys: &[Key]) -> Result<BTreeSet<Key>, NoMemory>
    ensures { IfOk result (λ set. (k : Descriptor) → (contains key_cmp set k ≡ true)
        ↔ Contains keys.now k) }
{
    let mut set = BTreeSet::new(alloc);
    for key in keys {
        set.insert(key.try_clone()?)?;
    }
    Ok(set)
}
