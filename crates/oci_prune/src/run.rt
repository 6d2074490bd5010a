ghost use Rattle.std.specs.Prelude.{◌≡◌, ◌≢◌, ◌⊎◌, ◌↔◌, [], true, false, None, Some, Err, ℕ, List, filter, map, replicate, length, IfSome, IfOk, IfErr, IsOk, OnOk, OnErr};
ghost use Rattle.std.specs.BTreeSet.{contains};
ghost use Rattle.std.specs.List.{All};
ghost use Rattle.oci_manifest.specs.Descriptor.{key_cmp};
ghost use Rattle.std.specs.Map.{keys_of};
ghost use Rattle.oci_store.specs.Closed.{IsClosed};
ghost use Rattle.oci_store.specs.Content.{Entry};
ghost use Rattle.oci_store.specs.Keyed.{HasAll};
ghost use Rattle.oci_store.specs.Tags.{Tags};
ghost use Rattle.oci_layout_store.specs.Blobs.{IsSound, stored};
ghost use Rattle.oci_layout_store.specs.Index.{index_file, HasIndex};
ghost use Rattle.oci_layout_store.specs.Lasts.{Lasts};
ghost use Rattle.oci_dir.specs.Prunable.{by_name};
ghost use Rattle.oci_prune.specs.Plan.{AreRemoved, AreUnneeded, IsPrunePlan, roots_of};
ghost use Rattle.oci_prune.specs.Pruned.{is_gone, kept_of, AllAmong, AreDraftsGone, HasOnlyNeeded, IsGone, IsPathAmong, IsPlanned, IsPlannedUnheld, IsSaved, IsTouchedBy, IsTouchedUnsaved, KeepsReached, OnlyIndex, OnSaved, Removal, RemovesDrafts, Spares, StaysOrDrops, flagged};
ghost use Rattle.oci_prune.specs.Refusal.{IsDeviceFault, IsRemovalFault, MayNotSave};
ghost use Rattle.oci_prune.specs.Settled.{CanSettle, LeavesOneOf};

use crate::plan::PrunePlan;
use crate::removal::{remove_drafts, remove_files};
use crate::save::save_only;
use oci_digest::NoMemory;
use oci_dir::PrunableDir;
use oci_layout_store::Layout;
use oci_prune_fault::PruneFault;
use oci_store::{Dest, Store};
use std::alloc::Global;

/// What a prune removed.
#[derive(Drop)]
pub struct Pruned {
    /// Why the index is not saved without the keys that go, if it is not: 74 `Device`, or 89 `Memory`.
    /// The files of these keys are then still there.
    pub saved: Result<(), PruneFault>,
    /// Whether each file of the plan was removed, in the order of the plan.
    pub files: Vec<bool>,
    /// Whether each draft of the plan was removed, in the order of the plan.
    pub drafts: Vec<bool>,
    /// The first fault, if a file or a draft could not be removed: 79 `NotRemoved`, or 89 `Memory`.
    pub fault: Option<PruneFault>,
}

impl Pruned {
    /// Returns what was removed, if the index is saved, or need not be.
    ///
    /// # Errors
    ///
    /// Why it is not saved: 74 `Device`, or 89 `Memory`.
    pub fn into_saved(self) -> Result<Pruned, PruneFault>
        ensures same { IfOk result (λ done. done ≡ self) }
        ensures saved { OnOk result (IsOk self.saved) }
        ensures unsaved { IfErr result (λ e. self.saved ≡ Err e) }
    {
        let Pruned {
            saved,
            files,
            drafts,
            fault,
        } = self;
        match saved {
            Ok(()) => Ok(Pruned {
                saved: Ok(()),
                files,
                drafts,
                fault,
            }),
            Err(unsaved) => Err(unsaved),
        }
    }

    /// Returns why not all that was planned was removed, if so: why the index is not saved, or else the
    /// first fault of a removal.
    pub fn into_fault(self) -> Option<PruneFault>
        ensures saved { IsOk self.saved → result ≡ self.fault }
        ensures unsaved { IfErr self.saved (λ e. result ≡ Some e) }
    {
        match self.into_saved() {
            Ok(done) => done.fault,
            Err(unsaved) => Some(unsaved),
        }
    }
}

/// Prunes a layout by a plan of it. Removes the files that no held key has, and the drafts. Then drops
/// the keys that are not kept, saves the index and waits until it is on the disk, and removes the
/// files of these keys. If no key goes, the index is not written.
///
/// No index needs what is removed first, so on a full disk it makes room for the new one.
///
/// A power cut at any moment leaves the layout that was saved before, or the pruned one. For that the
/// saved index has to be on the disk, as after
/// [`settle_index`](oci_layout_store::Layout::settle_index). The layout has to hold all that was saved, and
/// each file of a key that was not saved has to be on the disk, as after
/// [`settle_blobs`](oci_layout_store::Layout::settle_blobs).
///
/// A file that cannot be removed does not keep the others from being removed (tested).
/// [`Pruned::fault`](crate::Pruned) has the first such fault. If the index cannot be saved,
/// [`Pruned::saved`](crate::Pruned) has the fault: 74 `Device` if `index.json` could not be written,
/// or if it is not known whether it is on the disk, and 89 `Memory`. The file of each key that was
/// held is then there. The layout in memory holds the same keys as before, or only the kept ones.
/// `index.json` has its old bytes or the kept keys. After a failed sync the old ones may be back if
/// the machine stops, so the index has to be settled before the layout is pruned again.
///
/// # Errors
///
/// 89 `Memory` if memory runs out before anything is removed. Nothing is then changed.
pub fn prune<D: PrunableDir>(
    alloc: Global,
    layout: &mut Layout<D>,
    plan: &PrunePlan,
) -> Result<Pruned, PruneFault>
    requires { IsPrunePlan (D.device layout.old.dir) layout.old.graph (roots_of layout.old)
        plan.now }

    // What the tags and the entries that they hide need stays, whatever the result.
    ensures tags { layout.new.tags ≡ layout.old.tags }
    ensures opened { layout.new.opened ≡ layout.old.opened }
    // The layout holds the same keys as before, or the kept ones.
    ensures either { (layout.new.graph ≡ layout.old.graph)
        ⊎ (layout.new.graph ≡ kept_of plan.now.kept layout.old.graph) }
    ensures reached { KeepsReached layout.old.graph layout.new.graph (roots_of layout.old) }
    ensures closed { IsClosed layout.old.graph → IsClosed layout.new.graph }
    ensures sound { IsSound (D.device layout.old.dir).is_honest (D.device layout.old.dir).file
        layout.old.graph
        → IsSound (D.device layout.new.dir).is_honest (D.device layout.new.dir).file
        layout.new.graph }
    ensures honest { (D.device layout.old.dir).is_honest ↔ (D.device layout.new.dir).is_honest }

    // The kept keys with their bytes stay, and nothing else.
    ensures kept { OnSaved result (layout.new.graph ≡ kept_of plan.now.kept layout.old.graph) }
    ensures contents { OnSaved result ((D.device layout.old.dir).is_honest
        → stored (D.device layout.new.dir).file layout.new.graph
        ≡ filter (λ e. contains key_cmp plan.now.kept e.0)
        (stored (D.device layout.old.dir).file layout.old.graph)) }
    ensures files { IfOk result (λ done. IsOk done.saved → done.fault ≡ None
        → (D.device layout.old.dir).is_honest
        → HasOnlyNeeded (D.device layout.new.dir).file layout.new.graph) }
    ensures drafts { IfOk result (λ done. IsOk done.saved → done.fault ≡ None
        → (D.device layout.old.dir).is_honest
        → AreDraftsGone (D.device layout.new.dir).draft (by_name plan.now.drafts.items)) }
    ensures other { (D.device layout.old.dir).is_honest → (path : List ℕ)
        → (IsTouchedBy plan.now path → ⊥)
        → (D.device layout.new.dir).file path ≡ (D.device layout.old.dir).file path }
    ensures index { OnSaved result (plan.now.removed.items ≢ []
        → (D.device layout.old.dir).is_honest → HasIndex (D.device layout.new.dir).file
        layout.new.graph layout.new.tags layout.new.opened) }
    ensures unwritten { plan.now.removed.items ≡ [] → (D.device layout.old.dir).is_honest
        → (D.device layout.new.dir).file index_file ≡ (D.device layout.old.dir).file index_file }
    ensures failures { OnSaved result ((D.device layout.new.dir).failures
        ≡ (D.device layout.old.dir).failures) }

    // Exactly the drafts whose flags are true went.
    ensures draft_flags { IfOk result (λ done. IsOk done.saved
        → (D.device layout.old.dir).is_honest → RemovesDrafts
        (D.device layout.old.dir).draft (D.device layout.new.dir).draft
        (flagged (by_name plan.now.drafts.items) done.drafts.items)) }

    // Also if the index is not saved, the files that no held key has go.
    ensures unheld { IfOk result (λ done. done.fault ≡ None
        → (D.device layout.old.dir).is_honest
        → AllAmong false (IsGone (D.device layout.new.dir).file) plan.now.files.items) }

    // If the index is not saved, each key that was held keeps its file.
    ensures unsaved { IfOk result (λ done. OnErr done.saved (Spares (D.device layout.old.dir)
        (D.device layout.new.dir) layout.old.graph (IsTouchedUnsaved plan.now))) }
    ensures unsaved_cause { IfOk result (λ done. IfErr done.saved (IsDeviceFault
        (MayNotSave (D.device layout.old.dir) (D.device layout.new.dir)))) }
    ensures refused { OnErr result (layout.new ≡ layout.old) }
    ensures cause { IfErr result (λ e. e ≡ PruneFault.Memory) }
    ensures faults { IfOk result (λ done. IfSome done.fault
        (IsRemovalFault (D.device layout.old.dir) (IsPlanned plan.now))) }
    ensures flags { IfOk result (λ done. (D.device layout.old.dir).is_honest
        → done.files.items ≡ map (is_gone (D.device layout.new.dir).file) plan.now.files.items) }
    ensures noted { IfOk result (λ done. (length done.files.items ≡ length plan.now.files.items)
        × (length done.drafts.items ≡ length plan.now.drafts.items)) }

    // A power cut at any moment leaves what was saved before, or the pruned layout.
    ensures left { (entries : List Entry) (tags : Tags) → CanSettle (D.device layout.old.dir)
        (length layout.old.graph) layout.old.graph entries tags
        → HasAll layout.old.graph (keys_of entries) → LeavesOneOf (D.device layout.new.dir)
        entries tags (⟦<Layout<D> as Store>⟧.state layout.new).entries layout.new.tags }
    ensures lasts { OnSaved result (plan.now.removed.items ≢ [] → (entries : List Entry)
        (tags : Tags) → CanSettle (D.device layout.old.dir) (length layout.old.graph)
        layout.old.graph entries tags → HasAll layout.old.graph (keys_of entries)
        → Lasts (D.device layout.new.dir)
        (⟦<Layout<D> as Store>⟧.state layout.new).entries layout.new.tags) }
    ensures stays { OnOk result (plan.now.removed.items ≡ [] → (entries : List Entry)
        (tags : Tags) → HasAll layout.old.graph (keys_of entries)
        → Lasts (D.device layout.old.dir) entries tags
        → Lasts (D.device layout.new.dir) entries tags) }
{
    let mut files = flags(alloc, plan.files.len())?;
    let mut drafts = flags(alloc, plan.drafts.len())?;
    // The contract of `count` states that no key occurs twice, from which the clause `closed`
    // follows.
    let _ = layout.count();
    let mut fault = remove_unheld(alloc, layout, plan, &mut files, &mut drafts);
    match save_kept(layout, plan) {
        Ok(()) => {
            remove_files(alloc, layout, &plan.files, true, &mut files, &mut fault);
            Ok(Pruned {
                saved: Ok(()),
                files,
                drafts,
                fault,
            })
        }
        Err(refused) => Ok(Pruned {
            saved: Err(refused),
            files,
            drafts,
            fault,
        }),
    }
}

/// Returns as many flags that are false.
pub(crate) fn flags(alloc: Global, count: usize) -> Result<Vec<bool>, NoMemory>
    ensures { IfOk result (λ flags. flags.items ≡ replicate count false) }
{
    Ok(vec![in alloc; false; count]?)
}

/// Removes the files of a plan that no held key has, and its drafts, and notes which of them were
/// removed. Returns the first fault.
///
/// No entry of the index needs them, so they go before it is saved.
fn remove_unheld<D: PrunableDir>(
    alloc: Global,
    layout: &mut Layout<D>,
    plan: &PrunePlan,
    files: &mut Vec<bool>,
    drafts: &mut Vec<bool>,
) -> Option<PruneFault>
    requires planned { (D.device layout.old.dir).is_honest
        → AreUnneeded (D.device layout.old.dir).file layout.old.graph
        (stored (D.device layout.old.dir).file layout.old.graph) plan.now.kept
        plan.now.files.items }
    requires files { length files.old.items ≡ length plan.now.files.items }
    requires drafts { length drafts.old.items ≡ length plan.now.drafts.items }
    ensures removal { Removal D.device layout.old layout.new
        (IsPathAmong false plan.now.files.items) (IsPlannedUnheld plan.now) None result }
    ensures removed { result ≡ None → (D.device layout.old.dir).is_honest
        → AllAmong false (IsGone (D.device layout.new.dir).file) plan.now.files.items }
    ensures gone { result ≡ None → (D.device layout.old.dir).is_honest
        → AreDraftsGone (D.device layout.new.dir).draft (by_name plan.now.drafts.items) }
    ensures flags { (D.device layout.old.dir).is_honest
        → files.old.items ≡ map (is_gone (D.device layout.old.dir).file) plan.now.files.items
        → files.new.items ≡ map (is_gone (D.device layout.new.dir).file) plan.now.files.items }
    ensures went { (D.device layout.old.dir).is_honest → RemovesDrafts
        (D.device layout.old.dir).draft (D.device layout.new.dir).draft
        (flagged (by_name plan.now.drafts.items) drafts.new.items) }
    ensures files { length files.new.items ≡ length plan.now.files.items }
    ensures drafts { length drafts.new.items ≡ length plan.now.drafts.items }
    ensures lasts { (entries : List Entry) (tags : Tags)
        → HasAll layout.old.graph (keys_of entries) → Lasts (D.device layout.old.dir) entries tags
        → Lasts (D.device layout.new.dir) entries tags }
{
    let mut fault = None;
    remove_files(alloc, layout, &plan.files, false, files, &mut fault);
    remove_drafts(alloc, layout, &plan.drafts, drafts, &mut fault);
    fault
}

/// Drops the keys that are not kept from a layout, and saves its index. Does not write it if all
/// held keys are kept. The index is on the disk before a blob is removed.
fn save_kept<D: PrunableDir>(layout: &mut Layout<D>, plan: &PrunePlan) -> Result<(), PruneFault>
    requires rooted { All (λ k. contains key_cmp plan.now.kept k ≡ true) (roots_of layout.old) }
    requires removed { AreRemoved layout.old.graph plan.now.kept plan.now.removed.items }
    ensures stays { StaysOrDrops plan.now.kept layout.old layout.new }
    ensures only { OnlyIndex D.device layout.old layout.new }
    ensures saved { OnOk result (IsSaved D.device layout.old layout.new plan.now) }
    ensures unwritten { plan.now.removed.items ≡ [] → layout.new ≡ layout.old }
    ensures cause { IfErr result (IsDeviceFault (MayNotSave (D.device layout.old.dir)
        (D.device layout.new.dir))) }
    ensures left { (entries : List Entry) (tags : Tags) → CanSettle (D.device layout.old.dir)
        (length layout.old.graph) layout.old.graph entries tags
        → IsClosed (kept_of plan.now.kept layout.old.graph)
        → LeavesOneOf (D.device layout.new.dir) entries tags
        (stored (D.device layout.new.dir).file layout.new.graph) layout.new.tags }
    ensures lasts { OnOk result (plan.now.removed.items ≢ [] → (entries : List Entry)
        (tags : Tags) → CanSettle (D.device layout.old.dir) (length layout.old.graph)
        layout.old.graph entries tags → IsClosed (kept_of plan.now.kept layout.old.graph)
        → Lasts (D.device layout.new.dir)
        (stored (D.device layout.new.dir).file layout.new.graph) layout.new.tags) }
{
    if plan.removed.is_empty() {
        return Ok(());
    }
    save_only(layout, &plan.kept)?;
    Ok(())
}
