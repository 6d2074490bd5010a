ghost use Rattle.std.specs.Prelude.{◌≡◌, [], true, ℕ, List, None, length, IfErr, IfOk, IfSome, IsOk, OnErr};
ghost use Rattle.oci_dir.specs.Device.{Same};
ghost use Rattle.oci_layout_store.specs.Lasts.{Lasts};
ghost use Rattle.oci_layout_store.specs.Layout.{SameMemory};
ghost use Rattle.oci_dir.specs.Prunable.{by_name};
ghost use Rattle.oci_prune.specs.Plan.{IsLeftoverPlan};
ghost use Rattle.oci_prune.specs.Pruned.{AreDraftsGone, IsDraftIn, RemovesDrafts, flagged};
ghost use Rattle.oci_prune.specs.Refusal.{IsDeviceFault, IsRemovalFault};
ghost use Rattle.oci_store.specs.Content.{Entry};
ghost use Rattle.oci_store.specs.Tags.{Tags};

use crate::after::add_keys;
use crate::held::held_keys;
use crate::plan::PrunePlan;
use crate::removal::remove_drafts;
use crate::run::{Pruned, flags};
use oci_digest::NoMemory;
use oci_dir::PrunableDir;
use oci_layout_store::Layout;
use oci_prune_fault::PruneFault;
use std::alloc::Global;
use std::collections::BTreeSet;

/// Plans to remove from a layout the drafts that killed processes left, and nothing else. All held
/// keys are kept. Changes nothing. The layout needs no tag.
///
/// # Errors
///
/// - 74 `Device` if a folder or a draft cannot be read.
/// - 89 `Memory` if memory runs out.
pub fn plan_leftovers<D: PrunableDir>(
    alloc: Global,
    layout: &Layout<D>,
) -> Result<PrunePlan, PruneFault>
    ensures planned { IfOk result (IsLeftoverPlan (D.device layout.now.dir) layout.now.graph) }
    ensures cause { IfErr result (IsDeviceFault ((D.device layout.now.dir).fails_reads ≡ true)) }
{
    let mut kept = BTreeSet::new(alloc);
    add_keys(&held_keys(alloc, layout)?, &mut kept)?;
    let drafts = layout.leftovers()?;
    Ok(PrunePlan {
        kept,
        removed: Vec::new(alloc),
        files: Vec::new(alloc),
        drafts,
    })
}

/// Removes from a layout the drafts of a plan, and nothing else, whatever else is planned. The index
/// is not written.
///
/// A draft that cannot be removed does not keep the others from being removed (tested of
/// [`prune`](crate::prune), which removes drafts by the same function).
/// [`Pruned::fault`](crate::Pruned) has the first such fault.
///
/// # Errors
///
/// `NoMemory` if memory runs out before anything is removed.
pub fn prune_leftovers<D: PrunableDir>(
    alloc: Global,
    layout: &mut Layout<D>,
    plan: &PrunePlan,
) -> Result<Pruned, NoMemory>
    ensures memory { SameMemory layout.old layout.new }
    ensures files { (D.device layout.old.dir).is_honest
        → Same (D.device layout.old.dir).file (D.device layout.new.dir).file }
    ensures gone { IfOk result (λ done. done.fault ≡ None → (D.device layout.old.dir).is_honest
        → AreDraftsGone (D.device layout.new.dir).draft (by_name plan.now.drafts.items)) }
    ensures flags { IfOk result (λ done. (D.device layout.old.dir).is_honest → RemovesDrafts
        (D.device layout.old.dir).draft (D.device layout.new.dir).draft
        (flagged (by_name plan.now.drafts.items) done.drafts.items)) }
    ensures faults { IfOk result (λ done. IfSome done.fault
        (IsRemovalFault (D.device layout.old.dir) (IsDraftIn (by_name plan.now.drafts.items)))) }
    ensures saved { IfOk result (λ done. IsOk done.saved) }
    ensures noted { IfOk result (λ done. (done.files.items ≡ [])
        × (length done.drafts.items ≡ length plan.now.drafts.items)) }
    ensures lasts { (entries : List Entry) (tags : Tags)
        → Lasts (D.device layout.old.dir) entries tags
        → Lasts (D.device layout.new.dir) entries tags }
    ensures refused { OnErr result (layout.new ≡ layout.old) }
{
    let mut drafts = flags(alloc, plan.drafts.len())?;
    let mut fault = None;
    remove_drafts(alloc, layout, &plan.drafts, &mut drafts, &mut fault);
    Ok(Pruned {
        saved: Ok(()),
        files: Vec::new(alloc),
        drafts,
        fault,
    })
}
