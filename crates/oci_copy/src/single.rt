ghost use Rattle.std.specs.Prelude.{◌≡◌, OnOk, IfOk, IfErr, ◌+◌, length, Contains};
ghost use Rattle.oci_manifest.specs.Descriptor.{Descriptor};
ghost use Rattle.oci_store.specs.Keyed.{HasAll};
ghost use Rattle.oci_copy.specs.Brought.{CanBring, CanBringByParts, IsBrought};
ghost use Rattle.oci_copy.specs.Cause.{IsRefusal, IsTurnCause};
ghost use Rattle.oci_copy.specs.Copy.{IsCopy, OnlyGrows, Spares};
ghost use Rattle.oci_copy.specs.Kept.{Keeps};
ghost use Rattle.oci_copy.specs.Plain.{IsUnfailing, RefusedForPlan};
ghost use Rattle.oci_copy.specs.Planned.{CanPush};

use crate::fault::CopyFault;
use crate::fetching::{draft_planned, fetch_planned, goes_by_parts, push_fault};
use crate::options::Options;
use crate::planning::plan_copy;
use crate::report::{Report, report_of};
use oci_manifest::Key;
use oci_plan::Plan;
use oci_store::{Dest, Source};
use std::alloc::Global;

/// Copies the keys that the source reaches from some roots, on the calling thread (oras-go v2,
/// "CopyGraph").
///
/// The destination is always returned. It gains each key that the source reaches from a root along
/// keys that the destination lacks. It keeps all its keys and its tags. A key that it has is
/// assumed to have all that it lists, so the destination has to be closed. With `Existing::Descend`
/// it need not be: it gains each key that the source reaches from a root and that it lacks.
///
/// Each manifest is fetched once for the plan, and each key once for its push. Contents are shared
/// and not copied.
///
/// # Errors
///
/// In this order:
///
/// - 80 `DestinationOpen` if held keys are skipped and the destination is not closed.
/// - 81 `Plan` if the plan is refused.
/// - 88 `Fetch`, 82 `Push` or 83 `Stuck` of the first key, in the order of the plan, that cannot be
///   pushed.
///
/// 86 `Memory` can be returned at any point. After 80 and 81 nothing is changed. After 82, 83, 86
/// and 88 the keys pushed before stay, each with all that it lists, so a closed destination is
/// still closed.
pub fn copy_one<A: Source, D: Dest>(
    alloc: Global,
    source: &A,
    destination: D,
    roots: &[Key],
    options: &Options,
) -> (D, Result<Report, CopyFault>)
    ensures copied { IfOk result.1 (IsCopy D.shares options.now (A.state source.now)
        (D.state destination) roots.now (D.state result.0)) }
    ensures grows { OnlyGrows D.shares (A.state source.now) (D.state destination) roots.now
        (D.state result.0) }
    ensures spared { Spares D.state destination result.0 result.1 }
    ensures refused { IfErr result.1 (IsRefusal (IsTurnCause (D.state result.0)) options.now
        (A.state source.now) (D.state destination) roots.now) }
    ensures plain { IfErr result.1 (λ fault. IsUnfailing options.now.existing (A.state source.now)
        (D.state destination) (D.state result.0)
        → RefusedForPlan (A.state source.now).entries options.now (D.state destination).nodes
        roots.now fault) }
{
    let plan = match plan_copy(alloc, source, &destination, roots, options) {
        Ok(plan) => plan,
        Err(fault) => return (destination, Err(fault)),
    };
    let mut destination = destination;
    match push_all(source, &mut destination, &plan) {
        Ok(()) => (destination, Ok(report_of(&plan))),
        Err(fault) => (destination, Err(fault)),
    }
}

/// Pushes the planned keys in the plan's order, up to the first that is refused.
pub(crate) fn push_all<A: Source, D: Dest>(
    source: &A,
    destination: &mut D,
    plan: &Plan,
) -> Result<(), CopyFault>
    requires { CanPush (A.state source.now) (D.state destination.old) plan.now }
    ensures held { OnOk result (HasAll (D.state destination.new).nodes plan.now.keys) }
    ensures count { OnOk result (length (D.state destination.new).nodes ≡ length
        (D.state destination.old).nodes + length plan.now.keys) }
    ensures keeps { Keeps D.shares (A.state source.now) plan.now.keys (D.state destination.old)
        (D.state destination.new) }
    ensures cause { IfErr result (λ fault. (k : Descriptor) × Contains plan.now.keys k
        × IsTurnCause (D.state destination.new) (A.state source.now) (D.state destination.old) k
        fault) }
{
    for place in 0..plan.len() {
        let Some(key) = plan.key_in_order(place) else {
            unreachable!()
        };
        push_planned(source, destination, key)?;
    }
    Ok(())
}

/// Fetches a planned key and pushes it. The keys that it lists are pushed before.
pub(crate) fn push_planned<A: Source, D: Dest>(
    source: &A,
    destination: &mut D,
    key: &Key,
) -> Result<(), CopyFault>
    requires { CanBring (A.state source.now) (D.state destination.old) key.now }
    ensures { IsBrought D.state D.shares (A.state source.now) (D.state destination.old)
        (D.state destination.new) key.now result }
{
    if goes_by_parts(source, key) {
        return push_parts(source, destination, key);
    }
    let content = fetch_planned(source, key)?;
    match destination.push_checked(content) {
        Ok(_) => Ok(()),
        Err(fault) => Err(push_fault(key, fault)),
    }
}

/// Like `push_planned`, for a key that lists nothing and is read part by part.
fn push_parts<A: Source, D: Dest>(
    source: &A,
    destination: &mut D,
    key: &Key,
) -> Result<(), CopyFault>
    requires { CanBringByParts (A.state source.now) (D.state destination.old) key.now }
    ensures { IsBrought D.state D.shares (A.state source.now) (D.state destination.old)
        (D.state destination.new) key.now result }
{
    let Ok(mut draft) = destination.draft(key) else {
        return Err(CopyFault::Memory);
    };
    draft_planned(source, key, &mut draft, &())?;
    match destination.push_draft(key, draft) {
        Ok(_) => Ok(()),
        Err(fault) => Err(push_fault(key, fault)),
    }
}
