ghost use Rattle.std.specs.Prelude.{◌≡◌, ◌⊎◌, OnOk, IfOk, IfErr};
ghost use Rattle.oci_manifest.specs.Descriptor.{Descriptor};
ghost use Rattle.oci_copy.specs.Cause.{IsRefusal};
ghost use Rattle.oci_copy.specs.Fault.{of_plan};
ghost use Rattle.oci_copy.specs.Destination.{IsClosedWhenSkipping, IsNotClosedWhenSkipping};
ghost use Rattle.oci_copy.specs.Planned.{IsPlanOf};

use crate::fault::CopyFault;
use crate::options::Options;
use oci_manifest::Key;
use oci_plan::{Existing, Plan, PlanFault, gather};
use oci_store::{Dest, Source};
use std::alloc::Global;

/// Returns the plan of a copy from these roots: the keys to copy, in an order in which each key
/// comes after the keys that it lists.
///
/// # Errors
///
/// The errors of the copy before its first push, in this order. Nothing is changed.
///
/// - 80 `DestinationOpen` if held keys are skipped and the destination is not closed.
/// - 81 `Plan` if the plan is refused.
/// - 86 `Memory`, at any point.
pub fn plan_copy<A: Source, D: Dest>(
    alloc: Global,
    source: &A,
    destination: &D,
    roots: &[Key],
    options: &Options,
) -> Result<Plan, CopyFault>
    ensures plan { IfOk result (IsPlanOf (A.state source.now) options.now (D.state destination.now)
        roots.now) }
    ensures cause { IfErr result (IsRefusal (λ source opening k fault. ⊥) options.now
        (A.state source.now) (D.state destination.now) roots.now) }
{
    check_destination(destination, options)?;
    let limit = options.metadata_limit();
    match gather(alloc, source, destination, roots, limit, options.existing) {
        Ok(plan) => Ok(plan),
        Err(fault) => Err(plan_fault(fault)),
    }
}

/// Checks that the destination is closed if the copy skips the keys that it has.
fn check_destination<D: Dest>(destination: &D, options: &Options) -> Result<(), CopyFault>
    ensures closed { OnOk result (IsClosedWhenSkipping options.now.existing
        (D.state destination.now).nodes) }
    ensures open { IfErr result (λ fault. (fault ≡ CopyFault.Memory) ⊎ ((holder : Descriptor)
        × (missing : Descriptor) × (fault ≡ CopyFault.DestinationOpen holder missing)
        × IsNotClosedWhenSkipping options.now.existing (D.state destination.now).nodes holder
        missing)) }
{
    match options.existing {
        Existing::Skip => match destination.missing() {
            Ok(None) => Ok(()),
            Ok(Some((holder, missing))) => Err(CopyFault::DestinationOpen(holder, missing)),
            Err(_) => Err(CopyFault::Memory),
        },
        Existing::Descend => Ok(()),
    }
}

/// Returns the fault of a copy whose plan was refused.
fn plan_fault(fault: PlanFault) -> CopyFault
    ensures { result ≡ of_plan fault }
{
    match fault {
        PlanFault::Memory => CopyFault::Memory,
        _ => CopyFault::Plan(fault),
    }
}
