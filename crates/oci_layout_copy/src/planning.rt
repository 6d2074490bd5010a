//! The plan of a copy from a layout.
ghost use Rattle.std.specs.Prelude.{◌≡◌, IfErr, IfOk};
ghost use Rattle.oci_copy.specs.Cause.{IsRefusal};
ghost use Rattle.oci_copy.specs.Planned.{IsPlanOf};
ghost use Rattle.oci_copy.specs.declared.fault.CopyFault.{CopyFault as Fault};
ghost use Rattle.oci_layout_copy.specs.Unplanned.{IsUnplanned};

use oci_copy::{CopyFault, Options, plan_copy};
use oci_dir::Dir;
use oci_layout_store::Layout;
use oci_manifest::Key;
use oci_plan::{Plan, PlanFault};
use oci_program::ProgramFault;
use oci_store::{Dest, Store};
use std::alloc::Global;

/// Plans a copy from a layout. Where that lacks a blob since the blob's file is damaged, the fault is
/// that of the file.
///
/// # Errors
///
/// - 75 `Corrupt` and 77 `BadManifest` if the file of a blob that the copy needs is damaged.
/// - 80 `DestinationOpen` and 81 `Plan` otherwise.
/// - 74 `Device` if a file of the layout cannot be read.
/// - Out of memory, at any point.
pub fn plan_from<S: Dir, D: Dest>(
    alloc: Global,
    source: &Layout<S>,
    destination: &D,
    roots: &[Key],
    options: &Options,
) -> Result<Plan, ProgramFault>
    ensures plan { IfOk result (IsPlanOf (⟦<Layout<S> as Store>⟧.state source.now) options.now
        (D.state destination.now) roots.now) }
    ensures cause { IfErr result (λ e. (fault : Fault) × IsUnplanned (S.device source.now.dir) fault e
        × IsRefusal (λ source opening k fault. ⊥) options.now
        (⟦<Layout<S> as Store>⟧.state source.now) (D.state destination.now) roots.now fault) }
{
    match plan_copy(alloc, source, destination, roots, options) {
        Ok(plan) => Ok(plan),
        Err(fault) => Err(unplanned(source, fault)),
    }
}

/// Returns the fault of a copy that could not be planned: that of the missing blob's file, if there is
/// one and it is damaged.
fn unplanned<S: Dir>(source: &Layout<S>, fault: CopyFault) -> ProgramFault
    ensures { IsUnplanned (S.device source.now.dir) fault result }
{
    match &fault {
        CopyFault::Plan(PlanFault::NotFound(key)) => match source.check_file(key) {
            Ok(()) => ProgramFault::Copy(fault),
            Err(damage) => ProgramFault::Layout(damage),
        },
        _ => ProgramFault::Copy(fault),
    }
}
