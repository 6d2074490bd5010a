ghost use Rattle.std.specs.Prelude.{◌≡◌, ◌⊎◌, Contains, IfOk, IfErr, OnOk};
ghost use Rattle.oci_copy.specs.Cause.{CanFail, IsAnswerByWorkers, IsStepCause, RefusedAt};
ghost use Rattle.oci_copy.specs.Copy.{IsCopy, OnlyGrows, Spares};
ghost use Rattle.oci_copy.specs.Plain.{NeitherFails};
ghost use Rattle.oci_copy.specs.Planned.{IsPlanOf};

use crate::copy_jobs::run_copy_jobs;
use crate::fault::CopyFault;
use crate::options::Options;
use crate::report::{Report, report_of};
use oci_manifest::Key;
use oci_plan::Plan;
use oci_pool::{Hooks, MAX_WORKERS};
use oci_store::{Dest, Source};
use std::alloc::Global;
use std::marker::Brand;
use std::sync::Wait;
use std::thread::Threads;

/// Copies the keys of a plan, by workers: the part of [`copy_graph`](crate::copy_graph) after the
/// plan.
///
/// The plan is one that [`plan_copy`](crate::plan_copy) returned for this source, this destination,
/// these roots and these options, and neither store has changed since. So a caller can look at the
/// plan, or print it, before the first push, and nothing is planned twice. The outcome and the
/// calls of the hooks are those of `copy_graph` from these roots.
///
/// No put failed in a copy that succeeds.
///
/// Takes a lock and joins its workers. Termination is not proved.
///
/// # Errors
///
/// In this order:
///
/// - 85 `BadWorkers` if `options.workers` is over 64. Nothing is changed.
/// - 88 `Fetch` or 82 `Push` of a planned key. If several keys fail, it is the one with the least
///   number of the plan.
///
/// 86 `Memory` can be returned at any point. After 82, 86 and 88 the keys pushed before stay, each
/// with all that it lists, so a closed destination is still closed.
pub fn copy_plan<
    A: Source + Sync,
    D: Dest + Drop + Send,
    R: Threads + Wait + Sync,
    H: Hooks + Sync,
>(
    rt: &R,
    alloc: Global,
    source: &A,
    destination: D,
    plan: &Plan,
    roots: &[Key],
    options: &Options,
    hooks: &H,
) -> (D, Result<Report, CopyFault>)
where
    D::Draft: Send,
    requires { IsPlanOf (A.state source.now) options.now (D.state destination) roots.now plan.now }
    ensures copied { IfOk result.1 (IsCopy D.shares options.now (A.state source.now)
        (D.state destination) roots.now (D.state result.0)) }
    ensures calm { OnOk result.1 ((D.state result.0).failures ≡ (D.state destination).failures) }
    ensures grows { OnlyGrows D.shares (A.state source.now) (D.state destination) roots.now
        (D.state result.0) }
    ensures spared { Spares D.state destination result.0 result.1 }
    ensures refused { IsAnswerByWorkers options.now.workers (RefusedAt (Contains plan.now.keys)
        (IsStepCause (CanFail D.state (D.state destination)) (A.state source.now)
        (D.state destination))) result.1 }
    ensures plain { IfErr result.1 (λ fault. NeitherFails options.now.existing D.state
        (A.state source.now) (D.state destination)
        → (fault ≡ CopyFault.BadWorkers) ⊎ (fault ≡ CopyFault.Memory)) }
{
    if options.workers > MAX_WORKERS {
        return (destination, Err(CopyFault::BadWorkers));
    }
    report_skipped(hooks, plan);
    let workers = options.workers;
    let (destination, copied) = run_copy_jobs::<A, D, Brand, R, H>(
        rt,
        alloc,
        source,
        destination,
        plan,
        workers,
        hooks,
    );
    match copied {
        Ok(()) => (destination, Ok(report_of(plan))),
        Err(fault) => (destination, Err(fault)),
    }
}

/// Reports each root that the destination has to the hooks.
fn report_skipped<H: Hooks>(hooks: &H, plan: &Plan) {
    for key in plan.skipped() {
        hooks.skipped(key);
    }
}
