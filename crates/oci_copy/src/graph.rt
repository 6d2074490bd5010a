ghost use Rattle.std.specs.Prelude.{IfOk, IfErr};
ghost use Rattle.oci_copy.specs.Cause.{CanFail, IsAnswerByWorkers, IsRefusal, IsStepCause, RefusedByWorkers};
ghost use Rattle.oci_copy.specs.Copy.{IsCopy, OnlyGrows, Spares};
ghost use Rattle.oci_copy.specs.Plain.{NeitherFails, RefusedForPlan};

use crate::fault::CopyFault;
use crate::options::Options;
use crate::planned::copy_plan;
use crate::planning::plan_copy;
use crate::report::Report;
use oci_manifest::Key;
use oci_pool::{Hooks, MAX_WORKERS};
use oci_store::{Dest, Source};
use std::alloc::Global;
use std::sync::Wait;
use std::thread::Threads;

/// Copies the keys that the source reaches from some roots, by workers (oras-go v2, "CopyGraph").
///
/// The destination is always returned. It gains each key that the source reaches from a root along
/// keys that the destination lacks. It keeps all its keys and its tags. A key that it has is
/// assumed to have all that it lists, so the destination has to be closed. With `Existing::Descend`
/// it need not be: it gains each key that the source reaches from a root and that it lacks. The
/// outcome is the same for every number of workers, but the order of the new entries is
/// unspecified.
///
/// The hooks first get each distinct root that is held, on the calling thread. Then a worker takes
/// a key whose successors are pushed. It calls `pre_copy`, fetches and reads the content, pushes it
/// under the lock of the destination, and calls `post_copy` outside that lock.
///
/// Takes a lock and joins its workers. Termination is not proved.
///
/// # Errors
///
/// In this order:
///
/// - 85 `BadWorkers` if `options.workers` is over 64.
/// - 80 `DestinationOpen` if held keys are skipped and the destination is not closed.
/// - 81 `Plan` if the plan is refused.
/// - 88 `Fetch` or 82 `Push` of a key. If several keys fail, it is the one with the least number of
///   the plan.
///
/// 86 `Memory` can be returned at any point. After 80, 81 and 85 nothing is changed. After 82, 86
/// and 88 the keys pushed before stay, each with all that it lists, so a closed destination is
/// still closed.
///
/// `Stuck` and `Incomplete` are never returned. If the source returns other bytes for the push than
/// for the plan, of the same size and digest, and they list a key that is not planned, the copy
/// waits for that key and does not return.
pub fn copy_graph<
    A: Source + Sync,
    D: Dest + Drop + Send,
    R: Threads + Wait + Sync,
    H: Hooks + Sync,
>(
    rt: &R,
    alloc: Global,
    source: &A,
    destination: D,
    roots: &[Key],
    options: &Options,
    hooks: &H,
) -> (D, Result<Report, CopyFault>)
where
    D::Draft: Send,
    ensures copied { IfOk result.1 (IsCopy D.shares options.now (A.state source.now)
        (D.state destination) roots.now (D.state result.0)) }
    ensures grows { OnlyGrows D.shares (A.state source.now) (D.state destination) roots.now
        (D.state result.0) }
    ensures spared { Spares D.state destination result.0 result.1 }
    ensures refused { IsAnswerByWorkers options.now.workers
        (IsRefusal (IsStepCause (CanFail D.state (D.state destination))) options.now
        (A.state source.now) (D.state destination) roots.now) result.1 }
    ensures plain { IfErr result.1 (λ fault. NeitherFails options.now.existing D.state
        (A.state source.now) (D.state destination)
        → RefusedByWorkers options.now.workers (RefusedForPlan (A.state source.now).entries
        options.now (D.state destination).nodes roots.now) fault) }
{
    if options.workers > MAX_WORKERS {
        return (destination, Err(CopyFault::BadWorkers));
    }
    match plan_copy(alloc, source, &destination, roots, options) {
        Ok(plan) => copy_plan(rt, alloc, source, destination, &plan, roots, options, hooks),
        Err(fault) => (destination, Err(fault)),
    }
}
