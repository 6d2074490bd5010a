ghost use Rattle.std.specs.Prelude.{◌≡◌, ◌≤◌, false, Contains, slice_get, OnOk, IfErr, IfSome, IsSomeAnd};
ghost use Rattle.oci_store.specs.Keyed.{HasAll, HasDistinctKeys};
ghost use Rattle.oci_pool.specs.Run.{IsCause};
ghost use Rattle.oci_copy.specs.Cause.{CanFail, IsStepCause, RefusedAt};
ghost use Rattle.oci_copy.specs.Fault.{reported_fault};
ghost use Rattle.oci_copy.specs.Kept.{CanBegin, HasEnded, IsNoted, Keeps};
ghost use Rattle.oci_copy.specs.Planned.{CanPush};

use super::copy_start::CopyStart;
use super::job::CopyJob;
use super::locked::LockedDestination;
use super::under_lock::take;
use crate::fault::CopyFault;
use oci_plan::Plan;
use oci_pool::{Hooks, PoolFault, run};
use oci_store::{Dest, Source};
use std::alloc::Global;
use std::sync::{Condvar, Mutex, Wait};
use std::thread::Threads;

/// Returns the destination of a run, with the facts that every state of the lock kept, and whether
/// a put failed in the run.
fn finish<D: Dest, T: CopyStart>(locked: LockedDestination<D, T>) -> (D, bool)
    ensures ended { HasEnded D.shares T.source T.planned T.opening locked (D.state result.0) }
    ensures calm { result.1 ≡ false → (D.state result.0).failures ≡ T.opening.failures }
{
    let (destination, put_failed) = locked.into_destination();
    // A no-op at run time: its contract states that no key is held twice.
    let _distinct = destination.count();
    (destination, put_failed)
}

/// Returns the destination of a run that stopped without a fault and now holds all planned keys. A
/// put that failed is the fault of a run, so none failed in this one.
fn finish_whole<D: Dest, T: CopyStart>(
    locked: LockedDestination<D, T>,
) -> (D, Result<(), CopyFault>)
    ensures ended { HasEnded D.shares T.source T.planned T.opening locked (D.state result.0) }
    ensures calm { OnOk result.1 ((D.state result.0).failures ≡ T.opening.failures) }
    ensures memory { IfErr result.1 (λ fault. fault ≡ CopyFault.Memory) }
{
    let (destination, put_failed) = finish(locked);
    if put_failed {
        return (destination, Err(CopyFault::Memory));
    }
    (destination, Ok(()))
}

/// Returns the fault of a copy whose run stopped, or nothing if the run is only incomplete. The
/// copy then waits for the missing keys.
fn reported<D: Dest, T: CopyStart>(workers: u32, fault: PoolFault<CopyFault>) -> Option<CopyFault>
    requires workers { workers ≤ 64 }
    requires fault { IsCause workers (λ n it. IsSomeAnd (slice_get T.planned n)
        (λ k. IsStepCause (CanFail D.state T.opening) T.source T.opening k it)) fault }
    ensures cause { IfSome result (RefusedAt (Contains T.planned)
        (IsStepCause (CanFail D.state T.opening) T.source T.opening)) }
    ensures reported { result ≡ reported_fault fault }
{
    match fault {
        PoolFault::Job(_, fault) => Some(fault),
        PoolFault::Incomplete(_) => None,
        PoolFault::BadWorkers => unreachable!(),
        PoolFault::Memory => Some(CopyFault::Memory),
    }
}

/// Pushes each planned key by workers, and returns the destination. `T` notes the state of both
/// stores at the start.
pub(crate) fn run_copy_jobs<
    'a,
    A: Source + Sync,
    D: Dest + Drop + Send,
    T: CopyStart + Send + Sync,
    R: Threads + Wait + Sync,
    H: Hooks + Sync,
>(
    rt: &'a R,
    alloc: Global,
    source: &'a A,
    destination: D,
    plan: &'a Plan,
    workers: u32,
    hooks: &'a H,
) -> (D, Result<(), CopyFault>)
where
    D::Draft: Send,
    requires workers { workers ≤ 64 }
    requires noted { IsNoted T.source (A.state source.now) }
    requires planned { plan.now.keys ≡ T.planned }
    requires can_push { CanPush T.source T.opening plan.now }
    requires begins { CanBegin D.shares T.source T.planned T.opening (D.state destination) }
    ensures held { OnOk result.1 (HasAll (D.state result.0).nodes plan.now.keys) }
    ensures distinct { HasDistinctKeys (D.state result.0).nodes }
    ensures keeps { Keeps D.shares T.source T.planned T.opening (D.state result.0) }
    ensures calm { OnOk result.1 ((D.state result.0).failures ≡ T.opening.failures) }
    ensures cause { IfErr result.1 (RefusedAt (Contains T.planned)
        (IsStepCause (CanFail D.state T.opening) T.source T.opening)) }
{
    let lock = Mutex::new(Some(LockedDestination::<D, T>::new(destination)));
    let pushed = Condvar::new();
    let job: CopyJob<'_, A, D, T, R, H> = CopyJob {
        rt,
        source,
        lock: &lock,
        pushed: &pushed,
        plan,
        hooks,
    };
    let fault = match run(rt, alloc, plan.order(), workers, &job) {
        Ok(_) => None,
        Err(stopped) => reported::<D, T>(workers, stopped.into_fault()),
    };
    match fault {
        None => {
            let locked = take(rt, &lock, &pushed, plan.keys());
            finish_whole(locked)
        }
        Some(fault) => {
            let locked = take(rt, &lock, &pushed, &[]);
            let (destination, _) = finish(locked);
            (destination, Err(fault))
        }
    }
}
