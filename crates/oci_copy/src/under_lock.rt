ghost use Rattle.std.specs.Prelude.{◌↔◌, [], IfOk, IfErr, IsSomeAnd, IsTrue};
ghost use Rattle.std.specs.Sync.Mutex.{mutex_guard_value};
ghost use Rattle.oci_store.specs.Keyed.{HasAll};
ghost use Rattle.oci_copy.specs.Brought.{IsPlannedContent, IsPlannedDraft};
ghost use Rattle.oci_copy.specs.Cause.{CanFail, IsStepAnswer, IsStepCause};

use super::copy_start::CopyStart;
use super::held::Held;
use super::locked::LockedDestination;
use crate::fault::CopyFault;
use oci_manifest::Key;
use oci_store::{CheckedContent, Dest};
use std::sync::{Condvar, Mutex, MutexGuard, Wait};

/// Returns whether all of these keys are held.
fn has_all<D: Dest, T: CopyStart>(locked: &LockedDestination<D, T>, keys: &[Key]) -> bool
    ensures { IsTrue result ↔ HasAll locked.now keys.now }
{
    let destination = locked.destination();
    keys.iter().all(|key| destination.has(key))
}

/// Returns whether the destination is in the lock and holds all of these keys.
fn is_ready<D: Dest, T: CopyStart>(locked: &Option<LockedDestination<D, T>>, keys: &[Key]) -> bool
    ensures { IsTrue result ↔ IsSomeAnd locked.now (λ g. HasAll g keys.now) }
{
    match locked {
        Some(locked) => has_all(locked, keys),
        None => false,
    }
}

/// Waits until all of these keys are held, and returns the guard of the lock.
fn wait_for<'b, D: Dest + Drop, T: CopyStart, R: Wait>(
    rt: &R,
    lock: &'b Mutex<Option<LockedDestination<D, T>>>,
    pushed: &Condvar,
    keys: &[Key],
) -> MutexGuard<'b, Option<LockedDestination<D, T>>>
    ensures { IsSomeAnd (mutex_guard_value result) (λ g. HasAll g keys.now) }
{
    let mut guard = lock.lock(rt);
    for _ in rt.forever() {
        if is_ready(&*guard, keys) {
            return guard;
        }
        guard = pushed.wait(rt, guard);
    }
    unreachable!()
}

/// Pushes a key's content once all that it lists is held. The content was fetched and hashed
/// before.
///
/// The push is under the lock. A layout then reads the old file of that digest, and writes the
/// content unless the file has it.
pub(crate) fn push_later<'k, D: Dest + Drop, T: CopyStart, R: Wait>(
    rt: &R,
    lock: &Mutex<Option<LockedDestination<D, T>>>,
    pushed: &Condvar,
    key: &'k Key,
    content: CheckedContent,
) -> Result<Held<'k>, CopyFault>
    requires { IsPlannedContent T.source T.planned key.now content }
    ensures { IsStepAnswer (CanFail D.state T.opening) T.source T.opening key.now result }
{
    let mut guard = wait_for(rt, lock, pushed, content.successors());
    let Some(locked) = &mut *guard else {
        unreachable!()
    };
    let held = locked.push(key, content);
    drop(guard);
    pushed.notify_all();
    held
}

/// Creates a draft for a key's content.
pub(crate) fn begin_draft<D: Dest + Drop, T: CopyStart, R: Wait>(
    rt: &R,
    lock: &Mutex<Option<LockedDestination<D, T>>>,
    pushed: &Condvar,
    key: &Key,
) -> Result<D::Draft, CopyFault>
    ensures empty { IfOk result (λ draft. D.Draft.drafted draft []) }
    ensures cause { IfErr result (IsStepCause (CanFail D.state T.opening) T.source T.opening
        key.now) }
{
    let guard = wait_for(rt, lock, pushed, &[]);
    let Some(locked) = &*guard else {
        unreachable!()
    };
    match locked.destination().draft(key) {
        Ok(draft) => Ok(draft),
        Err(_) => Err(CopyFault::Memory),
    }
}

/// Pushes the drafted content of a key that lists nothing. It was read, hashed and written before.
/// If a write failed, the push is refused.
///
/// The push is under the lock. A layout then only renames a file, unless the old file of that
/// digest begins with the content and is longer. In that case it copies the content.
pub(crate) fn push_draft_now<'k, D: Dest + Drop, T: CopyStart, R: Wait>(
    rt: &R,
    lock: &Mutex<Option<LockedDestination<D, T>>>,
    pushed: &Condvar,
    key: &'k Key,
    draft: D::Draft,
) -> Result<Held<'k>, CopyFault>
    requires { IsPlannedDraft (D.Draft.is_lost draft) (D.Draft.drafted draft) T.source T.planned
        key.now }
    ensures { IsStepAnswer (CanFail D.state T.opening) T.source T.opening key.now result }
{
    let mut guard = wait_for(rt, lock, pushed, &[]);
    let Some(locked) = &mut *guard else {
        unreachable!()
    };
    let held = locked.push_draft(key, draft);
    drop(guard);
    pushed.notify_all();
    held
}

/// Takes the destination out of the lock, once all of these keys are held.
pub(crate) fn take<D: Dest + Drop, T: CopyStart, R: Wait>(
    rt: &R,
    lock: &Mutex<Option<LockedDestination<D, T>>>,
    pushed: &Condvar,
    keys: &[Key],
) -> LockedDestination<D, T>
    ensures { HasAll result keys.now }
{
    let mut guard = wait_for(rt, lock, pushed, keys);
    match guard.take() {
        Some(locked) => locked,
        None => unreachable!(),
    }
}
