ghost use Rattle.std.specs.Prelude.{Contains};
ghost use Rattle.oci_copy.specs.Cause.{CanFail, IsStepAnswer};

use super::copy_start::CopyStart;
use super::held::Held;
use super::locked::LockedDestination;
use super::under_lock::{begin_draft, push_draft_now, push_later};
use crate::fault::CopyFault;
use crate::fetching::{draft_planned, fetch_planned, goes_by_parts};
use oci_manifest::Key;
use oci_plan::Plan;
use oci_pool::{Hooks, Job, Pass};
use oci_store::{Dest, PartWatcher, Source};
use std::marker::Model;
use std::sync::{Condvar, Mutex, Wait};

/// The job of each planned key: to fetch it, and to push it once all that it lists is held.
#[derive(Drop)]
pub(crate) struct CopyJob<'a, A: Source, D: Dest, T: CopyStart, R: Wait, H: Hooks> {
    pub(crate) rt: &'a R,
    pub(crate) source: &'a A,
    pub(crate) lock: &'a Mutex<Option<LockedDestination<D, T>>>,
    /// Notified after each push.
    pub(crate) pushed: &'a Condvar,
    pub(crate) plan: &'a Plan,
    pub(crate) hooks: &'a H,
}

impl<'a, A: Source, D: Dest, T: CopyStart, R: Wait, H: Hooks> Model for CopyJob<'a, A, D, T, R, H> {
    ghost use Rattle.std.specs.Prelude.{◌≡◌, ⊤};
    ghost use Rattle.std.specs.List.{All};
    ghost use Rattle.oci_store.specs.Keyed.{HasAll};
    ghost use Rattle.oci_copy.specs.Kept.{IsNoted};
    ghost use Rattle.oci_copy.specs.Planned.{CanBeRead};

    ghost Value = { ⊤ };

    ghost view = { λ j. tt };

    ghost invariant = { λ j. IsNoted T.source (A.state j.source.now)
        × (j.plan.now.keys ≡ T.planned) × HasAll T.source.entries T.planned
        × (T.source.is_honest → All (CanBeRead T.source.entries) T.planned) };
}

impl<'a, A: Source, D: Dest + Drop, T: CopyStart, R: Wait, H: Hooks> CopyJob<'a, A, D, T, R, H> {
    /// Fetches and reads a planned key, and pushes it once all that it lists is held.
    ///
    /// If the key is read part by part, each part is written to a draft outside the lock.
    fn copy_key(&self, key: &'a Key) -> Result<Held<'a>, CopyFault>
        requires { Contains T.planned key.now }
        ensures { IsStepAnswer (CanFail D.state T.opening) T.source T.opening key.now result }
    {
        if goes_by_parts(self.source, key) {
            let mut draft = begin_draft(self.rt, self.lock, self.pushed, key)?;
            let watcher = PartHook {
                hooks: self.hooks,
                key,
            };
            draft_planned(self.source, key, &mut draft, &watcher)?;
            return push_draft_now(self.rt, self.lock, self.pushed, key, draft);
        }
        let content = fetch_planned(self.source, key)?;
        self.hooks.part_arrived(key, content.bytes().len());
        push_later(self.rt, self.lock, self.pushed, key, content)
    }
}

/// Tells the hooks of each part of a key that is read part by part.
#[derive(Drop)]
struct PartHook<'k, H> {
    hooks: &'k H,
    key: &'k Key,
}

impl<'k, H: Hooks> PartWatcher for PartHook<'k, H> {
    fn part_arrived(&self, length: usize) {
        self.hooks.part_arrived(self.key, length);
    }
}

impl<
    'a,
    A: Source + Sync,
    D: Dest + Drop + Send,
    T: CopyStart + Send,
    R: Wait + Sync,
    H: Hooks + Sync,
> Job for CopyJob<'a, A, D, T, R, H> {
    /// Proof that the key is held, or nothing for a number that the plan does not have.
    type Out = Option<Held<'a>>;

    type Fault = CopyFault;

    ghost use Rattle.std.specs.Prelude.{◌≡◌, slice_get, IsSomeAnd};
    ghost use Rattle.oci_copy.specs.Cause.{CanFail, IsStepCause};

    ghost answers = { λ j k held. held ≡ slice_get T.planned k };

    ghost fails = { λ j k f. IsSomeAnd (slice_get T.planned k)
        (λ key. IsStepCause (CanFail D.state T.opening) T.source T.opening key f) };

    fn run(&self, number: u32, _pass: Pass) -> Result<Option<Held<'a>>, CopyFault> {
        let Some(key) = self.plan.key(number) else {
            return Ok(None);
        };
        self.hooks.pre_copy(key);
        let held = self.copy_key(key)?;
        self.hooks.post_copy(key);
        Ok(Some(held))
    }
}
