//! The state that the workers of a run share, and how they wait.
//!
//! A worker is *looking*, *running* a job, or *waiting*. It looks from its start, and from the end
//! of each job. It reads the count of puts, then looks into its own deque, then into each other
//! one. If it finds a number, it runs its job. If all deques were empty, it waits until the count
//! of puts changes.
//!
//! **While a worker waits, there are no more numbers in the deques than workers that look.** So a
//! worker that looks already takes each number in a deque, and no other worker has to be woken for
//! it. Whenever the lock is free and the run goes on, this holds, or no worker waits:
//!
//! - At the start no worker waits.
//! - A worker that takes a number runs it: one number and one looking worker fewer.
//! - A worker begins to wait under the lock, and only if the count of puts is still the one that it
//!   read before it looked. Numbers are put, and the count is raised, under one hold of the lock.
//!   So nothing was put while it looked, and each deque was empty at some moment since: all are
//!   empty now.
//! - A worker whose job ended puts the numbers that became ready, and looks. It takes one of them
//!   itself unless another worker is faster. For each further one it wakes one waiting worker, or
//!   all if fewer wait. So as many workers begin to look as numbers were put, or no worker waits
//!   any more.
//!
//! No wake is lost: workers are woken under the lock, after the count was raised. A worker that
//! waits at that moment has read a lesser count and leaves; a later worker reads the new count.
//! `waiting` also counts the workers that were woken and do not have the lock back yet, so it is
//! never too small.
//!
//! When the last number is done, and at a stop, `ended` is set and all workers are woken, under the
//! lock. A waiting worker then leaves. A worker that looks or runs ends before it would wait again.
//! If the thread of a worker cannot be started, the worker shares a thread and looks only after the
//! other worker of that thread has ended. Until then the others empty its deque, and afterwards the
//! run has ended.
ghost use Rattle.std.specs.Prelude.{◌≡◌, IfSome};
ghost use Rattle.oci_pool.specs.Workers.{IsJobOf};

use crate::board::{Board, Pass};
use crate::deque::OwnDeque;
use crate::job::{Job, RunStart};
use std::alloc::AllocError;
use std::marker::{Model, PhantomData};
use std::sync::{Condvar, Mutex, Wait};

/// The progress of a run.
#[derive(Drop)]
struct Progress {
    board: Board,
    /// How many numbers are not done.
    left: usize,
    /// How often a number was done since the run began. When it is raised, the numbers that became
    /// ready are already in a deque.
    puts: u64,
    /// How many workers wait, or were woken and do not have the lock back.
    waiting: usize,
    /// Whether the run is over: all numbers are done, or it was stopped.
    ended: bool,
}

impl Progress {
    /// Stops the run: from now on no number is issued and no pass is given.
    fn stop(&mut self) {
        self.board.stop();
        self.ended = true;
    }

    /// Puts the issued numbers at these places into a deque. Returns false if memory was refused;
    /// the run is then stopped.
    fn put(&mut self, deque: &mut OwnDeque, from: usize, to: usize) -> bool {
        for place in from..to {
            if let Some(number) = self.board.issued(place) {
                if deque.put(number).is_err() {
                    self.stop();
                    return false;
                }
            }
        }
        true
    }
}

/// The state that the workers of a run share.
///
/// Its invariant: the job and the count are those of the run.
#[derive(Drop)]
pub(crate) struct Shared<'j, J: Job, T: RunStart<J::Out, J::Fault>> {
    pub job: &'j J,
    /// The count of numbers.
    pub count: usize,
    progress: Mutex<Progress>,
    /// Notified on every change that a waiting worker may be waiting for.
    changed: Condvar,
    start: PhantomData<T>,
}

impl<'j, J: Job, T: RunStart<J::Out, J::Fault>> Model for Shared<'j, J, T> {
    ghost use Rattle.std.specs.Prelude.{◌≡◌, ⊤};
    ghost use Rattle.oci_pool.specs.Workers.{IsJobOf};

    ghost Value = { ⊤ };

    ghost view = { λ s. tt };

    ghost invariant = { λ s. (s.count ≡ T.count)
        × IsJobOf (J.answers s.job.now) (J.fails s.job.now) T.answers T.fails };
}

impl<'j, J: Job, T: RunStart<J::Out, J::Fault>> Shared<'j, J, T> {
    /// Creates the state at the start of a run of a job for each of `count` numbers, on a board of
    /// their graph.
    pub fn new(job: &'j J, board: Board, count: usize) -> Shared<'j, J, T>
        requires count { count ≡ T.count }
        requires job { IsJobOf (J.answers job.now) (J.fails job.now) T.answers T.fails }
    {
        Shared {
            job,
            count,
            progress: Mutex::new(Progress {
                board,
                left: count,
                puts: 0,
                waiting: 0,
                ended: count == 0,
            }),
            changed: Condvar::new(),
            start: PhantomData,
        }
    }

    /// Returns the current count of puts, or nothing if the run has ended.
    pub fn puts<R: Wait>(&self, rt: &R) -> Option<u64> {
        let progress = self.progress.lock(rt);
        if progress.ended {
            return None;
        }
        Some(progress.puts)
    }

    /// Waits while the count of puts is `read` and the run goes on.
    pub fn wait_past<R: Wait>(&self, rt: &R, read: u64) {
        let mut progress = self.progress.lock(rt);
        progress.waiting = progress.waiting.saturating_add(1);
        let mut progress = self
            .changed
            .wait_while(rt, progress, |p| { p.puts == read && !p.ended });
        progress.waiting = progress.waiting.saturating_sub(1);
    }

    /// Returns the permission to run a number, if the board gives it.
    pub fn pass<R: Wait>(&self, rt: &R, number: u32) -> Option<Pass>
        ensures { IfSome result (λ p. p ≡ number) }
    {
        self.progress.lock(rt).board.pass(number)
    }

    /// Stops the run: from now on the board gives no pass.
    pub fn stop<R: Wait>(&self, rt: &R) {
        let mut progress = self.progress.lock(rt);
        progress.stop();
        self.changed.notify_all();
    }

    /// Marks a number done, and puts the numbers that became ready into the deque of the worker
    /// that ran it. It wakes one worker for each of them but the first, since this worker goes on
    /// itself. Returns an error if memory was refused; the run is then stopped.
    pub fn done<R: Wait>(
        &self,
        rt: &R,
        deque: &mut OwnDeque,
        number: u32,
    ) -> Result<(), AllocError> {
        let mut guard = self.progress.lock(rt);
        let progress = &mut *guard;
        let Some((from, to)) = progress.board.done(number) else {
            return Ok(());
        };
        let all_put = progress.put(deque, from, to);
        progress.puts = progress.puts.wrapping_add(1);
        progress.left = progress.left.saturating_sub(1);
        if progress.left == 0 {
            progress.ended = true;
        }
        self.wake(progress, to.saturating_sub(from));
        if all_put { Ok(()) } else { Err(AllocError) }
    }

    /// Wakes the workers for `new` new numbers, or all if the run has ended. Called under the lock.
    fn wake(&self, progress: &Progress, new: usize) {
        if progress.ended {
            self.changed.notify_all();
            return;
        }
        for _ in 1..new.min(progress.waiting.saturating_add(1)) {
            self.changed.notify_one();
        }
    }
}
