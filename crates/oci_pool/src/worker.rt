ghost use Rattle.std.specs.Prelude.{◌≡◌, None, All};
ghost use Rattle.oci_pool.specs.Workers.{MayCome};

use crate::deque::{OtherDeque, OwnDeque};
use crate::fault::PoolFault;
use crate::job::{Job, RunStart};
use crate::shared::Shared;
use crossbeam_deque::Steal;
use std::alloc::Global;
use std::marker::{Model, PhantomData};
use std::sync::Wait;
use std::thread;
use std::thread::Threads;

/// The deques that a worker takes numbers from: its own, and stealers for the others.
#[derive(Drop)]
pub(crate) struct Deques {
    pub own: OwnDeque,
    pub others: Vec<OtherDeque>,
}

impl Deques {
    /// Returns the first number of its own deque, or else one that it steals, or nothing if it
    /// found each deque empty.
    fn find<R: Wait>(&mut self, rt: &R) -> Option<u32> {
        if let Some(number) = self.own.take() {
            return Some(number);
        }
        for other in self.others.iter_mut() {
            for _ in rt.forever() {
                match other.steal() {
                    Steal::Success(number) => return Some(number),
                    Steal::Empty => break,
                    Steal::Retry => {}
                }
            }
        }
        None
    }
}

/// One worker: its deques and its results. Contracts see it as the fault for which it stopped the
/// run, if it did.
///
/// Its invariant: each result is one that the job of its number may return, and its fault is one
/// that a worker may report.
#[derive(Drop)]
pub(crate) struct Worker<J: Job, T: RunStart<J::Out, J::Fault>> {
    deques: Deques,
    /// The results of its jobs, with their numbers.
    done: Vec<(u32, J::Out)>,
    /// The fault for which it stopped the run, if it did.
    fault: Option<PoolFault<J::Fault>>,
    start: PhantomData<T>,
}

impl<J: Job, T: RunStart<J::Out, J::Fault>> Model for Worker<J, T> {
    ghost use Rattle.std.specs.Prelude.{Option};
    ghost use Rattle.oci_pool.specs.declared.fault.PoolFault.{PoolFault};

    ghost Value = { Option (PoolFault J.Fault) };

    ghost use Rattle.oci_pool.specs.Workers.{Worked};

    ghost view = { λ w. w.fault };

    ghost invariant = { λ w. Worked T.count T.answers T.fails w.done.items w.fault };
}

impl<J: Job, T: RunStart<J::Out, J::Fault>> Worker<J, T> {
    /// Creates a worker that has done nothing.
    pub fn new(alloc: Global, deques: Deques) -> Worker<J, T>
        ensures { result ≡ None }
    {
        Worker {
            deques,
            done: Vec::new(alloc),
            fault: None,
            start: PhantomData,
        }
    }

    /// Runs the job of a number that a deque held, if the board gives its pass. Room for the result
    /// is made first, so that no result is lost.
    fn run_one<R: Wait>(&mut self, rt: &R, shared: &Shared<'_, J, T>, number: u32) {
        if shared.count <= number as usize {
            return;
        }
        let Some(pass) = shared.pass(rt, number) else {
            return;
        };
        if self.done.reserve(1).is_err() {
            self.fault = Some(PoolFault::Memory);
            shared.stop(rt);
            return;
        }
        match shared.job.run(number, pass) {
            Ok(out) => {
                self.done.push_reserved((number, out));
                if shared.done(rt, &mut self.deques.own, number).is_err() {
                    self.fault = Some(PoolFault::Memory);
                }
            }
            Err(fault) => {
                self.fault = Some(PoolFault::Job(number, fault));
                shared.stop(rt);
            }
        }
    }

    /// Runs the jobs of the numbers that it finds until the run has ended.
    fn run_all<R: Wait>(&mut self, rt: &R, shared: &Shared<'_, J, T>) {
        for _ in rt.forever() {
            let Some(read) = shared.puts(rt) else {
                break;
            };
            match self.deques.find(rt) {
                Some(number) => self.run_one(rt, shared, number),
                None => shared.wait_past(rt, read),
            }
        }
    }

    /// Returns its results, and the fault for which it stopped the run, if it did.
    pub fn into_parts(self) -> (Vec<(u32, J::Out)>, Option<PoolFault<J::Fault>>)
        ensures answers { All (λ p. T.answers p.0 p.1) result.0.items }
        ensures may_come { MayCome T.count T.fails result.1 }
        ensures fault { result.1 ≡ self }
    {
        let Worker {
            deques: _,
            done,
            fault,
            start: _,
        } = self;
        (done, fault)
    }
}

/// Runs each worker in a thread of its own; the calling thread is one of them. If the system has
/// too few threads, fewer workers run. All workers have ended when it returns.
pub(crate) fn work_all<
    J: Job,
    T: RunStart<J::Out, J::Fault> + Send + Sync,
    R: Threads + Wait + Sync,
>(rt: &R, shared: &Shared<'_, J, T>, workers: &mut [Worker<J, T>]) {
    let threads = workers.len();
    if threads > 0 {
        thread::for_each_mut(
            rt,
            workers,
            threads,
            &|_, worker: &mut Worker<J, T>| { worker.run_all(rt, shared) },
        );
    }
}
