ghost use Rattle.std.specs.Prelude.{◌≡◌, []};

use crate::fault::PoolFault;
use crate::job::Job;
use std::alloc::Global;

/// The results of a run that stopped, and why it stopped.
#[derive(Drop)]
pub struct Stopped<J: Job> {
    /// Each result that a job returned, with its number, in ascending order of the numbers.
    pub done: Vec<(u32, J::Out)>,
    /// Why the run stopped.
    pub fault: PoolFault<J::Fault>,
}

impl<J: Job> Stopped<J> {
    /// Creates the value for a run that stopped before any job was run.
    pub(crate) fn at_start(alloc: Global, fault: PoolFault<J::Fault>) -> Stopped<J>
        ensures done { result.done.items ≡ [] }
        ensures fault { result.fault ≡ fault }
    {
        Stopped {
            done: Vec::new(alloc),
            fault,
        }
    }

    /// Returns why the run stopped, and drops the results.
    pub fn into_fault(self) -> PoolFault<J::Fault>
        ensures { result ≡ self.fault }
    {
        self.fault
    }

    /// Returns the results, and why the run stopped.
    pub fn into_parts(self) -> (Vec<(u32, J::Out)>, PoolFault<J::Fault>)
        ensures done { result.0 ≡ self.done }
        ensures fault { result.1 ≡ self.fault }
    {
        let Stopped { done, fault } = self;
        (done, fault)
    }
}
