use oci_pool::{Job, Pass};
use std::sync::atomic::{AtomicU64, Ordering};

/// Jobs that each count to a fixed number.
#[derive(Drop)]
pub(crate) struct Counts {
    steps: u64,
    /// Read at each step, so that no step is optimized away.
    pace: AtomicU64,
}

impl Counts {
    /// Creates jobs that count to this number.
    pub fn new(steps: u64) -> Counts {
        Counts {
            steps,
            pace: AtomicU64::new(1),
        }
    }
}

impl Job for Counts {
    type Out = u64;

    type Fault = u64;

    ghost answers = { λ job k x. Unit {0} };

    ghost fails = { λ job k f. Unit {0} };

    fn run(&self, _number: u32, _pass: Pass) -> Result<u64, u64> {
        let mut counted: u64 = 0;
        for _ in 0..self.steps {
            counted = counted.wrapping_add(self.pace.load(Ordering::SeqCst));
        }
        Ok(counted)
    }
}
