ghost use Rattle.std.specs.Prelude.{All};
ghost use Rattle.oci_pool.specs.Workers.{MayCome, GivesWay, IsFirstOf};

use crate::fault::PoolFault;
use crate::job::{Job, RunStart};
use crate::table::Table;
use crate::worker::Worker;

/// Returns which of two faults is reported: the fault of a job before another one, and of two jobs
/// the one with the lesser number.
fn first_of<J: Job, T: RunStart<J::Out, J::Fault>>(
    a: Option<PoolFault<J::Fault>>,
    b: Option<PoolFault<J::Fault>>,
) -> Option<PoolFault<J::Fault>>
    requires a { MayCome T.count T.fails a }
    requires b { MayCome T.count T.fails b }
    ensures { IsFirstOf T.count T.fails a b result }
{
    match (a, b) {
        (Some(PoolFault::Job(k, f)), Some(PoolFault::Job(m, g))) => {
            Some(if k <= m {
                PoolFault::Job(k, f)
            } else {
                PoolFault::Job(m, g)
            })
        }
        (Some(PoolFault::Job(k, f)), _) => Some(PoolFault::Job(k, f)),
        (None, b) => b,
        (_, Some(PoolFault::Job(m, g))) => Some(PoolFault::Job(m, g)),
        (a, _) => a,
    }
}

/// Puts the results of a worker into the table, and returns the fault to be reported.
fn merge_worker<J: Job, T: RunStart<J::Out, J::Fault>>(
    table: &mut Table<J, T>,
    worker: Worker<J, T>,
    reported: Option<PoolFault<J::Fault>>,
) -> Option<PoolFault<J::Fault>>
    requires reported { MayCome T.count T.fails reported }
    ensures { IsFirstOf T.count T.fails reported worker result }
{
    let (done, fault) = worker.into_parts();
    table.put_all(done);
    first_of::<J, T>(reported, fault)
}

/// Puts the results of the workers into the table, and returns the fault to be reported. The fault
/// of a job is reported before another one, and of several jobs the one with the least number.
pub(super) fn merge_results<J: Job, T: RunStart<J::Out, J::Fault>>(
    table: &mut Table<J, T>,
    mut workers: Vec<Worker<J, T>>,
) -> Option<PoolFault<J::Fault>>
    ensures fault { MayCome T.count T.fails result }
    ensures over { All (λ w. GivesWay w result) workers.items }
{
    let mut reported = None;
    while let Some(worker) = workers.pop() {
        reported = merge_worker(table, worker, reported);
    }
    reported
}
