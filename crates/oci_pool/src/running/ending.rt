ghost use Rattle.std.specs.Prelude.{◌≡◌, ◌≤◌, [], MatchResult, vec_capacity};
ghost use Rattle.oci_pool.specs.Workers.{MayCome};
ghost use Rattle.oci_pool.specs.Run.{AreResults, IsStop};

use crate::fault::PoolFault;
use crate::job::{Job, RunStart};
use crate::stopped::Stopped;
use crate::table::Table;

/// Returns the outcome of a run whose workers have ended: the fault that they reported, or the
/// least number without a result, or all results. The results are returned in `done` or `all`,
/// which are empty and have room.
pub(super) fn answer<J: Job, T: RunStart<J::Out, J::Fault>>(
    table: Table<J, T>,
    done: Vec<(u32, J::Out)>,
    all: Vec<J::Out>,
    fault: Option<PoolFault<J::Fault>>,
) -> Result<Vec<J::Out>, Stopped<J>>
    requires workers { T.workers ≤ 64 }
    requires room { (done.items ≡ []) × (all.items ≡ []) × (T.count ≤ vec_capacity done)
        × (T.count ≤ vec_capacity all) × (T.count ≤ 4294967295) }
    requires fault { MayCome T.count T.fails fault }
    ensures { MatchResult result (AreResults T.count T.answers)
        (λ s. IsStop T.workers T.count T.answers T.fails s.done.items s.fault) }
{
    if let Some(fault) = fault {
        let done = table.list_done(done);
        return Err(Stopped { done, fault });
    }
    if let Some(k) = table.first_missing() {
        let done = table.list_done(done);
        return Err(Stopped {
            done,
            fault: PoolFault::Incomplete(k as u32),
        });
    }
    Ok(table.list_all(all))
}
