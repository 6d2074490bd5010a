ghost use Rattle.std.specs.Prelude.{◌≡◌, Some, length};

use oci_plan::Plan;
use serde::Serialize;
use std::fmt;
use std::fmt::Display;

/// The numbers of a successful copy.
///
/// It prints as `planned 2 pushed 2 skipped 0`, and serializes as an object with its three members.
#[derive(Clone, Copy, Debug, PartialEq, Eq, Serialize)]
pub struct Report {
    /// The number of planned keys.
    pub planned: u64,
    /// The number of entries that the destination gained.
    pub pushed: u64,
    /// The number of distinct roots that the destination had before.
    pub skipped: u64,
}

impl Display for Report {
    ghost use Rattle.oci_copy.specs.Report.{report_text};

    ghost output = { λ r. Some (report_text r) };

    fn fmt<W: fmt::Write>(&self, f: &mut fmt::Formatter<W>) -> fmt::Result {
        let Report {
            planned,
            pushed,
            skipped,
        } = *self;
        write!(f, "planned {planned} pushed {pushed} skipped {skipped}")
    }
}

/// Returns the report of a copy that pushed all planned keys.
pub(crate) fn report_of(plan: &Plan) -> Report
    ensures planned { result.planned ≡ length plan.now.keys }
    ensures pushed { result.pushed ≡ length plan.now.keys }
    ensures skipped { result.skipped ≡ length plan.now.skipped }
{
    let planned = plan.len() as u64;
    Report {
        planned,
        pushed: planned,
        skipped: plan.skipped().len() as u64,
    }
}
