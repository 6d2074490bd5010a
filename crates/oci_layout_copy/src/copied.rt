use crate::clean_up::CleanUp;
use oci_copy::Report;

/// What a copy did.
#[derive(Drop)]
pub struct Copied {
    /// The report of the copy.
    pub report: Report,
    /// What was removed, with `--prune`.
    pub removed: Option<CleanUp>,
}
