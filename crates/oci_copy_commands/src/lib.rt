//! The command `copy` of `ocicp`: [`run_copy`] copies between image layouts, and [`run_archive`] and
//! [`run_archive_to_output`] write the copy as a tar archive.
//!
//! What is copied is selected by `oci_selection`, and the copy and the mirror are made by
//! `oci_layout_copy`. This crate opens and locks the folders, plans dry runs, and prints the answers.
#![tactic(auto)]

mod answer;
mod archive;
mod behind;
mod copy;
mod destination;
mod dry_run;

pub use archive::{run_archive, run_archive_to_output};
pub use copy::run_copy;
