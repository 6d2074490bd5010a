//! Copies between two image layouts, and mirrors.
//!
//! [`plan_from`] plans a copy from a layout, and names a damaged file that it needs.
//! [`copy_between`] makes a planned copy of [`Selected`](oci_selection::Selected) blobs, sets their tags
//! and saves the destination. Its contract says what the copy leaves.
//!
//! [`mirror::mirror`] also removes from the destination what the source does not have: the tags beside
//! those of its [`Goal`], and what no tag then needs ([`CleanUp`]). [`mirror::prepare_destination`] makes
//! the goal: what is selected, and what the mirror leaves alone. [`check_source`] refuses a source that a
//! mirror must not follow. [`plan_mirror`] says what a mirror would remove ([`PlannedCleanUp`]), and
//! changes nothing.
//!
//! [`Copied`] is what a copy did. [`tag_all`] sets tags of held keys. [`Host`] is the runtime that the
//! commands need.
#![tactic(auto)]

mod between;
mod clean_up;
mod copied;
mod goal;
mod host;
mod kept;
pub mod mirror;
mod planned;
mod planning;
mod retag;
mod whole;

pub use between::{copy_between, tag_all};
pub use clean_up::CleanUp;
pub use copied::Copied;
pub use goal::Goal;
pub use host::Host;
pub use planned::{PlannedCleanUp, plan_mirror};
pub use planning::plan_from;
pub use whole::check_source;
