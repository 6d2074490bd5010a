//! The commands `tag` and `mem` of `ocicp`: [`run_tag`] sets a tag of a layout, and takes its entry as a
//! copy does, and [`run_mem`] copies in memory.
//!
//! [`tag_and_save`] sets a tag of an open layout, and its contract says what that leaves.
#![tactic(auto)]

mod item;
mod mem;
mod tag;

pub use mem::run_mem;
pub use tag::{run_tag, tag_and_save};
