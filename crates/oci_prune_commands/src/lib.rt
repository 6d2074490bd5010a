//! The commands of `ocicp` that remove: [`run_untag`] removes a tag of an image layout, and
//! [`run_prune`] removes the files that its index, or its tags, do not need. It prints a [`FullAnswer`].
//!
//! [`untag_and_save`] removes a tag of an open layout with what belonged to it alone, and
//! [`forget_and_save`] a name that is no tag. Their contracts say what that leaves.
#![tactic(auto)]

mod along;
mod answer;
mod prune;
mod untag;

pub use answer::FullAnswer;
pub use prune::run_prune;
pub use untag::{forget_and_save, run_untag, untag_and_save};
