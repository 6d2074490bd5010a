//! The answer of a prune: [`PruneAnswer`] says what was removed, or what would be. The commands that prune
//! print it by [`print_answer_with_fault`], which then refuses the command if the prune has a fault.
#![tactic(auto)]

mod prune_answer;

pub use prune_answer::{PruneAnswer, print_answer_with_fault};
