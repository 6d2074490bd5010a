//! The command line of `ocicp`: the reading of its words, the help texts, and the meaning of each
//! error number.
//!
//! | Type | What it is |
//! |---|---|
//! | [`CommandLine`] | a valid command line; [`CommandLine::parse`] reads it |
//! | [`Request`] | its command |
//! | [`CopyWords`] | the words of `copy` |
//! | [`TagWords`] | the words of `tag` |
//! | [`UntagWords`] | the words of `untag` |
//! | [`PruneWords`] | the words of `prune` |
//! | [`RepairWords`] | the words of `repair` |
//! | [`MemWords`] | the words of `mem` |
//! | [`Query`] | a command that reads one layout |
//! | [`Explanations`] | the explanations of an error number, or of those that have a name |
//! | [`CommandLineFault`] | why parsing failed |
//!
//! [`first_sentence`] returns the meaning of an error number in one sentence.
#![tactic(auto)]

mod changing;
mod explain;
mod memory;
mod request;
mod words;

pub use changing::{CopyWords, PruneWords, RepairWords, Selection, Shown, TagWords, UntagWords};
pub use explain::{Explanation, Explanations, first_sentence};
pub use memory::{Algorithm, MemWords};
pub use request::{CommandLine, CommandLineFault, Query, Request};
