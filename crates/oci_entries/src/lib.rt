//! The tags and the entries of the index of an image layout: which of them match patterns, and which
//! entries a copy brings.
//!
//! In a pattern `*` stands for any text, `?` for any one character, and each other character for
//! itself. If there are no patterns, every name matches.
//!
//! | Function | What it returns |
//! |---|---|
//! | [`matching_tags`], [`matching_entries`] | those whose names match one of the patterns |
//! | [`unmatched_tags`] | those whose names match none |
//! | [`is_matching`] | whether an entry has a name that matches |
//! | [`entry_of_reference`] | the entry of a reference, under the name of a tag |
//! | [`entries_of_reference`], [`entries_of_listed`], [`entries_of_tags`] | the entries that a copy brings |
//!
//! [`CopyRoots`] are the roots of a copy, and the tags that come with them.
#![tactic(auto)]

mod brought;
mod copy_roots;
mod matching;
mod pattern;

pub use brought::{entries_of_listed, entries_of_reference, entries_of_tags, entry_of_reference};
pub use copy_roots::CopyRoots;
pub use matching::{is_matching, matching_entries, matching_tags, unmatched_tags};
