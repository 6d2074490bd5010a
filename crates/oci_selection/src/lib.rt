//! What a copy selects in its source: the keys that it starts from, the tags that it sets, and the
//! entries that it brings.
//!
//! [`Selected`] is made of one reference, of the manifest for a platform, or of every tag that matches
//! patterns; [`Selected::of`] makes it as the words of a copy ask. [`Referrers`] says what comes along:
//! nothing, what leads to the selected keys, or what is attached to them.
//!
//! [`named_keys`], [`both`] and [`joined`] make lists of keys and tags, and [`untagged_keys`] finds the images
//! that no tag names.
#![tactic(auto)]

mod referrers;
mod roots;
mod selected;
mod whole;

pub use referrers::Referrers;
pub use roots::{both, named_keys, untagged_keys};
pub use selected::{Selected, joined};
