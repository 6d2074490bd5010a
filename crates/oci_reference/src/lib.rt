//! What the words of a command name in an open image layout.
//!
//! [`resolve`] finds the key of a reference, or says what is wrong with a damaged one. [`pick_platform`]
//! finds the manifest that an index lists for a platform ([`Picked`]), and [`listed_platforms`] says which
//! platforms an index lists.
#![tactic(auto)]

mod platform;
mod reference;

pub use platform::{Picked, listed_platforms, pick_platform};
pub use reference::resolve;
