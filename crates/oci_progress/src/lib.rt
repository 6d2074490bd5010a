//! What a command shows while it runs.
//!
//! | Type | What it is |
//! |---|---|
//! | [`ProgressLine`] | a line on a terminal: how much of an [`Amount`] has arrived, and how fast |
//! | [`Progress`] | the hooks of a copy, which draw that line or print a line for each blob |
//! | [`Readable`], [`TimeLeft`] | a size, and a time, as people read them |
//!
//! [`rate`] is the speed of an amount in a time.
#![tactic(auto)]

mod progress;
mod progress_line;
mod readable;
mod speed;

pub use progress::Progress;
pub use progress_line::{Amount, ProgressLine};
pub use readable::{Readable, TimeLeft};
pub use speed::rate;
