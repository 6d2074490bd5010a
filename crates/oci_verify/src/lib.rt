//! The finder of damaged blobs of an image layout.
//!
//! [`corrupt_keys`] reads the files of a layout by several workers, and returns the keys whose files
//! are damaged or do not match them. A [`FileWatcher`] is told what was read. [`is_corrupt`] checks
//! the file of one key. [`damaged_keys`] returns the keys that were passed over when the layout was
//! opened as it is, without a read. [`corrupt_keys_among`] reads the files of some keys only, such as
//! [`reached_keys`], those that a key reaches.
//!
//! A file is checked as it is read, and not kept: a layer of any size takes one part of memory.
//! Statements about files assume that the directory returns what was written into it, and has the
//! file of each held key, as after the layout was opened.
//!
//! [`VerifyFault`] has the numbers 22 and 61 to 63.
#![tactic(auto)]

mod asked;
mod fault;
mod file_check;
mod job;
mod reached;
mod search;
mod watcher;

pub use asked::is_asked;
pub use fault::VerifyFault;
pub use file_check::is_corrupt;
pub use reached::reached_keys;
pub use search::{corrupt_keys, corrupt_keys_among, damaged_keys};
pub use watcher::FileWatcher;
