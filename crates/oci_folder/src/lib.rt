//! Folders of the file system as directories, and their locks.
//!
//! [`FsDir`] is the `Dir` of a folder, and [`FsDraft`] a file that is written in parts beside its
//! place. A caller that changes the files of a folder holds its [`FolderLock`] meanwhile. A folder
//! made by [`FsDir::noting`] notes the first call of the system that fails.
//!
//! What is proved of every directory holds of a folder on a premise, which no program can check: it
//! returns what was written to it, and nobody else writes into it. Statements about a power cut also
//! assume that what the system says is on the disk stays there, and that a file is renamed as a whole.
#![tactic(auto)]

mod fs_dir;

pub use fs_dir::{FolderLock, FsDir, FsDraft, Lockable, folder_and_name, remove_leftovers_of};
