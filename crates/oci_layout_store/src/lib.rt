//! Image layouts: a store of content in a directory (OCI image specification 1.1, image-layout.md).
//!
//! A layout has a file `oci-layout` with the version, a file `index.json` that names contents, and
//! a file `blobs/ALGORITHM/DIGITS` for each content. [`Layout`] is a store over such a directory.
//! It implements `Source`, `GraphSource`, `Dest`, `Tagger` and `Untagger` of `oci_store`.
//! [`Layout::create`] creates an empty layout, [`Layout::open`] and [`Layout::open_as_is`] open an
//! existing one, also one that another tool wrote, and [`Layout::open_or_create`] opens or creates
//! one. A push writes its file at once. A tag is set or removed only in memory until
//! [`Layout::save`] writes the index.
//!
//! To give back the space of contents that are no longer needed, [`Layout::retain`] drops keys from
//! the layout, and after a save [`Layout::remove_blob`] removes their files. [`Layout::blobs`]
//! lists the files of contents, and [`Layout::leftovers`] what killed processes left.
//!
//! A file that was damaged is put again by [`Layout::replace`], or from a draft by
//! [`Layout::replace_draft`]. [`check_version`], [`links_in`] and [`blob_path`] read a directory
//! without its index.
//!
//! The graph of the held contents is in memory. It is read from the files when a layout is opened,
//! and each push adds to it. The bytes are in the files. If another program changes a file, a fetch
//! of it fails with `Corrupt`; the keys and their successors stay as they were read. Statements
//! about bytes assume that the directory returns what was written, and that no other program writes
//! into it.
//!
//! The directory is any `Dir` of `oci_dir`.
//!
//! A caller that changes the layout in a folder holds the folder's lock from before `create` or
//! `open` until after `save`. If two callers write at once without it, the later `save`
//! drops the other's tags and entries from the index. A blob never gets other bytes than its digest
//! says, whatever other processes of this library do. A caller that only reads needs no lock, since
//! files are replaced whole.
//!
//! `save` writes an entry's media type, digest, size and name. What else another tool wrote into
//! the index (`platform`, other annotations, `artifactType`, `urls`, `data`, members of the index
//! itself) is kept if the layout was opened by [`Layout::open_as_is`], and lost if it was opened by
//! [`Layout::open`]. The blobs are unchanged. [`Layout::bring`] takes over entries of another
//! layout's index with all that they say.
//!
//! The faults, [`LayoutFault`], have the numbers 70 to 78.
//!
//! [`Layout::save_settled`] writes the index so that a power cut at any moment leaves the layout as
//! it was saved last, or as it is now, and waits until the new one is on the disk. Pushes, and the
//! removal of files that the saved layout does not need, leave what was saved. Statements about a
//! power cut assume of a folder that what the system says is on the disk stays there, and that a
//! file is renamed as a whole.
//!
//! Five functions do nothing when they run: their contracts are laws. By [`opens_as_saved`] a
//! closed and sound layout that is opened from its saved files has the same bytes under each key,
//! the same tags, and no absent keys. By [`opens_as_written`] one that is opened as it is also
//! remembers the entries that were saved, and writes them again. By [`keys_of_one_digest`] keys of
//! one digest have the same bytes in a layout. By [`lasting_is_left`] a layout that lasts is there
//! after a power cut, and by [`opens_as_kept`] one whose files are there is opened again as it was,
//! with the same bytes.
#![tactic(auto)]

mod fault;
mod index;
mod layout;
mod meant;
mod opened_index;

pub use fault::LayoutFault;
pub use index::{IndexEntry, Names};
pub use layout::{
    Layout, blob_path, check_version, keys_of_one_digest, lasting_is_left, links_in, opens_as_kept,
    opens_as_saved, opens_as_written, unnamed_keys, unreadable_entry,
};
pub use opened_index::OpenedIndex;
