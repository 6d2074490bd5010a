//! Tests of image layouts and of their repairs, run through their public calls.
//!
//! [`save_and_open`] is proved: a layout that is opened after a save is the one that was saved. The
//! rest are tests of facts that no contract states: a call succeeds if there is enough memory, the
//! files have the bytes that the standard and other tools prescribe, and a folder then has the
//! right files.
//!
//! `tests` has `round_trips` (a layout is created, filled, saved and opened again, in memory and
//! in a folder), `referrers` (the index of an image that was copied with its referrers),
//! `algorithms` (SHA-512 digests), `fuses` (puts that fail), `crash` (crashes while a layout
//! grows), `openings` (layouts that are not opened, and indexes that other tools wrote), `brought`
//! (entries that are brought), `no_descriptors` (entries that are no descriptors), `damaged`
//! (damaged files), `corrupt` (the search for damaged blobs by workers), `pushes` (old files, and
//! files that changed), `changing` (a source whose files change during the copy), `failures` (the
//! first call of the system that fails), `failing` (a read or a put that fails once, and a second
//! copy), `arrivals` (the calls for each part that is read), `blobs` (blobs and drafts that are
//! removed, and blobs that are put again), `repairs` (plans of repairs, and repairs, also with reads
//! and puts that fail) and `locks` (the lock of a folder). What the program shows is in `checks/`
//! at the top of the repository.
//!
//! Many tests are lists of steps, each with its expected result as text. `steps` takes them, with
//! `layouts` (steps with a layout), `files` (steps with files) and `copies` (copies into a layout).
//! `texts` lists the marks that a text may have in place of a sample's key, digest, path, bytes or
//! descriptor.
//!
//! `host` has the bounds on the runtime of a test in a folder. `faulty` has the directory that
//! `changing`, `failing`, `arrivals` and `repairs` use: its reads or puts fail, or one of its files
//! changes.
#![tactic(auto)]

mod saving;
#[cfg(test)]
mod tests;

pub use saving::save_and_open;
