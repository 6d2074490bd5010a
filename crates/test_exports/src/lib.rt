//! Tests of archives that are written, run through the public calls of `oci_export`: facts that no
//! contract states. A layout is written, saved and outlined if there is enough memory, and its
//! archive has the bytes that another program wrote. An archive that is not written whole has no
//! end.
//!
//! `layouts` makes layouts in memory, and their archives. `archives` compares the archive of a
//! layout with bytes and with the layout, and `refusals` has damaged blobs, writers that fail, and
//! the texts of faults. `saved` has archives in a directory, `outlines` the layout of a plan, and
//! `hooks` the calls of hooks.
#![tactic(auto)]

#[cfg(test)]
mod tests;
