//! What `index.json` had when a command first read it.
ghost use Rattle.std.specs.Prelude.{◌≡◌, ◌↔◌, IfErr, IfOk, IsTrue, OnOk};
ghost use Rattle.oci_layout_store.specs.Index.{index_file};
ghost use Rattle.oci_program.specs.SeenIndex.{IsSeenFault, IsUnreadIndex};

use crate::fault::ProgramFault;
use bytes::Bytes;
use oci_dir::Dir;
use oci_layout_store::LayoutFault;

/// The bytes that `index.json` had when a command first read it, if it was there.
///
/// Only `ocicp` heeds the lock of a folder. A command that writes the index takes one of these before it
/// opens the layout, and calls [`check`](SeenIndex::check) before it writes or removes anything that the
/// index names. What another program wrote in between is then not lost.
#[derive(Drop)]
pub struct SeenIndex(Option<Bytes>);

impl SeenIndex {
    /// Reads `index.json`.
    ///
    /// # Errors
    ///
    /// - 74 `Device` if it cannot be read.
    /// - Out of memory.
    #[tactic(auto, unfolding(oci_layout_store::specs::Index::index_file))]
    pub fn of<D: Dir>(dir: &D) -> Result<SeenIndex, ProgramFault>
        ensures seen { IfOk result (λ seen. (D.device dir.now).is_honest
            → seen.0 ≡ (D.device dir.now).file index_file) }
        ensures cause { IfErr result (IsUnreadIndex (D.device dir.now)) }
    {
        match dir.read("index.json") {
            Ok(bytes) => Ok(SeenIndex(bytes)),
            Err(fault) => Err(ProgramFault::Destination(LayoutFault::from(fault))),
        }
    }

    /// Refuses a directory whose `index.json` is another one than this.
    ///
    /// # Errors
    ///
    /// - 110 `IndexChanged` if it has other bytes, was removed, or was not there before.
    /// - 74 `Device` if it cannot be read.
    /// - Out of memory.
    #[tactic(auto, unfolding(oci_layout_store::specs::Index::index_file))]
    pub fn check<D: Dir>(&self, dir: &D) -> Result<(), ProgramFault>
        ensures same { OnOk result ((D.device dir.now).is_honest
            → (D.device dir.now).file index_file ≡ self.now.0) }
        ensures cause { IfErr result (IsSeenFault (D.device dir.now) self.now.0) }
    {
        match dir.read("index.json") {
            Ok(bytes) => {
                if is_same(&self.0, &bytes) {
                    Ok(())
                } else {
                    Err(ProgramFault::IndexChanged)
                }
            }
            Err(fault) => Err(ProgramFault::Destination(LayoutFault::from(fault))),
        }
    }
}

/// Returns whether a file that was read twice is the same.
fn is_same(first: &Option<Bytes>, second: &Option<Bytes>) -> bool
    ensures { IsTrue result ↔ (second.now ≡ first.now) }
{
    match (first, second) {
        (Some(first), Some(second)) => second.as_slice() == first.as_slice(),
        (None, None) => true,
        _ => false,
    }
}
