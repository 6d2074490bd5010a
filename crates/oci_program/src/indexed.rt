//! A folder whose `index.json` is lost.
ghost use Rattle.std.specs.Prelude.{◌≡◌, [], IfErr, OnOk};
ghost use Rattle.oci_dir.specs.Prunable.{ListsFolder};
ghost use Rattle.oci_program.specs.Indexed.{HasIndexOrNoBlobs, HasNoBlobs, IsRefusedWithout};

use crate::fault::ProgramFault;
use oci_dir::PrunableDir;
use oci_layout_store::LayoutFault;

/// Refuses a directory that has blobs and no `index.json`. A lost index is no wish that nothing be
/// kept: a command that removes what the index does not need would remove every blob.
///
/// # Errors
///
/// - 109 `NoIndex` if `blobs/sha256` or `blobs/sha512` has a file, and there is no `index.json`.
/// - 74 `Device` if a folder cannot be read.
/// - Out of memory.
#[tactic(auto, unfolding(oci_layout_store::specs::Index::index_file))]
pub fn check_index<D: PrunableDir>(dir: &D) -> Result<(), ProgramFault>
    ensures indexed { OnOk result ((D.device dir.now).is_honest
        → HasIndexOrNoBlobs (D.device dir.now).file) }
    ensures cause { IfErr result (IsRefusedWithout (D.device dir.now)
        (HasIndexOrNoBlobs (D.device dir.now).file)) }
{
    match dir.exists("index.json") {
        Ok(true) => Ok(()),
        Ok(false) => check_no_blobs(dir),
        Err(fault) => Err(ProgramFault::Destination(LayoutFault::from(fault))),
    }
}

/// Refuses a directory that has blobs.
fn check_no_blobs<D: PrunableDir>(dir: &D) -> Result<(), ProgramFault>
    ensures none { OnOk result ((D.device dir.now).is_honest
        → HasNoBlobs (D.device dir.now).file) }
    ensures cause { IfErr result (IsRefusedWithout (D.device dir.now)
        (HasNoBlobs (D.device dir.now).file)) }
{
    match check_empty(dir, "blobs/sha256") {
        Ok(()) => check_empty(dir, "blobs/sha512"),
        Err(fault) => Err(fault),
    }
}

/// Refuses a directory that has a file in this folder of blobs.
fn check_empty<D: PrunableDir>(dir: &D, folder: &str) -> Result<(), ProgramFault>
    ensures empty { OnOk result ((D.device dir.now).is_honest
        → ListsFolder (D.device dir.now).file folder.now []) }
    ensures cause { IfErr result (IsRefusedWithout (D.device dir.now)
        (ListsFolder (D.device dir.now).file folder.now [])) }
{
    match dir.list(folder) {
        Ok(files) => {
            if files.is_empty() {
                Ok(())
            } else {
                Err(ProgramFault::NoIndex)
            }
        }
        Err(fault) => Err(ProgramFault::Destination(LayoutFault::from(fault))),
    }
}
