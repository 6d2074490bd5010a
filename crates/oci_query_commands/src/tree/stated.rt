use crate::tree::Platforms;
use oci_digest::NoMemory;
use oci_manifest::{Key, Kind, ManifestFault, undistributed};
use oci_program::ProgramFault;
use oci_reference::listed_platforms;
use std::alloc::Global;
use std::collections::BTreeSet;

/// What the content of a manifest states of what it lists, beside the keys that the layout's graph has.
#[derive(Drop)]
pub(crate) struct Stated {
    /// The platforms that an index states.
    pub(crate) platforms: Platforms,
    /// The layers that are not to be distributed, each once, in their order.
    pub(crate) undistributed: Vec<Key>,
}

impl Stated {
    /// Returns that nothing is stated.
    pub(crate) fn nothing(alloc: Global) -> Stated {
        Stated {
            platforms: Platforms::none(alloc),
            undistributed: Vec::new(alloc),
        }
    }

    /// Reads what the bytes of a manifest state.
    pub(crate) fn read(alloc: Global, key: &Key, bytes: &[u8]) -> Result<Stated, ProgramFault> {
        let listed = listed_platforms(alloc, key, bytes)?;
        Ok(Stated {
            platforms: Platforms::of(alloc, listed)?,
            undistributed: undistributed_in(alloc, Kind::of(key.media_type()), bytes)?,
        })
    }
}

/// Returns the layers that a manifest lists and that are not to be distributed, each once, in their
/// order. Bytes that are no manifest list none.
fn undistributed_in(alloc: Global, kind: Kind, bytes: &[u8]) -> Result<Vec<Key>, NoMemory> {
    match undistributed(alloc, kind, bytes) {
        Ok(keys) => distinct(alloc, keys),
        Err(ManifestFault::Memory) => Err(NoMemory),
        Err(_) => Ok(Vec::new(alloc)),
    }
}

/// Returns these keys, each once, at its first place.
fn distinct(alloc: Global, keys: Vec<Key>) -> Result<Vec<Key>, NoMemory> {
    let mut seen = BTreeSet::new(alloc);
    let mut found = Vec::new(alloc);
    for key in keys {
        if seen.insert(key.try_clone()?)? {
            found.push(key)?;
        }
    }
    Ok(found)
}
