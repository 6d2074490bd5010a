ghost use Rattle.std.specs.Prelude.{◌≡◌, ◌↔◌, ◌∷◌, ◌<◌, [], true, length, IfOk, OnOk};
ghost use Rattle.std.specs.BTreeSet.{contains};
ghost use Rattle.oci_manifest.specs.Descriptor.{Descriptor, key_cmp};
ghost use Rattle.oci_store.specs.Graph.{Reaches};
ghost use Rattle.oci_verify.specs.Reached.{IsStep};

use crate::search::set_of;
use oci_digest::NoMemory;
use oci_manifest::Key;
use oci_store::{GraphSource, KeyList};
use std::alloc::Global;
use std::collections::BTreeSet;

/// Returns the keys that a key reaches: itself, and with each held key those that it lists, also
/// those that are not held. The walk does not recurse, and visits each key once. No file is read.
///
/// # Errors
///
/// `NoMemory` if memory runs out.
pub fn reached_keys<S: GraphSource>(
    alloc: Global,
    source: &S,
    key: &Key,
) -> Result<BTreeSet<Key>, NoMemory>
    ensures { IfOk result (λ reached. (k : Descriptor) → (contains key_cmp reached k ≡ true)
        ↔ Reaches (S.state source.now).nodes (key.now ∷ []) k) }
{
    let mut found = KeyList::new(alloc);
    found.place(key)?;
    let mut place = 0;
    while place < found.len() {
        place_listed(source, place, &mut found)?;
        place += 1;
    }
    set_of(alloc, &found.into_keys())
}

/// Adds the keys that the key at a place lists, if it is held.
fn place_listed<S: GraphSource>(
    source: &S,
    place: usize,
    found: &mut KeyList,
) -> Result<(), NoMemory>
    requires { place < length found.old }
    ensures { OnOk result (IsStep (S.state source.now).nodes place found.old found.new) }
{
    let Some(key) = found.get(place) else {
        unreachable!();
    };
    let Some(listed) = source.successors(key)? else {
        return Ok(());
    };
    found.place_all(&listed)
}
