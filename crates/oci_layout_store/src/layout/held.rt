ghost use Rattle.std.specs.Prelude.{◌≡◌, ◌++◌, ◌∷◌, [], false, OnOk};
ghost use Rattle.oci_store.specs.Keyed.{has_key};
ghost use Rattle.oci_layout_store.specs.Stated.{IsNoted};

use crate::layout::stated::Stated;
use oci_digest::NoMemory;
use oci_manifest::{Key, Links};
use oci_store::Graph;
use std::alloc::Global;

/// The held keys of a layout.
#[derive(Drop)]
pub(crate) struct Held {
    /// The keys, each with the keys that it lists.
    pub(crate) graph: Graph,
    /// What they state.
    pub(crate) stated: Stated,
}

impl Held {
    /// Returns no keys. Does not allocate.
    pub(crate) fn none(alloc: Global) -> Held
        ensures graph { result.graph ≡ [] }
        ensures subjects { result.stated.subjects.items ≡ [] }
        ensures undistributed { result.stated.undistributed.items ≡ [] }
    {
        Held {
            graph: Graph::new(alloc),
            stated: Stated::none(alloc),
        }
    }

    /// Holds a key with these links, unless it is held already.
    pub(crate) fn add(&mut self, key: &Key, links: Links) -> Result<(), NoMemory>
        ensures graph { OnOk result (has_key self.old.graph key.now ≡ false
            → self.new.graph ≡ self.old.graph ++ (key.now, links.successors.items) ∷ []) }
        ensures stated { OnOk result (has_key self.old.graph key.now ≡ false
            → IsNoted self.old.stated key.now links self.new.stated) }
    {
        if self.graph.holds(key) {
            return Ok(());
        }
        let Links {
            successors,
            subject,
            undistributed,
        } = links;
        self.stated.note(key, subject, &undistributed)?;
        self.graph.push(key, successors)?;
        Ok(())
    }
}
