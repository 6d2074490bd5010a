ghost use Rattle.std.specs.Prelude.{◌≡◌, ◌||◌, ◌&&◌, false, List, [], ◌∷◌, ◌++◌, None, OnOk, OnErr};
ghost use Rattle.std.specs.BTreeMap.{Updates};
ghost use Rattle.std.specs.BTreeSet.{contains};
ghost use Rattle.oci_manifest.specs.Descriptor.{Descriptor, IsKey, key_cmp, same_key, is_among};
ghost use Rattle.oci_store.specs.ByDigest.{digest_cmp};
ghost use Rattle.oci_store.specs.Graph.{Node};
ghost use Rattle.oci_store.specs.Predecessors.{is_predecessor};
ghost use Rattle.oci_store.specs.Indexed.{IsIndexed};
ghost use Rattle.oci_store.specs.Keyed.{has_key};

use crate::graph::by_digest::ByDigest;
use crate::graph::node::Listing;
use crate::graph::predecessors::Predecessors;
use oci_digest::NoMemory;
use oci_manifest::Key;
use std::alloc::Global;
use std::collections::BTreeMap;

/// The indexes of a graph: the place of each key, the predecessors of each key, and the keys by
/// digest.
#[derive(Drop)]
pub(crate) struct Indexes {
    pub(crate) places: BTreeMap<Key, usize>,
    pub(crate) predecessors: Predecessors,
    pub(crate) by_digest: ByDigest,
}

impl Indexes {
    pub(crate) fn new(alloc: Global) -> Indexes
        ensures { IsIndexed [] result.places result.predecessors.lists result.by_digest.keys }
    {
        Indexes {
            places: BTreeMap::new(alloc),
            predecessors: Predecessors::new(alloc),
            by_digest: ByDigest::new(alloc),
        }
    }

    /// Adds a node that follows these nodes. An error leaves the indexes as they were.
    pub(crate) fn add(
        &mut self,
        alloc: Global,
        nodes: &[Listing],
        node: &Listing,
    ) -> Result<(), NoMemory>
        requires indexed { IsIndexed nodes.now self.old.places self.old.predecessors.lists
            self.old.by_digest.keys }
        requires new { has_key nodes.now node.now.0 ≡ false }
        requires key { IsKey node.now.0 }
        ensures noted { OnOk result (IsIndexed (nodes.now ++ node.now ∷ []) self.new.places
            self.new.predecessors.lists self.new.by_digest.keys) }
        ensures refused { OnErr result (IsIndexed nodes.now self.new.places
            self.new.predecessors.lists
            self.new.by_digest.keys) }
    {
        let key = node.key().try_clone()?;
        self.places.insert(key, nodes.len())?;
        match add_key(&mut self.predecessors, &mut self.by_digest, alloc, node) {
            Ok(()) => Ok(()),
            Err(refused) => {
                forget_place(&mut self.places, node.key());
                Err(refused)
            }
        }
    }

    /// Removes the last node. Does not allocate.
    pub(crate) fn forget(&mut self, node: Listing)
        ensures { (graph : List Node)
            → IsIndexed (graph ++ node ∷ []) self.old.places self.old.predecessors.lists
            self.old.by_digest.keys
            → IsIndexed graph self.new.places self.new.predecessors.lists self.new.by_digest.keys }
    {
        forget_place(&mut self.places, node.key());
        self.predecessors.forget_all(node.key(), node.successors());
        self.by_digest.remove(node.into_key());
    }
}

/// Removes the place of a key.
fn forget_place(places: &mut BTreeMap<Key, usize>, key: &Key)
    ensures { Updates key_cmp places.old places.new key.now None }
{
    places.remove(key);
}

/// Adds a key as a predecessor of each key that it lists, and under its digest. An error leaves
/// both indexes as they were.
fn add_key(
    predecessors: &mut Predecessors,
    by_digest: &mut ByDigest,
    alloc: Global,
    node: &Listing,
) -> Result<(), NoMemory>
    requires { (key : Descriptor) → is_predecessor predecessors.old.lists node.now.0 key ≡ false }
    ensures listed { OnOk result ((other key : Descriptor)
        → is_predecessor predecessors.new.lists other key
        ≡ (is_predecessor predecessors.old.lists other key ||
        (same_key node.now.0 other && is_among node.now.1 key))) }
    ensures digest { OnOk result ((k : Descriptor) → contains digest_cmp by_digest.new.keys k
        ≡ (contains digest_cmp by_digest.old.keys k || same_key node.now.0 k)) }
    ensures unlisted { OnErr result ((other key : Descriptor)
        → is_predecessor predecessors.new.lists other key
        ≡ is_predecessor predecessors.old.lists other key) }
    ensures no_digest { OnErr result ((k : Descriptor) → contains digest_cmp by_digest.new.keys k
        ≡ contains digest_cmp by_digest.old.keys k) }
{
    predecessors.add_to_all(alloc, node.key(), node.successors())?;
    match by_digest.insert(node.key()) {
        Ok(()) => Ok(()),
        Err(refused) => {
            predecessors.forget_all(node.key(), node.successors());
            Err(refused)
        }
    }
}
