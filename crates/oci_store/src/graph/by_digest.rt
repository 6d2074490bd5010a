ghost use Rattle.std.specs.Prelude.{◌≡◌, ◌&&◌, ◌||◌, not, false, List, OnOk, OnErr};
ghost use Rattle.std.specs.BTreeSet.{contains};
ghost use Rattle.std.specs.Map.{keys_of};
ghost use Rattle.std.specs.Option.{option_copied};
ghost use Rattle.oci_manifest.specs.Descriptor.{Descriptor, same_key};
ghost use Rattle.oci_store.specs.ByDigest.{digest_cmp, AreKeysOf};
ghost use Rattle.oci_store.specs.Graph.{Node};
ghost use Rattle.oci_store.specs.Tags.{IsLeastOf};

use crate::graph::digest_first::DigestFirst;
use oci_digest::{Digest, NoMemory};
use oci_manifest::Key;
use std::alloc::Global;
use std::collections::BTreeSet;

/// Keys in the order of their digests.
#[derive(Drop)]
pub(crate) struct ByDigest {
    keys: BTreeSet<DigestFirst>,
}

impl ByDigest {
    pub(crate) fn new(alloc: Global) -> ByDigest
        ensures { (k : Descriptor) → contains digest_cmp result.keys k ≡ false }
    {
        ByDigest {
            keys: BTreeSet::new(alloc),
        }
    }

    pub(crate) fn insert(&mut self, key: &Key) -> Result<(), NoMemory>
        ensures noted { OnOk result ((k : Descriptor) → contains digest_cmp self.new.keys k
            ≡ (contains digest_cmp self.old.keys k || same_key key.now k)) }
        ensures refused { OnErr result ((k : Descriptor) → contains digest_cmp self.new.keys k
            ≡ contains digest_cmp self.old.keys k) }
    {
        self.keys.insert(DigestFirst::new(key.try_clone()?))?;
        Ok(())
    }

    pub(crate) fn remove(&mut self, key: Key)
        ensures { (k : Descriptor) → contains digest_cmp self.new.keys k
            ≡ (contains digest_cmp self.old.keys k && not (same_key key k)) }
    {
        let key = DigestFirst::new(key);
        self.keys.remove(&key);
    }

    /// Returns the least key with a digest.
    pub(crate) fn least(&self, alloc: Global, digest: &Digest) -> Option<&Key>
        ensures { (graph : List Node) → AreKeysOf graph self.now.keys
            → IsLeastOf (keys_of graph) digest.now (option_copied result) }
    {
        // The least possible key of this digest has an empty media type and size 0.
        let Ok(first) = Key::new(String::new(alloc), *digest, 0) else {
            unreachable!();
        };
        let first = DigestFirst::new(first);
        let mut keys = self.keys.range(&first..);
        let least = keys.next()?.key();
        if *least.digest() != *digest {
            return None;
        }
        Some(least)
    }
}
