use oci_digest::NoMemory;
use oci_manifest::Key;
use std::alloc::Global;
use std::collections::{BTreeMap, BTreeSet};

/// The platforms that an index states of the blobs that it lists.
#[derive(Drop)]
pub(crate) struct Platforms {
    by_key: BTreeMap<Key, BTreeSet<String>>,
}

impl Platforms {
    /// Returns that no platform is stated.
    pub(crate) fn none(alloc: Global) -> Platforms {
        Platforms {
            by_key: BTreeMap::new(alloc),
        }
    }

    /// Collects the platforms that are stated of each key.
    pub(crate) fn of(alloc: Global, stated: Vec<(String, Key)>) -> Result<Platforms, NoMemory> {
        let mut platforms = Platforms::none(alloc);
        for (platform, key) in stated {
            platforms.add(alloc, platform, key)?;
        }
        Ok(platforms)
    }

    /// Adds a platform of a key, if it is new.
    fn add(&mut self, alloc: Global, platform: String, key: Key) -> Result<(), NoMemory> {
        if let Some(platforms) = self.by_key.get_mut(&key) {
            platforms.insert(platform)?;
            return Ok(());
        }
        let mut platforms = BTreeSet::new(alloc);
        platforms.insert(platform)?;
        self.by_key.insert(key, platforms)?;
        Ok(())
    }

    /// Takes out the platforms of a key, in byte order.
    pub(crate) fn take(&mut self, alloc: Global, key: &Key) -> BTreeSet<String> {
        match self.by_key.remove(key) {
            Some(platforms) => platforms,
            None => BTreeSet::new(alloc),
        }
    }
}
