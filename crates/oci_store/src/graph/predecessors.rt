ghost use Rattle.std.specs.Prelude.{◌≡◌, ◌↔◌, ◌&&◌, ◌||◌, ◌++◌, ◌∷◌, [], not, true, false, filter, Contains, IfOk, OnOk, OnErr};
ghost use Rattle.std.specs.BTreeSet.{contains};
ghost use Rattle.std.specs.List.Sorted.{IsStrictlySortedBy};
ghost use Rattle.oci_manifest.specs.Descriptor.{Descriptor, key_cmp, same_key, is_among};
ghost use Rattle.oci_store.specs.Predecessors.{is_predecessor};

use oci_digest::NoMemory;
use oci_manifest::Key;
use std::alloc::Global;
use std::collections::{BTreeMap, BTreeSet};

/// The predecessors of each listed key, in order of arrival.
#[derive(Drop)]
pub(crate) struct Predecessors {
    lists: BTreeMap<Key, Vec<Key>>,
}

impl Predecessors {
    pub(crate) fn new(alloc: Global) -> Predecessors
        ensures { (predecessor listed : Descriptor)
            → is_predecessor result.lists predecessor listed ≡ false }
    {
        Predecessors {
            lists: BTreeMap::new(alloc),
        }
    }

    /// Adds a new predecessor to each of these keys. An error leaves the lists as they were.
    pub(crate) fn add_to_all(
        &mut self,
        alloc: Global,
        predecessor: &Key,
        listed: &[Key],
    ) -> Result<(), NoMemory>
        requires { (key : Descriptor) → is_predecessor self.old.lists predecessor.now key ≡ false }
        ensures noted { OnOk result ((other key : Descriptor)
            → is_predecessor self.new.lists other key
            ≡ (is_predecessor self.old.lists other key ||
            (same_key predecessor.now other && is_among listed.now key))) }
        ensures refused { OnErr result ((other key : Descriptor)
            → is_predecessor self.new.lists other key ≡ is_predecessor self.old.lists other key) }
    {
        for key in listed {
            if let Err(refused) = self.add_to(alloc, predecessor, key) {
                self.forget_all(predecessor, listed);
                return Err(refused);
            }
        }
        Ok(())
    }

    /// Removes a predecessor from each of these keys. Does not allocate, and looks at all
    /// predecessors of each key.
    pub(crate) fn forget_all(&mut self, predecessor: &Key, listed: &[Key])
        ensures { (other key : Descriptor) → is_predecessor self.new.lists other key
            ≡ (is_predecessor self.old.lists other key && not
            (same_key predecessor.now other && is_among listed.now key)) }
    {
        for key in listed {
            self.forget(predecessor, key);
        }
    }

    /// Returns the predecessors of a key, in key order.
    pub(crate) fn of(&self, alloc: Global, listed: &Key) -> Result<Vec<Key>, NoMemory>
        ensures each { IfOk result (λ keys. (predecessor : Descriptor)
            → Contains keys.items predecessor
            ↔ (is_predecessor self.now.lists predecessor listed.now ≡ true)) }
        ensures order { IfOk result (λ keys. IsStrictlySortedBy key_cmp keys.items) }
    {
        let Some(keys) = self.lists.get(listed) else {
            return Ok(Vec::new(alloc));
        };
        let set = set_of(alloc, keys)?;
        let keys = keys_of_set(alloc, &set)?;
        Ok(keys)
    }

    /// Adds a new predecessor to a key. An error leaves the lists as they were.
    fn add_to(&mut self, alloc: Global, predecessor: &Key, listed: &Key) -> Result<(), NoMemory>
        ensures noted { OnOk result ((other key : Descriptor)
            → is_predecessor self.new.lists other key
            ≡ (is_predecessor self.old.lists other key ||
            (same_key predecessor.now other && same_key key listed.now))) }
        ensures refused { OnErr result ((other key : Descriptor)
            → is_predecessor self.new.lists other key ≡ is_predecessor self.old.lists other key) }
    {
        let predecessor = predecessor.try_clone()?;
        if let Some(keys) = self.lists.get_mut(listed) {
            put(keys, predecessor)?;
            return Ok(());
        }
        let mut keys = Vec::new(alloc);
        put(&mut keys, predecessor)?;
        self.lists.insert(listed.try_clone()?, keys)?;
        Ok(())
    }

    fn forget(&mut self, predecessor: &Key, listed: &Key)
        ensures { (other key : Descriptor) → is_predecessor self.new.lists other key
            ≡ (is_predecessor self.old.lists other key && not
            (same_key predecessor.now other && same_key key listed.now)) }
    {
        if let Some(keys) = self.lists.get_mut(listed) {
            take_out(keys, predecessor);
        }
    }
}

/// Appends a key.
fn put(keys: &mut Vec<Key>, predecessor: Key) -> Result<(), NoMemory>
    ensures put { OnOk result (keys.new.items ≡ keys.old.items ++ predecessor ∷ []) }
    ensures refused { OnErr result (keys.new.items ≡ keys.old.items) }
{
    keys.push(predecessor)?;
    Ok(())
}

/// Removes a key from a list.
fn take_out(keys: &mut Vec<Key>, predecessor: &Key)
    ensures { keys.new.items ≡ filter (λ key. not (same_key key predecessor.now)) keys.old.items }
{
    keys.retain(|key| *key != *predecessor);
}

/// Returns the set of these keys.
fn set_of(alloc: Global, keys: &[Key]) -> Result<BTreeSet<Key>, NoMemory>
    ensures { IfOk result (λ set. (key : Descriptor)
        → contains key_cmp set key ≡ is_among keys.now key) }
{
    let mut set = BTreeSet::new(alloc);
    for key in keys {
        set.insert(key.try_clone()?)?;
    }
    Ok(set)
}

/// Returns the keys of a set, in key order.
///
/// # Errors
///
/// Returns [`NoMemory`] if an allocation fails.
pub fn keys_of_set(alloc: Global, set: &BTreeSet<Key>) -> Result<Vec<Key>, NoMemory>
    ensures keys { IfOk result (λ keys. keys.items ≡ set.now.keys) }
    ensures order { IfOk result (λ keys. IsStrictlySortedBy key_cmp keys.items) }
{
    let mut keys = Vec::new(alloc);
    for key in set.iter() {
        keys.push(key.try_clone()?)?;
    }
    Ok(keys)
}
