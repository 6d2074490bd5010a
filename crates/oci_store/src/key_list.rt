ghost use Rattle.std.specs.Prelude.{◌≡◌, [], length, Some, slice_get, IfOk, OnOk, OnErr};
ghost use Rattle.std.specs.List.{IsDistinct};
ghost use Rattle.std.specs.Option.{option_copied};
ghost use Rattle.oci_manifest.specs.Descriptor.{same_key};
ghost use Rattle.oci_store.specs.Visiting.{with_key, with_keys};

use oci_digest::NoMemory;
use oci_manifest::Key;
use std::alloc::Global;
use std::collections::BTreeMap;
use std::marker::Model;

/// Distinct keys in order of arrival. A key is found in logarithmic time.
///
/// A walk along successors keeps the keys that it has reached in such a list.
#[derive(Drop)]
pub struct KeyList {
    keys: Vec<Key>,
    index: BTreeMap<Key, usize>,
}

impl Model for KeyList {
    ghost use Rattle.std.specs.Prelude.{List};
    ghost use Rattle.oci_manifest.specs.Descriptor.{Descriptor};
    ghost use Rattle.oci_store.specs.KeyList.{IsIndexOf};

    ghost Value = { List Descriptor };

    ghost view = { λ l. l.keys.items };

    ghost invariant = { λ l. IsIndexOf l.index l.keys.items };
}

impl KeyList {
    /// Creates an empty list. Does not allocate.
    pub fn new(alloc: Global) -> KeyList
        ensures { result ≡ [] }
    {
        KeyList {
            keys: Vec::new(alloc),
            index: BTreeMap::new(alloc),
        }
    }

    /// Returns the number of keys.
    pub fn len(&self) -> usize
        ensures { result ≡ length self.now }
    {
        self.keys.len()
    }

    /// Returns the key at a place, counted from 0.
    pub fn get(&self, place: usize) -> Option<&Key>
        ensures { option_copied result ≡ slice_get self.now place }
    {
        self.keys.get(place)
    }

    /// Returns the place of a key. If the key is new, a copy of it is appended.
    ///
    /// # Errors
    ///
    /// Returns [`NoMemory`] if an allocation fails. The list is then unchanged.
    pub fn place(&mut self, key: &Key) -> Result<usize, NoMemory>
        ensures keys { OnOk result (self.new ≡ with_key self.old key.now) }
        ensures place { IfOk result (λ place. slice_get self.new place ≡ Some key.now) }
        ensures refused { OnErr result (self.new ≡ self.old) }
    {
        if let Some(place) = self.index.get(key) {
            return Ok(*place);
        }
        let place = self.keys.len();
        let copy = key.try_clone()?;
        self.keys.push(key.try_clone()?)?;
        match self.index.insert(copy, place) {
            Ok(_) => Ok(place),
            Err(refused) => {
                self.keys.pop();
                Err(NoMemory::from(refused))
            }
        }
    }

    /// Appends each of these keys that is new.
    ///
    /// # Errors
    ///
    /// Returns [`NoMemory`] if an allocation fails. Some of the keys may then be in the list.
    pub fn place_all(&mut self, keys: &[Key]) -> Result<(), NoMemory>
        ensures { OnOk result (self.new ≡ with_keys self.old keys.now) }
    {
        for key in keys {
            self.place(key)?;
        }
        Ok(())
    }

    /// Returns the keys in order.
    pub fn into_keys(self) -> Vec<Key>
        ensures keys { result.items ≡ self }
        ensures distinct { IsDistinct same_key result.items }
    {
        self.keys
    }
}
