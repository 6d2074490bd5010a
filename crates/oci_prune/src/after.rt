ghost use Rattle.std.specs.Prelude.{◌≡◌, ◌&&◌, ◌↔◌, ◌⊎◌, if◌then◌else◌, not, true, None, filter, option_map, IfOk, OnOk, Contains};
ghost use Rattle.std.specs.BTreeSet.{contains};
ghost use Rattle.oci_manifest.specs.Descriptor.{Descriptor, key_cmp};
ghost use Rattle.oci_store.specs.Keyed.{has_key, value_at};
ghost use Rattle.oci_prune.specs.After.{after_copy};
ghost use Rattle.oci_prune.specs.Plan.{AreHeld};

use crate::held::held_keys;
use bytes::Bytes;
use oci_digest::NoMemory;
use oci_dir::Dir;
use oci_layout_store::Layout;
use oci_manifest::Key;
use oci_store::{FetchFault, GraphSource, Source, Store, keys_of_set};
use std::alloc::Global;
use std::collections::BTreeSet;

/// The store that a copy of some keys would leave: the destination, and the keys with the content of
/// the source. A key that the destination holds keeps its content. One that the source does not hold
/// is left out. Nothing is copied.
#[derive(Drop)]
pub(crate) struct AfterCopy<'c, S, D> {
    pub(crate) alloc: Global,
    pub(crate) source: &'c S,
    pub(crate) destination: &'c D,
    /// The keys that the copy brings.
    pub(crate) arriving: &'c BTreeSet<Key>,
}

impl<'c, S: GraphSource, D: GraphSource> Store for AfterCopy<'c, S, D> {
    ghost use Rattle.std.specs.BTreeSet.{contains};
    ghost use Rattle.oci_manifest.specs.Descriptor.{key_cmp};
    ghost use Rattle.oci_prune.specs.After.{after_copy, listed_after, same_keys_after};

    ghost state = { λ s. after_copy (S.state s.source.now) s.arriving.now
        (D.state s.destination.now) };

    ghost same_keys = { λ s. same_keys_after (contains key_cmp s.arriving.now)
        (S.state s.source.now).nodes (D.state s.destination.now).nodes
        (S.state s.source.now).entries (D.state s.destination.now).entries
        (S.same_keys s.source.now) (D.same_keys s.destination.now) };

    ghost trusted = { λ s sound. (
      S.trusted s.source.now sound.0,
      D.trusted s.destination.now sound.1,
    ) };

    ghost listed = { λ s sound. listed_after (contains key_cmp s.arriving.now)
        (S.state s.source.now).nodes (D.state s.destination.now).nodes
        (S.state s.source.now).entries (D.state s.destination.now).entries
        (S.listed s.source.now sound.0) (D.listed s.destination.now sound.1) };
}

impl<'c, S: GraphSource, D: GraphSource> Source for AfterCopy<'c, S, D> {
    fn exists(&self, key: &Key) -> bool {
        if self.destination.exists(key) {
            return true;
        }
        if self.arriving.contains(key) {
            return self.source.exists(key);
        }
        false
    }

    fn may_fail(&self, key: &Key) -> bool {
        self.source.may_fail(key) || self.destination.may_fail(key)
    }

    fn fetch(&self, key: &Key) -> Result<Bytes, FetchFault> {
        if self.destination.exists(key) {
            return self.destination.fetch(key);
        }
        if self.arriving.contains(key) {
            return self.source.fetch(key);
        }
        Err(FetchFault::NotFound)
    }
}

impl<'c, S: GraphSource, D: GraphSource> GraphSource for AfterCopy<'c, S, D> {
    fn successors(&self, key: &Key) -> Result<Option<Vec<Key>>, NoMemory> {
        match self.destination.successors(key)? {
            Some(listed) => Ok(Some(listed)),
            None => self.arriving_successors(key),
        }
    }

    fn predecessors(&self, key: &Key) -> Result<Vec<Key>, NoMemory> {
        let mut all = BTreeSet::new(self.alloc);
        add_keys(&self.destination.predecessors(key)?, &mut all)?;
        add_keys(&self.new_among(&self.source.predecessors(key)?)?, &mut all)?;
        let keys = keys_of_set(self.alloc, &all)?;
        Ok(keys)
    }
}

impl<'c, S: GraphSource, D: GraphSource> AfterCopy<'c, S, D> {
    /// Returns the keys that an arriving key lists, or `None` if the key does not arrive.
    fn arriving_successors(&self, key: &Key) -> Result<Option<Vec<Key>>, NoMemory>
        ensures { IfOk result (λ found. option_map (λ keys. keys.items) found
            ≡ (if contains key_cmp self.now.arriving.now key.now
            then value_at (S.state self.now.source.now).nodes key.now else None)) }
    {
        if self.arriving.contains(key) {
            self.source.successors(key)
        } else {
            Ok(None)
        }
    }

    /// Returns those of these keys that arrive and that the destination does not hold.
    fn new_among(&self, keys: &[Key]) -> Result<Vec<Key>, NoMemory>
        ensures { IfOk result (λ found. found.items ≡ filter
            (λ k. contains key_cmp self.now.arriving.now k
            && not (has_key (D.state self.now.destination.now).entries k)) keys.now) }
    {
        let mut found = Vec::new(self.alloc);
        for key in keys {
            if !self.arriving.contains(key) {
                continue;
            }
            if self.destination.exists(key) {
                continue;
            }
            found.push(key.try_clone()?)?;
        }
        Ok(found)
    }
}

/// Returns the keys that a layout holds after a copy of keys, in key order.
pub(crate) fn held_after<S: GraphSource, D: Dir>(
    after: &AfterCopy<'_, S, Layout<D>>,
) -> Result<Vec<Key>, NoMemory>
    ensures { IfOk result (λ keys. AreHeld (after_copy (S.state after.now.source.now)
        after.now.arriving.now (⟦<Layout<D> as Store>⟧.state after.now.destination.now)).nodes
        keys.items) }
{
    let mut held = BTreeSet::new(after.alloc);
    add_keys(&held_keys(after.alloc, after.destination)?, &mut held)?;
    let arriving = keys_of_set(after.alloc, after.arriving)?;
    add_keys(
        &held_among(after.alloc, after.source, &arriving)?,
        &mut held,
    )?;
    let keys = keys_of_set(after.alloc, &held)?;
    Ok(keys)
}

/// Returns those of these keys that a store holds.
fn held_among<S: Source>(alloc: Global, source: &S, keys: &[Key]) -> Result<Vec<Key>, NoMemory>
    ensures { IfOk result (λ held. held.items
        ≡ filter (has_key (S.state source.now).entries) keys.now) }
{
    let mut held = Vec::new(alloc);
    for key in keys {
        if source.exists(key) {
            held.push(key.try_clone()?)?;
        }
    }
    Ok(held)
}

/// Adds keys to a set.
pub(crate) fn add_keys(keys: &[Key], set: &mut BTreeSet<Key>) -> Result<(), NoMemory>
    ensures { OnOk result ((k : Descriptor) → (contains key_cmp set.new k ≡ true)
        ↔ ((contains key_cmp set.old k ≡ true) ⊎ Contains keys.now k)) }
{
    for key in keys {
        set.insert(key.try_clone()?)?;
    }
    Ok(())
}
