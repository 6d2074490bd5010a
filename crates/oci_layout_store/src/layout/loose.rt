ghost use Rattle.std.specs.Prelude.{◌≡◌, ◌↔◌, ◌⊎◌, true, false, map, Some, IfOk, OnOk, Contains, IsTrue};
ghost use Rattle.std.specs.BTreeSet.{contains};
ghost use Rattle.std.specs.List.Sorted.{IsStrictlySortedBy};
ghost use Rattle.std.specs.Map.{values_of};
ghost use Rattle.oci_manifest.specs.Descriptor.{Descriptor, key_cmp};
ghost use Rattle.oci_store.specs.Tags.{by_bytes};
ghost use Rattle.oci_layout_store.specs.Entries.{entry_of};
ghost use Rattle.oci_layout_store.specs.Saved.{no_name, unnamed_keys, AreLoose, IsTop};

use crate::index::IndexEntry;
use oci_digest::NoMemory;
use oci_manifest::{Key, Kind};
use oci_store::Graph;
use std::alloc::Global;
use std::collections::BTreeSet;

/// Returns the keys that get a new entry without a tag, in key order.
pub(crate) fn loose_keys(
    alloc: Global,
    graph: &Graph,
    tags: &[(String, Key)],
    entries: &[IndexEntry],
) -> Result<Vec<Key>, NoMemory>
    ensures { IfOk result (λ keys. AreLoose graph.now (by_bytes tags.now)
        (map entry_of entries.now) keys.items) }
{
    let tagged = tagged_keys(alloc, tags)?;
    let unnamed = unnamed_keys(alloc, entries)?;
    let mut loose = BTreeSet::new(alloc);
    for place in 0..graph.len() {
        let Some(key) = graph.key(place) else {
            unreachable!();
        };
        add_new(graph, &tagged, &unnamed, key, &mut loose)?;
    }
    list_of(alloc, &loose)
}

/// Returns the keys that have a tag.
pub(crate) fn tagged_keys(alloc: Global, tags: &[(String, Key)]) -> Result<BTreeSet<Key>, NoMemory>
    ensures { IfOk result (λ set. (k : Descriptor)
        → (contains key_cmp set k ≡ true) ↔ Contains (values_of (by_bytes tags.now)) k) }
{
    let mut tagged = BTreeSet::new(alloc);
    for tag in tags {
        tagged.insert(tag.1.try_clone()?)?;
    }
    Ok(tagged)
}

/// Returns the keys of the entries that have a key, and no name or an empty one.
///
/// # Errors
///
/// `NoMemory` if memory runs out.
pub fn unnamed_keys(alloc: Global, entries: &[IndexEntry]) -> Result<BTreeSet<Key>, NoMemory>
    ensures { IfOk result (λ set. (k : Descriptor) → (contains key_cmp set k ≡ true)
        ↔ Contains (unnamed_keys (map entry_of entries.now)) k) }
{
    let mut unnamed = BTreeSet::new(alloc);
    for entry in entries {
        add_unnamed(entry, &mut unnamed)?;
    }
    Ok(unnamed)
}

/// Adds the key of an entry, if that has one, and no name.
fn add_unnamed(entry: &IndexEntry, unnamed: &mut BTreeSet<Key>) -> Result<(), NoMemory>
    ensures { OnOk result ((k : Descriptor) → (contains key_cmp unnamed.new k ≡ true)
        ↔ ((contains key_cmp unnamed.old k ≡ true)
        ⊎ (((entry_of entry.now).key ≡ Some k) × (no_name (entry_of entry.now).name ≡ true)))) }
{
    if entry.has_name() {
        return Ok(());
    }
    let Some(key) = &entry.key else {
        return Ok(());
    };
    unnamed.insert(key.try_clone()?)?;
    Ok(())
}

/// Adds a key if it has no tag, is at the top, and has no entry without a name.
fn add_new(
    graph: &Graph,
    tagged: &BTreeSet<Key>,
    unnamed: &BTreeSet<Key>,
    key: &Key,
    loose: &mut BTreeSet<Key>,
) -> Result<(), NoMemory>
    ensures { OnOk result ((k : Descriptor) → (contains key_cmp loose.new k ≡ true)
        ↔ ((contains key_cmp loose.old k ≡ true)
        ⊎ ((k ≡ key.now) × (contains key_cmp tagged.now key.now ≡ false)
        × (contains key_cmp unnamed.now key.now ≡ false) × IsTop graph.now key.now))) }
{
    if tagged.contains(key) {
        return Ok(());
    }
    if unnamed.contains(key) {
        return Ok(());
    }
    if !is_top(graph, key)? {
        return Ok(());
    }
    loose.insert(key.try_clone()?)?;
    Ok(())
}

/// Returns the elements of a set, in order.
fn list_of(alloc: Global, set: &BTreeSet<Key>) -> Result<Vec<Key>, NoMemory>
    ensures elements { IfOk result (λ list. list.items ≡ set.now.keys) }
    ensures order { IfOk result (λ list. IsStrictlySortedBy key_cmp list.items) }
{
    let mut list = Vec::new(alloc);
    for key in set.iter() {
        list.push(key.try_clone()?)?;
    }
    Ok(list)
}

/// Returns whether a key is of a manifest kind, or no key lists it.
fn is_top(graph: &Graph, key: &Key) -> Result<bool, NoMemory>
    ensures { IfOk result (λ top. IsTrue top ↔ IsTop graph.now key.now) }
{
    match Kind::of(key.media_type()) {
        Kind::Leaf => Ok(graph.predecessors(key)?.is_empty()),
        _ => Ok(true),
    }
}
