//! The entries that a save writes.
ghost use Rattle.std.specs.Prelude.{◌≡◌, ◌++◌, ◌∷◌, [], if◌then◌else◌, ◌&&◌, List, map, option_map, IfOk, OnOk};
ghost use Rattle.std.specs.BTreeSet.{contains};
ghost use Rattle.std.specs.Option.{option_copied};
ghost use Rattle.oci_manifest.specs.Descriptor.{Descriptor, is_among, key_cmp};
ghost use Rattle.oci_store.specs.Tags.{by_bytes};
ghost use Rattle.oci_layout_store.specs.Entries.{entry_of, is_held};
ghost use Rattle.oci_layout_store.specs.Saved.{
  comes_before,
  first_entries,
  is_first,
  is_left,
  is_missing,
  is_place,
  loose_entries,
  named_held,
  no_name,
  saved_entries,
  tag_entry,
  unnamed_held,
  was_absent,
  AreLoose,
};

use crate::index::names::Names;
use crate::index::{IndexEntry, add_key, is_held, new_entry};
use crate::layout::loose_keys;
use oci_digest::NoMemory;
use oci_manifest::Key;
use oci_store::{Graph, Tags};
use std::alloc::Global;
use std::collections::BTreeSet;

/// Returns the entries that a save writes. `absent` are the keys of those of these entries that
/// were not held when the layout was opened.
pub(crate) fn saved_entries(
    alloc: Global,
    absent: &[Key],
    entries: &[IndexEntry],
    graph: &Graph,
    tags: &Tags,
) -> Result<Vec<IndexEntry>, NoMemory>
    ensures { IfOk result (λ saved. (loose : List Descriptor)
        × AreLoose graph.now tags.now (map entry_of entries.now) loose
        × (map entry_of saved.items
        ≡ saved_entries absent.now (map entry_of entries.now) graph.now tags.now loose)) }
{
    let tagged = tags.to_vec()?;
    let loose = loose_keys(alloc, graph, &tagged, entries)?;
    let names = Names::of(alloc, entries)?;
    let absent = set_of(alloc, absent)?;
    let mut saved = first_entries(alloc, &names, entries, &absent, graph, tags)?;
    add_tags(alloc, &names, tagged, &mut saved)?;
    add_unnamed(graph, entries, &mut saved)?;
    add_loose(alloc, loose, &mut saved)?;
    Ok(saved)
}

/// Returns the set of these keys.
pub(crate) fn set_of(alloc: Global, keys: &[Key]) -> Result<BTreeSet<Key>, NoMemory>
    ensures { IfOk result (λ set. (k : Descriptor) → contains key_cmp set k
        ≡ is_among keys.now k) }
{
    let mut set = BTreeSet::new(alloc);
    for key in keys {
        set.insert(key.try_clone()?)?;
    }
    Ok(set)
}

/// Returns the entries that come first.
fn first_entries(
    alloc: Global,
    names: &Names<'_>,
    entries: &[IndexEntry],
    absent: &BTreeSet<Key>,
    graph: &Graph,
    tags: &Tags,
) -> Result<Vec<IndexEntry>, NoMemory>
    requires { names.now ≡ entries.now }
    ensures { IfOk result (λ first. map entry_of first.items
        ≡ first_entries (contains key_cmp absent.now) graph.now tags.now
        (map entry_of entries.now)) }
{
    let mut first = Vec::new(alloc);
    for (place, entry) in entries.iter().enumerate() {
        let is_first = is_first(names, absent, graph, tags, place, entry);
        push_if(is_first, entry, &mut first)?;
    }
    Ok(first)
}

/// Returns the held keys of the entries with a name that come first.
pub(crate) fn shadowed_keys(
    alloc: Global,
    absent: &[Key],
    entries: &[IndexEntry],
    graph: &Graph,
    tags: &Tags,
) -> Result<Vec<Key>, NoMemory>
    ensures { IfOk result (λ keys. keys.items ≡ named_held graph.now
        (first_entries (is_among absent.now) graph.now tags.now (map entry_of entries.now))) }
{
    let names = Names::of(alloc, entries)?;
    let absent = set_of(alloc, absent)?;
    let first = first_entries(alloc, &names, entries, &absent, graph, tags)?;
    named_held(alloc, graph, &first)
}

/// Returns the held keys of those of these entries that have a name.
fn named_held(alloc: Global, graph: &Graph, entries: &[IndexEntry]) -> Result<Vec<Key>, NoMemory>
    ensures { IfOk result (λ keys. keys.items
        ≡ named_held graph.now (map entry_of entries.now)) }
{
    let mut keys = Vec::new(alloc);
    for entry in entries {
        add_if_named(graph, entry, &mut keys)?;
    }
    Ok(keys)
}

/// Adds the key of an entry, if it is held and the entry has a name.
fn add_if_named(graph: &Graph, entry: &IndexEntry, keys: &mut Vec<Key>) -> Result<(), NoMemory>
    ensures { OnOk result (keys.new.items
        ≡ keys.old.items ++ named_held graph.now (entry_of entry.now ∷ [])) }
{
    if entry.has_name() && is_held(graph, &entry.key) {
        return add_key(entry, keys);
    }
    Ok(())
}

/// Appends a copy of an entry, if the condition is met.
fn push_if(
    condition: bool,
    entry: &IndexEntry,
    entries: &mut Vec<IndexEntry>,
) -> Result<(), NoMemory>
    ensures { OnOk result (map entry_of entries.new.items
        ≡ map entry_of entries.old.items ++ (if condition then entry_of entry.now ∷ [] else [])) }
{
    if condition {
        entries.push(entry.try_clone()?)?;
    }
    Ok(())
}

/// Returns whether the entry at a place comes first.
fn is_first(
    names: &Names<'_>,
    absent: &BTreeSet<Key>,
    graph: &Graph,
    tags: &Tags,
    place: usize,
    entry: &IndexEntry,
) -> bool
    ensures { result ≡ is_first (contains key_cmp absent.now) graph.now tags.now
        (map entry_of names.now) place (entry_of entry.now).key (entry_of entry.now).name }
{
    match &entry.name {
        None => is_missing(absent, graph, &entry.key),
        Some(name) if name.as_str().is_empty() => is_missing(absent, graph, &entry.key),
        Some(name) => {
            is_left(absent, graph, &entry.key)
                && comes_before(absent, tags.get(name.as_str()), place, names.last(name))
        }
    }
}

/// Returns whether the key of an entry was absent or is held, or the entry has none.
fn is_left(absent: &BTreeSet<Key>, graph: &Graph, key: &Option<Key>) -> bool
    ensures { result ≡ is_left (contains key_cmp absent.now) graph.now key.now }
{
    was_absent(absent, key) || is_held(graph, key)
}

/// Returns whether the key of an entry was absent and is not held, or the entry has none.
fn is_missing(absent: &BTreeSet<Key>, graph: &Graph, key: &Option<Key>) -> bool
    ensures { result ≡ is_missing (contains key_cmp absent.now) graph.now key.now }
{
    was_absent(absent, key) && !is_held(graph, key)
}

/// Returns whether the key of an entry was absent, or the entry has none.
fn was_absent(absent: &BTreeSet<Key>, key: &Option<Key>) -> bool
    ensures { result ≡ was_absent (contains key_cmp absent.now) key.now }
{
    match key {
        Some(key) => absent.contains(key),
        None => true,
    }
}

/// Returns whether an entry with a name comes first. `last` is the last entry with this name, with
/// its place, and `tagged` the key of the tag.
fn comes_before(
    absent: &BTreeSet<Key>,
    tagged: Option<&Key>,
    place: usize,
    last: Option<(usize, &IndexEntry)>,
) -> bool
    ensures { result ≡ comes_before (contains key_cmp absent.now) (option_copied tagged.entry)
        (is_place place (option_map (λ l. l.0) last.entry))
        (option_map (λ l. entry_of l.1.now) last.entry) }
{
    let Some((last_place, last)) = last else {
        return false;
    };
    match tagged {
        None => was_absent(absent, &last.key),
        Some(tagged) => last.has_key(tagged) && place != last_place,
    }
}

/// Appends the entries of tags.
fn add_tags(
    alloc: Global,
    names: &Names<'_>,
    tags: Vec<(String, Key)>,
    saved: &mut Vec<IndexEntry>,
) -> Result<(), NoMemory>
    ensures { OnOk result (map entry_of saved.new.items
        ≡ map entry_of saved.old.items
        ++ map (tag_entry (map entry_of names.now)) (by_bytes tags.items)) }
{
    for (name, key) in tags {
        saved.push(names.entry_of_tag(alloc, name, key)?)?;
    }
    Ok(())
}

/// Appends copies of the entries without a name whose keys are held.
fn add_unnamed(
    graph: &Graph,
    entries: &[IndexEntry],
    saved: &mut Vec<IndexEntry>,
) -> Result<(), NoMemory>
    ensures { OnOk result (map entry_of saved.new.items
        ≡ map entry_of saved.old.items ++ unnamed_held graph.now (map entry_of entries.now)) }
{
    for entry in entries {
        push_if(is_unnamed_held(graph, entry), entry, saved)?;
    }
    Ok(())
}

/// Returns whether the key of an entry is held, and the entry has no name.
fn is_unnamed_held(graph: &Graph, entry: &IndexEntry) -> bool
    ensures { result ≡ (no_name (entry_of entry.now).name
        && is_held graph.now (entry_of entry.now).key) }
{
    match &entry.name {
        None => is_held(graph, &entry.key),
        Some(name) if name.as_str().is_empty() => is_held(graph, &entry.key),
        Some(_) => false,
    }
}

/// Appends new entries of keys, without a name.
fn add_loose(alloc: Global, loose: Vec<Key>, saved: &mut Vec<IndexEntry>) -> Result<(), NoMemory>
    ensures { OnOk result (map entry_of saved.new.items
        ≡ map entry_of saved.old.items ++ loose_entries loose.items) }
{
    for key in loose {
        saved.push(new_entry(alloc, key, None)?)?;
    }
    Ok(())
}
