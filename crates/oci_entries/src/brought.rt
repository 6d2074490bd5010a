//! The entries of a source's index that a copy brings.
ghost use Rattle.std.specs.Prelude.{◌≡◌, ◌++◌, ◌∷◌, ◌||◌, false, not, map, option_map, if◌then◌else◌, Some, IfOk, OnOk};
ghost use Rattle.std.specs.BTreeMap.{get};
ghost use Rattle.std.specs.List.{flat_map};
ghost use Rattle.oci_manifest.specs.Descriptor.{Descriptor, key_cmp};
ghost use Rattle.oci_store.specs.Tags.{by_bytes};
ghost use Rattle.oci_layout_store.specs.Brought.{renamed};
ghost use Rattle.oci_layout_store.specs.Entries.{entry_of, is_this_key};
ghost use Rattle.oci_layout_store.specs.Saved.{no_name};
ghost use Rattle.oci_entries.specs.Brought.{
  entry_at,
  is_of,
  is_tagged,
  last_such,
  place_of_key,
  place_of_reference,
  reference_entry,
  root_entry,
  tag_entries,
  with_roots,
  HasLastPlaces,
};

use crate::copy_roots::CopyRoots;
use oci_digest::NoMemory;
use oci_layout_store::IndexEntry;
use oci_manifest::Key;
use std::alloc::Global;
use std::collections::BTreeMap;
use std::marker::Model;

/// The entries of an index, with the place of the last one of each key.
struct LastEntries<'l> {
    entries: &'l [IndexEntry],
    unnamed: BTreeMap<Key, usize>,
    all: BTreeMap<Key, usize>,
}

/// Written out, so that a proof has one call where it is dropped.
impl<'l> Drop for LastEntries<'l> {
    fn drop(self) {
        let LastEntries {
            entries: _,
            unnamed: _unnamed,
            all: _all,
        } = self;
    }
}

impl<'l> Model for LastEntries<'l> {
    ghost use Rattle.std.specs.Prelude.{true, false, List, map};
    ghost use Rattle.std.specs.Coded.{coded_list};
    ghost use Rattle.oci_layout_store.specs.declared.index.IndexEntry.{IndexEntry};
    ghost use Rattle.oci_layout_store.specs.contracts.index.IndexEntry as entry;
    ghost use Rattle.oci_layout_store.specs.Entries.{entry_of};
    ghost use Rattle.oci_entries.specs.Brought.{HasLastPlaces};

    ghost Value = { List IndexEntry };

    ghost coded = { coded_list entry.the_row.coded };

    ghost view = { λ l. l.entries.now };

    ghost invariant = { λ l. HasLastPlaces true l.unnamed (map entry_of l.entries.now)
        × HasLastPlaces false l.all (map entry_of l.entries.now) };
}

impl<'l> LastEntries<'l> {
    /// Finds the last entry of each key. An entry without a key is of none.
    fn of(alloc: Global, entries: &'l [IndexEntry]) -> Result<LastEntries<'l>, NoMemory>
        ensures { IfOk result (λ last. last ≡ entries.now) }
    {
        let unnamed = last_places(alloc, entries, true)?;
        let all = last_places(alloc, entries, false)?;
        Ok(LastEntries {
            entries,
            unnamed,
            all,
        })
    }

    /// Returns the place of the entry of a key: the last one without a name, or else the last one.
    fn place_of_key(&self, key: &Key) -> Option<usize>
        ensures { result ≡ place_of_key (map entry_of self.now) key.now }
    {
        match self.unnamed.get(key) {
            Some(place) => Some(*place),
            None => match self.all.get(key) {
                Some(place) => Some(*place),
                None => None,
            },
        }
    }

    /// Returns the place of the entry of a reference that resolves to a key: the last one of that
    /// name and key, or else the entry of the key.
    fn place_of_reference(&self, name: &str, key: &Key) -> Option<usize>
        ensures { result ≡ place_of_reference (map entry_of self.now) name.now key.now }
    {
        match last_tagged(self.entries, name, key) {
            Some(place) => Some(place),
            None => self.place_of_key(key),
        }
    }

    /// Returns the entry at a place, if there is one.
    fn entry_at(&self, place: Option<usize>) -> Option<&'l IndexEntry>
        ensures { option_map (λ e. entry_of e.now) result
            ≡ entry_at (map entry_of self.now) place }
    {
        self.entries.get(place?)
    }
}

/// Returns the place of the last entry of each key; with `unnamed` of those without a name.
fn last_places(
    alloc: Global,
    entries: &[IndexEntry],
    unnamed: bool,
) -> Result<BTreeMap<Key, usize>, NoMemory>
    ensures { IfOk result (λ places. HasLastPlaces unnamed places (map entry_of entries.now)) }
{
    let mut places = BTreeMap::new(alloc);
    for (place, entry) in entries.iter().enumerate() {
        set_place(&mut places, unnamed, entry, place)?;
    }
    Ok(places)
}

/// Sets the place of an entry's key, if it has one; with `unnamed` only if it has no name.
fn set_place(
    places: &mut BTreeMap<Key, usize>,
    unnamed: bool,
    entry: &IndexEntry,
    place: usize,
) -> Result<(), NoMemory>
    ensures { OnOk result ((k : Descriptor) → get key_cmp places.new k
        ≡ (if is_of unnamed k (entry_of entry.now) then Some place
        else get key_cmp places.old k)) }
{
    if !counts(entry, unnamed) {
        return Ok(());
    }
    let Some(key) = &entry.key else {
        return Ok(());
    };
    places.insert(key.try_clone()?, place)?;
    Ok(())
}

/// Returns whether an entry counts; with `unnamed` only if it has no name.
fn counts(entry: &IndexEntry, unnamed: bool) -> bool
    ensures { result ≡ (not unnamed || no_name (entry_of entry.now).name) }
{
    !unnamed || !entry.has_name()
}

/// Returns the place of the last entry of a name and a key.
fn last_tagged(entries: &[IndexEntry], name: &str, key: &Key) -> Option<usize>
    ensures { result ≡ last_such (is_tagged name.now key.now) (map entry_of entries.now) }
{
    let mut last = None;
    for (place, entry) in entries.iter().enumerate() {
        if is_tagged(entry, name, key) {
            last = Some(place);
        }
    }
    last
}

/// Returns whether an entry is of a name and a key.
fn is_tagged(entry: &IndexEntry, name: &str, key: &Key) -> bool
    ensures { result ≡ is_tagged name.now key.now (entry_of entry.now) }
{
    match &entry.name {
        Some(other) => name == other.as_str() && has_key(entry, key),
        None => false,
    }
}

/// Returns whether the key of an entry is this one.
fn has_key(entry: &IndexEntry, key: &Key) -> bool
    ensures { result ≡ is_this_key key.now (entry_of entry.now).key }
{
    match &entry.key {
        Some(other) => other == key,
        None => false,
    }
}

/// Returns the entry of a reference under a name, if there is one: the last one of the reference and
/// the key, or else the last one of the key without a name, or else its last one.
pub fn entry_of_reference(
    alloc: Global,
    entries: &[IndexEntry],
    from: &str,
    to: &str,
    key: &Key,
) -> Result<Vec<IndexEntry>, NoMemory>
    ensures { IfOk result (λ found. map entry_of found.items
        ≡ reference_entry (map entry_of entries.now) from.now to.now key.now) }
{
    let last = LastEntries::of(alloc, entries)?;
    reference_entry(alloc, &last, from, to, key)
}

/// Returns the entries that a copy of a reference brings: the entry of the reference under a name,
/// those of the other tags under their own, and those of the other roots without theirs.
pub fn entries_of_reference(
    alloc: Global,
    entries: &[IndexEntry],
    from: &str,
    to: &str,
    key: &Key,
    roots: &CopyRoots,
) -> Result<Vec<IndexEntry>, NoMemory>
    ensures { IfOk result (λ brought. map entry_of brought.items
        ≡ with_roots (map entry_of entries.now)
        (reference_entry (map entry_of entries.now) from.now to.now key.now
        ++ tag_entries (map entry_of entries.now) (by_bytes roots.now.tags.items))
        roots.now.keys.items) }
{
    let last = LastEntries::of(alloc, entries)?;
    let named = reference_entry(alloc, &last, from, to, key)?;
    with_tags_and_roots(alloc, &last, named, roots)
}

/// Returns the entries that a copy of a manifest brings that an index lists: this entry of it under a
/// name, those of the other tags under their own, and those of the other roots without theirs.
pub fn entries_of_listed(
    alloc: Global,
    entries: &[IndexEntry],
    listed: &IndexEntry,
    to: &str,
    roots: &CopyRoots,
) -> Result<Vec<IndexEntry>, NoMemory>
    ensures { IfOk result (λ brought. map entry_of brought.items
        ≡ with_roots (map entry_of entries.now)
        (renamed (Some to.now) (entry_of listed.now)
        ∷ tag_entries (map entry_of entries.now) (by_bytes roots.now.tags.items))
        roots.now.keys.items) }
{
    let last = LastEntries::of(alloc, entries)?;
    let mut named = Vec::new(alloc);
    named.push(listed.with_name(alloc, to)?)?;
    with_tags_and_roots(alloc, &last, named, roots)
}

/// Returns the named entries, those of the other tags of a copy of a reference, and those of its
/// other roots.
fn with_tags_and_roots(
    alloc: Global,
    last: &LastEntries<'_>,
    named: Vec<IndexEntry>,
    roots: &CopyRoots,
) -> Result<Vec<IndexEntry>, NoMemory>
    ensures { IfOk result (λ brought. map entry_of brought.items
        ≡ with_roots (map entry_of last.now) (map entry_of named.items
        ++ tag_entries (map entry_of last.now) (by_bytes roots.now.tags.items))
        roots.now.keys.items) }
{
    let mut named = named;
    add_tags(alloc, last, &roots.tags, &mut named)?;
    with_roots(alloc, last, named, &roots.keys)
}

/// Returns the entries that a copy of tags brings: the entries of their names, those of the other tags
/// under their own names, and those of the other roots without theirs.
pub fn entries_of_tags(
    alloc: Global,
    entries: &[IndexEntry],
    named: Vec<IndexEntry>,
    others: &[(String, Key)],
    roots: &[Key],
) -> Result<Vec<IndexEntry>, NoMemory>
    ensures { IfOk result (λ brought. map entry_of brought.items
        ≡ with_roots (map entry_of entries.now) (map entry_of named.items
        ++ tag_entries (map entry_of entries.now) (by_bytes others.now)) roots.now) }
{
    let last = LastEntries::of(alloc, entries)?;
    let mut named = named;
    add_tags(alloc, &last, others, &mut named)?;
    with_roots(alloc, &last, named, roots)
}

/// Returns the entry of a reference under a name, if there is one.
fn reference_entry(
    alloc: Global,
    last: &LastEntries<'_>,
    from: &str,
    to: &str,
    key: &Key,
) -> Result<Vec<IndexEntry>, NoMemory>
    ensures { IfOk result (λ found. map entry_of found.items
        ≡ reference_entry (map entry_of last.now) from.now to.now key.now) }
{
    let mut found = Vec::new(alloc);
    let Some(entry) = last.entry_at(last.place_of_reference(from, key)) else {
        return Ok(found);
    };
    found.push(entry.with_name(alloc, to)?)?;
    Ok(found)
}

/// Adds the entries of tags, each under the name of its tag.
fn add_tags(
    alloc: Global,
    last: &LastEntries<'_>,
    tags: &[(String, Key)],
    named: &mut Vec<IndexEntry>,
) -> Result<(), NoMemory>
    ensures { OnOk result (map entry_of named.new.items ≡ map entry_of named.old.items
        ++ tag_entries (map entry_of last.now) (by_bytes tags.now)) }
{
    for (name, key) in tags {
        add_tag(alloc, last, name, key, named)?;
    }
    Ok(())
}

/// Adds the entry of a tag under its name, if there is one.
fn add_tag(
    alloc: Global,
    last: &LastEntries<'_>,
    name: &str,
    key: &Key,
    named: &mut Vec<IndexEntry>,
) -> Result<(), NoMemory>
    ensures { OnOk result (map entry_of named.new.items ≡ map entry_of named.old.items
        ++ reference_entry (map entry_of last.now) name.now name.now key.now) }
{
    let mut found = reference_entry(alloc, last, name, name, key)?;
    named.append(&mut found)?;
    Ok(())
}

/// Returns the named entries, and those that the other roots bring.
fn with_roots(
    alloc: Global,
    last: &LastEntries<'_>,
    named: Vec<IndexEntry>,
    roots: &[Key],
) -> Result<Vec<IndexEntry>, NoMemory>
    ensures { IfOk result (λ brought. map entry_of brought.items
        ≡ with_roots (map entry_of last.now) (map entry_of named.items) roots.now) }
{
    let mut more = root_entries(alloc, last, &named, roots)?;
    let mut brought = named;
    brought.append(&mut more)?;
    Ok(brought)
}

/// Returns the entries that the roots bring which have no named entry.
fn root_entries(
    alloc: Global,
    last: &LastEntries<'_>,
    named: &[IndexEntry],
    roots: &[Key],
) -> Result<Vec<IndexEntry>, NoMemory>
    ensures { IfOk result (λ found. map entry_of found.items
        ≡ flat_map (root_entry (map entry_of last.now) (map entry_of named.now)) roots.now) }
{
    let places = last_places(alloc, named, false)?;
    let mut found = Vec::new(alloc);
    for root in roots {
        add_root(alloc, last, named, &places, root, &mut found)?;
    }
    Ok(found)
}

/// Adds the entry that a root brings, if it has no named entry.
fn add_root(
    alloc: Global,
    last: &LastEntries<'_>,
    named: &[IndexEntry],
    places: &BTreeMap<Key, usize>,
    root: &Key,
    found: &mut Vec<IndexEntry>,
) -> Result<(), NoMemory>
    requires { HasLastPlaces false places.now (map entry_of named.now) }
    ensures { OnOk result (map entry_of found.new.items ≡ map entry_of found.old.items
        ++ root_entry (map entry_of last.now) (map entry_of named.now) root.now) }
{
    if places.contains_key(root) {
        return Ok(());
    }
    let Some(entry) = last.entry_at(last.place_of_key(root)) else {
        return Ok(());
    };
    found.push(entry.without_name(alloc)?)?;
    Ok(())
}
