//! What a layout remembers of the index that it was opened from.
ghost use Rattle.std.specs.Prelude.{◌≡◌, ◌||◌, not, filter, map, IfOk};
ghost use Rattle.std.specs.BTreeSet.{contains};
ghost use Rattle.std.specs.List.{All};
ghost use Rattle.oci_manifest.specs.Descriptor.{key_cmp};
ghost use Rattle.oci_layout_store.specs.Brought.{gives_way, still_absent, staying, IsReplaced, IsShallowEntry};
ghost use Rattle.oci_layout_store.specs.Entries.{entry_keys, entry_of, said, text_of};
ghost use Rattle.oci_layout_store.specs.Layout.{no_index};

use crate::index::{IndexContent, IndexEntry, Names, add_key, keys_of, set_of};
use oci_digest::NoMemory;
use oci_manifest::Key;
use std::alloc::Global;
use std::collections::BTreeSet;
use std::marker::Model;

/// What a layout remembers of the index that it was opened from: the keys of the entries that were
/// not held; and if the layout was [opened as it is](crate::Layout::open_as_is), the keys of the
/// manifests that are damaged, and what the index says.
pub struct OpenedIndex {
    absent: Vec<Key>,
    damaged: Vec<Key>,
    content: IndexContent,
}

/// Written out, so that a proof has one call where it is dropped.
impl Drop for OpenedIndex {
    fn drop(self) {
        let OpenedIndex {
            absent: _absent,
            damaged: _damaged,
            content: _content,
        } = self;
    }
}

impl Model for OpenedIndex {
    ghost use Rattle.oci_layout_store.specs.Layout.{OpenedIndex};
    ghost use Rattle.serde_json.specs.contracts.value.Value as value;
    ghost use Rattle.std.specs.Coded.{codes};

    ghost Value = { OpenedIndex };

    ghost coded = { Prim.hlevel (codes, value.the_row.coded) };

    ghost view = { λ o. record {
      absent = o.absent.items;
      damaged = o.damaged.items;
      content = o.content;
    } };
}

impl OpenedIndex {
    /// Creates what a layout remembers of these.
    pub(crate) fn new(absent: Vec<Key>, damaged: Vec<Key>, content: IndexContent) -> OpenedIndex
        ensures { result ≡ record {
          absent = absent.items;
          damaged = damaged.items;
          content = content;
        } }
    {
        OpenedIndex {
            absent,
            damaged,
            content,
        }
    }

    /// Returns the absent keys, the damaged keys, and what the index says.
    pub(crate) fn into_parts(self) -> (Vec<Key>, Vec<Key>, IndexContent)
        ensures { self ≡ record {
          absent = result.0.items;
          damaged = result.1.items;
          content = result.2;
        } }
    {
        let OpenedIndex {
            absent,
            damaged,
            content,
        } = self;
        (absent, damaged, content)
    }

    /// Returns the entries.
    pub(crate) fn entries(&self) -> &[IndexEntry]
        ensures { result.now ≡ self.now.content.entries }
    {
        self.content.entries()
    }

    /// Creates what a layout remembers that was opened from no index. Does not allocate.
    pub(crate) fn none(alloc: Global) -> OpenedIndex
        ensures { result ≡ no_index }
    {
        OpenedIndex {
            absent: Vec::new(alloc),
            damaged: Vec::new(alloc),
            content: IndexContent::none(alloc),
        }
    }

    /// Keeps the entries whose names do not give way to these, or with `each` those without a name,
    /// and adds more.
    pub(crate) fn replaced(
        self,
        alloc: Global,
        each: bool,
        entries: &[IndexEntry],
        more: Vec<IndexEntry>,
    ) -> Result<OpenedIndex, NoMemory>
        requires { All IsShallowEntry (map entry_of more.items) }
        ensures { IfOk result (IsReplaced (staying each (map entry_of entries.now)
            (said self.content).entries) (map entry_of more.items) self) }
    {
        let names = Names::of(alloc, entries)?;
        let OpenedIndex {
            absent,
            damaged,
            content,
        } = self;
        let absent = still_absent(alloc, absent, each, &names, content.entries())?;
        let damaged = still_absent(alloc, damaged, each, &names, content.entries())?;
        let (old, members) = content.into_parts();
        let mut stay = staying(alloc, each, &names, old)?;
        let mut more = more;
        stay.append(&mut more)?;
        Ok(OpenedIndex {
            absent,
            damaged,
            content: IndexContent::new(stay, members),
        })
    }
}

/// Returns those of these absent or damaged keys that an entry that stays has, or no entry.
fn still_absent(
    alloc: Global,
    absent: Vec<Key>,
    each: bool,
    names: &Names<'_>,
    old: &[IndexEntry],
) -> Result<Vec<Key>, NoMemory>
    ensures { IfOk result (λ still. still.items ≡ still_absent (map entry_of old.now)
        (staying each (map entry_of names.now) (map entry_of old.now)) absent.items) }
{
    if absent.is_empty() {
        return Ok(absent);
    }
    let stay = set_of(alloc, &staying_keys(alloc, each, names, old)?)?;
    let listed = set_of(alloc, &keys_of(alloc, old)?)?;
    remaining(alloc, absent, &stay, &listed)
}

/// Returns those of these keys that are in the first set, or not in the second.
fn remaining(
    alloc: Global,
    keys: Vec<Key>,
    stay: &BTreeSet<Key>,
    listed: &BTreeSet<Key>,
) -> Result<Vec<Key>, NoMemory>
    ensures { IfOk result (λ remaining. remaining.items ≡ filter (λ k. contains key_cmp stay.now k
        || not (contains key_cmp listed.now k)) keys.items) }
{
    let mut remaining = Vec::new(alloc);
    for key in keys {
        if stay.contains(&key) || !listed.contains(&key) {
            remaining.push(key)?;
        }
    }
    Ok(remaining)
}

/// Returns the keys of those of these entries that stay and have one.
fn staying_keys(
    alloc: Global,
    each: bool,
    names: &Names<'_>,
    old: &[IndexEntry],
) -> Result<Vec<Key>, NoMemory>
    ensures { IfOk result (λ keys. keys.items ≡ entry_keys
        (staying each (map entry_of names.now) (map entry_of old.now))) }
{
    let mut keys = Vec::new(alloc);
    for entry in old {
        if !gives_way(each, names, entry) {
            add_key(entry, &mut keys)?;
        }
    }
    Ok(keys)
}

/// Returns those of these entries that stay.
fn staying(
    alloc: Global,
    each: bool,
    names: &Names<'_>,
    old: Vec<IndexEntry>,
) -> Result<Vec<IndexEntry>, NoMemory>
    ensures { IfOk result (λ stay. map entry_of stay.items
        ≡ staying each (map entry_of names.now) (map entry_of old.items)) }
{
    let mut stay = Vec::new(alloc);
    for entry in old {
        if !gives_way(each, names, &entry) {
            stay.push(entry)?;
        }
    }
    Ok(stay)
}

/// Returns whether the name of an entry gives way.
fn gives_way(each: bool, names: &Names<'_>, entry: &IndexEntry) -> bool
    ensures { result ≡ gives_way each (map entry_of names.now) (text_of entry.now.name) }
{
    match &entry.name {
        None => false,
        Some(name) if name.as_str().is_empty() => false,
        Some(name) => each || names.last(name).is_some(),
    }
}
