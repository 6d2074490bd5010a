//! The file `index.json`: what it says is read here, and its text is made here.
ghost use Rattle.std.specs.Prelude.{◌≡◌, not, List, [], map, IfOk};
ghost use Rattle.std.specs.List.{All};
ghost use Rattle.serde_json.specs.View.{view};
ghost use Rattle.oci_manifest.specs.Descriptor.{Descriptor};
ghost use Rattle.oci_layout_store.specs.Brought.{IsShallowEntry};
ghost use Rattle.oci_layout_store.specs.Entries.{content_of, entry_of, is_held, is_this_key, no_content, nothing_read, said, text_of, IsShallow};
ghost use Rattle.oci_layout_store.specs.Index.{index_value, IsCompact};
ghost use Rattle.oci_layout_store.specs.Saved.{no_name, saved_content, shadowed_keys, AreLoose};

mod names;
mod read;
mod renamed;
mod saved;
mod stating;
mod tags;
mod write;

pub use names::Names;
use oci_digest::NoMemory;
use oci_manifest::Key;
use oci_store::{Graph, Tags};
pub(crate) use read::{add_key, keys_of, read_index};
pub(crate) use saved::set_of;
use saved::{saved_entries, shadowed_keys};
use serde_json::Value;
use std::alloc::Global;
use std::marker::Model;
pub(crate) use tags::{owned_tags_of, tags_of};
use write::{index_text, new_entry};

/// An entry of an index (OCI image specification 1.1, image-layout.md).
pub struct IndexEntry {
    /// The key of the descriptor. `None` if the value is no descriptor: such an entry is found only
    /// if the layout was [opened as it is](crate::Layout::open_as_is).
    pub key: Option<Key>,
    /// The annotation `org.opencontainers.image.ref.name`, if the entry has it.
    pub name: Option<String>,
    /// The value as it stands in the index, with all its members.
    pub value: Value,
}

/// Written out, so that a proof has one call where it is dropped.
impl Drop for IndexEntry {
    fn drop(self) {
        let IndexEntry {
            key: _key,
            name: _name,
            value: _value,
        } = self;
    }
}

impl IndexEntry {
    /// Returns whether the entry has a name. An empty text is none.
    pub fn has_name(&self) -> bool
        ensures { result ≡ not (no_name (text_of self.now.name)) }
    {
        match &self.name {
            Some(name) => !name.is_empty(),
            None => false,
        }
    }

    /// Returns an equal entry.
    ///
    /// # Errors
    ///
    /// `NoMemory` if memory runs out.
    pub fn try_clone(&self) -> Result<IndexEntry, NoMemory>
        ensures { IfOk result (λ e. entry_of e ≡ entry_of self.now) }
    {
        let name = match &self.name {
            Some(name) => Some(name.clone()?),
            None => None,
        };
        Ok(IndexEntry {
            key: copy_of(&self.key)?,
            name,
            value: self.value.clone()?,
        })
    }

    /// Returns whether the key of the entry is this one.
    pub(crate) fn has_key(&self, key: &Key) -> bool
        ensures { result ≡ is_this_key key.now self.now.key }
    {
        match &self.key {
            Some(other) => other == key,
            None => false,
        }
    }

    /// Returns the entry with this key. Its name and its value stay.
    pub(crate) fn with_key(self, key: Option<Key>) -> IndexEntry
        ensures { entry_of result ≡ record {
          key = key;
          name = text_of self.name;
          value = view self.value;
        } }
    {
        let IndexEntry {
            key: _key,
            name,
            value,
        } = self;
        IndexEntry { key, name, value }
    }

    /// Returns the descriptor, and drops the rest of the entry.
    pub(crate) fn into_value(self) -> Value
        ensures { result ≡ self.value }
    {
        let IndexEntry {
            key: _key,
            name: _name,
            value,
        } = self;
        value
    }
}

/// Returns an equal key, if there is one.
pub(crate) fn copy_of(key: &Option<Key>) -> Result<Option<Key>, NoMemory>
    ensures { IfOk result (λ copy. copy ≡ key.now) }
{
    match key {
        Some(key) => Ok(Some(key.try_clone()?)),
        None => Ok(None),
    }
}

/// Returns whether the key of an entry is held.
pub(crate) fn is_held(graph: &Graph, key: &Option<Key>) -> bool
    ensures { result ≡ is_held graph.now key.now }
{
    match key {
        Some(key) => graph.holds(key),
        None => false,
    }
}

/// What an index says: its entries, and its own members without them.
pub(crate) struct IndexContent {
    entries: Vec<IndexEntry>,
    members: Value,
}

/// Written out, so that a proof has one call where it is dropped.
impl Drop for IndexContent {
    fn drop(self) {
        let IndexContent {
            entries: _entries,
            members: _members,
        } = self;
    }
}

impl Model for IndexContent {
    ghost use Rattle.oci_layout_store.specs.Entries.{content_of, ReadIndex, IsShallow};
    ghost use Rattle.serde_json.specs.contracts.value.Value as value;
    ghost use Rattle.std.specs.Coded.{codes};

    ghost Value = { ReadIndex };

    ghost coded = { Prim.hlevel (codes, value.the_row.coded) };

    ghost view = { λ c. record { entries = c.entries.items; members = c.members } };

    ghost invariant = { λ c. IsShallow (content_of c.entries.items c.members) };
}

impl IndexContent {
    /// Creates the content of an index with these entries, and with the members of this object.
    pub(crate) fn new(entries: Vec<IndexEntry>, members: Value) -> IndexContent
        requires { IsShallow (content_of entries.items members) }
        ensures { result ≡ record { entries = entries.items; members = members } }
    {
        IndexContent { entries, members }
    }

    /// Creates the content of no index. Does not allocate.
    pub(crate) fn none(alloc: Global) -> IndexContent
        ensures { result ≡ nothing_read }
    {
        IndexContent {
            entries: Vec::new(alloc),
            members: Value::Null,
        }
    }

    /// Returns the text of an index without entries.
    pub(crate) fn empty_text(alloc: Global) -> Result<Vec<u8>, NoMemory>
        ensures { IfOk result (λ bytes. IsCompact bytes.items (index_value no_content)) }
    {
        index_text(alloc, &Value::Null, Vec::new(alloc))
    }

    /// Returns the entries.
    pub(crate) fn entries(&self) -> &[IndexEntry]
        ensures entries { result.now ≡ self.now.entries }
        ensures shallow { All IsShallowEntry (map entry_of self.now.entries) }
    {
        &self.entries
    }

    /// Returns the entries, and the object of the other members.
    pub(crate) fn into_parts(self) -> (Vec<IndexEntry>, Value)
        ensures parts { self ≡ record { entries = result.0.items; members = result.1 } }
        ensures shallow { IsShallow (content_of result.0.items result.1) }
    {
        let IndexContent { entries, members } = self;
        (entries, members)
    }

    /// Returns the text of the index that a save writes. `absent` are the keys of those of the
    /// entries that were not held when the layout was opened.
    pub(crate) fn saved_text(
        &self,
        alloc: Global,
        absent: &[Key],
        graph: &Graph,
        tags: &Tags,
    ) -> Result<Vec<u8>, NoMemory>
        ensures { IfOk result (λ bytes. (loose : List Descriptor)
            × AreLoose graph.now tags.now (said self.now).entries loose
            × IsCompact bytes.items (index_value (saved_content (record {
              absent = absent.now;
              damaged = [];
              content = self.now;
            }) graph.now tags.now loose))) }
    {
        let entries = saved_entries(alloc, absent, &self.entries, graph, tags)?;
        index_text(alloc, &self.members, entries)
    }

    /// Returns the held keys of the entries with a name that a save writes before the tags.
    /// `absent` are the keys of those of the entries that were not held when the layout was
    /// opened.
    pub(crate) fn shadowed_keys(
        &self,
        alloc: Global,
        absent: &[Key],
        graph: &Graph,
        tags: &Tags,
    ) -> Result<Vec<Key>, NoMemory>
        ensures { IfOk result (λ keys. keys.items ≡ shadowed_keys (record {
          absent = absent.now;
          damaged = [];
          content = self.now;
        }) graph.now tags.now) }
    {
        shadowed_keys(alloc, absent, &self.entries, graph, tags)
    }
}
