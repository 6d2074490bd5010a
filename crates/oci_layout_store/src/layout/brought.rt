ghost use Rattle.std.specs.Prelude.{◌≡◌, [], map, IfOk, OnOk, OnErr};
ghost use Rattle.std.specs.BTreeSet.{contains};
ghost use Rattle.std.specs.List.{All};
ghost use Rattle.std.specs.Map.{values_of};
ghost use Rattle.oci_manifest.specs.Descriptor.{key_cmp};
ghost use Rattle.oci_store.specs.Tags.{by_bytes};
ghost use Rattle.oci_layout_store.specs.Brought.{Brings, Forgets, ForgetsNames, IsShallowEntry, comes, coming, is_free};
ghost use Rattle.oci_layout_store.specs.Entries.{entry_of};
ghost use Rattle.oci_layout_store.specs.Layout.{no_index, OnlyIndex};

use crate::index::IndexEntry;
use crate::layout::{Layout, tagged_keys, unnamed_keys};
use crate::opened_index::OpenedIndex;
use oci_digest::NoMemory;
use oci_dir::Dir;
use oci_manifest::Key;
use std::alloc::Global;
use std::collections::BTreeSet;
use std::mem;

impl<D: Dir> Layout<D> {
    /// Takes out what the layout remembers of its index, and leaves it without. Does not allocate.
    pub fn take_index(&mut self) -> OpenedIndex
        ensures taken { result ≡ self.old.opened }
        ensures left { self.new.opened ≡ no_index }
        ensures only { OnlyIndex self.old self.new }
    {
        let none = OpenedIndex::none(self.alloc);
        self.replace_index(none)
    }

    /// Makes the layout remember this of its index, in place of what it remembers.
    pub fn put_index(&mut self, index: OpenedIndex)
        ensures put { self.new.opened ≡ index }
        ensures only { OnlyIndex self.old self.new }
    {
        let _ = self.replace_index(index);
    }

    /// Remembers these entries, so that [`save`](Layout::save) writes them for the tags and the
    /// held keys that they name, each with the media type and the size of its key. They replace the remembered entries of their names. One without a
    /// name is remembered only if it has a key, the key has no tag, and no entry without a name is
    /// remembered of it. An absent key is no longer absent if each entry that had it was replaced.
    ///
    /// # Errors
    ///
    /// `NoMemory` if memory runs out. The layout may then remember nothing of its index.
    pub fn bring(&mut self, entries: &[IndexEntry]) -> Result<(), NoMemory>
        requires { All IsShallowEntry (map entry_of entries.now) }
        ensures brought { OnOk result (Brings (map entry_of entries.now) self.old.tags
            self.old.opened self.new.opened) }
        ensures only { OnlyIndex self.old self.new }
    {
        let more = coming(
            self.alloc,
            &self.tags.to_vec()?,
            self.content.entries(),
            entries,
        )?;
        let index = self.take_index();
        let index = index.replaced(self.alloc, false, entries, more)?;
        self.put_index(index);
        Ok(())
    }

    /// Forgets the entries that have the name of one of these, so that [`save`](Layout::save) does
    /// not write them. An absent key is no longer absent if only they had it.
    ///
    /// # Errors
    ///
    /// `NoMemory` if memory runs out. The layout may then remember nothing of its index.
    pub fn forget(&mut self, entries: &[IndexEntry]) -> Result<(), NoMemory>
        ensures forgotten { OnOk result (Forgets (map entry_of entries.now) self.old.opened
            self.new.opened) }
        ensures lost { OnErr result (self.new.opened ≡ no_index) }
        ensures only { OnlyIndex self.old self.new }
    {
        let index = self.take_index();
        let index = index.replaced(self.alloc, false, entries, Vec::new(self.alloc))?;
        self.put_index(index);
        Ok(())
    }

    /// Forgets the entries with a name. An absent key is no longer absent if only they had it.
    ///
    /// # Errors
    ///
    /// `NoMemory` if memory runs out. The layout may then remember nothing of its index.
    pub fn forget_names(&mut self) -> Result<(), NoMemory>
        ensures forgotten { OnOk result (ForgetsNames self.old.opened self.new.opened) }
        ensures lost { OnErr result (self.new.opened ≡ no_index) }
        ensures only { OnlyIndex self.old self.new }
    {
        let index = self.take_index();
        let index = index.replaced(self.alloc, true, &[], Vec::new(self.alloc))?;
        self.put_index(index);
        Ok(())
    }

    /// Makes the layout remember this of its index, and returns what it remembered.
    fn replace_index(&mut self, index: OpenedIndex) -> OpenedIndex
        ensures old { result ≡ self.old.opened }
        ensures new { self.new.opened ≡ index }
        ensures only { OnlyIndex self.old self.new }
    {
        let (absent, damaged, content) = index.into_parts();
        let absent = mem::replace(&mut self.absent, absent);
        let damaged = mem::replace(&mut self.damaged, damaged);
        let content = mem::replace(&mut self.content, content);
        OpenedIndex::new(absent, damaged, content)
    }
}

/// Returns copies of those of these entries that come: the ones with a name, and the ones with a
/// key that has no tag and no entry without a name among the old ones. Each states its key.
fn coming(
    alloc: Global,
    tags: &[(String, Key)],
    old: &[IndexEntry],
    entries: &[IndexEntry],
) -> Result<Vec<IndexEntry>, NoMemory>
    ensures { IfOk result (λ more. map entry_of more.items
        ≡ coming (values_of (by_bytes tags.now)) (map entry_of old.now)
        (map entry_of entries.now)) }
{
    let tagged = tagged_keys(alloc, tags)?;
    let unnamed = unnamed_keys(alloc, old)?;
    let mut more = Vec::new(alloc);
    for entry in entries {
        if comes(&tagged, &unnamed, entry) {
            more.push(entry.stating(alloc)?)?;
        }
    }
    Ok(more)
}

/// Returns whether an entry comes.
fn comes(tagged: &BTreeSet<Key>, unnamed: &BTreeSet<Key>, entry: &IndexEntry) -> bool
    ensures { result ≡ comes (contains key_cmp tagged.now) (contains key_cmp unnamed.now)
        (entry_of entry.now) }
{
    entry.has_name() || is_free(tagged, unnamed, &entry.key)
}

/// Returns whether the key of an entry has no tag and no entry without a name.
fn is_free(tagged: &BTreeSet<Key>, unnamed: &BTreeSet<Key>, key: &Option<Key>) -> bool
    ensures { result ≡ is_free (contains key_cmp tagged.now) (contains key_cmp unnamed.now)
        key.now }
{
    match key {
        Some(key) => !(tagged.contains(key) || unnamed.contains(key)),
        None => false,
    }
}
