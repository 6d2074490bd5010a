//! The last entry of each name.
ghost use Rattle.std.specs.Prelude.{◌≡◌, if◌then◌else◌, Some, map, option_map, string_bytes, string_cmp, String, IfOk, OnOk};
ghost use Rattle.std.specs.BTreeMap.{get};
ghost use Rattle.std.specs.declared.alloc.Global.{Global};
ghost use Rattle.oci_layout_store.specs.Entries.{entry_of, text_of};
ghost use Rattle.oci_layout_store.specs.Saved.{is_name, last_entry, last_place, tag_entry, HasLastPlaces};

use crate::index::{IndexEntry, new_entry};
use oci_digest::NoMemory;
use oci_manifest::Key;
use std::alloc::Global;
use std::collections::BTreeMap;
use std::marker::Model;

/// The entries of an index, with the place of the last one of each name. A name belongs to its last
/// entry; the others of that name are shadowed.
pub struct Names<'l> {
    entries: &'l [IndexEntry],
    places: BTreeMap<String, usize>,
}

/// Written out, so that a proof has one call where it is dropped.
impl<'l> Drop for Names<'l> {
    fn drop(self) {
        let Names {
            entries: _,
            places: _places,
        } = self;
    }
}

impl<'l> Model for Names<'l> {
    ghost use Rattle.std.specs.Prelude.{List, map};
    ghost use Rattle.std.specs.Coded.{coded_list};
    ghost use Rattle.oci_layout_store.specs.declared.index.IndexEntry.{IndexEntry};
    ghost use Rattle.oci_layout_store.specs.contracts.index.IndexEntry as entry;

    ghost Value = { List IndexEntry };

    ghost coded = { coded_list entry.the_row.coded };

    ghost use Rattle.oci_layout_store.specs.Entries.{entry_of};
    ghost use Rattle.oci_layout_store.specs.Saved.{HasLastPlaces};

    ghost view = { λ n. n.entries.now };

    ghost invariant = { λ n. HasLastPlaces n.places (map entry_of n.entries.now) };
}

impl<'l> Names<'l> {
    /// Finds the last entry of each name.
    ///
    /// # Errors
    ///
    /// `NoMemory` if memory runs out.
    pub fn of(alloc: Global, entries: &'l [IndexEntry]) -> Result<Names<'l>, NoMemory>
        ensures { IfOk result (λ names. names ≡ entries.now) }
    {
        let places = last_places(alloc, entries)?;
        Ok(Names { entries, places })
    }

    /// Returns the last entry with a name, and its place.
    pub fn last(&self, name: &String) -> Option<(usize, &'l IndexEntry)>
        ensures place { option_map (λ l. l.0) result
            ≡ last_place (string_bytes name.now) (map entry_of self.now) }
        ensures entry { option_map (λ l. entry_of l.1.now) result
            ≡ last_entry (string_bytes name.now) (map entry_of self.now) }
    {
        let place = *self.places.get(name)?;
        let entry = self.entries.get(place)?;
        Some((place, entry))
    }

    /// Returns the entry of a tag: the last one with its name, if that has its key, and otherwise a
    /// new one.
    pub(crate) fn entry_of_tag(
        &self,
        alloc: Global,
        name: String,
        key: Key,
    ) -> Result<IndexEntry, NoMemory>
        ensures { IfOk result (λ e. entry_of e
            ≡ tag_entry (map entry_of self.now) (string_bytes name, key)) }
    {
        if let Some((_place, entry)) = self.last(&name) {
            if entry.has_key(&key) {
                return entry.try_clone();
            }
        }
        new_entry(alloc, key, Some(name))
    }
}

/// Returns the place of the last entry of each name.
fn last_places(alloc: Global, entries: &[IndexEntry]) -> Result<BTreeMap<String, usize>, NoMemory>
    ensures { IfOk result (λ places. HasLastPlaces places (map entry_of entries.now)) }
{
    let mut places = BTreeMap::new(alloc);
    for (place, entry) in entries.iter().enumerate() {
        set_place(&mut places, &entry.name, place)?;
    }
    Ok(places)
}

/// Sets the place of a name, if there is one.
fn set_place(
    places: &mut BTreeMap<String, usize>,
    name: &Option<String>,
    place: usize,
) -> Result<(), NoMemory>
    ensures { OnOk result ((other : String Global) → get string_cmp places.new other
        ≡ (if is_name (string_bytes other) (text_of name.now) then Some place
        else get string_cmp places.old other)) }
{
    let Some(name) = name else {
        return Ok(());
    };
    places.insert(name.clone()?, place)?;
    Ok(())
}
