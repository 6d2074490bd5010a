ghost use Rattle.std.specs.Prelude.{◌≡◌, [], map, IfErr, IfOk, OnOk};
ghost use Rattle.oci_layout_store.specs.Entries.{entry_of, said, unreadable_places};
ghost use Rattle.oci_layout_store.specs.Refusal.{IsFirstUnreadable, IsUnreadable};

use crate::fault::LayoutFault;
use crate::index::IndexEntry;
use crate::layout::Layout;
use oci_digest::NoMemory;
use oci_dir::Dir;
use oci_manifest::ManifestFault;
use std::alloc::Global;

impl<D: Dir> Layout<D> {
    /// Returns the places of those of the [`entries`](Layout::entries) that are no descriptors, in
    /// order. Only a layout that was [opened as it is](Layout::open_as_is) has such entries, and
    /// right after that the places are those in the index.
    ///
    /// # Errors
    ///
    /// `NoMemory` if memory runs out.
    pub fn unreadable(&self) -> Result<Vec<usize>, NoMemory>
        ensures { IfOk result (λ places. places.items
            ≡ unreadable_places (said self.now.opened.content).entries) }
    {
        unreadable_places(self.alloc, self.content.entries())
    }

    /// Fails if one of the [`entries`](Layout::entries) is no descriptor. Does not allocate.
    ///
    /// # Errors
    ///
    /// 73 `BadIndex` with 14 `BadDescriptor` for the first such entry, as [`open`](Layout::open)
    /// returns it.
    pub fn check_entries(&self) -> Result<(), LayoutFault>
        ensures readable { OnOk result
            (unreadable_places (said self.now.opened.content).entries ≡ []) }
        ensures cause { IfErr result
            (IsFirstUnreadable (said self.now.opened.content).entries) }
    {
        check_entries(self.content.entries())
    }
}

/// Returns the fault of an index whose entry at a place is no descriptor, as
/// [`Layout::open`](crate::Layout::open) returns it.
pub fn unreadable_entry(place: usize) -> LayoutFault
    ensures { IsUnreadable place result }
{
    LayoutFault::BadIndex(ManifestFault::BadDescriptor("manifests", place as u64))
}

/// Returns the places of those of these entries that are no descriptors.
fn unreadable_places(alloc: Global, entries: &[IndexEntry]) -> Result<Vec<usize>, NoMemory>
    ensures { IfOk result (λ places. places.items
        ≡ unreadable_places (map entry_of entries.now)) }
{
    let mut places = Vec::new(alloc);
    for (place, entry) in entries.iter().enumerate() {
        if entry.key.is_none() {
            places.push(place)?;
        }
    }
    Ok(places)
}

/// Fails if one of these entries is no descriptor.
fn check_entries(entries: &[IndexEntry]) -> Result<(), LayoutFault>
    ensures readable { OnOk result (unreadable_places (map entry_of entries.now) ≡ []) }
    ensures cause { IfErr result (IsFirstUnreadable (map entry_of entries.now)) }
{
    for (place, entry) in entries.iter().enumerate() {
        if entry.key.is_none() {
            return Err(unreadable_entry(place));
        }
    }
    Ok(())
}
