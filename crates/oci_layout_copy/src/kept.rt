//! The tags of a destination that a mirror leaves alone.
ghost use Rattle.std.specs.Prelude.{◌≡◌, ◌≢◌, [], ℕ, List, map, IfOk, OnOk};
ghost use Rattle.std.specs.List.{All};
ghost use Rattle.std.specs.Map.{keys_of};
ghost use Rattle.oci_store.specs.Tags.{by_bytes};
ghost use Rattle.oci_layout_store.specs.Meaning.{meaning};
ghost use Rattle.oci_layout_store.specs.Entries.{entry_of};
ghost use Rattle.oci_layout_store.specs.Layout.{OnlyIndex};
ghost use Rattle.oci_layout_copy.specs.Goal.{
  AreKeptExactly,
  AreKeptTags,
  ForgetsOthers,
  IsReadableIfStays,
  entries_of_names,
  forgotten_entries,
  is_forgotten,
  is_name_of,
  spared_tags,
};
ghost use Rattle.oci_entries.specs.Pattern.{texts_of};
ghost use Rattle.oci_selection.specs.Selected.{IsSourceBelonging};

use crate::mirror::fault_of;
use crate::retag::{has_tag, other_tags, set_of};
use oci_digest::NoMemory;
use oci_dir::Dir;
use oci_entries::{is_matching, unmatched_tags};
use oci_layout_store::{IndexEntry, Layout, unreadable_entry};
use oci_manifest::Key;
use oci_program::ProgramFault;
use oci_prune::{Belonging, belonging_of, independent_tags};
use oci_selection::{Selected, joined, named_keys};
use oci_store::Tags;
use std::alloc::Global;

/// The tags of its destination that a mirror keeps, and the keys that its prune keeps for them beside
/// their own.
#[derive(Drop)]
pub(crate) struct KeptTags {
    /// The tags.
    pub(crate) tags: Vec<(String, Key)>,
    /// The keys.
    pub(crate) attached: Vec<Key>,
}

/// Returns the tags of a destination that a mirror keeps: those that match none of the patterns, but
/// for the names of selected tags.
///
/// If the mirror is exact, a tag that is made of the digest of another held manifest follows that: it
/// is kept only if the manifest belongs to what the other kept tags name. What is attached to what
/// belongs to these is kept too.
///
/// # Errors
///
/// - 77 `BadManifest` and 88 `Fetch` if the mirror is exact, and a held manifest cannot be read.
/// - Out of memory.
pub(crate) fn kept_tags<D: Dir>(
    alloc: Global,
    destination: &Layout<D>,
    selected: &Selected,
    patterns: &[&str],
    is_exact: bool,
) -> Result<KeptTags, ProgramFault>
    ensures kept { IfOk result (λ kept. AreKeptTags D.device destination.now is_exact
        (spared_tags (texts_of patterns.now) destination.now.tags selected.now.1)
        (by_bytes kept.tags.items) kept.attached.items) }
    ensures named { IfOk result (λ kept.
        All (λ (name : List ℕ). name ≢ []) (keys_of (by_bytes kept.tags.items))) }
{
    let unmatched = unmatched_tags(alloc, &destination.tags()?, patterns)?;
    let spared = other_tags(alloc, &unmatched, selected.tags())?;
    if is_exact && !spared.is_empty() {
        return keep_exactly(alloc, destination, &spared);
    }
    Ok(KeptTags {
        tags: spared,
        attached: Vec::new(alloc),
    })
}

/// Returns those of these tags of a destination that an exact mirror keeps, as of [`kept_tags`].
fn keep_exactly<D: Dir>(
    alloc: Global,
    destination: &Layout<D>,
    spared: &[(String, Key)],
) -> Result<KeptTags, ProgramFault>
    requires named { All (λ (name : List ℕ). name ≢ []) (keys_of (by_bytes spared.now)) }
    ensures kept { IfOk result (λ kept. AreKeptExactly D.device destination.now
        (by_bytes spared.now) (by_bytes kept.tags.items) kept.attached.items) }
    ensures named { IfOk result (λ kept.
        All (λ (name : List ℕ). name ≢ []) (keys_of (by_bytes kept.tags.items))) }
{
    let own = independent_tags(alloc, destination, spared)?;
    let named = entries_of_names(alloc, destination.entries(), &set_of(alloc, &own)?)?;
    let keys = named_keys(alloc, &own, &named)?;
    let Belonging { attached, tags, .. } = belonging_by(alloc, destination, &keys, spared)?;
    let tags = joined(own, tags)?;
    Ok(KeptTags { tags, attached })
}

/// Returns what belongs to keys of a destination, by its manifests and these tags.
fn belonging_by<D: Dir>(
    alloc: Global,
    destination: &Layout<D>,
    keys: &[Key],
    tags: &[(String, Key)],
) -> Result<Belonging, ProgramFault>
    ensures { IfOk result (IsSourceBelonging (meaning (D.device destination.now.dir)
        destination.now.graph (by_bytes tags.now)) keys.now) }
{
    match belonging_of(alloc, destination, keys, tags) {
        Ok(found) => Ok(found),
        Err(fault) => Err(fault_of(fault)),
    }
}

/// Returns copies of the entries that have the name of one of these tags.
fn entries_of_names(
    alloc: Global,
    entries: &[IndexEntry],
    tags: &Tags,
) -> Result<Vec<IndexEntry>, NoMemory>
    ensures { IfOk result (λ found. map entry_of found.items
        ≡ entries_of_names tags.now (map entry_of entries.now)) }
{
    let mut found = Vec::new(alloc);
    for entry in entries {
        if !has_name_of(entry, tags) {
            continue;
        }
        found.push(entry.try_clone()?)?;
    }
    Ok(found)
}

/// Returns whether an entry has the name of one of these tags.
fn has_name_of(entry: &IndexEntry, tags: &Tags) -> bool
    ensures { result ≡ is_name_of tags.now (entry_of entry.now).name }
{
    match &entry.name {
        Some(name) => has_tag(tags, name),
        None => false,
    }
}

/// Makes a destination forget the entries of each name that matches one of the patterns, that is
/// selected, or whose tag is not kept. An entry that it does not forget must be a descriptor.
///
/// # Errors
///
/// - 73 `BadIndex` for the first such entry that is no descriptor. The fault has its place in the
///   index.
/// - Out of memory. The destination may then remember nothing of its index.
pub(crate) fn forget_others<D: Dir>(
    alloc: Global,
    destination: &mut Layout<D>,
    selected: &Selected,
    patterns: &[&str],
    kept: &[(String, Key)],
) -> Result<(), ProgramFault>
    ensures forgotten { OnOk result (ForgetsOthers (texts_of patterns.now) (by_bytes kept.now)
        selected.now.1 destination.old destination.new) }
    ensures only { OnlyIndex destination.old destination.new }
{
    let gone = set_of(alloc, &other_tags(alloc, &destination.tags()?, kept)?)?;
    let chosen = set_of(alloc, selected.tags())?;
    check_staying(alloc, destination.entries(), patterns, &gone, &chosen)?;
    let forgotten = forgotten_entries(alloc, destination.entries(), patterns, &gone, &chosen)?;
    destination.forget(&forgotten)?;
    Ok(())
}

/// Refuses the first of these entries that is not forgotten and is no descriptor.
fn check_staying(
    alloc: Global,
    entries: &[IndexEntry],
    patterns: &[&str],
    gone: &Tags,
    selected: &Tags,
) -> Result<(), ProgramFault>
    ensures { OnOk result (All (IsReadableIfStays (texts_of patterns.now) gone.now selected.now)
        entries.now) }
{
    for (place, entry) in entries.iter().enumerate() {
        check_entry(alloc, place, entry, patterns, gone, selected)?;
    }
    Ok(())
}

/// Refuses the entry at this place if it is not forgotten and is no descriptor.
fn check_entry(
    alloc: Global,
    place: usize,
    entry: &IndexEntry,
    patterns: &[&str],
    gone: &Tags,
    selected: &Tags,
) -> Result<(), ProgramFault>
    ensures { OnOk result (IsReadableIfStays (texts_of patterns.now) gone.now selected.now
        entry.now) }
{
    if is_forgotten(alloc, entry, patterns, gone, selected)? {
        return Ok(());
    }
    match &entry.key {
        Some(_) => Ok(()),
        None => Err(ProgramFault::Destination(unreadable_entry(place))),
    }
}

/// Returns copies of the entries that are forgotten.
fn forgotten_entries(
    alloc: Global,
    entries: &[IndexEntry],
    patterns: &[&str],
    gone: &Tags,
    selected: &Tags,
) -> Result<Vec<IndexEntry>, NoMemory>
    ensures { IfOk result (λ found. map entry_of found.items ≡ forgotten_entries
        (texts_of patterns.now) gone.now selected.now (map entry_of entries.now)) }
{
    let mut found = Vec::new(alloc);
    for entry in entries {
        if !is_forgotten(alloc, entry, patterns, gone, selected)? {
            continue;
        }
        found.push(entry.try_clone()?)?;
    }
    Ok(found)
}

/// Returns whether an entry is forgotten: it has a name that matches one of the patterns, or the name
/// of a tag that goes or of a selected one.
fn is_forgotten(
    alloc: Global,
    entry: &IndexEntry,
    patterns: &[&str],
    gone: &Tags,
    selected: &Tags,
) -> Result<bool, NoMemory>
    ensures { IfOk result (λ it. it ≡ is_forgotten (texts_of patterns.now) gone.now
        selected.now (entry_of entry.now)) }
{
    Ok(
        is_matching(alloc, entry, patterns)?
            || has_name_of(entry, gone)
            || has_name_of(entry, selected),
    )
}
