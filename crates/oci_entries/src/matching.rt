//! The tags and the entries whose names match patterns.
ghost use Rattle.std.specs.Prelude.{◌≡◌, ◌&&◌, not, map, IfOk};
ghost use Rattle.oci_layout_store.specs.Entries.{entry_of};
ghost use Rattle.oci_layout_store.specs.Saved.{no_name};
ghost use Rattle.oci_store.specs.Tags.{by_bytes};
ghost use Rattle.oci_entries.specs.Pattern.{
  matches_name,
  matching_entries,
  matching_tags,
  texts_of,
  unmatched_tags,
};

use crate::pattern::matches_one;
use oci_digest::NoMemory;
use oci_layout_store::IndexEntry;
use oci_manifest::Key;
use std::alloc::Global;

/// Returns the tags whose names match one of the patterns, in their order. If there are no patterns,
/// each tag does.
pub fn matching_tags(
    alloc: Global,
    tags: &[(String, Key)],
    patterns: &[&str],
) -> Result<Vec<(String, Key)>, NoMemory>
    ensures { IfOk result (λ found. by_bytes found.items
        ≡ matching_tags (texts_of patterns.now) (by_bytes tags.now)) }
{
    let mut found = Vec::new(alloc);
    for (name, key) in tags {
        if !matches_one(alloc, patterns, name)? {
            continue;
        }
        found.push((name.clone()?, key.try_clone()?))?;
    }
    Ok(found)
}

/// Returns the tags whose names match none of the patterns, in their order.
pub fn unmatched_tags(
    alloc: Global,
    tags: &[(String, Key)],
    patterns: &[&str],
) -> Result<Vec<(String, Key)>, NoMemory>
    ensures { IfOk result (λ found. by_bytes found.items
        ≡ unmatched_tags (texts_of patterns.now) (by_bytes tags.now)) }
{
    let mut found = Vec::new(alloc);
    for (name, key) in tags {
        if matches_one(alloc, patterns, name)? {
            continue;
        }
        found.push((name.clone()?, key.try_clone()?))?;
    }
    Ok(found)
}

/// Returns copies of the entries with a name that matches one of the patterns.
pub fn matching_entries(
    alloc: Global,
    entries: &[IndexEntry],
    patterns: &[&str],
) -> Result<Vec<IndexEntry>, NoMemory>
    ensures { IfOk result (λ found. map entry_of found.items
        ≡ matching_entries (texts_of patterns.now) (map entry_of entries.now)) }
{
    let mut found = Vec::new(alloc);
    for entry in entries {
        if !is_matching(alloc, entry, patterns)? {
            continue;
        }
        found.push(entry.try_clone()?)?;
    }
    Ok(found)
}

/// Returns whether an entry has a name that matches one of the patterns.
pub fn is_matching(alloc: Global, entry: &IndexEntry, patterns: &[&str]) -> Result<bool, NoMemory>
    ensures { IfOk result (λ it. it ≡ (not (no_name (entry_of entry.now).name)
        && matches_name (texts_of patterns.now) (entry_of entry.now).name)) }
{
    match &entry.name {
        Some(name) => Ok(!name.is_empty() && matches_one(alloc, patterns, name)?),
        None => Ok(false),
    }
}
