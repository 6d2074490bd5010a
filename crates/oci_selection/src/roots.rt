//! The roots of a copy, and the tags of the source that come with them.
ghost use Rattle.std.specs.Prelude.{◌≡◌, ◌↔◌, ◌⊎◌, ◌++◌, [], ◌∷◌, true, map, Contains, IfOk, IfErr, OnOk};
ghost use Rattle.std.specs.Map.{values_of};
ghost use Rattle.oci_manifest.specs.Descriptor.{Descriptor};
ghost use Rattle.oci_store.specs.Tags.{by_bytes, without_tag, AreNames};
ghost use Rattle.oci_store.specs.Visiting.{with_keys};
ghost use Rattle.oci_layout_store.specs.Meaning.{meaning};
ghost use Rattle.oci_layout_store.specs.Entries.{entry_keys, entry_of};
ghost use Rattle.oci_entries.specs.Pattern.{texts_of};
ghost use Rattle.oci_selection.specs.Refusal.{IsOtherFault};
ghost use Rattle.oci_selection.specs.Selected.{
  each_once,
  named_keys,
  AddsAttached,
  AddsTyped,
  AreAllRoots,
  AreClimbed,
  AreClimbedOfKeys,
  AreOfRoots,
  AreReferenceRoots,
  AreUntagged,
  AreWithAttached,
  IsClimbed,
  IsSourceBelonging,
  IsTypedBelonging,
};

use crate::referrers::Referrers;
use oci_digest::NoMemory;
use oci_dir::Dir;
use oci_entries::{CopyRoots, unmatched_tags};
use oci_layout_store::{IndexEntry, Layout};
use oci_manifest::Key;
use oci_plan::climb;
use oci_program::ProgramFault;
use oci_prune::{Belonging, belonging_of, belonging_of_types, free_keys};
use oci_store::{GraphSource, KeyList, keys_of_set};
use std::alloc::Global;
use std::slice;

/// Returns the roots of a copy of the key that a reference resolves to, whose tag has this name.
/// Without referrers it is the only root, and no other tag comes with it.
///
/// With referrers, the key comes first; if the copy climbs, these are the keys from which a path
/// within the depth leads to it, in key order. Then comes what is attached to what belongs to these
/// keys. The tags are those of the source that name what belongs to them by its digest, but for one
/// of the same name. With types no other tag comes.
///
/// # Errors
///
/// - 77 `BadManifest` and 88 `Fetch` with referrers, if a manifest of the source cannot be read.
/// - Out of memory, at any point.
pub(crate) fn roots_of_reference<D: Dir>(
    alloc: Global,
    source: &Layout<D>,
    key: &Key,
    name: &str,
    referrers: Referrers<'_>,
) -> Result<CopyRoots, ProgramFault>
    ensures exact { IfOk result (λ roots. AreReferenceRoots
        (meaning (D.device source.now.dir) source.now.graph source.now.tags) referrers.entry
        key.now name.now roots.keys.items (by_bytes roots.tags.items)) }
    ensures tagged { IfOk result (λ roots.
        AreOfRoots roots.keys.items (by_bytes roots.tags.items)) }
{
    match referrers {
        Referrers::LeftOut => only(alloc, key),
        Referrers::Climbed(depth) => {
            with_attached(alloc, source, &climb(alloc, source, key, depth)?, name)
        }
        Referrers::Attached => with_attached(alloc, source, slice::from_ref(key), name),
        Referrers::OfTypes(types) => with_typed(alloc, source, slice::from_ref(key), types),
    }
}

/// Returns one root, and no tags.
fn only(alloc: Global, key: &Key) -> Result<CopyRoots, ProgramFault>
    ensures keys { IfOk result (λ roots. roots.keys.items ≡ key.now ∷ []) }
    ensures tags { IfOk result (λ roots. roots.tags.items ≡ []) }
    ensures refused { IfErr result IsOtherFault }
{
    let mut keys = Vec::new(alloc);
    keys.push(key.try_clone()?)?;
    Ok(CopyRoots {
        keys,
        tags: Vec::new(alloc),
    })
}

/// Returns the roots of a copy with referrers, and the tags that come with a tag of this name.
fn with_attached<D: Dir>(
    alloc: Global,
    source: &Layout<D>,
    climbed: &[Key],
    name: &str,
) -> Result<CopyRoots, ProgramFault>
    ensures exact { IfOk result (λ roots. AreWithAttached
        (meaning (D.device source.now.dir) source.now.graph source.now.tags) climbed.now
        name.now roots.keys.items (by_bytes roots.tags.items)) }
    ensures tagged { IfOk result (λ roots.
        AreOfRoots roots.keys.items (by_bytes roots.tags.items)) }
{
    let belonging = source_belonging(alloc, source, climbed)?;
    let keys = both(alloc, climbed, &belonging.attached)?;
    let tags = tags_without(alloc, &belonging.tags, name)?;
    Ok(CopyRoots { keys, tags })
}

/// Returns the roots of a copy of these keys with referrers of these types alone, and no tags.
fn with_typed<D: Dir>(
    alloc: Global,
    source: &Layout<D>,
    keys: &[Key],
    types: &[&str],
) -> Result<CopyRoots, ProgramFault>
    ensures keys { IfOk result (λ roots. AddsTyped
        (meaning (D.device source.now.dir) source.now.graph source.now.tags)
        (map (λ t. t.now) types.now) keys.now roots.keys.items) }
    ensures tags { IfOk result (λ roots. roots.tags.items ≡ []) }
    ensures refused { IfErr result IsOtherFault }
{
    Ok(CopyRoots {
        keys: add_typed(alloc, source, keys, types)?,
        tags: Vec::new(alloc),
    })
}

/// Returns the roots of a copy of these keys, which are those of tags that match the patterns. Each
/// key is one of them, once.
///
/// With referrers, the keys from which a path within the depth leads to one of them are among them if
/// the copy climbs, and what is attached to what belongs to them comes after them. The tags are then
/// those of the source that name what belongs to them by its digest, and that match no pattern.
///
/// # Errors
///
/// - 77 `BadManifest` and 88 `Fetch` with referrers, if a manifest of the source cannot be read.
/// - Out of memory, at any point.
pub(crate) fn roots_of_keys<D: Dir>(
    alloc: Global,
    source: &Layout<D>,
    keys: &[Key],
    patterns: &[&str],
    referrers: Referrers<'_>,
) -> Result<CopyRoots, ProgramFault>
    ensures exact { IfOk result (λ roots. AreAllRoots
        (meaning (D.device source.now.dir) source.now.graph source.now.tags)
        (texts_of patterns.now) referrers.entry keys.now roots.keys.items
        (by_bytes roots.tags.items)) }
    ensures tagged { IfOk result (λ roots.
        AreOfRoots roots.keys.items (by_bytes roots.tags.items)) }
    ensures refused { IfErr result IsOtherFault }
{
    match referrers {
        Referrers::LeftOut => Ok(CopyRoots {
            keys: climb_from_all(alloc, source, keys, None)?,
            tags: Vec::new(alloc),
        }),
        Referrers::Climbed(depth) => {
            let climbed = climb_from_all(alloc, source, keys, Some(depth))?;
            add_attached(alloc, source, &climbed, patterns)
        }
        Referrers::Attached => {
            let climbed = climb_from_all(alloc, source, keys, None)?;
            add_attached(alloc, source, &climbed, patterns)
        }
        Referrers::OfTypes(types) => {
            let once = climb_from_all(alloc, source, keys, None)?;
            with_typed(alloc, source, &once, types)
        }
    }
}

/// Returns the keys, and after them what is attached to what belongs to them, each once. The tags are
/// those that name what belongs to them by its digest, and that match no pattern.
fn add_attached<D: Dir>(
    alloc: Global,
    source: &Layout<D>,
    climbed: &[Key],
    patterns: &[&str],
) -> Result<CopyRoots, ProgramFault>
    ensures exact { IfOk result (λ roots. AddsAttached
        (meaning (D.device source.now.dir) source.now.graph source.now.tags)
        (texts_of patterns.now) climbed.now roots.keys.items (by_bytes roots.tags.items)) }
    ensures tagged { IfOk result (λ roots.
        AreOfRoots roots.keys.items (by_bytes roots.tags.items)) }
    ensures refused { IfErr result IsOtherFault }
{
    let belonging = source_belonging(alloc, source, climbed)?;
    let keys = both(alloc, climbed, &belonging.attached)?;
    let tags = unmatched_tags(alloc, &belonging.tags, patterns)?;
    Ok(CopyRoots { keys, tags })
}

/// Returns the keys, and after them what is attached to what belongs to them, if of what is attached
/// to what they reach only referrers of these types are wanted, each once.
fn add_typed<D: Dir>(
    alloc: Global,
    source: &Layout<D>,
    keys: &[Key],
    types: &[&str],
) -> Result<Vec<Key>, ProgramFault>
    ensures exact { IfOk result (λ roots. AddsTyped
        (meaning (D.device source.now.dir) source.now.graph source.now.tags)
        (map (λ t. t.now) types.now) keys.now roots.items) }
    ensures refused { IfErr result IsOtherFault }
{
    let belonging = typed_belonging(alloc, source, keys, types)?;
    Ok(both(alloc, keys, &belonging.attached)?)
}

/// Returns what belongs to keys of a source, if of what is attached to what they reach only referrers
/// of these types are wanted.
fn typed_belonging<D: Dir>(
    alloc: Global,
    source: &Layout<D>,
    keys: &[Key],
    types: &[&str],
) -> Result<Belonging, ProgramFault>
    ensures exact { IfOk result (IsTypedBelonging
        (meaning (D.device source.now.dir) source.now.graph source.now.tags)
        (map (λ t. t.now) types.now) keys.now) }
    ensures refused { IfErr result IsOtherFault }
{
    match belonging_of_types(alloc, source, keys, types) {
        Ok(found) => Ok(found),
        Err(fault) => Err(ProgramFault::Source(fault)),
    }
}

/// Returns what belongs to keys of a source, by its manifests and its tags.
fn source_belonging<D: Dir>(
    alloc: Global,
    source: &Layout<D>,
    keys: &[Key],
) -> Result<Belonging, ProgramFault>
    ensures exact { IfOk result (IsSourceBelonging
        (meaning (D.device source.now.dir) source.now.graph source.now.tags) keys.now) }
    ensures names { AreNames source.now.graph source.now.tags }
    ensures refused { IfErr result IsOtherFault }
{
    let tags = source.tags()?;
    match belonging_of(alloc, source, keys, &tags) {
        Ok(found) => Ok(found),
        Err(fault) => Err(ProgramFault::Source(fault)),
    }
}

/// Returns the keys of both lists, each once.
pub fn both(alloc: Global, first: &[Key], second: &[Key]) -> Result<Vec<Key>, NoMemory>
    ensures { IfOk result (λ keys. keys.items ≡ each_once (first.now ++ second.now)) }
{
    let mut keys = KeyList::new(alloc);
    keys.place_all(first)?;
    keys.place_all(second)?;
    Ok(keys.into_keys())
}

/// Returns the tags that do not have this name, in their order.
fn tags_without(
    alloc: Global,
    tags: &[(String, Key)],
    name: &str,
) -> Result<Vec<(String, Key)>, NoMemory>
    ensures { IfOk result (λ others. by_bytes others.items
        ≡ without_tag (by_bytes tags.now) name.now) }
{
    let mut others = Vec::new(alloc);
    for (other, key) in tags {
        if name == other.as_str() {
            continue;
        }
        others.push((other.clone()?, key.try_clone()?))?;
    }
    Ok(others)
}

/// Returns the tagged keys, and those of the entries of their names, each once.
pub fn named_keys(
    alloc: Global,
    tags: &[(String, Key)],
    named: &[IndexEntry],
) -> Result<Vec<Key>, NoMemory>
    ensures { IfOk result (λ keys. (k : Descriptor) → Contains keys.items k
        ↔ Contains (named_keys (by_bytes tags.now) (map entry_of named.now)) k) }
{
    let mut keys = KeyList::new(alloc);
    place_tags(tags, &mut keys)?;
    place_named(named, &mut keys)?;
    Ok(keys.into_keys())
}

/// Returns the keys that a copy of tags starts from, each once: theirs, those of the entries of their
/// names, and these.
pub(crate) fn start_keys(
    alloc: Global,
    tags: &[(String, Key)],
    named: &[IndexEntry],
    untagged: &[Key],
) -> Result<Vec<Key>, NoMemory>
    ensures { IfOk result (λ keys. (k : Descriptor) → Contains keys.items k
        ↔ Contains (named_keys (by_bytes tags.now) (map entry_of named.now) ++ untagged.now) k) }
{
    let named = named_keys(alloc, tags, named)?;
    both(alloc, &named, untagged)
}

/// Returns the images of a source that no tag names, in key order, if they are asked for.
///
/// # Errors
///
/// - 77 `BadManifest` and 88 `Fetch` if a manifest of the source cannot be read.
/// - Out of memory, at any point.
pub fn untagged_keys<D: Dir>(
    alloc: Global,
    source: &Layout<D>,
    is_asked: bool,
) -> Result<Vec<Key>, ProgramFault>
    ensures exact { IfOk result (λ keys. AreUntagged D.device source.now is_asked keys.items) }
    ensures refused { IfErr result IsOtherFault }
{
    if is_asked {
        all_untagged(alloc, source)
    } else {
        Ok(Vec::new(alloc))
    }
}

/// Returns the images of a source that no tag names, in key order.
fn all_untagged<D: Dir>(alloc: Global, source: &Layout<D>) -> Result<Vec<Key>, ProgramFault>
    ensures exact { IfOk result (λ keys. AreUntagged D.device source.now true keys.items) }
    ensures refused { IfErr result IsOtherFault }
{
    match free_keys(alloc, source) {
        Ok(found) => Ok(keys_of_set(alloc, &found)?),
        Err(fault) => Err(ProgramFault::Source(fault)),
    }
}

/// Adds the keys of tags, each if it is new.
fn place_tags(tags: &[(String, Key)], keys: &mut KeyList) -> Result<(), NoMemory>
    ensures { OnOk result (keys.new ≡ with_keys keys.old (values_of (by_bytes tags.now))) }
{
    for (_, key) in tags {
        keys.place(key)?;
    }
    Ok(())
}

/// Adds the keys of those entries that have one, each if it is new.
fn place_named(entries: &[IndexEntry], keys: &mut KeyList) -> Result<(), NoMemory>
    ensures { OnOk result (keys.new
        ≡ with_keys keys.old (entry_keys (map entry_of entries.now))) }
{
    for entry in entries {
        place_entry(entry, keys)?;
    }
    Ok(())
}

/// Adds the key of an entry, if it has one and the key is new.
fn place_entry(entry: &IndexEntry, keys: &mut KeyList) -> Result<(), NoMemory>
    ensures { OnOk result (keys.new
        ≡ with_keys keys.old (entry_keys (entry_of entry.now ∷ []))) }
{
    let Some(key) = &entry.key else {
        return Ok(());
    };
    keys.place(key)?;
    Ok(())
}

/// Returns the keys that a copy of these keys climbs to, each once.
fn climb_from_all<A: GraphSource>(
    alloc: Global,
    source: &A,
    keys: &[Key],
    referrers: Option<u32>,
) -> Result<Vec<Key>, NoMemory>
    ensures { IfOk result (λ roots. AreClimbedOfKeys (A.state source.now).nodes referrers keys.now
        roots.items) }
{
    let mut roots = KeyList::new(alloc);
    for key in keys {
        place_climbed(alloc, source, key, referrers, &mut roots)?;
    }
    Ok(roots.into_keys())
}

/// Adds the keys that a copy of one key climbs to.
fn place_climbed<A: GraphSource>(
    alloc: Global,
    source: &A,
    key: &Key,
    referrers: Option<u32>,
    roots: &mut KeyList,
) -> Result<(), NoMemory>
    ensures { OnOk result ((root : Descriptor) → Contains roots.new root
        ↔ (Contains roots.old root
        ⊎ IsClimbed (A.state source.now).nodes referrers key.now root)) }
{
    let more = climb_from(alloc, source, key, referrers)?;
    roots.place_all(&more)?;
    Ok(())
}

/// Returns the keys that a copy of one key climbs to: the key, and with `referrers` the keys from
/// which a path within that number of levels leads to it.
fn climb_from<A: GraphSource>(
    alloc: Global,
    source: &A,
    key: &Key,
    referrers: Option<u32>,
) -> Result<Vec<Key>, NoMemory>
    ensures { IfOk result (λ roots. AreClimbed (A.state source.now).nodes referrers key.now
        roots.items) }
{
    match referrers {
        Some(depth) => climb(alloc, source, key, depth),
        None => {
            let mut roots = Vec::new(alloc);
            roots.push(key.try_clone()?)?;
            Ok(roots)
        }
    }
}
