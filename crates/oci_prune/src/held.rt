ghost use Rattle.std.specs.Prelude.{◌≡◌, ◌≢◌, ◌⊎◌, [], ◌++◌, not, filter, IfOk, IfErr, OnOk};
ghost use Rattle.std.specs.BTreeSet.{contains};
ghost use Rattle.std.specs.Map.{values_of};
ghost use Rattle.oci_manifest.specs.Descriptor.{key_cmp};
ghost use Rattle.oci_store.specs.Tags.{by_bytes};
ghost use Rattle.oci_store.specs.Keyed.{HasAll};
ghost use Rattle.oci_prune.specs.Plan.{AreHeld, roots_of, roots_with};

use crate::attachments::add_copies;
use oci_digest::NoMemory;
use oci_dir::Dir;
use oci_layout_store::Layout;
use oci_manifest::Key;
use oci_prune_fault::PruneFault;
use oci_store::{Dest, keys_of_set};
use std::alloc::Global;
use std::collections::BTreeSet;

/// Returns the held keys of a layout, in key order.
pub(crate) fn held_keys<D: Dir>(alloc: Global, layout: &Layout<D>) -> Result<Vec<Key>, NoMemory>
    ensures { IfOk result (λ keys. AreHeld layout.now.graph keys.items) }
{
    let mut held = BTreeSet::new(alloc);
    for place in 0..layout.count() {
        let Some(key) = layout.key(place) else {
            unreachable!();
        };
        held.insert(key.try_clone()?)?;
    }
    let keys = keys_of_set(alloc, &held)?;
    Ok(keys)
}

/// Returns the keys that a prune of a layout starts from: the given ones, those of the tags, and
/// those of the entries that a tag hides.
///
/// # Errors
///
/// - 97 `NoTags` if there is no tag.
/// - 89 `Memory` if memory runs out.
pub(crate) fn root_keys<D: Dir>(
    alloc: Global,
    layout: &Layout<D>,
    keys: &[Key],
) -> Result<Vec<Key>, PruneFault>
    ensures roots { IfOk result (λ roots. roots.items ≡ roots_with layout.now keys.now) }
    ensures held { OnOk result (HasAll layout.now.graph (roots_of layout.now)) }
    ensures tagged { OnOk result (layout.now.tags ≢ []) }
    ensures cause { IfErr result (λ e. (e ≡ PruneFault.Memory)
        ⊎ ((e ≡ PruneFault.NoTags) × (layout.now.tags ≡ []))) }
{
    let tags = layout.tags()?;
    if tags.is_empty() {
        return Err(PruneFault::NoTags);
    }
    let tagged = joined(named_keys(alloc, &tags)?, layout.shadowed_keys()?)?;
    let roots = joined(copies(alloc, keys)?, tagged)?;
    Ok(roots)
}

/// Returns the keys of the tags of a layout, and of the entries that a tag hides.
pub(crate) fn tag_roots<D: Dir>(alloc: Global, layout: &Layout<D>) -> Result<Vec<Key>, NoMemory>
    ensures { IfOk result (λ roots. roots.items ≡ roots_of layout.now) }
{
    let tags = layout.tags()?;
    joined(named_keys(alloc, &tags)?, layout.shadowed_keys()?)
}

/// Returns copies of keys.
pub(crate) fn copies(alloc: Global, keys: &[Key]) -> Result<Vec<Key>, NoMemory>
    ensures { IfOk result (λ all. all.items ≡ keys.now) }
{
    let mut all = Vec::new(alloc);
    add_copies(keys, &mut all)?;
    Ok(all)
}

/// Returns the keys of tags.
pub(crate) fn named_keys(alloc: Global, tags: &[(String, Key)]) -> Result<Vec<Key>, NoMemory>
    ensures { IfOk result (λ keys. keys.items ≡ values_of (by_bytes tags.now)) }
{
    let mut keys = Vec::new(alloc);
    for tag in tags {
        keys.push(tag.1.try_clone()?)?;
    }
    Ok(keys)
}

/// Returns the keys of both lists.
pub(crate) fn joined(keys: Vec<Key>, more: Vec<Key>) -> Result<Vec<Key>, NoMemory>
    ensures { IfOk result (λ all. all.items ≡ keys.items ++ more.items) }
{
    let mut all = keys;
    let mut more = more;
    all.append(&mut more)?;
    Ok(all)
}

/// Returns the keys that are not in a set.
pub(crate) fn keys_without(
    alloc: Global,
    keys: &[Key],
    set: &BTreeSet<Key>,
) -> Result<Vec<Key>, NoMemory>
    ensures { IfOk result (λ rest. rest.items
        ≡ filter (λ k. not (contains key_cmp set.now k)) keys.now) }
{
    let mut rest = Vec::new(alloc);
    for key in keys {
        if set.contains(key) {
            continue;
        }
        rest.push(key.try_clone()?)?;
    }
    Ok(rest)
}
