ghost use Rattle.std.specs.Prelude.{◌≡◌, ◌≢◌, ◌⊎◌, [], None, is_some, Contains, IfOk, IfErr, OnOk, OnErr};
ghost use Rattle.std.specs.Cmp.Lexicographic.{slice_cmp};
ghost use Rattle.std.specs.List.{All};
ghost use Rattle.std.specs.List.Sorted.{IsStrictlySortedBy};
ghost use Rattle.std.specs.Map.{keys_of, values_of};
ghost use Rattle.std.specs.Ordering.{nat_cmp};
ghost use Rattle.oci_layout_store.specs.Layout.{OnlyTags};
ghost use Rattle.oci_store.specs.Keyed.{HasAll};
ghost use Rattle.oci_store.specs.Tags.{by_bytes, tag_at};
ghost use Rattle.oci_selection.specs.Selected.{other_tags, set_tags, without_tags};

use crate::between::tag_all;
use crate::goal::Goal;
use oci_copy::CopyFault;
use oci_digest::NoMemory;
use oci_dir::Dir;
use oci_layout_store::Layout;
use oci_manifest::Key;
use oci_program::ProgramFault;
use oci_store::{RefFault, Tags, Untagger};
use std::alloc::Global;

/// Sets the tags of a goal in a layout that holds their keys, and removes its other tags. Returns
/// those, in byte order of the names.
///
/// # Errors
///
/// Out of memory. Some of the tags may be set or removed.
pub(crate) fn retag<D: Dir>(
    alloc: Global,
    layout: &mut Layout<D>,
    goal: &Goal,
) -> Result<Vec<(String, Key)>, ProgramFault>
    requires held { HasAll layout.old.graph goal.now.0 }
    ensures tags { OnOk result (layout.new.tags ≡ set_tags [] goal.now.1) }
    ensures rooted { OnOk result (All (λ k. Contains goal.now.0 k)
        (values_of layout.new.tags)) }
    ensures removed { IfOk result (λ others. by_bytes others.items
        ≡ other_tags layout.old.tags goal.now.1) }
    ensures only { OnlyTags layout.old layout.new }
    ensures memory { IfErr result (λ fault. (fault ≡ ProgramFault.Memory)
        ⊎ (fault ≡ ProgramFault.Copy CopyFault.Memory)) }
{
    let tags = goal.tags();
    let others = other_tags(alloc, &layout.tags()?, tags)?;
    if let Err(fault) = tag_all(layout, tags) {
        return Err(ProgramFault::Copy(CopyFault::from(fault)));
    }
    if let Err(fault) = untag_all(layout, &others) {
        return Err(ProgramFault::Reference(fault));
    }
    Ok(others)
}

/// Removes these tags of a layout, which are in byte order of the names. None is refused.
fn untag_all<D: Dir>(layout: &mut Layout<D>, tags: &[(String, Key)]) -> Result<(), RefFault>
    requires there { All (λ t. (t.0 ≢ []) × (tag_at layout.old.tags t.0 ≢ None))
        (by_bytes tags.now) }
    requires order { IsStrictlySortedBy (slice_cmp nat_cmp) (keys_of (by_bytes tags.now)) }
    ensures untagged { OnOk result (layout.new.tags
        ≡ without_tags layout.old.tags (by_bytes tags.now)) }
    ensures only { OnlyTags layout.old layout.new }
    ensures never { OnErr result ⊥ }
{
    for (name, _) in tags {
        layout.untag(name)?;
    }
    Ok(())
}

/// Returns the tags that do not have the name of a kept one, in their order.
pub(crate) fn other_tags(
    alloc: Global,
    tags: &[(String, Key)],
    kept: &[(String, Key)],
) -> Result<Vec<(String, Key)>, NoMemory>
    ensures { IfOk result (λ others. by_bytes others.items ≡ other_tags (by_bytes tags.now)
        (by_bytes kept.now)) }
{
    let kept = set_of(alloc, kept)?;
    let mut others = Vec::new(alloc);
    for (name, key) in tags {
        if has_tag(&kept, name) {
            continue;
        }
        others.push((name.clone()?, key.try_clone()?))?;
    }
    Ok(others)
}

/// Returns whether there is a tag with this name.
pub(crate) fn has_tag(tags: &Tags, name: &str) -> bool
    ensures { result ≡ is_some (tag_at tags.now name.now) }
{
    tags.get(name).is_some()
}

/// Returns a set of these tags.
pub(crate) fn set_of(alloc: Global, tags: &[(String, Key)]) -> Result<Tags, NoMemory>
    ensures { IfOk result (λ set. set ≡ set_tags [] (by_bytes tags.now)) }
{
    let mut set = Tags::new(alloc);
    for (name, key) in tags {
        set.set(name, key)?;
    }
    Ok(set)
}
