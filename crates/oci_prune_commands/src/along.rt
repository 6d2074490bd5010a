//! What goes along with a tag.
ghost use Rattle.std.specs.Prelude.{
  ◌≡◌,
  ◌⊎◌,
  ◌++◌,
  ◌∷◌,
  [],
  List,
  length,
  map,
  Some,
  IfErr,
  IfOk,
  OnErr,
  OnOk,
};
ghost use Rattle.oci_manifest.specs.Descriptor.{Descriptor};
ghost use Rattle.oci_dir.specs.Device.{Touches};
ghost use Rattle.oci_layout_store.specs.Blobs.{stored, IsSound};
ghost use Rattle.oci_layout_store.specs.Entries.{entry_keys, entry_of, said};
ghost use Rattle.oci_layout_store.specs.Index.{index_file};
ghost use Rattle.oci_layout_store.specs.Layout.{SameMemory};
ghost use Rattle.oci_layout_store.specs.Refusal.{IsSettledFault};
ghost use Rattle.oci_prune.specs.Plan.{IsSafe};
ghost use Rattle.oci_prune.specs.Settled.{CanSettle, LeavesOneOf};
ghost use Rattle.oci_store.specs.Content.{Entry};
ghost use Rattle.oci_store.specs.Tags.{Tags};
ghost use Rattle.oci_prune_commands.specs.Refusal.{IsRefusedRest};
ghost use Rattle.oci_prune_commands.specs.Untagged.{
  belonged_keys,
  belonged_of,
  dropped_key,
  DropsOthers,
  GoesAlong,
  HasOnlyKept,
  HasTagsOfKept,
  IsDroppedUnsaved,
  IsSavedAnew,
};

use crate::untag::has_name;
use oci_digest::NoMemory;
use oci_dir::Dir;
use oci_layout_store::{IndexEntry, Layout, LayoutFault};
use oci_manifest::Key;
use oci_program::ProgramFault;
use oci_prune::{plan_untag, untag_others};
use oci_store::Dest;
use std::alloc::Global;
use std::collections::BTreeSet;

/// Saves a layout that has lost a tag which had the keys `going`, without what belonged to these alone.
/// Returns the keys of the entries that went so and have not the name of the tag.
pub(crate) fn save_without<D: Dir>(
    alloc: Global,
    layout: &mut Layout<D>,
    tag: &str,
    going: &[Key],
) -> Result<Vec<Key>, ProgramFault>
    ensures along { IfOk result (λ belonged. GoesAlong D.device tag.now going.now layout.old
        layout.new belonged.items) }
    ensures saved { OnOk result (IsSavedAnew D.device layout.old layout.new) }
    ensures other { (D.device layout.old.dir).is_honest
        → Touches (D.device layout.old.dir).file (D.device layout.new.dir).file index_file }
    ensures refused { IfErr result (IsRefusedRest D.device tag.now going.now layout.old
        layout.new) }
    ensures left { (entries : List Entry) (tags : Tags) → CanSettle (D.device layout.old.dir)
        (length layout.old.graph) layout.old.graph entries tags
        → LeavesOneOf (D.device layout.new.dir) entries tags
        (stored (D.device layout.new.dir).file layout.new.graph) layout.new.tags }
{
    match plan_untag(alloc, layout, going) {
        Ok(Some(kept)) => match save_others(alloc, layout, tag, &kept) {
            Ok(belonged) => Ok(belonged),
            Err(fault) => Err(ProgramFault::Layout(fault)),
        },
        Ok(None) => match save_alone(layout) {
            Ok(()) => Ok(Vec::new(alloc)),
            Err(fault) => Err(ProgramFault::Layout(fault)),
        },
        Err(fault) => Err(ProgramFault::Prune(fault)),
    }
}

/// Saves a layout that got no key since it was opened.
fn save_alone<D: Dir>(layout: &mut Layout<D>) -> Result<(), LayoutFault>
    ensures memory { SameMemory layout.old layout.new }
    ensures saved { OnOk result (IsSavedAnew D.device layout.old layout.new) }
    ensures other { (D.device layout.old.dir).is_honest
        → Touches (D.device layout.old.dir).file (D.device layout.new.dir).file index_file }
    ensures cause { IfErr result (IsSettledFault (D.device layout.old.dir)
        (D.device layout.new.dir)) }
    ensures left { (entries : List Entry) (tags : Tags) → CanSettle (D.device layout.old.dir)
        (length layout.old.graph) layout.old.graph entries tags
        → LeavesOneOf (D.device layout.new.dir) entries tags
        (stored (D.device layout.new.dir).file layout.new.graph) layout.new.tags }
{
    let count = layout.count();
    layout.save_settled(count)?;
    Ok(())
}

/// Drops the keys of a layout that are not kept, with their tags, and saves the layout. Returns the keys
/// of the entries that went so and have not this name. What a kept key lists is kept.
fn save_others<D: Dir>(
    alloc: Global,
    layout: &mut Layout<D>,
    name: &str,
    kept: &BTreeSet<Key>,
) -> Result<Vec<Key>, LayoutFault>
    requires { (roots : List Descriptor) × IsSafe layout.old.graph roots kept.now }
    ensures drops { IfOk result (λ belonged. DropsOthers name.now kept.now layout.old layout.new
        belonged.items) }
    ensures saved { OnOk result (IsSavedAnew D.device layout.old layout.new) }
    ensures other { (D.device layout.old.dir).is_honest
        → Touches (D.device layout.old.dir).file (D.device layout.new.dir).file index_file }
    ensures cause { IfErr result (IsSettledFault (D.device layout.old.dir)
        (D.device layout.new.dir)) }
    ensures unsaved { IfErr result (IsDroppedUnsaved kept.now layout.old layout.new) }
    ensures left { (entries : List Entry) (tags : Tags) → CanSettle (D.device layout.old.dir)
        (length layout.old.graph) layout.old.graph entries tags
        → LeavesOneOf (D.device layout.new.dir) entries tags
        (stored (D.device layout.new.dir).file layout.new.graph) layout.new.tags }
{
    let belonged = belonged_keys(alloc, layout, name, kept)?;
    // The contract of `count` states that no key occurs twice, from which it follows that what is left
    // is closed.
    let _ = layout.count();
    drop_others(layout, kept)?;
    save_alone(layout)?;
    Ok(belonged)
}

/// Drops the keys of a layout that are not kept, with their tags.
fn drop_others<D: Dir>(layout: &mut Layout<D>, kept: &BTreeSet<Key>) -> Result<(), NoMemory>
    ensures dropped { OnOk result (HasOnlyKept kept.now layout.old layout.new) }
    ensures refused { OnErr result (SameMemory layout.old layout.new
        ⊎ HasTagsOfKept kept.now layout.old layout.new) }
    ensures dir { layout.new.dir ≡ layout.old.dir }
    ensures sound { IsSound (D.device layout.old.dir).is_honest (D.device layout.old.dir).file
        layout.old.graph → IsSound (D.device layout.new.dir).is_honest
        (D.device layout.new.dir).file layout.new.graph }
{
    untag_others(layout, kept)?;
    layout.retain(kept)?;
    Ok(())
}

/// Returns the keys of the entries that have not this name, and whose keys are held and not kept.
fn belonged_keys<D: Dir>(
    alloc: Global,
    layout: &Layout<D>,
    name: &str,
    kept: &BTreeSet<Key>,
) -> Result<Vec<Key>, NoMemory>
    ensures { IfOk result (λ keys. keys.items ≡ belonged_keys name.now kept.now
        layout.now.graph (said layout.now.opened.content).entries) }
{
    let entries = layout.entries();
    let mut keys = Vec::new(alloc);
    for entry in entries {
        add_belonged(layout, name, kept, entry, &mut keys)?;
    }
    Ok(keys)
}

/// Adds the key of an entry that has not this name, if it is held and not kept.
fn add_belonged<D: Dir>(
    layout: &Layout<D>,
    name: &str,
    kept: &BTreeSet<Key>,
    entry: &IndexEntry,
    keys: &mut Vec<Key>,
) -> Result<(), NoMemory>
    ensures { OnOk result (keys.new.items ≡ keys.old.items
        ++ belonged_of name.now kept.now layout.now.graph (entry_of entry.now)) }
{
    if has_name(entry, name) {
        return Ok(());
    }
    match &entry.key {
        Some(key) => add_dropped(layout, kept, key, keys),
        None => Ok(()),
    }
}

/// Adds a key, if it is held and not kept.
fn add_dropped<D: Dir>(
    layout: &Layout<D>,
    kept: &BTreeSet<Key>,
    key: &Key,
    keys: &mut Vec<Key>,
) -> Result<(), NoMemory>
    ensures { OnOk result (keys.new.items ≡ keys.old.items
        ++ dropped_key kept.now layout.now.graph (Some key.now)) }
{
    if !layout.has(key) || kept.contains(key) {
        return Ok(());
    }
    keys.push(key.try_clone()?)?;
    Ok(())
}

/// Returns the keys of those of these entries that have one.
pub(crate) fn entry_keys(alloc: Global, entries: &[IndexEntry]) -> Result<Vec<Key>, NoMemory>
    ensures { IfOk result (λ keys. keys.items ≡ entry_keys (map entry_of entries.now)) }
{
    let mut keys = Vec::new(alloc);
    for entry in entries {
        add_key(entry, &mut keys)?;
    }
    Ok(keys)
}

/// Adds the key of an entry, if it has one.
fn add_key(entry: &IndexEntry, keys: &mut Vec<Key>) -> Result<(), NoMemory>
    ensures { OnOk result (keys.new.items
        ≡ keys.old.items ++ entry_keys (entry_of entry.now ∷ [])) }
{
    match &entry.key {
        Some(key) => {
            keys.push(key.try_clone()?)?;
            Ok(())
        }
        None => Ok(()),
    }
}
