//! The tags that are made of the digest of an image that does not stay.
ghost use Rattle.std.specs.Prelude.{◌≡◌, ◌++◌, ◌&&◌, true, not, map, IfOk, IfErr, OnOk};
ghost use Rattle.std.specs.BTreeSet.{contains_text};
ghost use Rattle.oci_layout_store.specs.Entries.{entry_of, text_of};
ghost use Rattle.oci_layout_store.specs.Layout.{OnlyTags};
ghost use Rattle.oci_layout_store.specs.Meaning.{meaning};
ghost use Rattle.oci_prune.specs.Attached.{is_stem_of, stem};
ghost use Rattle.oci_prune.specs.Orphans.{AreWanted, IsOrphanFault, LosesOrphans, all_named, named_pair, named_pairs, orphans_in, pair_of, without_orphans};
ghost use Rattle.oci_prune.specs.Refusal.{ChecksWhole};
ghost use Rattle.oci_prune.specs.Subjects.{IsSubjectFault};
ghost use Rattle.oci_store.specs.Keyed.{has_key};
ghost use Rattle.oci_store.specs.Tags.{by_bytes};

use crate::attachments::Attachments;
use crate::followers::{independent_tags, is_stem_of, stem, stems_of};
use crate::held::{held_keys, named_keys};
use crate::members::members_of;
use crate::whole::check_whole;
use oci_digest::NoMemory;
use oci_dir::{Dir, PrunableDir};
use oci_layout_store::{IndexEntry, Layout};
use oci_manifest::Key;
use oci_prune_fault::PruneFault;
use oci_store::{Untagger, keys_of_set};
use std::alloc::Global;
use std::collections::BTreeSet;

/// Removes the orphans of a layout in memory: each tag that is made of the digest of a held manifest, but
/// not of its own key's, if nothing that stays has that digest. Returns them, in byte order of the names.
/// A plan of [`plan_prune_keeping`](crate::plan_prune_keeping) then removes what they alone needed.
///
/// What stays belongs to the free tags and to the free entries that a tag hides. They are free if their
/// names are made of no held manifest's digest but their own key's. With each key stay the keys that it
/// lists, the manifests whose `subject` has its digest, and the keys of the tags and entries that are made
/// of its digest.
///
/// Each held manifest of a kind that may have a subject is read, but none if the layout
/// [remembers](Layout::subjects) the subjects. The time grows with the held keys, the keys that they
/// list, the entries and the tags, times a logarithm.
///
/// # Errors
///
/// - The first four of [`plan_prune`](crate::plan_prune), in its order.
/// - 77 `BadManifest` if such a manifest cannot be read, and 88 `Fetch` if its bytes cannot be
///   fetched.
/// - 89 `Memory` if memory runs out. Orphans may then be gone from the layout in memory.
pub fn untag_orphans<D: PrunableDir>(
    alloc: Global,
    layout: &mut Layout<D>,
) -> Result<Vec<(String, Key)>, PruneFault>
    ensures lost { IfOk result (λ gone. LosesOrphans (D.device layout.old.dir) layout.old layout.new
        (by_bytes gone.items)) }
    ensures only { OnlyTags layout.old layout.new }
    ensures checked { ChecksWhole layout.old.graph layout.old.opened result }
    ensures cause { IfErr result (IsOrphanFault (D.device layout.old.dir) layout.old) }
{
    check_whole(layout, layout)?;
    let wanted = wanted_keys(alloc, layout)?;
    let staying = keys_of_set(alloc, &wanted)?;
    let held = held_keys(alloc, layout)?;
    let gone = untag_each(alloc, layout, &held, &staying)?;
    Ok(gone)
}

/// Returns what belongs to the free tags and entries of a layout.
fn wanted_keys<D: Dir>(alloc: Global, layout: &Layout<D>) -> Result<BTreeSet<Key>, PruneFault>
    ensures wanted { IfOk result (AreWanted (D.device layout.now.dir) layout.now) }
    ensures cause { IfErr result (IsSubjectFault
        (meaning (D.device layout.now.dir) layout.now.graph layout.now.tags)
        (λ k. has_key layout.now.graph k ≡ true)) }
{
    let named = all_named(layout)?;
    let free = independent_tags(alloc, layout, &named)?;
    let attachments = Attachments::in_layout(alloc, layout, &named)?;
    let roots = named_keys(alloc, &free)?;
    let wanted = members_of(alloc, layout, &roots, &attachments, false)?;
    Ok(wanted)
}

/// Returns the tags of a layout, and the names of its entries with their keys.
fn all_named<D: Dir>(layout: &Layout<D>) -> Result<Vec<(String, Key)>, NoMemory>
    ensures { IfOk result (λ named. by_bytes named.items ≡ all_named layout.now) }
{
    let mut named = layout.tags()?;
    add_entries(layout.entries(), &mut named)?;
    Ok(named)
}

/// Adds the names of entries with their keys.
fn add_entries(entries: &[IndexEntry], named: &mut Vec<(String, Key)>) -> Result<(), NoMemory>
    ensures { OnOk result (by_bytes named.new.items
        ≡ by_bytes named.old.items ++ named_pairs (map entry_of entries.now)) }
{
    for entry in entries {
        add_entry(entry, named)?;
    }
    Ok(())
}

/// Adds the name of an entry with its key, if it has both.
fn add_entry(entry: &IndexEntry, named: &mut Vec<(String, Key)>) -> Result<(), NoMemory>
    ensures { OnOk result (by_bytes named.new.items
        ≡ by_bytes named.old.items ++ named_pair (entry_of entry.now)) }
{
    if !entry.has_name() {
        return Ok(());
    }
    add_pair(&entry.name, &entry.key, named)
}

/// Adds a name with a key, if both are there.
fn add_pair(
    name: &Option<String>,
    key: &Option<Key>,
    named: &mut Vec<(String, Key)>,
) -> Result<(), NoMemory>
    ensures { OnOk result (by_bytes named.new.items
        ≡ by_bytes named.old.items ++ pair_of (text_of name.now) key.now) }
{
    let Some(name) = name else {
        return Ok(());
    };
    let Some(key) = key else {
        return Ok(());
    };
    named.push((name.clone()?, key.try_clone()?))?;
    Ok(())
}

/// Removes the orphans of a layout that holds the keys `held`, if these keys are wanted. Returns them.
fn untag_each<D: Dir>(
    alloc: Global,
    layout: &mut Layout<D>,
    held: &[Key],
    wanted: &[Key],
) -> Result<Vec<(String, Key)>, NoMemory>
    ensures gone { IfOk result (λ gone. by_bytes gone.items
        ≡ orphans_in held.now wanted.now layout.old.tags) }
    ensures tags { OnOk result (layout.new.tags
        ≡ without_orphans held.now wanted.now layout.old.tags) }
    ensures only { OnlyTags layout.old layout.new }
{
    let stems = stems_of(alloc, held)?;
    let staying = stems_of(alloc, wanted)?;
    let tags = layout.tags()?;
    let mut gone = Vec::new(alloc);
    for (name, key) in &tags {
        let text = name.as_str();
        if !is_orphan(alloc, &stems, &staying, text, key)? {
            continue;
        }
        match layout.untag(text) {
            Ok(_) => {}
            Err(_) => unreachable!(),
        }
        gone.push((name.clone()?, key.try_clone()?))?;
    }
    Ok(gone)
}

/// Returns whether the stem of a name is among these, but not among those of what stays, and does not
/// name the digest of the tag's key.
fn is_orphan(
    alloc: Global,
    stems: &BTreeSet<String>,
    staying: &BTreeSet<String>,
    name: &str,
    key: &Key,
) -> Result<bool, NoMemory>
    ensures { IfOk result (λ it. it ≡ ((contains_text stems.now (stem name.now)
        && not (contains_text staying.now (stem name.now)))
        && not (is_stem_of (stem name.now) key.now.digest))) }
{
    let stem = stem(name);
    Ok(stems.contains(stem) && !staying.contains(stem) && !is_stem_of(alloc, stem, key.digest())?)
}
