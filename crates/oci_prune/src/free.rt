//! The keys of a layout that no tag names, and that are wanted for themselves.
ghost use Rattle.std.specs.Prelude.{◌≡◌, ◌↔◌, ◌++◌, true, not, filter, IfOk, IfErr, OnOk, flat_map};
ghost use Rattle.std.specs.BTreeSet.{contains};
ghost use Rattle.std.specs.Cmp.Lexicographic.{slice_cmp};
ghost use Rattle.std.specs.List.{list_all};
ghost use Rattle.std.specs.Ordering.{nat_cmp};
ghost use Rattle.oci_manifest.specs.Descriptor.{Descriptor, is_among, key_cmp};
ghost use Rattle.oci_layout_store.specs.Meaning.{meaning};
ghost use Rattle.oci_store.specs.Keyed.{has_key};
ghost use Rattle.oci_prune.specs.Attached.{attached_in};
ghost use Rattle.oci_prune.specs.Free.{AreFree, AreUnlisted, IsUnlisted};
ghost use Rattle.oci_prune.specs.Plan.{roots_of};
ghost use Rattle.oci_prune.specs.Subjects.{IsSubjectFault};

use crate::attachments::Attachments;
use crate::files::digests_of;
use crate::held::{copies, held_keys, joined, keys_without, tag_roots};
use crate::members::add_member;
use oci_digest::{Digest, NoMemory};
use oci_dir::Dir;
use oci_layout_store::Layout;
use oci_manifest::Key;
use oci_prune_fault::PruneFault;
use oci_store::GraphSource;
use std::alloc::Global;
use std::collections::BTreeSet;

/// Returns the free keys of a layout: the held keys whose digest no tag names, nor an entry that a tag
/// hides, that no manifest lists but as its `subject`, and whose own subject is not held. Such is an
/// image that another tool left without a tag. The images of an index are not free, and a signature is
/// not if its image is held.
///
/// Each held manifest of a kind that may have a subject is read once, but none if the layout
/// [remembers](Layout::subjects) the subjects. The time grows with the held keys and the keys that
/// they list, times a logarithm.
///
/// # Errors
///
/// - 77 `BadManifest` if such a manifest cannot be read, and 88 `Fetch` if its bytes cannot be
///   fetched.
/// - 89 `Memory` if memory runs out.
pub fn free_keys<D: Dir>(alloc: Global, layout: &Layout<D>) -> Result<BTreeSet<Key>, PruneFault>
    ensures exact { IfOk result (λ keys. (D.device layout.now.dir).is_honest → AreFree
        (meaning (D.device layout.now.dir) layout.now.graph layout.now.tags)
        (roots_of layout.now) keys) }
    ensures cause { IfErr result (IsSubjectFault
        (meaning (D.device layout.now.dir) layout.now.graph layout.now.tags)
        (λ k. has_key layout.now.graph k ≡ true)) }
{
    free_beside(alloc, layout, &[])
}

/// Returns the keys of a layout that would be free if these keys had tags too.
///
/// # Errors
///
/// Those of [`free_keys`].
pub(crate) fn free_beside<D: Dir>(
    alloc: Global,
    layout: &Layout<D>,
    keys: &[Key],
) -> Result<BTreeSet<Key>, PruneFault>
    ensures exact { IfOk result (λ free. (D.device layout.now.dir).is_honest → AreFree
        (meaning (D.device layout.now.dir) layout.now.graph layout.now.tags)
        (keys.now ++ roots_of layout.now) free) }
    ensures cause { IfErr result (IsSubjectFault
        (meaning (D.device layout.now.dir) layout.now.graph layout.now.tags)
        (λ k. has_key layout.now.graph k ≡ true)) }
{
    let attachments = Attachments::in_layout(alloc, layout, &[])?;
    let held = held_keys(alloc, layout)?;
    let roots = joined(copies(alloc, keys)?, tag_roots(alloc, layout)?)?;
    let named = digests_of(alloc, &roots)?;
    let attached = attached_keys(alloc, &attachments, &held)?;
    let apart = keys_without(alloc, &held, &attached)?;
    let unnamed = keys_of_others(alloc, &apart, &named)?;
    let free = unlisted_keys(alloc, layout, &attachments, &unnamed)?;
    Ok(free)
}

/// Returns those of these keys whose digest is not in a set.
fn keys_of_others(
    alloc: Global,
    keys: &[Key],
    digests: &BTreeSet<Digest>,
) -> Result<Vec<Key>, NoMemory>
    ensures { IfOk result (λ others. others.items ≡ filter
        (λ k. not (contains (slice_cmp nat_cmp) digests.now k.digest)) keys.now) }
{
    let mut others = Vec::new(alloc);
    for key in keys {
        if digests.contains(key.digest()) {
            continue;
        }
        others.push(key.try_clone()?)?;
    }
    Ok(others)
}

/// Returns the keys that are attached to one of these.
fn attached_keys(
    alloc: Global,
    attachments: &Attachments,
    subjects: &[Key],
) -> Result<BTreeSet<Key>, NoMemory>
    ensures { IfOk result (λ set. (k : Descriptor) → contains key_cmp set k
        ≡ is_among (flat_map (attached_in attachments.now) subjects.now) k) }
{
    let mut keys = Vec::new(alloc);
    add_attached(alloc, attachments, subjects, &mut keys)?;
    set_of(alloc, &keys)
}

/// Adds the keys that are attached to these.
fn add_attached(
    alloc: Global,
    attachments: &Attachments,
    subjects: &[Key],
    keys: &mut Vec<Key>,
) -> Result<(), NoMemory>
    ensures { OnOk result (keys.new.items
        ≡ keys.old.items ++ flat_map (attached_in attachments.now) subjects.now) }
{
    for subject in subjects {
        let mut attached = attachments.attached_to(alloc, subject)?;
        keys.append(&mut attached)?;
    }
    Ok(())
}

/// Returns the set of these keys.
pub(crate) fn set_of(alloc: Global, keys: &[Key]) -> Result<BTreeSet<Key>, NoMemory>
    ensures { IfOk result (λ set. (k : Descriptor) → contains key_cmp set k
        ≡ is_among keys.now k) }
{
    let mut set = BTreeSet::new(alloc);
    for key in keys {
        set.insert(key.try_clone()?)?;
    }
    Ok(set)
}

/// Returns those of these keys that no key lists which is not attached to them.
fn unlisted_keys<S: GraphSource>(
    alloc: Global,
    source: &S,
    attachments: &Attachments,
    keys: &[Key],
) -> Result<BTreeSet<Key>, NoMemory>
    ensures { IfOk result (AreUnlisted (S.state source.now).nodes attachments.now keys.now) }
{
    let mut found = BTreeSet::new(alloc);
    for key in keys {
        if !is_unlisted(alloc, source, attachments, key)? {
            continue;
        }
        add_member(&mut found, key)?;
    }
    Ok(found)
}

/// Returns whether each key that lists this one is attached to it.
fn is_unlisted<S: GraphSource>(
    alloc: Global,
    source: &S,
    attachments: &Attachments,
    key: &Key,
) -> Result<bool, NoMemory>
    ensures { IfOk result (λ it. (it ≡ true)
        ↔ IsUnlisted (S.state source.now).nodes attachments.now key.now) }
{
    let parents = source.predecessors(key)?;
    let attached = set_of(alloc, &attachments.attached_to(alloc, key)?)?;
    Ok(has_all(&attached, &parents))
}

/// Returns whether all of these keys are in a set.
fn has_all(set: &BTreeSet<Key>, keys: &[Key]) -> bool
    ensures { result ≡ list_all (λ k. contains key_cmp set.now k) keys.now }
{
    keys.iter().all(|key| has(set, key))
}

/// Returns whether a key is in a set.
fn has(set: &BTreeSet<Key>, key: &Key) -> bool
    ensures { result ≡ contains key_cmp set.now key.now }
{
    set.contains(key)
}
