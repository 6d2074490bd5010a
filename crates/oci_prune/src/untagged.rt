//! What stays in a layout when a tag goes with all that belonged to it alone.
ghost use Rattle.std.specs.Prelude.{◌≡◌, ◌↔◌, [], true, None, Contains, IfOk, IfErr, OnOk, OnErr};
ghost use Rattle.oci_layout_store.specs.Layout.{OnlyTags};
ghost use Rattle.oci_layout_store.specs.Meaning.{meaning};
ghost use Rattle.oci_prune.specs.Attached.{AttachedBy};
ghost use Rattle.oci_prune.specs.Plan.{AreHeld, IsSafe, KnowsListed};
ghost use Rattle.oci_prune.specs.Subjects.{IsSubjectFault};
ghost use Rattle.oci_prune.specs.Untagged.{AreLeft, AreOthers, HasFollowers, HasWholeIndex, IsKnown, IsUntagPlan, KeepsOthers, tags_of_kept};
ghost use Rattle.oci_store.specs.Keyed.{has_key};

use crate::attachments::Attachments;
use crate::followers::independent_tags;
use crate::free::free_beside;
use crate::held::{copies, held_keys, joined, keys_without, named_keys};
use crate::members::members_of;
use crate::whole::first_damaged;
use oci_digest::NoMemory;
use oci_dir::Dir;
use oci_layout_store::Layout;
use oci_manifest::Key;
use oci_prune_fault::PruneFault;
use oci_store::{Untagger, keys_of_set};
use std::alloc::Global;
use std::collections::BTreeSet;

/// Plans what a layout keeps that has lost a tag which had the keys `going`. Changes nothing.
///
/// What belonged to these keys goes, unless it also belongs to a key that stays for itself. Such are the
/// keys of the tags that follow no other key, those of the entries that a tag hides, the free keys, and
/// each held key that did not belong to `going`. A key with the digest of one of `going` is not
/// [free](crate::free_keys). The tag of a signature, such as `sha256-DIGITS.sig`, follows its image.
///
/// Returns `None` if it is not known what each held key lists: an entry of the opened index was not
/// held or is no descriptor, a manifest was damaged and is not held, or a held key lists a manifest
/// that is not held.
///
/// Each held manifest of a kind that may have a subject is read, but none if the layout
/// [remembers](Layout::subjects) the subjects. The time grows with the held keys, the keys that they
/// list, the entries and the tags, times a logarithm.
///
/// # Errors
///
/// - 77 `BadManifest` if such a manifest cannot be read, and 88 `Fetch` if its bytes cannot be
///   fetched.
/// - 89 `Memory` if memory runs out.
pub fn plan_untag<D: Dir>(
    alloc: Global,
    layout: &Layout<D>,
    going: &[Key],
) -> Result<Option<BTreeSet<Key>>, PruneFault>
    ensures planned { IfOk result (IsUntagPlan (D.device layout.now.dir) layout.now going.now) }
    ensures cause { IfErr result (IsSubjectFault
        (meaning (D.device layout.now.dir) layout.now.graph layout.now.tags)
        (λ k. has_key layout.now.graph k ≡ true)) }
{
    let held = held_keys(alloc, layout)?;
    if !is_known(alloc, layout, &held)? {
        return Ok(None);
    }
    let others = other_keys(alloc, layout, going)?;
    let kept = keys_left(alloc, layout, going, &others, &held)?;
    Ok(Some(kept))
}

/// Returns whether it is known what each held key of a layout lists. `held` has the held keys.
fn is_known<D: Dir>(alloc: Global, layout: &Layout<D>, held: &[Key]) -> Result<bool, NoMemory>
    requires { AreHeld layout.now.graph held.now }
    ensures { IfOk result (λ it. (it ≡ true)
        ↔ IsKnown layout.now.graph layout.now.opened) }
{
    if !has_whole_index(layout)? {
        return Ok(false);
    }
    knows_listed(alloc, layout, held)
}

/// Returns whether each entry of the opened index is a descriptor and was held, and each damaged
/// manifest is held.
fn has_whole_index<D: Dir>(layout: &Layout<D>) -> Result<bool, NoMemory>
    ensures { IfOk result (λ it. (it ≡ true)
        ↔ HasWholeIndex layout.now.graph layout.now.opened) }
{
    if layout.absent().first().is_some() {
        return Ok(false);
    }
    if first_damaged(layout, layout)?.is_some() {
        return Ok(false);
    }
    let unreadable = layout.unreadable()?;
    Ok(unreadable.first().is_none())
}

/// Returns whether each manifest that a held key lists is held. `held` has the held keys.
fn knows_listed<D: Dir>(alloc: Global, layout: &Layout<D>, held: &[Key]) -> Result<bool, NoMemory>
    requires { AreHeld layout.now.graph held.now }
    ensures { IfOk result (λ it. (it ≡ true) ↔ KnowsListed layout.now.graph) }
{
    let none = Attachments::none(alloc);
    match members_of(alloc, layout, held, &none, true) {
        Ok(_) => Ok(true),
        Err(PruneFault::Unknown(_)) => Ok(false),
        Err(_) => Err(NoMemory),
    }
}

/// Returns the keys that a layout is wanted for, once it has lost a tag that had the keys `going`.
fn other_keys<D: Dir>(
    alloc: Global,
    layout: &Layout<D>,
    going: &[Key],
) -> Result<Vec<Key>, PruneFault>
    ensures others { IfOk result (λ keys. AreOthers (D.device layout.now.dir) layout.now going.now
        keys.items) }
    ensures cause { IfErr result (IsSubjectFault
        (meaning (D.device layout.now.dir) layout.now.graph layout.now.tags)
        (λ k. has_key layout.now.graph k ≡ true)) }
{
    let free = free_beside(alloc, layout, going)?;
    let tags = independent_tags(alloc, layout, &layout.tags()?)?;
    let rest = joined(layout.shadowed_keys()?, keys_of_set(alloc, &free)?)?;
    let keys = joined(named_keys(alloc, &tags)?, rest)?;
    Ok(keys)
}

/// Returns what belongs to the other keys, and to the held keys that do not belong to `going`. `held`
/// has the held keys.
fn keys_left<D: Dir>(
    alloc: Global,
    layout: &Layout<D>,
    going: &[Key],
    others: &[Key],
    held: &[Key],
) -> Result<BTreeSet<Key>, PruneFault>
    requires { AreHeld layout.now.graph held.now }
    ensures left { IfOk result (λ kept. (D.device layout.now.dir).is_honest → AreLeft
        layout.now.graph going.now others.now (AttachedBy
        (meaning (D.device layout.now.dir) layout.now.graph layout.now.tags).entries
        layout.now.tags) kept) }
    ensures safe { IfOk result (IsSafe layout.now.graph others.now) }
    ensures followed { IfOk result (HasFollowers layout.now.graph layout.now.tags) }
    ensures cause { IfErr result (IsSubjectFault
        (meaning (D.device layout.now.dir) layout.now.graph layout.now.tags)
        (λ k. has_key layout.now.graph k ≡ true)) }
{
    let attachments = Attachments::in_layout(alloc, layout, &layout.tags()?)?;
    let gone = members_of(alloc, layout, going, &attachments, false)?;
    let outside = keys_without(alloc, held, &gone)?;
    let roots = joined(outside, copies(alloc, others)?)?;
    let kept = members_of(alloc, layout, &roots, &attachments, false)?;
    Ok(kept)
}

/// Removes the tags of a layout whose keys are not kept.
pub fn untag_others<D: Dir>(layout: &mut Layout<D>, kept: &BTreeSet<Key>) -> Result<(), NoMemory>
    ensures tags { OnOk result (layout.new.tags ≡ tags_of_kept kept.now layout.old.tags) }
    ensures only { OnlyTags layout.old layout.new }
    ensures refused { OnErr result (layout.new ≡ layout.old) }
{
    let tags = layout.tags()?;
    for (name, key) in &tags {
        if kept.contains(key) {
            continue;
        }
        match layout.untag(name) {
            Ok(_) => {}
            Err(_) => unreachable!(),
        }
    }
    Ok(())
}
