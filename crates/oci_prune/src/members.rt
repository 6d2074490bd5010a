ghost use Rattle.std.specs.Prelude.{◌≡◌, ◌≢◌, false, true, IfOk, IfErr, OnOk};
ghost use Rattle.oci_manifest.specs.MediaTypes.{kind_of};
ghost use Rattle.oci_manifest.specs.declared.kind.Kind.TheVariants.{Leaf};
ghost use Rattle.oci_store.specs.Keyed.{has_key};
ghost use Rattle.oci_store.specs.Visiting.{with_keys};
ghost use Rattle.oci_prune.specs.Attached.{AttachedIn, attached_in};
ghost use Rattle.oci_prune.specs.Belongs.{AreMembers, AllKnown, IsUnknown};
ghost use Rattle.oci_prune.specs.Refusal.{IsUnknownFault};
ghost use Rattle.oci_prune.specs.Walk.{IsVisit, KeepsHeld, HasOneMore};

use crate::attachments::Attachments;
use oci_digest::NoMemory;
use oci_manifest::{Key, Kind};
use oci_prune_fault::PruneFault;
use oci_store::{GraphSource, KeyList};
use std::alloc::Global;
use std::collections::BTreeSet;

/// Returns the held keys that belong to the given ones: those of them that are held, and with each
/// member the held keys that it lists and those that are attached to it.
///
/// A key that is needed and not held is passed over, or refused if `refuses_absent` and its kind is
/// that of a manifest. The walk does not recurse. Keys that were found wait in a list, and each is
/// visited once.
///
/// # Errors
///
/// - 96 `Unknown` if `refuses_absent`, and a key of a manifest kind is needed and not held: the
///   first one of the walk.
/// - 89 `Memory` if memory runs out.
pub(crate) fn members_of<S: GraphSource>(
    alloc: Global,
    source: &S,
    keys: &[Key],
    attachments: &Attachments,
    refuses_absent: bool,
) -> Result<BTreeSet<Key>, PruneFault>
    ensures members { IfOk result (AreMembers (S.state source.now).nodes keys.now
        (AttachedIn attachments.now)) }
    ensures known { OnOk result (refuses_absent ≡ true
        → AllKnown (S.state source.now).nodes keys.now (AttachedIn attachments.now)) }
    ensures cause { IfErr result (IsUnknownFault (λ k. (refuses_absent ≡ true)
        × IsUnknown (S.state source.now).nodes keys.now (AttachedIn attachments.now) k)) }
{
    let mut found = KeyList::new(alloc);
    let mut members = BTreeSet::new(alloc);
    found.place_all(keys)?;
    let mut place = 0;
    while place < found.len() {
        let Some(key) = found.get(place) else {
            unreachable!();
        };
        let key = key.try_clone()?;
        match visit(
            alloc,
            source,
            attachments,
            refuses_absent,
            &key,
            &mut found,
            &mut members,
        ) {
            Ok(()) => place += 1,
            Err(fault) => return Err(fault),
        }
    }
    Ok(members)
}

/// Visits a key. If it is held, adds it to the members, and the keys that it needs to those found.
fn visit<S: GraphSource>(
    alloc: Global,
    source: &S,
    attachments: &Attachments,
    refuses_absent: bool,
    key: &Key,
    found: &mut KeyList,
    members: &mut BTreeSet<Key>,
) -> Result<(), PruneFault>
    ensures found { OnOk result (IsVisit (S.state source.now).nodes
        (AttachedIn attachments.now) key.now found.old found.new) }
    ensures members { OnOk result (KeepsHeld (S.state source.now).nodes key.now
        members.old members.new) }
    ensures known { OnOk result (refuses_absent ≡ true
        → has_key (S.state source.now).nodes key.now ≡ false
        → kind_of key.now.media_type ≡ Leaf) }
    ensures cause { IfErr result (IsUnknownFault (λ k. (refuses_absent ≡ true) × (k ≡ key.now)
        × (has_key (S.state source.now).nodes k ≡ false) × (kind_of k.media_type ≢ Leaf))) }
{
    let Some(successors) = source.successors(key)? else {
        return check_absent(key, refuses_absent);
    };
    found.place_all(&successors)?;
    place_attached(alloc, attachments, key, found)?;
    add_member(members, key)?;
    Ok(())
}

/// Adds a key to the members.
pub(crate) fn add_member(members: &mut BTreeSet<Key>, key: &Key) -> Result<(), NoMemory>
    ensures { OnOk result (HasOneMore key.now members.old members.new) }
{
    members.insert(key.try_clone()?)?;
    Ok(())
}

/// Refuses an absent key of a manifest kind, if absent keys are refused.
fn check_absent(key: &Key, refuses_absent: bool) -> Result<(), PruneFault>
    ensures leaf { OnOk result (refuses_absent ≡ true → kind_of key.now.media_type ≡ Leaf) }
    ensures cause { IfErr result (IsUnknownFault (λ k. (refuses_absent ≡ true) × (k ≡ key.now)
        × (kind_of k.media_type ≢ Leaf))) }
{
    if !refuses_absent {
        return Ok(());
    }
    match Kind::of(key.media_type()) {
        Kind::Leaf => Ok(()),
        _ => Err(PruneFault::Unknown(key.try_clone()?)),
    }
}

/// Adds the keys that are attached to a key.
fn place_attached(
    alloc: Global,
    attachments: &Attachments,
    subject: &Key,
    found: &mut KeyList,
) -> Result<(), NoMemory>
    ensures { OnOk result (found.new
        ≡ with_keys found.old (attached_in attachments.now subject.now)) }
{
    let attached = attachments.attached_to(alloc, subject)?;
    found.place_all(&attached)
}
