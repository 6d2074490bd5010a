ghost use Rattle.std.specs.Prelude.{◌≡◌, true, filter, IfOk, IfErr, OnOk};
ghost use Rattle.std.specs.BTreeSet.{contains};
ghost use Rattle.std.specs.List.{IsDistinct};
ghost use Rattle.oci_manifest.specs.Descriptor.{key_cmp, same_key};
ghost use Rattle.oci_store.specs.Keyed.{has_key};
ghost use Rattle.oci_store.specs.Tags.{by_bytes};
ghost use Rattle.oci_store.specs.Visiting.{with_keys};
ghost use Rattle.oci_layout_store.specs.Meaning.{meaning};
ghost use Rattle.oci_prune.specs.Attached.{AreFollowers, AttachedBy, attached_in};
ghost use Rattle.oci_prune.specs.Belonging.{AreAttachedTo, IsBelonging, IsComplete};
ghost use Rattle.oci_prune.specs.Subjects.{IsSubjectFault};

use crate::attachments::Attachments;
use crate::followers::following_tags;
use crate::members::members_of;
use oci_digest::NoMemory;
use oci_dir::Dir;
use oci_layout_store::Layout;
use oci_manifest::Key;
use oci_prune_fault::PruneFault;
use oci_store::{KeyList, keys_of_set};
use std::alloc::Global;
use std::collections::BTreeSet;

/// What belongs to some keys of a layout.
#[derive(Drop)]
pub struct Belonging {
    /// The held keys that belong to the given ones.
    pub members: BTreeSet<Key>,
    /// The members that are attached to a member. None occurs twice.
    pub attached: Vec<Key>,
    /// The tags whose names name the digest of a member of a manifest kind.
    pub tags: Vec<(String, Key)>,
    /// What is attached to each key.
    pub attachments: Attachments,
}

/// Returns what belongs to some keys of a layout: the given keys that are held, and with each member
/// the held keys that it lists, the held manifests whose `subject` has its digest, and the held keys
/// of the tags that name its digest, if it is of a manifest kind. A tag names a digest if
/// its name, up to the first `.`, is the digest's text with `-` in place of `:`, as in
/// `sha256-DIGITS.sig`, or the first 71 bytes of that. Only these `tags` are considered.
///
/// Each held manifest of a kind that may have a subject is read once, but none if the layout
/// [remembers](Layout::subjects) the subjects. A key that is needed and not held is passed over. The
/// time grows with the held keys, the keys that they list and the tags, times a logarithm.
///
/// # Errors
///
/// - 77 `BadManifest` if such a manifest cannot be read, and 88 `Fetch` if its bytes cannot be
///   fetched.
/// - 89 `Memory` if memory runs out.
pub fn belonging_of<D: Dir>(
    alloc: Global,
    layout: &Layout<D>,
    keys: &[Key],
    tags: &[(String, Key)],
) -> Result<Belonging, PruneFault>
    ensures exact { IfOk result (λ found. (D.device layout.now.dir).is_honest
        → IsBelonging layout.now.graph keys.now (AttachedBy
        (meaning (D.device layout.now.dir) layout.now.graph layout.now.tags).entries
        (by_bytes tags.now)) found) }
    ensures complete { IfOk result (IsComplete layout.now.graph keys.now (by_bytes tags.now)) }
    ensures cause { IfErr result (IsSubjectFault
        (meaning (D.device layout.now.dir) layout.now.graph layout.now.tags)
        (λ k. has_key layout.now.graph k ≡ true)) }
{
    let attachments = Attachments::in_layout(alloc, layout, tags)?;
    belonging_by(alloc, layout, keys, tags, attachments)
}

/// Returns what belongs to some keys of a layout, if this is attached to its keys, and by these tags.
pub(crate) fn belonging_by<D: Dir>(
    alloc: Global,
    layout: &Layout<D>,
    keys: &[Key],
    tags: &[(String, Key)],
    attachments: Attachments,
) -> Result<Belonging, PruneFault>
    requires { AreFollowers (by_bytes tags.now) attachments.followers }
    ensures complete { IfOk result (IsComplete layout.now.graph keys.now (by_bytes tags.now)) }
    ensures tables { IfOk result (λ found. found.attachments ≡ attachments) }
    ensures memory { IfErr result (λ e. e ≡ PruneFault.Memory) }
{
    let members = members_of(alloc, layout, keys, &attachments, false)?;
    let listed = keys_of_set(alloc, &members)?;
    let attached = attached_to_any(alloc, &attachments, &members, &listed)?;
    let tags = following_tags(alloc, tags, &listed)?;
    Ok(Belonging {
        members,
        attached,
        tags,
        attachments,
    })
}

/// Returns the members that are attached to one of these keys, each once.
fn attached_to_any(
    alloc: Global,
    attachments: &Attachments,
    members: &BTreeSet<Key>,
    subjects: &[Key],
) -> Result<Vec<Key>, NoMemory>
    ensures exact { IfOk result (λ found.
        AreAttachedTo attachments.now members.now subjects.now found.items) }
    ensures distinct { IfOk result (λ found. IsDistinct same_key found.items) }
{
    let mut found = KeyList::new(alloc);
    for subject in subjects {
        place_attached(alloc, attachments, members, subject, &mut found)?;
    }
    Ok(found.into_keys())
}

/// Adds the members that are attached to a key.
fn place_attached(
    alloc: Global,
    attachments: &Attachments,
    members: &BTreeSet<Key>,
    subject: &Key,
    found: &mut KeyList,
) -> Result<(), NoMemory>
    ensures { OnOk result (found.new ≡ with_keys found.old
        (filter (λ k. contains key_cmp members.now k) (attached_in attachments.now subject.now))) }
{
    let attached = attachments.attached_to(alloc, subject)?;
    let attached = keys_within(alloc, &attached, members)?;
    found.place_all(&attached)
}

/// Returns the keys that are in a set.
fn keys_within(alloc: Global, keys: &[Key], set: &BTreeSet<Key>) -> Result<Vec<Key>, NoMemory>
    ensures { IfOk result (λ within. within.items
        ≡ filter (λ k. contains key_cmp set.now k) keys.now) }
{
    let mut within = Vec::new(alloc);
    for key in keys {
        if !set.contains(key) {
            continue;
        }
        within.push(key.try_clone()?)?;
    }
    Ok(within)
}
