ghost use Rattle.std.specs.Prelude.{◌≡◌, ◌++◌, true, Contains, IfOk, IfErr, OnOk};
ghost use Rattle.oci_manifest.specs.Descriptor.{Descriptor};
ghost use Rattle.oci_layout_store.specs.Meaning.{meaning};
ghost use Rattle.oci_store.specs.Keyed.{has_key};
ghost use Rattle.oci_store.specs.Tags.{by_bytes};
ghost use Rattle.oci_prune.specs.Attached.{AreAttachments, AreFollowers, AttachedIn, HasAttached, attached_in, followers_in, stemmed_in, dashed, cut};
ghost use Rattle.oci_prune.specs.Subjects.{HasPairs, IsSubjectFault, referrers_in};
ghost use Rattle.oci_prune.specs.Typed.{StatesBy};

use crate::followers::{cut, dashed, followers_of};
use crate::held::held_keys;
use crate::referrers::{referrers_by, referrers_of};
use crate::type_filter::TypeFilter;
use oci_digest::{Digest, NoMemory};
use oci_dir::Dir;
use oci_layout_store::Layout;
use oci_manifest::{Key, Kind};
use oci_prune_fault::PruneFault;
use oci_store::Source;
use std::alloc::Global;
use std::collections::BTreeMap;

/// What is attached to keys: the manifests that state a subject, under the digests of their
/// subjects, and the keys of tags, under what their names have before the first `.`.
#[derive(Drop)]
pub struct Attachments {
    pub(crate) referrers: BTreeMap<Digest, Vec<Key>>,
    pub(crate) followers: BTreeMap<String, Vec<Key>>,
}

impl Attachments {
    /// Returns what is attached to keys, if these are held and have these tags, and only the
    /// manifests that pass a filter count. Reads each held manifest that may state a subject once.
    ///
    /// # Errors
    ///
    /// - 77 `BadManifest` if a manifest cannot be read.
    /// - 88 `Fetch` if the bytes of a manifest cannot be fetched.
    /// - 89 `Memory` if memory runs out.
    pub(crate) fn of<S: Source>(
        alloc: Global,
        source: &S,
        held: &[Key],
        tags: &[(String, Key)],
        filter: &TypeFilter<'_>,
    ) -> Result<Attachments, PruneFault>
        ensures exact { IfOk result (λ attachments. (S.state source.now).is_honest
            → AreAttachments (StatesBy (S.state source.now).entries filter.now) held.now
            (by_bytes tags.now) attachments) }
        ensures followers { IfOk result (λ attachments.
            AreFollowers (by_bytes tags.now) attachments.followers) }
        ensures cause { IfErr result (IsSubjectFault (S.state source.now) (Contains held.now)) }
    {
        let referrers = referrers_of(alloc, source, held, filter)?;
        let followers = followers_of(alloc, tags)?;
        Ok(Attachments {
            referrers,
            followers,
        })
    }

    /// Returns what is attached to keys by the subjects of the held manifests of a layout, and by
    /// these tags. Reads each held manifest that may state a subject once, or none if the layout
    /// [remembers](Layout::subjects) the subjects.
    ///
    /// # Errors
    ///
    /// The same as for [`of`](Attachments::of).
    pub(crate) fn in_layout<D: Dir>(
        alloc: Global,
        layout: &Layout<D>,
        tags: &[(String, Key)],
    ) -> Result<Attachments, PruneFault>
        ensures exact { IfOk result (λ attachments. (D.device layout.now.dir).is_honest
            → HasAttached (meaning (D.device layout.now.dir) layout.now.graph
            layout.now.tags).entries (by_bytes tags.now) attachments) }
        ensures followers { IfOk result (λ attachments.
            AreFollowers (by_bytes tags.now) attachments.followers) }
        ensures cause { IfErr result (IsSubjectFault
            (meaning (D.device layout.now.dir) layout.now.graph layout.now.tags)
            (λ k. has_key layout.now.graph k ≡ true)) }
    {
        match layout.subjects() {
            Some(subjects) => Ok(Attachments::by_pairs(alloc, subjects, tags)?),
            None => {
                let held = held_keys(alloc, layout)?;
                Attachments::of(alloc, layout, &held, tags, &TypeFilter::AnyType)
            }
        }
    }

    /// Returns what is attached to keys, if the first key of each of these pairs states the second
    /// as its subject, and these are the tags.
    fn by_pairs(
        alloc: Global,
        pairs: &[(Key, Key)],
        tags: &[(String, Key)],
    ) -> Result<Attachments, NoMemory>
        ensures pairs { IfOk result (λ attachments. HasPairs pairs.now attachments.referrers) }
        ensures followers { IfOk result (λ attachments.
            AreFollowers (by_bytes tags.now) attachments.followers) }
    {
        let referrers = referrers_by(alloc, pairs)?;
        let followers = followers_of(alloc, tags)?;
        Ok(Attachments {
            referrers,
            followers,
        })
    }

    /// Returns that nothing is attached to any key. Does not allocate.
    pub(crate) fn none(alloc: Global) -> Attachments
        ensures { (k subject : Descriptor) → AttachedIn result k subject → ⊥ }
    {
        Attachments {
            referrers: BTreeMap::new(alloc),
            followers: BTreeMap::new(alloc),
        }
    }

    /// Returns the keys that are attached to a key. A key may occur twice.
    ///
    /// # Errors
    ///
    /// Returns [`NoMemory`] if an allocation fails.
    pub fn attached_to(&self, alloc: Global, key: &Key) -> Result<Vec<Key>, NoMemory>
        ensures { IfOk result (λ keys. keys.items ≡ attached_in self.now key.now) }
    {
        let mut keys = Vec::new(alloc);
        add_referrers(&self.referrers, key, &mut keys)?;
        add_followers(alloc, &self.followers, key, &mut keys)?;
        Ok(keys)
    }
}

/// Adds the keys that refer to a key.
fn add_referrers(
    referrers: &BTreeMap<Digest, Vec<Key>>,
    subject: &Key,
    keys: &mut Vec<Key>,
) -> Result<(), NoMemory>
    ensures { OnOk result (keys.new.items
        ≡ keys.old.items ++ referrers_in referrers.now subject.now) }
{
    match referrers.get(subject.digest()) {
        Some(found) => add_copies(found, keys),
        None => Ok(()),
    }
}

/// Adds the keys of the tags that name the digest of a key of a manifest kind.
fn add_followers(
    alloc: Global,
    followers: &BTreeMap<String, Vec<Key>>,
    subject: &Key,
    keys: &mut Vec<Key>,
) -> Result<(), NoMemory>
    ensures { OnOk result (keys.new.items
        ≡ keys.old.items ++ followers_in followers.now subject.now) }
{
    match Kind::of(subject.media_type()) {
        Kind::Leaf => Ok(()),
        _ => add_named(alloc, followers, subject.digest(), keys),
    }
}

/// Adds the keys of the tags that name a digest.
fn add_named(
    alloc: Global,
    followers: &BTreeMap<String, Vec<Key>>,
    digest: &Digest,
    keys: &mut Vec<Key>,
) -> Result<(), NoMemory>
    ensures { OnOk result (keys.new.items ≡ keys.old.items
        ++ (stemmed_in followers.now (dashed digest.now)
        ++ stemmed_in followers.now (cut digest.now))) }
{
    let text = dashed(alloc, digest)?;
    add_stemmed(followers, text.as_str(), keys)?;
    add_stemmed(followers, cut(text.as_str()), keys)
}

/// Adds the keys of the tags with this before the first `.` of their names.
fn add_stemmed(
    followers: &BTreeMap<String, Vec<Key>>,
    stem: &str,
    keys: &mut Vec<Key>,
) -> Result<(), NoMemory>
    ensures { OnOk result (keys.new.items ≡ keys.old.items ++ stemmed_in followers.now stem.now) }
{
    match followers.get(stem) {
        Some(found) => add_copies(found, keys),
        None => Ok(()),
    }
}

/// Adds copies of keys.
pub(crate) fn add_copies(found: &[Key], keys: &mut Vec<Key>) -> Result<(), NoMemory>
    ensures { OnOk result (keys.new.items ≡ keys.old.items ++ found.now) }
{
    for key in found {
        keys.push(key.try_clone()?)?;
    }
    Ok(())
}
