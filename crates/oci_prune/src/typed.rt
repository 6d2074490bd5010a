ghost use Rattle.std.specs.Prelude.{◌≡◌, ◌↔◌, ℕ, List, [], map, true, Contains, IfOk, IfErr};
ghost use Rattle.std.specs.BTreeSet.{contains};
ghost use Rattle.std.specs.Cmp.Lexicographic.{slice_cmp};
ghost use Rattle.std.specs.Ordering.{nat_cmp};
ghost use Rattle.oci_manifest.specs.Descriptor.{Descriptor};
ghost use Rattle.oci_store.specs.Keyed.{has_key};
ghost use Rattle.oci_layout_store.specs.Meaning.{meaning};
ghost use Rattle.oci_prune.specs.Belonging.{IsBelonging, IsComplete};
ghost use Rattle.oci_prune.specs.Subjects.{IsSubjectFault, Refers};
ghost use Rattle.oci_prune.specs.Typed.{IsOfTypes, IsReachedDigest, RefersByTypes};

use crate::attachments::Attachments;
use crate::belonging::{Belonging, belonging_by};
use crate::files::digests_of;
use crate::held::held_keys;
use crate::members::members_of;
use crate::type_filter::TypeFilter;
use oci_digest::{Digest, NoMemory};
use oci_dir::Dir;
use oci_layout_store::Layout;
use oci_manifest::Key;
use oci_prune_fault::PruneFault;
use oci_store::{GraphSource, Source, keys_of_set};
use std::alloc::Global;
use std::collections::BTreeSet;

/// Returns what belongs to some keys of a layout, if of what is attached to what they reach only
/// these types come: the given keys that are held, and with each member the held keys that it lists
/// and the held manifests whose `subject` has its digest. But a manifest whose `subject` has the
/// digest of a held key that the given ones reach comes only if it is of one of these types: its
/// `artifactType`, or else the media type of its config (OCI distribution-spec 1.1, "Listing
/// Referrers"), byte for byte; or if the given keys reach it, or a member lists it. What is attached
/// to such a manifest itself comes whatever its type is. Tags do not count.
///
/// Without a type nothing that is attached to a key that the given ones reach comes.
///
/// Each held manifest of a kind that may have a subject is read once; Docker manifests are not. A
/// key that is needed and not held is passed over. The time grows with the held keys and the keys
/// that they list, times a logarithm, and with the types times the manifests that have a subject.
///
/// # Errors
///
/// The same as for [`belonging_of`](crate::belonging_of).
pub fn belonging_of_types<D: Dir>(
    alloc: Global,
    layout: &Layout<D>,
    keys: &[Key],
    types: &[&str],
) -> Result<Belonging, PruneFault>
    ensures exact { IfOk result (λ found. (D.device layout.now.dir).is_honest
        → IsBelonging layout.now.graph keys.now (RefersByTypes
        (meaning (D.device layout.now.dir) layout.now.graph layout.now.tags) keys.now
        (map (λ t. t.now) types.now)) found) }
    ensures complete { IfOk result (IsComplete layout.now.graph keys.now []) }
    ensures cause { IfErr result (IsSubjectFault
        (meaning (D.device layout.now.dir) layout.now.graph layout.now.tags)
        (λ k. has_key layout.now.graph k ≡ true)) }
{
    let held = held_keys(alloc, layout)?;
    let subjects = reached_digests(alloc, layout, keys)?;
    let filter = TypeFilter::OneOf {
        subjects: &subjects,
        types,
    };
    let attachments = Attachments::of(alloc, layout, &held, &[], &filter)?;
    belonging_by(alloc, layout, keys, &[], attachments)
}

/// Returns the digests of the held keys that some keys reach.
fn reached_digests<S: GraphSource>(
    alloc: Global,
    source: &S,
    keys: &[Key],
) -> Result<BTreeSet<Digest>, PruneFault>
    ensures exact { IfOk result (λ digests. (digest : List ℕ)
        → (contains (slice_cmp nat_cmp) digests digest ≡ true)
        ↔ IsReachedDigest (S.state source.now).nodes keys.now digest) }
    ensures memory { IfErr result (λ e. e ≡ PruneFault.Memory) }
{
    let members = members_of(alloc, source, keys, &Attachments::none(alloc), false)?;
    let reached = keys_of_set(alloc, &members)?;
    let digests = digests_of(alloc, &reached)?;
    Ok(digests)
}

/// Returns those of these keys that state a subject of this key's digest and are of one of these
/// types, as [`belonging_of_types`] says. Reads each manifest that may state a subject once.
///
/// # Errors
///
/// The same as for [`belonging_of`](crate::belonging_of), for one of these keys.
pub fn referrers_of_types<S: Source>(
    alloc: Global,
    source: &S,
    keys: &[Key],
    subject: &Key,
    types: &[&str],
) -> Result<Vec<Key>, PruneFault>
    ensures exact { IfOk result (λ found. (S.state source.now).is_honest
        → (k : Descriptor) → Contains found.items k ↔ (Contains keys.now k
        × Refers (S.state source.now).entries k subject.now
        × IsOfTypes (S.state source.now).entries (map (λ t. t.now) types.now) k)) }
    ensures cause { IfErr result (IsSubjectFault (S.state source.now) (Contains keys.now)) }
{
    let subjects = digest_of(alloc, subject)?;
    let filter = TypeFilter::OneOf {
        subjects: &subjects,
        types,
    };
    let attachments = Attachments::of(alloc, source, keys, &[], &filter)?;
    let found = attachments.attached_to(alloc, subject)?;
    Ok(found)
}

/// Returns the digest of a key, in a set.
fn digest_of(alloc: Global, key: &Key) -> Result<BTreeSet<Digest>, NoMemory>
    ensures { IfOk result (λ digests.
        contains (slice_cmp nat_cmp) digests key.now.digest ≡ true) }
{
    let mut digests = BTreeSet::new(alloc);
    digests.insert(*key.digest())?;
    Ok(digests)
}
