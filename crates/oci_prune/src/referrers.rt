ghost use Rattle.std.specs.Prelude.{◌≡◌, ◌↔◌, ◌++◌, ◌∷◌, [], Some, Contains, IfOk, IfErr, OnOk};
ghost use Rattle.oci_manifest.specs.Descriptor.{Descriptor};
ghost use Rattle.oci_manifest.specs.Subject.{may_refer};
ghost use Rattle.oci_prune.specs.Subjects.{AreReferrers, HasPairs, IsAdded, IsNoted, IsSubjectFault};
ghost use Rattle.oci_prune.specs.Typed.{Passes, StatesBy};

use crate::type_filter::TypeFilter;
use oci_digest::{Digest, NoMemory};
use oci_manifest::{Key, Kind, subject};
use oci_prune_fault::{PruneFault, of_fetch, of_manifest};
use oci_store::Source;
use std::alloc::Global;
use std::collections::BTreeMap;

/// Returns those of these keys that state a subject and pass a filter, under the digests of their
/// subjects. Reads each manifest that may state one once.
///
/// # Errors
///
/// - 77 `BadManifest` if a manifest cannot be read.
/// - 88 `Fetch` if the bytes of a manifest cannot be fetched.
/// - 89 `Memory` if memory runs out.
pub(crate) fn referrers_of<S: Source>(
    alloc: Global,
    source: &S,
    keys: &[Key],
    filter: &TypeFilter<'_>,
) -> Result<BTreeMap<Digest, Vec<Key>>, PruneFault>
    ensures exact { IfOk result (λ referrers. (S.state source.now).is_honest
        → AreReferrers (StatesBy (S.state source.now).entries filter.now) keys.now referrers) }
    ensures cause { IfErr result (IsSubjectFault (S.state source.now) (Contains keys.now)) }
{
    let mut referrers = BTreeMap::new(alloc);
    for key in keys {
        let found = subject_at(alloc, source, key, filter)?;
        add_referrer(alloc, &mut referrers, key, found)?;
    }
    Ok(referrers)
}

/// Returns the first key of each of these pairs, under the digest of the second.
pub(crate) fn referrers_by(
    alloc: Global,
    pairs: &[(Key, Key)],
) -> Result<BTreeMap<Digest, Vec<Key>>, NoMemory>
    ensures { IfOk result (HasPairs pairs.now) }
{
    let mut referrers = BTreeMap::new(alloc);
    for pair in pairs {
        add(alloc, &mut referrers, &pair.0, *pair.1.digest())?;
    }
    Ok(referrers)
}

/// Adds a key under the digest of its subject, if it has one.
fn add_referrer(
    alloc: Global,
    referrers: &mut BTreeMap<Digest, Vec<Key>>,
    key: &Key,
    subject: Option<Key>,
) -> Result<(), NoMemory>
    ensures { OnOk result (IsNoted key.now subject referrers.old referrers.new) }
{
    match subject {
        Some(subject) => add(alloc, referrers, key, *subject.digest()),
        None => Ok(()),
    }
}

/// Adds a key under a digest.
fn add(
    alloc: Global,
    referrers: &mut BTreeMap<Digest, Vec<Key>>,
    key: &Key,
    digest: Digest,
) -> Result<(), NoMemory>
    ensures { OnOk result (IsAdded key.now digest referrers.old referrers.new) }
{
    let key = key.try_clone()?;
    if let Some(keys) = referrers.get_mut(&digest) {
        put(keys, key)?;
        return Ok(());
    }
    let mut keys = Vec::new(alloc);
    put(&mut keys, key)?;
    referrers.insert(digest, keys)?;
    Ok(())
}

/// Appends a key.
pub(crate) fn put(keys: &mut Vec<Key>, key: Key) -> Result<(), NoMemory>
    ensures { OnOk result (keys.new.items ≡ keys.old.items ++ key ∷ []) }
{
    keys.push(key)?;
    Ok(())
}

/// Returns the subject of a key, or `None` if it states none or does not pass a filter. A key whose
/// kind has no subjects is not read.
fn subject_at<S: Source>(
    alloc: Global,
    source: &S,
    key: &Key,
    filter: &TypeFilter<'_>,
) -> Result<Option<Key>, PruneFault>
    ensures exact { IfOk result (λ found. (S.state source.now).is_honest
        → (subject : Descriptor) → (found ≡ Some subject)
        ↔ StatesBy (S.state source.now).entries filter.now key.now subject) }
    ensures cause { IfErr result (IsSubjectFault (S.state source.now) (λ k. k ≡ key.now)) }
{
    let kind = Kind::of(key.media_type());
    if !may_refer(kind) {
        return Ok(None);
    }
    let bytes = match source.fetch(key) {
        Ok(bytes) => bytes,
        Err(fault) => return Err(of_fetch(key.try_clone()?, fault)),
    };
    match subject(alloc, kind, bytes.as_slice()) {
        Ok(stated) => Ok(passing(alloc, kind, bytes.as_slice(), stated, filter)?),
        Err(fault) => Err(of_manifest(key.try_clone()?, fault)),
    }
}

/// Returns the subject that bytes of a kind state, if they pass a filter.
fn passing(
    alloc: Global,
    kind: Kind,
    bytes: &[u8],
    stated: Option<Key>,
    filter: &TypeFilter<'_>,
) -> Result<Option<Key>, NoMemory>
    ensures { IfOk result (λ found. (subject : Descriptor) → (found ≡ Some subject)
        ↔ ((stated ≡ Some subject) × Passes filter.now kind bytes.now subject)) }
{
    let Some(subject) = stated else {
        return Ok(None);
    };
    if filter.passes(alloc, kind, bytes, &subject)? {
        Ok(Some(subject))
    } else {
        Ok(None)
    }
}

/// Returns whether manifests of a kind may state a subject.
fn may_refer(kind: Kind) -> bool
    ensures { result ≡ may_refer kind }
{
    matches!(kind, Kind::Image | Kind::Index | Kind::Artifact)
}
