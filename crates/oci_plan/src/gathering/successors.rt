ghost use Rattle.std.specs.Prelude.{◌≡◌, ◌≢◌, ◌<◌, ◌≤◌, ◌⊎◌, true, false, Ok, OnOk, OnErr, MatchBool, MatchResult};
ghost use Rattle.oci_manifest.specs.MediaTypes.{kind_of};
ghost use Rattle.oci_manifest.specs.declared.kind.Kind.TheVariants.{Leaf};
ghost use Rattle.oci_store.specs.Keyed.{has_key};
ghost use Rattle.oci_plan.specs.Refusal.{IsTrueOfKey};
ghost use Rattle.oci_plan.specs.Visiting.{IsAdmitted};
ghost use Rattle.oci_plan.specs.Walk.{IsFetched, IsPassed, Lists, MayPass, fetch_refusal, read_refusal};

use crate::fault::PlanFault;
use bytes::Bytes;
use oci_manifest::{Key, Kind, ManifestFault, successors};
use oci_store::{FetchFault, Source};
use std::alloc::Global;

/// Returns whether content of a kind may have this size. A leaf may have any size.
fn is_within(kind: Kind, size: u64, limit: u64) -> bool
    ensures { MatchBool result (kind ≢ Leaf → size ≤ limit) ((kind ≢ Leaf) × (limit < size)) }
{
    match kind {
        Kind::Leaf => true,
        _ => size <= limit,
    }
}

/// Checks the size of a manifest, then that the source has the key.
fn check_size_and_presence<A: Source>(source: &A, key: &Key, limit: u64) -> Result<(), PlanFault>
    ensures { MatchResult result (λ _. IsAdmitted (A.state source.now).entries limit key.now)
        (IsTrueOfKey (A.state source.now) limit key.now) }
{
    if !is_within(Kind::of(key.media_type()), key.size(), limit) {
        return Err(PlanFault::TooLarge(key.try_clone()?, limit));
    }
    if !source.exists(key) {
        return Err(PlanFault::NotFound(key.try_clone()?));
    }
    Ok(())
}

/// Converts the fault of a fetch into one of the plan.
fn fetch_fault(key: Key, fault: FetchFault) -> PlanFault
    ensures { result ≡ fetch_refusal key fault }
{
    match fault {
        FetchFault::NotFound => PlanFault::NotFound(key),
        FetchFault::Corrupt => PlanFault::Fetch(key, FetchFault::Corrupt),
        FetchFault::Device => PlanFault::Fetch(key, FetchFault::Device),
        FetchFault::Memory => PlanFault::Memory,
    }
}

/// Fetches the bytes of a manifest whose key passed its checks.
#[tactic(auto, using(crate::proofs::Items::fetch_refused))]
fn fetch<A: Source>(source: &A, key: &Key, limit: u64) -> Result<Bytes, PlanFault>
    requires manifest { kind_of key.now.media_type ≢ Leaf }
    requires admitted { IsAdmitted (A.state source.now).entries limit key.now }
    ensures { MatchResult result (IsFetched (A.state source.now) key.now)
        (IsTrueOfKey (A.state source.now) limit key.now) }
{
    match source.fetch(key) {
        Ok(bytes) => Ok(bytes),
        Err(fault) => Err(fetch_fault(key.try_clone()?, fault)),
    }
}

/// Converts the fault of a manifest into one of the plan.
fn read_fault(key: Key, fault: ManifestFault) -> PlanFault
    ensures { result ≡ read_refusal key fault }
{
    match fault {
        ManifestFault::NotJson => PlanFault::Manifest(key, ManifestFault::NotJson),
        ManifestFault::NotObject => PlanFault::Manifest(key, ManifestFault::NotObject),
        ManifestFault::NoConfig => PlanFault::Manifest(key, ManifestFault::NoConfig),
        ManifestFault::BadList(member) => PlanFault::Manifest(key, ManifestFault::BadList(member)),
        ManifestFault::BadDescriptor(member, position) => {
            PlanFault::Manifest(key, ManifestFault::BadDescriptor(member, position))
        }
        ManifestFault::Memory => PlanFault::Memory,
    }
}

/// Returns the keys that the content of a key lists.
///
/// Checks the size of a manifest first, then that the source has it. Then fetches and reads it. A
/// leaf is never fetched.
fn fetch_successors<A: Source>(
    alloc: Global,
    source: &A,
    key: &Key,
    limit: u64,
) -> Result<Vec<Key>, PlanFault>
    ensures passed { OnOk result (IsPassed (A.state source.now).is_honest
        (A.state source.now).entries limit key.now) }
    ensures lists { Lists (A.state source.now) limit key.now result }
{
    check_size_and_presence(source, key, limit)?;
    let kind = Kind::of(key.media_type());
    match kind {
        Kind::Leaf => Ok(Vec::new(alloc)),
        _ => {
            let bytes = fetch(source, key, limit)?;
            match successors(alloc, kind, &bytes) {
                Ok(keys) => Ok(keys),
                Err(fault) => Err(read_fault(key.try_clone()?, fault)),
            }
        }
    }
}

/// Returns the keys that a visited key lists, or none if only the destination has it. `is_held` is
/// whether the destination has the key.
pub(crate) fn visited_successors<A: Source>(
    alloc: Global,
    source: &A,
    key: &Key,
    is_held: bool,
    limit: u64,
) -> Result<Vec<Key>, PlanFault>
    ensures passed { OnOk result (MayPass (A.state source.now).is_honest
        (A.state source.now).entries is_held limit key.now) }
    ensures lists { Lists (A.state source.now) limit key.now result }
    ensures asked { OnErr result ((is_held ≡ false) ⊎
        (has_key (A.state source.now).entries key.now ≡ true)) }
{
    if is_held && !source.exists(key) {
        return Ok(Vec::new(alloc));
    }
    fetch_successors(alloc, source, key, limit)
}
