ghost use Rattle.std.specs.Prelude.{◌≡◌, ◌↔◌, ◌⊎◌, ◌++◌, true, Contains, IfOk, IfErr, OnOk};
ghost use Rattle.std.specs.BTreeSet.{contains};
ghost use Rattle.oci_manifest.specs.Descriptor.{Descriptor, key_cmp};
ghost use Rattle.oci_store.specs.Graph.{IsEdge};
ghost use Rattle.oci_prune.specs.Aside.{IsAsideFault};
ghost use Rattle.oci_prune.specs.Files.{AddsNeeded, AreNeeded, HasDigests, unneeded_in};
ghost use Rattle.oci_prune.specs.Plan.{AreHeld, AreUnneeded};
ghost use Rattle.oci_prune.specs.Refusal.{IsDeviceFault};

use crate::aside::undistributed_by;
use crate::plan::PrunedFile;
use oci_digest::{Digest, NoMemory};
use oci_dir::PrunableDir;
use oci_layout_store::Layout;
use oci_manifest::Key;
use oci_prune_fault::PruneFault;
use oci_store::{GraphSource, keys_of_set};
use std::alloc::Global;
use std::collections::BTreeSet;

/// Returns the files of a layout that no kept key of a store needs. A kept key needs its file, and
/// those of the keys that it lists, also if they are not held: the file of a layer that was cut
/// stays, and that of a layer that is not distributed. The store is the layout itself, or what a copy
/// would leave of it; `held` has its keys. Reads each kept manifest once.
///
/// # Errors
///
/// - 74 `Device` if a folder of blobs cannot be read.
/// - 77 `BadManifest` if a kept manifest cannot be read.
/// - 88 `Fetch` if the bytes of a kept manifest cannot be fetched.
/// - 89 `Memory` if memory runs out.
pub(crate) fn plan_files<S: GraphSource, D: PrunableDir>(
    alloc: Global,
    store: &S,
    layout: &Layout<D>,
    held: &[Key],
    kept: &BTreeSet<Key>,
) -> Result<Vec<PrunedFile>, PruneFault>
    requires { AreHeld (S.state store.now).nodes held.now }
    ensures files { IfOk result (λ files. (D.device layout.now.dir).is_honest
        → (S.state store.now).is_honest → AreUnneeded (D.device layout.now.dir).file
        (S.state store.now).nodes (S.state store.now).entries kept.now files.items) }
    ensures cause { IfErr result (λ e.
        IsDeviceFault ((D.device layout.now.dir).fails_reads ≡ true) e
        ⊎ IsAsideFault (S.state store.now) (λ k. contains key_cmp kept.now k ≡ true) e) }
{
    let blobs = layout.blobs()?;
    let kept = keys_of_set(alloc, kept)?;
    let listed = needed_keys(alloc, store, &kept)?;
    let needed = digests_of(alloc, &listed)?;
    let held = digests_of(alloc, held)?;
    let files = unneeded_files(alloc, &blobs, &needed, &held)?;
    Ok(files)
}

/// Returns these keys, and the keys that they list.
fn needed_keys<S: GraphSource>(
    alloc: Global,
    source: &S,
    keys: &[Key],
) -> Result<Vec<Key>, PruneFault>
    ensures exact { IfOk result (λ needed. (S.state source.now).is_honest
        → AreNeeded (S.state source.now).nodes (S.state source.now).entries keys.now
        needed.items) }
    ensures cause { IfErr result (IsAsideFault (S.state source.now) (Contains keys.now)) }
{
    let mut needed = Vec::new(alloc);
    for key in keys {
        add_needed(alloc, source, key, &mut needed)?;
    }
    Ok(needed)
}

/// Adds a key, and the keys that it lists, also those that are not distributed.
fn add_needed<S: GraphSource>(
    alloc: Global,
    source: &S,
    key: &Key,
    needed: &mut Vec<Key>,
) -> Result<(), PruneFault>
    ensures exact { OnOk result ((S.state source.now).is_honest
        → AddsNeeded (S.state source.now).nodes (S.state source.now).entries key.now
        needed.old.items needed.new.items) }
    ensures cause { IfErr result (IsAsideFault (S.state source.now) (λ k. k ≡ key.now)) }
{
    let aside = undistributed_by(alloc, source, key)?;
    add_listed(source, key, needed)?;
    add_all(aside, needed)?;
    Ok(())
}

/// Adds a key, and the keys that it lists and that are distributed.
fn add_listed<S: GraphSource>(source: &S, key: &Key, needed: &mut Vec<Key>) -> Result<(), NoMemory>
    ensures { OnOk result ((k : Descriptor) → Contains needed.new.items k
        ↔ (Contains needed.old.items k
        ⊎ ((key.now ≡ k) ⊎ IsEdge (S.state source.now).nodes key.now k))) }
{
    needed.push(key.try_clone()?)?;
    match source.successors(key)? {
        Some(listed) => add_all(listed, needed),
        None => Ok(()),
    }
}

/// Adds keys.
pub(crate) fn add_all(keys: Vec<Key>, needed: &mut Vec<Key>) -> Result<(), NoMemory>
    ensures { OnOk result (needed.new.items ≡ needed.old.items ++ keys.items) }
{
    let mut keys = keys;
    needed.append(&mut keys)?;
    Ok(())
}

/// Returns the digests of these keys.
pub(crate) fn digests_of(alloc: Global, keys: &[Key]) -> Result<BTreeSet<Digest>, NoMemory>
    ensures { IfOk result (λ digests. HasDigests keys.now digests) }
{
    let mut digests = BTreeSet::new(alloc);
    for key in keys {
        digests.insert(*key.digest())?;
    }
    Ok(digests)
}

/// Returns the files of the digests that are not needed. `held` has the digests of the held keys.
pub(crate) fn unneeded_files(
    alloc: Global,
    blobs: &[(Digest, u64)],
    needed: &BTreeSet<Digest>,
    held: &BTreeSet<Digest>,
) -> Result<Vec<PrunedFile>, NoMemory>
    ensures { IfOk result (λ files. files.items ≡ unneeded_in needed.now held.now blobs.now) }
{
    let mut files = Vec::new(alloc);
    for blob in blobs {
        if needed.contains(&blob.0) {
            continue;
        }
        files.push(pruned_file(blob.0, blob.1, held.contains(&blob.0)))?;
    }
    Ok(files)
}

/// Returns a file that is not needed.
fn pruned_file(digest: Digest, length: u64, is_held: bool) -> PrunedFile
    ensures { result ≡ record { digest = digest; length = length; is_held = is_held } }
{
    PrunedFile {
        digest,
        length,
        is_held,
    }
}
