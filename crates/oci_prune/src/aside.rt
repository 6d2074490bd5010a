//! The layers that manifests list and that are not distributed.
ghost use Rattle.std.specs.Prelude.{◌≡◌, ◌↔◌, true, filter, option_copied, Contains, IfOk, IfErr};
ghost use Rattle.std.specs.List.Sorted.{IsStrictlySortedBy};
ghost use Rattle.oci_manifest.specs.Descriptor.{Descriptor, key_cmp};
ghost use Rattle.oci_layout_store.specs.Layout.{is_manifest};
ghost use Rattle.oci_layout_store.specs.Meaning.{meaning};
ghost use Rattle.oci_store.specs.Keyed.{has_key};
ghost use Rattle.oci_prune.specs.Aside.{is_one_of, ArePicked, AreAside, AreListedAside, IsAsideFault, ListsAside};

use crate::files::add_all;
use crate::free::set_of;
use crate::held::held_keys;
use oci_digest::NoMemory;
use oci_dir::Dir;
use oci_layout_store::Layout;
use oci_manifest::{Key, Kind, undistributed};
use oci_prune_fault::{PruneFault, of_fetch, of_manifest};
use oci_store::{Source, keys_of_set};
use std::alloc::Global;
use std::collections::BTreeSet;

/// Returns the keys that held keys of a layout list and that are not distributed, in key order, and
/// each once. `among` are the keys whose lists are asked for, or all. Reads each held manifest of these
/// once, or none if the layout [remembers](Layout::undistributed) what they list.
///
/// # Errors
///
/// - 77 `BadManifest` if such a manifest cannot be read, and 88 `Fetch` if its bytes cannot be
///   fetched.
/// - 89 `Memory` if memory runs out.
pub fn undistributed_layers<D: Dir>(
    alloc: Global,
    layout: &Layout<D>,
    among: Option<&BTreeSet<Key>>,
) -> Result<Vec<Key>, PruneFault>
    ensures exact { IfOk result (λ layers. (D.device layout.now.dir).is_honest
        → AreAside (is_one_of (option_copied among.entry)) (meaning (D.device layout.now.dir)
        layout.now.graph layout.now.tags).entries layers.items) }
    ensures order { IfOk result (λ layers. IsStrictlySortedBy key_cmp layers.items) }
    ensures cause { IfErr result (IsAsideFault
        (meaning (D.device layout.now.dir) layout.now.graph layout.now.tags)
        (λ k. has_key layout.now.graph k ≡ true)) }
{
    let listed = listed_layers(alloc, layout, among)?;
    let distinct = set_of(alloc, &listed)?;
    let layers = keys_of_set(alloc, &distinct)?;
    Ok(layers)
}

/// Returns the keys that held keys which are asked for list and that are not distributed, as often as
/// they are listed.
fn listed_layers<D: Dir>(
    alloc: Global,
    layout: &Layout<D>,
    among: Option<&BTreeSet<Key>>,
) -> Result<Vec<Key>, PruneFault>
    ensures exact { IfOk result (λ layers. (D.device layout.now.dir).is_honest
        → AreAside (is_one_of (option_copied among.entry)) (meaning (D.device layout.now.dir)
        layout.now.graph layout.now.tags).entries layers.items) }
    ensures cause { IfErr result (IsAsideFault
        (meaning (D.device layout.now.dir) layout.now.graph layout.now.tags)
        (λ k. has_key layout.now.graph k ≡ true)) }
{
    match layout.undistributed() {
        Some(pairs) => Ok(pick_layers(alloc, pairs, among)?),
        None => read_layers(alloc, layout, among),
    }
}

/// Returns the second key of each of these pairs whose first is asked for.
fn pick_layers(
    alloc: Global,
    pairs: &[(Key, Key)],
    among: Option<&BTreeSet<Key>>,
) -> Result<Vec<Key>, NoMemory>
    ensures { IfOk result (λ layers.
        ArePicked (is_one_of (option_copied among.entry)) pairs.now layers.items) }
{
    let mut layers = Vec::new(alloc);
    for pair in pairs {
        if !is_one_of(among, &pair.0) {
            continue;
        }
        layers.push(pair.1.try_clone()?)?;
    }
    Ok(layers)
}

/// Reads the held manifests that are asked for, and returns the keys that they list and that are not
/// distributed.
fn read_layers<D: Dir>(
    alloc: Global,
    layout: &Layout<D>,
    among: Option<&BTreeSet<Key>>,
) -> Result<Vec<Key>, PruneFault>
    ensures exact { IfOk result (λ layers. (D.device layout.now.dir).is_honest
        → AreAside (is_one_of (option_copied among.entry)) (meaning (D.device layout.now.dir)
        layout.now.graph layout.now.tags).entries layers.items) }
    ensures cause { IfErr result (IsAsideFault
        (meaning (D.device layout.now.dir) layout.now.graph layout.now.tags)
        (λ k. has_key layout.now.graph k ≡ true)) }
{
    let held = held_keys(alloc, layout)?;
    let asked = keys_among(alloc, &held, among)?;
    undistributed_by_any(alloc, layout, &asked)
}

/// Returns those of these keys that are asked for.
fn keys_among(
    alloc: Global,
    keys: &[Key],
    among: Option<&BTreeSet<Key>>,
) -> Result<Vec<Key>, NoMemory>
    ensures { IfOk result (λ asked. asked.items
        ≡ filter (is_one_of (option_copied among.entry)) keys.now) }
{
    let mut asked = Vec::new(alloc);
    for key in keys {
        if !is_one_of(among, key) {
            continue;
        }
        asked.push(key.try_clone()?)?;
    }
    Ok(asked)
}

/// Returns whether a key is one of a set, or of all keys.
fn is_one_of(among: Option<&BTreeSet<Key>>, key: &Key) -> bool
    ensures { result ≡ is_one_of (option_copied among.entry) key.now }
{
    match among {
        Some(keys) => keys.contains(key),
        None => true,
    }
}

/// Returns the keys that one of these held keys lists and that are not distributed.
fn undistributed_by_any<S: Source>(
    alloc: Global,
    source: &S,
    keys: &[Key],
) -> Result<Vec<Key>, PruneFault>
    ensures exact { IfOk result (λ listed. (S.state source.now).is_honest
        → AreListedAside (S.state source.now).entries keys.now listed.items) }
    ensures cause { IfErr result (IsAsideFault (S.state source.now) (Contains keys.now)) }
{
    let mut listed = Vec::new(alloc);
    for key in keys {
        let aside = undistributed_by(alloc, source, key)?;
        add_all(aside, &mut listed)?;
    }
    Ok(listed)
}

/// Returns the keys that a held key lists and that are not distributed. A key whose kind is not that
/// of a manifest is not read.
///
/// # Errors
///
/// - 77 `BadManifest` if the manifest cannot be read.
/// - 88 `Fetch` if its bytes cannot be fetched.
/// - 89 `Memory` if memory runs out.
pub(crate) fn undistributed_by<S: Source>(
    alloc: Global,
    source: &S,
    key: &Key,
) -> Result<Vec<Key>, PruneFault>
    ensures exact { IfOk result (λ keys. (S.state source.now).is_honest
        → (k : Descriptor) → Contains keys.items k
        ↔ ListsAside (S.state source.now).entries key.now k) }
    ensures cause { IfErr result (IsAsideFault (S.state source.now) (λ k. k ≡ key.now)) }
{
    let kind = Kind::of(key.media_type());
    if !is_manifest(kind) {
        return Ok(Vec::new(alloc));
    }
    let bytes = match source.fetch(key) {
        Ok(bytes) => bytes,
        Err(fault) => return Err(of_fetch(key.try_clone()?, fault)),
    };
    match undistributed(alloc, kind, bytes.as_slice()) {
        Ok(keys) => Ok(keys),
        Err(fault) => Err(of_manifest(key.try_clone()?, fault)),
    }
}

/// Returns whether a kind is that of a manifest.
fn is_manifest(kind: Kind) -> bool
    ensures { result ≡ is_manifest kind }
{
    !matches!(kind, Kind::Leaf)
}
