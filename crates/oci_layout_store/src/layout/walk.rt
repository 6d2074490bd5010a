ghost use Rattle.std.specs.Prelude.{◌≡◌, ◌≢◌, ◌⊎◌, ◌++◌, ◌∷◌, [], ℕ, List, filter, true, false, None, Ok, IfOk, IfErr, OnOk, MatchOption};
ghost use Rattle.oci_manifest.specs.Fault.{Fails};
ghost use Rattle.oci_manifest.specs.MediaTypes.{kind_of};
ghost use Rattle.oci_manifest.specs.Subject.{subject_of};
ghost use Rattle.oci_manifest.specs.Undistributed.{undistributed_of};
ghost use Rattle.oci_store.specs.Content.{Matches, succ_of};
ghost use Rattle.oci_store.specs.Keyed.{has_key, HasDistinctKeys};
ghost use Rattle.oci_store.specs.Visiting.{with_keys};
ghost use Rattle.oci_layout_store.specs.Blobs.{blob_path};
ghost use Rattle.oci_dir.specs.Device.{Finds, of_length};
ghost use Rattle.oci_layout_store.specs.Opened.{HasWalked, IsGood, held_in, holds, is_damaged, is_there, is_whole, lists};
ghost use Rattle.oci_layout_store.specs.Stated.{AreLinksOf, AreStated, IsNoted};
ghost use Rattle.oci_layout_store.specs.Refusal.{IsBytesFault, IsDamage, IsDamageFault, IsManifestFault, IsNextVisited, IsStepFault, IsWalkFault};

use crate::fault::LayoutFault;
use crate::layout::blob::{blob_path, read_sized};
use crate::layout::held::Held;
use oci_digest::NoMemory;
use oci_dir::Dir;
use oci_manifest::{Key, Kind, Links, ManifestFault, read_links};
use oci_store::KeyList;
use std::alloc::Global;

/// Returns the keys that are reached from `starts` and have a file, in the order of the walk. If
/// the layout is opened `as_is`, a key whose file is damaged is passed over: it is not held and
/// lists nothing. Also returns these, in the order of the walk.
///
/// The walk does not recurse. Keys that were found wait in a list, and each is visited once.
pub(crate) fn walk<D: Dir>(
    alloc: Global,
    dir: &D,
    as_is: bool,
    starts: &[Key],
) -> Result<(Held, Vec<Key>), LayoutFault>
    ensures walked { IfOk result (λ p. (D.device dir.now).is_honest
        → (walked : HasWalked as_is (D.device dir.now).file starts.now p.0.graph)
        × (p.1.items ≡ filter (is_damaged as_is (D.device dir.now).file) walked.visited)) }
    ensures stated { IfOk result (λ p. (D.device dir.now).is_honest
        → AreStated (D.device dir.now).file p.0.graph p.0.stated) }
    ensures distinct { IfOk result (λ p. HasDistinctKeys p.0.graph) }
    ensures cause { IfErr result (IsWalkFault as_is (D.device dir.now)
        (IsNextVisited (D.device dir.now).file starts.now)) }
{
    let mut visited = KeyList::new(alloc);
    let mut held = Held::none(alloc);
    let mut damaged = Vec::new(alloc);
    visited.place_all(starts)?;
    let mut place = 0;
    while place < visited.len() {
        let Some(key) = visited.get(place) else {
            unreachable!();
        };
        let key = key.try_clone()?;
        match step(
            alloc,
            dir,
            as_is,
            &key,
            &mut visited,
            &mut held,
            &mut damaged,
        ) {
            Ok(()) => place += 1,
            Err(fault) => return Err(fault),
        }
    }
    // The contract of `len` states the invariant of a graph.
    let _ = held.graph.len();
    Ok((held, damaged))
}

/// Visits a key. If it has a file, holds it and adds the keys that the file lists, or notes that
/// the file is damaged.
fn step<D: Dir>(
    alloc: Global,
    dir: &D,
    as_is: bool,
    key: &Key,
    visited: &mut KeyList,
    held: &mut Held,
    damaged: &mut Vec<Key>,
) -> Result<(), LayoutFault>
    ensures visited { OnOk result ((D.device dir.now).is_honest
        → visited.new ≡ with_keys visited.old (lists as_is (D.device dir.now).file key.now)) }
    ensures held { OnOk result ((D.device dir.now).is_honest
        → has_key held.old.graph key.now ≡ false → held.new.graph
        ≡ held.old.graph ++ held_in as_is (D.device dir.now).file (key.now ∷ [])) }
    ensures stated { OnOk result ((D.device dir.now).is_honest
        → has_key held.old.graph key.now ≡ false
        → AreStated (D.device dir.now).file held.old.graph held.old.stated
        → AreStated (D.device dir.now).file held.new.graph held.new.stated) }
    ensures damaged { OnOk result ((D.device dir.now).is_honest → damaged.new.items
        ≡ damaged.old.items ++ filter (is_damaged as_is (D.device dir.now).file) (key.now ∷ [])) }
    ensures good { OnOk result ((D.device dir.now).is_honest
        → holds as_is (D.device dir.now).file key.now ≡ true
        → IsGood (D.device dir.now).file key.now) }
    ensures cause { IfErr result (IsWalkFault as_is (D.device dir.now) (λ k. k ≡ key.now)) }
{
    match find(alloc, dir, as_is, key) {
        Ok(Some(links)) => Ok(hold(key, links, visited, held)?),
        Ok(None) => Ok(()),
        Err(fault) => pass_over(as_is, key, fault, damaged),
    }
}

/// Returns what a key's file lists and states, or `None` if there is no file. Looks at the size of a
/// leaf's file only if the layout is opened `as_is`.
fn find<D: Dir>(
    alloc: Global,
    dir: &D,
    as_is: bool,
    key: &Key,
) -> Result<Option<Links>, LayoutFault>
    ensures found { IfOk result (λ found. (D.device dir.now).is_honest → MatchOption found
        (is_there (D.device dir.now).file key.now ≡ false)
        (λ links. (holds as_is (D.device dir.now).file key.now ≡ true)
        × AreLinksOf (D.device dir.now).file key.now links)) }
    ensures good { OnOk result ((D.device dir.now).is_honest
        → IsGood (D.device dir.now).file key.now) }
    ensures cause { IfErr result (IsStepFault as_is (D.device dir.now) key.now) }
{
    if as_is {
        links_in(alloc, dir, key)
    } else {
        listed(alloc, dir, key)
    }
}

/// Returns what the file of a key lists and states, or `None` if there is no file. The file of a leaf
/// lists nothing, and is not read.
///
/// # Errors
///
/// - 75 `Corrupt` if the file of a manifest does not match the key, or that of a leaf has another
///   size.
/// - 77 `BadManifest` if the file of a manifest matches the key, and cannot be read as one.
/// - 74 `Device` if a read failed.
/// - 76 `Memory` if memory runs out.
pub fn links_in<D: Dir>(alloc: Global, dir: &D, key: &Key) -> Result<Option<Links>, LayoutFault>
    ensures found { IfOk result (λ found. (D.device dir.now).is_honest → MatchOption found
        (is_there (D.device dir.now).file key.now ≡ false)
        (λ links. (is_whole (D.device dir.now).file key.now ≡ true)
        × AreLinksOf (D.device dir.now).file key.now links)) }
    ensures good { OnOk result ((D.device dir.now).is_honest
        → IsGood (D.device dir.now).file key.now) }
    ensures cause { IfErr result (IsDamageFault (D.device dir.now) key.now) }
{
    match Kind::of(key.media_type()) {
        Kind::Leaf => checked_leaf(alloc, dir, key),
        _ => checked_manifest(alloc, dir, key),
    }
}

/// Returns what a manifest's file lists and states, or `None` if there is no file. The file must have
/// the size of the key, and is not read otherwise.
fn checked_manifest<D: Dir>(alloc: Global, dir: &D, key: &Key) -> Result<Option<Links>, LayoutFault>
    requires manifest { kind_of key.now.media_type ≢ Kind.Leaf }
    ensures found { IfOk result (λ found. (D.device dir.now).is_honest → MatchOption found
        (is_there (D.device dir.now).file key.now ≡ false)
        (λ links. (is_whole (D.device dir.now).file key.now ≡ true)
        × AreLinksOf (D.device dir.now).file key.now links)) }
    ensures good { OnOk result ((D.device dir.now).is_honest
        → IsGood (D.device dir.now).file key.now) }
    ensures cause { IfErr result (IsDamageFault (D.device dir.now) key.now) }
{
    let path = blob_path(alloc, key.digest())?;
    let Some(bytes) = dir.read_of_length(&path, key.size())? else {
        check_missing(dir, &path, key)?;
        return Ok(None);
    };
    match lists(alloc, key, Kind::of(key.media_type()), bytes.as_slice()) {
        Ok(links) => Ok(Some(links)),
        Err(fault) => Err(fault),
    }
}

/// Refuses the file of a manifest that has another size than its key.
fn check_missing<D: Dir>(dir: &D, path: &str, key: &Key) -> Result<(), LayoutFault>
    requires manifest { kind_of key.now.media_type ≢ Kind.Leaf }
    requires path { path.now ≡ blob_path key.now.digest }
    ensures missing { OnOk result ((D.device dir.now).is_honest
        → of_length key.now.size ((D.device dir.now).file (blob_path key.now.digest)) ≡ None
        → (D.device dir.now).file (blob_path key.now.digest) ≡ None) }
    ensures cause { IfErr result (IsDamageFault (D.device dir.now) key.now) }
{
    match dir.size(path)? {
        // (a file of this size has come since it was looked for)
        Some(size) if size == key.size() => Ok(()),
        Some(_) => Err(LayoutFault::Corrupt(key.try_clone()?)),
        None => Ok(()),
    }
}

/// Returns no keys, since a leaf lists nothing, or `None` if there is no file. The file must have
/// the size of the key.
fn checked_leaf<D: Dir>(alloc: Global, dir: &D, key: &Key) -> Result<Option<Links>, LayoutFault>
    requires leaf { kind_of key.now.media_type ≡ Kind.Leaf }
    ensures found { IfOk result (λ found. (D.device dir.now).is_honest → MatchOption found
        (is_there (D.device dir.now).file key.now ≡ false)
        (λ links. (is_whole (D.device dir.now).file key.now ≡ true)
        × AreLinksOf (D.device dir.now).file key.now links)) }
    ensures cause { IfErr result (IsDamageFault (D.device dir.now) key.now) }
{
    let path = blob_path(alloc, key.digest())?;
    let Some(size) = dir.size(&path)? else {
        return Ok(None);
    };
    if size == key.size() {
        return Ok(Some(Links::none(alloc)));
    }
    Err(LayoutFault::Corrupt(key.try_clone()?))
}

/// Holds a key with its links, and adds the keys that it lists to the visited ones.
fn hold(key: &Key, links: Links, visited: &mut KeyList, held: &mut Held) -> Result<(), NoMemory>
    ensures visited { OnOk result (visited.new ≡ with_keys visited.old links.successors.items) }
    ensures held { OnOk result (has_key held.old.graph key.now ≡ false
        → held.new.graph ≡ held.old.graph ++ (key.now, links.successors.items) ∷ []) }
    ensures stated { OnOk result (has_key held.old.graph key.now ≡ false
        → IsNoted held.old.stated key.now links held.new.stated) }
{
    visited.place_all(&links.successors)?;
    held.add(key, links)
}

/// Notes a key whose file is damaged, if the layout is opened `as_is`. Otherwise returns the fault.
fn pass_over(
    as_is: bool,
    key: &Key,
    fault: LayoutFault,
    damaged: &mut Vec<Key>,
) -> Result<(), LayoutFault>
    ensures passed { OnOk result ((as_is ≡ true) × IsDamage fault
        × (damaged.new.items ≡ damaged.old.items ++ key.now ∷ [])) }
    ensures refused { IfErr result (λ e. (e ≡ LayoutFault.Memory)
        ⊎ ((e ≡ fault) × (IsDamage fault → as_is ≡ false))) }
{
    if !as_is {
        return Err(fault);
    }
    match fault {
        LayoutFault::Corrupt(_) | LayoutFault::BadManifest(_, _) => Ok(add(key, damaged)?),
        other => Err(other),
    }
}

/// Adds a key to these.
fn add(key: &Key, keys: &mut Vec<Key>) -> Result<(), NoMemory>
    ensures { OnOk result (keys.new.items ≡ keys.old.items ++ key.now ∷ []) }
{
    keys.push(key.try_clone()?)?;
    Ok(())
}

/// Returns what a key's file lists and states, or `None` if there is no file. A leaf lists nothing and
/// is not read.
fn listed<D: Dir>(alloc: Global, dir: &D, key: &Key) -> Result<Option<Links>, LayoutFault>
    ensures found { IfOk result (λ found. (D.device dir.now).is_honest → MatchOption found
        (is_there (D.device dir.now).file key.now ≡ false)
        (λ links. (is_there (D.device dir.now).file key.now ≡ true)
        × AreLinksOf (D.device dir.now).file key.now links)) }
    ensures read { Finds (D.device dir.now) (λ _. IsGood (D.device dir.now).file key.now)
        (IsManifestFault (D.device dir.now) (λ k. k ≡ key.now)) result }
{
    let path = blob_path(alloc, key.digest())?;
    let kind = Kind::of(key.media_type());
    if let Kind::Leaf = kind {
        if dir.exists(&path)? {
            return Ok(Some(Links::none(alloc)));
        }
        return Ok(None);
    }
    let Some(bytes) = read_sized(dir, &path, key.size())? else {
        return Ok(None);
    };
    match lists(alloc, key, kind, bytes.as_slice()) {
        Ok(links) => Ok(Some(links)),
        Err(fault) => Err(fault),
    }
}

/// Returns what the bytes of a manifest list and state.
fn lists(alloc: Global, key: &Key, kind: Kind, bytes: &[u8]) -> Result<Links, LayoutFault>
    requires { kind ≡ kind_of key.now.media_type }
    ensures matching { OnOk result (Matches key.now bytes.now) }
    ensures listed { IfOk result (λ links. succ_of key.now bytes.now ≡ Ok links.successors.items) }
    ensures subject { IfOk result (λ links.
        subject_of (kind_of key.now.media_type) bytes.now ≡ Ok links.subject) }
    ensures undistributed { IfOk result (λ links.
        undistributed_of (kind_of key.now.media_type) bytes.now
        ≡ Ok links.undistributed.items) }
    ensures cause { IfErr result (IsBytesFault key.now bytes.now) }
{
    if !key.matches(bytes) {
        return Err(LayoutFault::Corrupt(key.try_clone()?));
    }
    match read_links(alloc, kind, bytes) {
        Ok(links) => Ok(links),
        Err(fault) => Err(bad_manifest(key.try_clone()?, fault)),
    }
}

/// Returns the fault of a manifest that cannot be read.
fn bad_manifest(key: Key, fault: ManifestFault) -> LayoutFault
    ensures { (bytes : List ℕ) → Matches key bytes → Fails fault (succ_of key bytes)
        → IsBytesFault key bytes result }
{
    match fault {
        ManifestFault::Memory => LayoutFault::Memory,
        _ => LayoutFault::BadManifest(key, fault),
    }
}
