//! The sources that a mirror may follow.
ghost use Rattle.std.specs.Prelude.{◌≡◌, [], true, OnOk};
ghost use Rattle.std.specs.List.{All};
ghost use Rattle.oci_layout_copy.specs.Mirror.{HoldsListedManifests, IsHeldManifest, IsWholeSource, ListsHeldManifests};

use oci_dir::Dir;
use oci_layout_store::Layout;
use oci_manifest::{Key, Kind};
use oci_program::ProgramFault;
use oci_prune_fault::PruneFault;
use oci_store::{Dest, GraphSource};

/// Refuses a source that a mirror must not follow: a prune of the mirror would remove what the
/// source is not seen to have.
///
/// # Errors
///
/// - 97 `NoTags` if it has no tag.
/// - 96 `Unknown` if the blob of an entry of its index is missing or damaged: the first one. Or else
///   if any other manifest is damaged: the first one.
/// - 73 `BadIndex` if an entry of its index is no descriptor: for the first one.
/// - 96 `Unknown` if the mirror is exact, and a manifest that a held one lists is missing: the first
///   one.
/// - Out of memory.
pub fn check_source<S: Dir>(source: &Layout<S>, is_exact: bool) -> Result<(), ProgramFault>
    ensures { OnOk result (IsWholeSource is_exact source.now) }
{
    if source.tags()?.is_empty() {
        return Err(ProgramFault::Source(PruneFault::NoTags));
    }
    check_all_known(source.absent())?;
    check_all_known(&source.damaged_manifests()?)?;
    match source.check_entries() {
        Ok(()) => check_listed_if(is_exact, source),
        Err(fault) => Err(ProgramFault::Layout(fault)),
    }
}

/// Refuses a source for the first of these keys if there is one, since it is not known what it
/// lists.
fn check_all_known(unknown: &[Key]) -> Result<(), ProgramFault>
    ensures { OnOk result (unknown.now ≡ []) }
{
    match unknown.first() {
        Some(key) => Err(ProgramFault::Source(PruneFault::Unknown(key.try_clone()?))),
        None => Ok(()),
    }
}

/// If the mirror is exact, refuses a source in which a held key lists a manifest that is missing.
fn check_listed_if<S: Dir>(is_exact: bool, source: &Layout<S>) -> Result<(), ProgramFault>
    ensures { OnOk result (is_exact ≡ true → HoldsListedManifests source.now.graph) }
{
    if is_exact {
        check_listed(source)
    } else {
        Ok(())
    }
}

/// Refuses a source in which a held key lists a manifest that is missing: for the first one. It may
/// be attached to an image, and would seem to be withdrawn.
fn check_listed<S: Dir>(source: &Layout<S>) -> Result<(), ProgramFault>
    ensures { OnOk result (HoldsListedManifests source.now.graph) }
{
    for place in 0..source.count() {
        let Some(key) = source.key(place) else {
            unreachable!();
        };
        check_list(source, key)?;
    }
    Ok(())
}

/// Refuses a key that lists a manifest which is missing.
fn check_list<S: Dir>(source: &Layout<S>, key: &Key) -> Result<(), ProgramFault>
    ensures { OnOk result (ListsHeldManifests source.now.graph key.now) }
{
    match source.successors(key)? {
        Some(listed) => check_keys(source, &listed),
        None => Ok(()),
    }
}

/// Refuses the first of these keys that is of a manifest kind and not held.
fn check_keys<S: Dir>(source: &Layout<S>, keys: &[Key]) -> Result<(), ProgramFault>
    ensures { OnOk result (All (IsHeldManifest source.now.graph) keys.now) }
{
    for key in keys {
        check_key(source, key)?;
    }
    Ok(())
}

/// Refuses a key that is of a manifest kind and not held.
fn check_key<S: Dir>(source: &Layout<S>, key: &Key) -> Result<(), ProgramFault>
    ensures { OnOk result (IsHeldManifest source.now.graph key.now) }
{
    if source.has(key) {
        return Ok(());
    }
    match Kind::of(key.media_type()) {
        Kind::Leaf => Ok(()),
        _ => Err(ProgramFault::Source(PruneFault::Unknown(key.try_clone()?))),
    }
}
