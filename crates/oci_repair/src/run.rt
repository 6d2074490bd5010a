ghost use Rattle.std.specs.Prelude.{◌≡◌, ◌↔◌, ◌⊎◌, ◌∷◌, [], ℕ, List, true, map, Some, IfErr, OnOk};
ghost use Rattle.std.specs.List.{All};
ghost use Rattle.oci_layout_store.specs.Layout.{SameMemory};
ghost use Rattle.oci_store.specs.Content.{Matches};
ghost use Rattle.oci_repair.specs.Fault.{IsMendFault};
ghost use Rattle.oci_repair.specs.Repaired.{size_in, ArePut, HasMatch, IsOldOrMatch, IsOldOrOf};
ghost use Rattle.oci_repair.specs.Sources.{device_in, AnyFails};

use crate::blob::copy_blob;
use crate::fault::RepairFault;
use crate::source::RepairSource;
use oci_digest::Digest;
use oci_dir::Dir;
use oci_layout_store::{Layout, LayoutFault};
use oci_manifest::Key;
use oci_store::PartWatcher;
use std::alloc::Global;
use std::collections::BTreeMap;

/// Puts the files of these keys in a layout, each from the source at its place. A file is replaced
/// as a whole, once for keys that share a digest. The held keys, the tags and what the index says
/// stay. The watcher is told of each part.
///
/// # Errors
///
/// - 88 [`RepairFault::Changed`] if the file of a source does not match its key any more, or there
///   is no such source.
/// - 22 [`RepairFault::Source`] if a file of a source could not be read.
/// - 74 [`RepairFault::Layout`] if a file could not be put.
/// - 63 [`RepairFault::Memory`] if memory runs out.
///
/// The files that were put before stay, and no other file has changed.
pub fn repair<D: Dir, F: Dir, A: Dir, P: PartWatcher>(
    alloc: Global,
    layout: &mut Layout<D>,
    sources: &[RepairSource<F, A>],
    mends: &[(Key, usize)],
    watcher: &P,
) -> Result<(), RepairFault>
    ensures repaired { OnOk result ((D.device layout.old.dir).is_honest
        → All (λ m. HasMatch (D.device layout.new.dir).file m.0) mends.now) }
    ensures whole { (D.device layout.old.dir).is_honest
        → IsOldOrMatch (D.device layout.old.dir).file (D.device layout.new.dir).file
        (map (λ m. m.0) mends.now) }
    ensures memory { SameMemory layout.old layout.new }
    ensures honest { (D.device layout.old.dir).is_honest ↔ (D.device layout.new.dir).is_honest }
    ensures cause { IfErr result (IsMendFault (map (λ m. m.0) mends.now)
        (AnyFails F.device A.device sources.now)) }
{
    let mut put = BTreeMap::new(alloc);
    for (key, place) in mends {
        mend(alloc, layout, sources, key, *place, &mut put, watcher)?;
    }
    Ok(())
}

/// Puts the file of a key from the source at a place, unless a file of its digest was put.
fn mend<D: Dir, F: Dir, A: Dir, P: PartWatcher>(
    alloc: Global,
    layout: &mut Layout<D>,
    sources: &[RepairSource<F, A>],
    key: &Key,
    place: usize,
    put: &mut BTreeMap<Digest, u64>,
    watcher: &P,
) -> Result<(), RepairFault>
    ensures put { OnOk result ((D.device layout.old.dir).is_honest
        → ArePut (D.device layout.old.dir).file put.old
        → ArePut (D.device layout.new.dir).file put.new) }
    ensures noted { OnOk result (size_in put.new key.now.digest ≡ Some key.now.size) }
    ensures stay { (digest : List ℕ) (size : ℕ) → size_in put.old digest ≡ Some size
        → size_in put.new digest ≡ Some size }
    ensures whole { (D.device layout.old.dir).is_honest
        → IsOldOrOf (D.device layout.old.dir).file (D.device layout.new.dir).file key.now }
    ensures memory { SameMemory layout.old layout.new }
    ensures honest { (D.device layout.old.dir).is_honest ↔ (D.device layout.new.dir).is_honest }
    ensures cause { IfErr result (IsMendFault (key.now ∷ [])
        (AnyFails F.device A.device sources.now)) }
{
    match put.get(key.digest()) {
        Some(size) if *size == key.size() => return Ok(()),
        Some(_) => return Err(RepairFault::Changed(key.try_clone()?)),
        None => {}
    }
    let Some(source) = sources.get(place) else {
        return Err(RepairFault::Changed(key.try_clone()?));
    };
    put_from(alloc, layout, source, key, watcher)?;
    match put.insert(*key.digest(), key.size()) {
        Ok(_) => Ok(()),
        Err(_) => Err(RepairFault::Memory),
    }
}

/// Puts the file of a key from a source.
fn put_from<D: Dir, F: Dir, A: Dir, P: PartWatcher>(
    alloc: Global,
    layout: &mut Layout<D>,
    source: &RepairSource<F, A>,
    key: &Key,
    watcher: &P,
) -> Result<(), RepairFault>
    ensures put { OnOk result ((D.device layout.old.dir).is_honest
        → HasMatch (D.device layout.new.dir).file key.now) }
    ensures whole { (D.device layout.old.dir).is_honest
        → IsOldOrOf (D.device layout.old.dir).file (D.device layout.new.dir).file key.now }
    ensures memory { SameMemory layout.old layout.new }
    ensures honest { (D.device layout.old.dir).is_honest ↔ (D.device layout.new.dir).is_honest }
    ensures cause { IfErr result (IsMendFault (key.now ∷ [])
        ((device_in F.device A.device source.now).fails_reads ≡ true)) }
{
    let mut draft = layout.fresh_draft(key)?;
    let copied = match source {
        RepairSource::Folder(dir) => copy_blob(alloc, dir, key, &mut draft, watcher),
        RepairSource::Archive(dir) => copy_blob(alloc, dir, key, &mut draft, watcher),
    };
    match copied {
        Ok(true) => put_draft(layout, key, draft),
        Ok(false) => Err(RepairFault::Changed(key.try_clone()?)),
        Err(fault) => Err(RepairFault::of_source(fault)),
    }
}

/// Puts a draft that matches a key in the place of its file.
fn put_draft<D: Dir>(layout: &mut Layout<D>, key: &Key, draft: D::Draft) -> Result<(), RepairFault>
    requires matching { D.Draft.is_lost draft
        ⊎ ((bytes : List ℕ) × D.Draft.drafted draft bytes × Matches key.now bytes) }
    ensures put { OnOk result ((D.device layout.old.dir).is_honest
        → HasMatch (D.device layout.new.dir).file key.now) }
    ensures whole { (D.device layout.old.dir).is_honest
        → IsOldOrOf (D.device layout.old.dir).file (D.device layout.new.dir).file key.now }
    ensures memory { SameMemory layout.old layout.new }
    ensures honest { (D.device layout.old.dir).is_honest ↔ (D.device layout.new.dir).is_honest }
    ensures cause { IfErr result (λ e. (e ≡ RepairFault.Layout) ⊎ (e ≡ RepairFault.Memory)) }
{
    match layout.replace_draft(key, draft) {
        Ok(()) => Ok(()),
        Err(LayoutFault::Memory) => Err(RepairFault::Memory),
        Err(_) => Err(RepairFault::Layout),
    }
}
