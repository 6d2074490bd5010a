//! What a source of a copy must have.
ghost use Rattle.std.specs.Prelude.{◌≡◌, [], true, IfErr, OnOk};
ghost use Rattle.oci_store.specs.Keyed.{has_key};
ghost use Rattle.oci_layout_store.specs.Entries.{said, unreadable_places};
ghost use Rattle.oci_layout_store.specs.Layout.{manifests_of};
ghost use Rattle.oci_entries.specs.Pattern.{texts_of};
ghost use Rattle.oci_selection.specs.Refusal.{IsOtherFault};
ghost use Rattle.oci_selection.specs.Selected.{
  AreNamedHeld,
  HasAllReadable,
  HasEachEntry,
  IsNamedHeld,
};

use oci_dir::Dir;
use oci_entries::is_matching;
use oci_layout_store::{IndexEntry, Layout, unreadable_entry};
use oci_manifest::Key;
use oci_program::ProgramFault;
use oci_prune_fault::PruneFault;
use oci_store::Dest;
use std::alloc::Global;

/// Refuses the first entry that has a name which matches one of the patterns, and no key or one that
/// a layout does not hold.
pub(crate) fn check_entries<D: Dir>(
    alloc: Global,
    layout: &Layout<D>,
    entries: &[IndexEntry],
    patterns: &[&str],
) -> Result<(), ProgramFault>
    ensures held { OnOk result (AreNamedHeld layout.now.graph (texts_of patterns.now) entries.now) }
    ensures refused { IfErr result IsOtherFault }
{
    for (place, entry) in entries.iter().enumerate() {
        check_entry(alloc, layout, place, entry, patterns)?;
    }
    Ok(())
}

/// Refuses the entry at this place if it has a name that matches one of the patterns, and no key or
/// one that a layout does not hold.
fn check_entry<D: Dir>(
    alloc: Global,
    layout: &Layout<D>,
    place: usize,
    entry: &IndexEntry,
    patterns: &[&str],
) -> Result<(), ProgramFault>
    ensures held { OnOk result (IsNamedHeld layout.now.graph (texts_of patterns.now) entry.now) }
    ensures refused { IfErr result IsOtherFault }
{
    if !is_matching(alloc, entry, patterns)? {
        return Ok(());
    }
    match &entry.key {
        Some(key) => check_held(layout, key),
        None => Err(ProgramFault::Layout(unreadable_entry(place))),
    }
}

/// If the images without a tag are asked for, refuses a source that lacks the blob of an entry, or
/// has an entry that is no descriptor.
pub(crate) fn check_each_if<D: Dir>(
    brings_untagged: bool,
    source: &Layout<D>,
) -> Result<(), ProgramFault>
    ensures each { OnOk result (brings_untagged ≡ true → HasEachEntry source.now) }
    ensures refused { IfErr result IsOtherFault }
{
    if brings_untagged {
        check_each(source)
    } else {
        Ok(())
    }
}

/// Refuses a source for the first entry whose blob is missing or damaged, or else for the first that
/// is no descriptor.
fn check_each<D: Dir>(source: &Layout<D>) -> Result<(), ProgramFault>
    ensures each { OnOk result (HasEachEntry source.now) }
    ensures refused { IfErr result IsOtherFault }
{
    check_none_absent(source.absent())?;
    check_descriptors(source)
}

/// Refuses the first of these keys, which are not held, if there is one.
fn check_none_absent(absent: &[Key]) -> Result<(), ProgramFault>
    ensures empty { OnOk result (absent.now ≡ []) }
    ensures refused { IfErr result IsOtherFault }
{
    match absent.first() {
        Some(key) => Err(ProgramFault::Source(PruneFault::Unknown(key.try_clone()?))),
        None => Ok(()),
    }
}

/// Refuses a layout for its first damaged manifest, or else for its first entry that is no
/// descriptor.
pub(crate) fn check_readable<D: Dir>(layout: &Layout<D>) -> Result<(), ProgramFault>
    ensures { OnOk result (HasAllReadable layout.now) }
{
    check_undamaged(layout)?;
    check_descriptors(layout)
}

/// Refuses a layout for its first entry that is no descriptor.
fn check_descriptors<D: Dir>(layout: &Layout<D>) -> Result<(), ProgramFault>
    ensures readable { OnOk result
        (unreadable_places (said layout.now.opened.content).entries ≡ []) }
    ensures refused { IfErr result IsOtherFault }
{
    match layout.check_entries() {
        Ok(()) => Ok(()),
        Err(fault) => Err(ProgramFault::Layout(fault)),
    }
}

/// Refuses a layout that has a damaged manifest, for the first one.
fn check_undamaged<D: Dir>(layout: &Layout<D>) -> Result<(), ProgramFault>
    ensures { OnOk result (manifests_of layout.now.opened.damaged ≡ []) }
{
    let damaged = layout.damaged_manifests()?;
    let Some(key) = damaged.first() else {
        return Ok(());
    };
    match layout.check_file(key) {
        Err(fault) => Err(ProgramFault::Layout(fault)),
        // The file was mended since the layout was opened.
        Ok(()) => Err(ProgramFault::Source(PruneFault::Unknown(key.try_clone()?))),
    }
}

/// Refuses a key that a layout does not hold.
fn check_held<D: Dir>(layout: &Layout<D>, key: &Key) -> Result<(), ProgramFault>
    ensures held { OnOk result (has_key layout.now.graph key.now ≡ true) }
    ensures refused { IfErr result IsOtherFault }
{
    if layout.has(key) {
        return Ok(());
    }
    Err(ProgramFault::Source(PruneFault::Unknown(key.try_clone()?)))
}
