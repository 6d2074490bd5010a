ghost use Rattle.std.specs.Prelude.{◌≡◌, ◌≢◌, [], None, IfOk, IfErr, OnOk};
ghost use Rattle.std.specs.Option.{option_copied};
ghost use Rattle.oci_store.specs.Keyed.{first_missing, has_key};
ghost use Rattle.oci_layout_store.specs.Entries.{said, unreadable_places};
ghost use Rattle.oci_layout_store.specs.Layout.{manifests_of};
ghost use Rattle.oci_prune.specs.Refusal.{ChecksWhole, IsCheckFault, IsLinkFault};

use oci_digest::NoMemory;
use oci_dir::{Dir, PrunableDir};
use oci_layout_store::Layout;
use oci_manifest::Key;
use oci_prune_fault::PruneFault;
use oci_store::Source;

/// Refuses a layout with an absent entry, a damaged manifest that this store does not hold or an
/// entry that is no descriptor, and one whose folders of blobs are links. The store is the layout
/// itself, or what a copy would leave of it.
pub(crate) fn check_whole<S: Source, D: PrunableDir>(
    store: &S,
    layout: &Layout<D>,
) -> Result<(), PruneFault>
    ensures whole { ChecksWhole (S.state store.now).nodes layout.now.opened result }
    ensures linked { layout.now.opened.absent ≡ []
        → first_missing (S.state store.now).nodes (manifests_of layout.now.opened.damaged) ≡ None
        → unreadable_places (said layout.now.opened.content).entries ≡ []
        → (D.device layout.now.dir).is_honest → (D.device layout.now.dir).link ≢ None
        → IfErr result (IsLinkFault (D.device layout.now.dir)) }
    ensures unlinked { OnOk result ((D.device layout.now.dir).is_honest
        → (D.device layout.now.dir).link ≡ None) }
    ensures cause { IfErr result (IsCheckFault (D.device layout.now.dir)
        (S.state store.now).nodes layout.now.opened) }
{
    if let Some(key) = layout.absent().first() {
        return Err(PruneFault::Unknown(key.try_clone()?));
    }
    if let Some(key) = first_damaged(store, layout)? {
        return Err(PruneFault::Unknown(key));
    }
    if let Err(fault) = layout.check_entries() {
        return Err(PruneFault::from(fault));
    }
    match layout.linked()? {
        Some(path) => Err(PruneFault::LinkedBlobs(path)),
        None => Ok(()),
    }
}

/// Returns the first of the manifests that were damaged when a layout was opened which a store does
/// not hold.
pub(crate) fn first_damaged<S: Source, D: Dir>(
    store: &S,
    layout: &Layout<D>,
) -> Result<Option<Key>, NoMemory>
    ensures { IfOk result (λ found. found ≡ first_missing (S.state store.now).nodes
        (manifests_of layout.now.opened.damaged)) }
{
    let damaged = layout.damaged_manifests()?;
    match first_unheld(store, &damaged) {
        Some(key) => Ok(Some(key.try_clone()?)),
        None => Ok(None),
    }
}

/// Returns the first of these keys that a store does not hold.
fn first_unheld<'k, S: Source>(store: &S, keys: &'k [Key]) -> Option<&'k Key>
    ensures { option_copied result ≡ first_missing (S.state store.now).nodes keys.now }
{
    keys.iter().find(|key| !holds(store, *key))
}

/// Returns whether a store holds a key.
fn holds<S: Source>(store: &S, key: &Key) -> bool
    ensures { result ≡ has_key (S.state store.now).nodes key.now }
{
    store.exists(key)
}
