ghost use Rattle.std.specs.Prelude.{◌≡◌, ◌≢◌, [], true, None, IfOk, IfErr, OnOk, string_bytes};
ghost use Rattle.oci_store.specs.Keyed.{HasAll, first_missing};
ghost use Rattle.oci_layout_store.specs.Blobs.{blob_path};
ghost use Rattle.oci_layout_store.specs.Meaning.{meaning};
ghost use Rattle.oci_layout_store.specs.Entries.{said, unreadable_places};
ghost use Rattle.oci_layout_store.specs.Layout.{manifests_of};
ghost use Rattle.oci_prune.specs.After.{after_copy};
ghost use Rattle.oci_prune.specs.Belongs.{AllKnown};
ghost use Rattle.oci_prune.specs.Plan.{AreKept, IsPlanAfter, IsPrunePlan, IsSafe, KeepsEach, KnowsListed, RefersIf, roots_of, roots_with};
ghost use Rattle.oci_prune.specs.Refusal.{ChecksWhole, IsFaultAfter, IsHeldPlanFault, IsLinkFault, IsPlanFaultFrom, IsUntaggedFault};

use crate::after::{AfterCopy, held_after};
use crate::files::plan_files;
use crate::held::{held_keys, keys_without, root_keys};
use crate::kept::plan_keys;
use crate::whole::check_whole;
use oci_digest::{Digest, NoMemory};
use oci_dir::{Dir, PrunableDir};
use oci_layout_store::Layout;
use oci_manifest::Key;
use oci_prune_fault::PruneFault;
use oci_store::Store;
use std::alloc::Global;
use std::collections::BTreeSet;

/// A file under `blobs` that no kept key needs.
#[derive(Drop)]
pub struct PrunedFile {
    /// The digest that the file is named by.
    pub digest: Digest,
    /// The length of the file in bytes.
    pub length: u64,
    /// Whether a held key has the digest.
    pub is_held: bool,
}

/// What a prune of a layout keeps and removes.
#[derive(Drop)]
pub struct PrunePlan {
    /// The kept keys.
    pub kept: BTreeSet<Key>,
    /// The held keys that are removed, in key order.
    pub removed: Vec<Key>,
    /// The files that are removed, in byte order of their paths.
    pub files: Vec<PrunedFile>,
    /// The paths of the drafts that are removed, each with its length in bytes.
    pub drafts: Vec<(String, u64)>,
}

impl PrunedFile {
    /// Returns the path of the file: `blobs`, the algorithm, and the digits.
    ///
    /// # Errors
    ///
    /// Returns [`NoMemory`] if an allocation fails.
    pub fn path(&self, alloc: Global) -> Result<String, NoMemory>
        ensures { IfOk result (λ path. string_bytes path ≡ blob_path self.now.digest) }
    {
        let encoded = self.digest.encoded(alloc)?;
        let algorithm = self.digest.algorithm();
        Ok(format!(in alloc; "blobs/{algorithm}/{encoded}")?)
    }
}

/// Plans a prune of a layout that keeps each held key: what no entry of the index reaches is to be
/// removed. Changes nothing.
///
/// All held keys are kept, so no key is removed. The files under `blobs` are removed that are named
/// by a digest of neither a held key nor one that a held key lists. So the file of a layer that was
/// cut stays if its image does, and so does that of a layer that is not distributed.
///
/// Each manifest is read once. The time grows with the held keys, the keys that they list and the
/// files, times a logarithm, and with the bytes of the manifests.
///
/// # Errors
///
/// - 96 `Unknown` if an entry of the opened index was not held: the first one. Checked first.
/// - 96 `Unknown` if a manifest was damaged when the layout was opened, and is not held now: the
///   first one. It may list what is needed. Checked second.
/// - 73 `BadIndex` if an entry of the opened index is no descriptor: the first one. Checked third.
/// - 98 `LinkedBlobs` if `blobs`, `blobs/sha256` or `blobs/sha512` is a link. Checked fourth.
/// - 96 `Unknown` if a held key lists a key of a manifest kind that is not held.
/// - 77 `BadManifest` if a manifest cannot be read, and 88 `Fetch` if its bytes cannot be fetched.
/// - 74 `Device` if a folder cannot be read.
/// - 89 `Memory` if memory runs out.
pub fn plan_prune<D: PrunableDir>(
    alloc: Global,
    layout: &Layout<D>,
) -> Result<PrunePlan, PruneFault>
    ensures kept { IfOk result (λ plan. KeepsEach layout.now.graph plan) }
    ensures planned { IfOk result (λ plan. IsPrunePlan (D.device layout.now.dir) layout.now.graph
        (roots_of layout.now) plan) }
    ensures known { OnOk result (KnowsListed layout.now.graph) }
    ensures checked { ChecksWhole layout.now.graph layout.now.opened result }
    ensures linked { layout.now.opened.absent ≡ []
        → first_missing layout.now.graph (manifests_of layout.now.opened.damaged) ≡ None
        → unreadable_places (said layout.now.opened.content).entries ≡ []
        → (D.device layout.now.dir).is_honest → (D.device layout.now.dir).link ≢ None
        → IfErr result (IsLinkFault (D.device layout.now.dir)) }
    ensures unlinked { OnOk result ((D.device layout.now.dir).is_honest
        → (D.device layout.now.dir).link ≡ None) }
    ensures cause { IfErr result (IsHeldPlanFault (D.device layout.now.dir) layout.now) }
{
    check_whole(layout, layout)?;
    let held = held_keys(alloc, layout)?;
    let kept = plan_keys(alloc, layout, &held, &held, false)?;
    let files = plan_files(alloc, layout, layout, &held, &kept)?;
    let drafts = layout.leftovers()?;
    // The contract of `tags` states that the key of each tag is held, from which the clause `planned`
    // follows.
    let _ = layout.tags()?;
    Ok(PrunePlan {
        kept,
        removed: Vec::new(alloc),
        files,
        drafts,
    })
}

/// Plans a prune of a layout that keeps what its tags need, and these keys with what belongs to them.
/// Changes nothing. A given key that is not held is passed over if its kind is not that of a manifest.
///
/// The kept keys are the tagged ones, those of the entries that a tag hides, and the given ones, with
/// each kept key the held keys that it lists, and, if `keeps_referrers`, the held manifests whose
/// `subject` has its digest. All other held keys are removed, and the files that
/// [`plan_prune`] would remove if these were not held. Without referrers the kept keys are exactly what
/// is held and reached from the tags, the entries that a tag hides, and the given keys, whatever the
/// bytes of the layout are.
///
/// If `keeps_referrers`, each held manifest of a kind that may have a subject is read once; Docker
/// manifests are not. Then each kept manifest is read once, for its layers that are not distributed.
/// The time grows with the held keys, the keys that they list and the files, times a logarithm, and
/// with the bytes of these manifests.
///
/// # Errors
///
/// - The first four of [`plan_prune`], in its order.
/// - 97 `NoTags` if the layout has no tag. Checked fifth.
/// - 77 `BadManifest` if such a manifest cannot be read, and 88 `Fetch` if its bytes cannot be
///   fetched.
/// - 96 `Unknown` if a given key, or a key that a kept key lists, is of a manifest kind and not held.
pub fn plan_prune_keeping<D: PrunableDir>(
    alloc: Global,
    layout: &Layout<D>,
    keys: &[Key],
    keeps_referrers: bool,
) -> Result<PrunePlan, PruneFault>
    ensures kept { IfOk result (λ plan.
        (keeps_referrers ≡ true → (D.device layout.now.dir).is_honest)
        → AreKept layout.now.graph (roots_with layout.now keys.now) (RefersIf keeps_referrers
        (meaning (D.device layout.now.dir) layout.now.graph layout.now.tags)) plan.kept) }
    ensures planned { IfOk result (λ plan. IsPrunePlan (D.device layout.now.dir) layout.now.graph
        (roots_of layout.now) plan) }
    ensures safe { IfOk result (λ plan. IsSafe layout.now.graph
        (roots_with layout.now keys.now) plan.kept) }
    ensures known { OnOk result ((keeps_referrers ≡ true → (D.device layout.now.dir).is_honest)
        → AllKnown layout.now.graph (roots_with layout.now keys.now) (RefersIf keeps_referrers
        (meaning (D.device layout.now.dir) layout.now.graph layout.now.tags))) }
    ensures tagged { OnOk result (layout.now.tags ≢ []) }
    ensures checked { ChecksWhole layout.now.graph layout.now.opened result }
    ensures linked { layout.now.opened.absent ≡ []
        → first_missing layout.now.graph (manifests_of layout.now.opened.damaged) ≡ None
        → unreadable_places (said layout.now.opened.content).entries ≡ []
        → (D.device layout.now.dir).is_honest → (D.device layout.now.dir).link ≢ None
        → IfErr result (IsLinkFault (D.device layout.now.dir)) }
    ensures unlinked { OnOk result ((D.device layout.now.dir).is_honest
        → (D.device layout.now.dir).link ≡ None) }
    ensures untagged { layout.now.tags ≡ [] → layout.now.opened.absent ≡ []
        → first_missing layout.now.graph (manifests_of layout.now.opened.damaged) ≡ None
        → unreadable_places (said layout.now.opened.content).entries ≡ []
        → (D.device layout.now.dir).is_honest → (D.device layout.now.dir).link ≡ None
        → IfErr result (IsUntaggedFault (D.device layout.now.dir)) }
    ensures cause { IfErr result (IsPlanFaultFrom (D.device layout.now.dir) layout.now
        (roots_with layout.now keys.now) keeps_referrers) }
{
    check_whole(layout, layout)?;
    let roots = root_keys(alloc, layout, keys)?;
    let held = held_keys(alloc, layout)?;
    let kept = plan_keys(alloc, layout, &roots, &held, keeps_referrers)?;
    let removed = keys_without(alloc, &held, &kept)?;
    let files = plan_files(alloc, layout, layout, &held, &kept)?;
    let drafts = layout.leftovers()?;
    Ok(PrunePlan {
        kept,
        removed,
        files,
        drafts,
    })
}

/// Plans the prune of the layout that a copy of these keys from a source would leave, if it is to
/// keep what belongs to these roots. Changes nothing, and copies nothing.
///
/// After the copy the layout holds its own keys, and those of the arriving ones that the source
/// holds. The kept keys are the roots that are then held, with each kept key the held keys that it
/// lists, and, if `keeps_referrers`, the held manifests whose `subject` has its digest. The tags of
/// the layout are no roots: a mirror replaces them, and gives the new ones here. The plan has no
/// drafts: a copy removes what killed ones left.
///
/// # Errors
///
/// Those of [`plan_prune_keeping`] but 97 `NoTags`, in the same order, of the layout after the copy.
/// A damaged manifest that arrives is held after the copy, and does not refuse the plan.
pub fn plan_prune_after<S: Dir, D: PrunableDir>(
    alloc: Global,
    source: &Layout<S>,
    layout: &Layout<D>,
    arriving: &BTreeSet<Key>,
    roots: &[Key],
    keeps_referrers: bool,
) -> Result<PrunePlan, PruneFault>
    ensures planned { IfOk result (IsPlanAfter (D.device layout.now.dir) (after_copy
        (⟦<Layout<S> as Store>⟧.state source.now) arriving.now
        (⟦<Layout<D> as Store>⟧.state layout.now)) roots.now keeps_referrers) }
    ensures whole { OnOk result (layout.now.opened.absent ≡ []) }
    ensures sound { OnOk result (HasAll (after_copy
        (⟦<Layout<S> as Store>⟧.state source.now) arriving.now
        (⟦<Layout<D> as Store>⟧.state layout.now)).nodes
        (manifests_of layout.now.opened.damaged)) }
    ensures readable { OnOk result
        (unreadable_places (said layout.now.opened.content).entries ≡ []) }
    ensures unlinked { OnOk result ((D.device layout.now.dir).is_honest
        → (D.device layout.now.dir).link ≡ None) }
    ensures cause { IfErr result (IsFaultAfter (D.device layout.now.dir) layout.now.opened
        (after_copy (⟦<Layout<S> as Store>⟧.state source.now) arriving.now
        (⟦<Layout<D> as Store>⟧.state layout.now)) roots.now keeps_referrers) }
{
    let after = AfterCopy {
        alloc,
        source,
        destination: layout,
        arriving,
    };
    check_whole(&after, layout)?;
    let held = held_after(&after)?;
    let kept = plan_keys(alloc, &after, roots, &held, keeps_referrers)?;
    let removed = keys_without(alloc, &held, &kept)?;
    let files = plan_files(alloc, &after, layout, &held, &kept)?;
    Ok(PrunePlan {
        kept,
        removed,
        files,
        drafts: Vec::new(alloc),
    })
}
