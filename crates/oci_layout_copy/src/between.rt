ghost use Rattle.std.specs.Prelude.{◌≡◌, ◌≢◌, ◌≤◌, ◌⊎◌, ℕ, List, [], Ok, Err, map, Contains, IsOk, IfOk, OnOk, OnErr, IfErr};
ghost use Rattle.std.specs.List.{All};
ghost use Rattle.std.specs.Map.{keys_of, values_of};
ghost use Rattle.oci_store.specs.Closed.{IsClosed};
ghost use Rattle.oci_store.specs.Content.{Entry};
ghost use Rattle.oci_store.specs.Keyed.{HasAll};
ghost use Rattle.oci_store.specs.Tags.{Tags, by_bytes};
ghost use Rattle.oci_copy.specs.Cause.{CanFail, IsStepCause, RefusedAt, RefusedByWorkers};
ghost use Rattle.oci_copy.specs.Grown.{BeginsWith};
ghost use Rattle.oci_copy.specs.Planned.{IsPlanOf};
ghost use Rattle.oci_copy.specs.Report.{IsReport};
ghost use Rattle.oci_layout_store.specs.Brought.{Brings};
ghost use Rattle.oci_layout_store.specs.Entries.{entry_of};
ghost use Rattle.oci_layout_store.specs.Files.{HasFiles};
ghost use Rattle.oci_layout_store.specs.Lasts.{Lasts};
ghost use Rattle.oci_layout_store.specs.Layout.{OnlyIndex};
ghost use Rattle.oci_prune.specs.Settled.{CanSettle, LeavesOneOf};
ghost use Rattle.oci_layout_copy.specs.Between.{BringsOnlyChecked, BringsOnlyMet, HasReached, HoldsWhatCame, IsCopiedBetween, IsSaved, IsTrusted};
ghost use Rattle.oci_layout_copy.specs.Refusal.{AfterRefusedCopy, IsRefusedBetween, IsSaveFault};
ghost use Rattle.oci_layout_store.specs.Index.{index_file};
ghost use Rattle.oci_program.specs.SeenIndex.{OrOtherIndex};
ghost use Rattle.oci_selection.specs.Selected.{set_tags};
ghost use Rattle.oci_layout_copy.specs.Settled.{StartsSettled};

use oci_copy::{CopyFault, Options, Report, copy_plan};
use oci_dir::Dir;
use oci_layout_store::{Layout, OpenedIndex};
use oci_manifest::Key;
use oci_plan::Plan;
use oci_pool::Hooks;
use oci_program::{ProgramFault, SeenIndex};
use oci_selection::Selected;
use oci_store::{Dest, RefFault, Store, Tagger};
use std::sync::Wait;
use std::thread::Threads;

/// Copies the planned blobs from one layout into another, sets the selected tags there, brings the
/// selected entries, and saves it.
///
/// The plan is one that `plan_copy` made of these two layouts, the selected roots and these
/// options. The destination is always returned. `seen` is what its `index.json` had before it was opened.
/// A refused copy is not saved: `index.json` is unchanged, and the files of blobs that arrived stay.
///
/// # Errors
///
/// - 82 `Push` if the destination refuses a blob, and 88 `Fetch` if the source does.
/// - 85 `BadWorkers` if there are more than 64 workers. Nothing is copied.
/// - 110 `IndexChanged` if `index.json` is no longer what was seen.
/// - 74 `Device` if `index.json` could not be read or written, or if it is not known whether it and the
///   copied blobs are on the disk.
/// - Out of memory, at any point.
///
/// A power cut at any moment leaves the destination as it was, or as it is after the copy.
pub fn copy_between<
    R: AllocGlobal + Threads + Wait + Sync,
    S: Dir + Sync,
    D: Dir + Drop + Send,
    H: Hooks + Sync,
>(
    rt: &R,
    source: &Layout<S>,
    destination: Layout<D>,
    seen: &SeenIndex,
    plan: &Plan,
    selected: &Selected,
    options: &Options,
    hooks: &H,
) -> (Layout<D>, Result<Report, ProgramFault>)
where
    S::Draft: Send,
    D::Draft: Send,
    requires { IsPlanOf (⟦<Layout<S> as Store>⟧.state source.now) options.now
        (⟦<Layout<D> as Store>⟧.state destination) selected.now.0 plan.now }
    ensures held { OnOk result.1 (HasAll result.0.graph selected.now.0) }
    ensures workers { OnOk result.1 (options.now.workers ≤ 64) }
    ensures begins { BeginsWith destination.graph result.0.graph }
    ensures came { HoldsWhatCame destination.graph result.0.graph }
    ensures checked { BringsOnlyChecked destination.graph result.0.graph }
    ensures met { BringsOnlyMet (⟦<Layout<S> as Store>⟧.state source.now) destination.graph
        selected.now.0 result.0.graph }
    ensures closed { IsClosed destination.graph → IsClosed result.0.graph }
    ensures report { IfOk result.1 (IsReport options.now.existing
        (⟦<Layout<S> as Store>⟧.state source.now) (⟦<Layout<D> as Store>⟧.state destination)
        selected.now.0 (⟦<Layout<D> as Store>⟧.state result.0)) }
    ensures tagged { OnOk result.1 (result.0.tags ≡ set_tags destination.tags selected.now.1) }
    ensures brought { OnOk result.1 (Brings (map entry_of selected.now.2) result.0.tags
        destination.opened result.0.opened) }
    ensures untagged { IfErr result.1 (AfterRefusedCopy (result.0.tags ≡ destination.tags)) }
    ensures remembered { IfErr result.1 (AfterRefusedCopy
        (result.0.opened ≡ destination.opened)) }
    ensures refused { IfErr result.1 (OrOtherIndex (D.device result.0.dir) seen.now.0
        (IsRefusedBetween (RefusedByWorkers options.now.workers
        (RefusedAt (Contains plan.now.keys) (IsStepCause
        (CanFail ⟦<Layout<D> as Store>⟧.state (⟦<Layout<D> as Store>⟧.state destination))
        (⟦<Layout<S> as Store>⟧.state source.now) (⟦<Layout<D> as Store>⟧.state destination))))
        (λ fault. (before : ℕ) × ((⟦<Layout<D> as Store>⟧.state destination).failures ≤ before)
        × IsSaveFault (D.device result.0.dir).fails_reads before
        (⟦<Layout<D> as Store>⟧.state result.0).failures fault))) }
    ensures reached { OnOk result.1 (HasReached (⟦<Layout<S> as Store>⟧.state source.now)
        (⟦<Layout<D> as Store>⟧.state destination) selected.now.0
        (⟦<Layout<D> as Store>⟧.state result.0)) }
    ensures copied { OnOk result.1 (IsCopiedBetween (⟦<Layout<S> as Store>⟧.state source.now)
        (⟦<Layout<D> as Store>⟧.state destination) selected.now.0
        (⟦<Layout<D> as Store>⟧.state result.0)) }
    ensures sound { IsTrusted (⟦<Layout<S> as Store>⟧.state source.now)
        (⟦<Layout<D> as Store>⟧.state destination) (⟦<Layout<D> as Store>⟧.state result.0)
        → (⟦<Layout<D> as Store>⟧.state result.0).is_sound }
    ensures files { OnOk result.1 (IsTrusted (⟦<Layout<S> as Store>⟧.state source.now)
        (⟦<Layout<D> as Store>⟧.state destination) (⟦<Layout<D> as Store>⟧.state result.0)
        → HasFiles (D.device result.0.dir).file (⟦<Layout<D> as Store>⟧.state result.0).entries
        result.0.graph result.0.tags result.0.opened) }

    // A power cut at any moment leaves the old layout or the new one.
    ensures left { StartsSettled (⟦<Layout<S> as Store>⟧.state source.now)
        (⟦<Layout<D> as Store>⟧.state destination) → LeavesOneOf (D.device result.0.dir)
        (⟦<Layout<D> as Store>⟧.state destination).entries destination.tags
        (⟦<Layout<D> as Store>⟧.state result.0).entries result.0.tags }
    ensures lasts { OnOk result.1 (StartsSettled (⟦<Layout<S> as Store>⟧.state source.now)
        (⟦<Layout<D> as Store>⟧.state destination) → Lasts (D.device result.0.dir)
        (⟦<Layout<D> as Store>⟧.state result.0).entries result.0.tags) }
{
    // The files of the keys that are held now are on the disk, if the layout was saved before.
    let from = destination.count();
    // A copy may change what the destination remembers of its index, as far as its contract says.
    let mut destination = destination;
    let index = destination.take_index();
    let roots = selected.roots();
    let (destination, copied) = copy_plan(
        rt,
        rt.alloc(),
        source,
        destination,
        plan,
        roots,
        options,
        hooks,
    );
    finish(destination, seen, index, from, copied, selected)
}

/// Gives the destination of a copy back what it remembered of its index. Sets the selected tags,
/// brings the selected entries and saves it, unless the copy was refused. The keys before the place
/// `from` were held before the copy.
fn finish<D: Dir>(
    destination: Layout<D>,
    seen: &SeenIndex,
    index: OpenedIndex,
    from: usize,
    copied: Result<Report, CopyFault>,
    selected: &Selected,
) -> (Layout<D>, Result<Report, ProgramFault>)
    requires held { OnOk copied (HasAll destination.graph selected.now.0) }
    ensures report { IfOk result.1 (λ it. copied ≡ Ok it) }
    ensures tagged { OnOk result.1 (result.0.tags ≡ set_tags destination.tags selected.now.1) }
    ensures brought { OnOk result.1 (Brings (map entry_of selected.now.2) result.0.tags index
        result.0.opened) }
    ensures unsaved { OnErr copied (OnlyIndex destination result.0) }
    ensures remembered { OnErr copied (result.0.opened ≡ index) }
    ensures saved { IsSaved (⟦<Layout<D> as Store>⟧.state destination)
        (⟦<Layout<D> as Store>⟧.state result.0) }
    ensures files { OnOk result.1 ((⟦<Layout<D> as Store>⟧.state destination).is_sound
        → HasFiles (D.device result.0.dir).file (⟦<Layout<D> as Store>⟧.state destination).entries
        result.0.graph result.0.tags result.0.opened) }
    ensures refused { IfErr result.1 (OrOtherIndex (D.device result.0.dir) seen.now.0
        (IsRefusedBetween
        (λ fault. (copied ≡ Err fault) ⊎ (IsOk copied × (fault ≡ CopyFault.Memory)))
        (IsSaveFault (D.device result.0.dir).fails_reads (D.device destination.dir).failures
        (D.device result.0.dir).failures))) }
    ensures left { (entries : List Entry) (tags : Tags) → CanSettle (D.device destination.dir)
        from destination.graph entries tags → LeavesOneOf (D.device result.0.dir) entries tags
        (⟦<Layout<D> as Store>⟧.state destination).entries result.0.tags }
    ensures lasts { OnOk result.1 ((entries : List Entry) (tags : Tags)
        → CanSettle (D.device destination.dir) from destination.graph entries tags
        → Lasts (D.device result.0.dir) (⟦<Layout<D> as Store>⟧.state destination).entries
        result.0.tags) }
{
    let mut destination = destination;
    destination.put_index(index);
    match copied {
        Ok(report) => match tag_and_save(&mut destination, seen, selected, from) {
            Ok(()) => (destination, Ok(report)),
            Err(fault) => (destination, Err(fault)),
        },
        Err(fault) => (destination, Err(ProgramFault::Copy(fault))),
    }
}

/// Sets the selected tags in a layout that holds their keys, brings the selected entries, and saves
/// it, if its index is what was seen. It waits for the files of the keys from the place `from` on before
/// it writes the index, so that a power cut leaves no index without them.
fn tag_and_save<D: Dir>(
    destination: &mut Layout<D>,
    seen: &SeenIndex,
    selected: &Selected,
    from: usize,
) -> Result<(), ProgramFault>
    requires held { HasAll destination.old.graph selected.now.0 }
    ensures seen { OnOk result ((D.device destination.old.dir).is_honest
        → (D.device destination.old.dir).file index_file ≡ seen.now.0) }
    ensures tagged { OnOk result (destination.new.tags
        ≡ set_tags destination.old.tags selected.now.1) }
    ensures brought { OnOk result (Brings (map entry_of selected.now.2) destination.new.tags
        destination.old.opened destination.new.opened) }
    ensures saved { IsSaved (⟦<Layout<D> as Store>⟧.state destination.old)
        (⟦<Layout<D> as Store>⟧.state destination.new) }
    ensures files { OnOk result ((⟦<Layout<D> as Store>⟧.state destination.old).is_sound
        → HasFiles (D.device destination.new.dir).file
        (⟦<Layout<D> as Store>⟧.state destination.old).entries destination.new.graph
        destination.new.tags destination.new.opened) }
    ensures refused { IfErr result (OrOtherIndex (D.device destination.new.dir) seen.now.0
        (IsRefusedBetween (λ fault. fault ≡ CopyFault.Memory)
        (IsSaveFault (D.device destination.new.dir).fails_reads
        (D.device destination.old.dir).failures (D.device destination.new.dir).failures))) }
    ensures left { (entries : List Entry) (tags : Tags)
        → CanSettle (D.device destination.old.dir) from destination.old.graph entries tags
        → LeavesOneOf (D.device destination.new.dir) entries tags
        (⟦<Layout<D> as Store>⟧.state destination.old).entries destination.new.tags }
    ensures lasts { OnOk result ((entries : List Entry) (tags : Tags)
        → CanSettle (D.device destination.old.dir) from destination.old.graph entries tags
        → Lasts (D.device destination.new.dir)
        (⟦<Layout<D> as Store>⟧.state destination.old).entries destination.new.tags) }
{
    seen.check(destination.dir())?;
    if let Err(fault) = tag_all(destination, selected.tags()) {
        return Err(ProgramFault::Copy(CopyFault::from(fault)));
    }
    match destination.bring(selected.entries()) {
        Ok(()) => {}
        Err(_) => return Err(ProgramFault::Copy(CopyFault::Memory)),
    }
    match destination.save_settled(from) {
        Ok(()) => Ok(()),
        Err(fault) => Err(ProgramFault::Destination(fault)),
    }
}

/// Sets tags of held keys in their order. Only a memory error is possible, and then some of them
/// may be set.
pub fn tag_all<D: Dir>(destination: &mut Layout<D>, tags: &[(String, Key)]) -> Result<(), RefFault>
    requires named { All (λ (name : List ℕ). name ≢ []) (keys_of (by_bytes tags.now)) }
    requires held { HasAll destination.old.graph (values_of (by_bytes tags.now)) }
    ensures tagged { OnOk result (destination.new.tags ≡ set_tags destination.old.tags
        (by_bytes tags.now)) }
    ensures graph { destination.new.graph ≡ destination.old.graph }
    ensures dir { destination.new.dir ≡ destination.old.dir }
    ensures opened { destination.new.opened ≡ destination.old.opened }
    ensures memory { IfErr result (λ fault. fault ≡ RefFault.Memory) }
{
    for (name, key) in tags {
        match destination.tag(key, name) {
            Ok(()) => {}
            Err(fault) => return Err(fault),
        }
    }
    Ok(())
}
