ghost use Rattle.std.specs.Prelude.{◌≡◌, ◌⊎◌, List, None, Some, IfSome, IfOk, length, map, string_bytes};
ghost use Rattle.oci_layout_store.specs.Blobs.{blob_path};
ghost use Rattle.oci_dir.specs.Device.{Same};
ghost use Rattle.oci_layout_store.specs.Lasts.{Lasts};
ghost use Rattle.oci_dir.specs.Prunable.{by_name};
ghost use Rattle.oci_prune.specs.Pruned.{is_gone, AllAmong, AreApart, AreDraftsGone, IsDraftIn, IsGone, IsNone, IsOfNoEntry, IsOfNoKey, IsPathAmong, IsThere, Removal, RemovesDrafts, RemovesIf, flagged};
ghost use Rattle.oci_prune.specs.Refusal.{IsNotRemoved};
ghost use Rattle.oci_store.specs.Content.{Entry};
ghost use Rattle.oci_store.specs.Tags.{Tags};

use crate::plan::PrunedFile;
use oci_digest::NoMemory;
use oci_dir::PrunableDir;
use oci_layout_store::{Layout, LayoutFault};
use oci_prune_fault::PruneFault;
use std::alloc::Global;

/// Removes those of some files that a held key has, or those that none has, and notes which of them
/// were removed, and the first fault. No key of the layout needs them.
pub(crate) fn remove_files<D: PrunableDir>(
    alloc: Global,
    layout: &mut Layout<D>,
    files: &[PrunedFile],
    are_held: bool,
    gone: &mut Vec<bool>,
    fault: &mut Option<PruneFault>,
)
    requires unneeded { (D.device layout.old.dir).is_honest
        → AllAmong are_held (IsOfNoKey layout.old.graph) files.now }
    requires there { (D.device layout.old.dir).is_honest
        → AllAmong are_held (IsThere (D.device layout.old.dir).file) files.now }
    requires apart { (D.device layout.old.dir).is_honest → AreApart files.now }
    requires noted { length gone.old.items ≡ length files.now }
    ensures removal { Removal D.device layout.old layout.new (IsPathAmong are_held files.now)
        (IsPathAmong are_held files.now) fault.old fault.new }
    ensures removed { fault.new ≡ None → (D.device layout.old.dir).is_honest
        → AllAmong are_held (IsGone (D.device layout.new.dir).file) files.now }
    ensures flags { (D.device layout.old.dir).is_honest
        → gone.old.items ≡ map (is_gone (D.device layout.old.dir).file) files.now
        → gone.new.items ≡ map (is_gone (D.device layout.new.dir).file) files.now }
    ensures noted { length gone.new.items ≡ length files.now }
    ensures drafts { (D.device layout.old.dir).is_honest
        → Same (D.device layout.old.dir).draft (D.device layout.new.dir).draft }
    ensures lasts { (entries : List Entry) (tags : Tags)
        → AllAmong are_held (IsOfNoEntry entries) files.now
        → Lasts (D.device layout.old.dir) entries tags
        → Lasts (D.device layout.new.dir) entries tags }
{
    for place in 0..files.len() {
        gone[place] = remove_file(alloc, layout, &files[place], are_held, gone[place], fault);
    }
}

/// Removes a file if a held key has it, or if none has, as the flag says, and notes the fault if it is
/// the first one. Returns whether the file was removed, now or before.
fn remove_file<D: PrunableDir>(
    alloc: Global,
    layout: &mut Layout<D>,
    file: &PrunedFile,
    are_held: bool,
    was_removed: bool,
    fault: &mut Option<PruneFault>,
) -> bool
    requires unneeded { (D.device layout.old.dir).is_honest → file.now.is_held ≡ are_held
        → IsOfNoKey layout.old.graph file.now }
    ensures removal { Removal D.device layout.old layout.new
        (λ path. (file.now.is_held ≡ are_held) × (blob_path file.now.digest ≡ path))
        (λ path. (file.now.is_held ≡ are_held) × (blob_path file.now.digest ≡ path))
        fault.old fault.new }
    ensures removed { fault.new ≡ None → (D.device layout.old.dir).is_honest
        → file.now.is_held ≡ are_held → IsGone (D.device layout.new.dir).file file.now }
    ensures flag { (D.device layout.old.dir).is_honest
        → (file.now.is_held ≡ are_held → IsThere (D.device layout.old.dir).file file.now)
        → was_removed ≡ is_gone (D.device layout.old.dir).file file.now
        → result ≡ is_gone (D.device layout.new.dir).file file.now }
    ensures drafts { (D.device layout.old.dir).is_honest
        → Same (D.device layout.old.dir).draft (D.device layout.new.dir).draft }
    ensures lasts { (entries : List Entry) (tags : Tags)
        → (file.now.is_held ≡ are_held → IsOfNoEntry entries file.now)
        → Lasts (D.device layout.old.dir) entries tags
        → Lasts (D.device layout.new.dir) entries tags }
{
    if file.is_held != are_held {
        return was_removed;
    }
    match layout.remove_blob(&file.digest) {
        Ok(found) => found,
        Err(refused) => {
            keep_first(fault, not_removed(file.path(alloc), refused));
            false
        }
    }
}

/// Removes drafts that killed processes left, and notes which of them were removed, and the first
/// fault. No file of the layout is changed.
pub(crate) fn remove_drafts<D: PrunableDir>(
    alloc: Global,
    layout: &mut Layout<D>,
    drafts: &[(String, u64)],
    gone: &mut Vec<bool>,
    fault: &mut Option<PruneFault>,
)
    requires noted { length gone.old.items ≡ length drafts.now }
    ensures removal { Removal D.device layout.old layout.new IsNone
        (IsDraftIn (by_name drafts.now)) fault.old fault.new }
    ensures removed { fault.new ≡ None → (D.device layout.old.dir).is_honest
        → AreDraftsGone (D.device layout.new.dir).draft (by_name drafts.now) }
    ensures flags { (D.device layout.old.dir).is_honest → RemovesDrafts
        (D.device layout.old.dir).draft (D.device layout.new.dir).draft
        (flagged (by_name drafts.now) gone.new.items) }
    ensures noted { length gone.new.items ≡ length drafts.now }
    ensures lasts { (entries : List Entry) (tags : Tags)
        → Lasts (D.device layout.old.dir) entries tags
        → Lasts (D.device layout.new.dir) entries tags }
{
    for place in 0..drafts.len() {
        gone[place] = remove_draft(alloc, layout, drafts[place].0.as_str(), fault);
    }
}

/// Removes a draft, unless a process is writing it, and notes the fault if it is the first one.
/// Returns whether the draft was removed.
fn remove_draft<D: PrunableDir>(
    alloc: Global,
    layout: &mut Layout<D>,
    path: &str,
    fault: &mut Option<PruneFault>,
) -> bool
    ensures removal { Removal D.device layout.old layout.new IsNone (λ named. path.now ≡ named)
        fault.old fault.new }
    ensures removed { fault.new ≡ None → (D.device layout.old.dir).is_honest
        → (D.device layout.new.dir).draft path.now ≡ None }
    ensures flag { (D.device layout.old.dir).is_honest → RemovesIf result
        (D.device layout.old.dir).draft (D.device layout.new.dir).draft path.now }
    ensures lasts { (entries : List Entry) (tags : Tags)
        → Lasts (D.device layout.old.dir) entries tags
        → Lasts (D.device layout.new.dir) entries tags }
{
    match layout.remove_leftover(path) {
        Ok(found) => found,
        Err(refused) => {
            keep_first(fault, not_removed(copied(alloc, path), refused));
            false
        }
    }
}

/// Returns a copy of a path.
fn copied(alloc: Global, path: &str) -> Result<String, NoMemory>
    ensures { IfOk result (λ copy. string_bytes copy ≡ path.now) }
{
    Ok(String::from_str(alloc, path)?)
}

/// Returns the fault of a prune for a file that was not removed.
fn not_removed(path: Result<String, NoMemory>, fault: LayoutFault) -> PruneFault
    ensures { IsNotRemoved path fault result }
{
    match fault {
        LayoutFault::Memory => PruneFault::Memory,
        _ => match path {
            Ok(path) => PruneFault::NotRemoved(path),
            Err(_) => PruneFault::Memory,
        },
    }
}

/// Keeps a fault if it is the first one.
fn keep_first(first: &mut Option<PruneFault>, fault: PruneFault)
    ensures some { first.new ≡ None → ⊥ }
    ensures stays { IfSome first.old (λ e. first.new ≡ Some e) }
    ensures noted { IfSome first.new (λ e. (first.old ≡ Some e) ⊎ (e ≡ fault)) }
{
    if first.is_none() {
        *first = Some(fault);
    }
}
