ghost use Rattle.std.specs.Prelude.{
  ◌≡◌,
  ◌-◌,
  ◌++◌,
  List,
  length,
  map,
  option_map,
  string_bytes,
  Option,
  slice_get,
  Some,
  IfErr,
  IfOk,
  OnOk,
};
ghost use Rattle.std.specs.Io.KnownBytes.{Appends};
ghost use Rattle.oci_manifest.specs.Descriptor.{Descriptor};
ghost use Rattle.oci_layout_store.specs.Brought.{Forgets};
ghost use Rattle.oci_dir.specs.Device.{Touches};
ghost use Rattle.oci_layout_store.specs.Entries.{entry_of, said, text_of, IndexEntry as EntryOfIndex};
ghost use Rattle.oci_layout_store.specs.Index.{index_file, HasIndex};
ghost use Rattle.oci_layout_store.specs.Lasts.{Lasts};
ghost use Rattle.oci_layout_store.specs.Saved.{is_name};
ghost use Rattle.oci_prune.specs.Settled.{CanSettle, LeavesOneOf};
ghost use Rattle.oci_store.specs.Content.{Entry};
ghost use Rattle.oci_store.specs.Tags.{Tags};
ghost use Rattle.oci_prune_commands.specs.Named.{entries_named};
ghost use Rattle.oci_prune_commands.specs.Refusal.{IsRefusedUntag};
ghost use Rattle.oci_prune_commands.specs.Untagged.{
  belonged_lines,
  untagged_lines,
  IsUntagged,
  IsUntagRun,
  LosesName,
  LosesTag,
};

use crate::along::{entry_keys, save_without};
use oci_command_line::UntagWords;
use oci_digest::NoMemory;
use oci_dir::Dir;
use oci_folder::{FolderLock, Lockable};
use oci_layout_store::{IndexEntry, Layout};
use oci_manifest::Key;
use oci_program::{
    Form, Outcome, ProgramFault, SeenIndex, check_is_layout, lock_folder, open_settled,
    print_answer,
};
use oci_store::{Dest, RefFault, Store, Untagger};
use serde::Serialize;
use std::alloc::Global;
use std::fmt;
use std::fmt::Display;
use std::io::Write;
use std::rt::Files;

/// `untag FOLDER TAG`: removes a tag from the layout in a directory, with the entries of what belonged
/// to it alone, and saves it. A tag whose last entry in `index.json` has no file, or a damaged one, or
/// is no descriptor, is removed too; then nothing goes along. The
/// directory is the words' folder, which is locked from before the layout is opened until after it is
/// saved. Prints in this form the keys of the entries that had the tag; the last one is the key that
/// it named. An entry that is no descriptor has none. The keys of the other entries that went follow.
/// `F` is [`ProgramFault`] or another type that is
/// made from one. A power cut at any moment leaves the layout with the tag or without it; this is a
/// clause of [`untag_and_save`], its core.
///
/// # Errors
///
/// With all but 74 and 94 nothing is changed.
///
/// - 70 to 74 if the directory has no layout, or it cannot be read, or its index is no object with a
///   list `manifests`; 74 also if the folder cannot be locked, if `index.json` cannot be written, or
///   if it is not known whether it is on the disk, before the tag is removed or after.
/// - 99 `Locked` if another process has the lock, and the words say not to wait.
/// - 110 `IndexChanged` if another program wrote `index.json` while the layout was opened.
/// - 35 `EmptyReference` if the tag is empty, and 36 `UnknownReference` if no entry has it.
/// - 94 `Output` if `out` cannot be written. The tag is removed.
/// - Out of memory, at any point.
pub fn run_untag<
    R: Files<File: Lockable> + AllocGlobal,
    D: Dir + Drop,
    W: Write,
    X: Write,
    F: From<ProgramFault>,
>(
    rt: &R,
    dir: D,
    words: &UntagWords<'_>,
    form: Form,
    out: &mut W,
    err: &mut X,
) -> Result<Outcome, F>
    ensures good { IfOk result (λ outcome. outcome ≡ Outcome.Good) }

    // The layout in the directory was opened, and left without the tag and what belonged to it
    // alone, and all else stays. As lines, the answer is that of each entry that went.
    ensures untagged { OnOk result ((key : Option Descriptor) × (keys : List (Option Descriptor))
        × (belonged : List Descriptor)
        × IsUntagRun D.device dir words.now.tag.now key keys belonged
        × (form ≡ Form.Lines → Appends (W.contents out.old) (W.contents out.new)
        (untagged_lines keys ++ belonged_lines belonged))) }
{
    let untagged = untag_folder(rt, dir, words, err)?;
    Ok(print_answer(rt.alloc(), &untagged, form, out)?)
}

/// The tag that was removed. `Display` prints each key of `descriptors` on a line, and `-` in the
/// place of no key, and then each key of `belonged`.
#[derive(Drop, Serialize)]
struct Untagged {
    tag: String,
    /// The key that the tag named. `None` if its last entry is no descriptor.
    descriptor: Option<Key>,
    /// The keys of the entries that went with the tag, in the order of the index. The last one is
    /// that of the tag.
    descriptors: Vec<Option<Key>>,
    /// The keys of the other entries that went, since they belonged to the tag alone, in the order of
    /// the index.
    belonged: Vec<Key>,
}

impl Display for Untagged {
    ghost use Rattle.std.specs.Prelude.{◌++◌, Some};
    ghost use Rattle.oci_prune_commands.specs.Untagged.{belonged_lines, untagged_lines};

    ghost output = { λ u. Some (untagged_lines u.descriptors.items
        ++ belonged_lines u.belonged.items) };

    fn fmt<W: fmt::Write>(&self, f: &mut fmt::Formatter<W>) -> fmt::Result {
        write!(
            f,
            "{}{}",
            GoneEntries(&self.descriptors),
            Belonged(&self.belonged)
        )
    }
}

/// The entries that had the tag, by their keys. `Display` prints a line for each.
#[derive(Clone, Copy)]
struct GoneEntries<'k>(&'k [Option<Key>]);

impl Display for GoneEntries<'_> {
    ghost use Rattle.std.specs.Prelude.{Some};
    ghost use Rattle.oci_prune_commands.specs.Untagged.{untagged_lines};

    ghost output = { λ e. Some (untagged_lines e.0.now) };

    fn fmt<W: fmt::Write>(&self, f: &mut fmt::Formatter<W>) -> fmt::Result {
        for key in self.0 {
            write!(f, "{}", GoneEntry(key))?;
        }
        Ok(())
    }
}

/// The other entries that went, by their keys. `Display` prints a line for each.
#[derive(Clone, Copy)]
struct Belonged<'k>(&'k [Key]);

impl Display for Belonged<'_> {
    ghost use Rattle.std.specs.Prelude.{Some};
    ghost use Rattle.oci_prune_commands.specs.Untagged.{belonged_lines};

    ghost output = { λ e. Some (belonged_lines e.0.now) };

    fn fmt<W: fmt::Write>(&self, f: &mut fmt::Formatter<W>) -> fmt::Result {
        for key in self.0 {
            writeln!(f, "untagged {key}")?;
        }
        Ok(())
    }
}

/// An entry that went, by its key. `Display` prints its line.
#[derive(Clone, Copy)]
struct GoneEntry<'k>(&'k Option<Key>);

impl Display for GoneEntry<'_> {
    ghost use Rattle.std.specs.Prelude.{Some};
    ghost use Rattle.oci_prune_commands.specs.Untagged.{untagged_line};

    ghost output = { λ e. Some (untagged_line e.0.now) };

    fn fmt<W: fmt::Write>(&self, f: &mut fmt::Formatter<W>) -> fmt::Result {
        match self.0 {
            Some(key) => writeln!(f, "untagged {key}"),
            None => writeln!(f, "untagged -"),
        }
    }
}

/// Locks the folder of a layout, and removes a tag from the layout.
fn untag_folder<R: Files<File: Lockable> + AllocGlobal, D: Dir + Drop, X: Write>(
    rt: &R,
    dir: D,
    words: &UntagWords<'_>,
    err: &mut X,
) -> Result<Untagged, ProgramFault>
    ensures tag { IfOk result (λ answer. string_bytes answer.tag ≡ words.now.tag.now) }
    ensures untagged { IfOk result (λ answer. IsUntagRun D.device dir words.now.tag.now
        answer.descriptor answer.descriptors.items answer.belonged.items) }
{
    check_is_layout(&dir)?;
    let lock = lock_folder(rt, words.folder, dir.first_failure(), words.waits, err)?;
    untag_under_lock(rt.alloc(), dir, words.tag, &lock)
}

/// Opens the layout in a locked folder, and removes a tag from it.
fn untag_under_lock<R: Files + AllocGlobal, D: Dir + Drop>(
    alloc: Global,
    dir: D,
    tag: &str,
    _lock: &FolderLock<R>,
) -> Result<Untagged, ProgramFault>
    ensures tag { IfOk result (λ answer. string_bytes answer.tag ≡ tag.now) }
    ensures untagged { IfOk result (λ answer. IsUntagRun D.device dir tag.now answer.descriptor
        answer.descriptors.items answer.belonged.items) }
{
    let seen = SeenIndex::of(&dir)?;
    let mut layout = open_settled(alloc, dir)?;
    seen.check(layout.dir())?;
    untag_layout(alloc, &mut layout, tag)
}

/// Removes a tag from a layout, or forgets the entries of a name that is no tag. Saves the layout.
fn untag_layout<D: Dir>(
    alloc: Global,
    layout: &mut Layout<D>,
    tag: &str,
) -> Result<Untagged, ProgramFault>
    ensures tag { IfOk result (λ answer. string_bytes answer.tag ≡ tag.now) }
    ensures untagged { IfOk result (λ answer. IsUntagged D.device tag.now layout.old layout.new
        answer.descriptor answer.descriptors.items answer.belonged.items) }
{
    let name = String::from_str(alloc, tag)?;
    let named = entries_named(alloc, layout, tag)?;
    let descriptors = keys_of(alloc, &named)?;
    let (descriptor, belonged) = remove_name(alloc, layout, tag, &named)?;
    Ok(Untagged {
        tag: name,
        descriptor,
        descriptors,
        belonged,
    })
}

/// Removes a tag, or forgets the entries of a name that is no tag, which are these. Returns the key
/// that the name had, and the keys of the other entries that went.
fn remove_name<D: Dir>(
    alloc: Global,
    layout: &mut Layout<D>,
    name: &str,
    named: &[IndexEntry],
) -> Result<(Option<Key>, Vec<Key>), ProgramFault>
    requires { map entry_of named.now
        ≡ entries_named name.now (said layout.old.opened.content).entries }
    ensures { IfOk result (λ gone. LosesName D.device name.now layout.old layout.new gone.0
        gone.1.items) }
{
    match untag_and_save(alloc, layout, name, named) {
        Ok((key, belonged)) => Ok((Some(key), belonged)),
        Err(ProgramFault::Reference(RefFault::UnknownReference)) => {
            Ok((forget_and_save(layout, named)?, Vec::new(alloc)))
        }
        Err(fault) => Err(fault),
    }
}

/// Returns the entries that a layout remembers with a name, in the order of the index.
fn entries_named<D: Dir>(
    alloc: Global,
    layout: &Layout<D>,
    name: &str,
) -> Result<Vec<IndexEntry>, NoMemory>
    ensures { IfOk result (λ named. map entry_of named.items
        ≡ entries_named name.now (said layout.now.opened.content).entries) }
{
    let entries = layout.entries();
    let mut named = Vec::new(alloc);
    for entry in entries {
        if !has_name(entry, name) {
            continue;
        }
        named.push(entry.try_clone()?)?;
    }
    Ok(named)
}

/// Returns the keys of entries. An entry that is no descriptor has none.
fn keys_of(alloc: Global, entries: &[IndexEntry]) -> Result<Vec<Option<Key>>, NoMemory>
    ensures { IfOk result (λ keys. keys.items
        ≡ map (λ (e : EntryOfIndex). e.key) (map entry_of entries.now)) }
{
    let mut keys = Vec::new(alloc);
    for entry in entries {
        keys.push(copy_of(&entry.key)?)?;
    }
    Ok(keys)
}

/// Returns an equal key, if there is one.
fn copy_of(key: &Option<Key>) -> Result<Option<Key>, NoMemory>
    ensures { IfOk result (λ copy. copy ≡ key.now) }
{
    match key {
        Some(key) => Ok(Some(key.try_clone()?)),
        None => Ok(None),
    }
}

/// Returns whether an entry has a name.
pub(crate) fn has_name(entry: &IndexEntry, name: &str) -> bool
    ensures { result ≡ is_name name.now (text_of entry.now.name) }
{
    match &entry.name {
        Some(found) => found.as_str() == name,
        None => false,
    }
}

/// Removes a tag from a layout with what belonged to it alone, and saves the layout. `named` has the
/// entries with its name. Returns the key that the tag named, and the keys of the other entries that
/// went. [`plan_untag`](oci_prune::plan_untag) says what goes along: nothing, if it is not known what
/// each held key lists. If the tag cannot be removed, nothing is changed and nothing is saved.
///
/// # Errors
///
/// - 35 `EmptyReference` if the tag is empty, and 36 `UnknownReference` if there is no such tag.
/// - 77 `BadManifest` if a held manifest that may have a subject cannot be read, and 88 `Fetch` if its
///   bytes cannot be fetched; not if the layout [remembers](Layout::subjects) the subjects. The tag is
///   removed from the layout in memory, and nothing is saved.
/// - 74 `Device` if `index.json` could not be written, or if it is not known whether it is on the
///   disk. The tag is removed from the layout in memory, with what belonged to it.
/// - Out of memory, at any point. The layout in memory may have lost the tag, and then also the tags of
///   what belonged to it, or all of that.
pub fn untag_and_save<D: Dir>(
    alloc: Global,
    layout: &mut Layout<D>,
    tag: &str,
    named: &[IndexEntry],
) -> Result<(Key, Vec<Key>), ProgramFault>
    requires { map entry_of named.now
        ≡ entries_named tag.now (said layout.old.opened.content).entries }
    ensures lost { IfOk result (λ gone. LosesTag D.device tag.now layout.old layout.new
        (Some gone.0) gone.1.items) }
    ensures other { (D.device layout.old.dir).is_honest
        → Touches (D.device layout.old.dir).file (D.device layout.new.dir).file index_file }
    ensures refused { IfErr result (IsRefusedUntag D.device tag.now layout.old layout.new) }

    // A power cut at any moment leaves the layout with the tag and all that it had, or without it.
    ensures left { (entries : List Entry) (tags : Tags) → CanSettle (D.device layout.old.dir)
        (length layout.old.graph) layout.old.graph entries tags
        → LeavesOneOf (D.device layout.new.dir) entries tags
        (⟦<Layout<D> as Store>⟧.state layout.new).entries layout.new.tags }
{
    let going = entry_keys(alloc, named)?;
    let key = match layout.untag(tag) {
        Ok(key) => key,
        Err(fault) => return Err(ProgramFault::Reference(fault)),
    };
    let belonged = save_without(alloc, layout, tag, &going)?;
    Ok((key, belonged))
}

/// Forgets the entries that have the name of one of these, and saves the layout. Returns the key of
/// the last one, which has none if it is no descriptor. It is for a name that is no tag since the key
/// of its last entry is not held, or that entry has none. A tag stays.
///
/// # Errors
///
/// - 36 `UnknownReference` if there are no such entries. Nothing is changed and nothing is saved.
/// - 74 `Device` if `index.json` could not be written, or if it is not known whether it is on the
///   disk. The layout in memory has forgotten them.
/// - Out of memory, at any point.
pub fn forget_and_save<D: Dir>(
    layout: &mut Layout<D>,
    named: &[IndexEntry],
) -> Result<Option<Key>, ProgramFault>
    ensures last { IfOk result (λ key. Some key ≡ option_map (λ e. e.key)
        (slice_get named.now (length named.now - 1))) }
    ensures forgotten { OnOk result (Forgets (map entry_of named.now) layout.old.opened
        layout.new.opened) }
    ensures saved { OnOk result ((D.device layout.old.dir).is_honest
        → HasIndex (D.device layout.new.dir).file layout.old.graph layout.old.tags
        layout.new.opened) }
    ensures graph { layout.new.graph ≡ layout.old.graph }
    ensures tags { layout.new.tags ≡ layout.old.tags }
    ensures other { (D.device layout.old.dir).is_honest
        → Touches (D.device layout.old.dir).file (D.device layout.new.dir).file index_file }

    // A power cut at any moment leaves the layout with the same blobs and tags.
    ensures left { (entries : List Entry) (tags : Tags) → CanSettle (D.device layout.old.dir)
        (length layout.old.graph) layout.old.graph entries tags
        → LeavesOneOf (D.device layout.new.dir) entries tags
        (⟦<Layout<D> as Store>⟧.state layout.new).entries layout.new.tags }
    ensures lasts { OnOk result ((entries : List Entry) (tags : Tags)
        → CanSettle (D.device layout.old.dir) (length layout.old.graph) layout.old.graph entries
        tags → Lasts (D.device layout.new.dir)
        (⟦<Layout<D> as Store>⟧.state layout.new).entries layout.new.tags) }
{
    let Some(last) = named.last() else {
        return Err(ProgramFault::Reference(RefFault::UnknownReference));
    };
    let key = copy_of(&last.key)?;
    layout.forget(named)?;
    let count = layout.count();
    if let Err(fault) = layout.save_settled(count) {
        return Err(ProgramFault::Layout(fault));
    }
    Ok(key)
}
