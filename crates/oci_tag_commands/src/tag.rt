ghost use Rattle.std.specs.Prelude.{◌≡◌, List, length, map, true, string_bytes, IfErr, IfOk, OnOk};
ghost use Rattle.std.specs.Io.KnownBytes.{Appends};
ghost use Rattle.std.specs.List.{All};
ghost use Rattle.std.specs.Map.{keys_of};
ghost use Rattle.oci_manifest.specs.Descriptor.{Descriptor};
ghost use Rattle.oci_layout_store.specs.Brought.{Brings, IsShallowEntry};
ghost use Rattle.oci_dir.specs.Device.{Touches};
ghost use Rattle.oci_layout_store.specs.Entries.{entry_of, said};
ghost use Rattle.oci_layout_store.specs.Index.{index_file, HasIndex};
ghost use Rattle.oci_layout_store.specs.Lasts.{Lasts};
ghost use Rattle.oci_reference.specs.Reference.{Names};
ghost use Rattle.oci_prune.specs.Settled.{CanSettle, LeavesOneOf};
ghost use Rattle.oci_store.specs.Content.{Entry};
ghost use Rattle.oci_store.specs.Keyed.{has_key};
ghost use Rattle.oci_store.specs.Tags.{Tags, set_tag};
ghost use Rattle.oci_entries.specs.Brought.{reference_entry};
ghost use Rattle.oci_tag_commands.specs.Tagged.{
  tagged_line,
  IsRefusedTag,
  IsTagged,
  IsTagRun,
  IsUnsetTag,
};

use oci_command_line::TagWords;
use oci_digest::NoMemory;
use oci_dir::Dir;
use oci_entries::entry_of_reference;
use oci_folder::{FolderLock, Lockable};
use oci_layout_store::{IndexEntry, Layout};
use oci_manifest::Key;
use oci_program::{
    Form, Outcome, ProgramFault, SeenIndex, check_is_layout, lock_folder, open_settled,
    print_answer,
};
use oci_reference::resolve;
use oci_store::{Dest, Store, Tagger};
use serde::Serialize;
use std::alloc::Global;
use std::fmt;
use std::fmt::Display;
use std::io::Write;
use std::rt::Files;

/// `tag FOLDER REF NEWTAG`: sets a tag of the layout in a directory to the blob that a reference
/// resolves to, and saves the layout. A tag that names another blob moves, and that blob stays. The
/// tag takes the entry of the reference in `index.json`, with all its members, in the place of its
/// earlier entries. The tag is never read as a digest.
///
/// The directory is the words' folder, which is locked from before the layout is opened until after
/// it is saved. Prints in this form the key that the tag names now. `F` is [`ProgramFault`] or another
/// type that is made from one. A power cut at any moment leaves the layout with the tag as it was, or
/// as it is set; this is a clause of [`tag_and_save`], its core.
///
/// # Errors
///
/// With all but 74 and 94 nothing is changed.
///
/// - 70 to 74 if the directory has no layout, or it cannot be read, or its index is no object with a
///   list `manifests`; 74 also if the folder cannot be locked, if `index.json` cannot be written, or
///   if it is not known whether it is on the disk, before the tag is set or after.
/// - 99 `Locked` if another process has the lock, and the words say not to wait.
/// - 35 `EmptyReference` if the reference is empty, and 36 `UnknownReference` if no tag and no blob
///   has it.
/// - 75 `Corrupt` and 77 `BadManifest` if the reference is that of a damaged blob, and 73 `BadIndex`
///   if its last entry is no descriptor.
/// - 35 `EmptyReference` if the tag is empty, once the reference is resolved.
/// - 110 `IndexChanged` if another program wrote `index.json` while the layout was opened.
/// - 94 `Output` if `out` cannot be written. The tag is set.
/// - Out of memory, at any point.
pub fn run_tag<
    R: Files<File: Lockable> + AllocGlobal,
    D: Dir + Drop,
    W: Write,
    X: Write,
    F: From<ProgramFault>,
>(rt: &R, dir: D, words: &TagWords<'_>, form: Form, out: &mut W, err: &mut X) -> Result<Outcome, F>
    ensures good { IfOk result (λ outcome. outcome ≡ Outcome.Good) }

    // The layout in the directory was opened, and left with the tag on the key that the reference
    // names, and all else stays. As lines, the answer is that key.
    ensures tagged { OnOk result ((key : Descriptor) × IsTagRun D.device dir words.now.reference.now
        words.now.tag.now key × (form ≡ Form.Lines → Appends (W.contents out.old)
        (W.contents out.new) (tagged_line key))) }
{
    let tagged = tag_folder(rt, dir, words, err)?;
    Ok(print_answer(rt.alloc(), &tagged, form, out)?)
}

/// The tag that was set. `Display` prints the key on a line.
#[derive(Drop, Serialize)]
struct TagAnswer {
    tag: String,
    /// The key that the tag names.
    descriptor: Key,
}

impl Display for TagAnswer {
    ghost use Rattle.std.specs.Prelude.{Some};
    ghost use Rattle.oci_tag_commands.specs.Tagged.{tagged_line};

    ghost output = { λ a. Some (tagged_line a.descriptor) };

    fn fmt<W: fmt::Write>(&self, f: &mut fmt::Formatter<W>) -> fmt::Result {
        writeln!(f, "tagged {}", self.descriptor)
    }
}

/// Locks the folder of a layout, and sets a tag of the layout.
fn tag_folder<R: Files<File: Lockable> + AllocGlobal, D: Dir + Drop, X: Write>(
    rt: &R,
    dir: D,
    words: &TagWords<'_>,
    err: &mut X,
) -> Result<TagAnswer, ProgramFault>
    ensures tag { IfOk result (λ answer. string_bytes answer.tag ≡ words.now.tag.now) }
    ensures tagged { IfOk result (λ answer. IsTagRun D.device dir words.now.reference.now
        words.now.tag.now answer.descriptor) }
{
    check_is_layout(&dir)?;
    let lock = lock_folder(rt, words.folder, dir.first_failure(), words.waits, err)?;
    tag_under_lock(rt.alloc(), dir, words.reference, words.tag, &lock)
}

/// Opens the layout in a locked folder, and sets a tag of it.
fn tag_under_lock<R: Files + AllocGlobal, D: Dir + Drop>(
    alloc: Global,
    dir: D,
    reference: &str,
    tag: &str,
    _lock: &FolderLock<R>,
) -> Result<TagAnswer, ProgramFault>
    ensures tag { IfOk result (λ answer. string_bytes answer.tag ≡ tag.now) }
    ensures tagged { IfOk result (λ answer. IsTagRun D.device dir reference.now tag.now
        answer.descriptor) }
{
    let seen = SeenIndex::of(&dir)?;
    let mut layout = open_settled(alloc, dir)?;
    seen.check(layout.dir())?;
    tag_layout(alloc, &mut layout, reference, tag)
}

/// Sets a tag of a layout to the key that a reference names, and saves the layout.
fn tag_layout<D: Dir>(
    alloc: Global,
    layout: &mut Layout<D>,
    reference: &str,
    tag: &str,
) -> Result<TagAnswer, ProgramFault>
    ensures tag { IfOk result (λ answer. string_bytes answer.tag ≡ tag.now) }
    ensures tagged { IfOk result (λ answer. IsTagged D.device reference.now tag.now layout.old
        layout.new answer.descriptor) }
{
    let name = String::from_str(alloc, tag)?;
    let descriptor = tag_and_save(layout, reference, tag)?;
    Ok(TagAnswer {
        tag: name,
        descriptor,
    })
}

/// Sets a tag of a layout to the key that a reference names, and saves the layout. Returns the key. The
/// reference is resolved by [`resolve`], and the tag takes the entry that a copy of the reference
/// brings: the last one of that name and key, or else the last one of the key without a name, or else
/// its last one. If there is none, the entry that is saved has only the key and the name. A tag that
/// names the key already is set once more.
///
/// # Errors
///
/// - 35 `EmptyReference` if the reference is empty, and 36 `UnknownReference` if it does not resolve.
///   73 `BadIndex`, 75 `Corrupt`, 77 `BadManifest` and 74 `Device` as from [`resolve`]. Nothing is
///   changed.
/// - 35 `EmptyReference` if the tag is empty. Nothing is changed.
/// - 74 `Device` if `index.json` could not be written, or if it is not known whether it is on the
///   disk. The tag is set in the layout in memory.
/// - Out of memory, at any point. The tag may be set in the layout in memory, which may then remember
///   nothing of its index.
pub fn tag_and_save<D: Dir>(
    layout: &mut Layout<D>,
    reference: &str,
    tag: &str,
) -> Result<Key, ProgramFault>
    ensures named { IfOk result
        (Names (keys_of layout.old.graph) layout.old.tags reference.now) }
    ensures tagged { IfOk result (λ key. layout.new.tags
        ≡ set_tag layout.old.tags tag.now key) }
    ensures brought { IfOk result (λ key. Brings
        (reference_entry (said layout.old.opened.content).entries reference.now tag.now key)
        layout.new.tags layout.old.opened layout.new.opened) }
    ensures saved { OnOk result ((D.device layout.old.dir).is_honest
        → HasIndex (D.device layout.new.dir).file layout.new.graph layout.new.tags
        layout.new.opened) }
    ensures graph { layout.new.graph ≡ layout.old.graph }
    ensures other { (D.device layout.old.dir).is_honest
        → Touches (D.device layout.old.dir).file (D.device layout.new.dir).file index_file }
    ensures refused { IfErr result (IsRefusedTag D.device reference.now tag.now layout.old
        layout.new) }

    // A power cut at any moment leaves the layout with the tag as it was, or as it is set.
    ensures left { (entries : List Entry) (tags : Tags) → CanSettle (D.device layout.old.dir)
        (length layout.old.graph) layout.old.graph entries tags
        → LeavesOneOf (D.device layout.new.dir) entries tags
        (⟦<Layout<D> as Store>⟧.state layout.new).entries layout.new.tags }
    ensures lasts { OnOk result ((entries : List Entry) (tags : Tags)
        → CanSettle (D.device layout.old.dir) (length layout.old.graph) layout.old.graph entries
        tags → Lasts (D.device layout.new.dir)
        (⟦<Layout<D> as Store>⟧.state layout.new).entries layout.new.tags) }
{
    let key = match resolve(layout, reference) {
        Ok(key) => key,
        Err(fault) => return Err(fault),
    };
    let brought = match entry_for_tag(layout, reference, tag, &key) {
        Ok(brought) => brought,
        Err(_) => return Err(ProgramFault::Memory),
    };
    match set_and_save(layout, tag, &key, &brought) {
        Ok(()) => Ok(key),
        Err(fault) => Err(fault),
    }
}

/// Returns the entry of a reference, which names this key, under the name of a tag, if there is one.
fn entry_for_tag<D: Dir>(
    layout: &Layout<D>,
    reference: &str,
    tag: &str,
    key: &Key,
) -> Result<Vec<IndexEntry>, NoMemory>
    ensures entry { IfOk result (λ found. map entry_of found.items
        ≡ reference_entry (said layout.now.opened.content).entries reference.now tag.now
        key.now) }
    ensures shallow { IfOk result (λ found. All IsShallowEntry (map entry_of found.items)) }
{
    entry_of_reference(key.allocator(), layout.entries(), reference, tag, key)
}

/// Sets a tag of a layout to a held key, brings these entries, and saves the layout.
///
/// # Errors
///
/// - 35 `EmptyReference` if the tag is empty. Nothing is changed.
/// - 74 `Device` and out of memory as from [`tag_and_save`].
fn set_and_save<D: Dir>(
    layout: &mut Layout<D>,
    tag: &str,
    key: &Key,
    entries: &[IndexEntry],
) -> Result<(), ProgramFault>
    requires held { has_key layout.old.graph key.now ≡ true }
    requires shallow { All IsShallowEntry (map entry_of entries.now) }
    ensures tagged { OnOk result (layout.new.tags ≡ set_tag layout.old.tags tag.now key.now) }
    ensures brought { OnOk result (Brings (map entry_of entries.now) layout.new.tags
        layout.old.opened layout.new.opened) }
    ensures saved { OnOk result ((D.device layout.old.dir).is_honest
        → HasIndex (D.device layout.new.dir).file layout.new.graph layout.new.tags
        layout.new.opened) }
    ensures graph { layout.new.graph ≡ layout.old.graph }
    ensures other { (D.device layout.old.dir).is_honest
        → Touches (D.device layout.old.dir).file (D.device layout.new.dir).file index_file }
    ensures refused { IfErr result (IsUnsetTag D.device tag.now layout.old layout.new) }
    ensures left { (entries : List Entry) (tags : Tags) → CanSettle (D.device layout.old.dir)
        (length layout.old.graph) layout.old.graph entries tags
        → LeavesOneOf (D.device layout.new.dir) entries tags
        (⟦<Layout<D> as Store>⟧.state layout.new).entries layout.new.tags }
    ensures lasts { OnOk result ((entries : List Entry) (tags : Tags)
        → CanSettle (D.device layout.old.dir) (length layout.old.graph) layout.old.graph entries
        tags → Lasts (D.device layout.new.dir)
        (⟦<Layout<D> as Store>⟧.state layout.new).entries layout.new.tags) }
{
    match layout.tag(key, tag) {
        Ok(()) => {}
        Err(fault) => return Err(ProgramFault::Reference(fault)),
    }
    match layout.bring(entries) {
        Ok(()) => {}
        Err(_) => return Err(ProgramFault::Memory),
    }
    let count = layout.count();
    match layout.save_settled(count) {
        Ok(()) => Ok(()),
        Err(fault) => Err(ProgramFault::Layout(fault)),
    }
}
