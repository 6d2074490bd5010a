ghost use Rattle.std.specs.Prelude.{◌≡◌, ◌↔◌, ◌≤◌, ◌++◌, ◌∷◌, ◌&&◌, [], not, if◌then◌else◌, filter, flat_map, length, map, None, Some, option_and_then, option_copied, option_map, string_bytes, IfOk, OnOk};
ghost use Rattle.std.specs.BTreeSet.{contains};
ghost use Rattle.std.specs.Fmt.{WritesOnOk};
ghost use Rattle.std.specs.Map.{keys_of};
ghost use Rattle.oci_layout_store.specs.Entries.{entry_of, text_of};
ghost use Rattle.oci_layout_store.specs.Saved.{is_place, last_place};
ghost use Rattle.oci_manifest.specs.Descriptor.{key_cmp};
ghost use Rattle.oci_store.specs.Keyed.{value_at, HasDistinctKeys};
ghost use Rattle.oci_query_commands.specs.Found.{first_without_file, has_file, pair_of, shadowed_in, tagged_if, tagged_of, without_file, AreFindings, AreFindingsBelow, AreFindingsOf};
ghost use Rattle.oci_query_commands.specs.Lines.{absent_line, corrupt_line, foreign_line, open_text, shadowed_line};
ghost use Rattle.oci_query_commands.specs.Verified.{FindsNothing};
ghost use Rattle.oci_verify.specs.Corrupt.{is_asked};

use crate::checking::{Progress, number_of_workers};
use crate::foreign::corrupt_foreign;
use oci_digest::NoMemory;
use oci_dir::Dir;
use oci_layout_store::{IndexEntry, Layout, Names};
use oci_manifest::Key;
use oci_program::{Outcome, ProgramFault, Tagged};
use oci_store::{Dest, GraphSource};
use oci_verify::{corrupt_keys_among, damaged_keys, is_asked, reached_keys};
use serde::Serialize;
use std::alloc::Global;
use std::collections::BTreeSet;
use std::fmt;
use std::fmt::Display;
use std::io::Write;
use std::sync::Wait;
use std::thread::Threads;
use std::time::Clock;

/// The findings of `verify`. `Display` prints one a line, in the order of the fields.
#[derive(Drop, Serialize)]
pub(crate) struct Findings<'l> {
    /// The key of each entry of `index.json` without a file, in the order of the entries.
    absent: Vec<&'l Key>,
    /// The keys whose files are damaged or do not match them, in key order.
    pub(crate) corrupt: Vec<Key>,
    /// The keys that are not to be distributed, that held manifests list, and whose files are there and
    /// do not match them, in key order.
    #[serde(rename = "corruptForeign")]
    corrupt_foreign: Vec<Key>,
    /// The first key that lists a key without a file, with that key.
    open: Option<Open>,
    /// The tag and the key of each entry that has both and whose tag a later entry has, in the order
    /// of the entries.
    shadowed: Vec<Tagged>,
    /// The number of keys that are reached and have a file.
    held: usize,
}

/// A held key that lists a key without a file.
#[derive(Drop, Serialize)]
struct Open {
    holder: Key,
    missing: Key,
}

impl Findings<'_> {
    /// Returns `Good` if nothing is wrong: no key is absent or corrupt, no layer that is not to be
    /// distributed is, and no key lists one without a file.
    pub(crate) fn outcome(&self) -> Outcome
        ensures { (result ≡ Outcome.Good) ↔ FindsNothing self.now }
    {
        if self.absent.is_empty()
            && self.corrupt.is_empty()
            && self.corrupt_foreign.is_empty()
            && self.open.is_none()
        {
            Outcome::Good
        } else {
            Outcome::Faulty
        }
    }
}

impl Display for Findings<'_> {
    ghost use Rattle.std.specs.Prelude.{Some};
    ghost use Rattle.oci_query_commands.specs.Lines.{findings_text};

    ghost output = { λ findings. Some (findings_text findings) };

    fn fmt<W: fmt::Write>(&self, f: &mut fmt::Formatter<W>) -> fmt::Result {
        print_absent(&self.absent, f)?;
        print_corrupt(&self.corrupt, f)?;
        print_foreign(&self.corrupt_foreign, f)?;
        print_open(&self.open, f)?;
        print_shadowed(&self.shadowed, f)?;
        writeln!(f, "held {}", self.held)
    }
}

/// Prints the line of each absent key.
fn print_absent<W: fmt::Write>(keys: &[&Key], f: &mut fmt::Formatter<W>) -> fmt::Result
    ensures { WritesOnOk W.write_str_gives f.old result (flat_map absent_line keys.now) f.new }
{
    for key in keys {
        writeln!(f, "absent {key}")?;
    }
    Ok(())
}

/// Prints the line of each corrupt key.
fn print_corrupt<W: fmt::Write>(keys: &[Key], f: &mut fmt::Formatter<W>) -> fmt::Result
    ensures { WritesOnOk W.write_str_gives f.old result (flat_map corrupt_line keys.now) f.new }
{
    for key in keys {
        writeln!(f, "corrupt {key}")?;
    }
    Ok(())
}

/// Prints the line of each of these layers, which are not to be distributed.
fn print_foreign<W: fmt::Write>(keys: &[Key], f: &mut fmt::Formatter<W>) -> fmt::Result
    ensures { WritesOnOk W.write_str_gives f.old result (flat_map foreign_line keys.now) f.new }
{
    for key in keys {
        print_foreign_key(key, f)?;
    }
    Ok(())
}

/// Prints the line of a corrupt layer that is not to be distributed.
#[tactic(auto, unfolding(crate::specs::Lines::foreign_line))]
fn print_foreign_key<W: fmt::Write>(key: &Key, f: &mut fmt::Formatter<W>) -> fmt::Result
    ensures { WritesOnOk W.write_str_gives f.old result (foreign_line key.now) f.new }
{
    writeln!(f, "corrupt-foreign {key}")
}

/// Prints the line of a key that lists a key without a file, if there is one.
fn print_open<W: fmt::Write>(found: &Option<Open>, f: &mut fmt::Formatter<W>) -> fmt::Result
    ensures { WritesOnOk W.write_str_gives f.old result (open_text found.now) f.new }
{
    match found {
        Some(Open { holder, missing }) => writeln!(f, "open {holder} {missing}"),
        None => Ok(()),
    }
}

/// Prints the line of each entry whose tag a later entry has.
fn print_shadowed<W: fmt::Write>(entries: &[Tagged], f: &mut fmt::Formatter<W>) -> fmt::Result
    ensures { WritesOnOk W.write_str_gives f.old result (flat_map shadowed_line entries.now) f.new }
{
    for Tagged { tag, descriptor } in entries {
        writeln!(f, "shadowed {tag} {descriptor}")?;
    }
    Ok(())
}

/// `verify FOLDER`: reads each held blob, and returns what is wrong with the layout, but for the
/// entries of `index.json` that are no descriptors. The blobs are read by this number of workers, or
/// by one for each processor, at most 64. If it `shows_progress`, draws a line on `err` that shows
/// how much was read, and erases it at the end.
pub(crate) fn verify<
    'l,
    R: AllocGlobal + Clock + Threads + Wait + Sync,
    D: Dir + Sync,
    X: Write + Send,
>(
    rt: &R,
    layout: &'l Layout<D>,
    workers: Option<u32>,
    shows_progress: bool,
    err: &mut X,
) -> Result<Findings<'l>, ProgramFault>
where
    D::Draft: Send,
    ensures { IfOk result (AreFindings (D.device layout.now.dir) layout.now.graph
        layout.now.opened) }
{
    findings_of(rt, layout, None, workers, shows_progress, err)
}

/// `verify FOLDER REF`: as [`verify`], but reads and returns only what a key reaches.
pub(crate) fn verify_below<
    'l,
    R: AllocGlobal + Clock + Threads + Wait + Sync,
    D: Dir + Sync,
    X: Write + Send,
>(
    rt: &R,
    layout: &'l Layout<D>,
    root: &Key,
    workers: Option<u32>,
    shows_progress: bool,
    err: &mut X,
) -> Result<Findings<'l>, ProgramFault>
where
    D::Draft: Send,
    ensures found { IfOk result (AreFindingsBelow (D.device layout.now.dir) layout.now.graph
        layout.now.opened root.now) }
    ensures distinct { OnOk result (HasDistinctKeys layout.now.graph) }
{
    let reached = reached_keys(rt.alloc(), layout, root)?;
    findings_of(rt, layout, Some(&reached), workers, shows_progress, err)
}

/// Returns what is wrong with the keys of a layout that are asked for, all or those of a set. Layers
/// that are not to be distributed are read after all others, by the calling thread.
fn findings_of<'l, R: AllocGlobal + Clock + Threads + Wait + Sync, D: Dir + Sync, X: Write + Send>(
    rt: &R,
    layout: &'l Layout<D>,
    asked: Option<&BTreeSet<Key>>,
    workers: Option<u32>,
    shows_progress: bool,
    err: &mut X,
) -> Result<Findings<'l>, ProgramFault>
where
    D::Draft: Send,
    ensures found { IfOk result (AreFindingsOf (D.device layout.now.dir) layout.now.graph
        layout.now.opened (is_asked (option_copied asked.entry))) }
    ensures distinct { OnOk result (HasDistinctKeys layout.now.graph) }
{
    let alloc = rt.alloc();
    let workers = number_of_workers(rt, workers);
    let progress = Progress::new(rt, err, layout, asked, shows_progress);
    let corrupt = corrupt_keys_among(rt, alloc, layout, asked, workers, &progress);
    progress.end();
    let damaged = damaged_keys(alloc, layout)?;
    let shadowed = shadowed_entries(alloc, layout.entries())?;
    Ok(Findings {
        absent: keys_without(alloc, layout.absent(), asked, &damaged)?,
        corrupt: corrupt?,
        corrupt_foreign: corrupt_foreign(alloc, layout, asked)?,
        open: open_key(layout, asked, &damaged)?,
        shadowed: tagged_among(alloc, shadowed, asked)?,
        held: count_held(layout, asked).saturating_add(count_among(layout.damaged(), asked)),
    })
}

/// Returns how many held keys are asked for.
fn count_held<D: Dir>(layout: &Layout<D>, asked: Option<&BTreeSet<Key>>) -> usize
    ensures count { result ≡ length (filter (is_asked (option_copied asked.entry))
        (keys_of layout.now.graph)) }
    ensures distinct { HasDistinctKeys layout.now.graph }
{
    let mut count = 0;
    for place in 0..layout.count() {
        let Some(key) = layout.key(place) else {
            unreachable!();
        };
        count += one_if(is_asked(asked, key));
    }
    count
}

/// Returns how many of these keys are asked for.
fn count_among(keys: &[Key], asked: Option<&BTreeSet<Key>>) -> usize
    ensures { result ≡ length (filter (is_asked (option_copied asked.entry)) keys.now) }
{
    let mut count = 0;
    for key in keys {
        count += one_if(is_asked(asked, key));
    }
    count
}

/// Returns 1 if something is so, and else 0.
fn one_if(is_so: bool) -> usize
    ensures count { result ≡ (if is_so then 1 else 0) }
    ensures most { result ≤ 1 }
{
    if is_so { 1 } else { 0 }
}

/// Returns those of these keys that are asked for and not damaged, in their order.
fn keys_without<'l>(
    alloc: Global,
    keys: &'l [Key],
    asked: Option<&BTreeSet<Key>>,
    damaged: &BTreeSet<Key>,
) -> Result<Vec<&'l Key>, NoMemory>
    ensures { IfOk result (λ others. map (λ key. key.now) others.items
        ≡ filter (λ k. is_asked (option_copied asked.entry) k
        && not (contains key_cmp damaged.now k)) keys.now) }
{
    let mut others = Vec::new(alloc);
    for key in keys {
        add_unless(asked, damaged, key, &mut others)?;
    }
    Ok(others)
}

/// Adds a key to these if it is asked for and not damaged.
fn add_unless<'l>(
    asked: Option<&BTreeSet<Key>>,
    damaged: &BTreeSet<Key>,
    key: &'l Key,
    keys: &mut Vec<&'l Key>,
) -> Result<(), NoMemory>
    ensures { OnOk result (map (λ key. key.now) keys.new.items
        ≡ map (λ key. key.now) keys.old.items
        ++ filter (λ k. is_asked (option_copied asked.entry) k
        && not (contains key_cmp damaged.now k)) (key.now ∷ [])) }
{
    if is_asked(asked, key) && !damaged.contains(key) {
        keys.push(key)?;
    }
    Ok(())
}

/// Returns the first held key that is asked for and lists a key which is neither held nor damaged,
/// with the first such key.
fn open_key<D: Dir>(
    layout: &Layout<D>,
    asked: Option<&BTreeSet<Key>>,
    damaged: &BTreeSet<Key>,
) -> Result<Option<Open>, NoMemory>
    ensures { IfOk result (λ found. option_map pair_of found
        ≡ first_without_file (has_file layout.now.graph (contains key_cmp damaged.now))
        (filter (λ n. is_asked (option_copied asked.entry) n.0) layout.now.graph)) }
{
    for place in 0..layout.count() {
        let Some(holder) = layout.key(place) else {
            unreachable!();
        };
        if let Some(missing) = missing_key(layout, asked, holder, damaged)? {
            return Ok(Some(Open {
                holder: holder.try_clone()?,
                missing,
            }));
        }
    }
    Ok(None)
}

/// Returns the first key that a held key lists and that is neither held nor damaged, if the held key
/// is asked for.
fn missing_key<D: Dir>(
    layout: &Layout<D>,
    asked: Option<&BTreeSet<Key>>,
    holder: &Key,
    damaged: &BTreeSet<Key>,
) -> Result<Option<Key>, NoMemory>
    ensures { IfOk result (λ found. found ≡ (if is_asked (option_copied asked.entry) holder.now
        then option_and_then
        (without_file (has_file layout.now.graph (contains key_cmp damaged.now)))
        (value_at layout.now.graph holder.now) else None)) }
{
    if !is_asked(asked, holder) {
        return Ok(None);
    }
    let Some(listed) = layout.successors(holder)? else {
        return Ok(None);
    };
    missing_of(layout, &listed, damaged)
}

/// Returns the first of these keys that is neither held nor damaged.
fn missing_of<D: Dir>(
    layout: &Layout<D>,
    keys: &[Key],
    damaged: &BTreeSet<Key>,
) -> Result<Option<Key>, NoMemory>
    ensures { IfOk result (λ found. found
        ≡ without_file (has_file layout.now.graph (contains key_cmp damaged.now)) keys.now) }
{
    for key in keys {
        if !has_file(layout, key, damaged) {
            return Ok(Some(key.try_clone()?));
        }
    }
    Ok(None)
}

/// Returns whether a key is held or damaged.
fn has_file<D: Dir>(layout: &Layout<D>, key: &Key, damaged: &BTreeSet<Key>) -> bool
    ensures { result ≡ has_file layout.now.graph (contains key_cmp damaged.now) key.now }
{
    layout.has(key) || damaged.contains(key)
}

/// Returns the name and the key of each entry that has a key and whose name a later entry has, in
/// the order of the entries.
fn shadowed_entries(alloc: Global, entries: &[IndexEntry]) -> Result<Vec<Tagged>, NoMemory>
    ensures { IfOk result (λ shadowed. map tagged_of shadowed.items
        ≡ shadowed_in (map entry_of entries.now)) }
{
    let names = Names::of(alloc, entries)?;
    let mut shadowed = Vec::new(alloc);
    for (place, entry) in entries.iter().enumerate() {
        add_unless_last(entry, place, &names, &mut shadowed)?;
    }
    Ok(shadowed)
}

/// Returns those of these whose keys are asked for, in their order.
fn tagged_among(
    alloc: Global,
    entries: Vec<Tagged>,
    asked: Option<&BTreeSet<Key>>,
) -> Result<Vec<Tagged>, NoMemory>
    ensures { IfOk result (λ found. map tagged_of found.items
        ≡ filter (λ t. is_asked (option_copied asked.entry) t.1) (map tagged_of entries.items)) }
{
    let mut found = Vec::new(alloc);
    for entry in entries {
        add_tagged(asked, entry, &mut found)?;
    }
    Ok(found)
}

/// Adds a name with its key to these if the key is asked for.
fn add_tagged(
    asked: Option<&BTreeSet<Key>>,
    entry: Tagged,
    found: &mut Vec<Tagged>,
) -> Result<(), NoMemory>
    ensures { OnOk result (map tagged_of found.new.items ≡ map tagged_of found.old.items
        ++ filter (λ t. is_asked (option_copied asked.entry) t.1) (tagged_of entry ∷ [])) }
{
    if !is_asked(asked, &entry.descriptor) {
        return Ok(());
    }
    found.push(entry)?;
    Ok(())
}

/// Adds the name and the key of an entry that has both, unless its place is the last one of the
/// name.
fn add_unless_last(
    entry: &IndexEntry,
    place: usize,
    names: &Names<'_>,
    shadowed: &mut Vec<Tagged>,
) -> Result<(), NoMemory>
    ensures { OnOk result (map tagged_of shadowed.new.items ≡ map tagged_of shadowed.old.items
        ++ tagged_if (λ name. not (is_place place (last_place name (map entry_of names.now))))
        entry.now.key (text_of entry.now.name)) }
{
    let Some(name) = &entry.name else {
        return Ok(());
    };
    let Some(key) = &entry.key else {
        return Ok(());
    };
    if name.is_empty() || is_last(names, name, place) {
        return Ok(());
    }
    shadowed.push(Tagged {
        tag: name.clone()?,
        descriptor: key.try_clone()?,
    })?;
    Ok(())
}

/// Returns whether this is the place of the last entry with a name.
fn is_last(names: &Names<'_>, name: &String, place: usize) -> bool
    ensures { result ≡ is_place place
        (last_place (string_bytes name.now) (map entry_of names.now)) }
{
    match names.last(name) {
        Some((last, _)) => last == place,
        None => false,
    }
}
