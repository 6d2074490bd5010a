ghost use Rattle.std.specs.Prelude.{◌≡◌, ◌∷◌, ◌++◌, [], map, filter, flat_map, option_copied, string_bytes, IfOk, OnOk};
ghost use Rattle.std.specs.BTreeSet.{contains};
ghost use Rattle.std.specs.Cmp.Lexicographic.{slice_cmp};
ghost use Rattle.std.specs.Fmt.{WritesOnOk};
ghost use Rattle.std.specs.List.Sorted.{IsStrictlySortedBy};
ghost use Rattle.std.specs.Map.{keys_of};
ghost use Rattle.std.specs.Ordering.{nat_cmp};
ghost use Rattle.oci_layout_store.specs.Entries.{entry_of, said, text_of};
ghost use Rattle.oci_manifest.specs.Descriptor.{is_among, key_cmp};
ghost use Rattle.oci_store.specs.Tags.{by_bytes, tag_at};
ghost use Rattle.oci_query_commands.specs.Broken.{broken_line, broken_of, first_line, is_bad, key_of_tag, with_tag_of, AddsBroken, AreAllTags, AreBad, AreBroken};

use crate::set::set_of;
use crate::verify::Findings;
use oci_digest::NoMemory;
use oci_dir::Dir;
use oci_layout_store::{IndexEntry, Layout, Names};
use oci_manifest::Key;
use oci_store::{Dest, Tags, keys_of_set};
use oci_verify::reached_keys;
use serde::Serialize;
use std::alloc::Global;
use std::collections::BTreeSet;
use std::fmt;
use std::fmt::Display;

/// The findings of `verify --tags`. `Display` prints those of `verify`, and then a line for each
/// broken tag.
#[derive(Drop, Serialize)]
pub(crate) struct FindingsByTag<'l> {
    #[serde(flatten)]
    pub(crate) findings: Findings<'l>,
    /// The tags of which a blob is missing or damaged, in byte order.
    pub(crate) broken: Vec<BrokenTag>,
}

/// A tag with those of its blobs that are missing or damaged, in key order.
#[derive(Drop, Serialize)]
pub(crate) struct BrokenTag {
    tag: String,
    blobs: Vec<Key>,
}

impl Display for FindingsByTag<'_> {
    ghost use Rattle.std.specs.Prelude.{Some};
    ghost use Rattle.oci_query_commands.specs.Broken.{by_tag_text};

    ghost output = { λ by_tag. Some (by_tag_text by_tag) };

    fn fmt<W: fmt::Write>(&self, f: &mut fmt::Formatter<W>) -> fmt::Result {
        self.findings.fmt(f)?;
        print_broken(&self.broken, f)
    }
}

/// Prints the line of each broken tag.
fn print_broken<W: fmt::Write>(tags: &[BrokenTag], f: &mut fmt::Formatter<W>) -> fmt::Result
    ensures { WritesOnOk W.write_str_gives f.old result (flat_map broken_line tags.now) f.new }
{
    for BrokenTag { tag, blobs } in tags {
        print_first(tag, blobs, f)?;
    }
    Ok(())
}

/// Prints a tag and the first of these keys, if there is one.
fn print_first<W: fmt::Write>(tag: &str, keys: &[Key], f: &mut fmt::Formatter<W>) -> fmt::Result
    ensures { WritesOnOk W.write_str_gives f.old result (first_line tag.now keys.now) f.new }
{
    match keys.first() {
        Some(key) => writeln!(f, "broken {tag} {key}"),
        None => Ok(()),
    }
}

/// Returns the tags of a layout of which a blob is missing or among the corrupt ones, each with these
/// blobs, in byte order. Reads no file.
pub(crate) fn broken_tags<D: Dir>(
    alloc: Global,
    layout: &Layout<D>,
    corrupt: &[Key],
) -> Result<Vec<BrokenTag>, NoMemory>
    ensures { IfOk result (λ broken. AreBroken layout.now.graph (is_among corrupt.now)
        (key_of_tag (said layout.now.opened.content).entries) (map broken_of broken.items)) }
{
    let set = set_of(alloc, corrupt)?;
    let tags = all_tags(alloc, layout.entries())?;
    broken_among(alloc, layout, &set, &tags)
}

/// Returns the tags of an index, also those whose blobs are not held, in byte order.
fn all_tags(alloc: Global, entries: &[IndexEntry]) -> Result<Vec<(String, Key)>, NoMemory>
    ensures { IfOk result (λ tags. AreAllTags (map entry_of entries.now) (by_bytes tags.items)) }
{
    let names = Names::of(alloc, entries)?;
    let mut tags = Tags::new(alloc);
    for entry in entries {
        set_tag(&names, entry, &mut tags)?;
    }
    tags.to_vec()
}

/// Sets the tag of an entry's name, if that has a key.
fn set_tag(names: &Names<'_>, entry: &IndexEntry, tags: &mut Tags) -> Result<(), NoMemory>
    ensures { OnOk result (tags.new
        ≡ with_tag_of (map entry_of names.now) (text_of entry.now.name) tags.old) }
{
    let Some(name) = &entry.name else {
        return Ok(());
    };
    let Some(key) = key_of_tag(names, name) else {
        return Ok(());
    };
    tags.set(name, key)
}

/// Returns the key of a tag: that of the last entry with its name.
fn key_of_tag<'l>(names: &Names<'l>, name: &String) -> Option<&'l Key>
    ensures { option_copied result ≡ key_of_tag (map entry_of names.now) (string_bytes name.now) }
{
    if name.is_empty() {
        return None;
    }
    let Some((_place, entry)) = names.last(name) else {
        return None;
    };
    entry.key.as_ref()
}

/// Returns those of these tags that are broken, in their order.
fn broken_among<D: Dir>(
    alloc: Global,
    layout: &Layout<D>,
    corrupt: &BTreeSet<Key>,
    tags: &[(String, Key)],
) -> Result<Vec<BrokenTag>, NoMemory>
    requires order { IsStrictlySortedBy (slice_cmp nat_cmp) (keys_of (by_bytes tags.now)) }
    ensures { IfOk result (λ broken. AreBroken layout.now.graph (contains key_cmp corrupt.now)
        (tag_at (by_bytes tags.now)) (map broken_of broken.items)) }
{
    let mut broken = Vec::new(alloc);
    for (tag, key) in tags {
        add_broken(alloc, layout, corrupt, tag, key, &mut broken)?;
    }
    Ok(broken)
}

/// Adds a tag to these if its key reaches a missing or corrupt one.
fn add_broken<D: Dir>(
    alloc: Global,
    layout: &Layout<D>,
    corrupt: &BTreeSet<Key>,
    tag: &String,
    key: &Key,
    broken: &mut Vec<BrokenTag>,
) -> Result<(), NoMemory>
    ensures { OnOk result (AddsBroken layout.now.graph (contains key_cmp corrupt.now)
        (string_bytes tag.now) key.now (map broken_of broken.old.items)
        (map broken_of broken.new.items)) }
{
    let blobs = bad_below(alloc, layout, corrupt, key)?;
    if blobs.is_empty() {
        return Ok(());
    }
    broken.push(BrokenTag {
        tag: tag.clone()?,
        blobs,
    })?;
    Ok(())
}

/// Returns the missing and the corrupt keys that a key reaches, in key order.
fn bad_below<D: Dir>(
    alloc: Global,
    layout: &Layout<D>,
    corrupt: &BTreeSet<Key>,
    root: &Key,
) -> Result<Vec<Key>, NoMemory>
    ensures { IfOk result (λ keys. AreBad layout.now.graph (contains key_cmp corrupt.now) root.now
        keys.items) }
{
    let reached = reached_keys(alloc, layout, root)?;
    let keys = keys_of_set(alloc, &reached)?;
    bad_among(alloc, layout, corrupt, keys)
}

/// Returns those of these keys that are missing or corrupt, in their order.
fn bad_among<D: Dir>(
    alloc: Global,
    layout: &Layout<D>,
    corrupt: &BTreeSet<Key>,
    keys: Vec<Key>,
) -> Result<Vec<Key>, NoMemory>
    ensures { IfOk result (λ bad. bad.items
        ≡ filter (is_bad layout.now.graph (contains key_cmp corrupt.now)) keys.items) }
{
    let mut bad = Vec::new(alloc);
    for key in keys {
        add_if_bad(layout, corrupt, key, &mut bad)?;
    }
    Ok(bad)
}

/// Adds a key to these if it is missing or corrupt.
fn add_if_bad<D: Dir>(
    layout: &Layout<D>,
    corrupt: &BTreeSet<Key>,
    key: Key,
    bad: &mut Vec<Key>,
) -> Result<(), NoMemory>
    ensures { OnOk result (bad.new.items ≡ bad.old.items
        ++ filter (is_bad layout.now.graph (contains key_cmp corrupt.now)) (key ∷ [])) }
{
    if layout.has(&key) && !corrupt.contains(&key) {
        return Ok(());
    }
    bad.push(key)?;
    Ok(())
}
