ghost use Rattle.std.specs.Prelude.{◌≡◌, ◌∷◌, ◌++◌, [], map, filter, Some, option_copied, IfErr, IfOk, OnOk};
ghost use Rattle.oci_layout_store.specs.Meaning.{meaning};
ghost use Rattle.oci_store.specs.Keyed.{has_key};
ghost use Rattle.oci_store.specs.Tags.{by_bytes};
ghost use Rattle.oci_query_commands.specs.Listed.{listing_of, named_listing, unnamed_listing, ArePredecessors, ArePredecessorsOf, AreTags};
ghost use Rattle.oci_query_commands.specs.Named.{IsNamed, IsNamedFault};

use crate::named::named_key;
use oci_digest::NoMemory;
use oci_dir::Dir;
use oci_layout_store::{Layout, unnamed_keys};
use oci_manifest::Key;
use oci_program::ProgramFault;
use oci_prune::referrers_of_types;
use oci_reference::resolve;
use oci_store::{Dest, GraphSource, keys_of_set};
use serde::Serialize;
use std::alloc::Global;
use std::fmt;

/// The tags of a layout and their keys, in byte order of the tags, and then keys without a tag, in
/// key order. `Display` prints them unchanged, one a line.
#[derive(Drop, Serialize)]
pub(crate) struct Tags {
    tags: Vec<Listed>,
}

/// A key with its tag, or without one. `Display` prints their line, with `-` in the place of no tag.
#[derive(Drop, Serialize)]
struct Listed {
    tag: Option<String>,
    descriptor: Key,
}

impl Tags {
    /// Returns the tags of a layout, and if it `lists_all`, the held keys of the entries that have
    /// no name.
    pub(crate) fn of<D: Dir>(
        alloc: Global,
        layout: &Layout<D>,
        lists_all: bool,
    ) -> Result<Tags, NoMemory>
        ensures { IfOk result (λ found. AreTags layout.now.graph layout.now.tags layout.now.opened
            lists_all (map listing_of found.tags.items)) }
    {
        let pairs = layout.tags()?;
        let mut tags = named(alloc, pairs)?;
        if !lists_all {
            return Ok(Tags { tags });
        }
        let unnamed = unnamed_keys(alloc, layout.entries())?;
        let keys = keys_of_set(alloc, &unnamed)?;
        add_held(layout, keys, &mut tags)?;
        Ok(Tags { tags })
    }
}

/// Returns tags as they are listed.
fn named(alloc: Global, tags: Vec<(String, Key)>) -> Result<Vec<Listed>, NoMemory>
    ensures { IfOk result (λ listed. map listing_of listed.items
        ≡ map named_listing (by_bytes tags.items)) }
{
    let mut listed = Vec::new(alloc);
    for (tag, descriptor) in tags {
        listed.push(Listed {
            tag: Some(tag),
            descriptor,
        })?;
    }
    Ok(listed)
}

/// Adds those of these keys that are held, without a tag.
fn add_held<D: Dir>(
    layout: &Layout<D>,
    keys: Vec<Key>,
    listed: &mut Vec<Listed>,
) -> Result<(), NoMemory>
    ensures { OnOk result (map listing_of listed.new.items ≡ map listing_of listed.old.items
        ++ map unnamed_listing (filter (has_key layout.now.graph) keys.items)) }
{
    for key in keys {
        add_if_held(layout, key, listed)?;
    }
    Ok(())
}

/// Adds a key without a tag if it is held.
fn add_if_held<D: Dir>(
    layout: &Layout<D>,
    key: Key,
    listed: &mut Vec<Listed>,
) -> Result<(), NoMemory>
    ensures { OnOk result (map listing_of listed.new.items ≡ map listing_of listed.old.items
        ++ map unnamed_listing (filter (has_key layout.now.graph) (key ∷ []))) }
{
    if !layout.has(&key) {
        return Ok(());
    }
    listed.push(Listed {
        tag: None,
        descriptor: key,
    })?;
    Ok(())
}

impl fmt::Display for Tags {
    ghost use Rattle.std.specs.Prelude.{Some};
    ghost use Rattle.oci_query_commands.specs.Lines.{listed_lines};

    ghost output = { λ found. Some (listed_lines found.tags.items) };

    fn fmt<W: fmt::Write>(&self, f: &mut fmt::Formatter<W>) -> fmt::Result {
        for listed in &self.tags {
            write!(f, "{listed}")?;
        }
        Ok(())
    }
}

impl fmt::Display for Listed {
    ghost use Rattle.std.specs.Prelude.{Some};
    ghost use Rattle.oci_query_commands.specs.Lines.{listed_line};

    ghost output = { λ listed. Some (listed_line listed) };

    fn fmt<W: fmt::Write>(&self, f: &mut fmt::Formatter<W>) -> fmt::Result {
        let descriptor = &self.descriptor;
        match &self.tag {
            Some(tag) => writeln!(f, "{tag} {descriptor}"),
            None => writeln!(f, "- {descriptor}"),
        }
    }
}

/// The key that a reference names, perhaps for a platform. `Display` prints it on a line.
#[derive(Drop, Serialize)]
pub(crate) struct Resolved {
    descriptor: Key,
}

impl Resolved {
    /// Resolves a reference. With a platform it is the manifest that an index lists for it.
    pub(crate) fn of<D: Dir>(
        layout: &Layout<D>,
        reference: &str,
        platform: Option<&str>,
    ) -> Result<Resolved, ProgramFault>
        ensures named { IfOk result (λ resolved. IsNamed (D.device layout.now.dir) layout.now.graph
            layout.now.tags reference.now (option_copied platform.entry) resolved.descriptor) }
        ensures refused { IfErr result (IsNamedFault (D.device layout.now.dir) layout.now
            reference.now (option_copied platform.entry)) }
    {
        Ok(Resolved {
            descriptor: named_key(layout, reference, platform)?,
        })
    }
}

impl fmt::Display for Resolved {
    ghost use Rattle.std.specs.Prelude.{Some};
    ghost use Rattle.oci_query_commands.specs.Lines.{key_line};

    ghost output = { λ resolved. Some (key_line resolved.descriptor) };

    fn fmt<W: fmt::Write>(&self, f: &mut fmt::Formatter<W>) -> fmt::Result {
        writeln!(f, "{}", self.descriptor)
    }
}

/// The held keys that list a key, or its referrers of some types, in key order. `Display` prints
/// them, one a line.
#[derive(Drop, Serialize)]
pub(crate) struct Predecessors {
    predecessors: Vec<Key>,
}

impl Predecessors {
    /// Returns the held keys that list the key of a reference; with types, those of them whose
    /// `subject` has its digest and that are of one of these types, byte for byte.
    ///
    /// # Errors
    ///
    /// Those of [`resolve`], and with types those of [`referrers_of_types`].
    pub(crate) fn of<D: Dir>(
        alloc: Global,
        layout: &Layout<D>,
        reference: &str,
        types: &[&str],
    ) -> Result<Predecessors, ProgramFault>
        ensures { IfOk result (λ found. ArePredecessorsOf
            (meaning (D.device layout.now.dir) layout.now.graph layout.now.tags) reference.now
            (map (λ t. t.now) types.now) found.predecessors.items) }
    {
        let key = resolve(layout, reference)?;
        Ok(Predecessors {
            predecessors: predecessors_of(alloc, layout, &key, types)?,
        })
    }
}

/// Returns the held keys that list a key; with types, those of them that refer to it and are of one
/// of these types.
fn predecessors_of<D: Dir>(
    alloc: Global,
    layout: &Layout<D>,
    key: &Key,
    types: &[&str],
) -> Result<Vec<Key>, ProgramFault>
    ensures { IfOk result (λ found. ArePredecessors
        (meaning (D.device layout.now.dir) layout.now.graph layout.now.tags)
        (map (λ t. t.now) types.now) key.now found.items) }
{
    let listing = layout.predecessors(key)?;
    if types.is_empty() {
        return Ok(listing);
    }
    Ok(referrers_of_types(alloc, layout, &listing, key, types)?)
}

impl fmt::Display for Predecessors {
    ghost use Rattle.std.specs.Prelude.{Some};
    ghost use Rattle.oci_query_commands.specs.Lines.{key_lines};

    ghost output = { λ found. Some (key_lines found.predecessors.items) };

    fn fmt<W: fmt::Write>(&self, f: &mut fmt::Formatter<W>) -> fmt::Result {
        for key in &self.predecessors {
            writeln!(f, "{key}")?;
        }
        Ok(())
    }
}
