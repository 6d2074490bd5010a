ghost use Rattle.std.specs.Prelude.{◌≡◌, ◌≢◌, [], map, None, Some, IfOk, OnOk};
ghost use Rattle.oci_layout_store.specs.Entries.{entry_of, named, owned, tag_named, tag_owned, text_of};
ghost use Rattle.oci_store.specs.Tags.{without_tag, AreNames};

use crate::index::IndexEntry;
use oci_digest::NoMemory;
use oci_manifest::Key;
use oci_store::{Graph, Tags};
use std::alloc::Global;

/// Returns the tags of an index's entries whose keys are held.
pub(crate) fn tags_of(
    alloc: Global,
    graph: &Graph,
    entries: &[IndexEntry],
) -> Result<Tags, NoMemory>
    ensures tags { IfOk result (λ tags. tags ≡ named graph.now (map entry_of entries.now) []) }
    ensures names { IfOk result (λ tags. AreNames graph.now tags) }
{
    let mut tags = Tags::new(alloc);
    for entry in entries {
        tag_entry(graph, entry, &mut tags)?;
    }
    Ok(tags)
}

/// Sets the tag of an entry, if it has a name and its key is held.
fn tag_entry(graph: &Graph, entry: &IndexEntry, tags: &mut Tags) -> Result<(), NoMemory>
    requires names { AreNames graph.now tags.old }
    ensures set { OnOk result (tags.new
        ≡ tag_named graph.now entry.now.key (text_of entry.now.name) tags.old) }
    ensures names { AreNames graph.now tags.new }
{
    match &entry.key {
        Some(key) => tag_one(graph, key, &entry.name, tags),
        None => Ok(()),
    }
}

/// Sets the tag of a key, if there is a name and the key is held.
fn tag_one(graph: &Graph, key: &Key, name: &Option<String>, tags: &mut Tags) -> Result<(), NoMemory>
    requires names { AreNames graph.now tags.old }
    ensures set { OnOk result (tags.new
        ≡ tag_named graph.now (Some key.now) (text_of name.now) tags.old) }
    ensures names { AreNames graph.now tags.new }
{
    let Some(name) = name else {
        return Ok(());
    };
    let text = name.as_str();
    if text.is_empty() {
        return Ok(());
    }
    if !graph.holds(key) {
        return Ok(());
    }
    tags.set(text, key)?;
    Ok(())
}

/// Returns the tags of an index's entries, where a name belongs to its last entry: if the key of
/// that one is not held, there is no such tag.
pub(crate) fn owned_tags_of(
    alloc: Global,
    graph: &Graph,
    entries: &[IndexEntry],
) -> Result<Tags, NoMemory>
    ensures tags { IfOk result (λ tags. tags ≡ owned graph.now (map entry_of entries.now) []) }
    ensures names { IfOk result (λ tags. AreNames graph.now tags) }
{
    let mut tags = Tags::new(alloc);
    for entry in entries {
        own_entry(graph, entry, &mut tags)?;
    }
    Ok(tags)
}

/// Sets the tag of an entry, if it has a name. Removes it if the key of the entry is not held, or
/// the entry has none.
fn own_entry(graph: &Graph, entry: &IndexEntry, tags: &mut Tags) -> Result<(), NoMemory>
    requires names { AreNames graph.now tags.old }
    ensures set { OnOk result (tags.new
        ≡ tag_owned graph.now entry.now.key (text_of entry.now.name) tags.old) }
    ensures names { AreNames graph.now tags.new }
{
    match &entry.key {
        Some(key) => own_one(graph, key, &entry.name, tags),
        None => {
            own_none(graph, &entry.name, tags);
            Ok(())
        }
    }
}

/// Removes the tag of a name, if there is one.
fn own_none(graph: &Graph, name: &Option<String>, tags: &mut Tags)
    requires names { AreNames graph.now tags.old }
    ensures removed { tags.new ≡ tag_owned graph.now None (text_of name.now) tags.old }
    ensures names { AreNames graph.now tags.new }
{
    let Some(name) = name else {
        return;
    };
    let text = name.as_str();
    if text.is_empty() {
        return;
    }
    drop_tag(graph, text, tags);
}

/// Sets the tag of a key, if there is a name. Removes it if the key is not held.
fn own_one(graph: &Graph, key: &Key, name: &Option<String>, tags: &mut Tags) -> Result<(), NoMemory>
    requires names { AreNames graph.now tags.old }
    ensures set { OnOk result (tags.new
        ≡ tag_owned graph.now (Some key.now) (text_of name.now) tags.old) }
    ensures names { AreNames graph.now tags.new }
{
    let Some(name) = name else {
        return Ok(());
    };
    let text = name.as_str();
    if text.is_empty() {
        return Ok(());
    }
    if !graph.holds(key) {
        drop_tag(graph, text, tags);
        return Ok(());
    }
    tags.set(text, key)?;
    Ok(())
}

/// Removes a tag, if it is there.
fn drop_tag(graph: &Graph, name: &str, tags: &mut Tags)
    requires name { name.now ≢ [] }
    requires names { AreNames graph.now tags.old }
    ensures removed { tags.new ≡ without_tag tags.old name.now }
    ensures names { AreNames graph.now tags.new }
{
    let _ = tags.untag(graph, name);
}
