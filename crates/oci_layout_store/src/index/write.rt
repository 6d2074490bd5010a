//! The contents of `index.json`, as JSON.
ghost use Rattle.std.specs.Prelude.{◌≡◌, map, Some, None, IfOk, OnOk};
ghost use Rattle.serde_json.specs.Data.{put};
ghost use Rattle.serde_json.specs.View.{view, members_view};
ghost use Rattle.oci_layout_store.specs.Entries.{content_of, entry_of, named_value, new_entry, object_members, text_of, IsShallow};
ghost use Rattle.oci_layout_store.specs.Index.{index_value, IsCompact};

use crate::index::IndexEntry;
use oci_digest::NoMemory;
use oci_manifest::Key;
use serde_json::{Map, Value, json};
use std::alloc::Global;

/// Returns the index with these members and entries, as compact JSON.
pub(crate) fn index_text(
    alloc: Global,
    members: &Value,
    entries: Vec<IndexEntry>,
) -> Result<Vec<u8>, NoMemory>
    requires { IsShallow (content_of entries.items members.now) }
    ensures { IfOk result (λ bytes. IsCompact bytes.items
        (index_value (content_of entries.items members.now))) }
{
    let value = index_of(alloc, members, entries)?;
    Ok(value.to_vec(alloc)?)
}

/// Returns the index with these members and entries.
#[tactic(auto, unfolding(crate::specs::Index::index_value))]
fn index_of(alloc: Global, members: &Value, entries: Vec<IndexEntry>) -> Result<Value, NoMemory>
    ensures { IfOk result (λ v. view v ≡ index_value (content_of entries.items members.now)) }
{
    let manifests = values_of(alloc, entries)?;
    let media_type = String::from_str(alloc, "application/vnd.oci.image.index.v1+json")?;
    let mut index = owned_members(alloc, members)?;
    put(alloc, &mut index, "schemaVersion", json!(in alloc; 2u64)?)?;
    put(alloc, &mut index, "mediaType", Value::String(media_type))?;
    put(alloc, &mut index, "manifests", Value::Array(manifests))?;
    Ok(Value::Object(index))
}

/// Returns the members of an object, or none of another value.
pub(crate) fn owned_members(alloc: Global, object: &Value) -> Result<Map<String, Value>, NoMemory>
    ensures { IfOk result (λ members. members_view members.entries
        ≡ object_members (view object.now)) }
{
    match object.clone()? {
        Value::Object(members) => Ok(members),
        _ => Ok(Map::new(alloc)),
    }
}

/// Sets a member.
pub(crate) fn put(
    alloc: Global,
    members: &mut Map<String, Value>,
    name: &str,
    value: Value,
) -> Result<(), NoMemory>
    ensures { OnOk result (members_view members.new.entries
        ≡ put name.now (view value) (members_view members.old.entries)) }
{
    members.insert(String::from_str(alloc, name)?, value)?;
    Ok(())
}

/// Returns the descriptors of these entries.
fn values_of(alloc: Global, entries: Vec<IndexEntry>) -> Result<Vec<Value>, NoMemory>
    ensures { IfOk result (λ vs. map view vs.items
        ≡ map (λ e. e.value) (map entry_of entries.items)) }
{
    let mut values = Vec::new(alloc);
    for entry in entries {
        values.push(entry.into_value())?;
    }
    Ok(values)
}

/// Returns the entry of a key with a name, without other members.
pub(crate) fn new_entry(
    alloc: Global,
    key: Key,
    name: Option<String>,
) -> Result<IndexEntry, NoMemory>
    ensures { IfOk result (λ entry. entry_of entry ≡ new_entry key (text_of name)) }
{
    let value = named_value(alloc, &key, &name)?;
    Ok(IndexEntry {
        key: Some(key),
        name,
        value,
    })
}

/// Returns the descriptor of a key, with its name if it has one.
fn named_value(alloc: Global, key: &Key, name: &Option<String>) -> Result<Value, NoMemory>
    ensures { IfOk result (λ v. view v ≡ named_value key.now (text_of name.now)) }
{
    match name {
        Some(name) => tagged_entry(alloc, name.as_str(), key),
        None => key_entry(alloc, key),
    }
}

/// Returns the descriptor of a key with its name.
#[tactic(auto, unfolding(crate::specs::Entries::named_value, crate::specs::Entries::key_members))]
fn tagged_entry(alloc: Global, name: &str, key: &Key) -> Result<Value, NoMemory>
    ensures { IfOk result (λ v. view v ≡ named_value key.now (Some name.now)) }
{
    let digest = key.digest().text(alloc)?;
    let (media_type, size) = (key.media_type(), key.size());
    let entry = json!(in alloc; {
        "annotations": {"org.opencontainers.image.ref.name": name},
        "digest": &digest,
        "mediaType": media_type,
        "size": size
    })?;
    Ok(entry)
}

/// Returns the descriptor of a key without a name.
#[tactic(auto, unfolding(crate::specs::Entries::named_value, crate::specs::Entries::key_members))]
fn key_entry(alloc: Global, key: &Key) -> Result<Value, NoMemory>
    ensures { IfOk result (λ v. view v ≡ named_value key.now None) }
{
    let digest = key.digest().text(alloc)?;
    let (media_type, size) = (key.media_type(), key.size());
    let entry = json!(in alloc; {"digest": &digest, "mediaType": media_type, "size": size})?;
    Ok(entry)
}
