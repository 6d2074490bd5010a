ghost use Rattle.std.specs.Prelude.{◌≡◌, ◌++◌, ◌∷◌, [], codes, map, option_map, IfOk, IfErr, OnOk};
ghost use Rattle.oci_manifest.specs.Fault.{Fails, Gives};
ghost use Rattle.oci_manifest.specs.Manifest.{present};
ghost use Rattle.oci_layout_store.specs.Entries.{
  elements_of,
  entries_as_is,
  entries_in,
  entry_keys,
  entry_of,
  entry_of_value,
  index_elements,
  index_entries,
  name_of,
  object_members,
  said,
  text_of,
  without_member,
  IsIndex,
  IsIndexFile,
};
ghost use Rattle.oci_layout_store.specs.Faults.{of_index};
ghost use Rattle.oci_layout_store.specs.Index.{index_file, HasLayoutFile};
ghost use Rattle.oci_layout_store.specs.Refusal.{IsOpenFaultBy, index_in};
ghost use Rattle.serde_json.specs.View.{view, items_view};

use crate::fault::LayoutFault;
use crate::index::{IndexContent, IndexEntry};
use oci_digest::NoMemory;
use oci_dir::Dir;
use oci_manifest::{Key, ManifestFault, index_keys, key_of, read_json};
use serde_json::Value;
use std::alloc::Global;

/// Reads what `index.json` says. It says nothing if there is no such file. Each entry is a
/// descriptor, unless the index is read `as_is`.
#[tactic(auto, unfolding(crate::specs::Index::index_file))]
pub(crate) fn read_index<D: Dir>(
    alloc: Global,
    dir: &D,
    as_is: bool,
) -> Result<IndexContent, LayoutFault>
    ensures read { IfOk result (λ content. (D.device dir.now).is_honest
        → IsIndexFile as_is ((D.device dir.now).file index_file) (said content)) }
    ensures cause { IfErr result (λ fault.
        ((D.device dir.now).is_honest → HasLayoutFile (D.device dir.now).file)
        → IsOpenFaultBy as_is (D.device dir.now) fault) }
{
    let Some(bytes) = dir.read("index.json")? else {
        return Ok(IndexContent::none(alloc));
    };
    match content(alloc, bytes.as_slice(), as_is) {
        Ok(content) => Ok(content),
        Err(fault) => Err(bad_index(fault)),
    }
}

/// Returns the keys of those of these entries that have one.
pub(crate) fn keys_of(alloc: Global, entries: &[IndexEntry]) -> Result<Vec<Key>, NoMemory>
    ensures { IfOk result (λ keys. keys.items ≡ entry_keys (map entry_of entries.now)) }
{
    let mut keys = Vec::new(alloc);
    for entry in entries {
        add_key(entry, &mut keys)?;
    }
    Ok(keys)
}

/// Adds the key of an entry, if it has one.
pub(crate) fn add_key(entry: &IndexEntry, keys: &mut Vec<Key>) -> Result<(), NoMemory>
    ensures { OnOk result (keys.new.items
        ≡ keys.old.items ++ entry_keys (entry_of entry.now ∷ [])) }
{
    match &entry.key {
        Some(key) => {
            keys.push(key.try_clone()?)?;
            Ok(())
        }
        None => Ok(()),
    }
}

/// Returns what the bytes of an index say.
fn content(alloc: Global, bytes: &[u8], as_is: bool) -> Result<IndexContent, ManifestFault>
    ensures read { IfOk result (λ content. IsIndex as_is bytes.now (said content)) }
    ensures cause { IfErr result (λ fault. Fails fault (index_in as_is bytes.now)) }
{
    let value = read_json(alloc, bytes)?;
    let (entries, members) = parts(alloc, value, as_is)?;
    Ok(IndexContent::new(entries, members))
}

/// Returns the fault of `open` for an index that cannot be read.
fn bad_index(fault: ManifestFault) -> LayoutFault
    ensures { result ≡ of_index fault }
{
    match fault {
        ManifestFault::Memory => LayoutFault::Memory,
        _ => LayoutFault::BadIndex(fault),
    }
}

/// Returns the entries of an index and its other members. Each entry is a descriptor, unless the
/// index is read `as_is`.
fn parts(
    alloc: Global,
    index: Value,
    as_is: bool,
) -> Result<(Vec<IndexEntry>, Value), ManifestFault>
    ensures entries { Gives (λ p. map entry_of p.0.items) result
        (index_entries as_is (view index)) }
    ensures members { IfOk result (λ p. object_members (view p.1)
        ≡ without_member (codes "manifests") (object_members (view index))) }
{
    if as_is {
        return parts_as_is(alloc, index);
    }
    index_keys(alloc, &index)?;
    parts_as_is(alloc, index)
}

/// Returns the entries of an index, also those that are no descriptors, and its other members.
fn parts_as_is(alloc: Global, index: Value) -> Result<(Vec<IndexEntry>, Value), ManifestFault>
    ensures entries { Gives (λ p. map entry_of p.0.items) result (entries_as_is (view index)) }
    ensures members { IfOk result (λ p. object_members (view p.1)
        ≡ without_member (codes "manifests") (object_members (view index))) }
{
    let (elements, members) = split(alloc, index)?;
    Ok((entries_in(alloc, elements)?, members))
}

/// Returns the elements of an index's `manifests`, and its other members.
#[tactic(auto, unfolding(crate::specs::Entries::index_elements))]
fn split(alloc: Global, index: Value) -> Result<(Vec<Value>, Value), ManifestFault>
    ensures elements { Gives (λ p. items_view p.0.items) result (index_elements (view index)) }
    ensures members { IfOk result (λ p. object_members (view p.1)
        ≡ without_member (codes "manifests") (object_members (view index))) }
{
    let Value::Object(mut members) = index else {
        return Err(ManifestFault::NotObject);
    };
    // The contract of `len` states that the names are in order.
    let _ = members.len();
    match elements_of(alloc, members.remove("manifests")) {
        Ok(elements) => Ok((elements, Value::Object(members))),
        Err(fault) => Err(fault),
    }
}

/// Returns the elements of an index's `manifests`, if it has them.
#[tactic(auto, unfolding(crate::specs::Entries::elements_of))]
fn elements_of(alloc: Global, list: Option<Value>) -> Result<Vec<Value>, ManifestFault>
    ensures { Gives (λ elements. items_view elements.items) result
        (elements_of (present (option_map view list))) }
{
    match list {
        None | Some(Value::Null) => Ok(Vec::new(alloc)),
        Some(Value::Array(elements)) => Ok(elements),
        Some(_) => Err(ManifestFault::BadList("manifests")),
    }
}

/// Returns the entries of these elements.
fn entries_in(alloc: Global, elements: Vec<Value>) -> Result<Vec<IndexEntry>, NoMemory>
    ensures { IfOk result (λ entries. map entry_of entries.items
        ≡ entries_in (items_view elements.items)) }
{
    let mut entries = Vec::new(alloc);
    for element in elements {
        entries.push(entry_of_value(alloc, element)?)?;
    }
    Ok(entries)
}

/// Returns the entry of an element.
fn entry_of_value(alloc: Global, element: Value) -> Result<IndexEntry, NoMemory>
    ensures { IfOk result (λ entry. entry_of entry ≡ entry_of_value (view element)) }
{
    Ok(IndexEntry {
        key: key_of(alloc, &element)?,
        name: name(alloc, &element)?,
        value: element,
    })
}

/// Returns the name in an entry, if it has one.
#[tactic(auto, unfolding(crate::specs::Entries::name_of))]
fn name(alloc: Global, entry: &Value) -> Result<Option<String>, NoMemory>
    ensures { IfOk result (λ name. text_of name ≡ name_of (view entry.now)) }
{
    let Some(annotations) = entry.get("annotations") else {
        return Ok(None);
    };
    let Some(text) = annotations
        .get("org.opencontainers.image.ref.name")
        .and_then(Value::as_str)
    else {
        return Ok(None);
    };
    Ok(Some(String::from_str(alloc, text)?))
}
