//! The manifests that the entries of an index mean.
ghost use Rattle.std.specs.Prelude.{◌≡◌, ◌++◌, ◌∷◌, [], true, codes, map, option_copied, string_bytes, IfOk, OnOk};
ghost use Rattle.serde_json.specs.View.{view};
ghost use Rattle.oci_dir.specs.Device.{IsRead};
ghost use Rattle.oci_layout_store.specs.Blobs.{blob_path};
ghost use Rattle.oci_layout_store.specs.Entries.{entry_of, said};
ghost use Rattle.oci_layout_store.specs.Meant.{
  is_odd,
  is_open,
  meant,
  meant_by,
  meant_content,
  meant_entry,
  names_manifest,
  odd_in,
  of_type,
  plain_type,
  shape_of,
  stated_type,
  type_by_shape,
  type_by_value,
  type_in,
  unknown_type,
};
ghost use Rattle.oci_manifest.specs.Reading.{reading, text_at};

use crate::index::{IndexContent, IndexEntry};
use crate::layout::blob_path;
use bytes::Bytes;
use oci_digest::NoMemory;
use oci_dir::{Dir, DirFault};
use oci_manifest::{Key, Kind, ManifestFault, read_json, read_links};
use serde_json::Value;
use std::alloc::Global;

/// The most bytes of a file that is read for what it is.
const MOST_READ: u64 = 4_194_304;

/// Returns what an index says, where each entry has the key that it means.
pub(crate) fn meant_content<D: Dir>(
    alloc: Global,
    dir: &D,
    content: IndexContent,
) -> Result<IndexContent, DirFault>
    ensures { IsRead (D.device dir.now)
        (λ c. said c ≡ meant_content true (D.device dir.now).file (said content)) result }
{
    let (stated, members) = content.into_parts();
    let entries = meant_entries(alloc, dir, stated)?;
    Ok(IndexContent::new(entries, members))
}

/// Returns these entries, each with the key that it means.
#[tactic(auto, using(crate::proofs::MeantEntries::next_meant, crate::proofs::MeantEntries::none_meant))]
fn meant_entries<D: Dir>(
    alloc: Global,
    dir: &D,
    stated: Vec<IndexEntry>,
) -> Result<Vec<IndexEntry>, DirFault>
    ensures meant { IsRead (D.device dir.now) (λ entries. map entry_of entries.items
        ≡ map (meant_entry (D.device dir.now).file) (map entry_of stated.items)) result }
    ensures values { IfOk result (λ entries. map (λ e. view e.value) entries.items
        ≡ map (λ e. view e.value) stated.items) }
{
    let mut entries = Vec::new(alloc);
    for entry in stated {
        add(meant_entry(alloc, dir, entry)?, &mut entries)?;
    }
    Ok(entries)
}

/// Adds an entry to these.
fn add(entry: IndexEntry, entries: &mut Vec<IndexEntry>) -> Result<(), NoMemory>
    ensures { OnOk result (entries.new.items ≡ entries.old.items ++ entry ∷ []) }
{
    entries.push(entry)?;
    Ok(())
}

/// Returns an entry with the key that it means.
fn meant_entry<D: Dir>(alloc: Global, dir: &D, entry: IndexEntry) -> Result<IndexEntry, DirFault>
    ensures meant { IsRead (D.device dir.now)
        (λ e. entry_of e ≡ meant_entry (D.device dir.now).file (entry_of entry)) result }
    ensures value { IfOk result (λ e. view e.value ≡ view entry.value) }
{
    let key = match &entry.key {
        Some(key) => Some(meant(alloc, dir, key)?),
        None => None,
    };
    Ok(entry.with_key(key))
}

/// Returns the key that an entry with this key means.
fn meant<D: Dir>(alloc: Global, dir: &D, key: &Key) -> Result<Key, DirFault>
    ensures { IsRead (D.device dir.now) (λ k. k ≡ meant (D.device dir.now).file key.now) result }
{
    match odd_bytes(alloc, dir, key)? {
        Some(bytes) => Ok(meant_by(alloc, key, &bytes)?),
        None => Ok(of_type(alloc, key, plain_type(key.media_type()))?),
    }
}

/// Returns a key with another media type.
fn of_type(alloc: Global, key: &Key, media_type: &str) -> Result<Key, NoMemory>
    ensures { IfOk result (λ k. k ≡ of_type key.now media_type.now) }
{
    let media_type = String::from_str(alloc, media_type)?;
    match Key::new(media_type, *key.digest(), key.size()) {
        Ok(key) => Ok(key),
        Err(_) => unreachable!(),
    }
}

/// Returns the bytes of a key's file that have to be read for what the key means.
fn odd_bytes<D: Dir>(alloc: Global, dir: &D, key: &Key) -> Result<Option<Bytes>, DirFault>
    ensures { IsRead (D.device dir.now) (λ found. found
        ≡ odd_in key.now ((D.device dir.now).file (blob_path key.now.digest))) result }
{
    let path = blob_path(alloc, key.digest())?;
    match dir.size(&path)? {
        Some(size) if is_odd(key, size) && size <= MOST_READ => dir.read_of_length(&path, size),
        _ => Ok(None),
    }
}

/// Returns whether a key may mean another one, by the length of its file.
fn is_odd(key: &Key, length: u64) -> bool
    ensures { result ≡ is_odd key.now length }
{
    is_open(key.media_type()) || key.size() != length
}

/// Returns whether a media type is that of a manifest.
fn names_manifest(media_type: &str) -> bool
    ensures { result ≡ names_manifest media_type.now }
{
    match Kind::of(media_type) {
        Kind::Leaf => false,
        _ => true,
    }
}

/// Returns the key that an entry with this key means whose file has these bytes.
fn meant_by(alloc: Global, key: &Key, bytes: &Bytes) -> Result<Key, NoMemory>
    ensures { IfOk result (λ k. k ≡ meant_by key.now bytes.now) }
{
    if !key.digest().matches(bytes.as_slice()) {
        return of_type(alloc, key, unknown_type(key.media_type()));
    }
    let media_type = if is_open(key.media_type()) {
        type_in(alloc, key.media_type(), bytes.as_slice())?
    } else {
        String::from_str(alloc, key.media_type())?
    };
    match Key::new(media_type, *key.digest(), bytes.len() as u64) {
        Ok(meant) => Ok(meant),
        Err(_) => unreachable!(),
    }
}

/// Returns the media type that bytes have by what they say, if they are JSON, or else this one.
fn type_in(alloc: Global, media_type: &str, bytes: &[u8]) -> Result<String, NoMemory>
    ensures { IfOk result (λ text. string_bytes text
        ≡ type_in media_type.now bytes.now (reading bytes.now)) }
{
    match read_json(alloc, bytes) {
        Ok(value) => type_by_value(alloc, media_type, bytes, &value),
        Err(ManifestFault::Memory) => Err(NoMemory),
        Err(_) => Ok(String::from_str(alloc, plain_type(media_type))?),
    }
}

/// Returns the manifest type that the JSON value of bytes states, or else that which it looks like, or
/// else this one.
fn type_by_value(
    alloc: Global,
    media_type: &str,
    bytes: &[u8],
    value: &Value,
) -> Result<String, NoMemory>
    ensures { IfOk result (λ text. string_bytes text ≡ type_by_value media_type.now bytes.now
        (view value.now) (stated_type (text_at (codes "mediaType") (view value.now)))) }
{
    match stated_type(value) {
        Some(stated) => Ok(String::from_str(alloc, stated)?),
        None => type_by_shape(alloc, media_type, bytes, shape_of(value)),
    }
}

/// Returns the manifest type that a JSON value states of itself, if it does.
fn stated_type(value: &Value) -> Option<&str>
    ensures { option_copied result ≡ stated_type (text_at (codes "mediaType") (view value.now)) }
{
    match value.get("mediaType").and_then(Value::as_str) {
        Some(stated) if names_manifest(plain_type(stated)) => Some(plain_type(stated)),
        _ => None,
    }
}

/// Returns the manifest type that a JSON value looks like.
#[tactic(auto, unfolding(crate::specs::Meant::shape_of))]
fn shape_of(value: &Value) -> Option<&'static str>
    ensures { option_copied result ≡ shape_of (view value.now) }
{
    if value.get("manifests").and_then(Value::as_array).is_some() {
        Some("application/vnd.oci.image.index.v1+json")
    } else if value.get("config").is_some() && value.get("layers").is_some() {
        Some("application/vnd.oci.image.manifest.v1+json")
    } else {
        None
    }
}

/// Returns the type that bytes look like, if they can be read as such a manifest, or else this one.
fn type_by_shape(
    alloc: Global,
    media_type: &str,
    bytes: &[u8],
    shape: Option<&str>,
) -> Result<String, NoMemory>
    ensures { IfOk result (λ text. string_bytes text
        ≡ type_by_shape media_type.now bytes.now (option_copied shape.entry)) }
{
    let Some(shape) = shape else {
        return Ok(String::from_str(alloc, plain_type(media_type))?);
    };
    match read_links(alloc, Kind::of(shape), bytes) {
        Ok(_) => Ok(String::from_str(alloc, shape)?),
        Err(ManifestFault::Memory) => Err(NoMemory),
        Err(_) => Ok(String::from_str(alloc, plain_type(media_type))?),
    }
}

/// Returns the type of a content that does not match its digest, so that nobody knows what it is.
fn unknown_type(media_type: &str) -> &str
    ensures { result.now ≡ unknown_type media_type.now }
{
    if media_type == "application/octet-stream" {
        return "application/vnd.oci.image.index.v1+json";
    }
    plain_type(media_type)
}

/// Returns a media type; without its parameters, if it is then that of a manifest.
#[tactic(auto, unfolding(crate::specs::Meant::plain_type))]
fn plain_type(media_type: &str) -> &str
    ensures { result.now ≡ plain_type media_type.now }
{
    match media_type.split_once(';') {
        Some((stated, _)) if names_manifest(stated) => stated,
        _ => media_type,
    }
}

/// Returns whether a media type leaves open what a content is.
#[tactic(auto, unfolding(crate::specs::Meant::is_open))]
fn is_open(media_type: &str) -> bool
    ensures { result ≡ is_open media_type.now }
{
    if media_type == "application/octet-stream" {
        return true;
    }
    match media_type.split_once(';') {
        Some((stated, _)) => !names_manifest(media_type) && names_manifest(stated),
        None => false,
    }
}
