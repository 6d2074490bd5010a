//! An entry with another name.
ghost use Rattle.std.specs.Prelude.{◌≡◌, None, Some, IfOk};
ghost use Rattle.serde_json.specs.View.{view, members_view};
ghost use Rattle.oci_dir.specs.Device.{File};
ghost use Rattle.oci_layout_store.specs.Brought.{annotations_of, renamed, with_annotations, with_name, IsShallowEntry};
ghost use Rattle.oci_layout_store.specs.Entries.{entry_of, text_of};
ghost use Rattle.oci_layout_store.specs.Law.{IsMeant};
ghost use Rattle.oci_layout_store.specs.Saved.{is_name};

use crate::index::write::{owned_members, put};
use crate::index::{IndexEntry, copy_of};
use oci_digest::NoMemory;
use serde_json::{Map, Value};
use std::alloc::Global;

impl IndexEntry {
    /// Returns the entry with this name in place of its own. Its other members stay. If its
    /// annotations are not an object, they are replaced.
    ///
    /// # Errors
    ///
    /// `NoMemory` if memory runs out.
    pub fn with_name(&self, alloc: Global, name: &str) -> Result<IndexEntry, NoMemory>
        ensures renamed { IfOk result (λ e. entry_of e
            ≡ renamed (Some name.now) (entry_of self.now)) }
        ensures shallow { IsShallowEntry (entry_of self.now)
            → IfOk result (λ e. IsShallowEntry (entry_of e)) }
        ensures meant { (file : File) → IsMeant file (entry_of self.now)
            → IfOk result (λ e. IsMeant file (entry_of e)) }
    {
        if is_name(name, &self.name) {
            return self.try_clone();
        }
        Ok(IndexEntry {
            key: copy_of(&self.key)?,
            name: Some(String::from_str(alloc, name)?),
            value: value_with_name(alloc, &self.value, name)?,
        })
    }

    /// Returns the entry without its name. Its other members stay.
    ///
    /// # Errors
    ///
    /// `NoMemory` if memory runs out.
    pub fn without_name(&self, alloc: Global) -> Result<IndexEntry, NoMemory>
        ensures renamed { IfOk result (λ e. entry_of e ≡ renamed None (entry_of self.now)) }
        ensures shallow { IsShallowEntry (entry_of self.now)
            → IfOk result (λ e. IsShallowEntry (entry_of e)) }
        ensures meant { (file : File) → IsMeant file (entry_of self.now)
            → IfOk result (λ e. IsMeant file (entry_of e)) }
    {
        if self.name.is_none() {
            return self.try_clone();
        }
        Ok(IndexEntry {
            key: copy_of(&self.key)?,
            name: None,
            value: value_without_name(alloc, &self.value)?,
        })
    }
}

/// Returns whether a name is this one.
fn is_name(name: &str, other: &Option<String>) -> bool
    ensures { result ≡ is_name name.now (text_of other.now) }
{
    match other {
        Some(other) => name == other.as_str(),
        None => false,
    }
}

/// Returns a descriptor with this name.
#[tactic(auto, unfolding(crate::specs::Brought::with_name))]
fn value_with_name(alloc: Global, value: &Value, name: &str) -> Result<Value, NoMemory>
    ensures { IfOk result (λ v. view v ≡ with_annotations (view value.now)
        (with_name (Some name.now) (annotations_of (view value.now)))) }
{
    let mut annotations = annotations_of(alloc, value)?;
    let text = Value::String(String::from_str(alloc, name)?);
    put(
        alloc,
        &mut annotations,
        "org.opencontainers.image.ref.name",
        text,
    )?;
    with_annotations(alloc, value, annotations)
}

/// Returns a descriptor without a name.
#[tactic(auto, unfolding(crate::specs::Brought::with_name))]
fn value_without_name(alloc: Global, value: &Value) -> Result<Value, NoMemory>
    ensures { IfOk result (λ v. view v ≡ with_annotations (view value.now)
        (with_name None (annotations_of (view value.now)))) }
{
    let mut annotations = annotations_of(alloc, value)?;
    // The contract of `len` states that the names are in order.
    let _ = annotations.len();
    annotations.remove("org.opencontainers.image.ref.name");
    with_annotations(alloc, value, annotations)
}

/// Returns the annotations of a descriptor.
#[tactic(auto, unfolding(crate::specs::Brought::annotations_of))]
fn annotations_of(alloc: Global, value: &Value) -> Result<Map<String, Value>, NoMemory>
    ensures { IfOk result (λ annotations. members_view annotations.entries
        ≡ annotations_of (view value.now)) }
{
    match value.get("annotations") {
        Some(annotations) => owned_members(alloc, annotations),
        None => Ok(Map::new(alloc)),
    }
}

/// Returns a descriptor with these annotations.
#[tactic(auto, unfolding(crate::specs::Brought::with_annotations))]
fn with_annotations(
    alloc: Global,
    value: &Value,
    annotations: Map<String, Value>,
) -> Result<Value, NoMemory>
    ensures { IfOk result (λ v. view v ≡ with_annotations (view value.now)
        (members_view annotations.entries)) }
{
    let mut members = owned_members(alloc, value)?;
    put(
        alloc,
        &mut members,
        "annotations",
        Value::Object(annotations),
    )?;
    Ok(Value::Object(members))
}
