//! Entries whose descriptors state the keys that they mean.
ghost use Rattle.std.specs.Prelude.{◌≡◌, IfOk};
ghost use Rattle.serde_json.specs.View.{view};
ghost use Rattle.oci_layout_store.specs.Brought.{stating, value_stating};
ghost use Rattle.oci_layout_store.specs.Entries.{entry_of};

use crate::index::IndexEntry;
use crate::index::write::{owned_members, put};
use oci_digest::NoMemory;
use oci_manifest::Key;
use serde_json::{Value, json};
use std::alloc::Global;

impl IndexEntry {
    /// Returns an equal entry whose descriptor has the media type and the size of the key.
    pub(crate) fn stating(&self, alloc: Global) -> Result<IndexEntry, NoMemory>
        ensures { IfOk result (λ e. entry_of e ≡ stating (entry_of self.now)) }
    {
        let Some(key) = &self.key else {
            return self.try_clone();
        };
        let name = match &self.name {
            Some(name) => Some(name.clone()?),
            None => None,
        };
        Ok(IndexEntry {
            key: Some(key.try_clone()?),
            name,
            value: value_stating(alloc, key, &self.value)?,
        })
    }
}

/// Returns a descriptor with the media type and the size of a key.
#[tactic(auto, unfolding(crate::specs::Brought::value_stating))]
fn value_stating(alloc: Global, key: &Key, value: &Value) -> Result<Value, NoMemory>
    ensures { IfOk result (λ v. view v ≡ value_stating key.now (view value.now)) }
{
    let media_type = Value::String(String::from_str(alloc, key.media_type())?);
    let size = json!(in alloc; key.size())?;
    let mut members = owned_members(alloc, value)?;
    put(alloc, &mut members, "size", size)?;
    put(alloc, &mut members, "mediaType", media_type)?;
    Ok(Value::Object(members))
}
