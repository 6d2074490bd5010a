ghost use Rattle.std.specs.Prelude.{◌≡◌, ◌++◌, [], List, ℕ, OnOk, IfOk, IsTrue};
ghost use Rattle.oci_store.specs.Content.{Matches};
ghost use Rattle.oci_store.specs.Parts.{IsLeaf};

use crate::content::CheckedContent;
use bytes::Bytes;
use oci_digest::NoMemory;
use oci_manifest::Key;
use std::alloc::Global;

/// Content being written to a store. It is not visible under any key until it is pushed.
pub trait Drafting {
    // The draft has exactly these bytes. If the device is not trusted, this may hold for any bytes.
    ghost drafted: { Self → List ℕ → Type 0 };

    // A write of the draft failed, so its push fails. By default no write fails.
    ghost is_lost: { Self → Type 0 } = { λ _. ⊥ };

    /// Appends bytes. A device failure is reported by the push.
    ///
    /// # Errors
    ///
    /// Returns [`NoMemory`] if an allocation fails.
    fn append(&mut self, part: &[u8]) -> Result<(), NoMemory>
        ensures { OnOk result ((bytes : List ℕ) → drafted self.old bytes
            → drafted self.new (bytes ++ part.now)) };

    /// Puts the appended bytes onto the disk, if that is where the store keeps them, so that a push
    /// of the draft need not wait for it. A device failure is reported by the push. By default this
    /// does nothing.
    fn settle(&mut self)
        ensures same { (bytes : List ℕ) → drafted self.old bytes → drafted self.new bytes }
        ensures lost { is_lost self.old → is_lost self.new }
    {}

    /// Returns `true` only if a write of the draft failed. Its push then fails, so the rest need
    /// not be appended.
    fn is_broken(&self) -> bool
        ensures { IsTrue result → is_lost self.now }
    {
        false
    }
}

/// A draft in memory.
#[derive(Drop)]
pub struct MemoryDraft {
    bytes: Vec<u8>,
}

impl MemoryDraft {
    /// Creates an empty draft.
    pub fn new(alloc: Global) -> MemoryDraft
        ensures { result.bytes.items ≡ [] }
    {
        MemoryDraft {
            bytes: Vec::new(alloc),
        }
    }

    /// Converts the draft into the content of a key that lists nothing.
    ///
    /// # Errors
    ///
    /// Returns [`NoMemory`] if an allocation fails.
    pub fn into_content(self, key: &Key) -> Result<CheckedContent, NoMemory>
        requires leaf { IsLeaf key.now }
        requires matching { Matches key.now self.bytes.items }
        ensures { IfOk result (λ content. content ≡ (key.now, self.bytes.items)) }
    {
        CheckedContent::of_leaf(key, Bytes::from_vec(self.bytes)?)
    }

    /// Returns the drafted bytes.
    pub fn into_bytes(self) -> Vec<u8>
        ensures { result.items ≡ self.bytes.items }
    {
        self.bytes
    }
}

impl Drafting for MemoryDraft {
    ghost use Rattle.std.specs.Prelude.{◌≡◌};

    ghost drafted = { λ d bytes. d.bytes.items ≡ bytes };

    fn append(&mut self, part: &[u8]) -> Result<(), NoMemory> {
        Ok(self.bytes.extend_from_slice(part)?)
    }
}
