ghost use Rattle.std.specs.Prelude.{◌≡◌, IfOk};
ghost use Rattle.oci_store.specs.Content.{Matches, succ_of, IsChecked};
ghost use Rattle.oci_store.specs.Parts.{IsLeaf};
ghost use Rattle.oci_store.specs.Push.{read_check, content_check, AnswersInMemory};

use crate::fault::{PushFault, unread};
use crate::graph::cloned;
use bytes::Bytes;
use oci_digest::NoMemory;
use oci_manifest::{Key, Kind, successors};
use std::marker::Model;

/// Content that was checked: the bytes match the key and can be read as its kind, and the keys that
/// they list are known. The type guarantees this, so a store that takes it hashes and reads
/// nothing.
#[derive(Drop)]
pub struct CheckedContent {
    key: Key,
    bytes: Bytes,
    successors: Vec<Key>,
}

impl Model for CheckedContent {
    ghost use Rattle.oci_store.specs.Content.{Entry, IsChecked};

    ghost Value = { Entry };

    ghost view = { λ c. (c.key, c.bytes) };

    ghost invariant = { λ c. IsChecked c.key c.bytes c.successors.items };
}

impl CheckedContent {
    /// Checks bytes against a key.
    ///
    /// # Errors
    ///
    /// The causes are checked in this order:
    ///
    /// - 31 `SizeMismatch`: the length of the bytes is not the key's size.
    /// - 32 `DigestMismatch`: the digest of the bytes is not the key's.
    /// - 33 `BadManifest`: the bytes cannot be read as the kind of the media type.
    ///
    /// 34 `Memory` is possible at any point.
    #[tactic(auto, unfolding(crate::specs::Push::content_check))]
    pub fn check(key: &Key, bytes: Bytes) -> Result<CheckedContent, PushFault>
        ensures same { IfOk result (λ content. content ≡ (key.now, bytes)) }
        ensures checked { AnswersInMemory result (content_check key.now bytes) }
    {
        if bytes.len() as u64 != key.size() {
            return Err(PushFault::SizeMismatch);
        }
        if !key.digest().matches(bytes.as_slice()) {
            return Err(PushFault::DigestMismatch);
        }
        CheckedContent::of_matching(key, bytes)
    }

    /// Reads bytes that are known to match their key, such as fetched bytes. Nothing is hashed.
    ///
    /// # Errors
    ///
    /// - 33 `BadManifest`: the bytes cannot be read as the kind of the media type.
    /// - 34 `Memory`: an allocation failed.
    pub fn of_matching(key: &Key, bytes: Bytes) -> Result<CheckedContent, PushFault>
        requires { Matches key.now bytes }
        ensures same { IfOk result (λ content. content ≡ (key.now, bytes)) }
        ensures checked { AnswersInMemory result (read_check (succ_of key.now bytes)) }
    {
        let kind = Kind::of(key.media_type());
        match successors(key.allocator(), kind, bytes.as_slice()) {
            Ok(successors) => Ok(CheckedContent {
                key: key.try_clone()?,
                bytes,
                successors,
            }),
            Err(fault) => Err(unread(fault)),
        }
    }

    /// Creates checked content for a key that lists nothing, from bytes that are known to match it.
    /// Nothing is hashed or read.
    ///
    /// # Errors
    ///
    /// Returns [`NoMemory`] if an allocation fails.
    pub fn of_leaf(key: &Key, bytes: Bytes) -> Result<CheckedContent, NoMemory>
        requires leaf { IsLeaf key.now }
        requires matching { Matches key.now bytes }
        ensures { IfOk result (λ content. content ≡ (key.now, bytes)) }
    {
        Ok(CheckedContent {
            key: key.try_clone()?,
            bytes,
            successors: Vec::new(key.allocator()),
        })
    }

    /// Returns the key that the bytes match.
    pub fn key(&self) -> &Key
        ensures { result.now ≡ self.now.0 }
    {
        &self.key
    }

    /// Returns the bytes.
    pub fn bytes(&self) -> &Bytes
        ensures bytes { result.now ≡ self.now.1 }
        ensures matching { Matches self.now.0 result.now }
    {
        &self.bytes
    }

    /// Returns the keys that the bytes list.
    pub fn successors(&self) -> &[Key]
        ensures { IsChecked self.now.0 self.now.1 result.now }
    {
        &self.successors
    }

    /// Returns the key, the bytes, and the keys that they list.
    pub fn into_parts(self) -> (Key, Bytes, Vec<Key>)
        ensures key { result.0 ≡ self.0 }
        ensures bytes { result.1 ≡ self.1 }
        ensures successors { IsChecked self.0 self.1 result.2.items }
    {
        (self.key, self.bytes, self.successors)
    }

    /// Returns equal content. The bytes are shared: they are not copied, hashed or read.
    ///
    /// # Errors
    ///
    /// Returns [`NoMemory`] if an allocation fails.
    pub fn try_clone(&self) -> Result<CheckedContent, NoMemory>
        ensures { IfOk result (λ content. content ≡ self.now) }
    {
        Ok(CheckedContent {
            key: self.key.try_clone()?,
            bytes: self.bytes.clone()?,
            successors: cloned(self.key.allocator(), &self.successors)?,
        })
    }
}
