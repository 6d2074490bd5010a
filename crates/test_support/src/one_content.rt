ghost use Rattle.std.specs.Prelude.{◌≡◌, is_some, [], ◌∷◌};
ghost use Rattle.std.specs.Option.{option_copied};
ghost use Rattle.oci_store.specs.Keyed.{value_at, has_key};

use bytes::Bytes;
use oci_manifest::Key;
use oci_store::{FetchFault, Source, Store};
use std::marker::Model;

/// A source on a device with one content, which may be unreadable as its key's kind.
#[derive(Drop)]
pub struct OneContent {
    key: Key,
    bytes: Bytes,
}

impl Model for OneContent {
    ghost use Rattle.oci_store.specs.Content.{Entry};

    ghost Value = { Entry };

    ghost view = { λ s. (s.key, s.bytes) };
}

impl OneContent {
    /// Creates a source with these bytes under the key. A fetch returns `Corrupt` if they do not
    /// match it.
    pub fn new(key: Key, bytes: Bytes) -> OneContent {
        OneContent { key, bytes }
    }

    /// Returns the bytes under a key.
    fn content(&self, key: &Key) -> Option<&Bytes>
        ensures found { option_copied result ≡ value_at (self.now ∷ []) key.now }
        ensures entry { is_some result ≡ has_key (self.now ∷ []) key.now }
    {
        if self.key == *key {
            Some(&self.bytes)
        } else {
            None
        }
    }
}

impl Store for OneContent {
    ghost use Rattle.std.specs.Prelude.{true, ⊤};
    ghost use Rattle.std.proofs.Common.{refl};
    ghost use Rattle.oci_store.specs.Graph.{nodes_of};

    ghost state = { λ s. record {
      nodes = nodes_of (s ∷ []);
      entries = s ∷ [];
      tags = [];
      name = [];
      lasts = λ entries tags. ⊥;
      failures = 0;
      fails_at = λ k. true;
      is_honest = ⊤;
      is_sound = ⊥;
      is_halted = ⊥;
    } };

    ghost same_keys = { λ s. refl };

    ghost trusted = { λ s _. tt };

    ghost listed = { λ s _. refl };
}

impl Source for OneContent {
    fn exists(&self, key: &Key) -> bool {
        self.content(key).is_some()
    }

    fn may_fail(&self, _key: &Key) -> bool {
        true
    }

    fn fetch(&self, key: &Key) -> Result<Bytes, FetchFault> {
        let Some(content) = self.content(key) else {
            return Err(FetchFault::NotFound);
        };
        if !key.matches(content.as_slice()) {
            return Err(FetchFault::Corrupt);
        }
        content.clone().map_err(|_| FetchFault::Memory)
    }
}
