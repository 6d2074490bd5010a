use oci_digest::NoMemory;
use oci_manifest::Key;
use oci_store::{CheckedContent, Dest, Entries, MemoryDraft, PushFault, Store};
use std::alloc::Global;
use std::marker::Model;

/// A store that only publishes: others see exactly its list of entries. If a publication fails, the
/// list is unchanged and the store halts.
#[derive(Drop)]
pub struct PublishedStore {
    published: Entries,
    /// The number of publications that succeed.
    passing: u64,
    is_halted: bool,
}

impl Model for PublishedStore {
    ghost use Rattle.std.specs.Prelude.{List, Bool};
    ghost use Rattle.oci_store.specs.Content.{Entry};

    ghost Value = { List Entry × Bool };

    ghost view = { λ s. (s.published, s.is_halted) };
}

impl PublishedStore {
    /// Creates an empty store whose first `passing` publications succeed, and whose next one fails.
    pub fn new(alloc: Global, passing: u64) -> PublishedStore {
        PublishedStore {
            published: Entries::new(alloc),
            passing,
            is_halted: false,
        }
    }
}

impl Store for PublishedStore {
    ghost use Rattle.std.specs.Prelude.{◌≡◌, true, false, [], ◌∷◌, ⊤};
    ghost use Rattle.std.proofs.Common.{refl};
    ghost use Rattle.oci_store.specs.Graph.{nodes_of};
    ghost use Rattle.oci_store.specs.GraphLaws.{keys_of-nodes_of};

    ghost state = { λ s. record {
      nodes = nodes_of s.0;
      entries = s.0;
      tags = [];
      name = 1 ∷ [];
      lasts = λ entries tags. ⊥;
      failures = 0;
      fails_at = λ k. false;
      is_honest = ⊤;
      is_sound = ⊤;
      is_halted = s.1 ≡ true;
    } };

    ghost same_keys = { λ s. keys_of-nodes_of s.0 };

    ghost trusted = { λ s _. tt };

    ghost listed = { λ s _. refl };
}

impl Dest for PublishedStore {
    ghost shares = { ⊥ };

    fn has(&self, key: &Key) -> bool {
        self.published.content(key).is_some()
    }

    fn count(&self) -> usize {
        self.published.len()
    }

    fn missing(&self) -> Result<Option<(Key, Key)>, NoMemory> {
        self.published.graph().first_missing_successor()
    }

    fn push_checked(&mut self, content: CheckedContent) -> Result<usize, PushFault> {
        self.published.graph().check_closed(&content)?;
        if self.is_halted {
            return Err(PushFault::Halted);
        }
        if self.passing == 0 {
            self.is_halted = true;
            return Err(PushFault::Memory);
        }
        self.passing -= 1;
        Ok(self.published.push(content)?)
    }

    type Draft = MemoryDraft;

    fn draft(&self, key: &Key) -> Result<MemoryDraft, NoMemory> {
        Ok(MemoryDraft::new(key.allocator()))
    }

    fn push_draft(&mut self, key: &Key, draft: MemoryDraft) -> Result<usize, PushFault> {
        let content = draft.into_content(key)?;
        self.push_checked(content)
    }

    fn failures(&self) -> u64 {
        0
    }
}
