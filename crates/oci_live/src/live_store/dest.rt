ghost use Rattle.std.specs.Prelude.{◌≡◌, ◌⊎◌, [], ◌∷◌, ◌++◌, true, false, OnOk, OnErr, IsErrOf};
ghost use Rattle.std.specs.Result.{IsErr};
ghost use Rattle.oci_store.specs.Push.{closed_check, IsPush};
ghost use Rattle.oci_live.specs.Live.{state_of};

use crate::live_store::LiveStore;
use oci_digest::NoMemory;
use oci_manifest::Key;
use oci_store::{CheckedContent, Dest, MemoryDraft, PushFault, Store};
use std::sync::Wait;

impl<R: Wait + Drop> Store for LiveStore<R> {
    ghost use Rattle.std.proofs.Common.{refl};
    ghost use Rattle.oci_store.specs.GraphLaws.{keys_of-nodes_of};
    ghost use Rattle.oci_live.specs.Live.{state_of};

    ghost state = { λ s. state_of s };

    ghost same_keys = { λ s. keys_of-nodes_of s.entries };

    ghost trusted = { λ s _. tt };

    ghost listed = { λ s _. refl };
}

impl<R: Wait + Drop> Dest for LiveStore<R> {
    ghost shares = { ⊥ };

    fn has(&self, key: &Key) -> bool {
        self.shelf().entries.content(key).is_some()
    }

    fn count(&self) -> usize {
        self.shelf().entries.len()
    }

    /// Returns `None`, since the store is closed.
    fn missing(&self) -> Result<Option<(Key, Key)>, NoMemory> {
        // The contract of `shelf` states that the entries are closed.
        let _closed = self.shelf();
        Ok(None)
    }

    /// Publishes one entry. This may wait for calls of looks that have begun.
    ///
    /// # Errors
    ///
    /// The causes are checked in this order:
    ///
    /// - 30 `AlreadyExists`: the key is held.
    /// - 42 `MissingSuccessor`: the content lists a key that is not held. The first one is
    ///   reported.
    /// - 44 `Halted`: the store had halted before the call.
    ///
    /// 34 `Memory` is possible at any point. If the publication runs out of memory, the store halts
    /// and publishes nothing from then on. An error leaves the entries unchanged.
    fn push_checked(&mut self, content: CheckedContent) -> Result<usize, PushFault>
        ensures pushed { IsPush ⊥ (state_of self.old) (state_of self.new) content result }
        ensures untouched { IsErr (closed_check (state_of self.old).nodes content.0 content.1)
            → self.new ≡ self.old }

        // Only of a live store: it has no device, only a running store publishes, and an error
        // leaves the store unchanged or halts it.
        ensures device { IsErrOf result PushFault.Device → ⊥ }
        ensures published { OnOk result ((self.old.is_halted ≡ false)
            × (self.new ≡ record self.old { entries = self.old.entries ++ content ∷ [] })) }
        ensures left { OnErr result ((self.new ≡ self.old) ⊎
            (self.new ≡ record self.old { is_halted = true })) }
    {
        let entries = &self.shelf().entries;
        entries.graph().check_closed(&content)?;
        let place = entries.len();
        if self.is_halted {
            return Err(PushFault::Halted);
        }
        self.publish(content)?;
        Ok(place)
    }

    type Draft = MemoryDraft;

    fn draft(&self, key: &Key) -> Result<MemoryDraft, NoMemory> {
        Ok(MemoryDraft::new(key.allocator()))
    }

    fn push_draft(&mut self, key: &Key, draft: MemoryDraft) -> Result<usize, PushFault> {
        let content = draft.into_content(key)?;
        self.push_checked(content)
    }

    fn failures(&self) -> u64 {
        0
    }
}
