use bytes::Bytes;
use oci_digest::NoMemory;
use oci_manifest::Key;
use oci_store::{
    CheckedContent, ClosedStore, Dest, FetchFault, MemoryDraft, PushFault, Source, Store,
};
use std::marker::Model;

/// Counts down to the push that fails.
#[derive(Drop)]
struct Countdown {
    /// The number of pushes before the failing one. `None` after it failed.
    passing: Option<u64>,
}

impl Countdown {
    /// Counts a push, and returns whether it fails.
    fn fails_now(&mut self) -> bool {
        let Some(passing) = self.passing else {
            return false;
        };
        self.passing = passing.checked_sub(1);
        passing == 0
    }
}

/// A closed store in memory that forwards its calls, and fails one push with a device error.
#[derive(Drop)]
pub struct FailingClosedStore {
    store: ClosedStore,
    countdown: Countdown,
    failures: u64,
}

impl Model for FailingClosedStore {
    ghost use Rattle.std.specs.Prelude.{ℕ};
    ghost use Rattle.oci_store.specs.Contents.{Contents};

    ghost Value = { Contents × ℕ };

    ghost view = { λ s. (s.store, s.failures) };
}

impl FailingClosedStore {
    /// Creates a store whose first `passing` pushes are forwarded, whose next push fails, and whose
    /// later pushes are forwarded again.
    pub fn after(store: ClosedStore, passing: u64) -> FailingClosedStore {
        FailingClosedStore {
            store,
            countdown: Countdown {
                passing: Some(passing),
            },
            failures: 0,
        }
    }
}

impl Store for FailingClosedStore {
    ghost use Rattle.std.proofs.Common.{refl};
    ghost use Rattle.oci_store.specs.GraphLaws.{keys_of-nodes_of};
    ghost use Rattle.test_support.specs.Failing.{failing};

    ghost state = { λ s. failing s.0 s.1 };

    ghost same_keys = { λ s. keys_of-nodes_of s.0.entries };

    ghost trusted = { λ s _. tt };

    ghost listed = { λ s _. refl };
}

impl Source for FailingClosedStore {
    fn exists(&self, key: &Key) -> bool {
        self.store.exists(key)
    }

    fn may_fail(&self, key: &Key) -> bool {
        self.store.may_fail(key)
    }

    fn fetch(&self, key: &Key) -> Result<Bytes, FetchFault> {
        self.store.fetch(key)
    }
}

impl Dest for FailingClosedStore {
    ghost shares = { ⊥ };

    fn has(&self, key: &Key) -> bool {
        self.store.has(key)
    }

    fn count(&self) -> usize {
        self.store.count()
    }

    fn missing(&self) -> Result<Option<(Key, Key)>, NoMemory> {
        self.store.missing()
    }

    fn push_checked(&mut self, content: CheckedContent) -> Result<usize, PushFault> {
        self.store
            .memory()
            .entries()
            .graph()
            .check_closed(&content)?;
        if self.countdown.fails_now() {
            self.failures = self.failures.saturating_add(1);
            return Err(PushFault::Device);
        }
        self.store.push_checked(content)
    }

    type Draft = MemoryDraft;

    fn draft(&self, key: &Key) -> Result<MemoryDraft, NoMemory> {
        self.store.draft(key)
    }

    fn push_draft(&mut self, key: &Key, draft: MemoryDraft) -> Result<usize, PushFault> {
        let content = draft.into_content(key)?;
        self.push_checked(content)
    }

    fn failures(&self) -> u64 {
        self.failures
    }
}
