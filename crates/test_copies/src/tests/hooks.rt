//! The calls of hooks.

use crate::tests::calls::{Run, assert_told, options};
use bytes::Bytes;
use oci_copy::copy_graph;
use oci_manifest::Key;
use oci_plan::Existing;
use oci_pool::Hooks;
use oci_store::{FetchFault, MemoryStore, Source, Store};
use std::process::Abort;
use std::sync::Wait;
use std::sync::atomic::{AtomicU64, Ordering};
use std::test::Fail;
use std::thread::Threads;
use test_support::Sample::{Bar, Empty, Foo, Image0, Image2, Image3, Index1};
use test_support::{Device, Sample, keys, memory, on_device};

/// A store that counts its fetches.
#[derive(Drop)]
struct CountedStore<S> {
    store: S,
    fetches: AtomicU64,
}

impl<S: Source> Store for CountedStore<S> {
    ghost state = { λ s. S.state s.store };

    ghost same_keys = { λ s. S.same_keys s.store };

    ghost trusted = { λ s. S.trusted s.store };

    ghost listed = { λ s. S.listed s.store };
}

impl<S: Source> Source for CountedStore<S> {
    fn exists(&self, key: &Key) -> bool {
        self.store.exists(key)
    }

    fn may_fail(&self, key: &Key) -> bool {
        self.store.may_fail(key)
    }

    fn fetch(&self, key: &Key) -> Result<Bytes, FetchFault> {
        self.fetches.fetch_add(1, Ordering::SeqCst);
        self.store.fetch(key)
    }
}

/// Hooks that count their calls, and the calls that are out of order.
#[derive(Drop)]
struct Watching<'s> {
    source: &'s CountedStore<MemoryStore>,
    device: &'s Device,
    /// The number of fetches that the plan makes, and of puts before the copy.
    planned: u64,
    before: u64,
    /// The held roots, in the order in which they have to be reported.
    held: Vec<Key>,
    skipped: AtomicU64,
    began: AtomicU64,
    ended: AtomicU64,
    /// Calls out of order: held roots that were reported out of their order, or after the first key
    /// began; keys that began after that many were fetched or pushed; and keys that ended before
    /// that many were pushed.
    late: AtomicU64,
}

impl<'s> Watching<'s> {
    /// Returns the number of contents that the copy fetched or is fetching.
    fn fetched(&self) -> u64 {
        let fetches = self.source.fetches.load(Ordering::SeqCst);
        fetches.saturating_sub(self.planned)
    }

    /// Returns the number of contents that the copy pushed or is pushing.
    fn pushed(&self) -> u64 {
        self.device.puts().saturating_sub(self.before)
    }

    /// Counts a call that is late.
    fn count_late(&self, is_late: bool) {
        if is_late {
            self.late.fetch_add(1, Ordering::SeqCst);
        }
    }

    /// Whether a key is the one at a place of the held roots.
    fn is_held_at(&self, place: u64, key: &Key) -> bool {
        match self.held.get(place as usize) {
            Some(held) => *held == *key,
            None => false,
        }
    }

    /// Returns the number of held roots reported; of keys that began, were fetched, were pushed, and
    /// ended; and of calls out of order.
    fn counts(&self) -> [u64; 6] {
        [
            self.skipped.load(Ordering::SeqCst),
            self.began.load(Ordering::SeqCst),
            self.fetched(),
            self.pushed(),
            self.ended.load(Ordering::SeqCst),
            self.late.load(Ordering::SeqCst),
        ]
    }
}

impl<'s> Hooks for Watching<'s> {
    fn pre_copy(&self, _key: &Key) {
        let fetched = self.fetched();
        let began = self.began.fetch_add(1, Ordering::SeqCst);
        self.count_late(began < fetched);
        let pushed = self.pushed();
        self.count_late(self.began.load(Ordering::SeqCst) <= pushed);
    }

    fn post_copy(&self, _key: &Key) {
        let ended = self.ended.fetch_add(1, Ordering::SeqCst);
        self.count_late(self.pushed() <= ended);
    }

    fn skipped(&self, key: &Key) {
        let place = self.skipped.fetch_add(1, Ordering::SeqCst);
        self.count_late(!self.is_held_at(place, key));
        self.count_late(self.began.load(Ordering::SeqCst) > 0);
    }
}

/// A copy of two images, and its calls.
#[derive(Clone, Copy)]
struct Row<'a> {
    existing: Existing,
    destination: &'a [Sample],
    roots: &'a [Sample],
    /// The roots that the destination has, each once and in their order.
    held: &'a [Sample],
    /// The number of manifests that the plan fetches.
    planned: u64,
    told: &'a str,
    counts: [u64; 6],
}

/// A copy that skips held keys, and one that descends.
const ROWS: [Row<'static>; 2] = [
    Row {
        existing: Existing::Skip,
        destination: &[Empty, Foo, Bar],
        roots: &[Foo, Index1, Bar, Foo],
        held: &[Foo, Bar],
        planned: 3,
        told: "planned 3 pushed 3 skipped 2",
        counts: [2, 3, 3, 3, 3, 0],
    },
    Row {
        existing: Existing::Descend,
        destination: &[Empty, Foo, Image0],
        roots: &[Foo, Index1, Image0, Foo],
        held: &[Foo, Image0],
        planned: 4,
        told: "planned 4 pushed 4 skipped 2",
        counts: [2, 4, 4, 4, 4, 0],
    },
];

/// Copies into a store on a device with these hooks.
fn assert_copied<R: AllocGlobal + Threads + Wait + Sync + Abort>(
    rt: &R,
    row: &Row<'_>,
    roots: &[Key],
    hooks: &Watching<'_>,
    run: Run<'_>,
) -> Result<(), Fail> {
    let (alloc, options) = (rt.alloc(), options(run.workers, row.existing, 0));
    let store = on_device(alloc, hooks.device, row.destination)?;
    let (_, answer) = copy_graph(rt, alloc, hooks.source, store, roots, &options, hooks);
    assert_told(rt, &answer, &[row.told], run)
}

/// The calls of the hooks are those of the row.
fn assert_calls<R: AllocGlobal + Threads + Wait + Sync + Abort>(
    rt: &R,
    row: &Row<'_>,
    source: &CountedStore<MemoryStore>,
    run: Run<'_>,
) -> Result<(), Fail> {
    let device = Device::failing(None, None);
    let hooks = Watching {
        source,
        device: &device,
        planned: row.planned,
        before: row.destination.len() as u64,
        held: keys(rt.alloc(), row.held)?,
        skipped: AtomicU64::new(0),
        began: AtomicU64::new(0),
        ended: AtomicU64::new(0),
        late: AtomicU64::new(0),
    };
    assert_copied(rt, row, &keys(rt.alloc(), row.roots)?, &hooks, run)?;
    assert_eq!(rt; hooks.counts(), row.counts, "{run}");
    Ok(())
}

/// The calls of a row, by this number of workers.
fn assert_row<R: AllocGlobal + Threads + Wait + Sync + Abort>(
    rt: &R,
    row: &Row<'_>,
    workers: u32,
) -> Result<(), Fail> {
    let run = Run {
        name: row.told,
        workers: Some(workers),
    };
    let source = CountedStore {
        store: memory(
            rt.alloc(),
            &[Empty, Foo, Bar, Image0, Image2, Image3, Index1],
        )?,
        fetches: AtomicU64::new(0),
    };
    assert_calls(rt, row, &source, run)
}

/// Each held root is reported once and first, in their order. Each copied key is reported before
/// its fetch and after its push.
#[test]
fn calls_of_hooks(rt: HostRuntime) -> Result<(), Fail> {
    for row in &ROWS {
        assert_row(&rt, row, 1)?;
        assert_row(&rt, row, 3)?;
    }
    Ok(())
}
