use crate::tests::calls::{Run, assert_told, options};
use bytes::Bytes;
use oci_copy::copy_graph;
use oci_digest::NoMemory;
use oci_manifest::Key;
use oci_plan::Existing;
use oci_pool::{Hooks, NoHooks};
use oci_store::{
    CheckedContent, ClosedStore, Dest, Drafting, FetchFault, MemoryStore, PushFault, Source, Store,
};
use std::process::Abort;
use std::sync::Wait;
use std::sync::atomic::{AtomicU64, Ordering};
use std::test::Fail;
use std::thread::Threads;
use test_support::Sample::{Bar, Foo};
use test_support::{closed, keys, memory};

/// A number of looks that takes some seconds.
const LOOKS: u64 = 1_000_000_000;

/// A place where two workers wait for each other: each looks `looks` times for the other, and then
/// gives up.
#[derive(Drop)]
struct MeetingPlace {
    looks: u64,
    came: AtomicU64,
    met: AtomicU64,
}

impl MeetingPlace {
    fn looking(looks: u64) -> MeetingPlace {
        MeetingPlace {
            looks,
            came: AtomicU64::new(0),
            met: AtomicU64::new(0),
        }
    }

    fn come(&self) {
        self.came.fetch_add(1, Ordering::SeqCst);
        for _ in 0..self.looks {
            if self.came.load(Ordering::SeqCst) >= 2 {
                self.met.fetch_add(1, Ordering::SeqCst);
                break;
            }
        }
    }

    /// Returns the number of workers that met the other.
    fn met(&self) -> u64 {
        self.met.load(Ordering::SeqCst)
    }
}

/// Hooks with three meeting places: one for the calls before a fetch, one for the parts that were
/// fetched, one for the calls after a push.
#[derive(Drop)]
struct MeetingHooks {
    began: MeetingPlace,
    arrived: MeetingPlace,
    ended: MeetingPlace,
}

impl MeetingHooks {
    fn looking(looks: u64) -> MeetingHooks {
        MeetingHooks {
            began: MeetingPlace::looking(looks),
            arrived: MeetingPlace::looking(looks),
            ended: MeetingPlace::looking(looks),
        }
    }
}

impl Hooks for MeetingHooks {
    fn pre_copy(&self, _key: &Key) {
        self.began.come();
    }

    fn part_arrived(&self, _key: &Key, _length: usize) {
        self.arrived.come();
    }

    fn post_copy(&self, _key: &Key) {
        self.ended.come();
    }

    fn skipped(&self, _key: &Key) {}
}

/// A store with a meeting place for its fetches.
#[derive(Drop)]
struct MeetingStore<S> {
    store: S,
    meeting: MeetingPlace,
}

impl<S: Source> Store for MeetingStore<S> {
    ghost state = { λ s. S.state s.store };

    ghost same_keys = { λ s. S.same_keys s.store };

    ghost trusted = { λ s. S.trusted s.store };

    ghost listed = { λ s. S.listed s.store };
}

impl<S: Source> Source for MeetingStore<S> {
    fn exists(&self, key: &Key) -> bool {
        self.store.exists(key)
    }

    fn may_fail(&self, key: &Key) -> bool {
        self.store.may_fail(key)
    }

    fn fetch(&self, key: &Key) -> Result<Bytes, FetchFault> {
        self.meeting.come();
        self.store.fetch(key)
    }
}

/// A store whose fetches may fail, so that layers are read part by part. It has a meeting place for
/// these reads.
#[derive(Drop)]
struct PartsMeet {
    store: MemoryStore,
    meeting: MeetingPlace,
}

impl Store for PartsMeet {
    ghost use Rattle.std.specs.Prelude.{true, [], ⊤};
    ghost use Rattle.std.proofs.Common.{refl};
    ghost use Rattle.oci_store.specs.Graph.{nodes_of};
    ghost use Rattle.oci_store.specs.GraphLaws.{keys_of-nodes_of};

    ghost state = { λ s. record {
      nodes = nodes_of s.store.entries;
      entries = s.store.entries;
      tags = s.store.tags;
      name = [];
      lasts = λ entries tags. ⊥;
      failures = 0;
      fails_at = λ k. true;
      is_honest = ⊤;
      is_sound = ⊤;
      is_halted = ⊥;
    } };

    ghost same_keys = { λ s. keys_of-nodes_of s.store.entries };

    ghost trusted = { λ s _. tt };

    ghost listed = { λ s _. refl };
}

impl Source for PartsMeet {
    fn exists(&self, key: &Key) -> bool {
        self.store.exists(key)
    }

    fn may_fail(&self, _key: &Key) -> bool {
        true
    }

    fn fetch(&self, key: &Key) -> Result<Bytes, FetchFault> {
        self.store.fetch(key)
    }

    fn fetch_part(&self, key: &Key, from: u64, most: usize) -> Result<Bytes, FetchFault> {
        self.meeting.come();
        self.store.fetch_part(key, from, most)
    }
}

/// A draft that notes that it was settled after its last write, at a meeting place.
#[derive(Drop)]
struct SettlingDraft<'m, W> {
    draft: W,
    meeting: &'m MeetingPlace,
    is_settled: bool,
}

impl<'m, W: Drafting> Drafting for SettlingDraft<'m, W> {
    ghost drafted = { λ d. W.drafted d.draft };

    ghost is_lost = { λ d. W.is_lost d.draft };

    fn append(&mut self, part: &[u8]) -> Result<(), NoMemory> {
        self.is_settled = false;
        self.draft.append(part)
    }

    fn settle(&mut self) {
        self.draft.settle();
        self.meeting.come();
        self.is_settled = true;
    }

    fn is_broken(&self) -> bool {
        self.draft.is_broken()
    }
}

/// A destination with a meeting place for the settling of its drafts. It counts the drafts that
/// were settled before their push.
#[derive(Drop)]
struct SettlingStore<'m, D> {
    store: D,
    meeting: &'m MeetingPlace,
    settled: &'m AtomicU64,
}

impl<'m, D: Dest> Store for SettlingStore<'m, D> {
    ghost state = { λ s. D.state s.store };

    ghost same_keys = { λ s. D.same_keys s.store };

    ghost trusted = { λ s. D.trusted s.store };

    ghost listed = { λ s. D.listed s.store };
}

impl<'m, D: Dest> Dest for SettlingStore<'m, D> {
    ghost shares = { D.shares };

    fn has(&self, key: &Key) -> bool {
        self.store.has(key)
    }

    fn count(&self) -> usize {
        self.store.count()
    }

    fn missing(&self) -> Result<Option<(Key, Key)>, NoMemory> {
        self.store.missing()
    }

    fn push_checked(&mut self, content: CheckedContent) -> Result<usize, PushFault> {
        self.store.push_checked(content)
    }

    fn push_closed(&mut self, key: &Key, bytes: Bytes) -> Result<usize, PushFault> {
        self.store.push_closed(key, bytes)
    }

    type Draft = SettlingDraft<'m, D::Draft>;

    fn draft(&self, key: &Key) -> Result<SettlingDraft<'m, D::Draft>, NoMemory> {
        Ok(SettlingDraft {
            draft: self.store.draft(key)?,
            meeting: self.meeting,
            is_settled: false,
        })
    }

    fn push_draft(
        &mut self,
        key: &Key,
        draft: SettlingDraft<'m, D::Draft>,
    ) -> Result<usize, PushFault> {
        if draft.is_settled {
            self.settled.fetch_add(1, Ordering::SeqCst);
        }
        self.store.push_draft(key, draft.draft)
    }

    fn failures(&self) -> u64 {
        self.store.failures()
    }
}

/// Copies two layers into an empty destination by this number of workers.
fn assert_two_into<
    R: AllocGlobal + Threads + Wait + Sync + Abort,
    A: Source + Sync,
    D: Dest + Drop + Send,
    H: Hooks + Sync,
>(rt: &R, source: &A, empty: D, workers: u32, hooks: &H) -> Result<(), Fail>
where
    D::Draft: Send,
{
    let run = Run {
        name: "two layers",
        workers: Some(workers),
    };
    let options = options(run.workers, Existing::Skip, 0);
    let roots = keys(rt.alloc(), &[Foo, Bar])?;
    let (_, answer) = copy_graph(rt, rt.alloc(), source, empty, &roots, &options, hooks);
    assert_told(rt, &answer, &["planned 2 pushed 2 skipped 0"], run)
}

/// Copies two layers by this number of workers.
fn assert_two<R: AllocGlobal + Threads + Wait + Sync + Abort, A: Source + Sync, H: Hooks + Sync>(
    rt: &R,
    source: &A,
    workers: u32,
    hooks: &H,
) -> Result<(), Fail> {
    let empty = closed(rt.alloc(), &[])?;
    assert_two_into(rt, source, empty, workers, hooks)
}

/// Of the workers that copy from this source with these hooks, `met` meet before they fetch, `met`
/// when they have fetched, and `met` after they have pushed.
fn assert_hooks_meet<R: AllocGlobal + Threads + Wait + Sync + Abort, A: Source + Sync>(
    rt: &R,
    source: &A,
    workers: u32,
    hooks: &MeetingHooks,
    met: u64,
) -> Result<(), Fail> {
    assert_two(rt, source, workers, hooks)?;
    assert_eq!(rt; hooks.began.met(), met, "before a fetch, by {workers}");
    assert_eq!(rt; hooks.arrived.met(), met, "after a fetch, by {workers}");
    assert_eq!(rt; hooks.ended.met(), met, "after a push, by {workers}");
    Ok(())
}

/// Of these workers, which look `looks` times for each other, `met` meet at each call of the hooks.
fn assert_met<R: AllocGlobal + Threads + Wait + Sync + Abort>(
    rt: &R,
    workers: u32,
    looks: u64,
    met: u64,
) -> Result<(), Fail> {
    let source = memory(rt.alloc(), &[Foo, Bar])?;
    assert_hooks_meet(rt, &source, workers, &MeetingHooks::looking(looks), met)
}

/// Two workers run at the same time: each of two keys waits for the other to begin. Then each waits
/// for the fetch and for the push of the other, so neither worker holds the destination's lock. One
/// worker begins with a key and gives up, since the other key has not begun; with the other key it
/// finds that the first has.
#[test]
fn meeting(rt: HostRuntime) -> Result<(), Fail> {
    assert_met(&rt, 2, LOOKS, 2)?;
    assert_met(&rt, 1, 1_000, 1)
}

/// Two workers fetch at the same time, so neither holds the destination's lock.
#[test]
fn fetches_meet(rt: HostRuntime) -> Result<(), Fail> {
    let source = MeetingStore {
        store: memory(rt.alloc(), &[Foo, Bar])?,
        meeting: MeetingPlace::looking(LOOKS),
    };
    assert_two(&rt, &source, 2, &NoHooks)?;
    assert!(rt; source.meeting.met() >= 2);
    Ok(())
}

/// Returns a source that is read part by part, and whose reads look `looks` times for each other.
fn parts_meet<R: AllocGlobal>(rt: &R, looks: u64) -> Result<PartsMeet, Fail> {
    Ok(PartsMeet {
        store: memory(rt.alloc(), &[Foo, Bar])?,
        meeting: MeetingPlace::looking(looks),
    })
}

/// Two workers read parts of two layers at the same time, and each is told of its part while the
/// other is, so neither holds the destination's lock.
#[test]
fn reads_of_parts_meet(rt: HostRuntime) -> Result<(), Fail> {
    let source = parts_meet(&rt, LOOKS)?;
    assert_hooks_meet(&rt, &source, 2, &MeetingHooks::looking(LOOKS), 2)?;
    assert_eq!(rt; source.meeting.met(), 2);
    Ok(())
}

/// Two of three workers settle the drafts of two layers at the same time, so neither holds the
/// destination's lock. Each draft was settled before its push.
#[test]
fn settling_meets(rt: HostRuntime) -> Result<(), Fail> {
    let meeting = MeetingPlace::looking(LOOKS);
    let settled = AtomicU64::new(0);
    let destination = SettlingStore {
        store: ClosedStore::new(rt.alloc()),
        meeting: &meeting,
        settled: &settled,
    };
    assert_two_into(&rt, &parts_meet(&rt, 1)?, destination, 3, &NoHooks)?;
    assert_eq!(rt; (meeting.met(), settled.load(Ordering::SeqCst)), (2, 2));
    Ok(())
}
