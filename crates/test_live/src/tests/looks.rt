ghost use Rattle.std.specs.Prelude.{◌≡◌};

use crate::telling::copy_and_tell;
use crate::tests::stores::{by, counts, has, looked_at, numbers, shows, shows_at};
use oci_copy::copy_graph;
use oci_live::{LiveStore, Look, Note};
use oci_manifest::Key;
use oci_pool::{Hooks, NoHooks};
use oci_store::MemoryStore;
use std::alloc::Global;
use std::process::Abort;
use std::slice;
use std::sync::Wait;
use std::sync::atomic::{AtomicBool, Ordering};
use std::test::Fail;
use std::thread::{Threads, join};
use test_support::Sample::{Empty, Foo, Image0};
use test_support::{Sample, memory};

/// The largest number of times that a look or a hook checks for an event.
const LOOKS: u64 = 1_000_000_000;

/// Returns whether a look has the three contents that are in the store after the copy.
fn has_all(alloc: Global, look: &mut Look) -> Result<bool, Fail> {
    Ok(counts(look, 3) && shows(alloc, look, Empty)? && shows_at(alloc, look, 0, Foo)?)
}

/// Learns a note, and returns whether the look then has all contents.
fn has_learned(alloc: Global, look: &mut Look, note: &Note) -> Result<bool, Fail>
    requires { look.old.name ≡ note.now.name }
{
    look.learn(note);
    has_all(alloc, look)
}

/// Like `has_learned`, on another thread.
fn has_learned_there<R: Threads + Sync>(
    rt: &R,
    alloc: Global,
    look: &mut Look,
    note: &Note,
) -> Result<bool, Fail>
    requires { look.old.name ≡ note.now.name }
{
    let (learned, ()) = join(rt, || has_learned(alloc, look, note), || ());
    learned
}

/// The contents of a live store after the copy.
const AFTER: [Sample; 3] = [Foo, Empty, Image0];

/// Copies an image into a live store by three workers. Returns whether everything was copied, and a
/// look that learns a note on another thread has all of it.
fn is_learned<R: Threads + Wait + Sync + Send + Copy + Drop>(
    rt: &R,
    alloc: Global,
    source: &MemoryStore,
    root: &Key,
    live: LiveStore<R>,
    look: &mut Look,
) -> Result<bool, Fail>
    requires { look.old.name ≡ live.name }
{
    let roots = slice::from_ref(root);
    let (live, copied) = copy_graph(rt, alloc, source, live, roots, &by(3), &NoHooks);
    let came = numbers(copied) == Some([2, 2, 0]);
    let learned = has_learned_there(rt, alloc, look, &live.note())?;
    Ok(came && learned && has(alloc, &live, &AFTER)?)
}

/// Like `is_learned`, but the copy updates the look on the calling thread.
fn is_told<R: Threads + Wait + Sync + Send + Copy + Drop>(
    rt: &R,
    alloc: Global,
    source: &MemoryStore,
    root: &Key,
    live: LiveStore<R>,
    look: &mut Look,
) -> Result<bool, Fail>
    requires { look.old.name ≡ live.name }
{
    let roots = slice::from_ref(root);
    let (live, copied) = copy_and_tell(rt, alloc, source, live, look, roots, &by(3), &NoHooks);
    let came = numbers(copied) == Some([2, 2, 0]);
    let told = has_all(alloc, look)?;
    Ok(came && told && has(alloc, &live, &AFTER)?)
}

/// How a look learns of a copy.
#[derive(Clone, Copy, Debug)]
enum Telling {
    /// It learns a note on another thread.
    ByNote,
    /// The copy updates it on the calling thread.
    ByCopy,
}

/// Asserts that a look at a live store with one content has only that content, and has all contents
/// after a copy.
fn assert_looks<R: Threads + Wait + Abort + Sync + Send + Copy + Drop>(
    rt: &R,
    alloc: Global,
    source: &MemoryStore,
    root: &Key,
    telling: Telling,
) -> Result<(), Fail> {
    let (live, mut look) = looked_at(alloc, *rt, &[Foo])?;
    assert!(rt; counts(&mut look, 1), "row {telling:?}");
    let shown = match telling {
        Telling::ByNote => is_learned(rt, alloc, source, root, live, &mut look)?,
        Telling::ByCopy => is_told(rt, alloc, source, root, live, &mut look)?,
    };
    assert!(rt; shown, "row {telling:?}");
    Ok(())
}

/// Like `assert_looks`, with a source that has the image to be copied.
fn assert_looks_at_image<R: Threads + Wait + Abort + Sync + Send + Copy + Drop>(
    rt: R,
    alloc: Global,
    telling: Telling,
) -> Result<(), Fail> {
    let source = memory(alloc, &[Empty, Image0])?;
    assert_looks(&rt, alloc, &source, &Image0.key(alloc)?, telling)
}

#[test]
fn live_look(rt: HostRuntime) -> Result<(), Fail> {
    assert_looks_at_image(rt, rt.alloc(), Telling::ByNote)
}

#[test]
fn look_that_a_copy_tells(rt: HostRuntime) -> Result<(), Fail> {
    assert_looks_at_image(rt, rt.alloc(), Telling::ByCopy)
}

/// Hooks that wait for a flag before one key is fetched.
#[derive(Drop)]
struct LooksForFlag<'f> {
    key: Key,
    flag: &'f AtomicBool,
    /// Whether the flag was set.
    saw: AtomicBool,
}

impl<'f> Hooks for LooksForFlag<'f> {
    fn pre_copy(&self, key: &Key) {
        if *key == self.key {
            self.saw.store(is_set(self.flag), Ordering::SeqCst);
        }
    }

    fn post_copy(&self, _key: &Key) {}

    fn skipped(&self, _key: &Key) {}
}

/// Reads a flag until it is set, at most `LOOKS` times. Returns whether it was set.
fn is_set(flag: &AtomicBool) -> bool {
    (0..LOOKS).any(|_| flag.load(Ordering::SeqCst))
}

/// Looks at a store until it has `count` entries, at most `LOOKS` times. Returns whether it had
/// them.
fn sees(look: &mut Look, count: usize) -> bool {
    for _ in 0..LOOKS {
        if counts(look, count) {
            return true;
        }
    }
    false
}

/// Returns whether a look, once there are two entries, has the config but not the image. Then sets
/// the flag.
fn is_between(look: &mut Look, config: &Key, image: &Key, flag: &AtomicBool) -> bool {
    let is_there = sees(look, 2) && answers(look, config, true) && answers(look, image, false);
    flag.store(true, Ordering::SeqCst);
    is_there
}

/// Returns whether a look reports that a key is held, or not.
fn answers(look: &mut Look, key: &Key, held: bool) -> bool {
    look.exists(key) == Ok(held)
}

/// Copies by two workers, and returns only the result.
fn copied<R: Threads + Wait + Sync + Send + Drop + Copy, H: Hooks + Sync>(
    rt: &R,
    alloc: Global,
    source: &MemoryStore,
    live: LiveStore<R>,
    root: &Key,
    hooks: &H,
) -> Option<[u64; 3]> {
    let roots = slice::from_ref(root);
    let (_live, copied) = copy_graph(rt, alloc, source, live, roots, &by(2), hooks);
    numbers(copied)
}

/// Copies an image by two workers while another thread uses a look. Returns whether the look was
/// used between the two pushes, and the result of the copy.
fn copied_meanwhile<R: Threads + Wait + Sync + Send + Copy + Drop>(
    rt: &R,
    alloc: Global,
    source: &MemoryStore,
    config: &Key,
    hooks: &LooksForFlag,
) -> Result<(bool, Option<[u64; 3]>), Fail> {
    let (live, mut look) = looked_at(alloc, *rt, &[Foo])?;
    Ok(join(
        rt,
        || is_between(&mut look, config, &hooks.key, hooks.flag),
        || copied(rt, alloc, source, live, &hooks.key, hooks),
    ))
}

/// Like `copied_meanwhile`, with hooks that wait before the image.
fn image_copied_meanwhile<R: Threads + Wait + Sync + Send + Copy + Drop>(
    rt: &R,
    alloc: Global,
    hooks: &LooksForFlag,
) -> Result<(bool, Option<[u64; 3]>), Fail> {
    let source = memory(alloc, &[Empty, Image0])?;
    copied_meanwhile(rt, alloc, &source, &Empty.key(alloc)?, hooks)
}

/// The hook holds the image back until the look has been used. So this happens between the two
/// pushes of the copy.
#[test]
fn look_in_the_middle_of_a_copy(rt: HostRuntime) -> Result<(), Fail> {
    let flag = AtomicBool::new(false);
    let hooks = LooksForFlag {
        key: Image0.key(rt.alloc())?,
        flag: &flag,
        saw: AtomicBool::new(false),
    };
    let (answered, copied) = image_copied_meanwhile(&rt, rt.alloc(), &hooks)?;
    assert!(rt; answered && hooks.saw.load(Ordering::SeqCst));
    assert_eq!(rt; copied, Some([2, 2, 0]));
    Ok(())
}
