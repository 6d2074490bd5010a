//! Pushes small contents into a store.

use crate::looking::{ask, push_all_looked_at};
use crate::pushing::{Content, Tally, contents, push_all};
use oci_live::LiveStore;
use oci_manifest::Key;
use oci_store::{ClosedStore, Dest};
use std::alloc::Global;
use std::sync::Wait;
use std::sync::atomic::AtomicBool;
use std::thread::Threads;

/// Pushes contents into a store. The words are the name of the store and the number of contents.
/// Returns `None` if they cannot be read, or if there is no memory for the store.
pub(crate) fn run_pushes<R: Threads + Wait + Send + Sync + Copy + Drop>(
    rt: R,
    alloc: Global,
    words: &[String],
) -> Option<Tally> {
    let count = words.get(1)?.as_str().parse().ok()?;
    let contents = contents(alloc, count).ok()?;
    pushed(rt, alloc, words.first()?.as_str(), contents)
}

/// Pushes the contents into the store with this name.
fn pushed<R: Threads + Wait + Send + Sync + Copy + Drop>(
    rt: R,
    alloc: Global,
    store: &str,
    contents: Vec<Content>,
) -> Option<Tally> {
    match store {
        "closed" => Some(closed(alloc, contents)),
        "live" => live(rt, alloc, contents),
        "looked" => looked(rt, alloc, contents),
        "asked" => asked(rt, alloc, contents),
        _ => None,
    }
}

fn closed(alloc: Global, contents: Vec<Content>) -> Tally {
    let mut store = ClosedStore::new(alloc);
    let tally = push_all(&mut store, contents);
    tally.held(store.count())
}

fn opened<R: Wait + Drop>(rt: R, alloc: Global) -> Option<LiveStore<R>> {
    match LiveStore::open(rt, alloc, ClosedStore::new(alloc)) {
        Ok(live) => Some(live),
        Err(_) => None,
    }
}

fn live<R: Wait + Drop>(rt: R, alloc: Global, contents: Vec<Content>) -> Option<Tally> {
    let mut live = opened(rt, alloc)?;
    let tally = push_all(&mut live, contents);
    copied_out(&live, tally)
}

/// Returns the tally with the number of entries in a copy of the store.
fn copied_out<R: Wait + Drop>(live: &LiveStore<R>, tally: Tally) -> Option<Tally> {
    match live.copy_out() {
        Ok(out) => Some(tally.held(out.memory().len())),
        Err(_) => None,
    }
}

/// Returns the key that looks ask for.
fn asked_for(contents: &[Content]) -> Option<Key> {
    contents.last()?.key.try_clone().ok()
}

fn looked<R: Threads + Wait + Send + Sync + Copy + Drop>(
    rt: R,
    alloc: Global,
    contents: Vec<Content>,
) -> Option<Tally> {
    let key = asked_for(&contents)?;
    let mut live = opened(rt, alloc)?;
    let tally = push_all_looked_at(&rt, &mut live, &key, contents)?;
    Some(tally.held(live.count()))
}

fn asked<R: Wait + Drop>(rt: R, alloc: Global, contents: Vec<Content>) -> Option<Tally> {
    let key = asked_for(&contents)?;
    let mut live = opened(rt, alloc)?;
    let mut look = live.look().ok()?;
    let tally = push_all(&mut live, contents);
    let answers = ask(&mut look, &key, 1_000_000, &AtomicBool::new(false));
    Some(tally.held(live.count()).answered(answers))
}
