use crate::pushing::{Content, Tally, push_all};
use oci_live::{LiveStore, Look};
use oci_manifest::Key;
use std::sync::Wait;
use std::sync::atomic::{AtomicBool, Ordering};
use std::thread::{Threads, join};

/// Pushes all contents while two looks ask for a key. Returns `None` if there is no memory for a
/// look.
pub(crate) fn push_all_looked_at<T: Threads + Sync, R: Wait + Drop + Send>(
    rt: &T,
    live: &mut LiveStore<R>,
    key: &Key,
    contents: Vec<Content>,
) -> Option<Tally> {
    let looks = (live.look().ok()?, live.look().ok()?);
    Some(push_all_beside(rt, live, looks, key, contents))
}

/// Pushes all contents while these looks ask for a key, each on its own thread.
fn push_all_beside<T: Threads + Sync, R: Wait + Drop + Send>(
    rt: &T,
    live: &mut LiveStore<R>,
    looks: (Look, Look),
    key: &Key,
    contents: Vec<Content>,
) -> Tally {
    let done = AtomicBool::new(false);
    let (mut first, mut second) = looks;
    let one = || ask(&mut first, key, u64::MAX, &done);
    let other = || ask(&mut second, key, u64::MAX, &done);
    let others = || join(rt, one, other);
    let (tally, answers) = join(rt, || push_until_done(live, contents, &done), others);
    tally.answered(answers.0.wrapping_add(answers.1))
}

fn push_until_done<R: Wait + Drop>(
    live: &mut LiveStore<R>,
    contents: Vec<Content>,
    done: &AtomicBool,
) -> Tally {
    let tally = push_all(live, contents);
    done.store(true, Ordering::SeqCst);
    tally
}

/// Asks a look for a key until `done` is set, at most `times` times. Returns how often it
/// succeeded.
pub(crate) fn ask(look: &mut Look, key: &Key, times: u64, done: &AtomicBool) -> u64 {
    let mut answers: u64 = 0;
    for _ in 0..times {
        if done.load(Ordering::SeqCst) {
            break;
        }
        if look.exists(key).is_ok() {
            answers = answers.wrapping_add(1);
        }
    }
    answers
}
