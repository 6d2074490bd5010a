ghost use Rattle.std.specs.Prelude.{◌≡◌, IfOk};

use crate::line::Line;
use crate::stores::{Graph, by_three, destination_with};
use bytes::Bytes;
use oci_copy::copy_graph;
use oci_live::{LiveStore, Look};
use oci_manifest::Key;
use oci_pool::NoHooks;
use oci_store::{ClosedStore, Dest};
use std::alloc::Global;
use std::slice;
use std::sync::Wait;
use std::test::Fail;
use std::thread::{Threads, join};
use test_support::Sample;
use test_support::Sample::{Empty, Foo, Image0};

/// Copies an image into a live store with an old entry while a look is open, and copies it again.
pub(crate) fn looked_at<R: Threads + Wait + Send + Sync + Copy + Drop>(
    rt: R,
    alloc: Global,
    line: &mut Line,
) -> Result<(), Fail> {
    let graph = Graph::of(alloc, &[Empty, Image0], Image0)?;
    let live = opened(rt, alloc, line)?;
    looked_on(&rt, alloc, &graph, live, line)
}

/// Returns a live store with the old entry. After an error it is opened again.
fn opened<R: Wait + Drop + Copy>(
    rt: R,
    alloc: Global,
    line: &mut Line,
) -> Result<LiveStore<R>, Fail> {
    match opened_over(rt, alloc, destination_with(alloc, Foo)?, line) {
        Ok(live) => Ok(live),
        Err(refused) => match opened_over(rt, alloc, refused, line) {
            Ok(live) => Ok(live),
            Err(_) => Err(Fail::from("the live store cannot be opened")),
        },
    }
}

/// Opens a live store on this store, and returns this store after an error.
fn opened_over<R: Wait + Drop>(
    rt: R,
    alloc: Global,
    store: ClosedStore,
    line: &mut Line,
) -> Result<LiveStore<R>, ClosedStore> {
    line.say("open");
    match LiveStore::open(rt, alloc, store) {
        Ok(live) => {
            line.say("done");
            Ok(live)
        }
        Err((refused, fault)) => {
            line.tell(&fault);
            Err(refused)
        }
    }
}

/// Creates a look, and copies the image twice.
fn looked_on<R: Threads + Wait + Send + Sync + Copy + Drop>(
    rt: &R,
    alloc: Global,
    graph: &Graph,
    live: LiveStore<R>,
    line: &mut Line,
) -> Result<(), Fail> {
    let mut live = live;
    let mut look = live.look()?;
    count(&mut look, line);
    let live = copied_twice(rt, alloc, graph, live, &mut look, line)?;
    left(rt, alloc, &live, &mut look, line)
}

/// Runs the copy twice.
fn copied_twice<R: Threads + Wait + Send + Sync + Copy + Drop>(
    rt: &R,
    alloc: Global,
    graph: &Graph,
    live: LiveStore<R>,
    look: &mut Look,
    line: &mut Line,
) -> Result<LiveStore<R>, Fail>
    requires { look.old.name ≡ live.name }
{
    let live = copied(rt, alloc, graph, live, look, line)?;
    copied(rt, alloc, graph, live, look, line)
}

/// Copies the image into the live store. Afterwards the look sees all that the store has published.
fn copied<R: Threads + Wait + Send + Sync + Copy + Drop>(
    rt: &R,
    alloc: Global,
    graph: &Graph,
    live: LiveStore<R>,
    look: &mut Look,
    line: &mut Line,
) -> Result<LiveStore<R>, Fail>
    requires { look.old.name ≡ live.name }
    ensures { IfOk result (λ it. look.new.name ≡ it.name) }
{
    let live = made(rt, alloc, graph, live, look, line);
    line.old(live.has(&Foo.key(alloc)?));
    count(look, line);
    Ok(live)
}

/// Copies the image into the live store, and reports the result.
fn made<R: Threads + Wait + Send + Sync + Copy + Drop>(
    rt: &R,
    alloc: Global,
    graph: &Graph,
    live: LiveStore<R>,
    look: &mut Look,
    line: &mut Line,
) -> LiveStore<R>
    requires { look.old.name ≡ live.name }
    ensures { look.new.name ≡ result.name }
{
    let (roots, by) = (slice::from_ref(&graph.root), by_three());
    let (live, answer) = copy_graph(rt, alloc, &graph.source, live, roots, &by, &NoHooks);
    look.learn(&live.note());
    line.copy(&answer, &live);
    live
}

/// Reports the number of entries of a look.
fn count(look: &mut Look, line: &mut Line)
    ensures { look.new.name ≡ look.old.name }
{
    line.say("len");
    line.answer(&look.len());
}

/// Reports the state after the copies: the entries of the look, which is used on its own thread,
/// and the copied contents of the store.
fn left<R: Threads + Wait + Sync + Drop>(
    rt: &R,
    alloc: Global,
    live: &LiveStore<R>,
    look: &mut Look,
    line: &mut Line,
) -> Result<(), Fail> {
    let (seen, ()) = join(rt, || seen(alloc, look, line), || ());
    seen?;
    copied_out(live, line)
}

/// Reports whether a look has the config, and the old entry at its first place.
fn seen(alloc: Global, look: &mut Look, line: &mut Line) -> Result<(), Fail> {
    config(look, &sample_of(alloc, Empty)?, line);
    first(look, &sample_of(alloc, Foo)?, line);
    Ok(())
}

fn sample_of(alloc: Global, sample: Sample) -> Result<(Key, Bytes), Fail> {
    let key = sample.key(alloc)?;
    Ok((key, sample.bytes(alloc)?))
}

fn config(look: &mut Look, wanted: &(Key, Bytes), line: &mut Line) {
    line.say("config");
    match look.fetch(&wanted.0) {
        Ok(fetched) => line.yes(fetched == wanted.1),
        Err(fault) => line.tell(&fault),
    }
}

fn first(look: &mut Look, wanted: &(Key, Bytes), line: &mut Line) {
    line.say("first");
    match look.entry(0) {
        Ok(Some((key, found))) => line.yes(key == wanted.0 && found == wanted.1),
        Ok(None) => line.yes(false),
        Err(fault) => line.tell(&fault),
    }
}

/// Reports a copy of the store's contents. After an error they are copied again.
fn copied_out<R: Wait + Drop>(live: &LiveStore<R>, line: &mut Line) -> Result<(), Fail> {
    for _ in 0..2 {
        line.say("out");
        match live.copy_out() {
            Ok(out) => {
                line.state(&out);
                return Ok(());
            }
            Err(_) => line.say("34 Memory"),
        }
    }
    Err(Fail::from("the live store cannot be copied out"))
}
