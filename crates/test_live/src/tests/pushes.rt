use crate::tests::stores::{counts, live, looked_at};
use oci_live::{LiveStore, Look};
use oci_manifest::Key;
use oci_store::Dest;
use std::alloc::Global;
use std::process::Abort;
use std::sync::Wait;
use std::test::Fail;
use test_support::Sample;
use test_support::Sample::{Empty, Foo, Image0};

/// Returns whether a look lacks a sample before it is pushed, and has it right afterwards.
fn is_seen<R: Wait + Drop>(
    alloc: Global,
    live: &mut LiveStore<R>,
    look: &mut Look,
    sample: Sample,
) -> Result<bool, Fail> {
    let key = sample.key(alloc)?;
    let before = look.exists(&key)?;
    push(alloc, live, &key, sample)?;
    Ok(!before && look.exists(&key)?)
}

fn push<R: Wait + Drop>(
    alloc: Global,
    live: &mut LiveStore<R>,
    key: &Key,
    sample: Sample,
) -> Result<(), Fail> {
    live.push_closed(key, sample.bytes(alloc)?)?;
    Ok(())
}

fn assert_seen<R: Wait + Abort + Drop>(
    rt: &R,
    alloc: Global,
    live: &mut LiveStore<R>,
    look: &mut Look,
    samples: &[Sample],
) -> Result<(), Fail> {
    for sample in samples {
        assert!(rt; is_seen(alloc, live, look, *sample)?, "row {sample:?}");
    }
    Ok(())
}

#[test]
fn each_push_is_seen_at_once(rt: HostRuntime) -> Result<(), Fail> {
    let (mut live, mut look) = looked_at(rt.alloc(), rt, &[])?;
    assert_seen(&rt, rt.alloc(), &mut live, &mut look, &[Empty, Foo, Image0])
}

/// Returns `count` looks at a store.
fn looks<R: Wait + Drop>(
    alloc: Global,
    live: &mut LiveStore<R>,
    count: usize,
) -> Result<Vec<Look>, Fail> {
    let mut looks = Vec::new(alloc);
    for _ in 0..count {
        looks.push(live.look()?)?;
    }
    Ok(looks)
}

/// Returns whether 64 looks have places, one more has none, and a dropped look frees its place.
fn has_places<R: Wait + Drop>(alloc: Global, live: &mut LiveStore<R>) -> Result<bool, Fail> {
    let mut looks = looks(alloc, live, 64)?;
    let is_full = live.look().is_err();
    drop(looks.pop());
    Ok(is_full && live.look().is_ok())
}

#[test]
fn places_of_looks(rt: HostRuntime) -> Result<(), Fail> {
    let mut live = live(rt.alloc(), rt, &[Foo])?;
    assert!(rt; has_places(rt.alloc(), &mut live)?);
    Ok(())
}

/// A look that outlives its store returns only errors.
#[test]
fn look_at_a_dropped_store(rt: HostRuntime) -> Result<(), Fail> {
    let (live, mut look) = looked_at(rt.alloc(), rt, &[Foo])?;
    assert!(rt; counts(&mut look, 1));
    drop(live);
    assert!(rt; !counts(&mut look, 1));
    Ok(())
}
