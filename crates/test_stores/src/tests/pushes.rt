use crate::tests::texts::{EMPTY as KEY_OF_EMPTY, assert_text};
use bytes::Bytes;
use oci_digest::Digest;
use oci_manifest::Key;
use oci_store::{ClosedStore, Dest, MemoryStore, PushFault};
use std::alloc::Global;
use std::process::Abort;
use std::test::Fail;
use test_support::Sample::{Empty, Foo, FooBySha512, Image0};
use test_support::{EMPTY, IMAGE, Sample, holds, memory};

/// Returns the result of a push as text: the place, or the error.
fn told(alloc: Global, pushed: &Result<usize, PushFault>) -> Result<String, Fail> {
    match pushed {
        Ok(place) => Ok(format!(in alloc; "place {place}")?),
        Err(fault) => Ok(fault.to_string(alloc)?),
    }
}

/// Asserts the result of pushing a key.
fn assert_told<R: AllocGlobal + Abort>(
    rt: &R,
    key: &Key,
    pushed: &Result<usize, PushFault>,
    want: &[&str],
) -> Result<(), Fail> {
    let got = told(rt.alloc(), pushed)?;
    assert_text(rt, key, got.as_str(), want)
}

/// Asserts the result of pushing bytes under a key, and the number of entries afterwards.
fn assert_push<R: AllocGlobal + Abort>(
    rt: &R,
    store: &mut MemoryStore,
    key: &Key,
    bytes: &'static [u8],
    (want, held): (&str, usize),
) -> Result<(), Fail> {
    let pushed = store.push(key, Bytes::from_static(bytes));
    assert_eq!(rt; store.len(), held, "row {key}");
    assert_told(rt, key, &pushed, &[want])
}

/// Asserts the result of pushing three bytes under a sample's key.
fn assert_foo<R: AllocGlobal + Abort>(
    rt: &R,
    store: &mut MemoryStore,
    sample: Sample,
    want: (&str, usize),
) -> Result<(), Fail> {
    assert_push(rt, store, &sample.key(rt.alloc())?, b"foo", want)
}

/// One content has two keys under its digests by two algorithms.
#[test]
fn foo_by_two_algorithms(rt: HostRuntime) -> Result<(), Fail> {
    let mut store = MemoryStore::new(rt.alloc());
    assert_foo(&rt, &mut store, Foo, ("place 0", 1))?;
    assert_foo(&rt, &mut store, FooBySha512, ("place 1", 2))
}

/// The media type of a key, the digested content and the size; then the pushed bytes, and the
/// result with the number of entries afterwards.
type Push = (
    &'static str,
    &'static [u8],
    u64,
    &'static [u8],
    (&'static str, usize),
);

fn key(alloc: Global, media_type: &str, digest: Digest, size: u64) -> Result<Key, Fail> {
    let media_type = String::from_str(alloc, media_type)?;
    Ok(Key::new(media_type, digest, size)?)
}

/// Asserts the results of pushes into a store, one after the other.
fn assert_pushes<R: AllocGlobal + Abort>(
    rt: &R,
    store: &mut MemoryStore,
    pushes: &[Push],
) -> Result<(), Fail> {
    for (media_type, digested, size, bytes, want) in pushes {
        let key = key(rt.alloc(), media_type, Digest::of(digested), *size)?;
        assert_push(rt, store, &key, bytes, *want)?;
    }
    Ok(())
}

#[test]
fn push_twice(rt: HostRuntime) -> Result<(), Fail> {
    static PUSHES: [Push; 2] = [
        (EMPTY, b"{}", 2, b"{}", ("place 0", 1)),
        (EMPTY, b"{}", 2, b"{}", ("30 AlreadyExists", 1)),
    ];
    assert_pushes(&rt, &mut MemoryStore::new(rt.alloc()), &PUSHES)
}

#[test]
fn push_refusals(rt: HostRuntime) -> Result<(), Fail> {
    static PUSHES: [Push; 3] = [
        (EMPTY, b"{}", 3, b"{}", ("31 SizeMismatch", 0)),
        (EMPTY, b"foo", 2, b"{}", ("32 DigestMismatch", 0)),
        (IMAGE, b"[]", 2, b"[]", ("33 BadManifest 11 NotObject", 0)),
    ];
    assert_pushes(&rt, &mut MemoryStore::new(rt.alloc()), &PUSHES)
}

/// Asserts the error of pushing the bytes of an image under a key into a closed store, which stays
/// empty.
fn assert_refused<R: AllocGlobal + Abort>(
    rt: &R,
    store: &mut ClosedStore,
    key: &Key,
    want: &[&str],
) -> Result<(), Fail> {
    let pushed = store.push_closed(key, Image0.bytes(rt.alloc())?);
    assert_eq!(rt; store.count(), 0, "row {key}");
    assert_told(rt, key, &pushed, want)
}

/// Returns the key of an image with another size.
fn resized(alloc: Global, size: u64) -> Result<Key, Fail> {
    let image = Image0.key(alloc)?;
    key(alloc, IMAGE, *image.digest(), size)
}

/// An image cannot be pushed before its config, nor under a key of another size.
#[test]
fn successors_first(rt: HostRuntime) -> Result<(), Fail> {
    let mut store = ClosedStore::new(rt.alloc());
    let want = ["42 MissingSuccessor ", KEY_OF_EMPTY];
    assert_refused(&rt, &mut store, &Image0.key(rt.alloc())?, &want)?;
    assert_refused(
        &rt,
        &mut store,
        &resized(rt.alloc(), 240)?,
        &["31 SizeMismatch"],
    )
}

/// Returns a store with a copy of the entries of a store of samples.
fn copied(alloc: Global, samples: &[Sample]) -> Result<MemoryStore, Fail> {
    let store = memory(alloc, samples)?;
    Ok(MemoryStore::from_entries(store.entries().try_clone()?))
}

#[test]
fn copied_entries(rt: HostRuntime) -> Result<(), Fail> {
    let samples = [Empty, Foo, Image0];
    assert!(rt; holds(rt.alloc(), &copied(rt.alloc(), &samples)?, &samples)?);
    Ok(())
}
