//! Each trait of stores, called through its bound: on the stores in memory, and on two stores that
//! fail.

use crate::tests::graphs::{are_keys, are_predecessors};
use bytes::Bytes;
use oci_digest::Digest;
use oci_manifest::Key;
use oci_store::{ClosedStore, Dest, GraphSource, MemoryStore, Source, Tagger};
use std::alloc::Global;
use std::process::Abort;
use std::test::Fail;
use test_support::Sample::{Empty, Image0};
use test_support::{Device, DeviceStore, PublishedStore, Sample};

/// A content: its media type and its bytes.
type Content = (&'static str, &'static [u8]);

const FOO: Content = ("text/plain", b"foo");

const BAR: Content = ("text/plain", b"bar");

const SAME_BYTES: Content = ("text/html", b"foo");

/// The number of a push's error, or 0; whether the key is then held; the number of held keys;
/// whether the store is closed; and the number of failed puts.
type Pushed = (u8, bool, usize, bool, u64);

/// Whether the key is held, whether its fetch may fail, the number of the fetch's error, or 0, and
/// the length of the fetched bytes.
type Fetched = (bool, bool, u8, usize);

/// A call and its expected results.
#[derive(Clone, Copy)]
enum Call {
    Push(Content, Pushed),
    Fetch(Content, Fetched),
}

/// Returns the key of a content.
fn key_of(alloc: Global, (media_type, bytes): Content) -> Result<Key, Fail> {
    let media_type = String::from_str(alloc, media_type)?;
    Ok(Key::new(media_type, Digest::of(bytes), bytes.len() as u64)?)
}

fn pushed<D: Dest>(store: &mut D, key: &Key, bytes: &'static [u8]) -> Pushed {
    let number = match &store.push_closed(key, Bytes::from_static(bytes)) {
        Ok(_) => 0,
        Err(fault) => fault.number(),
    };
    let is_closed = matches!(store.missing(), Ok(None));
    (
        number,
        store.has(key),
        store.count(),
        is_closed,
        store.failures(),
    )
}

fn assert_pushed<R: AllocGlobal + Abort, D: Dest>(
    rt: &R,
    store: &mut D,
    content: Content,
    want: Pushed,
) -> Result<(), Fail> {
    let key = key_of(rt.alloc(), content)?;
    assert_eq!(rt; pushed(store, &key, content.1), want, "row {key}");
    Ok(())
}

fn fetched<A: Source>(store: &A, key: &Key) -> Fetched {
    let (number, length) = match &store.fetch(key) {
        Ok(content) => (0, content.len()),
        Err(fault) => (fault.number(), 0),
    };
    (store.exists(key), store.may_fail(key), number, length)
}

fn assert_fetched<R: AllocGlobal + Abort, A: Source>(
    rt: &R,
    store: &A,
    content: Content,
    want: Fetched,
) -> Result<(), Fail> {
    let key = key_of(rt.alloc(), content)?;
    assert_eq!(rt; fetched(store, &key), want, "row {key}");
    Ok(())
}

fn assert_calls<R: AllocGlobal + Abort, D: Source + Dest>(
    rt: &R,
    store: &mut D,
    calls: &[Call],
) -> Result<(), Fail> {
    for call in calls {
        match *call {
            Call::Push(content, want) => assert_pushed(rt, store, content, want)?,
            Call::Fetch(content, want) => assert_fetched(rt, store, content, want)?,
        }
    }
    Ok(())
}

fn push_sample<D: Dest>(alloc: Global, store: &mut D, sample: Sample) -> Result<(), Fail> {
    let key = sample.key(alloc)?;
    store.push_closed(&key, sample.bytes(alloc)?)?;
    Ok(())
}

/// Returns whether the store lists the config of the image, and the image as what lists it.
fn is_linked<G: GraphSource>(alloc: Global, store: &G) -> Result<bool, Fail> {
    let key = Image0.key(alloc)?;
    match &store.successors(&key)? {
        Some(found) => {
            Ok(
                are_keys(alloc, found, &[Empty])?
                    && are_predecessors(alloc, store, Empty, &[Image0])?,
            )
        }
        None => Ok(false),
    }
}

/// Tags the image, and returns whether the name resolves to it.
fn is_tagged<T: Tagger>(alloc: Global, store: &mut T) -> Result<bool, Fail> {
    let key = Image0.key(alloc)?;
    store.tag(&key, "v1")?;
    Ok(store.resolve("v1")? == key)
}

/// Calls of an empty store in memory.
const CALLS: [Call; 4] = [
    Call::Push(FOO, (0, true, 1, true, 0)),
    Call::Push(FOO, (30, true, 1, true, 0)),
    Call::Fetch(FOO, (true, false, 0, 3)),
    Call::Fetch(BAR, (false, false, 20, 0)),
];

/// Asserts the results of calls on an empty store, and then with an image.
fn assert_store<R: AllocGlobal + Abort, S: GraphSource + Dest + Tagger>(
    rt: &R,
    store: &mut S,
) -> Result<(), Fail> {
    assert_calls(rt, store, &CALLS)?;
    push_sample(rt.alloc(), store, Empty)?;
    push_sample(rt.alloc(), store, Image0)?;
    assert!(rt; is_linked(rt.alloc(), store)?);
    assert!(rt; is_tagged(rt.alloc(), store)?);
    Ok(())
}

#[test]
fn stores_in_memory(rt: HostRuntime) -> Result<(), Fail> {
    assert_store(&rt, &mut MemoryStore::new(rt.alloc()))?;
    assert_store(&rt, &mut ClosedStore::new(rt.alloc()))
}

/// Pushes into a store whose second publication fails, and the next one.
const PUBLISHED: [(Content, Pushed); 4] = [
    (FOO, (0, true, 1, true, 0)),
    (BAR, (34, false, 1, true, 0)),
    (BAR, (44, false, 1, true, 0)),
    (FOO, (30, true, 1, true, 0)),
];

#[test]
fn published_store(rt: HostRuntime) -> Result<(), Fail> {
    let mut store = PublishedStore::new(rt.alloc(), 1);
    for (content, want) in &PUBLISHED {
        assert_pushed(&rt, &mut store, *content, *want)?;
    }
    Ok(())
}

/// Calls of a store on a device whose second put and fourth get fail.
const DEVICE_CALLS: [Call; 8] = [
    Call::Push(FOO, (0, true, 1, true, 0)),
    Call::Fetch(FOO, (true, true, 0, 3)),
    Call::Fetch(SAME_BYTES, (false, true, 20, 0)),
    // A failed put leaves the keys as they were, and half of the bytes in the digest's file.
    Call::Push(SAME_BYTES, (43, false, 1, true, 1)),
    Call::Fetch(FOO, (true, true, 21, 0)),
    Call::Push(SAME_BYTES, (0, true, 2, true, 1)),
    Call::Fetch(FOO, (true, true, 0, 3)),
    Call::Fetch(FOO, (true, true, 22, 0)),
];

#[test]
fn device_store(rt: HostRuntime) -> Result<(), Fail> {
    let device = Device::failing(Some(1), Some(3));
    assert_calls(
        &rt,
        &mut DeviceStore::new(rt.alloc(), &device),
        &DEVICE_CALLS,
    )?;
    assert_eq!(rt; device.puts(), 3);
    Ok(())
}
