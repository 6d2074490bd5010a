use crate::tests::texts::{EMPTY, IMAGE_2, assert_text};
use oci_manifest::Key;
use oci_store::{ClosedStore, Dest, GraphSource, MemoryStore, OpenFault};
use std::alloc::Global;
use std::process::Abort;
use std::test::Fail;
use test_support::Sample::{Empty, Foo, Image0, Image2, Index3, Index4, Referrer};
use test_support::{Sample, keys, memory};

/// Returns whether these are the keys of the samples, in order.
pub(crate) fn are_keys(alloc: Global, got: &[Key], want: &[Sample]) -> Result<bool, Fail> {
    Ok(got == keys(alloc, want)?.as_slice())
}

/// Returns whether the keys that list a sample's key are those of the other samples, in order.
pub(crate) fn are_predecessors<G: GraphSource>(
    alloc: Global,
    store: &G,
    sample: Sample,
    want: &[Sample],
) -> Result<bool, Fail> {
    let key = sample.key(alloc)?;
    are_keys(alloc, &store.predecessors(&key)?, want)
}

/// The samples of a store, one of them or another one, and the samples whose keys list its key, in
/// order.
type Listed = (&'static [Sample], Sample, &'static [Sample]);

const REFERRERS: &[Sample] = &[Empty, Foo, Image2, Referrer, Index3, Index4];

/// In the last row the listed key is not held.
const ROWS: [Listed; 3] = [
    (REFERRERS, Image2, &[Index3, Referrer]),
    (REFERRERS, Index4, &[]),
    (&[Image0], Empty, &[Image0]),
];

/// Returns whether the predecessors in a store are as in a row.
fn is_listed(alloc: Global, (held, sample, want): Listed) -> Result<bool, Fail> {
    are_predecessors(alloc, &memory(alloc, held)?, sample, want)
}

#[test]
fn referrers(rt: HostRuntime) -> Result<(), Fail> {
    for row in &ROWS {
        assert!(rt; is_listed(rt.alloc(), *row)?, "row {row:?}");
    }
    Ok(())
}

/// Returns the first missing key of a store with the key that lists it, as text; empty if none is
/// missing.
fn missing(alloc: Global, store: &MemoryStore) -> Result<String, Fail> {
    match &store.missing()? {
        Some((holder, missing)) => Ok(format!(in alloc; "{holder} {missing}")?),
        None => Ok(String::new(alloc)),
    }
}

/// Closes a store, and returns the store and the error.
fn close(store: MemoryStore) -> (MemoryStore, Option<OpenFault>) {
    match ClosedStore::close(store) {
        Ok(closed) => (closed.into_memory(), None),
        Err((store, fault)) => (store, Some(fault)),
    }
}

/// Returns an error as text; empty if there is none.
fn line(alloc: Global, fault: &Option<OpenFault>) -> Result<String, Fail> {
    match fault {
        Some(fault) => Ok(fault.to_string(alloc)?),
        None => Ok(String::new(alloc)),
    }
}

/// Asserts the error of closing a store of samples.
fn assert_line<R: AllocGlobal + Abort>(
    rt: &R,
    samples: &[Sample],
    fault: &Option<OpenFault>,
    want: &[&str],
) -> Result<(), Fail> {
    let line = line(rt.alloc(), fault)?;
    assert_text(rt, &samples, line.as_str(), want)
}

/// Asserts the result of `missing` for a store of samples.
fn assert_missing<R: AllocGlobal + Abort>(
    rt: &R,
    samples: &[Sample],
    want: &[&str],
) -> Result<(), Fail> {
    let missing = missing(rt.alloc(), &memory(rt.alloc(), samples)?)?;
    assert_text(rt, &samples, missing.as_str(), want)
}

/// Asserts the result of closing a store of samples, which comes back.
fn assert_close<R: AllocGlobal + Abort>(
    rt: &R,
    samples: &[Sample],
    want: &[&str],
) -> Result<(), Fail> {
    let (store, fault) = close(memory(rt.alloc(), samples)?);
    assert_eq!(rt; store.len(), samples.len(), "row {samples:?}");
    assert_line(rt, samples, &fault, want)
}

#[test]
fn open_and_closed(rt: HostRuntime) -> Result<(), Fail> {
    assert_missing(&rt, &[Image2], &[IMAGE_2, " ", EMPTY])?;
    assert_close(&rt, &[Image2], &["40 Open ", IMAGE_2, " ", EMPTY])?;
    assert_missing(&rt, &[Image2, Foo, Empty], &[])?;
    assert_close(&rt, &[Image2, Foo, Empty], &[])
}
