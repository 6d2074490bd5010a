use crate::tests::graphs::are_keys;
use oci_manifest::Key;
use oci_plan::climb;
use oci_store::MemoryStore;
use std::alloc::Global;
use std::test::Fail;
use test_support::Sample::{
    Bar, Empty, Foo, Image0, Image2, Index3, Index4, Index5, Index6, Referrer,
};
use test_support::{Sample, memory, put_chain};

/// Returns the keys of a climb from the sample's key.
fn climbed(
    alloc: Global,
    source: &MemoryStore,
    sample: Sample,
    depth: u32,
) -> Result<Vec<Key>, Fail> {
    let key = sample.key(alloc)?;
    Ok(climb(alloc, source, &key, depth)?)
}

/// Returns whether a climb in a store of samples returns the expected keys.
fn is_climb(
    alloc: Global,
    held: &[Sample],
    sample: Sample,
    depth: u32,
    want: &[Sample],
) -> Result<bool, Fail> {
    let source = memory(alloc, held)?;
    are_keys(alloc, &climbed(alloc, &source, sample, depth)?, want)
}

/// An image that a longer path leads to from `index_5`, and one with a referrer.
const FIVE: &[Sample] = &[Empty, Foo, Image2, Index3, Index4, Index5, Index6];

const REFERRERS: &[Sample] = &[Empty, Foo, Image2, Referrer, Index3, Index4];

const ALL: &[Sample] = &[Index5, Index4, Index6, Index3, Image2];

/// The samples of a store, the one at which a climb starts, its depth, and the samples of the keys
/// that it returns, in order. `index_6` is two edges above `image_2`, although a longer path also
/// reaches `index_5` between them. The result contains the key itself, held or not.
const CLIMBS: [(&[Sample], Sample, u32, &[Sample]); 8] = [
    (FIVE, Image2, 1, &[Index5, Index3, Image2]),
    (FIVE, Image2, 2, ALL),
    (FIVE, Image2, 3, ALL),
    (FIVE, Image2, 0, ALL),
    (REFERRERS, Image2, 1, &[Index3, Image2, Referrer]),
    (REFERRERS, Image2, 0, &[Index4, Index3, Image2, Referrer]),
    (&[Image0], Bar, 3, &[Bar]),
    (&[Image0], Empty, 1, &[Empty, Image0]),
];

#[test]
fn climbs(rt: HostRuntime) -> Result<(), Fail> {
    for (held, sample, depth, want) in &CLIMBS {
        let is_wanted = is_climb(rt.alloc(), held, *sample, *depth, want)?;
        assert!(rt; is_wanted, "row {sample:?} to depth {depth}: not {want:?}");
    }
    Ok(())
}

/// Returns the number of keys in a climb from the first image of a chain.
fn found(alloc: Global, store: &mut MemoryStore, length: u32) -> Result<usize, Fail> {
    put_chain(alloc, store, length)?;
    Ok(climbed(alloc, store, Image0, 0)?.len())
}

#[test]
fn climb_of_a_long_chain(rt: HostRuntime) -> Result<(), Fail> {
    let mut store = memory(rt.alloc(), &[Empty])?;
    assert_eq!(rt; found(rt.alloc(), &mut store, 3_000)?, 3_000);
    Ok(())
}
