//! Copies that are refused before anything is copied.

use crate::tests::calls::{IMAGE_0, ONE_AND_THREE, Run, left};
use crate::tests::copies::{Case, NOTHING, OPEN_AT_IMAGE_0, assert_cases};
use oci_digest::Digest;
use oci_manifest::Key;
use oci_plan::Existing;
use oci_store::{MemoryStore, Source};
use std::alloc::Global;
use std::process::Abort;
use std::slice;
use std::sync::Wait;
use std::test::Fail;
use std::thread::Threads;
use test_support::Sample::{Empty, Foo, Image0};
use test_support::{IMAGE, closed, holds, unreadable};

/// Nothing is copied into a destination that lacks a key which it lists.
#[test]
fn open_destination(rt: HostRuntime) -> Result<(), Fail> {
    static CASES: [Case<'static>; 1] = [Case {
        name: "a layer",
        roots: &[Foo],
        workers: &ONE_AND_THREE,
        source: &[Foo],
        destination: &[Image0],
        told: OPEN_AT_IMAGE_0,
        copied: &[Image0],
        is_closed: false,
        ..NOTHING
    }];
    assert_cases(&rt, &CASES)
}

/// The copy of a root into a store with a layer is refused with this fault, on one thread and by
/// workers, and the store keeps the layer.
fn assert_refused<R: AllocGlobal + Threads + Wait + Sync + Abort, A: Source + Sync>(
    rt: &R,
    source: &A,
    root: &Key,
    told: &str,
) -> Result<(), Fail> {
    for workers in ONE_AND_THREE {
        let held = closed(rt.alloc(), &[Foo])?;
        let by = (
            Run {
                name: told,
                workers,
            },
            Existing::Skip,
        );
        let store = left(rt, source, held, slice::from_ref(root), by, &[told])?;
        assert!(rt; holds(rt.alloc(), &store, &[Foo])?, "{told}");
    }
    Ok(())
}

/// The key of an image of this size that has the digest of the empty object.
fn sized(alloc: Global, size: u64) -> Result<Key, Fail> {
    let media_type = String::from_str(alloc, IMAGE)?;
    Ok(Key::new(media_type, Digest::of(b"{}"), size)?)
}

/// The copy of an image of this size, which no store has, is refused with this fault.
fn assert_sized<R: AllocGlobal + Threads + Wait + Sync + Abort>(
    rt: &R,
    size: u64,
    told: &str,
) -> Result<(), Fail> {
    assert_refused(
        rt,
        &MemoryStore::new(rt.alloc()),
        &sized(rt.alloc(), size)?,
        told,
    )
}

/// Sizes of images that no store has, and the fault of their copy. The limit is 4 MiB by default.
const SIZES: [(u64, &str); 2] = [
    (
        4_194_305,
        "81 Plan 54 TooLarge sha256:44136fa355b3678a1146ad16f7e8649e94fb4fc21fe77e8310c060f61caaff8a 4194305 application/vnd.oci.image.manifest.v1+json 4194304",
    ),
    (
        4_194_304,
        "81 Plan 53 NotFound sha256:44136fa355b3678a1146ad16f7e8649e94fb4fc21fe77e8310c060f61caaff8a 4194304 application/vnd.oci.image.manifest.v1+json",
    ),
];

/// A manifest over the limit is not fetched.
#[test]
fn size_limit(rt: HostRuntime) -> Result<(), Fail> {
    const LIMITED: Case<'static> = Case {
        name: "over a limit",
        roots: &[Image0],
        workers: &ONE_AND_THREE,
        max_metadata_bytes: 240,
        source: &[Empty, Image0],
        told: &["81 Plan 54 TooLarge ", IMAGE_0, " 240"],
        ..NOTHING
    };
    static CASES: [Case<'static>; 2] = [
        LIMITED,
        Case {
            name: "at a limit",
            max_metadata_bytes: 241,
            told: &["planned 2 pushed 2 skipped 0"],
            copied: &[Empty, Image0],
            ..LIMITED
        },
    ];
    for (size, told) in &SIZES {
        assert_sized(&rt, *size, told)?;
    }
    assert_cases(&rt, &CASES)
}

/// An image that is no JSON object is not copied.
#[test]
fn image_that_does_not_read(rt: HostRuntime) -> Result<(), Fail> {
    let (source, root) = unreadable(rt.alloc())?;
    assert_refused(
        &rt,
        &source,
        &root,
        "81 Plan 56 Manifest sha256:4f53cda18c2baa0c0354bb5f9a3ecbe5ed12ab4d8e11ba873c2f11161202b945 2 application/vnd.oci.image.manifest.v1+json 11 NotObject",
    )
}
