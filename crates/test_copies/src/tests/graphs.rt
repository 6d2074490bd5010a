//! Copies of small graphs into a closed store, on one thread and with each number of workers.

use crate::tests::calls::{
    FOO, ONE_AND_THREE, Run, Workers, assert_told, copied_in_memory, options,
};
use crate::tests::copies::{Call, Case, NOTHING, assert_cases, assert_copied_by};
use oci_manifest::Key;
use oci_plan::Existing;
use oci_store::{ClosedStore, MemoryStore};
use std::process::Abort;
use std::sync::Wait;
use std::test::Fail;
use std::thread::Threads;
use test_support::Sample::{
    Bar, DockerImage, Empty, Foo, FooBySha512, Image0, Image0AsLayer, Image1, Image2, Image3,
    Image4, Image5, Index1, Index2,
};
use test_support::{Sample, closed, holds, keys, memory};

const IMAGE: [Sample; 2] = [Empty, Image0];

/// The config is copied before the image that lists it, on one thread and by workers.
#[test]
fn one_image(rt: HostRuntime) -> Result<(), Fail> {
    static CASES: [Case<'static>; 1] = [Case {
        name: "an image",
        roots: &[Image0],
        source: &IMAGE,
        told: &["planned 2 pushed 2 skipped 0"],
        copied: &IMAGE,
        is_in_order: true,
        ..NOTHING
    }];
    assert_cases(&rt, &CASES)
}

/// An image that is there is not copied again. Without roots, nothing is copied.
#[test]
fn copy_again(rt: HostRuntime) -> Result<(), Fail> {
    static CASES: [Case<'static>; 2] = [
        Case {
            name: "a held image",
            roots: &[Image0],
            source: &IMAGE,
            destination: &IMAGE,
            told: &["planned 0 pushed 0 skipped 1"],
            copied: &IMAGE,
            ..NOTHING
        },
        Case {
            name: "no roots",
            source: &IMAGE,
            destination: &[Foo],
            told: &["planned 0 pushed 0 skipped 0"],
            copied: &[Foo],
            ..NOTHING
        },
    ];
    assert_cases(&rt, &CASES)
}

/// A layer that is listed twice is copied once.
#[test]
fn doubled_layer(rt: HostRuntime) -> Result<(), Fail> {
    static CASES: [Case<'static>; 1] = [Case {
        name: "a layer twice",
        roots: &[Image1],
        source: &[Empty, Foo, Image1],
        told: &["planned 3 pushed 3 skipped 0"],
        copied: &[Empty, Foo, Image1],
        ..NOTHING
    }];
    assert_cases(&rt, &CASES)
}

const ALL: [Sample; 6] = [Empty, Foo, Bar, Image2, Image3, Index1];

const TWO_IMAGES: Case<'static> = Case {
    name: "two images",
    roots: &[Index1],
    workers: &[None],
    source: &ALL,
    told: &["planned 6 pushed 6 skipped 0"],
    copied: &ALL,
    ..NOTHING
};

/// An index of two images is copied completely on one thread and with each number of workers; with
/// more than 64 workers nothing is copied.
#[test]
fn two_images(rt: HostRuntime) -> Result<(), Fail> {
    static EACH: Case<'static> = TWO_IMAGES;
    static CASES: [Case<'static>; 2] = [
        TWO_IMAGES,
        Case {
            name: "too many workers",
            workers: &[Some(65)],
            told: &["85 BadWorkers"],
            copied: &[],
            ..TWO_IMAGES
        },
    ];
    for workers in 0..65 {
        assert_copied_by(&rt, &EACH, Some(workers))?;
    }
    assert_cases(&rt, &CASES)
}

/// This index is also copied completely if one call makes the plan and another runs it, and a held
/// root is counted; with more than 64 workers nothing is copied.
#[test]
fn two_images_planned(rt: HostRuntime) -> Result<(), Fail> {
    const PLANNED: Case<'static> = Case {
        name: "planned before",
        call: Call::Planned,
        workers: &[Some(0), Some(1), Some(3), Some(64)],
        ..TWO_IMAGES
    };
    static CASES: [Case<'static>; 3] = [
        PLANNED,
        Case {
            name: "planned before, with a held root",
            roots: &[Foo, Index1, Foo],
            destination: &[Foo],
            told: &["planned 5 pushed 5 skipped 1"],
            ..PLANNED
        },
        Case {
            name: "planned before, too many workers",
            workers: &[Some(65)],
            told: &["85 BadWorkers"],
            copied: &[],
            ..PLANNED
        },
    ];
    assert_cases(&rt, &CASES)
}

/// The calls between stores in memory copy two images and skip a held layer. Returns what they leave.
fn left_in_memory<R: AllocGlobal + Threads + Wait + Sync + Abort>(
    rt: &R,
    source: &MemoryStore,
    roots: &[Key],
    workers: Workers,
) -> Result<ClosedStore, Fail> {
    let run = Run {
        name: "between stores in memory",
        workers,
    };
    let (options, held) = (
        options(workers, Existing::Skip, 0),
        closed(rt.alloc(), &[Bar])?,
    );
    let (store, answer) = copied_in_memory(rt, source, held, roots, workers, &options);
    assert_told(rt, &answer, &["planned 4 pushed 4 skipped 1"], run)?;
    Ok(store)
}

/// The calls between stores in memory make the same copy, on one thread and by workers.
#[test]
fn two_images_in_memory(rt: HostRuntime) -> Result<(), Fail> {
    let source = memory(rt.alloc(), &ALL)?;
    let roots = keys(rt.alloc(), &[Image2, Bar, Image3])?;
    for workers in ONE_AND_THREE {
        let store = left_in_memory(&rt, &source, &roots, workers)?;
        assert!(rt; holds(rt.alloc(), &store, &[Bar, Empty, Foo, Image2, Image3])?);
    }
    Ok(())
}

/// A layer with a SHA-512 digest is copied like any other.
#[test]
fn sha512_layer(rt: HostRuntime) -> Result<(), Fail> {
    static CASES: [Case<'static>; 1] = [Case {
        name: "a layer by SHA-512",
        roots: &[Image5],
        source: &[Empty, FooBySha512, Image5],
        told: &["planned 3 pushed 3 skipped 0"],
        copied: &[Empty, FooBySha512, Image5],
        ..NOTHING
    }];
    assert_cases(&rt, &CASES)
}

/// The only layer of a Docker image is in no store, and is not copied.
#[test]
fn foreign_layer(rt: HostRuntime) -> Result<(), Fail> {
    static CASES: [Case<'static>; 1] = [Case {
        name: "a foreign layer",
        roots: &[DockerImage],
        source: &[Empty, DockerImage],
        told: &["planned 2 pushed 2 skipped 0"],
        copied: &[Empty, DockerImage],
        ..NOTHING
    }];
    assert_cases(&rt, &CASES)
}

/// One digest under two media types makes two keys, and both are copied.
#[test]
fn two_media_types(rt: HostRuntime) -> Result<(), Fail> {
    const IMAGES: [Sample; 5] = [Empty, Image0, Image0AsLayer, Image4, Index2];
    static CASES: [Case<'static>; 1] = [Case {
        name: "two media types",
        roots: &[Index2],
        source: &IMAGES,
        told: &["planned 5 pushed 5 skipped 0"],
        copied: &IMAGES,
        ..NOTHING
    }];
    assert_cases(&rt, &CASES)
}

#[test]
fn missing_layer(rt: HostRuntime) -> Result<(), Fail> {
    static CASES: [Case<'static>; 1] = [Case {
        name: "a missing layer",
        roots: &[Image2],
        source: &[Empty, Image2],
        told: &["81 Plan 53 NotFound ", FOO],
        ..NOTHING
    }];
    assert_cases(&rt, &CASES)
}

/// A copy does not look below held keys, so the source may lack a layer there.
#[test]
fn held_above_a_hole(rt: HostRuntime) -> Result<(), Fail> {
    static CASES: [Case<'static>; 1] = [Case {
        name: "a missing layer below a held image",
        roots: &[Image2],
        source: &[Empty, Image2],
        destination: &[Empty, Foo, Image2],
        told: &["planned 0 pushed 0 skipped 1"],
        copied: &[Empty, Foo, Image2],
        ..NOTHING
    }];
    assert_cases(&rt, &CASES)
}
