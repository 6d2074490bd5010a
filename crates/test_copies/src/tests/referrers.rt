//! Extended copies, of a key and of a reference: the keys that lead to a key are copied too.

use crate::tests::calls::{BAR, EMPTY, IMAGE_2};
use crate::tests::copies::{Call, Case, NOTHING, Tag, assert_cases};
use oci_plan::Existing;
use std::test::Fail;
use test_support::Sample;
use test_support::Sample::{
    Bar, Empty, Foo, Image0, Image2, Index3, Index4, Index5, Index6, Referrer,
};

/// An image with a signature and two indexes above it, and without the upper one.
const SIX: [Sample; 6] = [Empty, Foo, Image2, Referrer, Index3, Index4];

const FIVE: [Sample; 5] = [Empty, Foo, Image2, Referrer, Index3];

/// The name of the image.
const T: Tag<'static> = (Image2, "t");

/// The copy of the image alone.
const ALONE: Case<'static> = Case {
    name: "the image alone",
    roots: &[Image2],
    workers: &[Some(0)],
    source: &SIX,
    source_tag: Some(T),
    told: &["planned 3 pushed 3 skipped 0"],
    copied: &[Empty, Foo, Image2],
    ..NOTHING
};

/// The copy of the image by its name, with what lists it.
const BY_NAME: Case<'static> = Case {
    name: "a name",
    call: Call::ExtendedReference("t"),
    told: &[IMAGE_2, " planned 5 pushed 5 skipped 0"],
    copied: &FIVE,
    copied_tag: Some(T),
    ..ALONE
};

/// An extended copy of an image also copies its signature and its index; a plain copy does not. The
/// tag names the image.
#[test]
fn referrers(rt: HostRuntime) -> Result<(), Fail> {
    static CASES: [Case<'static>; 5] = [
        ALONE,
        Case {
            name: "depth 1",
            call: Call::Extended(1),
            told: &["planned 5 pushed 5 skipped 0"],
            copied: &FIVE,
            ..ALONE
        },
        Case {
            name: "depth 2",
            call: Call::Extended(2),
            told: &["planned 6 pushed 6 skipped 0"],
            copied: &SIX,
            ..ALONE
        },
        Case {
            name: "any depth",
            call: Call::Extended(0),
            told: &["planned 6 pushed 6 skipped 0"],
            copied: &SIX,
            ..ALONE
        },
        BY_NAME,
    ];
    assert_cases(&rt, &CASES)
}

/// With a root, all that it lists is copied, also keys further above the image: with depth 1
/// `index_5` is a root and `index_4` is not. A key that is not held, and that nothing lists, is its
/// only root.
#[test]
fn roots_of_extended_copies(rt: HostRuntime) -> Result<(), Fail> {
    const SEVEN: [Sample; 7] = [Empty, Foo, Image2, Index3, Index4, Index5, Index6];
    static CASES: [Case<'static>; 3] = [
        Case {
            name: "roots within depth 3",
            call: Call::Extended(3),
            source: &SEVEN,
            told: &["planned 7 pushed 7 skipped 0"],
            copied: &SEVEN,
            ..ALONE
        },
        Case {
            name: "roots within depth 1",
            call: Call::Extended(1),
            source: &SEVEN,
            told: &["planned 6 pushed 6 skipped 0"],
            copied: &[Empty, Foo, Image2, Index3, Index4, Index5],
            ..ALONE
        },
        Case {
            name: "a missing key",
            call: Call::Extended(3),
            roots: &[Bar],
            source: &[Empty, Image0],
            source_tag: None,
            destination: &[Foo],
            told: &["81 Plan 53 NotFound ", BAR],
            copied: &[Foo],
            ..ALONE
        },
    ];
    assert_cases(&rt, &CASES)
}

/// An extended copy that descends brings the keys that held roots lack, and sets the tag; one that
/// skips held keys refuses the open destination.
#[test]
fn referrers_below_held_keys(rt: HostRuntime) -> Result<(), Fail> {
    const OPEN: &[&str] = &["80 DestinationOpen ", IMAGE_2, " ", EMPTY];
    const SKIPPING: Case<'static> = Case {
        name: "held keys, skipping",
        call: Call::Extended(0),
        workers: &[Some(1), Some(3)],
        destination: &[Image2, Index4],
        told: OPEN,
        copied: &[Image2, Index4],
        is_closed: false,
        ..ALONE
    };
    static CASES: [Case<'static>; 3] = [
        SKIPPING,
        Case {
            name: "held keys, descending",
            existing: Existing::Descend,
            told: &["planned 4 pushed 4 skipped 2"],
            copied: &SIX,
            is_closed: true,
            ..SKIPPING
        },
        Case {
            name: "a name and held keys, descending",
            existing: Existing::Descend,
            destination: &[Image2, Referrer],
            told: &[IMAGE_2, " planned 3 pushed 3 skipped 2"],
            ..BY_NAME
        },
    ];
    assert_cases(&rt, &CASES)
}
