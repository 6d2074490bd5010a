//! Copies by a reference, and the names that they leave.

use crate::tests::calls::{EMPTY, FOO, IMAGE_0};
use crate::tests::copies::{Call, Case, NOTHING, OPEN_AT_IMAGE_0, Tag, assert_cases};
use oci_plan::Existing;
use std::test::Fail;
use test_support::Sample;
use test_support::Sample::{Empty, Image0, Image2};

const IMAGE: [Sample; 2] = [Empty, Image0];

/// The name of the only image of the source, and that of the content of the destination.
const M: Tag<'static> = (Image0, "m");

const E: Tag<'static> = (Empty, "e");

/// The text of the digest of the config.
const EMPTY_DIGEST: &str =
    "sha256:44136fa355b3678a1146ad16f7e8649e94fb4fc21fe77e8310c060f61caaff8a";

/// The copy of an image by its name.
const BY_NAME: Case<'static> = Case {
    name: "the same name",
    call: Call::Reference("m", ""),
    workers: &[Some(0)],
    source: &IMAGE,
    source_tag: Some(M),
    told: &[IMAGE_0, " planned 2 pushed 2 skipped 0"],
    copied: &IMAGE,
    copied_tag: Some(M),
    ..NOTHING
};

/// The tag is set after the content is there: a key that is not held gets no name.
#[test]
fn copy_of_a_tag(rt: HostRuntime) -> Result<(), Fail> {
    static CASES: [Case<'static>; 3] = [
        BY_NAME,
        Case {
            name: "another name",
            call: Call::Reference("m", "v1"),
            copied_tag: Some((Image0, "v1")),
            ..BY_NAME
        },
        Case {
            name: "a digest",
            call: Call::Reference(EMPTY_DIGEST, ""),
            told: &[EMPTY, " planned 1 pushed 1 skipped 0"],
            copied: &[Empty],
            copied_tag: Some((Empty, EMPTY_DIGEST)),
            ..BY_NAME
        },
    ];
    assert_cases(&rt, &CASES)
}

/// A copy is refused, and the store of one content, named `e`, is unchanged.
const REFUSED: Case<'static> = Case {
    destination: &[Empty],
    destination_tag: Some(E),
    copied: &[Empty],
    copied_tag: Some(E),
    ..BY_NAME
};

#[test]
fn refused_references(rt: HostRuntime) -> Result<(), Fail> {
    static CASES: [Case<'static>; 4] = [
        Case {
            name: "an unknown name",
            call: Call::Reference("x", ""),
            workers: &[Some(0), Some(65)],
            told: &["87 Reference 36 UnknownReference"],
            ..REFUSED
        },
        Case {
            name: "no name",
            call: Call::Reference("", ""),
            told: &["87 Reference 35 EmptyReference"],
            ..REFUSED
        },
        Case {
            name: "too many workers",
            workers: &[Some(65)],
            told: &["85 BadWorkers"],
            ..REFUSED
        },
        Case {
            name: "an image without its layer",
            source: &[Empty, Image2],
            source_tag: Some((Image2, "m")),
            told: &["81 Plan 53 NotFound ", FOO],
            ..REFUSED
        },
    ];
    assert_cases(&rt, &CASES)
}

/// If held keys are skipped, a destination that has the image without its config is refused, and no
/// tag is set. A copy that descends brings the config and tags the image.
#[test]
fn copy_below_a_held_image(rt: HostRuntime) -> Result<(), Fail> {
    const SKIPPING: Case<'static> = Case {
        name: "below a held image, skipping",
        workers: &[Some(1), Some(3)],
        destination: &[Image0],
        told: OPEN_AT_IMAGE_0,
        copied: &[Image0],
        is_in_order: true,
        is_closed: false,
        copied_tag: None,
        ..BY_NAME
    };
    static CASES: [Case<'static>; 2] = [
        SKIPPING,
        Case {
            name: "below a held image, descending",
            existing: Existing::Descend,
            told: &[IMAGE_0, " planned 1 pushed 1 skipped 1"],
            copied: &[Image0, Empty],
            is_closed: true,
            copied_tag: Some(M),
            ..SKIPPING
        },
    ];
    assert_cases(&rt, &CASES)
}
