//! Directories that allow some puts. The next put fails and leaves half of its bytes.

use crate::tests::files::FileStep::Text;
use crate::tests::layouts::LayoutStep::{Held, Push, Save, Tag};
use crate::tests::steps::Step::{Enter, In, With};
use crate::tests::steps::Way::{Create, Open};
use crate::tests::steps::{Ground, Row, Run, assert_runs};
use std::test::Fail;
use test_support::Sample::{Empty, Image0};

/// No put succeeds: half of `oci-layout` is there.
const AT_LAYOUT_FILE: &[Row] = &[
    Row(Enter(Create), "74 Device"),
    Row(In("oci-layout", Text), "{\"imageLayoutVe"),
    Row(Enter(Open), "71 BadLayoutFile"),
];

const AT_FIRST_INDEX: &[Row] = &[
    Row(Enter(Create), "74 Device"),
    Row(
        In("index.json", Text),
        "{\"manifests\":[],\"mediaType\":\"application/vnd",
    ),
    Row(Enter(Open), "73 BadIndex 10 NotJson"),
];

/// No layout is created in a directory that has half of `oci-layout`.
const AGAIN: &[Row] = &[
    Row(Enter(Create), "74 Device"),
    Row(Enter(Create), "78 AlreadyLayout"),
];

const AT_CONFIG: &[Row] = &[
    Row(Enter(Create), "held 0"),
    Row(With(Push(Empty)), "43 Device"),
    Row(In("<blob Empty>", Text), "{"),
    Row(Enter(Open), "held 0"),
];

const AT_IMAGE: &[Row] = &[
    Row(Enter(Create), "held 0"),
    Row(With(Push(Empty)), "place 0"),
    Row(With(Push(Image0)), "43 Device"),
    Row(Enter(Open), "held 0"),
];

/// If a save fails, the layout in memory is unchanged.
const AT_INDEX: &[Row] = &[
    Row(Enter(Create), "held 0"),
    Row(With(Push(Empty)), "place 0"),
    Row(With(Push(Image0)), "place 1"),
    Row(With(Tag(Image0, "v1")), "tagged"),
    Row(With(Save), "74 Device"),
    Row(With(Held), "held 2 v1"),
    Row(In("oci-layout", Text), "{\"imageLayoutVersion\":\"1.0.0\"}"),
    Row(Enter(Open), "73 BadIndex 10 NotJson"),
];

/// All puts succeed.
const AT_NO_PUT: &[Row] = &[
    Row(Enter(Create), "held 0"),
    Row(With(Push(Empty)), "place 0"),
    Row(With(Push(Image0)), "place 1"),
    Row(With(Tag(Image0, "v1")), "tagged"),
    Row(With(Save), "saved"),
    Row(In("oci-layout", Text), "{\"imageLayoutVersion\":\"1.0.0\"}"),
    Row(Enter(Open), "held 2 v1"),
];

static RUNS: [Run<'static>; 7] = [
    Run("the layout file", Ground::Fuse(0), AT_LAYOUT_FILE),
    Run("the first index", Ground::Fuse(1), AT_FIRST_INDEX),
    Run("creation again", Ground::Fuse(0), AGAIN),
    Run("a config", Ground::Fuse(2), AT_CONFIG),
    Run("an image", Ground::Fuse(3), AT_IMAGE),
    Run("an index", Ground::Fuse(4), AT_INDEX),
    Run("no put", Ground::Fuse(5), AT_NO_PUT),
];

/// Each put from a creation to the end of a save fails in turn. What was there before can be opened,
/// unless the file that failed is one of the layout's own two.
#[test]
fn fuses(rt: HostRuntime) -> Result<(), Fail> {
    assert_runs(&rt, &RUNS)
}
