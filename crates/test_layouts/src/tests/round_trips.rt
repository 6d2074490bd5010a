//! Layouts that are created, filled, saved and opened again, in memory and in a folder.

use crate::tests::copies::Copying::Named;
use crate::tests::files::FileStep::{Failures, Put, Text};
use crate::tests::layouts::LayoutStep::{Resolve, Save};
use crate::tests::steps::Step::{Copy, Enter, In, SaveAndOpen, With};
use crate::tests::steps::Way::{Create, Open};
use crate::tests::steps::{Ground, Row, Run, assert_runs};
use std::test::Fail;

/// A layout is created, an image is copied into it, and it is saved. The directory then has the
/// four files, byte for byte. When it is opened again, it holds the image and its config, and each
/// reference resolves to its key. No other layout is created there.
const ROUND_TRIP: &[Row] = &[
    Row(Enter(Create), "held 0"),
    Row(Copy(Named), "<key Image0> planned 2 pushed 2 skipped 0"),
    Row(With(Save), "saved"),
    Row(In("oci-layout", Text), "{\"imageLayoutVersion\":\"1.0.0\"}"),
    Row(
        In("index.json", Text),
        "{\"manifests\":[{\"annotations\":{\"org.opencontainers.image.ref.name\":\"v1\"},\"digest\":\"<digest Image0>\",\"mediaType\":\"application/vnd.oci.image.manifest.v1+json\",\"size\":241}],\"mediaType\":\"application/vnd.oci.image.index.v1+json\",\"schemaVersion\":2}",
    ),
    Row(In("<blob Empty>", Text), "<text Empty>"),
    Row(In("<blob Image0>", Text), "<text Image0>"),
    Row(Enter(Open), "held 2 v1"),
    Row(SaveAndOpen, "held 2 v1"),
    Row(With(Resolve("v1")), "<key Image0>"),
    Row(With(Resolve("<digest Image0>")), "<key Image0>"),
    Row(
        With(Resolve("sha256:44136fa355b3678a1146ad16f7e8649e94fb4fc21fe77e8310c060f61caaff8a")),
        "<key Empty>",
    ),
    Row(With(Resolve("v2")), "36 UnknownReference"),
    Row(With(Resolve("")), "35 EmptyReference"),
    Row(Enter(Create), "78 AlreadyLayout"),
];

const PATHS: &[Row] = &[
    Row(In("a", Text), "none"),
    Row(In("a", Put("foo")), "put"),
    Row(In("a", Text), "foo"),
    Row(In("a/b", Text), "none"),
    Row(In("../paths/a", Text), "90 Failed"),
    Row(In("../paths/a", Put("foo")), "90 Failed"),
    Row(In("/etc/passwd", Text), "90 Failed"),
    Row(In("/etc/passwd", Put("foo")), "90 Failed"),
    Row(In("b/../a", Text), "90 Failed"),
    Row(In("b/../a", Put("foo")), "90 Failed"),
    Row(In("./a", Text), "90 Failed"),
    Row(In("./a", Put("foo")), "90 Failed"),
    Row(In("", Text), "90 Failed"),
    Row(In("", Put("foo")), "90 Failed"),
    Row(In("", Failures), "5"),
];

static RUNS: [Run<'static>; 2] = [
    Run("in memory", Ground::Memory, ROUND_TRIP),
    Run("in a folder", Ground::Folder("round_trip"), ROUND_TRIP),
];

/// The round trip is the same in a folder, which is created with the layout.
#[test]
fn layout_round_trip(rt: HostRuntime) -> Result<(), Fail> {
    assert_runs(&rt, &RUNS)
}

static PATHS_OF_A_FOLDER: [Run<'static>; 1] = [Run("paths", Ground::Folder("paths"), PATHS)];

/// No path leaves the folder, and there is nothing at a path through a file.
#[test]
fn paths_of_a_folder(rt: HostRuntime) -> Result<(), Fail> {
    assert_runs(&rt, &PATHS_OF_A_FOLDER)
}
