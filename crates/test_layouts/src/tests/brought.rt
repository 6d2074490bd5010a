//! Entries that are brought into what a layout remembers of its index.

use crate::tests::files::FileStep::{Blobs, Put, Text};
use crate::tests::layouts::LayoutStep::{Bring, ForgetNames, Renamed, Save, Tag, TakeIndexAndPut};
use crate::tests::steps::Step::{Enter, In, With};
use crate::tests::steps::Way::OpenAsIs;
use crate::tests::steps::{Ground, Row, Run, assert_runs};
use std::test::Fail;
use test_support::Sample::{Empty, Image0, Image2};

/// An index whose second entry has no name.
const INDEX: &str =
    "{\"manifests\":[{\"annotations\":{\"k\":\"v\",\"org.opencontainers.image.ref.name\":\"a\"},<saved Image0>},{<saved Image2>,\"urls\":[]}]}";

const ROWS: &[Row] = &[
    Row(
        In("oci-layout", Put("{\"imageLayoutVersion\":\"1.0.0\"}")),
        "put",
    ),
    Row(In("blobs", Blobs(&[Empty, Image0])), "put"),
    Row(In("index.json", Put(INDEX)), "put"),
    Row(Enter(OpenAsIs), "held 2 a"),
    Row(
        With(Renamed(0, Some("b"))),
        "{\"annotations\":{\"k\":\"v\",\"org.opencontainers.image.ref.name\":\"b\"},<saved Image0>}",
    ),
    Row(
        With(Renamed(0, None)),
        "{\"annotations\":{\"k\":\"v\"},<saved Image0>}",
    ),
    Row(
        With(Renamed(1, Some("c"))),
        "{\"annotations\":{\"org.opencontainers.image.ref.name\":\"c\"},<saved Image2>,\"urls\":[]}",
    ),
    Row(With(Renamed(2, None)), "no entry"),
    Row(With(Tag(Image0, "b")), "tagged"),
    Row(
        With(Bring(
            "{\"manifests\":[{\"annotations\":{\"n\":\"1\",\"org.opencontainers.image.ref.name\":\"b\"},<saved Image0>},{<saved Image0>,\"urls\":[]}]}",
        )),
        "brought",
    ),
    Row(With(TakeIndexAndPut), "0"),
    Row(With(Save), "saved"),
    Row(
        In("index.json", Text),
        "{\"manifests\":[{<saved Image2>,\"urls\":[]},{\"annotations\":{\"k\":\"v\",\"org.opencontainers.image.ref.name\":\"a\"},<saved Image0>},{\"annotations\":{\"n\":\"1\",\"org.opencontainers.image.ref.name\":\"b\"},<saved Image0>}],\"mediaType\":\"application/vnd.oci.image.index.v1+json\",\"schemaVersion\":2}",
    ),
    Row(Enter(OpenAsIs), "held 2 a b"),
    Row(With(ForgetNames), "forgotten"),
    Row(With(Save), "saved"),
    Row(
        In("index.json", Text),
        "{\"manifests\":[{<saved Image2>,\"urls\":[]},{\"annotations\":{\"org.opencontainers.image.ref.name\":\"a\"},<saved Image0>},{\"annotations\":{\"org.opencontainers.image.ref.name\":\"b\"},<saved Image0>}],\"mediaType\":\"application/vnd.oci.image.index.v1+json\",\"schemaVersion\":2}",
    ),
];

static RUNS: [Run<'static>; 1] = [Run("brought", Ground::Memory, ROWS)];

/// An entry under another name, or without one, keeps its other members. An entry that is brought
/// comes with its members, unless it has no name and its key has a tag. Forgotten members are not
/// written.
#[test]
fn entries_that_are_brought(rt: HostRuntime) -> Result<(), Fail> {
    assert_runs(&rt, &RUNS)
}
