//! Entries of an index that are no descriptors.

use crate::tests::files::FileStep::{Blobs, Put, Text};
use crate::tests::layouts::LayoutStep::{
    Ask, Bring, Fetch, Forget, ForgetNames, Links, Renamed, Resolve, Save, Tag,
};
use crate::tests::layouts::Question::{Absent, CheckEntries, Damaged, Shadowed, Unreadable};
use crate::tests::steps::Step::{Enter, In, With};
use crate::tests::steps::Way::{Create, Open, OpenAsIs};
use crate::tests::steps::{Ground, Row, Run, assert_runs};
use std::test::Fail;
use test_support::Sample::{Empty, Image0};

const LAYOUT_FILE: Row<'static> = Row(
    In("oci-layout", Put("{\"imageLayoutVersion\":\"1.0.0\"}")),
    "put",
);

/// The blobs of an image and of its config.
const BLOBS: Row<'static> = Row(In("blobs", Blobs(&[Empty, Image0])), "put");

/// An image is at the first place, and with a name at the third. At the other places are a
/// descriptor without a media type and a size, whose digest is none, a number, and a descriptor
/// without a size, which has a name.
const INDEX: Row<'static> = Row(
    In(
        "index.json",
        Put(
            "{\"manifests\":[{<members Image0>},{\"digest\":\"sha256:zz\"},{\"annotations\":{\"org.opencontainers.image.ref.name\":\"v1\"},<saved Image0>},7,{\"mediaType\":\"application/vnd.oci.image.manifest.v1+json\",\"digest\":\"<digest Image0>\",\"annotations\":{\"org.opencontainers.image.ref.name\":\"cut\"}}]}",
        ),
    ),
    "put",
);

const OPENED: &[Row] = &[
    LAYOUT_FILE,
    BLOBS,
    INDEX,
    Row(Enter(Open), "73 BadIndex 14 BadDescriptor manifests 1"),
    Row(Enter(OpenAsIs), "held 2 v1"),
    Row(With(Ask(Unreadable)), "1;3;4;"),
    Row(
        With(Ask(CheckEntries)),
        "73 BadIndex 14 BadDescriptor manifests 1",
    ),
    Row(With(Ask(Absent)), ""),
    Row(With(Ask(Damaged)), ""),
    Row(With(Resolve("v1")), "<key Image0>"),
    Row(With(Resolve("cut")), "36 UnknownReference"),
    Row(With(Fetch(Empty)), "{}"),
    Row(With(Links(Image0)), "<key Empty>;/"),
    Row(
        With(Renamed(4, Some("w"))),
        "{\"annotations\":{\"org.opencontainers.image.ref.name\":\"w\"},\"digest\":\"<digest Image0>\",\"mediaType\":\"application/vnd.oci.image.manifest.v1+json\"}",
    ),
];

/// The entries that are no descriptors come first, and the members of each are in the order of
/// their names.
const WRITTEN: &str =
    "{\"manifests\":[{\"digest\":\"sha256:zz\"},7,{\"annotations\":{\"org.opencontainers.image.ref.name\":\"cut\"},\"digest\":\"<digest Image0>\",\"mediaType\":\"application/vnd.oci.image.manifest.v1+json\"},{\"annotations\":{\"org.opencontainers.image.ref.name\":\"v1\"},<saved Image0>},{<saved Image0>}],\"mediaType\":\"application/vnd.oci.image.index.v1+json\",\"schemaVersion\":2}";

const SAVED: &[Row] = &[
    LAYOUT_FILE,
    BLOBS,
    INDEX,
    Row(Enter(OpenAsIs), "held 2 v1"),
    Row(With(Save), "saved"),
    Row(In("index.json", Text), WRITTEN),
    Row(Enter(Open), "73 BadIndex 14 BadDescriptor manifests 0"),
    Row(Enter(OpenAsIs), "held 2 v1"),
    Row(With(Ask(Unreadable)), "0;1;2;"),
    Row(With(Save), "saved"),
    Row(In("index.json", Text), WRITTEN),
];

/// Values that are no objects, and objects of which a member is absent or of another type.
const FORMS: &[Row] = &[
    LAYOUT_FILE,
    BLOBS,
    Row(
        In(
            "index.json",
            Put(
                "{\"manifests\":[7,null,\"x\",[{\"b\":1,\"a\":2}],{},{\"digest\":\"sha256:zz\"},{\"mediaType\":\"text/plain\",\"digest\":\"<digest Empty>\"},{\"mediaType\":\"text/plain\",\"digest\":\"<digest Empty>\",\"size\":\"2\"},{\"mediaType\":7,\"digest\":\"<digest Empty>\",\"size\":2}]}",
            ),
        ),
        "put",
    ),
    Row(Enter(Open), "73 BadIndex 14 BadDescriptor manifests 0"),
    Row(Enter(OpenAsIs), "held 0"),
    Row(With(Ask(Unreadable)), "0;1;2;3;4;5;6;7;8;"),
    Row(With(Save), "saved"),
    Row(
        In("index.json", Text),
        "{\"manifests\":[7,null,\"x\",[{\"a\":2,\"b\":1}],{},{\"digest\":\"sha256:zz\"},{\"digest\":\"<digest Empty>\",\"mediaType\":\"text/plain\"},{\"digest\":\"<digest Empty>\",\"mediaType\":\"text/plain\",\"size\":\"2\"},{\"digest\":\"<digest Empty>\",\"mediaType\":7,\"size\":2}],\"mediaType\":\"application/vnd.oci.image.index.v1+json\",\"schemaVersion\":2}",
    ),
];

/// An index that is no object with a list is refused, also as it is.
const NO_LISTS: &[Row] = &[
    Row(Enter(Create), "held 0"),
    Row(With(Ask(Unreadable)), ""),
    Row(With(Ask(CheckEntries)), "good"),
    Row(In("index.json", Put("{")), "put"),
    Row(Enter(OpenAsIs), "73 BadIndex 10 NotJson"),
    Row(In("index.json", Put("[7]")), "put"),
    Row(Enter(OpenAsIs), "73 BadIndex 11 NotObject"),
    Row(In("index.json", Put("{\"manifests\":7}")), "put"),
    Row(Enter(OpenAsIs), "73 BadIndex 13 BadList manifests"),
    Row(In("index.json", Put("{\"manifests\":null}")), "put"),
    Row(Enter(OpenAsIs), "held 0"),
    Row(With(Ask(CheckEntries)), "good"),
];

/// The last entry of a name is no descriptor, so the name is no tag. Then it is set.
const NAMED: &[Row] = &[
    LAYOUT_FILE,
    BLOBS,
    Row(
        In(
            "index.json",
            Put(
                "{\"manifests\":[{\"annotations\":{\"org.opencontainers.image.ref.name\":\"v1\"},<saved Image0>},{\"annotations\":{\"org.opencontainers.image.ref.name\":\"v1\"},\"digest\":\"<digest Image0>\"}]}",
            ),
        ),
        "put",
    ),
    Row(Enter(OpenAsIs), "held 2"),
    Row(With(Resolve("v1")), "36 UnknownReference"),
    Row(With(Ask(Shadowed)), "<key Image0>;"),
    Row(With(Save), "saved"),
    Row(
        In("index.json", Text),
        "{\"manifests\":[{\"annotations\":{\"org.opencontainers.image.ref.name\":\"v1\"},<saved Image0>},{\"annotations\":{\"org.opencontainers.image.ref.name\":\"v1\"},\"digest\":\"<digest Image0>\"},{<saved Image0>}],\"mediaType\":\"application/vnd.oci.image.index.v1+json\",\"schemaVersion\":2}",
    ),
    Row(Enter(OpenAsIs), "held 2"),
    Row(With(Tag(Image0, "v1")), "tagged"),
    Row(With(Ask(Shadowed)), ""),
    Row(With(Save), "saved"),
    Row(
        In("index.json", Text),
        "{\"manifests\":[{\"annotations\":{\"org.opencontainers.image.ref.name\":\"v1\"},<saved Image0>},{<saved Image0>}],\"mediaType\":\"application/vnd.oci.image.index.v1+json\",\"schemaVersion\":2}",
    ),
    Row(Enter(Open), "held 2 v1"),
];

/// Entries are brought, of which one has a name and no digest, and one is a number. Then the entries
/// of one name are forgotten, and then those of all names.
const REPLACED: &[Row] = &[
    LAYOUT_FILE,
    BLOBS,
    INDEX,
    Row(Enter(OpenAsIs), "held 2 v1"),
    Row(
        With(Bring(
            "{\"manifests\":[{\"annotations\":{\"org.opencontainers.image.ref.name\":\"v1\"}},8]}",
        )),
        "brought",
    ),
    Row(With(Ask(Unreadable)), "1;2;3;4;"),
    Row(
        With(Forget(
            "{\"manifests\":[{\"annotations\":{\"org.opencontainers.image.ref.name\":\"cut\"}}]}",
        )),
        "forgotten",
    ),
    Row(With(Ask(Unreadable)), "1;2;3;"),
    Row(With(ForgetNames), "forgotten"),
    Row(With(Ask(Unreadable)), "1;2;"),
    Row(With(Save), "saved"),
    Row(
        In("index.json", Text),
        "{\"manifests\":[{\"digest\":\"sha256:zz\"},7,{\"annotations\":{\"org.opencontainers.image.ref.name\":\"v1\"},<saved Image0>},{<saved Image0>}],\"mediaType\":\"application/vnd.oci.image.index.v1+json\",\"schemaVersion\":2}",
    ),
];

static RUNS: [Run<'static>; 6] = [
    Run("opened", Ground::Memory, OPENED),
    Run("saved", Ground::Memory, SAVED),
    Run("forms", Ground::Memory, FORMS),
    Run("no lists", Ground::Memory, NO_LISTS),
    Run("a name", Ground::Memory, NAMED),
    Run("replaced", Ground::Memory, REPLACED),
];

/// An index with such entries is refused by `open`. If it is opened as it is, the layout has the
/// rest, and the places of these entries. A save keeps them, and a second one changes nothing.
#[test]
fn entries_that_are_no_descriptors(rt: HostRuntime) -> Result<(), Fail> {
    assert_runs(&rt, &RUNS)
}
