//! Layouts with damaged files.

use crate::tests::files::FileStep::{Blobs, Put, Text};
use crate::tests::layouts::LayoutStep::{
    Ask, Bring, Check, ForgetNames, Held, Links, Push, Resolve, Save,
};
use crate::tests::layouts::Question::{Absent, Damaged, DamagedManifests};
use crate::tests::steps::Step::{Enter, In, With};
use crate::tests::steps::Way::{Open, OpenAsIs};
use crate::tests::steps::{Ground, Row, Run, assert_runs};
use std::test::Fail;
use test_support::Sample::{Bar, Empty, Foo, Image0, Image2, Index1};
use test_support::{EMPTY, IMAGE, LAYER};

const LAYOUT_FILE: Row<'static> = Row(
    In("oci-layout", Put("{\"imageLayoutVersion\":\"1.0.0\"}")),
    "put",
);

/// The blobs, but for two manifests.
const BLOBS: Row<'static> = Row(
    In("blobs", Blobs(&[Empty, Foo, Bar, Image2, Index1])),
    "put",
);

/// Puts other bytes in the place of a manifest that has an entry.
const IN_AN_ENTRY: Row<'static> = Row(In("<blob Image0>", Put("{}")), "put");

/// Puts other bytes in the place of a manifest that an index lists.
const BELOW_AN_INDEX: Row<'static> = Row(In("<blob Image3>", Put("{}")), "put");

/// The entries of a damaged image, of an index, and of an image whose bytes are the empty JSON
/// object.
const INDEX: Row<'static> = Row(
    In(
        "index.json",
        Put(
            "{\"manifests\":[{\"annotations\":{\"org.opencontainers.image.ref.name\":\"bad\"},<saved Image0>,\"urls\":[]},{\"annotations\":{\"org.opencontainers.image.ref.name\":\"all\"},<saved Index1>},{\"digest\":\"<digest Empty>\",\"mediaType\":\"application/vnd.oci.image.manifest.v1+json\",\"size\":2}]}",
        ),
    ),
    "put",
);

/// The damaged keys: those of entries, and then the one that the index lists.
const ALL_DAMAGED: &str =
    "<key Image0>;<digest Empty> 2 application/vnd.oci.image.manifest.v1+json;<key Image3>;";

const OPENED: &[Row] = &[
    LAYOUT_FILE,
    BLOBS,
    IN_AN_ENTRY,
    BELOW_AN_INDEX,
    INDEX,
    Row(Enter(Open), "75 Corrupt <key Image0>"),
    Row(Enter(OpenAsIs), "held 4 all"),
    Row(With(Ask(Damaged)), ALL_DAMAGED),
    Row(With(Ask(DamagedManifests)), ALL_DAMAGED),
    Row(
        With(Ask(Absent)),
        "<key Image0>;<digest Empty> 2 application/vnd.oci.image.manifest.v1+json;",
    ),
    Row(With(Resolve("bad")), "36 UnknownReference"),
    Row(With(Links(Image0)), "not held/"),
    Row(With(Check(Image0, IMAGE)), "75 Corrupt <key Image0>"),
    Row(
        With(Check(Empty, IMAGE)),
        "77 BadManifest <digest Empty> 2 application/vnd.oci.image.manifest.v1+json 12 NoConfig",
    ),
    Row(With(Check(Image2, IMAGE)), "good"),
    Row(With(Check(Empty, EMPTY)), "good"),
];

const SAVED: &[Row] = &[
    LAYOUT_FILE,
    BLOBS,
    IN_AN_ENTRY,
    BELOW_AN_INDEX,
    INDEX,
    Row(Enter(OpenAsIs), "held 4 all"),
    Row(With(Save), "saved"),
    Row(
        In("index.json", Text),
        "{\"manifests\":[{\"annotations\":{\"org.opencontainers.image.ref.name\":\"bad\"},<saved Image0>,\"urls\":[]},{\"digest\":\"<digest Empty>\",\"mediaType\":\"application/vnd.oci.image.manifest.v1+json\",\"size\":2},{\"annotations\":{\"org.opencontainers.image.ref.name\":\"all\"},<saved Index1>},{<saved Image2>}],\"mediaType\":\"application/vnd.oci.image.index.v1+json\",\"schemaVersion\":2}",
    ),
    Row(Enter(OpenAsIs), "held 4 all"),
    Row(With(Ask(Damaged)), ALL_DAMAGED),
    Row(With(Push(Image0)), "place 4"),
    Row(With(Ask(Damaged)), ALL_DAMAGED),
    Row(With(Held), "held 5 all"),
    Row(With(Check(Image0, IMAGE)), "good"),
    Row(With(Save), "saved"),
    Row(Enter(OpenAsIs), "held 5 all bad"),
    Row(
        With(Ask(Damaged)),
        "<digest Empty> 2 application/vnd.oci.image.manifest.v1+json;<key Image3>;",
    ),
    Row(
        Enter(Open),
        "77 BadManifest <digest Empty> 2 application/vnd.oci.image.manifest.v1+json 12 NoConfig",
    ),
];

const REPLACED: &[Row] = &[
    LAYOUT_FILE,
    BLOBS,
    IN_AN_ENTRY,
    BELOW_AN_INDEX,
    INDEX,
    Row(Enter(OpenAsIs), "held 4 all"),
    Row(
        With(Bring(
            "{\"manifests\":[{\"annotations\":{\"org.opencontainers.image.ref.name\":\"bad\"},<saved Image2>}]}",
        )),
        "brought",
    ),
    Row(
        With(Ask(Damaged)),
        "<digest Empty> 2 application/vnd.oci.image.manifest.v1+json;<key Image3>;",
    ),
    Row(
        With(Ask(Absent)),
        "<digest Empty> 2 application/vnd.oci.image.manifest.v1+json;",
    ),
    Row(Enter(OpenAsIs), "held 4 all"),
    Row(With(ForgetNames), "forgotten"),
    Row(
        With(Ask(Damaged)),
        "<digest Empty> 2 application/vnd.oci.image.manifest.v1+json;<key Image3>;",
    ),
];

/// An image and its layer have entries. In the place of the layer are first too few bytes, then
/// too many, and then as many others.
const CUT: &[Row] = &[
    LAYOUT_FILE,
    BLOBS,
    Row(
        In(
            "index.json",
            Put(
                "{\"manifests\":[{\"annotations\":{\"org.opencontainers.image.ref.name\":\"v2\"},<saved Image2>},{<members Foo>}]}",
            ),
        ),
        "put",
    ),
    Row(In("<blob Foo>", Put("fo")), "put"),
    Row(Enter(Open), "held 3 v2"),
    Row(Enter(OpenAsIs), "held 2 v2"),
    Row(With(Ask(Damaged)), "<key Foo>;"),
    Row(With(Ask(DamagedManifests)), ""),
    Row(With(Ask(Absent)), "<key Foo>;"),
    Row(With(Check(Foo, LAYER)), "75 Corrupt <key Foo>"),
    Row(With(Push(Foo)), "place 2"),
    Row(With(Check(Foo, LAYER)), "good"),
    Row(In("<blob Foo>", Put("food")), "put"),
    Row(Enter(OpenAsIs), "held 2 v2"),
    Row(In("<blob Foo>", Put("bar")), "put"),
    Row(Enter(OpenAsIs), "held 3 v2"),
    Row(With(Ask(Damaged)), ""),
    Row(With(Check(Foo, LAYER)), "good"),
];

static RUNS: [Run<'static>; 4] = [
    Run("opened", Ground::Memory, OPENED),
    Run("saved", Ground::Memory, SAVED),
    Run("replaced", Ground::Memory, REPLACED),
    Run("cut layers", Ground::Memory, CUT),
];

/// A layout with damaged manifests is refused by `open`. If it is opened as it is, they are not
/// held, and each is damaged; those with entries are absent too. A save keeps their entries.
#[test]
fn damaged_manifests(rt: HostRuntime) -> Result<(), Fail> {
    assert_runs(&rt, &RUNS)
}
