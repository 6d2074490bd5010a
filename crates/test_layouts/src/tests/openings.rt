//! Layouts that are not opened, and indexes that other tools wrote.

use crate::tests::files::FileStep::{Blobs, Put, Text};
use crate::tests::layouts::LayoutStep::{Resolve, Save};
use crate::tests::steps::Step::{Enter, In, With};
use crate::tests::steps::Way::{Open, OpenAsIs, OpenOrCreate};
use crate::tests::steps::{Ground, Row, Run, assert_runs};
use std::test::Fail;
use test_support::Sample::{Bar, Empty, Foo, Image0, Image2, Image3, Image4, Index1};

/// Puts the layout file.
const LAYOUT_FILE: Row<'static> = Row(
    In("oci-layout", Put("{\"imageLayoutVersion\":\"1.0.0\"}")),
    "put",
);

const LAYOUT_FILES: &[Row] = &[
    Row(Enter(Open), "70 NoLayoutFile"),
    Row(In("oci-layout", Put("{}")), "put"),
    Row(Enter(Open), "71 BadLayoutFile"),
    Row(In("oci-layout", Put("[]")), "put"),
    Row(Enter(Open), "71 BadLayoutFile"),
    Row(In("oci-layout", Put("{\"imageLayoutVersion\":1}")), "put"),
    Row(Enter(Open), "71 BadLayoutFile"),
    Row(
        In("oci-layout", Put("{\"imageLayoutVersion\":\"1.0.1\"}")),
        "put",
    ),
    Row(Enter(Open), "72 BadVersion"),
    Row(
        In("oci-layout", Put("{ \"imageLayoutVersion\": \"1.0.0\" }")),
        "put",
    ),
    Row(Enter(Open), "held 0"),
];

const BOTH_FILES: &[Row] = &[
    Row(In("oci-layout", Put("{}")), "put"),
    Row(In("index.json", Put("[]")), "put"),
    Row(Enter(Open), "71 BadLayoutFile"),
];

const INDEX_FILES: &[Row] = &[
    LAYOUT_FILE,
    Row(In("index.json", Put("[]")), "put"),
    Row(Enter(Open), "73 BadIndex 11 NotObject"),
    Row(In("index.json", Put("{\"manifests\":{}}")), "put"),
    Row(Enter(Open), "73 BadIndex 13 BadList manifests"),
    Row(In("index.json", Put("{\"manifests\":[7]}")), "put"),
    Row(Enter(Open), "73 BadIndex 14 BadDescriptor manifests 0"),
    Row(In("index.json", Put("{}")), "put"),
    Row(Enter(Open), "held 0"),
];

/// The one entry is an image whose bytes are the empty JSON object, first with a wrong size and
/// then with the right one.
const AT_FAULT: &[Row] = &[
    LAYOUT_FILE,
    Row(In("blobs", Blobs(&[Empty])), "put"),
    Row(
        In(
            "index.json",
            Put(
                "{\"manifests\":[{\"mediaType\":\"application/vnd.oci.image.manifest.v1+json\",\"digest\":\"<digest Empty>\",\"size\":9223372036854775807}]}",
            ),
        ),
        "put",
    ),
    Row(
        Enter(Open),
        "75 Corrupt <digest Empty> 9223372036854775807 application/vnd.oci.image.manifest.v1+json",
    ),
    Row(
        In(
            "index.json",
            Put(
                "{\"manifests\":[{\"mediaType\":\"application/vnd.oci.image.manifest.v1+json\",\"digest\":\"<digest Empty>\",\"size\":2}]}",
            ),
        ),
        "put",
    ),
    Row(
        Enter(Open),
        "77 BadManifest <digest Empty> 2 application/vnd.oci.image.manifest.v1+json 12 NoConfig",
    ),
];

/// The index is indented, and has members of its own.
const STANDARD: &[Row] = &[
    LAYOUT_FILE,
    Row(
        In(
            "blobs",
            Blobs(&[Empty, Foo, Bar, Image0, Image2, Image3, Index1, Image4]),
        ),
        "put",
    ),
    Row(
        In(
            "index.json",
            Put(
                "{\n  \"schemaVersion\": 2,\n  \"mediaType\": \"application/vnd.oci.image.index.v1+json\",\n  \"annotations\": {\n    \"com.example.index.revision\": \"r124356\"\n  },\n  \"manifests\": [\n    {<members Index1>,\n      \"annotations\": {\n        \"org.opencontainers.image.ref.name\": \"stable-release\"\n      }\n    },\n    {<members Image0>,\"platform\": {\"architecture\": \"ppc64le\", \"os\": \"linux\"}, \"annotations\": {\"org.opencontainers.image.ref.name\": \"v1.0\"}},\n    {<members Bar>,\"annotations\": {\"org.freedesktop.specifications.metainfo.version\": \"1.0\", \"org.freedesktop.specifications.metainfo.type\": \"AppStream\"}}\n  ]\n}\n",
            ),
        ),
        "put",
    ),
    Row(Enter(Open), "held 7 stable-release v1.0"),
    Row(With(Resolve("v1.0")), "<key Image0>"),
    Row(With(Resolve("stable-release")), "<key Index1>"),
];

/// An index with two entries of one name, so that the last counts, and two names of one key. Of the
/// other names one is a number, one is empty, and one is for a key without a file. The entries have
/// the members that buildah, skopeo, docker and oras write besides the name.
const NAMED: &str =
    "{\n  \"schemaVersion\": 2,\n  \"mediaType\": \"application/vnd.oci.image.index.v1+json\",\n  \"annotations\": {\n    \"com.example.index.revision\": \"r124356\"\n  },\n  \"manifests\": [\n    {<members Image2>,\"annotations\":{\"org.opencontainers.image.ref.name\":\"latest\"}},\n    {<members Image0>,\"annotations\":{\"io.containerd.image.name\":\"docker.io/library/a:b\",\"org.opencontainers.image.created\":\"2024-01-01T00:00:00Z\",\"org.opencontainers.image.ref.name\":\"latest\"}},\n    {<members Image0>,\"artifactType\":\"application/example\",\"data\":\"e30=\",\"urls\":[\"https://example.org\"],\"annotations\":{\"org.opencontainers.image.ref.name\":\"b\"}},\n    {<members Image0>,\"annotations\":{\"org.opencontainers.image.ref.name\":7}},\n    {<members Image0>,\"annotations\":{\"org.opencontainers.image.ref.name\":\"\"}},\n    {<members Image0>,\"annotations\":[]},\n    {<members Image3>,\"annotations\":{\"org.opencontainers.image.ref.name\":\"gone\"}}\n  ]\n}\n";

/// Puts the blobs that the index names, but for the missing one, and then the index.
const NAMED_BLOBS: Row<'static> = Row(In("blobs", Blobs(&[Empty, Foo, Image0, Image2])), "put");

const NAMED_INDEX: Row<'static> = Row(In("index.json", Put(NAMED)), "put");

const NAMES: &[Row] = &[
    LAYOUT_FILE,
    NAMED_BLOBS,
    NAMED_INDEX,
    Row(Enter(Open), "held 4 b latest"),
    Row(With(Resolve("latest")), "<key Image0>"),
];

/// A directory with an index and no `oci-layout` is refused. One with neither becomes an empty
/// layout, which is then opened, also with an index of another tool. A layout that cannot be opened
/// is unchanged.
const OPENED_OR_CREATED: &[Row] = &[
    Row(In("index.json", Put("[]")), "put"),
    Row(Enter(OpenOrCreate), "70 NoLayoutFile"),
    Row(In("index.json", Text), "[]"),
    Row(
        In(
            "index.json",
            Put(
                "{\"manifests\":[],\"mediaType\":\"application/vnd.oci.image.index.v1+json\",\"schemaVersion\":2}",
            ),
        ),
        "put",
    ),
    Row(Enter(OpenOrCreate), "held 0"),
    Row(Enter(Open), "held 0"),
    NAMED_BLOBS,
    NAMED_INDEX,
    Row(Enter(OpenOrCreate), "held 4 b latest"),
    Row(In("oci-layout", Put("{}")), "put"),
    Row(Enter(OpenOrCreate), "71 BadLayoutFile"),
    Row(In("oci-layout", Text), "{}"),
];

const SAVED_AGAIN: &[Row] = &[
    LAYOUT_FILE,
    NAMED_BLOBS,
    NAMED_INDEX,
    Row(Enter(Open), "held 4 b latest"),
    Row(With(Save), "saved"),
    Row(
        In("index.json", Text),
        "{\"manifests\":[{\"annotations\":{\"org.opencontainers.image.ref.name\":\"b\"},<saved Image0>},{\"annotations\":{\"org.opencontainers.image.ref.name\":\"latest\"},<saved Image0>},{<saved Image2>}],\"mediaType\":\"application/vnd.oci.image.index.v1+json\",\"schemaVersion\":2}",
    ),
];

/// The index after a save of the layout that was opened as it is. First come the earlier entry of
/// `latest` and the entry without a file, then the tags, then the entries without a tag, and last a
/// new one.
const AS_WRITTEN: &str =
    "{\"annotations\":{\"com.example.index.revision\":\"r124356\"},\"manifests\":[{\"annotations\":{\"org.opencontainers.image.ref.name\":\"latest\"},<saved Image2>},{\"annotations\":{\"org.opencontainers.image.ref.name\":\"gone\"},<saved Image3>},{\"annotations\":{\"org.opencontainers.image.ref.name\":\"b\"},\"artifactType\":\"application/example\",\"data\":\"e30=\",<saved Image0>,\"urls\":[\"https://example.org\"]},{\"annotations\":{\"io.containerd.image.name\":\"docker.io/library/a:b\",\"org.opencontainers.image.created\":\"2024-01-01T00:00:00Z\",\"org.opencontainers.image.ref.name\":\"latest\"},<saved Image0>},{\"annotations\":{\"org.opencontainers.image.ref.name\":7},<saved Image0>},{\"annotations\":{\"org.opencontainers.image.ref.name\":\"\"},<saved Image0>},{\"annotations\":[],<saved Image0>},{<saved Image2>}],\"mediaType\":\"application/vnd.oci.image.index.v1+json\",\"schemaVersion\":2}";

const SAVED_AS_WRITTEN: &[Row] = &[
    LAYOUT_FILE,
    NAMED_BLOBS,
    NAMED_INDEX,
    Row(Enter(OpenAsIs), "held 4 b latest"),
    Row(With(Save), "saved"),
    Row(In("index.json", Text), AS_WRITTEN),
    Row(Enter(OpenAsIs), "held 4 b latest"),
    Row(With(Save), "saved"),
    Row(In("index.json", Text), AS_WRITTEN),
];

static RUNS: [Run<'static>; 9] = [
    Run("layout files", Ground::Memory, LAYOUT_FILES),
    Run("both files", Ground::Memory, BOTH_FILES),
    Run("index files", Ground::Memory, INDEX_FILES),
    Run("manifests", Ground::Memory, AT_FAULT),
    Run("the standard", Ground::Memory, STANDARD),
    Run("opened or created", Ground::Memory, OPENED_OR_CREATED),
    Run("names", Ground::Memory, NAMES),
    Run("saved again", Ground::Memory, SAVED_AGAIN),
    Run("saved as written", Ground::Memory, SAVED_AS_WRITTEN),
];

/// A layout is opened, or refused by the first file that is not as it should be. What another tool
/// wrote into the index stays, if the layout was opened as it is and is saved.
#[test]
fn openings(rt: HostRuntime) -> Result<(), Fail> {
    assert_runs(&rt, &RUNS)
}
