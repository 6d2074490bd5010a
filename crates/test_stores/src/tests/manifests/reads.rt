//! Texts of manifests with their expected results, and functions that compare them.

use crate::tests::texts::{EMPTY, IMAGE_0, assert_text, line};
use oci_manifest::{Key, Kind, read_links, successors};
use std::alloc::Global;
use std::process::Abort;
use std::slice;
use std::test::Fail;

/// The kind of a manifest, its text, and the parts of the expected result.
pub(crate) type Read = (Kind, &'static str, &'static [&'static str]);

/// Returns the result of `successors` as text: the keys, or the error.
fn answer(alloc: Global, kind: Kind, bytes: &[u8]) -> Result<String, Fail> {
    match successors(alloc, kind, bytes) {
        Ok(keys) => line(alloc, "", &keys),
        Err(fault) => Ok(fault.to_string(alloc)?),
    }
}

/// Asserts the result of reading bytes as a manifest of this kind.
pub(crate) fn assert_read<R: AllocGlobal + Abort>(
    rt: &R,
    kind: Kind,
    bytes: &[u8],
    want: &[&str],
) -> Result<(), Fail> {
    let got = answer(rt.alloc(), kind, bytes)?;
    assert_text(rt, &(kind, bytes), got.as_str(), want)
}

pub(crate) fn assert_reads<R: AllocGlobal + Abort>(rt: &R, rows: &[Read]) -> Result<(), Fail> {
    for (kind, manifest, want) in rows {
        assert_read(rt, *kind, manifest.as_bytes(), want)?;
    }
    Ok(())
}

/// Returns a subject as text; empty if there is none.
fn line_of_subject(alloc: Global, subject: &Option<Key>) -> Result<String, Fail> {
    match subject {
        Some(key) => line(alloc, "subject ", slice::from_ref(key)),
        None => Ok(String::new(alloc)),
    }
}

/// Asserts the subject of a manifest.
fn assert_subject<R: AllocGlobal + Abort>(
    rt: &R,
    manifest: &str,
    subject: &Option<Key>,
    want: &[&str],
) -> Result<(), Fail> {
    let got = line_of_subject(rt.alloc(), subject)?;
    assert_text(rt, &manifest, got.as_str(), want)
}

/// Asserts the keys that a manifest lists.
fn assert_successors<R: AllocGlobal + Abort>(
    rt: &R,
    manifest: &str,
    successors: &[Key],
    want: &[&str],
) -> Result<(), Fail> {
    let got = line(rt.alloc(), "", successors)?;
    assert_text(rt, &manifest, got.as_str(), want)
}

/// Asserts the successors and the subject of a text that is read as an image.
pub(crate) fn assert_links<R: AllocGlobal + Abort>(
    rt: &R,
    manifest: &str,
    successors: &[&str],
    subject: &[&str],
) -> Result<(), Fail> {
    let links = read_links(rt.alloc(), Kind::Image, manifest.as_bytes())?;
    assert_successors(rt, manifest, &links.successors, successors)?;
    assert_subject(rt, manifest, &links.subject, subject)
}

/// Manifests of each kind, and the keys that they list.
pub(crate) const ALL_KINDS: [Read; 9] = [
    (
        Kind::Image,
        r#"{"subject":7}"#,
        &["14 BadDescriptor subject 0"],
    ),
    (
        Kind::Image,
        r#"{"config":null,"layers":{}}"#,
        &["12 NoConfig"],
    ),
    (
        Kind::Image,
        r#"{"config":{"mediaType":"application/vnd.oci.empty.v1+json","digest":"sha256:44136fa355b3678a1146ad16f7e8649e94fb4fc21fe77e8310c060f61caaff8a","size":2},"layers":7}"#,
        &["13 BadList layers"],
    ),
    (
        Kind::DockerImage,
        r#"{"subject":7,"config":{"mediaType":"application/vnd.oci.empty.v1+json","digest":"sha256:44136fa355b3678a1146ad16f7e8649e94fb4fc21fe77e8310c060f61caaff8a","size":2}}"#,
        &[EMPTY, ";"],
    ),
    (Kind::Artifact, r#"{"blobs":null,"subject":null}"#, &[]),
    (
        Kind::DockerList,
        r#"{"manifests":[7]}"#,
        &["14 BadDescriptor manifests 0"],
    ),
    (
        Kind::Index,
        r#"{"subject":{"mediaType":"application/vnd.oci.image.manifest.v1+json","digest":"sha256:88028e7a699c392898fd180bf967edbcdb6227a9b7434a3ba0c9efff269e613f","size":241},"manifests":[{"mediaType":"application/vnd.oci.empty.v1+json","digest":"sha256:44136fa355b3678a1146ad16f7e8649e94fb4fc21fe77e8310c060f61caaff8a","size":2},{"mediaType":"application/vnd.oci.image.manifest.v1+json","digest":"sha256:88028e7a699c392898fd180bf967edbcdb6227a9b7434a3ba0c9efff269e613f","size":241}]}"#,
        &[IMAGE_0, ";", EMPTY, ";"],
    ),
    (
        Kind::Image,
        r#"{"schemaVersion":2,"config":{"mediaType":"application/vnd.oci.empty.v1+json","digest":"sha256:44136fa355b3678a1146ad16f7e8649e94fb4fc21fe77e8310c060f61caaff8a","size":2},"layers":[{"mediaType":"application/vnd.docker.image.rootfs.foreign.diff.tar.gzip","digest":"sha256:aa","size":3}]}"#,
        &["14 BadDescriptor layers 0"],
    ),
    (Kind::Leaf, "{", &[]),
];

const BAD_MANIFEST_0: &[&str] = &["14 BadDescriptor manifests 0"];

/// Sizes at their bounds, and values that are not lists or not descriptors.
pub(crate) const FORMS: [Read; 8] = [
    (
        Kind::Index,
        r#"{"manifests":[{"mediaType":"text/plain","digest":"sha256:e3b0c44298fc1c149afbf4c8996fb92427ae41e4649b934ca495991b7852b855","size":-1}]}"#,
        BAD_MANIFEST_0,
    ),
    (
        Kind::Index,
        r#"{"manifests":[{"mediaType":"text/plain","digest":"sha256:e3b0c44298fc1c149afbf4c8996fb92427ae41e4649b934ca495991b7852b855","size":9223372036854775807}]}"#,
        &[
            "sha256:e3b0c44298fc1c149afbf4c8996fb92427ae41e4649b934ca495991b7852b855 9223372036854775807 text/plain;",
        ],
    ),
    (
        Kind::Index,
        r#"{"manifests":[{"mediaType":"text/plain","digest":"sha256:e3b0c44298fc1c149afbf4c8996fb92427ae41e4649b934ca495991b7852b855","size":9223372036854775808}]}"#,
        BAD_MANIFEST_0,
    ),
    (
        Kind::Index,
        r#"{"manifests":[{"digest":"sha256:e3b0c44298fc1c149afbf4c8996fb92427ae41e4649b934ca495991b7852b855","size":1}]}"#,
        BAD_MANIFEST_0,
    ),
    (
        Kind::Index,
        r#"{"manifests":{}}"#,
        &["13 BadList manifests"],
    ),
    (Kind::Index, r#"{"manifests":"#, &["10 NotJson"]),
    (Kind::Index, "{}", &[]),
    (Kind::Image, "{}", &["12 NoConfig"]),
];

/// Second descriptors with wrong sizes and digests; one that is right, whose other members are
/// ignored; bytes after the end of an image; and brackets nested 127 deep, which are read, or more.
pub(crate) const HOSTILE: [Read; 12] = [
    (
        Kind::Artifact,
        r#"{"blobs":[{"mediaType":"application/vnd.oci.empty.v1+json","digest":"sha256:44136fa355b3678a1146ad16f7e8649e94fb4fc21fe77e8310c060f61caaff8a","size":2},{"mediaType":"","digest":"sha256:2c26b46b68ffc68ff99b453c1d30413413422d706483bfa0f98a5e886266e7ae","size":"2"}]}"#,
        &["14 BadDescriptor blobs 1"],
    ),
    (
        Kind::Artifact,
        r#"{"blobs":[{"mediaType":"application/vnd.oci.empty.v1+json","digest":"sha256:44136fa355b3678a1146ad16f7e8649e94fb4fc21fe77e8310c060f61caaff8a","size":2},{"mediaType":"","digest":"sha256:2c26b46b68ffc68ff99b453c1d30413413422d706483bfa0f98a5e886266e7ae","size":[2]}]}"#,
        &["14 BadDescriptor blobs 1"],
    ),
    (
        Kind::Artifact,
        r#"{"blobs":[{"mediaType":"application/vnd.oci.empty.v1+json","digest":"sha256:44136fa355b3678a1146ad16f7e8649e94fb4fc21fe77e8310c060f61caaff8a","size":2},{"mediaType":"","digest":"sha256:2c26b46b68ffc68ff99b453c1d30413413422d706483bfa0f98a5e886266e7ae","size":2.0}]}"#,
        &["14 BadDescriptor blobs 1"],
    ),
    (
        Kind::Artifact,
        r#"{"blobs":[{"mediaType":"application/vnd.oci.empty.v1+json","digest":"sha256:44136fa355b3678a1146ad16f7e8649e94fb4fc21fe77e8310c060f61caaff8a","size":2},{"mediaType":"","digest":"sha256:2c26b46b68ffc68ff99b453c1d30413413422d706483bfa0f98a5e886266e7ae","size":2.5}]}"#,
        &["14 BadDescriptor blobs 1"],
    ),
    (
        Kind::Artifact,
        r#"{"blobs":[{"mediaType":"application/vnd.oci.empty.v1+json","digest":"sha256:44136fa355b3678a1146ad16f7e8649e94fb4fc21fe77e8310c060f61caaff8a","size":2},{"mediaType":"","digest":"sha256:2c26b46b68ffc68ff99b453c1d30413413422d706483bfa0f98a5e886266e7ae"}]}"#,
        &["14 BadDescriptor blobs 1"],
    ),
    (
        Kind::Artifact,
        r#"{"blobs":[{"mediaType":"application/vnd.oci.empty.v1+json","digest":"sha256:44136fa355b3678a1146ad16f7e8649e94fb4fc21fe77e8310c060f61caaff8a","size":2},{"mediaType":"","digest":"sha256:../../x","size":2}]}"#,
        &["14 BadDescriptor blobs 1"],
    ),
    (
        Kind::Artifact,
        r#"{"blobs":[{"mediaType":"","digest":"sha256:2c26b46b68ffc68ff99b453c1d30413413422d706483bfa0f98a5e886266e7ae","size":2,"data":7,"urls":7,"x":null}]}"#,
        &["sha256:2c26b46b68ffc68ff99b453c1d30413413422d706483bfa0f98a5e886266e7ae 2 ;"],
    ),
    (
        Kind::Image,
        "{\"schemaVersion\":2,\"mediaType\":\"application/vnd.oci.image.manifest.v1+json\",\"config\":{\"mediaType\":\"application/vnd.oci.empty.v1+json\",\"digest\":\"sha256:44136fa355b3678a1146ad16f7e8649e94fb4fc21fe77e8310c060f61caaff8a\",\"size\":2},\"layers\":null}\n",
        &[EMPTY, ";"],
    ),
    (
        Kind::Image,
        "{\"schemaVersion\":2,\"mediaType\":\"application/vnd.oci.image.manifest.v1+json\",\"config\":{\"mediaType\":\"application/vnd.oci.empty.v1+json\",\"digest\":\"sha256:44136fa355b3678a1146ad16f7e8649e94fb4fc21fe77e8310c060f61caaff8a\",\"size\":2},\"layers\":null}\nx",
        &["10 NotJson"],
    ),
    (
        Kind::Image,
        r#"{"schemaVersion":2,"mediaType":"application/vnd.oci.image.manifest.v1+json","config":{"mediaType":"application/vnd.oci.empty.v1+json","digest":"sha256:44136fa355b3678a1146ad16f7e8649e94fb4fc21fe77e8310c060f61caaff8a","size":2},"layers":null}x"#,
        &["10 NotJson"],
    ),
    (
        Kind::Image,
        "[[[[[[[[[[[[[[[[[[[[[[[[[[[[[[[[[[[[[[[[[[[[[[[[[[[[[[[[[[[[[[[[[[[[[[[[[[[[[[[[[[[[[[[[[[[[[[[[[[[[[[[[[[[[[[[[[[[[[[[[[[[[[[[]]]]]]]]]]]]]]]]]]]]]]]]]]]]]]]]]]]]]]]]]]]]]]]]]]]]]]]]]]]]]]]]]]]]]]]]]]]]]]]]]]]]]]]]]]]]]]]]]]]]]]]]]]]]]]]]]]]]]]]]]]]]]]]",
        &["11 NotObject"],
    ),
    (
        Kind::Image,
        "[[[[[[[[[[[[[[[[[[[[[[[[[[[[[[[[[[[[[[[[[[[[[[[[[[[[[[[[[[[[[[[[[[[[[[[[[[[[[[[[[[[[[[[[[[[[[[[[[[[[[[[[[[[[[[[[[[[[[[[[[[[[[[[[]]]]]]]]]]]]]]]]]]]]]]]]]]]]]]]]]]]]]]]]]]]]]]]]]]]]]]]]]]]]]]]]]]]]]]]]]]]]]]]]]]]]]]]]]]]]]]]]]]]]]]]]]]]]]]]]]]]]]]]]]]]]]]]]",
        &["10 NotJson"],
    ),
];
