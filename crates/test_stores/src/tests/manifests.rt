mod reads;
mod types;

use crate::tests::digests::repeated;
use crate::tests::manifests::reads::{
    ALL_KINDS, FORMS, HOSTILE, assert_links, assert_read, assert_reads,
};
use crate::tests::texts::{BAR, EMPTY, FOO, IMAGE_0, IMAGE_2, IMAGE_3, INDEX_1, assert_same};
use oci_manifest::{Key, Kind, successors};
use std::alloc::Global;
use std::process::Abort;
use std::test::Fail;
use test_support::Sample;
use test_support::Sample::{
    Bar, DockerImage, Empty, Foo, FooBySha512, Image0, Image1, Image2, Image3, Image4, Image5,
    Index1, Index2, Index3, Index4, Index5, Index6, Referrer,
};

/// Returns a copy of a key, as text.
fn printed_copy(alloc: Global, key: &Key) -> Result<String, Fail> {
    let copy = key.try_clone()?;
    Ok(copy.to_string(alloc)?)
}

/// Asserts the text of a copy of a sample's key.
fn assert_key<R: AllocGlobal + Abort>(rt: &R, sample: Sample, want: &str) -> Result<(), Fail> {
    let printed = printed_copy(rt.alloc(), &sample.key(rt.alloc())?)?;
    assert_same(rt, &sample, printed.as_str(), want);
    Ok(())
}

/// The samples with their keys. Python's hashlib computed the digests from the texts of the
/// contents.
const SAMPLES: [(Sample, &str); 18] = [
    (Empty, EMPTY),
    (Foo, FOO),
    (Bar, BAR),
    (
        FooBySha512,
        "sha512:f7fbba6e0636f890e56fbbf3283e524c6fa3204ae298382d624741d0dc6638326e282c41be5e4254d8820772c5518a2c5a8c0c7f7eda19594a7eb539453e1ed7 3 application/vnd.oci.image.layer.v1.tar",
    ),
    (Image0, IMAGE_0),
    (
        Image1,
        "sha256:d80fa97ca0539dfbfd206b1c8ebe52025d1994c7f1b9b187c4cad1371ab9a585 532 application/vnd.oci.image.manifest.v1+json",
    ),
    (Image2, IMAGE_2),
    (Image3, IMAGE_3),
    (
        Image4,
        "sha256:bed7727900d8aa6452792bb6124f28d01c2cc16e232add9a9276cc17d799a784 387 application/vnd.oci.image.manifest.v1+json",
    ),
    (
        Image5,
        "sha256:09a5744821fe06e8c5f8224a7862972f42b7f22098b496e9bd3d4322ab9a6731 449 application/vnd.oci.image.manifest.v1+json",
    ),
    (
        Referrer,
        "sha256:bab9e997a499d9a01debd4356f23454db050baa4f31321e5a33e2e3aebd4f8eb 402 application/vnd.oci.image.manifest.v1+json",
    ),
    (Index1, INDEX_1),
    (
        Index2,
        "sha256:0b8dc1984af33df0070c6aac0e96b5e5a73279e316612635d1a76f663efbde88 339 application/vnd.oci.image.index.v1+json",
    ),
    (
        Index3,
        "sha256:d9c3e7cfc5f64c505159926d395e41fe249bf6d3a5bf23f53c6bdce34993a368 186 application/vnd.oci.image.index.v1+json",
    ),
    (
        Index4,
        "sha256:04b54ec52bc620cd8553bcdfd876570329efa5cc7ead029e4d6b03ae3f4b29dd 183 application/vnd.oci.image.index.v1+json",
    ),
    (
        Index5,
        "sha256:0106f749c0f4bc273f902f56b26283702b80f7d2f85c0c8e19834d3f847c6015 336 application/vnd.oci.image.index.v1+json",
    ),
    (
        Index6,
        "sha256:d3f77871dd08f661484d350b4dfe1f8347ea2548c20ae9812f75f0f69531839e 183 application/vnd.oci.image.index.v1+json",
    ),
    (
        DockerImage,
        "sha256:655f703d5da3c83b1f8c9a8bb0cc7d4f6921a4a30b0b9d024a867ed937c03921 347 application/vnd.docker.distribution.manifest.v2+json",
    ),
];

#[test]
fn keys_of_samples(rt: HostRuntime) -> Result<(), Fail> {
    for (sample, want) in &SAMPLES {
        assert_key(&rt, *sample, want)?;
    }
    Ok(())
}

#[test]
fn descriptor_forms(rt: HostRuntime) -> Result<(), Fail> {
    assert_reads(&rt, &FORMS)
}

#[test]
fn all_kinds(rt: HostRuntime) -> Result<(), Fail> {
    assert_reads(&rt, &ALL_KINDS)
}

/// Wrong sizes and digests, bytes after the end, deep nesting, and bytes that are not UTF-8.
#[test]
fn hostile_manifests(rt: HostRuntime) -> Result<(), Fail> {
    assert_reads(&rt, &HOSTILE)?;
    assert_read(&rt, Kind::Index, b"{\"x\":\"\xff\"}", &["10 NotJson"])?;
    assert_read(&rt, Kind::Index, b"\xc3\x28", &["10 NotJson"])?;
    let brackets = repeated(rt.alloc(), b'[', 100_000)?;
    assert_read(&rt, Kind::Image, &brackets, &["10 NotJson"])
}

/// Returns whether reading the bytes fails with `NotJson`.
fn is_not_json(alloc: Global, kind: Kind, bytes: &[u8]) -> bool {
    match successors(alloc, kind, bytes) {
        Ok(_) => false,
        Err(fault) => fault.number() == 10,
    }
}

/// Asserts that no proper beginning of the bytes is read.
fn assert_unread<R: AllocGlobal + Abort>(rt: &R, kind: Kind, bytes: &[u8]) {
    for end in 0..bytes.len() {
        assert!(rt;
            is_not_json(rt.alloc(), kind, &bytes[..end]),
            "{kind:?} at {end}"
        );
    }
}

#[test]
fn every_proper_beginning(rt: HostRuntime) -> Result<(), Fail> {
    assert_unread(&rt, Kind::Image, Image0.bytes(rt.alloc())?.as_slice());
    assert_unread(&rt, Kind::Index, Index1.bytes(rt.alloc())?.as_slice());
    Ok(())
}

/// The successors and the subject are read at once.
#[test]
fn links(rt: HostRuntime) -> Result<(), Fail> {
    assert_links(
        &rt,
        r#"{"config":{"mediaType":"application/vnd.oci.empty.v1+json","digest":"sha256:44136fa355b3678a1146ad16f7e8649e94fb4fc21fe77e8310c060f61caaff8a","size":2},"subject":{"mediaType":"application/vnd.oci.image.manifest.v1+json","digest":"sha256:88028e7a699c392898fd180bf967edbcdb6227a9b7434a3ba0c9efff269e613f","size":241}}"#,
        &[IMAGE_0, ";", EMPTY, ";"],
        &["subject ", IMAGE_0, ";"],
    )?;
    assert_links(
        &rt,
        r#"{"config":{"mediaType":"application/vnd.oci.empty.v1+json","digest":"sha256:44136fa355b3678a1146ad16f7e8649e94fb4fc21fe77e8310c060f61caaff8a","size":2}}"#,
        &[EMPTY, ";"],
        &[],
    )
}
