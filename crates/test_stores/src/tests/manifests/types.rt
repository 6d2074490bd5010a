//! The types that manifests declare.

use oci_manifest::{Kind, artifact_type};
use std::process::Abort;
use std::test::Fail;

/// A kind, the text of a manifest, and the type that it declares.
type Stated = (Kind, &'static str, Option<&'static str>);

/// Two artifacts after the examples of OCI image-spec 1.1, manifest.md, "Guidelines for Artifact
/// Usage", without their layers; then a Helm chart, a Docker image, an index, and an artifact
/// manifest. In the others, an `artifactType` that is empty or not a text does not count. Only images
/// have a config. Leaves, and bytes that are not a JSON object, declare no type.
const STATED: [Stated; 15] = [
    (
        Kind::Image,
        r#"{"schemaVersion":2,"artifactType":"application/vnd.example+type","config":{"mediaType":"application/vnd.oci.empty.v1+json","digest":"sha256:44136fa355b3678a1146ad16f7e8649e94fb4fc21fe77e8310c060f61caaff8a","size":2},"layers":[]}"#,
        Some("application/vnd.example+type"),
    ),
    (
        Kind::Image,
        r#"{"schemaVersion":2,"config":{"mediaType":"application/vnd.example.config.v1+json","digest":"sha256:5891b5b522d5df086d0ff0b110fbd9d21bb4fc7163af34d08286a2e846f6be03","size":123},"artifactType":"application/vnd.example+type"}"#,
        Some("application/vnd.example+type"),
    ),
    (
        Kind::Image,
        r#"{"schemaVersion":2,"config":{"mediaType":"application/vnd.cncf.helm.config.v1+json"},"layers":[]}"#,
        Some("application/vnd.cncf.helm.config.v1+json"),
    ),
    (
        Kind::DockerImage,
        r#"{"config":{"mediaType":"application/vnd.docker.container.image.v1+json"}}"#,
        Some("application/vnd.docker.container.image.v1+json"),
    ),
    (
        Kind::Index,
        r#"{"schemaVersion":2,"artifactType":"application/vnd.example+type","manifests":[]}"#,
        Some("application/vnd.example+type"),
    ),
    (
        Kind::Artifact,
        r#"{"artifactType":"application/vnd.example.sbom.v1","blobs":[]}"#,
        Some("application/vnd.example.sbom.v1"),
    ),
    (
        Kind::Image,
        r#"{"artifactType":"","config":{"mediaType":"text/plain"}}"#,
        Some("text/plain"),
    ),
    (
        Kind::Image,
        r#"{"artifactType":7,"config":{"mediaType":"text/plain"}}"#,
        Some("text/plain"),
    ),
    (Kind::Image, r#"{"config":{"mediaType":""}}"#, None),
    (Kind::Image, r#"{"layers":[]}"#, None),
    (Kind::Image, "[]", None),
    (Kind::Image, "{", None),
    (
        Kind::Index,
        r#"{"artifactType":"","config":{"mediaType":"text/plain"}}"#,
        None,
    ),
    (
        Kind::Artifact,
        r#"{"config":{"mediaType":"text/plain"}}"#,
        None,
    ),
    (Kind::Leaf, r#"{"artifactType":"text/plain"}"#, None),
];

fn assert_stated<R: AllocGlobal + Abort>(rt: &R, (kind, text, want): Stated) -> Result<(), Fail> {
    let stated = artifact_type(rt.alloc(), kind, text.as_bytes())?;
    let got = stated.as_ref().map(String::as_str);
    assert!(rt; got == want, "{text}");
    Ok(())
}

#[test]
fn artifact_types(rt: HostRuntime) -> Result<(), Fail> {
    for row in &STATED {
        assert_stated(&rt, *row)?;
    }
    Ok(())
}
