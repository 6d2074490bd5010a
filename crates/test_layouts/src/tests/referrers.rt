//! A layout of an image that was copied with its referrers.

use crate::tests::copies::Copying::Extended;
use crate::tests::files::FileStep::Text;
use crate::tests::layouts::LayoutStep::{Ask, Push, Save, Tag};
use crate::tests::layouts::Question::Subjects;
use crate::tests::steps::Step::{Copy, Enter, In, With};
use crate::tests::steps::Way::{Create, Open, OpenAsIs};
use crate::tests::steps::{Ground, Row, Run, assert_runs};
use std::test::Fail;
use test_support::Sample::{Image0, Image2};

/// The index of the image with its name, and of the index and the signature above it.
const ROWS: &[Row] = &[
    Row(Enter(Create), "held 0"),
    Row(Copy(Extended), "planned 5 pushed 5 skipped 0"),
    Row(With(Tag(Image2, "t")), "tagged"),
    Row(With(Save), "saved"),
    Row(
        In("index.json", Text),
        "{\"manifests\":[{\"annotations\":{\"org.opencontainers.image.ref.name\":\"t\"},<saved Image2>},{<saved Index3>},{<saved Referrer>}],\"mediaType\":\"application/vnd.oci.image.index.v1+json\",\"schemaVersion\":2}",
    ),
];

/// The signature and its subject, the image. Python's hashlib computed the digests.
const STATED: &str =
    "sha256:bab9e997a499d9a01debd4356f23454db050baa4f31321e5a33e2e3aebd4f8eb 402 application/vnd.oci.image.manifest.v1+json of sha256:7e1df211bc4556d2a9db939a81721c52e5e53c59e3dfb45a57205a794dd412b7 385 application/vnd.oci.image.manifest.v1+json;";

/// The signature and its subject, after each opening.
const SUBJECTS: &[Row] = &[
    Row(Enter(Create), "held 0"),
    Row(With(Ask(Subjects)), ""),
    Row(Copy(Extended), "planned 5 pushed 5 skipped 0"),
    Row(With(Ask(Subjects)), "not remembered"),
    Row(With(Tag(Image2, "t")), "tagged"),
    Row(With(Save), "saved"),
    Row(Enter(Open), "held 5 t"),
    Row(With(Ask(Subjects)), STATED),
    Row(Enter(OpenAsIs), "held 5 t"),
    Row(With(Ask(Subjects)), STATED),
    Row(With(Push(Image0)), "place 5"),
    Row(With(Ask(Subjects)), "not remembered"),
];

static RUNS: [Run<'static>; 2] = [
    Run("the index", Ground::Memory, ROWS),
    Run("the subjects", Ground::Memory, SUBJECTS),
];

/// The saved index also has the manifests without a name, in key order, after the names. The
/// subjects that were read are remembered until a blob comes.
#[test]
fn referrers_in_an_index(rt: HostRuntime) -> Result<(), Fail> {
    assert_runs(&rt, &RUNS)
}
