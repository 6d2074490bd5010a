//! SHA-512 digests.

use crate::tests::files::FileStep::Text;
use crate::tests::layouts::LayoutStep::{Fetch, Push, Resolve, Save};
use crate::tests::steps::Step::{Enter, In, With};
use crate::tests::steps::Way::{Create, Open};
use crate::tests::steps::{Ground, Row, Run, assert_runs};
use std::test::Fail;
use test_support::Sample::FooBySha512;

/// A layer with a SHA-512 digest is pushed into a new layout, which is saved and opened again. The
/// digests were printed by `sha512sum` and `sha256sum`.
const SHA512_BLOB: &[Row] = &[
    Row(Enter(Create), "held 0"),
    Row(With(Push(FooBySha512)), "place 0"),
    Row(With(Save), "saved"),
    Row(
        In(
            "blobs/sha512/f7fbba6e0636f890e56fbbf3283e524c6fa3204ae298382d624741d0dc6638326e282c41be5e4254d8820772c5518a2c5a8c0c7f7eda19594a7eb539453e1ed7",
            Text,
        ),
        "foo",
    ),
    Row(
        In(
            "blobs/sha256/f7fbba6e0636f890e56fbbf3283e524c6fa3204ae298382d624741d0dc6638326e282c41be5e4254d8820772c5518a2c5a8c0c7f7eda19594a7eb539453e1ed7",
            Text,
        ),
        "none",
    ),
    Row(
        In(
            "blobs/sha256/2c26b46b68ffc68ff99b453c1d30413413422d706483bfa0f98a5e886266e7ae",
            Text,
        ),
        "none",
    ),
    Row(Enter(Open), "held 1"),
    Row(With(Fetch(FooBySha512)), "foo"),
    Row(
        With(Resolve(
            "sha512:f7fbba6e0636f890e56fbbf3283e524c6fa3204ae298382d624741d0dc6638326e282c41be5e4254d8820772c5518a2c5a8c0c7f7eda19594a7eb539453e1ed7",
        )),
        "<key FooBySha512>",
    ),
];

static RUNS: [Run<'static>; 2] = [
    Run("in memory", Ground::Memory, SHA512_BLOB),
    Run("in a folder", Ground::Folder("sha512_blob"), SHA512_BLOB),
];

/// In a folder, the folder of the algorithm is created.
#[test]
fn sha512_blob(rt: HostRuntime) -> Result<(), Fail> {
    assert_runs(&rt, &RUNS)
}
