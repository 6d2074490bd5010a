//! Pushes that fail, old files, and files that changed.

use crate::tests::files::FileStep::{Put, Text};
use crate::tests::layouts::LayoutStep::{Fetch, Held, Links, Push, PushAs, Save, Tag};
use crate::tests::steps::Step::{Enter, In, With};
use crate::tests::steps::Way::{Create, Open};
use crate::tests::steps::{Ground, Row, Run, assert_runs};
use std::test::Fail;
use test_support::LAYER;
use test_support::Sample::{Empty, Foo, Image0};

const REFUSED: &[Row] = &[
    Row(Enter(Create), "held 0"),
    Row(With(Push(Image0)), "42 MissingSuccessor <key Empty>"),
    Row(With(Push(Empty)), "place 0"),
    Row(With(Push(Empty)), "30 AlreadyExists"),
];

/// An image whose bytes are also held under another media type.
const ONE_FILE: &[Row] = &[
    Row(Enter(Create), "held 0"),
    Row(With(Push(Empty)), "place 0"),
    Row(With(Push(Image0)), "place 1"),
    Row(With(PushAs(Image0, LAYER)), "place 2"),
    Row(With(Held), "held 3"),
    Row(With(Links(Empty)), "/<key Image0>;"),
    Row(With(Links(Image0)), "<key Empty>;/"),
    Row(With(Links(Foo)), "not held/"),
];

/// In place of a blob is a file of other bytes.
const OLD_FILE: &[Row] = &[
    Row(In("<blob Foo>", Put("bar")), "put"),
    Row(Enter(Create), "held 0"),
    Row(With(Push(Foo)), "place 0"),
    Row(With(Fetch(Foo)), "foo"),
    Row(In("<blob Foo>", Text), "foo"),
];

const TWO_KEYS: &[Row] = &[
    Row(Enter(Create), "held 0"),
    Row(With(Push(Foo)), "place 0"),
    Row(With(PushAs(Foo, "text/plain")), "place 1"),
    Row(With(Push(Empty)), "43 Device"),
];

/// Each of three texts is put in place of the file of a layer.
const CHANGED: &[Row] = &[
    Row(Enter(Create), "held 0"),
    Row(With(Push(Foo)), "place 0"),
    Row(With(Tag(Foo, "foo")), "tagged"),
    Row(With(Save), "saved"),
    Row(In("<blob Foo>", Put("foo")), "put"),
    Row(Enter(Open), "held 1 foo"),
    Row(With(Fetch(Foo)), "foo"),
    Row(In("<blob Foo>", Put("bar")), "put"),
    Row(Enter(Open), "held 1 foo"),
    Row(With(Fetch(Foo)), "21 Corrupt"),
    Row(In("<blob Foo>", Put("fo")), "put"),
    Row(Enter(Open), "held 1 foo"),
    Row(With(Fetch(Foo)), "21 Corrupt"),
];

static RUNS: [Run<'static>; 5] = [
    Run("refused", Ground::Memory, REFUSED),
    Run("one file", Ground::Memory, ONE_FILE),
    Run("an old file", Ground::Memory, OLD_FILE),
    Run("two keys", Ground::Fuse(3), TWO_KEYS),
    Run("a changed file", Ground::Memory, CHANGED),
];

/// A refused push leaves the layout as it was. An old file with other bytes is replaced, and one
/// with the right bytes is not put again.
#[test]
fn pushes(rt: HostRuntime) -> Result<(), Fail> {
    assert_runs(&rt, &RUNS)
}
