//! Plans of repairs, and repairs, of layouts in memory from sources in memory, also with reads and
//! puts that fail and with a source that changes.

use crate::tests::faulty::Failing::{LaterReads, Nothing, Put, Read};
use crate::tests::faulty::{Change, Failing, FaultyDir};
use crate::tests::files::{put_blob, text};
use crate::tests::layouts::made;
use crate::tests::texts::{assert_told, blob, expanded};
use bytes::Bytes;
use oci_layout::{Dir, Layout, MemDir, PrunableDir};
use oci_repair::{RepairFault, RepairPlan, RepairSource, plan_repair, repair};
use oci_verify::corrupt_keys;
use std::alloc::Global;
use std::process::Abort;
use std::sync::Wait;
use std::test::Fail;
use std::thread::Threads;
use test_support::Sample::{self, Bar, Empty, Foo, Image2, Image3, Index1};

/// The contents of the layouts and of the sources. The index lists the two images. Both have the
/// config and the first layer, and the second one has both layers.
static ALL: [Sample; 6] = [Empty, Foo, Bar, Image2, Image3, Index1];

/// The index of the layouts, which has only the index of the two images.
const INDEX: &str =
    "{\"manifests\":[{\"annotations\":{\"org.opencontainers.image.ref.name\":\"all\"},<saved Index1>}]}";

/// What is in the place of a sample's blob.
enum Hole<'a> {
    /// Nothing.
    Gone(Sample),
    /// These bytes.
    Other(Sample, &'a str),
}

use Hole::{Gone, Other};

/// A folder of blobs without some of them, and the reads of it that fail. It has neither a layout
/// file nor an index.
#[derive(Clone, Copy)]
enum Origin<'a> {
    Folder(&'a [Hole<'a>], Failing),
    /// An archive.
    Archive(&'a [Hole<'a>]),
    /// A folder whose blob of a sample has other bytes after this many reads.
    Changing(Sample, &'a str, u64),
}

use Origin::{Archive, Changing, Folder};

/// A layout without some blobs, and what its repair does.
#[derive(Clone, Copy)]
struct Case<'a> {
    name: &'a str,
    layout: &'a [Hole<'a>],
    /// The reads or puts of the layout that fail.
    failing: Failing,
    sources: &'a [Origin<'a>],
    /// The plan, and the result of the repair, or the fault of the plan.
    told: &'a str,
    /// The blobs of the layout afterwards.
    left: &'a str,
    /// The plan and the result of a second repair.
    again: &'a str,
}

/// The usual value of each field.
const WHOLE: Case<'static> = Case {
    name: "nothing is wrong",
    layout: &[],
    failing: Nothing,
    sources: &[Folder(&[], Nothing)],
    told: "reached 6, repaired",
    left: "files 6",
    again: "reached 6, repaired",
};

/// Blobs are gone or damaged, and sources lack some.
static CASES: [Case<'static>; 10] = [
    WHOLE,
    Case {
        name: "the index is gone",
        layout: &[Gone(Index1)],
        told: "<key Index1> from 0;reached 6, repaired",
        ..WHOLE
    },
    Case {
        name: "an image of the index is damaged",
        layout: &[Other(Image3, "{}")],
        sources: &[Folder(&[Gone(Image3)], Nothing), Archive(&[])],
        told: "<key Image3> from 1;reached 6, repaired",
        ..WHOLE
    },
    Case {
        name: "one layer has other bytes, and one is gone",
        layout: &[Other(Foo, "oof"), Gone(Bar)],
        sources: &[Folder(&[Gone(Bar)], Nothing), Archive(&[Other(Foo, "oof")])],
        told: "<key Foo> from 0;<key Bar> from 1;reached 6, repaired",
        ..WHOLE
    },
    Case {
        name: "layers of other sizes",
        layout: &[Other(Foo, "food"), Other(Bar, "")],
        sources: &[
            Folder(&[Other(Foo, "fo"), Other(Bar, "bars")], Nothing),
            Archive(&[Gone(Foo), Other(Bar, "ba")]),
            Folder(&[], Nothing),
        ],
        told: "<key Foo> from 2;<key Bar> from 2;reached 6, repaired",
        ..WHOLE
    },
    Case {
        name: "no blob is there",
        layout: &[
            Gone(Empty),
            Gone(Foo),
            Gone(Bar),
            Gone(Image2),
            Gone(Image3),
            Gone(Index1),
        ],
        sources: &[
            Folder(&[Gone(Index1), Other(Foo, "fo")], Nothing),
            Archive(&[Other(Image2, "[]"), Gone(Bar)]),
        ],
        told: "<key Index1> from 1;<key Image2> from 0;<key Image3> from 0;<key Empty> from 0;<key Foo> from 1;<key Bar> from 0;reached 6, repaired",
        ..WHOLE
    },
    Case {
        name: "nobody has an image",
        layout: &[Other(Image3, "{}"), Gone(Foo)],
        sources: &[
            Folder(&[Gone(Image3)], Nothing),
            Archive(&[Other(Image3, "[]")]),
        ],
        told: "<key Foo> from 0;<key Image3> missing;reached 5, repaired",
        left: "Image3 {};files 6",
        again: "<key Image3> missing;reached 5, repaired",
        ..WHOLE
    },
    Case {
        name: "nobody has a layer",
        layout: &[Gone(Foo), Gone(Bar)],
        sources: &[Folder(&[Other(Foo, "oof")], Nothing), Archive(&[Gone(Foo)])],
        told: "<key Bar> from 0;<key Foo> missing;reached 6, repaired",
        left: "Foo none;files 5",
        again: "<key Foo> missing;reached 6, repaired",
        ..WHOLE
    },
    Case {
        name: "nobody has two blobs",
        layout: &[Other(Empty, "[]"), Other(Image2, "[]")],
        sources: &[],
        told: "<key Image2> missing;<key Empty> missing;reached 6, repaired",
        left: "Empty [];Image2 [];files 6",
        again: "<key Image2> missing;<key Empty> missing;reached 6, repaired",
        ..WHOLE
    },
    Case {
        name: "nobody has the index",
        layout: &[Gone(Index1)],
        sources: &[Folder(&[Gone(Index1)], Nothing)],
        told: "<key Index1> missing;reached 1, repaired",
        left: "Index1 none;files 5",
        again: "<key Index1> missing;reached 1, repaired",
        ..WHOLE
    },
];

/// The source changes before the plan, between the plan and the repair, or afterwards. The changed
/// bytes are not put. The second repair finds them.
static CHANGES: [Case<'static>; 6] = [
    Case {
        name: "before the plan",
        layout: &[Gone(Foo)],
        sources: &[Changing(Foo, "oof", 0)],
        told: "<key Foo> missing;reached 6, repaired",
        left: "Foo none;files 5",
        again: "<key Foo> missing;reached 6, repaired",
        ..WHOLE
    },
    Case {
        name: "after the plan",
        sources: &[Changing(Foo, "oof", 1)],
        ..CHANGED
    },
    Case {
        name: "after the plan, with fewer bytes",
        sources: &[Changing(Foo, "fo", 1)],
        ..CHANGED
    },
    Case {
        name: "after the plan, with more bytes",
        sources: &[Changing(Foo, "food", 1)],
        ..CHANGED
    },
    Case {
        name: "an image, after the plan",
        layout: &[Gone(Image3)],
        sources: &[Changing(Image3, "{}", 1)],
        told: "<key Image3> from 0;reached 6, 88 Fetch <key Image3> 21 Corrupt",
        left: "Image3 none;files 5",
        again: "<key Image3> missing;reached 5, repaired",
        ..WHOLE
    },
    Case {
        name: "after the repair",
        layout: &[Gone(Foo)],
        sources: &[Changing(Foo, "oof", 2)],
        told: "<key Foo> from 0;reached 6, repaired",
        ..WHOLE
    },
];

/// A layer changes after the plan.
const CHANGED: Case<'static> = Case {
    layout: &[Gone(Foo)],
    told: "<key Foo> from 0;reached 6, 88 Fetch <key Foo> 21 Corrupt",
    left: "Foo none;files 5",
    again: "<key Foo> missing;reached 6, repaired",
    ..WHOLE
};

/// Puts a hole in the place of a blob.
fn dig(alloc: Global, dir: &mut MemDir, hole: &Hole<'_>) -> Result<(), Fail> {
    match hole {
        Gone(sample) => dir.remove(&blob(alloc, &sample.key(alloc)?)?).map(|_| ())?,
        Other(sample, text) => dir.put(&blob(alloc, &sample.key(alloc)?)?, text.as_bytes())?,
    }
    Ok(())
}

/// Returns a directory with all blobs but these, and nothing else.
fn blobs_but(alloc: Global, holes: &[Hole<'_>]) -> Result<MemDir, Fail> {
    let mut dir = MemDir::new(alloc);
    for sample in &ALL {
        put_blob(alloc, &mut dir, *sample)?;
    }
    for hole in holes {
        dig(alloc, &mut dir, hole)?;
    }
    Ok(dir)
}

/// Returns the directory of a layout with all blobs but these.
fn layout_but(alloc: Global, holes: &[Hole<'_>]) -> Result<MemDir, Fail> {
    let mut dir = blobs_but(alloc, holes)?;
    dir.put("oci-layout", b"{\"imageLayoutVersion\":\"1.0.0\"}")?;
    dir.put("index.json", expanded(alloc, INDEX)?.as_bytes())?;
    Ok(dir)
}

/// Opens a layout with all blobs but these, as it is.
fn opened_but(
    alloc: Global,
    holes: &[Hole<'_>],
    failing: Failing,
) -> Result<Layout<FaultyDir>, Fail> {
    let dir = FaultyDir::failing(layout_but(alloc, holes)?, failing);
    made(Layout::open_as_is(alloc, dir))
}

type Source = RepairSource<FaultyDir, MemDir>;

fn change(alloc: Global, sample: Sample, other: &str, right: u64) -> Result<Change, Fail> {
    let path = blob(alloc, &sample.key(alloc)?)?;
    let other = Bytes::copy_from_slice(alloc, other.as_bytes())?;
    Ok(Change { path, other, right })
}

fn source(alloc: Global, origin: Origin<'_>) -> Result<Source, Fail> {
    match origin {
        Archive(holes) => Ok(RepairSource::Archive(blobs_but(alloc, holes)?)),
        Folder(holes, failing) => Ok(RepairSource::Folder(FaultyDir::failing(
            blobs_but(alloc, holes)?,
            failing,
        ))),
        Changing(sample, other, right) => Ok(RepairSource::Folder(FaultyDir::changing(
            blobs_but(alloc, &[])?,
            change(alloc, sample, other, right)?,
        ))),
    }
}

fn sources_of(alloc: Global, origins: &[Origin<'_>]) -> Result<Vec<Source>, Fail> {
    let mut sources = Vec::new(alloc);
    for origin in origins {
        sources.push(source(alloc, *origin)?)?;
    }
    Ok(sources)
}

/// Adds a plan to a text.
fn tell_plan(alloc: Global, told: &mut String, plan: &RepairPlan) -> Result<(), Fail> {
    for (key, place) in &plan.mends {
        told.push_str(&format!(in alloc; "{key} from {place};")?)?;
    }
    for key in &plan.missing {
        told.push_str(&format!(in alloc; "{key} missing;")?)?;
    }
    told.push_str(&format!(in alloc; "reached {}, ", plan.reached)?)?;
    Ok(())
}

/// Plans a repair.
fn planned<R: AllocGlobal + Threads + Wait + Sync>(
    rt: &R,
    layout: &Layout<FaultyDir>,
    sources: &[Source],
) -> Result<Result<RepairPlan, RepairFault>, Fail> {
    let corrupt = corrupt_keys(rt, rt.alloc(), layout, 3, &())?;
    Ok(plan_repair(rt.alloc(), layout, &corrupt, sources, &()))
}

/// Repairs a layout by a plan. Returns the plan, and `repaired` or the fault.
fn told_of_repair(
    alloc: Global,
    layout: &mut Layout<FaultyDir>,
    sources: &[Source],
    plan: &RepairPlan,
) -> Result<String, Fail> {
    let mut told = String::new(alloc);
    tell_plan(alloc, &mut told, plan)?;
    match repair(alloc, layout, sources, &plan.mends, &()) {
        Ok(()) => told.push_str("repaired")?,
        Err(fault) => told.push_str(&format!(in alloc; "{fault}")?)?,
    }
    Ok(told)
}

/// Plans a repair and repairs the layout. Returns the plan and the result, or the fault of the plan.
fn told_of_run<R: AllocGlobal + Threads + Wait + Sync>(
    rt: &R,
    layout: &mut Layout<FaultyDir>,
    sources: &[Source],
) -> Result<String, Fail> {
    match planned(rt, layout, sources)? {
        Ok(plan) => told_of_repair(rt.alloc(), layout, sources, &plan),
        Err(fault) => Ok(format!(in rt.alloc(); "{fault}")?),
    }
}

/// Adds a sample with what is in its place, unless that is its blob.
fn tell_blob(alloc: Global, told: &mut String, dir: &MemDir, sample: Sample) -> Result<(), Fail> {
    let found = text(alloc, dir, &blob(alloc, &sample.key(alloc)?)?)?;
    if found.as_str() != sample.content(alloc)?.bytes.as_str() {
        told.push_str(&format!(in alloc; "{sample:?} {found};")?)?;
    }
    Ok(())
}

/// Returns what a directory has in the places of samples that are not whole there, and the number
/// of its blobs.
fn told_of_blobs(alloc: Global, dir: &MemDir) -> Result<String, Fail> {
    let mut told = String::new(alloc);
    for sample in &ALL {
        tell_blob(alloc, &mut told, dir, *sample)?;
    }
    let count = dir.list("blobs/sha256")?.len();
    told.push_str(&format!(in alloc; "files {count}")?)?;
    Ok(told)
}

/// Repairs a layout. Returns its directory.
fn dir_after<R: AllocGlobal + Threads + Wait + Sync + Abort>(
    rt: &R,
    case: &Case<'_>,
    dir: FaultyDir,
    sources: &[Source],
    want: &str,
) -> Result<FaultyDir, Fail> {
    let mut layout = made(Layout::open_as_is(rt.alloc(), dir))?;
    let told = told_of_run(rt, &mut layout, sources)?;
    assert_told(rt, &case.name, told.as_str(), want)?;
    Ok(layout.into_dir())
}

/// Asserts the blobs of a layout after its repair, and that its index is the old one.
fn assert_left<R: AllocGlobal + Abort>(rt: &R, case: &Case<'_>, dir: &MemDir) -> Result<(), Fail> {
    let told = told_of_blobs(rt.alloc(), dir)?;
    assert_told(rt, &case.name, told.as_str(), case.left)?;
    let index = text(rt.alloc(), dir, "index.json")?;
    assert_told(rt, &case.name, index.as_str(), INDEX)
}

fn assert_case<R: AllocGlobal + Threads + Wait + Sync + Abort>(
    rt: &R,
    case: &Case<'_>,
) -> Result<(), Fail> {
    let sources = sources_of(rt.alloc(), case.sources)?;
    let dir = FaultyDir::failing(layout_but(rt.alloc(), case.layout)?, case.failing);
    let dir = dir_after(rt, case, dir, &sources, case.told)?;
    assert_left(rt, case, dir.memory())?;
    let _dir = dir_after(rt, case, dir, &sources, case.again)?;
    Ok(())
}

/// A repair takes each blob that is not whole from the first source that has it, and the plan names
/// the ones that nobody has. A second repair finds what is left.
#[test]
fn repaired_layouts(rt: HostRuntime) -> Result<(), Fail> {
    for case in &CASES {
        assert_case(&rt, case)?;
    }
    for case in &CHANGES {
        assert_case(&rt, case)?;
    }
    for case in &ASKED {
        assert_case(&rt, case)?;
    }
    Ok(())
}

/// The plan of a layout whose blobs are all damaged, and its repair.
const ALL_MENDED: &str =
    "<key Index1> from 0;<key Image2> from 0;<key Image3> from 0;<key Empty> from 0;<key Foo> from 0;<key Bar> from 0;reached 6, repaired";

/// The same plan, and a repair that could not put a file, or could not read the one of the source.
const NOT_PUT: &str =
    "<key Index1> from 0;<key Image2> from 0;<key Image3> from 0;<key Empty> from 0;<key Foo> from 0;<key Bar> from 0;reached 6, 74 Device";

const NOT_READ: &str =
    "<key Index1> from 0;<key Image2> from 0;<key Image3> from 0;<key Empty> from 0;<key Foo> from 0;<key Bar> from 0;reached 6, 22 Device";

/// All blobs are damaged.
const DAMAGED: Case<'static> = Case {
    name: "all is damaged",
    layout: &[
        Other(Empty, "?"),
        Other(Foo, "?"),
        Other(Bar, "?"),
        Other(Image2, "?"),
        Other(Image3, "?"),
        Other(Index1, "?"),
    ],
    told: ALL_MENDED,
    ..WHOLE
};

/// What is left of the damage after each number of puts, and what a second repair then does. The
/// index comes first, then what it lists, then what the images list.
static HALVES: [(&str, &str); 7] = [
    (
        "Empty ?;Foo ?;Bar ?;Image2 ?;Image3 ?;Index1 ?;files 6",
        "<key Index1> from 0;<key Image2> from 0;<key Image3> from 0;<key Empty> from 0;<key Foo> from 0;<key Bar> from 0;reached 6, repaired",
    ),
    (
        "Empty ?;Foo ?;Bar ?;Image2 ?;Image3 ?;files 6",
        "<key Image2> from 0;<key Image3> from 0;<key Empty> from 0;<key Foo> from 0;<key Bar> from 0;reached 6, repaired",
    ),
    (
        "Empty ?;Foo ?;Bar ?;Image3 ?;files 6",
        "<key Image3> from 0;<key Empty> from 0;<key Foo> from 0;<key Bar> from 0;reached 6, repaired",
    ),
    (
        "Empty ?;Foo ?;Bar ?;files 6",
        "<key Empty> from 0;<key Foo> from 0;<key Bar> from 0;reached 6, repaired",
    ),
    (
        "Foo ?;Bar ?;files 6",
        "<key Foo> from 0;<key Bar> from 0;reached 6, repaired",
    ),
    ("Bar ?;files 6", "<key Bar> from 0;reached 6, repaired"),
    ("files 6", "reached 6, repaired"),
];

/// Each put of a repair fails in turn. Each file is then the damaged one or whole, and the same
/// repair again repairs the rest.
#[test]
fn failing_put_of_a_repair(rt: HostRuntime) -> Result<(), Fail> {
    for (passing, (left, again)) in HALVES.iter().enumerate() {
        let case = Case {
            failing: Put(passing as u64),
            told: if passing < 6 { NOT_PUT } else { ALL_MENDED },
            left,
            again,
            ..DAMAGED
        };
        assert_case(&rt, &case)?;
    }
    Ok(())
}

/// Returns the result of a repair from a source whose read with this number fails, and the number of
/// blobs that were put before.
fn told_with_read(read: u64) -> (&'static str, usize) {
    match read {
        0..=5 => ("22 Device", 0),
        6..=11 => (NOT_READ, read.saturating_sub(6) as usize),
        _ => (ALL_MENDED, 6),
    }
}

fn assert_read<R: AllocGlobal + Threads + Wait + Sync + Abort>(
    rt: &R,
    read: u64,
) -> Result<(), Fail> {
    let (told, put) = told_with_read(read);
    let Some((left, again)) = HALVES.get(put) else {
        return Err(Fail::from("there is no such row"));
    };
    let case = Case {
        sources: &[Folder(&[], Read(read))],
        told,
        left,
        again,
        ..DAMAGED
    };
    assert_case(rt, &case)
}

/// Each read of a source fails in turn. The plan reads the six blobs, and so does the repair.
#[test]
fn failing_read_of_a_source(rt: HostRuntime) -> Result<(), Fail> {
    for read in 0..13u64 {
        assert_read(&rt, read)?;
    }
    Ok(())
}

/// After a source that has a blob no other is asked for it.
static ASKED: [Case<'static>; 2] = [
    Case {
        name: "the second source is not read",
        sources: &[Folder(&[], Nothing), Folder(&[], LaterReads(0))],
        ..DAMAGED
    },
    Case {
        name: "the first source is not read",
        sources: &[Folder(&[], LaterReads(0)), Folder(&[], Nothing)],
        told: "22 Device",
        left: "Empty ?;Foo ?;Bar ?;Image2 ?;Image3 ?;Index1 ?;files 6",
        again: "22 Device",
        ..DAMAGED
    },
];

/// The layout lacks its index.
const NO_INDEX: &[Hole<'static>] = &[Gone(Index1)];

/// Plans the repair of a layout without its index. After it was opened, `passing` reads and looks
/// succeed, and each later one fails.
fn told_with_read_of_layout<R: AllocGlobal + Threads + Wait + Sync>(
    rt: &R,
    passing: u64,
) -> Result<String, Fail> {
    let opened = opened_but(rt.alloc(), NO_INDEX, LaterReads(u64::MAX))?;
    let reads = opened.dir().reads();
    let failing = LaterReads(reads.saturating_add(passing));
    let layout = opened_but(rt.alloc(), NO_INDEX, failing)?;
    let sources = sources_of(rt.alloc(), WHOLE.sources)?;
    match planned(rt, &layout, &sources)? {
        Ok(plan) => Ok(format!(in rt.alloc(); "reached {}", plan.reached)?),
        Err(fault) => Ok(format!(in rt.alloc(); "{fault}")?),
    }
}

/// The reads and looks of the layout fail from each on in turn. It holds nothing. So the plan looks
/// for the index twice, and then asks for the size of each of the other five blobs and reads it.
#[test]
fn failing_read_of_the_layout(rt: HostRuntime) -> Result<(), Fail> {
    for passing in 0..13u64 {
        let want = match passing {
            0..=11 => "74 Device",
            _ => "reached 6",
        };
        let told = told_with_read_of_layout(&rt, passing)?;
        assert_told(&rt, &passing, told.as_str(), want)?;
    }
    Ok(())
}
