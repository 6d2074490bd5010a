//! Crashes of a directory in memory while a layout grows and is saved.

use crate::tests::layouts::summary;
use oci_layout::{Layout, MemDir};
use oci_store::{Dest, Source, Tagger};
use std::alloc::Global;
use std::fmt::Write;
use std::process::Abort;
use std::test::Fail;
use test_support::Sample::{Empty, Foo, Image0, Image2};
use test_support::{Sample, is_closed};

/// A directory that allows some puts. A layout is created in it, and two images are pushed, tagged
/// and saved, one after the other, up to the first failure. Then a crash comes.
#[derive(Clone, Copy)]
struct Run {
    puts: u64,
    /// Whether the second image is saved by `save_settled`, and not by `save`.
    is_settled: bool,
    /// Whether the crash keeps what was not settled, with half of each new file.
    is_torn: bool,
    /// What is left.
    left: &'static str,
}

/// Pushes samples. Returns whether all pushes succeeded.
fn are_pushed(
    alloc: Global,
    layout: &mut Layout<MemDir>,
    samples: &[Sample],
) -> Result<bool, Fail> {
    for sample in samples {
        let (key, bytes) = (sample.key(alloc)?, sample.bytes(alloc)?);
        if layout.push_closed(&key, bytes).is_err() {
            return Ok(false);
        }
    }
    Ok(true)
}

/// Pushes samples, tags the last one, and saves the layout. Returns whether all that succeeded.
fn is_grown(
    alloc: Global,
    layout: &mut Layout<MemDir>,
    samples: &[Sample],
    tag: (Sample, &str),
    is_settled: bool,
) -> Result<bool, Fail> {
    let from = layout.count();
    if !are_pushed(alloc, layout, samples)? {
        return Ok(false);
    }
    layout.tag(&tag.0.key(alloc)?, tag.1)?;
    if is_settled {
        Ok(layout.save_settled(from).is_ok())
    } else {
        Ok(layout.save().is_ok())
    }
}

/// Adds the two images to a layout, up to the first failure.
fn grow(alloc: Global, layout: &mut Layout<MemDir>, is_settled: bool) -> Result<(), Fail> {
    if is_grown(alloc, layout, &[Empty, Image0], (Image0, "v1"), true)? {
        let _ = is_grown(alloc, layout, &[Foo, Image2], (Image2, "v2"), is_settled)?;
    }
    Ok(())
}

/// Creates the layout and adds the images. Returns the directory.
fn grown(alloc: Global, run: Run) -> Result<MemDir, Fail> {
    match Layout::create(alloc, MemDir::with_fuse(alloc, run.puts)) {
        Ok(layout) => grown_in(alloc, layout, run.is_settled),
        Err((dir, _)) => Ok(dir),
    }
}

/// Adds the images to a layout. Returns its directory.
fn grown_in(alloc: Global, mut layout: Layout<MemDir>, is_settled: bool) -> Result<MemDir, Fail> {
    grow(alloc, &mut layout, is_settled)?;
    Ok(layout.into_dir())
}

/// Returns the contents of a layout, whether they are closed, and the fault of each that is not
/// fetched.
fn fetched(alloc: Global, layout: &Layout<MemDir>) -> Result<String, Fail> {
    let mut told = summary(alloc, layout)?;
    if !is_closed(layout)? {
        told.push_str(" not closed")?;
    }
    for place in 0..layout.count() {
        add_fault(layout, place, &mut told)?;
    }
    Ok(told)
}

/// Adds the fault of the fetch of the key at a place to a text, if there is one.
fn add_fault(layout: &Layout<MemDir>, place: usize, told: &mut String) -> Result<(), Fail> {
    let Some(key) = layout.key(place) else {
        return Err(Fail::from("there is no key"));
    };
    if let Err(fault) = layout.fetch(key) {
        write!(told, " {fault}")?;
    }
    Ok(())
}

/// Returns what is opened of a directory: the contents of the layout, or the fault.
fn told_of(alloc: Global, dir: MemDir) -> Result<String, Fail> {
    match Layout::open(alloc, dir) {
        Ok(layout) => fetched(alloc, &layout),
        Err((_, fault)) => Ok(format!(in alloc; "{fault}")?),
    }
}

/// Asserts what is opened after the crash, and that a second crash leaves the same.
fn assert_left<R: AllocGlobal + Abort>(rt: &R, run: Run) -> Result<(), Fail> {
    let (alloc, puts, is_torn) = (rt.alloc(), run.puts, run.is_torn);
    let left = told_of(alloc, grown(alloc, run)?.crash(is_torn)?)?;
    assert_eq!(rt; left.as_str(), run.left, "{puts} puts, torn: {is_torn}");
    let again = told_of(alloc, grown(alloc, run)?.crash(is_torn)?.crash(!is_torn)?)?;
    assert_eq!(rt;
        again.as_str(),
        run.left,
        "{puts} puts, torn: {is_torn}, again"
    );
    Ok(())
}

/// The number of puts of a creation.
const CREATED: u64 = 2;

/// What is left after each number of further puts. Each image has two contents and then the index.
static LEFT: [&str; 7] = [
    "held 0",
    "held 0",
    "held 0",
    "held 2 v1",
    "held 2 v1",
    "held 2 v1",
    "held 4 v1 v2",
];

/// If the saves settle, a crash at any moment leaves the layout as it was saved last, or as it was
/// being saved. After a save that succeeded it leaves what was saved.
#[test]
fn crash_leaves_old_or_new(rt: HostRuntime) -> Result<(), Fail> {
    for (further, left) in LEFT.iter().enumerate() {
        for is_torn in [false, true] {
            let run = Run {
                puts: CREATED + further as u64,
                is_settled: true,
                is_torn,
                left,
            };
            assert_left(&rt, run)?;
        }
    }
    Ok(())
}

/// If a save does not settle, a crash may lose it after it has succeeded, or leave half of its index.
#[test]
fn crash_after_an_unsettled_save(rt: HostRuntime) -> Result<(), Fail> {
    let lefts = ["held 2 v1", "73 BadIndex 10 NotJson"];
    for (left, is_torn) in lefts.iter().zip([false, true]) {
        let run = Run {
            puts: 8,
            is_settled: false,
            is_torn,
            left,
        };
        assert_left(&rt, run)?;
    }
    Ok(())
}
