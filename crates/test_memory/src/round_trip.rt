use crate::line::Line;
use crate::stores::{Graph, by_three};
use oci_copy::{CopyFault, Report, copy};
use oci_layout::{Layout, MemDir};
use oci_manifest::Key;
use oci_pool::NoHooks;
use oci_store::{Dest, MemoryStore, Tagger};
use std::alloc::Global;
use std::sync::Wait;
use std::test::Fail;
use std::thread::Threads;
use test_support::Sample;
use test_support::Sample::{Empty, Image0};

/// How a layout is created from a directory.
#[derive(Clone, Copy)]
enum Way {
    Create,
    Open,
}

/// The ways to a new layout, tried in order. The last one works if a failed creation left the first
/// file.
const NEW: &[Way] = &[Way::Create, Way::Create, Way::Open];

/// The ways to a saved layout, tried in order.
const SAVED: &[Way] = &[Way::Open, Way::Open];

/// Creates a layout, copies an image into it, saves it and opens it again.
pub(crate) fn taken_round<R: Threads + Wait + Sync>(
    rt: &R,
    alloc: Global,
    line: &mut Line,
) -> Result<(), Fail> {
    let source = tagged(Graph::of(alloc, &[Empty, Image0], Image0)?)?;
    let dir = kept(rt, alloc, &source, line)?;
    opened(alloc, dir, line)
}

/// Returns the directory of a new layout with the image, saved.
fn kept<R: Threads + Wait + Sync>(
    rt: &R,
    alloc: Global,
    source: &MemoryStore,
    line: &mut Line,
) -> Result<MemDir, Fail> {
    match laid(alloc, MemDir::new(alloc), NEW, line) {
        Some(layout) => saved(filled(rt, alloc, source, layout, line), line),
        None => Err(Fail::from("the new layout cannot be opened")),
    }
}

/// Returns the source of a graph, with a tag for its root.
fn tagged(graph: Graph) -> Result<MemoryStore, Fail> {
    let Graph { mut source, root } = graph;
    match source.tag(&root, "m") {
        Ok(()) => Ok(source),
        Err(_) => Err(Fail::from("no memory for the source")),
    }
}

/// Returns the layout from the first of these ways that succeeds.
fn laid(alloc: Global, dir: MemDir, ways: &[Way], line: &mut Line) -> Option<Layout<MemDir>> {
    let mut dir = dir;
    for way in ways {
        match made(alloc, dir, *way, line) {
            Ok(layout) => return Some(layout),
            Err(refused) => dir = refused,
        }
    }
    None
}

/// Returns the layout that is created in this way, or its directory after an error.
fn made(alloc: Global, dir: MemDir, way: Way, line: &mut Line) -> Result<Layout<MemDir>, MemDir> {
    let (word, answer) = match way {
        Way::Create => ("create", Layout::create(alloc, dir)),
        Way::Open => ("open", Layout::open(alloc, dir)),
    };
    line.say(word);
    match answer {
        Ok(layout) => {
            line.say("done");
            Ok(layout)
        }
        Err((dir, fault)) => {
            line.tell(&fault);
            Err(dir)
        }
    }
}

/// Copies the image into the layout, and once more after an error.
fn filled<R: Threads + Wait + Sync>(
    rt: &R,
    alloc: Global,
    source: &MemoryStore,
    layout: Layout<MemDir>,
    line: &mut Line,
) -> Layout<MemDir> {
    let (layout, is_filled) = fill(rt, alloc, source, layout, line);
    if is_filled {
        return layout;
    }
    fill(rt, alloc, source, layout, line).0
}

fn fill<R: Threads + Wait + Sync>(
    rt: &R,
    alloc: Global,
    source: &MemoryStore,
    layout: Layout<MemDir>,
    line: &mut Line,
) -> (Layout<MemDir>, bool) {
    let by = by_three();
    let (layout, answer) = copy(rt, alloc, source, "m", layout, "v1", &by, &NoHooks);
    let is_filled = tell_copy(&answer, line);
    line.state(&layout);
    (layout, is_filled)
}

/// Reports the result of a copy, and returns whether it succeeded.
fn tell_copy(answer: &Result<(Key, Report), CopyFault>, line: &mut Line) -> bool {
    line.say("copy");
    match answer {
        Ok((_, report)) => line.tell(report),
        Err(fault) => line.tell(fault),
    }
    answer.is_ok()
}

/// Saves the layout, and once more after an error.
fn saved(layout: Layout<MemDir>, line: &mut Line) -> Result<MemDir, Fail> {
    let mut layout = layout;
    for _ in 0..2 {
        line.say("save");
        match layout.save() {
            Ok(()) => {
                line.say("done");
                return Ok(layout.into_dir());
            }
            Err(fault) => line.tell(&fault),
        }
    }
    Err(Fail::from("the layout cannot be saved"))
}

/// Opens the layout. Reports its references, and the result of creating another layout in its
/// directory.
fn opened(alloc: Global, dir: MemDir, line: &mut Line) -> Result<(), Fail> {
    let Some(layout) = laid(alloc, dir, SAVED, line) else {
        return Err(Fail::from("the saved layout cannot be opened"));
    };
    names(alloc, &layout, line)?;
    let _ = made(alloc, layout.into_dir(), Way::Create, line);
    Ok(())
}

/// Reports the number of keys in the layout, and its references.
fn names(alloc: Global, layout: &Layout<MemDir>, line: &mut Line) -> Result<(), Fail> {
    line.say("held");
    line.tell(&layout.count());
    line.say("names");
    named(alloc, layout, "v1", Image0, line)?;
    for sample in [Image0, Empty] {
        named_by_digest(alloc, layout, sample, line)?;
    }
    for reference in ["v2", ""] {
        named(alloc, layout, reference, Image0, line)?;
    }
    Ok(())
}

/// Reports whether a sample's digest resolves to the sample.
fn named_by_digest(
    alloc: Global,
    layout: &Layout<MemDir>,
    sample: Sample,
    line: &mut Line,
) -> Result<(), Fail> {
    let reference = sample.key(alloc)?.digest().to_string(alloc)?;
    named(alloc, layout, reference.as_str(), sample, line)
}

/// Reports whether a reference resolves to this sample, or the error.
fn named(
    alloc: Global,
    layout: &Layout<MemDir>,
    reference: &str,
    sample: Sample,
    line: &mut Line,
) -> Result<(), Fail> {
    let key = sample.key(alloc)?;
    match layout.resolve(reference) {
        Ok(found) => line.yes(found == key),
        Err(fault) => line.tell(&fault),
    }
    Ok(())
}
