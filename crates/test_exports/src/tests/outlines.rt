//! The layout of a plan.

use crate::tests::layouts::{archive, created, image_key, image_layout, push, tag_and_save};
use oci_copy::{Options, copy_one, plan_copy};
use oci_export::{graph_of, outline};
use oci_layout::{Layout, MemDir};
use oci_manifest::Key;
use oci_store::MemoryStore;
use std::alloc::Global;
use std::slice;
use std::test::Fail;
use test_support::Sample;

/// Returns the archive of the layout of a plan, with the blobs of the source.
fn outlined(alloc: Global, source: &Layout<MemDir>, root: &Key) -> Result<Vec<u8>, Fail> {
    let empty = MemoryStore::new(alloc);
    let plan = plan_copy(
        alloc,
        source,
        &empty,
        slice::from_ref(root),
        &Options::default(),
    )?;
    let mut layout = outline(alloc, source, plan.keys())?;
    tag_and_save(&mut layout, root)?;
    archive(alloc, source, &layout)
}

/// Returns the archive of a layout into which a key was copied.
fn copied(alloc: Global, source: &Layout<MemDir>, root: &Key) -> Result<Vec<u8>, Fail> {
    let (layout, answer) = copy_one(
        alloc,
        source,
        created(alloc)?,
        slice::from_ref(root),
        &Options::default(),
    );
    let mut layout = layout;
    let _ = answer?;
    tag_and_save(&mut layout, root)?;
    archive(alloc, &layout, &layout)
}

/// The graph of one key has this key alone, whatever it lists.
#[test]
fn graph_of_a_key(rt: HostRuntime) -> Result<(), Fail> {
    let alloc = rt.alloc();
    let source = image_layout(alloc)?;
    let root = image_key(alloc)?;
    let graph = graph_of(alloc, &source, slice::from_ref(&root))?;
    assert_eq!(rt; graph.len(), 1);
    assert!(rt; graph.holds(&root));
    Ok(())
}

/// The layout of a plan has the archive of a layout into which the same keys were copied. It has no
/// other key of the source.
#[test]
fn outline_of_a_plan(rt: HostRuntime) -> Result<(), Fail> {
    let alloc = rt.alloc();
    let mut source = image_layout(alloc)?;
    push(alloc, &mut source, Sample::Image0)?;
    let root = image_key(alloc)?;
    let bytes = outlined(alloc, &source, &root)?;
    assert!(rt; bytes == copied(alloc, &source, &root)?);
    Ok(())
}
