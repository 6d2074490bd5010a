//! Layouts in memory, and their archives.

use bytes::Bytes;
use oci_export::{ExportFault, write_archive};
use oci_layout::{Dir, Layout, MemDir};
use oci_manifest::Key;
use oci_pool::NoHooks;
use oci_store::{Dest, Source, Tagger};
use std::alloc::Global;
use std::test::Fail;
use test_support::{Content, Sample, descriptor, image};

/// Returns an empty layout.
pub(crate) fn created(alloc: Global) -> Result<Layout<MemDir>, Fail> {
    match Layout::create(alloc, MemDir::new(alloc)) {
        Ok(layout) => Ok(layout),
        Err((_, fault)) => Err(Fail::from(fault)),
    }
}

/// Returns the layout in a directory.
pub(crate) fn opened<D: Dir + Drop>(alloc: Global, dir: D) -> Result<Layout<D>, Fail> {
    match Layout::open(alloc, dir) {
        Ok(layout) => Ok(layout),
        Err((_, fault)) => Err(Fail::from(fault)),
    }
}

/// Returns an image with two layers: `bar`, and `foo` by its SHA-512 digest.
fn image_content(alloc: Global) -> Result<Content, Fail> {
    let bar = descriptor(alloc, &Sample::Bar.key(alloc)?)?;
    let foo = descriptor(alloc, &Sample::FooBySha512.key(alloc)?)?;
    let rest = format!(in alloc; "[{bar},{foo}]}}")?;
    image(alloc, rest.as_str())
}

/// Returns the key of the image with two layers.
pub(crate) fn image_key(alloc: Global) -> Result<Key, Fail> {
    image_content(alloc)?.key(alloc)
}

/// Pushes a sample.
pub(crate) fn push(alloc: Global, layout: &mut Layout<MemDir>, sample: Sample) -> Result<(), Fail> {
    layout.push_closed(&sample.key(alloc)?, sample.bytes(alloc)?)?;
    Ok(())
}

/// Pushes the image with two layers, after all that it lists.
fn push_image(alloc: Global, layout: &mut Layout<MemDir>) -> Result<(), Fail> {
    for sample in [Sample::FooBySha512, Sample::Bar, Sample::Empty] {
        push(alloc, layout, sample)?;
    }
    let key = image_key(alloc)?;
    let Content { bytes, .. } = image_content(alloc)?;
    layout.push_closed(&key, Bytes::from_vec(bytes.into_bytes())?)?;
    Ok(())
}

/// Sets the two tags of a layout, and saves it.
pub(crate) fn tag_and_save(layout: &mut Layout<MemDir>, key: &Key) -> Result<(), Fail> {
    layout.tag(key, "v1.0")?;
    layout.tag(key, "latest")?;
    layout.save()?;
    Ok(())
}

/// Returns a saved layout of the image with two layers, which has two tags.
pub(crate) fn image_layout(alloc: Global) -> Result<Layout<MemDir>, Fail> {
    let mut layout = created(alloc)?;
    push_image(alloc, &mut layout)?;
    tag_and_save(&mut layout, &image_key(alloc)?)?;
    Ok(layout)
}

/// Returns the archive of a layout, with the blobs of a source.
pub(crate) fn archive<S: Source>(
    alloc: Global,
    source: &S,
    layout: &Layout<MemDir>,
) -> Result<Vec<u8>, Fail> {
    let mut out = Vec::new(alloc);
    write_archive(alloc, source, layout, &NoHooks, &mut out)?;
    Ok(out)
}

/// Returns `done`, or the fault as text.
pub(crate) fn told(alloc: Global, answer: Result<(), ExportFault>) -> Result<String, Fail> {
    match answer {
        Ok(()) => Ok(String::from_str(alloc, "done")?),
        Err(fault) => Ok(format!(in alloc; "{fault}")?),
    }
}
