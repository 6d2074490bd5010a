//! The archive of a layout.

use crate::tests::layouts::{archive, image_layout, opened};
use bytes::Bytes;
use oci_archive::TarDir;
use oci_digest::Digest;
use oci_layout::{Dir, Layout, MemDir, blob_path};
use oci_store::{Dest, Source};
use std::alloc::Global;
use std::fmt::Write;
use std::process::Abort;
use std::test::Fail;

/// The digest of the archive of the image with two layers. A Python program that was written from
/// POSIX.1-2017, pax, wrote this archive without a module for archives, and `hashlib` computed the
/// digest. GNU tar and `tarfile` list the archive.
///
/// The members are `oci-layout`, `index.json`, `blobs/`, `blobs/sha256/` with its blobs in byte
/// order, and `blobs/sha512/` with its blob. Files have the mode 0644, and folders 0755. The time,
/// the owner and the group are 0, and have no names. The name of the last blob is in the record
/// `path` of an extended header, whose own name is `pax-header`. The end is two blocks of NULs.
const ARCHIVE: &str = "sha256:c901c18d5465d80894e7de4af2e43e5ac84ef5e91199a3a32a265c813183e4b0";

/// The length of this archive.
pub(crate) const LENGTH: usize = 10752;

/// The archive of a layout has the bytes that another program wrote.
#[test]
fn bytes_of_an_archive(rt: HostRuntime) -> Result<(), Fail> {
    let layout = image_layout(rt.alloc())?;
    let bytes = archive(rt.alloc(), &layout, &layout)?;
    let digest = format!(in rt.alloc(); "{}", Digest::of(&bytes))?;
    assert_eq!(rt; bytes.len(), LENGTH);
    assert_eq!(rt; digest.as_str(), ARCHIVE);
    Ok(())
}

/// Adds the bytes of a file to a text of files.
fn push_file<D: Dir>(text: &mut String, dir: &D, path: &str) -> Result<(), Fail> {
    let bytes = dir.read(path)?;
    write!(text, "{path} {bytes:?}\n")?;
    Ok(())
}

/// Returns a layout as text: its own two files, its keys with their bytes, and its tags.
fn summary<D: Dir>(alloc: Global, layout: &Layout<D>) -> Result<String, Fail> {
    let mut text = String::new(alloc);
    push_file(&mut text, layout.dir(), "oci-layout")?;
    push_file(&mut text, layout.dir(), "index.json")?;
    for place in 0..layout.count() {
        push_key(alloc, &mut text, layout, place)?;
    }
    for (name, key) in layout.tags()? {
        write!(text, "{name} {key}\n")?;
    }
    Ok(text)
}

/// Adds the key at a place of a layout to a text, with its file.
fn push_key<D: Dir>(
    alloc: Global,
    text: &mut String,
    layout: &Layout<D>,
    place: usize,
) -> Result<(), Fail> {
    let Some(key) = layout.key(place) else {
        return Err(Fail::from("there is no such key"));
    };
    write!(text, "{key}\n")?;
    layout.fetch(key)?;
    push_file(text, layout.dir(), &blob_path(alloc, key.digest())?)
}

/// Compares the layout in an archive with the one in a directory.
fn assert_same<R: AllocGlobal + Abort>(rt: &R, bytes: Vec<u8>, dir: MemDir) -> Result<(), Fail> {
    let alloc = rt.alloc();
    let read = opened(alloc, TarDir::open(alloc, Bytes::from_vec(bytes)?)?)?;
    let first = opened(alloc, dir)?;
    assert_eq!(rt; read.count(), 4);
    assert_eq!(rt; summary(alloc, &read)?, summary(alloc, &first)?);
    Ok(())
}

/// The archive of a layout opens as the same layout, with the same files.
#[test]
fn archive_opens_as_the_layout(rt: HostRuntime) -> Result<(), Fail> {
    let layout = image_layout(rt.alloc())?;
    let bytes = archive(rt.alloc(), &layout, &layout)?;
    assert_same(&rt, bytes, layout.into_dir())
}
