//! Archives in a file of a directory.

use crate::tests::layouts::{archive, image_layout, told};
use oci_export::save_archive;
use oci_layout::{Dir, Layout, MemDir};
use oci_pool::NoHooks;
use std::alloc::Global;
use std::process::Abort;
use std::test::Fail;

const PATH: &str = "layout.tar";

/// Saves the archive of a layout. Returns the result as text.
fn told_of_save(alloc: Global, layout: &Layout<MemDir>, to: &mut MemDir) -> Result<String, Fail> {
    told(
        alloc,
        save_archive(alloc, layout, layout, &NoHooks, to, PATH),
    )
}

/// The file has the archive.
fn assert_saved<R: Abort>(rt: &R, dir: &MemDir, archive: &[u8]) -> Result<(), Fail> {
    let Some(bytes) = dir.read(PATH)? else {
        return Err(Fail::from("there is no such file"));
    };
    assert!(rt; bytes.as_slice() == archive);
    Ok(())
}

/// The archive is in a new file. A file that is there is not replaced.
#[test]
fn archive_in_a_file(rt: HostRuntime) -> Result<(), Fail> {
    let alloc = rt.alloc();
    let layout = image_layout(alloc)?;
    let archive = archive(alloc, &layout, &layout)?;
    let mut dir = MemDir::new(alloc);
    assert_eq!(rt; told_of_save(alloc, &layout, &mut dir)?.as_str(), "done");
    assert_saved(&rt, &dir, &archive)?;
    dir.put(PATH, b"other")?;
    assert_eq!(rt;
        told_of_save(alloc, &layout, &mut dir)?.as_str(),
        "95 Exists"
    );
    assert_saved(&rt, &dir, b"other")
}

/// If the file cannot be put, there is none.
#[test]
fn archive_that_is_not_put(rt: HostRuntime) -> Result<(), Fail> {
    let layout = image_layout(rt.alloc())?;
    let mut dir = MemDir::with_fuse(rt.alloc(), 0);
    let told = told_of_save(rt.alloc(), &layout, &mut dir)?;
    assert_eq!(rt; told.as_str(), "94 Output");
    assert!(rt; !dir.exists(PATH)?);
    Ok(())
}
