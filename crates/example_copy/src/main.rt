//! Copies the image with the tag `hello` from the folder `hello` into the folder `mirror`.
#![tactic(auto)]

use anyhow::Error;
use oci_copy::{Key, NoHooks, Options, Report, copy};
use oci_layout::{Dir, FolderLock, FsDir, Layout, LayoutFault};
use oci_store::Dest;
use std::sync::Wait;
use std::thread::Threads;

fn main(rt: HostRuntime) -> Result<(), Error> {
    // Creates the folder if it is missing, and keeps other writers out until the lock is dropped.
    let _lock = FolderLock::make_and_lock(&rt, "mirror")?;
    let (key, report) = copy_hello(&rt, FsDir::new(&rt, "hello")?, FsDir::new(&rt, "mirror")?)?;
    println!(rt; "copied {key}\n{report}")?;
    Ok(())
}

/// Copies from one directory into another, which becomes a layout if it has none.
fn copy_hello<
    R: AllocGlobal + Threads + Wait + Sync,
    S: Dir<Draft: Send> + Drop + Sync,
    D: Dir<Draft: Send> + Drop + Send,
>(rt: &R, source: S, mirror: D) -> Result<(Key, Report), Error> {
    let alloc = rt.alloc();
    let source = layout(Layout::open(alloc, source))?;
    let mirror = layout(Layout::open_or_create(alloc, mirror))?;
    // What is held now is on the disk, if the folder was saved like this before.
    let held = mirror.count();
    let options = Options::default();
    let (mut mirror, copied) = copy(rt, alloc, &source, "hello", mirror, "", &options, &NoHooks);
    let copied = copied?;
    mirror.save_settled(held)?;
    Ok(copied)
}

/// Returns the layout, or the fault without the directory.
fn layout<D: Dir + Drop>(answer: Result<Layout<D>, (D, LayoutFault)>) -> Result<Layout<D>, Error> {
    match answer {
        Ok(layout) => Ok(layout),
        Err((_directory, fault)) => Err(Error::from(fault)),
    }
}
