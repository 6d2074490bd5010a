//! The calls of hooks.

use crate::tests::layouts::{image_key, image_layout};
use oci_export::write_archive;
use oci_manifest::Key;
use oci_pool::Hooks;
use std::alloc::Global;
use std::cell::RefCell;
use std::fmt::Write;
use std::test::Fail;
use test_support::Sample;

/// Hooks that write down their calls.
#[derive(Drop)]
struct Noting {
    told: RefCell<String>,
}

impl Hooks for Noting {
    fn pre_copy(&self, key: &Key) {
        if let Ok(mut told) = self.told.try_borrow_mut() {
            let _ = write!(told, "{key} began;");
        }
    }

    fn part_arrived(&self, key: &Key, length: usize) {
        if let Ok(mut told) = self.told.try_borrow_mut() {
            let _ = write!(told, "{key} has {length};");
        }
    }

    fn post_copy(&self, key: &Key) {
        if let Ok(mut told) = self.told.try_borrow_mut() {
            let _ = write!(told, "{key} ended;");
        }
    }

    fn skipped(&self, key: &Key) {
        if let Ok(mut told) = self.told.try_borrow_mut() {
            let _ = write!(told, "{key} skipped;");
        }
    }
}

/// Adds the calls for a blob that is one part.
fn push_calls(text: &mut String, key: &Key) -> Result<(), Fail> {
    let size = key.size();
    write!(text, "{key} began;{key} has {size};{key} ended;")?;
    Ok(())
}

/// Returns the calls for the blobs of the image with two layers: by SHA-256, in byte order of the
/// digests, and then by SHA-512.
fn wanted(alloc: Global) -> Result<String, Fail> {
    let mut text = String::new(alloc);
    push_calls(&mut text, &Sample::Empty.key(alloc)?)?;
    push_calls(&mut text, &image_key(alloc)?)?;
    push_calls(&mut text, &Sample::Bar.key(alloc)?)?;
    push_calls(&mut text, &Sample::FooBySha512.key(alloc)?)?;
    Ok(text)
}

/// Each hook is called once for each blob, in the order of the archive.
#[test]
fn calls_of_hooks(rt: HostRuntime) -> Result<(), Fail> {
    let alloc = rt.alloc();
    let layout = image_layout(alloc)?;
    let hooks = Noting {
        told: RefCell::new(String::new(alloc)),
    };
    write_archive(alloc, &layout, &layout, &hooks, &mut Vec::new(alloc))?;
    let told = hooks.told.into_inner();
    assert_eq!(rt; told, wanted(alloc)?);
    Ok(())
}
