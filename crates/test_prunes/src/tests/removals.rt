//! Prunes of directories in memory that have files of no key and drafts.

use bytes::Bytes;
use oci_layout::{Dir, Layout, LayoutFault, MemDir, PrunableDir};
use oci_manifest::Key;
use oci_prune::{
    PruneFault, Pruned, free_keys, plan_leftovers, plan_prune, plan_prune_keeping, prune,
    prune_leftovers,
};
use oci_store::{Dest, Tagger, Untagger};
use std::alloc::Global;
use std::test::Fail;
use test_support::{Content, LAYER};

/// The path of a draft.
const DRAFT: &str = "index.json.0123456789abcdef.new";

/// The puts that make the layout: those of a stray file, of `oci-layout` and `index.json`, of two
/// blobs, and of the saved `index.json`.
const PUTS: u64 = 6;

/// Returns the content of a layer.
fn layer(alloc: Global, text: &str) -> Result<Content, Fail> {
    Ok(Content {
        media_type: LAYER,
        bytes: String::from_str(alloc, text)?,
    })
}

/// Pushes a layer.
fn push(alloc: Global, layout: &mut Layout<MemDir>, text: &str) -> Result<Key, Fail> {
    let content = layer(alloc, text)?;
    let key = content.key(alloc)?;
    let Content { bytes, .. } = content;
    layout.push_closed(&key, Bytes::from_vec(bytes.into_bytes())?)?;
    Ok(key)
}

/// Makes a layout in a directory in which a draft lies, and a file that no key has. Of its two layers
/// the first one is tagged.
fn made(alloc: Global, dir: MemDir) -> Result<Layout<MemDir>, Fail> {
    let mut dir = dir;
    dir.leave_draft(DRAFT, b"abc")?;
    let stray = layer(alloc, "stray")?.key(alloc)?;
    let digits = stray.digest().encoded(alloc)?;
    let path = format!(in alloc; "blobs/sha256/{digits}")?;
    dir.put(&path, b"stray")?;
    let mut layout = match Layout::create(alloc, dir) {
        Ok(layout) => layout,
        Err((_, fault)) => return Err(Fail::from(fault)),
    };
    let kept = push(alloc, &mut layout, "kept")?;
    push(alloc, &mut layout, "other")?;
    layout.tag(&kept, "v1")?;
    layout.save()?;
    Ok(layout)
}

/// Returns the lengths of the blobs of a layout, and the number of its drafts, as a text.
fn told<D: PrunableDir>(alloc: Global, layout: &Layout<D>) -> Result<String, Fail> {
    let mut lengths = 0u64;
    for (_, length) in layout.blobs()? {
        lengths = lengths.saturating_add(length);
    }
    let (blobs, drafts) = (layout.blobs()?.len(), layout.leftovers()?.len());
    Ok(format!(in alloc; "{blobs} blobs {lengths} bytes {drafts} drafts")?)
}

/// Returns how many of the flags are set.
fn count(flags: &[bool]) -> usize {
    flags.iter().filter(|flag| **flag).count()
}

/// Prunes a layout of what its tags do not need.
fn pruned(alloc: Global, layout: &mut Layout<MemDir>) -> Result<Pruned, Fail> {
    let plan = plan_prune_keeping(alloc, layout, &[], true)?;
    Ok(prune(alloc, layout, &plan)?)
}

/// A prune removes the file that no key has, the file of the key without a tag, and the draft.
#[test]
fn pruned_whole(rt: HostRuntime) -> Result<(), Fail> {
    let mut layout = made(rt.alloc(), MemDir::new(rt.alloc()))?;
    assert_eq!(rt;
        told(rt.alloc(), &layout)?.as_str(),
        "3 blobs 14 bytes 1 drafts"
    );
    let done = pruned(rt.alloc(), &mut layout)?;
    assert_eq!(rt; (count(&done.files), count(&done.drafts)), (2, 1));
    assert!(rt; done.into_fault().is_none());
    assert_eq!(rt;
        told(rt.alloc(), &layout)?.as_str(),
        "1 blobs 4 bytes 0 drafts"
    );
    Ok(())
}

/// A prune that keeps each held key removes the file that no key has, and the draft. The layer without
/// a tag is free.
#[test]
fn pruned_of_unreached(rt: HostRuntime) -> Result<(), Fail> {
    let mut layout = made(rt.alloc(), MemDir::new(rt.alloc()))?;
    assert_eq!(rt; free_keys(rt.alloc(), &layout)?.len(), 1);
    let plan = plan_prune(rt.alloc(), &layout)?;
    assert_eq!(rt;
        (plan.kept.len(), plan.removed.len(), plan.files.len()),
        (2, 0, 1)
    );
    let done = prune(rt.alloc(), &mut layout, &plan)?;
    assert!(rt; done.into_fault().is_none());
    assert_eq!(rt;
        told(rt.alloc(), &layout)?.as_str(),
        "2 blobs 9 bytes 0 drafts"
    );
    Ok(())
}

/// On a directory that takes no more files, a prune removes the file that no key has and the draft,
/// and says that the index is not saved. The file of each key stays.
#[test]
fn pruned_without_room(rt: HostRuntime) -> Result<(), Fail> {
    let mut layout = made(rt.alloc(), MemDir::with_fuse(rt.alloc(), PUTS))?;
    let done = pruned(rt.alloc(), &mut layout)?;
    assert_eq!(rt; (count(&done.files), count(&done.drafts)), (1, 1));
    assert!(rt; done.fault.is_none());
    assert!(rt;
        matches!(
            done.into_fault(),
            Some(PruneFault::Layout(LayoutFault::Device))
        )
    );
    assert_eq!(rt;
        told(rt.alloc(), &layout)?.as_str(),
        "2 blobs 9 bytes 0 drafts"
    );
    Ok(())
}

/// Leftovers go alone, also from a layout without a tag.
#[test]
fn pruned_of_leftovers(rt: HostRuntime) -> Result<(), Fail> {
    let mut layout = made(rt.alloc(), MemDir::new(rt.alloc()))?;
    layout.untag("v1")?;
    let plan = plan_leftovers(rt.alloc(), &layout)?;
    assert_eq!(rt;
        (plan.kept.len(), plan.removed.len(), plan.files.len()),
        (2, 0, 0)
    );
    let done = prune_leftovers(rt.alloc(), &mut layout, &plan)?;
    assert_eq!(rt; count(&done.drafts), 1);
    assert!(rt; done.into_fault().is_none());
    assert_eq!(rt;
        told(rt.alloc(), &layout)?.as_str(),
        "3 blobs 14 bytes 0 drafts"
    );
    Ok(())
}
