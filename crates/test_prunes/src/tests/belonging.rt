//! What belongs to a key of a layout in memory, and what a prune keeps that is given a key.

use oci_layout::{Layout, MemDir};
use oci_manifest::Key;
use oci_prune::{Belonging, PrunePlan, belonging_of, plan_prune_keeping};
use oci_store::{Dest, Tagger, keys_of_set};
use std::alloc::Global;
use std::collections::BTreeSet;
use std::process::Abort;
use std::slice;
use std::test::Fail;
use test_support::Sample::{Bar, Empty, Foo, Image0, Image2, Referrer};
use test_support::{Sample, keys};

/// The tag of a signature of `image_2`: its digest with `-` in place of `:`, and a suffix.
const SIGNATURE: &str =
    "sha256-7e1df211bc4556d2a9db939a81721c52e5e53c59e3dfb45a57205a794dd412b7.sig";

/// Pushes a sample.
fn push(alloc: Global, layout: &mut Layout<MemDir>, sample: Sample) -> Result<(), Fail> {
    let key = sample.key(alloc)?;
    layout.push_closed(&key, sample.bytes(alloc)?)?;
    Ok(())
}

/// Pushes an image with its referrer, another image, and a layer that nothing lists.
fn push_all(alloc: Global, layout: &mut Layout<MemDir>) -> Result<(), Fail> {
    for sample in [Empty, Foo, Bar, Image2, Referrer, Image0] {
        push(alloc, layout, sample)?;
    }
    Ok(())
}

/// Returns a layout of these contents.
fn filled(alloc: Global) -> Result<Layout<MemDir>, Fail> {
    match Layout::create(alloc, MemDir::new(alloc)) {
        Ok(mut layout) => {
            push_all(alloc, &mut layout)?;
            Ok(layout)
        }
        Err((_, fault)) => Err(Fail::from(fault)),
    }
}

/// Returns a tag of a sample.
fn tag_of(alloc: Global, name: &str, sample: Sample) -> Result<(String, Key), Fail> {
    let name = String::from_str(alloc, name)?;
    Ok((name, sample.key(alloc)?))
}

/// Returns the tags of a signature of the image, and of the layer.
fn tags(alloc: Global) -> Result<Vec<(String, Key)>, Fail> {
    let mut tags = Vec::new(alloc);
    tags.push(tag_of(alloc, SIGNATURE, Image0)?)?;
    tags.push(tag_of(alloc, "other", Bar)?)?;
    Ok(tags)
}

/// Asserts that these are the keys of the samples, in order.
fn assert_keys<R: AllocGlobal + Abort>(rt: &R, found: &[Key], want: &[Sample]) -> Result<(), Fail> {
    assert!(rt; found == keys(rt.alloc(), want)?.as_slice(), "not {want:?}");
    Ok(())
}

/// Asserts that these are the keys of the samples, which are in key order.
fn assert_set<R: AllocGlobal + Abort>(
    rt: &R,
    found: &BTreeSet<Key>,
    want: &[Sample],
) -> Result<(), Fail> {
    assert_keys(rt, &keys_of_set(rt.alloc(), found)?, want)
}

/// Returns what belongs to the image.
fn found(alloc: Global, layout: &Layout<MemDir>) -> Result<Belonging, Fail> {
    let key = Image2.key(alloc)?;
    Ok(belonging_of(alloc, layout, slice::from_ref(&key), &tags(alloc)?)?)
}

/// With the image come its config and its layer, its referrer, and the other image, which has the
/// tag of a signature of it. The referrer and the other image are attached to it.
#[test]
fn what_belongs_to_an_image(rt: HostRuntime) -> Result<(), Fail> {
    let found = found(rt.alloc(), &filled(rt.alloc())?)?;
    assert_set(&rt, &found.members, &[Empty, Foo, Image2, Image0, Referrer])?;
    assert_eq!(rt; (found.attached.len(), found.tags.len()), (2, 1));
    Ok(())
}

/// Returns the plan of a prune that keeps the layer, and the tagged image.
fn planned(alloc: Global, layout: &mut Layout<MemDir>) -> Result<PrunePlan, Fail> {
    let key = Bar.key(alloc)?;
    layout.tag(&Image0.key(alloc)?, "v1")?;
    Ok(plan_prune_keeping(alloc, layout, slice::from_ref(&key), true)?)
}

/// Of a layout with one tag, a key that is given is kept like the tagged image. The other image goes,
/// with its layer and its referrer.
#[test]
fn a_plan_that_keeps_a_key(rt: HostRuntime) -> Result<(), Fail> {
    let plan = planned(rt.alloc(), &mut filled(rt.alloc())?)?;
    assert_set(&rt, &plan.kept, &[Empty, Bar, Image0])?;
    assert_keys(&rt, &plan.removed, &[Foo, Image2, Referrer])
}
