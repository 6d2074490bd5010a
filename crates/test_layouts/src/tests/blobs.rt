//! Blobs that are removed and put again, and drafts that are removed, in memory and in a folder.

use crate::tests::host::Host;
use crate::tests::layouts::{created, opened, push_samples, summary};
use crate::tests::texts::assert_told;
use oci_layout::{Dir, FsDir, Layout, MemDir, PrunableDir};
use oci_manifest::Key;
use oci_store::{CheckedContent, Drafting, Tagger, Untagger};
use std::alloc::Global;
use std::collections::BTreeSet;
use std::process::Abort;
use std::test::Fail;
use std::{fs, rt};
use test_support::Sample::{self, Empty, Foo, FooBySha512, Image0};

const DRAFT: &str = "index.json.0123456789abcdef.new";

/// Drops all keys but these from a layout.
fn retain<D: Dir>(alloc: Global, layout: &mut Layout<D>, samples: &[Sample]) -> Result<(), Fail> {
    let mut keys = BTreeSet::new(alloc);
    for sample in samples {
        keys.insert(sample.key(alloc)?)?;
    }
    if !layout.tags()?.is_empty() {
        return Err(Fail::from("there is a tag"));
    }
    layout.retain(&keys)?;
    Ok(())
}

/// Returns the files of contents as text: each digest with the length of its file, followed by `;`.
fn blobs_of<D: PrunableDir>(alloc: Global, layout: &Layout<D>) -> Result<String, Fail> {
    let mut told = String::new(alloc);
    for (digest, length) in layout.blobs()? {
        told.push_str(format!(in alloc; "{digest} {length};")?.as_str())?;
    }
    Ok(told)
}

/// Returns the drafts as text: each path with the length of its file, followed by `;`.
fn leftovers_of<D: PrunableDir>(alloc: Global, layout: &Layout<D>) -> Result<String, Fail> {
    let mut told = String::new(alloc);
    for (path, length) in layout.leftovers()? {
        told.push_str(format!(in alloc; "{path} {length};")?.as_str())?;
    }
    Ok(told)
}

/// Tags a key and removes the tag. Returns the key that it named.
fn tag_and_untag<D: Dir>(layout: &mut Layout<D>, key: &Key) -> Result<Key, Fail> {
    layout.tag(key, "foo")?;
    Ok(layout.untag("foo")?)
}

/// Tags `foo` and removes the tag. Drops `foo` and its SHA-512 twin, and saves the layout. Returns
/// the key that was untagged, and the contents.
fn told_of_dropped<D: Dir>(alloc: Global, layout: &mut Layout<D>) -> Result<String, Fail> {
    push_samples(alloc, layout, &[Empty, Image0, Foo, FooBySha512])?;
    let untagged = tag_and_untag(layout, &Foo.key(alloc)?)?;
    retain(alloc, layout, &[Empty, Image0])?;
    layout.save()?;
    layout.settle_index()?;
    let held = summary(alloc, layout)?;
    Ok(format!(in alloc; "{untagged} {held}")?)
}

fn removed<D: PrunableDir>(
    alloc: Global,
    layout: &mut Layout<D>,
    sample: Sample,
) -> Result<bool, Fail> {
    let key = sample.key(alloc)?;
    Ok(layout.remove_blob(key.digest())?)
}

/// Tries to remove a held blob, and `foo` twice. Returns what was removed, and what is left.
fn told_of_removed<D: PrunableDir>(alloc: Global, layout: &mut Layout<D>) -> Result<String, Fail> {
    let held = removed(alloc, layout, Empty)?;
    let found = removed(alloc, layout, Foo)?;
    let again = removed(alloc, layout, Foo)?;
    let blobs = blobs_of(alloc, layout)?;
    Ok(format!(in alloc; "{held} {found} {again} {blobs}")?)
}

/// Puts a content by a draft, unless a folder is in the place of its file.
fn put_draft<D: Dir>(layout: &mut Layout<D>, content: &CheckedContent) -> Result<(), Fail> {
    if layout.is_blocked(content.key())? {
        return Err(Fail::from("a folder is in the way"));
    }
    let mut draft = layout.fresh_draft(content.key())?;
    draft.append(content.bytes().as_slice())?;
    Ok(layout.replace_draft(content.key(), draft)?)
}

fn checked(alloc: Global, sample: Sample) -> Result<CheckedContent, Fail> {
    let key = sample.key(alloc)?;
    Ok(CheckedContent::check(&key, sample.bytes(alloc)?)?)
}

/// Puts `foo`, which is not there, and a config, which is. Returns what is there then.
fn told_of_put<D: PrunableDir>(alloc: Global, layout: &mut Layout<D>) -> Result<String, Fail> {
    layout.replace(&checked(alloc, Empty)?)?;
    put_draft(layout, &checked(alloc, Foo)?)?;
    blobs_of(alloc, layout)
}

/// Lists and removes a draft. Tries to remove the index as one.
fn told_of_cleaned<D: PrunableDir>(alloc: Global, layout: &mut Layout<D>) -> Result<String, Fail> {
    let drafts = leftovers_of(alloc, layout)?;
    let found = layout.remove_leftover(DRAFT)?;
    let again = layout.remove_leftover(DRAFT)?;
    let index = layout.remove_leftover("index.json")?;
    let linked = layout.linked()?.unwrap_or("none");
    Ok(format!(in alloc; "{drafts} {found} {again} {index} {linked}")?)
}

/// What happens in a directory with one draft, in which a layout is then created.
fn assert_blobs<D: PrunableDir + Drop, R: AllocGlobal + Abort>(
    rt: &R,
    dir: D,
    name: &str,
) -> Result<(), Fail> {
    let alloc = rt.alloc();
    let mut layout = created(alloc, dir)?;
    let dropped = told_of_dropped(alloc, &mut layout)?;
    assert_told(rt, &name, dropped.as_str(), "<key Foo> held 2")?;
    let removed = told_of_removed(alloc, &mut layout)?;
    assert_told(
        rt,
        &name,
        removed.as_str(),
        "false true false <digest Empty> 2;<digest Image0> 241;sha512:f7fbba6e0636f890e56fbbf3283e524c6fa3204ae298382d624741d0dc6638326e282c41be5e4254d8820772c5518a2c5a8c0c7f7eda19594a7eb539453e1ed7 3;",
    )?;
    let put = told_of_put(alloc, &mut layout)?;
    assert_told(
        rt,
        &name,
        put.as_str(),
        "<digest Foo> 3;<digest Empty> 2;<digest Image0> 241;sha512:f7fbba6e0636f890e56fbbf3283e524c6fa3204ae298382d624741d0dc6638326e282c41be5e4254d8820772c5518a2c5a8c0c7f7eda19594a7eb539453e1ed7 3;",
    )?;
    let cleaned = told_of_cleaned(alloc, &mut layout)?;
    assert_told(
        rt,
        &name,
        cleaned.as_str(),
        "index.json.0123456789abcdef.new 3; true false false none",
    )
}

fn with_draft(alloc: Global) -> Result<MemDir, Fail> {
    let mut dir = MemDir::new(alloc);
    dir.leave_draft(DRAFT, b"abc")?;
    Ok(dir)
}

/// The place of the config.
const CONFIG: &str =
    "blobs_of_a_folder/blobs/sha256/44136fa355b3678a1146ad16f7e8649e94fb4fc21fe77e8310c060f61caaff8a";

/// Puts the config again in the layout of a directory.
fn put_config<D: Dir + Drop>(alloc: Global, dir: D) -> Result<(), Fail> {
    let mut layout = opened(alloc, dir)?;
    layout.replace(&checked(alloc, Empty)?)?;
    Ok(())
}

/// Puts a link to the same bytes in the place of the config, and then the config again. Its file is
/// then one of its own.
fn assert_written_again<R: Host + Abort>(rt: &R) -> Result<(), Fail> {
    fs::rename(rt, CONFIG, "blobs_of_a_folder/config")?;
    rt::Files::symlink(rt, "../../config", CONFIG)?;
    put_config(rt.alloc(), FsDir::new(rt, "blobs_of_a_folder")?)?;
    assert!(rt; fs::symlink_metadata(rt, CONFIG)?.is_file());
    assert!(rt; fs::exists(rt, "blobs_of_a_folder/config")?);
    Ok(())
}

fn assert_in_folder<R: Host + Abort>(rt: &R) -> Result<(), Fail> {
    fs::create_dir(rt, "blobs_of_a_folder")?;
    fs::write(
        rt,
        "blobs_of_a_folder/index.json.0123456789abcdef.new",
        b"abc",
    )?;
    assert_blobs(rt, FsDir::new(rt, "blobs_of_a_folder")?, "a folder")?;
    assert_written_again(rt)
}

/// A blob of a held key is not removed, another one is removed once, and both can be put again. A
/// draft is listed with its length and removed once, and the index is none.
#[test]
fn blobs_and_drafts(rt: HostRuntime) -> Result<(), Fail> {
    assert_blobs(&rt, with_draft(rt.alloc())?, "memory")?;
    let _ = fs::remove_dir_all(&rt, "blobs_of_a_folder");
    assert_in_folder(&rt)?;
    Ok(fs::remove_dir_all(&rt, "blobs_of_a_folder")?)
}
