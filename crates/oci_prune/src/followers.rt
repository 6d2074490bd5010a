ghost use Rattle.std.specs.Prelude.{◌≡◌, ◌||◌, not, List, ℕ, take, filter, IfOk, OnOk, string_bytes};
ghost use Rattle.std.specs.BTreeSet.{contains_text};
ghost use Rattle.std.specs.Str.{IsAscii};
ghost use Rattle.oci_store.specs.Tags.{by_bytes};
ghost use Rattle.oci_prune.specs.Attached.{AreFollowers, AreIndependent, HasStems, IsStemAdded, cut, dashed, follows_one, independent_tags, is_stem_at, is_stem_of, stem};

use crate::held::held_keys;
use crate::referrers::put;
use oci_digest::{Digest, NoMemory};
use oci_dir::Dir;
use oci_layout_store::Layout;
use oci_manifest::{Key, Kind};
use std::alloc::Global;
use std::collections::{BTreeMap, BTreeSet};

/// Returns the keys of tags, under what their names have before the first `.`.
pub(crate) fn followers_of(
    alloc: Global,
    tags: &[(String, Key)],
) -> Result<BTreeMap<String, Vec<Key>>, NoMemory>
    ensures { IfOk result (λ followers. AreFollowers (by_bytes tags.now) followers) }
{
    let mut followers = BTreeMap::new(alloc);
    for tag in tags {
        add_follower(alloc, &mut followers, &tag.1, stem(tag.0.as_str()))?;
    }
    Ok(followers)
}

/// Adds a key under a text.
fn add_follower(
    alloc: Global,
    followers: &mut BTreeMap<String, Vec<Key>>,
    key: &Key,
    stem: &str,
) -> Result<(), NoMemory>
    ensures { OnOk result (IsStemAdded key.now stem.now followers.old followers.new) }
{
    let key = key.try_clone()?;
    if let Some(keys) = followers.get_mut(stem) {
        put(keys, key)?;
        return Ok(());
    }
    let mut keys = Vec::new(alloc);
    put(&mut keys, key)?;
    let stem = String::from_str(alloc, stem)?;
    followers.insert(stem, keys)?;
    Ok(())
}

/// Returns the tags whose names name the digest of one of these keys, if it is of a manifest kind.
pub(crate) fn following_tags(
    alloc: Global,
    tags: &[(String, Key)],
    subjects: &[Key],
) -> Result<Vec<(String, Key)>, NoMemory>
    ensures { IfOk result (λ following. by_bytes following.items
        ≡ filter (λ tag. follows_one subjects.now tag.0) (by_bytes tags.now)) }
{
    let stems = stems_of(alloc, subjects)?;
    let mut following = Vec::new(alloc);
    for tag in tags {
        if !stems.contains(stem(tag.0.as_str())) {
            continue;
        }
        following.push((tag.0.clone()?, tag.1.try_clone()?))?;
    }
    Ok(following)
}

/// Returns those of these tags that follow no other blob of a layout, in their order: the name of a
/// tag names the digest of no held manifest, or it names the digest of its own key. A name names a
/// digest as [`belonging_of`](crate::belonging_of) says. So the tag of a signature, such as
/// `sha256-DIGITS.sig`, is left out if its image is held. A tag `sha256-DIGITS` of the image itself is
/// not.
///
/// # Errors
///
/// `NoMemory` if memory runs out.
pub fn independent_tags<D: Dir>(
    alloc: Global,
    layout: &Layout<D>,
    tags: &[(String, Key)],
) -> Result<Vec<(String, Key)>, NoMemory>
    ensures { IfOk result (λ found. AreIndependent layout.now.graph (by_bytes tags.now)
        (by_bytes found.items)) }
{
    tags_without(alloc, tags, &held_keys(alloc, layout)?)
}

/// Returns those of these tags that follow none of these keys but their own, in their order.
fn tags_without(
    alloc: Global,
    tags: &[(String, Key)],
    keys: &[Key],
) -> Result<Vec<(String, Key)>, NoMemory>
    ensures { IfOk result (λ found. by_bytes found.items
        ≡ independent_tags keys.now (by_bytes tags.now)) }
{
    let stems = stems_of(alloc, keys)?;
    let mut found = Vec::new(alloc);
    for (name, key) in tags {
        if !is_independent(alloc, &stems, name, key)? {
            continue;
        }
        found.push((name.clone()?, key.try_clone()?))?;
    }
    Ok(found)
}

/// Returns whether the stem of a name is not among these, or names the digest of the tag's key.
fn is_independent(
    alloc: Global,
    stems: &BTreeSet<String>,
    name: &str,
    key: &Key,
) -> Result<bool, NoMemory>
    ensures { IfOk result (λ it. it ≡ (not (contains_text stems.now (stem name.now))
        || is_stem_of (stem name.now) key.now.digest)) }
{
    let stem = stem(name);
    Ok(!stems.contains(stem) || is_stem_of(alloc, stem, key.digest())?)
}

/// Returns whether a stem names a digest.
pub(crate) fn is_stem_of(alloc: Global, text: &str, digest: &Digest) -> Result<bool, NoMemory>
    ensures { IfOk result (λ it. it ≡ is_stem_of text.now digest.now) }
{
    let dashed = dashed(alloc, digest)?;
    Ok(text == dashed.as_str() || text == cut(dashed.as_str()))
}

/// Returns what a tag has before its first `.` if it names the digest of one of these keys, if that
/// is of a manifest kind.
pub(crate) fn stems_of(alloc: Global, keys: &[Key]) -> Result<BTreeSet<String>, NoMemory>
    ensures { IfOk result (λ stems. HasStems keys.now stems) }
{
    let mut stems = BTreeSet::new(alloc);
    for key in keys {
        add_stems(alloc, key, &mut stems)?;
    }
    Ok(stems)
}

/// Adds what names the digest of a key, if it is of a manifest kind.
fn add_stems(alloc: Global, key: &Key, stems: &mut BTreeSet<String>) -> Result<(), NoMemory>
    ensures { OnOk result ((text : List ℕ) → contains_text stems.new text
        ≡ (contains_text stems.old text || is_stem_at text key.now)) }
{
    match Kind::of(key.media_type()) {
        Kind::Leaf => Ok(()),
        _ => add_digest(alloc, key.digest(), stems),
    }
}

/// Adds what names a digest.
fn add_digest(alloc: Global, digest: &Digest, stems: &mut BTreeSet<String>) -> Result<(), NoMemory>
    ensures { OnOk result ((text : List ℕ) → contains_text stems.new text
        ≡ (contains_text stems.old text || is_stem_of text digest.now)) }
{
    let text = dashed(alloc, digest)?;
    let short = String::from_str(alloc, cut(text.as_str()))?;
    stems.insert(short)?;
    stems.insert(text)?;
    Ok(())
}

/// Returns the part of a tag's name before its first `.`.
pub(crate) fn stem(name: &str) -> &str
    ensures { result.now ≡ stem name.now }
{
    match name.split_once('.') {
        Some((stem, _)) => stem,
        None => name,
    }
}

/// Returns the text of a digest with `-` in place of its `:`.
pub(crate) fn dashed(alloc: Global, digest: &Digest) -> Result<String, NoMemory>
    ensures text { IfOk result (λ text. string_bytes text ≡ dashed digest.now) }
    ensures ascii { IsAscii (dashed digest.now) }
{
    let algorithm = digest.algorithm();
    let encoded = digest.encoded(alloc)?;
    Ok(format!(in alloc; "{algorithm}-{encoded}")?)
}

/// Returns the first 71 bytes of a text.
pub(crate) fn cut(text: &str) -> &str
    requires { IsAscii text.now }
    ensures { result.now ≡ take 71 text.now }
{
    if text.len() <= 71 {
        return text;
    }
    &text[..71]
}
