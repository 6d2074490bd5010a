ghost use Rattle.std.specs.Prelude.{◌≡◌, ◌≢◌, ◌++◌, [], ◌∷◌, true, is_some, map, option_copied, string_bytes, Contains, IfOk, IfErr, OnOk};
ghost use Rattle.std.specs.List.{All};
ghost use Rattle.oci_copy.specs.Tagged.{name_of};
ghost use Rattle.oci_store.specs.Tags.{by_bytes, AreNames};
ghost use Rattle.oci_layout_store.specs.Brought.{IsShallowEntry};
ghost use Rattle.oci_layout_store.specs.Entries.{entry_of, said};
ghost use Rattle.oci_entries.specs.Brought.{tag_entries, with_roots};
ghost use Rattle.oci_entries.specs.Pattern.{matching_tags, texts_of};
ghost use Rattle.oci_selection.specs.Refusal.{IsNoTagsFault};
ghost use Rattle.oci_selection.specs.Selected.{
  AreOfRoots,
  HasAllReadable,
  IsOfRoot,
  Selects,
  SelectsAllTags,
  SelectsNamed,
  SelectsPlatform,
  SelectsReference,
};

use crate::referrers::{Referrers, referrers_of};
use crate::roots::{roots_of_keys, roots_of_reference, start_keys, untagged_keys};
use crate::whole::{check_each_if, check_entries, check_readable};
use oci_command_line::{CopyWords, Selection};
use oci_digest::NoMemory;
use oci_dir::Dir;
use oci_entries::{
    CopyRoots, entries_of_listed, entries_of_reference, entries_of_tags, matching_entries,
    matching_tags,
};
use oci_layout_store::{IndexEntry, Layout};
use oci_manifest::Key;
use oci_program::ProgramFault;
use oci_prune_fault::PruneFault;
use oci_reference::{pick_platform, resolve};
use std::alloc::Global;
use std::marker::Model;

/// The roots of a copy, the tags that it sets, each of a root, and the entries that it brings.
#[derive(Drop)]
pub struct Selected {
    roots: Vec<Key>,
    tags: Vec<(String, Key)>,
    entries: Vec<IndexEntry>,
}

impl Model for Selected {
    ghost use Rattle.std.specs.Prelude.{List, map};
    ghost use Rattle.std.specs.Coded.{codes};
    ghost use Rattle.oci_manifest.specs.Descriptor.{Descriptor};
    ghost use Rattle.oci_store.specs.Tags.{Tags, by_bytes};
    ghost use Rattle.oci_layout_store.specs.Entries.{entry_of};
    ghost use Rattle.oci_layout_store.specs.contracts.index.IndexEntry as entry;
    ghost use Rattle.oci_layout_store.specs.declared.index.IndexEntry.{IndexEntry};
    ghost use Rattle.oci_selection.specs.Selected.{IsSelected};

    ghost Value = { List Descriptor × Tags × List IndexEntry };

    ghost coded = { Prim.hlevel (codes, entry.the_row.coded) };

    ghost view = { λ s. (s.roots.items, by_bytes s.tags.items, s.entries.items) };

    ghost invariant = { λ s. IsSelected s.roots.items (by_bytes s.tags.items)
        (map entry_of s.entries.items) };
}

impl Selected {
    /// Selects the roots and tags that the words of a copy name in an open layout: one reference, the
    /// manifest of an index for a platform, or every tag. A copy that prunes, or asks for a platform,
    /// does not climb.
    ///
    /// # Errors
    ///
    /// - 75 `Corrupt` or 77 `BadManifest` with referrers, if a manifest of the source is damaged: it
    ///   may be one. Then also 74 `Device` if its file cannot be read. Checked first.
    /// - 73 `BadIndex` with referrers, if an entry of the source's index is no descriptor: it may be
    ///   that of one. Checked second.
    /// - 35 `EmptyReference` if the reference is empty, and 36 `UnknownReference` if it is unknown.
    /// - 75 `Corrupt` and 77 `BadManifest` if it is that of a damaged blob, and 74 `Device` if the
    ///   file of that one cannot be read.
    /// - 107 `NoPlatform`, 96 `Unknown`, 75 `Corrupt`, 77 `BadManifest`, 74 `Device` and 20 to 22 for a
    ///   platform, as from [`Selected::platform`].
    /// - 73 `BadIndex`, 96 `Unknown`, 97 `NoTags` and 108 `NoMatch` for every tag, as from
    ///   [`Selected::all_tags`].
    /// - 77 `BadManifest` and 88 `Fetch` with referrers, if a manifest of the source cannot be read.
    /// - Out of memory, at any point.
    pub fn of<D: Dir>(
        alloc: Global,
        source: &Layout<D>,
        words: &CopyWords<'_>,
    ) -> Result<Selected, ProgramFault>
        ensures sound { OnOk result (is_some words.now.referrers ≡ true
            → HasAllReadable source.now) }
        ensures selects { IfOk result (Selects D.device source.now words.now) }
    {
        if words.referrers.is_some() {
            check_readable(source)?;
        }
        let referrers = referrers_of(words);
        match &words.selection {
            Selection::Reference {
                source: from,
                destination: to,
                platform,
            } => Selected::named(alloc, source, from, to, *platform, referrers),
            Selection::AllTags { patterns } => {
                let brings_untagged = words.brings_untagged;
                Selected::all_tags(alloc, source, patterns, brings_untagged, referrers)
            }
        }
    }

    /// Selects the blob that a reference of the source names, or the manifest for a platform that the
    /// index lists which it names.
    ///
    /// # Errors
    ///
    /// As from [`Selected::reference`] and [`Selected::platform`].
    fn named<D: Dir>(
        alloc: Global,
        source: &Layout<D>,
        from: &str,
        to: &str,
        platform: Option<&str>,
        referrers: Referrers<'_>,
    ) -> Result<Selected, ProgramFault>
        ensures { IfOk result (SelectsNamed D.device source.now from.now to.now
            (option_copied platform.entry) referrers.entry) }
    {
        match platform {
            Some(platform) => Selected::platform(alloc, source, platform, from, to, referrers),
            None => Selected::reference(alloc, source, from, to, referrers),
        }
    }

    /// Selects the blob that a reference of the source resolves to. It is tagged `to`, or `from` if
    /// `to` is empty.
    ///
    /// If the copy climbs, the keys that list it or refer to it are selected too, at most that number
    /// of levels up. With any referrers, so is all that is attached to what these reach: the
    /// manifests whose `subject` has its digest, and the blobs of the source's tags that are named
    /// for its digest, as [`belonging_of`](oci_prune::belonging_of) says. Those tags are set too, each
    /// under its own name, in byte order after the tag of the reference. One that has the name of that
    /// tag is left out. With types, what is attached is what
    /// [`belonging_of_types`](oci_prune::belonging_of_types) says, and no other tag is set.
    ///
    /// The copy brings the entry of the reference under its tag: the last one of the name `from`, or
    /// else the last one of the blob without a name, or else its last one. It brings the entries of
    /// the other tags under their names, and those of the other roots without a name.
    ///
    /// # Errors
    ///
    /// - 35 `EmptyReference` if `from` is empty, and 36 `UnknownReference` if it is unknown.
    /// - 75 `Corrupt` and 77 `BadManifest` if it is that of a damaged blob, and 74 `Device` if the
    ///   file of that one cannot be read.
    /// - 77 `BadManifest` and 88 `Fetch` with referrers, if a manifest of the source cannot be read.
    /// - Out of memory, at any point.
    pub fn reference<D: Dir>(
        alloc: Global,
        source: &Layout<D>,
        from: &str,
        to: &str,
        referrers: Referrers<'_>,
    ) -> Result<Selected, ProgramFault>
        ensures { IfOk result (SelectsReference D.device source.now from.now to.now
            referrers.entry) }
    {
        let key = resolve(source, from)?;
        let name = tag_name(alloc, from, to)?;
        let roots = roots_of_reference(alloc, source, &key, &name, referrers)?;
        let entries = entries_of_reference(alloc, source.entries(), from, &name, &key, &roots)?;
        Selected::tagged(alloc, name, key, roots, entries)
    }

    /// Selects the first manifest that an index lists for a platform, as from [`pick_platform`]; a
    /// reference of the source names the index. The manifest is tagged `to`, or `from` if `to` is
    /// empty, and the index is not selected.
    ///
    /// With referrers, what is attached is selected too, and its tags are set, as from
    /// [`Selected::reference`]. The copy brings the manifest's descriptor in the index as the entry of
    /// its tag, with all its members. It brings the entries of the other tags under their names, and
    /// those of the other roots without a name.
    ///
    /// # Errors
    ///
    /// - 35 `EmptyReference` if `from` is empty, and 36 `UnknownReference` if it is unknown.
    /// - 75 `Corrupt` and 77 `BadManifest` if it is that of a damaged blob, and 74 `Device` if the
    ///   file of that one cannot be read.
    /// - 107 `NoPlatform`, 96 `Unknown`, 75 `Corrupt`, 77 `BadManifest`, 74 `Device` and 20 to 22, as
    ///   from [`pick_platform`].
    /// - 77 `BadManifest` and 88 `Fetch` with referrers, if a manifest of the source cannot be read.
    /// - Out of memory, at any point.
    pub fn platform<D: Dir>(
        alloc: Global,
        source: &Layout<D>,
        platform: &str,
        from: &str,
        to: &str,
        referrers: Referrers<'_>,
    ) -> Result<Selected, ProgramFault>
        ensures { IfOk result (SelectsPlatform D.device source.now platform.now from.now to.now
            referrers.entry) }
    {
        let index = resolve(source, from)?;
        let name = tag_name(alloc, from, to)?;
        let (picked, listed) = pick_platform(source, &index, platform)?.into_entry()?;
        let roots = roots_of_reference(alloc, source, &picked, &name, referrers)?;
        let entries = entries_of_listed(alloc, source.entries(), &listed, &name, &roots)?;
        Selected::tagged(alloc, name, picked, roots, entries)
    }

    /// Selects these roots of a copy of a key, whose tag has this name, and these entries.
    fn tagged(
        alloc: Global,
        name: String,
        key: Key,
        roots: CopyRoots,
        entries: Vec<IndexEntry>,
    ) -> Result<Selected, ProgramFault>
        requires named { string_bytes name ≢ [] }
        requires rooted { Contains roots.keys.items key }
        requires others { AreOfRoots roots.keys.items (by_bytes roots.tags.items) }
        requires of_roots { All (IsOfRoot roots.keys.items) (map entry_of entries.items) }
        requires shallow { All IsShallowEntry (map entry_of entries.items) }
        ensures roots { IfOk result (λ selected. selected.0 ≡ roots.keys.items) }
        ensures tags { IfOk result (λ selected. selected.1
            ≡ (string_bytes name, key) ∷ by_bytes roots.tags.items) }
        ensures entries { IfOk result (λ selected. selected.2 ≡ entries.items) }
    {
        let CopyRoots {
            keys: roots,
            tags: others,
        } = roots;
        let tags = first_tag(alloc, name, key, others)?;
        Ok(Selected {
            roots,
            tags,
            entries,
        })
    }

    /// Selects the blob of each tag of the source whose name matches one of the patterns, and that of
    /// each entry of such a name, also if a later entry has the name too. If there are no patterns,
    /// each name matches. The copy sets these tags, brings these entries, and those of the other
    /// roots. If `brings_untagged`, the images of the source that no tag names are selected too, as
    /// [`free_keys`](oci_prune::free_keys) finds them.
    ///
    /// With any referrers, what is attached to what these reach is selected too, and if the copy climbs,
    /// the keys that list them or refer to them, as from [`Selected::reference`]. The tags that are
    /// named for the digest of one of these are then set too, each under its own name, in byte order
    /// after the matching ones.
    ///
    /// # Errors
    ///
    /// - 73 `BadIndex` if an entry of the index that has such a name is no descriptor, and 96 `Unknown`
    ///   if the blob of one is missing or damaged: for the first such entry. A copy would leave it
    ///   out.
    /// - If `brings_untagged`, 96 `Unknown` if the blob of any entry is missing or damaged, or else 73
    ///   `BadIndex` if any entry is no descriptor: for the first one.
    /// - 97 `NoTags` if there is no tag.
    /// - 108 `NoMatch` if there are tags, and none matches.
    /// - 77 `BadManifest` and 88 `Fetch` with referrers, or if `brings_untagged`, if a manifest of the
    ///   source cannot be read.
    /// - Out of memory, at any point.
    pub fn all_tags<D: Dir>(
        alloc: Global,
        source: &Layout<D>,
        patterns: &[&str],
        brings_untagged: bool,
        referrers: Referrers<'_>,
    ) -> Result<Selected, ProgramFault>
        ensures selects { IfOk result (SelectsAllTags D.device source.now
            (texts_of patterns.now) brings_untagged referrers.entry) }
        ensures refused { IfErr result (IsNoTagsFault (texts_of patterns.now) source.now.tags) }
    {
        check_entries(alloc, source, source.entries(), patterns)?;
        check_each_if(brings_untagged, source)?;
        let tags = tags_to_copy(alloc, source, patterns)?;
        let named = matching_entries(alloc, source.entries(), patterns)?;
        let untagged = untagged_keys(alloc, source, brings_untagged)?;
        let keys = start_keys(alloc, &tags, &named, &untagged)?;
        let roots = roots_of_keys(alloc, source, &keys, patterns, referrers)?;
        Selected::with_tags(alloc, source, tags, named, roots)
    }

    /// Selects the roots of a copy of tags, these tags and those that come with them, and the entries
    /// of the source that the copy brings, among them the entries of the tags' names.
    fn with_tags<D: Dir>(
        alloc: Global,
        source: &Layout<D>,
        tags: Vec<(String, Key)>,
        named: Vec<IndexEntry>,
        roots: CopyRoots,
    ) -> Result<Selected, ProgramFault>
        requires tagged { AreOfRoots roots.keys.items (by_bytes tags.items) }
        requires others { AreOfRoots roots.keys.items (by_bytes roots.tags.items) }
        requires named { All (IsOfRoot roots.keys.items) (map entry_of named.items) }
        requires shallow { All IsShallowEntry (map entry_of named.items) }
        ensures roots { IfOk result (λ selected. selected.0 ≡ roots.keys.items) }
        ensures tags { IfOk result (λ selected. selected.1
            ≡ by_bytes tags.items ++ by_bytes roots.tags.items) }
        ensures entries { IfOk result (λ selected. map entry_of selected.2
            ≡ with_roots (said source.now.opened.content).entries (map entry_of named.items
            ++ tag_entries (said source.now.opened.content).entries (by_bytes roots.tags.items))
            roots.keys.items) }
        ensures memory { IfErr result (λ fault. fault ≡ ProgramFault.Memory) }
    {
        let CopyRoots {
            keys: roots,
            tags: others,
        } = roots;
        let entries = entries_of_tags(alloc, source.entries(), named, &others, &roots)?;
        let tags = joined(tags, others)?;
        Ok(Selected {
            roots,
            tags,
            entries,
        })
    }

    /// Returns the keys that the copy starts from, each once.
    pub fn roots(&self) -> &[Key]
        ensures { result.now ≡ self.now.0 }
    {
        &self.roots
    }

    /// Returns the tags that the copy sets, and the root that each names.
    pub fn tags(&self) -> &[(String, Key)]
        ensures tags { by_bytes result.now ≡ self.now.1 }
        ensures of_roots { AreOfRoots self.now.0 self.now.1 }
    {
        &self.tags
    }

    /// Returns the entries that the copy brings.
    pub fn entries(&self) -> &[IndexEntry]
        ensures entries { result.now ≡ self.now.2 }
        ensures named { All (IsOfRoot self.now.0) (map entry_of self.now.2) }
        ensures shallow { All IsShallowEntry (map entry_of self.now.2) }
    {
        &self.entries
    }

    /// Returns the tags that the copy sets, and the root that each names.
    pub fn into_tags(self) -> Vec<(String, Key)>
        ensures { by_bytes result.items ≡ self.1 }
    {
        let Selected { tags, .. } = self;
        tags
    }
}

/// Returns the tags of a layout whose names match one of the patterns. There is at least one.
///
/// # Errors
///
/// - 97 `NoTags` if there is no tag.
/// - 108 `NoMatch` if there are tags, and none matches.
/// - Out of memory.
fn tags_to_copy<D: Dir>(
    alloc: Global,
    layout: &Layout<D>,
    patterns: &[&str],
) -> Result<Vec<(String, Key)>, ProgramFault>
    ensures tags { IfOk result (λ tags. by_bytes tags.items
        ≡ matching_tags (texts_of patterns.now) layout.now.tags) }
    ensures tagged { OnOk result (matching_tags (texts_of patterns.now) layout.now.tags ≢ []) }
    ensures named { AreNames layout.now.graph layout.now.tags }
    ensures refused { IfErr result (IsNoTagsFault (texts_of patterns.now) layout.now.tags) }
{
    let tags = layout.tags()?;
    if tags.is_empty() {
        return Err(ProgramFault::Source(PruneFault::NoTags));
    }
    let matching = matching_tags(alloc, &tags, patterns)?;
    if matching.is_empty() {
        return Err(ProgramFault::NoMatch);
    }
    Ok(matching)
}

/// The tag to set: the destination's reference, or the source's if that is empty.
fn tag_name(alloc: Global, from: &str, to: &str) -> Result<String, ProgramFault>
    ensures name { IfOk result (λ name. string_bytes name ≡ name_of from.now to.now) }
    ensures named { from.now ≢ [] → IfOk result (λ name. string_bytes name ≢ []) }
{
    if to.is_empty() {
        Ok(String::from_str(alloc, from)?)
    } else {
        Ok(String::from_str(alloc, to)?)
    }
}

/// Returns a tag, and after it the others.
fn first_tag(
    alloc: Global,
    name: String,
    key: Key,
    others: Vec<(String, Key)>,
) -> Result<Vec<(String, Key)>, NoMemory>
    ensures { IfOk result (λ tags. by_bytes tags.items
        ≡ (string_bytes name, key) ∷ by_bytes others.items) }
{
    let mut others = others;
    let mut tags = Vec::new(alloc);
    tags.push((name, key))?;
    tags.append(&mut others)?;
    Ok(tags)
}

/// Returns tags, and after them others.
pub fn joined(
    tags: Vec<(String, Key)>,
    others: Vec<(String, Key)>,
) -> Result<Vec<(String, Key)>, NoMemory>
    ensures { IfOk result (λ all. by_bytes all.items
        ≡ by_bytes tags.items ++ by_bytes others.items) }
{
    let (mut tags, mut others) = (tags, others);
    tags.append(&mut others)?;
    Ok(tags)
}
