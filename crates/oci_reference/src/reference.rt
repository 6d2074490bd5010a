ghost use Rattle.std.specs.Prelude.{◌≡◌, ◌≢◌, ◌++◌, ◌∷◌, [], true, if◌then◌else◌, is_some, Some, None, map, option_map, IfErr, IfOk, MatchBool, MatchOption, OnOk, string_bytes};
ghost use Rattle.std.specs.List.{list_any};
ghost use Rattle.std.specs.Map.{keys_of};
ghost use Rattle.std.specs.Option.{option_copied};
ghost use Rattle.std.specs.Str.{bytes_eq};
ghost use Rattle.oci_digest.specs.Digest.{is_digest};
ghost use Rattle.oci_manifest.specs.MediaTypes.{kind_of};
ghost use Rattle.oci_store.specs.Keyed.{has_key};
ghost use Rattle.oci_store.specs.Tags.{tag_at, IsLeastOf, Resolves};
ghost use Rattle.oci_layout_store.specs.Entries.{entry_of, said, text_of};
ghost use Rattle.oci_layout_store.specs.Layout.{is_manifest, manifests_of};
ghost use Rattle.oci_layout_store.specs.Saved.{is_name, last_entry, last_place};
ghost use Rattle.oci_reference.specs.Reference.{comes_first, damaged_in, last_key, IsReferenceFault, IsUnresolved, Names, NamesDamaged, NamesUnreadable};

use oci_digest::{Digest, NoMemory};
use oci_dir::Dir;
use oci_layout_store::{IndexEntry, Layout, unreadable_entry};
use oci_manifest::{Key, Kind};
use oci_program::ProgramFault;
use oci_store::{Dest, RefFault, Tagger};
use std::alloc::Global;

/// Returns the key that a reference of a layout names: the one that it resolves to, but that a digest
/// names a manifest rather than a leaf of the same bytes. Of a reference that names a
/// [damaged](Layout::damaged) key, says what is wrong with its file. A name belongs to its last
/// entry, so an earlier one never answers in its place; a digest passes over
/// [unreadable](Layout::unreadable) entries.
///
/// # Errors
///
/// - 35 `EmptyReference` if the reference is empty.
/// - 73 `BadIndex` with 14 `BadDescriptor("manifests", place)` if it does not resolve, and the last
///   entry of that name, which is at this place, is no descriptor.
/// - 75 `Corrupt` or 77 `BadManifest` if it would resolve to a damaged key: the last entry of that
///   name has the key, or, if no entry has the name, it is the least one with that digest. Then also
///   74 `Device` if the file cannot be read.
/// - 36 `UnknownReference` otherwise, if it does not resolve.
/// - Out of memory, at any point.
pub fn resolve<D: Dir>(layout: &Layout<D>, reference: &str) -> Result<Key, ProgramFault>
    ensures found { IfOk result
        (Names (keys_of layout.now.graph) layout.now.tags reference.now) }
    ensures there { IfOk result (λ key. has_key layout.now.graph key ≡ true) }
    ensures named { OnOk result (reference.now ≢ []) }
    ensures refused { IfErr result
        (IsReferenceFault (D.device layout.now.dir) layout.now reference.now) }
{
    match layout.resolve(reference) {
        Ok(key) => match named_key(layout, reference, key) {
            Ok(named) => Ok(named),
            Err(NoMemory) => Err(ProgramFault::Reference(RefFault::Memory)),
        },
        Err(fault) => Err(refusal_of(layout, reference, fault)),
    }
}

/// Returns the key that a reference names, which resolves to this key.
fn named_key<D: Dir>(layout: &Layout<D>, reference: &str, key: Key) -> Result<Key, NoMemory>
    requires resolved { Resolves (keys_of layout.now.graph) layout.now.tags reference.now key }
    requires there { has_key layout.now.graph key ≡ true }
    ensures found { IfOk result
        (Names (keys_of layout.now.graph) layout.now.tags reference.now) }
    ensures there { IfOk result (λ named. has_key layout.now.graph named ≡ true) }
{
    if is_manifest(&key) {
        return Ok(key);
    }
    if is_tag(layout, reference)? {
        return Ok(key);
    }
    let manifests = held_manifests(key.allocator(), layout)?;
    match least_with(&manifests, key.digest()) {
        Some(manifest) => manifest.try_clone(),
        None => Ok(key),
    }
}

/// Returns whether a layout has a tag with this name.
fn is_tag<D: Dir>(layout: &Layout<D>, name: &str) -> Result<bool, NoMemory>
    ensures { IfOk result (λ found. found ≡ is_some (tag_at layout.now.tags name.now)) }
{
    let tags = layout.tags()?;
    Ok(has_tag(&tags, name))
}

/// Returns whether one of these tags has this name.
fn has_tag(tags: &[(String, Key)], name: &str) -> bool
    ensures { result ≡ list_any (λ t. bytes_eq name.now (string_bytes t.0)) tags.now }
{
    tags.iter().any(|tag| name == tag.0.as_str())
}

/// Returns the held keys of a layout that are of a manifest kind.
fn held_manifests<D: Dir>(alloc: Global, layout: &Layout<D>) -> Result<Vec<Key>, NoMemory>
    ensures { IfOk result (λ manifests. manifests.items
        ≡ manifests_of (keys_of layout.now.graph)) }
{
    let mut manifests = Vec::new(alloc);
    for place in 0..layout.count() {
        let Some(key) = layout.key(place) else {
            unreachable!();
        };
        add_manifest(key, &mut manifests)?;
    }
    Ok(manifests)
}

/// Adds a key, if it is of a manifest kind.
fn add_manifest(key: &Key, manifests: &mut Vec<Key>) -> Result<(), NoMemory>
    ensures { OnOk result (manifests.new.items
        ≡ manifests.old.items ++ manifests_of (key.now ∷ [])) }
{
    if is_manifest(key) {
        manifests.push(key.try_clone()?)?;
    }
    Ok(())
}

/// Returns whether a key is of a manifest kind.
fn is_manifest(key: &Key) -> bool
    ensures { result ≡ is_manifest (kind_of key.now.media_type) }
{
    !matches!(Kind::of(key.media_type()), Kind::Leaf)
}

/// Returns why a reference is refused that does not resolve, for this reason.
fn refusal_of<D: Dir>(layout: &Layout<D>, reference: &str, fault: RefFault) -> ProgramFault
    requires { IsUnresolved layout.now.graph layout.now.tags reference.now fault }
    ensures { IsReferenceFault (D.device layout.now.dir) layout.now reference.now result }
{
    match fault {
        RefFault::UnknownReference => refusal_of_unknown(layout, reference),
        fault => ProgramFault::Reference(fault),
    }
}

/// Returns why a reference is refused that is unknown: the last entry of the name is no descriptor,
/// or something is wrong with the file that the reference names.
fn refusal_of_unknown<D: Dir>(layout: &Layout<D>, reference: &str) -> ProgramFault
    requires { IsUnresolved layout.now.graph layout.now.tags reference.now
        RefFault.UnknownReference }
    ensures { IsReferenceFault (D.device layout.now.dir) layout.now reference.now result }
{
    match unreadable_place(layout.entries(), reference) {
        Some(place) => ProgramFault::Layout(unreadable_entry(place)),
        None => refusal_of_file(layout, reference),
    }
}

/// Returns why a reference is refused that is unknown, whose last entry is a descriptor if it has
/// one: what is wrong with the file of the damaged key that it names, if something still is.
fn refusal_of_file<D: Dir>(layout: &Layout<D>, reference: &str) -> ProgramFault
    requires unknown { IsUnresolved layout.now.graph layout.now.tags reference.now
        RefFault.UnknownReference }
    requires readable { last_key reference.now (said layout.now.opened.content).entries
        ≢ Some None }
    ensures { IsReferenceFault (D.device layout.now.dir) layout.now reference.now result }
{
    let Some(key) = damaged_key(layout, reference) else {
        return ProgramFault::Reference(RefFault::UnknownReference);
    };
    match layout.check_file(key) {
        Ok(()) => ProgramFault::Reference(RefFault::UnknownReference),
        Err(fault) => ProgramFault::Layout(fault),
    }
}

/// Returns the damaged key that a reference names.
fn damaged_key<'l, D: Dir>(layout: &'l Layout<D>, reference: &str) -> Option<&'l Key>
    ensures { NamesDamaged layout.now.opened reference.now (option_copied result) }
{
    match last_entry(layout.entries(), reference) {
        Some((_place, entry)) => damaged_in(layout.damaged(), &entry.key),
        None => with_digest(layout.damaged(), reference),
    }
}

/// Returns the place of the last entry with a name, if that one is no descriptor.
fn unreadable_place(entries: &[IndexEntry], name: &str) -> Option<usize>
    ensures { MatchOption result (last_key name.now (map entry_of entries.now) ≢ Some None)
        (NamesUnreadable (map entry_of entries.now) name.now) }
{
    let (place, entry) = last_entry(entries, name)?;
    match &entry.key {
        Some(_) => None,
        None => Some(place),
    }
}

/// Returns the last entry with a name, and its place.
fn last_entry<'l>(entries: &'l [IndexEntry], name: &str) -> Option<(usize, &'l IndexEntry)>
    ensures place { option_map (λ last. last.0) result
        ≡ last_place name.now (map entry_of entries.now) }
    ensures entry { option_map (λ last. entry_of last.1.now) result
        ≡ last_entry name.now (map entry_of entries.now) }
{
    let place = last_place(entries, name)?;
    let entry = entries.get(place)?;
    Some((place, entry))
}

/// Returns the place of the last entry with a name.
fn last_place(entries: &[IndexEntry], name: &str) -> Option<usize>
    ensures { result ≡ last_place name.now (map entry_of entries.now) }
{
    let mut last = None;
    for (place, entry) in entries.iter().enumerate() {
        if is_named(entry, name) {
            last = Some(place);
        }
    }
    last
}

/// Returns whether an entry has a name.
fn is_named(entry: &IndexEntry, name: &str) -> bool
    ensures { result ≡ is_name name.now (text_of entry.now.name) }
{
    match &entry.name {
        Some(other) => name == other.as_str(),
        None => false,
    }
}

/// Returns the key of an entry if it is one of these.
fn damaged_in<'l>(damaged: &[Key], key: &'l Option<Key>) -> Option<&'l Key>
    ensures { option_copied result ≡ damaged_in damaged.now key.now }
{
    match key {
        Some(key) => if_among(damaged, key),
        None => None,
    }
}

/// Returns a key if it is one of these.
fn if_among<'l>(keys: &[Key], key: &'l Key) -> Option<&'l Key>
    ensures { option_copied result ≡ damaged_in keys.now (Some key.now) }
{
    if keys.contains(key) { Some(key) } else { None }
}

/// Returns the least of these keys that has the digest with this text, if it is that of one.
fn with_digest<'l>(keys: &'l [Key], text: &str) -> Option<&'l Key>
    ensures { MatchBool (is_digest text.now)
        (IsLeastOf keys.now text.now (option_copied result)) (option_copied result ≡ None) }
{
    match Digest::parse(text) {
        Ok(digest) => least_with(keys, &digest),
        Err(_) => None,
    }
}

/// Returns the least of these keys that has this digest.
fn least_with<'l>(keys: &'l [Key], digest: &Digest) -> Option<&'l Key>
    ensures { IsLeastOf keys.now digest.now (option_copied result) }
{
    let mut least = None;
    for key in keys {
        if comes_first(key, digest, least) {
            least = Some(key);
        }
    }
    least
}

/// Returns whether a key has this digest and is less than another one, if there is another.
fn comes_first(key: &Key, digest: &Digest, other: Option<&Key>) -> bool
    ensures { result ≡ comes_first key.now digest.now (option_copied other.entry) }
{
    match other {
        Some(other) => key.digest() == digest && key < other,
        None => key.digest() == digest,
    }
}
