ghost use Rattle.std.specs.Prelude.{◌≡◌, ◌≤◌, true, false, map, Some, option_map, option_copied, string_bytes, IfErr, IfOk, OnOk};
ghost use Rattle.std.specs.List.{list_any};
ghost use Rattle.std.specs.Str.{bytes_eq};
ghost use Rattle.serde_json.specs.Data.{depth};
ghost use Rattle.serde_json.specs.View.{view, items_view};
ghost use Rattle.oci_manifest.specs.MediaTypes.{kind_of};
ghost use Rattle.oci_manifest.specs.Reading.{reading};
ghost use Rattle.oci_store.specs.Keyed.{has_key};
ghost use Rattle.oci_layout_store.specs.Entries.{entry_of, name_of, text_of};
ghost use Rattle.oci_reference.specs.Platform.{
  entry_for,
  first_for,
  is_index,
  is_text,
  joined,
  key_for,
  listed_by,
  manifests_in,
  picked_of,
  platform_of,
  platform_text,
  platforms_in,
  short_platform,
  states,
  with_platform,
  with_variant,
  IsNoJson,
  IsNoPlatform,
  IsNotHeld,
  IsPickFault,
  IsUnreadIndex,
};

use oci_digest::NoMemory;
use oci_dir::Dir;
use oci_layout_store::{IndexEntry, Layout, LayoutFault};
use oci_manifest::{Key, Kind, ManifestFault, key_of, read_json};
use oci_program::ProgramFault;
use oci_prune_fault::PruneFault;
use oci_store::Source;
use serde_json::Value;
use std::alloc::Global;

mod listed;

pub use listed::listed_platforms;

/// The descriptor that was picked from an index.
pub struct Picked {
    /// The key of the descriptor.
    pub key: Key,
    /// The descriptor as it stands in the index, with all its members.
    pub descriptor: Value,
}

/// Written out, so that a proof has one call where it is dropped.
impl Drop for Picked {
    fn drop(self) {
        let Picked {
            key: _key,
            descriptor: _descriptor,
        } = self;
    }
}

impl Picked {
    /// Returns the key, and the descriptor as an entry of an image layout's index.
    ///
    /// # Errors
    ///
    /// `NoMemory` if memory runs out.
    pub fn into_entry(self) -> Result<(Key, IndexEntry), NoMemory>
        ensures key { IfOk result (λ parts. parts.0 ≡ self.key) }
        ensures entry { IfOk result (λ parts. entry_of parts.1 ≡ entry_for (picked_of self)) }
    {
        let Picked { key, descriptor } = self;
        let copy = key.try_clone()?;
        let name = name_of(key.allocator(), &descriptor)?;
        let entry = IndexEntry {
            key: Some(copy),
            name,
            value: descriptor,
        };
        Ok((key, entry))
    }
}

/// Returns the name that a descriptor states, if it states one.
fn name_of(alloc: Global, descriptor: &Value) -> Result<Option<String>, NoMemory>
    ensures { IfOk result (λ name. text_of name ≡ name_of (view descriptor.now)) }
{
    match stated_name(descriptor) {
        Some(name) => Ok(Some(String::from_str(alloc, name)?)),
        None => Ok(None),
    }
}

/// Returns the annotation of a descriptor that names it in an index.
#[tactic(auto, unfolding(oci_layout_store::specs::Entries::name_of))]
fn stated_name<'v>(descriptor: &'v Value) -> Option<&'v str>
    ensures { option_copied result ≡ name_of (view descriptor.now) }
{
    descriptor
        .get("annotations")?
        .get("org.opencontainers.image.ref.name")?
        .as_str()
}

/// Picks the manifest of an index for a platform: the first descriptor of its `manifests` that states
/// the platform (OCI image specification 1.1, image-index.md, `platform`). `platform` is `OS/ARCH`,
/// for any variant, or `OS/ARCH/VARIANT`. Indexes that the index lists are not looked into.
///
/// # Errors
///
/// - 107 `NoPlatform` with the platforms that the index states, each once, if no descriptor of it
///   states this one. With no platforms if the key is of another kind than an index.
/// - 75 `Corrupt` or 77 `BadManifest` if the layout does not hold the manifest since its file is
///   damaged; then also 74 `Device` if the file cannot be read.
/// - 96 `Unknown` if the layout does not hold the manifest otherwise.
/// - 20 to 22 if the index cannot be fetched, and 77 `BadManifest` if it is not JSON.
/// - Out of memory, at any point.
pub fn pick_platform<D: Dir>(
    layout: &Layout<D>,
    key: &Key,
    platform: &str,
) -> Result<Picked, ProgramFault>
    // If the directory returns what was written into it, the first descriptor is picked.
    ensures first { IfOk result (λ picked. (D.device layout.now.dir).is_honest
        → first_for platform.now (listed_by (D.device layout.now.dir).file layout.now.graph key.now)
        ≡ Some (picked_of picked)) }
    ensures held { IfOk result (λ picked. has_key layout.now.graph picked.key ≡ true) }
    // It is not nested too deeply to be an entry of an index.
    ensures shallow { IfOk result (λ picked. depth (view picked.descriptor) ≤ 125) }
    ensures refused { IfErr result
        (IsPickFault (D.device layout.now.dir) layout.now.graph key.now platform.now) }
{
    let alloc = key.allocator();
    if !is_index(key) {
        return Err(no_platform(alloc, &[], platform)?);
    }
    let index = index_of(layout, key)?;
    let listed = manifests_in(&index);
    match first_for(alloc, listed, platform)? {
        Some(picked) => if_held(layout, picked),
        None => Err(no_platform(alloc, listed, platform)?),
    }
}

/// Returns the JSON of an index of a layout.
fn index_of<D: Dir>(layout: &Layout<D>, key: &Key) -> Result<Value, ProgramFault>
    requires { is_index (kind_of key.now.media_type) ≡ true }
    ensures listed { IfOk result (λ index. (D.device layout.now.dir).is_honest
        → manifests_in (view index)
        ≡ listed_by (D.device layout.now.dir).file layout.now.graph key.now) }
    ensures shallow { IfOk result (λ index. depth (view index) ≤ 127) }
    ensures refused { IfErr result
        (IsUnreadIndex (D.device layout.now.dir) layout.now.graph key.now) }
{
    match layout.fetch(key) {
        Ok(bytes) => json_of(key, bytes.as_slice()),
        Err(fault) => Err(ProgramFault::Fetch(fault)),
    }
}

/// Returns whether a key is of an index.
pub(crate) fn is_index(key: &Key) -> bool
    ensures { result ≡ is_index (kind_of key.now.media_type) }
{
    matches!(Kind::of(key.media_type()), Kind::Index | Kind::DockerList)
}

/// Returns the JSON in the bytes of a key.
pub(crate) fn json_of(key: &Key, bytes: &[u8]) -> Result<Value, ProgramFault>
    ensures read { IfOk result (λ value. reading bytes.now ≡ Some (view value)) }
    ensures refused { IfErr result (IsNoJson key.now bytes.now) }
{
    match read_json(key.allocator(), bytes) {
        Ok(value) => Ok(value),
        Err(ManifestFault::NotJson) => Err(no_json(key.try_clone()?)),
        Err(_) => Err(ProgramFault::Memory),
    }
}

/// Returns the fault of a manifest that is not JSON.
fn no_json(key: Key) -> ProgramFault
    ensures { result ≡ ProgramFault.Layout (LayoutFault.BadManifest key ManifestFault.NotJson) }
{
    ProgramFault::Layout(LayoutFault::BadManifest(key, ManifestFault::NotJson))
}

/// Returns what was picked if a layout holds it.
fn if_held<D: Dir>(layout: &Layout<D>, picked: Picked) -> Result<Picked, ProgramFault>
    ensures same { IfOk result (λ held. held ≡ picked) }
    ensures held { IfOk result (λ held. has_key layout.now.graph held.key ≡ true) }
    ensures refused { IfErr result
        (IsNotHeld (D.device layout.now.dir) layout.now.graph picked.key) }
{
    if layout.exists(&picked.key) {
        return Ok(picked);
    }
    Err(not_held(layout, &picked.key)?)
}

/// Returns why a key is refused that a layout does not hold: what is wrong with its file, if
/// something is.
fn not_held<D: Dir>(layout: &Layout<D>, key: &Key) -> Result<ProgramFault, NoMemory>
    requires { has_key layout.now.graph key.now ≡ false }
    ensures { IfOk result (IsNotHeld (D.device layout.now.dir) layout.now.graph key.now) }
{
    match layout.check_file(key) {
        Ok(()) => Ok(ProgramFault::Source(PruneFault::Unknown(key.try_clone()?))),
        Err(fault) => Ok(ProgramFault::Layout(fault)),
    }
}

/// Returns the fault of a platform that none of these elements states.
fn no_platform(alloc: Global, listed: &[Value], platform: &str) -> Result<ProgramFault, NoMemory>
    ensures { IfOk result (IsNoPlatform (items_view listed.now) platform.now) }
{
    let asked = String::from_str(alloc, platform)?;
    Ok(ProgramFault::NoPlatform(asked, platforms_in(alloc, listed)?))
}

/// Returns the elements of an index's `manifests`.
#[tactic(auto, unfolding(crate::specs::Platform::manifests_in))]
pub(crate) fn manifests_in(index: &Value) -> &[Value]
    ensures { items_view result.now ≡ manifests_in (view index.now) }
{
    match index.get("manifests").and_then(Value::as_array) {
        Some(elements) => elements.as_slice(),
        None => &[],
    }
}

/// Returns the first of these elements that is a descriptor and states the platform.
fn first_for(alloc: Global, elements: &[Value], platform: &str) -> Result<Option<Picked>, NoMemory>
    ensures { IfOk result (λ found. option_map picked_of found
        ≡ first_for platform.now (items_view elements.now)) }
{
    for element in elements {
        if let Some(key) = key_for(alloc, element, platform)? {
            let descriptor = element.clone()?;
            return Ok(Some(Picked { key, descriptor }));
        }
    }
    Ok(None)
}

/// Returns the key of an element, if it is a descriptor and states the platform.
fn key_for(alloc: Global, element: &Value, platform: &str) -> Result<Option<Key>, NoMemory>
    ensures { IfOk result (λ key. key ≡ key_for platform.now (view element.now)) }
{
    if states(alloc, element, platform)? {
        key_of(alloc, element)
    } else {
        Ok(None)
    }
}

/// Returns whether a descriptor states the platform.
fn states(alloc: Global, descriptor: &Value, platform: &str) -> Result<bool, NoMemory>
    ensures { IfOk result (λ found. found ≡ states platform.now (view descriptor.now)) }
{
    let short = short_platform(alloc, descriptor)?;
    let whole = platform_of(alloc, descriptor)?;
    Ok(is_text(platform, &short) || is_text(platform, &whole))
}

/// Returns whether a text is this one.
fn is_text(text: &str, other: &Option<String>) -> bool
    ensures { result ≡ is_text text.now (option_map string_bytes other.now) }
{
    match other {
        Some(other) => text == other.as_str(),
        None => false,
    }
}

/// Returns the platforms that these elements state, in their order, each once.
fn platforms_in(alloc: Global, elements: &[Value]) -> Result<Vec<String>, NoMemory>
    ensures { IfOk result (λ platforms. map string_bytes platforms.items
        ≡ platforms_in (items_view elements.now)) }
{
    let mut platforms = Vec::new(alloc);
    for element in elements {
        let platform = platform_of(alloc, element)?;
        add_platform(platform, &mut platforms)?;
    }
    Ok(platforms)
}

/// Adds a platform, unless it is among those found so far.
fn add_platform(platform: Option<String>, platforms: &mut Vec<String>) -> Result<(), NoMemory>
    ensures { OnOk result (map string_bytes platforms.new.items
        ≡ with_platform (map string_bytes platforms.old.items)
        (option_map string_bytes platform)) }
{
    let Some(platform) = platform else {
        return Ok(());
    };
    if !has_text(platforms, &platform) {
        platforms.push(platform)?;
    }
    Ok(())
}

/// Returns whether a text is among these.
fn has_text(texts: &[String], text: &str) -> bool
    ensures { result ≡ list_any (λ other. bytes_eq text.now (string_bytes other)) texts.now }
{
    texts.iter().any(|other| text == other.as_str())
}

/// Returns the platform that a descriptor states: OS/ARCH/VARIANT, or OS/ARCH if it has no variant.
#[tactic(auto, unfolding(crate::specs::Platform::platform_of))]
pub(crate) fn platform_of(alloc: Global, descriptor: &Value) -> Result<Option<String>, NoMemory>
    ensures { IfOk result (λ found. option_map string_bytes found
        ≡ platform_of (view descriptor.now)) }
{
    match short_platform(alloc, descriptor)? {
        Some(short) => {
            let variant = platform_text(descriptor, "variant");
            Ok(Some(with_variant(alloc, variant, short)?))
        }
        None => Ok(None),
    }
}

/// Returns a text, and the variant if there is one.
fn with_variant(alloc: Global, variant: Option<&str>, short: String) -> Result<String, NoMemory>
    ensures { IfOk result (λ text. string_bytes text
        ≡ with_variant (option_copied variant.entry) (string_bytes short)) }
{
    match variant {
        Some(variant) => joined(alloc, &short, variant),
        None => Ok(short),
    }
}

/// Returns OS/ARCH of the platform that a descriptor states.
#[tactic(auto, unfolding(crate::specs::Platform::short_platform))]
fn short_platform(alloc: Global, descriptor: &Value) -> Result<Option<String>, NoMemory>
    ensures { IfOk result (λ found. option_map string_bytes found
        ≡ short_platform (view descriptor.now)) }
{
    let Some(os) = platform_text(descriptor, "os") else {
        return Ok(None);
    };
    let Some(architecture) = platform_text(descriptor, "architecture") else {
        return Ok(None);
    };
    Ok(Some(joined(alloc, os, architecture)?))
}

/// Returns two texts with a slash between them.
#[tactic(auto, unfolding(crate::specs::Platform::joined))]
fn joined(alloc: Global, front: &str, rest: &str) -> Result<String, NoMemory>
    ensures { IfOk result (λ text. string_bytes text ≡ joined front.now rest.now) }
{
    Ok(format!(in alloc; "{front}/{rest}")?)
}

/// Returns the text of a member of a descriptor's `platform`.
#[tactic(auto, unfolding(crate::specs::Platform::platform_text))]
fn platform_text<'v>(descriptor: &'v Value, name: &str) -> Option<&'v str>
    ensures { option_copied result ≡ platform_text name.now (view descriptor.now) }
{
    descriptor.get("platform")?.get(name)?.as_str()
}
