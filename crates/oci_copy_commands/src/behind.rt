//! What a copy leaves in its source, and its destination lacks.
ghost use Rattle.std.specs.Prelude.{◌≡◌, ◌≢◌, ◌↔◌, [], not, None, is_some, filter, IfOk, IfErr, IsTrue};
ghost use Rattle.oci_layout_store.specs.Blobs.{blob_path};
ghost use Rattle.oci_layout_store.specs.Meaning.{meaning};
ghost use Rattle.oci_prune.specs.Plan.{roots_of};
ghost use Rattle.oci_store.specs.Keyed.{has_key};
ghost use Rattle.oci_copy_commands.specs.Behind.{
  AreAttachedLeft,
  ArePassedLayers,
  AreUntaggedLeft,
  IsLeftBehind,
  IsUnknownFile,
  IsUnreadBehind,
  IsUnreadLayers,
  IsUnreadSource,
  SelectsAll,
};

use oci_command_line::{CopyWords, Selection};
use oci_digest::NoMemory;
use oci_dir::Dir;
use oci_layout_store::{Layout, LayoutFault, blob_path};
use oci_manifest::Key;
use oci_program::{Form, ProgramFault};
use oci_prune::{belonging_of, free_keys, keys_passed_over};
use oci_selection::Selected;
use oci_store::{Source, keys_of_set};
use serde::Serialize;
use std::alloc::Global;
use std::fmt;
use std::fmt::Display;
use std::io::Write;

/// What a copy leaves in its source, and its destination lacks. `Display` prints a line for stderr of
/// each that is not empty.
#[derive(Drop, Serialize)]
pub struct LeftBehind {
    /// The keys that are attached to what was copied, directly or not. None with `--referrers`.
    #[serde(rename = "attachedLeft", skip_serializing_if = "Vec::is_empty")]
    pub attached: Vec<Key>,
    /// The images that no tag names. None unless each tag is selected.
    #[serde(rename = "untaggedLeft", skip_serializing_if = "Vec::is_empty")]
    pub untagged: Vec<Key>,
    /// The layers that are not to be distributed, and that the destination does not have.
    #[serde(rename = "notDistributed", skip_serializing_if = "Vec::is_empty")]
    pub passed: Vec<Key>,
}

impl LeftBehind {
    /// Returns what a copy by these words leaves in a source, if it leaves this destination.
    ///
    /// # Errors
    ///
    /// - 77 `BadManifest` and 88 `Fetch` if a manifest of the source cannot be read.
    /// - 74 `Device` if it cannot be found out whether the destination has a file.
    /// - 89 `Memory` if memory runs out.
    pub(crate) fn of<S: Dir, D: Dir>(
        alloc: Global,
        source: &Layout<S>,
        destination: &Layout<D>,
        selected: &Selected,
        words: &CopyWords<'_>,
    ) -> Result<LeftBehind, ProgramFault>
        ensures left { IfOk result (IsLeftBehind S.device D.device words.now source.now
            selected.now.0 destination.now) }
        ensures cause { IfErr result (IsUnreadBehind S.device D.device source.now
            destination.now) }
    {
        let attached = attached_unless_asked(alloc, source, destination, selected, words)?;
        let untagged = untagged_if_all(alloc, source, destination, words)?;
        let passed = passed_layers(alloc, source, destination, selected.roots())?;
        Ok(LeftBehind {
            attached,
            untagged,
            passed,
        })
    }

    /// Prints as lines what was left behind. As JSON the answer has it. A line that cannot be written is
    /// dropped: the copy is done.
    pub(crate) fn tell<X: Write>(&self, form: Form, err: &mut X) {
        match form {
            Form::Lines => {
                let _ = write!(err, "{self}");
            }
            Form::Json => {}
        }
    }
}

/// Returns what is attached to the selected keys and left in a source, or nothing with `--referrers`.
fn attached_unless_asked<S: Dir, D: Dir>(
    alloc: Global,
    source: &Layout<S>,
    destination: &Layout<D>,
    selected: &Selected,
    words: &CopyWords<'_>,
) -> Result<Vec<Key>, ProgramFault>
    ensures attached { words.now.referrers ≡ None → IfOk result (λ keys.
        (S.device source.now.dir).is_honest → AreAttachedLeft (meaning (S.device source.now.dir)
        source.now.graph source.now.tags) selected.now.0 destination.now.graph keys.items) }
    ensures asked { words.now.referrers ≢ None → IfOk result (λ keys. keys.items ≡ []) }
    ensures cause { IfErr result (IsUnreadSource S.device source.now) }
{
    match words.referrers {
        Some(_) => Ok(Vec::new(alloc)),
        None => attached_left(alloc, source, destination, selected.roots()),
    }
}

/// Returns the keys that are attached in a source to what these keys reach, directly or not, and that
/// a destination does not hold.
fn attached_left<S: Dir, D: Dir>(
    alloc: Global,
    source: &Layout<S>,
    destination: &Layout<D>,
    roots: &[Key],
) -> Result<Vec<Key>, ProgramFault>
    ensures left { IfOk result (λ keys. (S.device source.now.dir).is_honest → AreAttachedLeft
        (meaning (S.device source.now.dir) source.now.graph source.now.tags) roots.now
        destination.now.graph keys.items) }
    ensures cause { IfErr result (IsUnreadSource S.device source.now) }
{
    let tags = source.tags()?;
    match belonging_of(alloc, source, roots, &tags) {
        Ok(belonging) => Ok(keys_unheld(alloc, destination, &belonging.attached)?),
        Err(fault) => Err(ProgramFault::Source(fault)),
    }
}

/// Returns the images of a source that no tag names and a destination does not hold, or nothing unless
/// each tag is selected.
fn untagged_if_all<S: Dir, D: Dir>(
    alloc: Global,
    source: &Layout<S>,
    destination: &Layout<D>,
    words: &CopyWords<'_>,
) -> Result<Vec<Key>, ProgramFault>
    ensures untagged { SelectsAll words.now.selection → IfOk result (λ keys.
        (S.device source.now.dir).is_honest → AreUntaggedLeft (meaning (S.device source.now.dir)
        source.now.graph source.now.tags) (roots_of source.now) destination.now.graph keys.items) }
    ensures picked { (SelectsAll words.now.selection → ⊥)
        → IfOk result (λ keys. keys.items ≡ []) }
    ensures cause { IfErr result (IsUnreadSource S.device source.now) }
{
    if !selects_all(&words.selection) {
        return Ok(Vec::new(alloc));
    }
    untagged_left(alloc, source, destination)
}

/// Returns the images of a source that no tag names and a destination does not hold.
fn untagged_left<S: Dir, D: Dir>(
    alloc: Global,
    source: &Layout<S>,
    destination: &Layout<D>,
) -> Result<Vec<Key>, ProgramFault>
    ensures left { IfOk result (λ keys. (S.device source.now.dir).is_honest → AreUntaggedLeft
        (meaning (S.device source.now.dir) source.now.graph source.now.tags) (roots_of source.now)
        destination.now.graph keys.items) }
    ensures cause { IfErr result (IsUnreadSource S.device source.now) }
{
    match free_keys(alloc, source) {
        Ok(free) => {
            let free = keys_of_set(alloc, &free)?;
            Ok(keys_unheld(alloc, destination, &free)?)
        }
        Err(fault) => Err(ProgramFault::Source(fault)),
    }
}

/// Returns the layers that a copy of these keys passes over, since they are not to be distributed, and
/// that a destination does not have.
fn passed_layers<S: Dir, D: Dir>(
    alloc: Global,
    source: &Layout<S>,
    destination: &Layout<D>,
    roots: &[Key],
) -> Result<Vec<Key>, ProgramFault>
    ensures passed { IfOk result (λ keys. (S.device source.now.dir).is_honest
        → (D.device destination.now.dir).is_honest → ArePassedLayers
        (meaning (S.device source.now.dir) source.now.graph source.now.tags) roots.now
        (D.device destination.now.dir).file keys.items) }
    ensures cause { IfErr result (IsUnreadLayers S.device D.device source.now destination.now) }
{
    match keys_passed_over(alloc, source, roots) {
        Ok(keys) => keys_without_file(alloc, destination, &keys),
        Err(fault) => Err(ProgramFault::Source(fault)),
    }
}

/// Returns those of these keys of which a layout has no file.
fn keys_without_file<D: Dir>(
    alloc: Global,
    layout: &Layout<D>,
    keys: &[Key],
) -> Result<Vec<Key>, ProgramFault>
    ensures without { IfOk result (λ without. (D.device layout.now.dir).is_honest
        → without.items ≡ filter
        (λ k. not (is_some ((D.device layout.now.dir).file (blob_path k.digest)))) keys.now) }
    ensures cause { IfErr result (IsUnknownFile (D.device layout.now.dir)) }
{
    let mut without = Vec::new(alloc);
    for key in keys {
        if has_file(alloc, layout, key)? {
            continue;
        }
        without.push(key.try_clone()?)?;
    }
    Ok(without)
}

/// Returns whether a layout has a file of a key's digest.
fn has_file<D: Dir>(alloc: Global, layout: &Layout<D>, key: &Key) -> Result<bool, ProgramFault>
    ensures found { IfOk result (λ found. (D.device layout.now.dir).is_honest
        → found ≡ is_some ((D.device layout.now.dir).file (blob_path key.now.digest))) }
    ensures cause { IfErr result (IsUnknownFile (D.device layout.now.dir)) }
{
    let path = blob_path(alloc, key.digest())?;
    match layout.dir().exists(&path) {
        Ok(found) => Ok(found),
        Err(fault) => Err(ProgramFault::Destination(LayoutFault::from(fault))),
    }
}

/// Returns whether each tag is selected, whatever its name is.
fn selects_all(selection: &Selection<'_>) -> bool
    ensures { IsTrue result ↔ SelectsAll selection.now }
{
    match selection {
        Selection::Reference { .. } => false,
        Selection::AllTags { patterns } => patterns.is_empty(),
    }
}

/// Returns those of these keys that a store does not hold.
fn keys_unheld<S: Source>(alloc: Global, store: &S, keys: &[Key]) -> Result<Vec<Key>, NoMemory>
    ensures { IfOk result (λ unheld. unheld.items
        ≡ filter (λ k. not (has_key (S.state store.now).nodes k)) keys.now) }
{
    let mut unheld = Vec::new(alloc);
    for key in keys {
        if holds(store, key) {
            continue;
        }
        unheld.push(key.try_clone()?)?;
    }
    Ok(unheld)
}

/// Returns whether a store holds a key.
fn holds<S: Source>(store: &S, key: &Key) -> bool
    ensures { result ≡ has_key (S.state store.now).nodes key.now }
{
    store.exists(key)
}

impl Display for LeftBehind {
    fn fmt<W: fmt::Write>(&self, f: &mut fmt::Formatter<W>) -> fmt::Result {
        match self.attached.len() {
            0 => {}
            1 => writeln!(
                f,
                "ocicp: note: 1 manifest that is attached to it stays in SRC (--referrers brings it)"
            )?,
            count => writeln!(
                f,
                "ocicp: note: {count} manifests that are attached to it stay in SRC (--referrers brings them)"
            )?,
        }
        match self.untagged.len() {
            0 => {}
            1 => writeln!(
                f,
                "ocicp: note: 1 image without a tag stays in SRC (copy --all --untagged brings it)"
            )?,
            count => writeln!(
                f,
                "ocicp: note: {count} images without a tag stay in SRC (copy --all --untagged brings them)"
            )?,
        }
        match self.passed.len() {
            0 => Ok(()),
            1 => writeln!(
                f,
                "ocicp: note: 1 layer that is not to be distributed was not copied"
            ),
            count => writeln!(
                f,
                "ocicp: note: {count} layers that are not to be distributed were not copied"
            ),
        }
    }
}
