//! What a mirror is to leave in its destination.
ghost use Rattle.std.specs.Prelude.{◌≡◌, ◌≢◌, ◌++◌, [], ℕ, true, List, IfOk, OnOk};
ghost use Rattle.std.specs.List.{All};
ghost use Rattle.std.specs.Map.{keys_of};
ghost use Rattle.oci_store.specs.Keyed.{has_key, HasAll};
ghost use Rattle.oci_store.specs.Tags.{by_bytes};
ghost use Rattle.oci_layout_copy.specs.Goal.{Fits, IsGoal};
ghost use Rattle.oci_selection.specs.Selected.{AreOfRoots};

use crate::kept::KeptTags;
use oci_digest::NoMemory;
use oci_dir::Dir;
use oci_entries::matching_entries;
use oci_layout_store::Layout;
use oci_manifest::Key;
use oci_program::ProgramFault;
use oci_prune_fault::PruneFault;
use oci_selection::{Selected, both, named_keys};
use oci_store::Dest;
use std::alloc::Global;
use std::marker::Model;

/// The keys that the prune of a mirror starts from, and the tags that the destination then has, each
/// of one of these keys.
#[derive(Drop)]
pub struct Goal {
    roots: Vec<Key>,
    tags: Vec<(String, Key)>,
}

impl Model for Goal {
    ghost use Rattle.std.specs.Coded.{codes};
    ghost use Rattle.oci_store.specs.Tags.{by_bytes};
    ghost use Rattle.oci_layout_copy.specs.Goal.{Goal};
    ghost use Rattle.oci_selection.specs.Selected.{AreOfRoots};

    ghost Value = { Goal };

    ghost coded = { Prim.hlevel codes };

    ghost view = { λ g. (g.roots.items, by_bytes g.tags.items) };

    ghost invariant = { λ g. AreOfRoots g.roots.items (by_bytes g.tags.items) };
}

impl Goal {
    /// Creates the goal of a mirror that selects these roots and tags, and keeps these tags of its
    /// destination. The destination has forgotten the other entries with a name.
    ///
    /// # Errors
    ///
    /// - 96 `Unknown` if the blob of a remembered entry with a name is missing or damaged: for one of
    ///   them.
    /// - Out of memory.
    pub(crate) fn of<D: Dir>(
        alloc: Global,
        destination: &Layout<D>,
        selected: &Selected,
        kept: KeptTags,
    ) -> Result<Goal, ProgramFault>
        requires { All (λ (name : List ℕ). name ≢ []) (keys_of (by_bytes kept.tags.items)) }
        ensures exact { IfOk result (IsGoal destination.now (selected.now.0, selected.now.1)
            (by_bytes kept.tags.items) kept.attached.items) }
        ensures fits { IfOk result (λ goal. Fits destination.now selected.now.0 goal.0) }
    {
        let KeptTags { tags, attached } = kept;
        let named = matching_entries(alloc, destination.entries(), &[])?;
        let own = named_keys(alloc, &tags, &named)?;
        let keys = both(alloc, &own, &attached)?;
        check_all_held(destination, &keys)?;
        let roots = both(alloc, selected.roots(), &keys)?;
        let tags = with_copies(tags, selected.tags())?;
        Ok(Goal { roots, tags })
    }

    /// Returns the keys that the prune starts from, each once.
    pub(crate) fn roots(&self) -> &[Key]
        ensures { result.now ≡ self.now.0 }
    {
        &self.roots
    }

    /// Returns the tags that the destination then has, and the root that each names.
    pub(crate) fn tags(&self) -> &[(String, Key)]
        ensures tags { by_bytes result.now ≡ self.now.1 }
        ensures of_roots { AreOfRoots self.now.0 self.now.1 }
    {
        &self.tags
    }
}

/// Refuses the first of these keys that a layout does not hold.
fn check_all_held<D: Dir>(layout: &Layout<D>, keys: &[Key]) -> Result<(), ProgramFault>
    ensures { OnOk result (HasAll layout.now.graph keys.now) }
{
    for key in keys {
        check_held(layout, key)?;
    }
    Ok(())
}

/// Refuses a key that a layout does not hold.
fn check_held<D: Dir>(layout: &Layout<D>, key: &Key) -> Result<(), ProgramFault>
    ensures { OnOk result (has_key layout.now.graph key.now ≡ true) }
{
    if layout.has(key) {
        return Ok(());
    }
    Err(ProgramFault::Prune(PruneFault::Unknown(key.try_clone()?)))
}

/// Returns tags, and after them copies of others.
fn with_copies(
    tags: Vec<(String, Key)>,
    others: &[(String, Key)],
) -> Result<Vec<(String, Key)>, NoMemory>
    ensures { IfOk result (λ all. by_bytes all.items
        ≡ by_bytes tags.items ++ by_bytes others.now) }
{
    let mut all = tags;
    for (name, key) in others {
        all.push((name.clone()?, key.try_clone()?))?;
    }
    Ok(all)
}
