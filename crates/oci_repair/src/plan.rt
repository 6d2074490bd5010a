ghost use Rattle.std.specs.Prelude.{◌≡◌, ◌∷◌, ◌++◌, [], option_map, IfOk, IfErr, OnOk};
ghost use Rattle.std.specs.BTreeSet.{contains};
ghost use Rattle.oci_layout_store.specs.Entries.{entry_keys, said};
ghost use Rattle.oci_layout_store.specs.Opened.{IsOpenedAsIs};
ghost use Rattle.oci_manifest.specs.Descriptor.{Descriptor, is_among, key_cmp};
ghost use Rattle.oci_store.specs.Visiting.{with_keys};
ghost use Rattle.oci_verify.specs.Corrupt.{AreCorrupt};
ghost use Rattle.oci_repair.specs.Fault.{IsSearchFault};
ghost use Rattle.oci_repair.specs.Planned.{links_of, mend_at, missing_at, place_of, IsPlan};
ghost use Rattle.oci_repair.specs.Sources.{files_in, AnyFails, AreHonest};

use crate::fault::RepairFault;
use crate::search::{Found, find};
use crate::source::RepairSource;
use oci_digest::NoMemory;
use oci_dir::Dir;
use oci_layout_store::Layout;
use oci_manifest::Key;
use oci_store::{KeyList, PartWatcher};
use std::alloc::Global;
use std::collections::BTreeSet;

/// What a repair of a layout will do.
#[derive(Drop)]
pub struct RepairPlan {
    /// The keys that the layout lacks or has damaged, each with the place of the first source that
    /// has its file whole, counted from 0, in the order in which they were reached.
    pub mends: Vec<(Key, usize)>,
    /// The keys that neither the layout nor a source has whole, in the order in which they were
    /// reached.
    pub missing: Vec<Key>,
    /// How many keys were reached.
    pub reached: usize,
}

/// Plans the repair of a layout that was opened as it is. Walks from the keys of its entries along
/// what the first whole file of each key lists, in the layout or else in the sources. Changes
/// nothing.
///
/// `corrupt` has the keys whose files in the layout are damaged or do not match, as
/// [`corrupt_keys`](oci_verify::corrupt_keys) returns them. The files of the other held keys are
/// not read again. The watcher is told of each part of a leaf that was read.
///
/// # Errors
///
/// - 22 [`RepairFault::Source`] if a file of a source could not be read.
/// - 74 [`RepairFault::Layout`] if a file of the layout could not be read.
/// - 63 [`RepairFault::Memory`] if memory runs out.
pub fn plan_repair<D: Dir, F: Dir, A: Dir, P: PartWatcher>(
    alloc: Global,
    layout: &Layout<D>,
    corrupt: &[Key],
    sources: &[RepairSource<F, A>],
    watcher: &P,
) -> Result<RepairPlan, RepairFault>
    ensures planned { IfOk result (λ plan. (D.device layout.now.dir).is_honest
        → AreHonest F.device A.device sources.now
        → IsOpenedAsIs (D.device layout.now.dir).file layout.now.graph layout.now.tags
        layout.now.opened
        → AreCorrupt (D.device layout.now.dir).file layout.now.graph layout.now.opened.damaged
        corrupt.now
        → IsPlan ((D.device layout.now.dir).file ∷ files_in F.device A.device sources.now)
        (entry_keys (said layout.now.opened.content).entries) plan) }
    ensures cause { IfErr result (IsSearchFault (D.device layout.now.dir)
        (AnyFails F.device A.device sources.now)) }
{
    let corrupt = set_of(alloc, corrupt)?;
    let mut visited = KeyList::new(alloc);
    visited.place_all(&layout.entry_keys()?)?;
    let mut plan = RepairPlan {
        mends: Vec::new(alloc),
        missing: Vec::new(alloc),
        reached: 0,
    };
    while plan.reached < visited.len() {
        let Some(key) = visited.get(plan.reached) else {
            unreachable!();
        };
        let key = key.try_clone()?;
        let found = find(alloc, layout, &corrupt, sources, &key, watcher)?;
        note(key, found, &mut visited, &mut plan)?;
        plan.reached += 1;
    }
    Ok(plan)
}

/// Adds a key to a plan, and the keys that it lists to the visited ones.
fn note(
    key: Key,
    found: Option<Found>,
    visited: &mut KeyList,
    plan: &mut RepairPlan,
) -> Result<(), NoMemory>
    ensures visited { OnOk result (visited.new ≡ with_keys visited.old (links_of found)) }
    ensures mends { OnOk result (plan.new.mends.items
        ≡ plan.old.mends.items ++ mend_at key (place_of found)) }
    ensures missing { OnOk result (plan.new.missing.items
        ≡ plan.old.missing.items ++ missing_at key (place_of found)) }
    ensures reached { plan.new.reached ≡ plan.old.reached }
{
    let Some(Found { place, links }) = found else {
        plan.missing.push(key)?;
        return Ok(());
    };
    visited.place_all(&links)?;
    if place > 0 {
        plan.mends.push((key, place - 1))?;
    }
    Ok(())
}

/// Returns the set of these keys.
fn set_of(alloc: Global, keys: &[Key]) -> Result<BTreeSet<Key>, NoMemory>
    ensures { IfOk result (λ set. (k : Descriptor) → contains key_cmp set k
        ≡ is_among keys.now k) }
{
    let mut set = BTreeSet::new(alloc);
    for key in keys {
        set.insert(key.try_clone()?)?;
    }
    Ok(set)
}
