ghost use Rattle.std.specs.Prelude.{◌≡◌, ◌⊎◌, ℕ, true, List, Some, OnOk};
ghost use mathlib.Core.List.{IsPrefix};
ghost use Rattle.oci_manifest.specs.Descriptor.{Descriptor};
ghost use Rattle.oci_store.specs.Copied.{Agree};
ghost use Rattle.oci_store.specs.Graph.{nodes_of, Reaches};
ghost use Rattle.oci_store.specs.Keyed.{value_at, has_key};

use oci_copy::{CopyFault, Options, Report, copy_graph};
use oci_live::{LiveStore, Look};
use oci_manifest::Key;
use oci_pool::Hooks;
use oci_store::MemoryStore;
use std::alloc::Global;
use std::sync::Wait;
use std::thread::Threads;

/// Copies into a live store by workers. Afterwards the look sees all that the store has published.
///
/// If the copy succeeds, and source and store agree, the look's list has everything that the store
/// held and everything that the source reaches from the roots. So has every list that it shows from
/// then on, since these begin with this one.
pub fn copy_and_tell<T: Threads + Wait + Sync, R: Wait + Drop + Send, H: Hooks + Sync>(
    rt: &T,
    alloc: Global,
    source: &MemoryStore,
    live: LiveStore<R>,
    look: &mut Look,
    roots: &[Key],
    options: &Options,
    hooks: &H,
) -> (LiveStore<R>, Result<Report, CopyFault>)
    requires name { look.old.name ≡ live.name }
    ensures name { (result.0.name ≡ live.name) × (look.new.name ≡ look.old.name) }
    ensures later { IsPrefix look.old.entries look.new.entries }
    ensures told { IsPrefix result.0.entries look.new.entries }
    ensures copied { OnOk result.1 (Agree source.now.entries live.entries
        → (k : Descriptor) (bytes : List ℕ)
        → (value_at live.entries k ≡ Some bytes)
        ⊎ ((value_at source.now.entries k ≡ Some bytes)
        × Reaches (nodes_of source.now.entries) roots.now k)
        → value_at look.new.entries k ≡ Some bytes) }
    ensures reached { OnOk result.1 (Agree source.now.entries live.entries → (k : Descriptor)
        → Reaches (nodes_of source.now.entries) roots.now k → has_key look.new.entries k ≡ true) }
{
    let (live, copied) = copy_graph(rt, alloc, source, live, roots, options, hooks);
    look.learn(&live.note());
    (live, copied)
}
