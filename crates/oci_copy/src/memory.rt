ghost use Rattle.std.specs.Prelude.{IfOk, IfErr};
ghost use Rattle.oci_store.specs.Closed.{IsClosed};
ghost use Rattle.oci_store.specs.Graph.{nodes_of};
ghost use Rattle.oci_copy.specs.Cause.{IsAnswerByWorkers};
ghost use Rattle.oci_copy.specs.Memory.{IsMemoryCopy, OnlyGrowsInMemory};
ghost use Rattle.oci_copy.specs.Options.{descending};
ghost use Rattle.oci_copy.specs.Plain.{RefusedForPlan};

use crate::fault::CopyFault;
use crate::graph::copy_graph;
use crate::options::{Options, descending};
use crate::report::Report;
use crate::single::copy_one;
use oci_manifest::Key;
use oci_plan::Existing;
use oci_pool::Hooks;
use oci_store::{ClosedStore, MemoryStore};
use std::alloc::Global;
use std::sync::Wait;
use std::thread::Threads;

/// Copies from a store in memory to a closed one, on the calling thread: `copy_one` with the
/// plainest contract.
///
/// After a successful copy, if the two stores agree, the destination has exactly its earlier
/// contents and the contents that the source reaches from the roots. Each content matches its key.
/// The destination is also closed after an error.
///
/// # Errors
///
/// - 81 `Plan` with 53 `NotFound`, 54 `TooLarge`, 55 `Cycle` or 59 `TooMany`. Nothing is changed.
/// - 86 `Memory` at any point. The keys pushed before stay.
pub fn copy_memory(
    alloc: Global,
    source: &MemoryStore,
    destination: ClosedStore,
    roots: &[Key],
    options: &Options,
) -> (ClosedStore, Result<Report, CopyFault>)
    ensures copied { IfOk result.1 (IsMemoryCopy options.now.existing
        source.now roots.now destination result.0) }
    ensures grows { OnlyGrowsInMemory source.now roots.now destination result.0 result.1 }
    ensures closed { IsClosed (nodes_of result.0.entries) }
    ensures refused { IfErr result.1 (RefusedForPlan source.now.entries options.now
        (nodes_of destination.entries) roots.now) }
{
    // No-ops at run time: they bring the stores' invariants into the proof. So does the call below,
    // after the copy.
    let _readable = source.len();
    let _closed = destination.memory();
    let (destination, copied) = copy_one(alloc, source, destination, roots, options);
    let _content = destination.memory().len();
    (destination, copied)
}

/// Copies the keys that a store in memory lacks under some roots, also below the keys that it
/// holds: `copy_one` with [`Existing::Descend`] and the plainest contract. The destination need not
/// be closed.
///
/// After a successful repair, if the two stores agree, the destination has exactly its earlier
/// contents and the contents that the source reaches from the roots. Each content matches its key.
/// Keys that it lacked elsewhere are still missing. Of the options, only the maximum size of a
/// manifest is used.
///
/// # Errors
///
/// - 81 `Plan` with 53 `NotFound`, 54 `TooLarge`, 55 `Cycle` or 59 `TooMany`. Nothing is changed. A
///   key that the destination has and the source lacks is no error.
/// - 86 `Memory` at any point. The keys pushed before stay.
pub fn repair_memory(
    alloc: Global,
    source: &MemoryStore,
    destination: MemoryStore,
    roots: &[Key],
    options: &Options,
) -> (MemoryStore, Result<Report, CopyFault>)
    ensures copied { IfOk result.1 (IsMemoryCopy Existing.Descend source.now roots.now destination
        result.0) }
    ensures grows { OnlyGrowsInMemory source.now roots.now destination result.0 result.1 }
    ensures refused { IfErr result.1 (RefusedForPlan source.now.entries (descending options.now)
        (nodes_of destination.entries) roots.now) }
{
    // A no-op at run time: it brings the store's invariant into the proof. So does the call below,
    // after the copy.
    let _readable = source.len();
    let descend = descending(options);
    let (destination, copied) = copy_one(alloc, source, destination, roots, &descend);
    let _content = destination.len();
    (destination, copied)
}

/// Copies from a store in memory to a closed one: `copy_graph` with the plainest contract.
///
/// After a successful copy with any number of workers, if the two stores agree, the destination has
/// exactly its earlier contents and the contents that the source reaches from the roots. Each
/// content matches its key. The destination is also closed after an error.
///
/// # Errors
///
/// - 85 `BadWorkers` if `options.workers` is over 64. Nothing is changed.
/// - 81 `Plan` with 53 `NotFound`, 54 `TooLarge`, 55 `Cycle` or 59 `TooMany`. Nothing is changed.
/// - 86 `Memory` at any point. The keys pushed before stay.
pub fn copy_memory_by_workers<R: Threads + Wait + Sync, H: Hooks + Sync>(
    rt: &R,
    alloc: Global,
    source: &MemoryStore,
    destination: ClosedStore,
    roots: &[Key],
    options: &Options,
    hooks: &H,
) -> (ClosedStore, Result<Report, CopyFault>)
    ensures copied { IfOk result.1 (IsMemoryCopy options.now.existing
        source.now roots.now destination result.0) }
    ensures grows { OnlyGrowsInMemory source.now roots.now destination result.0 result.1 }
    ensures closed { IsClosed (nodes_of result.0.entries) }
    ensures refused { IsAnswerByWorkers options.now.workers (RefusedForPlan source.now.entries
        options.now (nodes_of destination.entries) roots.now) result.1 }
{
    // No-ops at run time: they bring the stores' invariants into the proof. So does the call below,
    // after the copy.
    let _readable = source.len();
    let _closed = destination.memory();
    let (destination, copied) = copy_graph(rt, alloc, source, destination, roots, options, hooks);
    let _content = destination.memory().len();
    (destination, copied)
}

/// Copies the keys that a store in memory lacks under some roots, also below the keys that it
/// holds: `copy_graph` with [`Existing::Descend`] and the plainest contract. The destination need
/// not be closed.
///
/// After a successful repair with any number of workers, if the two stores agree, the destination
/// has exactly its earlier contents and the contents that the source reaches from the roots. Each
/// content matches its key. Keys that it lacked elsewhere are still missing. Of the options, only
/// the number of workers and the maximum size of a manifest are used.
///
/// # Errors
///
/// - 85 `BadWorkers` if `options.workers` is over 64. Nothing is changed.
/// - 81 `Plan` with 53 `NotFound`, 54 `TooLarge`, 55 `Cycle` or 59 `TooMany`. Nothing is changed. A
///   key that the destination has and the source lacks is no error.
/// - 86 `Memory` at any point. The keys pushed before stay.
pub fn repair_memory_by_workers<R: Threads + Wait + Sync, H: Hooks + Sync>(
    rt: &R,
    alloc: Global,
    source: &MemoryStore,
    destination: MemoryStore,
    roots: &[Key],
    options: &Options,
    hooks: &H,
) -> (MemoryStore, Result<Report, CopyFault>)
    ensures copied { IfOk result.1 (IsMemoryCopy Existing.Descend source.now roots.now destination
        result.0) }
    ensures grows { OnlyGrowsInMemory source.now roots.now destination result.0 result.1 }
    ensures refused { IsAnswerByWorkers options.now.workers (RefusedForPlan source.now.entries
        (descending options.now) (nodes_of destination.entries) roots.now) result.1 }
{
    // A no-op at run time: it brings the store's invariant into the proof. So does the call below,
    // after the copy.
    let _readable = source.len();
    let descend = descending(options);
    let (destination, copied) = copy_graph(rt, alloc, source, destination, roots, &descend, hooks);
    let _content = destination.len();
    (destination, copied)
}
