ghost use Rattle.std.specs.Prelude.{◌≡◌, ◌≤◌, true, List, OnOk, IfOk, IfErr, MatchResult};
ghost use Rattle.oci_manifest.specs.Descriptor.{Descriptor};
ghost use Rattle.oci_store.specs.Keyed.{has_key};
ghost use Rattle.oci_plan.specs.Up.{IsUp};
ghost use Rattle.oci_copy.specs.Cause.{CanFail, IsAnswerByWorkers, IsRefusal, IsStepCause, RefusedAt, RefusedByWorkers};
ghost use Rattle.oci_copy.specs.Copy.{IsCopy, OnlyGrows, Spares};
ghost use Rattle.oci_copy.specs.Extended.{OfUp, AreRootsOf, AreRootsOfReference};
ghost use Rattle.oci_copy.specs.Plain.{NeitherFails, RefusedForPlan};
ghost use Rattle.oci_copy.specs.Tagged.{name_of, RefusedByReference, IsTagged};

use crate::by_reference::{resolve_root, tag_copied};
use crate::fault::CopyFault;
use crate::graph::copy_graph;
use crate::options::Options;
use crate::report::Report;
use oci_manifest::Key;
use oci_plan::climb;
use oci_pool::{Hooks, MAX_WORKERS};
use oci_store::{Dest, GraphSource, Tagger};
use std::alloc::Global;
use std::sync::Wait;
use std::thread::Threads;

/// Copies a key of the source with the keys that lead to it and all that these reach, by workers
/// (oras-go v2, "ExtendedCopyGraph").
///
/// It is `copy_graph` from the roots that [`climb`] returns: the key, and every key of the source
/// that has a path of at most `depth` edges to it. Depth 0 sets no limit. So an image is copied
/// with its signatures and with the indexes that list it, and each of these with all that it lists.
///
/// Takes a lock and joins its workers. Termination is not proved.
///
/// # Errors
///
/// The errors of [`copy_graph`] from these roots, in its order and with the state that they leave.
/// The climb can also return 86 `Memory`.
pub fn extended_copy_graph<
    A: GraphSource + Sync,
    D: Dest + Drop + Send,
    R: Threads + Wait + Sync,
    H: Hooks + Sync,
>(
    rt: &R,
    alloc: Global,
    source: &A,
    key: &Key,
    depth: u32,
    destination: D,
    options: &Options,
    hooks: &H,
) -> (D, Result<Report, CopyFault>)
where
    D::Draft: Send,
    ensures copied { IfOk result.1 (λ report. OfUp (A.state source.now) key.now depth
        (λ roots. IsCopy D.shares options.now (A.state source.now) (D.state destination) roots
        (D.state result.0) report)) }
    ensures held { OnOk result.1 (has_key (D.state result.0).nodes key.now ≡ true) }
    ensures grows { (roots : List Descriptor) × AreRootsOf (A.state source.now) key.now depth roots
        × OnlyGrows D.shares (A.state source.now) (D.state destination) roots (D.state result.0) }
    ensures spared { Spares D.state destination result.0 result.1 }
    ensures refused { IsAnswerByWorkers options.now.workers
        (RefusedAt (IsUp (A.state source.now).nodes key.now depth)
        (IsRefusal (IsStepCause (CanFail D.state (D.state destination))) options.now
        (A.state source.now) (D.state destination))) result.1 }
    ensures plain { IfErr result.1 (λ fault. NeitherFails options.now.existing D.state
        (A.state source.now) (D.state destination) → RefusedByWorkers options.now.workers
        (RefusedAt (IsUp (A.state source.now).nodes key.now depth)
        (RefusedForPlan (A.state source.now).entries options.now (D.state destination).nodes))
        fault) }
{
    if options.workers > MAX_WORKERS {
        return (destination, Err(CopyFault::BadWorkers));
    }
    let Ok(roots) = climb(alloc, source, key, depth) else {
        return (destination, Err(CopyFault::Memory));
    };
    copy_graph(rt, alloc, source, destination, &roots, options, hooks)
}

/// Copies the key that a reference of the source resolves to with the keys that lead to it and all
/// that these reach, and tags that key in the destination (oras-go v2, "ExtendedCopy").
///
/// It is `copy` by `extended_copy_graph`. The tag is the destination's reference, or the source's
/// if the destination's is empty. It names the key that the source's reference resolves to, and is
/// set last. That key is returned with the report.
///
/// # Errors
///
/// In this order:
///
/// - 87 `Reference` if the source's reference is empty or does not resolve. Nothing is changed.
/// - The errors of [`extended_copy_graph`] of that key, with the state that they leave.
///
/// 86 `Memory` can be returned at any point, also after a complete copy whose tag failed. An error
/// leaves the tags as they were.
pub fn extended_copy<
    A: GraphSource + Tagger + Sync,
    D: Dest + Tagger + Drop + Send,
    R: Threads + Wait + Sync,
    H: Hooks + Sync,
>(
    rt: &R,
    alloc: Global,
    source: &A,
    source_reference: &str,
    depth: u32,
    destination: D,
    destination_reference: &str,
    options: &Options,
    hooks: &H,
) -> (D, Result<(Key, Report), CopyFault>)
where
    D::Draft: Send,
    ensures copied { IfOk result.1 (λ it. OfUp (A.state source.now) it.0 depth
        (λ roots. IsCopy D.shares options.now (A.state source.now) (D.state destination) roots
        (D.state result.0) it.1)) }
    ensures tagged { IsTagged D.state (A.state source.now) source_reference.now
        (name_of source_reference.now destination_reference.now) destination result.0 result.1 }
    ensures grows { (roots : List Descriptor)
        × AreRootsOfReference (A.state source.now) source_reference.now depth roots
        × OnlyGrows D.shares (A.state source.now) (D.state destination) roots (D.state result.0) }
    ensures refused { MatchResult result.1 (λ it. options.now.workers ≤ 64)
        (RefusedByReference (A.state source.now) source_reference.now
        (λ root. RefusedByWorkers options.now.workers
        (RefusedAt (IsUp (A.state source.now).nodes root depth)
        (IsRefusal (IsStepCause (CanFail D.state (D.state destination))) options.now
        (A.state source.now) (D.state destination))))) }
    ensures plain { IfErr result.1 (λ fault. NeitherFails options.now.existing D.state
        (A.state source.now) (D.state destination)
        → RefusedByReference (A.state source.now) source_reference.now
        (λ root. RefusedByWorkers options.now.workers
        (RefusedAt (IsUp (A.state source.now).nodes root depth)
        (RefusedForPlan (A.state source.now).entries options.now (D.state destination).nodes)))
        fault) }
{
    let root = match resolve_root(source, source_reference) {
        Ok(root) => root,
        Err(fault) => return (destination, Err(fault)),
    };
    let (destination, copied) = extended_copy_graph(
        rt,
        alloc,
        source,
        &root,
        depth,
        destination,
        options,
        hooks,
    );
    match copied {
        Ok(report) => tag_copied(
            destination,
            root,
            report,
            source_reference,
            destination_reference,
        ),
        Err(fault) => (destination, Err(fault)),
    }
}
