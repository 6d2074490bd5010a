ghost use Rattle.std.specs.Prelude.{◌≡◌, ◌≤◌, [], ◌∷◌, List, true, OnOk, OnErr, IfOk, IfErr, ◌≢◌, MatchResult};
ghost use Rattle.oci_manifest.specs.Descriptor.{Descriptor};
ghost use Rattle.oci_store.specs.Keyed.{has_key};
ghost use Rattle.oci_store.specs.State.{OnlyTagsDiffer};
ghost use Rattle.oci_store.specs.Tags.{set_tag};
ghost use Rattle.oci_copy.specs.Cause.{CanFail, IsRefusal, IsStepCause, RefusedByWorkers};
ghost use Rattle.oci_copy.specs.Copy.{IsCopy, OnlyGrows};
ghost use Rattle.oci_copy.specs.Plain.{NeitherFails, RefusedForPlan};
ghost use Rattle.oci_copy.specs.Tagged.{name_of, ResolvesIn, IsRootOf, RefusedByReference, IsTagged};

use crate::fault::CopyFault;
use crate::graph::copy_graph;
use crate::options::Options;
use crate::report::Report;
use oci_manifest::Key;
use oci_pool::Hooks;
use oci_store::{Dest, Source, Tagger};
use std::alloc::Global;
use std::slice;
use std::sync::Wait;
use std::thread::Threads;

/// Copies the graph under the key that a reference of the source resolves to, and tags that key in
/// the destination (oras-go v2, "Copy").
///
/// The tag is the destination's reference, or the source's if the destination's is empty. It is set
/// last. The key is returned with the report.
///
/// # Errors
///
/// In this order:
///
/// - 87 `Reference` if the source's reference is empty or does not resolve. Nothing is changed.
/// - 85 `BadWorkers` and the other errors of [`copy_graph`] from that key, with the state that they
///   leave.
///
/// 86 `Memory` can be returned at any point, also after a complete copy whose tag failed. An error
/// leaves the tags as they were.
pub fn copy<
    A: Source + Tagger + Sync,
    D: Dest + Tagger + Drop + Send,
    R: Threads + Wait + Sync,
    H: Hooks + Sync,
>(
    rt: &R,
    alloc: Global,
    source: &A,
    source_reference: &str,
    destination: D,
    destination_reference: &str,
    options: &Options,
    hooks: &H,
) -> (D, Result<(Key, Report), CopyFault>)
where
    D::Draft: Send,
    ensures copied { IfOk result.1 (λ it. IsCopy D.shares options.now (A.state source.now)
        (D.state destination) (it.0 ∷ []) (D.state result.0) it.1) }
    ensures tagged { IsTagged D.state (A.state source.now) source_reference.now
        (name_of source_reference.now destination_reference.now) destination result.0 result.1 }
    ensures grows { (roots : List Descriptor)
        × IsRootOf (A.state source.now) source_reference.now roots
        × OnlyGrows D.shares (A.state source.now) (D.state destination) roots (D.state result.0) }
    ensures refused { MatchResult result.1 (λ it. options.now.workers ≤ 64)
        (RefusedByReference (A.state source.now) source_reference.now
        (λ root. RefusedByWorkers options.now.workers
        (IsRefusal (IsStepCause (CanFail D.state (D.state destination))) options.now
        (A.state source.now) (D.state destination) (root ∷ [])))) }
    ensures plain { IfErr result.1 (λ fault. NeitherFails options.now.existing D.state
        (A.state source.now) (D.state destination)
        → RefusedByReference (A.state source.now) source_reference.now
        (λ root. RefusedByWorkers options.now.workers (RefusedForPlan (A.state source.now).entries
        options.now (D.state destination).nodes (root ∷ []))) fault) }
{
    let root = match resolve_root(source, source_reference) {
        Ok(root) => root,
        Err(fault) => return (destination, Err(fault)),
    };
    let roots = slice::from_ref(&root);
    let (destination, copied) = copy_graph(rt, alloc, source, destination, roots, options, hooks);
    match copied {
        Ok(report) => tag_copied(
            destination,
            root,
            report,
            source_reference,
            destination_reference,
        ),
        Err(fault) => (destination, Err(fault)),
    }
}

/// Returns the key that a reference of the source resolves to.
pub(crate) fn resolve_root<A: Tagger>(source: &A, reference: &str) -> Result<Key, CopyFault>
    ensures found { IfOk result (ResolvesIn (A.state source.now) reference.now) }
    ensures named { OnOk result (reference.now ≢ []) }
    ensures cause { IfErr result (RefusedByReference (A.state source.now) reference.now
        (λ root fault. ⊥)) }
{
    match source.resolve(reference) {
        Ok(root) => Ok(root),
        Err(fault) => Err(CopyFault::from(fault)),
    }
}

/// Tags a copied key in the destination: the last step of a copy by reference.
pub(crate) fn tag_copied<D: Tagger>(
    destination: D,
    root: Key,
    report: Report,
    source_reference: &str,
    destination_reference: &str,
) -> (D, Result<(Key, Report), CopyFault>)
    ensures root { IfOk result.1 (λ it. it.0 ≡ root) }
    ensures report { IfOk result.1 (λ it. it.1 ≡ report) }
    ensures tagged { OnOk result.1 ((D.state result.0).tags ≡ set_tag (D.state destination).tags
        (name_of source_reference.now destination_reference.now) root) }
    ensures untagged { OnErr result.1 ((D.state result.0).tags ≡ (D.state destination).tags) }
    ensures stays { OnlyTagsDiffer (D.state destination) (D.state result.0) }
    ensures wants { IfErr result.1 (λ fault. source_reference.now ≢ []
        → has_key (D.state destination).nodes root ≡ true → fault ≡ CopyFault.Memory) }
{
    let mut destination = destination;
    match destination.tag(&root, tag_name(source_reference, destination_reference)) {
        Ok(()) => (destination, Ok((root, report))),
        Err(fault) => (destination, Err(CopyFault::from(fault))),
    }
}

/// Returns the name of the tag that the copied key gets.
fn tag_name<'a>(source_reference: &'a str, destination_reference: &'a str) -> &'a str
    ensures { result.now ≡ name_of source_reference.now destination_reference.now }
{
    if destination_reference.is_empty() {
        source_reference
    } else {
        destination_reference
    }
}
