ghost use Rattle.std.specs.Prelude.{◌≡◌, ◌↔◌, ◌<◌, ◌⊎◌, true, false, length, filter, Contains, IfOk, IfErr, OnOk, if◌then◌else◌};
ghost use Rattle.std.specs.List.{All};
ghost use Rattle.oci_manifest.specs.Descriptor.{Descriptor};
ghost use Rattle.oci_manifest.specs.Manifest.{first_places};
ghost use Rattle.oci_store.specs.Keyed.{has_key, HasAll};
ghost use Rattle.oci_store.specs.Graph.{nodes_of};
ghost use Rattle.oci_store.specs.Visiting.{with_key};
ghost use Rattle.oci_plan.specs.Met.{IsMet, NamesMet};
ghost use Rattle.oci_plan.specs.Order.{IsOrder};
ghost use Rattle.oci_plan.specs.Outside.{IsVisited, IsToBring};
ghost use Rattle.oci_plan.specs.Visiting.{IsWithin, IsSoundItem, IsSoundVisit};
ghost use Rattle.oci_plan.specs.Plan.{Number, IsPlan, HasEdges, FollowsListed};
ghost use Rattle.oci_plan.specs.Refusal.{IsKeyFault, IsFirstFault, NamesNoneOnlyInDestination, NamesVisited};

mod successors;
mod walk;

use crate::fault::{OrderFault, PlanFault};
use crate::ordering::topological::order;
use crate::plan::Plan;
use oci_digest::NoMemory;
use oci_manifest::Key;
use oci_store::{Dest, KeyList, Source};
use std::alloc::Global;
use walk::{Visited, visit};

/// How a plan treats a key that the destination has.
#[derive(Clone, Copy, Debug, PartialEq, Eq, Default)]
pub enum Existing {
    /// The plan does not visit the key, and assumes that the destination has all keys below it. A
    /// key below it is still visited if a path of missing keys leads to it.
    #[default]
    Skip,
    /// The plan visits the key too, so that missing keys below it are found. If the source does not
    /// have the key, the plan goes on with the next one.
    Descend,
}

/// Clones the keys with these numbers.
fn keys_of(alloc: Global, keys: &[Key], numbers: &[u32]) -> Result<Vec<Key>, NoMemory>
    requires { All (λ number. number < length keys.now) numbers.now }
    ensures { IfOk result (λ named. Number keys.now numbers.now named.items) }
{
    let mut named = Vec::new(alloc);
    for number in numbers {
        named.push(keys[*number as usize].try_clone()?)?;
    }
    Ok(named)
}

/// Adds a root to `held` if the destination has it.
fn keep_held<D: Dest>(destination: &D, held: &mut KeyList, root: &Key) -> Result<(), NoMemory>
    ensures { OnOk result (held.new ≡ (if has_key (D.state destination.now).nodes root.now
        then with_key held.old root.now else held.old)) }
{
    if destination.has(root) {
        held.place(root)?;
    }
    Ok(())
}

/// Returns the roots that the destination has, each once, in their order.
fn held_roots<D: Dest>(alloc: Global, destination: &D, roots: &[Key]) -> Result<Vec<Key>, NoMemory>
    ensures { IfOk result (λ held. held.items ≡ first_places
        (filter (has_key (D.state destination.now).nodes) roots.now)) }
{
    let mut held = KeyList::new(alloc);
    for root in roots {
        keep_held(destination, &mut held, root)?;
    }
    Ok(held.into_keys())
}

/// Returns the plan of a copy: the keys to copy so that the destination has the roots.
///
/// Keys are visited breadth first: the roots in their order, then the keys that each visited key
/// lists, in its order (OCI image-spec 1.1, manifest.md and image-index.md). `existing` decides
/// about the keys that the destination has. A manifest is fetched once, a leaf never.
///
/// Whatever bytes the source's device has now, each planned key is a root, or is listed by bytes
/// that match another key that was met. This also holds for each key that an error names.
///
/// The time grows with the visited keys and the keys that they list, times a logarithm.
///
/// # Errors
///
/// The first visited key that is at fault decides. It is checked in this order:
///
/// - 54 [`PlanFault::TooLarge`] if it is a manifest's and its size is over `limit`.
/// - 53 [`PlanFault::NotFound`] if the source does not have it.
/// - 57 [`PlanFault::Fetch`] if the source's device has other bytes or cannot be read. It carries
///   `Corrupt` only if the source is not sound.
/// - 56 [`PlanFault::Manifest`] if its content is not a manifest of its media type.
///
/// A key that only the destination has is never at fault.
///
/// These do not depend on one key:
///
/// - 59 [`PlanFault::TooMany`] if there are more than 4294967295 keys to copy.
/// - 55 [`PlanFault::Cycle`] if all keys were visited and the keys to copy have a cycle.
/// - 58 [`PlanFault::Memory`] if memory is refused, at any point.
///
/// Nothing is changed in any of these cases.
pub fn gather<A: Source, D: Dest>(
    alloc: Global,
    source: &A,
    destination: &D,
    roots: &[Key],
    limit: u64,
    existing: Existing,
) -> Result<Plan, PlanFault>
    // The plan, whatever the source.
    ensures plan { IfOk result IsPlan }
    ensures order { IfOk result (λ p. IsOrder p.order) }
    ensures fresh { IfOk result (λ p. All (λ k. has_key (D.state destination.now).nodes k ≡ false)
        p.keys) }
    ensures there { IfOk result (λ p. HasAll (A.state source.now).entries p.keys) }
    ensures met { IfOk result (λ p. All (IsMet existing (A.state source.now).entries
        (D.state destination.now).nodes roots.now) p.keys) }
    ensures within { IfOk result (λ p. All (IsWithin limit) p.keys) }
    ensures roots { IfOk result (λ p. All (λ k. (has_key (D.state destination.now).nodes k ≡ true) ⊎
        Contains p.keys k) roots.now) }
    ensures skipped { IfOk result (λ p. p.skipped ≡ first_places
        (filter (has_key (D.state destination.now).nodes) roots.now)) }

    // The plan, if the source is honest.
    ensures outside { IfOk result (λ p. (A.state source.now).is_honest
        → (k : Descriptor) → Contains p.keys k
        ↔ IsToBring existing (nodes_of (A.state source.now).entries) (D.state destination.now).nodes
        roots.now k) }
    ensures sound { IfOk result (λ p. (A.state source.now).is_honest
        → All (IsSoundItem (A.state source.now).entries limit) p.keys) }
    ensures visited { OnOk result ((A.state source.now).is_honest
        → (k : Descriptor)
        → IsVisited existing (nodes_of (A.state source.now).entries) (D.state destination.now).nodes
        roots.now k
        → IsSoundVisit existing (A.state source.now).entries (D.state destination.now).nodes
        limit k) }
    ensures edges { IfOk result (λ p. (A.state source.now).is_honest
        → HasEdges (nodes_of (A.state source.now).entries) (D.state destination.now).nodes p) }
    ensures follows { IfOk result (λ p. (A.state source.now).is_honest
        → FollowsListed (nodes_of (A.state source.now).entries) (D.state destination.now).nodes p) }

    // The errors: `first` speaks of an honest source, the other clauses of any source.
    ensures cause { IfErr result (IsKeyFault (A.state source.now) limit) }
    ensures spared { IfErr result (NamesNoneOnlyInDestination (A.state source.now).entries
        (D.state destination.now).nodes) }
    ensures named { IfErr result (NamesVisited existing (D.state destination.now).nodes) }
    ensures named_met { IfErr result (NamesMet existing (A.state source.now).entries
        (D.state destination.now).nodes roots.now) }
    ensures first { IfErr result (λ e. (A.state source.now).is_honest
        → IsFirstFault existing (A.state source.now).entries (D.state destination.now).nodes
        roots.now limit e) }
{
    let skipped = held_roots(alloc, destination, roots)?;
    let Visited { keys, lists } = visit(alloc, source, destination, roots, limit, existing)?;
    match order(lists) {
        Ok(order) => Ok(Plan::new(keys, order, skipped)),
        Err(OrderFault::Cycle(numbers)) => Err(PlanFault::Cycle(keys_of(alloc, &keys, &numbers)?)),
        Err(OrderFault::BadNumber(_, _)) => unreachable!(),
        Err(OrderFault::Memory) => Err(PlanFault::Memory),
    }
}
