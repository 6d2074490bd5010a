ghost use Rattle.std.specs.Prelude.{◌≡◌, ◌<◌, ◌≤◌, ◌++◌, [], ◌∷◌, length, filter, slice_get, IfOk, IfErr, OnOk, OnSome, if◌then◌else◌};
ghost use Rattle.std.specs.List.{IsDistinct};
ghost use Rattle.std.specs.Option.{option_copied};
ghost use Rattle.oci_manifest.specs.Descriptor.{same_key};
ghost use Rattle.oci_plan.specs.Fault.{Names};
ghost use Rattle.oci_plan.specs.Plan.{Number};
ghost use Rattle.oci_plan.specs.Refusal.{IsTrueOfWalk};
ghost use Rattle.oci_store.specs.Visiting.{with_key, with_keys};
ghost use Rattle.oci_plan.specs.Visiting.{is_fresh};
ghost use Rattle.oci_plan.specs.Walk.{visits_of, noted, held_at, IsGathered, IsNumbered};

use super::Existing;
use super::successors::visited_successors;
use crate::fault::PlanFault;
use oci_digest::NoMemory;
use oci_manifest::Key;
use oci_store::{Dest, KeyList, Source};
use std::alloc::Global;

/// The keys to copy that a walk met, in that order, and for each the numbers of its successors that
/// are also to be copied.
pub(crate) struct Visited {
    pub(crate) keys: Vec<Key>,
    pub(crate) lists: Vec<Vec<u32>>,
}

/// Returns the number of a key. A new key gets the next one.
fn number(keys: &mut KeyList, key: &Key) -> Result<u32, PlanFault>
    ensures numbered { IfOk result (IsNumbered keys.old keys.new key.now) }
    ensures refused { IfErr result (Names (λ _. ⊥) (λ _. ⊥)
        (4294967295 < length (with_key keys.old key.now))) }
{
    let place = keys.place(key)?;
    if keys.len() > u32::MAX as usize {
        return Err(PlanFault::TooMany);
    }
    Ok(place as u32)
}

/// Returns the numbers of the successors that the destination does not have.
fn number_fresh<D: Dest>(
    alloc: Global,
    destination: &D,
    keys: &mut KeyList,
    successors: &[Key],
) -> Result<Vec<u32>, PlanFault>
    requires { length keys.old ≤ 4294967295 }
    ensures keys { OnOk result (keys.new ≡ with_keys keys.old
        (filter (is_fresh (D.state destination.now).nodes) successors.now)) }
    ensures numbers { IfOk result (λ numbers. Number keys.new numbers.items
        (filter (is_fresh (D.state destination.now).nodes) successors.now)) }
    ensures few { OnOk result (length keys.new ≤ 4294967295) }
    ensures refused { IfErr result (Names (λ _. ⊥) (λ _. ⊥) (4294967295 < length
        (with_keys keys.old (filter (is_fresh (D.state destination.now).nodes)
        successors.now)))) }
{
    let mut numbers = Vec::new(alloc);
    for key in successors {
        if destination.has(key) {
            continue;
        }
        numbers.push(number(keys, key)?)?;
    }
    Ok(numbers)
}

/// Returns the keys to visit: with `Skip` the keys to copy, with `Descend` all keys that were met.
fn visits<'a>(existing: Existing, keys: &'a KeyList, all: &'a KeyList) -> &'a KeyList
    ensures { result.now ≡ visits_of existing keys.now all.now }
{
    match existing {
        Existing::Skip => keys,
        Existing::Descend => all,
    }
}

/// Returns the key to visit at a place, or nothing past the last one.
fn visit_at<'a>(
    existing: Existing,
    keys: &'a KeyList,
    all: &'a KeyList,
    place: usize,
) -> Option<&'a Key>
    ensures value { option_copied result ≡ slice_get (visits_of existing keys.now all.now) place }
    ensures within { OnSome result (place < usize.MAX) }
{
    let visits = visits(existing, keys, all);
    if place < visits.len() {
        visits.get(place)
    } else {
        None
    }
}

/// Adds keys that were met to `all`. With `Skip` only keys to copy are visited, and `all` stays
/// empty.
fn note_met(existing: Existing, all: &mut KeyList, met: &[Key]) -> Result<(), NoMemory>
    ensures { OnOk result (all.new ≡ noted existing all.old met.now) }
{
    match existing {
        Existing::Skip => Ok(()),
        Existing::Descend => all.place_all(met),
    }
}

/// Returns whether the destination has a visited key. With `Skip` no such key is visited.
fn is_held<D: Dest>(existing: Existing, destination: &D, key: &Key) -> bool
    ensures { result ≡ held_at existing (D.state destination.now).nodes key.now }
{
    match existing {
        Existing::Skip => false,
        Existing::Descend => destination.has(key),
    }
}

/// Adds the list of a visited key, unless the destination has the key.
fn keep(lists: &mut Vec<Vec<u32>>, list: Vec<u32>, is_held: bool) -> Result<(), NoMemory>
    ensures { OnOk result (lists.new.items ≡ (if is_held then lists.old.items
        else lists.old.items ++ list ∷ [])) }
{
    if !is_held {
        lists.push(list)?;
    }
    Ok(())
}

/// Visits the keys under the roots, breadth first. With `Skip` it visits the keys that the
/// destination does not have, with `Descend` all of them.
pub(crate) fn visit<A: Source, D: Dest>(
    alloc: Global,
    source: &A,
    destination: &D,
    roots: &[Key],
    limit: u64,
    existing: Existing,
) -> Result<Visited, PlanFault>
    ensures gathered { IfOk result (λ w. IsGathered (A.state source.now).is_honest existing
        (A.state source.now).entries (D.state destination.now).nodes roots.now limit w.keys.items
        w.lists.items) }
    ensures distinct { IfOk result (λ w. IsDistinct same_key w.keys.items) }
    ensures refused { IfErr result (IsTrueOfWalk existing (A.state source.now)
        (D.state destination.now) roots.now limit) }
{
    let mut keys = KeyList::new(alloc);
    let mut all = KeyList::new(alloc);
    let _ = number_fresh(alloc, destination, &mut keys, roots)?;
    note_met(existing, &mut all, roots)?;
    let mut lists = Vec::new(alloc);
    let mut place = 0;
    while let Some(key) = visit_at(existing, &keys, &all, place) {
        let held = is_held(existing, destination, key);
        let successors = visited_successors(alloc, source, key, held, limit)?;
        let numbers = number_fresh(alloc, destination, &mut keys, &successors)?;
        note_met(existing, &mut all, &successors)?;
        keep(&mut lists, numbers, held)?;
        place += 1;
    }
    Ok(Visited {
        keys: keys.into_keys(),
        lists,
    })
}
