ghost use Rattle.std.specs.Prelude.{◌≡◌, ◌≢◌, ◌↔◌, ◌+◌, ◌≤◌, ◌<◌, true, false, length, Contains, IfOk, OnOk};
ghost use Rattle.std.specs.List.{IsDistinct};
ghost use Rattle.std.specs.List.Sorted.{IsStrictlySortedBy};
ghost use Rattle.oci_manifest.specs.Descriptor.{Descriptor, key_cmp, same_key};
ghost use Rattle.oci_plan.specs.Climb.{IsClimbed, IsRaised, IsStep};
ghost use Rattle.oci_plan.specs.Up.{IsUp, IsWithinDepth, UpIsOneList};

use oci_digest::NoMemory;
use oci_manifest::Key;
use oci_store::{GraphSource, KeyList};
use std::alloc::Global;

/// Returns whether a path within the depth may have one edge more than `edges`.
fn goes_on(depth: u32, edges: usize) -> bool
    ensures more { result ≡ true → IsWithinDepth depth (edges + 1) }
    ensures full { result ≡ false → (depth ≢ 0) × (depth ≤ edges) }
{
    depth == 0 || edges < depth as usize
}

/// Adds the predecessors of the key at a place.
fn climb_from<G: GraphSource>(source: &G, found: &mut KeyList, place: usize) -> Result<(), NoMemory>
    requires { place < length found.old }
    ensures { OnOk result (IsStep (G.state source.now).nodes place found.old found.new) }
{
    let Some(key) = found.get(place) else {
        unreachable!()
    };
    let predecessors = source.predecessors(key)?;
    found.place_all(&predecessors)
}

/// Adds the predecessors of the keys at the places from `start` up to, but not including, `end`.
fn climb_level<G: GraphSource>(
    source: &G,
    found: &mut KeyList,
    start: usize,
    end: usize,
) -> Result<(), NoMemory>
    requires order { start ≤ end }
    requires there { end ≤ length found.old }
    requires climbed { IsClimbed (G.state source.now).nodes start found.old }
    ensures climbed { OnOk result (IsClimbed (G.state source.now).nodes end found.new) }
    ensures raised { OnOk result (IsRaised (G.state source.now).nodes found.old found.new) }
{
    for place in start..end {
        climb_from(source, found, place)?;
    }
    Ok(())
}

/// Sorts the keys in key order.
fn sorted(keys: Vec<Key>) -> Result<Vec<Key>, NoMemory>
    requires { IsDistinct same_key keys.items }
    ensures each { IfOk result (λ sorted. (k : Descriptor) → Contains sorted.items k
        ↔ Contains keys.items k) }
    ensures order { IfOk result (λ sorted. IsStrictlySortedBy key_cmp sorted.items) }
{
    let mut keys = keys;
    keys.sort()?;
    Ok(keys)
}

/// Returns the key and every key from which a path of at most `depth` edges leads to it, in key
/// order. Depth 0 sets no limit.
///
/// An edge leads from a key to a key that its content lists. The shortest path counts: a key that
/// is met again on a longer path stays in the result. The key itself need not be held, and is
/// always in the result.
///
/// These are the roots of an extended copy, which also copies the content that lists a key (oras-go
/// v2, "ExtendedCopy", its option "Depth"). The climb goes by levels: the key, then its
/// predecessors, then theirs. The time grows with the keys found and the keys that they list, times
/// a logarithm.
///
/// # Errors
///
/// [`NoMemory`] if memory is refused. The source is unchanged.
pub fn climb<G: GraphSource>(
    alloc: Global,
    source: &G,
    key: &Key,
    depth: u32,
) -> Result<Vec<Key>, NoMemory>
    ensures { IfOk result (λ keys. IsUp (G.state source.now).nodes key.now depth keys.items) }
{
    let mut found = KeyList::new(alloc);
    found.place(key)?;
    let mut climbed = 0;
    let mut edges = 0;
    while climbed < found.len() && goes_on(depth, edges) {
        let end = found.len();
        climb_level(source, &mut found, climbed, end)?;
        climbed = end;
        edges += 1;
    }
    let keys = sorted(found.into_keys())?;
    Ok(keys)
}

/// Does nothing. Its contract is the law that the contract of `climb` describes one list: any two
/// lists that meet it are equal.
pub fn up_is_one_list()
    ensures { UpIsOneList }
{}
