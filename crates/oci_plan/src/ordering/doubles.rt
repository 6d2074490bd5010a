ghost use Rattle.std.specs.Prelude.{◌≡◌, ◌+◌, ◌<◌, ◌≤◌, length, map, All, IfOk, OnOk};
ghost use Rattle.oci_plan.specs.Graph.{lists_of, without_doubles, IsSmallGraph};
ghost use Rattle.oci_plan.specs.Doubles.{with_number, IsStamped};

use std::alloc::{AllocError, Global};

/// Keeps a number that does not bear the stamp yet, and stamps it.
fn keep(kept: &mut Vec<u32>, seen: &mut [u32], stamp: u32, number: u32) -> Result<(), AllocError>
    requires number { number < length seen.old }
    requires stamped { IsStamped seen.old stamp kept.old.items }
    requires latest { All (λ last. last ≤ stamp) seen.old }
    ensures kept { OnOk result (kept.new.items ≡ with_number kept.old.items number) }
    ensures stamped { OnOk result (IsStamped seen.new stamp kept.new.items) }
    ensures latest { All (λ last. last ≤ stamp) seen.new }
{
    if seen[number as usize] == stamp {
        return Ok(());
    }
    kept.push(number)?;
    seen[number as usize] = stamp;
    Ok(())
}

/// Returns the numbers of a list, each once. `seen` has, at each number, the stamp of the last list
/// that held it.
fn first_places(
    alloc: Global,
    list: &[u32],
    stamp: u32,
    seen: &mut [u32],
) -> Result<Vec<u32>, AllocError>
    requires numbers { All (λ n. n < length seen.old) list.now }
    requires fresh { All (λ last. last < stamp) seen.old }
    ensures kept { IfOk result (λ kept. kept.items ≡ without_doubles list.now) }
    ensures latest { All (λ last. last ≤ stamp) seen.new }
{
    let mut kept = Vec::new(alloc);
    for number in list {
        keep(&mut kept, seen, stamp, *number)?;
    }
    Ok(kept)
}

/// Returns the lists of a graph, each with every number once, at its first place.
pub(crate) fn drop_doubles(alloc: Global, lists: &[Vec<u32>]) -> Result<Vec<Vec<u32>>, AllocError>
    requires { IsSmallGraph lists.now }
    ensures { IfOk result (λ kept. lists_of kept.items ≡ map without_doubles (lists_of lists.now)) }
{
    let mut seen = vec![in alloc; 0; lists.len()]?;
    let mut kept = Vec::new(alloc);
    for (i, list) in lists.iter().enumerate() {
        let distinct = first_places(alloc, list, i as u32 + 1, &mut seen)?;
        kept.push(distinct)?;
    }
    Ok(kept)
}
