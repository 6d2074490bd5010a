ghost use Rattle.std.specs.Prelude.{◌≡◌, ℕ, ◌<◌, ◌++◌, ◌∷◌, [], cond, length, vec_len, IfOk, OnOk};
ghost use Rattle.oci_plan.specs.Graph.{lists_of, successors_of};
ghost use Rattle.oci_plan.specs.Doubles.{has};
ghost use Rattle.oci_pool.specs.Kept.{AreDistinctBelow, ArePredecessors, AreCounts};

use oci_digest::NoMemory;
use oci_plan::Order;
use std::alloc::Global;

/// Adds a number to the predecessors of each number that it lists.
fn add_predecessor(
    predecessors: &mut Vec<Vec<u32>>,
    list: &[u32],
    number: u32,
) -> Result<(), NoMemory>
    requires { AreDistinctBelow (length predecessors.old.items) list.now }
    ensures len { OnOk result (length predecessors.new.items ≡ length predecessors.old.items) }
    ensures added { OnOk result ((k : ℕ) → k < length predecessors.old.items
        → successors_of (lists_of predecessors.new.items) k ≡ successors_of
        (lists_of predecessors.old.items)
        k ++ cond (has k list.now) (number ∷ []) []) }
{
    for listed in list {
        predecessors[*listed as usize].push(number)?;
    }
    Ok(())
}

/// Creates `count` empty lists.
fn empty_lists(alloc: Global, count: usize) -> Result<Vec<Vec<u32>>, NoMemory>
    ensures len { IfOk result (λ v. vec_len v ≡ count) }
    ensures empty { IfOk result (λ v. (k : ℕ) → successors_of (lists_of v.items) k ≡ []) }
{
    let mut lists = Vec::with_capacity(alloc, count)?;
    for _ in 0..count {
        lists.push(Vec::new(alloc))?;
    }
    Ok(lists)
}

/// Returns the successors of a number.
fn list_of(order: &Order, number: u32) -> &[u32]
    ensures { result.now ≡ successors_of order.now.lists number }
{
    match order.successors(number) {
        Some(list) => list,
        None => &[],
    }
}

/// Returns, for each number, the numbers that list it in ascending order.
pub(crate) fn predecessors(alloc: Global, order: &Order) -> Result<Vec<Vec<u32>>, NoMemory>
    ensures { IfOk result (ArePredecessors order.now.lists) }
{
    let count = order.len();
    let mut predecessors = empty_lists(alloc, count)?;
    for number in 0..count {
        add_predecessor(
            &mut predecessors,
            list_of(order, number as u32),
            number as u32,
        )?;
    }
    Ok(predecessors)
}

/// Returns how many successors each number has.
pub(crate) fn counts(alloc: Global, order: &Order) -> Result<Vec<usize>, NoMemory>
    ensures { IfOk result (AreCounts order.now.lists) }
{
    let count = order.len();
    let mut counts = Vec::with_capacity(alloc, count)?;
    for number in 0..count {
        counts.push(list_of(order, number as u32).len())?;
    }
    Ok(counts)
}
