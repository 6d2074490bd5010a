ghost use Rattle.std.specs.Prelude.{◌≡◌, ℕ, ◌≤◌, List, length, map, find, nat_le, IfOk, IfErr, IfNone, IfSome, OnOk, MatchResult, Err, vec_len};
ghost use Rattle.oci_plan.specs.Graph.{lists_of, without_doubles, IsGraph, IsSmallGraph, IsCycle, IsFirstBad};
ghost use Rattle.oci_plan.specs.Fault.{IsCauseOf};
ghost use Rattle.oci_plan.specs.Order.{IsOrder, IsOrderOf};

use super::Order;
use super::doubles::drop_doubles;
use super::search::topological_sequence;
use crate::fault::OrderFault;
use std::alloc::Global;

/// Returns the first element of a list that is not a number of a graph with `count` numbers.
fn first_bad(list: &[u32], count: usize) -> Option<u32>
    ensures { result ≡ find (λ n. nat_le count n) list.now }
{
    list.iter().copied().find(|n| count <= *n as usize)
}

/// Returns the first list with an element that is not a number of the graph, and that element.
/// Does not allocate.
fn first_bad_number(lists: &[Vec<u32>]) -> Option<(u32, u32)>
    requires { length lists.now ≤ 4294967295 }
    ensures graph { IfNone result (IsGraph (lists_of lists.now)) }
    ensures bad { IfSome result (λ found. IsFirstBad (lists_of lists.now) found.0 found.1) }
{
    for (i, list) in lists.iter().enumerate() {
        if let Some(number) = first_bad(list, lists.len()) {
            return Some((i as u32, number));
        }
    }
    None
}

/// Returns the order of a graph whose lists have only its numbers.
fn order_of_graph(alloc: Global, lists: &[Vec<u32>]) -> Result<Order, OrderFault>
    requires { IsSmallGraph lists.now }
    ensures { MatchResult result (IsOrderOf (lists_of lists.now))
        (IsCauseOf (lists_of lists.now)) }
{
    let sequence = topological_sequence(alloc, lists)?;
    let distinct = drop_doubles(alloc, lists)?;
    Ok(Order {
        lists: distinct,
        sequence,
    })
}

/// Returns the numbers of a graph in an order in which each follows its successors. List `i` has
/// the successors of number `i`. A number that is in a list twice is kept once, at its first place.
/// Which of the possible orders is returned is unspecified.
///
/// The time grows with the numbers and the edges.
///
/// # Errors
///
/// - 51 [`OrderFault::BadNumber`] if a list has an element that is no number of the graph. This is
///   checked first.
/// - 50 [`OrderFault::Cycle`] if the graph has a cycle.
/// - 52 [`OrderFault::Memory`] if memory is refused after that first check.
pub fn order(lists: Vec<Vec<u32>>) -> Result<Order, OrderFault>
    requires { vec_len lists ≤ 4294967295 }

    // The order is of the given graph, without doubles.
    ensures lists { IfOk result (λ o. o.lists ≡ map without_doubles (lists_of lists.items)) }
    ensures order { IfOk result IsOrder }
    ensures no_cycle { OnOk result ((numbers : List ℕ) → IsCycle (lists_of lists.items) numbers
        → ⊥) }

    // Each error has its cause in the graph, and a bad number is always reported.
    ensures refused { IfErr result (IsCauseOf (lists_of lists.items)) }
    ensures bad_number { (i n : ℕ) → IsFirstBad (lists_of lists.items) i n
        → result ≡ Err (OrderFault.BadNumber i n) }
{
    if let Some((list, number)) = first_bad_number(&lists) {
        return Err(OrderFault::BadNumber(list, number));
    }
    order_of_graph(*lists.allocator(), &lists)
}
