use oci_plan::{Order, order};
use std::alloc::{AllocError, Global};
use std::process::Abort;
use test_support::graph_of;

/// The diamond: 1 and 2 need 0, and 3 needs both.
pub(crate) const DIAMOND: &[&[u32]] = &[&[], &[0], &[0], &[1, 2]];

/// Returns the order of a graph that has one.
pub(crate) fn order_of(rt: &impl Abort, lists: Vec<Vec<u32>>) -> Order {
    assert!(rt; lists.len() < 4294967295);
    match order(lists) {
        Ok(order) => order,
        Err(fault) => panic!(rt; "{fault}"),
    }
}

/// Returns the order of these lists.
pub(crate) fn ordered(
    rt: &impl Abort,
    alloc: Global,
    lists: &[&[u32]],
) -> Result<Order, AllocError> {
    Ok(order_of(rt, graph_of(alloc, lists)?))
}
