//! Plans of a copy: the contents that it has to push, an order for pushing them, and the roots of
//! an extended copy.
//!
//! [`gather`] visits the keys of a source, starting from some roots. It returns a [`Plan`]: the
//! visited keys that a destination lacks, each with a number, and an [`Order`] of the numbers in
//! which each key follows the keys that it lists. If there is no plan, it returns a [`PlanFault`].
//!
//! [`order`] takes a graph of numbers: list `i` has the successors of number `i`. It returns an
//! [`Order`] in which each number follows its successors. It returns an [`OrderFault`] if a list
//! has an element that is no number of the graph, or if the graph has a cycle.
//!
//! [`climb`] finds the roots of an extended copy: a key, and every key that leads to it along a
//! path within a depth. [`up_is_one_list`] does nothing at run time. Its contract states that these
//! roots are one list.
//!
//! No call recurses along the graph, so a chain of any length needs no deep stack.
#![tactic(auto)]

// A module and a function cannot share a name: hence `climbing`, `gathering` and `ordering`.
mod climbing;
mod fault;
mod gathering;
mod ordering;
mod plan;

pub use climbing::{climb, up_is_one_list};
pub use fault::{OrderFault, PlanFault};
pub use gathering::{Existing, gather};
pub use ordering::Order;
pub use ordering::topological::order;
pub use plan::Plan;
