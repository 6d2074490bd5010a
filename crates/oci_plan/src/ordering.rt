ghost use Rattle.std.specs.Prelude.{◌≡◌, ◌==◌, [], length, slice_get, unwrap_or};
ghost use Rattle.std.specs.Option.{option_copied};
ghost use Rattle.oci_plan.specs.Graph.{successors_of};
ghost use Rattle.oci_plan.specs.Order.{IsOrder};

mod doubles;
mod search;
pub(crate) mod topological;

use std::marker::Model;

/// The numbers of a graph in an order in which each follows its successors, and the successors of
/// each.
#[derive(Debug, Drop)]
pub struct Order {
    lists: Vec<Vec<u32>>,
    sequence: Vec<u32>,
}

impl Model for Order {
    ghost use Rattle.oci_plan.specs.Graph.{lists_of};
    ghost use Rattle.oci_plan.specs.Order.{Ordered, IsOrder};

    ghost Value = { Ordered };

    ghost view = { λ o. record { lists = lists_of o.lists.items; sequence = o.sequence.items } };

    ghost invariant = { λ o. IsOrder (record {
      lists = lists_of o.lists.items;
      sequence = o.sequence.items;
    }) };
}

impl Order {
    /// Returns how many numbers the graph has.
    pub fn len(&self) -> usize
        ensures len { result ≡ length self.now.lists }
        ensures order { IsOrder self.now }
    {
        self.lists.len()
    }

    /// Returns whether the graph has no numbers.
    pub fn is_empty(&self) -> bool
        ensures { result ≡ (length self.now.lists == 0) }
    {
        self.lists.is_empty()
    }

    /// Returns the number at a place of the order, from 0 on, or nothing past its end.
    pub fn at(&self, place: usize) -> Option<u32>
        ensures at { result ≡ slice_get self.now.sequence place }
        ensures order { IsOrder self.now }
    {
        self.sequence.get(place).copied()
    }

    /// Returns the successors of a number, each once, as the graph lists them, or nothing if the
    /// graph does not have the number.
    pub fn successors(&self, number: u32) -> Option<&[u32]>
        ensures successors { option_copied result ≡ slice_get self.now.lists number }
        ensures list { unwrap_or (option_copied result) [] ≡ successors_of self.now.lists number }
        ensures order { IsOrder self.now }
    {
        let list = self.lists.get(number as usize)?;
        Some(list)
    }
}
