ghost use Rattle.std.specs.Prelude.{◌≡◌, ◌==◌, ◌≤◌, length, slice_get, IfNone, IfSome};
ghost use Rattle.std.specs.Option.{option_copied};
ghost use Rattle.oci_plan.specs.Plan.{IsPlan, IsKeyAt};

use crate::ordering::Order;
use oci_manifest::Key;
use std::marker::Model;

/// The keys that a copy has to push, each with a number, and an order of the numbers in which each
/// key follows the keys that it lists.
#[derive(Debug)]
pub struct Plan {
    keys: Vec<Key>,
    order: Order,
    skipped: Vec<Key>,
}

/// Written out, so that a proof has one call where it is dropped.
impl Drop for Plan {
    fn drop(self) {
        let Plan {
            keys: _keys,
            order: _order,
            skipped: _skipped,
        } = self;
    }
}

impl Model for Plan {
    ghost use Rattle.oci_plan.specs.Plan.{Planned, IsPlan};

    ghost Value = { Planned };

    ghost view = { λ p. record {
      keys = p.keys.items;
      order = p.order;
      skipped = p.skipped.items;
    } };

    ghost invariant = { λ p. IsPlan (record {
      keys = p.keys.items;
      order = p.order;
      skipped = p.skipped.items;
    }) };
}

impl Plan {
    /// Creates a plan of these keys.
    pub(crate) fn new(keys: Vec<Key>, order: Order, skipped: Vec<Key>) -> Plan
        requires { IsPlan (record { keys = keys.items; order = order; skipped = skipped.items }) }
        ensures { result ≡ record { keys = keys.items; order = order; skipped = skipped.items } }
    {
        Plan {
            keys,
            order,
            skipped,
        }
    }

    /// Returns the number of keys to copy.
    pub fn len(&self) -> usize
        ensures len { result ≡ length self.now.keys }
        ensures plan { IsPlan self.now }
    {
        self.keys.len()
    }

    /// Returns whether there is nothing to copy.
    pub fn is_empty(&self) -> bool
        ensures { result ≡ (length self.now.keys == 0) }
    {
        self.keys.is_empty()
    }

    /// Returns the keys to copy, by number.
    pub fn keys(&self) -> &[Key]
        ensures { result.now ≡ self.now.keys }
    {
        &self.keys
    }

    /// Returns the key with a number, from 0 on, or nothing if the plan does not have the number.
    pub fn key(&self, number: u32) -> Option<&Key>
        ensures { option_copied result ≡ slice_get self.now.keys number }
    {
        self.keys.get(number as usize)
    }

    /// Returns the key at a place of the order, from 0 on, or nothing past its end.
    pub fn key_in_order(&self, place: usize) -> Option<&Key>
        ensures key { IfSome result (λ key. IsKeyAt self.now place key.now) }
        ensures past { IfNone result (length self.now.keys ≤ place) }
    {
        let number = self.order.at(place)?;
        Some(&self.keys[number as usize])
    }

    /// Returns the order of the numbers: each follows its successors.
    pub fn order(&self) -> &Order
        ensures { result.now ≡ self.now.order }
    {
        &self.order
    }

    /// Returns the roots that the destination had, each once, in their order.
    pub fn skipped(&self) -> &[Key]
        ensures { result.now ≡ self.now.skipped }
    {
        &self.skipped
    }
}
