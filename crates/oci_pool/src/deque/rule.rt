ghost use Rattle.std.specs.Prelude.{◌≡◌, ◌++◌, []};
ghost use Rattle.oci_pool.specs.Balance.{tally};

use crossbeam_deque::protocol::{Outcome, Protocol};
use std::collections::LinkedList;

/// The numbers that one seat of a deque has put and taken. No value of this type is made.
pub(crate) struct Tally {
    pub put: LinkedList<u32>,
    pub taken: LinkedList<u32>,
}

/// The rule of a deque: it holds a number as often as the number was put into it and not yet taken
/// from it.
pub(crate) struct Balanced;

impl Protocol<u32, Tally> for Balanced {
    ghost use Rattle.std.specs.Prelude.{[]};
    ghost use Rattle.oci_pool.specs.Balance.{tally, IsBalanced};

    ghost holds = { IsBalanced };

    ghost first = { tally [] [] };

    ghost guest = { tally [] [] };
}

/// The step of `push_as`: the numbers are added to those that the seat has put.
pub(crate) struct Puts;

impl Outcome<u32, Tally> for Puts {
    ghost use Rattle.std.specs.Prelude.{◌≡◌, ◌++◌};
    ghost use Rattle.oci_pool.specs.Balance.{tally};

    ghost then = { λ v xs w. w ≡ tally (v.put ++ xs) v.taken };
}

/// The step of `pop_as` and `steal_as`: the numbers are added to those that the seat has taken.
pub(crate) struct Takes;

impl Outcome<u32, Tally> for Takes {
    ghost use Rattle.std.specs.Prelude.{◌≡◌, ◌++◌};
    ghost use Rattle.oci_pool.specs.Balance.{tally};

    ghost then = { λ v xs w. w ≡ tally v.put (v.taken ++ xs) };
}
