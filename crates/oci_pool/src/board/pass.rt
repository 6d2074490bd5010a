ghost use Rattle.std.specs.Prelude.{◌≡◌};

use std::marker::Model;

/// The permission to run the job of one number. Only [`Board::pass`](crate::Board::pass) makes one,
/// once for each number. No module outside `board` can name its constructor, and it cannot be
/// copied.
#[derive(Debug, Drop)]
pub struct Pass {
    number: u32,
}

impl Model for Pass {
    ghost use Rattle.std.specs.Prelude.{ℕ};

    ghost Value = { ℕ };

    ghost view = { λ p. p.number };
}

impl Pass {
    /// Creates the pass of a number. The board has not given it before.
    pub(super) fn of(number: u32) -> Pass
        ensures { result ≡ number }
    {
        Pass { number }
    }

    /// Returns the number whose job may be run.
    pub fn number(&self) -> u32
        ensures { result ≡ self.now }
    {
        self.number
    }
}
