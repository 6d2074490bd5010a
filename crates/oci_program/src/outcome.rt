ghost use Rattle.std.specs.Prelude.{◌≡◌};
ghost use Rattle.oci_program.specs.Status.{status_of_done};

/// The result of a command that was not refused.
#[derive(Clone, Copy)]
pub enum Outcome {
    /// Nothing is wrong.
    Good,
    /// Something is wrong, and the output says it.
    Faulty,
}

impl Outcome {
    /// Returns the exit status: 0 for `Good`, and otherwise 1.
    pub fn status(self) -> u8
        ensures status { result ≡ status_of_done self }
        ensures good { result ≡ 0 → self ≡ Outcome.Good }
    {
        match self {
            Outcome::Good => 0,
            Outcome::Faulty => 1,
        }
    }
}
