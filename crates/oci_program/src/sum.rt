use serde::{Described, Serialize, Serializer};
use std::fmt;

/// A sum of sizes or of counts. `Display` prints its digits. `Serialize` writes a number if it is at
/// most 2^64 - 1, and otherwise a text of its digits, since readers of JSON take no larger integer
/// as it is.
#[derive(Clone, Copy)]
pub struct Sum(pub u128);

impl fmt::Display for Sum {
    ghost use Rattle.std.specs.Prelude.{Some};
    ghost use Rattle.std.specs.Fmt.{decimal};

    ghost output = { λ sum. Some (decimal sum.0) };

    fn fmt<W: fmt::Write>(&self, f: &mut fmt::Formatter<W>) -> fmt::Result {
        write!(f, "{}", self.0)
    }
}

impl Described for Sum {}

impl Serialize for Sum {
    fn serialize<S: Serializer>(&self, out: &mut S) -> Result<(), S::Error> {
        match u64::try_from(self.0) {
            Ok(number) => out.u64(number),
            Err(_) => out.collect_str(self),
        }
    }
}
