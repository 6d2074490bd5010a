ghost use Rattle.std.specs.Prelude.{flat_map};
ghost use Rattle.std.specs.Fmt.{WritesOnOk};
ghost use Rattle.oci_repair_commands.specs.Answered.{counts_line, missing_line, repaired_line};

use oci_manifest::Key;
use oci_program::Sum;
use serde::Serialize;
use std::fmt;
use std::fmt::Display;

/// What a repair made whole, and what is missing. `Display` prints a line for each key, and a last
/// line with the counts.
#[derive(Drop, Serialize)]
pub struct RepairAnswer {
    /// The keys whose files were put, in key order.
    pub repaired: Vec<Key>,
    /// The keys that are missing or damaged and could not be repaired, in key order.
    pub missing: Vec<Key>,
    /// How many of the reached keys have a whole file now.
    pub held: usize,
    /// The bytes of the files that were put, each file counted once.
    pub bytes: Sum,
}

impl RepairAnswer {
    /// Prints the last line.
    fn print_counts<W: fmt::Write>(&self, f: &mut fmt::Formatter<W>) -> fmt::Result
        ensures { WritesOnOk W.write_str_gives f.old result (counts_line self.now) f.new }
    {
        let (held, repaired) = (self.held, self.repaired.len());
        let (bytes, missing) = (self.bytes, self.missing.len());
        writeln!(
            f,
            "held {held} repaired {repaired} bytes {bytes} missing {missing}"
        )
    }
}

impl Display for RepairAnswer {
    ghost use Rattle.std.specs.Prelude.{Some};
    ghost use Rattle.oci_repair_commands.specs.Answered.{repair_text};

    ghost output = { λ answer. Some (repair_text answer) };

    fn fmt<W: fmt::Write>(&self, f: &mut fmt::Formatter<W>) -> fmt::Result {
        print_repaired(&self.repaired, f)?;
        print_missing(&self.missing, f)?;
        self.print_counts(f)
    }
}

/// Prints the line of each repaired key.
fn print_repaired<W: fmt::Write>(keys: &[Key], f: &mut fmt::Formatter<W>) -> fmt::Result
    ensures { WritesOnOk W.write_str_gives f.old result (flat_map repaired_line keys.now) f.new }
{
    for key in keys {
        writeln!(f, "repaired {key}")?;
    }
    Ok(())
}

/// Prints the line of each missing key.
fn print_missing<W: fmt::Write>(keys: &[Key], f: &mut fmt::Formatter<W>) -> fmt::Result
    ensures { WritesOnOk W.write_str_gives f.old result (flat_map missing_line keys.now) f.new }
{
    for key in keys {
        writeln!(f, "missing {key}")?;
    }
    Ok(())
}
