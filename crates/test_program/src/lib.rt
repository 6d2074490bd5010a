//! Tests of `oci_program`: what its calls print that no session shows, since it depends on the time, or
//! on sizes that no layout has.
//! This crate has only tests. `checks/sessions` has the tests of the commands.
#![tactic(auto)]

#[cfg(test)]
mod progress_line;
#[cfg(test)]
mod sums;
