//! Tests of live stores: copies into them, and looks at them during copies.
//!
//! [`copy_and_tell`] is proved: after a copy, a look that was told of it has everything that was
//! copied. The tests cover the rest: that calls succeed if memory is available, that a look can be
//! used in the middle of a copy and from another thread, and that a push is visible at once.
//!
//! In `tests`, `looks` tests looks before, during and after copies. `copies` tests the results of
//! each kind of copy. `pushes` tests errors, and the contents of a live store. `stores` has their
//! shared parts.
#![tactic(auto)]

mod telling;
#[cfg(test)]
mod tests;

pub use telling::copy_and_tell;
