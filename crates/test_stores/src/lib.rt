//! Tests of digests, manifests, stores and plans through their public calls.
//!
//! This crate contains only tests. The contracts are proved for every input. The tests cover the
//! rest: that a call succeeds if memory is available, and that numbers, sizes and digests of known
//! contents agree with other tools. How errors print is compared by `checks/explained.py`.
//!
//! `test_support` creates the contents and the stores with them. `tests` has one module for each
//! part of the library: `digests`; `manifests`; `pushes`, `graphs`, `tags` and `traits` (stores);
//! `orders`, `plans` and `climbs`. Most tests are rows of data for one function. `texts` has the
//! printed keys of the contents.
#![tactic(auto)]

#[cfg(test)]
mod tests;
