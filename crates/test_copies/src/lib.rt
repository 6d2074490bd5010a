//! Tests of copies, on one thread and by workers, run through their public calls.
//!
//! A proof covers all that a contract states, for every input and every order of the workers. The
//! tests show the rest: that a call succeeds with enough memory and returns, that two workers run
//! at the same time, when hooks are called, and the state after a store fails once.
//!
//! `tests` has `graphs` (small graphs, on one thread and with each number of workers), `references`
//! (copies by a reference), `referrers` (extended copies, of a key and of a reference), `refusals`
//! (limits and open destinations), `descending` (copies that look below held keys), `hooks` (when
//! they are called), `meetings` (two workers at the same time), `failing` (stores that fail once)
//! and `large` (many layers and long chains). Most of these are rows of data for `copies`, which
//! runs each row and asserts its report and its effect; `calls` has the calls that copy. How each
//! refusal prints is compared by `checks/explained.py`.
#![tactic(auto)]

#[cfg(test)]
mod tests;
