//! A store that is read while it grows.
//!
//! A [`LiveStore`] is opened on a closed store ([`oci_store::ClosedStore`]) and is a destination of
//! copies. Each push publishes one entry. The store holds exactly the published entries, and is
//! closed at every moment. Its history is the list of its entries in order of publication, which
//! only grows.
//!
//! A [`Look`] reads the store from another thread. Each result is exact for one prefix of the
//! history. This prefix is no shorter than the ones that the look has shown before. So a look never
//! goes back, never shows an entry that was not published, and never shows a manifest without the
//! keys that it lists. No call of a look waits for a push. A push may wait for calls of looks that
//! have begun.
//!
//! Two looks may have seen different prefixes. A [`Note`] records the published entries at one
//! moment. A look that [learns](Look::learn) a note shows at least that prefix from then on. So a
//! thread that has pushed can pass a note to a thread that reads.
//!
//! Each error has a number. [`LookFault`]: 45 to 47. [`LiveFault`]: 48. A push fails as in any
//! store ([`oci_store::PushFault`]). If its publication runs out of memory, the store halts. It
//! keeps its published entries, and can still be read. Later pushes that pass all other checks
//! return `Halted` (44).
//!
//! A push, `exists` and `fetch` take logarithmic time in the number of entries. No content is
//! copied, hashed or read again. Keys, and the keys that each lists, are kept twice.
#![tactic(auto)]

mod fault;
mod history;
mod live_store;
mod look;
mod note;
mod opening;
mod publishing;
mod question;
mod reading;
mod rule;
mod shelf;

pub use fault::{LiveFault, LookFault};
pub use live_store::LiveStore;
pub use look::Look;
pub use note::Note;
