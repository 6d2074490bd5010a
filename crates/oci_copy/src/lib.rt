//! Copies of content graphs from one store to another (oras-go v2, "Copy" and "CopyGraph").
//!
//! | Call | Copies |
//! |---|---|
//! | [`copy_graph`] | the keys that the source reaches from a list of roots, by workers |
//! | [`copy_one`] | these keys, on the calling thread |
//! | [`copy`] | the graph of the key that a reference resolves to, by workers; it also sets a tag |
//! | [`extended_copy_graph`] | like `copy_graph`, with all keys that lead to a key |
//! | [`extended_copy`] | like `copy`, with all keys that lead to its key |
//! | [`copy_memory_by_workers`] | like `copy_graph`, between stores in memory |
//! | [`copy_memory`] | like `copy_one`, between stores in memory |
//! | [`repair_memory_by_workers`] | like `copy_memory_by_workers`, also below keys that are held |
//! | [`repair_memory`] | like `copy_memory`, also below keys that are held |
//! | [`plan_copy`] | nothing: it returns the plan of `copy_graph` |
//! | [`copy_plan`] | the keys of a plan that `plan_copy` returned, by workers |
//!
//! A key leads to another if the source's graph has a path from the one to the other. An image's
//! signatures and indexes lead to the image.
//!
//! After a successful copy the destination has its earlier keys and the keys that the source
//! reaches from the roots, and no others. The destination is always returned. An error leaves all
//! that the destination had, and perhaps some of the keys to copy. A destination that was closed
//! stays closed, and the tags are unchanged. These guarantees after an error, and the order of the
//! errors, hold for any store, honest or not.
//!
//! A copy with `Existing::Skip` assumes that a key of the destination has all that it lists, and
//! does not look below it. So the destination has to be closed: it holds every key that its keys
//! list. If it is not closed, nothing is copied. A copy with `Existing::Descend` also looks below
//! the keys that the destination holds, and copies the keys that are missing there. The destination
//! need not be closed. The copy reads the manifests of these keys in the source, and passes over a
//! key that the source does not have.
//!
//! Some statements need an honest source: which keys are new and what each of them lists, which
//! plan error comes first, and that a key named by an error had to be copied. That nothing else is
//! in the destination also needs two graphs that agree: a key of both lists the same keys in both.
//! Statements about bytes also need a destination whose device returns the bytes that were written
//! and did not fail during the copy. If it keeps one file per digest, contents of one digest have
//! to be equal. Stores in memory meet all of this except the agreement, which fails only if two
//! contents have one size and one digest.
//!
//! During a copy by workers, the destination is in a lock that the workers share, as a
//! [`LockedDestination`]. The contract of its method states what holds whenever the lock is free. A
//! worker fetches and reads content outside the lock. If a leaf is read part by part, the worker
//! also hashes the parts and writes them to a draft outside the lock.
#![tactic(auto)]

mod by_reference;
mod copy_jobs;
mod copy_start;
mod extended;
mod fault;
mod fetching;
mod graph;
mod held;
mod job;
mod locked;
mod memory;
mod options;
mod planned;
mod planning;
mod report;
mod single;
mod under_lock;

pub use by_reference::copy;
pub use copy_start::CopyStart;
pub use extended::{extended_copy, extended_copy_graph};
pub use fault::CopyFault;
pub use graph::copy_graph;
pub use locked::LockedDestination;
pub use memory::{copy_memory, copy_memory_by_workers, repair_memory, repair_memory_by_workers};
pub use oci_digest::Digest;
pub use oci_manifest::Key;
pub use oci_plan::{Existing, Plan, climb};
pub use oci_pool::{Hooks, MAX_WORKERS, NoHooks};
pub use options::Options;
pub use planned::copy_plan;
pub use planning::plan_copy;
pub use report::Report;
pub use single::copy_one;
