//! The commands of `ocicp` that read one image layout and change nothing: `tags`, `resolve`,
//! `predecessors`, `tree`, `cat` and `verify`. [`run_query`] opens the layout and runs one of them.
//! Each returns its answer as a value, which is printed as lines or as a JSON document, but `cat`,
//! which writes the bytes of a blob.
//!
//! A damaged file, or an entry of the index that is no descriptor, stops no command that does not
//! need it. `tags`, `predecessors`, and `tree` with referrers, which speak of a whole layout, print
//! what they know of the blobs that it holds, and then refuse each such entry and each damaged
//! manifest. `verify` of a whole layout reports each damaged file, and then refuses each such entry.
//!
//! `repair` checks a layout as `verify` does, so it shares [`Progress`], [`number_of_workers`] and
//! [`print_findings_of_all`].
#![tactic(auto)]

mod broken;
mod cat;
mod checking;
mod foreign;
mod left_out;
mod listing;
mod named;
mod query;
mod set;
mod tree;
mod verify;

pub use checking::{Progress, number_of_workers};
pub use left_out::print_findings_of_all;
pub use query::run_query;
