//! The parts that the commands of the program share: faults and exit statuses, the printing of answers,
//! and the locking of folders.
//!
//! | Type | What it is |
//! |---|---|
//! | [`ProgramFault`] | why a command is refused, by a fault from below or one of 92 to 95, 99 and 107 to 110 |
//! | [`Outcome`] | the result of a command that was not refused |
//! | [`Form`] | lines or JSON, the form in which a command prints |
//! | [`Ending`] | why a run ended early: an invalid command line, or a refused command |
//! | [`Ended`] | how a run ended: its exit status, and its [`Refusal`] |
//! | [`Sides`], [`RefusedPath`], [`Reason`] | the folders of a command line, and the cause of a refusal |
//! | [`Tagged`], [`Sum`] | parts of answers: a tag with its key, and a sum |
//!
//! A command returns an [`Outcome`] or a [`ProgramFault`]. [`print_answer`] prints its answer.
//! [`finish_run`] ends its run, and [`end_early`] a run that did not come to a command.
//! [`lock_folder`] and [`make_and_lock_folder`] lock the folder that a command writes into;
//! [`check_is_layout`] looks before whether it has a layout, and [`open_settled`] opens that after.
//! [`check_index`] refuses to remove blobs from a folder that has lost its `index.json`, and [`SeenIndex`]
//! to write over an index that another program wrote meanwhile.
#![tactic(auto)]

mod answer;
mod ending;
mod fault;
mod finish;
mod indexed;
mod kind;
mod locking;
mod opened;
mod outcome;
mod refusal;
mod refusal_document;
mod refused;
mod refused_path;
mod seen_index;
mod sum;

pub use answer::{Form, Tagged, print_answer};
pub use ending::Ending;
pub use fault::ProgramFault;
pub use finish::{Ended, end_early, finish_run};
pub use indexed::check_index;
pub use locking::{check_is_layout, lock_folder, make_and_lock_folder};
pub use opened::open_settled;
pub use outcome::Outcome;
pub use refusal::{Refusal, Subject};
pub use refused_path::{Reason, RefusedPath, Side, Sides};
pub use seen_index::SeenIndex;
pub use sum::Sum;
