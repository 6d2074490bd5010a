//! The repair of an image layout: blobs that are missing or damaged are brought from other layouts.
//!
//! [`plan_repair`] walks from the entries of a layout's index along the manifests of the layout and
//! of the [sources](RepairSource). It finds the first source that has each blob which the layout
//! does not have whole, and changes nothing. [`repair`] puts the files of such a plan. It changes
//! neither the index nor any other file, and a file is replaced as a whole.
//!
//! Of a source only the files under `blobs` are read, and a file counts whether or not its index
//! reaches it. A blob of any size takes one part of memory.
//!
//! Statements about files assume that the directories return what was written into them, and that no
//! other program writes into them.
//!
//! [`RepairFault`] has the numbers 22, 63, 74 and 88.
#![tactic(auto)]

mod blob;
mod fault;
mod plan;
mod run;
mod search;
mod source;

pub use fault::RepairFault;
pub use plan::{RepairPlan, plan_repair};
pub use run::repair;
pub use source::RepairSource;
