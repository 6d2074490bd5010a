//! The command of `ocicp` that repairs an image layout: [`run_repair`] brings its missing and
//! damaged blobs from other layouts.
#![tactic(auto)]

mod answer;
mod plan;
mod run;

pub use run::run_repair;
