use crate::progress_line::{Amount, ProgressLine};
use oci_command_line::Shown;
use oci_manifest::Key;
use oci_plan::Plan;
use oci_pool::Hooks;
use std::io::Write;
use std::sync::{Mutex, Wait};
use std::time::Clock;

/// Hooks that show the progress of a copy on stderr.
#[derive(Drop)]
pub enum Progress<'p, R, X> {
    /// Shows nothing.
    Nothing,
    /// Prints a line for each blob.
    EachBlob(BlobLines<'p, R, X>),
    /// Draws one line on a terminal.
    Line(ProgressLine<'p, R, X>),
}

impl<'p, R: Clock + Wait, X: Write> Progress<'p, R, X> {
    /// Creates the hooks for the copy of a plan.
    pub fn new(rt: &'p R, err: &'p mut X, shown: Shown, plan: &Plan) -> Progress<'p, R, X> {
        match shown {
            Shown::Nothing => Progress::Nothing,
            Shown::EachBlob => Progress::EachBlob(BlobLines::new(rt, err)),
            Shown::Line => Progress::Line(ProgressLine::new(rt, err, planned(plan))),
        }
    }

    /// Erases the line on the terminal. Called when the copy has ended.
    pub fn end(&self) {
        if let Progress::Line(line) = self {
            line.erase();
        }
    }
}

impl<'p, R: Clock + Wait, X: Write> Hooks for Progress<'p, R, X> {
    fn pre_copy(&self, _key: &Key) {}

    fn part_arrived(&self, _key: &Key, length: usize) {
        if let Progress::Line(line) = self {
            line.add_bytes(length);
        }
    }

    fn post_copy(&self, key: &Key) {
        match self {
            Progress::Nothing => {}
            Progress::EachBlob(lines) => lines.print("pushed", key),
            Progress::Line(line) => line.add_blob(),
        }
    }

    fn skipped(&self, key: &Key) {
        if let Progress::EachBlob(lines) = self {
            lines.print("skipped", key);
        }
    }
}

/// The amount of all blobs of a plan.
fn planned(plan: &Plan) -> Amount {
    let mut all = Amount::NONE;
    for key in plan.keys() {
        all = all.with(key);
    }
    all
}

/// Prints a line for each blob: `pushed` and the key if it arrived, `skipped` and the key for a
/// root that the destination already had. A lock keeps each line whole. If a line cannot be
/// written, it is left out and the copy goes on.
#[derive(Drop)]
pub struct BlobLines<'p, R, X> {
    rt: &'p R,
    err: Mutex<&'p mut X>,
}

impl<'p, R: Wait, X: Write> BlobLines<'p, R, X> {
    fn new(rt: &'p R, err: &'p mut X) -> BlobLines<'p, R, X> {
        BlobLines {
            rt,
            err: Mutex::new(err),
        }
    }

    fn print(&self, verb: &str, key: &Key) {
        let mut err = self.err.lock(self.rt);
        let _ = writeln!(err, "{verb} {key}");
    }
}
