ghost use Rattle.std.specs.Prelude.{◌≡◌, ◌≤◌, ℕ, None, Some};

use oci_dir::Dir;
use oci_layout_store::Layout;
use oci_manifest::Key;
use oci_progress::{Amount, ProgressLine};
use oci_store::{Dest, PartWatcher};
use oci_verify::{FileWatcher, is_asked};
use std::collections::BTreeSet;
use std::io::Write;
use std::sync::Wait;
use std::thread::{Threads, available_parallelism};
use std::time::Clock;

/// The greatest number of workers without `--workers`.
const MOST_WORKERS: usize = 64;

/// Returns the given number of workers, or else the number of processors, at most 64, or 0 if that is
/// not known.
pub fn number_of_workers<R: Threads>(rt: &R, given: Option<u32>) -> u32
    ensures given { (count : ℕ) → given ≡ Some count → result ≡ count }
    ensures most { given ≡ None → result ≤ 64 }
{
    if let Some(workers) = given {
        return workers;
    }
    match available_parallelism(rt) {
        Ok(count) => count.get().min(MOST_WORKERS) as u32,
        Err(_) => 0,
    }
}

/// Counts the keys that were checked and their bytes on a line on the terminal, if it is shown. Of
/// a file that does not match its key at most as many bytes are counted as the key's size, so the
/// line never shows more than the whole, but it may end below it.
#[derive(Drop)]
pub struct Progress<'p, R, X> {
    line: Option<ProgressLine<'p, R, X>>,
}

impl<'p, R: Clock + Wait, X: Write> Progress<'p, R, X> {
    /// Creates the line for the blobs of a layout that are asked for, all or those of a set, if it is
    /// shown.
    pub fn new<D: Dir>(
        rt: &'p R,
        err: &'p mut X,
        layout: &Layout<D>,
        asked: Option<&BTreeSet<Key>>,
        is_shown: bool,
    ) -> Progress<'p, R, X> {
        if !is_shown {
            return Progress { line: None };
        }
        let mut all = Amount::NONE;
        for place in 0..layout.count() {
            let Some(key) = layout.key(place) else {
                break;
            };
            if is_asked(asked, key) {
                all = all.with(key);
            }
        }
        Progress {
            line: Some(ProgressLine::new(rt, err, all)),
        }
    }

    /// Erases the line.
    pub fn end(self) {
        if let Some(line) = self.line {
            line.erase();
        }
    }
}

impl<'p, R: Clock + Wait, X: Write> PartWatcher for Progress<'p, R, X> {
    fn part_arrived(&self, length: usize) {
        if let Some(line) = &self.line {
            line.add_bytes(length);
        }
    }
}

impl<'p, R: Clock + Wait, X: Write> FileWatcher for Progress<'p, R, X> {
    fn file_checked(&self) {
        if let Some(line) = &self.line {
            line.add_blob();
        }
    }
}
