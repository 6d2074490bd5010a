ghost use Rattle.std.specs.Prelude.{◌≡◌, ◌++◌, ◌-◌, ◌^◌, map, min, string_bytes, sum_by, None, Some, IfOk, IfSome, OnOk};
ghost use Rattle.std.specs.Fmt.{DisplaysOnOk};
ghost use Rattle.std.specs.Io.KnownBytes.{Appends};
ghost use Rattle.oci_dir.specs.Prunable.{by_name};
ghost use Rattle.oci_prune.specs.Pruned.{flagged};
ghost use Rattle.oci_prune_answer.specs.Pruned.{as_shown, counts_text, file_line, file_lines, of_draft, of_file, shown, ShowsPlan, ShowsPruned};

use oci_digest::NoMemory;
use oci_manifest::Key;
use oci_program::{Form, Outcome, ProgramFault, Sum, print_answer};
use oci_prune::{PrunePlan, Pruned, PrunedFile};
use oci_prune_fault::PruneFault;
use serde::Serialize;
use std::alloc::Global;
use std::fmt;
use std::fmt::Display;
use std::io::Write;

/// What a prune removed.
///
/// It prints a line for each held key, in key order, and then a line for each file that no held key
/// had, in byte order of the paths, with its length. The last line counts the kept and the removed
/// keys, and all files that were removed, with the sum of their lengths. If free keys stay, it counts
/// them too.
#[derive(Drop, Serialize)]
pub struct PruneAnswer {
    /// The removed keys, in key order.
    removed: Vec<Key>,
    /// The removed files, in byte order of the paths.
    files: Vec<RemovedFile>,
    /// The number of kept keys.
    kept: usize,
    /// The sum of the lengths of the files.
    bytes: Sum,
    /// The number of free keys that stay, if they were counted.
    #[serde(rename = "untaggedLeft", skip_serializing_if = "Option::is_none")]
    untagged_left: Option<usize>,
}

/// A file that a prune removed.
#[derive(Drop, Serialize)]
struct RemovedFile {
    path: String,
    /// The length of the file in bytes.
    length: u64,
    /// Whether a held key had the file.
    #[serde(skip)]
    is_held: bool,
}

impl PruneAnswer {
    /// Returns what the prune of a plan removed: the keys of the plan, if the index is saved, and those
    /// of its files and drafts that went. If it is not saved, all keys are kept. `untagged_left` is the
    /// number of free keys that stay, if they were counted.
    ///
    /// # Errors
    ///
    /// Returns [`NoMemory`] if an allocation fails.
    pub fn of(
        alloc: Global,
        plan: PrunePlan,
        pruned: &Pruned,
        untagged_left: Option<usize>,
    ) -> Result<PruneAnswer, NoMemory>
        ensures shown { IfOk result (ShowsPruned plan pruned.now) }
        ensures left { IfOk result (λ answer. answer.untagged_left ≡ untagged_left) }
    {
        let PrunePlan {
            kept,
            removed,
            files,
            drafts,
        } = plan;
        let mut gone = Vec::new(alloc);
        let (kept, removed) = match pruned.saved {
            Ok(()) => (kept.len(), removed),
            Err(_) => (kept.len().saturating_add(removed.len()), Vec::new(alloc)),
        };
        add_files(alloc, &files, &pruned.files, &mut gone)?;
        add_drafts(drafts, &pruned.drafts, &mut gone)?;
        gone.sort_by(|one, other| one.path.cmp(&other.path))?;
        Ok(PruneAnswer {
            removed,
            bytes: sum_of_lengths(&gone),
            files: gone,
            kept,
            untagged_left,
        })
    }

    /// Returns what the prune of a plan would remove: all that is planned. `untagged_left` is the number
    /// of free keys that would stay, if they were counted.
    ///
    /// # Errors
    ///
    /// Returns [`NoMemory`] if an allocation fails.
    pub fn planned(
        alloc: Global,
        plan: PrunePlan,
        untagged_left: Option<usize>,
    ) -> Result<PruneAnswer, NoMemory>
        ensures shown { IfOk result (ShowsPlan plan) }
        ensures left { IfOk result (λ answer. answer.untagged_left ≡ untagged_left) }
    {
        let pruned = Pruned {
            saved: Ok(()),
            files: vec![in alloc; true; plan.files.len()]?,
            drafts: vec![in alloc; true; plan.drafts.len()]?,
            fault: None,
        };
        PruneAnswer::of(alloc, plan, &pruned, untagged_left)
    }

    /// Prints the counts.
    fn fmt_counts<W: fmt::Write>(&self, f: &mut fmt::Formatter<W>) -> fmt::Result
        ensures { DisplaysOnOk W.write_str_gives f.old result (Some (counts_text self.now)) f.new }
    {
        let (kept, removed) = (self.kept, self.removed.len());
        let (files, bytes) = (self.files.len(), self.bytes);
        write!(
            f,
            "kept {kept} removed {removed} files {files} bytes {bytes}"
        )
    }
}

/// The number of free keys that stay, if they were counted. `Display` prints it if there is one, and
/// then ends the line.
#[derive(Clone, Copy)]
struct UntaggedLeft(Option<usize>);

impl Display for UntaggedLeft {
    ghost use Rattle.std.specs.Prelude.{Some};
    ghost use Rattle.oci_prune_answer.specs.Pruned.{left_text};

    ghost output = { λ left. Some (left_text left.0) };

    fn fmt<W: fmt::Write>(&self, f: &mut fmt::Formatter<W>) -> fmt::Result {
        let Some(count) = self.0 else {
            return f.write_str("\n");
        };
        if count == 0 {
            return f.write_str("\n");
        }
        writeln!(f, " untagged {count} (see --untagged)")
    }
}

impl Display for PruneAnswer {
    ghost use Rattle.oci_prune_answer.specs.Pruned.{prune_text};

    ghost output = { λ a. Some (prune_text a) };

    fn fmt<W: fmt::Write>(&self, f: &mut fmt::Formatter<W>) -> fmt::Result {
        for key in &self.removed {
            writeln!(f, "removed {key}")?;
        }
        fmt_files(&self.files, f)?;
        self.fmt_counts(f)?;
        write!(f, "{}", UntaggedLeft(self.untagged_left))
    }
}

/// Prints a line for each draft, and for each file that no held key had.
fn fmt_files<W: fmt::Write>(files: &[RemovedFile], f: &mut fmt::Formatter<W>) -> fmt::Result
    ensures { DisplaysOnOk W.write_str_gives f.old result (Some (file_lines files.now)) f.new }
{
    for file in files {
        file.fmt_unheld(f)?;
    }
    Ok(())
}

impl RemovedFile {
    /// The removed file of a planned one.
    fn of_file(alloc: Global, file: &PrunedFile) -> Result<RemovedFile, NoMemory>
        ensures { IfOk result (λ it. as_shown it ≡ of_file file.now) }
    {
        Ok(RemovedFile {
            path: file.path(alloc)?,
            length: file.length,
            is_held: file.is_held,
        })
    }

    /// The removed file of a draft. No held key has a draft.
    fn of_draft(draft: (String, u64)) -> RemovedFile
        ensures { as_shown result ≡ of_draft (string_bytes draft.0, draft.1) }
    {
        let (path, length) = draft;
        RemovedFile {
            path,
            length,
            is_held: false,
        }
    }

    /// Prints the line of the file, if no held key had it.
    fn fmt_unheld<W: fmt::Write>(&self, f: &mut fmt::Formatter<W>) -> fmt::Result
        ensures { DisplaysOnOk W.write_str_gives f.old result (Some (file_line self.now)) f.new }
    {
        if self.is_held {
            return Ok(());
        }
        writeln!(f, "removed-file {} {}", self.path, self.length)
    }
}

/// Adds the files that went.
fn add_files(
    alloc: Global,
    files: &[PrunedFile],
    went: &[bool],
    gone: &mut Vec<RemovedFile>,
) -> Result<(), NoMemory>
    ensures { OnOk result (shown gone.new.items
        ≡ shown gone.old.items ++ map of_file (flagged files.now went.now)) }
{
    for (file, went) in files.iter().zip(went.iter()) {
        if *went {
            gone.push(RemovedFile::of_file(alloc, file)?)?;
        }
    }
    Ok(())
}

/// Adds the drafts that went. No held key has a draft.
fn add_drafts(
    drafts: Vec<(String, u64)>,
    went: &[bool],
    gone: &mut Vec<RemovedFile>,
) -> Result<(), NoMemory>
    ensures { OnOk result (shown gone.new.items
        ≡ shown gone.old.items ++ map of_draft (flagged (by_name drafts.items) went.now)) }
{
    for (draft, is_gone) in drafts.into_iter().zip(went.iter()) {
        if *is_gone {
            gone.push(RemovedFile::of_draft(draft))?;
        }
    }
    Ok(())
}

/// The sum of the lengths of some files.
fn sum_of_lengths(files: &[RemovedFile]) -> Sum
    ensures { result.0 ≡ min (sum_by (λ f. f.length) (shown files.now)) (2 ^ 128 - 1) }
{
    let mut sum = 0u128;
    for file in files {
        sum = sum.saturating_add(u128::from(file.length));
    }
    Sum(sum)
}

/// Prints the answer of a command that pruned, and then refuses the command if the prune has a
/// fault.
///
/// # Errors
///
/// - The fault of the prune, such as 79 `NotRemoved`, or 74 `Device` if the index is not saved. The
///   answer is printed and `out` is flushed before, unless memory ran out.
/// - 94 `Output` if `out` cannot be written.
/// - Out of memory, at any point.
pub fn print_answer_with_fault<T: Display + Serialize, W: Write>(
    alloc: Global,
    answer: &T,
    fault: Option<PruneFault>,
    form: Form,
    out: &mut W,
) -> Result<Outcome, ProgramFault>
    ensures whole { OnOk result (fault ≡ None) }
    ensures good { IfOk result (λ outcome. outcome ≡ Outcome.Good) }
    ensures lines { form ≡ Form.Lines → OnOk result (IfSome (T.output answer.now)
        (Appends (W.contents out.old) (W.contents out.new))) }
{
    match fault {
        None => print_answer(alloc, answer, form, out),
        Some(PruneFault::Memory) => Err(ProgramFault::Prune(PruneFault::Memory)),
        Some(fault) => {
            print_answer(alloc, answer, form, out)?;
            out.flush().map_err(ProgramFault::of_output)?;
            Err(ProgramFault::Prune(fault))
        }
    }
}
