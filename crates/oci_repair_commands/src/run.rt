ghost use Rattle.std.specs.Prelude.{◌≡◌, true, false, IfOk, OnOk};
ghost use Rattle.std.specs.Io.KnownBytes.{Appends};
ghost use Rattle.oci_repair_commands.specs.Answered.{repair_text, IsOutcome};
ghost use Rattle.oci_repair_commands.specs.Repaired.{IsDryRepair, IsOpened, IsRepairRun};
ghost use Rattle.oci_dir.specs.Crash.{OnlySettles};
ghost use Rattle.oci_repair_commands.specs.declared.answer.RepairAnswer.{RepairAnswer};

use crate::answer::RepairAnswer;
use crate::plan::{Task, check_sources, of_repair, plan};
use oci_command_line::RepairWords;
use oci_digest::NoMemory;
use oci_dir::Dir;
use oci_folder::{FolderLock, Lockable};
use oci_layout_store::{Layout, LayoutFault, blob_path};
use oci_manifest::Key;
use oci_program::{Form, Outcome, ProgramFault, lock_folder};
use oci_query_commands::print_findings_of_all;
use oci_repair::{RepairSource, repair};
use std::alloc::Global;
use std::io::Write;
use std::rt::Files;
use std::sync::Wait;
use std::thread::Threads;
use std::time::Clock;

/// `repair FOLDER FROM..`: puts the files of blobs which the layout in a directory lacks or has
/// damaged, each from the first source that has it, and prints in this form what was repaired and
/// what is missing. The directory is the words' folder, which is locked from before the layout is
/// opened until after the last file is put. With `--dry-run` nothing is locked or changed, and the
/// same is printed. `F` is [`ProgramFault`] or another type that is made from one.
///
/// # Errors
///
/// With all but 74, 88, 94 and a memory error nothing is changed. After any of them each file is the
/// old one or a whole one.
///
/// - 70 to 72 and 74 if a source is no layout, or its `oci-layout` cannot be read. Then the same of
///   the directory, and 73 if its index is no object with a list `manifests`; 74 also if the folder
///   cannot be locked, if a file cannot be read or put, or if it is not known whether it is on the
///   disk.
/// - 99 `Locked` if another process has the lock, and the words say not to wait.
/// - 22 `Device` if a file of a source cannot be read.
/// - 62 `BadWorkers` if there are more than 64.
/// - 88 `Fetch` with 21 `Corrupt` if a file of a source has changed since it was found.
/// - 73 `BadIndex` if an entry is no descriptor. The repair is done and printed.
/// - 94 `Output` if `out` cannot be written. The repair is done.
/// - Out of memory, at any point.
pub fn run_repair<
    R: Files<File: Lockable> + AllocGlobal + Clock + Threads + Wait + Sync,
    D: Dir + Drop + Sync,
    S: Dir,
    A: Dir,
    W: Write,
    X: Write + Send,
    F: From<ProgramFault>,
>(
    rt: &R,
    dir: D,
    sources: &[RepairSource<S, A>],
    words: &RepairWords<'_>,
    form: Form,
    out: &mut W,
    err: &mut X,
) -> Result<Outcome, F>
where
    D::Draft: Send,
    // Without `--dry-run` the layout in the directory was opened, and repaired from the sources. As
    // lines, the answer is what was put and what is missing, or would be. The outcome is `Good` only
    // if nothing is missing.
    ensures repaired { words.now.is_dry ≡ false → IfOk result (λ outcome. (answer : RepairAnswer)
        × IsRepairRun D.device S.device A.device dir sources.now answer
        × IsOutcome answer outcome × (form ≡ Form.Lines
        → Appends (W.contents out.old) (W.contents out.new) (repair_text answer))) }
    ensures planned { words.now.is_dry ≡ true → IfOk result (λ outcome. (answer : RepairAnswer)
        × IsDryRepair D.device S.device A.device dir sources.now answer
        × IsOutcome answer outcome × (form ≡ Form.Lines
        → Appends (W.contents out.old) (W.contents out.new) (repair_text answer))) }
{
    check_sources(rt.alloc(), sources)?;
    if words.is_dry {
        let (layout, answer) = plan_folder(rt, dir, sources, words, err)?;
        return Ok(print_repair(rt.alloc(), &layout, answer, form, out, err)?);
    }
    let (layout, answer) = repair_folder(rt, dir, sources, words, err)?;
    Ok(print_repair(rt.alloc(), &layout, answer, form, out, err)?)
}

/// Opens the layout in a directory as it is.
fn open<D: Dir + Drop>(alloc: Global, dir: D) -> Result<Layout<D>, ProgramFault>
    ensures { IfOk result (IsOpened D.device dir) }
{
    match Layout::open_as_is(alloc, dir) {
        Ok(layout) => Ok(layout),
        Err((_dir, fault)) => Err(ProgramFault::Destination(fault)),
    }
}

/// Plans the repair of the layout in a directory. Returns the layout, and what a repair will answer.
fn plan_folder<
    R: AllocGlobal + Clock + Threads + Wait + Sync,
    D: Dir + Drop + Sync,
    S: Dir,
    A: Dir,
    X: Write + Send,
>(
    rt: &R,
    dir: D,
    sources: &[RepairSource<S, A>],
    words: &RepairWords<'_>,
    err: &mut X,
) -> Result<(Layout<D>, RepairAnswer), ProgramFault>
where
    D::Draft: Send,
    ensures { IfOk result (λ done. IsDryRepair D.device S.device A.device dir sources.now
        done.1) }
{
    let layout = open(rt.alloc(), dir)?;
    let task = plan(rt, &layout, sources, words, err)?;
    Ok((layout, task.answer))
}

/// Locks the folder of a layout, and repairs the layout. Returns it as it is left, and what was
/// repaired.
fn repair_folder<
    R: Files<File: Lockable> + AllocGlobal + Clock + Threads + Wait + Sync,
    D: Dir + Drop + Sync,
    S: Dir,
    A: Dir,
    X: Write + Send,
>(
    rt: &R,
    dir: D,
    sources: &[RepairSource<S, A>],
    words: &RepairWords<'_>,
    err: &mut X,
) -> Result<(Layout<D>, RepairAnswer), ProgramFault>
where
    D::Draft: Send,
    ensures { IfOk result (λ done. IsRepairRun D.device S.device A.device dir sources.now
        done.1) }
{
    check_folder(&dir)?;
    let lock = lock_folder(rt, words.folder, dir.first_failure(), words.waits, err)?;
    repair_under_lock(rt, dir, sources, words, err, &lock)
}

/// Refuses a directory that has no layout. Its folder need not exist, so this comes before it is
/// locked.
fn check_folder<D: Dir>(dir: &D) -> Result<(), ProgramFault> {
    match dir.exists("oci-layout") {
        Ok(true) => Ok(()),
        Ok(false) => Err(ProgramFault::Destination(LayoutFault::NoLayoutFile)),
        Err(fault) => Err(ProgramFault::Destination(LayoutFault::from(fault))),
    }
}

/// Opens the layout in a locked folder, and repairs it.
fn repair_under_lock<
    R: Files + AllocGlobal + Clock + Threads + Wait + Sync,
    D: Dir + Drop + Sync,
    S: Dir,
    A: Dir,
    X: Write + Send,
>(
    rt: &R,
    dir: D,
    sources: &[RepairSource<S, A>],
    words: &RepairWords<'_>,
    err: &mut X,
    _lock: &FolderLock<R>,
) -> Result<(Layout<D>, RepairAnswer), ProgramFault>
where
    D::Draft: Send,
    ensures { IfOk result (λ done. IsRepairRun D.device S.device A.device dir sources.now
        done.1) }
{
    let alloc = rt.alloc();
    let mut layout = open(alloc, dir)?;
    let Task { mends, answer } = plan(rt, &layout, sources, words, err)?;
    if let Err(fault) = repair(alloc, &mut layout, sources, &mends, &()) {
        return Err(of_repair(fault));
    }
    let dir = settle(alloc, layout.into_dir(), &mends)?;
    Ok((open(alloc, dir)?, answer))
}

/// Waits until the files of these keys are on the disk.
fn settle<D: Dir + Drop>(
    alloc: Global,
    mut dir: D,
    mends: &[(Key, usize)],
) -> Result<D, ProgramFault>
    ensures { IfOk result (λ settled. OnlySettles (D.device dir) (D.device settled)) }
{
    let paths = paths_of(alloc, mends)?;
    match dir.settle(&paths) {
        Ok(()) => Ok(dir),
        Err(fault) => Err(ProgramFault::Destination(LayoutFault::from(fault))),
    }
}

/// Returns the paths of the files of these keys.
fn paths_of(alloc: Global, mends: &[(Key, usize)]) -> Result<Vec<String>, NoMemory> {
    let mut paths = Vec::new(alloc);
    for (key, _) in mends {
        paths.push(blob_path(alloc, key.digest())?)?;
    }
    Ok(paths)
}

/// Prints the answer of a repair, and refuses entries of the index that are no descriptors.
fn print_repair<D: Dir, W: Write, X: Write>(
    alloc: Global,
    layout: &Layout<D>,
    answer: RepairAnswer,
    form: Form,
    out: &mut W,
    err: &mut X,
) -> Result<Outcome, ProgramFault>
    ensures outcome { IfOk result (IsOutcome answer) }
    ensures lines { form ≡ Form.Lines → OnOk result (Appends (W.contents out.old)
        (W.contents out.new) (repair_text answer)) }
{
    let outcome = if answer.missing.is_empty() {
        Outcome::Good
    } else {
        Outcome::Faulty
    };
    match print_findings_of_all(alloc, layout, answer, form, out, err) {
        Ok(_) => Ok(outcome),
        Err(ProgramFault::Layout(fault)) => Err(ProgramFault::Destination(fault)),
        Err(fault) => Err(fault),
    }
}
