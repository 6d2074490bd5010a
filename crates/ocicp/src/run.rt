ghost use Rattle.std.specs.Prelude.{◌≡◌, ◌≤◌, ℕ, List, Option, IfOk, OnOk};
ghost use Rattle.std.specs.Io.KnownBytes.{Appends};
ghost use Rattle.ocicp.specs.Run.{
  form_of,
  status_of_unparsed,
  IsArchiveDone,
  IsCommandStatus,
  IsCopyDone,
  IsDone,
  IsFileDone,
  IsOutputDone,
  IsPruneDone,
  IsQueryDone,
  IsRepairDone,
  IsTagDone,
  IsUntagDone,
};

use crate::escaped::Escaped;
use crate::meaning::print_meaning;
use crate::place::{Place, open_copy, open_folder, open_new_file, open_sources, written};
use crate::sides::{Failures, sides_of};
use oci_archive::TarDir;
use oci_command_line::{
    CommandLine, CommandLineFault, CopyWords, PruneWords, Query, RepairWords, Request, TagWords,
    UntagWords,
};
use oci_copy_commands::{run_archive, run_archive_to_output, run_copy};
use oci_dir::{Dir, FirstFailure, MemDir};
use oci_layout_copy::Host;
use oci_pool::MAX_WORKERS;
use oci_program::{Ending, Form, Outcome, ProgramFault, end_early, finish_run, print_answer};
use oci_prune_commands::{run_prune, run_untag};
use oci_query_commands::run_query;
use oci_repair_commands::run_repair;
use oci_tag_commands::{run_mem, run_tag};
use std::alloc::Global;
use std::io::Write;
use std::rt::Env;

/// Runs the program on the words after its name, and returns its exit status.
///
/// - 0: the command was done, and its result is on `out`.
/// - 1: the command was refused. `err` has one line, `ocicp:` and the faults from the outermost to
///   the innermost, and with `--hint` a second line, which names the file that is the cause, and says
///   what the innermost number means and why the system failed. If
///   several manifests are damaged, each has a line, after the result on `out`. Or `verify` found a
///   problem, or a `repair` did not find a blob, which is on `out`.
/// - 2: the command line is invalid, and the usage is on `err`.
/// - 3: memory ran out. `err` has the line `ocicp: memory`.
///
/// With `--progress`, `copy` also prints a line for each blob on `err`. With `--archive` and `-` for
/// its file, it writes the archive to `out`, and its result to `err`.
///
/// `-` for a layout that is only read is an archive, which comes from the standard input of `rt`.
///
/// With `--json` the result is a JSON document on one line of `out`, and a refusal is a JSON
/// document on the last line of `err`, also if memory ran out. The usage stays plain.
pub fn run_words<R: Host + Input + Env, W: Write, X: Write + Send>(
    rt: &R,
    words: &[String],
    out: &mut W,
    err: &mut X,
) -> u8
    ensures { result ≤ 3 }
{
    run_words_on(rt, words, false, out, err)
}

/// Runs the program as [`run_words`] does. If `err` is a terminal, `verify`, and `copy` without
/// `--progress`, draw a line on it that shows how much has been checked or has arrived, and erase
/// that line at the end. A refusal is then explained as with `--hint`, unless the command has
/// `--json`.
pub fn run_words_on<R: Host + Input + Env, W: Write, X: Write + Send>(
    rt: &R,
    words: &[String],
    on_terminal: bool,
    out: &mut W,
    err: &mut X,
) -> u8
    ensures { result ≤ 3 }
{
    let failures = Failures::new(rt.alloc());
    run_noting(rt, words, &failures, on_terminal, out, err)
}

/// Runs the program as [`run_words_on`] does. What fails in the folders of the command is noted in
/// `failures`.
fn run_noting<'w, R: Host + Input + Env, W: Write, X: Write + Send>(
    rt: &R,
    words: &'w [String],
    failures: &'w Failures,
    on_terminal: bool,
    out: &mut W,
    err: &mut X,
) -> u8
    ensures { result ≤ 3 }
{
    let line = match CommandLine::parse(rt.alloc(), words, on_terminal, MAX_WORKERS) {
        Ok(line) => line,
        Err(fault) => return end_unparsed(rt.alloc(), words, fault, err),
    };
    run_line(rt, &line, failures, on_terminal, out, err)
}

/// Runs the command of a valid command line, and ends the run. What fails in its folders is noted
/// in `failures`. On a terminal, control characters of a refusal are escaped.
fn run_line<'w, R: Host + Input + Env, W: Write, X: Write + Send>(
    rt: &R,
    line: &CommandLine<'w>,
    failures: &'w Failures,
    on_terminal: bool,
    out: &mut W,
    err: &mut X,
) -> u8
    ensures status { IsCommandStatus result }

    // With status 0 the command of the line was done, and its answer was appended to `out`, before
    // that was flushed.
    ensures done { result ≡ 0 → (flushed : Option (List ℕ))
        × IsDone ⟦<TarDir<R::File> as Dir>⟧.device ⟦<MemDir as Dir>⟧.device line.now.request
        (form_of line.now.as_json) (W.contents out.old) flushed Outcome.Good }
{
    let form = form_of(line.as_json);
    let done = run_request(rt, &line.request, failures, form, out, err);
    let sides = sides_of(rt, &line.request, failures);
    let mut err = Escaped::new(err, on_terminal);
    let ended = finish_run(rt.alloc(), done, form, &sides, out, &mut err);
    if line.hints
        && let Some(refusal) = &ended.refusal
    {
        print_meaning(rt, &line.request, refusal, &mut err);
    }
    ended.status
}

/// The form in which a run prints its result and its refusal.
pub(crate) fn form_of(as_json: bool) -> Form
    ensures { result ≡ form_of as_json }
{
    if as_json { Form::Json } else { Form::Lines }
}

/// Runs the command of a valid command line. What fails in its folders is noted in `failures`.
fn run_request<R: Host + Input + Env, W: Write, X: Write + Send>(
    rt: &R,
    request: &Request<'_>,
    failures: &Failures,
    form: Form,
    out: &mut W,
    err: &mut X,
) -> Result<Outcome, ProgramFault>
    // The command is the one of the request, with its words, and prints its answer.
    ensures { IfOk result (IsDone ⟦<TarDir<R::File> as Dir>⟧.device ⟦<MemDir as Dir>⟧.device
        request.now form (W.contents out.old) (W.contents out.new)) }
{
    match request {
        Request::Text(text) => print_text(text, out),
        Request::Explain(explanation) => print_answer(rt.alloc(), explanation, form, out),
        Request::Mem(words) => run_mem(rt, words, &failures.read, form, out),
        Request::Copy(words) => copy(rt, words, failures, form, out, err),
        Request::Archive(words) => archive(rt, words, failures, form, out, err),
        Request::Tag(words) => tag(rt, words, &failures.written, form, out, err),
        Request::Untag(words) => untag(rt, words, &failures.written, form, out, err),
        Request::Prune(words) => prune(rt, words, &failures.written, form, out, err),
        Request::Repair(words) => repair(rt, words, failures, form, out, err),
        Request::Query(path, query) => ask(rt, path, query, &failures.read, form, out, err),
    }
}

/// Prints the text of `--help` or `--version`, which has its last line feed.
fn print_text<W: Write>(text: &str, out: &mut W) -> Result<Outcome, ProgramFault>
    ensures { OnOk result (Appends (W.contents out.old) (W.contents out.new) text.now) }
{
    match write!(out, "{text}") {
        Ok(()) => Ok(Outcome::Good),
        Err(error) => Err(ProgramFault::of_output(error)),
    }
}

/// Runs `copy` on the places of its words.
fn copy<R: Host + Input + Env, W: Write, X: Write + Send>(
    rt: &R,
    words: &CopyWords<'_>,
    failures: &Failures,
    form: Form,
    out: &mut W,
    err: &mut X,
) -> Result<Outcome, ProgramFault>
    ensures { OnOk result (IsCopyDone ⟦<TarDir<R::File> as Dir>⟧.device ⟦<MemDir as Dir>⟧.device
        words.now form (W.contents out.old) (W.contents out.new)) }
{
    let (source, destination) = open_copy(rt, words, failures)?;
    match source {
        Place::Folder(source) => run_copy(rt, source, destination, words, form, out, err),
        Place::Archive(source) => run_copy(rt, source, destination, words, form, out, err),
    }
}

/// The file name that stands for the standard output.
const OUTPUT: &str = "-";

/// Runs `copy --archive` on the places of its words.
fn archive<R: Host + Input + Env, W: Write, X: Write>(
    rt: &R,
    words: &CopyWords<'_>,
    failures: &Failures,
    form: Form,
    out: &mut W,
    err: &mut X,
) -> Result<Outcome, ProgramFault>
    ensures { OnOk result (IsArchiveDone ⟦<TarDir<R::File> as Dir>⟧.device
        ⟦<MemDir as Dir>⟧.device words.now form (W.contents out.old) (W.contents out.new)) }
{
    if words.destination == OUTPUT {
        archive_to_output(rt, words, failures, form, out, err)
    } else {
        archive_into_file(rt, words, failures, form, out, err)
    }
}

/// Runs `copy --archive` with a new file.
fn archive_into_file<R: Host + Input + Env, W: Write, X: Write>(
    rt: &R,
    words: &CopyWords<'_>,
    failures: &Failures,
    form: Form,
    out: &mut W,
    err: &mut X,
) -> Result<Outcome, ProgramFault>
    ensures { OnOk result (IsFileDone ⟦<TarDir<R::File> as Dir>⟧.device
        ⟦<MemDir as Dir>⟧.device words.now form (W.contents out.old) (W.contents out.new)) }
{
    let (folder, name) = open_new_file(rt, words, &failures.written)?;
    let into = written(words.is_dry, words.destination);
    let source = Place::open(rt, words.source, into, &failures.read)?;
    match source {
        Place::Folder(source) => run_archive(rt, source, folder, name, words, form, out, err),
        Place::Archive(source) => run_archive(rt, source, folder, name, words, form, out, err),
    }
}

/// Runs `copy --archive` with the standard output.
fn archive_to_output<R: Host + Input + Env, W: Write, X: Write>(
    rt: &R,
    words: &CopyWords<'_>,
    failures: &Failures,
    form: Form,
    out: &mut W,
    err: &mut X,
) -> Result<Outcome, ProgramFault>
    ensures { OnOk result (IsOutputDone ⟦<TarDir<R::File> as Dir>⟧.device
        ⟦<MemDir as Dir>⟧.device words.now form (W.contents out.old) (W.contents out.new)) }
{
    let source = Place::open(rt, words.source, None, &failures.read)?;
    match source {
        Place::Folder(source) => run_archive_to_output(rt, source, words, form, out, err),
        Place::Archive(source) => run_archive_to_output(rt, source, words, form, out, err),
    }
}

/// Runs `tag` on the folder of its words.
fn tag<R: Host, W: Write, X: Write>(
    rt: &R,
    words: &TagWords<'_>,
    first: &FirstFailure,
    form: Form,
    out: &mut W,
    err: &mut X,
) -> Result<Outcome, ProgramFault>
    ensures { OnOk result (IsTagDone words.now form (W.contents out.old) (W.contents out.new)) }
{
    let dir = open_folder(rt, words.folder, first, words.syncs)?;
    run_tag(rt, dir, words, form, out, err)
}

/// Runs `untag` on the folder of its words.
fn untag<R: Host, W: Write, X: Write>(
    rt: &R,
    words: &UntagWords<'_>,
    first: &FirstFailure,
    form: Form,
    out: &mut W,
    err: &mut X,
) -> Result<Outcome, ProgramFault>
    ensures { OnOk result (IsUntagDone words.now form (W.contents out.old) (W.contents out.new)) }
{
    let dir = open_folder(rt, words.folder, first, words.syncs)?;
    run_untag(rt, dir, words, form, out, err)
}

/// Runs `prune` on the folder of its words.
fn prune<R: Host, W: Write, X: Write>(
    rt: &R,
    words: &PruneWords<'_>,
    first: &FirstFailure,
    form: Form,
    out: &mut W,
    err: &mut X,
) -> Result<Outcome, ProgramFault>
    ensures { OnOk result (IsPruneDone words.now form (W.contents out.old) (W.contents out.new)) }
{
    let dir = open_folder(rt, words.folder, first, words.syncs)?;
    run_prune(rt, dir, words, form, out, err)
}

/// Runs `repair` on the folder and the sources of its words.
fn repair<R: Host + Input + Env, W: Write, X: Write + Send>(
    rt: &R,
    words: &RepairWords<'_>,
    failures: &Failures,
    form: Form,
    out: &mut W,
    err: &mut X,
) -> Result<Outcome, ProgramFault>
    ensures { IfOk result (IsRepairDone ⟦<TarDir<R::File> as Dir>⟧.device words.now form
        (W.contents out.old) (W.contents out.new)) }
{
    let dir = open_folder(rt, words.folder, &failures.written, words.syncs)?;
    let sources = open_sources(rt, words, &failures.read)?;
    run_repair(rt, dir, &sources, words, form, out, err)
}

/// Answers a query from the layout at a path.
fn ask<R: Host + Input + Env, W: Write, X: Write + Send>(
    rt: &R,
    path: &str,
    query: &Query<'_>,
    first: &FirstFailure,
    form: Form,
    out: &mut W,
    err: &mut X,
) -> Result<Outcome, ProgramFault>
    ensures { IfOk result (IsQueryDone ⟦<TarDir<R::File> as Dir>⟧.device path.now query.now form
        (W.contents out.old) (W.contents out.new)) }
{
    match Place::open(rt, path, None, first)? {
        Place::Folder(dir) => run_query(rt, dir, query, form, out, err),
        Place::Archive(dir) => run_query(rt, dir, query, form, out, err),
    }
}

/// Ends a run whose command line was not parsed. If memory ran out, this is printed as JSON if one of
/// the words is `--json`.
fn end_unparsed<X: Write>(
    alloc: Global,
    words: &[String],
    fault: CommandLineFault,
    err: &mut X,
) -> u8
    ensures { result ≡ status_of_unparsed fault }
{
    let ending = match fault {
        CommandLineFault::Usage(text) => Ending::Usage(text),
        CommandLineFault::Memory => Ending::Fault(ProgramFault::Memory),
    };
    let form = form_of(words.iter().any(|word| word.as_str() == "--json"));
    end_early(alloc, ending, form, err)
}
