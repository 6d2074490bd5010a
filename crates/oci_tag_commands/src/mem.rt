ghost use Rattle.std.specs.Prelude.{◌≡◌, ◌≤◌, List, IfOk, IfSome, OnOk};
ghost use Rattle.std.specs.Borrow.{Bor};
ghost use Rattle.std.specs.Io.KnownBytes.{Appends};
ghost use Rattle.oci_manifest.specs.Descriptor.{Descriptor};
ghost use Rattle.oci_plan.specs.declared.gathering.Existing.TheVariants.{Skip};
ghost use Rattle.oci_store.specs.Contents.{no_contents};
ghost use Rattle.oci_copy.specs.Memory.{IsMemoryCopy};
ghost use Rattle.oci_copy.specs.declared.report.Report.{Report};
ghost use Rattle.oci_tag_commands.specs.Mem.{algorithm_of, mem_text, AreItems, AreSortedKeys, IsMemRun, PushesItem};

use crate::item::Item;
use oci_command_line::{Algorithm, MemWords};
use oci_copy::{CopyFault, Options, Report, copy_memory, copy_memory_by_workers};
use oci_dir::FirstFailure;
use oci_manifest::Key;
use oci_plan::Existing;
use oci_pool::NoHooks;
use oci_program::{Form, Outcome, ProgramFault, print_answer};
use oci_store::{ClosedStore, MemoryStore};
use serde::Serialize;
use std::alloc::Global;
use std::fmt;
use std::fmt::Display;
use std::io::Write;
use std::rt::Files;
use std::sync::Wait;
use std::thread::Threads;

/// `mem [--workers N] [--sha512] TYPE=PATH..`: pushes the items' files into a store in memory, and
/// copies from the key of the last item into an empty store. Prints in this form the keys that
/// arrived there, in key order, and the report. The first file that cannot be read is noted in
/// `first`.
///
/// # Errors
///
/// No file is changed.
///
/// - 92 `BadItem` if an item has no `=`.
/// - 93 `File` if its file cannot be read, and 4 `BadSize` if it is too long for a key.
/// - 30 `AlreadyExists` if an item is given twice, and 33 `BadManifest` if a file is not a manifest
///   of its media type.
/// - 81 `Plan` if a blob that the last item reaches is not among the items.
/// - 85 `BadWorkers` if there are more than 64 workers.
/// - 94 `Output` if `out` cannot be written.
/// - Out of memory, at any point.
pub fn run_mem<R: Files + AllocGlobal + Threads + Wait + Sync, W: Write>(
    rt: &R,
    words: &MemWords<'_>,
    first: &FirstFailure,
    form: Form,
    out: &mut W,
) -> Result<Outcome, ProgramFault>
    ensures { OnOk result ((blobs : List (Bor Descriptor)) × (report : Report)
        × IsMemRun words.now blobs report × (form ≡ Form.Lines → Appends (W.contents out.old)
        (W.contents out.new) (mem_text blobs report))) }
{
    let (source, roots) = push_items(rt, words, first)?;
    let (copied, report) = copy_roots(rt, &source, &roots, words.workers);
    let answer = MemAnswer {
        report: report?,
        blobs: sorted_keys(rt.alloc(), copied.memory())?,
    };
    print_answer(rt.alloc(), &answer, form, out)
}

/// What a copy into an empty store in memory did.
///
/// It prints the keys on a line each, and the line of the report.
#[derive(Drop, Serialize)]
struct MemAnswer<'m> {
    /// The keys that arrived, in key order.
    blobs: Vec<&'m Key>,
    #[serde(flatten)]
    report: Report,
}

impl<'m> Display for MemAnswer<'m> {
    ghost use Rattle.std.specs.Prelude.{Some};
    ghost use Rattle.oci_tag_commands.specs.Mem.{mem_text};

    ghost output = { λ answer. Some (mem_text answer.blobs.items answer.report) };

    fn fmt<W: fmt::Write>(&self, f: &mut fmt::Formatter<W>) -> fmt::Result {
        for key in &self.blobs {
            writeln!(f, "{key}")?;
        }
        writeln!(f, "{}", self.report)
    }
}

/// Pushes the files of the items into an empty store, in their order, and returns it with the key of
/// the last one.
fn push_items<R: Files + AllocGlobal>(
    rt: &R,
    words: &MemWords<'_>,
    first: &FirstFailure,
) -> Result<(MemoryStore, Vec<Key>), ProgramFault>
    ensures { IfOk result (λ it. AreItems (algorithm_of words.now.algorithm)
        words.now.items.items it.0 it.1.items) }
{
    let mut store = MemoryStore::new(rt.alloc());
    let mut last = Vec::new(rt.alloc());
    for item in &words.items {
        let key = push_item(rt, &mut store, item, words.algorithm, first)?;
        last.clear();
        last.push(key)?;
    }
    Ok((store, last))
}

/// Pushes the file of an item, and returns its key.
fn push_item<R: Files + AllocGlobal>(
    rt: &R,
    store: &mut MemoryStore,
    item: &str,
    algorithm: Algorithm,
    first: &FirstFailure,
) -> Result<Key, ProgramFault>
    ensures { IfOk result (PushesItem (algorithm_of algorithm) item.now store.old store.new) }
{
    let Item { key, content } = Item::read(rt, item, algorithm, first)?;
    store.push_content(content)?;
    Ok(key)
}

/// Copies into an empty store, by this number of workers, or on the calling thread.
fn copy_roots<R: AllocGlobal + Threads + Wait + Sync>(
    rt: &R,
    source: &MemoryStore,
    roots: &[Key],
    workers: Option<u32>,
) -> (ClosedStore, Result<Report, CopyFault>)
    ensures copied { IfOk result.1 (IsMemoryCopy Skip source.now roots.now no_contents result.0) }
    ensures workers { OnOk result.1 (IfSome workers (λ n. n ≤ 64)) }
{
    let alloc = rt.alloc();
    let empty = ClosedStore::new(alloc);
    let options = Options {
        workers: workers.unwrap_or(0),
        max_metadata_bytes: 0,
        existing: Existing::Skip,
    };
    match workers {
        Some(_) => copy_memory_by_workers(rt, alloc, source, empty, roots, &options, &NoHooks),
        None => copy_memory(alloc, source, empty, roots, &options),
    }
}

/// The keys of a store, in key order.
fn sorted_keys(alloc: Global, store: &MemoryStore) -> Result<Vec<&Key>, ProgramFault>
    ensures { IfOk result (λ keys. AreSortedKeys store.now.entries keys.items) }
{
    let mut keys: Vec<&Key> = Vec::new(alloc);
    for place in 0..store.len() {
        let Some((key, _)) = store.entry(place) else {
            unreachable!();
        };
        keys.push(key)?;
    }
    keys.sort()?;
    Ok(keys)
}
