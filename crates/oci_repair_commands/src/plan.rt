ghost use Rattle.std.specs.Prelude.{◌≡◌, ◌↔◌, ◌++◌, ◌∷◌, [], if◌then◌else◌, map, Contains, IfOk, OnOk};
ghost use Rattle.std.specs.List.Sorted.{IsStrictlySortedBy};
ghost use Rattle.oci_manifest.specs.Descriptor.{Descriptor, key_cmp};
ghost use Rattle.oci_verify.specs.Corrupt.{AreCorrupt};
ghost use Rattle.oci_verify.specs.Intact.{HasFiles};
ghost use Rattle.oci_repair_commands.specs.Repaired.{IsSplit, IsTask, IsTaskOf};

use crate::answer::RepairAnswer;
use oci_command_line::RepairWords;
use oci_copy::CopyFault;
use oci_digest::{Digest, NoMemory};
use oci_dir::Dir;
use oci_layout_store::{Layout, LayoutFault, check_version};
use oci_manifest::Key;
use oci_program::{ProgramFault, Sum};
use oci_query_commands::{Progress, number_of_workers};
use oci_repair::{RepairFault, RepairPlan, RepairSource, plan_repair};
use oci_store::{FetchFault, keys_of_set};
use oci_verify::{VerifyFault, corrupt_keys};
use std::alloc::Global;
use std::collections::{BTreeMap, BTreeSet};
use std::io::Write;
use std::sync::Wait;
use std::thread::Threads;
use std::time::Clock;

/// What a repair has to do, and what it will answer.
#[derive(Drop)]
pub(crate) struct Task {
    /// The keys whose files are to be put, each with the place of its source.
    pub(crate) mends: Vec<(Key, usize)>,
    pub(crate) answer: RepairAnswer,
}

/// Refuses sources that are no layouts.
pub(crate) fn check_sources<S: Dir, A: Dir>(
    alloc: Global,
    sources: &[RepairSource<S, A>],
) -> Result<(), ProgramFault> {
    for source in sources {
        let checked = match source {
            RepairSource::Folder(dir) => check_version(alloc, dir),
            RepairSource::Archive(dir) => check_version(alloc, dir),
        };
        if let Err(fault) = checked {
            return Err(ProgramFault::Layout(fault));
        }
    }
    Ok(())
}

/// Finds out what a layout lacks, and where it is.
pub(crate) fn plan<
    R: AllocGlobal + Clock + Threads + Wait + Sync,
    D: Dir + Sync,
    S: Dir,
    A: Dir,
    X: Write + Send,
>(
    rt: &R,
    layout: &Layout<D>,
    sources: &[RepairSource<S, A>],
    words: &RepairWords<'_>,
    err: &mut X,
) -> Result<Task, ProgramFault>
where
    D::Draft: Send,
    ensures { IfOk result (IsTask D.device S.device A.device layout.now sources.now) }
{
    let alloc = rt.alloc();
    let corrupt = corrupt_in(rt, layout, words, err)?;
    match plan_repair(alloc, layout, &corrupt, sources, &()) {
        Ok(plan) => task_of(alloc, layout, plan),
        Err(fault) => Err(of_repair(fault)),
    }
}

/// Returns the keys of a layout whose files are damaged or do not match, and draws a line on `err`
/// that shows how much was read, if the words ask for that.
fn corrupt_in<R: AllocGlobal + Clock + Threads + Wait + Sync, D: Dir + Sync, X: Write + Send>(
    rt: &R,
    layout: &Layout<D>,
    words: &RepairWords<'_>,
    err: &mut X,
) -> Result<Vec<Key>, ProgramFault>
where
    D::Draft: Send,
    ensures { IfOk result (λ keys. HasFiles (D.device layout.now.dir) layout.now.graph
        → AreCorrupt (D.device layout.now.dir).file layout.now.graph layout.now.opened.damaged
        keys.items) }
{
    let workers = number_of_workers(rt, words.workers);
    let progress = Progress::new(rt, err, layout, None, words.shows_progress);
    let corrupt = corrupt_keys(rt, rt.alloc(), layout, workers, &progress);
    progress.end();
    match corrupt {
        Ok(keys) => Ok(keys),
        Err(fault) => Err(of_check(fault)),
    }
}

/// Returns the fault of files of the layout that were not checked.
fn of_check(fault: VerifyFault) -> ProgramFault {
    match fault {
        VerifyFault::Device => ProgramFault::Destination(LayoutFault::Device),
        fault => ProgramFault::Verify(fault),
    }
}

/// Returns the fault of a command whose repair was refused.
pub(crate) fn of_repair(fault: RepairFault) -> ProgramFault {
    match fault {
        RepairFault::Source => ProgramFault::Fetch(FetchFault::Device),
        RepairFault::Memory => ProgramFault::Memory,
        RepairFault::Layout => ProgramFault::Destination(LayoutFault::Device),
        RepairFault::Changed(key) => {
            ProgramFault::Copy(CopyFault::Fetch(key, FetchFault::Corrupt))
        }
    }
}

/// Returns the task of a plan. A key in whose place a folder with contents stands is missing.
fn task_of<D: Dir>(
    alloc: Global,
    layout: &Layout<D>,
    plan: RepairPlan,
) -> Result<Task, ProgramFault>
    ensures { IfOk result (IsTaskOf plan) }
{
    let (mends, blocked) = split(alloc, layout, &plan.mends)?;
    let mut lacking = keys_of(alloc, &blocked)?;
    add_all(&plan.missing, &mut lacking)?;
    let missing = in_order(alloc, &lacking)?;
    let answer = RepairAnswer {
        repaired: in_order(alloc, &keys_of(alloc, &mends)?)?,
        held: plan.reached.saturating_sub(missing.len()),
        bytes: sum_of(alloc, &mends)?,
        missing,
    };
    Ok(Task { mends, answer })
}

/// Returns copies of those of these mends whose files can be put, and of the others.
fn split<D: Dir>(
    alloc: Global,
    layout: &Layout<D>,
    all: &[(Key, usize)],
) -> Result<(Vec<(Key, usize)>, Vec<(Key, usize)>), ProgramFault>
    ensures { IfOk result (λ p. IsSplit all.now p.0.items p.1.items) }
{
    let mut mends = Vec::new(alloc);
    let mut blocked = Vec::new(alloc);
    for (key, source) in all {
        let blocks = is_blocked(layout, key)?;
        sort_in(blocks, key, *source, &mut mends, &mut blocked)?;
    }
    Ok((mends, blocked))
}

/// Adds a mend to the blocked ones, or to the others.
fn sort_in(
    blocks: bool,
    key: &Key,
    source: usize,
    mends: &mut Vec<(Key, usize)>,
    blocked: &mut Vec<(Key, usize)>,
) -> Result<(), NoMemory>
    ensures mends { OnOk result (mends.new.items
        ≡ mends.old.items ++ (if blocks then [] else (key.now, source) ∷ [])) }
    ensures blocked { OnOk result (blocked.new.items
        ≡ blocked.old.items ++ (if blocks then (key.now, source) ∷ [] else [])) }
{
    let mend = (key.try_clone()?, source);
    if blocks {
        blocked.push(mend)?;
    } else {
        mends.push(mend)?;
    }
    Ok(())
}

/// Adds copies of keys to others.
fn add_all(keys: &[Key], others: &mut Vec<Key>) -> Result<(), NoMemory>
    ensures { OnOk result (others.new.items ≡ others.old.items ++ keys.now) }
{
    for key in keys {
        others.push(key.try_clone()?)?;
    }
    Ok(())
}

/// Returns whether a key's file cannot be put, because a folder with contents is in its place.
fn is_blocked<D: Dir>(layout: &Layout<D>, key: &Key) -> Result<bool, ProgramFault> {
    match layout.is_blocked(key) {
        Ok(blocked) => Ok(blocked),
        Err(fault) => Err(ProgramFault::Destination(fault)),
    }
}

/// Returns the keys of these.
fn keys_of(alloc: Global, mends: &[(Key, usize)]) -> Result<Vec<Key>, NoMemory>
    ensures { IfOk result (λ keys. keys.items ≡ map (λ m. m.0) mends.now) }
{
    let mut keys = Vec::new(alloc);
    for (key, _) in mends {
        keys.push(key.try_clone()?)?;
    }
    Ok(keys)
}

/// Returns these keys in key order, each once.
fn in_order(alloc: Global, keys: &[Key]) -> Result<Vec<Key>, NoMemory>
    ensures each { IfOk result (λ sorted. (k : Descriptor) → Contains sorted.items k
        ↔ Contains keys.now k) }
    ensures order { IfOk result (λ sorted. IsStrictlySortedBy key_cmp sorted.items) }
{
    let mut set = BTreeSet::new(alloc);
    for key in keys {
        set.insert(key.try_clone()?)?;
    }
    keys_of_set(alloc, &set)
}

/// Returns the sum of the sizes of these files. Keys that share a digest share a file.
fn sum_of(alloc: Global, mends: &[(Key, usize)]) -> Result<Sum, NoMemory> {
    let mut sizes: BTreeMap<Digest, u64> = BTreeMap::new(alloc);
    for (key, _) in mends {
        sizes.insert(*key.digest(), key.size())?;
    }
    Ok(Sum(
        sizes
            .values()
            .fold(0u128, |sum, size| sum.saturating_add(*size as u128)),
    ))
}
