ghost use Rattle.std.specs.Prelude.{◌≡◌, ◌↔◌, ◌⊎◌, ◌≤◌, ◌<◌, ℕ, true, length, option_copied, Contains, IfOk, IfErr, OnOk};
ghost use Rattle.std.specs.BTreeSet.{contains};
ghost use Rattle.oci_manifest.specs.Descriptor.{Descriptor, is_among, key_cmp};
ghost use Rattle.oci_verify.specs.Corrupt.{is_asked, AreAnswers, AreCorrupt, AreCorruptOf};
ghost use Rattle.oci_verify.specs.Fault.{IsHeldFault, IsRunFault, IsVerifyFault};
ghost use Rattle.oci_verify.specs.Intact.{HasFiles};

use crate::asked::is_asked;
use crate::fault::VerifyFault;
use crate::job::FileCheck;
use crate::watcher::FileWatcher;
use oci_digest::NoMemory;
use oci_dir::Dir;
use oci_layout_store::Layout;
use oci_manifest::Key;
use oci_plan::{Order, order};
use oci_pool::{MAX_WORKERS, PoolFault, run};
use oci_store::{Dest, FetchFault, keys_of_set};
use std::alloc::Global;
use std::collections::BTreeSet;
use std::sync::Wait;
use std::thread::Threads;

/// The greatest count of keys that a run has numbers for.
const MOST_KEYS: usize = 4_294_967_295;

/// Returns the keys of a layout whose files are damaged or do not match them, in key order: those
/// that are [damaged](Layout::damaged), and the held ones whose files have another size or digest.
/// Up to 64 workers read the file of each held key, and the result does not depend on their number.
///
/// `workers` is 1 to 64, and 0 means 3. A worker keeps at most a part of 1 MiB of a leaf's file in
/// memory, or the file of a manifest. The watcher is told of each part that was read and of each
/// file that was checked. If two keys have one digest, their file is read twice.
///
/// # Errors
///
/// - 62 [`VerifyFault::BadWorkers`] if `workers` is over 64. No file is read.
/// - 22 [`VerifyFault::Device`] if a file cannot be read.
/// - 63 [`VerifyFault::Memory`] if memory is refused, at any point, or there are more than
///   4294967295 held keys.
/// - 61 [`VerifyFault::Incomplete`] if none of these holds, and a file was not checked. This never
///   happens, but that is not proved.
///
/// After a fault no further file is begun. Every worker has ended when the call returns.
pub fn corrupt_keys<R: Threads + Wait + Sync, D: Dir + Sync, W: FileWatcher + Sync>(
    rt: &R,
    alloc: Global,
    layout: &Layout<D>,
    workers: u32,
    watcher: &W,
) -> Result<Vec<Key>, VerifyFault>
where
    D::Draft: Send,
    ensures workers { OnOk result (workers ≤ 64) }
    ensures corrupt { IfOk result (λ keys. HasFiles (D.device layout.now.dir) layout.now.graph
        → AreCorrupt (D.device layout.now.dir).file layout.now.graph layout.now.opened.damaged
        keys.items) }
    ensures cause { IfErr result (IsVerifyFault workers (D.device layout.now.dir)
        layout.now.graph) }
{
    corrupt_keys_among(rt, alloc, layout, None, workers, watcher)
}

/// Returns those keys of a set whose files are damaged or do not match them, as [`corrupt_keys`]
/// does, or all without a set. No file of another key is read.
///
/// # Errors
///
/// Those of [`corrupt_keys`], but of the files of these keys.
pub fn corrupt_keys_among<R: Threads + Wait + Sync, D: Dir + Sync, W: FileWatcher + Sync>(
    rt: &R,
    alloc: Global,
    layout: &Layout<D>,
    asked: Option<&BTreeSet<Key>>,
    workers: u32,
    watcher: &W,
) -> Result<Vec<Key>, VerifyFault>
where
    D::Draft: Send,
    ensures workers { OnOk result (workers ≤ 64) }
    ensures corrupt { IfOk result (λ keys. HasFiles (D.device layout.now.dir) layout.now.graph
        → AreCorruptOf (is_asked (option_copied asked.entry)) (D.device layout.now.dir).file
        layout.now.graph layout.now.opened.damaged keys.items) }
    ensures cause { IfErr result (IsVerifyFault workers (D.device layout.now.dir)
        layout.now.graph) }
{
    if workers > MAX_WORKERS {
        return Err(VerifyFault::BadWorkers);
    }
    let order = order_without_edges(alloc, layout.count())?;
    let job = FileCheck {
        layout,
        asked,
        watcher,
    };
    match run(rt, alloc, &order, workers, &job) {
        Ok(answers) => Ok(keys_found(alloc, layout, asked, &answers)?),
        Err(stopped) => Err(fault_of(layout, workers, stopped.into_fault())),
    }
}

/// Returns an order of `count` numbers without edges.
fn order_without_edges(alloc: Global, count: usize) -> Result<Order, NoMemory>
    ensures { IfOk result (λ order. length order.lists ≡ count) }
{
    if count > MOST_KEYS {
        return Err(NoMemory);
    }
    let mut lists: Vec<Vec<u32>> = Vec::with_capacity(alloc, count)?;
    for _ in 0..count {
        lists.push(Vec::new(alloc))?;
    }
    match order(lists) {
        Ok(order) => Ok(order),
        // Empty lists have no cycle and no bad number.
        Err(_) => Err(NoMemory),
    }
}

/// Returns the fault of a run that stopped.
fn fault_of<D: Dir>(layout: &Layout<D>, workers: u32, fault: PoolFault<FetchFault>) -> VerifyFault
    requires workers { workers ≤ 64 }
    requires cause { IsRunFault (D.device layout.now.dir) layout.now.graph fault }
    ensures { IsVerifyFault workers (D.device layout.now.dir) layout.now.graph result }
{
    match fault {
        PoolFault::Job(_, fault) => fault_of_read(layout, fault),
        PoolFault::Incomplete(place) => VerifyFault::Incomplete(place),
        PoolFault::Memory => VerifyFault::Memory,
        PoolFault::BadWorkers => unreachable!(),
    }
}

/// Returns the fault of a file that could not be read.
fn fault_of_read<D: Dir>(_layout: &Layout<D>, fault: FetchFault) -> VerifyFault
    requires { IsHeldFault (D.device _layout.now.dir) fault }
    ensures { (workers : ℕ) → workers ≤ 64
        → IsVerifyFault workers (D.device _layout.now.dir) _layout.now.graph result }
{
    match fault {
        FetchFault::Device => VerifyFault::Device,
        FetchFault::Memory => VerifyFault::Memory,
        FetchFault::NotFound | FetchFault::Corrupt => unreachable!(),
    }
}

/// Returns the damaged keys of a layout that are asked for, and the held ones whose answer is true,
/// in key order.
fn keys_found<D: Dir>(
    alloc: Global,
    layout: &Layout<D>,
    asked: Option<&BTreeSet<Key>>,
    answers: &[bool],
) -> Result<Vec<Key>, NoMemory>
    requires { AreAnswers (is_asked (option_copied asked)) (D.device layout.now.dir)
        layout.now.graph answers.now }
    ensures { IfOk result (λ keys. HasFiles (D.device layout.now.dir) layout.now.graph
        → AreCorruptOf (is_asked (option_copied asked.entry)) (D.device layout.now.dir).file
        layout.now.graph layout.now.opened.damaged keys.items) }
{
    let mut found = asked_of(alloc, layout.damaged(), asked)?;
    for place in 0..layout.count() {
        let Some(key) = layout.key(place) else {
            unreachable!();
        };
        add_if(answers[place], key, &mut found)?;
    }
    let keys = keys_of_set(alloc, &found)?;
    Ok(keys)
}

/// Returns the set of those of these keys that are asked for.
fn asked_of(
    alloc: Global,
    keys: &[Key],
    asked: Option<&BTreeSet<Key>>,
) -> Result<BTreeSet<Key>, NoMemory>
    ensures { IfOk result (λ set. (k : Descriptor) → (contains key_cmp set k ≡ true)
        ↔ ((is_asked (option_copied asked.entry) k ≡ true) × Contains keys.now k)) }
{
    let mut set = BTreeSet::new(alloc);
    for key in keys {
        add_if(is_asked(asked, key), key, &mut set)?;
    }
    Ok(set)
}

/// Adds a key to these if the answer for it is true.
fn add_if(answer: bool, key: &Key, keys: &mut BTreeSet<Key>) -> Result<(), NoMemory>
    ensures { OnOk result ((k : Descriptor) → (contains key_cmp keys.new k ≡ true)
        ↔ ((contains key_cmp keys.old k ≡ true) ⊎ ((k ≡ key.now) × (answer ≡ true)))) }
{
    if answer {
        keys.insert(key.try_clone()?)?;
    }
    Ok(())
}

/// Returns the set of the damaged keys of a layout.
///
/// # Errors
///
/// `NoMemory` if memory runs out.
pub fn damaged_keys<D: Dir>(alloc: Global, layout: &Layout<D>) -> Result<BTreeSet<Key>, NoMemory>
    ensures { IfOk result (λ keys. (k : Descriptor) → contains key_cmp keys k
        ≡ is_among layout.now.opened.damaged k) }
{
    set_of(alloc, layout.damaged())
}

/// Returns the set of these keys.
pub(crate) fn set_of(alloc: Global, keys: &[Key]) -> Result<BTreeSet<Key>, NoMemory>
    ensures { IfOk result (λ set. (k : Descriptor) → contains key_cmp set k
        ≡ is_among keys.now k) }
{
    let mut set = BTreeSet::new(alloc);
    for key in keys {
        set.insert(key.try_clone()?)?;
    }
    Ok(set)
}
