//! Copies of samples between stores in memory, as rows of data: the two stores, the report or the
//! fault, and the contents afterwards.

use crate::tests::calls::{
    EACH, EMPTY, IMAGE_0, Run, Workers, assert_text, assert_told, copied, options, planned,
    repaired,
};
use oci_copy::{CopyFault, Options, Report, copy, extended_copy, extended_copy_graph};
use oci_manifest::Key;
use oci_plan::Existing;
use oci_pool::NoHooks;
use oci_store::{MemoryStore, Tagger};
use std::alloc::Global;
use std::process::Abort;
use std::sync::Wait;
use std::test::Fail;
use std::thread::Threads;
use test_support::{Sample, holds, is_closed, keys, memory};

/// The name of a sample in a store.
pub(crate) type Tag<'a> = (Sample, &'a str);

/// The call that copies.
#[derive(Clone, Copy)]
pub(crate) enum Call<'a> {
    /// `copy_graph` of the roots, and `copy_one` on the calling thread.
    Graph,
    /// `plan_copy` of the roots, and then `copy_plan`.
    Planned,
    /// `repair_memory_by_workers` of the roots, and `repair_memory` on the calling thread.
    Repair,
    /// `extended_copy_graph` of each root, with the depth.
    Extended(u32),
    /// `copy` of the first reference to the second.
    Reference(&'a str, &'a str),
    /// `extended_copy` of a reference, which is also the tag, with depth 1.
    ExtendedReference(&'a str),
}

/// A copy, and its result.
#[derive(Clone, Copy)]
pub(crate) struct Case<'a> {
    /// The name that a failure prints.
    pub name: &'a str,
    pub call: Call<'a>,
    /// The roots, unless the call has a reference.
    pub roots: &'a [Sample],
    pub workers: &'a [Workers],
    pub existing: Existing,
    /// The maximum size of a manifest; 0 is for the default limit.
    pub max_metadata_bytes: u64,
    pub source: &'a [Sample],
    pub source_tag: Option<Tag<'a>>,
    /// The contents of the destination before the copy.
    pub destination: &'a [Sample],
    pub destination_tag: Option<Tag<'a>>,
    /// The parts of the printed report or fault.
    pub told: &'a [&'a str],
    /// The contents of the destination after the copy, and whether its entries are in this order.
    pub copied: &'a [Sample],
    pub is_in_order: bool,
    /// Whether the destination is then closed.
    pub is_closed: bool,
    /// The one tag that the destination then has, if any.
    pub copied_tag: Option<Tag<'a>>,
}

/// A copy of nothing into an empty store.
pub(crate) const NOTHING: Case<'static> = Case {
    name: "nothing",
    call: Call::Graph,
    roots: &[],
    workers: &EACH,
    existing: Existing::Skip,
    max_metadata_bytes: 0,
    source: &[],
    source_tag: None,
    destination: &[],
    destination_tag: None,
    told: &[],
    copied: &[],
    is_in_order: false,
    is_closed: true,
    copied_tag: None,
};

/// The fault for a destination that has `image_0` without its config, if held keys are skipped.
pub(crate) const OPEN_AT_IMAGE_0: &[&str] = &["80 DestinationOpen ", IMAGE_0, " ", EMPTY];

/// Names a sample that a store has.
fn put_tag(alloc: Global, store: &mut MemoryStore, tag: Option<Tag<'_>>) -> Result<(), Fail> {
    if let Some((sample, name)) = tag {
        store.tag(&sample.key(alloc)?, name)?;
    }
    Ok(())
}

/// A store of these samples, with a tag.
fn store_of(alloc: Global, samples: &[Sample], tag: Option<Tag<'_>>) -> Result<MemoryStore, Fail> {
    let mut store = memory(alloc, samples)?;
    put_tag(alloc, &mut store, tag)?;
    Ok(store)
}

/// Whether this is the name of the tag, and the key of its sample.
fn is_tag(alloc: Global, name: &str, key: &Key, tag: Option<Tag<'_>>) -> Result<bool, Fail> {
    match tag {
        Some((sample, wanted)) => Ok(name == wanted && *key == sample.key(alloc)?),
        None => Ok(false),
    }
}

/// Whether these are the one tag, or none.
fn are_tags(alloc: Global, tags: &[(String, Key)], tag: Option<Tag<'_>>) -> Result<bool, Fail> {
    for (name, key) in tags {
        if !is_tag(alloc, name.as_str(), key, tag)? {
            return Ok(false);
        }
    }
    Ok(tags.len() == usize::from(tag.is_some()))
}

/// Whether the entry at a place of a store has this key.
fn has_at(store: &MemoryStore, place: usize, key: &Key) -> bool {
    match store.entry(place) {
        Some((held, _)) => *held == *key,
        None => false,
    }
}

/// Whether the entries of a store have these keys, in this order.
fn are_in_order(store: &MemoryStore, keys: &[Key]) -> bool {
    for (place, key) in keys.iter().enumerate() {
        if !has_at(store, place, key) {
            return false;
        }
    }
    true
}

/// The contents of the destination, and their order, are as in the case.
fn assert_contents<R: AllocGlobal + Abort>(
    rt: &R,
    store: &MemoryStore,
    case: &Case<'_>,
    run: Run<'_>,
) -> Result<(), Fail> {
    assert!(rt; holds(rt.alloc(), store, case.copied)?, "{run}: contents");
    if case.is_in_order {
        assert!(rt;
            are_in_order(store, &keys(rt.alloc(), case.copied)?),
            "{run}: order"
        );
    }
    Ok(())
}

/// The contents of the destination, whether it is closed, and its tag are as in the case.
fn assert_left<R: AllocGlobal + Abort>(
    rt: &R,
    store: &MemoryStore,
    case: &Case<'_>,
    run: Run<'_>,
) -> Result<(), Fail> {
    assert_contents(rt, store, case, run)?;
    assert_eq!(rt; is_closed(store)?, case.is_closed, "{run}: closed");
    assert!(rt;
        are_tags(rt.alloc(), &store.tags()?, case.copied_tag)?,
        "{run}: tags"
    );
    Ok(())
}

/// Copies with all that leads to the first root.
fn extended<R: AllocGlobal + Threads + Wait + Sync>(
    rt: &R,
    source: &MemoryStore,
    destination: MemoryStore,
    roots: &[Key],
    depth: u32,
    options: &Options,
) -> (MemoryStore, Result<Report, CopyFault>) {
    let alloc = rt.alloc();
    let Some(root) = roots.first() else {
        return (destination, Err(CopyFault::Memory));
    };
    extended_copy_graph(
        rt,
        alloc,
        source,
        root,
        depth,
        destination,
        options,
        &NoHooks,
    )
}

/// Copies by a call that has roots.
fn copied_roots<R: AllocGlobal + Threads + Wait + Sync>(
    rt: &R,
    source: &MemoryStore,
    destination: MemoryStore,
    roots: &[Key],
    call: Call<'_>,
    by: (Workers, &Options),
) -> (MemoryStore, Result<Report, CopyFault>) {
    let (workers, options) = by;
    match call {
        Call::Planned => planned(rt, source, destination, roots, options),
        Call::Repair => repaired(rt, source, destination, roots, workers, options),
        Call::Extended(depth) => extended(rt, source, destination, roots, depth, options),
        _ => copied(rt, source, destination, roots, workers, options),
    }
}

/// Returns the key and the report, or the fault, of a copy by a reference as text.
fn told_of_key(alloc: Global, answer: &Result<(Key, Report), CopyFault>) -> Result<String, Fail> {
    match answer {
        Ok((key, report)) => Ok(format!(in alloc; "{key} {report}")?),
        Err(fault) => Ok(fault.to_string(alloc)?),
    }
}

/// The key and the report, or the fault, of a copy by a reference are as in the case.
fn assert_named<R: AllocGlobal + Abort>(
    rt: &R,
    answer: &Result<(Key, Report), CopyFault>,
    case: &Case<'_>,
    run: Run<'_>,
) -> Result<(), Fail> {
    let told = told_of_key(rt.alloc(), answer)?;
    assert_text(rt, told.as_str(), case.told, run)
}

/// Makes a copy that has these roots, asserts its report or fault, and returns what it leaves.
fn left_by_roots<R: AllocGlobal + Threads + Wait + Sync + Abort>(
    rt: &R,
    source: &MemoryStore,
    destination: MemoryStore,
    roots: &[Key],
    case: &Case<'_>,
    run: Run<'_>,
    options: &Options,
) -> Result<MemoryStore, Fail> {
    let by = (run.workers, options);
    let (store, answer) = copied_roots(rt, source, destination, roots, case.call, by);
    assert_told(rt, &answer, case.told, run)?;
    Ok(store)
}

/// Makes the copy of a case, asserts its report or fault, and returns what it leaves.
fn left_by_case<R: AllocGlobal + Threads + Wait + Sync + Abort>(
    rt: &R,
    source: &MemoryStore,
    destination: MemoryStore,
    case: &Case<'_>,
    run: Run<'_>,
) -> Result<MemoryStore, Fail> {
    let by = options(run.workers, case.existing, case.max_metadata_bytes);
    match case.call {
        Call::Reference(from, to) => {
            left_by_copy(rt, source, destination, (from, to), case, run, &by)
        }
        Call::ExtendedReference(from) => {
            left_by_extended_copy(rt, source, destination, from, case, run, &by)
        }
        _ => {
            let roots = keys(rt.alloc(), case.roots)?;
            left_by_roots(rt, source, destination, &roots, case, run, &by)
        }
    }
}

fn left_by_copy<R: AllocGlobal + Threads + Wait + Sync + Abort>(
    rt: &R,
    source: &MemoryStore,
    destination: MemoryStore,
    references: (&str, &str),
    case: &Case<'_>,
    run: Run<'_>,
    options: &Options,
) -> Result<MemoryStore, Fail> {
    let (alloc, (from, to)) = (rt.alloc(), references);
    let (store, answer) = copy(rt, alloc, source, from, destination, to, options, &NoHooks);
    assert_named(rt, &answer, case, run)?;
    Ok(store)
}

fn left_by_extended_copy<R: AllocGlobal + Threads + Wait + Sync + Abort>(
    rt: &R,
    source: &MemoryStore,
    destination: MemoryStore,
    from: &str,
    case: &Case<'_>,
    run: Run<'_>,
    options: &Options,
) -> Result<MemoryStore, Fail> {
    let alloc = rt.alloc();
    let (store, answer) = extended_copy(
        rt,
        alloc,
        source,
        from,
        1,
        destination,
        "",
        options,
        &NoHooks,
    );
    assert_named(rt, &answer, case, run)?;
    Ok(store)
}

/// The copy of a case from a store.
fn assert_from<R: AllocGlobal + Threads + Wait + Sync + Abort>(
    rt: &R,
    source: &MemoryStore,
    case: &Case<'_>,
    run: Run<'_>,
) -> Result<(), Fail> {
    let destination = store_of(rt.alloc(), case.destination, case.destination_tag)?;
    assert_left(
        rt,
        &left_by_case(rt, source, destination, case, run)?,
        case,
        run,
    )
}

/// The copy of a case by this number of workers.
pub(crate) fn assert_copied_by<R: AllocGlobal + Threads + Wait + Sync + Abort>(
    rt: &R,
    case: &Case<'_>,
    workers: Workers,
) -> Result<(), Fail> {
    let name = case.name;
    let source = store_of(rt.alloc(), case.source, case.source_tag)?;
    assert_from(rt, &source, case, Run { name, workers })
}

/// The copies of these cases, each by each of its numbers of workers.
pub(crate) fn assert_cases<R: AllocGlobal + Threads + Wait + Sync + Abort>(
    rt: &R,
    cases: &[Case<'_>],
) -> Result<(), Fail> {
    for case in cases {
        for workers in case.workers {
            assert_copied_by(rt, case, *workers)?;
        }
    }
    Ok(())
}
