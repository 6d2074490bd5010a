use crate::tests::texts::{BAR, EMPTY, FOO, IMAGE_2, IMAGE_3, INDEX_1, assert_text, line};
use bytes::Bytes;
use oci_manifest::Key;
use oci_plan::{Existing, Plan, PlanFault, gather};
use oci_store::{FetchFault, MemoryStore, Source, Store};
use std::alloc::Global;
use std::cell::Cell;
use std::process::Abort;
use std::test::Fail;
use test_support::Sample::{Bar, Empty, Foo, Image2, Image3, Index1};
use test_support::{Sample, keys, memory};

/// A source that counts its fetches.
#[derive(Drop)]
struct Counted<'a> {
    store: &'a MemoryStore,
    fetches: Cell<u32>,
}

impl<'a> Store for Counted<'a> {
    ghost use Rattle.std.proofs.Common.{refl};
    ghost use Rattle.oci_store.specs.GraphLaws.{keys_of-nodes_of};
    ghost use Rattle.oci_store.specs.State.{in_memory};

    ghost state = { λ s. in_memory s.store.now.entries s.store.now.tags };

    ghost same_keys = { λ s. keys_of-nodes_of s.store.now.entries };

    ghost trusted = { λ s _. tt };

    ghost listed = { λ s _. refl };
}

impl<'a> Source for Counted<'a> {
    fn exists(&self, key: &Key) -> bool {
        self.store.exists(key)
    }

    fn may_fail(&self, key: &Key) -> bool {
        self.store.may_fail(key)
    }

    fn fetch(&self, key: &Key) -> Result<Bytes, FetchFault> {
        self.fetches.set(self.fetches.get().saturating_add(1));
        self.store.fetch(key)
    }
}

/// Returns a plan as text: the planned keys in order, and then the skipped ones.
fn listed(alloc: Global, plan: &Plan) -> Result<String, Fail> {
    let mut text = line(alloc, "", plan.keys())?;
    text.push_str(line(alloc, "skipped ", plan.skipped())?.as_str())?;
    Ok(text)
}

/// Returns the result of `gather` as text: the plan, or the error.
fn told(alloc: Global, answer: &Result<Plan, PlanFault>) -> Result<String, Fail> {
    match answer {
        Ok(plan) => listed(alloc, plan),
        Err(fault) => Ok(fault.to_string(alloc)?),
    }
}

/// The input of `gather`, the expected result, and the expected number of fetches.
#[derive(Clone, Copy)]
struct Row<'a> {
    /// The name that a failure prints.
    name: &'a str,
    source: &'a [Sample],
    destination: &'a [Sample],
    roots: &'a [Sample],
    existing: Existing,
    want: &'a [&'a str],
    fetches: u32,
}

/// Plans from a source into a destination, and returns the result as text.
fn planned(
    alloc: Global,
    source: &Counted<'_>,
    destination: &MemoryStore,
    roots: &[Key],
    existing: Existing,
) -> Result<String, Fail> {
    told(
        alloc,
        &gather(alloc, source, destination, roots, 4_194_304, existing),
    )
}

/// Like `planned`, with the row's roots.
fn planned_roots(
    alloc: Global,
    source: &Counted<'_>,
    destination: &MemoryStore,
    row: &Row<'_>,
) -> Result<String, Fail> {
    let roots = keys(alloc, row.roots)?;
    planned(alloc, source, destination, &roots, row.existing)
}

/// Returns the result of planning as text, and the number of fetches.
fn planned_and_counted(
    alloc: Global,
    store: &MemoryStore,
    destination: &MemoryStore,
    row: &Row<'_>,
) -> Result<(String, u32), Fail> {
    let source = Counted {
        store,
        fetches: Cell::new(0),
    };
    let told = planned_roots(alloc, &source, destination, row)?;
    Ok((told, source.fetches.get()))
}

/// Asserts the result of planning from a store, and the number of fetches.
fn assert_planned<R: AllocGlobal + Abort>(
    rt: &R,
    store: &MemoryStore,
    row: &Row<'_>,
) -> Result<(), Fail> {
    let destination = memory(rt.alloc(), row.destination)?;
    let (told, fetched) = planned_and_counted(rt.alloc(), store, &destination, row)?;
    assert_eq!(rt; fetched, row.fetches, "fetches of {}", row.name);
    assert_text(rt, &row.name, told.as_str(), row.want)
}

const ALL: &[Sample] = &[Empty, Foo, Bar, Image2, Image3, Index1];

/// What the destination lacks is planned, and roots that it has are skipped. The first visited key
/// that the source lacks is reported. With `Existing::Descend` a held manifest is fetched once like
/// any other.
const ROWS: [Row<'static>; 5] = [
    Row {
        name: "what is lacking",
        source: ALL,
        destination: &[Empty, Foo],
        roots: &[Index1],
        existing: Existing::Skip,
        want: &[INDEX_1, ";", IMAGE_2, ";", IMAGE_3, ";", BAR, ";"],
        fetches: 3,
    },
    Row {
        name: "a missing layer",
        source: &[Empty, Image2, Image3, Index1],
        destination: &[],
        roots: &[Index1],
        existing: Existing::Skip,
        want: &["53 NotFound ", FOO],
        fetches: 3,
    },
    Row {
        name: "a missing image",
        source: &[Empty, Bar, Image2, Index1],
        destination: &[],
        roots: &[Index1],
        existing: Existing::Skip,
        want: &["53 NotFound ", IMAGE_3],
        fetches: 2,
    },
    Row {
        name: "held roots",
        source: &[],
        destination: &[Foo],
        roots: &[Foo, Foo],
        existing: Existing::Skip,
        want: &["skipped ", FOO, ";"],
        fetches: 0,
    },
    Row {
        name: "below held keys",
        source: ALL,
        destination: &[Foo, Image2, Index1],
        roots: &[Index1, Image2, Index1],
        existing: Existing::Descend,
        want: &[
            IMAGE_3,
            ";",
            EMPTY,
            ";",
            BAR,
            ";skipped ",
            INDEX_1,
            ";skipped ",
            IMAGE_2,
            ";",
        ],
        fetches: 3,
    },
];

/// Each manifest is fetched once, and no layer is fetched.
#[test]
fn plans_and_fetches(rt: HostRuntime) -> Result<(), Fail> {
    for row in &ROWS {
        assert_planned(&rt, &memory(rt.alloc(), row.source)?, row)?;
    }
    Ok(())
}

/// Returns the fault for a cycle of two keys as text.
fn cycle(alloc: Global) -> Result<String, Fail> {
    let fault = PlanFault::Cycle(keys(alloc, &[Foo, Bar])?);
    Ok(fault.to_string(alloc)?)
}

/// No source in memory has a cycle, whose keys are printed one after the other.
#[test]
fn printed_cycle(rt: HostRuntime) -> Result<(), Fail> {
    let line = cycle(rt.alloc())?;
    assert_text(&rt, &"cycle", line.as_str(), &["55 Cycle ", FOO, " ", BAR])
}
