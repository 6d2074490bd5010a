//! Copies of samples with `Existing::Descend` and with `Existing::Skip`, between stores in memory
//! that may be open, on one thread and by workers.

use crate::tests::calls::{FOO, IMAGE_2};
use crate::tests::copies::{Call, Case, NOTHING, OPEN_AT_IMAGE_0, assert_cases};
use oci_plan::Existing;
use std::test::Fail;
use test_support::Sample;
use test_support::Sample::{Empty, Foo, Image0, Image2};

/// A destination, and the results of copies into it.
#[derive(Clone, Copy)]
struct Row<'a> {
    source: &'a [Sample],
    destination: &'a [Sample],
    /// Whether the destination is closed before.
    was_closed: bool,
    roots: &'a [Sample],
    /// The fault if held keys are skipped; nothing is changed then.
    skipping: &'a [&'a str],
    /// The report or the fault of the copy that descends.
    descending: &'a [&'a str],
    /// The entries of the destination after the copy that descends, in their order, and whether it
    /// is closed then.
    copied: &'a [Sample],
    is_closed: bool,
}

/// The copy that skips held keys, the one that descends, and the repair, which descends whatever
/// the options say.
fn cases<'a>(row: &Row<'a>) -> [Case<'a>; 3] {
    let skipping = Case {
        name: "skipping",
        roots: row.roots,
        source: row.source,
        destination: row.destination,
        told: row.skipping,
        copied: row.destination,
        is_in_order: true,
        is_closed: row.was_closed,
        ..NOTHING
    };
    let descending = Case {
        name: "descending",
        existing: Existing::Descend,
        told: row.descending,
        copied: row.copied,
        is_closed: row.is_closed,
        ..skipping
    };
    let repairing = Case {
        name: "repairing",
        call: Call::Repair,
        existing: Existing::Skip,
        ..descending
    };
    [skipping, descending, repairing]
}

/// Below a held image; beside an open image, which stays open; of an image, and of a layer, that
/// only the destination has; and of a layer that neither has.
const ROWS: [Row<'static>; 5] = [
    Row {
        source: &[Empty, Image0],
        destination: &[Image0],
        was_closed: false,
        roots: &[Image0],
        skipping: OPEN_AT_IMAGE_0,
        descending: &["planned 1 pushed 1 skipped 1"],
        copied: &[Image0, Empty],
        is_closed: true,
    },
    Row {
        source: &[Empty, Foo],
        destination: &[Image0],
        was_closed: false,
        roots: &[Foo],
        skipping: OPEN_AT_IMAGE_0,
        descending: &["planned 1 pushed 1 skipped 0"],
        copied: &[Image0, Foo],
        is_closed: false,
    },
    Row {
        source: &[Empty],
        destination: &[Image0],
        was_closed: false,
        roots: &[Image0],
        skipping: OPEN_AT_IMAGE_0,
        descending: &["planned 0 pushed 0 skipped 1"],
        copied: &[Image0],
        is_closed: false,
    },
    Row {
        source: &[Empty, Image2],
        destination: &[Empty, Foo, Image2],
        was_closed: true,
        roots: &[Image2],
        skipping: &["planned 0 pushed 0 skipped 1"],
        descending: &["planned 0 pushed 0 skipped 1"],
        copied: &[Empty, Foo, Image2],
        is_closed: true,
    },
    Row {
        source: &[Empty, Image2],
        destination: &[Empty, Image2],
        was_closed: false,
        roots: &[Image2],
        skipping: &["80 DestinationOpen ", IMAGE_2, " ", FOO],
        descending: &["81 Plan 53 NotFound ", FOO],
        copied: &[Empty, Image2],
        is_closed: false,
    },
];

#[test]
fn below_and_beside_held_keys(rt: HostRuntime) -> Result<(), Fail> {
    for row in &ROWS {
        assert_cases(&rt, &cases(row))?;
    }
    Ok(())
}
