//! The rule for reading and writing the two copies, and the handles that follow it.
use crate::history::LogEntry;
use crate::shelf::{Item, Shelf};
use atomic_table::{Join, Split};
use crossbeam_utils::rule::{Outcome, Protocol};
use left_right::reader::Reader;
use left_right::writer::Writer;

/// The knowledge of a seat, which belongs to the publisher or to a look. No value of this type is
/// created.
pub(crate) struct View {
    pub(crate) is_told: bool,
    pub(crate) name: [u64; 0],
    pub(crate) list: [LogEntry; 0],
}

/// The published entries are closed, and begin with every list that a seat has seen.
pub(crate) struct Published;

impl Protocol<Shelf, View> for Published {
    ghost use Rattle.oci_live.specs.Rule.{IsPublished, newcomer};

    ghost holds = { IsPublished };

    ghost first = { newcomer };
}

/// The effect of one publication, or one look, on the knowledge of its seat.
pub(crate) struct Sees;

impl Outcome<Shelf, View> for Sees {
    ghost use Rattle.oci_live.specs.Rule.{Shows};

    ghost then = { Shows };
}

/// The publisher keeps its view, and a new look gets a copy.
pub(crate) struct Twice;

impl Split<View> for Twice {
    ghost left = { λ v. v };

    ghost right = { λ v. v };
}

/// The publisher's view replaces a newcomer's.
pub(crate) struct Told;

impl Join<View> for Told {
    ghost use Rattle.oci_live.specs.Rule.{newcomer};

    ghost both = { λ v w. w };

    ghost spent = { newcomer };
}

/// The handle that publishes.
pub(crate) type Publisher = Writer<Shelf, Item, View, Published>;

/// The handle of a look.
pub(crate) type Viewer = Reader<Shelf, View, Published>;
