ghost use Rattle.std.specs.Prelude.{◌≡◌, false, drop, IfOk};
ghost use Rattle.left_right.specs.Sides.{view};
ghost use Rattle.oci_store.specs.Closed.{IsClosed};
ghost use Rattle.oci_store.specs.Graph.{nodes_of};
ghost use Rattle.oci_live.specs.Kept.{IsLive};

use crate::history::History;
use crate::rule::{Publisher, Sees};
use crate::shelf::Shelf;
use oci_digest::NoMemory;
use oci_store::Entries;
use std::alloc::Global;
use std::sync::Wait;

/// The largest number of looks at once. Each publication visits every place.
const PLACES: usize = 64;

/// Publishes the entries of a new live store. They are cloned twice, and not checked again.
pub(crate) fn opened<R: Wait>(
    rt: &R,
    alloc: Global,
    entries: &Entries,
) -> Result<(Publisher, History), NoMemory>
    requires { IsClosed (nodes_of entries.now) }
    ensures live { IfOk result (λ o. IsLive (view o.0.desk.place) o.0.desk.shown.value
        o.1.front.book o.1.front.log
        (drop o.0.behind o.0.log.items) false) }
    ensures entries { IfOk result (λ o. o.0.desk.shown.value.entries ≡ entries.now) }
{
    let history = history_of(entries)?;
    let shown = Shelf {
        entries: entries.try_clone()?,
        witness: history.front.again(),
    };
    let spare = Shelf {
        entries: entries.try_clone()?,
        witness: history.front.again(),
    };
    let publisher: Publisher = Publisher::new(alloc, shown, spare, PLACES)?;
    match publisher.publish_as::<Sees, R>(rt) {
        (publisher, Ok(())) => Ok((publisher, history)),
        (publisher, Err(_)) => {
            publisher.take(rt);
            Err(NoMemory)
        }
    }
}

/// Creates a history with these entries.
pub(crate) fn history_of(entries: &Entries) -> Result<History, NoMemory>
    ensures { IfOk result (λ history. history.front.log ≡ entries.now) }
{
    let mut history = History::new();
    for place in 0..entries.len() {
        let Some((key, bytes)) = entries.entry(place) else {
            unreachable!();
        };
        history.append(key, bytes)?;
    }
    Ok(history)
}
