ghost use Rattle.std.specs.Prelude.{◌≡◌, ◌++◌, ◌∷◌, [], drop, OnOk, OnErr};
ghost use Rattle.left_right.specs.Sides.{view};
ghost use Rattle.oci_store.specs.Closed.{IsClosed};
ghost use Rattle.oci_store.specs.Graph.{nodes_of};
ghost use Rattle.oci_live.specs.History.{name_of};
ghost use Rattle.oci_live.specs.Kept.{IsShown, Follows};

use crate::rule::{Publisher, Sees};
use crate::shelf::Item;
use core::mem::replace_with;
use oci_digest::NoMemory;
use std::sync::Wait;

/// Publishes one entry, with a witness of the history that ends with it.
pub(crate) fn publish<R: Wait>(
    publisher: &mut Publisher,
    rt: &R,
    item: Item,
) -> Result<(), NoMemory>
    requires nothing { drop publisher.old.behind publisher.old.log.items ≡ [] }
    requires shown { IsShown (view publisher.old.desk.place) publisher.old.desk.shown.value }
    requires told { item.witness.log ≡ publisher.old.desk.shown.value.entries ++ item.content ∷ [] }
    requires name { name_of item.witness.book ≡ name_of
        publisher.old.desk.shown.value.witness.book }
    requires closed { IsClosed
        (nodes_of (publisher.old.desk.shown.value.entries ++ item.content ∷ [])) }
    ensures shown { IsShown (view publisher.new.desk.place) publisher.new.desk.shown.value }
    ensures done { OnOk result (Follows publisher.old.desk.shown.value item.content
        publisher.new.desk.shown.value
        × (drop publisher.new.behind publisher.new.log.items ≡ [])) }
    ensures refused { OnErr result
        (publisher.new.desk.shown.value ≡ publisher.old.desk.shown.value) }
{
    replace_with(
        publisher,
        (rt, item),
        |publisher, x|
            requires { (drop publisher.behind publisher.log.items ≡ [])
                × IsShown (view publisher.desk.place) publisher.desk.shown.value
                × (x.1.witness.log ≡ publisher.desk.shown.value.entries ++ x.1.content ∷ [])
                × (name_of x.1.witness.book ≡ name_of publisher.desk.shown.value.witness.book)
                × IsClosed (nodes_of (publisher.desk.shown.value.entries ++ x.1.content ∷ [])) }
        { published(publisher, x.0, x.1) },
    )
}

/// Publishes one entry, and returns the publisher with the result.
fn published<R: Wait>(publisher: Publisher, rt: &R, item: Item) -> (Publisher, Result<(), NoMemory>)
    requires nothing { drop publisher.behind publisher.log.items ≡ [] }
    requires shown { IsShown (view publisher.desk.place) publisher.desk.shown.value }
    requires told { item.witness.log ≡ publisher.desk.shown.value.entries ++ item.content ∷ [] }
    requires name { name_of item.witness.book ≡ name_of publisher.desk.shown.value.witness.book }
    requires closed { IsClosed
        (nodes_of (publisher.desk.shown.value.entries ++ item.content ∷ [])) }
    ensures shown { IsShown (view result.0.desk.place) result.0.desk.shown.value }
    ensures done { OnOk result.1 (Follows publisher.desk.shown.value item.content
        result.0.desk.shown.value
        × (drop result.0.behind result.0.log.items ≡ [])) }
    ensures refused { OnErr result.1 (result.0.desk.shown.value ≡ publisher.desk.shown.value) }
{
    let mut publisher = publisher;
    match publisher.append(item) {
        Ok(()) => {}
        Err(_) => return (publisher, Err(NoMemory)),
    }
    match publisher.publish_as::<Sees, R>(rt) {
        (publisher, Ok(())) => (publisher, Ok(())),
        (publisher, Err(_)) => (publisher, Err(NoMemory)),
    }
}
