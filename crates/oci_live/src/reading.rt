ghost use Rattle.std.specs.Prelude.{◌≡◌, true, length, IfOk, IfSome};
ghost use Rattle.left_right.specs.Sides.{view};
ghost use Rattle.oci_store.specs.Closed.{IsClosed};
ghost use Rattle.oci_store.specs.Graph.{nodes_of};
ghost use Rattle.oci_live.specs.History.{name_of};
ghost use Rattle.oci_live.specs.Rule.{IsTold};

use crate::history::Witness;
use crate::question::Question;
use crate::rule::{Publisher, Sees, Told, Twice, Viewer};
use core::mem::replace_with;
use std::alloc::AllocError;

/// Creates a viewer with the publisher's knowledge. Fails if every place is taken.
pub(crate) fn viewer_of(publisher: &mut Publisher) -> Result<Viewer, AllocError>
    requires { (view publisher.old.desk.place).is_told ≡ true }
    ensures known { IfOk result (λ viewer. view viewer.place ≡ view publisher.old.desk.place) }
    ensures kept { (publisher.new.desk.shown ≡ publisher.old.desk.shown)
        × (view publisher.new.desk.place ≡ view publisher.old.desk.place)
        × (publisher.new.log ≡ publisher.old.log) × (publisher.new.behind ≡ publisher.old.behind) }
{
    let mut viewer = publisher.factory().reader()?;
    viewer.learn::<Told>(publisher.tell::<Twice>());
    Ok(viewer)
}

/// Asks a question about the entries that are published now. Returns the answer, a witness of the
/// entries, and their number. Returns `None` if nothing is published any more.
pub(crate) fn ask<Q: Question>(
    viewer: &mut Viewer,
    question: &Q,
) -> Option<(Q::Answer, Witness, usize)>
    requires { (view viewer.old.place).is_told ≡ true }
    ensures viewer { IsTold (view viewer.new.place) (view viewer.old.place).name }
    ensures answer { IfSome result (λ r. Q.answers question.now r.1.log r.0 × (r.2 ≡ length r.1.log)
        × IsClosed (nodes_of r.1.log) × (name_of r.1.book ≡ (view viewer.old.place).name)) }
{
    replace_with(
        viewer,
        question,
        |viewer, question|
            requires { (view viewer.place).is_told ≡ true }
        { asked(viewer, question) },
    )
}

/// Asks a question, and returns the viewer with the result.
fn asked<Q: Question>(viewer: Viewer, question: &Q) -> (Viewer, Option<(Q::Answer, Witness, usize)>)
    requires { (view viewer.place).is_told ≡ true }
    ensures viewer { IsTold (view result.0.place) (view viewer.place).name }
    ensures answer { IfSome result.1 (λ r. Q.answers question.now r.1.log r.0
        × (r.2 ≡ length r.1.log)
        × IsClosed (nodes_of r.1.log) × (name_of r.1.book ≡ (view viewer.place).name)) }
{
    match viewer.enter_as::<Sees>() {
        Ok(reading) => {
            let shelf = reading.get();
            let answer = question.ask(&shelf.entries);
            let witness = shelf.witness.again();
            let len = shelf.entries.len();
            (reading.leave(), Some((answer, witness, len)))
        }
        Err(viewer) => (viewer, None),
    }
}
