ghost use Rattle.std.specs.Prelude.{◌≡◌, ◌⊎◌, ◌++◌, List, true, false, Contains, All, IsErrOf};
ghost use Rattle.oci_manifest.specs.Descriptor.{Descriptor};
ghost use Rattle.oci_store.specs.Closed.{IsClosed};
ghost use Rattle.oci_store.specs.Content.{IsChecked, successors_in};
ghost use Rattle.oci_store.specs.Graph.{Node};
ghost use Rattle.oci_store.specs.Keyed.{HasAll};
ghost use Rattle.oci_copy.specs.Brought.{IsPlannedContent, IsPlannedDraft};
ghost use Rattle.oci_copy.specs.Cause.{CanFail, IsStepAnswer};
ghost use Rattle.oci_copy.specs.Fault.{of_push};
ghost use Rattle.oci_copy.specs.Grown.{graph_of, HasKnownBytes, StillLasts};
ghost use Rattle.oci_copy.specs.Kept.{CanBegin, Keeps, IsOpeningAnd};

use super::copy_start::CopyStart;
use super::held::Held;
use crate::fault::CopyFault;
use crate::fetching::push_fault;
use oci_manifest::Key;
use oci_store::{CheckedContent, Dest, PushFault};
use std::marker::{Model, PhantomData};

/// A destination during a copy by workers, in the lock that they share. To a contract it is its
/// graph.
///
/// The type keeps the facts that hold whenever the lock is free. The contract of
/// [`destination`](LockedDestination::destination) states them.
#[derive(Drop)]
pub struct LockedDestination<D: Dest, T: CopyStart> {
    destination: D,
    /// Whether a push was refused because memory ran out.
    ran_out: bool,
    /// Whether a push was refused because a put failed.
    put_failed: bool,
    opening: PhantomData<T>,
}

impl<D: Dest, T: CopyStart> Model for LockedDestination<D, T> {
    ghost use Rattle.std.specs.Prelude.{◌≡◌, ◌⊎◌, ◌<◌, List, true};
    ghost use Rattle.oci_store.specs.Graph.{Node};
    ghost use Rattle.oci_copy.specs.Kept.{Keeps};

    ghost Value = { List Node };

    ghost view = { λ g. (D.state g.destination).nodes };

    ghost invariant = { λ g. Keeps D.shares T.source T.planned T.opening (D.state g.destination)
        × ((D.state g.destination).is_halted → T.opening.is_halted ⊎ (g.ran_out ≡ true))
        × (T.opening.failures < (D.state g.destination).failures → g.put_failed ≡ true) };
}

impl<D: Dest, T: CopyStart> LockedDestination<D, T> {
    /// Wraps a destination at the start of a run.
    pub(crate) fn new(destination: D) -> Self
        requires { CanBegin D.shares T.source T.planned T.opening (D.state destination) }
        ensures { result ≡ (D.state destination).nodes }
    {
        LockedDestination {
            destination,
            ran_out: false,
            put_failed: false,
            opening: PhantomData,
        }
    }

    /// Returns the destination. Its contract states what holds whenever the lock is free.
    ///
    /// The destination has all that the new keys list. If it was closed when the run began, it is
    /// closed. Each new key is planned. With an honest source, each new node is the source's. If
    /// the bytes are known, each new entry is the source's too. The tags and the name are
    /// unchanged. What lasted when the run began still lasts, so a crash finds it there.
    pub fn destination(&self) -> &D
        ensures nodes { (D.state result.now).nodes ≡ self.now }
        ensures closed { IsClosed T.opening.nodes → IsClosed (D.state result.now).nodes }
        ensures planned { (added : List Node)
            × ((D.state result.now).nodes ≡ T.opening.nodes ++ added)
            × All (λ n. Contains T.planned n.0) added }
        ensures whole { (added : List Node)
            × ((D.state result.now).nodes ≡ T.opening.nodes ++ added)
            × All (λ n. HasAll (D.state result.now).nodes n.1) added }
        ensures later { T.source.is_honest
            → IsOpeningAnd (graph_of T.source) T.planned T.opening.nodes
            (D.state result.now).nodes }
        ensures later_content { HasKnownBytes D.shares T.source T.opening (D.state result.now)
            → IsOpeningAnd T.source.entries T.planned T.opening.entries
            (D.state result.now).entries }
        ensures tags { (D.state result.now).tags ≡ T.opening.tags }
        ensures name { (D.state result.now).name ≡ T.opening.name }
        ensures lasts { StillLasts T.source T.opening (D.state result.now) }
    {
        &self.destination
    }

    /// Pushes the content of a planned key, unless the key is held. All that the content lists has
    /// to be held.
    pub(crate) fn push<'k>(
        &mut self,
        key: &'k Key,
        content: CheckedContent,
    ) -> Result<Held<'k>, CopyFault>
        requires content { IsPlannedContent T.source T.planned key.now content }
        requires ready { HasAll self.old (successors_in key.now content.1) }
        requires checked { (listed : List Descriptor) × IsChecked key.now content.1 listed }
        ensures { IsStepAnswer (CanFail D.state T.opening) T.source T.opening key.now result }
    {
        if self.destination.has(key) {
            return Ok(Held::by(self, key));
        }
        let pushed = self.destination.push_checked(content);
        self.ran_out = has_run_out(self.ran_out, &pushed);
        self.put_failed = has_failed(self.put_failed, &pushed);
        match pushed {
            Ok(_) => Ok(Held::by(self, key)),
            Err(fault) => Err(locked_fault(key, fault, self.ran_out)),
        }
    }

    /// Pushes the drafted content of a planned key that lists nothing, unless the key is held.
    pub(crate) fn push_draft<'k>(
        &mut self,
        key: &'k Key,
        draft: D::Draft,
    ) -> Result<Held<'k>, CopyFault>
        requires { IsPlannedDraft (D.Draft.is_lost draft) (D.Draft.drafted draft) T.source
            T.planned key.now }
        ensures { IsStepAnswer (CanFail D.state T.opening) T.source T.opening key.now result }
    {
        if self.destination.has(key) {
            return Ok(Held::by(self, key));
        }
        let pushed = self.destination.push_draft(key, draft);
        self.ran_out = has_run_out(self.ran_out, &pushed);
        self.put_failed = has_failed(self.put_failed, &pushed);
        match pushed {
            Ok(_) => Ok(Held::by(self, key)),
            Err(fault) => Err(locked_fault(key, fault, self.ran_out)),
        }
    }

    /// Returns the destination, once the run has ended, and whether a put failed in it.
    pub(crate) fn into_destination(self) -> (D, bool)
        ensures nodes { (D.state result.0).nodes ≡ self }
        ensures keeps { Keeps D.shares T.source T.planned T.opening (D.state result.0) }
        ensures calm { result.1 ≡ false → (D.state result.0).failures ≡ T.opening.failures }
    {
        let LockedDestination {
            destination,
            ran_out: _,
            put_failed,
            opening: _,
        } = self;
        (destination, put_failed)
    }
}

/// Returns whether this push or an earlier one was refused because memory ran out.
fn has_run_out(ran_out: bool, pushed: &Result<usize, PushFault>) -> bool
    ensures before { ran_out ≡ true → result ≡ true }
    ensures now { IsErrOf pushed.now PushFault.Memory → result ≡ true }
    ensures only { result ≡ true → (ran_out ≡ true) ⊎ IsErrOf pushed.now PushFault.Memory }
{
    match pushed {
        Err(PushFault::Memory) => true,
        _ => ran_out,
    }
}

/// Returns whether this push or an earlier one was refused because a put failed.
fn has_failed(put_failed: bool, pushed: &Result<usize, PushFault>) -> bool
    ensures before { put_failed ≡ true → result ≡ true }
    ensures now { IsErrOf pushed.now PushFault.Device → result ≡ true }
{
    match pushed {
        Err(PushFault::Device) => true,
        _ => put_failed,
    }
}

/// Returns the fault of a copy whose push of the key was refused. A halt after a push that ran out
/// of memory is a consequence of that push, and is reported as `Memory`.
fn locked_fault(key: &Key, fault: PushFault, ran_out: bool) -> CopyFault
    ensures { (result ≡ CopyFault.Memory) ⊎ ((result ≡ of_push key.now fault)
        × (fault ≡ PushFault.Halted → ran_out ≡ false)) }
{
    if ran_out {
        return match fault {
            PushFault::Halted => CopyFault::Memory,
            _ => push_fault(key, fault),
        };
    }
    push_fault(key, fault)
}
