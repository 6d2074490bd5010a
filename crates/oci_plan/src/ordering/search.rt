ghost use Rattle.std.specs.Prelude.{◌≡◌, ◌≢◌, ℕ, ◌<◌, [], length, Contains, MatchResult, IfOk, IfErr, OnOk, OnSome, slice_get};
ghost use Rattle.oci_plan.specs.Graph.{lists_of, successors_of, HasEdge, IsSmallGraph};
ghost use Rattle.oci_plan.specs.Fault.{IsCauseOf};
ghost use Rattle.oci_plan.specs.Order.{IsTopological};
ghost use Rattle.oci_plan.specs.Search.{progress_of, KeepsMet, EndsWith, IsTailFrom, IsBetween, IsBetweenAt, IsSearching, IsSpent, IsStepped, Steps};
ghost use Rattle.oci_plan.specs.declared.ordering.search.Progress.TheVariants.{New, Open, Done};

use crate::fault::OrderFault;
use std::alloc::{AllocError, Global};

/// The state of a number in the search.
#[derive(Clone, Copy, Debug)]
pub(crate) enum Progress {
    /// Not met yet.
    New,
    /// On the path, and how many of its successors are done.
    Open(usize),
    /// In the sequence, after its successors.
    Done,
}

/// A depth-first search along the edges of a graph. It keeps its own path instead of recursing.
#[derive(Drop)]
pub(crate) struct Search {
    progress: Vec<Progress>,
    /// The numbers from the start of the search to its current number, each a successor of the one
    /// before.
    path: Vec<u32>,
    /// The numbers that are done, each after its successors.
    sequence: Vec<u32>,
}

/// Returns the successor of a number at a place of its list, or nothing past its end.
fn successor(lists: &[Vec<u32>], number: u32, place: usize) -> Option<u32>
    requires { number < length lists.now }
    ensures value { result ≡ slice_get (successors_of (lists_of lists.now) number) place }
    ensures within { OnSome result (place < usize.MAX) }
{
    let list = &lists[number as usize];
    if place < list.len() {
        Some(list[place])
    } else {
        None
    }
}

impl Search {
    /// Creates a search that has met no number yet.
    fn new(alloc: Global, lists: &[Vec<u32>]) -> Result<Search, AllocError>
        ensures sound { IfOk result (IsBetween (lists_of lists.now)) }
        ensures idle { IfOk result (λ s. s.path.items ≡ []) }
    {
        Ok(Search {
            progress: vec![in alloc; Progress::New; lists.len()]?,
            path: Vec::new(alloc),
            sequence: Vec::new(alloc),
        })
    }

    /// Appends a number that is met for the first time to the path.
    fn enter(&mut self, lists: &[Vec<u32>], number: u32) -> Result<(), OrderFault>
        requires at { IsBetweenAt lists.now self.old number }
        requires fresh { progress_of self.old.progress.items number ≡ New }
        requires edge { (last : ℕ) → EndsWith self.old.path.items last
            → HasEdge (lists_of lists.now) last number }
        ensures step { Steps (lists_of lists.now) self.old self.new result }
        ensures met { OnOk result (progress_of self.new.progress.items number ≢ New) }
    {
        self.path.push(number)?;
        self.progress[number as usize] = Progress::Open(0);
        Ok(())
    }

    /// Counts one more successor of an open number as done.
    fn advance(&mut self, lists: &[Vec<u32>], number: u32, finished: usize, next: u32)
        requires at { IsBetweenAt lists.now self.old number }
        requires open { progress_of self.old.progress.items number ≡ Open finished }
        requires next { slice_get (successors_of (lists_of lists.now) number) finished ≡ Some next }
        requires within { finished < usize.MAX }
        requires done { progress_of self.old.progress.items next ≡ Done }
        ensures { IsStepped (lists_of lists.now) self.old self.new }
    {
        self.progress[number as usize] = Progress::Open(finished + 1);
    }

    /// Moves the last number of the path into the sequence. Its successors are all done.
    fn finish(&mut self, lists: &[Vec<u32>], number: u32, finished: usize) -> Result<(), OrderFault>
        requires at { IsBetweenAt lists.now self.old number }
        requires spent { IsSpent (lists_of lists.now) self.old number finished }
        ensures { Steps (lists_of lists.now) self.old self.new result }
    {
        self.sequence.push(number)?;
        let _ = self.path.pop();
        self.progress[number as usize] = Progress::Done;
        Ok(())
    }

    /// Returns the path from a number on it to its end.
    fn path_from(&self, number: u32) -> Result<Vec<u32>, AllocError>
        requires { Contains self.now.path.items number }
        ensures { IfOk result (λ tail. IsTailFrom self.now.path.items number tail.items) }
    {
        let Some(place) = self.path.iter().position(|other| *other == number) else {
            unreachable!()
        };
        Vec::from_slice(*self.path.allocator(), &self.path[place..])
    }

    /// Goes along one more edge from the last number of the path, or back from it if no edge is
    /// left.
    fn step(&mut self, lists: &[Vec<u32>], number: u32) -> Result<(), OrderFault>
        requires searching { IsSearching (lists_of lists.now) self.old }
        requires last { EndsWith self.old.path.items number }
        ensures { Steps (lists_of lists.now) self.old self.new result }
    {
        let Progress::Open(finished) = self.progress[number as usize] else {
            unreachable!()
        };
        let Some(next) = successor(lists, number, finished) else {
            return self.finish(lists, number, finished);
        };
        match self.progress[next as usize] {
            Progress::New => self.enter(lists, next),
            Progress::Open(_) => Err(OrderFault::Cycle(self.path_from(next)?)),
            Progress::Done => {
                self.advance(lists, number, finished, next);
                Ok(())
            }
        }
    }

    /// Puts a number, and all numbers that edges lead to from it, into the sequence.
    fn visit(&mut self, lists: &[Vec<u32>], start: u32) -> Result<(), OrderFault>
        requires searching { IsSearching (lists_of lists.now) self.old }
        requires number { start < length lists.now }
        requires idle { self.old.path.items ≡ [] }
        ensures sound { OnOk result (IsBetween (lists_of lists.now) self.new) }
        ensures idle { OnOk result (self.new.path.items ≡ []) }
        ensures met { OnOk result (progress_of self.new.progress.items start ≢ New) }
        ensures keeps { OnOk result (KeepsMet self.old.progress.items self.new.progress.items) }
        ensures refused { IfErr result (IsCauseOf (lists_of lists.now)) }
    {
        let Progress::New = self.progress[start as usize] else {
            return Ok(());
        };
        self.enter(lists, start)?;
        while let Some(number) = self.path.last().copied() {
            self.step(lists, number)?;
        }
        Ok(())
    }
}

/// Returns the numbers of a graph, each after its successors.
pub(crate) fn topological_sequence(
    alloc: Global,
    lists: &[Vec<u32>],
) -> Result<Vec<u32>, OrderFault>
    requires { IsSmallGraph lists.now }
    ensures { MatchResult result (λ sequence. IsTopological (lists_of lists.now) sequence.items)
        (IsCauseOf (lists_of lists.now)) }
{
    let mut search = Search::new(alloc, lists)?;
    for start in 0..lists.len() {
        search.visit(lists, start as u32)?;
    }
    Ok(search.sequence)
}
