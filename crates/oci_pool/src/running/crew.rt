use crate::board::Board;
use crate::deque::{OtherDeque, OwnDeque};
use crate::job::{Job, RunStart};
use crate::worker::{Deques, Worker};
use std::alloc::{AllocError, Global};

/// Creates `count` empty deques.
fn empty_deques(alloc: Global, count: usize) -> Result<Vec<OwnDeque>, AllocError> {
    let mut deques = Vec::with_capacity(alloc, count)?;
    for _ in 0..count {
        deques.push(OwnDeque::new(alloc)?)?;
    }
    Ok(deques)
}

/// Deals the numbers that a board issued to the deques in turn. There are at most `count` of them.
fn deal(board: &Board, deques: &mut [OwnDeque], count: usize) -> Result<(), AllocError> {
    for place in 0..count {
        if deques.is_empty() {
            return Ok(());
        }
        let turn = place % deques.len();
        let Some(number) = board.issued(place) else {
            return Ok(());
        };
        if deques[turn].put(number).is_err() {
            return Err(AllocError);
        }
    }
    Ok(())
}

/// Creates stealers for every deque except one.
fn holds(alloc: Global, deques: &[OwnDeque], but: usize) -> Result<Vec<OtherDeque>, AllocError> {
    let mut others = Vec::with_capacity(alloc, deques.len())?;
    for (place, deque) in deques.iter().enumerate() {
        if place != but {
            others.push(deque.other()?)?;
        }
    }
    Ok(others)
}

/// Creates a worker for each deque, with stealers for the others.
fn workers_of<J: Job, T: RunStart<J::Out, J::Fault>>(
    alloc: Global,
    mut deques: Vec<OwnDeque>,
) -> Result<Vec<Worker<J, T>>, AllocError> {
    let number = deques.len();
    let mut held = Vec::with_capacity(alloc, number)?;
    for place in 0..deques.len() {
        held.push(holds(alloc, deques.as_slice(), place)?)?;
    }
    let mut workers = Vec::with_capacity(alloc, number)?;
    while let Some(own) = deques.pop() {
        let others = held.pop().unwrap_or(Vec::new(alloc));
        workers.push(Worker::new(alloc, Deques { own, others }))?;
    }
    Ok(workers)
}

/// Creates `threads` workers, and deals the numbers that the board issued to their deques.
pub(super) fn idle_crew<J: Job, T: RunStart<J::Out, J::Fault>>(
    alloc: Global,
    board: &Board,
    count: usize,
    threads: usize,
) -> Result<Vec<Worker<J, T>>, AllocError> {
    let mut deques = empty_deques(alloc, threads)?;
    deal(board, deques.as_mut_slice(), count)?;
    workers_of(alloc, deques)
}
