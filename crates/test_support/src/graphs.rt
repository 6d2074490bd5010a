//! Graphs of numbers: the list at a number's place has the numbers that it needs.

ghost use Rattle.std.specs.Prelude.{◌<◌, All, IfOk};

use std::alloc::{AllocError, Global};

/// The number of numbers in a layer.
const WIDTH: u32 = 100;

/// The shape of a graph.
#[derive(Clone, Copy, Debug)]
pub enum Shape {
    /// Each number needs the one before it.
    Chain,
    /// Each number needs the first.
    Star,
    /// Each number needs two numbers of the layer before its own: the one at the same place, and
    /// the first.
    Layers,
    /// No number needs another.
    Leaves,
}

/// Returns a graph of this shape with `count` numbers.
pub fn graph(alloc: Global, shape: Shape, count: u32) -> Result<Vec<Vec<u32>>, AllocError> {
    let mut lists = Vec::new(alloc);
    for number in 0..count {
        lists.push(needed(alloc, shape, number)?)?;
    }
    Ok(lists)
}

/// Returns the numbers that a number needs.
fn needed(alloc: Global, shape: Shape, number: u32) -> Result<Vec<u32>, AllocError>
    ensures lower { IfOk result (λ list. All (λ n. n < number) list.items) }
{
    match shape {
        Shape::Chain => chain(alloc, number),
        Shape::Star => star(alloc, number),
        Shape::Layers => layers(alloc, number),
        Shape::Leaves => Ok(Vec::new(alloc)),
    }
}

fn chain(alloc: Global, number: u32) -> Result<Vec<u32>, AllocError>
    ensures lower { IfOk result (λ list. All (λ n. n < number) list.items) }
{
    let mut list = Vec::new(alloc);
    if number > 0 {
        list.push(number - 1)?;
    }
    Ok(list)
}

fn star(alloc: Global, number: u32) -> Result<Vec<u32>, AllocError>
    ensures lower { IfOk result (λ list. All (λ n. n < number) list.items) }
{
    let mut list = Vec::new(alloc);
    if number > 0 {
        list.push(0)?;
    }
    Ok(list)
}

fn layers(alloc: Global, number: u32) -> Result<Vec<u32>, AllocError>
    ensures lower { IfOk result (λ list. All (λ n. n < number) list.items) }
{
    let mut list = Vec::new(alloc);
    if number >= WIDTH {
        list.push(number - WIDTH)?;
        list.push(number / WIDTH * WIDTH - WIDTH)?;
    }
    Ok(list)
}

/// Returns the graph with these lists.
pub fn graph_of(alloc: Global, lists: &[&[u32]]) -> Result<Vec<Vec<u32>>, AllocError> {
    let mut made = Vec::new(alloc);
    for list in lists {
        made.push(list.to_vec(alloc)?)?;
    }
    Ok(made)
}

/// Returns the next number below `bound` of a fixed sequence of numbers that look random.
pub fn below(state: &mut u64, bound: u32) -> u32 {
    *state = state
        .wrapping_mul(6364136223846793005)
        .wrapping_add(1442695040888963407);
    u32::try_from(*state >> 33)
        .unwrap_or(0)
        .checked_rem(bound)
        .unwrap_or(0)
}

/// Returns up to three random numbers below `bound`, with repetitions. The list is empty if the
/// bound is 0.
pub fn random_list(alloc: Global, state: &mut u64, bound: u32) -> Result<Vec<u32>, AllocError> {
    let mut list = Vec::new(alloc);
    for _ in 0..below(state, 4) {
        if bound > 0 {
            list.push(below(state, bound))?;
        }
    }
    Ok(list)
}

/// Returns a random graph with `count` numbers. If `tame` is true, each number needs only lesser
/// ones.
pub fn random_graph(
    alloc: Global,
    state: &mut u64,
    count: u32,
    tame: bool,
) -> Result<Vec<Vec<u32>>, AllocError> {
    let mut lists = Vec::new(alloc);
    for number in 0..count {
        let bound = if tame { number } else { count };
        lists.push(random_list(alloc, state, bound)?)?;
    }
    Ok(lists)
}
