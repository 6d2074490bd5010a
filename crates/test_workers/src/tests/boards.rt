use crate::graphs::{DIAMOND, ordered};
use crate::tests::boards::Step::{Done, Issued, Pass, Stop};
use oci_pool::Board;
use std::alloc::{AllocError, Global};
use std::process::Abort;
use std::test::Fail;

/// A call of a board, and its expected result.
#[derive(Clone, Copy, Debug)]
enum Step {
    /// A job of a number has ended.
    Done(u32, Option<(usize, usize)>),
    /// The pass of a number is asked for. The expected result is the number of the pass.
    Pass(u32, Option<u32>),
    /// The issue list has these numbers.
    Issued(&'static [u32]),
    /// The board is stopped.
    Stop,
}

/// Creates a board of the diamond.
fn board(rt: &impl Abort, alloc: Global) -> Result<Board, AllocError> {
    let order = ordered(rt, alloc, DIAMOND)?;
    match Board::new(alloc, &order) {
        Ok(board) => Ok(board),
        Err(_) => Err(AllocError),
    }
}

/// Returns whether the issue list has these numbers. It looks at the first five places.
fn is_issued(board: &Board, numbers: &[u32]) -> bool {
    for place in 0..5 {
        if board.issued(place) != numbers.get(place).copied() {
            return false;
        }
    }
    true
}

/// Returns whether the board returns the expected result.
fn answers(board: &mut Board, step: Step) -> bool {
    match step {
        Done(number, answer) => board.done(number) == answer,
        Pass(number, answer) => board.pass(number).map(|pass| pass.number()) == answer,
        Issued(numbers) => is_issued(board, numbers),
        Stop => {
            board.stop();
            true
        }
    }
}

/// Asserts each step on a board of the diamond.
fn assert_steps(rt: &impl Abort, alloc: Global, steps: &[Step]) -> Result<(), Fail> {
    let mut board = board(rt, alloc)?;
    for (place, step) in steps.iter().enumerate() {
        assert!(rt; answers(&mut board, *step), "step {place}: {step:?}");
    }
    Ok(())
}

#[test]
fn order_and_board(rt: HostRuntime) -> Result<(), Fail> {
    const STEPS: &[Step] = &[
        Issued(&[0]),
        Done(0, Some((1, 3))),
        Issued(&[0, 1, 2]),
        Done(2, Some((3, 3))),
        Done(2, None),
        Done(1, Some((3, 4))),
        Issued(&[0, 1, 2, 3]),
    ];
    assert_steps(&rt, rt.alloc(), STEPS)
}

#[test]
fn order_and_board_passes(rt: HostRuntime) -> Result<(), Fail> {
    const STEPS: &[Step] = &[
        Pass(1, None),
        Pass(0, Some(0)),
        Pass(0, None),
        Done(0, Some((1, 3))),
        Pass(2, Some(2)),
        Pass(4, None),
    ];
    assert_steps(&rt, rt.alloc(), STEPS)
}

#[test]
fn stopped_board(rt: HostRuntime) -> Result<(), Fail> {
    const STEPS: &[Step] = &[
        Done(1, None),
        Stop,
        Pass(0, None),
        Done(0, Some((1, 1))),
        Done(0, None),
        Done(4, None),
        Issued(&[0]),
    ];
    assert_steps(&rt, rt.alloc(), STEPS)
}
