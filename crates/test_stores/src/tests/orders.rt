use oci_plan::{Order, OrderFault, order};
use std::alloc::{AllocError, Global};
use std::process::Abort;
use std::test::Fail;
use test_support::{Shape, graph, graph_of};

fn push_place(alloc: Global, text: &mut String, number: u32) -> Result<(), AllocError> {
    text.push_str(format!(in alloc; " {number}")?.as_str())
}

/// Returns the numbers of an order as text.
fn told(alloc: Global, order: &Order) -> Result<String, AllocError> {
    let mut text = String::from_str(alloc, "order")?;
    for place in 0..order.len() {
        push_place(alloc, &mut text, order.at(place).unwrap_or(0))?;
    }
    Ok(text)
}

/// Returns the order of a graph, or the error.
fn ordered(rt: &impl Abort, lists: Vec<Vec<u32>>) -> Result<Order, OrderFault> {
    assert!(rt; lists.len() < 4294967295);
    order(lists)
}

/// Returns the order of a graph, or the printed error.
fn line(rt: &impl Abort, alloc: Global, lists: &[&[u32]]) -> Result<String, AllocError> {
    match &ordered(rt, graph_of(alloc, lists)?) {
        Ok(order) => told(alloc, order),
        Err(fault) => fault.to_string(alloc),
    }
}

/// Asserts that a text is one of two.
fn assert_either(rt: &impl Abort, lists: &[&[u32]], line: &str, first: &str, second: &str) {
    assert!(rt;
        line == first || line == second,
        "row {lists:?}: {line}, not {first}"
    );
}

/// Asserts that the line of a graph is one of two.
fn assert_line<R: AllocGlobal + Abort>(
    rt: &R,
    lists: &[&[u32]],
    first: &str,
    second: &str,
) -> Result<(), Fail> {
    let line = line(rt, rt.alloc(), lists)?;
    assert_either(rt, lists, line.as_str(), first, second);
    Ok(())
}

/// Graphs with two lines each. The order or the error of the graph prints as one of them.
const GRAPHS: [(&[&[u32]], &str, &str); 6] = [
    (&[&[0]], "50 Cycle 0", "50 Cycle 0"),
    (&[&[1], &[0]], "50 Cycle 0 1", "50 Cycle 1 0"),
    (
        &[&[], &[0], &[0], &[1, 2]],
        "order 0 1 2 3",
        "order 0 2 1 3",
    ),
    (&[], "order", "order"),
    (&[&[], &[2]], "51 BadNumber 1 2", "51 BadNumber 1 2"),
    (&[&[1, 1], &[]], "order 1 0", "order 1 0"),
];

#[test]
fn order_and_board(rt: HostRuntime) -> Result<(), Fail> {
    for (lists, first, second) in &GRAPHS {
        assert_line(&rt, lists, first, second)?;
    }
    Ok(())
}

/// Returns whether this is an order of as many numbers.
fn is_order_of(answer: &Result<Order, OrderFault>, count: usize) -> bool {
    match answer {
        Ok(order) => order.len() == count,
        Err(_) => false,
    }
}

/// Asserts that a graph of this shape has an order.
fn assert_large<R: AllocGlobal + Abort>(rt: &R, shape: Shape) -> Result<(), Fail> {
    let lists = graph(rt.alloc(), shape, 100_000)?;
    assert!(rt; is_order_of(&ordered(rt, lists), 100_000));
    Ok(())
}

/// A long chain, and a number that all others list.
#[test]
fn large_graphs(rt: HostRuntime) -> Result<(), Fail> {
    assert_large(&rt, Shape::Chain)?;
    assert_large(&rt, Shape::Star)
}
