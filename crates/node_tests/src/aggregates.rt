ghost use Rattle.std.specs.Prelude.{◌≤◌, ◌^◌, IfOk, IsTrue};
ghost use Rattle.node_tests.specs.Counting.{CountsRows};
ghost use Rattle.agg_ops.specs.Totals.{is_sound_window};

use agg_ops::WindowAggOp;
use ksql_expr::AggFun;
use ksql_nodes::Node;
use ksql_place::{Body, Change, Path, Place, Stamp};
use ksql_program::Agg;
use ksql_types::{Items, Key, Kind, Value, Window};
use operator::Operator;
use std::alloc::{AllocError, Global};

/// COUNT of the rows of a stream in windows.
fn counting(alloc: Global, window: Window) -> Result<WindowAggOp, AllocError>
    requires { IsTrue (is_sound_window window) }
    ensures { IfOk result (λ made. CountsRows (⟦<WindowAggOp as Operator>⟧.node made)) }
{
    let count = Agg {
        fun: AggFun::CountAll,
        arg: None,
    };
    let node = Node::Aggregate {
        over: Kind::Stream,
        aggs: Items::of(vec![in alloc; count]?),
        window: Some(window),
    };
    WindowAggOp::new(alloc, &node)
}

/// What a row at a time gives: of each window that takes it the count, the start and the end.
fn given(alloc: Global, op: &mut WindowAggOp, time: u64) -> Result<Vec<i64>, AllocError>
    requires counts { CountsRows (⟦<WindowAggOp as Operator>⟧.node op.old) }
    requires time { time ≤ 2 ^ 53 }
    ensures { CountsRows (⟦<WindowAggOp as Operator>⟧.node op.new) }
{
    let stamp = Stamp {
        feed: 1,
        high: 0,
        topic: 0,
        part: 0,
        offset: 0,
    };
    let change = Change {
        place: Place {
            stamp,
            path: Path::root(),
        },
        time,
        key: Key::of(Vec::new(alloc)),
        span: None,
        body: Body::Said(Items::of(Vec::new(alloc))),
    };
    let mut out = Vec::new(alloc);
    op.step(alloc, 0, change, &mut out)?;
    numbers_in(alloc, out.as_slice())
}

/// The numbers in the rows that some changes bring.
fn numbers_in(alloc: Global, changes: &[Change]) -> Result<Vec<i64>, AllocError> {
    let mut numbers = Vec::new(alloc);
    for change in changes {
        if let Body::Turned { new: Some(row), .. } = &change.body {
            put_numbers(&mut numbers, row.items())?;
        }
    }
    Ok(numbers)
}

/// Adds the numbers among some values.
fn put_numbers(numbers: &mut Vec<i64>, values: &[Value]) -> Result<(), AllocError> {
    for value in values {
        if let Value::Big(number) = value {
            numbers.push(*number)?;
        }
    }
    Ok(())
}

/// What rows at the times 12, 3 and 14 give in windows that overlap.
pub fn hopping(alloc: Global) -> Result<String, AllocError> {
    let window = Window {
        size: 10,
        advance: 5,
        grace: 5,
    };
    let mut op = counting(alloc, window)?;
    let first = given(alloc, &mut op, 12)?;
    let second = given(alloc, &mut op, 3)?;
    let third = given(alloc, &mut op, 14)?;
    format!(in alloc; "{first:?} {second:?} {third:?}")
}

/// What rows at the times 24, 12, 25 and 12 give in windows one after another.
pub fn tumbling(alloc: Global) -> Result<String, AllocError> {
    let window = Window {
        size: 10,
        advance: 10,
        grace: 5,
    };
    let mut op = counting(alloc, window)?;
    let first = given(alloc, &mut op, 24)?;
    let second = given(alloc, &mut op, 12)?;
    let third = given(alloc, &mut op, 25)?;
    let late = given(alloc, &mut op, 12)?;
    format!(in alloc; "{first:?} {second:?} {third:?} {late:?}")
}
