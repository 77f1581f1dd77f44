use crate::changes::{change, int_column, rows, times};
use ksql_expr::AggFun;
use ksql_place::{Body, Change};
use ksql_program::{Agg, Aggs};
use ksql_types::{Items, Row, Value};
use reference::{EntryRef, group_results};
use std::alloc::{AllocError, Global};

/// A row: its group and a number.
fn row(alloc: Global, cells: Option<(i32, i32)>) -> Result<Option<Row>, AllocError> {
    match cells {
        Some((group, number)) => {
            let cells = vec![in alloc; Value::Int(group), Value::Int(number)]?;
            Ok(Some(Items::of(cells)))
        }
        None => Ok(None),
    }
}

/// A change of the row of a table's key 7.
fn turned(
    alloc: Global,
    time: u64,
    old: Option<(i32, i32)>,
    new: Option<(i32, i32)>,
) -> Result<Change, AllocError> {
    let body = Body::Turned {
        old: row(alloc, old)?,
        new: row(alloc, new)?,
    };
    change(alloc, time, 7, body)
}

/// COUNT of `*` and SUM of the number.
fn aggs(alloc: Global) -> Result<Aggs, AllocError> {
    let count = Agg {
        fun: AggFun::CountAll,
        arg: None,
    };
    let sum = Agg {
        fun: AggFun::Sum,
        arg: Some(int_column(1)),
    };
    Ok(Items::of(vec![in alloc; count, sum]?))
}

/// What groups give where a row comes, moves and goes.
pub fn grouped(alloc: Global) -> Result<String, AllocError> {
    let (in_a, in_b) = (Some((1, 5)), Some((2, 6)));
    let mut changes = Vec::new(alloc);
    for (time, old, new) in [(30, None, in_a), (20, in_a, in_b), (10, in_b, None)] {
        changes.push(turned(alloc, time, old, new)?)?;
    }
    let mut entries = Vec::new(alloc);
    for change in &changes {
        entries.push(EntryRef { side: 0, change })?;
    }
    let keys = vec![in alloc; int_column(0)]?;
    let aggs = aggs(alloc)?;
    let given = group_results(alloc, keys.as_slice(), aggs.items(), entries.as_slice())?;
    format!(in alloc; "{} {}", times(alloc, &given)?, rows(alloc, &given)?)
}
