use crate::changes::{change, int_column, rows, times};
use ksql_expr::AggFun;
use ksql_nodes::Node;
use ksql_place::{Body, Change};
use ksql_program::{Agg, Aggs};
use ksql_types::{Items, Kind, Value};
use reference::{EntryRef, results};
use std::alloc::{AllocError, Global};

/// A change of a stream, in the group 1, with a number or NULL.
fn said(alloc: Global, time: u64, number: Option<i32>) -> Result<Change, AllocError> {
    let value = match number {
        Some(number) => Value::Int(number),
        None => Value::Null,
    };
    let row = Items::of(vec![in alloc; value]?);
    change(alloc, time, 1, Body::Said(row))
}

/// COUNT of `*`, and each aggregate function of the number.
fn aggs(alloc: Global) -> Result<Aggs, AllocError> {
    let count_all = Agg {
        fun: AggFun::CountAll,
        arg: None,
    };
    let mut aggs = vec![in alloc; count_all]?;
    for fun in [
        AggFun::Count,
        AggFun::Sum,
        AggFun::Min,
        AggFun::Max,
        AggFun::Latest,
        AggFun::Earliest,
    ] {
        aggs.push(Agg {
            fun,
            arg: Some(int_column(0)),
        })?;
    }
    Ok(Items::of(aggs))
}

/// The changes of groups that changes of a stream give.
fn aggregated(alloc: Global, changes: &[Change]) -> Result<Vec<Change>, AllocError> {
    let mut entries = Vec::new(alloc);
    for change in changes {
        entries.push(EntryRef { side: 0, change })?;
    }
    let node = Node::Aggregate {
        over: Kind::Stream,
        aggs: aggs(alloc)?,
        window: None,
    };
    let nodes = vec![in alloc; node]?;
    results(alloc, 1, &nodes[0], entries.as_slice())
}

/// What the aggregates give of two NULLs and two numbers whose sum wraps.
pub fn aggregates(alloc: Global) -> Result<String, AllocError> {
    let mut changes = Vec::new(alloc);
    for (time, number) in [(5, None), (9, Some(i32::MAX)), (7, Some(3)), (8, None)] {
        changes.push(said(alloc, time, number)?)?;
    }
    let given = aggregated(alloc, changes.as_slice())?;
    format!(in alloc; "{} {}", times(alloc, &given)?, rows(alloc, &given)?)
}
