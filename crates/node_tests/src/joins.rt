use crate::changes::{change, int_column, rows, times};
use ksql_nodes::{Node, Side};
use ksql_place::{Body, Change};
use ksql_program::JoinKind;
use ksql_types::{Items, Row, Value};
use reference::{EntryRef, join_results};
use std::alloc::{AllocError, Global};

/// A row of two numbers.
fn pair(alloc: Global, first: i32, second: i32) -> Result<Row, AllocError> {
    let cells = vec![in alloc; Value::Int(first), Value::Int(second)]?;
    Ok(Items::of(cells))
}

/// A change of a table that sets the row of a key, or takes it away.
fn set(alloc: Global, time: u64, key: i32, number: Option<i32>) -> Result<Change, AllocError> {
    let new = match number {
        Some(number) => Some(pair(alloc, key, number)?),
        None => None,
    };
    change(alloc, time, key, Body::Turned { old: None, new })
}

/// A change of a stream.
fn said(alloc: Global, time: u64, first: i32, second: i32) -> Result<Change, AllocError> {
    let row = pair(alloc, first, second)?;
    change(alloc, time, 0, Body::Said(row))
}

/// Changes as entries of these sides.
fn entries<'a>(
    alloc: Global,
    sides: &[u32],
    changes: &'a [Change],
) -> Result<Vec<EntryRef<'a>>, AllocError> {
    let mut entries = Vec::new(alloc);
    for (side, change) in sides.iter().zip(changes) {
        entries.push(EntryRef {
            side: *side,
            change,
        })?;
    }
    Ok(entries)
}

fn side(relation: u32) -> Side {
    Side {
        relation,
        columns: 2,
    }
}

/// What a FULL join of the tables 3 and 2 gives.
fn full(alloc: Global, entries: &[EntryRef]) -> Result<Vec<Change>, AllocError> {
    let node = Node::JoinTables {
        kind: JoinKind::Full,
        left: side(3),
        right: side(2),
    };
    let nodes = vec![in alloc; node]?;
    join_results(alloc, &nodes[0], entries)
}

/// What a LEFT join of a stream gives, by its second column.
fn left(alloc: Global, entries: &[EntryRef]) -> Result<Vec<Change>, AllocError> {
    let node = Node::JoinStreamTable {
        kind: JoinKind::Left,
        on: int_column(1),
        left: side(0),
        right: side(1),
    };
    let nodes = vec![in alloc; node]?;
    join_results(alloc, &nodes[0], entries)
}

/// The first number of the path of each change.
fn steps(alloc: Global, changes: &[Change]) -> Result<String, AllocError> {
    let mut steps = String::from_str(alloc, "steps")?;
    for change in changes {
        if let [step, ..] = change.place.path.items() {
            write!(steps, " {step}")?;
        }
    }
    Ok(steps)
}

/// What a FULL join gives where each table is set, and then each row is taken away.
pub fn full_join(alloc: Global) -> Result<String, AllocError> {
    let mut changes = Vec::new(alloc);
    for (time, number) in [(5, Some(10)), (9, Some(20)), (7, None), (8, None)] {
        changes.push(set(alloc, time, 1, number)?)?;
    }
    let entries = entries(alloc, &[0, 1, 0, 1], changes.as_slice())?;
    let given = full(alloc, entries.as_slice())?;
    let times = times(alloc, &given)?;
    let steps = steps(alloc, &given)?;
    format!(in alloc; "{times} {steps} {}", rows(alloc, &given)?)
}

/// What a LEFT join gives of a record before the table has its row, and of one after that.
pub fn left_join(alloc: Global) -> Result<String, AllocError> {
    let mut changes = vec![in alloc; said(alloc, 5, 1, 7)?]?;
    changes.push(set(alloc, 9, 7, Some(70))?)?;
    changes.push(said(alloc, 6, 2, 7)?)?;
    let entries = entries(alloc, &[0, 1, 0], changes.as_slice())?;
    rows(alloc, &left(alloc, entries.as_slice())?)
}
