//! What several of the rows build on: changes, columns, and how changes are shown.

use ksql_expr::{Typed, TypedNode};
use ksql_place::{Body, Change, Path, Place, Stamp};
use ksql_types::{Key, SqlType, Value};
use std::alloc::{AllocError, Global};

/// A change of the first feed at a time under a key.
pub fn change(alloc: Global, time: u64, key: i32, body: Body) -> Result<Change, AllocError> {
    let stamp = Stamp {
        feed: 1,
        high: time,
        topic: 0,
        part: 0,
        offset: 0,
    };
    let path = Path::root();
    let key = Key::of(vec![in alloc; Value::Int(key)]?);
    Ok(Change {
        place: Place { stamp, path },
        time,
        key,
        span: None,
        body,
    })
}

/// A column of a row.
pub fn column(index: u32, ty: SqlType) -> Typed {
    Typed {
        ty: Some(ty),
        node: TypedNode::Column(index),
    }
}

/// A column of INTEGERs.
pub fn int_column(index: u32) -> Typed {
    column(index, SqlType::Int)
}

/// The time of each change.
pub fn times(alloc: Global, changes: &[Change]) -> Result<String, AllocError> {
    let mut times = String::from_str(alloc, "times")?;
    for change in changes {
        write!(times, " {}", change.time)?;
    }
    Ok(times)
}

/// The row that each change brings.
pub fn rows(alloc: Global, changes: &[Change]) -> Result<String, AllocError> {
    let mut rows = String::from_str(alloc, "rows")?;
    for change in changes {
        match &change.body {
            Body::Said(row) => push_row(&mut rows, row.items())?,
            Body::Turned { new: Some(row), .. } => push_row(&mut rows, row.items())?,
            Body::Turned { new: None, .. } => rows.push_str(" none")?,
        }
    }
    Ok(rows)
}

fn push_row(rows: &mut String, row: &[Value]) -> Result<(), AllocError> {
    rows.push_str(" (")?;
    for value in row {
        push_value(rows, value)?;
    }
    rows.push_str(" )")
}

fn push_value(rows: &mut String, value: &Value) -> Result<(), AllocError> {
    match value {
        Value::Null => write!(rows, " NULL"),
        Value::Int(number) => write!(rows, " {number}"),
        Value::Big(number) => write!(rows, " {number}"),
        Value::Txt(text) => write!(rows, " {}", text.items()),
        Value::Bool(truth) => write!(rows, " {truth}"),
    }
}
