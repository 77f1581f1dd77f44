use ksql_place::{Body, Change};
use ksql_types::{Row, Value};
use record_codec::{decode, decode_new, decode_row, encode, encode_row};
use std::alloc::{AllocError, Global};

/// The bytes of a text of numbers with blanks between them.
fn bytes(alloc: Global, text: &str) -> Result<Vec<u8>, AllocError> {
    let mut bytes = Vec::new(alloc);
    for word in text.split_whitespace() {
        bytes.push(word.parse::<u8>().unwrap_or(0))?;
    }
    Ok(bytes)
}

/// Appends a value: a text after a mark `'`, and a BIGINT before an L.
fn push_value(shown: &mut String, value: &Value) -> Result<(), AllocError> {
    match value {
        Value::Null => write!(shown, " NULL"),
        Value::Int(number) => write!(shown, " {number}"),
        Value::Big(number) => write!(shown, " {number}L"),
        Value::Txt(text) => write!(shown, " '{}", text.items()),
        Value::Bool(truth) => write!(shown, " {truth}"),
    }
}

/// Values in brackets.
fn values_shown(alloc: Global, values: &[Value]) -> Result<String, AllocError> {
    let mut shown = String::from_str(alloc, "[")?;
    for value in values {
        push_value(&mut shown, value)?;
    }
    shown.push_str(" ]")?;
    Ok(shown)
}

fn perhaps_shown(alloc: Global, row: &Option<Row>) -> Result<String, AllocError> {
    match row {
        Some(row) => values_shown(alloc, row.items()),
        None => String::from_str(alloc, "none"),
    }
}

fn body_shown(alloc: Global, body: &Body) -> Result<String, AllocError> {
    match body {
        Body::Said(row) => format!(in alloc; "said {}", values_shown(alloc, row.items())?),
        Body::Turned { old, new } => {
            let old = perhaps_shown(alloc, old)?;
            format!(in alloc; "old {old} new {}", perhaps_shown(alloc, new)?)
        }
    }
}

/// The places, the times, the key and the rows of a change.
fn change_shown(alloc: Global, change: &Change) -> Result<String, AllocError> {
    let key = values_shown(alloc, change.key.items())?;
    let body = body_shown(alloc, &change.body)?;
    let path = change.place.path.items();
    let (stamp, time, span) = (change.place.stamp, change.time, change.span);
    format!(in alloc; "{stamp:?} path {path:?} time {time} window {span:?} key {key} {body}")
}

/// The change that some bytes spell, if it is written as the same bytes.
pub fn change(alloc: Global, text: &str) -> Result<String, AllocError> {
    let bytes = bytes(alloc, text)?;
    let Some(change) = decode(alloc, &bytes)? else {
        return String::from_str(alloc, "none");
    };
    if encode(alloc, &change)?.items() != bytes.as_slice() {
        return String::from_str(alloc, "other bytes");
    }
    change_shown(alloc, &change)
}

/// The row that some bytes spell, if it is written as the same bytes.
pub fn row(alloc: Global, text: &str) -> Result<String, AllocError> {
    let bytes = bytes(alloc, text)?;
    let Some(row) = decode_row(alloc, &bytes)? else {
        return String::from_str(alloc, "none");
    };
    if encode_row(alloc, &row)?.items() != bytes.as_slice() {
        return String::from_str(alloc, "other bytes");
    }
    values_shown(alloc, row.items())
}

/// The time and the new row of the change that some bytes spell.
pub fn new_row(alloc: Global, text: &str) -> Result<String, AllocError> {
    let bytes = bytes(alloc, text)?;
    let Some((time, row)) = decode_new(alloc, &bytes)? else {
        return String::from_str(alloc, "none");
    };
    format!(in alloc; "{time} {}", values_shown(alloc, row.items())?)
}
