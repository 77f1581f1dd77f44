ghost use Rattle.std.specs.Prelude.{◌≤◌};

use crate::streams::stream_with;
use ksql_place::Decoded;
use ksql_types::{CopyOf, Relation, Value};
use std::alloc::{AllocError, Global};
use std::fmt::Debug;
use topic_files::{Fed, FileFault, Room, read_topic};

/// All the room that a command has.
const ALL: Room = Room {
    records: 200_000,
    bytes: 67_108_864,
};

/// A value's copy, if it is written as the value is.
fn copied<T: CopyOf + Debug>(alloc: Global, value: &T) -> Result<Option<T>, AllocError> {
    let copied = value.copy(alloc)?;
    let written = format!(in alloc; "{value:?}")?;
    if format!(in alloc; "{copied:?}")?.as_str() != written.as_str() {
        return Ok(None);
    }
    Ok(Some(copied))
}

/// The room of a text `RECORDS BYTES`.
fn room(text: &str) -> Room
    ensures few { result.records ≤ 200000 }
    ensures short { result.bytes ≤ 67108864 }
{
    let (records, bytes) = text.split_once(' ').unwrap_or((text, ""));
    Room {
        records: records.parse::<u64>().unwrap_or(0).min(200_000),
        bytes: bytes.parse::<u64>().unwrap_or(0).min(67_108_864),
    }
}

/// How many records the file of a stream with the column AB has, or its refusal, from a text `ROOM | FILE`.
pub fn refusal(alloc: Global, text: &str) -> Result<String, AllocError> {
    let (limits, file) = text.split_once(" | ").unwrap_or(("", text));
    let stream = stream_with(alloc, "AB:int")?;
    let lines = match read_topic(alloc, &stream, file.as_bytes(), room(limits)) {
        Ok(lines) => lines,
        Err(FileFault::Refused { line, why }) => return format!(in alloc; "{why:?} {line}"),
        Err(FileFault::OutOfMemory) => return Err(AllocError),
    };
    match copied(alloc, &lines)? {
        Some(lines) => format!(in alloc; "read {}", lines.feds.items().len()),
        None => String::from_str(alloc, "another copy"),
    }
}

/// The copy of the last record of a file.
pub fn last_of(alloc: Global, stream: &Relation, file: &str) -> Result<Option<Fed>, AllocError> {
    let Ok(lines) = read_topic(alloc, stream, file.as_bytes(), ALL) else {
        return Ok(None);
    };
    match lines.feds.items().last() {
        Some(fed) => copied(alloc, fed),
        None => Ok(None),
    }
}

/// A value as it is shown in a row: a text after a mark `'`, and a BIGINT before an L.
fn shown(alloc: Global, value: &Value) -> Result<String, AllocError> {
    match value {
        Value::Null => String::from_str(alloc, "NULL"),
        Value::Int(number) => format!(in alloc; "{number}"),
        Value::Big(number) => format!(in alloc; "{number}L"),
        Value::Txt(text) => format!(in alloc; "'{}", text.items()),
        Value::Bool(truth) => format!(in alloc; "{truth}"),
    }
}

fn all_shown(alloc: Global, values: &[Value]) -> Result<String, AllocError> {
    let mut all = String::from_str(alloc, "[")?;
    for value in values {
        all.push_str(shown(alloc, value)?.as_str())?;
    }
    all.push(']')?;
    Ok(all)
}

/// The time, the key and the value of the record of a line, from a text `COLUMNS | LINE`.
pub fn record(alloc: Global, text: &str) -> Result<String, AllocError> {
    let (columns, line) = text.split_once(" | ").unwrap_or(("", text));
    let stream = stream_with(alloc, columns)?;
    let Some(fed) = last_of(alloc, &stream, line)? else {
        return String::from_str(alloc, "no record");
    };
    let value = match &fed.value {
        Decoded::Good(row) => all_shown(alloc, row.items())?,
        Decoded::Tombstone => String::from_str(alloc, "tombstone")?,
        Decoded::Skipped => String::from_str(alloc, "skipped")?,
    };
    let key = all_shown(alloc, fed.key.items())?;
    format!(in alloc; "{} {key} {value}", fed.time)
}
