ghost use Rattle.std.specs.Prelude.{◌≡◌, length};

use crate::streams::stream_with;
use crate::topics::last_of;
use ksql_place::Decoded;
use ksql_types::{Format, Relation, Value};
use std::alloc::{AllocError, Global};
use std::str;
use topic_files::{Printer, value_text};

/// The stream of a text `FORMAT COLUMNS`, where the format is `json` or `delimited`.
fn stream(alloc: Global, text: &str) -> Result<Relation, AllocError> {
    let (format, columns) = text.split_once(' ').unwrap_or((text, ""));
    let mut stream = stream_with(alloc, columns)?;
    if format == "delimited" {
        stream.format = Format::Delimited;
    }
    Ok(stream)
}

/// What is printed of the row that a value is read as, from a text `STREAM | VALUE`.
pub fn printed(alloc: Global, table: &str, text: &str) -> Result<String, AllocError> {
    let (form, value) = text.split_once(" | ").unwrap_or(("", text));
    let stream = stream(alloc, form)?;
    let line = format!(in alloc; "{{\"t\":1,\"v\":{value}}}")?;
    let Some(fed) = last_of(alloc, &stream, line.as_str())? else {
        return String::from_str(alloc, "no record");
    };
    match &fed.value {
        Decoded::Good(row) => print(alloc, table, &stream, row.items()),
        Decoded::Tombstone => String::from_str(alloc, "tombstone"),
        Decoded::Skipped => String::from_str(alloc, "skipped"),
    }
}

/// A row as it is printed: alone, by what prints the rows of its stream, or as the end of a line.
fn print(
    alloc: Global,
    table: &str,
    stream: &Relation,
    row: &[Value],
) -> Result<String, AllocError> {
    let mut out = String::new(alloc);
    let printer = Printer::of(alloc, stream)?;
    match table {
        "values" => return value_alone(alloc, stream, row),
        "rows" => printer.push_row(&mut out, alloc, row)?,
        _ => printer.push_value(&mut out, alloc, row)?,
    }
    Ok(out)
}

fn value_alone(alloc: Global, stream: &Relation, row: &[Value]) -> Result<String, AllocError> {
    if row.len() != stream.schema.values.items().len() {
        return String::from_str(alloc, "another row");
    }
    let text = value_text(alloc, stream, row)?;
    String::from_str(alloc, str::from_utf8(text.items()).unwrap_or("no text"))
}
