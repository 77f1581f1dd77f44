//! The record of a topic line, by the schema and the format of its relation.

ghost use Rattle.std.specs.Prelude.{◌≡◌, ◌∷◌, [], IfOk, option_map};
ghost use Rattle.topic_files.specs.Cells.{typed};
ghost use Rattle.topic_files.specs.LineFields.{fed_in, seen};
ghost use Rattle.topic_files.specs.Record.{decoded, delimited_row, fed_of, field_value, key_of, object_row, row_in};
ghost use Rattle.topic_files.specs.Tree.{view};

use crate::delimited::text_row;
use crate::fields::{cells, typed};
use crate::line::{LineFields, topic_line};
use crate::read::read_line;
use crate::topic::Fed;
use crate::tree::Json;
use json::Scratch;
use ksql_place::Decoded;
use ksql_types::{Column, Format, Items, Key, Relation, Row, SqlType};
use std::alloc::{AllocError, Global};

/// The record of a line, or None if it isn't a topic line.
pub(crate) fn fed_of_line(
    alloc: Global,
    relation: &Relation,
    line: &[u8],
    scratch: &mut Scratch,
) -> Result<Option<Fed>, AllocError>
    ensures { IfOk result (λ fed. fed ≡ fed_of relation.now line.now) }
{
    let mut fields = LineFields::new();
    if read_line(alloc, line, scratch, &mut fields)? {
        fed_of_fields(alloc, relation, &fields)
    } else {
        Ok(None)
    }
}

/// The record of a line's fields, or None if they make no topic line.
fn fed_of_fields(
    alloc: Global,
    relation: &Relation,
    fields: &LineFields,
) -> Result<Option<Fed>, AllocError>
    ensures { IfOk result (λ fed. fed ≡ fed_in relation.now (seen fields.now)) }
{
    let Some(line) = topic_line(fields) else {
        return Ok(None);
    };
    match key_of(alloc, relation.schema.keys.items(), line.key)? {
        Some(key) => Ok(Some(Fed {
            time: line.time,
            key,
            value: field_value(alloc, relation, line.value)?,
        })),
        None => Ok(Some(Fed {
            time: line.time,
            key: Key::of(Vec::new(alloc)),
            value: Decoded::Skipped,
        })),
    }
}

/// The key that a field stands for: empty if there is no field or no key column; None if the field isn't of the key's
/// type.
fn key_of(
    alloc: Global,
    columns: &[Column],
    field: Option<&Json>,
) -> Result<Option<Key>, AllocError>
    ensures { IfOk result (λ key. key ≡ key_of columns.now (option_map (λ f. view f.now) field.entry)) }
{
    let Some(json) = field else {
        return Ok(Some(Key::of(Vec::new(alloc))));
    };
    match columns {
        [] => Ok(Some(Key::of(Vec::new(alloc)))),
        [column] => single_key(alloc, column.ty, json),
        _ => Ok(None),
    }
}

/// The key of one value of this type, or None if the field isn't of the type.
fn single_key(alloc: Global, ty: SqlType, json: &Json) -> Result<Option<Key>, AllocError>
    ensures { IfOk result (λ key. key ≡ option_map (λ value. value ∷ []) (typed ty (view json.now))) }
{
    match typed(alloc, ty, json)? {
        Some(value) => Ok(Some(Key::one(value))),
        None => Ok(None),
    }
}

/// The value that the field `v` stands for: a tombstone if it is missing or null.
fn field_value(
    alloc: Global,
    relation: &Relation,
    field: Option<&Json>,
) -> Result<Decoded, AllocError>
    ensures { IfOk result
        (λ value. value ≡ field_value relation.now (option_map (λ f. view f.now) field.entry)) }
{
    match field {
        Some(json) => decoded(alloc, relation, json),
        None => Ok(Decoded::Tombstone),
    }
}

/// The value that a field stands for: a row, or a skipped value if it stands for none.
fn decoded(alloc: Global, relation: &Relation, json: &Json) -> Result<Decoded, AllocError>
    ensures { IfOk result (λ value. value ≡ decoded relation.now (view json.now)) }
{
    match row_in(alloc, relation.format, relation.schema.values.items(), json)? {
        Some(row) => Ok(Decoded::Good(row)),
        None => Ok(Decoded::Skipped),
    }
}

/// The row that a field stands for in a format, or None if it stands for none.
fn row_in(
    alloc: Global,
    format: Format,
    columns: &[Column],
    json: &Json,
) -> Result<Option<Row>, AllocError>
    ensures { IfOk result (λ row. row ≡ row_in format columns.now (view json.now)) }
{
    match format {
        Format::Json => object_row(alloc, columns, json),
        Format::Delimited => delimited_row(alloc, columns, json),
    }
}

/// The row in a text of comma-separated fields, or None if the field is no text or not exactly one row of these
/// columns.
fn delimited_row(alloc: Global, columns: &[Column], json: &Json) -> Result<Option<Row>, AllocError>
    ensures { IfOk result (λ row. row ≡ delimited_row columns.now (view json.now)) }
{
    match json.as_str() {
        Some(text) => text_row(alloc, columns, text),
        None => Ok(None),
    }
}

/// The row in an object, or None if the field is no object or one of its members isn't of its column's type.
fn object_row(alloc: Global, columns: &[Column], json: &Json) -> Result<Option<Row>, AllocError>
    ensures { IfOk result (λ row. row ≡ object_row columns.now (view json.now)) }
{
    let Some(members) = json.as_object() else {
        return Ok(None);
    };
    match cells(alloc, columns, members)? {
        Some(values) => Ok(Some(Items::of(values))),
        None => Ok(None),
    }
}
