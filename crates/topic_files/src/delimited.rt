//! Rows of comma-separated fields, by `csv`.

ghost use Rattle.std.specs.Prelude.{◌≡◌, ◌∷◌, ◌++◌, [], IfOk, OnOk, map, option_and_then, option_map, string_bytes};
ghost use Rattle.std.specs.Str.{IsUtf8};
ghost use Rattle.csv.specs.Records.{AllText, fields_of as record_fields};
ghost use Rattle.csv.specs.Writing.{default_writer, row_text};
ghost use Rattle.topic_files.specs.Cells.{as_int};
ghost use Rattle.topic_files.specs.Delimited.{as_big, field_text, field_value, fields_of, line_of, row_of, text_row, truth_in, whole, written};

use crate::fields::text_value;
use csv::{ByteRecord, ReaderBuilder, StringRecord, WriterBuilder};
use ksql_types::{Column, Items, Row, SqlType, Value};
use std::alloc::{AllocError, Global};

/// The row in a text, or None unless the text is exactly one row whose fields have the types of the columns.
pub(crate) fn text_row(
    alloc: Global,
    columns: &[Column],
    text: &str,
) -> Result<Option<Row>, AllocError>
    ensures { IfOk result (λ row. row ≡ text_row columns.now text.now) }
{
    match fields_of(alloc, text)? {
        Some(fields) => row_of(alloc, columns, &fields),
        None => Ok(None),
    }
}

/// The fields of a text that is exactly one row, or None for any other text.
fn fields_of(alloc: Global, text: &str) -> Result<Option<ByteRecord>, AllocError>
    ensures { IfOk result (λ fields. option_map record_fields fields ≡ fields_of text.now) }
{
    let mut reader = ReaderBuilder::new()
        .has_headers(false)
        .flexible(true)
        .from_reader(alloc, text.as_bytes());
    let mut row = ByteRecord::new(alloc);
    let mut next = ByteRecord::new(alloc);
    let has_row = reader.read_byte_record(&mut row).map_err(|_| AllocError)?;
    let has_next = reader.read_byte_record(&mut next).map_err(|_| AllocError)?;
    if has_row && !has_next {
        Ok(Some(row))
    } else {
        Ok(None)
    }
}

/// The row of these fields, or None unless there is one field per column, of its type.
fn row_of(alloc: Global, columns: &[Column], fields: &ByteRecord) -> Result<Option<Row>, AllocError>
    ensures { IfOk result (λ row. row ≡ row_of columns.now (record_fields fields.now)) }
{
    if fields.len() != columns.len() {
        return Ok(None);
    }
    let mut values = Vec::with_capacity(alloc, columns.len())?;
    for (i, column) in columns.iter().enumerate() {
        let Some(field) = fields.get(i) else {
            return Ok(None);
        };
        match field_value(alloc, column.ty, field)? {
            Some(value) => values.push(value)?,
            None => return Ok(None),
        }
    }
    Ok(Some(Items::of(values)))
}

/// The value of a field: NULL if it is empty, or None if it isn't of the type.
fn field_value(alloc: Global, ty: SqlType, field: &[u8]) -> Result<Option<Value>, AllocError>
    ensures { IfOk result (λ value. value ≡ field_value ty field.now) }
{
    if field.is_empty() {
        return Ok(Some(Value::Null));
    }
    match str::from_utf8(field) {
        Ok(text) => written(alloc, ty, text),
        Err(_) => Ok(None),
    }
}

/// The value of a field that isn't empty, or None if it isn't of the type.
fn written(alloc: Global, ty: SqlType, field: &str) -> Result<Option<Value>, AllocError>
    ensures { IfOk result (λ value. value ≡ written ty field.now) }
{
    match ty {
        SqlType::Int => Ok(int_in(field).map(Value::Int)),
        SqlType::Big => Ok(big_in(field).map(Value::Big)),
        SqlType::Bool => Ok(truth_in(field).map(Value::Bool)),
        SqlType::Text => text_value(alloc, field),
    }
}

/// The 32-bit whole number in a field.
fn int_in(field: &str) -> Option<i32>
    ensures { result ≡ option_and_then as_int (whole field.now) }
{
    i32::try_from(big_in(field)?).ok()
}

/// The 64-bit whole number in a field: an optional minus sign and digits.
fn big_in(field: &str) -> Option<i64>
    ensures { result ≡ option_and_then as_big (whole field.now) }
{
    if field.starts_with('+') {
        return None;
    }
    field.parse::<i64>().ok()
}

/// The truth value in a field, in lower or upper case.
fn truth_in(field: &str) -> Option<bool>
    ensures { result ≡ truth_in field.now }
{
    if field.eq_ignore_ascii_case("true") {
        Some(true)
    } else if field.eq_ignore_ascii_case("false") {
        Some(false)
    } else {
        None
    }
}

/// A row as text, as `csv` writes it by default, without the line end.
pub(crate) fn line_of(alloc: Global, row: &[Value]) -> Result<String, AllocError>
    ensures { IfOk result (λ text. string_bytes text ≡ line_of row.now) }
{
    let fields = record_of(alloc, row)?;
    let mut line = write_fields(alloc, &fields)?;
    line.pop();
    Ok(String::from_utf8(line).unwrap())
}

/// A record as a line, as `csv` writes it by default.
fn write_fields(alloc: Global, fields: &StringRecord) -> Result<Vec<u8>, AllocError>
    ensures { IfOk result (λ line. line.items ≡ row_text default_writer (record_fields fields.now)) }
{
    let mut writer = WriterBuilder::new().from_writer(Vec::new(alloc));
    writer
        .write_byte_record(fields.as_byte_record())
        .map_err(|_| AllocError)?;
    writer.into_inner().map_err(|_| AllocError)
}

/// The values of a row as the fields of a record.
fn record_of(alloc: Global, row: &[Value]) -> Result<StringRecord, AllocError>
    ensures fields { IfOk result (λ made. record_fields made ≡ map field_text row.now) }
    ensures utf8 { IfOk result (λ made. AllText (record_fields made)) }
{
    let mut fields = StringRecord::new(alloc);
    for value in row {
        push_field(&mut fields, alloc, value)?;
    }
    Ok(fields)
}

/// Appends a value as a field.
#[tactic(auto, unfolding(crate::specs::Delimited::field_text))]
fn push_field(fields: &mut StringRecord, alloc: Global, value: &Value) -> Result<(), AllocError>
    ensures field { OnOk result (record_fields fields.new ≡ record_fields fields.old ++ field_text value.now ∷ []) }
    ensures utf8 { OnOk result (IsUtf8 (field_text value.now)) }
{
    match value {
        Value::Null => fields.push_field(""),
        Value::Int(number) => fields.push_field(format!(in alloc; "{number}")?.as_str()),
        Value::Big(number) => fields.push_field(format!(in alloc; "{number}")?.as_str()),
        Value::Txt(text) => fields.push_field(text.items()),
        Value::Bool(truth) => fields.push_field(if *truth { "true" } else { "false" }),
    }
}
