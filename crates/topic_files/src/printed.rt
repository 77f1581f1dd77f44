//! The printed text of a value and of a row.

ghost use Rattle.std.specs.Prelude.{◌≡◌, ◌++◌, codes, IfOk, List, OnOk, length, map, string_bytes};
ghost use Rattle.std.specs.List.{concat, list_all};
ghost use Rattle.json.specs.Print.{quoted};
ghost use Rattle.json.specs.Run.{is_plain};
ghost use Rattle.ksql_types.specs.declared.value.Value.{Value as OneValue};
ghost use Rattle.topic_files.specs.Printed.{after_commas, fields_of, label_of, labels_of, led_text, printed, printed_by, value_text};

use crate::delimited::line_of;
use itoa::Buffer;
use ksql_types::{Bytes, Column, Format, Items, Relation, Value};
use serde_json::Value as Json;
use std::alloc::{AllocError, Global};

/// How the rows of a relation are printed: as JSON objects, with one of these labels before each value (a label has its
/// comma, except the first); or as JSON texts of comma-separated fields.
#[derive(Drop)]
pub enum Printer {
    Objects(Vec<String>),
    Texts,
}

impl Printer {
    /// How the rows of this relation are printed.
    pub fn of(alloc: Global, relation: &Relation) -> Result<Printer, AllocError>
        ensures { IfOk result (λ printer. (row : List OneValue) → printed_by printer row ≡ value_text relation.now row) }
    {
        match relation.format {
            Format::Json => Ok(Printer::Objects(labels(alloc, relation.schema.values.items())?)),
            Format::Delimited => Ok(Printer::Texts),
        }
    }

    /// Appends a row: a JSON object of the value columns in order, without blanks, or a JSON text of the line that
    /// `csv` writes by default, without the line end, where NULL is an empty field.
    pub fn push_row(&self, out: &mut String, alloc: Global, row: &[Value]) -> Result<(), AllocError>
        ensures { OnOk result (string_bytes out.new ≡ string_bytes out.old ++ printed_by self.now row.now) }
    {
        match self {
            Printer::Objects(labels) => push_object(out, alloc, labels, row),
            Printer::Texts => {
                let text = line_of(alloc, row)?;
                push_quoted(out, alloc, text.as_str())
            }
        }
    }

    /// Appends a row as the last field of a line, up to the end of the line.
    #[tactic(auto, using(crate::proofs::Texts::appends))]
    pub fn push_value(
        &self,
        out: &mut String,
        alloc: Global,
        row: &[Value],
    ) -> Result<(), AllocError>
        ensures { OnOk result (string_bytes out.new ≡ string_bytes out.old
            ++ (codes ",\"v\":" ++ (printed_by self.now row.now ++ codes "}\n"))) }
    {
        match self {
            Printer::Objects(labels) => {
                out.push_str(",\"v\":{")?;
                push_fields(out, alloc, labels, row)?;
                out.push_str("}}\n")
            }
            Printer::Texts => {
                out.push_str(",\"v\":")?;
                self.push_row(out, alloc, row)?;
                out.push_str("}\n")
            }
        }
    }
}

/// The printed value of a row of a relation: a JSON object, or a JSON text if the format is DELIMITED, as `Printer`
/// appends them.
pub fn value_text(alloc: Global, relation: &Relation, row: &[Value]) -> Result<Bytes, AllocError>
    requires whole { length row.now ≡ length relation.now.schema.values }
    ensures { IfOk result (λ text. text ≡ value_text relation.now row.now) }
{
    let mut out = String::new(alloc);
    Printer::of(alloc, relation)?.push_row(&mut out, alloc, row)?;
    Ok(Items::of(out.into_bytes()))
}

/// The labels of columns, each after a comma except the first.
fn labels(alloc: Global, columns: &[Column]) -> Result<Vec<String>, AllocError>
    ensures { IfOk result (λ labels. map string_bytes labels.items ≡ after_commas (labels_of columns.now)) }
{
    let mut labels = Vec::new(alloc);
    let mut separator = "";
    for column in columns {
        labels.push(label(alloc, separator, column)?)?;
        separator = ",";
    }
    Ok(labels)
}

/// The label of a column after a separator: its name as a JSON text, and a colon.
#[tactic(auto, using(crate::proofs::Texts::appends), unfolding(crate::specs::Printed::label_of))]
fn label(alloc: Global, separator: &str, column: &Column) -> Result<String, AllocError>
    ensures { IfOk result (λ label. string_bytes label ≡ separator.now ++ label_of column.now) }
{
    let mut label = String::new(alloc);
    label.push_str(separator)?;
    push_quoted(&mut label, alloc, column.name.items())?;
    label.push_str(":")?;
    Ok(label)
}

/// Appends a row as a JSON object without blanks, with these texts before its values.
#[tactic(auto, using(crate::proofs::Texts::appends))]
fn push_object(
    out: &mut String,
    alloc: Global,
    labels: &[String],
    row: &[Value],
) -> Result<(), AllocError>
    ensures { OnOk result (string_bytes out.new ≡ string_bytes out.old ++ led_text (map string_bytes labels.now) row.now) }
{
    out.push_str("{")?;
    push_fields(out, alloc, labels, row)?;
    out.push_str("}")
}

/// Appends the values, each with the text before it.
fn push_fields(
    out: &mut String,
    alloc: Global,
    labels: &[String],
    row: &[Value],
) -> Result<(), AllocError>
    ensures { OnOk result (string_bytes out.new
        ≡ string_bytes out.old ++ concat (fields_of (map string_bytes labels.now) row.now)) }
{
    for (label, value) in labels.iter().zip(row) {
        out.push_str(label.as_str())?;
        push_printed(out, alloc, value)?;
    }
    Ok(())
}

/// Appends a value as JSON.
#[tactic(auto, unfolding(crate::specs::Printed::printed))]
pub fn push_printed(out: &mut String, alloc: Global, value: &Value) -> Result<(), AllocError>
    ensures { OnOk result (string_bytes out.new ≡ string_bytes out.old ++ printed value.now) }
{
    match value {
        Value::Null => out.push_str("null"),
        Value::Int(number) => out.push_str(Buffer::new().format(*number)),
        Value::Big(number) => out.push_str(Buffer::new().format(*number)),
        Value::Txt(text) => push_quoted(out, alloc, text.items()),
        Value::Bool(true) => out.push_str("true"),
        Value::Bool(false) => out.push_str("false"),
    }
}

/// Appends a text as a JSON text.
#[tactic(auto, using(crate::proofs::Texts::plain_texts))]
fn push_quoted(out: &mut String, alloc: Global, text: &str) -> Result<(), AllocError>
    ensures { OnOk result (string_bytes out.new ≡ string_bytes out.old ++ quoted text.now) }
{
    if is_plain(text) {
        out.push_str("\"")?;
        out.push_str(text)?;
        return out.push_str("\"");
    }
    let printed = Json::try_from_str(alloc, text)?.to_string(alloc)?;
    out.push_str(printed.as_str())
}

/// Whether a text has no quote, backslash or control character, so that JSON needs no escapes for it.
fn is_plain(text: &str) -> bool
    ensures { result ≡ list_all is_plain text.now }
{
    text.as_bytes()
        .iter()
        .all(|byte| !(*byte == b'"' || *byte == b'\\' || *byte < b' '))
}
