//! The lines of a report on records and changes.

ghost use Rattle.std.specs.Prelude.{◌≡◌, ◌++◌, IfOk, OnOk, codes, decimal, length, option_map, string_bytes};
ghost use Rattle.topic_files.specs.Printed.{printed_by};
ghost use Rattle.run_text.specs.Lines.{shown_of};
ghost use Rattle.run_text.specs.Printed.{cells_text, change_line, fields_text, key_text, order_line, row_line, row_text, span_text, start_text, AreStarts};

use crate::line::Line;
use itoa::Buffer;
use ksql_place::SourceRecord;
use ksql_types::{Span, Value};
use std::alloc::{AllocError, Global};
use topic_files::{Printer, push_printed};

/// The bytes reserved for each line; most lines have fewer.
const LINE_ROOM: usize = 160;

/// Reserves room for `lines` lines at once, since a text that grows is copied.
pub fn reserve_lines(out: &mut String, lines: usize) -> Result<(), AllocError>
    ensures { string_bytes out.new ≡ string_bytes out.old }
{
    out.reserve(lines.saturating_mul(LINE_ROOM))
}

/// Appends a number.
fn push_number(out: &mut String, number: u64) -> Result<(), AllocError>
    ensures { OnOk result (string_bytes out.new ≡ string_bytes out.old ++ decimal number) }
{
    out.push_str(Buffer::new().format(number))
}

/// Appends the values, separated by commas.
#[tactic(auto, unfolding(crate::specs::Printed::cells_text))]
fn push_cells(out: &mut String, alloc: Global, cells: &[Value]) -> Result<(), AllocError>
    ensures { OnOk result (string_bytes out.new ≡ string_bytes out.old ++ cells_text cells.now) }
{
    let mut separator = "";
    for cell in cells {
        out.push_str(separator)?;
        push_printed(out, alloc, cell)?;
        separator = ",";
    }
    Ok(())
}

/// Appends the key as JSON.
#[tactic(auto, using(crate::proofs::ReportLemmas::appends), unfolding(crate::specs::Printed::key_text))]
fn push_key(out: &mut String, alloc: Global, key: &[Value]) -> Result<(), AllocError>
    ensures { OnOk result (string_bytes out.new ≡ string_bytes out.old ++ key_text key.now) }
{
    match key {
        [] => out.push_str("null"),
        [cell] => push_printed(out, alloc, cell),
        _ => {
            out.push_str("[")?;
            push_cells(out, alloc, key)?;
            out.push_str("]")
        }
    }
}

/// Appends the window of a change, if it has one.
#[tactic(auto, using(crate::proofs::ReportLemmas::appends), unfolding(crate::specs::Printed::span_text))]
fn push_span(out: &mut String, span: Option<Span>) -> Result<(), AllocError>
    ensures { OnOk result (string_bytes out.new ≡ string_bytes out.old ++ span_text span) }
{
    match span {
        None => Ok(()),
        Some(Span { start, end }) => {
            out.push_str(",\"w\":[")?;
            push_number(out, start)?;
            out.push_str(",")?;
            push_number(out, end)?;
            out.push_str("]")
        }
    }
}

/// Appends the value of a line, a row or null, up to the end of the line.
#[tactic(auto, using(crate::proofs::ReportLemmas::appends), unfolding(crate::specs::Printed::row_text))]
fn push_value(
    out: &mut String,
    alloc: Global,
    printer: &Printer,
    row: Option<&[Value]>,
) -> Result<(), AllocError>
    ensures { OnOk result (string_bytes out.new ≡ string_bytes out.old
        ++ (codes ",\"v\":" ++ (row_text (printed_by printer.now) (option_map (λ r. r.now) row.entry) ++ codes "}\n"))) }
{
    match row {
        Some(row) => printer.push_value(out, alloc, row),
        None => out.push_str(",\"v\":null}\n"),
    }
}

/// Appends time, key, window and value, up to the end of the line.
#[tactic(auto, using(crate::proofs::ReportLemmas::appends), unfolding(crate::specs::Printed::fields_text))]
fn push_fields(
    out: &mut String,
    alloc: Global,
    printer: &Printer,
    line: Line,
) -> Result<(), AllocError>
    ensures { OnOk result (string_bytes out.new ≡ string_bytes out.old ++ fields_text (printed_by printer.now) (shown_of line.entry)) }
{
    let told = line.told;
    push_number(out, told.time())?;
    out.push_str(",\"k\":")?;
    push_key(out, alloc, told.key())?;
    push_span(out, told.span())?;
    push_value(out, alloc, printer, told.row())
}

/// Appends the start of the line of a change in a partition, up to its time.
#[tactic(auto, using(crate::proofs::ReportLemmas::appends), unfolding(crate::specs::Printed::start_text))]
fn push_start(out: &mut String, part: u32) -> Result<(), AllocError>
    ensures { OnOk result (string_bytes out.new ≡ string_bytes out.old ++ start_text part) }
{
    out.push_str("{\"p\":")?;
    push_number(out, part as u64)?;
    out.push_str(",\"t\":")
}

/// The start of the line of a change in a partition, up to its time.
fn start_of(alloc: Global, part: u32) -> Result<String, AllocError>
    ensures { IfOk result (λ start. string_bytes start ≡ start_text part) }
{
    let mut start = String::new(alloc);
    push_start(&mut start, part)?;
    Ok(start)
}

/// The starts of the lines of changes in each of `partitions` partitions, by partition.
pub fn starts_of(alloc: Global, partitions: u32) -> Result<Vec<String>, AllocError>
    ensures starts { IfOk result (λ starts. AreStarts starts.items) }
    ensures many { IfOk result (λ starts. length starts.items ≡ partitions) }
{
    let mut starts = Vec::new(alloc);
    for part in 0..partitions {
        starts.push(start_of(alloc, part)?)?;
    }
    Ok(starts)
}

/// Appends the line of a change of a relation with this printer. `starts` has the start of a line for each partition,
/// written once.
#[tactic(auto, using(crate::proofs::ReportLemmas::appends), unfolding(crate::specs::Printed::change_line, crate::specs::Printed::start_text))]
pub fn push_change(
    out: &mut String,
    alloc: Global,
    starts: &[String],
    printer: &Printer,
    line: Line,
) -> Result<(), AllocError>
    requires { AreStarts starts.now }
    ensures { OnOk result (string_bytes out.new ≡ string_bytes out.old ++ change_line (printed_by printer.now) (shown_of line.entry)) }
{
    match starts.get(line.part as usize) {
        Some(start) => out.push_str(start.as_str())?,
        None => push_start(out, line.part)?,
    }
    push_fields(out, alloc, printer, line)
}

/// Appends the line of a row of a relation with this printer.
#[tactic(auto, using(crate::proofs::ReportLemmas::appends), unfolding(crate::specs::Printed::row_line))]
pub fn push_row_line(
    out: &mut String,
    alloc: Global,
    printer: &Printer,
    line: Line,
) -> Result<(), AllocError>
    ensures { OnOk result (string_bytes out.new ≡ string_bytes out.old ++ row_line (printed_by printer.now) (shown_of line.entry)) }
{
    out.push_str("row {\"t\":")?;
    push_fields(out, alloc, printer, line)
}

/// Appends a blank and a number.
#[tactic(auto, using(crate::proofs::ReportLemmas::appends))]
fn push_next(out: &mut String, number: u64) -> Result<(), AllocError>
    ensures { OnOk result (string_bytes out.new ≡ string_bytes out.old ++ (codes " " ++ decimal number)) }
{
    out.push_str(" ")?;
    push_number(out, number)
}

/// Appends the offset and the time of a record, each after a blank, up to the end of the line.
#[tactic(auto, using(crate::proofs::ReportLemmas::appends))]
fn push_offset_and_time(out: &mut String, fed: &SourceRecord) -> Result<(), AllocError>
    ensures { OnOk result (string_bytes out.new ≡ string_bytes out.old
        ++ (codes " " ++ (decimal fed.now.stamp.offset ++ (codes " " ++ (decimal fed.now.time ++ codes "\n"))))) }
{
    push_next(out, fed.stamp.offset)?;
    push_next(out, fed.time)?;
    out.push_str("\n")
}

/// Appends the line of a record that was fed from this topic.
#[tactic(auto, using(crate::proofs::ReportLemmas::appends), unfolding(crate::specs::Printed::order_line))]
pub fn push_order_line(out: &mut String, topic: &str, fed: &SourceRecord) -> Result<(), AllocError>
    ensures { OnOk result (string_bytes out.new ≡ string_bytes out.old ++ order_line topic.now fed.now) }
{
    push_number(out, fed.stamp.feed)?;
    out.push_str(" ")?;
    out.push_str(topic)?;
    push_next(out, fed.stamp.part as u64)?;
    push_offset_and_time(out, fed)
}
