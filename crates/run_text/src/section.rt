//! The text of a relation's section.

ghost use Rattle.std.specs.Prelude.{◌≡◌, ◌++◌, List, OnOk, flat_map, length, map, string_bytes};
ghost use Rattle.run_text.specs.Lines.{extent_text, shown_of};
ghost use Rattle.run_text.specs.Printed.{change_line, row_line, Shown};
ghost use Rattle.run_text.specs.Report.{count_text, head_line, kind_text, origin_text, summary_text, table_rows};
ghost use Rattle.topic_files.specs.Printed.{printed_by};

use crate::line::Line;
use crate::printed::{push_change, push_row_line, reserve_lines, starts_of};
use crate::rows::{count_rows, table_rows};
use ksql_types::{Kind, Relation};
use std::alloc::{AllocError, Global};
use topic_files::Printer;

/// How much of a section is written: all of it, or the summary.
#[derive(Clone, Copy, Drop)]
pub enum Extent {
    Whole,
    Summary,
}

/// Appends what is shown of a relation, to this extent: its head line, these lines of its changes and, for a table,
/// those of its rows. A summary has no changes, and only the rows of tables without windows. The relation is shown up
/// to feed `closed`, and `skipped` of its records were skipped.
pub fn push_section(
    out: &mut String,
    alloc: Global,
    extent: Extent,
    relation: &Relation,
    closed: u64,
    skipped: usize,
    lines: &[Line],
) -> Result<(), AllocError>
    ensures { OnOk result (string_bytes out.new ≡ string_bytes out.old
        ++ extent_text extent (record { relation = relation.now; closed = closed; skipped = skipped; shown = map shown_of lines.now })) }
{
    if let Extent::Summary = extent {
        return push_summary(out, alloc, relation, closed, skipped, lines);
    }
    let rows = table_rows(alloc, relation.kind, lines)?;
    push_head(out, relation, closed, skipped, lines.len(), rows.len())?;
    let printer = Printer::of(alloc, relation)?;
    push_changes(out, alloc, relation.partitions, &printer, lines)?;
    push_rows(out, alloc, &printer, rows.as_slice())
}

/// Appends the summary of a relation: its head line and, for a table without windows, the lines of its rows.
fn push_summary(
    out: &mut String,
    alloc: Global,
    relation: &Relation,
    closed: u64,
    skipped: usize,
    lines: &[Line],
) -> Result<(), AllocError>
    ensures { OnOk result (string_bytes out.new ≡ string_bytes out.old
        ++ summary_text (record { relation = relation.now; closed = closed; skipped = skipped; shown = map shown_of lines.now })) }
{
    match relation.kind {
        Kind::Stream => push_head(out, relation, closed, skipped, lines.len(), 0),
        Kind::Windowed => {
            let rows = count_rows(alloc, lines)?;
            push_head(out, relation, closed, skipped, lines.len(), rows)
        }
        Kind::Table => {
            let rows = table_rows(alloc, relation.kind, lines)?;
            push_head(out, relation, closed, skipped, lines.len(), rows.len())?;
            let printer = Printer::of(alloc, relation)?;
            push_rows(out, alloc, &printer, rows.as_slice())
        }
    }
}

/// Appends the lines of the changes of a relation with `partitions` partitions and this printer.
fn push_changes(
    out: &mut String,
    alloc: Global,
    partitions: u32,
    printer: &Printer,
    lines: &[Line],
) -> Result<(), AllocError>
    ensures { OnOk result (string_bytes out.new
        ≡ string_bytes out.old ++ flat_map (change_line (printed_by printer.now)) (map shown_of lines.now)) }
{
    let starts = starts_of(alloc, partitions)?;
    reserve_lines(out, lines.len())?;
    for line in lines {
        push_change(out, alloc, starts.as_slice(), printer, *line)?;
    }
    Ok(())
}

/// Appends the lines of the rows of a relation with this printer.
fn push_rows(
    out: &mut String,
    alloc: Global,
    printer: &Printer,
    rows: &[Line],
) -> Result<(), AllocError>
    ensures { OnOk result (string_bytes out.new
        ≡ string_bytes out.old ++ flat_map (row_line (printed_by printer.now)) (map shown_of rows.now)) }
{
    reserve_lines(out, rows.len())?;
    for row in rows {
        push_row_line(out, alloc, printer, *row)?;
    }
    Ok(())
}

/// Appends the head line of a relation with this many changes and, if it is a table, rows.
#[tactic(auto, using(crate::proofs::ReportLemmas::appends), unfolding(crate::specs::Report::head_line))]
pub fn push_head(
    out: &mut String,
    relation: &Relation,
    closed: u64,
    skipped: usize,
    changes: usize,
    rows: usize,
) -> Result<(), AllocError>
    ensures { (shown : List Shown) → length shown ≡ changes → length (table_rows relation.now.kind shown) ≡ rows
        → OnOk result (string_bytes out.new ≡ string_bytes out.old
        ++ head_line (record { relation = relation.now; closed = closed; skipped = skipped; shown = shown })) }
{
    let kind = kind_text(relation.kind);
    let name = relation.name.items();
    write!(out, "{kind} {name}")?;
    push_origin(out, relation.declared, closed, skipped)?;
    write!(out, " changes={changes}")?;
    push_count(out, relation.kind, rows)?;
    out.push_str("\n")
}

/// Appends the number of rows, for a table alone.
#[tactic(auto, unfolding(crate::specs::Report::count_text))]
fn push_count(out: &mut String, kind: Kind, rows: usize) -> Result<(), AllocError>
    ensures { (shown : List Shown) → length shown ≡ rows
        → OnOk result (string_bytes out.new ≡ string_bytes out.old ++ count_text kind shown) }
{
    match kind {
        Kind::Stream => Ok(()),
        Kind::Table | Kind::Windowed => write!(out, " rows={rows}"),
    }
}

/// The kind of a relation, in a word.
fn kind_text(kind: Kind) -> &'static str
    ensures { result.now ≡ kind_text kind }
{
    match kind {
        Kind::Stream => "stream",
        Kind::Table => "table",
        Kind::Windowed => "windowed",
    }
}

/// Appends where a relation comes from, its last feed shown and, if it is declared, how many of its records were
/// skipped.
#[tactic(auto, unfolding(crate::specs::Report::origin_text))]
fn push_origin(
    out: &mut String,
    declared: bool,
    closed: u64,
    skipped: usize,
) -> Result<(), AllocError>
    ensures { OnOk result (string_bytes out.new ≡ string_bytes out.old ++ origin_text declared closed skipped) }
{
    if declared {
        write!(out, " declared c={closed} skipped={skipped}")
    } else {
        write!(out, " query c={closed}")
    }
}
