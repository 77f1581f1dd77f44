//! The lines of the changes of declared relations, each in its record's partition.

ghost use Rattle.std.specs.Prelude.{◌≡◌, ◌∷◌, ◌++◌, [], IfOk, List, OnOk, map};
ghost use Rattle.ksql_types.specs.declared.relation.Kind.TheVariants as kind;
ghost use Rattle.ksql_place.specs.declared.change.SourceRecord.{SourceRecord as OneRecord};
ghost use Rattle.query_meaning.specs.Meaning.{declared_changes};
ghost use Rattle.query_meaning.specs.Parts.{changes_by, rows_said};
ghost use Rattle.run_text.specs.Lines.{shown_of};
ghost use Rattle.run_text.specs.RowKeys.{as_fed, AreTableLines};

use crate::line::Line;
use crate::row_keys::{LentKey, RowKeys, turn};
use indexmap::IndexSet;
use ksql_place::{SourceRecord, said_by};
use ksql_types::{Kind, Relation};
use std::alloc::{AllocError, Global};

/// The lines of a table's changes so far, and the keys that have a row after them.
#[derive(Drop)]
struct TableLines<'a> {
    lines: Vec<Line<'a>>,
    rows: RowKeys<'a>,
}

/// The lines of a declared relation's changes on these records. Takes O(n log n) steps.
pub fn declared_lines<'a>(
    alloc: Global,
    relation: &Relation,
    records: &[&'a SourceRecord],
) -> Result<Vec<Line<'a>>, AllocError>
    ensures { IfOk result (λ lines. map shown_of lines.items
        ≡ as_fed (declared_changes relation.now (map (λ r. r.now) records.now))) }
{
    match relation.kind {
        Kind::Stream => stream_lines(alloc, relation.number, records),
        Kind::Table => table_lines(alloc, relation.number, records),
        Kind::Windowed => Ok(Vec::new(alloc)),
    }
}

/// The lines of the rows that these records bring to a stream.
fn stream_lines<'a>(
    alloc: Global,
    number: u32,
    records: &[&'a SourceRecord],
) -> Result<Vec<Line<'a>>, AllocError>
    ensures { IfOk result (λ lines. map shown_of lines.items ≡ as_fed (rows_said number (map (λ r. r.now) records.now))) }
{
    let mut lines = Vec::with_capacity(alloc, records.len())?;
    for fed in records {
        push_row(&mut lines, number, fed)?;
    }
    Ok(lines)
}

/// Appends the line of the row that a record brings to the stream of this topic.
fn push_row<'a>(
    lines: &mut Vec<Line<'a>>,
    number: u32,
    fed: &'a SourceRecord,
) -> Result<(), AllocError>
    ensures { OnOk result (map shown_of lines.new.items
        ≡ map shown_of lines.old.items ++ as_fed (rows_said number (fed.now ∷ []))) }
{
    if fed.stamp.topic != number {
        return Ok(());
    }
    match said_by(Kind::Stream, &fed.key, &fed.value) {
        Some(_) => {
            lines.push(Line::of_record(fed.stamp.part, fed))?;
            Ok(())
        }
        None => Ok(()),
    }
}

/// The lines of the changes that these records make to a table.
fn table_lines<'a>(
    alloc: Global,
    number: u32,
    records: &[&'a SourceRecord],
) -> Result<Vec<Line<'a>>, AllocError>
    ensures { IfOk result (λ lines. map shown_of lines.items
        ≡ as_fed (changes_by kind.Table number (map (λ r. r.now) records.now))) }
{
    let mut table = TableLines {
        lines: Vec::with_capacity(alloc, records.len())?,
        rows: IndexSet::new(alloc),
    };
    for fed in records {
        table.push(number, fed)?;
    }
    Ok(table.lines)
}

impl<'a> TableLines<'a> {
    /// Appends the line of what a record says to the table of this topic, if it is a change: a tombstone is one only if
    /// its key had a row.
    fn push(&mut self, number: u32, fed: &'a SourceRecord) -> Result<(), AllocError>
        ensures { (before : List OneRecord) → AreTableLines number before self.old
            → OnOk result (AreTableLines number (before ++ fed.now ∷ []) self.new) }
    {
        if fed.stamp.topic != number {
            return Ok(());
        }
        let Some(row) = said_by(Kind::Table, &fed.key, &fed.value) else {
            return Ok(());
        };
        let key = LentKey {
            cells: fed.key.items(),
        };
        let had = turn(&mut self.rows, key, row.is_some())?;
        if had || row.is_some() {
            self.lines.push(Line::of_record(fed.stamp.part, fed))?;
        }
        Ok(())
    }
}
