//! The lines of the changes that a relation means.
ghost use Rattle.std.specs.Prelude.{◌≡◌, ◌∷◌, ◌++◌, [], IfOk, OnOk, map};
ghost use Rattle.run_text.specs.Lines.{shown_of};
ghost use Rattle.run_text.specs.Report.{meant, IsPrintable};
ghost use Rattle.query_meaning.specs.Parts.{rows_said};
ghost use Rattle.reference.specs.Plain.{changes_of};

use crate::meaning::{Listed, partition_of};
use ksql_place::{Change, SourceRecord, said_by};
use ksql_types::{Kind, Relation, lane};
use run_text::Line;
use std::alloc::{AllocError, Global};

/// The lines of the changes that a relation means.
pub fn lines_of<'a>(
    alloc: Global,
    relation: &Relation,
    listed: &'a Listed<'a>,
) -> Result<Vec<Line<'a>>, AllocError>
    requires { IsPrintable relation.now }
    ensures { IfOk result (λ lines. map shown_of lines.items
        ≡ meant relation.now (changes_of listed.now)) }
{
    match listed {
        Listed::Lent { number, order } => lines_of_records(alloc, relation, *number, order),
        Listed::Made(changes) => lines_of_changes(alloc, relation, changes.items()),
    }
}

/// The lines of what the records of a stream's topic say.
fn lines_of_records<'a>(
    alloc: Global,
    relation: &Relation,
    number: u32,
    order: &'a [SourceRecord],
) -> Result<Vec<Line<'a>>, AllocError>
    requires { IsPrintable relation.now }
    ensures { IfOk result (λ lines. map shown_of lines.items
        ≡ meant relation.now (rows_said number order.now)) }
{
    let mut lines = Vec::with_capacity(alloc, order.len())?;
    for fed in order {
        push_record(&mut lines, relation, number, fed)?;
    }
    Ok(lines)
}

/// Adds the line of what a record says to the stream of this topic.
fn push_record<'a>(
    lines: &mut Vec<Line<'a>>,
    relation: &Relation,
    number: u32,
    fed: &'a SourceRecord,
) -> Result<(), AllocError>
    requires { IsPrintable relation.now }
    ensures { OnOk result (map shown_of lines.new.items ≡ map shown_of lines.old.items ++ meant relation.now (rows_said number (fed.now ∷ []))) }
{
    if fed.stamp.topic != number {
        return Ok(());
    }
    match said_by(Kind::Stream, &fed.key, &fed.value) {
        Some(Some(_)) => {
            let part = lane(&fed.key, relation.partitions, fed.stamp.part);
            lines.push(Line::of_record(part, fed))?;
            Ok(())
        }
        _ => Ok(()),
    }
}

/// The lines of changes.
fn lines_of_changes<'a>(
    alloc: Global,
    relation: &Relation,
    changes: &'a [Change],
) -> Result<Vec<Line<'a>>, AllocError>
    requires { IsPrintable relation.now }
    ensures { IfOk result (λ lines. map shown_of lines.items ≡ meant relation.now changes.now) }
{
    let mut lines = Vec::with_capacity(alloc, changes.len())?;
    for change in changes {
        lines.push(Line::of_change(partition_of(relation, change), change))?;
    }
    Ok(lines)
}
