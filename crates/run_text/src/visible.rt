//! What partitions of topics show, in the order of the report.

ghost use Rattle.std.specs.Prelude.{◌≡◌, ◌++◌, IfOk, OnOk, map};
ghost use Rattle.ksql_place.specs.Ascending.{ascending};
ghost use Rattle.ksql_place.specs.Order.{record_cmp};
ghost use Rattle.run_text.specs.Lines.{shown_of};
ghost use Rattle.run_text.specs.Printed.{shown_in};
ghost use Rattle.run_text.specs.Shown.{standing_cmp};
ghost use Rattle.run_text.specs.Standings.{standing_in, standing_of};

use crate::line::Line;
use ksql_place::{Change, SourceRecord, cmp_place};
use std::alloc::{AllocError, Global};
use std::cmp::Ordering;

/// A change, borrowed, and its partition.
#[derive(Clone, Copy, Drop)]
pub struct LentChange<'a> {
    pub part: u32,
    pub change: &'a Change,
}

/// Adds the records of a partition.
pub fn push_records<'a>(
    records: &mut Vec<&'a SourceRecord>,
    more: &'a [SourceRecord],
) -> Result<(), AllocError>
    ensures { OnOk result (map (λ r. r.now) records.new.items ≡ map (λ r. r.now) records.old.items ++ more.now) }
{
    records.reserve(more.len())?;
    for fed in more {
        records.push(fed)?;
    }
    Ok(())
}

/// Adds the changes of a partition.
pub fn push_changes<'a>(
    changes: &mut Vec<LentChange<'a>>,
    part: u32,
    more: &'a [Change],
) -> Result<(), AllocError>
    ensures { OnOk result (map standing_of changes.new.items ≡ map standing_of changes.old.items ++ standing_in part more.now) }
{
    changes.reserve(more.len())?;
    for change in more {
        changes.push(LentChange { part, change })?;
    }
    Ok(())
}

/// The records by their stamps.
pub fn by_stamp<'a>(mut records: Vec<&'a SourceRecord>) -> Result<Vec<&'a SourceRecord>, AllocError>
    ensures { IfOk result (λ order. map (λ r. r.now) order.items ≡ ascending record_cmp (map (λ r. r.now) records.entry.items)) }
{
    records.sort_by_key(|fed| fed.stamp)?;
    Ok(records)
}

/// The changes by their places, and on equal places by their partitions.
pub fn by_place<'a>(mut changes: Vec<LentChange<'a>>) -> Result<Vec<LentChange<'a>>, AllocError>
    ensures { IfOk result (λ order. map standing_of order.items ≡ ascending standing_cmp (map standing_of changes.entry.items)) }
{
    changes.sort_by(cmp_standing)?;
    Ok(changes)
}

/// Compares two changes by place, then by partition.
fn cmp_standing(a: &LentChange, b: &LentChange) -> Ordering
    ensures { result ≡ standing_cmp (standing_of a.now) (standing_of b.now) }
{
    cmp_place(&a.change.place, &b.change.place).then(a.part.cmp(&b.part))
}

/// The lines of changes, each in its partition.
pub fn standing_lines<'a>(
    alloc: Global,
    changes: &[LentChange<'a>],
) -> Result<Vec<Line<'a>>, AllocError>
    ensures { IfOk result (λ lines. map shown_of lines.items ≡ map (λ s. shown_in s.part s.change) (map standing_of changes.now)) }
{
    let mut lines = Vec::with_capacity(alloc, changes.len())?;
    for standing in changes {
        lines.push(Line::of_change(standing.part, standing.change))?;
    }
    Ok(lines)
}
