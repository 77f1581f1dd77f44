//! The rows of a table after its changes.

ghost use Rattle.std.specs.Prelude.{◌≡◌, IfOk, OnOk, count_by, filter, is_some, length, map};
ghost use Rattle.std.specs.Option.{option_cmp};
ghost use Rattle.std.specs.Cmp.Lexicographic.{slice_cmp};
ghost use Rattle.ksql_place.specs.Ascending.{ascending};
ghost use Rattle.run_text.specs.Lines.{shown_of};
ghost use Rattle.run_text.specs.Report.{cell_cmp, latest_of, rank, row_cmp, rows_of, span_cmp, table_rows};

use crate::line::Line;
use indexmap::IndexSet;
use ksql_types::{Kind, Span, Value};
use std::alloc::{AllocError, Global};
use std::cmp::Ordering;

/// The lines of the rows of a relation of this kind after these changes; a stream has none.
pub fn table_rows<'a>(
    alloc: Global,
    kind: Kind,
    lines: &[Line<'a>],
) -> Result<Vec<Line<'a>>, AllocError>
    ensures { IfOk result (λ rows. map shown_of rows.items ≡ table_rows kind (map shown_of lines.now)) }
{
    match kind {
        Kind::Stream => Ok(Vec::new(alloc)),
        Kind::Table | Kind::Windowed => rows_of(alloc, lines),
    }
}

/// The rows that these changes leave, by key and window: for each row the line of its latest change. Takes O(n + m log
/// m) steps for n changes of m rows if few rows share a hash.
fn rows_of<'a>(alloc: Global, lines: &[Line<'a>]) -> Result<Vec<Line<'a>>, AllocError>
    ensures { IfOk result (λ rows. map shown_of rows.items ≡ rows_of (map shown_of lines.now)) }
{
    let latest = latest_lines(alloc, lines)?;
    let mut rows = lines_with_row(alloc, latest.as_slice())?;
    sort_by_row(&mut rows)?;
    Ok(rows)
}

/// The number of rows that these changes leave.
pub fn count_rows(alloc: Global, lines: &[Line]) -> Result<usize, AllocError>
    ensures { IfOk result (λ count. count ≡ length (rows_of (map shown_of lines.now))) }
{
    let latest = latest_lines(alloc, lines)?;
    Ok(count_with_row(latest.as_slice()))
}

/// For each row the line of its latest change.
fn latest_lines<'a>(alloc: Global, lines: &[Line<'a>]) -> Result<IndexSet<Line<'a>>, AllocError>
    ensures { IfOk result (λ latest. map shown_of latest.keys ≡ latest_of (map shown_of lines.now)) }
{
    let mut latest = IndexSet::new(alloc);
    for line in lines.iter().rev() {
        latest.insert(*line)?;
    }
    latest.reverse();
    Ok(latest)
}

/// The lines whose row still exists.
fn lines_with_row<'a>(alloc: Global, lines: &[Line<'a>]) -> Result<Vec<Line<'a>>, AllocError>
    ensures { IfOk result (λ rows. rows.items ≡ filter (λ line. is_some (shown_of line).row) lines.now) }
{
    lines
        .iter()
        .copied()
        .filter(|line| line.told.has_row())
        .collect(alloc)
}

/// The number of lines whose row still exists.
fn count_with_row(lines: &[Line]) -> usize
    ensures { result ≡ count_by (λ line. is_some (shown_of line).row) lines.now }
{
    lines.iter().filter(|line| line.told.has_row()).count()
}

/// Sorts lines by key and window. Those of one row keep their order.
fn sort_by_row(lines: &mut Vec<Line>) -> Result<(), AllocError>
    ensures { OnOk result (map shown_of lines.new.items ≡ ascending row_cmp (map shown_of lines.old.items)) }
{
    lines.sort_by(cmp_row)
}

/// Compares rows by key, then by window.
pub fn cmp_row(a: &Line, b: &Line) -> Ordering
    ensures { result ≡ row_cmp (shown_of a.now) (shown_of b.now) }
{
    let (a, b) = (a.told, b.told);
    let first = a.span();
    let second = b.span();
    cmp_cells(a.key(), b.key()).then_with(|| cmp_window(first, second))
}

/// Compares two keys: the first values that differ decide, else the shorter key comes first.
pub fn cmp_cells(a: &[Value], b: &[Value]) -> Ordering
    ensures { result ≡ slice_cmp cell_cmp a.now b.now }
{
    match (a, b) {
        ([first], [second]) => cmp_cell(first, second),
        _ => cmp_several(a, b),
    }
}

/// Compares two keys with any numbers of values.
fn cmp_several(a: &[Value], b: &[Value]) -> Ordering
    ensures { result ≡ slice_cmp cell_cmp a.now b.now }
{
    for (first, second) in a.iter().zip(b) {
        let order = cmp_cell(first, second);
        if order != Ordering::Equal {
            return order;
        }
    }
    a.len().cmp(&b.len())
}

/// Compares two values by type, and those of the same type as in keys.
fn cmp_cell(a: &Value, b: &Value) -> Ordering
    ensures { result ≡ cell_cmp a.now b.now }
{
    match (a, b) {
        (Value::Int(first), Value::Int(second)) => first.cmp(second),
        (Value::Big(first), Value::Big(second)) => first.cmp(second),
        (Value::Txt(first), Value::Txt(second)) => first.cmp(second),
        (Value::Bool(first), Value::Bool(second)) => first.cmp(second),
        _ => rank(a).cmp(&rank(b)),
    }
}

/// The rank of a value's type in the order of types.
fn rank(value: &Value) -> u8
    ensures { result ≡ rank value.now }
{
    match value {
        Value::Null => 0,
        Value::Int(_) => 1,
        Value::Big(_) => 2,
        Value::Txt(_) => 3,
        Value::Bool(_) => 4,
    }
}

/// Compares two windows by start, then by end; no window comes first.
fn cmp_window(a: Option<Span>, b: Option<Span>) -> Ordering
    ensures { result ≡ option_cmp span_cmp a b }
{
    match (a, b) {
        (Some(a), Some(b)) => a.start.cmp(&b.start).then(a.end.cmp(&b.end)),
        _ => a.is_some().cmp(&b.is_some()),
    }
}
