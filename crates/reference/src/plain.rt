//! Queries over one relation without a grouping: each change on its own, borrowed.
ghost use Rattle.std.specs.Prelude.{◌≡◌, ◌++◌, ◌∷◌, [], option_and_then, IfOk, OnOk};
ghost use Rattle.std.specs.List.{flat_map};
ghost use Rattle.ksql_place.specs.declared.change.Body.TheVariants as body;
ghost use Rattle.ksql_eval.specs.View.{cells};
ghost use Rattle.ksql_nodes.specs.Rows.{values};
ghost use Rattle.reference.specs.Plain.{HasNulls, change_at, changes_of, passes, plain_gives, row_left};
ghost use Rattle.query_meaning.specs.Parts.{rows_said};
ghost use Rattle.query_meaning.specs.Queries.{key_cells};

use crate::meaning::Listed;
use crate::steps::nulls;
use ksql_eval::{RowView, eval, holds};
use ksql_expr::Typed;
use ksql_place::{Body, Change, Path, Place, SourceRecord, Stamp, said_by};
use ksql_types::{CopyOf, Items, Key, Kind, Row, Span, Value};
use row_steps::{key_of, turned};
use std::alloc::{AllocError, Global};

/// A query over one relation without a grouping: the number of the relation's key columns, a NULL for each of them,
/// WHERE, and the select list.
#[derive(Drop)]
struct Plain<'a> {
    columns: usize,
    nulls: Vec<Value>,
    filter: &'a Option<Typed>,
    keys: &'a [Typed],
    values: &'a [Typed],
}

/// The place of a change, its time, its key and its window.
#[derive(Clone, Copy, Drop)]
struct At<'a> {
    stamp: Stamp,
    path: &'a Path,
    time: u64,
    key: &'a Key,
    span: Option<Span>,
}

/// What a query without a grouping gives for the changes of a relation with `columns` key columns.
pub fn plain_changes(
    alloc: Global,
    columns: usize,
    filter: &Option<Typed>,
    keys: &[Typed],
    values: &[Typed],
    source: &Listed,
) -> Result<Vec<Change>, AllocError>
    ensures { IfOk result (λ changes. changes.items ≡ flat_map (plain_gives columns filter.now keys.now values.now) (changes_of source.now)) }
{
    let plain = Plain {
        columns,
        nulls: nulls(alloc, columns)?,
        filter,
        keys,
        values,
    };
    results_of(alloc, &plain, source)
}

/// What a query gives for the changes of a relation.
fn results_of(alloc: Global, plain: &Plain, source: &Listed) -> Result<Vec<Change>, AllocError>
    requires { HasNulls plain.now }
    ensures { IfOk result (λ changes. changes.items ≡ flat_map (plain_gives plain.now.columns plain.now.filter.now plain.now.keys.now plain.now.values.now) (changes_of source.now)) }
{
    match source {
        Listed::Lent { number, order } => results_of_records(alloc, plain, *number, order),
        Listed::Made(changes) => results_of_changes(alloc, plain, changes.items()),
    }
}

/// What a query gives for the records of a stream's topic.
fn results_of_records(
    alloc: Global,
    plain: &Plain,
    number: u32,
    order: &[SourceRecord],
) -> Result<Vec<Change>, AllocError>
    requires { HasNulls plain.now }
    ensures { IfOk result (λ changes. changes.items ≡ flat_map (plain_gives plain.now.columns plain.now.filter.now plain.now.keys.now plain.now.values.now) (rows_said number order.now)) }
{
    let mut changes = Vec::new(alloc);
    for fed in order {
        push_record(alloc, &mut changes, plain, number, fed)?;
    }
    Ok(changes)
}

/// What a query gives for some changes.
fn results_of_changes(
    alloc: Global,
    plain: &Plain,
    source: &[Change],
) -> Result<Vec<Change>, AllocError>
    requires { HasNulls plain.now }
    ensures { IfOk result (λ changes. changes.items ≡ flat_map (plain_gives plain.now.columns plain.now.filter.now plain.now.keys.now plain.now.values.now) source.now) }
{
    let mut changes = Vec::new(alloc);
    for change in source {
        push_result(alloc, &mut changes, plain, change)?;
    }
    Ok(changes)
}

/// Appends what a query gives for a record of the stream with this number.
fn push_record(
    alloc: Global,
    changes: &mut Vec<Change>,
    plain: &Plain,
    number: u32,
    fed: &SourceRecord,
) -> Result<(), AllocError>
    requires { HasNulls plain.now }
    ensures { OnOk result (changes.new.items ≡ changes.old.items ++ flat_map (plain_gives plain.now.columns plain.now.filter.now plain.now.keys.now plain.now.values.now) (rows_said number (fed.now ∷ []))) }
{
    if fed.stamp.topic != number {
        return Ok(());
    }
    let Some(Some(row)) = said_by(Kind::Stream, &fed.key, &fed.value) else {
        return Ok(());
    };
    let path = Path::root();
    let at = At {
        stamp: fed.stamp,
        path: &path,
        time: fed.time,
        key: &fed.key,
        span: None,
    };
    push_said(alloc, changes, plain, at, row.items())
}

/// Appends what a query gives for a change.
fn push_result(
    alloc: Global,
    changes: &mut Vec<Change>,
    plain: &Plain,
    change: &Change,
) -> Result<(), AllocError>
    requires { HasNulls plain.now }
    ensures { OnOk result (changes.new.items ≡ changes.old.items ++ plain_gives plain.now.columns plain.now.filter.now plain.now.keys.now plain.now.values.now change.now) }
{
    let at = At {
        stamp: change.place.stamp,
        path: &change.place.path,
        time: change.time,
        key: &change.key,
        span: change.span,
    };
    match &change.body {
        Body::Said(row) => push_said(alloc, changes, plain, at, row.items()),
        Body::Turned { old, new } => push_turned(alloc, changes, plain, at, old, new),
    }
}

/// Appends what a query gives for a stream's change.
fn push_said(
    alloc: Global,
    changes: &mut Vec<Change>,
    plain: &Plain,
    at: At,
    row: &[Value],
) -> Result<(), AllocError>
    requires { HasNulls plain.now }
    ensures { OnOk result (changes.new.items ≡ changes.old.items ++ plain_gives plain.now.columns plain.now.filter.now plain.now.keys.now plain.now.values.now (change_at at.entry (body.Said row.now))) }
{
    let view = view_of(plain, at, row);
    if !passes(alloc, plain.filter, &view)? {
        return Ok(());
    }
    let key = key_of(alloc, values_of(alloc, plain.keys, &view)?);
    let said = values_of(alloc, plain.values, &view)?;
    changes.push(result_at(alloc, at, key, Body::Said(Items::of(said)))?)?;
    Ok(())
}

/// Appends what a query gives for a table's change.
fn push_turned(
    alloc: Global,
    changes: &mut Vec<Change>,
    plain: &Plain,
    at: At,
    old: &Option<Row>,
    new: &Option<Row>,
) -> Result<(), AllocError>
    requires { HasNulls plain.now }
    ensures { OnOk result (changes.new.items ≡ changes.old.items ++ plain_gives plain.now.columns plain.now.filter.now plain.now.keys.now plain.now.values.now (change_at at.entry (body.Turned old.now new.now))) }
{
    let old = row_of(alloc, plain, at, old)?;
    let new = row_of(alloc, plain, at, new)?;
    let Some(body) = turned(old, new) else {
        return Ok(());
    };
    let key = at.key.copy(alloc)?;
    changes.push(result_at(alloc, at, key, body)?)?;
    Ok(())
}

/// The select list's values for a table's row, if there is a row and it passes WHERE.
fn row_of(
    alloc: Global,
    plain: &Plain,
    at: At,
    row: &Option<Row>,
) -> Result<Option<Row>, AllocError>
    requires { HasNulls plain.now }
    ensures { IfOk result (λ left. left ≡ option_and_then (row_left plain.now.columns plain.now.filter.now plain.now.values.now at.entry.time at.entry.key.now) row.now) }
{
    let Some(row) = row else {
        return Ok(None);
    };
    let view = view_of(plain, at, row.items());
    if !passes(alloc, plain.filter, &view)? {
        return Ok(None);
    }
    let values = values_of(alloc, plain.values, &view)?;
    Ok(Some(Items::of(values)))
}

/// A change at the same place as another, with this key and body.
fn result_at(alloc: Global, at: At, key: Key, body: Body) -> Result<Change, AllocError>
    ensures { IfOk result (λ made. made ≡ record (change_at at.entry body) { key = key }) }
{
    Ok(Change {
        place: Place {
            stamp: at.stamp,
            path: at.path.copy(alloc)?,
        },
        time: at.time,
        key,
        span: at.span,
        body,
    })
}

/// A row after the cells of its key, both borrowed.
fn view_of<'a>(plain: &'a Plain, at: At<'a>, row: &'a [Value]) -> RowView<'a>
    requires { HasNulls plain.now }
    ensures cells { cells result ≡ key_cells plain.now.columns at.entry.key.now ++ row.now }
    ensures time { result.time ≡ at.entry.time }
{
    let key = match at.key.items() {
        [] => plain.nulls.as_slice(),
        cells => cells,
    };
    RowView {
        key,
        row,
        time: at.time,
    }
}

/// Whether a row passes WHERE.
fn passes(alloc: Global, filter: &Option<Typed>, view: &RowView) -> Result<bool, AllocError>
    ensures { IfOk result (λ passed. passed ≡ passes filter.now (cells view.now) view.now.time) }
{
    match filter {
        None => Ok(true),
        Some(on) => holds(alloc, on, view),
    }
}

/// The values of expressions on a row.
fn values_of(alloc: Global, expressions: &[Typed], view: &RowView) -> Result<Vec<Value>, AllocError>
    ensures { IfOk result (λ made. made.items ≡ values expressions.now view.now.time (cells view.now)) }
{
    let mut values = Vec::with_capacity(alloc, expressions.len())?;
    for expression in expressions {
        values.push(eval(alloc, expression, view)?)?;
    }
    Ok(values)
}
