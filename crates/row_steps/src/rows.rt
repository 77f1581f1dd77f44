//! Steps on one row at a time.
ghost use Rattle.std.specs.Prelude.{◌≡◌, ◌++◌, [], if◌then◌else◌, None, Some, IfOk, OnErr, OnOk, map, replicate, option_and_then, option_map};
ghost use Rattle.std.specs.Option.{option_to_list};
ghost use Rattle.ksql_types.specs.declared.value.Value.TheVariants as value;
ghost use Rattle.ksql_place.specs.declared.change.Change.{Change as OneChange};
ghost use Rattle.ksql_expr.specs.Value.{cell, is_true_value, value_of};
ghost use Rattle.ksql_nodes.specs.Rows.{by_rows, filtered, key_of, passing, selected, selected_key, turned, values};

use crate::columns::{are_rising_columns, taken_cells};
use crate::keys::{key_of, one_key};
use ksql_eval::{RowView, eval, holds};
use ksql_expr::{Typed, TypedNode};
use ksql_place::{Body, Change};
use ksql_types::{CopyOf, Items, Key, Row, Value};
use std::alloc::{AllocError, Global};

/// The part of a change that passes WHERE or HAVING, if any.
pub fn filtered(alloc: Global, on: &Typed, mut change: Change) -> Result<Option<Change>, AllocError>
    ensures { IfOk result (λ made. option_to_list made ≡ filtered on.now change) }
{
    if keep_passing(alloc, on, change.time, &mut change.body)? {
        Ok(Some(change))
    } else {
        Ok(None)
    }
}

/// Appends what the key items and the value items of a select list make of a change.
pub fn push_selected(
    alloc: Global,
    keys: &[Typed],
    items: &[Typed],
    change: Change,
    out: &mut Vec<Change>,
) -> Result<(), AllocError>
    ensures given { OnOk result (out.new.items ≡ out.old.items ++ selected keys.now items.now change) }
    ensures unchanged { OnErr result (out.new.items ≡ out.old.items) }
{
    let Change {
        place,
        time,
        key,
        span,
        body,
    } = change;
    let key = selected_key(alloc, keys, time, key, &body)?;
    let Some(body) = selected_body(alloc, items, time, body)? else {
        return Ok(());
    };
    out.reserve(1)?;
    out.push_reserved(Change {
        place,
        time,
        key,
        span,
        body,
    });
    Ok(())
}

/// A change of a table from one row to another; None from absent to absent.
pub fn turned(old: Option<Row>, new: Option<Row>) -> Option<Body>
    ensures { result ≡ turned old new }
{
    if old.is_none() && new.is_none() {
        None
    } else {
        Some(Body::Turned { old, new })
    }
}

/// The value of an expression on a row at a time.
#[tactic(auto, unfolding(ksql_expr::specs::Value::value_of))]
pub fn value_of(alloc: Global, e: &Typed, time: u64, row: &Row) -> Result<Value, AllocError>
    ensures { IfOk result (λ value. value ≡ value_of row.now time e.now) }
{
    if let TypedNode::Column(column) = &e.node {
        return cell(alloc, row, *column);
    }
    let view = RowView {
        key: &[],
        row: row.items(),
        time,
    };
    eval(alloc, e, &view)
}

/// The cell of a column; NULL if the row has no such column.
fn cell(alloc: Global, row: &Row, column: u32) -> Result<Value, AllocError>
    ensures { IfOk result (λ value. value ≡ cell row.now column) }
{
    match row.items().get(column as usize) {
        Some(value) => value.copy(alloc),
        None => Ok(Value::Null),
    }
}

/// The values of expressions on a row at a time.
pub fn values_of(
    alloc: Global,
    expressions: &[Typed],
    time: u64,
    row: &Row,
) -> Result<Vec<Value>, AllocError>
    ensures { IfOk result (λ made. made.items ≡ values expressions.now time row.now) }
{
    let mut values = Vec::with_capacity(alloc, expressions.len())?;
    for expression in expressions {
        let value = value_of(alloc, expression, time, row)?;
        values.reserve(1)?;
        values.push_reserved(value);
    }
    Ok(values)
}

/// The key of the values of expressions on a row at a time: none if they form no key. A single value takes no list.
pub(crate) fn key_from(
    alloc: Global,
    expressions: &[Typed],
    time: u64,
    row: &Row,
) -> Result<Key, AllocError>
    ensures { IfOk result (λ key. key ≡ key_of (values expressions.now time row.now)) }
{
    match expressions {
        [only] => Ok(one_key(alloc, value_of(alloc, only, time, row)?)),
        _ => Ok(key_of(alloc, values_of(alloc, expressions, time, row)?)),
    }
}

/// A row, copied, if any.
pub fn copied(alloc: Global, row: Option<&Row>) -> Result<Option<Row>, AllocError>
    ensures { IfOk result (λ made. made ≡ option_map (λ r. r.now) row.entry) }
{
    match row {
        Some(row) => Ok(Some(row.copy(alloc)?)),
        None => Ok(None),
    }
}

/// Adds a change, if any.
pub fn push_given(out: &mut Vec<Change>, change: Option<Change>) -> Result<(), AllocError>
    ensures given { OnOk result (out.new.items ≡ out.old.items ++ option_to_list change) }
    ensures unchanged { OnErr result (out.new.items ≡ out.old.items) }
{
    if let Some(change) = change {
        out.reserve(1)?;
        out.push_reserved(change);
    }
    Ok(())
}

/// Adds copies of values.
pub fn push_copies(
    alloc: Global,
    cells: &mut Vec<Value>,
    values: &[Value],
) -> Result<(), AllocError>
    ensures { OnOk result (cells.new.items ≡ cells.old.items ++ values.now) }
{
    for value in values {
        let copy = value.copy(alloc)?;
        cells.reserve(1)?;
        cells.push_reserved(copy);
    }
    Ok(())
}

/// Appends `count` NULLs.
pub fn push_nulls(cells: &mut Vec<Value>, count: u32) -> Result<(), AllocError>
    ensures { OnOk result (cells.new.items ≡ cells.old.items ++ replicate count value.Null) }
{
    for _ in 0..count {
        cells.push(Value::Null)?;
    }
    Ok(())
}

/// Drops the rows that don't pass a condition from a change's body at a time; returns whether the body still says
/// anything.
fn keep_passing(alloc: Global, on: &Typed, time: u64, body: &mut Body) -> Result<bool, AllocError>
    ensures { IfOk result (λ says. (if says then Some body.new else None) ≡ by_rows (passing on.now time) body.old) }
{
    match body {
        Body::Said(row) => passes(alloc, on, time, row),
        Body::Turned { old, new } => {
            keep_row(alloc, on, time, old)?;
            keep_row(alloc, on, time, new)?;
            Ok(old.is_some() || new.is_some())
        }
    }
}

/// Keeps a row, if any, only if it passes a condition at a time.
fn keep_row(alloc: Global, on: &Typed, time: u64, row: &mut Option<Row>) -> Result<(), AllocError>
    ensures { OnOk result (row.new ≡ option_and_then (passing on.now time) row.old) }
{
    let Some(kept) = row else {
        return Ok(());
    };
    if !passes(alloc, on, time, kept)? {
        *row = None;
    }
    Ok(())
}

/// Whether a row passes a condition at a time.
fn passes(alloc: Global, on: &Typed, time: u64, row: &Row) -> Result<bool, AllocError>
    ensures { IfOk result (λ passed. passed ≡ is_true_value (value_of row.now time on.now)) }
{
    let view = RowView {
        key: &[],
        row: row.items(),
        time,
    };
    holds(alloc, on, &view)
}

/// The key that a select list gives a change: for a stream computed from its row, while a table keeps its key.
fn selected_key(
    alloc: Global,
    keys: &[Typed],
    time: u64,
    key: Key,
    body: &Body,
) -> Result<Key, AllocError>
    ensures { (c : OneChange) → c.time ≡ time → c.key ≡ key → c.body ≡ body.now → IfOk result (λ made. made ≡ selected_key keys.now c) }
{
    match body {
        Body::Said(row) => key_from(alloc, keys, time, row),
        Body::Turned { .. } => Ok(key),
    }
}

/// What the value items of a select list make of a change's body at a time.
fn selected_body(
    alloc: Global,
    items: &[Typed],
    time: u64,
    body: Body,
) -> Result<Option<Body>, AllocError>
    ensures { IfOk result (λ made. made ≡ by_rows (λ row. Some (values items.now time row)) body) }
{
    match body {
        Body::Said(row) => Ok(Some(Body::Said(selected_row(alloc, items, time, row)?))),
        Body::Turned { old, new } => {
            let old = perhaps_selected(alloc, items, time, old)?;
            let new = perhaps_selected(alloc, items, time, new)?;
            Ok(turned(old, new))
        }
    }
}

/// The row of a select list's values, if there is an input row.
fn perhaps_selected(
    alloc: Global,
    items: &[Typed],
    time: u64,
    row: Option<Row>,
) -> Result<Option<Row>, AllocError>
    ensures { IfOk result (λ made. made ≡ option_and_then (λ r. Some (values items.now time r)) row) }
{
    match row {
        Some(row) => Ok(Some(selected_row(alloc, items, time, row)?)),
        None => Ok(None),
    }
}

/// The row of a select list's values. Columns in the row's order are moved out of it.
fn selected_row(alloc: Global, items: &[Typed], time: u64, row: Row) -> Result<Row, AllocError>
    ensures { IfOk result (λ made. made ≡ values items.now time row) }
{
    let cells = if are_rising_columns(items) {
        taken_cells(alloc, items, row)?
    } else {
        values_of(alloc, items, time, &row)?
    };
    Ok(Items::of(cells))
}
