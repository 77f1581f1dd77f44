//! The values kept for a group: its greatest time, then the values of its aggregates.
ghost use Rattle.std.specs.Prelude.{◌≡◌, ◌<◌, ◌≤◌, ◌^◌, ◌≤ℤ◌, ◌∷◌, ◌++◌, [], IfOk, IfSome, OnOk, drop, length, neg_ℤ, option_map, pos, slice_get, unwrap_or};
ghost use Rattle.ksql_types.specs.declared.relation.Kind.TheVariants as kinds;
ghost use Rattle.ksql_place.specs.declared.change.Body.TheVariants.{Turned};
ghost use Rattle.ksql_nodes.specs.Aggregates.{amount};
ghost use Rattle.agg_ops.specs.Totals.{amount_of, initial, kept_time, kept_worths, more, next_totals, next_worth, present_or, raised, result_of, with_row, HasBigBounds};

use ksql_eval::{number_in, whole};
use ksql_expr::AggFun;
use ksql_place::{Body, Change};
use ksql_program::Agg;
use ksql_types::{CopyOf, Items, Key, Kind, Row, Span, SqlType, Value};
use row_steps::{argument, greater, lesser, row_in, row_out, type_of_agg};
use std::alloc::{AllocError, Global};

/// How many values a group's result has beyond those kept: the values of its key (in place of the time), and the start
/// and end of its window.
/// the start and the end of its window.
pub(crate) fn room_for_result(group: &Key, window: bool) -> usize {
    let bounds = if window { 2 } else { 0 };
    group.items().len().saturating_sub(1).saturating_add(bounds)
}

/// The values kept for a group after one more change, in a list with room for `room` more.
pub(crate) fn next_totals(
    alloc: Global,
    over: Kind,
    aggs: &[Agg],
    room: usize,
    mine: &[Value],
    change: &Change,
) -> Result<Vec<Value>, AllocError>
    requires time { change.now.time ≤ 2 ^ 53 }
    ensures { IfOk result (λ made. made.items ≡ next_totals over aggs.now change.now mine.now) }
{
    let time = kept_time(mine).max(change.time);
    let worths = kept_worths(mine);
    let mut totals = Vec::with_capacity(alloc, room.saturating_add(1 + aggs.len()))?;
    totals.push(Value::Big(time.cast_signed()))?;
    for (index, agg) in aggs.iter().enumerate() {
        let worth = worth_at(alloc, over, worths, index, agg)?;
        totals.push(next_worth(alloc, over, agg, worth, change)?)?;
    }
    Ok(totals)
}

/// The change of a group, or of a window's group, given the values kept before and after it.
pub(crate) fn turn_of(
    alloc: Global,
    group: &Key,
    span: Option<Span>,
    before: Vec<Value>,
    after: Vec<Value>,
) -> Result<Body, AllocError>
    requires { IfSome span HasBigBounds }
    ensures { IfOk result (λ turn. turn ≡ Turned (result_of group.now span before.items) (result_of group.now span after.items)) }
{
    Ok(Body::Turned {
        old: result_of(alloc, group, span, before)?,
        new: result_of(alloc, group, span, after)?,
    })
}

/// The kept time; 0 if nothing is kept.
pub(crate) fn kept_time(mine: &[Value]) -> u64
    ensures time { result ≡ kept_time mine.now }
    ensures bound { result < 2 ^ 63 }
{
    match mine {
        [Value::Big(time), ..] => (*time).max(0).cast_unsigned(),
        _ => 0,
    }
}

/// The kept aggregates.
fn kept_worths(mine: &[Value]) -> &[Value]
    ensures { result.now ≡ kept_worths mine.now }
{
    match mine {
        [] => mine,
        [_, worths @ ..] => worths,
    }
}

/// The kept aggregate at an index; if none is kept, its value over no rows.
fn worth_at(
    alloc: Global,
    over: Kind,
    worths: &[Value],
    index: usize,
    agg: &Agg,
) -> Result<Value, AllocError>
    ensures { IfOk result (λ worth. worth ≡ unwrap_or (slice_get worths.now index) (initial over agg.now)) }
{
    match worths.get(index) {
        Some(worth) => worth.copy(alloc),
        None => Ok(initial(over, agg)),
    }
}

/// The value of an aggregate over no rows.
fn initial(over: Kind, agg: &Agg) -> Value
    ensures { result ≡ initial over agg.now }
{
    match (over, agg.fun) {
        (Kind::Stream, AggFun::Min | AggFun::Max | AggFun::Latest | AggFun::Earliest) => {
            Value::Null
        }
        _ => number_in(type_of_agg(agg), 0),
    }
}

/// An aggregate after a change.
fn next_worth(
    alloc: Global,
    over: Kind,
    agg: &Agg,
    mine: Value,
    change: &Change,
) -> Result<Value, AllocError>
    ensures { IfOk result (λ made. made ≡ next_worth over agg.now change.now mine) }
{
    match over {
        Kind::Stream => with_row(alloc, agg, change.time, row_in(&change.body), mine),
        Kind::Table | Kind::Windowed => with_balance(alloc, agg, &mine, change),
    }
}

/// A table's aggregate after a change: the amount of the new row is added, that of the old row subtracted.
fn with_balance(
    alloc: Global,
    agg: &Agg,
    mine: &Value,
    change: &Change,
) -> Result<Value, AllocError>
    ensures { IfOk result (λ made. made ≡ next_worth kinds.Table agg.now change.now mine.now) }
{
    let entered = amount_of(alloc, agg, change.time, row_in(&change.body))?;
    let gone = amount_of(alloc, agg, change.time, row_out(&change.body))?;
    let by = i128::from(entered) - i128::from(gone);
    Ok(raised(type_of_agg(agg), mine, by))
}

/// A stream's aggregate after a row at a time, if any.
fn with_row(
    alloc: Global,
    agg: &Agg,
    time: u64,
    row: Option<&Row>,
    mine: Value,
) -> Result<Value, AllocError>
    ensures { IfOk result (λ made. made ≡ with_row agg.now time (option_map (λ r. r.now) row.entry) mine) }
{
    let Some(row) = row else {
        return Ok(mine);
    };
    let value = argument(alloc, &agg.arg, time, row)?;
    Ok(more(agg.fun, type_of_agg(agg), mine, value))
}

/// A stream's aggregate after one more value of its argument.
fn more(fun: AggFun, ty: Option<SqlType>, mine: Value, value: Value) -> Value
    ensures { result ≡ more fun ty mine value }
{
    match fun {
        AggFun::CountAll | AggFun::Count | AggFun::Sum => {
            raised(ty, &mine, i128::from(amount(fun, &value)))
        }
        AggFun::Min => lesser(mine, value),
        AggFun::Max => greater(mine, value),
        AggFun::Latest => present_or(value, mine),
        AggFun::Earliest => present_or(mine, value),
    }
}

/// What COUNT or SUM adds for a row at a time; 0 if there is no row, and for the other functions.
fn amount_of(alloc: Global, agg: &Agg, time: u64, row: Option<&Row>) -> Result<i64, AllocError>
    ensures { IfOk result (λ made. made ≡ amount_of agg.now time (option_map (λ r. r.now) row.entry)) }
{
    let Some(row) = row else {
        return Ok(0);
    };
    let value = argument(alloc, &agg.arg, time, row)?;
    Ok(amount(agg.fun, &value))
}

/// What COUNT or SUM adds for a value; 0 for the other functions.
fn amount(fun: AggFun, value: &Value) -> i64
    ensures { result ≡ amount fun (value.now ∷ []) }
{
    match fun {
        AggFun::CountAll => 1,
        AggFun::Count => i64::from(!value.is_null()),
        AggFun::Sum => whole(value).unwrap_or(0),
        _ => 0,
    }
}

/// A value, or `other` if it is NULL.
fn present_or(value: Value, other: Value) -> Value
    ensures { result ≡ present_or value other }
{
    if value.is_null() { other } else { value }
}

/// A number in a type, increased by `by`. It wraps.
fn raised(ty: Option<SqlType>, mine: &Value, by: i128) -> Value
    requires low { neg_ℤ (pos (2 ^ 64)) ≤ℤ by }
    requires high { by ≤ℤ pos (2 ^ 64) }
    ensures { result ≡ raised ty mine.now by }
{
    number_in(ty, i128::from(whole(mine).unwrap_or(0)) + by)
}

/// The result of a group, given the values kept: its key, its aggregates, and the start and end of its window.
fn result_of(
    alloc: Global,
    group: &Key,
    span: Option<Span>,
    mine: Vec<Value>,
) -> Result<Option<Row>, AllocError>
    requires { IfSome span HasBigBounds }
    ensures { IfOk result (λ row. row ≡ result_of group.now span mine.items) }
{
    if mine.is_empty() {
        return Ok(None);
    }
    let mut row = mine;
    put_key(alloc, &mut row, group.items())?;
    if let Some(span) = span {
        row.push(Value::Big(span.start.cast_signed()))?;
        row.push(Value::Big(span.end.cast_signed()))?;
    }
    Ok(Some(Items::of(row)))
}

/// Puts the values of a key in place of the first value.
fn put_key(alloc: Global, row: &mut Vec<Value>, key: &[Value]) -> Result<(), AllocError>
    requires { 0 < length row.old.items }
    ensures { OnOk result (row.new.items ≡ key.now ++ drop 1 row.old.items) }
{
    match key {
        [only] => {
            row[0] = only.copy(alloc)?;
            Ok(())
        }
        _ => put_several(alloc, row, key),
    }
}

/// Puts values in place of the first value.
fn put_several(alloc: Global, row: &mut Vec<Value>, values: &[Value]) -> Result<(), AllocError>
    requires { 0 < length row.old.items }
    ensures { OnOk result (row.new.items ≡ values.now ++ drop 1 row.old.items) }
{
    drop(row.remove(0));
    for (index, value) in values.iter().enumerate() {
        row.insert(index, value.copy(alloc)?)?;
    }
    Ok(())
}
