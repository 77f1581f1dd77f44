//! The changes of groups: each from the group's result before an entry to that after it.
ghost use Rattle.std.specs.Prelude.{◌≡◌, ◌++◌, IfOk, OnOk, map, option_map};
ghost use Rattle.ksql_nodes.specs.Aggregates.{arguments, dated, entered, gone, group_change, outcome, worth};
ghost use Rattle.ksql_nodes.specs.Entries.{of_key};
ghost use Rattle.reference.specs.Steps.{entry_of};
ghost use Rattle.reference.specs.Grouping.{view_worth};

use crate::aggregates::{aggregate, balance};
use crate::entries::{EntryRef, latest_time, of_key};
use ksql_expr::Typed;
use ksql_place::{Body, Change};
use ksql_program::Agg;
use ksql_types::{CopyOf, Items, Key, Kind, Row, Value};
use row_steps::{argument, push_copies, row_in, row_out, type_of_agg};
use std::alloc::{AllocError, Global};

/// The change of an entry's group, given the earlier entries of its key.
pub fn group_change<'a>(
    alloc: Global,
    over: Kind,
    aggs: &[Agg],
    before: &[EntryRef<'a>],
    entry: &EntryRef<'a>,
) -> Result<Change, AllocError>
    ensures { IfOk result (λ made. made ≡ group_change over aggs.now None (of_key entry.now.change.now.key (map entry_of before.now)) (entry_of entry.now)) }
{
    let change = entry.change;
    let mut mine = of_key(alloc, &change.key, before)?;
    let old = outcome(alloc, over, aggs, &change.key, mine.as_slice())?;
    mine.push(*entry)?;
    let new = outcome(alloc, over, aggs, &change.key, mine.as_slice())?;
    Ok(Change {
        place: change.place.copy(alloc)?,
        time: latest_time(mine.as_slice()),
        key: change.key.copy(alloc)?,
        span: None,
        body: Body::Turned { old, new },
    })
}

/// The result of a group over its entries: its key and a column for each aggregate; absent without entries.
#[tactic(auto, using(crate::proofs::Lists::absent_without))]
fn outcome(
    alloc: Global,
    over: Kind,
    aggs: &[Agg],
    group: &Key,
    entries: &[EntryRef],
) -> Result<Option<Row>, AllocError>
    ensures { IfOk result (λ row. row ≡ outcome over aggs.now group.now None (map entry_of entries.now)) }
{
    if entries.is_empty() {
        return Ok(None);
    }
    let mut row = Vec::with_capacity(alloc, group.items().len() + aggs.len())?;
    push_copies(alloc, &mut row, group.items())?;
    for agg in aggs {
        row.push(worth(alloc, over, entries, agg)?)?;
    }
    Ok(Some(Items::of(row)))
}

/// The value of an aggregate over the entries of a group: for a stream over all its rows, for a table over those that
/// entered less those that left.
fn worth(alloc: Global, over: Kind, entries: &[EntryRef], agg: &Agg) -> Result<Value, AllocError>
    ensures { IfOk result (λ value. value ≡ worth over (map entry_of entries.now) agg.now) }
{
    match over {
        Kind::Stream => row_worth(alloc, entries, agg),
        Kind::Table | Kind::Windowed => {
            let entered = entered(alloc, &agg.arg, entries)?;
            let gone = gone(alloc, &agg.arg, entries)?;
            Ok(balance(agg.fun, type_of_agg(agg), entered, gone))
        }
    }
}

/// The value of an aggregate over the rows that entries bring.
pub(crate) fn row_worth(alloc: Global, entries: &[EntryRef], agg: &Agg) -> Result<Value, AllocError>
    ensures { IfOk result (λ value. value ≡ view_worth (map entry_of entries.now) agg.now) }
{
    let values = entered(alloc, &agg.arg, entries)?;
    Ok(aggregate(agg.fun, type_of_agg(agg), values))
}

/// The values of an aggregate's argument on the rows that the entries bring.
fn entered(
    alloc: Global,
    arg: &Option<Typed>,
    entries: &[EntryRef],
) -> Result<Vec<Value>, AllocError>
    ensures { IfOk result (λ values. values.items ≡ arguments arg.now (entered (map entry_of entries.now))) }
{
    let mut values = Vec::new(alloc);
    for entry in entries {
        let row = row_in(&entry.change.body);
        push_argument(alloc, &mut values, arg, entry.change.time, row)?;
    }
    Ok(values)
}

/// The values of an aggregate's argument on the rows that the entries take away.
fn gone(alloc: Global, arg: &Option<Typed>, entries: &[EntryRef]) -> Result<Vec<Value>, AllocError>
    ensures { IfOk result (λ values. values.items ≡ arguments arg.now (gone (map entry_of entries.now))) }
{
    let mut values = Vec::new(alloc);
    for entry in entries {
        let row = row_out(&entry.change.body);
        push_argument(alloc, &mut values, arg, entry.change.time, row)?;
    }
    Ok(values)
}

/// Appends the value of an aggregate's argument on a row, if there is one.
fn push_argument(
    alloc: Global,
    values: &mut Vec<Value>,
    arg: &Option<Typed>,
    time: u64,
    row: Option<&Row>,
) -> Result<(), AllocError>
    ensures { OnOk result (values.new.items ≡ values.old.items ++ arguments arg.now (dated time (option_map (λ r. r.now) row.entry))) }
{
    let Some(row) = row else {
        return Ok(());
    };
    let value = argument(alloc, arg, time, row)?;
    values.push(value)?;
    Ok(())
}
