//! Entries as a task reads them: their rows begin with the cells of their keys.
ghost use Rattle.std.specs.Prelude.{◌≡◌, ◌<◌, ◌++◌, ◌∷◌, [], IfOk, OnOk, map, option_map, vec_capacity, vec_len};
ghost use Rattle.ksql_place.specs.Said.{saying};
ghost use Rattle.ksql_nodes.specs.Entries.{from_side};
ghost use Rattle.query_meaning.specs.Parts.{raw_body};
ghost use Rattle.topology.specs.Contents.{with_cells};
ghost use Rattle.op_chain.specs.Chain.{entries_of};
ghost use Rattle.task_core.specs.Readers.{whole_row};

use ksql_place::{Body, Change, Path, Place, SourceRecord, said_by};
use ksql_types::{CopyOf, Items, Key, Kind, Row, Value};
use op_chain::Entry;
use row_steps::{push_copies, push_nulls};
use std::alloc::{AllocError, Global};

/// Appends an entry on a side: what a record says to a relation of a kind, with `columns` key columns in front of its
/// row. Appends nothing if the record is skipped.
pub fn push_said(
    alloc: Global,
    taken: &mut Vec<Entry>,
    side: u32,
    kind: Kind,
    columns: u32,
    fed: &SourceRecord,
) -> Result<(), AllocError>
    ensures { OnOk result (entries_of taken.new.items
        ≡ entries_of taken.old.items ++ from_side side (map (with_cells columns) (saying kind fed.now))) }
{
    let Some(row) = said_by(kind, &fed.key, &fed.value) else {
        return Ok(());
    };
    let Some(body) = said_body(alloc, kind, columns, &fed.key, row)? else {
        return Ok(());
    };
    taken.reserve(1)?;
    let change = Change {
        place: Place {
            stamp: fed.stamp,
            path: Path::root(),
        },
        time: fed.time,
        key: fed.key.copy(alloc)?,
        span: None,
        body,
    };
    put_entry(taken, side, change);
    Ok(())
}

/// Appends an entry on a side to a list with room for it.
fn put_entry(taken: &mut Vec<Entry>, side: u32, change: Change)
    requires { vec_len taken.old < vec_capacity taken.old }
    ensures { entries_of taken.new.items ≡ entries_of taken.old.items ++ from_side side (change ∷ []) }
{
    taken.push_reserved(Entry { side, change });
}

/// The body of a record's change to a relation of a kind, given its row, if any, with `columns` key columns in front.
fn said_body(
    alloc: Global,
    kind: Kind,
    columns: u32,
    key: &Key,
    row: Option<&Row>,
) -> Result<Option<Body>, AllocError>
    ensures { IfOk result (λ body. body ≡ raw_body kind (option_map (λ r. whole_row columns key.now r.now) row.entry)) }
{
    match (kind, row) {
        (Kind::Stream, Some(row)) => Ok(Some(Body::Said(whole_row(alloc, columns, key, row)?))),
        (Kind::Table, Some(row)) => Ok(Some(Body::Turned {
            old: None,
            new: Some(whole_row(alloc, columns, key, row)?),
        })),
        (Kind::Table, None) => Ok(Some(Body::Turned {
            old: None,
            new: None,
        })),
        _ => Ok(None),
    }
}

/// Appends an entry on a side: a change with `columns` key columns in front of its rows, or unchanged if that is none.
pub fn push_whole(
    alloc: Global,
    taken: &mut Vec<Entry>,
    side: u32,
    columns: u32,
    change: &Change,
) -> Result<(), AllocError>
    ensures { OnOk result (entries_of taken.new.items
        ≡ entries_of taken.old.items ++ from_side side (with_cells columns change.now ∷ [])) }
{
    let body = whole_body(alloc, columns, change)?;
    taken.reserve(1)?;
    let whole = Change {
        place: change.place.copy(alloc)?,
        time: change.time,
        key: change.key.copy(alloc)?,
        span: change.span,
        body,
    };
    put_entry(taken, side, whole);
    Ok(())
}

/// The body of a change, with `columns` key columns in front of its rows, or unchanged if that is none.
fn whole_body(alloc: Global, columns: u32, change: &Change) -> Result<Body, AllocError>
    ensures { IfOk result (λ made. made ≡ (with_cells columns change.now).body) }
{
    let key = &change.key;
    match &change.body {
        Body::Said(row) => Ok(Body::Said(whole_row(alloc, columns, key, row)?)),
        Body::Turned { old, new } => Ok(Body::Turned {
            old: perhaps_whole(alloc, columns, key, old)?,
            new: perhaps_whole(alloc, columns, key, new)?,
        }),
    }
}

/// A row after `columns` key columns, if there is a row.
fn perhaps_whole(
    alloc: Global,
    columns: u32,
    key: &Key,
    row: &Option<Row>,
) -> Result<Option<Row>, AllocError>
    ensures { IfOk result (λ made. made ≡ option_map (λ r. whole_row columns key.now r) row.now) }
{
    match row {
        Some(row) => Ok(Some(whole_row(alloc, columns, key, row)?)),
        None => Ok(None),
    }
}

/// A row after `columns` key columns, or unchanged if that is none. If the change has no key, they are NULL.
fn whole_row(alloc: Global, columns: u32, key: &Key, row: &Row) -> Result<Row, AllocError>
    ensures { IfOk result (λ made. made ≡ whole_row columns key.now row.now) }
{
    if columns == 0 {
        return row.copy(alloc);
    }
    let mut whole = Vec::with_capacity(alloc, columns as usize + row.items().len())?;
    match key.items() {
        [] => push_nulls(&mut whole, columns)?,
        values => push_copies(alloc, &mut whole, values)?,
    }
    push_copies(alloc, &mut whole, row.items())?;
    Ok(Items::of(whole))
}
