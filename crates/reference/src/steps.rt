//! The steps of queries and declared tables over all changes.

ghost use Rattle.std.specs.Prelude.{◌≡◌, ◌∷◌, ◌++◌, [], IfOk, IsTrue, None, OnOk, map, option_map, replicate};
ghost use Rattle.std.specs.List.{AllByRecursion};
ghost use Rattle.ksql_types.specs.declared.relation.Kind.TheVariants as kind;
ghost use Rattle.ksql_types.specs.declared.value.Value.TheVariants.{Null};
ghost use Rattle.ksql_nodes.specs.Entries.{from_side, results, through};
ghost use Rattle.ksql_nodes.specs.Nodes.{gives};
ghost use Rattle.ksql_nodes.specs.declared.node.Node.TheVariants as node;
ghost use Rattle.reference.specs.Steps.{entry_of, is_run};
ghost use Rattle.query_meaning.specs.Parts.{changes_by, raw_body, said_to};
ghost use Rattle.query_meaning.specs.Queries.{after_aggregate, filter_of, key_cells, with_key_cells};

use crate::entries::EntryRef;
use crate::nodes::results;
use ksql_expr::{Exprs, Typed};
use ksql_nodes::Node;
use ksql_place::{Body, Change, Path, Place, SourceRecord, said_by};
use ksql_program::Aggs;
use ksql_types::{CopyOf, Items, Key, Kind, Row, Value};
use row_steps::push_copies;
use std::alloc::{AllocError, Global};

/// The changes of a declared table: each record of its topic replaces the row that the latest one of its key left.
pub fn table_changes(
    alloc: Global,
    number: u32,
    order: &[SourceRecord],
) -> Result<Vec<Change>, AllocError>
    ensures { IfOk result (λ changes. changes.items ≡ changes_by kind.Table number order.now) }
{
    let said = said_to(alloc, Kind::Table, number, order)?;
    let nodes = vec![in alloc; Node::Table { relation: number }]?;
    through(alloc, 1, nodes.as_slice(), said)
}

/// What the records of a topic say to a relation of this kind.
pub fn said_to(
    alloc: Global,
    kind: Kind,
    number: u32,
    order: &[SourceRecord],
) -> Result<Vec<Change>, AllocError>
    ensures { IfOk result (λ changes. changes.items ≡ said_to kind number order.now) }
{
    let mut changes = Vec::new(alloc);
    for fed in order {
        push_said(alloc, &mut changes, kind, number, fed)?;
    }
    Ok(changes)
}

/// Appends what a record says to a relation of this kind.
fn push_said(
    alloc: Global,
    changes: &mut Vec<Change>,
    kind: Kind,
    number: u32,
    fed: &SourceRecord,
) -> Result<(), AllocError>
    ensures { OnOk result (changes.new.items ≡ changes.old.items ++ said_to kind number (fed.now ∷ [])) }
{
    if fed.stamp.topic != number {
        return Ok(());
    }
    let Some(row) = said_by(kind, &fed.key, &fed.value) else {
        return Ok(());
    };
    let Some(body) = raw_body(alloc, kind, row)? else {
        return Ok(());
    };
    changes.push(Change {
        place: Place {
            stamp: fed.stamp,
            path: Path::root(),
        },
        time: fed.time,
        key: fed.key.copy(alloc)?,
        span: None,
        body,
    })?;
    Ok(())
}

/// The body of a record's change to a relation of this kind, given its row, if any.
fn raw_body(alloc: Global, kind: Kind, row: Option<&Row>) -> Result<Option<Body>, AllocError>
    ensures { IfOk result (λ body. body ≡ raw_body kind (option_map (λ r. r.now) row.entry)) }
{
    match (kind, row) {
        (Kind::Stream, Some(row)) => Ok(Some(Body::Said(row.copy(alloc)?))),
        (Kind::Table, Some(row)) => Ok(Some(Body::Turned {
            old: None,
            new: Some(row.copy(alloc)?),
        })),
        (Kind::Table, None) => Ok(Some(Body::Turned {
            old: None,
            new: None,
        })),
        _ => Ok(None),
    }
}

/// The changes of a relation with `columns` key columns, with whole rows: the cells of the key come first.
pub fn whole_changes(
    alloc: Global,
    columns: usize,
    source: &[Change],
) -> Result<Vec<Change>, AllocError>
    ensures { IfOk result (λ changes. changes.items ≡ map (with_key_cells columns) source.now) }
{
    let mut changes = Vec::with_capacity(alloc, source.len())?;
    for change in source {
        changes.push(whole_change(alloc, columns, change)?)?;
    }
    Ok(changes)
}

/// A change with whole rows.
fn whole_change(alloc: Global, columns: usize, change: &Change) -> Result<Change, AllocError>
    ensures { IfOk result (λ made. made ≡ with_key_cells columns change.now) }
{
    let key = &change.key;
    let body = match &change.body {
        Body::Said(row) => Body::Said(whole_row(alloc, columns, key, row)?),
        Body::Turned { old, new } => Body::Turned {
            old: perhaps_whole(alloc, columns, key, old)?,
            new: perhaps_whole(alloc, columns, key, new)?,
        },
    };
    Ok(Change {
        place: change.place.copy(alloc)?,
        time: change.time,
        key: key.copy(alloc)?,
        span: change.span,
        body,
    })
}

/// A row after the cells of its key, if any.
fn perhaps_whole(
    alloc: Global,
    columns: usize,
    key: &Key,
    row: &Option<Row>,
) -> Result<Option<Row>, AllocError>
    ensures { IfOk result (λ whole. whole ≡ option_map (λ r. key_cells columns key.now ++ r) row.now) }
{
    match row {
        Some(row) => Ok(Some(whole_row(alloc, columns, key, row)?)),
        None => Ok(None),
    }
}

/// A row after the cells of its key.
fn whole_row(alloc: Global, columns: usize, key: &Key, row: &Row) -> Result<Row, AllocError>
    ensures { IfOk result (λ whole. whole ≡ key_cells columns key.now ++ row.now) }
{
    let mut whole = match key.items() {
        [] => nulls(alloc, columns)?,
        _ => Vec::new(alloc),
    };
    push_copies(alloc, &mut whole, key.items())?;
    push_copies(alloc, &mut whole, row.items())?;
    Ok(Items::of(whole))
}

/// `count` NULLs.
pub fn nulls(alloc: Global, count: usize) -> Result<Vec<Value>, AllocError>
    ensures { IfOk result (λ row. row.items ≡ replicate count Null) }
{
    let mut row = Vec::with_capacity(alloc, count)?;
    for _ in 0..count {
        row.push(Value::Null)?;
    }
    Ok(row)
}

/// The node of WHERE, if any.
pub fn filter_nodes(alloc: Global, filter: &Option<Typed>) -> Result<Vec<Node>, AllocError>
    ensures { IfOk result (λ nodes. nodes.items ≡ filter_of filter.now) }
{
    let mut nodes = Vec::new(alloc);
    if let Some(on) = filter {
        nodes.push(Node::Filter {
            on: on.copy(alloc)?,
        })?;
    }
    Ok(nodes)
}

/// The node of a select list.
pub fn select_nodes(alloc: Global, keys: &Exprs, values: &Exprs) -> Result<Vec<Node>, AllocError>
    ensures { IfOk result (λ nodes. nodes.items ≡ node.Select keys.now values.now ∷ []) }
{
    let keys = keys.copy(alloc)?;
    let values = values.copy(alloc)?;
    Ok(vec![in alloc; Node::Select { keys, values }]?)
}

/// The nodes of a grouping of a stream without a window.
pub fn group_nodes(alloc: Global, keys: &Exprs, aggs: &Aggs) -> Result<Vec<Node>, AllocError>
    ensures { IfOk result (λ nodes. nodes.items ≡ node.Group keys.now ∷ node.Aggregate kind.Stream aggs.now None ∷ []) }
{
    let mut nodes = Vec::new(alloc);
    nodes.push(Node::Group {
        keys: keys.copy(alloc)?,
    })?;
    nodes.push(Node::Aggregate {
        over: Kind::Stream,
        aggs: aggs.copy(alloc)?,
        window: None,
    })?;
    Ok(nodes)
}

/// The nodes after an aggregate: HAVING, if any, and the items.
pub fn after_aggregate(
    alloc: Global,
    having: &Option<Typed>,
    values: &Exprs,
) -> Result<Vec<Node>, AllocError>
    ensures { IfOk result (λ nodes. nodes.items ≡ after_aggregate having.now values.now) }
{
    let mut nodes = Vec::new(alloc);
    if let Some(on) = having {
        nodes.push(Node::Having {
            on: on.copy(alloc)?,
        })?;
    }
    nodes.push(Node::Select {
        keys: Items::of(Vec::new(alloc)),
        values: values.copy(alloc)?,
    })?;
    Ok(nodes)
}

/// What some nodes give for changes.
pub fn through(
    alloc: Global,
    lanes: u32,
    nodes: &[Node],
    changes: Vec<Change>,
) -> Result<Vec<Change>, AllocError>
    requires { AllByRecursion (λ n. IsTrue (is_run n)) nodes.now }
    ensures { IfOk result (λ made. made.items ≡ through (map (gives lanes) nodes.now) (from_side 0 changes.items)) }
{
    let mut changes = changes;
    for node in nodes {
        changes = step(alloc, lanes, node, changes.as_slice())?;
    }
    Ok(changes)
}

/// What a node gives for changes that come in on one side.
fn step(
    alloc: Global,
    lanes: u32,
    node: &Node,
    changes: &[Change],
) -> Result<Vec<Change>, AllocError>
    requires { IsTrue (is_run node.now) }
    ensures { IfOk result (λ made. made.items ≡ results (gives lanes node.now) [] (from_side 0 changes.now)) }
{
    let mut entries = Vec::new(alloc);
    push_entries(&mut entries, 0, changes)?;
    results(alloc, lanes, node, entries.as_slice())
}

/// Appends changes as the entries of a side.
pub fn push_entries<'a>(
    entries: &mut Vec<EntryRef<'a>>,
    side: u32,
    changes: &'a [Change],
) -> Result<(), AllocError>
    ensures { OnOk result (map entry_of entries.new.items ≡ map entry_of entries.old.items ++ from_side side changes.now) }
{
    entries.reserve(changes.len())?;
    for change in changes {
        entries.push(EntryRef { side, change })?;
    }
    Ok(())
}
