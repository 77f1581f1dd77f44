//! The changes of queries, given those of the relations that they read.
ghost use Rattle.std.specs.Prelude.{◌≡◌, ◌++◌, [], IfOk, IsTrue, OnOk, length, map};
ghost use Rattle.std.specs.List.{flat_map};
ghost use Rattle.ksql_types.specs.Columns.{columns};
ghost use Rattle.ksql_place.specs.Ascending.{ascending};
ghost use Rattle.ksql_nodes.specs.Entries.{from_side, results, through};
ghost use Rattle.ksql_nodes.specs.TableAggregates.{aggregate_of_table};
ghost use Rattle.reference.specs.Steps.{entry_of};
ghost use Rattle.reference.specs.Windowless.{is_windowless_shape};
ghost use Rattle.reference.specs.Plain.{changes_of, grouping_steps, plain_gives, relation_of_side};
ghost use Rattle.query_meaning.specs.Queries.{changes_at, entry_cmp, join_over, key_columns, kind_at, leftmost, partitions_at, query_changes, shape_steps, side_at, whole_changes};
ghost use Rattle.query_meaning.specs.Parts.{joined_changes};

use crate::entries::EntryRef;
use crate::joins::join_results;
use crate::meaning::Listed;
use crate::plain::plain_changes;
use crate::steps::{
    after_aggregate, filter_nodes, group_nodes, push_entries, said_to, select_nodes, through,
    whole_changes,
};
use crate::table_groups::group_results;
use ksql_expr::{Exprs, Typed};
use ksql_nodes::{Node, Side};
use ksql_place::{Change, cmp_between};
use ksql_program::{Aggs, From, JoinKind, Program, Query, Shape, relation_of};
use ksql_types::{CopyOf, Kind, Relation};
use std::alloc::{AllocError, Global};
use std::cmp::Ordering;

/// The changes of a query's result, given those of the relations before it.
pub fn query_changes(
    alloc: Global,
    program: &Program,
    lists: &[Listed],
    query: &Query,
) -> Result<Vec<Change>, AllocError>
    requires { IsTrue (is_windowless_shape query.now.shape) }
    ensures { IfOk result (λ changes. changes.items ≡ query_changes program.now.items (map changes_of lists.now) query.now) }
{
    match (&query.from, &query.shape) {
        (From::One { relation }, Shape::Plain { keys, values }) => {
            let (keys, values) = (keys.items(), values.items());
            plain_over(
                alloc,
                program,
                lists,
                *relation,
                &query.filter,
                keys,
                values,
            )
        }
        _ => changes_by_steps(alloc, program, lists, query),
    }
}

/// What a query without a grouping gives for the changes of a relation.
fn plain_over(
    alloc: Global,
    program: &Program,
    lists: &[Listed],
    number: u32,
    filter: &Option<Typed>,
    keys: &[Typed],
    values: &[Typed],
) -> Result<Vec<Change>, AllocError>
    ensures { IfOk result (λ changes. changes.items ≡ flat_map (plain_gives (key_columns program.now.items number) filter.now keys.now values.now) (changes_at (map changes_of lists.now) number)) }
{
    let columns = key_columns(program, number);
    match lists.get(number as usize) {
        Some(source) => plain_changes(alloc, columns, filter, keys, values, source),
        None => Ok(Vec::new(alloc)),
    }
}

/// The changes of a query's result, computed step by step over all changes.
fn changes_by_steps(
    alloc: Global,
    program: &Program,
    lists: &[Listed],
    query: &Query,
) -> Result<Vec<Change>, AllocError>
    requires { IsTrue (is_windowless_shape query.now.shape) }
    ensures { IfOk result (λ changes. changes.items ≡ query_changes program.now.items (map changes_of lists.now) query.now) }
{
    let number = leftmost(&query.from);
    let lanes = partitions_of(program, number);
    let joined = joined_changes(alloc, program, lists, &query.from)?;
    let nodes = filter_nodes(alloc, &query.filter)?;
    let filtered = through(alloc, lanes, nodes.as_slice(), joined)?;
    shape_changes(
        alloc,
        lanes,
        kind_of(program, number),
        &query.shape,
        filtered,
    )
}

/// The changes that a query reads: those of its relation, or the joined changes of its two relations.
fn joined_changes(
    alloc: Global,
    program: &Program,
    lists: &[Listed],
    from: &From,
) -> Result<Vec<Change>, AllocError>
    ensures { IfOk result (λ changes. changes.items ≡ joined_changes program.now.items (map changes_of lists.now) from.now) }
{
    match from {
        From::One { relation } => changes_read(alloc, program, lists, *relation),
        From::Join {
            kind,
            left,
            right,
            on,
        } => {
            let nodes = join_nodes(alloc, program, *kind, *left, *right, on)?;
            let lefts = changes_read(alloc, program, lists, *left)?;
            let rights = changes_read(alloc, program, lists, *right)?;
            let entries = merged(alloc, *left, *right, lefts.as_slice(), rights.as_slice())?;
            join_results(alloc, &nodes[0], entries.as_slice())
        }
    }
}

/// The node of a join: of a stream and a table, or of two tables.
fn join_nodes(
    alloc: Global,
    program: &Program,
    kind: JoinKind,
    left: u32,
    right: u32,
    on: &Typed,
) -> Result<Vec<Node>, AllocError>
    ensures { IfOk result (λ nodes. nodes.items ≡ join_over program.now.items kind left right on.now (kind_at program.now.items left)) }
{
    let of_stream = kind_of(program, left) == Kind::Stream;
    let left = side_of(program, left)?;
    let right = side_of(program, right)?;
    let nodes = if of_stream {
        let on = on.copy(alloc)?;
        vec![in alloc;
            Node::JoinStreamTable {
                kind,
                on,
                left,
                right
            },
        ]?
    } else {
        vec![in alloc; Node::JoinTables { kind, left, right }]?
    };
    Ok(nodes)
}

/// A side of a join. Fails with out of memory for a relation with 2^32 or more columns, which no script makes.
fn side_of(program: &Program, number: u32) -> Result<Side, AllocError>
    ensures { IfOk result (λ side. side ≡ side_at program.now.items number) }
{
    let count = match program.items.items().get(number as usize) {
        Some(item) => columns_of(relation_of(item))?,
        None => 0,
    };
    Ok(Side {
        relation: number,
        columns: count,
    })
}

/// The changes of two relations as the entries of a join: in the order of their places, the left ones on side 0.
fn merged<'a>(
    alloc: Global,
    left: u32,
    right: u32,
    lefts: &'a [Change],
    rights: &'a [Change],
) -> Result<Vec<EntryRef<'a>>, AllocError>
    ensures { IfOk result (λ entries. map entry_of entries.items ≡ ascending (entry_cmp left right) (from_side 0 lefts.now ++ from_side 1 rights.now)) }
{
    let mut entries = Vec::new(alloc);
    push_entries(&mut entries, 0, lefts)?;
    push_entries(&mut entries, 1, rights)?;
    sort_entries(left, right, &mut entries)?;
    Ok(entries)
}

/// Sorts the entries of a join by their places. Takes O(n log n) steps.
fn sort_entries(left: u32, right: u32, entries: &mut Vec<EntryRef>) -> Result<(), AllocError>
    ensures { OnOk result (map entry_of entries.new.items ≡ ascending (entry_cmp left right) (map entry_of entries.old.items)) }
{
    entries.sort_by(|a, b| cmp_entry(left, right, a, b))
}

/// Compares two entries of a join: by place, those of two relations by the relations' numbers.
fn cmp_entry(left: u32, right: u32, a: &EntryRef, b: &EntryRef) -> Ordering
    ensures { result ≡ entry_cmp left right (entry_of a.now) (entry_of b.now) }
{
    let first = relation_of_side(left, right, a.side);
    let second = relation_of_side(left, right, b.side);
    cmp_between(&a.change.place, first, &b.change.place, second)
}

/// The relation on a side of a join.
fn relation_of_side(left: u32, right: u32, side: u32) -> u32
    ensures { result ≡ relation_of_side left right side }
{
    if side == 0 { left } else { right }
}

/// What a query's shape makes of the changes that passed WHERE, over a relation of this kind.
fn shape_changes(
    alloc: Global,
    lanes: u32,
    over: Kind,
    shape: &Shape,
    changes: Vec<Change>,
) -> Result<Vec<Change>, AllocError>
    requires { IsTrue (is_windowless_shape shape.now) }
    ensures { IfOk result (λ made. made.items ≡ through (shape_steps lanes over shape.now) (from_side 0 changes.items)) }
{
    match shape {
        Shape::Plain { keys, values } => {
            let nodes = select_nodes(alloc, keys, values)?;
            through(alloc, lanes, nodes.as_slice(), changes)
        }
        Shape::Group {
            keys,
            aggs,
            having,
            values,
            ..
        } => {
            let grouped = grouped_changes(alloc, lanes, over, keys, aggs, changes)?;
            let nodes = after_aggregate(alloc, having, values)?;
            through(alloc, lanes, nodes.as_slice(), grouped)
        }
    }
}

/// The changes of groups without a window, over a relation of this kind.
fn grouped_changes(
    alloc: Global,
    lanes: u32,
    over: Kind,
    keys: &Exprs,
    aggs: &Aggs,
    changes: Vec<Change>,
) -> Result<Vec<Change>, AllocError>
    ensures { IfOk result (λ made. made.items ≡ through (grouping_steps lanes over keys.now aggs.now) (from_side 0 changes.items)) }
{
    match over {
        Kind::Stream => {
            let nodes = group_nodes(alloc, keys, aggs)?;
            through(alloc, lanes, nodes.as_slice(), changes)
        }
        Kind::Table | Kind::Windowed => table_group_changes(alloc, keys, aggs, changes.as_slice()),
    }
}

/// The changes of the groups of a table.
fn table_group_changes(
    alloc: Global,
    keys: &Exprs,
    aggs: &Aggs,
    changes: &[Change],
) -> Result<Vec<Change>, AllocError>
    ensures { IfOk result (λ made. made.items ≡ results (aggregate_of_table keys.now aggs.now) [] (from_side 0 changes.now)) }
{
    let mut entries = Vec::new(alloc);
    push_entries(&mut entries, 0, changes)?;
    group_results(alloc, keys.items(), aggs.items(), entries.as_slice())
}

/// The changes of a relation, with whole rows.
fn changes_read(
    alloc: Global,
    program: &Program,
    lists: &[Listed],
    number: u32,
) -> Result<Vec<Change>, AllocError>
    ensures { IfOk result (λ changes. changes.items ≡ whole_changes program.now.items (map changes_of lists.now) number) }
{
    let columns = key_columns(program, number);
    match lists.get(number as usize) {
        Some(Listed::Lent { number, order }) => {
            let said = said_to(alloc, Kind::Stream, *number, order)?;
            whole_changes(alloc, columns, said.as_slice())
        }
        Some(Listed::Made(changes)) => whole_changes(alloc, columns, changes.items()),
        None => Ok(Vec::new(alloc)),
    }
}

/// The leftmost relation that a query reads.
fn leftmost(from: &From) -> u32
    ensures { result ≡ leftmost from.now }
{
    match from {
        From::One { relation } => *relation,
        From::Join { left, .. } => *left,
    }
}

/// The kind of a relation.
fn kind_of(program: &Program, number: u32) -> Kind
    ensures { result ≡ kind_at program.now.items number }
{
    match program.items.items().get(number as usize) {
        Some(item) => relation_of(item).kind,
        None => Kind::Stream,
    }
}

/// The partitions of a relation.
fn partitions_of(program: &Program, number: u32) -> u32
    ensures { result ≡ partitions_at program.now.items number }
{
    match program.items.items().get(number as usize) {
        Some(item) => relation_of(item).partitions,
        None => 1,
    }
}

/// The number of key columns of a relation.
fn key_columns(program: &Program, number: u32) -> usize
    ensures { result ≡ key_columns program.now.items number }
{
    match program.items.items().get(number as usize) {
        Some(item) => relation_of(item).schema.keys.items().len(),
        None => 0,
    }
}

/// The number of columns of a relation. Fails with out of memory for 2^32 or more.
fn columns_of(relation: &Relation) -> Result<u32, AllocError>
    ensures { IfOk result (λ count. count ≡ length (columns relation.now)) }
{
    let (keys, values) = (relation.schema.keys.items(), relation.schema.values.items());
    let count = keys.len() as u128 + values.len() as u128;
    u32::try_from(count).map_err(|_| AllocError)
}
