//! The relation of a query's result.

ghost use Rattle.std.specs.Prelude.{◌≡◌, ◌<◌, ◌^◌, IfOk, Some, codes, if◌then◌else◌, is_some, map, true, unwrap_or};
ghost use Rattle.ksql_clauses.specs.Properties as properties;
ghost use Rattle.ksql_clauses.specs.Keys as keys;
ghost use Rattle.ksql_rules.specs.Findings.{AreFindings};
ghost use Rattle.ksql_analyse.specs.Accepted.{IsAcceptedQuery, IsMade};
ghost use Rattle.ksql_analyse.specs.Judgement as spec;
ghost use Rattle.ksql_analyse.specs.Typable.{AreColumnTrees, IsValue};

use ksql_clauses::{Known, Named, has_topic, partitions_in, reads_stream, topic_in};
use ksql_expr::Typed;
use ksql_program::Shape;
use ksql_rules::{Findings, is_grouped, result_format};
use ksql_types::{Chars, Column, Columns, CopyOf, Items, Kind, Relation, Schema};
use statement_trees::{Property, Select, Statement};
use std::alloc::{AllocError, Global};

/// The relation of a query's result, given the query's shape.
pub(crate) fn result_of(
    alloc: Global,
    number: u32,
    statement: &Statement,
    props: &[Property],
    findings: &Findings,
    shape: &Shape,
) -> Result<Relation, AllocError>
    requires query { IsAcceptedQuery statement.now props.now findings.now }
    requires made { IsMade findings.now.select.now findings.now.known.items shape.now }
    ensures { IfOk result (λ r. spec.IsResult number statement.now props.now findings.now.select.now findings.now.known.items shape.now r) }
{
    let known = &findings.known;
    let schema = schema_of(alloc, findings, shape)?;
    let topic = result_topic(alloc, &statement.name, props)?;
    Ok(Relation {
        number,
        name: statement.name.copy(alloc)?,
        kind: result_kind(findings.select, known),
        schema,
        topic,
        partitions: result_partitions(props, known),
        format: result_format(props, known),
        declared: false,
    })
}

/// The columns of a result with this shape.
fn schema_of(alloc: Global, findings: &Findings, shape: &Shape) -> Result<Schema, AllocError>
    requires found { AreFindings findings.now }
    requires made { IsMade findings.now.select.now findings.now.known.items shape.now }
    ensures keyed { let q = findings.now.select.now in let ks = findings.now.known.items in
        IfOk result (λ s. spec.AreColumnsOf (keys.key_columns q ks) (spec.shape_keys shape.now) s.keys) }
    ensures valued { let q = findings.now.select.now in let ks = findings.now.known.items in
        IfOk result (λ s. spec.AreColumnsOf (keys.value_columns q ks) (spec.shape_values shape.now) s.values) }
{
    let keys = findings.key_columns(alloc)?;
    let values = findings.value_columns(alloc)?;
    match shape {
        Shape::Plain {
            keys: key_trees,
            values: value_trees,
        }
        | Shape::Group {
            keys: key_trees,
            values: value_trees,
            ..
        } => Ok(Schema {
            keys: columns_of(alloc, &keys, key_trees.items())?,
            values: columns_of(alloc, &values, value_trees.items())?,
        }),
    }
}

/// Columns with these names and the types of these trees.
fn columns_of(alloc: Global, named: &[&Named], trees: &[Typed]) -> Result<Columns, AllocError>
    requires { AreColumnTrees (map (λ c. c.now) named.now) trees.now }
    ensures { IfOk result (λ columns. spec.AreColumnsOf (map (λ c. c.now) named.now) trees.now columns) }
{
    let mut columns = Vec::new(alloc);
    for (index, column) in named.iter().enumerate() {
        columns.push(column_of(alloc, &column.name, &trees[index])?)?;
    }
    Ok(Items::of(columns))
}

fn column_of(alloc: Global, name: &Chars, tree: &Typed) -> Result<Column, AllocError>
    requires { IsValue tree.now }
    ensures named { IfOk result (λ c. c.name ≡ name.now) }
    ensures typed { IfOk result (λ c. Some c.ty ≡ tree.now.ty) }
{
    match tree.ty {
        Some(ty) => Ok(Column {
            name: name.copy(alloc)?,
            ty,
        }),
        None => unreachable!(),
    }
}

/// The kind of a query's result.
fn result_kind(select: &Select, known: &[Known]) -> Kind
    ensures { result ≡ spec.result_kind select.now known.now }
{
    let grouped = is_grouped(select);
    if grouped && select.window.is_some() {
        return Kind::Windowed;
    }
    if grouped || !reads_stream(known) {
        return Kind::Table;
    }
    Kind::Stream
}

/// The topic of a query's result.
fn result_topic(alloc: Global, name: &Chars, props: &[Property]) -> Result<Chars, AllocError>
    requires { is_some (properties.value_of (codes "KAFKA_TOPIC") props.now) ≡ true → is_some (properties.topic_in props.now) ≡ true }
    ensures { IfOk result (λ topic. Some topic ≡ (if is_some (properties.value_of (codes "KAFKA_TOPIC") props.now) then properties.topic_in props.now else Some name.now)) }
{
    if !has_topic(props) {
        return name.copy(alloc);
    }
    match topic_in(props) {
        Some(topic) => topic.copy(alloc),
        None => unreachable!(),
    }
}

/// The number of partitions of a query's result: as in its properties, or else that of its left source.
fn result_partitions(props: &[Property], known: &[Known]) -> u32
    requires { unwrap_or (properties.partitions_in props.now) 1 < 2 ^ 32 }
    ensures { result ≡ unwrap_or (properties.partitions_in props.now) (spec.left_partitions known.now) }
{
    match partitions_in(props) {
        Some(partitions) => partitions as u32,
        None => left_partitions(known),
    }
}

fn left_partitions(known: &[Known]) -> u32
    ensures { result ≡ spec.left_partitions known.now }
{
    match known {
        [left, ..] => left.relation.partitions,
        [] => 1,
    }
}
