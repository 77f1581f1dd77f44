//! The relation of a declaration.

ghost use Rattle.std.specs.Prelude.{◌≡◌, ◌<◌, ◌^◌, [], filter, map, not, option_copied, unwrap_or, IfOk};
ghost use Rattle.ksql_clauses.specs.Properties.{format_in, partitions_in, topic_in};
ghost use Rattle.ksql_rules.specs.Breaks.{is_key};
ghost use Rattle.ksql_analyse.specs.Judgement as spec;

use ksql_clauses::{format_in, partitions_in, topic_in};
use ksql_types::{Chars, Column, CopyOf, Format, Items, Kind, Relation, Schema};
use statement_trees::{ColumnText, KeyMark, Property, Statement};
use std::alloc::{AllocError, Global};

/// The relation declared by these columns and properties.
pub(crate) fn declared_relation(
    alloc: Global,
    number: u32,
    statement: &Statement,
    columns: &[ColumnText],
    props: &[Property],
) -> Result<Relation, AllocError>
    requires { unwrap_or (partitions_in props.now) 1 < 2 ^ 32 }
    ensures { IfOk result (λ r. r ≡ spec.declared_relation number statement.now columns.now props.now) }
{
    let schema = schema_of(alloc, columns)?;
    let topic = topic_or_empty(alloc, topic_in(props))?;
    Ok(Relation {
        number,
        name: statement.name.copy(alloc)?,
        kind: kind_of(statement.table),
        schema,
        topic,
        partitions: partitions_in(props).unwrap_or(1) as u32,
        format: format_in(props).unwrap_or(Format::Json),
        declared: true,
    })
}

fn kind_of(table: bool) -> Kind
    ensures { result ≡ spec.kind_of table }
{
    if table { Kind::Table } else { Kind::Stream }
}

/// A copy of a topic, or the empty text.
#[tactic(auto, unfolding(ksql_types::specs::Text::longest_text))]
fn topic_or_empty(alloc: Global, topic: Option<&Chars>) -> Result<Chars, AllocError>
    ensures { IfOk result (λ copied. copied ≡ unwrap_or (option_copied topic.entry) []) }
{
    match topic {
        Some(topic) => topic.copy(alloc),
        None => Chars::of(String::new(alloc)),
    }
}

/// The columns of a declaration: its key columns, and the others.
fn schema_of(alloc: Global, columns: &[ColumnText]) -> Result<Schema, AllocError>
    ensures { IfOk result (λ schema. schema ≡ record {
      keys = map spec.column_of (filter is_key columns.now);
      values = map spec.column_of (filter (λ c. not (is_key c)) columns.now);
    }) }
{
    let mut keys = Vec::new(alloc);
    let mut values = Vec::new(alloc);
    for column in columns {
        let copied = column_of(alloc, column)?;
        if is_key(column) {
            keys.push(copied)?;
        } else {
            values.push(copied)?;
        }
    }
    Ok(Schema {
        keys: Items::of(keys),
        values: Items::of(values),
    })
}

fn column_of(alloc: Global, column: &ColumnText) -> Result<Column, AllocError>
    ensures { IfOk result (λ made. made ≡ spec.column_of column.now) }
{
    Ok(Column {
        name: column.name.copy(alloc)?,
        ty: column.ty,
    })
}

fn is_key(column: &ColumnText) -> bool
    ensures { result ≡ is_key column.now }
{
    match column.mark {
        KeyMark::Plain => false,
        KeyMark::Key | KeyMark::PrimaryKey => true,
    }
}
