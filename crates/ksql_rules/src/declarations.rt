//! Which rules a declaration breaks.

ghost use Rattle.std.specs.Prelude.{◌≡◌, ◌↔◌, IfOk, IsTrue, filter, length, map, not, unwrap_or};
ghost use Rattle.std.specs.List.{list_any};
ghost use Rattle.ksql_clauses.specs.Properties as properties;
ghost use Rattle.ksql_types.specs.Names as names;
ghost use Rattle.ksql_rules.specs.Breaks as spec;

use crate::topics::{has_bad_topic, has_many_partitions, is_taken};
use ksql_clauses::{are_bad, format_in, topic_in};
use ksql_types::{Catalog, Chars, Code, Format, are_column_names};
use statement_trees::{ColumnText, KeyMark, Property, Statement};
use std::alloc::{AllocError, Global};

/// The most columns of a relation.
const MOST_COLUMNS: usize = 64;

fn has_wrong_mark(table: bool, column: &ColumnText) -> bool
    ensures { result ≡ spec.has_wrong_mark table column.now }
{
    match column.mark {
        KeyMark::Plain => false,
        KeyMark::Key => table,
        KeyMark::PrimaryKey => !table,
    }
}

/// Whether a column has KEY or PRIMARY KEY.
fn is_key(column: &ColumnText) -> bool
    ensures { result ≡ spec.is_key column.now }
{
    match column.mark {
        KeyMark::Plain => false,
        KeyMark::Key | KeyMark::PrimaryKey => true,
    }
}

fn is_primary(column: &ColumnText) -> bool
    ensures { result ≡ spec.is_primary column.now }
{
    matches!(column.mark, KeyMark::PrimaryKey)
}

/// Whether a table's column has KEY, or a stream's column PRIMARY KEY.
fn has_wrong_marks(table: bool, columns: &[ColumnText]) -> bool
    ensures { result ≡ list_any (spec.has_wrong_mark table) columns.now }
{
    columns.iter().any(|column| has_wrong_mark(table, column))
}

fn has_primary(columns: &[ColumnText]) -> bool
    ensures { result ≡ list_any spec.is_primary columns.now }
{
    columns.iter().any(|column| is_primary(column))
}

fn key_count(columns: &[ColumnText]) -> usize
    ensures { result ≡ length (filter spec.is_key columns.now) }
{
    columns.iter().filter(|column| is_key(column)).count()
}

fn names_of<'a>(alloc: Global, columns: &'a [ColumnText]) -> Result<Vec<&'a Chars>, AllocError>
    ensures { IfOk result (λ found. map (λ name. name.now) found.items ≡ map (λ c. c.name) columns.now) }
{
    let mut found = Vec::new(alloc);
    for column in columns {
        found.push(&column.name)?;
    }
    Ok(found)
}

/// Whether two columns share a name, or one has a reserved name.
fn has_bad_names(alloc: Global, columns: &[ColumnText]) -> Result<bool, AllocError>
    ensures { IfOk result (λ bad. bad ≡ not (names.are_column_names (map (λ c. c.name) columns.now))) }
{
    Ok(!are_column_names(&names_of(alloc, columns)?))
}

fn has_only_keys(columns: &[ColumnText]) -> bool
    ensures { result ≡ spec.has_only_keys columns.now }
{
    columns.iter().all(|column| is_key(column))
}

fn is_delimited(props: &[Property]) -> bool
    ensures { result ≡ spec.is_delimited (unwrap_or (properties.format_in props.now) Format.Json) }
{
    matches!(format_in(props), Some(Format::Delimited))
}

fn is_declaration_bad(columns: &[ColumnText], props: &[Property]) -> bool
    ensures { result ≡ spec.is_declaration_bad columns.now props.now }
{
    are_bad(props)
        || has_bad_topic(topic_in(props))
        || (is_delimited(props) && has_only_keys(columns))
}

/// Whether a declaration breaks the rule of a code.
pub fn declaration_breaks(
    alloc: Global,
    catalog: &Catalog,
    statement: &Statement,
    columns: &[ColumnText],
    props: &[Property],
    code: Code,
) -> Result<bool, AllocError>
    ensures { IfOk result (λ broken. IsTrue broken ↔ spec.DeclarationBreaks catalog.now statement.now columns.now props.now code) }
{
    match code {
        Code::TooLarge => Ok(MOST_COLUMNS < columns.len() || has_many_partitions(props)),
        Code::NameTaken => Ok(is_taken(catalog, statement)),
        Code::DuplicateColumn => has_bad_names(alloc, columns),
        Code::WrongKind => Ok(has_wrong_marks(statement.table, columns)),
        Code::KeyMissing => Ok(statement.table && !has_primary(columns)),
        Code::Unsupported => Ok(1 < key_count(columns)),
        Code::BadProperty => Ok(is_declaration_bad(columns, props)),
        _ => Ok(false),
    }
}
