//! Which rules a query breaks.

ghost use Rattle.std.specs.Prelude.{◌≡◌, ◌||◌, ◌++◌, IfOk, is_none, length, map, nat_lt};
ghost use Rattle.std.specs.List.{list_any};
ghost use Rattle.ksql_clauses.specs.Items as items;
ghost use Rattle.ksql_clauses.specs.Sources as sources;
ghost use Rattle.ksql_rules.specs.Breaks as spec;
ghost use Rattle.ksql_rules.specs.Findings.{AreFindings};

use crate::findings::Findings;
use crate::topics::{has_bad_topic, query_topic};
use ksql_clauses::{
    Known, Named, are_bad, format_in, have_one_alias, is_alias, is_bad, is_full, is_join,
    is_too_large, is_windowed, joined_streams, reads_stream,
};
use ksql_types::{Chars, Format, are_column_names};
use statement_trees::{Property, Select, SelectItem, WindowText};
use std::alloc::{AllocError, Global};

/// The most columns of a relation.
const MOST_COLUMNS: usize = 64;

/// The most group expressions of a query.
const MOST_GROUPS: usize = 8;

/// The most bytes of a name.
const LONGEST_NAME: usize = 128;

fn has_large_window(window: &Option<WindowText>) -> bool
    ensures { result ≡ spec.has_large_window window.now }
{
    match window {
        None => false,
        Some(window) => is_too_large(window),
    }
}

fn is_long(column: &Named) -> bool
    ensures { result ≡ nat_lt 128 (length column.now.name) }
{
    LONGEST_NAME < column.name.items().len()
}

fn is_one_long(columns: &[Named]) -> bool
    ensures { result ≡ list_any (λ c. nat_lt 128 (length c.name)) columns.now }
{
    columns.iter().any(|column| is_long(column))
}

/// Whether a column name in a join's result, which may be made of an alias and a name, is too long.
fn has_long_name(known: &[Known], columns: &[Named]) -> bool
    ensures { result ≡ spec.has_long_name known.now columns.now }
{
    is_join(known) && is_one_long(columns)
}

/// Whether a query exceeds a limit.
pub fn is_query_too_large(findings: &Findings) -> bool
    requires { AreFindings findings.now }
    ensures { let q = findings.now.select.now in let columns = items.result_columns q findings.now.known.items in
        result ≡ (nat_lt 64 (length columns) || nat_lt 8 (length q.group) || spec.has_large_window q.window
        || spec.has_long_name findings.now.known.items columns) }
{
    MOST_COLUMNS < findings.columns.len()
        || MOST_GROUPS < findings.select.group.items().len()
        || has_large_window(&findings.select.window)
        || has_long_name(&findings.known, &findings.columns)
}

fn is_unknown_star(known: &[Known], item: &SelectItem) -> bool
    ensures { result ≡ spec.is_unknown_star known.now item.now }
{
    match item {
        SelectItem::StarOf(alias) => !is_alias(alias, known),
        _ => false,
    }
}

/// Whether an item `a.*` names no source.
fn has_unknown_star(known: &[Known], items: &[SelectItem]) -> bool
    ensures { result ≡ list_any (spec.is_unknown_star known.now) items.now }
{
    items.iter().any(|item| is_unknown_star(known, item))
}

/// Whether a name or its qualifier isn't in scope.
pub fn has_unknown_column(findings: &Findings) -> bool
    requires { AreFindings findings.now }
    ensures { result ≡ spec.has_unknown_column findings.now.select.now findings.now.known.items }
{
    findings.in_on.unknown
        || findings.in_front.unknown
        || findings.in_late.unknown
        || has_unknown_star(&findings.known, findings.select.items.items())
}

/// Whether an unqualified name is in both relations, or both have the same alias.
pub fn has_ambiguous_column(findings: &Findings) -> bool
    requires { AreFindings findings.now }
    ensures { result ≡ spec.has_ambiguous_column findings.now.select.now findings.now.known.items }
{
    findings.in_on.ambiguous
        || findings.in_front.ambiguous
        || findings.in_late.ambiguous
        || have_one_alias(findings.select)
}

fn with_names<'a>(
    mut found: Vec<&'a Chars>,
    columns: &[&'a Named],
) -> Result<Vec<&'a Chars>, AllocError>
    ensures { IfOk result (λ all. map (λ name. name.now) all.items
        ≡ map (λ name. name.now) found.entry.items ++ map (λ c. c.name) (map (λ c. c.now) columns.now)) }
{
    for column in columns {
        found.push(&column.name)?;
    }
    Ok(found)
}

/// Whether two columns of a result share a name, or one has a reserved name.
pub fn has_bad_names(alloc: Global, findings: &Findings) -> Result<bool, AllocError>
    requires { AreFindings findings.now }
    ensures { IfOk result (λ bad. bad ≡ spec.has_bad_names findings.now.select.now findings.now.known.items) }
{
    let keys = findings.key_columns(alloc)?;
    let values = findings.value_columns(alloc)?;
    let names = with_names(Vec::new(alloc), &keys)?;
    let names = with_names(names, &values)?;
    Ok(!are_column_names(&names))
}

/// Whether a query has GROUP BY.
pub fn is_grouped(select: &Select) -> bool
    ensures { result ≡ spec.is_grouped select.now }
{
    !select.group.items().is_empty()
}

fn makes_table(select: &Select, known: &[Known]) -> bool
    ensures { result ≡ spec.makes_table select.now known.now }
{
    is_grouped(select) || !reads_stream(known)
}

/// Whether a join has a stream on the right of a table, or is FULL between a stream and a table.
fn is_wrong_join(full: bool, sides: Option<(bool, bool)>) -> bool
    ensures { result ≡ spec.is_wrong_join full sides }
{
    match sides {
        None => false,
        Some((left, right)) => (!left && right) || (full && left != right),
    }
}

/// Whether a query is of another kind than its statement, or has a join or PARTITION BY that isn't allowed.
pub fn is_query_wrong(table: bool, select: &Select, known: &[Known]) -> bool
    ensures { result ≡ spec.is_query_wrong table select.now known.now }
{
    table != makes_table(select, known)
        || is_wrong_join(is_full(select), joined_streams(known))
        || (select.partition.is_some() && !reads_stream(known))
}

/// Whether two streams are joined.
pub fn is_stream_join(sides: Option<(bool, bool)>) -> bool
    ensures { result ≡ spec.is_stream_join sides }
{
    match sides {
        None => false,
        Some((left, right)) => left && right,
    }
}

fn has_stream_side(sides: Option<(bool, bool)>) -> bool
    ensures { result ≡ spec.has_stream_side sides }
{
    match sides {
        None => false,
        Some((left, right)) => left || right,
    }
}

/// Whether ON isn't `a = b` of the required form.
pub fn is_not_on_key(findings: &Findings) -> bool
    requires { AreFindings findings.now }
    ensures { result ≡ spec.is_not_on_key findings.now.select.now findings.now.known.items }
{
    is_join(&findings.known)
        && findings.key.is_none()
        && !is_stream_join(joined_streams(&findings.known))
}

fn is_one_missing(places: &[Option<usize>]) -> bool
    ensures { result ≡ list_any is_none places.now }
{
    places.iter().any(|place| place.is_none())
}

/// Whether a result lacks a column that its key needs.
pub fn lacks_key(findings: &Findings) -> bool
    requires { AreFindings findings.now }
    ensures { result ≡ spec.lacks_key findings.now.select.now findings.now.known.items }
{
    let sides = joined_streams(&findings.known);
    !is_stream_join(sides)
        && !(has_stream_side(sides) && is_not_on_key(findings))
        && !(is_grouped(findings.select) && findings.select.partition.is_some())
        && is_one_missing(&findings.places)
}

/// Whether joined relations have different numbers of partitions.
pub fn have_other_partitions(known: &[Known]) -> bool
    ensures { result ≡ spec.have_other_partitions known.now }
{
    match known {
        [left, right, ..] => left.relation.partitions != right.relation.partitions,
        _ => false,
    }
}

/// Whether a window is invalid, or isn't on a grouping of a stream.
pub fn is_bad_window(select: &Select, known: &[Known]) -> bool
    ensures { result ≡ spec.is_bad_window select.now known.now }
{
    match &select.window {
        None => false,
        Some(window) => !is_grouped(select) || !reads_stream(known) || is_bad(window),
    }
}

/// Whether a relation is joined with itself.
pub fn joins_itself(known: &[Known]) -> bool
    ensures { result ≡ spec.joins_itself known.now }
{
    match known {
        [left, right, ..] => left.relation.name == right.relation.name,
        _ => false,
    }
}

/// Whether a query reads a windowed table.
pub fn reads_windowed(known: &[Known]) -> bool
    ensures { result ≡ list_any (λ k. sources.is_windowed k.relation) known.now }
{
    known.iter().any(|source| is_windowed(&source.relation))
}

/// The format of a query's result: its own, or that of its left source.
pub fn result_format(props: &[Property], known: &[Known]) -> Format
    ensures { result ≡ spec.result_format props.now known.now }
{
    match (format_in(props), known) {
        (Some(format), _) => format,
        (None, []) => Format::Json,
        (None, [left, ..]) => left.relation.format,
    }
}

fn is_delimited(format: Format) -> bool
    ensures { result ≡ spec.is_delimited format }
{
    matches!(format, Format::Delimited)
}

/// Whether the properties of a query are wrong.
pub fn is_query_bad(
    alloc: Global,
    name: &Chars,
    props: &[Property],
    findings: &Findings,
) -> Result<bool, AllocError>
    requires { AreFindings findings.now }
    ensures { IfOk result (λ bad. bad ≡ spec.is_query_bad name.now props.now findings.now.select.now findings.now.known.items) }
{
    let values = findings.value_columns(alloc)?;
    let empty = is_delimited(result_format(props, &findings.known)) && values.is_empty();
    Ok(are_bad(props) || has_bad_topic(query_topic(name, props)) || empty)
}
