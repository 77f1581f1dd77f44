//! What a query reads, and what its names can stand for.

ghost use Rattle.std.specs.Prelude.{◌≡◌, ◌==◌, ◌++◌, map, length, option_copied, option_to_list, take, IfOk};
ghost use Rattle.ksql_clauses.specs.Sources as spec;

use ksql_scopes::{Scope, ScopeColumn};
use ksql_types::{Catalog, Chars, Column, CopyOf, Items, Kind, Relation};
use statement_trees::{JoinText, JoinWord, Select, Source};
use std::alloc::{AllocError, Global};

/// A relation that a query reads, and its alias there.
#[derive(Drop)]
pub struct Known {
    pub alias: Chars,
    pub relation: Relation,
}

/// The alias of a source, or else its name.
fn alias_of(source: &Source) -> &Chars
    ensures { result.now ≡ spec.alias_of source.now }
{
    match &source.alias {
        Some(alias) => alias,
        None => &source.name,
    }
}

/// The sources of a query that are in the catalog, in order.
pub fn all_known(
    alloc: Global,
    catalog: &Catalog,
    select: &Select,
) -> Result<Vec<Known>, AllocError>
    ensures { IfOk result (λ found. found.items ≡ spec.all_known catalog.now select.now) }
{
    let found = with_known(alloc, catalog, &select.source, Vec::new(alloc))?;
    match &select.join {
        None => Ok(found),
        Some(join) => with_known(alloc, catalog, &join.source, found),
    }
}

fn with_known(
    alloc: Global,
    catalog: &Catalog,
    source: &Source,
    mut found: Vec<Known>,
) -> Result<Vec<Known>, AllocError>
    ensures { IfOk result (λ all. all.items ≡ found.items ++ spec.known catalog.now source.now) }
{
    if let Some(relation) = catalog.find(&source.name) {
        found.push(Known {
            alias: alias_of(source).copy(alloc)?,
            relation: relation.copy(alloc)?,
        })?;
    }
    Ok(found)
}

/// Whether a source of a query is unknown.
pub fn has_unknown_source(catalog: &Catalog, select: &Select) -> bool
    ensures { result ≡ spec.has_unknown_source catalog.now select.now }
{
    match &select.join {
        None => is_unknown(catalog, &select.source),
        Some(join) => is_unknown(catalog, &select.source) || is_unknown(catalog, &join.source),
    }
}

fn is_unknown(catalog: &Catalog, source: &Source) -> bool
    ensures { result ≡ (length (spec.known catalog.now source.now) == 0) }
{
    catalog.find(&source.name).is_none()
}

/// Whether both sources of a join have the same alias.
pub fn have_one_alias(select: &Select) -> bool
    ensures { result ≡ spec.have_one_alias select.now }
{
    match &select.join {
        None => false,
        Some(join) => alias_of(&select.source) == alias_of(&join.source),
    }
}

/// Whether a relation is a stream.
pub fn is_stream(relation: &Relation) -> bool
    ensures { result ≡ spec.is_stream relation.now }
{
    matches!(relation.kind, Kind::Stream)
}

/// Whether a relation is a table whose rows have a window.
pub fn is_windowed(relation: &Relation) -> bool
    ensures { result ≡ spec.is_windowed relation.now }
{
    matches!(relation.kind, Kind::Windowed)
}

/// Whether a query reads a stream: its left source is one.
pub fn reads_stream(known: &[Known]) -> bool
    ensures { result ≡ spec.reads_stream known.now }
{
    match known {
        [] => false,
        [left, ..] => is_stream(&left.relation),
    }
}

/// For a join, whether its left source is a stream, and whether its right source is; None for any other query.
pub fn joined_streams(known: &[Known]) -> Option<(bool, bool)>
    ensures { result ≡ spec.joined_streams known.now }
{
    match known {
        [left, right, ..] => Some((is_stream(&left.relation), is_stream(&right.relation))),
        _ => None,
    }
}

/// Whether a query is a FULL join.
pub fn is_full(select: &Select) -> bool
    ensures { result ≡ spec.is_full select.now }
{
    match &select.join {
        None => false,
        Some(join) => is_full_join(join),
    }
}

fn is_full_join(join: &JoinText) -> bool
    ensures { result ≡ spec.is_full_word join.now.kind }
{
    matches!(join.kind, JoinWord::Full)
}

/// What names can stand for in WHERE, GROUP BY and PARTITION BY.
pub fn from_scope(alloc: Global, select: &Select, known: &[Known]) -> Result<Scope, AllocError>
    ensures { IfOk result (λ scope. scope ≡ spec.from_scope select.now known.now) }
{
    Ok(Scope {
        columns: Items::of(from_columns(alloc, select, known)?),
        stream: reads_stream(known),
        windowed: false,
    })
}

/// What names can stand for in ON.
pub fn on_scope(alloc: Global, select: &Select, known: &[Known]) -> Result<Scope, AllocError>
    ensures { IfOk result (λ scope. scope ≡ spec.on_scope select.now known.now) }
{
    from_scope(alloc, select, known)
}

/// What names can stand for in the items and in HAVING.
pub fn item_scope(alloc: Global, select: &Select, known: &[Known]) -> Result<Scope, AllocError>
    ensures { IfOk result (λ scope. scope ≡ spec.item_scope select.now known.now) }
{
    Ok(Scope {
        columns: Items::of(from_columns(alloc, select, known)?),
        stream: reads_stream(known),
        windowed: select.window.is_some(),
    })
}

fn from_columns(
    alloc: Global,
    select: &Select,
    known: &[Known],
) -> Result<Vec<ScopeColumn>, AllocError>
    ensures { IfOk result (λ columns. columns.items ≡ spec.from_columns select.now known.now) }
{
    let mut found = Vec::new(alloc);
    for source in known {
        found = with_columns(alloc, source, found)?;
    }
    with_rowkey(alloc, select, known, found)
}

fn with_columns(
    alloc: Global,
    source: &Known,
    found: Vec<ScopeColumn>,
) -> Result<Vec<ScopeColumn>, AllocError>
    ensures { IfOk result (λ all. all.items ≡ found.items ++ spec.scope_columns source.now) }
{
    let found = with_part(
        alloc,
        &source.alias,
        source.relation.schema.keys.items(),
        found,
    )?;
    with_part(
        alloc,
        &source.alias,
        source.relation.schema.values.items(),
        found,
    )
}

fn with_part(
    alloc: Global,
    alias: &Chars,
    columns: &[Column],
    mut found: Vec<ScopeColumn>,
) -> Result<Vec<ScopeColumn>, AllocError>
    ensures { IfOk result (λ all. all.items ≡ found.items ++ map (spec.scope_column alias.now) columns.now) }
{
    for column in columns {
        found.push(ScopeColumn {
            alias: Some(alias.copy(alloc)?),
            column: column.copy(alloc)?,
        })?;
    }
    Ok(found)
}

fn with_rowkey(
    alloc: Global,
    select: &Select,
    known: &[Known],
    mut found: Vec<ScopeColumn>,
) -> Result<Vec<ScopeColumn>, AllocError>
    ensures { IfOk result (λ all. all.items ≡ found.items ++ spec.rowkey select.now known.now) }
{
    if is_full(select) {
        if let Some(key) = first_key(known) {
            found.push(rowkey_of(alloc, key)?)?;
        }
    }
    Ok(found)
}

/// The first key column of the sources.
fn first_key<'a>(known: &'a [Known]) -> Option<&'a Column>
    ensures { option_to_list (option_copied result) ≡ take 1 (spec.key_columns_of known.now) }
{
    let [source, others @ ..] = known else {
        return None;
    };
    match source.relation.schema.keys.items() {
        [key, ..] => Some(key),
        [] => first_key(others),
    }
}

#[tactic(auto, unfolding(ksql_types::specs::Text::longest_text))]
fn rowkey_of(alloc: Global, key: &Column) -> Result<ScopeColumn, AllocError>
    ensures { IfOk result (λ column. column ≡ spec.rowkey_of key.now) }
{
    Ok(ScopeColumn {
        alias: None,
        column: Column {
            name: Chars::of(String::from_str(alloc, "ROWKEY")?)?,
            ty: key.ty,
        },
    })
}
