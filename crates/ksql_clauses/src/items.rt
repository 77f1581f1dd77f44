//! The columns of a query's result, with their names.

ghost use Rattle.std.specs.Prelude.{◌≡◌, ◌<◌, ◌≤◌, ◌+◌, ◌-◌, ◌^◌, ◌++◌, ◌∷◌, [], List, All, length, map, IfOk, if◌then◌else◌};
ghost use Rattle.std.specs.List.{list_all};
ghost use Rattle.statement_trees.specs.declared.tree.SelectItem.{SelectItem as OneItem};
ghost use Rattle.ksql_clauses.specs.Items as spec;
ghost use Rattle.ksql_scopes.specs.Resolved as names;
ghost use Rattle.ksql_clauses.specs.Sources as sources;

use crate::sources::Known;
use expression_trees::Expr;
use ksql_scopes::{Scope, resolved};
use ksql_types::{Chars, Column, CopyOf};
use statement_trees::{Select, SelectItem};
use std::alloc::{AllocError, Global};

/// A column of a result: its name, and its expression with resolved names.
#[derive(Drop)]
pub struct Named {
    pub name: Chars,
    pub expr: Expr,
}

/// Whether the query reads two relations.
pub fn is_join(known: &[Known]) -> bool
    ensures { result ≡ spec.is_join known.now }
{
    matches!(known, [_, _, ..])
}

/// The name of a column in a join: the alias, `_` and the column's own name.
#[tactic(auto, unfolding(ksql_types::specs::Text::longest_text))]
fn made_name(alloc: Global, alias: &Chars, name: &Chars) -> Result<Chars, AllocError>
    requires alias_is_short { length alias.now ≤ 128 }
    requires name_is_short { length name.now ≤ 128 }
    ensures { IfOk result (λ made. made ≡ spec.made_name alias.now name.now) }
{
    let mut made = String::from_str(alloc, alias.items())?;
    made.push_str("_")?;
    made.push_str(name.items())?;
    Chars::of(made)
}

/// Whether a relation has a column of that name.
fn has_column(name: &Chars, known: &Known) -> bool
    ensures { result ≡ spec.has_column name.now known.now }
{
    let schema = &known.relation.schema;
    is_among(name, schema.keys.items()) || is_among(name, schema.values.items())
}

fn is_among(name: &Chars, columns: &[Column]) -> bool
    ensures { result ≡ spec.is_among name.now columns.now }
{
    columns.iter().any(|column| column.name == *name)
}

/// Whether one of the relations has this alias.
pub fn is_alias(alias: &Chars, known: &[Known]) -> bool
    ensures { result ≡ spec.is_alias alias.now known.now }
{
    known.iter().any(|source| source.alias == *alias)
}

fn is_in_each(name: &Chars, known: &[Known]) -> bool
    ensures { result ≡ list_all (spec.has_column name.now) known.now }
{
    known.iter().all(|source| has_column(name, source))
}

/// The name of a plain column: its own, or with its alias in front if both joined relations have that name.
fn column_name(
    alloc: Global,
    known: &[Known],
    qualifier: &Option<Chars>,
    name: &Chars,
) -> Result<Chars, AllocError>
    requires { spec.IsShortName qualifier.now name.now }
    ensures { IfOk result (λ made. made ≡ spec.column_name known.now qualifier.now name.now) }
{
    match qualifier {
        None => name.copy(alloc),
        Some(alias) => {
            if is_join(known) && is_alias(alias, known) && is_in_each(name, known) {
                return made_name(alloc, alias, name);
            }
            name.copy(alloc)
        }
    }
}

/// The name of an expression without an alias, or None if it isn't a plain column.
fn plain_name(alloc: Global, known: &[Known], expr: &Expr) -> Result<Option<Chars>, AllocError>
    requires { spec.IsShort expr.now }
    ensures { IfOk result (λ name. name ≡ spec.plain_name known.now expr.now) }
{
    match expr {
        Expr::Name { qualifier, name } => Ok(Some(column_name(alloc, known, qualifier, name)?)),
        _ => Ok(None),
    }
}

/// The name of a column that has no other: KSQL_COL_ and its number among such columns.
fn numbered_name(alloc: Global, number: u64) -> Result<Chars, AllocError>
    ensures { IfOk result (λ name. name ≡ spec.numbered_name number) }
{
    Chars::of(format!(in alloc; "KSQL_COL_{number}")?)
}

fn star_column(
    alloc: Global,
    join: bool,
    alias: &Chars,
    column: &Column,
) -> Result<Named, AllocError>
    requires alias_is_short { length alias.now ≤ 128 }
    requires name_is_short { length column.now.name ≤ 128 }
    ensures { IfOk result (λ named. named ≡ spec.star_column join alias.now column.now) }
{
    let name = star_name(alloc, join, alias, &column.name)?;
    let expr = Expr::Name {
        qualifier: Some(alias.copy(alloc)?),
        name: column.name.copy(alloc)?,
    };
    Ok(Named { name, expr })
}

fn star_name(alloc: Global, join: bool, alias: &Chars, name: &Chars) -> Result<Chars, AllocError>
    requires alias_is_short { length alias.now ≤ 128 }
    requires name_is_short { length name.now ≤ 128 }
    ensures { IfOk result (λ made. made ≡ (if join then spec.made_name alias.now name.now else name.now)) }
{
    if join {
        return made_name(alloc, alias, name);
    }
    name.copy(alloc)
}

fn with_columns(
    alloc: Global,
    join: bool,
    alias: &Chars,
    columns: &[Column],
    mut found: Vec<Named>,
) -> Result<Vec<Named>, AllocError>
    requires alias_is_short { length alias.now ≤ 128 }
    requires names_are_short { All (λ c. length c.name ≤ 128) columns.now }
    ensures { IfOk result (λ all. all.items ≡ found.items ++ map (spec.star_column join alias.now) columns.now) }
{
    for column in columns {
        found.push(star_column(alloc, join, alias, column)?)?;
    }
    Ok(found)
}

/// Appends all columns of a relation, key first.
fn with_star(
    alloc: Global,
    known: &[Known],
    source: &Known,
    found: Vec<Named>,
) -> Result<Vec<Named>, AllocError>
    requires { spec.HasShortNames source.now }
    ensures { IfOk result (λ all. all.items ≡ found.items ++ spec.star_of known.now source.now) }
{
    let join = is_join(known);
    let schema = &source.relation.schema;
    let found = with_columns(alloc, join, &source.alias, schema.keys.items(), found)?;
    with_columns(alloc, join, &source.alias, schema.values.items(), found)
}

fn with_all_stars(
    alloc: Global,
    known: &[Known],
    mut found: Vec<Named>,
) -> Result<Vec<Named>, AllocError>
    requires { All spec.HasShortNames known.now }
    ensures { IfOk result (λ all. all.items ≡ found.items ++ spec.all_stars known.now) }
{
    for source in known {
        found = with_star(alloc, known, source, found)?;
    }
    Ok(found)
}

fn with_stars_of(
    alloc: Global,
    alias: &Chars,
    known: &[Known],
    mut found: Vec<Named>,
) -> Result<Vec<Named>, AllocError>
    requires { All spec.HasShortNames known.now }
    ensures { IfOk result (λ all. all.items ≡ found.items ++ spec.stars_of alias.now known.now) }
{
    for source in known {
        if source.alias == *alias {
            found = with_star(alloc, known, source, found)?;
        }
    }
    Ok(found)
}

fn with_named(
    alloc: Global,
    scope: &Scope,
    name: Chars,
    expr: &Expr,
    mut found: Vec<Named>,
) -> Result<Vec<Named>, AllocError>
    ensures { IfOk result (λ all. all.items ≡ found.items ++ spec.named name (names.resolved scope.now expr.now) ∷ []) }
{
    let expr = resolved(alloc, scope, expr)?;
    found.push(Named { name, expr })?;
    Ok(found)
}

/// Appends the column of an expression without an alias, and counts it if it is named by its number.
fn with_plain(
    alloc: Global,
    known: &[Known],
    scope: &Scope,
    number: u64,
    expr: &Expr,
    found: Vec<Named>,
) -> Result<(Vec<Named>, u64), AllocError>
    requires room { number < 2 ^ 64 - 1 }
    requires short { spec.IsShort expr.now }
    ensures counted { IfOk result (λ all. all.1 ≤ number + 1) }
    ensures found { IfOk result (λ all. (rest : List OneItem) → all.0.items ++ spec.named_from scope.now known.now all.1 rest
        ≡ found.items ++ spec.named_from scope.now known.now number (SelectItem.One expr.now None ∷ rest)) }
{
    let plain = plain_name(alloc, known, expr)?;
    match plain {
        Some(name) => Ok((with_named(alloc, scope, name, expr, found)?, number)),
        None => {
            let name = numbered_name(alloc, number)?;
            Ok((with_named(alloc, scope, name, expr, found)?, number + 1))
        }
    }
}

/// Appends the columns of an item, and counts those that are named by their numbers.
fn with_item(
    alloc: Global,
    known: &[Known],
    scope: &Scope,
    number: u64,
    item: &SelectItem,
    found: Vec<Named>,
) -> Result<(Vec<Named>, u64), AllocError>
    requires room { number < 2 ^ 64 - 1 }
    requires short_relations { All spec.HasShortNames known.now }
    requires short_item { spec.IsShortItem item.now }
    ensures counted { IfOk result (λ all. all.1 ≤ number + 1) }
    ensures found { IfOk result (λ all. (rest : List OneItem) → all.0.items ++ spec.named_from scope.now known.now all.1 rest
        ≡ found.items ++ spec.named_from scope.now known.now number (item.now ∷ rest)) }
{
    match item {
        SelectItem::Star => Ok((with_all_stars(alloc, known, found)?, number)),
        SelectItem::StarOf(alias) => Ok((with_stars_of(alloc, alias, known, found)?, number)),
        SelectItem::One { expr, alias } => match alias {
            None => with_plain(alloc, known, scope, number, expr, found),
            Some(alias) => {
                let name = alias.copy(alloc)?;
                Ok((with_named(alloc, scope, name, expr, found)?, number))
            }
        },
    }
}

/// The columns of a query's result, in the order of its items, whose names `scope` resolves. Names have at most 128
/// bytes, except those made of an alias and a name.
pub fn result_columns(
    alloc: Global,
    select: &Select,
    known: &[Known],
    scope: &Scope,
) -> Result<Vec<Named>, AllocError>
    requires of_items { scope.now ≡ sources.item_scope select.now known.now }
    requires short_relations { All spec.HasShortNames known.now }
    requires short_items { All spec.IsShortItem select.now.items }
    ensures { IfOk result (λ columns. columns.items ≡ spec.result_columns select.now known.now) }
{
    let mut found = Vec::new(alloc);
    let mut number = 0;
    for item in select.items.items() {
        let (more, counted) = with_item(alloc, known, scope, number, item, found)?;
        found = more;
        number = counted;
    }
    Ok(found)
}
