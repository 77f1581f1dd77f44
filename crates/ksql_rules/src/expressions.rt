//! The expressions of a query.

ghost use Rattle.std.specs.Prelude.{◌≡◌, ◌++◌, IfOk, map, option_map};
ghost use Rattle.std.specs.List.{flat_map};
ghost use Rattle.ksql_scopes.specs.Resolved as names;
ghost use Rattle.ksql_clauses.specs.Sources as sources;

use expression_trees::Expr;
use ksql_scopes::{Scope, resolved};
use ksql_types::Boxed;
use statement_trees::{Select, SelectItem};
use std::alloc::{AllocError, Global};

fn with_part<'a>(
    mut found: Vec<&'a Expr>,
    part: &'a Option<Expr>,
) -> Result<Vec<&'a Expr>, AllocError>
    ensures { IfOk result (λ all. map (λ a. a.now) all.items ≡ map (λ a. a.now) found.entry.items ++ sources.there part.now) }
{
    if let Some(expr) = part {
        found.push(expr)?;
    }
    Ok(found)
}

fn with_each<'a>(mut found: Vec<&'a Expr>, exprs: &'a [Expr]) -> Result<Vec<&'a Expr>, AllocError>
    ensures { IfOk result (λ all. map (λ a. a.now) all.items ≡ map (λ a. a.now) found.entry.items ++ exprs.now) }
{
    for expr in exprs {
        found.push(expr)?;
    }
    Ok(found)
}

/// The expression of ON, if any.
pub fn on_exprs<'a>(alloc: Global, select: &'a Select) -> Result<Vec<&'a Expr>, AllocError>
    ensures { IfOk result (λ all. map (λ a. a.now) all.items ≡ sources.on_exprs select.now) }
{
    let mut found = Vec::new(alloc);
    if let Some(join) = &select.join {
        found.push(&join.on)?;
    }
    Ok(found)
}

fn with_front<'a>(found: Vec<&'a Expr>, select: &'a Select) -> Result<Vec<&'a Expr>, AllocError>
    ensures { IfOk result (λ all. map (λ a. a.now) all.items ≡ map (λ a. a.now) found.entry.items ++ sources.front_exprs select.now) }
{
    let found = with_part(found, &select.filter)?;
    let found = with_each(found, select.group.items())?;
    with_part(found, &select.partition)
}

/// The expressions of WHERE, GROUP BY and PARTITION BY.
pub fn front_exprs<'a>(alloc: Global, select: &'a Select) -> Result<Vec<&'a Expr>, AllocError>
    ensures { IfOk result (λ all. map (λ a. a.now) all.items ≡ sources.front_exprs select.now) }
{
    with_front(Vec::new(alloc), select)
}

/// The expressions of a query except those of its items and HAVING.
pub fn early_exprs<'a>(alloc: Global, select: &'a Select) -> Result<Vec<&'a Expr>, AllocError>
    ensures { IfOk result (λ all. map (λ a. a.now) all.items ≡ sources.early_exprs select.now) }
{
    with_front(on_exprs(alloc, select)?, select)
}

fn item_exprs<'a>(alloc: Global, items: &'a [SelectItem]) -> Result<Vec<&'a Expr>, AllocError>
    ensures { IfOk result (λ all. map (λ a. a.now) all.items ≡ flat_map sources.item_exprs items.now) }
{
    let mut found = Vec::new(alloc);
    for item in items {
        if let SelectItem::One { expr, .. } = item {
            found.push(expr)?;
        }
    }
    Ok(found)
}

/// The expressions of a query's items and of HAVING.
pub fn late_exprs<'a>(alloc: Global, select: &'a Select) -> Result<Vec<&'a Expr>, AllocError>
    ensures { IfOk result (λ all. map (λ a. a.now) all.items ≡ sources.late_exprs select.now) }
{
    let found = item_exprs(alloc, select.items.items())?;
    with_part(found, &select.having)
}

/// The expressions with resolved names.
pub fn each_resolved(alloc: Global, scope: &Scope, exprs: &[Expr]) -> Result<Vec<Expr>, AllocError>
    ensures { IfOk result (λ each. each.items ≡ map (names.resolved scope.now) exprs.now) }
{
    let mut each = Vec::new(alloc);
    for expr in exprs {
        each.push(resolved(alloc, scope, expr)?)?;
    }
    Ok(each)
}

/// An optional part, with resolved names.
pub fn part_resolved(
    alloc: Global,
    scope: &Scope,
    part: &Option<Expr>,
) -> Result<Option<Boxed<Expr>>, AllocError>
    ensures { IfOk result (λ found. found ≡ option_map (names.resolved scope.now) part.now) }
{
    match part {
        None => Ok(None),
        Some(expr) => Ok(Some(Boxed::of(alloc, resolved(alloc, scope, expr)?)?)),
    }
}
