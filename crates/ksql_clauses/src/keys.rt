//! The key of a query's result.

ghost use Rattle.std.specs.Prelude.{◌≡◌, ◌++◌, ◌∷◌, [], IfOk, None, Some, codes, map, option_and_then, option_copied, option_map, slice_get};
ghost use Rattle.std.specs.List.{list_any};
ghost use Rattle.ksql_scopes.specs.Resolved as names;
ghost use Rattle.ksql_clauses.specs.Sources as sources;
ghost use Rattle.ksql_clauses.specs.Keys as spec;

use crate::items::Named;
use crate::left_names::{Sought, has_name};
use crate::sources::{Known, is_stream};
use expression_trees::{Expr, same_expr};
use ksql_scopes::{Scope, resolved};
use ksql_types::{BinaryOp, Boxed, Chars, Column, CopyOf};
use statement_trees::{JoinWord, Select};
use std::alloc::{AllocError, Global};

/// The two sides of `a = b`.
pub fn on_sides(on: &Expr) -> Option<(&Expr, &Expr)>
    ensures { option_map (λ sides. (sides.0.now, sides.1.now)) result ≡ spec.on_sides on.now }
{
    match on {
        Expr::Binary {
            op: BinaryOp::Eq,
            left,
            right,
        } => Some((left.get(), right.get())),
        _ => None,
    }
}

/// A column of the relation with this alias, as an expression.
fn column_expr(alloc: Global, alias: &Chars, column: &Column) -> Result<Expr, AllocError>
    ensures { IfOk result (λ key. key ≡ Expr.Name (Some alias.now) column.now.name) }
{
    let alias = alias.copy(alloc)?;
    let name = column.name.copy(alloc)?;
    Ok(Expr::Name {
        qualifier: Some(alias),
        name,
    })
}

/// Whether an expression is a relation's only key column.
fn is_only_key(alloc: Global, scope: &Scope, known: &Known, expr: &Expr) -> Result<bool, AllocError>
    ensures { IfOk result (λ only. only ≡ spec.is_only_key scope.now known.now expr.now) }
{
    match known.relation.schema.keys.items() {
        [key] => {
            let key = Boxed::of(alloc, column_expr(alloc, &known.alias, key)?)?;
            let expr = Boxed::of(alloc, resolved(alloc, scope, expr)?)?;
            Ok(same_expr(expr.get(), key.get()))
        }
        _ => Ok(false),
    }
}

/// Whether an expression has at least one column, and only columns of the left relation.
fn is_of_left(scope: &Scope, left: &Known, expr: &Expr) -> bool
    ensures { result ≡ spec.is_of_left scope.now left.now expr.now }
{
    has_name(Sought::Any, expr) && !has_name(Sought::Other(scope, left), expr)
}

fn is_left_side(alloc: Global, scope: &Scope, left: &Known, expr: &Expr) -> Result<bool, AllocError>
    ensures { IfOk result (λ side. side ≡ spec.is_left_side scope.now left.now expr.now) }
{
    if is_stream(&left.relation) {
        return Ok(is_of_left(scope, left, expr));
    }
    is_only_key(alloc, scope, left, expr)
}

/// Whether the two sides are the left side's key and the right relation's key.
fn are_sides(
    alloc: Global,
    scope: &Scope,
    left: &Known,
    right: &Known,
    a: &Expr,
    b: &Expr,
) -> Result<bool, AllocError>
    ensures { IfOk result (λ sides. sides ≡ spec.are_sides scope.now left.now right.now a.now b.now) }
{
    let left_is = is_left_side(alloc, scope, left, a)?;
    let right_is = is_only_key(alloc, scope, right, b)?;
    Ok(left_is && right_is)
}

/// The two sides of ON, the left relation's first, if they have the required form in either order.
fn key_sides<'a>(
    alloc: Global,
    scope: &Scope,
    left: &Known,
    right: &Known,
    a: &'a Expr,
    b: &'a Expr,
) -> Result<Option<(&'a Expr, &'a Expr)>, AllocError>
    ensures { IfOk result (λ key. option_map (λ sides. (sides.0.now, sides.1.now)) key
        ≡ spec.key_sides scope.now left.now right.now (Some (a.now, b.now))) }
{
    if are_sides(alloc, scope, left, right, a, b)? {
        return Ok(Some((a, b)));
    }
    if are_sides(alloc, scope, left, right, b, a)? {
        return Ok(Some((b, a)));
    }
    Ok(None)
}

/// The key of a join: both sides of ON, the left relation's first, if ON is `a = b` of the required form. `scope` is
/// ON's.
pub fn join_key<'a>(
    alloc: Global,
    on_scope: &Scope,
    select: &'a Select,
    known: &[Known],
) -> Result<Option<(&'a Expr, &'a Expr)>, AllocError>
    requires { on_scope.now ≡ sources.on_scope select.now known.now }
    ensures { IfOk result (λ key. option_map (λ sides. (sides.0.now, sides.1.now)) key ≡ spec.join_key select.now known.now) }
{
    let [left, right, ..] = known else {
        return Ok(None);
    };
    let Some(join) = &select.join else {
        return Ok(None);
    };
    match on_sides(&join.on) {
        None => Ok(None),
        Some((a, b)) => key_sides(alloc, on_scope, left, right, a, b),
    }
}

/// A list of one expression.
fn alone(alloc: Global, expr: Expr) -> Result<Vec<Expr>, AllocError>
    ensures { IfOk result (λ one. one.items ≡ expr ∷ []) }
{
    let mut one = Vec::new(alloc);
    one.push(expr)?;
    Ok(one)
}

/// A list of one expression for each of `exprs`, with resolved names.
fn resolved_alone(
    alloc: Global,
    scope: &Scope,
    exprs: &[Expr],
) -> Result<Vec<Vec<Expr>>, AllocError>
    ensures { IfOk result (λ each. map (λ es. es.items) each.items ≡ spec.alone (map (names.resolved scope.now) exprs.now)) }
{
    let mut each = Vec::new(alloc);
    for expr in exprs {
        each.push(alone(alloc, resolved(alloc, scope, expr)?)?)?;
    }
    Ok(each)
}

/// A list of one expression for each key column of a relation.
fn each_key(alloc: Global, known: &Known) -> Result<Vec<Vec<Expr>>, AllocError>
    ensures { IfOk result (λ each. map (λ es. es.items) each.items ≡ spec.alone (spec.key_exprs known.now)) }
{
    let mut each = Vec::new(alloc);
    for key in known.relation.schema.keys.items() {
        each.push(alone(alloc, column_expr(alloc, &known.alias, key)?)?)?;
    }
    Ok(each)
}

/// For each key column of the left relation, that column and the right relation's key column at the same index, if any.
fn beside(alloc: Global, left: &Known, right: &Known) -> Result<Vec<Vec<Expr>>, AllocError>
    ensures { IfOk result (λ each. map (λ es. es.items) each.items ≡ spec.beside (spec.key_exprs left.now) (spec.key_exprs right.now)) }
{
    let mut each = Vec::new(alloc);
    let mut others = right.relation.schema.keys.items();
    for key in left.relation.schema.keys.items() {
        let one = alone(alloc, column_expr(alloc, &left.alias, key)?)?;
        let Some((other, more)) = others.split_first() else {
            each.push(one)?;
            continue;
        };
        each.push(with(one, column_expr(alloc, &right.alias, other)?)?)?;
        others = more;
    }
    Ok(each)
}

fn with(mut exprs: Vec<Expr>, expr: Expr) -> Result<Vec<Expr>, AllocError>
    ensures { IfOk result (λ all. all.items ≡ exprs.items ++ expr ∷ []) }
{
    exprs.push(expr)?;
    Ok(exprs)
}

#[tactic(auto, unfolding(ksql_types::specs::Text::longest_text))]
fn rowkey(alloc: Global) -> Result<Expr, AllocError>
    ensures { IfOk result (λ key. key ≡ Expr.Name None (codes "ROWKEY")) }
{
    let name = Chars::of(String::from_str(alloc, "ROWKEY")?)?;
    Ok(Expr::Name {
        qualifier: None,
        name,
    })
}

/// The key columns that a join of two tables needs.
fn tables_need(
    alloc: Global,
    word: JoinWord,
    left: &Known,
    right: &Known,
) -> Result<Vec<Vec<Expr>>, AllocError>
    ensures { IfOk result (λ needs. map (λ es. es.items) needs.items ≡ spec.tables_need word left.now right.now) }
{
    match word {
        JoinWord::Inner => beside(alloc, left, right),
        JoinWord::Left => each_key(alloc, left),
        JoinWord::Full => {
            let mut needs = Vec::new(alloc);
            needs.push(alone(alloc, rowkey(alloc)?)?)?;
            Ok(needs)
        }
    }
}

/// The key columns that a join of a stream and a table needs, given the stream's side of ON.
fn stream_needs(
    alloc: Global,
    word: JoinWord,
    right: &Known,
    side: Expr,
) -> Result<Vec<Vec<Expr>>, AllocError>
    ensures { IfOk result (λ needs. map (λ es. es.items) needs.items ≡ spec.stream_needs word right.now (Some side)) }
{
    let mut one = alone(alloc, side)?;
    if matches!(word, JoinWord::Inner) {
        for key in right.relation.schema.keys.items() {
            one.push(column_expr(alloc, &right.alias, key)?)?;
        }
    }
    let mut needs = Vec::new(alloc);
    needs.push(one)?;
    Ok(needs)
}

/// The key columns that a query without GROUP BY and PARTITION BY needs, given the key of its join. `on_scope` is ON's.
fn sources_need(
    alloc: Global,
    on_scope: &Scope,
    select: &Select,
    known: &[Known],
    key: Option<(&Expr, &Expr)>,
) -> Result<Vec<Vec<Expr>>, AllocError>
    requires of_on { on_scope.now ≡ sources.on_scope select.now known.now }
    requires key { option_map (λ sides. (sides.0.now, sides.1.now)) key ≡ spec.join_key select.now known.now }
    ensures { IfOk result (λ needs. map (λ es. es.items) needs.items ≡ spec.sources_need select.now known.now) }
{
    match known {
        [] => Ok(Vec::new(alloc)),
        [source] => each_key(alloc, source),
        [left, right, ..] => {
            let Some(join) = &select.join else {
                return Ok(Vec::new(alloc));
            };
            if !is_stream(&left.relation) {
                return tables_need(alloc, join.kind, left, right);
            }
            match key {
                None => Ok(Vec::new(alloc)),
                Some((side, _)) => {
                    stream_needs(alloc, join.kind, right, resolved(alloc, on_scope, side)?)
                }
            }
        }
    }
}

/// For each key column of a query's result, the expressions that can fill it: one of them has to stand among the items.
/// `key` is the key of the query's join, if any.
pub fn needs(
    alloc: Global,
    scope: &Scope,
    on_scope: &Scope,
    select: &Select,
    known: &[Known],
    key: Option<(&Expr, &Expr)>,
) -> Result<Vec<Vec<Expr>>, AllocError>
    requires of_from { scope.now ≡ sources.from_scope select.now known.now }
    requires of_on { on_scope.now ≡ sources.on_scope select.now known.now }
    requires key { option_map (λ sides. (sides.0.now, sides.1.now)) key ≡ spec.join_key select.now known.now }
    ensures { IfOk result (λ needs. map (λ es. es.items) needs.items ≡ spec.needs select.now known.now) }
{
    if !select.group.items().is_empty() {
        return resolved_alone(alloc, scope, select.group.items());
    }
    match &select.partition {
        None => sources_need(alloc, on_scope, select, known, key),
        Some(partition) => {
            let mut needs = Vec::new(alloc);
            needs.push(alone(alloc, resolved(alloc, scope, partition)?)?)?;
            Ok(needs)
        }
    }
}

/// Whether a result column is one of the expressions.
fn is_one_of(exprs: &[Expr], column: &Named) -> bool
    ensures { result ≡ spec.is_one_of exprs.now column.now }
{
    exprs.iter().any(|expr| same_expr(&column.expr, expr))
}

/// The index of the first result column that is one of the expressions.
fn first_of(exprs: &[Expr], columns: &[Named]) -> Option<usize>
    ensures { result ≡ spec.first_of exprs.now columns.now }
{
    columns.iter().position(|column| is_one_of(exprs, column))
}

/// For each needed key column, its index among the result's columns, or None if it is missing.
pub fn key_places(
    alloc: Global,
    needs: &[Vec<Expr>],
    columns: &[Named],
) -> Result<Vec<Option<usize>>, AllocError>
    ensures { IfOk result (λ places. places.items ≡ map (λ es. spec.first_of es columns.now) (map (λ es. es.items) needs.now)) }
{
    let mut places = Vec::new(alloc);
    for exprs in needs {
        places.push(first_of(exprs, columns))?;
    }
    Ok(places)
}

fn column_at(columns: &[Named], place: Option<usize>) -> Option<&Named>
    ensures { option_copied result ≡ option_and_then (slice_get columns.now) place }
{
    match place {
        None => None,
        Some(number) => columns.get(number),
    }
}

/// The result's columns at these places. Given the places of the key, they are the key columns.
pub fn columns_at<'a>(
    alloc: Global,
    columns: &'a [Named],
    places: &[Option<usize>],
) -> Result<Vec<&'a Named>, AllocError>
    ensures { IfOk result (λ found. map (λ c. c.now) found.items ≡ spec.at_places columns.now places.now) }
{
    let mut found = Vec::new(alloc);
    for place in places {
        if let Some(column) = column_at(columns, *place) {
            found.push(column)?;
        }
    }
    Ok(found)
}

/// Whether a number is one of the places.
fn is_place(number: usize, places: &[Option<usize>]) -> bool
    ensures { result ≡ list_any (spec.is_place number) places.now }
{
    places.iter().any(|place| *place == Some(number))
}

/// The result's columns at none of these places. Given the places of the key, they are the value columns.
#[tactic(auto, unfolding(crate::proofs::KeyColumns::others_from))]
pub fn columns_besides<'a>(
    alloc: Global,
    columns: &'a [Named],
    places: &[Option<usize>],
) -> Result<Vec<&'a Named>, AllocError>
    ensures { IfOk result (λ found. map (λ c. c.now) found.items ≡ spec.besides places.now columns.now) }
{
    let mut found = Vec::new(alloc);
    for (number, column) in columns.iter().enumerate() {
        if !is_place(number, places) {
            found.push(column)?;
        }
    }
    Ok(found)
}
