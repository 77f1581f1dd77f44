//! The shape of a grouped query.

ghost use Rattle.std.specs.Prelude.{◌≡◌, ◌≤◌, ◌-◌, ◌^◌, ◌++◌, [], All, IfOk, length, map};
ghost use Rattle.std.specs.List.{flat_map};
ghost use Rattle.ksql_clauses.specs.Sources.{there};
ghost use Rattle.aggregate_rules.specs.Grouping as groups;
ghost use Rattle.ksql_expr.specs.declared.typed.TypedNode.TheVariants as node;
ghost use Rattle.grouped_expressions.specs.Grouped.{after as after_in};
ghost use Rattle.ksql_analyse.specs.Judgement as spec;
ghost use Rattle.ksql_analyse.specs.Typable.{IsAggregable, IsAggregateNode, IsTypable};

use crate::trees::tree_of;
use aggregate_rules::{aggregates_of, once};
use expression_trees::Expr;
use grouped_expressions::after;
use ksql_clauses::Named;
use ksql_expr::{Typed, TypedNode};
use ksql_program::Agg;
use ksql_scopes::Scope;
use ksql_types::{Boxed, CopyOf};
use std::alloc::{AllocError, Global};

/// The aggregates of a query without duplicates: those of its columns, then those of HAVING.
pub(crate) fn aggregate_exprs(
    alloc: Global,
    columns: &[Named],
    having: &Option<Boxed<Expr>>,
) -> Result<Vec<Expr>, AllocError>
    ensures { IfOk result (λ found. found.items ≡ groups.once_from [] (flat_map groups.aggregates_of (spec.exprs columns.now ++ there having.now))) }
{
    let mut all = Vec::new(alloc);
    for column in columns {
        push_all(&mut all, aggregates_of(alloc, &column.expr)?)?;
    }
    if let Some(having) = having {
        push_all(&mut all, aggregates_of(alloc, having.get())?)?;
    }
    once(alloc, all)
}

/// Appends expressions.
fn push_all(all: &mut Vec<Expr>, more: Vec<Expr>) -> Result<(), AllocError>
    ensures { IfOk result (λ _. all.new.items ≡ all.old.items ++ more.items) }
{
    for expr in more {
        all.push(expr)?;
    }
    Ok(())
}

/// The aggregates of a query, in its program.
pub(crate) fn aggs_of(alloc: Global, scope: &Scope, exprs: &[Expr]) -> Result<Vec<Agg>, AllocError>
    requires aggregable { All (IsAggregable scope.now) exprs.now }
    requires columns { length scope.now.columns ≤ 2 ^ 32 - 2 }
    ensures { IfOk result (λ aggs. spec.AreAggs scope.now exprs.now aggs.items) }
{
    let mut aggs = Vec::new(alloc);
    for expr in exprs {
        aggs.push(agg_in(tree_of(alloc, scope, expr)?))?;
    }
    Ok(aggs)
}

/// The aggregate at the root of a tree.
fn agg_in(tree: Typed) -> Agg
    requires { IsAggregateNode tree.node }
    ensures { tree.node ≡ node.Aggregate result.fun result.arg }
{
    match tree.node {
        TypedNode::Aggregate { fun, arg } => Agg {
            fun,
            arg: unboxed(arg),
        },
        _ => unreachable!(),
    }
}

fn unboxed(part: Option<Boxed<Typed>>) -> Option<Typed>
    ensures { result ≡ part }
{
    match part {
        Some(part) => Some(part.into_inner()),
        None => None,
    }
}

/// What the columns of a row after the grouping stand for, in the scope of the items.
pub(crate) fn grouped_columns(
    alloc: Global,
    scope: &Scope,
    keys: &[Typed],
    aggs: &[Agg],
) -> Result<Vec<TypedNode>, AllocError>
    requires { length scope.now.columns ≤ 2 ^ 32 - 2 }
    ensures { IfOk result (λ columns. columns.items ≡ spec.grouped_columns scope.now keys.now aggs.now) }
{
    let mut columns = Vec::new(alloc);
    push_keys(alloc, &mut columns, keys)?;
    push_aggs(alloc, &mut columns, aggs)?;
    push_bounds(&mut columns, scope)?;
    Ok(columns)
}

/// Appends the forms of trees.
fn push_keys(alloc: Global, columns: &mut Vec<TypedNode>, keys: &[Typed]) -> Result<(), AllocError>
    ensures { IfOk result (λ _. columns.new.items ≡ columns.old.items ++ map (λ x. x.node) keys.now) }
{
    for key in keys {
        columns.push(key.node.copy(alloc)?)?;
    }
    Ok(())
}

/// Appends the forms of aggregates.
fn push_aggs(alloc: Global, columns: &mut Vec<TypedNode>, aggs: &[Agg]) -> Result<(), AllocError>
    ensures { IfOk result (λ _. columns.new.items ≡ columns.old.items ++ map spec.agg_form aggs.now) }
{
    for agg in aggs {
        columns.push(agg_form(alloc, agg)?)?;
    }
    Ok(())
}

/// An aggregate as the form of a typed tree.
fn agg_form(alloc: Global, agg: &Agg) -> Result<TypedNode, AllocError>
    ensures { IfOk result (λ made. made ≡ spec.agg_form agg.now) }
{
    let arg = match &agg.arg {
        Some(arg) => Some(Boxed::of(alloc, arg.copy(alloc)?)?),
        None => None,
    };
    Ok(TypedNode::Aggregate { fun: agg.fun, arg })
}

/// Appends the bounds of a window.
fn push_bounds(columns: &mut Vec<TypedNode>, scope: &Scope) -> Result<(), AllocError>
    requires { length scope.now.columns ≤ 2 ^ 32 - 2 }
    ensures { IfOk result (λ _. columns.new.items ≡ columns.old.items ++ spec.bound_forms scope.now) }
{
    if scope.windowed {
        let start = scope.columns.items().len() as u32;
        columns.push(TypedNode::Column(start))?;
        columns.push(TypedNode::Column(start + 1))?;
    }
    Ok(())
}

/// An optional part, over the rows after a grouping.
pub(crate) fn part_after(
    alloc: Global,
    scope: &Scope,
    part: &Option<Boxed<Expr>>,
    columns: &[TypedNode],
) -> Result<Option<Typed>, AllocError>
    requires typable { All (IsTypable scope.now) (there part.now) }
    requires scope { length scope.now.columns ≤ 2 ^ 32 - 2 }
    requires columns { length columns.now ≤ 2 ^ 32 }
    ensures { IfOk result (λ made. spec.IsPartAfter columns.now scope.now part.now made) }
{
    match part {
        None => Ok(None),
        Some(expr) => {
            let tree = Boxed::of(alloc, tree_of(alloc, scope, expr.get())?)?;
            Ok(Some(after(alloc, tree.get(), columns)?))
        }
    }
}

/// Trees over the rows after a grouping.
pub(crate) fn trees_after(
    alloc: Global,
    trees: &[Typed],
    columns: &[TypedNode],
) -> Result<Vec<Typed>, AllocError>
    requires { length columns.now ≤ 2 ^ 32 }
    ensures { IfOk result (λ made. made.items ≡ map (after_in columns.now) trees.now) }
{
    let mut made = Vec::new(alloc);
    for tree in trees {
        made.push(after(alloc, tree, columns)?)?;
    }
    Ok(made)
}
