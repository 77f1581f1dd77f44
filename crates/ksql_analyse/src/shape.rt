//! The shape of a query: how it turns rows into its result.

ghost use Rattle.std.specs.Prelude.{◌≡◌, ◌≤◌, ◌-◌, ◌^◌, All, IfOk, IsTrue, false, length, map, not, option_map};
ghost use Rattle.ksql_clauses.specs.Windows as windows;
ghost use Rattle.ksql_clauses.specs.Sources as sources;
ghost use Rattle.ksql_rules.specs.Breaks as breaks;
ghost use Rattle.ksql_analyse.specs.Accepted.{IsMade, IsReady};
ghost use Rattle.ksql_analyse.specs.Judgement as spec;
ghost use Rattle.ksql_analyse.specs.Typable.{AreColumnTrees, IsTypable, IsValued};

use crate::grouped::{aggregate_exprs, aggs_of, grouped_columns, part_after, trees_after};
use crate::trees::{column_trees, trees_of};
use expression_trees::Expr;
use ksql_clauses::{Named, window_of};
use ksql_expr::{Typed, TypedNode};
use ksql_program::{Agg, Shape};
use ksql_rules::{Findings, is_grouped};
use ksql_scopes::Scope;
use ksql_types::{Boxed, Items, Window};
use statement_trees::WindowText;
use std::alloc::{AllocError, Global};

/// The shape of a query.
pub(crate) fn shape_of(alloc: Global, findings: &Findings) -> Result<Shape, AllocError>
    requires { IsReady findings.now }
    ensures { IfOk result (λ made. IsMade findings.now.select.now findings.now.known.items made) }
{
    if is_grouped(findings.select) {
        grouped_shape(alloc, findings)
    } else {
        plain_shape(alloc, findings)
    }
}

/// The keys and the values of a query without a grouping.
fn plain_shape(alloc: Global, findings: &Findings) -> Result<Shape, AllocError>
    requires ready { IsReady findings.now }
    requires plain { IsTrue (not (breaks.is_grouped findings.now.select.now)) }
    ensures { IfOk result (λ made. IsMade findings.now.select.now findings.now.known.items made) }
{
    let key_columns = findings.key_columns(alloc)?;
    let value_columns = findings.value_columns(alloc)?;
    let keys = column_trees(alloc, &findings.item_scope, &key_columns)?;
    let values = column_trees(alloc, &findings.item_scope, &value_columns)?;
    Ok(Shape::Plain {
        keys: Items::of(keys),
        values: Items::of(values),
    })
}

/// The keys, the aggregates and the values of a grouped query, its window and HAVING.
fn grouped_shape(alloc: Global, findings: &Findings) -> Result<Shape, AllocError>
    requires ready { IsReady findings.now }
    requires grouped { IsTrue (breaks.is_grouped findings.now.select.now) }
    ensures { IfOk result (λ made. IsMade findings.now.select.now findings.now.known.items made) }
{
    let scope = &findings.item_scope;
    let exprs = aggregate_exprs(alloc, &findings.columns, &findings.having)?;
    let keys = trees_of(alloc, &findings.scope, &findings.groups)?;
    let aggs = aggs_of(alloc, scope, &exprs)?;
    let values = findings.value_columns(alloc)?;
    let after = after_grouping(alloc, scope, &keys, &aggs, &findings.having, &values)?;
    Ok(Shape::Group {
        keys: Items::of(keys),
        window: window_in(&findings.select.window),
        aggs: Items::of(aggs),
        having: after.having,
        values: Items::of(after.values),
    })
}

/// HAVING and the values of a grouped query.
#[derive(Drop)]
struct After {
    having: Option<Typed>,
    values: Vec<Typed>,
}

/// HAVING and the values over the rows after a grouping by these keys with these aggregates.
fn after_grouping(
    alloc: Global,
    scope: &Scope,
    keys: &[Typed],
    aggs: &[Agg],
    having: &Option<Boxed<Expr>>,
    values: &[&Named],
) -> Result<After, AllocError>
    requires having { All (IsTypable scope.now) (sources.there having.now) }
    requires values { All (λ c. IsValued scope.now c.now.expr) values.now }
    requires scope { length scope.now.columns ≤ 2 ^ 32 - 2 }
    requires columns { length (spec.grouped_columns scope.now keys.now aggs.now) ≤ 2 ^ 32 }
    ensures having { IfOk result (λ made. spec.IsPartAfter (spec.grouped_columns scope.now keys.now aggs.now) scope.now having.now made.having) }
    ensures values { IfOk result (λ made. spec.AreTreesAfter (spec.grouped_columns scope.now keys.now aggs.now) scope.now (spec.exprs (map (λ c. c.now) values.now)) made.values.items) }
    ensures valued { IfOk result (λ made. AreColumnTrees (map (λ c. c.now) values.now) made.values.items) }
{
    let columns = grouped_columns(alloc, scope, keys, aggs)?;
    after_of(alloc, scope, having, values, columns.as_slice())
}

/// HAVING and the values over rows with these columns after a grouping.
fn after_of(
    alloc: Global,
    scope: &Scope,
    having: &Option<Boxed<Expr>>,
    values: &[&Named],
    columns: &[TypedNode],
) -> Result<After, AllocError>
    requires having { All (IsTypable scope.now) (sources.there having.now) }
    requires values { All (λ c. IsValued scope.now c.now.expr) values.now }
    requires scope { length scope.now.columns ≤ 2 ^ 32 - 2 }
    requires columns { length columns.now ≤ 2 ^ 32 }
    ensures having { IfOk result (λ made. spec.IsPartAfter columns.now scope.now having.now made.having) }
    ensures values { IfOk result (λ made. spec.AreTreesAfter columns.now scope.now (spec.exprs (map (λ c. c.now) values.now)) made.values.items) }
    ensures valued { IfOk result (λ made. AreColumnTrees (map (λ c. c.now) values.now) made.values.items) }
{
    let trees = column_trees(alloc, scope, values)?;
    let values = trees_after(alloc, &trees, columns)?;
    Ok(After {
        having: part_after(alloc, scope, having, columns)?,
        values,
    })
}

fn window_in(window: &Option<WindowText>) -> Option<Window>
    requires { breaks.has_large_window window.now ≡ false }
    ensures { result ≡ option_map windows.window_of window.now }
{
    match window {
        Some(window) => Some(window_of(window)),
        None => None,
    }
}
