//! Whether the expressions of a query have the types that their places require.

ghost use Rattle.std.specs.Prelude.{◌≡◌, ◌-◌, ◌^◌, ◌≤◌, ◌↔◌, All, IfOk, IsTrue, length};
ghost use Rattle.std.specs.List.{list_all};
ghost use Rattle.ksql_scopes.specs.Uses.{IsSmall};
ghost use Rattle.ksql_clauses.specs.Sources as sources;
ghost use Rattle.ksql_rules.specs.Breaks as breaks;
ghost use Rattle.ksql_rules.specs.Decided as spec;
ghost use Rattle.ksql_rules.specs.Findings.{AreFindings};
ghost use Rattle.ksql_clauses.specs.Keys as keys;

use crate::findings::{Findings, types_of};
use crate::truth::both;
use expression_trees::Expr;
use ksql_clauses::{Named, on_sides};
use ksql_scopes::Scope;
use ksql_type_sets::{can_agree, can_be_true, has_value};
use statement_trees::Select;
use std::alloc::{AllocError, Global};

/// Whether a part, if present, has a type that fits BOOLEAN.
fn fits_truth(alloc: Global, scope: &Scope, part: &Option<Expr>) -> Result<bool, AllocError>
    requires small { All IsSmall (sources.there part.now) }
    requires columns { length scope.now.columns ≤ 2 ^ 32 - 2 }
    ensures { IfOk result (λ fits. fits ≡ spec.fits_truth scope.now part.now) }
{
    match part {
        None => Ok(true),
        Some(part) => Ok(can_be_true(types_of(alloc, scope, part)?)),
    }
}

/// Whether each column of a result has a type other than that of plain NULL.
fn are_valued(alloc: Global, scope: &Scope, columns: &[Named]) -> Result<bool, AllocError>
    requires small { All (λ c. IsSmall c.expr) columns.now }
    requires columns { length scope.now.columns ≤ 2 ^ 32 - 2 }
    ensures { IfOk result (λ valued. valued ≡ list_all (spec.is_valued scope.now) columns.now) }
{
    let mut valued = true;
    for column in columns {
        let types = types_of(alloc, scope, &column.expr)?;
        valued = valued && has_value(types);
    }
    Ok(valued)
}

/// Whether the sides of ON have types that agree.
fn do_sides_agree(alloc: Global, scope: &Scope, on: &Expr) -> Result<bool, AllocError>
    requires small { IsSmall on.now }
    requires columns { length scope.now.columns ≤ 2 ^ 32 - 2 }
    ensures { IfOk result (λ agree. agree ≡ spec.do_sides_agree scope.now (keys.on_sides on.now)) }
{
    match on_sides(on) {
        None => Ok(true),
        Some((a, b)) => {
            let left = types_of(alloc, scope, a)?;
            let right = types_of(alloc, scope, b)?;
            Ok(can_agree(left, right))
        }
    }
}

fn does_on_agree(alloc: Global, scope: &Scope, select: &Select) -> Result<bool, AllocError>
    requires small { All IsSmall (sources.on_exprs select.now) }
    requires columns { length scope.now.columns ≤ 2 ^ 32 - 2 }
    ensures { IfOk result (λ agree. agree ≡ spec.does_on_agree scope.now select.now) }
{
    match &select.join {
        None => Ok(true),
        Some(join) => do_sides_agree(alloc, scope, &join.on),
    }
}

/// Whether the expressions of a query have the types that their places require.
pub fn is_query_typed(alloc: Global, findings: &Findings) -> Result<bool, AllocError>
    requires { AreFindings findings.now }
    ensures { IfOk result (λ typed. IsTrue typed ↔ breaks.IsQueryTyped findings.now.select.now findings.now.known.items) }
{
    let select = findings.select;
    let filter_fits = fits_truth(alloc, &findings.scope, &select.filter)?;
    let having_fits = fits_truth(alloc, &findings.item_scope, &select.having)?;
    let valued = are_valued(alloc, &findings.item_scope, &findings.columns)?;
    let agree = does_on_agree(alloc, &findings.on_scope, select)?;
    let early = both(findings.in_on.typed, findings.in_front.typed);
    let typed = both(early, findings.in_late.typed);
    let fit = both(filter_fits, having_fits);
    Ok(both(both(typed, fit), both(valued, agree)))
}
