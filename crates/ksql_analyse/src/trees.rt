//! The typed trees of a query's expressions.

ghost use Rattle.std.specs.Prelude.{◌≤◌, ◌-◌, ◌^◌, All, length, map, IfOk};
ghost use Rattle.ksql_typing.specs.Standing.{IsTypedTree};
ghost use Rattle.ksql_clauses.specs.Sources.{there};
ghost use Rattle.ksql_analyse.specs.Judgement.{AreTypedTrees, IsTypedPart, exprs};
ghost use Rattle.ksql_analyse.specs.Typable.{AreColumnTrees, IsTypable, IsValue, IsValued};

use expression_trees::Expr;
use ksql_clauses::Named;
use ksql_expr::Typed;
use ksql_scopes::Scope;
use ksql_typing::{TypeFault, typed};
use std::alloc::{AllocError, Global};

/// The typed tree of an expression.
pub(crate) fn tree_of(alloc: Global, scope: &Scope, expr: &Expr) -> Result<Typed, AllocError>
    requires typable { IsTypable scope.now expr.now }
    requires columns { length scope.now.columns ≤ 2 ^ 32 - 2 }
    ensures { IfOk result (λ tree. IsTypedTree scope.now expr.now tree) }
{
    match typed(alloc, expr, scope) {
        Ok(tree) => Ok(tree),
        Err(TypeFault::OutOfMemory) => Err(AllocError),
        Err(TypeFault::UnknownColumn)
        | Err(TypeFault::AmbiguousColumn)
        | Err(TypeFault::TypeMismatch)
        | Err(TypeFault::Unsupported) => unreachable!(),
    }
}

/// The typed trees of expressions that have a type.
pub(crate) fn trees_of(
    alloc: Global,
    scope: &Scope,
    exprs: &[Expr],
) -> Result<Vec<Typed>, AllocError>
    requires valued { All (IsValued scope.now) exprs.now }
    requires columns { length scope.now.columns ≤ 2 ^ 32 - 2 }
    ensures trees { IfOk result (λ trees. AreTypedTrees scope.now exprs.now trees.items) }
    ensures values { IfOk result (λ trees. All IsValue trees.items) }
{
    let mut trees = Vec::new(alloc);
    for expr in exprs {
        trees.push(tree_of(alloc, scope, expr)?)?;
    }
    Ok(trees)
}

/// The typed trees of the expressions of columns.
pub(crate) fn column_trees(
    alloc: Global,
    scope: &Scope,
    columns: &[&Named],
) -> Result<Vec<Typed>, AllocError>
    requires valued { All (λ c. IsValued scope.now c.now.expr) columns.now }
    requires columns { length scope.now.columns ≤ 2 ^ 32 - 2 }
    ensures trees { IfOk result (λ trees. AreTypedTrees scope.now (exprs (map (λ c. c.now) columns.now)) trees.items) }
    ensures values { IfOk result (λ trees. AreColumnTrees (map (λ c. c.now) columns.now) trees.items) }
{
    let mut trees = Vec::new(alloc);
    for column in columns {
        trees.push(tree_of(alloc, scope, &column.expr)?)?;
    }
    Ok(trees)
}

/// The typed tree of an optional part.
pub(crate) fn part_tree(
    alloc: Global,
    scope: &Scope,
    part: &Option<Expr>,
) -> Result<Option<Typed>, AllocError>
    requires typable { All (IsTypable scope.now) (there part.now) }
    requires columns { length scope.now.columns ≤ 2 ^ 32 - 2 }
    ensures { IfOk result (λ tree. IsTypedPart scope.now part.now tree) }
{
    match part {
        None => Ok(None),
        Some(expr) => Ok(Some(tree_of(alloc, scope, expr)?)),
    }
}
