//! Columns and groups: which columns stand outside aggregates and groups, and which expression comes first.

ghost use Rattle.std.specs.Prelude.{◌≡◌, [], IfOk};
ghost use Rattle.std.specs.List.{list_any};
ghost use Rattle.expression_trees.specs.Same.{same_expr};
ghost use Rattle.aggregate_rules.specs.Grouping as spec;

use crate::aggregates::{has_aggregate, is_aggregate};
use expression_trees::{Decides, Expr, ExprTexts, passes, same_expr};
use ksql_types::Chars;
use std::alloc::{AllocError, Global};

/// The index of the first of `exprs` that is the same as `expr`, if any.
fn place_among(exprs: &[Expr], expr: &Expr) -> Option<usize>
    ensures { result ≡ spec.place_among exprs.now expr.now }
{
    for (i, other) in exprs.iter().enumerate() {
        if same_expr(other, expr) {
            return Some(i);
        }
    }
    None
}

fn is_window_bound(qualifier: &Option<Chars>, name: &Chars) -> bool
    ensures { result ≡ spec.is_window_bound qualifier.now name.now }
{
    match qualifier {
        None => name.items() == "WINDOWSTART" || name.items() == "WINDOWEND",
        Some(_) => false,
    }
}

fn one_has_aggregate(exprs: &ExprTexts) -> bool
    ensures { result ≡ list_any spec.has_aggregate exprs.now }
{
    for expr in exprs.items() {
        if has_aggregate(expr) {
            return true;
        }
    }
    false
}

fn holds_inner(expr: &Expr) -> Option<bool>
    ensures { result ≡ spec.holds_inner expr.now }
{
    match expr {
        Expr::Call { name, args, .. } => {
            if is_aggregate(name) && one_has_aggregate(args) {
                Some(true)
            } else {
                None
            }
        }
        _ => None,
    }
}

fn is_bare(groups: &[Expr], expr: &Expr) -> Option<bool>
    ensures { result ≡ spec.is_bare groups.now expr.now }
{
    if place_among(groups, expr).is_some() {
        return Some(false);
    }
    match expr {
        Expr::Name { qualifier, name } => Some(!is_window_bound(qualifier, name)),
        Expr::Call { name, .. } => {
            if is_aggregate(name) {
                Some(false)
            } else {
                None
            }
        }
        _ => None,
    }
}

/// Accepts aggregates that contain another one.
struct Nested;

impl Decides for Nested {
    ghost decide = { λ _ a. spec.holds_inner a };

    fn decision(&self, expr: &Expr) -> Option<bool> {
        holds_inner(expr)
    }
}

/// Accepts columns that stand neither in an aggregate nor in one of these groups.
#[derive(Clone, Copy)]
struct Bare<'a> {
    groups: &'a [Expr],
}

impl Decides for Bare<'_> {
    ghost decide = { λ bare. spec.is_bare bare.groups.now };

    fn decision(&self, expr: &Expr) -> Option<bool> {
        is_bare(self.groups, expr)
    }
}

/// Whether an expression contains an aggregate inside another.
pub fn has_nested_aggregate(expr: &Expr) -> bool
    ensures { result ≡ spec.has_nested_aggregate expr.now }
{
    passes(&Nested, expr)
}

/// Whether an expression, with resolved names, has a column that stands neither in an aggregate nor in one of the group
/// expressions.
pub fn has_bare_column(groups: &[Expr], expr: &Expr) -> bool
    ensures { result ≡ spec.has_bare_column groups.now expr.now }
{
    passes(&Bare { groups }, expr)
}

fn is_found(found: &[Expr], expr: &Expr) -> bool
    ensures { result ≡ list_any (same_expr expr.now) found.now }
{
    for other in found {
        if same_expr(expr, other) {
            return true;
        }
    }
    false
}

/// The expressions without duplicates, in the order of their first occurrence.
pub fn once(alloc: Global, exprs: Vec<Expr>) -> Result<Vec<Expr>, AllocError>
    ensures { IfOk result (λ found. found.items ≡ spec.once_from [] exprs.items) }
{
    let mut found = Vec::new(alloc);
    for expr in exprs {
        if !is_found(&found, &expr) {
            found.push(expr)?;
        }
    }
    Ok(found)
}
