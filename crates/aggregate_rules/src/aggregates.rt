//! Aggregates, and the functions called in an expression.

ghost use Rattle.std.specs.Prelude.{◌≡◌, ◌++◌, IfOk, OnOk, map, option_map};
ghost use Rattle.std.specs.List.{list_any};
ghost use Rattle.ksql_scopes.specs.Functions.{is_aggregate};
ghost use Rattle.ksql_scopes.specs.Uses.{all_of, calls, has_unknown_function, perhaps};
ghost use Rattle.aggregate_rules.specs.Grouping as spec;

use expression_trees::{Decides, Expr, ExprTexts, WhenTexts, passes};
use ksql_scopes::{aggregate_of, function_of};
use ksql_types::{Boxed, Chars, CopyOf, is_among};
use std::alloc::{AllocError, Global};

/// The aggregates that can't be used on a table.
const ORDERED_AGGREGATES: [&str; 4] = ["MIN", "MAX", "LATEST_BY_OFFSET", "EARLIEST_BY_OFFSET"];

/// The functions to look for in an expression.
#[derive(Clone, Copy)]
enum Called {
    /// Aggregates.
    Aggregate,
    /// Aggregates that can't be used on a table.
    Ordered,
    /// Unknown functions.
    Unknown,
}

/// Whether a function is an aggregate function.
pub fn is_aggregate(name: &Chars) -> bool
    ensures { result ≡ is_aggregate name.now }
{
    aggregate_of(name.items()).is_some()
}

fn is_wanted(wanted: Called, name: &Chars) -> bool
    ensures { result ≡ spec.is_wanted wanted name.now }
{
    match wanted {
        Called::Aggregate => is_aggregate(name),
        Called::Ordered => is_among(&ORDERED_AGGREGATES, name.items()),
        Called::Unknown => function_of(name.items()).is_none() && !is_aggregate(name),
    }
}

impl Decides for Called {
    ghost decide = { spec.is_called };

    fn decision(&self, expr: &Expr) -> Option<bool> {
        match expr {
            Expr::Call { name, .. } => {
                if is_wanted(*self, name) {
                    Some(true)
                } else {
                    None
                }
            }
            _ => None,
        }
    }
}

/// Whether an expression calls a function that is looked for.
fn calls_one(wanted: Called, expr: &Expr) -> bool
    ensures { result ≡ list_any (spec.is_wanted wanted) (calls expr.now) }
{
    passes(&wanted, expr)
}

/// Whether an expression contains an aggregate.
pub fn has_aggregate(expr: &Expr) -> bool
    ensures { result ≡ spec.has_aggregate expr.now }
{
    calls_one(Called::Aggregate, expr)
}

/// Whether an expression contains an aggregate that can't be used on a table.
pub fn has_ordered_aggregate(expr: &Expr) -> bool
    ensures { result ≡ spec.has_ordered_aggregate expr.now }
{
    calls_one(Called::Ordered, expr)
}

/// Whether an expression calls an unknown function.
pub fn has_unknown_function(expr: &Expr) -> bool
    ensures { result ≡ has_unknown_function expr.now }
{
    calls_one(Called::Unknown, expr)
}

/// Whether an expression is an aggregate.
pub fn is_aggregate_call(expr: &Expr) -> bool
    ensures { result ≡ spec.is_aggregate_call expr.now }
{
    match expr {
        Expr::Call { name, .. } => is_aggregate(name),
        _ => false,
    }
}

/// Appends the aggregates in an expression.
#[cycle(aggregates)]
#[tactic(auto, using(crate::proofs::Gives::gives_forms))]
fn add_aggregates(alloc: Global, expr: &Expr, found: &mut Vec<Expr>) -> Result<(), AllocError>
    ensures { OnOk result (found.new.items ≡ found.old.items ++ spec.aggregates_of expr.now) }
{
    if is_aggregate_call(expr) {
        found.push(expr.copy(alloc)?)?;
        return Ok(());
    }
    match expr {
        Expr::Digits(_) => Ok(()),
        Expr::Text(_) => Ok(()),
        Expr::Truth(_) => Ok(()),
        Expr::Null => Ok(()),
        Expr::Name { .. } => Ok(()),
        Expr::Sign { arg, .. } => add_aggregates(alloc, arg.get(), found),
        Expr::Binary { left, right, .. } => {
            add_aggregates(alloc, left.get(), found)?;
            add_aggregates(alloc, right.get(), found)?;
            Ok(())
        }
        Expr::Not(arg) => add_aggregates(alloc, arg.get(), found),
        Expr::IsNull { arg, .. } => add_aggregates(alloc, arg.get(), found),
        Expr::Between { arg, low, high, .. } => {
            add_aggregates(alloc, arg.get(), found)?;
            add_aggregates(alloc, low.get(), found)?;
            add_aggregates(alloc, high.get(), found)?;
            Ok(())
        }
        Expr::OneOf { arg, choices, .. } => {
            add_aggregates(alloc, arg.get(), found)?;
            add_all(alloc, choices, found)?;
            Ok(())
        }
        Expr::Like { arg, .. } => add_aggregates(alloc, arg.get(), found),
        Expr::Cast { arg, .. } => add_aggregates(alloc, arg.get(), found),
        Expr::Case {
            arg,
            whens,
            otherwise,
        } => {
            add_part(alloc, arg, found)?;
            add_whens(alloc, whens, found)?;
            add_part(alloc, otherwise, found)?;
            Ok(())
        }
        Expr::Call { args, .. } => add_all(alloc, args, found),
    }
}

#[cycle(aggregates)]
fn add_all(alloc: Global, exprs: &ExprTexts, found: &mut Vec<Expr>) -> Result<(), AllocError>
    ensures { OnOk result (found.new.items ≡ found.old.items ++ all_of (map (spec.gives spec.whole_aggregate) exprs.now)) }
{
    for expr in exprs.items() {
        add_aggregates(alloc, expr, found)?;
    }
    Ok(())
}

#[cycle(aggregates)]
fn add_whens(alloc: Global, whens: &WhenTexts, found: &mut Vec<Expr>) -> Result<(), AllocError>
    ensures { OnOk result (found.new.items ≡ found.old.items
        ++ all_of (map (λ w. spec.gives spec.whole_aggregate w.cond ++ spec.gives spec.whole_aggregate w.result) whens.now)) }
{
    for when in whens.items() {
        add_aggregates(alloc, &when.cond, found)?;
        add_aggregates(alloc, &when.result, found)?;
    }
    Ok(())
}

#[cycle(aggregates)]
fn add_part(
    alloc: Global,
    part: &Option<Boxed<Expr>>,
    found: &mut Vec<Expr>,
) -> Result<(), AllocError>
    ensures { OnOk result (found.new.items ≡ found.old.items ++ perhaps (option_map (spec.gives spec.whole_aggregate) part.now)) }
{
    match part {
        None => Ok(()),
        Some(part) => add_aggregates(alloc, part.get(), found),
    }
}

/// The aggregates in an expression, from left to right, without those inside other aggregates.
pub fn aggregates_of(alloc: Global, expr: &Expr) -> Result<Vec<Expr>, AllocError>
    ensures { IfOk result (λ found. found.items ≡ spec.aggregates_of expr.now) }
{
    let mut found = Vec::new(alloc);
    add_aggregates(alloc, expr, &mut found)?;
    Ok(found)
}
