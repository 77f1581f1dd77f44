//! Tests of expressions.

ghost use Rattle.std.specs.Prelude.{◌≡◌, ◌||◌, map, option_map};
ghost use Rattle.expression_trees.specs.Parts as spec;

use crate::tree::{Expr, ExprTexts, WhenTexts};
use ksql_types::Boxed;

/// A test of expressions: an expression passes if its decision says so, or if it has none and one of its parts passes.
pub trait Decides {
    ghost use Rattle.std.specs.Prelude.{Bool, Option};
    ghost use Rattle.expression_trees.specs.declared.tree.Expr.{Expr as Tree};

    // The decision for an expression as a whole, if any.
    ghost decide: { Self → Tree → Option Bool };

    /// The decision for an expression as a whole, if any.
    fn decision(&self, expr: &Expr) -> Option<bool>
        ensures { result ≡ decide self.now expr.now };
}

fn either(one: bool, other: bool) -> bool
    ensures { result ≡ (one || other) }
{
    one || other
}

/// Whether an expression passes: by its decision, or else if one of its parts passes.
#[cycle(passes)]
#[tactic(auto, using(crate::proofs::Passing::passes_forms))]
pub fn passes<D: Decides>(decides: &D, expr: &Expr) -> bool
    ensures { result ≡ spec.passes (D.decide decides.now) expr.now }
{
    if let Some(passed) = decides.decision(expr) {
        return passed;
    }
    match expr {
        Expr::Digits(_) => false,
        Expr::Text(_) => false,
        Expr::Truth(_) => false,
        Expr::Null => false,
        Expr::Name { .. } => false,
        Expr::Sign { arg, .. } => passes(decides, arg.get()),
        Expr::Binary { left, right, .. } => {
            let left = passes(decides, left.get());
            let right = passes(decides, right.get());
            either(left, right)
        }
        Expr::Not(arg) => passes(decides, arg.get()),
        Expr::IsNull { arg, .. } => passes(decides, arg.get()),
        Expr::Between { arg, low, high, .. } => {
            let arg = passes(decides, arg.get());
            let low = passes(decides, low.get());
            let high = passes(decides, high.get());
            either(either(arg, low), high)
        }
        Expr::OneOf { arg, choices, .. } => {
            let arg = passes(decides, arg.get());
            let choices = one_passes(decides, choices);
            either(arg, choices)
        }
        Expr::Like { arg, .. } => passes(decides, arg.get()),
        Expr::Cast { arg, .. } => passes(decides, arg.get()),
        Expr::Case {
            arg,
            whens,
            otherwise,
        } => {
            let arg = part_passes(decides, arg);
            let whens = when_passes(decides, whens);
            let otherwise = part_passes(decides, otherwise);
            either(either(arg, whens), otherwise)
        }
        Expr::Call { args, .. } => one_passes(decides, args),
    }
}

#[cycle(passes)]
fn one_passes<D: Decides>(decides: &D, exprs: &ExprTexts) -> bool
    ensures { result ≡ spec.any_of (map (spec.passes (D.decide decides.now)) exprs.now) }
{
    for expr in exprs.items() {
        if passes(decides, expr) {
            return true;
        }
    }
    false
}

#[cycle(passes)]
fn when_passes<D: Decides>(decides: &D, whens: &WhenTexts) -> bool
    ensures { result ≡ spec.any_of (map (λ w. spec.passes (D.decide decides.now) w.cond || spec.passes (D.decide decides.now) w.result) whens.now) }
{
    for when in whens.items() {
        if passes(decides, &when.cond) || passes(decides, &when.result) {
            return true;
        }
    }
    false
}

#[cycle(passes)]
fn part_passes<D: Decides>(decides: &D, part: &Option<Boxed<Expr>>) -> bool
    ensures { result ≡ spec.any_perhaps (option_map (spec.passes (D.decide decides.now)) part.now) }
{
    match part {
        None => false,
        Some(part) => passes(decides, part.get()),
    }
}
