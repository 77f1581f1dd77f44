//! Replacement of parts of an expression.

ghost use Rattle.std.specs.Prelude.{◌≡◌, ℕ, IfOk, List, Option, map, option_map};
ghost use Rattle.expression_trees.specs.declared.tree.Expr.{Expr as Tree};
ghost use Rattle.expression_trees.specs.declared.tree.WhenText.{WhenText as TreeWhen};
ghost use Rattle.expression_trees.specs.Parts as spec;

use crate::tree::{Expr, ExprTexts, WhenText, WhenTexts};
use ksql_types::{BinaryOp, Boxed, Chars, CopyOf, Items, SqlType};
use std::alloc::{AllocError, Global};

/// Which expressions are replaced, and by what.
pub trait Replaces {
    ghost use Rattle.std.specs.Prelude.{Option};
    ghost use Rattle.expression_trees.specs.declared.tree.Expr.{Expr as Tree};

    // The replacement of an expression as a whole, if any.
    ghost decide: { Self → Tree → Option Tree };

    /// The replacement of an expression as a whole, if any.
    fn replacement(&self, alloc: Global, expr: &Expr) -> Result<Option<Expr>, AllocError>
        ensures { IfOk result (λ part. part ≡ decide self.now expr.now) };
}

/// The expression with its largest replaceable parts replaced.
#[cycle(becomes)]
pub fn becomes<R: Replaces>(alloc: Global, replaces: &R, expr: &Expr) -> Result<Expr, AllocError>
    ensures { IfOk result (λ made. made ≡ spec.becomes (R.decide replaces.now) expr.now) }
{
    if let Some(part) = replaces.replacement(alloc, expr)? {
        return Ok(part);
    }
    match expr {
        Expr::Digits(number) => Ok(Expr::Digits(*number)),
        Expr::Text(content) => text_of(content.copy(alloc)),
        Expr::Truth(truth) => Ok(Expr::Truth(*truth)),
        Expr::Null => Ok(Expr::Null),
        Expr::Name { qualifier, name } => name_of(qualifier.copy(alloc), name.copy(alloc)),
        Expr::Sign { minus, arg } => sign_of(*minus, boxed_becomes(alloc, replaces, arg)),
        Expr::Binary { op, left, right } => binary_of(
            *op,
            boxed_becomes(alloc, replaces, left),
            boxed_becomes(alloc, replaces, right),
        ),
        Expr::Not(arg) => not_of(boxed_becomes(alloc, replaces, arg)),
        Expr::IsNull { negated, arg } => is_null_of(*negated, boxed_becomes(alloc, replaces, arg)),
        Expr::Between {
            negated,
            arg,
            low,
            high,
        } => between_of(
            *negated,
            boxed_becomes(alloc, replaces, arg),
            boxed_becomes(alloc, replaces, low),
            boxed_becomes(alloc, replaces, high),
        ),
        Expr::OneOf {
            negated,
            arg,
            choices,
        } => one_of(
            *negated,
            boxed_becomes(alloc, replaces, arg),
            each_becomes(alloc, replaces, choices),
        ),
        Expr::Like {
            negated,
            arg,
            pattern,
        } => like_of(
            *negated,
            boxed_becomes(alloc, replaces, arg),
            pattern.copy(alloc),
        ),
        Expr::Cast { arg, to } => cast_of(boxed_becomes(alloc, replaces, arg), *to),
        Expr::Case {
            arg,
            whens,
            otherwise,
        } => case_of(
            part_becomes(alloc, replaces, arg),
            each_when_becomes(alloc, replaces, whens),
            part_becomes(alloc, replaces, otherwise),
        ),
        Expr::Call { name, star, args } => {
            call_of(name.copy(alloc), *star, each_becomes(alloc, replaces, args))
        }
    }
}

#[cycle(becomes)]
fn boxed_becomes<R: Replaces>(alloc: Global, replaces: &R, expr: &Boxed<Expr>) -> Made<Boxed<Expr>>
    ensures { IfOk result (λ made. made ≡ spec.becomes (R.decide replaces.now) expr.now) }
{
    Boxed::of(alloc, becomes(alloc, replaces, expr.get())?)
}

#[cycle(becomes)]
fn part_becomes<R: Replaces>(
    alloc: Global,
    replaces: &R,
    expr: &Option<Boxed<Expr>>,
) -> Made<Option<Boxed<Expr>>>
    ensures { IfOk result (λ made. made ≡ option_map (spec.becomes (R.decide replaces.now)) expr.now) }
{
    match expr {
        None => Ok(None),
        Some(expr) => {
            let made = becomes(alloc, replaces, expr.get())?;
            Ok(Some(Boxed::of(alloc, made)?))
        }
    }
}

#[cycle(becomes)]
fn each_becomes<R: Replaces>(alloc: Global, replaces: &R, exprs: &ExprTexts) -> Made<ExprTexts>
    ensures { IfOk result (λ made. made ≡ map (spec.becomes (R.decide replaces.now)) exprs.now) }
{
    let mut made = Vec::new(alloc);
    for expr in exprs.items() {
        made.push(becomes(alloc, replaces, expr)?)?;
    }
    Ok(Items::of(made))
}

#[cycle(becomes)]
pub fn when_becomes<R: Replaces>(alloc: Global, replaces: &R, when: &WhenText) -> Made<WhenText>
    ensures { IfOk result (λ made. made ≡ spec.when_becomes (R.decide replaces.now) when.now) }
{
    let cond = becomes(alloc, replaces, &when.cond)?;
    let result = becomes(alloc, replaces, &when.result)?;
    Ok(WhenText { cond, result })
}

#[cycle(becomes)]
fn each_when_becomes<R: Replaces>(alloc: Global, replaces: &R, whens: &WhenTexts) -> Made<WhenTexts>
    ensures { IfOk result (λ made. made ≡ map (spec.when_becomes (R.decide replaces.now)) whens.now) }
{
    let mut made = Vec::new(alloc);
    for when in whens.items() {
        made.push(when_becomes(alloc, replaces, when)?)?;
    }
    Ok(Items::of(made))
}

// The new tree, unless memory ran out. Separate functions for such parts keep the stack frame of `becomes` small, which
// stands on the stack once per level of a tree.
type Made<T> = Result<T, AllocError>;

fn text_of(content: Made<Chars>) -> Made<Expr>
    ensures { (text : List ℕ) → IfOk content (λ x. x ≡ text) → IfOk result (λ made. made ≡ Expr.Text text) }
{
    Ok(Expr::Text(content?))
}

fn name_of(qualifier: Made<Option<Chars>>, name: Made<Chars>) -> Made<Expr>
    ensures { (q : Option (List ℕ)) (text : List ℕ) → IfOk qualifier (λ x. x ≡ q) → IfOk name (λ x. x ≡ text)
        → IfOk result (λ made. made ≡ Expr.Name q text) }
{
    let qualifier = qualifier?;
    let name = name?;
    Ok(Expr::Name { qualifier, name })
}

fn sign_of(minus: bool, arg: Made<Boxed<Expr>>) -> Made<Expr>
    ensures { (a : Tree) → IfOk arg (λ x. x ≡ a) → IfOk result (λ made. made ≡ Expr.Sign minus a) }
{
    let arg = arg?;
    Ok(Expr::Sign { minus, arg })
}

fn not_of(arg: Made<Boxed<Expr>>) -> Made<Expr>
    ensures { (a : Tree) → IfOk arg (λ x. x ≡ a) → IfOk result (λ made. made ≡ Expr.Not a) }
{
    let arg = arg?;
    Ok(Expr::Not(arg))
}

fn is_null_of(negated: bool, arg: Made<Boxed<Expr>>) -> Made<Expr>
    ensures { (a : Tree) → IfOk arg (λ x. x ≡ a) → IfOk result (λ made. made ≡ Expr.IsNull negated a) }
{
    let arg = arg?;
    Ok(Expr::IsNull { negated, arg })
}

fn cast_of(arg: Made<Boxed<Expr>>, to: SqlType) -> Made<Expr>
    ensures { (a : Tree) → IfOk arg (λ x. x ≡ a) → IfOk result (λ made. made ≡ Expr.Cast a to) }
{
    let arg = arg?;
    Ok(Expr::Cast { arg, to })
}

fn like_of(negated: bool, arg: Made<Boxed<Expr>>, pattern: Made<Chars>) -> Made<Expr>
    ensures { (a : Tree) (text : List ℕ) → IfOk arg (λ x. x ≡ a) → IfOk pattern (λ x. x ≡ text)
        → IfOk result (λ made. made ≡ Expr.Like negated a text) }
{
    let arg = arg?;
    let pattern = pattern?;
    Ok(Expr::Like {
        negated,
        arg,
        pattern,
    })
}

fn call_of(name: Made<Chars>, star: bool, args: Made<ExprTexts>) -> Made<Expr>
    ensures { (text : List ℕ) (es : List Tree) → IfOk name (λ x. x ≡ text) → IfOk args (λ x. x ≡ es)
        → IfOk result (λ made. made ≡ Expr.Call text star es) }
{
    let name = name?;
    let args = args?;
    Ok(Expr::Call { name, star, args })
}

fn binary_of(op: BinaryOp, left: Made<Boxed<Expr>>, right: Made<Boxed<Expr>>) -> Made<Expr>
    ensures { (a b : Tree) → IfOk left (λ x. x ≡ a) → IfOk right (λ x. x ≡ b)
        → IfOk result (λ made. made ≡ Expr.Binary op a b) }
{
    let left = left?;
    let right = right?;
    Ok(Expr::Binary { op, left, right })
}

fn between_of(
    negated: bool,
    arg: Made<Boxed<Expr>>,
    low: Made<Boxed<Expr>>,
    high: Made<Boxed<Expr>>,
) -> Made<Expr>
    ensures { (a b c : Tree) → IfOk arg (λ x. x ≡ a) → IfOk low (λ x. x ≡ b) → IfOk high (λ x. x ≡ c)
        → IfOk result (λ made. made ≡ Expr.Between negated a b c) }
{
    let arg = arg?;
    let low = low?;
    let high = high?;
    Ok(Expr::Between {
        negated,
        arg,
        low,
        high,
    })
}

fn case_of(
    arg: Made<Option<Boxed<Expr>>>,
    whens: Made<WhenTexts>,
    otherwise: Made<Option<Boxed<Expr>>>,
) -> Made<Expr>
    ensures { (a b : Option Tree) (ws : List TreeWhen) → IfOk arg (λ x. x ≡ a) → IfOk whens (λ x. x ≡ ws) → IfOk otherwise (λ x. x ≡ b)
        → IfOk result (λ made. made ≡ Expr.Case a ws b) }
{
    let arg = arg?;
    let whens = whens?;
    let otherwise = otherwise?;
    Ok(Expr::Case {
        arg,
        whens,
        otherwise,
    })
}

fn one_of(negated: bool, arg: Made<Boxed<Expr>>, choices: Made<ExprTexts>) -> Made<Expr>
    ensures { (a : Tree) (es : List Tree) → IfOk arg (λ x. x ≡ a) → IfOk choices (λ x. x ≡ es)
        → IfOk result (λ made. made ≡ Expr.OneOf negated a es) }
{
    let arg = arg?;
    let choices = choices?;
    Ok(Expr::OneOf {
        negated,
        arg,
        choices,
    })
}
