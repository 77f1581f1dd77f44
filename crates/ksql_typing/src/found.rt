//! The forms of judged parts, unless memory ran out.

ghost use Rattle.std.specs.Prelude.{◌≡◌, ◌++◌, ◌∷◌, [], List, IfOk};
ghost use Rattle.ksql_typing.specs.declared.judged.Judged.{Judged as OneJudged};
ghost use Rattle.ksql_typing.specs.declared.judged.Perhaps.{Perhaps as OnePerhaps};
ghost use Rattle.ksql_typing.specs.Judged as spec;
ghost use Rattle.ksql_typing.specs.Judged.{AreOf, AreOfWhens, JudgedWhen};

use crate::judged::{self, Judged, Parts, Perhaps, WhenParts};
use ksql_types::{BinaryOp, Chars, SqlType};
use std::alloc::{AllocError, Global};

/// A finding, unless memory ran out. The functions on such parts aren't inlined, which keeps small the frames that
/// stand on the stack once per level of a tree.
pub type Found<T> = Result<T, AllocError>;

#[inline(never)]
pub fn sign(alloc: Global, minus: bool, arg: Found<Judged>) -> Found<Judged>
    ensures { (x : OneJudged) → IfOk arg (λ a. a ≡ x) → IfOk result (λ j. j ≡ spec.sign minus x) }
{
    let arg = arg?;
    judged::sign(alloc, minus, arg)
}

#[inline(never)]
pub fn binary(
    alloc: Global,
    op: BinaryOp,
    left: Found<Judged>,
    right: Found<Judged>,
) -> Found<Judged>
    ensures { (x y : OneJudged) → IfOk left (λ a. a ≡ x) → IfOk right (λ a. a ≡ y)
        → IfOk result (λ j. j ≡ spec.binary op x y) }
{
    let left = left?;
    let right = right?;
    judged::binary(alloc, op, left, right)
}

#[inline(never)]
pub fn negation(alloc: Global, arg: Found<Judged>) -> Found<Judged>
    ensures { (x : OneJudged) → IfOk arg (λ a. a ≡ x) → IfOk result (λ j. j ≡ spec.negation x) }
{
    let arg = arg?;
    judged::negation(alloc, arg)
}

#[inline(never)]
pub fn is_null(alloc: Global, negated: bool, arg: Found<Judged>) -> Found<Judged>
    ensures { (x : OneJudged) → IfOk arg (λ a. a ≡ x) → IfOk result (λ j. j ≡ spec.is_null negated x) }
{
    let arg = arg?;
    judged::is_null(alloc, negated, arg)
}

#[inline(never)]
pub fn between(
    alloc: Global,
    negated: bool,
    arg: Found<Judged>,
    low: Found<Judged>,
    high: Found<Judged>,
) -> Found<Judged>
    ensures { (x y z : OneJudged) → IfOk arg (λ a. a ≡ x) → IfOk low (λ a. a ≡ y) → IfOk high (λ a. a ≡ z)
        → IfOk result (λ j. j ≡ spec.between negated x y z) }
{
    let arg = arg?;
    let low = low?;
    let high = high?;
    judged::between(alloc, negated, arg, low, high)
}

#[inline(never)]
pub fn one_of(
    alloc: Global,
    negated: bool,
    arg: Found<Judged>,
    choices: Found<Parts>,
) -> Found<Judged>
    ensures { (x : OneJudged) (ys : List OneJudged) → IfOk arg (λ a. a ≡ x) → IfOk choices (λ p. AreOf p ys)
        → IfOk result (λ j. j ≡ spec.one_of negated x ys) }
{
    let arg = arg?;
    let choices = choices?;
    judged::one_of(alloc, negated, arg, choices)
}

#[inline(never)]
pub fn like(alloc: Global, negated: bool, arg: Found<Judged>, pattern: &Chars) -> Found<Judged>
    ensures { (x : OneJudged) → IfOk arg (λ a. a ≡ x) → IfOk result (λ j. j ≡ spec.like negated pattern.now x) }
{
    let arg = arg?;
    judged::like(alloc, negated, arg, pattern)
}

#[inline(never)]
pub fn cast(alloc: Global, arg: Found<Judged>, to: SqlType) -> Found<Judged>
    ensures { (x : OneJudged) → IfOk arg (λ a. a ≡ x) → IfOk result (λ j. j ≡ spec.cast to x) }
{
    let arg = arg?;
    judged::cast(alloc, arg, to)
}

#[inline(never)]
pub fn case(
    alloc: Global,
    arg: Found<Perhaps>,
    whens: Found<WhenParts>,
    otherwise: Found<Perhaps>,
) -> Found<Judged>
    ensures { (x z : OnePerhaps) (ws : List JudgedWhen) → IfOk arg (λ a. a ≡ x) → IfOk whens (λ p. AreOfWhens p ws)
        → IfOk otherwise (λ a. a ≡ z) → IfOk result (λ j. j ≡ spec.case x ws z) }
{
    let arg = arg?;
    let whens = whens?;
    let otherwise = otherwise?;
    judged::case(alloc, arg, whens, otherwise)
}

#[inline(never)]
pub fn call(alloc: Global, name: &str, star: bool, args: Found<Parts>) -> Found<Judged>
    ensures { (xs : List OneJudged) → IfOk args (λ p. AreOf p xs) → IfOk result (λ j. j ≡ spec.call name.now star xs) }
{
    let args = args?;
    judged::call(alloc, name, star, args)
}

#[inline(never)]
pub fn there(part: Found<Judged>) -> Found<Perhaps>
    ensures { (x : OneJudged) → IfOk part (λ a. a ≡ x) → IfOk result (λ p. p ≡ spec.there x) }
{
    let part = part?;
    Ok(Perhaps::there(part))
}

/// Appends one more expression.
#[inline(never)]
pub fn with_part(parts: Parts, part: Found<Judged>) -> Found<Parts>
    ensures { (x : OneJudged) (xs : List OneJudged) → IfOk part (λ a. a ≡ x) → AreOf parts xs
        → IfOk result (λ all. AreOf all (xs ++ x ∷ [])) }
{
    let part = part?;
    parts.with(part)
}

/// Appends one more WHEN.
#[inline(never)]
pub fn with_when(parts: WhenParts, cond: Found<Judged>, then: Found<Judged>) -> Found<WhenParts>
    ensures { (x y : OneJudged) (ws : List JudgedWhen) → IfOk cond (λ a. a ≡ x) → IfOk then (λ a. a ≡ y)
        → AreOfWhens parts ws → IfOk result (λ all. AreOfWhens all (ws ++ spec.when x y ∷ [])) }
{
    let cond = cond?;
    let then = then?;
    parts.with(cond, then)
}
