//! Judging an expression in a scope.

ghost use Rattle.std.specs.Prelude.{◌≡◌, ◌≤◌, ◌-◌, ◌^◌, ◌&&◌, not, IfOk, IsTrue, length, map};
ghost use Rattle.ksql_scopes.specs.Functions.{is_aggregate};
ghost use Rattle.ksql_scopes.specs.Scope.{seen};
ghost use Rattle.ksql_scopes.specs.Uses.{IsSmall, are_small, are_whens_small, is_small_perhaps};
ghost use Rattle.ksql_typing.specs.Judged as spec;
ghost use Rattle.ksql_typing.specs.Judged.{AreOf, AreOfWhens, judged, judged_when};

use crate::found::{self, Found};
use crate::judged::{self, Judged, Parts, Perhaps, WhenParts};
use expression_trees::{Expr, WhenText};
use ksql_scopes::{Scope, aggregate_of};
use ksql_types::{BinaryOp, Boxed};
use std::alloc::{AllocError, Global};

/// The findings about an expression in a scope. If `windowed` is true, it can name the bounds of windows.
#[cycle(judge)]
pub fn judge(
    alloc: Global,
    scope: &Scope,
    windowed: bool,
    expr: &Expr,
) -> Result<Judged, AllocError>
    requires small { IsSmall expr.now }
    requires columns { length scope.now.columns ≤ 2 ^ 32 - 2 }
    ensures { IfOk result (λ j. j ≡ judged expr.now (seen windowed scope.now)) }
{
    match expr {
        Expr::Digits(number) => judged::digits(alloc, *number),
        Expr::Text(content) => judged::text(alloc, content),
        Expr::Truth(truth) => judged::truth(alloc, *truth),
        Expr::Null => judged::null(alloc),
        Expr::Name { qualifier, name } => judged::name(alloc, scope, windowed, qualifier, name),
        Expr::Sign { minus, arg } => {
            found::sign(alloc, *minus, judge(alloc, scope, windowed, arg.get()))
        }
        Expr::Binary { op, left, right } => {
            judge_binary(alloc, scope, windowed, *op, left.get(), right.get())
        }
        Expr::Not(arg) => found::negation(alloc, judge(alloc, scope, windowed, arg.get())),
        Expr::IsNull { negated, arg } => {
            found::is_null(alloc, *negated, judge(alloc, scope, windowed, arg.get()))
        }
        Expr::Between {
            negated,
            arg,
            low,
            high,
        } => judge_between(
            alloc,
            scope,
            windowed,
            *negated,
            arg.get(),
            low.get(),
            high.get(),
        ),
        Expr::OneOf {
            negated,
            arg,
            choices,
        } => judge_one_of(alloc, scope, windowed, *negated, arg.get(), choices.items()),
        Expr::Like {
            negated,
            arg,
            pattern,
        } => found::like(
            alloc,
            *negated,
            judge(alloc, scope, windowed, arg.get()),
            pattern,
        ),
        Expr::Cast { arg, to } => {
            found::cast(alloc, judge(alloc, scope, windowed, arg.get()), *to)
        }
        Expr::Case {
            arg,
            whens,
            otherwise,
        } => judge_case(alloc, scope, windowed, arg, whens.items(), otherwise),
        Expr::Call { name, star, args } => {
            judge_call(alloc, scope, windowed, name.items(), *star, args.items())
        }
    }
}

#[cycle(judge)]
#[inline(never)]
fn judge_binary(
    alloc: Global,
    scope: &Scope,
    windowed: bool,
    op: BinaryOp,
    left: &Expr,
    right: &Expr,
) -> Found<Judged>
    requires left { IsSmall left.now }
    requires right { IsSmall right.now }
    requires columns { length scope.now.columns ≤ 2 ^ 32 - 2 }
    ensures { let s = seen windowed scope.now in IfOk result (λ j. j ≡ spec.binary op (judged left.now s) (judged right.now s)) }
{
    found::binary(
        alloc,
        op,
        judge(alloc, scope, windowed, left),
        judge(alloc, scope, windowed, right),
    )
}

#[cycle(judge)]
#[inline(never)]
fn judge_between(
    alloc: Global,
    scope: &Scope,
    windowed: bool,
    negated: bool,
    arg: &Expr,
    low: &Expr,
    high: &Expr,
) -> Found<Judged>
    requires arg { IsSmall arg.now }
    requires low { IsSmall low.now }
    requires high { IsSmall high.now }
    requires columns { length scope.now.columns ≤ 2 ^ 32 - 2 }
    ensures { let s = seen windowed scope.now in
        IfOk result (λ j. j ≡ spec.between negated (judged arg.now s) (judged low.now s) (judged high.now s)) }
{
    found::between(
        alloc,
        negated,
        judge(alloc, scope, windowed, arg),
        judge(alloc, scope, windowed, low),
        judge(alloc, scope, windowed, high),
    )
}

#[cycle(judge)]
#[inline(never)]
fn judge_one_of(
    alloc: Global,
    scope: &Scope,
    windowed: bool,
    negated: bool,
    arg: &Expr,
    choices: &[Expr],
) -> Found<Judged>
    requires arg { IsSmall arg.now }
    requires choices { IsTrue (are_small choices.now) }
    requires columns { length scope.now.columns ≤ 2 ^ 32 - 2 }
    ensures { let s = seen windowed scope.now in
        IfOk result (λ j. j ≡ spec.one_of negated (judged arg.now s) (map (λ a. judged a s) choices.now)) }
{
    found::one_of(
        alloc,
        negated,
        judge(alloc, scope, windowed, arg),
        judge_each(alloc, scope, windowed, choices),
    )
}

#[cycle(judge)]
#[inline(never)]
fn judge_case(
    alloc: Global,
    scope: &Scope,
    windowed: bool,
    arg: &Option<Boxed<Expr>>,
    whens: &[WhenText],
    otherwise: &Option<Boxed<Expr>>,
) -> Found<Judged>
    requires arg { IsTrue (is_small_perhaps arg.now) }
    requires whens { IsTrue (are_whens_small whens.now) }
    requires otherwise { IsTrue (is_small_perhaps otherwise.now) }
    requires columns { length scope.now.columns ≤ 2 ^ 32 - 2 }
    ensures { let s = seen windowed scope.now in
        IfOk result (λ j. j ≡ spec.case (spec.perhaps s arg.now) (map (judged_when s) whens.now) (spec.perhaps s otherwise.now)) }
{
    found::case(
        alloc,
        judge_perhaps(alloc, scope, windowed, arg),
        judge_whens(alloc, scope, windowed, whens),
        judge_perhaps(alloc, scope, windowed, otherwise),
    )
}

/// Whether the arguments of a function can name the bounds of windows.
fn within(name: &str, windowed: bool) -> bool
    ensures { result ≡ (not (is_aggregate name.now) && windowed) }
{
    aggregate_of(name).is_none() && windowed
}

#[cycle(judge)]
#[inline(never)]
fn judge_call(
    alloc: Global,
    scope: &Scope,
    windowed: bool,
    name: &str,
    star: bool,
    args: &[Expr],
) -> Found<Judged>
    requires small { IsTrue (are_small args.now) }
    requires columns { length scope.now.columns ≤ 2 ^ 32 - 2 }
    ensures { let s = seen (not (is_aggregate name.now) && windowed) scope.now in
        IfOk result (λ j. j ≡ spec.call name.now star (map (λ a. judged a s) args.now)) }
{
    let windowed = within(name, windowed);
    found::call(alloc, name, star, judge_each(alloc, scope, windowed, args))
}

#[cycle(judge)]
#[inline(never)]
fn judge_each(alloc: Global, scope: &Scope, windowed: bool, exprs: &[Expr]) -> Found<Parts>
    requires small { IsTrue (are_small exprs.now) }
    requires columns { length scope.now.columns ≤ 2 ^ 32 - 2 }
    ensures { IfOk result (λ parts. AreOf parts (map (λ a. judged a (seen windowed scope.now)) exprs.now)) }
{
    let mut parts = Parts::none(alloc);
    for expr in exprs {
        parts = found::with_part(parts, judge(alloc, scope, windowed, expr))?;
    }
    Ok(parts)
}

#[cycle(judge)]
#[inline(never)]
fn judge_perhaps(
    alloc: Global,
    scope: &Scope,
    windowed: bool,
    expr: &Option<Boxed<Expr>>,
) -> Found<Perhaps>
    requires small { IsTrue (is_small_perhaps expr.now) }
    requires columns { length scope.now.columns ≤ 2 ^ 32 - 2 }
    ensures { IfOk result (λ part. part ≡ spec.perhaps (seen windowed scope.now) expr.now) }
{
    match expr {
        None => Ok(Perhaps::left_out()),
        Some(expr) => found::there(judge(alloc, scope, windowed, expr.get())),
    }
}

#[cycle(judge)]
#[inline(never)]
fn judge_whens(alloc: Global, scope: &Scope, windowed: bool, whens: &[WhenText]) -> Found<WhenParts>
    requires small { IsTrue (are_whens_small whens.now) }
    requires columns { length scope.now.columns ≤ 2 ^ 32 - 2 }
    ensures { IfOk result (λ parts. AreOfWhens parts (map (judged_when (seen windowed scope.now)) whens.now)) }
{
    let mut parts = WhenParts::none(alloc);
    for when in whens {
        let cond = judge(alloc, scope, windowed, &when.cond);
        let then = judge(alloc, scope, windowed, &when.result);
        parts = found::with_when(parts, cond, then)?;
    }
    Ok(parts)
}
