//! Whether two expressions are the same.

ghost use Rattle.std.specs.Prelude.{◌≡◌, ◌↔◌, IsTrue};
ghost use Rattle.expression_trees.specs.declared.tree.Expr.TheVariants as forms;
ghost use Rattle.expression_trees.specs.Same.{same_expr};

use crate::tree::{Expr, ExprTexts, WhenText, WhenTexts};
use ksql_types::{BinaryOp, Boxed, Chars, SqlType};

/// Whether two expressions are the same: the same form with the same parts.
pub fn same_expr(a: &Expr, b: &Expr) -> bool
    ensures { result ≡ same_expr a.now b.now }
{
    is_expr(a, b)
}

#[cycle(same)]
fn is_expr(a: &Expr, b: &Expr) -> bool
    ensures { IsTrue result ↔ (a.now ≡ b.now) }
{
    match b {
        Expr::Digits(number) => is_digits(a, *number),
        Expr::Text(content) => is_text(a, content),
        Expr::Truth(truth) => is_truth(a, *truth),
        Expr::Null => is_null(a),
        Expr::Name { qualifier, name } => is_name(a, qualifier, name),
        Expr::Sign { minus, arg } => is_sign(a, *minus, arg),
        Expr::Binary { op, left, right } => is_binary(a, *op, left, right),
        Expr::Not(arg) => is_not(a, arg),
        Expr::IsNull { negated, arg } => is_is_null(a, *negated, arg),
        Expr::Between {
            negated,
            arg,
            low,
            high,
        } => is_between(a, *negated, arg, low, high),
        Expr::OneOf {
            negated,
            arg,
            choices,
        } => is_one_of(a, *negated, arg, choices),
        Expr::Like {
            negated,
            arg,
            pattern,
        } => is_like(a, *negated, arg, pattern),
        Expr::Cast { arg, to } => is_cast(a, arg, *to),
        Expr::Case {
            arg,
            whens,
            otherwise,
        } => is_case(a, arg, whens, otherwise),
        Expr::Call { name, star, args } => is_call(a, name, *star, args),
    }
}

fn is_digits(expr: &Expr, number: u64) -> bool
    ensures { IsTrue result ↔ (expr.now ≡ forms.Digits number) }
{
    match expr {
        Expr::Digits(other) => *other == number,
        _ => false,
    }
}

fn is_text(expr: &Expr, content: &Chars) -> bool
    ensures { IsTrue result ↔ (expr.now ≡ forms.Text content.now) }
{
    match expr {
        Expr::Text(other) => *other == *content,
        _ => false,
    }
}

fn is_truth(expr: &Expr, truth: bool) -> bool
    ensures { IsTrue result ↔ (expr.now ≡ forms.Truth truth) }
{
    match expr {
        Expr::Truth(other) => *other == truth,
        _ => false,
    }
}

fn is_null(expr: &Expr) -> bool
    ensures { IsTrue result ↔ (expr.now ≡ forms.Null) }
{
    match expr {
        Expr::Null => true,
        _ => false,
    }
}

fn is_name(expr: &Expr, qualifier: &Option<Chars>, name: &Chars) -> bool
    ensures { IsTrue result ↔ (expr.now ≡ forms.Name qualifier.now name.now) }
{
    match expr {
        Expr::Name {
            qualifier: q,
            name: n,
        } => is_qualifier(q, qualifier) && *n == *name,
        _ => false,
    }
}

fn is_qualifier(a: &Option<Chars>, b: &Option<Chars>) -> bool
    ensures { IsTrue result ↔ (a.now ≡ b.now) }
{
    match a {
        None => b.is_none(),
        Some(a) => match b {
            None => false,
            Some(b) => *a == *b,
        },
    }
}

#[cycle(same)]
fn is_sign(expr: &Expr, minus: bool, arg: &Boxed<Expr>) -> bool
    ensures { IsTrue result ↔ (expr.now ≡ forms.Sign minus arg.now) }
{
    match expr {
        Expr::Sign { minus: m, arg: x } => *m == minus && is_boxed(x, arg),
        _ => false,
    }
}

#[cycle(same)]
fn is_binary(expr: &Expr, op: BinaryOp, left: &Boxed<Expr>, right: &Boxed<Expr>) -> bool
    ensures { IsTrue result ↔ (expr.now ≡ forms.Binary op left.now right.now) }
{
    match expr {
        Expr::Binary {
            op: o,
            left: x,
            right: y,
        } => *o == op && is_boxed(x, left) && is_boxed(y, right),
        _ => false,
    }
}

#[cycle(same)]
fn is_not(expr: &Expr, arg: &Boxed<Expr>) -> bool
    ensures { IsTrue result ↔ (expr.now ≡ forms.Not arg.now) }
{
    match expr {
        Expr::Not(x) => is_boxed(x, arg),
        _ => false,
    }
}

#[cycle(same)]
fn is_is_null(expr: &Expr, negated: bool, arg: &Boxed<Expr>) -> bool
    ensures { IsTrue result ↔ (expr.now ≡ forms.IsNull negated arg.now) }
{
    match expr {
        Expr::IsNull { negated: n, arg: x } => *n == negated && is_boxed(x, arg),
        _ => false,
    }
}

#[cycle(same)]
fn is_between(
    expr: &Expr,
    negated: bool,
    arg: &Boxed<Expr>,
    low: &Boxed<Expr>,
    high: &Boxed<Expr>,
) -> bool
    ensures { IsTrue result ↔ (expr.now ≡ forms.Between negated arg.now low.now high.now) }
{
    match expr {
        Expr::Between {
            negated: n,
            arg: x,
            low: y,
            high: z,
        } => *n == negated && is_boxed(x, arg) && is_boxed(y, low) && is_boxed(z, high),
        _ => false,
    }
}

#[cycle(same)]
fn is_one_of(expr: &Expr, negated: bool, arg: &Boxed<Expr>, choices: &ExprTexts) -> bool
    ensures { IsTrue result ↔ (expr.now ≡ forms.OneOf negated arg.now choices.now) }
{
    match expr {
        Expr::OneOf {
            negated: n,
            arg: x,
            choices: xs,
        } => *n == negated && is_boxed(x, arg) && are_exprs(xs, choices),
        _ => false,
    }
}

#[cycle(same)]
fn is_like(expr: &Expr, negated: bool, arg: &Boxed<Expr>, pattern: &Chars) -> bool
    ensures { IsTrue result ↔ (expr.now ≡ forms.Like negated arg.now pattern.now) }
{
    match expr {
        Expr::Like {
            negated: n,
            arg: x,
            pattern: p,
        } => *n == negated && is_boxed(x, arg) && *p == *pattern,
        _ => false,
    }
}

#[cycle(same)]
fn is_cast(expr: &Expr, arg: &Boxed<Expr>, to: SqlType) -> bool
    ensures { IsTrue result ↔ (expr.now ≡ forms.Cast arg.now to) }
{
    match expr {
        Expr::Cast { arg: x, to: t } => *t == to && is_boxed(x, arg),
        _ => false,
    }
}

#[cycle(same)]
fn is_case(
    expr: &Expr,
    arg: &Option<Boxed<Expr>>,
    whens: &WhenTexts,
    otherwise: &Option<Boxed<Expr>>,
) -> bool
    ensures { IsTrue result ↔ (expr.now ≡ forms.Case arg.now whens.now otherwise.now) }
{
    match expr {
        Expr::Case {
            arg: x,
            whens: ws,
            otherwise: y,
        } => is_part(x, arg) && are_whens(ws, whens) && is_part(y, otherwise),
        _ => false,
    }
}

#[cycle(same)]
fn is_call(expr: &Expr, name: &Chars, star: bool, args: &ExprTexts) -> bool
    ensures { IsTrue result ↔ (expr.now ≡ forms.Call name.now star args.now) }
{
    match expr {
        Expr::Call {
            name: f,
            star: s,
            args: xs,
        } => *f == *name && *s == star && are_exprs(xs, args),
        _ => false,
    }
}

#[cycle(same)]
fn is_boxed(a: &Boxed<Expr>, b: &Boxed<Expr>) -> bool
    ensures { IsTrue result ↔ (a.now ≡ b.now) }
{
    is_expr(a.get(), b.get())
}

#[cycle(same)]
fn is_part(a: &Option<Boxed<Expr>>, b: &Option<Boxed<Expr>>) -> bool
    ensures { IsTrue result ↔ (a.now ≡ b.now) }
{
    match a {
        None => b.is_none(),
        Some(a) => match b {
            None => false,
            Some(b) => is_expr(a.get(), b.get()),
        },
    }
}

#[cycle(same)]
fn are_exprs(a: &ExprTexts, b: &ExprTexts) -> bool
    ensures { IsTrue result ↔ (a.now ≡ b.now) }
{
    let mut rest = b.items();
    for x in a.items() {
        let [y, more @ ..] = rest else {
            return false;
        };
        if !is_expr(x, y) {
            return false;
        }
        rest = more;
    }
    rest.is_empty()
}

#[cycle(same)]
fn is_when(a: &WhenText, b: &WhenText) -> bool
    ensures { IsTrue result ↔ (a.now ≡ b.now) }
{
    is_expr(&a.cond, &b.cond) && is_expr(&a.result, &b.result)
}

#[cycle(same)]
fn are_whens(a: &WhenTexts, b: &WhenTexts) -> bool
    ensures { IsTrue result ↔ (a.now ≡ b.now) }
{
    let mut rest = b.items();
    for x in a.items() {
        let [y, more @ ..] = rest else {
            return false;
        };
        if !is_when(x, y) {
            return false;
        }
        rest = more;
    }
    rest.is_empty()
}
