//! Whether two typed trees are the same.

ghost use Rattle.std.specs.Prelude.{◌≡◌, ◌↔◌, IsTrue, List, Option, ℕ};
ghost use Rattle.ksql_expr.specs.declared.typed.TypedNode.TheVariants as node;

use ksql_expr::{AggFun, Exprs, Fun, Typed, TypedNode, TypedWhen, TypedWhens};
use ksql_types::{BinaryOp, Boxed, Chars, SqlType, Value};

/// Whether two trees are the same: the same form with the same parts and the same type.
#[cycle(same)]
pub fn same_tree(a: &Typed, b: &Typed) -> bool
    ensures { IsTrue result ↔ (a.now ≡ b.now) }
{
    a.ty == b.ty && same_node(&a.node, &b.node)
}

/// Whether two forms are the same: they have the same parts.
#[cycle(same)]
pub fn same_node(a: &TypedNode, b: &TypedNode) -> bool
    ensures { IsTrue result ↔ (a.now ≡ b.now) }
{
    match b {
        TypedNode::Literal(value) => is_literal(a, value),
        TypedNode::Column(column) => is_column(a, *column),
        TypedNode::RowTime => is_row_time(a),
        TypedNode::Sign { minus, arg } => is_sign(a, *minus, arg),
        TypedNode::Binary { op, left, right } => is_binary(a, *op, left, right),
        TypedNode::Not(arg) => is_not(a, arg),
        TypedNode::IsNull { negated, arg } => is_is_null(a, *negated, arg),
        TypedNode::Between {
            negated,
            arg,
            low,
            high,
        } => is_between(a, *negated, arg, low, high),
        TypedNode::OneOf {
            negated,
            arg,
            choices,
        } => is_one_of(a, *negated, arg, choices),
        TypedNode::Like {
            negated,
            arg,
            pattern,
        } => is_like(a, *negated, arg, pattern),
        TypedNode::Cast { arg, to } => is_cast(a, arg, *to),
        TypedNode::Case {
            arg,
            whens,
            otherwise,
        } => is_case(a, arg, whens, otherwise),
        TypedNode::Call { fun, args } => is_call(a, *fun, args),
        TypedNode::Aggregate { fun, arg } => is_aggregate(a, *fun, arg),
    }
}

fn is_literal(form: &TypedNode, value: &Value) -> bool
    ensures { IsTrue result ↔ (form.now ≡ node.Literal value.now) }
{
    match form {
        TypedNode::Literal(other) => same_value(other, value),
        _ => false,
    }
}

fn is_column(form: &TypedNode, column: u32) -> bool
    ensures { IsTrue result ↔ (form.now ≡ node.Column column) }
{
    match form {
        TypedNode::Column(other) => *other == column,
        _ => false,
    }
}

fn is_row_time(form: &TypedNode) -> bool
    ensures { IsTrue result ↔ (form.now ≡ node.RowTime) }
{
    match form {
        TypedNode::RowTime => true,
        _ => false,
    }
}

#[cycle(same)]
fn is_sign(form: &TypedNode, minus: bool, arg: &Boxed<Typed>) -> bool
    ensures { IsTrue result ↔ (form.now ≡ node.Sign minus arg.now) }
{
    match form {
        TypedNode::Sign { minus: m, arg: x } => *m == minus && same_boxed(x, arg),
        _ => false,
    }
}

#[cycle(same)]
fn is_binary(form: &TypedNode, op: BinaryOp, left: &Boxed<Typed>, right: &Boxed<Typed>) -> bool
    ensures { IsTrue result ↔ (form.now ≡ node.Binary op left.now right.now) }
{
    match form {
        TypedNode::Binary {
            op: o,
            left: x,
            right: y,
        } => *o == op && same_boxed(x, left) && same_boxed(y, right),
        _ => false,
    }
}

#[cycle(same)]
fn is_not(form: &TypedNode, arg: &Boxed<Typed>) -> bool
    ensures { IsTrue result ↔ (form.now ≡ node.Not arg.now) }
{
    match form {
        TypedNode::Not(x) => same_boxed(x, arg),
        _ => false,
    }
}

#[cycle(same)]
fn is_is_null(form: &TypedNode, negated: bool, arg: &Boxed<Typed>) -> bool
    ensures { IsTrue result ↔ (form.now ≡ node.IsNull negated arg.now) }
{
    match form {
        TypedNode::IsNull { negated: n, arg: x } => *n == negated && same_boxed(x, arg),
        _ => false,
    }
}

#[cycle(same)]
fn is_between(
    form: &TypedNode,
    negated: bool,
    arg: &Boxed<Typed>,
    low: &Boxed<Typed>,
    high: &Boxed<Typed>,
) -> bool
    ensures { IsTrue result ↔ (form.now ≡ node.Between negated arg.now low.now high.now) }
{
    match form {
        TypedNode::Between {
            negated: n,
            arg: x,
            low: y,
            high: z,
        } => *n == negated && same_boxed(x, arg) && same_boxed(y, low) && same_boxed(z, high),
        _ => false,
    }
}

#[cycle(same)]
fn is_one_of(form: &TypedNode, negated: bool, arg: &Boxed<Typed>, choices: &Exprs) -> bool
    ensures { IsTrue result ↔ (form.now ≡ node.OneOf negated arg.now choices.now) }
{
    match form {
        TypedNode::OneOf {
            negated: n,
            arg: x,
            choices: xs,
        } => *n == negated && same_boxed(x, arg) && same_trees(xs, choices),
        _ => false,
    }
}

#[cycle(same)]
fn is_like(form: &TypedNode, negated: bool, arg: &Boxed<Typed>, pattern: &Chars) -> bool
    ensures { IsTrue result ↔ (form.now ≡ node.Like negated arg.now pattern.now) }
{
    match form {
        TypedNode::Like {
            negated: n,
            arg: x,
            pattern: p,
        } => *n == negated && same_boxed(x, arg) && *p == *pattern,
        _ => false,
    }
}

#[cycle(same)]
fn is_cast(form: &TypedNode, arg: &Boxed<Typed>, to: SqlType) -> bool
    ensures { IsTrue result ↔ (form.now ≡ node.Cast arg.now to) }
{
    match form {
        TypedNode::Cast { arg: x, to: t } => *t == to && same_boxed(x, arg),
        _ => false,
    }
}

#[cycle(same)]
fn is_case(
    form: &TypedNode,
    arg: &Option<Boxed<Typed>>,
    whens: &TypedWhens,
    otherwise: &Option<Boxed<Typed>>,
) -> bool
    ensures { IsTrue result ↔ (form.now ≡ node.Case arg.now whens.now otherwise.now) }
{
    match form {
        TypedNode::Case {
            arg: x,
            whens: ws,
            otherwise: y,
        } => same_part(x, arg) && same_whens(ws, whens) && same_part(y, otherwise),
        _ => false,
    }
}

#[cycle(same)]
fn is_call(form: &TypedNode, fun: Fun, args: &Exprs) -> bool
    ensures { IsTrue result ↔ (form.now ≡ node.Call fun args.now) }
{
    match form {
        TypedNode::Call { fun: f, args: xs } => *f == fun && same_trees(xs, args),
        _ => false,
    }
}

#[cycle(same)]
fn is_aggregate(form: &TypedNode, fun: AggFun, arg: &Option<Boxed<Typed>>) -> bool
    ensures { IsTrue result ↔ (form.now ≡ node.Aggregate fun arg.now) }
{
    match form {
        TypedNode::Aggregate { fun: f, arg: x } => *f == fun && same_part(x, arg),
        _ => false,
    }
}

#[cycle(same)]
fn same_boxed(a: &Boxed<Typed>, b: &Boxed<Typed>) -> bool
    ensures { IsTrue result ↔ (a.now ≡ b.now) }
{
    same_tree(a.get(), b.get())
}

#[cycle(same)]
fn same_part(a: &Option<Boxed<Typed>>, b: &Option<Boxed<Typed>>) -> bool
    ensures { IsTrue result ↔ (a.now ≡ b.now) }
{
    match a {
        None => b.is_none(),
        Some(a) => match b {
            None => false,
            Some(b) => same_tree(a.get(), b.get()),
        },
    }
}

#[cycle(same)]
fn same_trees(a: &Exprs, b: &Exprs) -> bool
    ensures { IsTrue result ↔ (a.now ≡ b.now) }
{
    let mut rest = b.items();
    for x in a.items() {
        let [y, more @ ..] = rest else {
            return false;
        };
        if !same_tree(x, y) {
            return false;
        }
        rest = more;
    }
    rest.is_empty()
}

#[cycle(same)]
fn same_when(a: &TypedWhen, b: &TypedWhen) -> bool
    ensures { IsTrue result ↔ (a.now ≡ b.now) }
{
    same_tree(&a.cond, &b.cond) && same_tree(&a.result, &b.result)
}

#[cycle(same)]
fn same_whens(a: &TypedWhens, b: &TypedWhens) -> bool
    ensures { IsTrue result ↔ (a.now ≡ b.now) }
{
    let mut rest = b.items();
    for x in a.items() {
        let [y, more @ ..] = rest else {
            return false;
        };
        if !same_when(x, y) {
            return false;
        }
        rest = more;
    }
    rest.is_empty()
}

/// Whether two values are the same.
fn same_value(a: &Value, b: &Value) -> bool
    ensures { IsTrue result ↔ (a.now ≡ b.now) }
{
    match a {
        Value::Null => match b {
            Value::Null => true,
            _ => false,
        },
        Value::Int(m) => match b {
            Value::Int(n) => *m == *n,
            _ => false,
        },
        Value::Big(m) => match b {
            Value::Big(n) => *m == *n,
            _ => false,
        },
        Value::Txt(s) => match b {
            Value::Txt(t) => *s == *t,
            _ => false,
        },
        Value::Bool(x) => match b {
            Value::Bool(y) => *x == *y,
            _ => false,
        },
    }
}
