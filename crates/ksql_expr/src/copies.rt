//! Copies of expressions.

ghost use Rattle.std.specs.Prelude.{◌≡◌, ℕ, List, Option, IfOk};
ghost use Rattle.ksql_types.specs.declared.value.Value.{Value as Worth};
ghost use Rattle.ksql_expr.specs.declared.typed.Typed.{Typed as Tree};
ghost use Rattle.ksql_expr.specs.declared.typed.TypedWhen.{TypedWhen as When};

use crate::typed::{AggFun, Exprs, Fun, Typed, TypedNode, TypedWhen, TypedWhens};
use ksql_types::{BinaryOp, Boxed, Chars, CopyOf, Items, SqlType, Value};
use std::alloc::{AllocError, Global};

#[cycle(copy)]
fn copy_typed(alloc: Global, typed: &Typed) -> Result<Typed, AllocError>
    ensures { IfOk result (λ copied. copied ≡ typed.now) }
{
    let node = copy_node(alloc, &typed.node)?;
    Ok(Typed { ty: typed.ty, node })
}

#[cycle(copy)]
fn copy_node(alloc: Global, node: &TypedNode) -> Result<TypedNode, AllocError>
    ensures { IfOk result (λ copied. copied ≡ node.now) }
{
    match node {
        TypedNode::Literal(value) => literal_of(value.copy(alloc)),
        TypedNode::Column(column) => Ok(TypedNode::Column(*column)),
        TypedNode::RowTime => Ok(TypedNode::RowTime),
        TypedNode::Sign { minus, arg } => sign_of(*minus, copy_boxed(alloc, arg)),
        TypedNode::Binary { op, left, right } => {
            binary_of(*op, copy_boxed(alloc, left), copy_boxed(alloc, right))
        }
        TypedNode::Not(arg) => not_of(copy_boxed(alloc, arg)),
        TypedNode::IsNull { negated, arg } => is_null_of(*negated, copy_boxed(alloc, arg)),
        TypedNode::Between {
            negated,
            arg,
            low,
            high,
        } => between_of(
            *negated,
            copy_boxed(alloc, arg),
            copy_boxed(alloc, low),
            copy_boxed(alloc, high),
        ),
        TypedNode::OneOf {
            negated,
            arg,
            choices,
        } => one_of(*negated, copy_boxed(alloc, arg), copy_exprs(alloc, choices)),
        TypedNode::Like {
            negated,
            arg,
            pattern,
        } => like_of(*negated, copy_boxed(alloc, arg), pattern.copy(alloc)),
        TypedNode::Cast { arg, to } => cast_of(copy_boxed(alloc, arg), *to),
        TypedNode::Case {
            arg,
            whens,
            otherwise,
        } => case_of(
            copy_perhaps(alloc, arg),
            copy_whens(alloc, whens),
            copy_perhaps(alloc, otherwise),
        ),
        TypedNode::Call { fun, args } => call_of(*fun, copy_exprs(alloc, args)),
        TypedNode::Aggregate { fun, arg } => aggregate_of(*fun, copy_perhaps(alloc, arg)),
    }
}

// The copy, unless memory ran out. A function of its own for each form keeps the stack frame of `copy_node` small,
// which stands on the stack once per level of a tree.
type Copied<T> = Result<T, AllocError>;

fn literal_of(value: Copied<Value>) -> Result<TypedNode, AllocError>
    ensures { (v : Worth) → IfOk value (λ x. x ≡ v) → IfOk result (λ copied. copied ≡ TypedNode.Literal v) }
{
    let value = value?;
    Ok(TypedNode::Literal(value))
}

fn sign_of(minus: bool, arg: Copied<Boxed<Typed>>) -> Result<TypedNode, AllocError>
    ensures { (a : Tree) → IfOk arg (λ x. x ≡ a) → IfOk result (λ copied. copied ≡ TypedNode.Sign minus a) }
{
    let arg = arg?;
    Ok(TypedNode::Sign { minus, arg })
}

fn binary_of(
    op: BinaryOp,
    left: Copied<Boxed<Typed>>,
    right: Copied<Boxed<Typed>>,
) -> Result<TypedNode, AllocError>
    ensures { (a b : Tree) → IfOk left (λ x. x ≡ a) → IfOk right (λ x. x ≡ b)
        → IfOk result (λ copied. copied ≡ TypedNode.Binary op a b) }
{
    let left = left?;
    let right = right?;
    Ok(TypedNode::Binary { op, left, right })
}

fn not_of(arg: Copied<Boxed<Typed>>) -> Result<TypedNode, AllocError>
    ensures { (a : Tree) → IfOk arg (λ x. x ≡ a) → IfOk result (λ copied. copied ≡ TypedNode.Not a) }
{
    let arg = arg?;
    Ok(TypedNode::Not(arg))
}

fn is_null_of(negated: bool, arg: Copied<Boxed<Typed>>) -> Result<TypedNode, AllocError>
    ensures { (a : Tree) → IfOk arg (λ x. x ≡ a) → IfOk result (λ copied. copied ≡ TypedNode.IsNull negated a) }
{
    let arg = arg?;
    Ok(TypedNode::IsNull { negated, arg })
}

fn between_of(
    negated: bool,
    arg: Copied<Boxed<Typed>>,
    low: Copied<Boxed<Typed>>,
    high: Copied<Boxed<Typed>>,
) -> Result<TypedNode, AllocError>
    ensures { (a b c : Tree) → IfOk arg (λ x. x ≡ a) → IfOk low (λ x. x ≡ b) → IfOk high (λ x. x ≡ c)
        → IfOk result (λ copied. copied ≡ TypedNode.Between negated a b c) }
{
    let arg = arg?;
    let low = low?;
    let high = high?;
    Ok(TypedNode::Between {
        negated,
        arg,
        low,
        high,
    })
}

fn one_of(
    negated: bool,
    arg: Copied<Boxed<Typed>>,
    choices: Copied<Exprs>,
) -> Result<TypedNode, AllocError>
    ensures { (a : Tree) (es : List Tree) → IfOk arg (λ x. x ≡ a) → IfOk choices (λ x. x ≡ es)
        → IfOk result (λ copied. copied ≡ TypedNode.OneOf negated a es) }
{
    let arg = arg?;
    let choices = choices?;
    Ok(TypedNode::OneOf {
        negated,
        arg,
        choices,
    })
}

fn like_of(
    negated: bool,
    arg: Copied<Boxed<Typed>>,
    pattern: Copied<Chars>,
) -> Result<TypedNode, AllocError>
    ensures { (a : Tree) (p : List ℕ) → IfOk arg (λ x. x ≡ a) → IfOk pattern (λ x. x ≡ p)
        → IfOk result (λ copied. copied ≡ TypedNode.Like negated a p) }
{
    let arg = arg?;
    let pattern = pattern?;
    Ok(TypedNode::Like {
        negated,
        arg,
        pattern,
    })
}

fn cast_of(arg: Copied<Boxed<Typed>>, to: SqlType) -> Result<TypedNode, AllocError>
    ensures { (a : Tree) → IfOk arg (λ x. x ≡ a) → IfOk result (λ copied. copied ≡ TypedNode.Cast a to) }
{
    let arg = arg?;
    Ok(TypedNode::Cast { arg, to })
}

fn case_of(
    arg: Copied<Option<Boxed<Typed>>>,
    whens: Copied<TypedWhens>,
    otherwise: Copied<Option<Boxed<Typed>>>,
) -> Result<TypedNode, AllocError>
    ensures { (a : Option Tree) (ws : List When) (o : Option Tree) → IfOk arg (λ x. x ≡ a) → IfOk whens (λ x. x ≡ ws) → IfOk otherwise (λ x. x ≡ o)
        → IfOk result (λ copied. copied ≡ TypedNode.Case a ws o) }
{
    let arg = arg?;
    let whens = whens?;
    let otherwise = otherwise?;
    Ok(TypedNode::Case {
        arg,
        whens,
        otherwise,
    })
}

fn call_of(fun: Fun, args: Copied<Exprs>) -> Result<TypedNode, AllocError>
    ensures { (es : List Tree) → IfOk args (λ x. x ≡ es) → IfOk result (λ copied. copied ≡ TypedNode.Call fun es) }
{
    let args = args?;
    Ok(TypedNode::Call { fun, args })
}

fn aggregate_of(fun: AggFun, arg: Copied<Option<Boxed<Typed>>>) -> Result<TypedNode, AllocError>
    ensures { (a : Option Tree) → IfOk arg (λ x. x ≡ a) → IfOk result (λ copied. copied ≡ TypedNode.Aggregate fun a) }
{
    let arg = arg?;
    Ok(TypedNode::Aggregate { fun, arg })
}

#[cycle(copy)]
fn copy_boxed(alloc: Global, typed: &Boxed<Typed>) -> Result<Boxed<Typed>, AllocError>
    ensures { IfOk result (λ copied. copied ≡ typed.now) }
{
    Boxed::of(alloc, copy_typed(alloc, typed.get())?)
}

#[cycle(copy)]
fn copy_perhaps(
    alloc: Global,
    typed: &Option<Boxed<Typed>>,
) -> Result<Option<Boxed<Typed>>, AllocError>
    ensures { IfOk result (λ copied. copied ≡ typed.now) }
{
    match typed {
        None => Ok(None),
        Some(typed) => Ok(Some(Boxed::of(alloc, copy_typed(alloc, typed.get())?)?)),
    }
}

#[cycle(copy)]
fn copy_exprs(alloc: Global, exprs: &Exprs) -> Result<Exprs, AllocError>
    ensures { IfOk result (λ copied. copied ≡ exprs.now) }
{
    let mut copied = Vec::new(alloc);
    for expr in exprs.items() {
        copied.push(copy_typed(alloc, expr)?)?;
    }
    Ok(Items::of(copied))
}

#[cycle(copy)]
fn copy_when(alloc: Global, when: &TypedWhen) -> Result<TypedWhen, AllocError>
    ensures { IfOk result (λ copied. copied ≡ when.now) }
{
    Ok(TypedWhen {
        cond: copy_typed(alloc, &when.cond)?,
        result: copy_typed(alloc, &when.result)?,
    })
}

#[cycle(copy)]
fn copy_whens(alloc: Global, whens: &TypedWhens) -> Result<TypedWhens, AllocError>
    ensures { IfOk result (λ copied. copied ≡ whens.now) }
{
    let mut copied = Vec::new(alloc);
    for when in whens.items() {
        copied.push(copy_when(alloc, when)?)?;
    }
    Ok(Items::of(copied))
}

impl CopyOf for Typed {
    fn copy(&self, alloc: Global) -> Result<Typed, AllocError> {
        copy_typed(alloc, self)
    }
}

impl CopyOf for TypedNode {
    fn copy(&self, alloc: Global) -> Result<TypedNode, AllocError> {
        copy_node(alloc, self)
    }
}

impl CopyOf for TypedWhen {
    fn copy(&self, alloc: Global) -> Result<TypedWhen, AllocError> {
        copy_when(alloc, self)
    }
}
