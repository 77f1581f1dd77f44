//! A typed tree as it reads after a grouping.

ghost use Rattle.std.specs.Prelude.{◌≡◌, ◌≤◌, ◌^◌, IfOk, List, Option, length, map, option_map};
ghost use Rattle.ksql_expr.specs.declared.typed.Typed.{Typed as Tree};
ghost use Rattle.ksql_expr.specs.declared.typed.TypedNode.TheVariants as form;
ghost use Rattle.ksql_expr.specs.declared.typed.TypedWhen.{TypedWhen as When};
ghost use Rattle.grouped_expressions.specs.Grouped as spec;

use crate::same::same_node;
use ksql_expr::{AggFun, Exprs, Fun, Typed, TypedNode, TypedWhen, TypedWhens};
use ksql_types::{BinaryOp, Boxed, Chars, CopyOf, Items, SqlType};
use std::alloc::{AllocError, Global};

/// The index of the first form of `columns` that is the same as `node`, if any.
fn place_among(columns: &[TypedNode], node: &TypedNode) -> Option<u32>
    requires { length columns.now ≤ 2 ^ 32 }
    ensures { result ≡ spec.place_among columns.now node.now }
{
    for (i, column) in columns.iter().enumerate() {
        if same_node(column, node) {
            return Some(i as u32);
        }
    }
    None
}

/// The tree as it reads after a grouping, over rows whose columns are the forms of `columns`: each largest part that is
/// one of these forms becomes the first such column.
#[cycle(after)]
#[tactic(auto, using(crate::proofs::Becoming::after_forms))]
pub fn after(alloc: Global, tree: &Typed, columns: &[TypedNode]) -> Result<Typed, AllocError>
    requires { length columns.now ≤ 2 ^ 32 }
    ensures { IfOk result (λ made. made ≡ spec.after columns.now tree.now) }
{
    let node = node_after(alloc, &tree.node, columns)?;
    Ok(Typed { ty: tree.ty, node })
}

#[cycle(after)]
#[tactic(auto, using(crate::proofs::Becoming::after_forms))]
fn node_after(
    alloc: Global,
    node: &TypedNode,
    columns: &[TypedNode],
) -> Result<TypedNode, AllocError>
    requires { length columns.now ≤ 2 ^ 32 }
    ensures { IfOk result (λ made. made ≡ spec.node_after columns.now node.now) }
{
    if let Some(place) = place_among(columns, node) {
        return Ok(TypedNode::Column(place));
    }
    match node {
        TypedNode::Literal(_) => node.copy(alloc),
        TypedNode::Column(_) => node.copy(alloc),
        TypedNode::RowTime => node.copy(alloc),
        TypedNode::Sign { minus, arg } => sign_after(alloc, *minus, arg, columns),
        TypedNode::Binary { op, left, right } => binary_of(
            *op,
            boxed_after(alloc, left, columns),
            boxed_after(alloc, right, columns),
        ),
        TypedNode::Not(arg) => not_after(alloc, arg, columns),
        TypedNode::IsNull { negated, arg } => is_null_after(alloc, *negated, arg, columns),
        TypedNode::Between {
            negated,
            arg,
            low,
            high,
        } => between_of(
            *negated,
            boxed_after(alloc, arg, columns),
            boxed_after(alloc, low, columns),
            boxed_after(alloc, high, columns),
        ),
        TypedNode::OneOf {
            negated,
            arg,
            choices,
        } => one_of(
            *negated,
            boxed_after(alloc, arg, columns),
            each_after(alloc, choices, columns),
        ),
        TypedNode::Like {
            negated,
            arg,
            pattern,
        } => like_after(alloc, *negated, arg, pattern, columns),
        TypedNode::Cast { arg, to } => cast_after(alloc, arg, *to, columns),
        TypedNode::Case {
            arg,
            whens,
            otherwise,
        } => case_of(
            part_after(alloc, arg, columns),
            each_when_after(alloc, whens, columns),
            part_after(alloc, otherwise, columns),
        ),
        TypedNode::Call { fun, args } => call_after(alloc, *fun, args, columns),
        TypedNode::Aggregate { fun, arg } => aggregate_after(alloc, *fun, arg, columns),
    }
}

// A rewritten tree, unless memory ran out. A function of its own for each form keeps the stack frame of `node_after`
// small, which stands on the stack once per level of a tree.
type Made<T> = Result<T, AllocError>;

#[cycle(after)]
fn sign_after(
    alloc: Global,
    minus: bool,
    arg: &Boxed<Typed>,
    columns: &[TypedNode],
) -> Made<TypedNode>
    requires { length columns.now ≤ 2 ^ 32 }
    ensures { IfOk result (λ made. made ≡ form.Sign minus (spec.after columns.now arg.now)) }
{
    let arg = boxed_after(alloc, arg, columns)?;
    Ok(TypedNode::Sign { minus, arg })
}

#[cycle(after)]
fn not_after(alloc: Global, arg: &Boxed<Typed>, columns: &[TypedNode]) -> Made<TypedNode>
    requires { length columns.now ≤ 2 ^ 32 }
    ensures { IfOk result (λ made. made ≡ form.Not (spec.after columns.now arg.now)) }
{
    let arg = boxed_after(alloc, arg, columns)?;
    Ok(TypedNode::Not(arg))
}

#[cycle(after)]
fn is_null_after(
    alloc: Global,
    negated: bool,
    arg: &Boxed<Typed>,
    columns: &[TypedNode],
) -> Made<TypedNode>
    requires { length columns.now ≤ 2 ^ 32 }
    ensures { IfOk result (λ made. made ≡ form.IsNull negated (spec.after columns.now arg.now)) }
{
    let arg = boxed_after(alloc, arg, columns)?;
    Ok(TypedNode::IsNull { negated, arg })
}

#[cycle(after)]
fn like_after(
    alloc: Global,
    negated: bool,
    arg: &Boxed<Typed>,
    pattern: &Chars,
    columns: &[TypedNode],
) -> Made<TypedNode>
    requires { length columns.now ≤ 2 ^ 32 }
    ensures { IfOk result (λ made. made ≡ form.Like negated (spec.after columns.now arg.now) pattern.now) }
{
    let arg = boxed_after(alloc, arg, columns)?;
    let pattern = pattern.copy(alloc)?;
    Ok(TypedNode::Like {
        negated,
        arg,
        pattern,
    })
}

#[cycle(after)]
fn cast_after(
    alloc: Global,
    arg: &Boxed<Typed>,
    to: SqlType,
    columns: &[TypedNode],
) -> Made<TypedNode>
    requires { length columns.now ≤ 2 ^ 32 }
    ensures { IfOk result (λ made. made ≡ form.Cast (spec.after columns.now arg.now) to) }
{
    let arg = boxed_after(alloc, arg, columns)?;
    Ok(TypedNode::Cast { arg, to })
}

#[cycle(after)]
fn call_after(alloc: Global, fun: Fun, args: &Exprs, columns: &[TypedNode]) -> Made<TypedNode>
    requires { length columns.now ≤ 2 ^ 32 }
    ensures { IfOk result (λ made. made ≡ form.Call fun (map (spec.after columns.now) args.now)) }
{
    let args = each_after(alloc, args, columns)?;
    Ok(TypedNode::Call { fun, args })
}

#[cycle(after)]
fn aggregate_after(
    alloc: Global,
    fun: AggFun,
    arg: &Option<Boxed<Typed>>,
    columns: &[TypedNode],
) -> Made<TypedNode>
    requires { length columns.now ≤ 2 ^ 32 }
    ensures { IfOk result (λ made. made ≡ form.Aggregate fun (option_map (spec.after columns.now) arg.now)) }
{
    let arg = part_after(alloc, arg, columns)?;
    Ok(TypedNode::Aggregate { fun, arg })
}

#[cycle(after)]
fn boxed_after(alloc: Global, tree: &Boxed<Typed>, columns: &[TypedNode]) -> Made<Boxed<Typed>>
    requires { length columns.now ≤ 2 ^ 32 }
    ensures { IfOk result (λ made. made ≡ spec.after columns.now tree.now) }
{
    Boxed::of(alloc, after(alloc, tree.get(), columns)?)
}

#[cycle(after)]
fn part_after(
    alloc: Global,
    tree: &Option<Boxed<Typed>>,
    columns: &[TypedNode],
) -> Made<Option<Boxed<Typed>>>
    requires { length columns.now ≤ 2 ^ 32 }
    ensures { IfOk result (λ made. made ≡ option_map (spec.after columns.now) tree.now) }
{
    match tree {
        None => Ok(None),
        Some(tree) => {
            let made = after(alloc, tree.get(), columns)?;
            Ok(Some(Boxed::of(alloc, made)?))
        }
    }
}

#[cycle(after)]
fn each_after(alloc: Global, trees: &Exprs, columns: &[TypedNode]) -> Made<Exprs>
    requires { length columns.now ≤ 2 ^ 32 }
    ensures { IfOk result (λ made. made ≡ map (spec.after columns.now) trees.now) }
{
    let mut made = Vec::new(alloc);
    for tree in trees.items() {
        made.push(after(alloc, tree, columns)?)?;
    }
    Ok(Items::of(made))
}

#[cycle(after)]
#[tactic(auto, using(crate::proofs::Becoming::after_forms))]
fn when_after(alloc: Global, when: &TypedWhen, columns: &[TypedNode]) -> Made<TypedWhen>
    requires { length columns.now ≤ 2 ^ 32 }
    ensures { IfOk result (λ made. made ≡ spec.when_after columns.now when.now) }
{
    let cond = after(alloc, &when.cond, columns)?;
    let result = after(alloc, &when.result, columns)?;
    Ok(TypedWhen { cond, result })
}

#[cycle(after)]
fn each_when_after(alloc: Global, whens: &TypedWhens, columns: &[TypedNode]) -> Made<TypedWhens>
    requires { length columns.now ≤ 2 ^ 32 }
    ensures { IfOk result (λ made. made ≡ map (spec.when_after columns.now) whens.now) }
{
    let mut made = Vec::new(alloc);
    for when in whens.items() {
        made.push(when_after(alloc, when, columns)?)?;
    }
    Ok(Items::of(made))
}

fn binary_of(op: BinaryOp, left: Made<Boxed<Typed>>, right: Made<Boxed<Typed>>) -> Made<TypedNode>
    ensures { (a b : Tree) → IfOk left (λ x. x ≡ a) → IfOk right (λ x. x ≡ b)
        → IfOk result (λ made. made ≡ form.Binary op a b) }
{
    let left = left?;
    let right = right?;
    Ok(TypedNode::Binary { op, left, right })
}

fn between_of(
    negated: bool,
    arg: Made<Boxed<Typed>>,
    low: Made<Boxed<Typed>>,
    high: Made<Boxed<Typed>>,
) -> Made<TypedNode>
    ensures { (a b c : Tree) → IfOk arg (λ x. x ≡ a) → IfOk low (λ x. x ≡ b) → IfOk high (λ x. x ≡ c)
        → IfOk result (λ made. made ≡ form.Between negated a b c) }
{
    let arg = arg?;
    let low = low?;
    let high = high?;
    Ok(TypedNode::Between {
        negated,
        arg,
        low,
        high,
    })
}

fn one_of(negated: bool, arg: Made<Boxed<Typed>>, choices: Made<Exprs>) -> Made<TypedNode>
    ensures { (a : Tree) (es : List Tree) → IfOk arg (λ x. x ≡ a) → IfOk choices (λ x. x ≡ es)
        → IfOk result (λ made. made ≡ form.OneOf negated a es) }
{
    let arg = arg?;
    let choices = choices?;
    Ok(TypedNode::OneOf {
        negated,
        arg,
        choices,
    })
}

fn case_of(
    arg: Made<Option<Boxed<Typed>>>,
    whens: Made<TypedWhens>,
    otherwise: Made<Option<Boxed<Typed>>>,
) -> Made<TypedNode>
    ensures { (a b : Option Tree) (ws : List When) → IfOk arg (λ x. x ≡ a) → IfOk whens (λ x. x ≡ ws) → IfOk otherwise (λ x. x ≡ b)
        → IfOk result (λ made. made ≡ form.Case a ws b) }
{
    let arg = arg?;
    let whens = whens?;
    let otherwise = otherwise?;
    Ok(TypedNode::Case {
        arg,
        whens,
        otherwise,
    })
}
