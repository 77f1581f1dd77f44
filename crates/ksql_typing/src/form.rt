//! The forms of typed trees, built from their parts.

ghost use Rattle.std.specs.Prelude.{◌≡◌, ◌≤◌, IfOk, map, option_map};
ghost use Rattle.ksql_expr.specs.Typing.{types};
ghost use Rattle.ksql_expr.specs.Rules.{typed as as_expression};
ghost use Rattle.ksql_typing.specs.Standing.{digits_value, type_of_case, with_otherwise};
ghost use Rattle.ksql_typing.specs.Made as spec;

use ksql_expr::{
    AggFun, Fun, Typed, TypedNode, TypedWhen, agg_type, binary_type, can_cast, case_type, fits,
    fun_type, is_between_typed, is_in_typed, sign_type,
};
use ksql_types::{BinaryOp, Boxed, Chars, CopyOf, Items, SqlType, Value};
use std::alloc::{AllocError, Global};

/// A typed tree on the heap, if any.
pub type HeldTree = Option<Boxed<Typed>>;

/// A form with its type, if it has one.
fn with_type(
    alloc: Global,
    ty: Option<Option<SqlType>>,
    node: TypedNode,
) -> Result<HeldTree, AllocError>
    ensures { IfOk result (λ made. made ≡ spec.with_type ty node) }
{
    let Some(ty) = ty else {
        drop(node);
        return Ok(None);
    };
    Ok(Some(Boxed::of(alloc, Typed { ty, node })?))
}

/// A form whose value is a truth value, if its parts fit.
fn truth_where(alloc: Global, holds: bool, node: TypedNode) -> Result<HeldTree, AllocError>
    ensures { IfOk result (λ made. made ≡ spec.truth_where holds node) }
{
    let ty = if holds {
        Some(Some(SqlType::Bool))
    } else {
        None
    };
    with_type(alloc, ty, node)
}

pub fn digits(number: u64) -> Typed
    requires { number ≤ 9223372036854775807 }
    ensures { spec.literal_tree (digits_value number) ≡ Some result }
{
    if number <= 2147483647 {
        return Typed {
            ty: Some(SqlType::Int),
            node: TypedNode::Literal(Value::Int(number as i32)),
        };
    }
    Typed {
        ty: Some(SqlType::Big),
        node: TypedNode::Literal(Value::Big(number as i64)),
    }
}

pub fn text(alloc: Global, content: &Chars) -> Result<Typed, AllocError>
    ensures { IfOk result (λ made. spec.literal_tree (Value.Txt content.now) ≡ Some made) }
{
    Ok(Typed {
        ty: Some(SqlType::Text),
        node: TypedNode::Literal(Value::Txt(content.copy(alloc)?)),
    })
}

pub fn truth(truth: bool) -> Typed
    ensures { spec.literal_tree (Value.Bool truth) ≡ Some result }
{
    Typed {
        ty: Some(SqlType::Bool),
        node: TypedNode::Literal(Value::Bool(truth)),
    }
}

pub fn null() -> Typed
    ensures { spec.literal_tree Value.Null ≡ Some result }
{
    Typed {
        ty: None,
        node: TypedNode::Literal(Value::Null),
    }
}

pub fn sign(alloc: Global, minus: bool, arg: Boxed<Typed>) -> Result<HeldTree, AllocError>
    ensures { IfOk result (λ made. made ≡ spec.sign_tree minus arg) }
{
    let ty = found(sign_type(arg.get().ty));
    with_type(alloc, ty, TypedNode::Sign { minus, arg })
}

pub fn binary(
    alloc: Global,
    op: BinaryOp,
    left: Boxed<Typed>,
    right: Boxed<Typed>,
) -> Result<HeldTree, AllocError>
    ensures { IfOk result (λ made. made ≡ spec.binary_tree op left right) }
{
    let ty = found(binary_type(op, left.get().ty, right.get().ty));
    with_type(alloc, ty, TypedNode::Binary { op, left, right })
}

pub fn not(alloc: Global, arg: Boxed<Typed>) -> Result<HeldTree, AllocError>
    ensures { IfOk result (λ made. made ≡ spec.not_tree arg) }
{
    let holds = fits(SqlType::Bool, arg.get().ty);
    truth_where(alloc, holds, TypedNode::Not(arg))
}

pub fn is_null(alloc: Global, negated: bool, arg: Boxed<Typed>) -> Result<HeldTree, AllocError>
    ensures { IfOk result (λ made. made ≡ spec.is_null_tree negated arg) }
{
    truth_where(alloc, true, TypedNode::IsNull { negated, arg })
}

pub fn between(
    alloc: Global,
    negated: bool,
    arg: Boxed<Typed>,
    low: Boxed<Typed>,
    high: Boxed<Typed>,
) -> Result<HeldTree, AllocError>
    ensures { IfOk result (λ made. made ≡ spec.between_tree negated arg low high) }
{
    let holds = is_between_typed(arg.get().ty, low.get().ty, high.get().ty);
    let node = TypedNode::Between {
        negated,
        arg,
        low,
        high,
    };
    truth_where(alloc, holds, node)
}

pub fn one_of(
    alloc: Global,
    negated: bool,
    arg: Boxed<Typed>,
    choices: Vec<Typed>,
) -> Result<HeldTree, AllocError>
    ensures { IfOk result (λ made. made ≡ spec.one_of_tree negated arg choices.items) }
{
    let holds = is_in_typed(arg.get().ty, &types_of(alloc, &choices)?);
    let choices = Items::of(choices);
    let node = TypedNode::OneOf {
        negated,
        arg,
        choices,
    };
    truth_where(alloc, holds, node)
}

pub fn like(
    alloc: Global,
    negated: bool,
    arg: Boxed<Typed>,
    pattern: &Chars,
) -> Result<HeldTree, AllocError>
    ensures { IfOk result (λ made. made ≡ spec.like_tree negated pattern.now arg) }
{
    let holds = fits(SqlType::Text, arg.get().ty);
    let pattern = pattern.copy(alloc)?;
    let node = TypedNode::Like {
        negated,
        arg,
        pattern,
    };
    truth_where(alloc, holds, node)
}

pub fn cast(alloc: Global, arg: Boxed<Typed>, to: SqlType) -> Result<HeldTree, AllocError>
    ensures { IfOk result (λ made. made ≡ spec.cast_tree to arg) }
{
    if !can_cast(arg.get().ty, to) {
        return Ok(None);
    }
    with_type(alloc, Some(Some(to)), TypedNode::Cast { arg, to })
}

pub fn call(alloc: Global, fun: Fun, args: Vec<Typed>) -> Result<HeldTree, AllocError>
    ensures { IfOk result (λ made. made ≡ spec.call_tree fun args.items) }
{
    let ty = fun_type(fun, &types_of(alloc, &args)?);
    let args = Items::of(args);
    with_type(alloc, ty, TypedNode::Call { fun, args })
}

pub fn aggregate(alloc: Global, fun: AggFun, arg: Typed) -> Result<HeldTree, AllocError>
    ensures { IfOk result (λ made. made ≡ spec.aggregate_tree fun arg) }
{
    let ty = agg_type(fun, Some(arg.ty));
    let arg = Some(Boxed::of(alloc, arg)?);
    with_type(alloc, ty, TypedNode::Aggregate { fun, arg })
}

pub fn count_all() -> Typed
    ensures { spec.count_all_tree ≡ Some result }
{
    Typed {
        ty: Some(SqlType::Big),
        node: TypedNode::Aggregate {
            fun: AggFun::CountAll,
            arg: None,
        },
    }
}

pub fn case(
    alloc: Global,
    arg: HeldTree,
    whens: Vec<TypedWhen>,
    otherwise: HeldTree,
) -> Result<HeldTree, AllocError>
    ensures { IfOk result (λ made. made ≡ spec.case_tree arg whens.items otherwise) }
{
    let ty = type_of_case(alloc, &arg, &whens, &otherwise)?;
    let whens = Items::of(whens);
    let node = TypedNode::Case {
        arg,
        whens,
        otherwise,
    };
    with_type(alloc, ty, node)
}

fn type_of_case(
    alloc: Global,
    arg: &HeldTree,
    whens: &[TypedWhen],
    otherwise: &HeldTree,
) -> Result<Option<Option<SqlType>>, AllocError>
    ensures { IfOk result (λ ty. ty ≡ type_of_case arg.now whens.now otherwise.now) }
{
    let conds = conds_of(alloc, whens)?;
    let results = results_of(alloc, whens, type_of(otherwise))?;
    Ok(case_type(type_of(arg), &conds, &results))
}

fn found(ty: Option<SqlType>) -> Option<Option<SqlType>>
    ensures { result ≡ as_expression ty }
{
    match ty {
        Some(ty) => Some(Some(ty)),
        None => None,
    }
}

fn type_of(part: &HeldTree) -> Option<Option<SqlType>>
    ensures { result ≡ option_map (λ e. e.ty) part.now }
{
    match part {
        Some(part) => Some(part.get().ty),
        None => None,
    }
}

fn types_of(alloc: Global, parts: &[Typed]) -> Result<Vec<Option<SqlType>>, AllocError>
    ensures { IfOk result (λ found. found.items ≡ types parts.now) }
{
    let mut found = Vec::new(alloc);
    for part in parts {
        found.push(part.ty)?;
    }
    Ok(found)
}

fn conds_of(alloc: Global, whens: &[TypedWhen]) -> Result<Vec<Option<SqlType>>, AllocError>
    ensures { IfOk result (λ found. found.items ≡ map (λ w. w.cond.ty) whens.now) }
{
    let mut found = Vec::new(alloc);
    for when in whens {
        found.push(when.cond.ty)?;
    }
    Ok(found)
}

fn results_of(
    alloc: Global,
    whens: &[TypedWhen],
    otherwise: Option<Option<SqlType>>,
) -> Result<Vec<Option<SqlType>>, AllocError>
    ensures { IfOk result (λ found. found.items ≡ with_otherwise (map (λ w. w.result.ty) whens.now) otherwise) }
{
    let mut found = Vec::new(alloc);
    for when in whens {
        found.push(when.result.ty)?;
    }
    if let Some(ty) = otherwise {
        found.push(ty)?;
    }
    Ok(found)
}
