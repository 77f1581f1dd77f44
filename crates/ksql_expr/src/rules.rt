ghost use Rattle.std.specs.Prelude.{◌≡◌};
ghost use Rattle.std.specs.List.{list_all};
ghost use Rattle.ksql_expr.specs.Rules.{same_type, fits, is_number, given, wider, are_ordered, are_comparable, binary_type, sign_type, can_cast, joint_of, joint, joint_type, typed, fun_type, agg_type, can_be_when, case_type, is_between_typed, is_in_typed};

use crate::typed::{AggFun, Fun};
use ksql_types::{BinaryOp, SqlType};

/// Whether two types are the same.
pub fn same_type(left: SqlType, right: SqlType) -> bool
    ensures { result ≡ same_type left right }
{
    matches!(
        (left, right),
        (SqlType::Int, SqlType::Int)
            | (SqlType::Big, SqlType::Big)
            | (SqlType::Text, SqlType::Text)
            | (SqlType::Bool, SqlType::Bool)
    )
}

/// Whether an operand of type `ty` fits where `wanted` is expected. None is the type of NULL, which fits every type.
pub fn fits(wanted: SqlType, ty: Option<SqlType>) -> bool
    ensures { result ≡ fits wanted ty }
{
    match ty {
        None => true,
        Some(found) => same_type(wanted, found),
    }
}

/// Whether each operand fits where `wanted` is expected.
fn all_fit(wanted: SqlType, types: &[Option<SqlType>]) -> bool
    ensures { result ≡ list_all (fits wanted) types.now }
{
    types.iter().all(|ty| fits(wanted, *ty))
}

/// Whether an operand fits where a number is expected.
pub fn is_number(ty: Option<SqlType>) -> bool
    ensures { result ≡ is_number ty }
{
    fits(SqlType::Int, ty) || fits(SqlType::Big, ty)
}

/// The type, if a condition holds.
fn given(holds: bool, ty: SqlType) -> Option<SqlType>
    ensures { result ≡ given holds ty }
{
    if holds { Some(ty) } else { None }
}

/// The type of an operation on two numbers: BIGINT if one of them is, else INTEGER.
fn wider(left: Option<SqlType>, right: Option<SqlType>) -> SqlType
    ensures { result ≡ wider left right }
{
    match (left, right) {
        (Some(SqlType::Big), _) => SqlType::Big,
        (_, Some(SqlType::Big)) => SqlType::Big,
        _ => SqlType::Int,
    }
}

/// Whether `<` can compare two operands: two numbers, or two texts.
pub fn are_ordered(left: Option<SqlType>, right: Option<SqlType>) -> bool
    ensures { result ≡ are_ordered left right }
{
    (is_number(left) && is_number(right))
        || (fits(SqlType::Text, left) && fits(SqlType::Text, right))
}

/// Whether `=` can compare two operands: two numbers, two texts or two truth values.
pub fn are_comparable(left: Option<SqlType>, right: Option<SqlType>) -> bool
    ensures { result ≡ are_comparable left right }
{
    are_ordered(left, right) || (fits(SqlType::Bool, left) && fits(SqlType::Bool, right))
}

/// The type of a binary operator's result; None if the operands don't fit it.
pub fn binary_type(op: BinaryOp, left: Option<SqlType>, right: Option<SqlType>) -> Option<SqlType>
    ensures { result ≡ binary_type op left right }
{
    let numbers = is_number(left) && is_number(right);
    let texts = fits(SqlType::Text, left) && fits(SqlType::Text, right);
    let truths = fits(SqlType::Bool, left) && fits(SqlType::Bool, right);
    match op {
        BinaryOp::Or | BinaryOp::And => given(truths, SqlType::Bool),
        BinaryOp::Eq | BinaryOp::Ne => given(are_comparable(left, right), SqlType::Bool),
        BinaryOp::Lt | BinaryOp::Le | BinaryOp::Gt | BinaryOp::Ge => {
            given(are_ordered(left, right), SqlType::Bool)
        }
        BinaryOp::Add if numbers => Some(wider(left, right)),
        BinaryOp::Add | BinaryOp::Concat => given(texts, SqlType::Text),
        BinaryOp::Sub | BinaryOp::Mul | BinaryOp::Div | BinaryOp::Rem => {
            given(numbers, wider(left, right))
        }
    }
}

/// The type of a signed number; None if the operand isn't a number.
pub fn sign_type(ty: Option<SqlType>) -> Option<SqlType>
    ensures { result ≡ sign_type ty }
{
    given(is_number(ty), wider(ty, None))
}

/// Whether CAST converts from one type to the other.
pub fn can_cast(from: Option<SqlType>, to: SqlType) -> bool
    ensures { result ≡ can_cast from to }
{
    match to {
        SqlType::Int | SqlType::Big => is_number(from) || fits(SqlType::Text, from),
        SqlType::Text => true,
        SqlType::Bool => fits(SqlType::Bool, from) || fits(SqlType::Text, from),
    }
}

/// The common type of two results; INTEGER widens to BIGINT.
fn joint_of(left: SqlType, right: SqlType) -> Option<SqlType>
    ensures { result ≡ joint_of left right }
{
    match (left, right) {
        (SqlType::Int, SqlType::Int) => Some(SqlType::Int),
        (SqlType::Int | SqlType::Big, SqlType::Int | SqlType::Big) => Some(SqlType::Big),
        (SqlType::Text, SqlType::Text) => Some(SqlType::Text),
        (SqlType::Bool, SqlType::Bool) => Some(SqlType::Bool),
        _ => None,
    }
}

/// The common type of two results, where None is a result with only the type of NULL.
pub fn joint(left: Option<SqlType>, right: Option<SqlType>) -> Option<Option<SqlType>>
    ensures { result ≡ joint left right }
{
    match (left, right) {
        (None, right) => Some(right),
        (left, None) => Some(left),
        (Some(left), Some(right)) => typed(joint_of(left, right)),
    }
}

/// The common type of some results: `Some(None)` if all have only the type of NULL, None if they differ.
pub fn joint_type(types: &[Option<SqlType>]) -> Option<Option<SqlType>>
    ensures { result ≡ joint_type types.now }
{
    match types {
        [] => Some(None),
        [first, others @ ..] => joint(*first, joint_type(others)?),
    }
}

/// A type as the type of an expression.
fn typed(ty: Option<SqlType>) -> Option<Option<SqlType>>
    ensures { result ≡ typed ty }
{
    match ty {
        Some(found) => Some(Some(found)),
        None => None,
    }
}

/// The type of a function's result: `Some(None)` if it has only the type of NULL, None if the arguments don't fit.
pub fn fun_type(fun: Fun, args: &[Option<SqlType>]) -> Option<Option<SqlType>>
    ensures { result ≡ fun_type fun args.now }
{
    match (fun, args) {
        (Fun::Abs, [number]) => typed(sign_type(*number)),
        (Fun::Len, [text]) => typed(given(fits(SqlType::Text, *text), SqlType::Int)),
        (Fun::Concat, texts) => {
            let fit = texts.len() >= 2 && all_fit(SqlType::Text, texts);
            typed(given(fit, SqlType::Text))
        }
        (Fun::Substring, [text, at]) => {
            let fit = fits(SqlType::Text, *text) && is_number(*at);
            typed(given(fit, SqlType::Text))
        }
        (Fun::Substring, [text, at, len]) => {
            let fit = fits(SqlType::Text, *text) && is_number(*at) && is_number(*len);
            typed(given(fit, SqlType::Text))
        }
        (Fun::Trim | Fun::Ucase | Fun::Lcase, [text]) => {
            typed(given(fits(SqlType::Text, *text), SqlType::Text))
        }
        (Fun::Coalesce, [_, ..]) => joint_type(args),
        (Fun::IfNull, [_, _]) => joint_type(args),
        (Fun::NullIf, [left, right]) if are_comparable(*left, *right) => Some(*left),
        _ => None,
    }
}

/// The type of an aggregate function's result, in the same form. Only COUNT of `*` has no argument.
pub fn agg_type(fun: AggFun, arg: Option<Option<SqlType>>) -> Option<Option<SqlType>>
    ensures { result ≡ agg_type fun arg }
{
    match (fun, arg) {
        (AggFun::CountAll, None) => Some(Some(SqlType::Big)),
        (AggFun::Count, Some(_)) => Some(Some(SqlType::Big)),
        (AggFun::Sum | AggFun::Min | AggFun::Max, Some(number)) => typed(sign_type(number)),
        (AggFun::Latest | AggFun::Earliest, Some(ty)) => Some(ty),
        _ => None,
    }
}

/// Whether a condition can stand in a WHEN: a truth value, or a value comparable to the operand.
pub fn can_be_when(operand: Option<Option<SqlType>>, cond: Option<SqlType>) -> bool
    ensures { result ≡ can_be_when operand cond }
{
    match operand {
        None => fits(SqlType::Bool, cond),
        Some(operand) => are_comparable(operand, cond),
    }
}

/// Whether each condition can stand in a WHEN.
fn can_all_be_when(operand: Option<Option<SqlType>>, conds: &[Option<SqlType>]) -> bool
    ensures { result ≡ list_all (can_be_when operand) conds.now }
{
    conds.iter().all(|cond| can_be_when(operand, *cond))
}

/// The type of a CASE, given the types of its operand, its conditions and its results, ELSE included.
pub fn case_type(
    operand: Option<Option<SqlType>>,
    conds: &[Option<SqlType>],
    results: &[Option<SqlType>],
) -> Option<Option<SqlType>>
    ensures { result ≡ case_type operand conds.now results.now }
{
    if can_all_be_when(operand, conds) {
        joint_type(results)
    } else {
        None
    }
}

/// Whether BETWEEN accepts operands of these types.
pub fn is_between_typed(ty: Option<SqlType>, low: Option<SqlType>, high: Option<SqlType>) -> bool
    ensures { result ≡ is_between_typed ty low high }
{
    are_ordered(ty, low) && are_ordered(ty, high)
}

/// Whether IN accepts an operand and choices of these types.
pub fn is_in_typed(ty: Option<SqlType>, choices: &[Option<SqlType>]) -> bool
    ensures { result ≡ is_in_typed ty choices.now }
{
    choices.iter().all(|choice| are_comparable(ty, *choice))
}
