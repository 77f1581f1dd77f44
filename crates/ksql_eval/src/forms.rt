//! The value of a form, given the values of its parts. It is kept apart from the functions that evaluate the parts, so
//! that their stack frames stay small.

ghost use Rattle.std.specs.Prelude.{◌≡◌, ◌&&◌, not, Option, Some, IfOk, option_map, unwrap_or};
ghost use Rattle.std.specs.Ordering.{is_ge, is_le, is_eq};
ghost use Rattle.ksql_types.specs.Key.{is_null};
ghost use Rattle.ksql_types.specs.declared.value.Value.{Value as Worth};
ghost use Rattle.ksql_expr.specs.Value.{applied, signed, cast, is_value_like, with_not, widened, compare_so, is_true_value, is_taken, of_one, of_two, of_three};
ghost use Rattle.ksql_eval.specs.Operand.{IsWorth, worth};

use crate::comparison::{is_at_least, is_at_most, is_equal, is_greater, is_less, is_other};
use crate::number::{difference, magnitude, negated, product, quotient, remainder, sum};
use crate::operand::{Evaluated, Operand};
use crate::pattern::is_value_like;
use crate::text::{
    cast_number, cast_text, cast_truth, in_capitals, in_small_letters, joined, length_of,
    middle_of, push_bytes, tail_of, without_spaces,
};
use ksql_expr::Fun;
use ksql_types::{BinaryOp, Chars, SqlType, Value};
use std::alloc::Global;

/// Whether a value is TRUE.
pub fn is_true(value: &Value) -> bool
    ensures { result ≡ is_true_value value.now }
{
    matches!(value, Value::Bool(true))
}

/// A truth value, negated if NOT is written.
pub fn with_not<'a>(negated: bool, truth: bool) -> Operand<'a>
    ensures { worth result ≡ with_not negated truth }
{
    Operand::Made(Value::Bool(negated != truth))
}

/// A number with a sign.
#[inline(never)]
pub fn sign<'a>(
    ty: Option<SqlType>,
    minus: bool,
    arg: Evaluated<Operand<'a>>,
) -> Evaluated<Operand<'a>>
    ensures { (x : Worth) → IsWorth arg.entry x → IsWorth result (signed ty minus x) }
{
    let arg = arg?;
    if minus {
        Ok(Operand::Made(negated(ty, arg.get())))
    } else {
        Ok(arg)
    }
}

/// An operator on two values, in the result type.
#[inline(never)]
pub fn binary<'a>(
    alloc: Global,
    ty: Option<SqlType>,
    op: BinaryOp,
    left: Evaluated<Operand<'a>>,
    right: Evaluated<Operand<'a>>,
) -> Evaluated<Operand<'a>>
    ensures { (x y : Worth) → IsWorth left.entry x → IsWorth right.entry y → IsWorth result (applied ty op x y) }
{
    let left = left?;
    let right = right?;
    let made = apply(alloc, ty, op, left.get(), right.get())?;
    Ok(Operand::Made(made))
}

/// The result of an operator on two values, in the result type.
fn apply(
    alloc: Global,
    ty: Option<SqlType>,
    op: BinaryOp,
    left: &Value,
    right: &Value,
) -> Evaluated<Value>
    ensures { IfOk result (λ value. value ≡ applied ty op left.now right.now) }
{
    Ok(match op {
        BinaryOp::Or => Value::Bool(is_true(left) || is_true(right)),
        BinaryOp::And => Value::Bool(is_true(left) && is_true(right)),
        BinaryOp::Eq => Value::Bool(is_equal(left, right)),
        BinaryOp::Ne => Value::Bool(is_other(left, right)),
        BinaryOp::Lt => Value::Bool(is_less(left, right)),
        BinaryOp::Le => Value::Bool(is_at_most(left, right)),
        BinaryOp::Gt => Value::Bool(is_greater(left, right)),
        BinaryOp::Ge => Value::Bool(is_at_least(left, right)),
        BinaryOp::Add if ty == Some(SqlType::Text) => joined(alloc, left, right)?,
        BinaryOp::Add => sum(ty, left, right),
        BinaryOp::Sub => difference(ty, left, right),
        BinaryOp::Concat => joined(alloc, left, right)?,
        BinaryOp::Mul => product(ty, left, right),
        BinaryOp::Div => quotient(ty, left, right),
        BinaryOp::Rem => remainder(ty, left, right),
    })
}

/// NOT.
#[inline(never)]
pub fn negation<'a>(arg: Evaluated<Operand<'a>>) -> Evaluated<Operand<'a>>
    ensures { (x : Worth) → IsWorth arg.entry x → IsWorth result (Value.Bool (not (is_true_value x))) }
{
    let arg = arg?;
    Ok(Operand::Made(Value::Bool(!is_true(arg.get()))))
}

/// IS NULL, and IS NOT NULL.
#[inline(never)]
pub fn null_test<'a>(negated: bool, arg: Evaluated<Operand<'a>>) -> Evaluated<Operand<'a>>
    ensures { (x : Worth) → IsWorth arg.entry x → IsWorth result (with_not negated (is_null x)) }
{
    let arg = arg?;
    Ok(with_not(negated, arg.get().is_null()))
}

/// BETWEEN.
#[inline(never)]
pub fn between<'a>(
    negated: bool,
    arg: Evaluated<Operand<'a>>,
    low: Evaluated<Operand<'a>>,
    high: Evaluated<Operand<'a>>,
) -> Evaluated<Operand<'a>>
    ensures { (x y z : Worth) → IsWorth arg.entry x → IsWorth low.entry y → IsWorth high.entry z → IsWorth result (with_not negated (compare_so is_ge x y && compare_so is_le x z)) }
{
    let arg = arg?;
    let low = low?;
    let high = high?;
    let found = is_at_least(arg.get(), low.get()) && is_at_most(arg.get(), high.get());
    Ok(with_not(negated, found))
}

/// LIKE.
#[inline(never)]
pub fn like<'a>(
    negated: bool,
    arg: Evaluated<Operand<'a>>,
    pattern: &Chars,
) -> Evaluated<Operand<'a>>
    ensures { (x : Worth) → IsWorth arg.entry x → IsWorth result (with_not negated (is_value_like pattern.now x)) }
{
    let arg = arg?;
    Ok(with_not(negated, is_value_like(pattern, arg.get())))
}

/// CAST of a value to a type.
#[inline(never)]
pub fn cast<'a>(alloc: Global, to: SqlType, arg: Evaluated<Operand<'a>>) -> Evaluated<Operand<'a>>
    ensures { (x : Worth) → IsWorth arg.entry x → IsWorth result (cast to x) }
{
    let arg = arg?;
    let value = arg.get();
    let made = match to {
        SqlType::Int | SqlType::Big => cast_number(to, value),
        SqlType::Text => cast_text(alloc, value)?,
        SqlType::Bool => cast_truth(value),
    };
    Ok(Operand::Made(made))
}

/// A function of one value, in the result type.
#[inline(never)]
pub fn of_one<'a>(
    alloc: Global,
    ty: Option<SqlType>,
    fun: Fun,
    arg: Evaluated<Operand<'a>>,
) -> Evaluated<Operand<'a>>
    ensures { (x : Worth) → IsWorth arg.entry x → IsWorth result (of_one ty fun x) }
{
    let arg = arg?;
    let value = arg.get();
    let made = match fun {
        Fun::Abs => magnitude(ty, value),
        Fun::Len => length_of(value),
        Fun::Trim => without_spaces(alloc, value)?,
        Fun::Ucase => in_capitals(alloc, value)?,
        Fun::Lcase => in_small_letters(alloc, value)?,
        _ => Value::Null,
    };
    Ok(Operand::Made(made))
}

/// A function of two values.
#[inline(never)]
pub fn of_two<'a>(
    alloc: Global,
    fun: Fun,
    first: Evaluated<Operand<'a>>,
    second: Evaluated<Operand<'a>>,
) -> Evaluated<Operand<'a>>
    ensures { (x y : Worth) → IsWorth first.entry x → IsWorth second.entry y → IsWorth result (of_two fun x y) }
{
    let first = first?;
    let second = second?;
    match fun {
        Fun::Substring => Ok(Operand::Made(tail_of(alloc, first.get(), second.get())?)),
        Fun::NullIf if !is_equal(first.get(), second.get()) => Ok(first),
        _ => Ok(Operand::Made(Value::Null)),
    }
}

/// A function of three values.
#[inline(never)]
pub fn of_three<'a>(
    alloc: Global,
    fun: Fun,
    first: Evaluated<Operand<'a>>,
    second: Evaluated<Operand<'a>>,
    third: Evaluated<Operand<'a>>,
) -> Evaluated<Operand<'a>>
    ensures { (x y z : Worth) → IsWorth first.entry x → IsWorth second.entry y → IsWorth third.entry z → IsWorth result (of_three fun x y z) }
{
    let first = first?;
    let second = second?;
    let third = third?;
    match fun {
        Fun::Substring => {
            let middle = middle_of(alloc, first.get(), second.get(), third.get())?;
            Ok(Operand::Made(middle))
        }
        _ => Ok(Operand::Made(Value::Null)),
    }
}

/// The value of an expression that isn't left out.
#[inline(never)]
pub fn there<'a>(value: Evaluated<Operand<'a>>) -> Evaluated<Option<Operand<'a>>>
    ensures { (x : Worth) → IsWorth value.entry x → IfOk result (λ found. option_map worth found ≡ Some x) }
{
    let value = value?;
    Ok(Some(value))
}

/// A value in the result type.
#[inline(never)]
pub fn widened<'a>(ty: Option<SqlType>, value: Evaluated<Operand<'a>>) -> Evaluated<Operand<'a>>
    ensures { (x : Worth) → IsWorth value.entry x → IsWorth result (widened ty x) }
{
    let value = value?;
    Ok(value.widened(ty))
}

/// A value in the result type; NULL if there is none.
#[inline(never)]
pub fn or_null<'a>(
    ty: Option<SqlType>,
    value: Evaluated<Option<Operand<'a>>>,
) -> Evaluated<Operand<'a>>
    ensures { (x : Option Worth) → IfOk value.entry (λ a. option_map worth a ≡ x) → IsWorth result (widened ty (unwrap_or x Value.Null)) }
{
    let value = value?;
    match value {
        Some(value) => Ok(value.widened(ty)),
        None => Ok(Operand::Made(Value::Null)),
    }
}

/// Whether a value equals a choice of IN.
#[inline(never)]
pub fn is_choice(value: &Operand, choice: Evaluated<Operand>) -> Evaluated<bool>
    ensures { (x : Worth) → IsWorth choice.entry x → IfOk result (λ found. found ≡ compare_so is_eq (worth value.now) x) }
{
    let choice = choice?;
    Ok(is_equal(value.get(), choice.get()))
}

/// Whether a WHEN is taken: its condition is TRUE, or equals the operand.
#[inline(never)]
pub fn is_taken(operand: &Option<Operand>, cond: Evaluated<Operand>) -> Evaluated<bool>
    ensures { (x : Worth) → IsWorth cond.entry x → IfOk result (λ taken. taken ≡ is_taken (option_map worth operand.now) x) }
{
    let cond = cond?;
    match operand {
        Some(operand) => Ok(is_equal(operand.get(), cond.get())),
        None => Ok(is_true(cond.get())),
    }
}
