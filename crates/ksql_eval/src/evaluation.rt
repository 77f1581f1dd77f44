//! The value of an expression on a row. Functions whose frames stand on the stack once per level of an expression
//! aren't inlined, and leave the work on the values of the parts to `forms`, so that their frames stay small.

ghost use Rattle.std.specs.Prelude.{◌≡◌, ◌&&◌, not, IfOk, map, option_map};
ghost use Rattle.std.specs.List.{list_any, flat_map};
ghost use Rattle.std.specs.Ordering.{is_eq, is_ge, is_le};
ghost use Rattle.ksql_types.specs.Key.{is_null};
ghost use Rattle.ksql_expr.specs.Value.{value_of, cell, applied, signed, cast, is_value_like, with_not, widened, compare_so, is_true_value, chosen, first_value, fun_value, text, bytes_of, of_one, of_two, of_three, of_few};
ghost use Rattle.ksql_eval.specs.Operand.{IsWorth, worth, whens_of};
ghost use Rattle.ksql_eval.specs.View.{cells, value_on};

use crate::forms::{self, is_true, with_not};
use crate::operand::{Evaluated, Operand};
use crate::text::push_bytes;
use crate::view::RowView;
use ksql_expr::{Fun, Typed, TypedNode, TypedWhen};
use ksql_types::{BinaryOp, Boxed as Box, Chars, SqlType, Value};
use std::alloc::{AllocError, Global};

/// The value of an expression on a row at a time. A column that the row lacks is NULL, and so is an aggregate, which
/// has no value on a single row.
pub fn eval(alloc: Global, typed: &Typed, view: &RowView) -> Result<Value, AllocError>
    ensures { IfOk result (λ value. value ≡ value_of (cells view.now) view.now.time typed.now) }
{
    operand_of(alloc, typed, view)?.into_value(alloc)
}

/// Whether a condition holds on a row: its value is TRUE.
pub fn holds(alloc: Global, on: &Typed, view: &RowView) -> Result<bool, AllocError>
    ensures { IfOk result (λ passed. passed ≡ is_true_value (value_of (cells view.now) view.now.time on.now)) }
{
    let truth = operand_of(alloc, on, view)?;
    Ok(is_true(truth.get()))
}

/// The value of an expression, borrowed if it is a literal or a column.
#[cycle(eval)]
#[inline(never)]
fn operand_of<'a>(alloc: Global, typed: &'a Typed, view: &RowView<'a>) -> Evaluated<Operand<'a>>
    ensures { IsWorth result (value_on view.now typed.now) }
{
    match &typed.node {
        TypedNode::Literal(value) => Ok(Operand::Lent(value)),
        TypedNode::Column(column) => Ok(cell(view, *column)),
        TypedNode::RowTime => Ok(Operand::Made(Value::Big(view.time.cast_signed()))),
        TypedNode::Sign { minus, arg } => sign_of(alloc, typed.ty, *minus, arg.get(), view),
        TypedNode::Binary { op, left, right } => {
            binary_of(alloc, typed.ty, *op, left.get(), right.get(), view)
        }
        TypedNode::Not(arg) => not_of(alloc, arg.get(), view),
        TypedNode::IsNull { negated, arg } => is_null_of(alloc, *negated, arg.get(), view),
        TypedNode::Between {
            negated,
            arg,
            low,
            high,
        } => between_of(alloc, *negated, arg.get(), low.get(), high.get(), view),
        TypedNode::OneOf {
            negated,
            arg,
            choices,
        } => one_of(alloc, *negated, choices.items(), arg.get(), view),
        TypedNode::Like {
            negated,
            arg,
            pattern,
        } => like_of(alloc, *negated, arg.get(), pattern, view),
        TypedNode::Cast { arg, to } => cast_of(alloc, arg.get(), *to, view),
        TypedNode::Case {
            arg,
            whens,
            otherwise,
        } => case_of(alloc, typed.ty, whens.items(), arg, otherwise, view),
        TypedNode::Call { fun, args } => call_of(alloc, typed.ty, *fun, args.items(), view),
        TypedNode::Aggregate { .. } => Ok(Operand::Made(Value::Null)),
    }
}

/// A sign and its number.
#[cycle(eval)]
#[inline(never)]
fn sign_of<'a>(
    alloc: Global,
    ty: Option<SqlType>,
    minus: bool,
    arg: &'a Typed,
    view: &RowView<'a>,
) -> Evaluated<Operand<'a>>
    ensures { IsWorth result (signed ty minus (value_on view.now arg.now)) }
{
    forms::sign(ty, minus, operand_of(alloc, arg, view))
}

/// An operator and its two expressions, in the result type.
#[cycle(eval)]
#[inline(never)]
fn binary_of<'a>(
    alloc: Global,
    ty: Option<SqlType>,
    op: BinaryOp,
    left: &'a Typed,
    right: &'a Typed,
    view: &RowView<'a>,
) -> Evaluated<Operand<'a>>
    ensures { IsWorth result (applied ty op (value_on view.now left.now) (value_on view.now right.now)) }
{
    forms::binary(
        alloc,
        ty,
        op,
        operand_of(alloc, left, view),
        operand_of(alloc, right, view),
    )
}

/// NOT.
#[cycle(eval)]
#[inline(never)]
fn not_of<'a>(alloc: Global, arg: &'a Typed, view: &RowView<'a>) -> Evaluated<Operand<'a>>
    ensures { IsWorth result (Value.Bool (not (is_true_value (value_on view.now arg.now)))) }
{
    forms::negation(operand_of(alloc, arg, view))
}

/// IS NULL, and IS NOT NULL.
#[cycle(eval)]
#[inline(never)]
fn is_null_of<'a>(
    alloc: Global,
    negated: bool,
    arg: &'a Typed,
    view: &RowView<'a>,
) -> Evaluated<Operand<'a>>
    ensures { IsWorth result (with_not negated (is_null (value_on view.now arg.now))) }
{
    forms::null_test(negated, operand_of(alloc, arg, view))
}

/// BETWEEN.
#[cycle(eval)]
#[inline(never)]
fn between_of<'a>(
    alloc: Global,
    negated: bool,
    arg: &'a Typed,
    low: &'a Typed,
    high: &'a Typed,
    view: &RowView<'a>,
) -> Evaluated<Operand<'a>>
    ensures { IsWorth result (with_not negated (compare_so is_ge (value_on view.now arg.now) (value_on view.now low.now) && compare_so is_le (value_on view.now arg.now) (value_on view.now high.now))) }
{
    forms::between(
        negated,
        operand_of(alloc, arg, view),
        operand_of(alloc, low, view),
        operand_of(alloc, high, view),
    )
}

/// IN.
#[cycle(eval)]
#[inline(never)]
fn one_of<'a>(
    alloc: Global,
    negated: bool,
    choices: &'a [Typed],
    arg: &'a Typed,
    view: &RowView<'a>,
) -> Evaluated<Operand<'a>>
    ensures { IsWorth result (with_not negated (list_any (compare_so is_eq (value_on view.now arg.now)) (map (value_on view.now) choices.now))) }
{
    let value = operand_of(alloc, arg, view)?;
    for choice in choices {
        let found = forms::is_choice(&value, operand_of(alloc, choice, view))?;
        if found {
            return Ok(with_not(negated, true));
        }
    }
    Ok(with_not(negated, false))
}

/// LIKE.
#[cycle(eval)]
#[inline(never)]
fn like_of<'a>(
    alloc: Global,
    negated: bool,
    arg: &'a Typed,
    pattern: &'a Chars,
    view: &RowView<'a>,
) -> Evaluated<Operand<'a>>
    ensures { IsWorth result (with_not negated (is_value_like pattern.now (value_on view.now arg.now))) }
{
    forms::like(negated, operand_of(alloc, arg, view), pattern)
}

/// CAST.
#[cycle(eval)]
#[inline(never)]
fn cast_of<'a>(
    alloc: Global,
    arg: &'a Typed,
    to: SqlType,
    view: &RowView<'a>,
) -> Evaluated<Operand<'a>>
    ensures { IsWorth result (cast to (value_on view.now arg.now)) }
{
    forms::cast(alloc, to, operand_of(alloc, arg, view))
}

/// CASE, in the result type: the result of the first WHEN that is taken, else that of ELSE.
#[cycle(eval)]
#[inline(never)]
fn case_of<'a>(
    alloc: Global,
    ty: Option<SqlType>,
    whens: &'a [TypedWhen],
    arg: &'a Option<Box<Typed>>,
    otherwise: &'a Option<Box<Typed>>,
    view: &RowView<'a>,
) -> Evaluated<Operand<'a>>
    ensures { IsWorth result (widened ty (chosen (option_map (value_on view.now) arg.now) (whens_of (cells view.now) view.now.time whens.now) (option_map (value_on view.now) otherwise.now))) }
{
    let operand = perhaps(alloc, arg, view)?;
    for when in whens {
        let taken = forms::is_taken(&operand, operand_of(alloc, &when.cond, view))?;
        if taken {
            return forms::widened(ty, operand_of(alloc, &when.result, view));
        }
    }
    forms::or_null(ty, perhaps(alloc, otherwise, view))
}

/// The value of an optional expression.
#[cycle(eval)]
#[inline(never)]
fn perhaps<'a>(
    alloc: Global,
    typed: &'a Option<Box<Typed>>,
    view: &RowView<'a>,
) -> Evaluated<Option<Operand<'a>>>
    ensures { IfOk result (λ found. option_map worth found ≡ option_map (value_on view.now) typed.now) }
{
    match typed {
        Some(typed) => forms::there(operand_of(alloc, typed.get(), view)),
        None => Ok(None),
    }
}

/// A function and its arguments, in the result type.
#[cycle(eval)]
#[inline(never)]
fn call_of<'a>(
    alloc: Global,
    ty: Option<SqlType>,
    fun: Fun,
    args: &'a [Typed],
    view: &RowView<'a>,
) -> Evaluated<Operand<'a>>
    ensures { IsWorth result (fun_value ty fun (map (value_on view.now) args.now)) }
{
    match fun {
        Fun::Concat => concatenated(alloc, args, view),
        Fun::Coalesce => coalesced(alloc, ty, args, view),
        Fun::IfNull => coalesced(alloc, ty, args, view),
        few => of_few(alloc, ty, few, args, view),
    }
}

/// The concatenation of texts, where NULL counts as the empty text; NULL if the result is too long.
#[cycle(eval)]
#[inline(never)]
fn concatenated<'a>(alloc: Global, args: &'a [Typed], view: &RowView<'a>) -> Evaluated<Operand<'a>>
    ensures { IsWorth result (text (flat_map bytes_of (map (value_on view.now) args.now))) }
{
    let mut whole = String::new(alloc);
    for arg in args {
        let arg = operand_of(alloc, arg, view)?;
        if !push_bytes(&mut whole, arg.get())? {
            return Ok(Operand::Made(Value::Null));
        }
    }
    Ok(Operand::Made(Value::Txt(Chars::of(whole)?)))
}

/// The first value that isn't NULL, in the result type; else NULL.
#[cycle(eval)]
#[inline(never)]
fn coalesced<'a>(
    alloc: Global,
    ty: Option<SqlType>,
    args: &'a [Typed],
    view: &RowView<'a>,
) -> Evaluated<Operand<'a>>
    ensures { IsWorth result (widened ty (first_value (map (value_on view.now) args.now))) }
{
    for arg in args {
        let arg = operand_of(alloc, arg, view)?;
        if !arg.get().is_null() {
            return Ok(arg.widened(ty));
        }
    }
    Ok(Operand::Made(Value::Null))
}

/// A function of one, two or three arguments.
#[cycle(eval)]
#[inline(never)]
fn of_few<'a>(
    alloc: Global,
    ty: Option<SqlType>,
    fun: Fun,
    args: &'a [Typed],
    view: &RowView<'a>,
) -> Evaluated<Operand<'a>>
    ensures { IsWorth result (of_few ty fun (map (value_on view.now) args.now)) }
{
    match args {
        [arg] => of_one(alloc, ty, fun, arg, view),
        [first, second] => of_two(alloc, fun, first, second, view),
        [first, second, third] => of_three(alloc, fun, first, second, third, view),
        _ => Ok(Operand::Made(Value::Null)),
    }
}

/// A function of one argument, in the result type.
#[cycle(eval)]
#[inline(never)]
fn of_one<'a>(
    alloc: Global,
    ty: Option<SqlType>,
    fun: Fun,
    arg: &'a Typed,
    view: &RowView<'a>,
) -> Evaluated<Operand<'a>>
    ensures { IsWorth result (of_one ty fun (value_on view.now arg.now)) }
{
    forms::of_one(alloc, ty, fun, operand_of(alloc, arg, view))
}

/// A function of two arguments.
#[cycle(eval)]
#[inline(never)]
fn of_two<'a>(
    alloc: Global,
    fun: Fun,
    first: &'a Typed,
    second: &'a Typed,
    view: &RowView<'a>,
) -> Evaluated<Operand<'a>>
    ensures { IsWorth result (of_two fun (value_on view.now first.now) (value_on view.now second.now)) }
{
    forms::of_two(
        alloc,
        fun,
        operand_of(alloc, first, view),
        operand_of(alloc, second, view),
    )
}

/// A function of three arguments.
#[cycle(eval)]
#[inline(never)]
fn of_three<'a>(
    alloc: Global,
    fun: Fun,
    first: &'a Typed,
    second: &'a Typed,
    third: &'a Typed,
    view: &RowView<'a>,
) -> Evaluated<Operand<'a>>
    ensures { IsWorth result (of_three fun (value_on view.now first.now) (value_on view.now second.now) (value_on view.now third.now)) }
{
    forms::of_three(
        alloc,
        fun,
        operand_of(alloc, first, view),
        operand_of(alloc, second, view),
        operand_of(alloc, third, view),
    )
}

/// The cell of a column, where the key's columns come first; NULL if the row has no such column.
fn cell<'a>(view: &RowView<'a>, column: u32) -> Operand<'a>
    ensures { worth result ≡ cell (cells view.now) column }
{
    let column = column as usize;
    match view.key.get(column) {
        Some(value) => Operand::Lent(value),
        None => cell_at(view.row, column - view.key.len()),
    }
}

/// The cell at an index; NULL if there is none.
fn cell_at(row: &[Value], index: usize) -> Operand<'_>
    ensures { worth result ≡ cell row.now index }
{
    match row.get(index) {
        Some(value) => Operand::Lent(value),
        None => Operand::Made(Value::Null),
    }
}
