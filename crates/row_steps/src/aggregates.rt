//! The arguments and the types of aggregates, and which of two values is the least or the greatest.
ghost use Rattle.std.specs.Prelude.{◌≡◌, IfOk};
ghost use Rattle.std.specs.Ordering.{is_gt, is_lt};
ghost use Rattle.ksql_nodes.specs.Aggregates.{argument, better, type_of_agg};

use crate::rows::value_of;
use ksql_eval::{is_greater, is_less};
use ksql_expr::{Typed, agg_type};
use ksql_program::Agg;
use ksql_types::{Row, SqlType, Value};
use std::alloc::{AllocError, Global};

/// The type of an aggregate; none where it has only the type of NULL.
pub fn type_of_agg(agg: &Agg) -> Option<SqlType>
    ensures { result ≡ type_of_agg agg.now }
{
    let arg = agg.arg.as_ref().map(|arg| arg.ty);
    agg_type(agg.fun, arg).unwrap_or(None)
}

/// The value of an aggregate's argument on a row at a time; NULL where it has none.
pub fn argument(
    alloc: Global,
    arg: &Option<Typed>,
    time: u64,
    row: &Row,
) -> Result<Value, AllocError>
    ensures { IfOk result (λ value. value ≡ argument arg.now (record { row = row.now; time = time })) }
{
    match arg {
        Some(arg) => value_of(alloc, arg, time, row),
        None => Ok(Value::Null),
    }
}

/// The value where it is less than the best so far, which may be NULL.
pub fn lesser(best: Value, value: Value) -> Value
    ensures { result ≡ better is_lt best value }
{
    if best.is_null() || is_less(&value, &best) {
        value
    } else {
        best
    }
}

/// The value where it is greater than the best so far, which may be NULL.
pub fn greater(best: Value, value: Value) -> Value
    ensures { result ≡ better is_gt best value }
{
    if best.is_null() || is_greater(&value, &best) {
        value
    } else {
        best
    }
}
