//! Aggregate functions of a list of values.
ghost use Rattle.std.specs.Prelude.{◌≡◌, ◌*◌, ◌^◌, ◌≤◌, ◌≤ℤ◌, length, neg_ℤ, pos, unwrap_or};
ghost use Rattle.std.specs.List.{last_or};
ghost use Rattle.std.specs.Ordering.{is_gt, is_lt};
ghost use Rattle.ksql_types.specs.declared.value.Value.TheVariants.{Null};
ghost use Rattle.ksql_expr.specs.Value.{first_value};
ghost use Rattle.ksql_nodes.specs.Aggregates.{aggregate, amount, balance, better, extreme, present, total};

use ksql_eval::{number_in, whole};
use ksql_expr::AggFun;
use ksql_types::{SqlType, Value};
use row_steps::{greater, lesser};

/// The value of an aggregate function, in its type.
pub fn aggregate(fun: AggFun, ty: Option<SqlType>, values: Vec<Value>) -> Value
    ensures { result ≡ aggregate fun ty values.items }
{
    match fun {
        AggFun::Min => least(values),
        AggFun::Max => greatest(values),
        AggFun::Latest => latest(values),
        AggFun::Earliest => earliest(values),
        counted => number_in(ty, amount(counted, values.as_slice())),
    }
}

/// COUNT or SUM of the values that entered, less that of the values that left, in its type.
pub fn balance(fun: AggFun, ty: Option<SqlType>, entered: Vec<Value>, gone: Vec<Value>) -> Value
    ensures { result ≡ balance fun ty entered.items gone.items }
{
    let entered = amount(fun, entered.as_slice());
    let gone = amount(fun, gone.as_slice());
    number_in(ty, entered - gone)
}

/// The number that COUNT or SUM wraps into the range of its type, and 0 for the other functions.
fn amount(fun: AggFun, values: &[Value]) -> i128
    ensures value { result ≡ amount fun values.now }
    ensures low { neg_ℤ (pos (2 ^ 63 * length values.now)) ≤ℤ result }
    ensures high { result ≤ℤ pos (2 ^ 63 * length values.now) }
{
    match fun {
        AggFun::CountAll => values.len() as i128,
        AggFun::Count => count(values) as i128,
        AggFun::Sum => total(values),
        _ => 0,
    }
}

/// The number of values that aren't NULL.
#[tactic(auto, using(crate::proofs::Lists::few_present))]
fn count(values: &[Value]) -> usize
    ensures value { result ≡ length (present values.now) }
    ensures few { result ≤ length values.now }
{
    values.iter().filter(|value| !value.is_null()).count()
}

/// The sum of the values that aren't NULL.
fn total(values: &[Value]) -> i128
    ensures value { result ≡ total (present values.now) }
    ensures low { neg_ℤ (pos (2 ^ 63 * length values.now)) ≤ℤ result }
    ensures high { result ≤ℤ pos (2 ^ 63 * length values.now) }
{
    let mut total: i128 = 0;
    for value in values {
        total += i128::from(whole(value).unwrap_or(0));
    }
    total
}

/// The least of the values that aren't NULL; NULL if there is none.
fn least(values: Vec<Value>) -> Value
    ensures { result ≡ extreme is_lt (present values.items) }
{
    values
        .into_iter()
        .filter(|value| !value.is_null())
        .fold(Value::Null, lesser_so_far)
}

/// The greatest of the values that aren't NULL; NULL if there is none.
fn greatest(values: Vec<Value>) -> Value
    ensures { result ≡ extreme is_gt (present values.items) }
{
    values
        .into_iter()
        .filter(|value| !value.is_null())
        .fold(Value::Null, greater_so_far)
}

/// The lesser of the best value so far, which may be NULL, and another one.
fn lesser_so_far(best: Value, value: Value) -> Value
    ensures { result ≡ better is_lt best value }
{
    lesser(best, value)
}

/// The greater of the best value so far, which may be NULL, and another one.
fn greater_so_far(best: Value, value: Value) -> Value
    ensures { result ≡ better is_gt best value }
{
    greater(best, value)
}

/// The last value that isn't NULL; NULL if there is none.
#[tactic(auto, using(crate::proofs::Lists::latest_more))]
fn latest(mut values: Vec<Value>) -> Value
    ensures { result ≡ unwrap_or (last_or None (present values.items)) Null }
{
    while let Some(value) = values.pop() {
        if !value.is_null() {
            return value;
        }
    }
    Value::Null
}

/// The first value that isn't NULL; NULL if there is none.
fn earliest(values: Vec<Value>) -> Value
    ensures { result ≡ first_value values.items }
{
    values
        .into_iter()
        .find(|value| !value.is_null())
        .unwrap_or(Value::Null)
}
