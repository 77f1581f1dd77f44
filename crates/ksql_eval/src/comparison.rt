ghost use Rattle.std.specs.Prelude.{◌≡◌};
ghost use Rattle.std.specs.Ordering.{is_lt, is_le, is_gt, is_ge, is_eq, is_ne};
ghost use Rattle.ksql_expr.specs.Value.{value_order, compare_so};

use ksql_types::Value;
use std::cmp::Ordering;

/// Compares two values: numbers by value, texts by bytes, false before true. None if one is NULL, or if their types
/// can't be compared.
pub fn value_order(left: &Value, right: &Value) -> Option<Ordering>
    ensures { result ≡ value_order left.now right.now }
{
    match (left, right) {
        (Value::Int(left), Value::Int(right)) => Some(left.cmp(right)),
        (Value::Int(left), Value::Big(right)) => Some(i64::from(*left).cmp(right)),
        (Value::Big(left), Value::Int(right)) => Some(left.cmp(&i64::from(*right))),
        (Value::Big(left), Value::Big(right)) => Some(left.cmp(right)),
        (Value::Txt(left), Value::Txt(right)) => Some(left.cmp(right)),
        (Value::Bool(left), Value::Bool(right)) => Some(left.cmp(right)),
        _ => None,
    }
}

/// `=`; false if one is NULL.
pub fn is_equal(left: &Value, right: &Value) -> bool
    ensures { result ≡ compare_so is_eq left.now right.now }
{
    match value_order(left, right) {
        Some(order) => order.is_eq(),
        None => false,
    }
}

/// `<>`; false if one is NULL.
pub fn is_other(left: &Value, right: &Value) -> bool
    ensures { result ≡ compare_so is_ne left.now right.now }
{
    match value_order(left, right) {
        Some(order) => order.is_ne(),
        None => false,
    }
}

/// `<`; false if one is NULL.
pub fn is_less(left: &Value, right: &Value) -> bool
    ensures { result ≡ compare_so is_lt left.now right.now }
{
    match value_order(left, right) {
        Some(order) => order.is_lt(),
        None => false,
    }
}

/// `<=`; false if one is NULL.
pub fn is_at_most(left: &Value, right: &Value) -> bool
    ensures { result ≡ compare_so is_le left.now right.now }
{
    match value_order(left, right) {
        Some(order) => order.is_le(),
        None => false,
    }
}

/// `>`; false if one is NULL.
pub fn is_greater(left: &Value, right: &Value) -> bool
    ensures { result ≡ compare_so is_gt left.now right.now }
{
    match value_order(left, right) {
        Some(order) => order.is_gt(),
        None => false,
    }
}

/// `>=`; false if one is NULL.
pub fn is_at_least(left: &Value, right: &Value) -> bool
    ensures { result ≡ compare_so is_ge left.now right.now }
{
    match value_order(left, right) {
        Some(order) => order.is_ge(),
        None => false,
    }
}
