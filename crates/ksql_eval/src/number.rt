ghost use Rattle.std.specs.Prelude.{◌≡◌, neg_ℤ};
ghost use Rattle.std.specs.Int.{w32, w64, int_wrap};
ghost use Rattle.ksql_expr.specs.Value.{whole, number, from_one, from_two, sum, difference, product, quotient, remainder, magnitude, fitting, widened};

use ksql_types::{SqlType, Value};

/// The whole number of an INTEGER or BIGINT value.
pub fn whole(value: &Value) -> Option<i64>
    ensures { result ≡ whole value.now }
{
    match value {
        Value::Int(number) => Some(i64::from(*number)),
        Value::Big(number) => Some(*number),
        _ => None,
    }
}

/// The low 32 bits of a number, in two's complement.
fn low_half(exact: i128) -> i32
    ensures { result ≡ int_wrap w32 exact }
{
    (exact.rem_euclid(1 << 32) as u32).cast_signed()
}

/// The low 64 bits of a number, in two's complement.
fn low_word(exact: i128) -> i64
    ensures { result ≡ int_wrap w64 exact }
{
    (exact.rem_euclid(1 << 64) as u64).cast_signed()
}

/// A number wrapped into the range of a type, in two's complement; NULL for any other type.
pub fn number_in(ty: Option<SqlType>, exact: i128) -> Value
    ensures { result ≡ number ty exact }
{
    match ty {
        Some(SqlType::Int) => Value::Int(low_half(exact)),
        Some(SqlType::Big) => Value::Big(low_word(exact)),
        _ => Value::Null,
    }
}

/// The sum in a type; NULL if an operand is NULL.
pub fn sum(ty: Option<SqlType>, left: &Value, right: &Value) -> Value
    ensures { result ≡ from_two ty sum left.now right.now }
{
    match (whole(left), whole(right)) {
        (Some(left), Some(right)) => number_in(ty, i128::from(left) + i128::from(right)),
        _ => Value::Null,
    }
}

/// The difference in a type; NULL if an operand is NULL.
pub fn difference(ty: Option<SqlType>, left: &Value, right: &Value) -> Value
    ensures { result ≡ from_two ty difference left.now right.now }
{
    match (whole(left), whole(right)) {
        (Some(left), Some(right)) => number_in(ty, i128::from(left) - i128::from(right)),
        _ => Value::Null,
    }
}

/// The product in a type; NULL if an operand is NULL.
pub fn product(ty: Option<SqlType>, left: &Value, right: &Value) -> Value
    ensures { result ≡ from_two ty product left.now right.now }
{
    match (whole(left), whole(right)) {
        (Some(left), Some(right)) => number_in(ty, i128::from(left) * i128::from(right)),
        _ => Value::Null,
    }
}

/// The quotient in a type, rounded toward zero; NULL if the divisor is 0 or an operand is NULL.
pub fn quotient(ty: Option<SqlType>, left: &Value, right: &Value) -> Value
    ensures { result ≡ from_two ty quotient left.now right.now }
{
    match (whole(left), whole(right)) {
        (Some(_), Some(0)) => Value::Null,
        (Some(left), Some(right)) => number_in(ty, i128::from(left) / i128::from(right)),
        _ => Value::Null,
    }
}

/// The remainder in a type, with the sign of the left operand; NULL if the divisor is 0 or an operand is NULL.
pub fn remainder(ty: Option<SqlType>, left: &Value, right: &Value) -> Value
    ensures { result ≡ from_two ty remainder left.now right.now }
{
    match (whole(left), whole(right)) {
        (Some(_), Some(0)) => Value::Null,
        (Some(left), Some(right)) => number_in(ty, i128::from(left) % i128::from(right)),
        _ => Value::Null,
    }
}

/// The negated number, in a type; NULL for NULL.
pub fn negated(ty: Option<SqlType>, value: &Value) -> Value
    ensures { result ≡ from_one ty neg_ℤ value.now }
{
    match whole(value) {
        Some(whole) => number_in(ty, -i128::from(whole)),
        None => Value::Null,
    }
}

/// The absolute value, in a type; NULL for NULL.
pub fn magnitude(ty: Option<SqlType>, value: &Value) -> Value
    ensures { result ≡ from_one ty magnitude value.now }
{
    match whole(value) {
        Some(whole) => number_in(ty, i128::from(whole).abs()),
        None => Value::Null,
    }
}

/// The number in a type, or NULL if it is out of range.
pub fn fitting(to: SqlType, number: i64) -> Value
    ensures { result ≡ fitting to number }
{
    match to {
        SqlType::Int => match i32::try_from(number) {
            Ok(number) => Value::Int(number),
            Err(_) => Value::Null,
        },
        SqlType::Big => Value::Big(number),
        _ => Value::Null,
    }
}

/// An INTEGER as a BIGINT if that is the type; any other value unchanged.
pub fn widened(ty: Option<SqlType>, value: Value) -> Value
    ensures { result ≡ widened ty value }
{
    match (ty, value) {
        (Some(SqlType::Big), Value::Int(number)) => Value::Big(i64::from(number)),
        (_, value) => value,
    }
}
